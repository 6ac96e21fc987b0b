//! The caller's own tenders of a notice.
ghost use Rattle.std.specs.Prelude.{◌≡◌, true, IfOk, IfErr, map};
ghost use Rattle.std.specs.List.{flat_map};
ghost use Rattle.office_commands.specs.Rights.{may_look};
ghost use Rattle.office_commands.specs.declared.command.Caller.TheVariants.{Tenderer};
ghost use Rattle.office_commands.specs.declared.command.QueryKind.TheVariants as kinds;
ghost use Rattle.office_commands.specs.declared.queries.Query.TheVariants.{OwnTenders};
ghost use Rattle.office_values.specs.declared.refusal.Refusal.TheVariants.{Unavailable};
ghost use Rattle.office_base.specs.Shelves.{Looks};
ghost use Rattle.office_machine.specs.Replies.{OwnTendersSeen};
ghost use Rattle.office_machine.specs.Sights.{own_of_lot, own_tender};
ghost use Rattle.office_plans.specs.Replies.{reply_text};
ghost use Rattle.office_plans.specs.RowMembers.{own_tender_entries};
ghost use Rattle.office_desk.specs.Steps.{IsShown, TellsQuery, read_text};

use json::Writer;
use office_base::laws;
use office_base::records::{EnvelopeRow, LotRow};
use office_base::shelf::Lookups;
use office_commands::command::Caller;
use office_plans::objects::{Plain, RowObject, number_of, rows_text, write_object};
use office_plans::words::state_word;
use office_values::id::Id;
use office_values::refusal::{Refusal, Thing};
use std::alloc::{AllocError, Global};

// Shows a tender in its tenderer's list.
struct ListedTender;

impl RowObject for ListedTender {
    type Row = EnvelopeRow;

    ghost members_of = { λ _ row. own_tender_entries (own_tender row) };

    fn write(&self, alloc: Global, out: &mut Writer, row: &EnvelopeRow) -> Result<(), AllocError> {
        let length = row.length.get();
        let receipt = row.receipt.get();
        let security = number_of(row.security);
        let word = state_word(row.state);
        write_object(
            alloc,
            out,
            &[
                ("digest", Plain::Digest(row.digest)),
                ("length", Plain::Number(length)),
                ("lot", Plain::Id(row.lot)),
                ("moment", Plain::Moment(row.moment)),
                ("receipt", Plain::Number(receipt)),
                ("security", Plain::Count(security)),
                ("state", Plain::Text(word)),
            ],
        )
    }
}

// The tenders that this tenderer submitted for these lots, lot by lot. No other tender is looked up.
fn load_tenders<H: Lookups>(
    alloc: Global,
    shelf: &mut H,
    lots: &[LotRow],
    tenderer: Id,
) -> Result<Vec<EnvelopeRow>, Refusal>
    ensures looks { Looks H.meaning shelf.old shelf.new (λ s. IfOk result (λ rows. rows.items ≡ flat_map (own_of_lot (Tenderer tenderer) s) lots.now)) }
    ensures fault { IfErr result (λ e. e ≡ Unavailable) }
{
    laws::looks_follow::<H>();
    let mut all = Vec::new(alloc);
    for lot in lots {
        let mut rows = shelf.list_envelopes_of_tenderer(&lot.notice, &lot.lot, &tenderer)?;
        all.append(&mut rows)?;
    }
    Ok(all)
}

// The text of the list.
fn tenders_text(alloc: Global, rows: &[EnvelopeRow]) -> Result<Vec<u8>, AllocError>
    ensures { IfOk result (λ text. text.items ≡ reply_text (OwnTendersSeen (map own_tender rows.now))) }
{
    rows_text(alloc, &[], "tenders", &ListedTender, rows, &[])
}

/// Shows the tenders of a notice that the caller submitted, in any state.
#[tactic(auto, using(crate::proofs::Rising::has_risen))]
pub(crate) fn look<H: Lookups>(
    alloc: Global,
    shelf: &mut H,
    caller: &Caller,
    notice: Id,
) -> Result<Vec<u8>, Refusal>
    requires { may_look caller.now kinds.OwnTenders ≡ true }
    ensures looks { Looks H.meaning shelf.old shelf.new (λ s. IsShown caller.now (OwnTenders notice) s (read_text result)) }
    ensures tells { TellsQuery H.meaning shelf.old shelf.new caller.now (OwnTenders notice) result }
{
    laws::looks_follow::<H>();
    let Caller::Tenderer(tenderer) = caller else {
        return Err(Refusal::Unavailable);
    };
    if shelf.get_notice(&notice)?.is_none() {
        return Err(Refusal::NoSuch(Thing::Notice));
    }
    let lots = shelf.list_lots_of_notice(&notice)?;
    let rows = load_tenders(alloc, shelf, &lots, *tenderer)?;
    Ok(tenders_text(alloc, &rows)?)
}
