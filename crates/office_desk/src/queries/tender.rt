//! The query for a tender.
ghost use Rattle.std.specs.Prelude.{◌≡◌, true, IfOk};
ghost use Rattle.office_commands.specs.Rights.{may_look};
ghost use Rattle.office_commands.specs.declared.command.QueryKind.TheVariants as kinds;
ghost use Rattle.office_commands.specs.declared.queries.Query.TheVariants.{Tender};
ghost use Rattle.office_base.specs.Shelves.{Looks};
ghost use Rattle.office_machine.specs.Replies.{Tender as TenderSeen};
ghost use Rattle.office_plans.specs.Replies.{reply_text};
ghost use Rattle.office_desk.specs.Steps.{IsShown, TellsQuery, read_text};

use office_base::records::EnvelopeRow;
use office_base::shelf::Lookups;
use office_commands::command::Caller;
use office_plans::objects::{Plain, number_of, object_text};
use office_plans::words::state_word;
use office_values::given::AskedNumber;
use office_values::refusal::{Refusal, Thing};
use std::alloc::{AllocError, Global};
use tender_core::tenders::is_by;

// The text of a tender, in JSON.
fn tender_text(alloc: Global, row: &EnvelopeRow) -> Result<Vec<u8>, AllocError>
    ensures { IfOk result (λ text. text.items
        ≡ reply_text (TenderSeen row.now.digest row.now.length row.now.notice row.now.lot row.now.moment row.now.receipt row.now.security row.now.state)) }
{
    let length = row.length.get();
    let receipt = row.receipt.get();
    let security = number_of(row.security);
    let word = state_word(row.state);
    object_text(
        alloc,
        &[
            ("digest", Plain::Digest(row.digest)),
            ("length", Plain::Number(length)),
            ("lot", Plain::Id(row.lot)),
            ("moment", Plain::Moment(row.moment)),
            ("notice", Plain::Id(row.notice)),
            ("receipt", Plain::Number(receipt)),
            ("security", Plain::Count(security)),
            ("state", Plain::Text(word)),
        ],
    )
}

/// Shows a tender to the tenderer who submitted it.
#[tactic(auto, using(crate::proofs::Rising::has_risen))]
pub(crate) fn look<H: Lookups>(
    alloc: Global,
    shelf: &mut H,
    caller: &Caller,
    receipt: AskedNumber,
) -> Result<Vec<u8>, Refusal>
    requires { may_look caller.now kinds.Tender ≡ true }
    ensures looks { Looks H.meaning shelf.old shelf.new (λ s. IsShown caller.now (Tender receipt) s (read_text result)) }
    ensures tells { TellsQuery H.meaning shelf.old shelf.new caller.now (Tender receipt) result }
{
    let Some(row) = shelf.get_envelope(receipt)? else {
        return Err(Refusal::NoSuch(Thing::Tender));
    };
    if !is_by(caller, &row.tenderer) {
        return Err(Refusal::NotYourTender);
    }
    Ok(tender_text(alloc, &row)?)
}
