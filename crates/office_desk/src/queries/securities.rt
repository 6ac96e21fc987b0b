//! The tender securities of a notice.
ghost use Rattle.std.specs.Prelude.{◌≡◌, true, IfOk, map};
ghost use Rattle.office_commands.specs.Rights.{may_look};
ghost use Rattle.office_commands.specs.declared.command.QueryKind.TheVariants as kinds;
ghost use Rattle.office_commands.specs.declared.queries.Query.TheVariants.{Securities};
ghost use Rattle.office_base.specs.Shelves.{Looks};
ghost use Rattle.office_machine.specs.Replies.{SecuritiesSeen};
ghost use Rattle.office_machine.specs.Sights.{listed_security};
ghost use Rattle.office_plans.specs.Replies.{reply_text};
ghost use Rattle.office_plans.specs.RowMembers.{listed_security_entries};
ghost use Rattle.office_desk.specs.Steps.{IsShown, TellsQuery, read_text};

use json::Writer;
use office_base::records::{NoticeRow, NoticeState, SecurityRow};
use office_base::shelf::Lookups;
use office_commands::command::Caller;
use office_plans::objects::{Plain, RowObject, rows_text, write_object};
use office_plans::words::security_word;
use office_values::id::Id;
use office_values::refusal::{Refusal, Thing};
use std::alloc::{AllocError, Global};

// Shows a security in the list of its notice.
#[derive(Drop)]
struct ListedSecurity<'a> {
    notice: &'a NoticeRow,
}

// The tenderer who named the security, or none while tenders are received.
fn named(notice: &NoticeRow, row: &SecurityRow) -> Option<Id>
    ensures { let listed = listed_security notice.now row.now in result ≡ listed.tenderer }
{
    if notice.state == NoticeState::Receiving {
        None
    } else {
        Some(row.tenderer)
    }
}

impl<'a> RowObject for ListedSecurity<'a> {
    type Row = SecurityRow;

    ghost members_of = { λ list row. listed_security_entries (listed_security list.notice.now row) };

    fn write(&self, alloc: Global, out: &mut Writer, row: &SecurityRow) -> Result<(), AllocError> {
        let amount = row.amount.get();
        let security = row.security.get();
        let word = security_word(row.state);
        let tenderer = named(self.notice, row);
        write_object(
            alloc,
            out,
            &[
                ("amount", Plain::Number(amount)),
                ("lot", Plain::Id(row.lot)),
                ("reference", Plain::Id(row.reference)),
                ("security", Plain::Number(security)),
                ("state", Plain::Text(word)),
                ("tenderer", Plain::Named(tenderer)),
            ],
        )
    }
}

// The text of the list.
fn securities_text(
    alloc: Global,
    notice: &NoticeRow,
    rows: &[SecurityRow],
) -> Result<Vec<u8>, AllocError>
    ensures { IfOk result (λ text. text.items ≡ reply_text (SecuritiesSeen (map (listed_security notice.now) rows.now))) }
{
    let list = ListedSecurity { notice };
    rows_text(alloc, &[], "securities", &list, rows, &[])
}

/// Shows the tender securities of a notice, in any state, to the clerk. While tenders are received, it doesn't show who named them.
#[tactic(auto, using(crate::proofs::Rising::has_risen))]
pub(crate) fn look<H: Lookups>(
    alloc: Global,
    shelf: &mut H,
    caller: &Caller,
    notice: Id,
) -> Result<Vec<u8>, Refusal>
    requires { may_look caller.now kinds.Securities ≡ true }
    ensures looks { Looks H.meaning shelf.old shelf.new (λ s. IsShown caller.now (Securities notice) s (read_text result)) }
    ensures tells { TellsQuery H.meaning shelf.old shelf.new caller.now (Securities notice) result }
{
    let Some(row) = shelf.get_notice(&notice)? else {
        return Err(Refusal::NoSuch(Thing::Notice));
    };
    let rows = shelf.list_securities_of_notice(&notice)?;
    Ok(securities_text(alloc, &row, &rows)?)
}
