//! The plan for an amendment of a notice: its reply, its release and its changes.
ghost use Rattle.std.specs.Prelude.{◌≡◌, true, IfErr, IfOk};
ghost use Rattle.office_commands.specs.Rights.{may};
ghost use Rattle.office_commands.specs.declared.command.CommandKind.TheVariants as kinds;
ghost use Rattle.office_commands.specs.declared.commands.Command.TheVariants.{AmendNotice};
ghost use Rattle.office_base.specs.Shelves.{Looks, LooksUp};
ghost use Rattle.office_base.specs.Tables.{Tables};
ghost use Rattle.office_plans.specs.Asking.{given_by};
ghost use Rattle.office_plans.specs.Published.{IsPlanned, TellsRefusal};
ghost use Rattle.office_plans.specs.Released.{IsReleased};
ghost use Rattle.office_publications.specs.NoticeEvents.{deadline_in};
ghost use Rattle.office_values.specs.declared.refusal.Refusal.TheVariants.{Unavailable};
ghost use Rattle.tender_core.specs.Rules.AmendNotice.{amend_notice_rows};

use crate::planned::Planned;
use crate::published::{Released, make_release, published};
use crate::replies::notice_reply;
use ocds_release::borrowed::BorrowedLine;
use ocds_release::event::{Event, NoticeAmended};
use office_base::laws::looks_follow;
use office_base::records::NoticeRow;
use office_base::shelf::{Lookups, ShelfFault};
use office_values::id::Id;
use office_values::moment::Moment;
use office_values::refusal::Refusal;
use office_values::settings::Publisher;
use office_values::text::TextLine;
use std::alloc::Global;
use tender_core::amend_notice::{AmendNoticeRows, puts, refusal};
use tender_core::asking::Asking;

// Loads the rows by which the command is decided.
fn load<H: Lookups>(shelf: &mut H, notice: &Id) -> Result<AmendNoticeRows, ShelfFault>
    ensures { LooksUp H.meaning shelf.old shelf.new result (λ s rows. rows ≡ amend_notice_rows s notice.now) }
{
    Ok(AmendNoticeRows {
        notice: shelf.get_notice(notice)?,
        clock: shelf.get_clock()?,
    })
}

// The deadline before the amendment, or the first moment if the notice doesn't exist.
fn deadline_in(row: &Option<NoticeRow>) -> Moment
    ensures { result ≡ deadline_in row.now }
{
    match row {
        Some(notice) => notice.deadline,
        None => Moment::EPOCH,
    }
}

// The release of an accepted amendment.
fn release(
    alloc: Global,
    publisher: &Publisher,
    asking: &Asking,
    rows: &AmendNoticeRows,
    notice: Id,
    deadline: Moment,
    rationale: &TextLine,
) -> Result<Released, Refusal>
    ensures release { IfOk result (λ release. (s : Tables) → rows.now ≡ amend_notice_rows s notice
        → IsReleased publisher.now (given_by asking.now s (AmendNotice notice deadline rationale.now)) release) }
    ensures none { IfErr result (λ why. why ≡ Unavailable) }
{
    let before = deadline_in(&rows.notice);
    let rationale = BorrowedLine::of(rationale);
    let event = Event::Amend(NoticeAmended {
        notice,
        before,
        after: deadline,
        rationale,
    });
    let t = asking.time(&rows.clock);
    make_release(alloc, publisher, notice, &rows.notice, t, &event)
}

/// Plans an amendment of a notice. A refusal needs no memory except for the rows. Only the release has the rationale.
pub fn plan<H: Lookups>(
    alloc: Global,
    shelf: &mut H,
    publisher: &Publisher,
    asking: &Asking,
    notice: Id,
    deadline: Moment,
    rationale: TextLine,
) -> Result<Planned, Refusal>
    requires { may asking.now.caller.now kinds.AmendNotice ≡ true }
    ensures looks { Looks H.meaning shelf.old shelf.new (λ s. IsPlanned publisher.now (given_by asking.now s (AmendNotice notice deadline rationale)) result) }
    ensures tells { TellsRefusal H.meaning shelf.old shelf.new (λ s. given_by asking.now s (AmendNotice notice deadline rationale)) result }
{
    looks_follow::<H>();
    let rows = load(shelf, &notice)?;
    let t = asking.time(&rows.clock);
    if let Some(why) = refusal(t, &rows, deadline) {
        return Err(why);
    }
    let release = release(
        alloc, publisher, asking, &rows, notice, deadline, &rationale,
    )?;
    let text = notice_reply(alloc, asking, notice, release.seq, &rows.clock)?;
    let puts = puts(alloc, t, rows, deadline)?;
    published(alloc, shelf, publisher, puts, text, release)
}
