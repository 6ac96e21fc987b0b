//! The plan for a cancellation: its reply, its release and its changes.
ghost use Rattle.std.specs.Prelude.{◌≡◌, [], IfErr, IfOk, filter, map, true};
ghost use Rattle.office_commands.specs.Rights.{may};
ghost use Rattle.office_commands.specs.declared.command.CommandKind.TheVariants as kinds;
ghost use Rattle.office_commands.specs.declared.commands.Command.TheVariants.{Cancel};
ghost use Rattle.office_base.specs.Shelves.{Looks, LooksUp};
ghost use Rattle.office_base.specs.Tables.{Tables};
ghost use Rattle.office_plans.specs.Asking.{given_by};
ghost use Rattle.office_plans.specs.Named.{line_of_lot, lines_named, cancel_named};
ghost use Rattle.office_plans.specs.Published.{IsPlanned, TellsRefusal};
ghost use Rattle.office_plans.specs.Released.{IsReleased};
ghost use Rattle.office_values.specs.declared.refusal.Refusal.TheVariants.{Unavailable};
ghost use Rattle.tender_core.specs.Agreeing.{cancel_on};
ghost use Rattle.tender_core.specs.Rules.Cancel.{cancel_rows, is_open_lot};

use crate::events::{ended_awards, open_lots};
use crate::lines::load_line;
use crate::planned::Planned;
use crate::published::{Released, make_release, published};
use crate::replies::notice_reply;
use keyed_table::table::Table;
use ocds_release::borrowed::{BorrowedLine, Listed};
use ocds_release::event::{Event, NoticeCancelled};
use ocds_release::tender_status::{states_cancelled, status_of};
use office_base::laws::{looks_follow, rows_are_kept};
use office_base::records::{LineRow, LotRow};
use office_base::rows::Rows;
use office_base::shelf::{Lookups, ShelfFault};
use office_values::id::Id;
use office_values::refusal::Refusal;
use office_values::settings::Publisher;
use office_values::text::TextLine;
use std::alloc::Global;
use tender_core::asking::Asking;
use tender_core::cancel::{CancelRows, puts, refusal};
use tender_core::ended::is_open;
use tender_core::laws::cancels_agree;

// The budget lines of the open lots.
fn load_lines<H: Lookups>(
    alloc: Global,
    shelf: &mut H,
    lots: &[LotRow],
) -> Result<Table<LineRow>, ShelfFault>
    ensures { Looks H.meaning shelf.old shelf.new (λ s. IfOk result (λ lines. lines ≡ lines_named s (map line_of_lot (filter is_open_lot lots.now)))) }
{
    let mut lines = Table::new(alloc);
    for lot in lots {
        if is_open(lot) {
            load_line(shelf, &mut lines, &lot.line)?;
        }
    }
    Ok(lines)
}

// Loads all rows by which the command is decided, except for the budget lines: no refusal depends on them. Takes no memory except for these rows.
fn load<H: Lookups>(alloc: Global, shelf: &mut H, notice: &Id) -> Result<CancelRows, ShelfFault>
    ensures { LooksUp H.meaning shelf.old shelf.new result (λ s rows. rows ≡ cancel_on [] (cancel_rows s notice.now)) }
{
    let clock = shelf.get_clock()?;
    let row = shelf.get_notice(notice)?;
    let awards = shelf.list_awards_of_notice(notice)?;
    let securities = shelf.list_securities_of_notice(notice)?;
    let envelopes = shelf.list_envelopes_of_notice(notice)?;
    let lots = shelf.list_lots_of_notice(notice)?;
    Ok(CancelRows {
        notice: row,
        lines: Table::new(alloc),
        lots: Rows::from_vec(lots),
        awards: Rows::from_vec(awards),
        envelopes: Rows::from_vec(envelopes),
        securities: Rows::from_vec(securities),
        clock,
    })
}

// Adds the budget lines of the open lots. With these lines the decision is the same as with all lines of the office.
fn with_lines<H: Lookups>(
    alloc: Global,
    shelf: &mut H,
    found: CancelRows,
) -> Result<CancelRows, ShelfFault>
    ensures { Looks H.meaning shelf.old shelf.new (λ s. IfOk result (λ rows.
        rows ≡ cancel_on (lines_named s (map line_of_lot (filter is_open_lot found.lots))) found)) }
{
    let mut rows = found;
    rows.lines = load_lines(alloc, shelf, rows.lots.as_slice())?;
    Ok(rows)
}

// The release of an accepted cancellation. It names the open lots and their active awards.
fn release(
    alloc: Global,
    publisher: &Publisher,
    asking: &Asking,
    rows: &CancelRows,
    notice: Id,
    rationale: &TextLine,
) -> Result<Released, Refusal>
    ensures release { IfOk result (λ release. (s : Tables) → rows.now ≡ cancel_named s notice
        → IsReleased publisher.now (given_by asking.now s (Cancel notice rationale.now)) release) }
    ensures none { IfErr result (λ why. why ≡ Unavailable) }
{
    let lots = rows.lots.as_slice();
    let awards = rows.awards.as_slice();
    let open = open_lots(alloc, lots)?;
    let ended = ended_awards(alloc, lots, awards)?;
    let states = states_cancelled(alloc, lots)?;
    let lots = Listed::of(open.as_slice());
    let awards = Listed::of(ended.as_slice());
    let rationale = BorrowedLine::of(rationale);
    let status = status_of(states.as_slice());
    let event = Event::Cancel(NoticeCancelled {
        notice,
        lots,
        awards,
        rationale,
        status,
    });
    let t = asking.time(&rows.clock);
    make_release(alloc, publisher, notice, &rows.notice, t, &event)
}

/// Plans a cancellation. A refusal needs no memory except for the rows, and looks up no budget line. Only the release has the rationale.
pub fn plan<H: Lookups>(
    alloc: Global,
    shelf: &mut H,
    publisher: &Publisher,
    asking: &Asking,
    notice: Id,
    rationale: TextLine,
) -> Result<Planned, Refusal>
    requires { may asking.now.caller.now kinds.Cancel ≡ true }
    ensures looks { Looks H.meaning shelf.old shelf.new (λ s. IsPlanned publisher.now (given_by asking.now s (Cancel notice rationale)) result) }
    ensures tells { TellsRefusal H.meaning shelf.old shelf.new (λ s. given_by asking.now s (Cancel notice rationale)) result }
{
    looks_follow::<H>();
    rows_are_kept::<LineRow>();
    cancels_agree();
    let found = load(alloc, shelf, &notice)?;
    let t = asking.time(&found.clock);
    if let Some(why) = refusal(&found) {
        return Err(why);
    }
    let rows = with_lines(alloc, shelf, found)?;
    let release = release(alloc, publisher, asking, &rows, notice, &rationale)?;
    let text = notice_reply(alloc, asking, notice, release.seq, &rows.clock)?;
    let puts = puts(alloc, t, rows)?;
    published(alloc, shelf, publisher, puts, text, release)
}
