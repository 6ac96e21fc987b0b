//! The decision on the cancellation of a notice.
ghost use Rattle.std.specs.Prelude.{◌≡◌, ◌∷◌, ◌++◌, [], IfOk, IfErr, IfSome, IfNone, OnOk, Some, filter, map, true, false};
ghost use Rattle.std.specs.List.{list_any};
ghost use Rattle.office_values.specs.declared.refusal.Refusal.TheVariants.{Unavailable};
ghost use Rattle.office_base.specs.Deciding.{Decides};
ghost use Rattle.office_base.specs.Rules.{first_of};
ghost use Rattle.office_base.specs.Transitions.{has_all_releases, clock_put, security_returned};
ghost use Rattle.office_base.specs.declared.puts.Put.TheVariants as puts;
ghost use Rattle.tender_core.specs.Rules.Cancel.{award_put, cancel_lacks, cancel_puts, cancel_tests, cancelled_lot_put, cancelled_notice, drop_put, envelope_put, freed_line_put, is_ended_award, is_ended_envelope, is_ended_security, is_open_lot};

use crate::ended::{
    is_open, push_awards, push_drops, push_envelopes, push_lines, push_lots, push_securities,
    some_lacks_line,
};
use keyed_table::table::Table;
use office_base::counts::ReleaseCount;
use office_base::puts::Put;
use office_base::records::{
    AwardRow, ClockRow, EnvelopeRow, LineRow, LotRow, NoticeRow, NoticeState, SecurityRow,
};
use office_base::rows::Rows;
use office_base::transitions::{at_moment, has_all_releases};
use office_values::moment::Moment;
use office_values::refusal::{Refusal, Thing};
use std::alloc::Global;

/// The rows that a cancellation reads: the notice, its lots, the budget lines of the open ones, its awards, its tenders, their securities, and the clock.
#[derive(Drop)]
pub struct CancelRows {
    pub notice: Option<NoticeRow>,
    pub lines: Table<LineRow>,
    pub lots: Rows<LotRow>,
    pub awards: Rows<AwardRow>,
    pub envelopes: Rows<EnvelopeRow>,
    pub securities: Rows<SecurityRow>,
    pub clock: ClockRow,
}

// Whether some lot is still undecided or awarded.
fn some_is_open(lots: &[LotRow]) -> bool
    ensures { result ≡ list_any is_open_lot lots.now }
{
    lots.iter().any(|row| is_open(row))
}

/// The refusal of the cancellation, if one of its conditions is true.
pub fn refusal(rows: &CancelRows) -> Option<Refusal>
    ensures { result ≡ first_of (cancel_tests rows.now) }
{
    if rows.notice.is_none() {
        return Some(Refusal::NoSuch(Thing::Notice));
    }
    if !some_is_open(rows.lots.as_slice()) {
        return Some(Refusal::NothingToCancel);
    }
    if has_all_releases(&rows.notice) {
        return Some(Refusal::LimitReached);
    }
    None
}

// The notice with one more release, cancelled if it was receiving tenders. None if it has as many releases as it can have.
fn cancelled(notice: NoticeRow) -> Option<NoticeRow>
    ensures found { IfSome result (λ row. row ≡ cancelled_notice notice) }
    ensures none { IfNone result (has_all_releases (Some notice) ≡ true) }
{
    let releases = ReleaseCount::read(notice.releases.get() + 1)?;
    let state = match notice.state {
        NoticeState::Receiving => NoticeState::Cancelled,
        NoticeState::Opened => NoticeState::Opened,
        NoticeState::Cancelled => NoticeState::Cancelled,
    };
    Some(NoticeRow {
        state,
        releases,
        ..notice
    })
}

// Appends the changes of the notice and the clock.
fn push_notice(
    made: &mut Vec<Put>,
    t: Moment,
    clock: ClockRow,
    notice: NoticeRow,
) -> Result<(), Refusal>
    ensures puts { OnOk result (made.new.items ≡ made.old.items ++ (puts.Notice (cancelled_notice notice) ∷ clock_put clock t ∷ [])) }
    ensures fault { IfErr result (λ e. e ≡ Unavailable) }
{
    let row = cancelled(notice).ok_or(Refusal::Unavailable)?;
    made.push(Put::Notice(row))?;
    made.push(Put::Clock(at_moment(clock, t)))?;
    Ok(())
}

// Appends the changes of the lots that end: their budget lines, the lots, their awards, their tenders without the bytes, and their securities. It borrows all
// rows, so that an early return has nothing to drop.
fn push_ended(made: &mut Vec<Put>, rows: &CancelRows) -> Result<(), Refusal>
    ensures puts { OnOk result (made.new.items ≡ ((((((made.old.items
        ++ map (freed_line_put rows.now.lines (filter is_open_lot rows.now.lots)) (filter is_open_lot rows.now.lots))
        ++ map cancelled_lot_put (filter is_open_lot rows.now.lots))
        ++ map award_put (filter (is_ended_award rows.now.lots) rows.now.awards))
        ++ map envelope_put (filter (is_ended_envelope rows.now.lots) rows.now.envelopes))
        ++ map drop_put (filter (is_ended_envelope rows.now.lots) rows.now.envelopes))
        ++ map security_returned (filter (is_ended_security rows.now.lots) rows.now.securities))) }
    ensures fault { IfErr result (λ e. e ≡ Unavailable) }
{
    let lots = rows.lots.as_slice();
    push_lines(made, &rows.lines, lots)?;
    push_lots(made, lots)?;
    push_awards(made, lots, rows.awards.as_slice())?;
    push_envelopes(made, lots, rows.envelopes.as_slice())?;
    push_drops(made, lots, rows.envelopes.as_slice())?;
    push_securities(made, lots, rows.securities.as_slice())?;
    Ok(())
}

/// The changes of the cancellation: budget lines, lots, awards, tenders, securities, the notice and the clock. `Unavailable` if the notice or the budget line
/// of a lot that ends doesn't exist. It is also the answer if the notice has as many releases as it can have, or if a line would have more than 10^15 free.
pub fn puts(alloc: Global, t: Moment, rows: CancelRows) -> Result<Vec<Put>, Refusal>
    ensures puts { IfOk result (λ made. made.items ≡ cancel_puts rows t) }
    ensures whole { IfOk result (λ _. cancel_lacks rows ≡ false) }
    ensures fault { IfErr result (λ e. e ≡ Unavailable) }
{
    if rows.notice.is_none() || some_lacks_line(&rows.lines, rows.lots.as_slice()) {
        return Err(Refusal::Unavailable);
    }
    let mut made = Vec::new(alloc);
    push_ended(&mut made, &rows)?;
    push_notice(&mut made, t, rows.clock, rows.notice.unwrap())?;
    Ok(made)
}

/// Decides the cancellation of a notice: the result is its refusal or its changes. It reads only the budget lines of lots that are still open.
#[tactic(auto, unfolding(office_base::specs::Deciding::Decides))]
pub fn decide_cancel(alloc: Global, t: Moment, rows: CancelRows) -> Result<Vec<Put>, Refusal>
    ensures { Decides result (first_of (cancel_tests rows)) (cancel_lacks rows) (cancel_puts rows t) }
{
    match refusal(&rows) {
        Some(why) => Err(why),
        None => puts(alloc, t, rows),
    }
}
