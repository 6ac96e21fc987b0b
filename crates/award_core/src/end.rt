//! The decision on the end of a contract.
ghost use Rattle.std.specs.Prelude.{◌≡◌, ◌+◌, ◌≤◌, ◌<◌, ◌++◌, [], IfSome, IfOk, IfErr, false, vec_len, vec_capacity};
ghost use Rattle.office_values.specs.declared.refusal.Refusal.TheVariants.{Unavailable};
ghost use Rattle.office_base.specs.Deciding.{Decides};
ghost use Rattle.office_base.specs.Transitions.{performance_settled, put_if};
ghost use Rattle.office_base.specs.Rules.{first_of};
ghost use Rattle.award_core.specs.Rules.End.{CantEnd, end_lacks, end_tests, end_puts, ended_contract, ended_state, lacks_performance};

use crate::entries::{is_overdrawn, outstanding};
use crate::lines::with_free;
use office_base::puts::Put;
use office_base::records::{
    ClockRow, ContractRow, EntryRow, LineRow, NoticeRow, PerformanceRow, SecurityState,
};
use office_base::rows::Rows;
use office_base::transitions::{
    at_moment, has_all_releases, settled_performance, with_next_release,
};
use office_commands::contract::How;
use office_values::moment::Moment;
use office_values::money::Total;
use office_values::refusal::{Refusal, Thing};
use std::alloc::{AllocError, Global};

/// The rows that the end of a contract reads: the contract, its entries, its notice, its budget line, its performance security, and the clock.
#[derive(Drop)]
pub struct EndRows {
    pub contract: Option<ContractRow>,
    pub entries: Rows<EntryRow>,
    pub notice: Option<NoticeRow>,
    pub line: Option<LineRow>,
    pub performance: Option<PerformanceRow>,
    pub clock: ClockRow,
}

// Whether the notice requires a performance security, but its row is missing.
fn lacks_performance(notice: &NoticeRow, performance: &Option<PerformanceRow>) -> bool
    ensures { result ≡ lacks_performance notice.now performance.now }
{
    notice.performance.units() > 0 && performance.is_none()
}

// The final state of the performance security: returned if the contract ends as agreed, and forfeited by default.
fn ended_state(how: How) -> SecurityState
    ensures { result ≡ ended_state how }
{
    match how {
        How::Regular => SecurityState::Returned,
        How::ForDefault => SecurityState::Forfeited,
    }
}

// Appends the change of the performance security, if there is one. It allocates no memory.
fn push_settled(made: &mut Vec<Put>, security: Option<PerformanceRow>, state: SecurityState)
    requires { vec_len made.old < vec_capacity made.old }
    ensures { made.new.items ≡ made.old.items ++ put_if (performance_settled state) security }
{
    if let Some(row) = security {
        made.push_reserved(Put::Performance(settled_performance(row, state)));
    }
}

/// The refusal of the end, if one of its conditions is true.
pub fn refusal(rows: &EndRows) -> Option<Refusal>
    ensures { result ≡ first_of (end_tests rows.now) }
{
    let Some(contract) = &rows.contract else {
        return Some(Refusal::NoSuch(Thing::Contract));
    };
    if contract.ended.is_some() {
        return Some(Refusal::ContractEnded);
    }
    if has_all_releases(&rows.notice) {
        return Some(Refusal::LimitReached);
    }
    None
}

/// An empty list with places for the changes of an end, five at most.
pub fn places(alloc: Global) -> Result<Vec<Put>, AllocError>
    ensures empty { IfOk result (λ places. places.items ≡ []) }
    ensures enough { IfOk result (λ places. vec_len places + 5 ≤ vec_capacity places) }
{
    Vec::with_capacity(alloc, 5)
}

/// The changes of the end, in these places. It allocates no memory. `Unavailable` if a row is missing, if more was taken from the contract than was added, or if
/// a sum is above its bound. It is also the answer if the notice has as many releases as it can have.
pub fn puts(places: Vec<Put>, t: Moment, rows: EndRows, how: How) -> Result<Vec<Put>, Refusal>
    requires empty { places.items ≡ [] }
    requires enough { vec_len places + 5 ≤ vec_capacity places }
    ensures puts { IfOk result (λ made. made.items ≡ end_puts rows t how) }
    ensures whole { IfOk result (λ _. end_lacks rows ≡ false) }
    ensures fault { IfErr result (λ e. (e ≡ Unavailable) × CantEnd rows) }
{
    let contract = rows.contract.ok_or(Refusal::Unavailable)?;
    let notice = rows.notice.ok_or(Refusal::Unavailable)?;
    let line = rows.line.ok_or(Refusal::Unavailable)?;
    if lacks_performance(&notice, &rows.performance) {
        return Err(Refusal::Unavailable);
    }
    if is_overdrawn(rows.entries.as_slice(), &contract) {
        return Err(Refusal::Unavailable);
    }
    let rest = outstanding(rows.entries.as_slice(), &contract);
    let free = line.free.units() as u128 + rest;
    let notice = with_next_release(notice).ok_or(Refusal::Unavailable)?;
    let line = with_free(line, free).ok_or(Refusal::Unavailable)?;
    let contract = ContractRow {
        ended: Some(t),
        how: Some(how),
        released: Total::of_sum(rest).ok_or(Refusal::Unavailable)?,
        ..contract
    };
    let mut made = places;
    made.push_reserved(Put::Contract(contract));
    made.push_reserved(Put::Line(line));
    made.push_reserved(Put::Notice(notice));
    made.push_reserved(Put::Clock(at_moment(rows.clock, t)));
    push_settled(&mut made, rows.performance, ended_state(how));
    Ok(made)
}

/// Decides the end of a contract: the result is its refusal or its changes. `Unavailable` if a row is missing, if more was taken from the contract than was
/// added, or if a sum is above its bound. None of these is so in an office that its commands made.
#[tactic(auto, unfolding(office_base::specs::Deciding::Decides))]
pub fn decide_end(alloc: Global, t: Moment, rows: EndRows, how: How) -> Result<Vec<Put>, Refusal>
    ensures { Decides result (first_of (end_tests rows)) (end_lacks rows) (end_puts rows t how) }
{
    match refusal(&rows) {
        Some(why) => Err(why),
        None => puts(places(alloc)?, t, rows, how),
    }
}
