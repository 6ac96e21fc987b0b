//! The decision on the withdrawal of a tender.
ghost use Rattle.std.specs.Prelude.{◌≡◌, ◌+◌, ◌≤◌, ◌<◌, ◌++◌, [], IfErr, IfOk, Some, None, false, vec_len, vec_capacity};
ghost use Rattle.office_values.specs.declared.refusal.Refusal.TheVariants.{Unavailable};
ghost use Rattle.office_base.specs.Deciding.{Decides};
ghost use Rattle.office_base.specs.Rows.{holds_of};
ghost use Rattle.office_base.specs.Rules.{first_of};
ghost use Rattle.office_base.specs.Transitions.{is_expired, is_late, put_if, security_settled};
ghost use Rattle.tender_core.specs.Rules.Withdraw.{CantWithdraw, cant_be_taken_back, is_decided, taken_back_puts, withdraw_lacks, withdraw_tests, withdraw_puts};

use crate::tenders::{is_by, is_late, is_past_deadline, withdrawn};
use office_base::puts::Put;
use office_base::records::{
    ClockRow, EnvelopeRow, EnvelopeState, LateRow, LotRow, LotState, NoticeRow, SecurityRow,
    SecurityState,
};
use office_base::transitions::{at_moment, is_expired, lacks_security, passed_over, settled};
use office_commands::command::Caller;
use office_values::moment::Moment;
use office_values::refusal::{Refusal, Thing};
use std::alloc::{AllocError, Global};

/// The rows that a withdrawal reads: the tender, its notice, its lot, the row that allows late withdrawals, its security, and the clock.
#[derive(Drop)]
pub struct WithdrawRows {
    pub envelope: Option<EnvelopeRow>,
    pub notice: Option<NoticeRow>,
    pub lot: Option<LotRow>,
    pub late: Option<LateRow>,
    pub security: Option<SecurityRow>,
    pub clock: ClockRow,
}

// Whether the state of the tender forbids its withdrawal: only a sealed tender can be withdrawn, or from the deadline on also an opened one.
fn cant_be_taken_back(is_late: bool, envelope: &EnvelopeRow) -> bool
    ensures { result ≡ cant_be_taken_back is_late envelope.now }
{
    match envelope.state {
        EnvelopeState::Sealed => false,
        EnvelopeState::Opened => !is_late,
        EnvelopeState::Withdrawn | EnvelopeState::Returned => true,
    }
}

// Whether the tender can't win any more, or its lot is no longer undecided.
fn is_decided(envelope: &EnvelopeRow, lot: &Option<LotRow>) -> bool
    ensures { result ≡ is_decided (Some envelope.now) lot.now }
{
    let is_closed = match lot {
        Some(row) => row.state != LotState::Undecided,
        None => false,
    };
    envelope.failed || is_closed
}

// Whether the notice exists, and the validity of its tenders has ended.
fn is_over(t: Moment, notice: &Option<NoticeRow>) -> bool
    ensures { result ≡ holds_of (is_expired t) notice.now }
{
    match notice {
        Some(row) => is_expired(t, row),
        None => false,
    }
}

// Appends the change of the tender's security, if it has one: returned or forfeited. It allocates no memory.
fn push_settled(made: &mut Vec<Put>, security: Option<SecurityRow>, state: SecurityState)
    requires { vec_len made.old < vec_capacity made.old }
    ensures { made.new.items ≡ made.old.items ++ put_if (security_settled state) security }
{
    if let Some(row) = security {
        made.push_reserved(Put::Security(settled(row, state)));
    }
}

// The changes of this tender and this security, before the deadline or from the deadline on, in these places. It allocates no memory, and can't fail.
fn taken_back(
    places: Vec<Put>,
    t: Moment,
    clock: ClockRow,
    row: EnvelopeRow,
    security: Option<SecurityRow>,
    is_late: bool,
) -> Vec<Put>
    requires empty { places.items ≡ [] }
    requires enough { vec_len places + 4 ≤ vec_capacity places }
    ensures puts { result.items ≡ taken_back_puts clock t row security is_late }
{
    let mut made = places;
    if is_late {
        made.push_reserved(Put::Envelope(passed_over(row)));
        made.push_reserved(Put::Clock(at_moment(clock, t)));
        push_settled(&mut made, security, SecurityState::Forfeited);
    } else {
        let receipt = row.receipt;
        made.push_reserved(Put::Envelope(withdrawn(row)));
        made.push_reserved(Put::DropSeal(receipt));
        made.push_reserved(Put::Clock(at_moment(clock, t)));
        push_settled(&mut made, security, SecurityState::Returned);
    }
    made
}

/// The refusal of the withdrawal, if one of its conditions is true.
pub fn refusal(t: Moment, caller: &Caller, rows: &WithdrawRows) -> Option<Refusal>
    ensures { result ≡ first_of (withdraw_tests rows.now t caller.now) }
{
    let Some(row) = &rows.envelope else {
        return Some(Refusal::NoSuch(Thing::Tender));
    };
    if !is_by(caller, &row.tenderer) {
        return Some(Refusal::NotYourTender);
    }
    let is_past = is_past_deadline(t, &rows.notice);
    let is_late = rows.late.is_some() && is_past;
    if is_past && !is_late {
        return Some(Refusal::DeadlinePassed);
    }
    if cant_be_taken_back(is_late, row) {
        return Some(Refusal::NotSealed);
    }
    if is_late && is_decided(row, &rows.lot) {
        return Some(Refusal::AlreadyDecided);
    }
    if is_late && is_over(t, &rows.notice) {
        return Some(Refusal::Expired);
    }
    None
}

/// An empty list with places for the changes of a withdrawal, four at most.
pub fn places(alloc: Global) -> Result<Vec<Put>, AllocError>
    ensures empty { IfOk result (λ places. places.items ≡ []) }
    ensures enough { IfOk result (λ places. vec_len places + 4 ≤ vec_capacity places) }
{
    Vec::with_capacity(alloc, 4)
}

/// The changes of the withdrawal, in these places. It allocates no memory. `Unavailable` exactly if the tender, its notice, its lot or the security that it names
/// doesn't exist.
pub fn puts(places: Vec<Put>, t: Moment, rows: WithdrawRows) -> Result<Vec<Put>, Refusal>
    requires empty { places.items ≡ [] }
    requires enough { vec_len places + 4 ≤ vec_capacity places }
    ensures puts { IfOk result (λ made. made.items ≡ withdraw_puts rows t) }
    ensures whole { IfOk result (λ _. withdraw_lacks rows ≡ false) }
    ensures fault { IfErr result (λ e. (e ≡ Unavailable) × CantWithdraw rows) }
{
    let late = is_late(&rows.late, t, &rows.notice);
    let envelope = rows.envelope.ok_or(Refusal::Unavailable)?;
    if rows.notice.is_none() || rows.lot.is_none() {
        return Err(Refusal::Unavailable);
    }
    if lacks_security(&envelope, &rows.security) {
        return Err(Refusal::Unavailable);
    }
    let made = taken_back(places, t, rows.clock, envelope, rows.security, late);
    Ok(made)
}

/// Decides the withdrawal of a tender: the result is its refusal or its changes.
#[tactic(auto, unfolding(office_base::specs::Deciding::Decides))]
pub fn decide_withdraw(
    alloc: Global,
    t: Moment,
    caller: &Caller,
    rows: WithdrawRows,
) -> Result<Vec<Put>, Refusal>
    ensures { Decides result (first_of (withdraw_tests rows t caller.now)) (withdraw_lacks rows) (withdraw_puts rows t) }
{
    match refusal(t, caller, &rows) {
        Some(why) => Err(why),
        None => puts(places(alloc)?, t, rows),
    }
}
