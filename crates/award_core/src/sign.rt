//! The decision on the signing of a contract.
ghost use Rattle.std.specs.Prelude.{◌≡◌, ◌+◌, ◌≤◌, ◌<◌, ◌++◌, [], IfOk, IfErr, false, length, vec_len, vec_capacity};
ghost use Rattle.office_values.specs.declared.refusal.Refusal.TheVariants.{Unavailable};
ghost use Rattle.office_base.specs.Deciding.{Decides};
ghost use Rattle.office_base.specs.Transitions.{put_if};
ghost use Rattle.office_base.specs.Rules.{first_of};
ghost use Rattle.award_core.specs.Rules.Sign.{CantSign, contract_row, is_missing, performance_is_too_small, isnt_asked, performance_put, performance_made, sign_lacks, sign_tests, sign_puts};

use crate::fail::standing_refusal;
use crate::securities::push_returned;
use office_base::puts::Put;
use office_base::records::{
    AwardRow, AwardState, ClockRow, ContractRow, EnvelopeRow, LotRow, LotState, NoticeRow,
    PerformanceRow, SecurityRow, SecurityState,
};
use office_base::rows::Rows;
use office_base::transitions::{at_moment, with_next_release};
use office_commands::tender::NamedSecurity;
use office_values::id::Id;
use office_values::moment::Moment;
use office_values::money::{Amount, Total};
use office_values::refusal::{Refusal, Thing};
use std::alloc::{AllocError, Global};

/// The rows that a signing reads: the award, its notice, its lot, its tender, the tender securities of the lot, and the clock.
#[derive(Drop)]
pub struct SignRows {
    pub award: Option<AwardRow>,
    pub notice: Option<NoticeRow>,
    pub lot: Option<LotRow>,
    pub envelope: Option<EnvelopeRow>,
    pub securities: Rows<SecurityRow>,
    pub clock: ClockRow,
}

// The contract of this award with this tenderer, which has the number and the price of the award.
fn contract_row(t: Moment, award: &AwardRow, tenderer: Id) -> ContractRow
    ensures { result ≡ contract_row t award.now tenderer }
{
    ContractRow {
        contract: award.award,
        notice: award.notice,
        lot: award.lot,
        tenderer,
        signed: Total::read(award.price.units()).unwrap(),
        moment: t,
        ended: None,
        how: None,
        released: Total::ZERO,
    }
}

// Whether the notice requires a performance security, and none is named.
fn is_missing(notice: &NoticeRow, security: &Option<NamedSecurity>) -> bool
    ensures { result ≡ is_missing security.now notice.now }
{
    notice.performance.units() > 0 && security.is_none()
}

// Whether the named performance security is less than the notice requires.
fn performance_is_too_small(notice: &NoticeRow, security: &Option<NamedSecurity>) -> bool
    ensures { result ≡ performance_is_too_small security.now notice.now }
{
    match security {
        Some(named) => named.amount.get() < notice.performance.units(),
        None => false,
    }
}

// Whether a performance security is named, and the notice requires none.
fn isnt_asked(notice: &NoticeRow, security: &Option<NamedSecurity>) -> bool
    ensures { result ≡ isnt_asked security.now notice.now }
{
    notice.performance.units() == 0 && security.is_some()
}

/// The refusal of a signing with this performance security, or with none, if one of its conditions is true.
pub fn refusal(t: Moment, rows: &SignRows, security: &Option<NamedSecurity>) -> Option<Refusal>
    ensures { result ≡ first_of (sign_tests rows.now t security.now) }
{
    let Some(award) = &rows.award else {
        return Some(Refusal::NoSuch(Thing::Award));
    };
    if let Some(row) = &rows.notice {
        if is_missing(row, security) {
            return Some(Refusal::SecurityMissing);
        }
        if performance_is_too_small(row, security) {
            return Some(Refusal::SecurityTooSmall);
        }
        if isnt_asked(row, security) {
            return Some(Refusal::SecurityNotAsked);
        }
    }
    standing_refusal(t, award, &rows.notice)
}

// The performance security of this award's contract, held.
fn performance_made(award: &AwardRow, named: &NamedSecurity) -> PerformanceRow
    ensures { result ≡ performance_made award.now named.now }
{
    PerformanceRow {
        contract: award.award,
        reference: named.reference,
        amount: named.amount,
        state: SecurityState::Held,
    }
}

// Appends the change of the performance security, if one is named. It allocates no memory.
fn push_performance(made: &mut Vec<Put>, award: &AwardRow, security: &Option<NamedSecurity>)
    requires { vec_len made.old < vec_capacity made.old }
    ensures { made.new.items ≡ made.old.items ++ put_if (performance_put award.now) security.now }
{
    if let Some(named) = security {
        made.push_reserved(Put::Performance(performance_made(award, named)));
    }
}

/// An empty list with places for the changes of a signing: six, and one for each tender security of the lot.
pub fn places(alloc: Global, rows: &SignRows) -> Result<Vec<Put>, AllocError>
    ensures empty { IfOk result (λ places. places.items ≡ []) }
    ensures enough { IfOk result (λ places. vec_len places + 6 + length rows.now.securities ≤ vec_capacity places) }
{
    Vec::with_capacity(alloc, rows.securities.as_slice().len() + 6)
}

/// The changes of the signing, in these places. It allocates no memory. `Unavailable` if a row is missing, or the notice has as many releases as it can have.
pub fn puts(
    places: Vec<Put>,
    t: Moment,
    rows: SignRows,
    security: Option<NamedSecurity>,
) -> Result<Vec<Put>, Refusal>
    requires empty { places.items ≡ [] }
    requires enough { vec_len places + 6 + length rows.securities ≤ vec_capacity places }
    ensures puts { IfOk result (λ made. made.items ≡ sign_puts rows t security) }
    ensures whole { IfOk result (λ _. sign_lacks rows ≡ false) }
    ensures fault { IfErr result (λ e. (e ≡ Unavailable) × CantSign rows) }
{
    let award = rows.award.ok_or(Refusal::Unavailable)?;
    let notice = rows.notice.ok_or(Refusal::Unavailable)?;
    let lot = rows.lot.ok_or(Refusal::Unavailable)?;
    let envelope = rows.envelope.ok_or(Refusal::Unavailable)?;
    let notice = with_next_release(notice).ok_or(Refusal::Unavailable)?;
    let contract = contract_row(t, &award, envelope.tenderer);
    let mut made = places;
    made.push_reserved(Put::Award(AwardRow {
        state: AwardState::Signed,
        ..award
    }));
    made.push_reserved(Put::Lot(LotRow {
        state: LotState::Contracted,
        reserved: Amount::read(0).unwrap(),
        ..lot
    }));
    made.push_reserved(Put::Contract(contract));
    made.push_reserved(Put::Notice(notice));
    made.push_reserved(Put::Clock(at_moment(rows.clock, t)));
    push_returned(&mut made, rows.securities.as_slice());
    push_performance(&mut made, &award, &security);
    Ok(made)
}

/// Decides the signing of a contract: the result is its refusal or its changes.
#[tactic(auto, unfolding(office_base::specs::Deciding::Decides))]
pub fn decide_sign(
    alloc: Global,
    t: Moment,
    rows: SignRows,
    security: Option<NamedSecurity>,
) -> Result<Vec<Put>, Refusal>
    ensures { Decides result (first_of (sign_tests rows t security)) (sign_lacks rows) (sign_puts rows t security) }
{
    match refusal(t, &rows, &security) {
        Some(why) => Err(why),
        None => puts(places(alloc, &rows)?, t, rows, security),
    }
}
