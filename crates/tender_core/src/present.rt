//! The decision on the submission of a tender.
ghost use Rattle.std.specs.Prelude.{◌≡◌, ◌+◌, ◌++◌, ◌&&◌, IfOk, IfErr, OnOk, is_some, not};
ghost use Rattle.std.specs.List.{list_any};
ghost use Rattle.sha2.specs.Sha256.{sha256};
ghost use Rattle.office_values.specs.declared.refusal.Refusal.TheVariants.{Unavailable};
ghost use Rattle.office_commands.specs.declared.command.Caller.TheVariants.{Tenderer};
ghost use Rattle.office_base.specs.Deciding.{Decides};
ghost use Rattle.office_base.specs.Rows.{holds_of};
ghost use Rattle.office_base.specs.Rules.{first_of};
ghost use Rattle.office_base.specs.Transitions.{put_if, receipt_clock};
ghost use Rattle.tender_core.specs.Rules.Present.{is_sealed_by, asks_security, is_too_small, received, security_made, security_put, seal_puts, received_puts, present_lacks, present_tests, present_puts};

use crate::receipts::{length_of, next_receipt, receipt_clock};
use crate::tenders::{is_by, is_in_time};
use office_base::puts::Put;
use office_base::records::{
    ClockRow, EnvelopeRow, EnvelopeState, LotRow, NoticeRow, NoticeState, SealRow, SecurityRow,
    SecurityState,
};
use office_base::rows::Rows;
use office_commands::command::Caller;
use office_commands::sealed::{Sealed, SealedBytes};
use office_commands::tender::NamedSecurity;
use office_values::given::GivenNumber;
use office_values::id::Id;
use office_values::moment::Moment;
use office_values::refusal::{Refusal, Thing};
use std::alloc::Global;

/// The rows that a submission reads: the notice, the lot, the tenders of the lot, and the clock.
#[derive(Drop)]
pub struct PresentRows {
    pub notice: Option<NoticeRow>,
    pub lot: Option<LotRow>,
    pub envelopes: Rows<EnvelopeRow>,
    pub clock: ClockRow,
}

// A receipt that the office gives to a tender: the clock before it, its moment, tenderer, notice and lot, its number, and whether the tender is in time.
#[derive(Clone, Copy)]
struct Receipt {
    clock: ClockRow,
    t: Moment,
    tenderer: Id,
    notice: Id,
    lot: Id,
    number: GivenNumber,
    in_time: bool,
    ghost next: { number ≡ clock.receipts + 1 },
}

// Whether the caller has a sealed tender among these.
fn has_sealed(caller: &Caller, envelopes: &[EnvelopeRow]) -> bool
    ensures { result ≡ list_any (is_sealed_by caller.now) envelopes.now }
{
    envelopes.iter().any(|row| row.state == EnvelopeState::Sealed && is_by(caller, &row.tenderer))
}

// Whether the lot requires a security, and none is named.
fn is_wanting(lot: &LotRow, security: &Option<NamedSecurity>) -> bool
    ensures { result ≡ (asks_security lot.now && not (is_some security.now)) }
{
    lot.security.units() > 0 && security.is_none()
}

// Whether the named security is less than the lot requires.
fn is_too_small(lot: &LotRow, security: &Option<NamedSecurity>) -> bool
    ensures { result ≡ holds_of (is_too_small lot.now) security.now }
{
    match security {
        Some(named) => named.amount.get() < lot.security.units(),
        None => false,
    }
}

// Whether a security is named, and the lot requires none.
fn isnt_asked(lot: &LotRow, security: &Option<NamedSecurity>) -> bool
    ensures { result ≡ (not (asks_security lot.now) && is_some security.now) }
{
    lot.security.units() == 0 && security.is_some()
}

/// The refusal of the submission, if one of its conditions is true.
pub fn refusal(
    t: Moment,
    caller: &Caller,
    rows: &PresentRows,
    security: &Option<NamedSecurity>,
) -> Option<Refusal>
    ensures { result ≡ first_of (present_tests rows.now t caller.now security.now) }
{
    let Some(notice) = &rows.notice else {
        return Some(Refusal::NoSuch(Thing::Notice));
    };
    let Some(lot) = &rows.lot else {
        return Some(Refusal::NoSuch(Thing::Lot));
    };
    if notice.state == NoticeState::Cancelled {
        return Some(Refusal::NotOpenForTenders);
    }
    let in_time = is_in_time(t, &rows.notice);
    if in_time && has_sealed(caller, rows.envelopes.as_slice()) {
        return Some(Refusal::AlreadyPresented);
    }
    if in_time && is_wanting(lot, security) {
        return Some(Refusal::SecurityMissing);
    }
    if in_time && is_too_small(lot, security) {
        return Some(Refusal::SecurityTooSmall);
    }
    if in_time && isnt_asked(lot, security) {
        return Some(Refusal::SecurityNotAsked);
    }
    if next_receipt(&rows.clock).is_none() {
        return Some(Refusal::LimitReached);
    }
    None
}

// The row of the tender: sealed if it is in time, and returned if it is late.
fn received(receipt: &Receipt, security: &Option<NamedSecurity>, sealed: &Sealed<'_>) -> EnvelopeRow
    ensures { result ≡ received sha256 receipt.now.clock receipt.now.t (Tenderer receipt.now.tenderer) receipt.now.notice receipt.now.lot security.now sealed.now receipt.now.in_time }
{
    let number = match security {
        Some(_) => Some(receipt.number),
        None => None,
    };
    let state = if receipt.in_time {
        EnvelopeState::Sealed
    } else {
        EnvelopeState::Returned
    };
    EnvelopeRow {
        receipt: receipt.number,
        notice: receipt.notice,
        lot: receipt.lot,
        tenderer: receipt.tenderer,
        moment: receipt.t,
        length: length_of(sealed),
        digest: sealed.digest(),
        security: number,
        state,
        reading: None,
        responsive: None,
        quality: None,
        failed: false,
    }
}

// The row of the security: held if the tender is in time, and returned if it is late.
fn security_made(receipt: &Receipt, named: &NamedSecurity) -> SecurityRow
    ensures { result ≡ security_made receipt.now.clock (Tenderer receipt.now.tenderer) receipt.now.notice receipt.now.lot receipt.now.in_time named.now }
{
    let state = if receipt.in_time {
        SecurityState::Held
    } else {
        SecurityState::Returned
    };
    SecurityRow {
        security: receipt.number,
        tenderer: receipt.tenderer,
        notice: receipt.notice,
        lot: receipt.lot,
        reference: named.reference,
        amount: named.amount,
        state,
    }
}

// Appends the change that stores the bytes, if the tender is in time.
fn push_seal(
    alloc: Global,
    made: &mut Vec<Put>,
    receipt: &Receipt,
    sealed: &Sealed<'_>,
) -> Result<(), Refusal>
    ensures puts { OnOk result (made.new.items ≡ made.old.items ++ seal_puts receipt.now.clock sealed.now receipt.now.in_time) }
    ensures fault { IfErr result (λ e. e ≡ Unavailable) }
{
    if receipt.in_time {
        made.push(Put::Seal(SealRow {
            receipt: receipt.number,
            bytes: SealedBytes::copy_of(alloc, sealed)?,
        }))?;
    }
    Ok(())
}

// Appends the change of the security, if one is named.
fn push_security(
    made: &mut Vec<Put>,
    receipt: &Receipt,
    security: &Option<NamedSecurity>,
) -> Result<(), Refusal>
    ensures puts { OnOk result (made.new.items ≡ made.old.items ++ put_if (security_put receipt.now.clock (Tenderer receipt.now.tenderer) receipt.now.notice receipt.now.lot receipt.now.in_time) security.now) }
    ensures fault { IfErr result (λ e. e ≡ Unavailable) }
{
    if let Some(named) = security {
        made.push(Put::Security(security_made(receipt, named)))?;
    }
    Ok(())
}

// The change of the clock, which counts the receipt.
fn given_out(receipt: &Receipt) -> Put
    ensures { result ≡ receipt_clock receipt.now.clock receipt.now.t }
{
    receipt_clock(receipt.clock, receipt.t, receipt.number)
}

// The changes of the tender, the clock, the bytes and the security.
fn received_puts(
    alloc: Global,
    receipt: &Receipt,
    security: &Option<NamedSecurity>,
    sealed: &Sealed<'_>,
) -> Result<Vec<Put>, Refusal>
    ensures puts { IfOk result (λ made. made.items ≡ received_puts sha256 receipt.now.clock receipt.now.t (Tenderer receipt.now.tenderer) receipt.now.notice receipt.now.lot security.now sealed.now receipt.now.in_time) }
    ensures fault { IfErr result (λ e. e ≡ Unavailable) }
{
    let envelope = received(receipt, security, sealed);
    let clock = given_out(receipt);
    let mut made = Vec::with_capacity(alloc, 4)?;
    made.push(Put::Envelope(envelope))?;
    made.push(clock)?;
    push_seal(alloc, &mut made, receipt, sealed)?;
    push_security(&mut made, receipt, security)?;
    Ok(made)
}

/// The changes of the submission. `Unavailable` if the caller isn't a tenderer, or all numbers of receipts are given.
pub fn puts(
    alloc: Global,
    t: Moment,
    caller: &Caller,
    rows: PresentRows,
    notice: Id,
    lot: Id,
    security: Option<NamedSecurity>,
    sealed: &Sealed<'_>,
) -> Result<Vec<Put>, Refusal>
    ensures puts { IfOk result (λ made. made.items ≡ present_puts sha256 rows t caller.now notice lot security sealed.now) }
    ensures fault { IfErr result (λ e. e ≡ Unavailable) }
{
    let Caller::Tenderer(tenderer) = caller else {
        return Err(Refusal::Unavailable);
    };
    let number = next_receipt(&rows.clock).ok_or(Refusal::Unavailable)?;
    let receipt = Receipt {
        clock: rows.clock,
        t,
        tenderer: *tenderer,
        notice,
        lot,
        number,
        in_time: is_in_time(t, &rows.notice),
    };
    received_puts(alloc, &receipt, &security, sealed)
}

/// Decides the submission of a tender: the result is its refusal or its changes. Only a tenderer may submit one.
#[tactic(auto, unfolding(office_base::specs::Deciding::Decides))]
pub fn decide_present(
    alloc: Global,
    t: Moment,
    caller: &Caller,
    rows: PresentRows,
    notice: Id,
    lot: Id,
    security: Option<NamedSecurity>,
    sealed: &Sealed<'_>,
) -> Result<Vec<Put>, Refusal>
    ensures { Decides result (first_of (present_tests rows t caller.now security)) (present_lacks rows) (present_puts sha256 rows t caller.now notice lot security sealed.now) }
{
    match refusal(t, caller, &rows, &security) {
        Some(why) => Err(why),
        None => puts(alloc, t, caller, rows, notice, lot, security, sealed),
    }
}
