//! The decision on the modification of a tender.
ghost use Rattle.std.specs.Prelude.{◌≡◌, ◌+◌, IfOk, IfErr, false};
ghost use Rattle.office_values.specs.declared.refusal.Refusal.TheVariants.{Unavailable};
ghost use Rattle.sha2.specs.Sha256.{sha256};
ghost use Rattle.office_base.specs.Deciding.{Decides};
ghost use Rattle.office_base.specs.Rules.{first_of};
ghost use Rattle.tender_core.specs.Rules.Modify.{replacing, modify_lacks, modify_tests, modify_puts};

use crate::receipts::{length_of, next_receipt, receipt_clock};
use crate::tenders::{is_by, is_past_deadline, withdrawn};
use office_base::puts::Put;
use office_base::records::{ClockRow, EnvelopeRow, EnvelopeState, NoticeRow, SealRow};
use office_commands::command::Caller;
use office_commands::sealed::{Sealed, SealedBytes};
use office_values::given::GivenNumber;
use office_values::moment::Moment;
use office_values::refusal::{Refusal, Thing};
use std::alloc::Global;

/// The rows that a modification reads: the tender, its notice and the clock.
#[derive(Drop)]
pub struct ModifyRows {
    pub envelope: Option<EnvelopeRow>,
    pub notice: Option<NoticeRow>,
    pub clock: ClockRow,
}

// The tender that replaces this one. It has its own receipt, and the old tender's security.
fn replacing(
    clock: &ClockRow,
    t: Moment,
    envelope: &EnvelopeRow,
    receipt: GivenNumber,
    sealed: &Sealed<'_>,
) -> EnvelopeRow
    requires { receipt ≡ clock.now.receipts + 1 }
    ensures { result ≡ replacing sha256 clock.now t envelope.now sealed.now }
{
    EnvelopeRow {
        receipt,
        notice: envelope.notice,
        lot: envelope.lot,
        tenderer: envelope.tenderer,
        moment: t,
        length: length_of(sealed),
        digest: sealed.digest(),
        security: envelope.security,
        state: EnvelopeState::Sealed,
        reading: None,
        responsive: None,
        quality: None,
        failed: false,
    }
}

/// The refusal of the modification, if one of its conditions is true.
pub fn refusal(t: Moment, caller: &Caller, rows: &ModifyRows) -> Option<Refusal>
    ensures { result ≡ first_of (modify_tests rows.now t caller.now) }
{
    let Some(row) = &rows.envelope else {
        return Some(Refusal::NoSuch(Thing::Tender));
    };
    if !is_by(caller, &row.tenderer) {
        return Some(Refusal::NotYourTender);
    }
    if is_past_deadline(t, &rows.notice) {
        return Some(Refusal::DeadlinePassed);
    }
    if row.state != EnvelopeState::Sealed {
        return Some(Refusal::NotSealed);
    }
    if next_receipt(&rows.clock).is_none() {
        return Some(Refusal::LimitReached);
    }
    None
}

/// The changes of the modification: the old tender without its bytes, the new one with its bytes, and the clock. `Unavailable` if the tender or its notice
/// doesn't exist, or all numbers of receipts are given.
pub fn puts(
    alloc: Global,
    t: Moment,
    rows: ModifyRows,
    sealed: &Sealed<'_>,
) -> Result<Vec<Put>, Refusal>
    ensures puts { IfOk result (λ made. made.items ≡ modify_puts sha256 rows t sealed.now) }
    ensures whole { IfOk result (λ _. modify_lacks rows ≡ false) }
    ensures fault { IfErr result (λ e. e ≡ Unavailable) }
{
    let row = rows.envelope.ok_or(Refusal::Unavailable)?;
    if rows.notice.is_none() {
        return Err(Refusal::Unavailable);
    }
    let receipt = next_receipt(&rows.clock).ok_or(Refusal::Unavailable)?;
    let old = row.receipt;
    let new = replacing(&rows.clock, t, &row, receipt, sealed);
    let mut made = Vec::with_capacity(alloc, 5)?;
    made.push(Put::Envelope(withdrawn(row)))?;
    made.push(Put::DropSeal(old))?;
    made.push(Put::Envelope(new))?;
    made.push(Put::Seal(SealRow {
        receipt,
        bytes: SealedBytes::copy_of(alloc, sealed)?,
    }))?;
    made.push(receipt_clock(rows.clock, t, receipt))?;
    Ok(made)
}

/// Decides the modification of a tender: the result is its refusal or its changes.
#[tactic(auto, unfolding(office_base::specs::Deciding::Decides))]
pub fn decide_modify(
    alloc: Global,
    t: Moment,
    caller: &Caller,
    rows: ModifyRows,
    sealed: &Sealed<'_>,
) -> Result<Vec<Put>, Refusal>
    ensures { Decides result (first_of (modify_tests rows t caller.now)) (modify_lacks rows) (modify_puts sha256 rows t sealed.now) }
{
    match refusal(t, caller, &rows) {
        Some(why) => Err(why),
        None => puts(alloc, t, rows, sealed),
    }
}
