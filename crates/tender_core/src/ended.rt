//! The parts of a cancellation: the lots that end, and their budget lines, awards, tenders and securities.
ghost use Rattle.std.specs.Prelude.{◌≡◌, ◌++◌, ◌<◌, ◌^◌, IfOk, IfErr, OnOk, filter, map};
ghost use Rattle.std.specs.List.{list_any};
ghost use Rattle.office_values.specs.declared.refusal.Refusal.TheVariants.{Unavailable};
ghost use Rattle.office_base.specs.Transitions.{security_returned};
ghost use Rattle.tender_core.specs.Rules.Cancel.{is_open_lot, lacks_line, ends, freed, freed_line_put, cancelled_lot, cancelled_lot_put, is_ended_award, cancelled_award, award_put, is_ended_envelope, returned_envelope, envelope_put, drop_put, is_ended_security};

use keyed_table::table::Table;
use office_base::puts::Put;
use office_base::records::{
    AwardRow, AwardState, EnvelopeRow, EnvelopeState, LineRow, LotRow, LotState, SecurityRow,
    SecurityState,
};
use office_base::row::copy_of;
use office_values::id::Id;
use office_values::money::{Amount, Total};
use office_values::refusal::Refusal;
use std::alloc::AllocError;
use std::cmp::Ordering;

/// Whether a lot is still undecided or awarded, so that money is reserved for it.
pub fn is_open(lot: &LotRow) -> bool
    ensures { result ≡ is_open_lot lot.now }
{
    matches!(lot.state, LotState::Undecided | LotState::Awarded)
}

// Whether the lot with these identifiers is one of those that end. The lots are in the order of their identifiers, so the search stops at the first later one.
#[tactic(auto, unfolding(office_base::specs::Rows::row_at))]
fn ends(lots: &[LotRow], notice: &Id, lot: &Id) -> bool
    ensures { result ≡ ends lots.now notice.now lot.now }
{
    for row in lots {
        match (*notice, *lot).cmp(&(row.notice, row.lot)) {
            Ordering::Less => return false,
            Ordering::Equal => return is_open(row),
            Ordering::Greater => {}
        }
    }
    false
}

/// Whether the budget line of a lot that ends doesn't exist.
pub fn some_lacks_line(lines: &Table<LineRow>, lots: &[LotRow]) -> bool
    ensures { result ≡ list_any (lacks_line lines.now) (filter is_open_lot lots.now) }
{
    for row in lots {
        if is_open(row) && lines.get(&row.line).is_none() {
            return true;
        }
    }
    false
}

// The sum that the lots that end have reserved on a budget line.
fn freed(line: &Id, lots: &[LotRow]) -> u128
    ensures sum { result ≡ freed line.now (filter is_open_lot lots.now) }
    ensures small { result < 2 ^ 110 }
{
    let mut sum = 0;
    for row in lots {
        if is_open(row) && row.line == *line {
            sum += row.reserved.units() as u128;
        }
    }
    sum
}

// The change of a lot's budget line: the money that all lots that end had reserved on it is free again. A line that doesn't exist, or a sum above 10^15, is
// `Unavailable`: no office that its commands made has it.
fn line_put(lines: &Table<LineRow>, lots: &[LotRow], lot: &LotRow) -> Result<Put, Refusal>
    ensures put { IfOk result (λ put. put ≡ freed_line_put lines.now (filter is_open_lot lots.now) lot.now) }
    ensures fault { IfErr result (λ e. e ≡ Unavailable) }
{
    match lines.get(&lot.line) {
        Some(row) => {
            let free = row.free.units() as u128 + freed(&lot.line, lots);
            Ok(Put::Line(LineRow {
                line: lot.line,
                title: row.title.clone()?,
                appropriation: row.appropriation,
                free: Total::of_sum(free).ok_or(Refusal::Unavailable)?,
            }))
        }
        None => Err(Refusal::Unavailable),
    }
}

/// Appends the changes of the budget lines of the lots that end.
pub fn push_lines(
    made: &mut Vec<Put>,
    lines: &Table<LineRow>,
    lots: &[LotRow],
) -> Result<(), Refusal>
    ensures puts { OnOk result (made.new.items ≡ made.old.items ++ map (freed_line_put lines.now (filter is_open_lot lots.now)) (filter is_open_lot lots.now)) }
    ensures fault { IfErr result (λ e. e ≡ Unavailable) }
{
    for row in lots {
        if is_open(row) {
            made.push(line_put(lines, lots, row)?)?;
        }
    }
    Ok(())
}

// The lot, cancelled, with nothing reserved.
fn cancelled_lot(lot: &LotRow) -> Result<LotRow, AllocError>
    ensures { IfOk result (λ row. row ≡ cancelled_lot lot.now) }
{
    let copy = copy_of(lot)?;
    Ok(LotRow {
        state: LotState::Cancelled,
        reserved: Amount::read(0).unwrap(),
        ..copy
    })
}

/// Appends the changes of the lots that end.
pub fn push_lots(made: &mut Vec<Put>, lots: &[LotRow]) -> Result<(), Refusal>
    ensures puts { OnOk result (made.new.items ≡ made.old.items ++ map cancelled_lot_put (filter is_open_lot lots.now)) }
    ensures fault { IfErr result (λ e. e ≡ Unavailable) }
{
    for row in lots {
        if is_open(row) {
            made.push(Put::Lot(cancelled_lot(row)?))?;
        }
    }
    Ok(())
}

/// Whether an award is active and its lot ends.
pub fn is_ended_award(lots: &[LotRow], award: &AwardRow) -> bool
    ensures { result ≡ is_ended_award lots.now award.now }
{
    award.state == AwardState::Active && ends(lots, &award.notice, &award.lot)
}

// The award, cancelled.
fn cancelled_award(award: &AwardRow) -> AwardRow
    ensures { result ≡ cancelled_award award.now }
{
    AwardRow {
        award: award.award,
        notice: award.notice,
        lot: award.lot,
        receipt: award.receipt,
        price: award.price,
        moment: award.moment,
        state: AwardState::Cancelled,
    }
}

/// Appends the changes of the active awards of the lots that end.
pub fn push_awards(made: &mut Vec<Put>, lots: &[LotRow], awards: &[AwardRow]) -> Result<(), Refusal>
    ensures puts { OnOk result (made.new.items ≡ made.old.items ++ map award_put (filter (is_ended_award lots.now) awards.now)) }
    ensures fault { IfErr result (λ e. e ≡ Unavailable) }
{
    for row in awards {
        if is_ended_award(lots, row) {
            made.push(Put::Award(cancelled_award(row)))?;
        }
    }
    Ok(())
}

// Whether a tender is sealed and its lot ends.
fn is_ended_envelope(lots: &[LotRow], envelope: &EnvelopeRow) -> bool
    ensures { result ≡ is_ended_envelope lots.now envelope.now }
{
    envelope.state == EnvelopeState::Sealed && ends(lots, &envelope.notice, &envelope.lot)
}

// The tender, returned unopened.
fn returned_envelope(envelope: &EnvelopeRow) -> EnvelopeRow
    ensures { result ≡ returned_envelope envelope.now }
{
    EnvelopeRow {
        receipt: envelope.receipt,
        notice: envelope.notice,
        lot: envelope.lot,
        tenderer: envelope.tenderer,
        moment: envelope.moment,
        length: envelope.length,
        digest: envelope.digest,
        security: envelope.security,
        state: EnvelopeState::Returned,
        reading: envelope.reading,
        responsive: envelope.responsive,
        quality: envelope.quality,
        failed: envelope.failed,
    }
}

/// Appends the changes of the sealed tenders of the lots that end: they are returned unopened.
pub fn push_envelopes(
    made: &mut Vec<Put>,
    lots: &[LotRow],
    envelopes: &[EnvelopeRow],
) -> Result<(), Refusal>
    ensures puts { OnOk result (made.new.items ≡ made.old.items ++ map envelope_put (filter (is_ended_envelope lots.now) envelopes.now)) }
    ensures fault { IfErr result (λ e. e ≡ Unavailable) }
{
    for row in envelopes {
        if is_ended_envelope(lots, row) {
            made.push(Put::Envelope(returned_envelope(row)))?;
        }
    }
    Ok(())
}

/// Appends the changes that drop the bytes of the sealed tenders of the lots that end.
pub fn push_drops(
    made: &mut Vec<Put>,
    lots: &[LotRow],
    envelopes: &[EnvelopeRow],
) -> Result<(), Refusal>
    ensures puts { OnOk result (made.new.items ≡ made.old.items ++ map drop_put (filter (is_ended_envelope lots.now) envelopes.now)) }
    ensures fault { IfErr result (λ e. e ≡ Unavailable) }
{
    for row in envelopes {
        if is_ended_envelope(lots, row) {
            made.push(Put::DropSeal(row.receipt))?;
        }
    }
    Ok(())
}

// Whether a security is held and its lot ends.
fn is_ended_security(lots: &[LotRow], security: &SecurityRow) -> bool
    ensures { result ≡ is_ended_security lots.now security.now }
{
    security.state == SecurityState::Held && ends(lots, &security.notice, &security.lot)
}

// The change that returns a security to its tenderer.
fn security_returned(security: &SecurityRow) -> Put
    ensures { result ≡ security_returned security.now }
{
    Put::Security(SecurityRow {
        security: security.security,
        tenderer: security.tenderer,
        notice: security.notice,
        lot: security.lot,
        reference: security.reference,
        amount: security.amount,
        state: SecurityState::Returned,
    })
}

/// Appends the changes that return the held securities of the lots that end.
pub fn push_securities(
    made: &mut Vec<Put>,
    lots: &[LotRow],
    securities: &[SecurityRow],
) -> Result<(), Refusal>
    ensures puts { OnOk result (made.new.items ≡ made.old.items ++ map security_returned (filter (is_ended_security lots.now) securities.now)) }
    ensures fault { IfErr result (λ e. e ≡ Unavailable) }
{
    for row in securities {
        if is_ended_security(lots, row) {
            made.push(security_returned(row))?;
        }
    }
    Ok(())
}
