//! The decision on the award of a lot.
ghost use Rattle.std.specs.Prelude.{◌≡◌, ◌+◌, ◌-◌, ◌<◌, IfOk, IfErr, IfSome, IfNone, Some, None, [], option_map, false};
ghost use Rattle.std.specs.List.{list_any};
ghost use Rattle.office_values.specs.Money.{total_limit};
ghost use Rattle.office_values.specs.declared.refusal.Refusal.TheVariants.{Unavailable};
ghost use Rattle.office_base.specs.Deciding.{Decides};
ghost use Rattle.office_base.specs.Joined.{free_in};
ghost use Rattle.office_base.specs.declared.records.AwardState.TheVariants as award_states;
ghost use Rattle.office_base.specs.Rules.{first_of};
ghost use Rattle.award_core.specs.Rules.Award.{is_admissible, price_of, isnt_examined, is_above, winner, weight_in, decision_puts, award_row, award_lacks, award_tests, award_puts};

use crate::best::{best_row, is_admissible, is_priced, price_of};
use crate::lines::{free_on, with_free};
use crate::securities::push_returned;
use office_base::puts::Put;
use office_base::records::{
    AwardRow, AwardState, ClockRow, EnvelopeRow, LineRow, LotRow, LotState, NoticeRow, NoticeState,
    SecurityRow,
};
use office_base::rows::Rows;
use office_base::transitions::{at_moment, has_all_releases, is_expired, with_next_release};
use office_commands::notice::Weight;
use office_values::given::{GivenNumber, LastNumber};
use office_values::moment::Moment;
use office_values::money::Amount;
use office_values::refusal::{Refusal, Thing};
use std::alloc::Global;

/// The greatest number of releases of a notice.
const RELEASE_LIMIT: u64 = 9_999;

/// The rows that an award reads: the notice, the lot, its budget line, its tenders, its tender securities, and the clock.
#[derive(Drop)]
pub struct AwardRows {
    pub notice: Option<NoticeRow>,
    pub lot: Option<LotRow>,
    pub line: Option<LineRow>,
    pub envelopes: Rows<EnvelopeRow>,
    pub securities: Rows<SecurityRow>,
    pub clock: ClockRow,
}

// Whether some tender that has a price and can still win waits for its examination.
fn some_isnt_examined(rows: &[EnvelopeRow]) -> bool
    ensures { result ≡ list_any isnt_examined rows.now }
{
    rows.iter().any(|row| is_priced(row) && row.responsive.is_none() && !row.failed)
}

// Whether some tender can win.
fn some_is_admissible(rows: &[EnvelopeRow]) -> bool
    ensures { result ≡ list_any is_admissible rows.now }
{
    rows.iter().any(|row| is_admissible(row))
}

// Whether the price of the winner is above the money that the lot has reserved and that is free on its budget line.
fn is_above_funds(lot: &LotRow, line: &Option<LineRow>, winner: &EnvelopeRow) -> bool
    ensures { result ≡ is_above (lot.now.reserved + free_in line.now) winner.now }
{
    lot.reserved.units() + free_on(line).units() < price_of(winner).units()
}

// The budget line after the reserved amount is free again, and the price is taken. None if that is above 10^15.
fn line_after(line: LineRow, reserved: Amount, price: Amount) -> Option<LineRow>
    ensures found { IfSome result (λ row. row ≡ record line { free = (line.free + reserved) - price }) }
    ensures none { IfNone result (total_limit < (line.free + reserved) - price) }
{
    let free = line.free.units() as u128 + reserved.units() as u128;
    with_free(line, free.saturating_sub(price.units() as u128))
}

// The award of the lot to this tender, with this number.
fn award_row(award: GivenNumber, t: Moment, lot: &LotRow, winner: &EnvelopeRow) -> AwardRow
    ensures { result ≡ record { award = award; notice = lot.now.notice; lot = lot.now.lot; receipt = winner.now.receipt; price = price_of winner.now; moment = t; state = award_states.Active } }
{
    AwardRow {
        award,
        notice: lot.notice,
        lot: lot.lot,
        receipt: winner.receipt,
        price: price_of(winner),
        moment: t,
        state: AwardState::Active,
    }
}

// The changes if this tender wins: the award, the lot, its budget line, the notice and the clock.
fn won(
    alloc: Global,
    t: Moment,
    clock: ClockRow,
    notice: NoticeRow,
    lot: LotRow,
    line: LineRow,
    winner: &EnvelopeRow,
) -> Result<Vec<Put>, Refusal>
    ensures puts { IfOk result (λ made. made.items ≡ decision_puts clock t notice lot line (Some winner.now) []) }
    ensures fault { IfErr result (λ e. e ≡ Unavailable) }
{
    let award = GivenNumber::read(clock.awards.get() + 1).ok_or(Refusal::Unavailable)?;
    let notice = with_next_release(notice).ok_or(Refusal::Unavailable)?;
    let price = price_of(winner);
    let line = line_after(line, lot.reserved, price).ok_or(Refusal::Unavailable)?;
    let award_row = award_row(award, t, &lot, winner);
    let mut made = Vec::with_capacity(alloc, 5)?;
    made.push(Put::Award(award_row))?;
    made.push(Put::Lot(LotRow {
        state: LotState::Awarded,
        reserved: price,
        ..lot
    }))?;
    made.push(Put::Line(line))?;
    made.push(Put::Notice(notice))?;
    made.push(Put::Clock(ClockRow {
        moment: t,
        receipts: clock.receipts,
        awards: LastNumber::read(award.get()).unwrap(),
    }))?;
    Ok(made)
}

// The changes if no tender wins: the lot, its budget line, the notice, the clock and the held securities.
fn lost(
    alloc: Global,
    t: Moment,
    clock: ClockRow,
    notice: NoticeRow,
    lot: LotRow,
    line: LineRow,
    securities: &[SecurityRow],
) -> Result<Vec<Put>, Refusal>
    ensures puts { IfOk result (λ made. made.items ≡ decision_puts clock t notice lot line None securities.now) }
    ensures fault { IfErr result (λ e. e ≡ Unavailable) }
{
    let notice = with_next_release(notice).ok_or(Refusal::Unavailable)?;
    let nothing = Amount::read(0).unwrap();
    let line = line_after(line, lot.reserved, nothing).ok_or(Refusal::Unavailable)?;
    let mut made = Vec::with_capacity(alloc, securities.len() + 4)?;
    made.push_reserved(Put::Lot(LotRow {
        state: LotState::Unsuccessful,
        reserved: nothing,
        ..lot
    }));
    made.push_reserved(Put::Line(line));
    made.push_reserved(Put::Notice(notice));
    made.push_reserved(Put::Clock(at_moment(clock, t)));
    push_returned(&mut made, securities);
    Ok(made)
}

// The points that the price can give; 0 if the notice doesn't exist.
fn weight_in(notice: &Option<NoticeRow>) -> Weight
    ensures { result ≡ weight_in notice.now }
{
    match notice {
        Some(row) => row.weight,
        None => Weight::read(0).unwrap(),
    }
}

/// The best tender of the lot; None if no tender can win. It allocates no memory.
pub fn best_tender(rows: &AwardRows) -> Option<&EnvelopeRow>
    ensures { option_map (λ row. row.now) result ≡ winner rows.now.notice rows.now.envelopes }
{
    best_row(weight_in(&rows.notice), rows.envelopes.as_slice())
}

/// The refusal of the award, if one of its conditions is true. `best` must be the best tender of the lot.
pub fn refusal(t: Moment, rows: &AwardRows, best: Option<&EnvelopeRow>) -> Option<Refusal>
    requires { option_map (λ row. row.now) best ≡ winner rows.now.notice rows.now.envelopes }
    ensures { result ≡ first_of (award_tests rows.now t) }
{
    let Some(notice) = &rows.notice else {
        return Some(Refusal::NoSuch(Thing::Notice));
    };
    let Some(lot) = &rows.lot else {
        return Some(Refusal::NoSuch(Thing::Lot));
    };
    if notice.state != NoticeState::Opened {
        return Some(Refusal::NotOpened);
    }
    if lot.state != LotState::Undecided {
        return Some(Refusal::AlreadyDecided);
    }
    if some_isnt_examined(rows.envelopes.as_slice()) {
        return Some(Refusal::NotAllExamined);
    }
    if some_is_admissible(rows.envelopes.as_slice()) && is_expired(t, notice) {
        return Some(Refusal::Expired);
    }
    if let Some(row) = best {
        if is_above_funds(lot, &rows.line, row) {
            return Some(Refusal::InsufficientFunds);
        }
    }
    if notice.releases.get() >= RELEASE_LIMIT {
        return Some(Refusal::LimitReached);
    }
    None
}

/// The changes of the award. `Unavailable` if the notice, the lot or its budget line doesn't exist, or if the line would have more than 10^15 free. It is also
/// the answer if the notice has as many releases as it can have, or if all 10^9 numbers of awards are given.
pub fn puts(alloc: Global, t: Moment, rows: AwardRows) -> Result<Vec<Put>, Refusal>
    ensures puts { IfOk result (λ made. made.items ≡ award_puts rows t) }
    ensures whole { IfOk result (λ _. award_lacks rows ≡ false) }
    ensures fault { IfErr result (λ e. e ≡ Unavailable) }
{
    let AwardRows {
        notice,
        lot,
        line,
        envelopes,
        securities,
        clock,
    } = rows;
    let notice = notice.ok_or(Refusal::Unavailable)?;
    let lot = lot.ok_or(Refusal::Unavailable)?;
    let line = line.ok_or(Refusal::Unavailable)?;
    match best_row(notice.weight, envelopes.as_slice()) {
        Some(row) => won(alloc, t, clock, notice, lot, line, row),
        None => lost(alloc, t, clock, notice, lot, line, securities.as_slice()),
    }
}

/// Decides the award of a lot: the result is its refusal or its changes. `Unavailable` if all 10^9 numbers of awards are given. It is also the answer if the
/// budget line is missing, or would have more than 10^15 free; neither is so in an office that its commands made.
#[tactic(auto, unfolding(office_base::specs::Deciding::Decides))]
pub fn decide_award(alloc: Global, t: Moment, rows: AwardRows) -> Result<Vec<Put>, Refusal>
    ensures { Decides result (first_of (award_tests rows t)) (award_lacks rows) (award_puts rows t) }
{
    match refusal(t, &rows, best_tender(&rows)) {
        Some(why) => Err(why),
        None => puts(alloc, t, rows),
    }
}
