//! The decision on the publication of a notice.
ghost use Rattle.std.specs.Prelude.{◌≡◌, ◌||◌, ◌++◌, ◌∷◌, [], IfOk, IfErr, OnOk, is_some, length, map, nat_lt};
ghost use Rattle.std.specs.List.{list_any};
ghost use Rattle.office_values.specs.declared.refusal.Refusal.TheVariants.{Unavailable};
ghost use Rattle.office_base.specs.Tables.{find_line};
ghost use Rattle.office_base.specs.Joined.{free_in};
ghost use Rattle.office_base.specs.Deciding.{Decides};
ghost use Rattle.office_base.specs.Rules.{first_of};
ghost use Rattle.office_base.specs.Transitions.{clock_put};
ghost use Rattle.tender_core.specs.Rules.Publish.{wanted, is_on_no_line, is_short, has_too_many_items, publish_lacks, publish_tests, publish_puts, reserving_line_put, new_lot_put, notice_put, late_puts};

use keyed_table::table::Table;
use office_base::counts::{AmendmentCount, ReleaseCount};
use office_base::puts::Put;
use office_base::records::{ClockRow, LateRow, LineRow, LotRow, LotState, NoticeRow, NoticeState};
use office_base::transitions::at_moment;
use office_commands::amounts::amount_of;
use office_commands::lot::NewLot;
use office_commands::notice::{LateWithdrawal, NewNotice};
use office_values::id::Id;
use office_values::moment::Moment;
use office_values::money::Total;
use office_values::refusal::{Refusal, Thing};
use std::alloc::Global;

/// The rows that a publication reads: the notice with this identifier, the budget lines of its lots, and the clock.
#[derive(Drop)]
pub struct PublishRows {
    pub notice: Option<NoticeRow>,
    pub lines: Table<LineRow>,
    pub clock: ClockRow,
}

/// The greatest number of lots of a notice.
const LOT_LIMIT: usize = 20;

/// The greatest number of items of a lot.
const ITEM_LIMIT: usize = 50;

// The sum of the estimates of those lots that are on a budget line.
fn wanted(line: &Id, lots: &[NewLot]) -> u128
    ensures { result ≡ wanted line.now lots.now }
{
    let mut sum = 0;
    for lot in lots {
        if lot.line == *line {
            sum += lot.estimate.get() as u128;
        }
    }
    sum
}

// The free money of a budget line; 0 if the line doesn't exist.
fn free_on(lines: &Table<LineRow>, line: &Id) -> Total
    ensures { result ≡ free_in (find_line lines.now line.now) }
{
    match lines.get(line) {
        Some(row) => row.free,
        None => Total::ZERO,
    }
}

// Whether the budget line of some lot doesn't exist.
fn is_on_no_line(lines: &Table<LineRow>, lots: &[NewLot]) -> bool
    ensures { result ≡ list_any (is_on_no_line lines.now) lots.now }
{
    lots.iter().any(|lot| lines.get(&lot.line).is_none())
}

// Whether the lots together need more money of this lot's budget line than is free on it.
fn is_short(lines: &Table<LineRow>, lots: &[NewLot], lot: &NewLot) -> bool
    ensures { result ≡ is_short lines.now lots.now lot.now }
{
    (free_on(lines, &lot.line).units() as u128) < wanted(&lot.line, lots)
}

// Whether the lots together need more money of some budget line than is free on it.
fn some_is_short(lines: &Table<LineRow>, lots: &[NewLot]) -> bool
    ensures { result ≡ list_any (is_short lines.now lots.now) lots.now }
{
    lots.iter().any(|lot| is_short(lines, lots, lot))
}

// Whether some lot has too many items.
fn some_has_too_many_items(lots: &[NewLot]) -> bool
    ensures { result ≡ list_any has_too_many_items lots.now }
{
    lots.iter()
        .any(|lot| lot.items.as_slice().len() > ITEM_LIMIT)
}

// Whether the notice has too many lots, or some lot too many items.
fn is_too_long(lots: &[NewLot]) -> bool
    ensures { result ≡ (nat_lt 20 (length lots.now) || list_any has_too_many_items lots.now) }
{
    lots.len() > LOT_LIMIT || some_has_too_many_items(lots)
}

/// The refusal of the publication, if one of its conditions is true.
pub fn refusal(t: Moment, rows: &PublishRows, new: &NewNotice) -> Option<Refusal>
    ensures { result ≡ first_of (publish_tests rows.now t new.now) }
{
    let lines = &rows.lines;
    let lots = new.lots.as_slice();
    if is_on_no_line(lines, lots) {
        return Some(Refusal::NoSuch(Thing::Line));
    }
    if rows.notice.is_some() {
        return Some(Refusal::Exists);
    }
    if new.deadline.second() <= t.second() {
        return Some(Refusal::DeadlinePassed);
    }
    if some_is_short(lines, lots) {
        return Some(Refusal::InsufficientFunds);
    }
    if is_too_long(lots) {
        return Some(Refusal::LimitReached);
    }
    None
}

// The change of a lot's budget line, after all lots on it have reserved their estimates.
fn line_put(lines: &Table<LineRow>, lots: &[NewLot], lot: &NewLot) -> Result<Put, Refusal>
    ensures put { IfOk result (λ put. put ≡ reserving_line_put lines.now lots.now lot.now) }
    ensures fault { IfErr result (λ e. e ≡ Unavailable) }
{
    match lines.get(&lot.line) {
        Some(row) => Ok(Put::Line(LineRow {
            line: lot.line,
            title: row.title.clone()?,
            appropriation: row.appropriation,
            free: row.free.less(wanted(&lot.line, lots)),
        })),
        // `refusal` rejects a lot whose budget line doesn't exist.
        None => Err(Refusal::Unavailable),
    }
}

// Appends the changes of the budget lines of all lots.
fn push_lines(made: &mut Vec<Put>, lines: &Table<LineRow>, lots: &[NewLot]) -> Result<(), Refusal>
    ensures puts { OnOk result (made.new.items ≡ made.old.items ++ map (reserving_line_put lines.now lots.now) lots.now) }
    ensures fault { IfErr result (λ e. e ≡ Unavailable) }
{
    for lot in lots {
        made.push(line_put(lines, lots, lot)?)?;
    }
    Ok(())
}

// The change of a new lot: undecided, with its estimate reserved.
fn lot_put(notice: Id, lot: NewLot) -> Put
    ensures { result ≡ new_lot_put notice lot }
{
    Put::Lot(LotRow {
        notice,
        lot: lot.id,
        title: lot.title,
        line: lot.line,
        estimate: lot.estimate,
        security: lot.security,
        items: lot.items,
        state: LotState::Undecided,
        reserved: amount_of(lot.estimate),
    })
}

// Appends the changes of all lots.
fn push_lots(made: &mut Vec<Put>, notice: Id, lots: Vec<NewLot>) -> Result<(), Refusal>
    ensures puts { OnOk result (made.new.items ≡ made.old.items ++ map (new_lot_put notice) lots.items) }
    ensures fault { IfErr result (λ e. e ≡ Unavailable) }
{
    for lot in lots {
        made.push(lot_put(notice, lot))?;
    }
    Ok(())
}

// Appends the change that allows late withdrawals, if the notice says `forfeits`.
fn push_late(made: &mut Vec<Put>, notice: Id, late: LateWithdrawal) -> Result<(), Refusal>
    ensures puts { OnOk result (made.new.items ≡ made.old.items ++ late_puts notice late) }
    ensures fault { IfErr result (λ e. e ≡ Unavailable) }
{
    if late == LateWithdrawal::Forfeits {
        made.push(Put::Late(LateRow { notice }))?;
    }
    Ok(())
}

// Appends the changes of all lots, of the notice, which is open for tenders and has its first release, and of the clock.
fn push_notice(
    made: &mut Vec<Put>,
    t: Moment,
    clock: ClockRow,
    notice: Id,
    new: NewNotice,
) -> Result<(), Refusal>
    ensures puts { OnOk result (made.new.items ≡ made.old.items ++ map (new_lot_put notice) new.lots ++ (notice_put t notice new ∷ clock_put clock t ∷ [])) }
    ensures fault { IfErr result (λ e. e ≡ Unavailable) }
{
    push_lots(made, notice, new.lots.into_vec())?;
    made.push(Put::Notice(NoticeRow {
        notice,
        title: new.title,
        published: t,
        deadline: new.deadline,
        validity: new.validity,
        standstill: new.standstill,
        weight: new.criteria.weight(),
        performance: new.performance,
        state: NoticeState::Receiving,
        opened: None,
        amendments: AmendmentCount::read(0).unwrap(),
        releases: ReleaseCount::read(1).unwrap(),
    }))?;
    made.push(Put::Clock(at_moment(clock, t)))?;
    Ok(())
}

/// The changes of the publication: the budget lines, the lots, the notice, the clock, and the row that allows late withdrawals. `Unavailable` if the budget
/// line of a lot doesn't exist.
pub fn puts(
    alloc: Global,
    t: Moment,
    rows: PublishRows,
    notice: Id,
    new: NewNotice,
) -> Result<Vec<Put>, Refusal>
    ensures puts { IfOk result (λ made. made.items ≡ publish_puts rows t notice new) }
    ensures fault { IfErr result (λ e. e ≡ Unavailable) }
{
    let lots = new.lots.as_slice();
    let mut made = Vec::with_capacity(alloc, lots.len().saturating_mul(2).saturating_add(3))?;
    push_lines(&mut made, &rows.lines, lots)?;
    let late = new.late_withdrawal;
    push_notice(&mut made, t, rows.clock, notice, new)?;
    push_late(&mut made, notice, late)?;
    Ok(made)
}

/// Decides the publication of a notice: the result is its refusal or its changes. It reads only the budget lines that its lots name.
#[tactic(auto, unfolding(office_base::specs::Deciding::Decides))]
pub fn decide_publish(
    alloc: Global,
    t: Moment,
    rows: PublishRows,
    notice: Id,
    new: NewNotice,
) -> Result<Vec<Put>, Refusal>
    ensures { Decides result (first_of (publish_tests rows t new)) (publish_lacks rows) (publish_puts rows t notice new) }
{
    match refusal(t, &rows, &new) {
        Some(why) => Err(why),
        None => puts(alloc, t, rows, notice, new),
    }
}
