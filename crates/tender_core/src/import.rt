//! The decision on the import of a budget file.
ghost use Rattle.std.specs.Prelude.{◌≡◌, ◌+◌, ◌^◌, ◌||◌, ◌≤◌, ◌<◌, IfOk, IfErr, IsSome, is_some, length, nat_lt};
ghost use Rattle.office_values.specs.Money.{total_limit};
ghost use Rattle.office_values.specs.declared.refusal.Refusal.TheVariants.{Unavailable};
ghost use Rattle.office_base.specs.Standings.{columns_at, find_standing};
ghost use Rattle.office_base.specs.Deciding.{Decides};
ghost use Rattle.office_base.specs.Rules.{first_of};
ghost use Rattle.tender_core.specs.Rules.Import.{is_cut, columns_after, after_row, after_rows, any_while_walking, cuts_nothing, cuts_too_much, passes_limit, cuts_below_zero, import_lacks, import_tests, import_puts, imported_line_put, puts_after, appropriation_of, free_of};
ghost use Rattle.tender_core.specs.Walks.{AreNamed, IsAtMost, AreAtMost};

use crate::budget_file::BudgetFile;
use keyed_table::table::Table;
use office_base::counts::RowCount;
use office_base::laws::rows_are_kept;
use office_base::puts::Put;
use office_base::records::{BatchRow, ClockRow, LineRow};
use office_base::standing::{Columns, Standing};
use office_base::transitions::at_moment;
use office_commands::budget::{BudgetKind, BudgetRow};
use office_values::id::Id;
use office_values::moment::Moment;
use office_values::money::{TOTAL_LIMIT, Total};
use office_values::refusal::{Refusal, Thing};
use std::alloc::Global;

/// The rows that an import reads: the budget file with this identifier, the lines that the new file names with its own rows, and the clock.
#[derive(Drop)]
pub struct ImportRows {
    pub batch: Option<BatchRow>,
    pub file: BudgetFile,
    pub clock: ClockRow,
}

/// The greatest number of rows of a file.
const ROW_LIMIT: usize = 500;

// The problems that were found while the rows were taken in order.
#[derive(Clone, Copy)]
struct Findings {
    unknown: bool,
    short: bool,
    past: bool,
    lacking: bool,
}

// The columns of a budget line; None if the line doesn't exist.
fn columns_at(lines: &Table<Standing>, line: &Id) -> Option<Columns>
    ensures { result ≡ columns_at lines.now line.now }
{
    match lines.get(line) {
        Some(standing) => standing.columns,
        None => None,
    }
}

// The appropriation and the free money of a line; 0 and 0 if the line doesn't exist.
fn amounts(held: Option<Columns>) -> (u128, u128)
    ensures appropriation { result.0 ≡ appropriation_of held }
    ensures free { result.1 ≡ free_of held }
{
    match held {
        Some(columns) => (columns.appropriation, columns.free),
        None => (0, 0),
    }
}

// The columns of a line after a row.
fn columns_after(held: Option<Columns>, row: &BudgetRow) -> Columns
    requires { IsAtMost (2 ^ 126) held }
    ensures { result ≡ columns_after held row.now }
{
    let (appropriation, free) = amounts(held);
    let amount = row.amount.units() as u128;
    match row.kind {
        BudgetKind::Add => Columns {
            appropriation: appropriation + amount,
            free: free + amount,
        },
        BudgetKind::Cut => Columns {
            appropriation: appropriation.saturating_sub(amount),
            free: free.saturating_sub(amount),
        },
    }
}

// The problems at one row.
fn findings_at(held: Option<Columns>, row: &BudgetRow) -> Findings
    requires { IsAtMost (2 ^ 126) held }
    ensures unknown { result.unknown ≡ cuts_nothing held row.now }
    ensures short { result.short ≡ cuts_too_much held row.now }
    ensures past { result.past ≡ passes_limit held row.now }
    ensures lacking { result.lacking ≡ cuts_below_zero held row.now }
    ensures small { row.now.amount ≤ total_limit }
{
    let (appropriation, free) = amounts(held);
    let amount = row.amount.units() as u128;
    match row.kind {
        BudgetKind::Add => Findings {
            unknown: false,
            short: false,
            past: appropriation + amount > TOTAL_LIMIT as u128,
            lacking: false,
        },
        BudgetKind::Cut => Findings {
            unknown: held.is_none(),
            short: free < amount,
            past: false,
            lacking: appropriation < amount,
        },
    }
}

// The problems at one place or another.
fn joined(first: Findings, second: Findings) -> Findings
    ensures unknown { result.unknown ≡ (first.unknown || second.unknown) }
    ensures short { result.short ≡ (first.short || second.short) }
    ensures past { result.past ≡ (first.past || second.past) }
    ensures lacking { result.lacking ≡ (first.lacking || second.lacking) }
{
    Findings {
        unknown: first.unknown || second.unknown,
        short: first.short || second.short,
        past: first.past || second.past,
        lacking: first.lacking || second.lacking,
    }
}

// Takes one row.
fn take_row(lines: &mut Table<Standing>, row: &BudgetRow)
    requires there { IsSome (find_standing lines.old row.now.line) }
    requires fits { IsAtMost (2 ^ 126) (columns_at lines.old row.now.line) }
    ensures { lines.new ≡ after_row lines.old row.now }
{
    let held = columns_at(lines, &row.line);
    lines.replace(Standing {
        line: row.line,
        columns: Some(columns_after(held, row)),
    });
}

// Takes the rows in order, and returns the problems at all of them.
fn take_rows(lines: &mut Table<Standing>, rows: &[BudgetRow]) -> Findings
    requires named { AreNamed lines.old rows.now }
    requires fit { AreAtMost total_limit lines.old }
    ensures lines { lines.new ≡ after_rows lines.old rows.now }
    ensures unknown { result.unknown ≡ any_while_walking cuts_nothing lines.old rows.now }
    ensures short { result.short ≡ any_while_walking cuts_too_much lines.old rows.now }
    ensures past { result.past ≡ any_while_walking passes_limit lines.old rows.now }
    ensures lacking { result.lacking ≡ any_while_walking cuts_below_zero lines.old rows.now }
{
    rows_are_kept::<Standing>();
    let mut all = Findings {
        unknown: false,
        short: false,
        past: false,
        lacking: false,
    };
    for row in rows {
        let here = findings_at(columns_at(lines, &row.line), row);
        all = joined(all, here);
        take_row(lines, row);
    }
    all
}

// The change of a row's budget line, with its columns after all rows. A column above 10^15 is `Unavailable`; no office that its commands made has one.
fn line_put(after: &Table<Standing>, row: &BudgetRow) -> Result<Put, Refusal>
    ensures put { IfOk result (λ put. put ≡ imported_line_put after.now row.now) }
    ensures fault { IfErr result (λ e. e ≡ Unavailable) }
{
    let (appropriation, free) = amounts(columns_at(after, &row.line));
    Ok(Put::Line(LineRow {
        line: row.line,
        title: row.title.clone()?,
        appropriation: Total::of_sum(appropriation).ok_or(Refusal::Unavailable)?,
        free: Total::of_sum(free).ok_or(Refusal::Unavailable)?,
    }))
}

// The changes of the import: the line of each row, the budget file and the clock.
fn import_puts(
    alloc: Global,
    t: Moment,
    clock: ClockRow,
    batch: Id,
    after: &Table<Standing>,
    rows: &[BudgetRow],
) -> Result<Vec<Put>, Refusal>
    requires few { length rows.now ≤ 500 }
    ensures puts { IfOk result (λ made. made.items ≡ puts_after clock t batch after.now rows.now) }
    ensures fault { IfErr result (λ e. e ≡ Unavailable) }
{
    let mut made = Vec::new(alloc);
    made.reserve(rows.len().saturating_add(2))?;
    for row in rows {
        made.push(line_put(after, row)?)?;
    }
    made.push(Put::Batch(BatchRow {
        batch,
        moment: t,
        rows: RowCount::read(rows.len() as u64).unwrap(),
    }))?;
    made.push(Put::Clock(at_moment(clock, t)))?;
    Ok(made)
}

/// Decides the import of a budget file: the result is its refusal or its changes. `Unavailable` if a row cuts more than the appropriation of its line although
/// as much is free, or if a line would have more than 10^15 free. Neither is so in an office that its commands made.
#[tactic(auto, unfolding(office_base::specs::Deciding::Decides))]
pub fn decide_import(
    alloc: Global,
    t: Moment,
    rows: ImportRows,
    batch: Id,
) -> Result<Vec<Put>, Refusal>
    ensures { Decides result (first_of (import_tests rows)) (import_lacks rows) (import_puts rows t batch) }
{
    let ImportRows {
        batch: held,
        file,
        clock,
    } = rows;
    let (mut lines, budget) = file.into_parts();
    let found = take_rows(&mut lines, budget.as_slice());
    if found.unknown {
        return Err(Refusal::NoSuch(Thing::Line));
    }
    if held.is_some() {
        return Err(Refusal::Exists);
    }
    if found.short {
        return Err(Refusal::InsufficientFunds);
    }
    if budget.as_slice().len() > ROW_LIMIT || found.past {
        return Err(Refusal::LimitReached);
    }
    if found.lacking {
        return Err(Refusal::Unavailable);
    }
    import_puts(alloc, t, clock, batch, &lines, budget.as_slice())
}
