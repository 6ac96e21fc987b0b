//! The refusal of a budget file or of a notice whose identifier is used already.
ghost use Rattle.std.specs.Prelude.{◌≡◌};
ghost use Rattle.std.specs.List.{list_any};
ghost use Rattle.office_base.specs.Shelves.{LooksUp};
ghost use Rattle.office_plans.specs.Used.{cuts_lost_line, first_cuts, refusal_if_used, used_file, used_notice};
ghost use Rattle.tender_core.specs.Rules.Publish.{is_on_no_line};

use office_base::laws::looks_follow;
use office_base::shelf::{Lookups, ShelfFault};
use office_commands::budget::{BudgetKind, BudgetRow};
use office_commands::lot::NewLot;
use office_values::id::Id;
use office_values::refusal::{Refusal, Thing};

// Whether the first of these rows that names this line cuts money from it.
fn first_cuts(rows: &[BudgetRow], line: &Id) -> bool
    ensures { result ≡ first_cuts rows.now line.now }
{
    for row in rows {
        if row.line == *line {
            return match row.kind {
                BudgetKind::Add => false,
                BudgetKind::Cut => true,
            };
        }
    }
    false
}

// Whether the line of this row doesn't exist, and the first of the file's rows that names it cuts money from it.
fn cuts_lost_line<H: Lookups>(
    shelf: &mut H,
    file: &[BudgetRow],
    row: &BudgetRow,
) -> Result<bool, ShelfFault>
    ensures { LooksUp H.meaning shelf.old shelf.new result (λ s lost. lost ≡ cuts_lost_line s file.now row.now) }
{
    if !first_cuts(file, &row.line) {
        return Ok(false);
    }
    Ok(shelf.get_line(&row.line)?.is_none())
}

// Whether a row cuts money from a line that neither exists nor is made by an earlier row.
fn some_cuts_lost_line<H: Lookups>(shelf: &mut H, rows: &[BudgetRow]) -> Result<bool, ShelfFault>
    ensures { LooksUp H.meaning shelf.old shelf.new result (λ s lost. lost ≡ list_any (cuts_lost_line s rows.now) rows.now) }
{
    looks_follow::<H>();
    for row in rows {
        if cuts_lost_line(shelf, rows, row)? {
            return Ok(true);
        }
    }
    Ok(false)
}

// Whether the line of a lot doesn't exist.
fn some_on_no_line<H: Lookups>(shelf: &mut H, lots: &[NewLot]) -> Result<bool, ShelfFault>
    ensures { LooksUp H.meaning shelf.old shelf.new result (λ s lost. lost ≡ list_any (is_on_no_line s.lines) lots.now) }
{
    looks_follow::<H>();
    for lot in lots {
        if shelf.get_line(&lot.line)?.is_none() {
            return Ok(true);
        }
    }
    Ok(false)
}

// The refusal of a command whose identifier is used. The argument: does a budget line that it needs not exist?
fn refusal_if_used(lost: bool) -> Refusal
    ensures { result ≡ refusal_if_used lost }
{
    if lost {
        Refusal::NoSuch(Thing::Line)
    } else {
        Refusal::Exists
    }
}

/// The refusal of a budget file with these rows whose identifier is used.
pub fn used_file<H: Lookups>(shelf: &mut H, rows: &[BudgetRow]) -> Result<Refusal, ShelfFault>
    ensures { LooksUp H.meaning shelf.old shelf.new result (λ s why. why ≡ used_file rows.now s) }
{
    let lost = some_cuts_lost_line(shelf, rows)?;
    Ok(refusal_if_used(lost))
}

/// The refusal of a notice with these lots whose identifier is used.
pub fn used_notice<H: Lookups>(shelf: &mut H, lots: &[NewLot]) -> Result<Refusal, ShelfFault>
    ensures { LooksUp H.meaning shelf.old shelf.new result (λ s why. why ≡ used_notice lots.now s) }
{
    let lost = some_on_no_line(shelf, lots)?;
    Ok(refusal_if_used(lost))
}
