//! The standings of the budget lines that a budget file names: appropriation and free money. Each line is looked up once.
ghost use Rattle.std.specs.Prelude.{◌≡◌, IfOk, OnOk, IsSome, map};
ghost use Rattle.office_values.specs.Money.{total_limit};
ghost use Rattle.office_base.specs.Shelves.{Looks};
ghost use Rattle.office_base.specs.Standings.{find_standing};
ghost use Rattle.office_plans.specs.Named.{StillThere, line_of_row, standing_at, standings_named, with_new_standing, with_standing};
ghost use Rattle.tender_core.specs.Walks.{AreNamed, IsAtMost, AreAtMost};

use keyed_table::table::Table;
use office_base::laws::{looks_follow, rows_are_kept};
use office_base::records::LineRow;
use office_base::shelf::{Lookups, ShelfFault};
use office_base::standing::{Columns, Standing};
use office_commands::budget::BudgetRow;
use office_values::id::Id;
use std::alloc::Global;

// The `Standing` of the line of this name, by the row that was found of it.
fn standing_at(name: Id, found: &Option<LineRow>) -> Standing
    ensures value { result ≡ standing_at name found.now }
    ensures fits { IsAtMost total_limit result.columns }
{
    Standing {
        line: name,
        columns: match found {
            Some(row) => Some(Columns {
                appropriation: row.appropriation.units() as u128,
                free: row.free.units() as u128,
            }),
            None => None,
        },
    }
}

// Loads the `Standing` of a line.
fn load_new<H: Lookups>(
    shelf: &mut H,
    lines: &mut Table<Standing>,
    name: &Id,
) -> Result<(), ShelfFault>
    ensures looks { Looks H.meaning shelf.old shelf.new (λ s. OnOk result (lines.new ≡ with_new_standing s lines.old name.now)) }
    ensures there { OnOk result (IsSome (find_standing lines.new name.now)) }
    ensures kept { OnOk result (StillThere lines.old lines.new) }
    ensures fit { OnOk result (AreAtMost total_limit lines.old → AreAtMost total_limit lines.new) }
{
    rows_are_kept::<Standing>();
    let found = shelf.get_line(name)?;
    match lines.put(standing_at(*name, &found)) {
        Ok(_) => Ok(()),
        Err(_) => Err(ShelfFault::NoMemory),
    }
}

// Loads the `Standing` of a line, unless it is already loaded.
fn load_standing<H: Lookups>(
    shelf: &mut H,
    lines: &mut Table<Standing>,
    name: &Id,
) -> Result<(), ShelfFault>
    ensures looks { Looks H.meaning shelf.old shelf.new (λ s. OnOk result (lines.new ≡ with_standing s lines.old name.now)) }
    ensures there { OnOk result (IsSome (find_standing lines.new name.now)) }
    ensures kept { OnOk result (StillThere lines.old lines.new) }
    ensures fit { OnOk result (AreAtMost total_limit lines.old → AreAtMost total_limit lines.new) }
{
    if lines.get(name).is_some() {
        return Ok(());
    }
    load_new(shelf, lines, name)
}

/// Loads the standings of the lines that these rows name.
pub fn load_standings<H: Lookups>(
    alloc: Global,
    shelf: &mut H,
    rows: &[BudgetRow],
) -> Result<Table<Standing>, ShelfFault>
    ensures looks { Looks H.meaning shelf.old shelf.new (λ s. IfOk result (λ lines. lines ≡ standings_named s (map line_of_row rows.now))) }
    ensures named { IfOk result (λ lines. AreNamed lines rows.now) }
    ensures fit { IfOk result (AreAtMost total_limit) }
{
    looks_follow::<H>();
    let mut lines = Table::new(alloc);
    for row in rows {
        load_standing(shelf, &mut lines, &row.line)?;
    }
    Ok(lines)
}
