//! Budget lines that are looked up by their names, each once.
ghost use Rattle.std.specs.Prelude.{◌≡◌, OnOk};
ghost use Rattle.office_base.specs.Shelves.{Looks};
ghost use Rattle.office_plans.specs.Named.{with_line};

use crate::looked_up::put_found;
use keyed_table::table::Table;
use office_base::records::LineRow;
use office_base::shelf::{Lookups, ShelfFault};
use office_values::id::Id;

/// Loads the line of this name, unless it is already loaded.
pub fn load_line<H: Lookups>(
    shelf: &mut H,
    lines: &mut Table<LineRow>,
    name: &Id,
) -> Result<(), ShelfFault>
    ensures { Looks H.meaning shelf.old shelf.new (λ s. OnOk result (lines.new ≡ with_line s lines.old name.now)) }
{
    if lines.get(name).is_some() {
        return Ok(());
    }
    let found = shelf.get_line(name)?;
    put_found(lines, found)
}
