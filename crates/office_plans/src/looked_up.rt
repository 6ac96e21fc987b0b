//! A table of rows that were looked up by their keys.
ghost use Rattle.std.specs.Prelude.{◌≡◌, OnOk};
ghost use Rattle.office_plans.specs.LookedUp.{with_row};

use keyed_table::known::Known;
use keyed_table::table::Table;
use office_base::row::Row;
use office_base::shelf::ShelfFault;

/// Puts a row that was looked up, if it was found.
pub fn put_found<R: Row + Drop>(rows: &mut Table<R>, found: Option<R>) -> Result<(), ShelfFault>
where
    R::Key: Known,
    ensures { OnOk result (rows.new ≡ with_row R.Key.cmp R.key_of rows.old found) }
{
    match found {
        Some(row) => match rows.put(row) {
            Ok(_) => Ok(()),
            Err(_) => Err(ShelfFault::NoMemory),
        },
        None => Ok(()),
    }
}
