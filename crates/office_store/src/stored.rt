//! An office in SQL as a store that outlives the program.
ghost use Rattle.sqlite.specs.Held.{state};

use crate::shelf::SqlShelf;
use office_base::shelf::ShelfFault;
use office_base::stored::StoredShelf;
use sqlite::Alter;

impl<S: Alter> StoredShelf for SqlShelf<S> {
    ghost store = { record { is_open = λ shelf. (state S.Store shelf.0).is_open; disk_faults = λ shelf. (state S.Store shelf.0).faults } };

    fn is_shut(&mut self) -> Result<bool, ShelfFault> {
        SqlShelf::is_shut(self)
    }
}
