//! The indexes of a table: one, or several in a struct.
ghost use Rattle.std.specs.Prelude.{List, [], OnOk};
ghost use Rattle.keyed_table.specs.Replacing.{taken_back};
ghost use Rattle.office_base.specs.Rows.{row_put};

use keyed_table::table::Replaced;
use office_base::row::Row;
use std::alloc::{AllocError, Global};

/// The indexes of a table: one, or several in a struct.
pub trait Indexes<R: Row + Drop>: Sized + Drop {
    // Each of the indexes finds these rows.
    ghost covers: { Self → List R → Type 0 };

    /// The indexes of a table without rows. It allocates no memory.
    fn new(alloc: Global) -> Self
        ensures { covers result [] };

    /// Lists a row that is about to be put. If the put then fails, the indexes list a key too many, which does no harm.
    fn add_row(&mut self, row: &R) -> Result<(), AllocError>
        ensures put { OnOk result ((rows : List R) → covers self.old rows → covers self.new (row_put R.Key.cmp R.key_of rows row.now)) }
        ensures kept { (rows : List R) → covers self.old rows → covers self.new rows };

    /// Prepares for taking a put back, which restores the row that it replaced or drops the new one. It allocates no memory.
    fn go_back(&mut self, replaced: &Replaced<R>)
        ensures { (rows : List R) → covers self.old rows → covers self.new (taken_back R.Key.cmp R.key_of replaced.now rows) };
}
