//! A table with indexes of its rows.
ghost use Rattle.std.specs.Prelude.{◌≡◌, IfOk, OnOk, OnErr, []};
ghost use Rattle.keyed_table.specs.Replacing.{taken_back, CanTakeBack};
ghost use Rattle.office_base.specs.Rows.{row_put};

use crate::indexes::Indexes;
use keyed_table::known::Known;
use keyed_table::table::{Replaced, Table};
use office_base::row::Row;
use std::alloc::{AllocError, Global};
use std::marker::Model;

/// A table of rows by their keys, and its indexes.
#[derive(Drop)]
pub struct IndexedTable<R: Row + Drop, I: Indexes<R>>
where
    R::Key: Known,
{
    rows: Table<R>,
    indexes: I,
}

impl<R: Row + Drop, I: Indexes<R>> Model for IndexedTable<R, I>
where
    R::Key: Known,
{
    ghost use Rattle.std.specs.Prelude.{List};

    ghost Value = { List R };

    ghost view = { λ t. t.rows };

    ghost invariant = { λ t. I.covers t.indexes t.rows };
}

impl<R: Row + Drop, I: Indexes<R>> IndexedTable<R, I>
where
    R::Key: Known,
{
    /// A table without rows. It allocates no memory.
    pub fn new(alloc: Global) -> IndexedTable<R, I>
        ensures { result ≡ [] }
    {
        IndexedTable {
            rows: Table::new(alloc),
            indexes: I::new(alloc),
        }
    }

    /// The rows by their keys.
    pub fn rows(&self) -> &Table<R>
        ensures { result.now ≡ self.now }
    {
        &self.rows
    }

    /// The indexes of the rows.
    pub fn indexes(&self) -> &I
        ensures { I.covers result.now self.now }
    {
        &self.indexes
    }

    /// Adds the row, or replaces the one with its key, and returns the data with which `take_back` undoes that.
    pub fn put(&mut self, row: R) -> Result<Replaced<R>, AllocError>
        ensures rows { OnOk result (self.new ≡ row_put R.Key.cmp R.key_of self.old row) }
        ensures back { IfOk result (λ replaced. taken_back R.Key.cmp R.key_of replaced self.new ≡ self.old) }
        ensures can { IfOk result (λ replaced. CanTakeBack R.Key.cmp R.key_of replaced self.new) }
        ensures kept { OnErr result (self.new ≡ self.old) }
    {
        self.indexes.add_row(&row)?;
        self.rows.put(row)
    }

    /// Takes a put back: restores the row that it replaced, or drops the new one. It allocates no memory.
    pub fn take_back(&mut self, replaced: Replaced<R>)
        requires { CanTakeBack R.Key.cmp R.key_of replaced self.old }
        ensures { self.new ≡ taken_back R.Key.cmp R.key_of replaced self.old }
    {
        self.indexes.go_back(&replaced);
        self.rows.take_back(replaced);
    }
}
