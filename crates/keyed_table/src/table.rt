//! A table of rows in the order of their keys, in memory.
ghost use Rattle.std.specs.Prelude.{◌≡◌, ◌<◌, ◌^◌, IfOk, OnOk, OnErr, option_map, [], None, IsSome, length, take};
ghost use Rattle.std.specs.BTreeMap.Range.{IsLeBy};
ghost use Rattle.std.specs.List.{AllByRecursion};
ghost use Rattle.std.specs.Map.{values_of};
ghost use Rattle.std.specs.Map.Iter.{ShowsInOrder, deref, deref_pair};
ghost use Rattle.office_base.specs.Rows.{row_at, row_put, row_drop, IsInOrder};
ghost use Rattle.office_base.specs.Pages.{rows_after};
ghost use Rattle.keyed_table.specs.RowRanges.{rows_between, start_of};
ghost use Rattle.keyed_table.specs.Replacing.{taken_back, CanTakeBack};

use crate::boxed::Boxed;
use crate::known::Known;
use office_base::laws::rows_are_kept;
use office_base::row::{Row, copy_of};
use std::alloc::{AllocError, Global};
use std::collections::BTreeMap;
use std::collections::btree_map::{Range, Values};
use std::marker::Model;
use std::ops::Bound;

/// The key of a row that was put, and the row that it replaced, if any.
#[derive(Drop)]
pub struct Replaced<R: Row + Drop> {
    pub key: R::Key,
    pub old: Option<Boxed<R>>,
}

/// A table: its rows in the order of their keys. A look-up or a change takes time logarithmic in the number of rows.
#[derive(Drop)]
pub struct Table<R: Row + Drop>
where
    R::Key: Known,
{
    alloc: Global,
    rows: BTreeMap<R::Key, Boxed<R>>,
}

impl<R: Row + Drop> Model for Table<R>
where
    R::Key: Known,
{
    ghost use Rattle.std.specs.Prelude.{List};
    ghost use Rattle.std.specs.BTreeMap.{values};
    ghost use Rattle.keyed_table.specs.Inside.Keyed.{IsKeyed};

    ghost Value = { List R };

    ghost view = { λ t. values t.rows };

    ghost invariant = { λ t. IsKeyed R.Key.cmp R.key_of R.Key.is_known t.rows.entries };
}

// The bound of the rows after a key; without a key, no bound.
fn start_of<K>(key: Option<K>) -> Bound<K>
    ensures { result ≡ start_of key }
{
    match key {
        Some(key) => Bound::Excluded(key),
        None => Bound::Unbounded,
    }
}

impl<R: Row + Drop> Table<R>
where
    R::Key: Known,
{
    /// A table without rows. It allocates no memory.
    pub fn new(alloc: Global) -> Table<R>
        ensures { result ≡ [] }
    {
        Table {
            alloc,
            rows: BTreeMap::new(alloc),
        }
    }

    /// The row with this key, borrowed.
    pub fn get(&self, key: &R::Key) -> Option<&R>
        ensures { option_map (λ row. row.now) result ≡ row_at R.Key.cmp R.key_of self.now key.now }
    {
        match self.rows.get(key) {
            Some(row) => Some(row.get()),
            None => None,
        }
    }

    /// A copy of the row with this key. AllocError if there is too little memory.
    pub fn copy_at(&self, key: &R::Key) -> Result<Option<R>, AllocError>
        ensures { IfOk result (λ row. row ≡ row_at R.Key.cmp R.key_of self.now key.now) }
    {
        match self.get(key) {
            Some(row) => Ok(Some(copy_of(row)?)),
            None => Ok(None),
        }
    }

    /// Copies of all rows, in the order of their keys. AllocError if there is too little memory.
    pub fn copy_all(&self, alloc: Global) -> Result<Vec<R>, AllocError>
        ensures { IfOk result (λ rows. rows.items ≡ self.now) }
    {
        let mut rows = Vec::new(alloc);
        for row in self.rows.values() {
            rows.push(copy_of(row.get())?)?;
        }
        Ok(rows)
    }

    // Adds the row, or replaces the one with its key, and returns that one. Only adding can fail for too little memory.
    fn insert(&mut self, row: Boxed<R>) -> Result<Option<Boxed<R>>, AllocError>
        ensures rows { OnOk result (self.new ≡ row_put R.Key.cmp R.key_of self.old row) }
        ensures old { IfOk result (λ old. old ≡ row_at R.Key.cmp R.key_of self.old (R.key_of row)) }
        ensures kept { OnErr result (self.new ≡ self.old) }
        ensures fresh { OnErr result (row_at R.Key.cmp R.key_of self.old (R.key_of row) ≡ None) }
    {
        let key = row.get().key();
        key.look();
        match self.rows.insert(key, row) {
            Ok(old) => Ok(old),
            Err(_) => Err(AllocError),
        }
    }

    /// Drops the row with this key, if there is one. It allocates no memory.
    pub fn remove(&mut self, key: &R::Key)
        ensures { self.new ≡ row_drop R.Key.cmp R.key_of self.old key.now }
    {
        self.rows.remove(key);
    }

    /// Adds the row, or replaces the one with its key, and returns the data with which `take_back` undoes that. Both allocate memory.
    pub fn put(&mut self, row: R) -> Result<Replaced<R>, AllocError>
        ensures rows { OnOk result (self.new ≡ row_put R.Key.cmp R.key_of self.old row) }
        ensures back { IfOk result (λ replaced. taken_back R.Key.cmp R.key_of replaced self.new ≡ self.old) }
        ensures can { IfOk result (λ replaced. CanTakeBack R.Key.cmp R.key_of replaced self.new) }
        ensures kept { OnErr result (self.new ≡ self.old) }
    {
        rows_are_kept::<R>();
        let key = row.key();
        let old = self.insert(Boxed::new(self.alloc, row)?)?;
        Ok(Replaced { key, old })
    }

    /// Replaces the row that has the key of this one; such a row must exist. It allocates no memory.
    pub fn replace(&mut self, row: R)
        requires { IsSome (row_at R.Key.cmp R.key_of self.old (R.key_of row)) }
        ensures { self.new ≡ row_put R.Key.cmp R.key_of self.old row }
    {
        let key = row.key();
        key.look();
        if let Some(held) = self.rows.get_mut(&key) {
            held.set(row);
        }
    }

    /// Takes a put back: restores the row that it replaced, or drops the new one. It allocates no memory.
    pub fn take_back(&mut self, replaced: Replaced<R>)
        requires { CanTakeBack R.Key.cmp R.key_of replaced self.old }
        ensures { self.new ≡ taken_back R.Key.cmp R.key_of replaced self.old }
    {
        match replaced.old {
            Some(row) => {
                self.insert(row).unwrap();
            }
            None => self.remove(&replaced.key),
        }
    }

    /// All rows, borrowed, in the order of their keys.
    pub fn iter(&self) -> Values<'_, R::Key, Boxed<R>>
        ensures rows { result ≡ self.now }
        ensures runs { ShowsInOrder (deref {X = R}) }
    {
        self.rows.values()
    }

    /// The rows from one key to another, both included, in the order of their keys. It takes time logarithmic in the number of rows.
    pub fn range(&self, first: &R::Key, last: &R::Key) -> Range<'_, R::Key, Boxed<R>>
        requires { IsLeBy R.Key.cmp first.now last.now }
        ensures rows { values_of result ≡ rows_between R.Key.cmp R.key_of first.now last.now self.now }
        ensures known { AllByRecursion (λ r. R.Key.is_known (R.key_of r)) self.now }
        ensures runs { ShowsInOrder (deref_pair {K = R.Key} {X = R}) }
        ensures fits { length result < 2 ^ 63 }
    {
        self.rows.range(first..=last)
    }

    /// The rows after a key, or all without one, in the order of their keys. It takes time logarithmic in the number of rows.
    pub fn after(&self, key: Option<R::Key>) -> Range<'_, R::Key, Boxed<R>>
        ensures rows { values_of result ≡ rows_after R.Key.cmp R.key_of key self.now }
        ensures runs { ShowsInOrder (deref_pair {K = R.Key} {X = R}) }
        ensures fits { length result < 2 ^ 63 }
    {
        self.rows.range((start_of(key), Bound::Unbounded))
    }

    /// Copies of the first `most` rows after a key, or of all, in the order of their keys. It takes the time of the copies, and time logarithmic in the number
    /// of rows.
    #[tactic(auto, using(crate::proofs::RowRanges::front_is, crate::proofs::RowRanges::whole_is))]
    pub fn copy_after(
        &self,
        alloc: Global,
        key: Option<R::Key>,
        most: u32,
    ) -> Result<Vec<R>, AllocError>
        ensures { IfOk result (λ rows. rows.items ≡ take most (rows_after R.Key.cmp R.key_of key self.now)) }
    {
        let mut copied = Vec::new(alloc);
        for (_, row) in self.after(key) {
            if copied.len() == most as usize {
                return Ok(copied);
            }
            copied.push(copy_of(row.get())?)?;
        }
        Ok(copied)
    }

    /// A fact for callers: the keys of the table rise strictly.
    pub fn keys_rise(&self)
        ensures { IsInOrder R.Key.cmp R.key_of self.now }
    {
        let _ = &self.rows;
    }
}
