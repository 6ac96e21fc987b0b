//! An index that lists the keys of rows by group.
ghost use Rattle.std.specs.Prelude.{◌≡◌, ◌&&◌, IfOk, OnOk, true, [], ◌∷◌, filter, map};
ghost use Rattle.std.specs.BTreeSet.{contains};
ghost use Rattle.office_memory.specs.Inside.GroupIndex.{has_key, HasRows, IsIndexed};

use crate::indexed_table::IndexedTable;
use crate::indexes::Indexes;
use keyed_table::known::Known;
use keyed_table::table::{Replaced, Table};
use office_base::row::{Row, copy_of};
use std::alloc::{AllocError, Global};
use std::collections::{BTreeMap, BTreeSet};

/// A name for a way to group rows, such as by notice. It is only a type parameter: no value of it exists.
pub trait Grouping<R: Row> {
    type Group: Ord + Copy;

    ghost group_of: { R → Self.Group };

    /// The group to which a row belongs.
    fn group(row: &R) -> Self::Group
        ensures { result ≡ group_of row.now };
}

/// For each group, the keys of the rows that belong or once belonged to it. A key isn't removed when its row changes its group.
#[derive(Drop)]
pub struct GroupIndex<R: Row, N: Grouping<R>> {
    alloc: Global,
    pub keys: BTreeMap<N::Group, BTreeSet<R::Key>>,
    /// Whether the index lists every row. It does, unless `take_back` restored a row that was never put.
    pub is_whole: bool,
}

// A set with only this key. AllocError if there is too little memory.
fn only<K: Ord + Copy>(alloc: Global, key: K) -> Result<BTreeSet<K>, AllocError>
    ensures { IfOk result (λ keys. keys.keys ≡ key ∷ []) }
{
    let mut keys = BTreeSet::new(alloc);
    keys.insert(key)?;
    Ok(keys)
}

// Adds a key to the set of a group. No key leaves the set, even if there is too little memory.
fn add_to<K: Ord + Copy>(keys: &mut BTreeSet<K>, key: K) -> Result<(), AllocError>
    ensures has { OnOk result (contains K.cmp keys.new key ≡ true) }
    ensures kept { (k : K) → contains K.cmp keys.old k ≡ true → contains K.cmp keys.new k ≡ true }
{
    keys.insert(key)?;
    Ok(())
}

// Copies of these rows, in order. AllocError if there is too little memory.
fn copies<R: Row>(alloc: Global, rows: &[&R]) -> Result<Vec<R>, AllocError>
    ensures { IfOk result (λ copied. copied.items ≡ map (λ row. row.now) rows.now) }
{
    let mut copied = Vec::with_capacity(alloc, rows.len())?;
    for row in rows {
        copied.push(copy_of(*row)?)?;
    }
    Ok(copied)
}

impl<R: Row + Drop, N: Grouping<R>> GroupIndex<R, N>
where
    R::Key: Known,
{
    // Whether the index lists this key under this group.
    fn has(&self, group: &N::Group, key: &R::Key) -> bool
        ensures { result ≡ has_key N.Group.cmp R.Key.cmp self.now.keys group.now key.now }
    {
        match self.keys.get(group) {
            Some(keys) => keys.contains(key),
            None => false,
        }
    }

    // Lists the key under the group. No key leaves the index, even if there is too little memory.
    fn add(&mut self, group: N::Group, key: R::Key) -> Result<(), AllocError>
        ensures has { OnOk result (has_key N.Group.cmp R.Key.cmp self.new.keys group key ≡ true) }
        ensures kept { (g : N.Group) (k : R.Key) → has_key N.Group.cmp R.Key.cmp self.old.keys g k ≡ true
            → has_key N.Group.cmp R.Key.cmp self.new.keys g k ≡ true }
        ensures whole { self.new.is_whole ≡ self.old.is_whole }
    {
        if let Some(keys) = self.keys.get_mut(&group) {
            return add_to(keys, key);
        }
        self.keys.insert(group, only(self.alloc, key)?)?;
        Ok(())
    }

    // Marks the index as not whole if it doesn't list this key under this group.
    fn keep_whole(&mut self, group: &N::Group, key: &R::Key)
        ensures keys { self.new.keys ≡ self.old.keys }
        ensures whole { self.new.is_whole ≡ (self.old.is_whole && has_key N.Group.cmp R.Key.cmp self.old.keys group.now key.now) }
    {
        self.is_whole &= self.has(group, key);
    }

    // The rows of a group, for an index that lists every row. It looks up each key that the index lists for the group, and leaves out a row that is gone or
    // belongs to another group now.
    fn indexed<'a>(
        &self,
        alloc: Global,
        rows: &'a Table<R>,
        group: &N::Group,
    ) -> Result<Vec<&'a R>, AllocError>
        requires { HasRows N.Group.cmp R.Key.cmp N.group_of R.key_of rows.now self.now.keys }
        ensures { IfOk result (λ found. map (λ row. row.now) found.items ≡ filter (λ r. N.Group.eq (N.group_of r) group.now) rows.now) }
    {
        rows.keys_rise();
        let Some(keys) = self.keys.get(group) else {
            return Ok(Vec::new(alloc));
        };
        let mut found = Vec::with_capacity(alloc, keys.len())?;
        for key in keys {
            if let Some(row) = rows.get(key) {
                if N::group(row) == *group {
                    found.push(row)?;
                }
            }
        }
        Ok(found)
    }

    // The rows of a group, found by going through all rows.
    fn searched<'a>(
        alloc: Global,
        rows: &'a Table<R>,
        group: &N::Group,
    ) -> Result<Vec<&'a R>, AllocError>
        ensures { IfOk result (λ found. map (λ row. row.now) found.items ≡ filter (λ r. N.Group.eq (N.group_of r) group.now) rows.now) }
    {
        let mut found = Vec::new(alloc);
        for boxed in rows.iter() {
            let row = boxed.get();
            if N::group(row) == *group {
                found.push(row)?;
            }
        }
        Ok(found)
    }

    /// The rows of a group in the table of this index, borrowed, in the order of their keys. It looks up each row that belongs or once belonged to the group.
    /// If the index isn't whole, it goes through all rows.
    pub fn rows_of_group<'a, I: Indexes<R>>(
        &self,
        alloc: Global,
        table: &'a IndexedTable<R, I>,
        group: &N::Group,
    ) -> Result<Vec<&'a R>, AllocError>
        requires { IsIndexed N.Group.cmp R.Key.cmp N.group_of R.key_of table.now self.now.keys self.now.is_whole }
        ensures { IfOk result (λ found. map (λ row. row.now) found.items ≡ filter (λ r. N.Group.eq (N.group_of r) group.now) table.now) }
    {
        let rows = table.rows();
        if !self.is_whole {
            return Self::searched(alloc, rows, group);
        }
        self.indexed(alloc, rows, group)
    }

    /// Copies of the rows of a group in the table of this index, in the order of their keys.
    pub fn copy_of_group<I: Indexes<R>>(
        &self,
        alloc: Global,
        table: &IndexedTable<R, I>,
        group: &N::Group,
    ) -> Result<Vec<R>, AllocError>
        requires { IsIndexed N.Group.cmp R.Key.cmp N.group_of R.key_of table.now self.now.keys self.now.is_whole }
        ensures { IfOk result (λ copied. copied.items ≡ filter (λ r. N.Group.eq (N.group_of r) group.now) table.now) }
    {
        copies(alloc, &self.rows_of_group(alloc, table, group)?)
    }
}

impl<R: Row + Drop, N: Grouping<R>> Indexes<R> for GroupIndex<R, N>
where
    R::Key: Known,
{
    ghost covers = { λ index rows. IsIndexed N.Group.cmp R.Key.cmp N.group_of R.key_of rows index.keys index.is_whole };

    fn new(alloc: Global) -> GroupIndex<R, N> {
        GroupIndex {
            alloc,
            keys: BTreeMap::new(alloc),
            is_whole: true,
        }
    }

    fn add_row(&mut self, row: &R) -> Result<(), AllocError> {
        self.add(N::group(row), row.key())
    }

    // A restored row stays listed if it was put before. Otherwise the index isn't whole any more, because listing it could fail for too little memory.
    fn go_back(&mut self, replaced: &Replaced<R>) {
        match &replaced.old {
            Some(boxed) => {
                let row = boxed.get();
                self.keep_whole(&N::group(row), &row.key());
            }
            None => {}
        }
    }
}
