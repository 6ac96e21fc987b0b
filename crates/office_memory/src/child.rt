//! Rows whose keys begin with the key of their parent, so that the rows of a parent are a range of the table.
ghost use Rattle.std.specs.Prelude.{◌≡◌, ◌<◌, ◌^◌, Bool, IfOk, filter, length};
ghost use Rattle.std.specs.BTreeMap.Range.{IsLeBy};
ghost use Rattle.std.specs.Map.{values_of};
ghost use Rattle.std.specs.Map.Iter.{ShowsInOrder, deref_pair};
ghost use Rattle.keyed_table.specs.RowRanges.{is_between};

use keyed_table::boxed::Boxed;
use keyed_table::known::Known;
use keyed_table::table::Table;
use office_base::row::{Row, copy_of};
use std::alloc::{AllocError, Global};
use std::collections::btree_map::Range;

/// A row whose key begins with the key of its parent, so that the rows of a parent follow each other in the table.
pub trait Child: Row
where
    Self::Key: Known,
{
    type Parent: Copy;

    // Whether the row belongs to this parent.
    ghost is_of: { Self.Parent → Self → Bool };

    /// Two keys in order: the keys of this parent's rows are between them, and no others.
    fn key_range(parent: &Self::Parent) -> (Self::Key, Self::Key)
        ensures in_order { IsLeBy Self.Key.cmp result.0 result.1 }
        ensures between { (r : Self) → Self.Key.is_known (Self.key_of r)
            → is_between Self.Key.cmp result.0 result.1 (Self.key_of r) ≡ is_of parent.now r };
}

/// The rows of a parent, borrowed, in the order of their keys. It takes time logarithmic in the number of the table's rows.
pub fn rows_of<'a, R: Child + Drop>(
    table: &'a Table<R>,
    parent: &R::Parent,
) -> Range<'a, R::Key, Boxed<R>>
where
    R::Key: Known,
    ensures rows { values_of result ≡ filter (R.is_of parent.now) table.now }
    ensures runs { ShowsInOrder (deref_pair {K = R.Key} {X = R}) }
    ensures fits { length result < 2 ^ 63 }
{
    let (first, last) = R::key_range(parent);
    table.range(&first, &last)
}

/// Copies of the rows of a parent, in the order of their keys. It takes the time of the copies, and time logarithmic in the number of the table's rows.
pub fn copy_rows_of<R: Child + Drop>(
    alloc: Global,
    table: &Table<R>,
    parent: &R::Parent,
) -> Result<Vec<R>, AllocError>
where
    R::Key: Known,
    ensures { IfOk result (λ rows. rows.items ≡ filter (R.is_of parent.now) table.now) }
{
    let mut copied = Vec::new(alloc);
    for (_, row) in rows_of(table, parent) {
        copied.push(copy_of(row.get())?)?;
    }
    Ok(copied)
}
