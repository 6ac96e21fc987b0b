//! Pages of rows: a store looks up one row more than a page has, so that the last row shows whether another page follows.
ghost use Rattle.std.specs.Prelude.{◌≡◌, take};
ghost use Rattle.office_base.specs.Limits.{page_limit};
ghost use Rattle.office_base.specs.Pages.{next_after};

use crate::row::Row;
use office_values::id::Id;

/// The number of rows of a full page.
pub const PAGE_ROWS: usize = 100;

/// The number of rows that are looked up for a page.
pub const ASKED_ROWS: u32 = 101;

/// The rows of the page, at most 100.
pub fn page_of<R>(rows: &[R]) -> &[R]
    ensures { result.now ≡ take page_limit rows.now }
{
    if rows.len() > PAGE_ROWS {
        &rows[..PAGE_ROWS]
    } else {
        rows
    }
}

/// The key of the last row of the page, if another page follows.
pub fn next_after<R: Row<Key = Id>>(rows: &[R]) -> Option<Id>
    ensures { result ≡ next_after R.key_of page_limit rows.now }
{
    if rows.len() > PAGE_ROWS {
        Some(rows[PAGE_ROWS - 1].key())
    } else {
        None
    }
}
