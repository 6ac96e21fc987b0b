//! Laws of tables and stores, for the proofs of other crates.
ghost use Rattle.office_base.specs.Pages.{TablesArePaged};
ghost use Rattle.office_base.specs.RowLaws.{RowsAreKept};
ghost use Rattle.office_base.specs.Shelves.{LooksFollow};
ghost use Rattle.office_base.specs.Tables.{ChangesKeepOrder};

use crate::row::Row;
use crate::shelf::Lookups;

/// A law: a look-up finds the row that was put, and changes keep the keys in order.
pub fn rows_are_kept<R: Row>()
    ensures { RowsAreKept R.Key.cmp R.key_of }
{}

/// A law: changes keep the rows of each table in the order of their keys.
pub fn changes_keep_order()
    ensures { ChangesKeepOrder }
{}

/// A law: two calls that change nothing, one after the other, change nothing together.
pub fn looks_follow<H: Lookups>()
    ensures { LooksFollow H.meaning }
{}

/// A law: a reader who takes page after page gets each notice and each tenderer once, in the order of their identifiers. The pages may have any size above 0,
/// and the tables don't change meanwhile.
pub fn pages()
    ensures { TablesArePaged }
{}
