//! Reads rows of an answer as records.
ghost use Rattle.std.specs.Prelude.{◌≡◌, IfOk, IfErr, IfSome, map, slice_get, option_map};
ghost use Rattle.std.specs.List.{AllByRecursion};
ghost use Rattle.sqlite_value.specs.Order.{Row as Values};
ghost use Rattle.office_base.specs.Faults.{IsFaultOf};
ghost use Rattle.office_tables.specs.Unwritten.{IsUnwritten};

use office_base::shelf::ShelfFault;
use sqlite::Row;
use std::alloc::Global;

/// A record that is stored as a row.
pub trait Stored: Sized {
    ghost read: { Values → Self };

    ghost row_of: { Self → Values };

    ghost fits: { Self → Type 0 };

    /// The record of a row. If no valid record has this row, it is a fault of the store.
    fn from_row(alloc: Global, row: &Row) -> Result<Self, ShelfFault>
        ensures read { IfOk result (λ x. x ≡ read row.now) }
        ensures exact { IfOk result (λ x. row_of x ≡ row.now) }
        ensures fits { IfOk result fits }
        ensures cause { IfErr result (IsFaultOf (IsUnwritten row_of fits row.now)) };
}

/// The record of the first row, or `None` if there are no rows.
pub fn first<R: Stored>(alloc: Global, rows: &[Row]) -> Result<Option<R>, ShelfFault>
    ensures read { IfOk result (λ found. found ≡ option_map R.read (slice_get rows.now 0)) }
    ensures exact { IfOk result (λ found. option_map R.row_of found ≡ slice_get rows.now 0) }
    ensures fits { IfOk result (λ found. IfSome found R.fits) }
    ensures cause { IfErr result (IsFaultOf (IsUnwritten (option_map R.row_of) (λ found. IfSome found R.fits) (slice_get rows.now 0))) }
{
    match rows.first() {
        Some(row) => Ok(Some(R::from_row(alloc, row)?)),
        None => Ok(None),
    }
}

/// The records of all rows, in their order.
#[tactic(auto, using(crate::proofs::Exactly::all_fit_push))]
pub fn all<R: Stored + Drop>(alloc: Global, rows: &[Row]) -> Result<Vec<R>, ShelfFault>
    ensures read { IfOk result (λ found. found.items ≡ map R.read rows.now) }
    ensures exact { IfOk result (λ found. map R.row_of found.items ≡ rows.now) }
    ensures fits { IfOk result (λ found. AllByRecursion R.fits found.items) }
    ensures cause { IfErr result (IsFaultOf (IsUnwritten (map R.row_of) (AllByRecursion R.fits) rows.now)) }
{
    let mut found = Vec::new(alloc);
    'rows: for row in rows {
        let record = R::from_row(alloc, row)?;
        if found.push(record).is_err() {
            return Err(ShelfFault::NoMemory);
        }
    }
    Ok(found)
}
