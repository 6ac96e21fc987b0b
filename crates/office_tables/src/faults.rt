//! Errors of SQLite, as faults of a store.
ghost use Rattle.std.specs.Prelude.{◌≡◌};
ghost use Rattle.office_tables.specs.Failing.{fault_of};

use office_base::shelf::ShelfFault;
use sqlite::{Error, ErrorCode};

/// The fault of the store for an error of the database: too little memory is `NoMemory`, any other error is `Store`.
pub fn fault(error: Error) -> ShelfFault
    ensures { result ≡ fault_of error }
{
    match error {
        Error::SqliteFailure(ErrorCode::OutOfMemory) => ShelfFault::NoMemory,
        _ => ShelfFault::Store,
    }
}
