//! Stores that outlive the program.
ghost use Rattle.office_base.specs.Shutting.{Standing, TellsShut};

use crate::shelf::{Lookups, Shelf, ShelfFault};

/// A store that outlives the program, such as a file. A fault can close it for good.
pub trait StoredShelf: Shelf {
    ghost store: { Standing Self };

    /// Whether a fault closed the store for good. Such a store answers every call with a fault until it is opened again. Asking changes nothing. `NoMemory`
    /// means too little memory to ask, and `Store` a fault of the disk during the call.
    fn is_shut(&mut self) -> Result<bool, ShelfFault>
        ensures { TellsShut Self.meaning store self.old self.new result };
}
