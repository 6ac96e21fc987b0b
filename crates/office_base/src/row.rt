//! Rows of tables, which contain their keys.
ghost use Rattle.std.specs.Prelude.{◌≡◌, IfOk};

use std::alloc::AllocError;

/// A row that contains its key.
pub trait Row: Clone {
    type Key: Ord + Copy;

    ghost key_of: { Self → Self.Key };

    /// The key of the row.
    fn key(&self) -> Self::Key
        ensures { result ≡ key_of self.now };

    // A law of the type: a copy of a row equals the row.
    ghost clone_same: { (a b : Self) → Self.is_clone a b → b ≡ a };
}

/// A copy of the row. AllocError if there is too little memory.
pub fn copy_of<R: Row>(row: &R) -> Result<R, AllocError>
    ensures { IfOk result (λ copy. copy ≡ row.now) }
{
    row.clone()
}
