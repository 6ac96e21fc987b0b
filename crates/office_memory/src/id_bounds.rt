//! The least and the greatest identifier: every identifier is between them.
ghost use Rattle.std.specs.Prelude.{◌≡◌};
ghost use Rattle.office_memory.specs.Inside.IdBounds.{least, greatest};

use office_values::id::{ID_LIMIT, Id};

/// The least identifier: the one byte `-`.
pub fn least_id() -> Id
    ensures { result ≡ least }
{
    let Some(id) = Id::read(b"-") else {
        unreachable!()
    };
    id
}

/// The greatest identifier: 32 times `z`.
pub fn greatest_id() -> Id
    ensures { result ≡ greatest }
{
    let Some(id) = Id::read(&[b'z'; ID_LIMIT]) else {
        unreachable!()
    };
    id
}
