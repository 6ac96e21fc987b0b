//! The reasons why no request was read, and why a run ended.
ghost use Rattle.std.specs.Prelude.{◌≡◌};

use std::alloc::{AllocError, AllocFailed};

/// The reason why no request was read. The first three depend only on the input.
#[derive(Clone, Copy, Debug, PartialEq, Eq)]
pub enum ReadFault {
    /// The grammar rejects the head, a `Content-Length` is repeated or isn't a number, or the input ends before the request does.
    BadHead,
    /// No head ends within 8,192 bytes, it has more than 64 fields, or the body's length is above 65,536.
    TooLong,
    /// The body has a transfer coding, which isn't supported (RFC 9112, section 6.1).
    Coding,
    /// Memory is too small.
    Unavailable,
    /// The reader failed, or no read is left.
    Read,
}

impl From<AllocError> for ReadFault {
    ghost use Rattle.office_wire.specs.declared.fault.ReadFault.TheVariants.{Unavailable};

    ghost from_gives = { λ _ e. e ≡ Unavailable };

    fn from(_error: AllocError) -> ReadFault {
        ReadFault::Unavailable
    }
}

impl<T: Drop> From<AllocFailed<T>> for ReadFault {
    ghost use Rattle.office_wire.specs.declared.fault.ReadFault.TheVariants.{Unavailable};

    ghost from_gives = { λ _ e. e ≡ Unavailable };

    fn from(_error: AllocFailed<T>) -> ReadFault {
        ReadFault::Unavailable
    }
}

/// The reason why a run ended before its input.
#[derive(Clone, Copy, Debug, PartialEq, Eq)]
pub enum RunFault {
    /// The reader failed, or no read is left.
    Read,
    /// The writer failed, took no more bytes, or was interrupted.
    Write,
    /// A block doesn't begin with an `at` line.
    BadBlock,
    /// The bytes after an `at` line can't be read as a request, so the next block can't be found.
    LostPlace,
}
