//! Why a value can't be merged into a text directly.
use std::alloc::AllocError;

/// Why there is no merged text.
#[derive(Clone, Copy)]
pub(crate) enum Unspliced {
    NoMemory,
    /// The text doesn't have the form that can be merged directly; for example, a name has an escape.
    Unfit,
}

impl From<AllocError> for Unspliced {
    fn from(_error: AllocError) -> Unspliced {
        Unspliced::NoMemory
    }
}
