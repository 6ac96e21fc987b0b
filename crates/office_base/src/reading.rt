//! The result of reading a tender at its opening.
use crate::counts::CorrectionCount;
use office_values::money::{Amount, Total};

/// The result of reading a tender at its opening (UNCITRAL Model Law 2011, articles 42 and 43). It is unreadable, or it doesn't offer the items of the lot, or
/// it has a price, as stated and as corrected, and a number of corrected figures.
#[derive(Clone, Copy)]
pub enum Reading {
    Unreadable,
    Nonconforming,
    Priced {
        stated: Total,
        corrected: Amount,
        corrections: CorrectionCount,
    },
}
