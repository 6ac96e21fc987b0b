//! Numbers that the limits of an office bound.
use office_values::bounded::Bounded;

/// The number of rows of a budget file: 0 to 500.
pub type RowCount = Bounded<0, 500>;

/// The number of amendments of a notice: 0 to 50.
pub type AmendmentCount = Bounded<0, 50>;

/// The number of releases of a notice: 0 to 9,999.
pub type ReleaseCount = Bounded<0, 9_999>;

/// The number of a release within its notice: 1 to 9,999.
pub type Sequence = Bounded<1, 9_999>;

/// The length of a tender in bytes: 1 to 32,768.
pub type TenderLength = Bounded<1, 32_768>;

/// The number of corrected figures in a tender. A tender can be read for any list of items, so no limit of the office bounds it. The bound is the greatest
/// integer of a store.
pub type CorrectionCount = Bounded<0, 9_223_372_036_854_775_807>;
