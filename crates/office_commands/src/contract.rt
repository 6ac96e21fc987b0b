//! The ways in which a contract changes and ends.

/// Whether a change raises or cuts the value of a contract.
#[derive(Clone, Copy, Debug, PartialEq, Eq)]
pub enum ChangeKind {
    Raise,
    Cut,
}

/// How a contract ends: as agreed, or because the contractor defaulted.
#[derive(Clone, Copy, Debug, PartialEq, Eq)]
pub enum How {
    Regular,
    ForDefault,
}
