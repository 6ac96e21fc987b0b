//! A store that remembers the sums of budget lines.
#![tactic(auto)]

pub mod asking;
pub mod carried;
pub mod carrying;
pub mod found;
pub mod laws;
pub mod lookups;
pub mod numbered;
pub mod remembered;
pub mod shelf;
pub mod sums;
