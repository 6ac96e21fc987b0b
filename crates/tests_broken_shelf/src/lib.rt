//! An office in memory whose store fails once, for tests. It is a crate of its own, so that its proof runs beside those of the tests.
#![tactic(auto)]

pub mod shelf;
