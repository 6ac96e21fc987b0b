//! An office in SQL in memory, to which transcripts are played. It is a crate of its own, so that tests that need only an office in memory don't wait for the
//! store.
#![tactic(auto)]

pub mod office;
