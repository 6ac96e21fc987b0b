//! An office in two files on disks in memory that stop after some calls, for tests. It is a crate of its own, so that its proof runs beside those of the tests.
//! Its types also spare the tests the proofs of their drops.
#![tactic(auto)]

pub mod asking;
pub mod database;
pub mod disks;
pub mod office;
