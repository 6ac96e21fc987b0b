//! The tables of an office in memory: a store that never breaks.
#![tactic(auto)]

mod belonging;
pub mod child;
pub mod group_index;
mod id_bounds;
pub mod indexed_table;
pub mod indexes;
pub mod memory;
mod release_numbers;
mod sums;
pub mod tables;
