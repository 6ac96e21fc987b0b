//! A table of rows in the order of their keys, in memory.
#![tactic(auto)]

pub mod boxed;
pub mod known;
pub mod table;
