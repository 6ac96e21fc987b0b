//! The changes of an office in SQL: those of a command in one transaction, and a whole migration in one.
#![tactic(auto)]

pub mod apply;
pub mod migrate;
