//! The office's desk. It answers commands and queries over any store, and it publishes.
#![tactic(auto)]

mod balances;
mod callers;
pub mod desk;
pub mod laws;
mod moved_lines;
mod queries;
