//! The commands and queries that callers send to a procurement office, their parts, and the rights of the callers.
#![tactic(auto)]

pub mod amounts;
pub mod budget;
pub mod command;
pub mod commands;
pub mod contract;
pub mod identified;
pub mod item;
pub mod lot;
pub mod notice;
pub mod queries;
pub mod sealed;
pub mod table;
pub mod tender;
