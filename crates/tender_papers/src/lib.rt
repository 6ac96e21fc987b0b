//! The files that people submit to a procurement office, in CSV, and the texts that the office shows.
#![tactic(auto)]

pub mod budget;
pub mod evaluation;
pub mod examples;
pub mod ledger;
mod lines;
pub mod listing;
pub mod minutes;
mod records;
pub mod register;
pub mod tender;
