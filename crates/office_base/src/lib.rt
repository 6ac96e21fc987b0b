//! The records of a procurement office, the traits of its store, and the sums over its rows.
#![tactic(auto)]

pub mod counts;
pub mod examples;
pub mod json_text;
mod keys;
pub mod laws;
pub mod ledger;
pub mod pages;
pub mod pots;
pub mod puts;
pub mod reading;
pub mod records;
pub mod row;
pub mod rows;
pub mod shelf;
pub mod standing;
pub mod stored;
pub mod transitions;
