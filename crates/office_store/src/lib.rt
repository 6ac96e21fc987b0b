//! An office in SQL, in memory or in files: its store, and how the office is made, opened, migrated and closed.
#![tactic(auto)]

mod forms;
pub mod found;
mod joined_rows;
pub mod ledger_rows;
mod logs;
mod migrate;
pub mod open;
pub mod opened;
mod others;
pub mod path;
mod same;
pub mod shelf;
pub mod shut;
pub mod stored;
mod sums;
