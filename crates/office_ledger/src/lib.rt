//! The ledger as a join: budget lines with their lots, contracts and entries, row by row, their sums, and the SQL selects that show this join.
#![tactic(auto)]

pub mod adding;
pub mod amount_list;
mod contract_list;
pub mod examples;
pub mod joined;
pub mod ledger_sums;
mod line_sums;
pub mod reading;
pub mod select;
