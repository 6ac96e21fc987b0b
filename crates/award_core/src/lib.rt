//! The commands from the examination of tenders to the end of contracts: their rules, and the decisions by these rules.
#![tactic(auto)]

pub mod amend_contract;
pub mod award;
pub mod best;
pub mod end;
pub mod entries;
pub mod examine;
pub mod fail;
pub mod laws;
mod lines;
pub mod pay;
mod securities;
pub mod sign;
