//! The commands from the budget to the opening of tenders: their rules, and the decisions by these rules.
#![tactic(auto)]

pub mod amend_notice;
pub mod asking;
pub mod budget_file;
pub mod cancel;
pub mod ended;
pub mod import;
pub mod laws;
pub mod modify;
pub mod opening;
pub mod present;
pub mod publish;
mod receipts;
pub mod register;
pub mod tenders;
pub mod withdraw;
