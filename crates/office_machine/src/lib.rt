// The laws of a procurement office.
#![tactic(auto)]

pub mod examples;
pub mod fates;
pub mod laws;
pub mod seals;
