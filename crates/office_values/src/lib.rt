//! The basic values of a procurement office: identifiers, lines of text, numbers, money, moments, settings and refusals.
#![tactic(auto)]

pub mod bounded;
pub mod given;
pub mod id;
pub mod moment;
pub mod money;
pub mod number;
pub mod refusal;
pub mod settings;
pub mod text;
