//! The program's settings, its command line, and the texts of its faults.
#![tactic(auto)]

mod command_line;
pub mod fault;
pub mod job;
pub mod notice;
pub mod settings;
pub mod telling;
pub mod worked_words;
