//! The tables of an office in SQL: records as rows and back, and one statement for each look-up and each change of a record. The database may have any other
//! tables.
#![tactic(auto)]

pub mod ask;
pub mod columns;
pub mod earlier;
pub mod editions;
pub mod faults;
pub mod items;
pub mod laws;
pub mod make;
mod readings;
mod statement;
pub mod stored;
pub mod tables;
mod values;
pub mod version;
pub mod words;
