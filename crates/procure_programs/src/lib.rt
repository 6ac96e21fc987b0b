//! The work of the programs. They answer the standard input, serve a stored office over connections, and print the texts that the public may see of it.
#![tactic(auto)]

pub mod blank;
pub mod clock;
pub mod config;
pub mod connection;
pub mod desk;
pub mod faults;
pub mod files;
pub mod host;
pub mod items;
pub mod jobs;
mod kept;
pub mod laws;
pub mod listing;
pub mod placing;
pub mod printing;
pub mod reading;
pub mod room;
pub mod second_name;
pub mod serving;
pub mod showing;
pub mod store;
