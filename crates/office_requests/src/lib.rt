//! Requests to the office: their routes, their bodies and their query strings.
#![tactic(auto)]

pub mod asked;
mod bodies;
pub mod examples;
mod fields;
mod forms;
mod parameters;
mod path;
mod publication;
pub mod route;
pub mod routes;
