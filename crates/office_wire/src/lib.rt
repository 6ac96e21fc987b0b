//! Reads HTTP requests (RFC 9112) from a stream of bytes, and writes responses as bytes.
#![tactic(auto)]

pub mod answer;
pub mod blocks;
pub mod counted;
pub mod fault;
pub mod fields;
mod framing;
mod head;
mod lines;
mod reading;
pub mod request;
pub mod runs;
pub mod sending;
pub mod short;
pub mod watched;
