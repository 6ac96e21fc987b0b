//! Transcripts. There are blocks of a request and its answer, the office to which they are played, the session that plays them, and the blocks with which most
//! of them begin.
#![tactic(auto)]

pub mod blocks;
pub mod office;
pub mod published;
pub mod session;
pub mod setup;
