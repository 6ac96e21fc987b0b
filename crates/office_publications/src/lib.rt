//! The publications of an office: the release of each command that publishes, and the merge of a notice's releases, which is stored beside them.
#![tactic(auto)]

pub mod laws;
pub mod merges;
pub mod publication;
pub mod sealed;
pub mod worth;
