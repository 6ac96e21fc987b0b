//! Releases: the documents that an office publishes about a notice, in the form of OCDS 1.1.
//!
//! `specs/Events.antt` has the release of each event, and `specs/Events` the members of each in a file of its own. `specs/Packages.antt` has the packages of
//! releases and of records.
#![tactic(auto)]

mod amendment;
pub mod borrowed;
pub mod event;
mod events;
pub mod examples;
pub mod laws;
mod lots_in_order;
mod object;
pub mod ocid;
pub mod package_texts;
pub mod packages;
mod part;
mod release;
pub mod release_of;
mod tender;
pub mod tender_status;
mod words;

pub use ocds_merge::NoMemory;
