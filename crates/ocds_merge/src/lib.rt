//! The merge of OCDS releases: from the releases of a contracting process to its compiled release.
//!
//! The rule is this project's profile of the merge of OCDS 1.1. `specs/Merge.antt` and
//! `specs/Compile.antt` state it; values hold no floats.
#![tactic(auto)]

mod compiled;
mod compiling;
mod examples;
mod head;
mod identified;
mod kept_value;
mod laws;
mod list_text;
mod members;
mod merging;
mod object_text;
mod places;
mod readable;
mod release_order;
mod scan;
mod splice;
mod step;
mod stored;
mod unspliced;
mod writes;
mod written;

pub use compiled::compiled_text;
pub use compiling::compile;
pub use examples::{worked_columns, worked_compilations, worked_merges};
pub use head::{with_compiled_head, without_head};
pub use laws::{dates_order_releases, last_value_decides, merge_carries_on, merge_stays_storable};
pub use merging::{NoMemory, merge_all, merge_into};
pub use stored::{StoredFault, merge_from_text, merge_into_text, merge_to_text};
pub use written::{continue_text, is_written_release, written_merge, written_release};
