//! The numbers of a notice's releases.
ghost use Rattle.std.specs.Prelude.{◌≡◌, IfOk, filter, map};
ghost use Rattle.office_values.specs.Ids.{same_id};

use crate::child::rows_of;
use keyed_table::table::Table;
use office_base::counts::Sequence;
use office_base::records::ReleaseRow;
use office_values::id::Id;
use std::alloc::{AllocError, Global};

/// The numbers of a notice's releases, in their order. No release is copied.
pub fn release_numbers(
    alloc: Global,
    releases: &Table<ReleaseRow>,
    notice: &Id,
) -> Result<Vec<Sequence>, AllocError>
    ensures { IfOk result (λ numbers. numbers.items ≡ map (λ r. r.seq) (filter (λ r. same_id r.notice notice.now) releases.now)) }
{
    let mut numbers = Vec::new(alloc);
    for (_, row) in rows_of(releases, notice) {
        numbers.push(row.get().seq)?;
    }
    Ok(numbers)
}
