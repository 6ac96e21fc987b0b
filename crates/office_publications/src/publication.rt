//! The rows that an event of a notice publishes: its release and the merge that this joins.
ghost use Rattle.std.specs.Prelude.{◌≡◌, IfOk, OnOk, IfErr};
ghost use Rattle.serde_json.specs.View.{view};
ghost use Rattle.serde_json.specs.Written.{compact_text};
ghost use Rattle.ocds_merge.specs.Stored.{IsStorable};
ghost use Rattle.office_base.specs.Tables.{Tables};
ghost use Rattle.office_values.specs.declared.refusal.Refusal.TheVariants.{Unavailable};
ghost use Rattle.office_publications.specs.Keeping.{KeepsReleasesOf, ReadsBack, merged_row};
ghost use Rattle.office_publications.specs.Merges.{CanGoOn, IsKeptOf};

use crate::merges::{Kept, merge_with};
use ocds_merge::{merge_stays_storable, without_head};
use office_base::counts::Sequence;
use office_base::json_text::JsonText;
use office_base::records::{CompiledRow, ReleaseRow};
use office_values::id::Id;
use office_values::moment::Moment;
use office_values::refusal::Refusal;
use serde_json::Value;
use std::alloc::Global;

/// A release and the merge that it joins, as they are stored.
#[derive(Drop)]
pub struct Publication {
    pub release: ReleaseRow,
    pub merge: CompiledRow,
}

/// The row of a release, with its number, its moment and its compact text, and the row of the merge that it joins. A release can be stored if it has no floats
/// and isn't nested more than 127 levels deep.
/// If the merge is stored, time and memory grow with the release and the merge, and not with the number of releases. `Unavailable` if memory is too small, or if
/// the stored merge isn't of the process with this `ocid`, as the office writes it. If no merge is stored, `Unavailable` also if a release isn't.
pub fn keep_release(
    alloc: Global,
    ocid: &str,
    notice: Id,
    seq: Sequence,
    t: Moment,
    release: Value,
    kept: &Kept,
) -> Result<Publication, Refusal>
    ensures release { IfOk result (λ p. IsStorable (view release)
        → p.release ≡ record { notice = notice; seq = seq; moment = t; text = compact_text (view release) }) }
    ensures merge { IfOk result (λ p. IsStorable (view release) → (s : Tables) → IsKeptOf notice s kept.now → KeepsReleasesOf notice s
        → p.merge ≡ merged_row s p.release) }
    ensures read { IfOk result (λ p. IsStorable (view release) → (s : Tables) → IsKeptOf notice s kept.now → KeepsReleasesOf notice s
        → ReadsBack s p.release) }
    ensures goes_on { OnOk result (CanGoOn ocid.now kept.now) }
    ensures none { IfErr result (λ why. why ≡ Unavailable) }
{
    merge_stays_storable();
    let text = JsonText::from_string(release.to_string(alloc)?);
    let body = without_head(release);
    let merge = merge_with(alloc, ocid, kept, notice, &body)?;
    Ok(Publication {
        release: ReleaseRow {
            notice,
            seq,
            moment: t,
            text,
        },
        merge,
    })
}
