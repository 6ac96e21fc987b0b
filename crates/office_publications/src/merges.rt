//! The merge of a notice's releases, as it is stored and continued.
ghost use Rattle.std.specs.Prelude.{◌≡◌, ℕ, ◌∷◌, [], ◌++◌, List, map, All, IfOk, OnOk, IfErr, string_bytes};
ghost use Rattle.serde_json.specs.Data.{Data};
ghost use Rattle.serde_json.specs.View.{view};
ghost use Rattle.serde_json.specs.Written.{compact_text};
ghost use Rattle.ocds_merge.specs.Compile.{with_head};
ghost use Rattle.ocds_merge.specs.Stored.{KeepsMerge, IsWrittenMerge, IsWrittenRelease, IsStorable};
ghost use Rattle.ocds_merge.specs.Merge.{merge_or_null};
ghost use Rattle.office_base.specs.Shelves.{LooksUp};
ghost use Rattle.office_base.specs.Tables.{Tables};
ghost use Rattle.office_values.specs.declared.refusal.Refusal.TheVariants.{Unavailable};
ghost use Rattle.office_publications.specs.Merges.{bodies, body_in, AreWritten, CanGoOn, IsMergedOf, IsKeptOf, IsMerge};

use ocds_merge::{
    compiled_text, continue_text, merge_into, merge_to_text, without_head, written_release,
};
use office_base::json_text::JsonText;
use office_base::records::{CompiledRow, ReleaseRow};
use office_base::rows::Rows;
use office_base::shelf::{Lookups, ShelfFault};
use office_values::id::Id;
use office_values::refusal::Refusal;
use serde_json::Value;
use std::alloc::Global;

/// The stored form of a notice's releases: their merge or, if none is stored, the releases in their sequence.
#[derive(Drop)]
pub enum Kept {
    Merge(CompiledRow),
    Releases(Rows<ReleaseRow>),
}

/// Looks up the stored form of a notice's releases. It reads all releases only if their merge isn't stored.
pub fn load_kept<H: Lookups>(shelf: &mut H, notice: &Id) -> Result<Kept, ShelfFault>
    ensures { LooksUp H.meaning shelf.old shelf.new result (λ t kept. IsKeptOf notice.now t kept) }
{
    match shelf.get_compiled(notice)? {
        Some(merge) => Ok(Kept::Merge(merge)),
        None => Ok(Kept::Releases(Rows::from_vec(shelf.list_releases_of_notice(notice)?))),
    }
}

// A stored release without its head. `Unavailable` if memory is too small, or if the row has no release of the process with this `ocid`, as the office writes it.
fn body_of(alloc: Global, ocid: &str, row: &ReleaseRow) -> Result<Value, Refusal>
    ensures body { IfOk result (λ body. view body ≡ body_in row.now) }
    ensures written { OnOk result (IsWrittenRelease ocid.now row.now.text) }
    ensures none { IfErr result (λ why. why ≡ Unavailable) }
{
    match written_release(alloc, ocid, row.text.as_str()) {
        Ok(release) => Ok(without_head(release)),
        Err(_) => Err(Refusal::Unavailable),
    }
}

// The merge of stored releases without their heads. `Unavailable` if memory is too small, or if a row has no release of the process with this `ocid`, as the
// office writes it.
fn merge_of(alloc: Global, ocid: &str, rows: &[ReleaseRow]) -> Result<Value, Refusal>
    ensures merge { IfOk result (λ merge. view merge ≡ merge_or_null (map body_in rows.now)) }
    ensures written { OnOk result (AreWritten ocid.now rows.now) }
    ensures none { IfErr result (λ why. why ≡ Unavailable) }
{
    let mut merge = Value::Null;
    'rows: for row in rows {
        let body = body_of(alloc, ocid, row)?;
        if merge_into(alloc, &mut merge, &body).is_err() {
            return Err(Refusal::Unavailable);
        }
    }
    Ok(merge)
}

// The text of the merge of stored releases and one more body. `Unavailable` as in `merge_of`.
fn merged_anew(
    alloc: Global,
    ocid: &str,
    rows: &[ReleaseRow],
    body: &Value,
) -> Result<JsonText, Refusal>
    ensures keeps { IfOk result (λ text. All IsStorable (map body_in rows.now ++ (view body.now ∷ []))
        → KeepsMerge text (map body_in rows.now ++ (view body.now ∷ []))) }
    ensures written { OnOk result (AreWritten ocid.now rows.now) }
    ensures none { IfErr result (λ why. why ≡ Unavailable) }
{
    let mut merge = merge_of(alloc, ocid, rows)?;
    if merge_into(alloc, &mut merge, body).is_err() {
        return Err(Refusal::Unavailable);
    }
    match merge_to_text(alloc, &merge) {
        Ok(text) => Ok(JsonText::from_string(text)),
        Err(_) => Err(Refusal::Unavailable),
    }
}

// The text of a stored merge and one more body. `Unavailable` if memory is too small, or if the row has no merge of the process with this `ocid`, as the office
// writes it. It isn't replaced by a new one.
fn carried_on(
    alloc: Global,
    ocid: &str,
    kept: &CompiledRow,
    body: &Value,
) -> Result<JsonText, Refusal>
    ensures keeps { IfOk result (λ text. (vs : List Data) → KeepsMerge kept.now.text vs → All IsStorable (vs ++ (view body.now ∷ []))
        → KeepsMerge text (vs ++ (view body.now ∷ []))) }
    ensures written { OnOk result (IsWrittenMerge ocid.now kept.now.text) }
    ensures none { IfErr result (λ why. why ≡ Unavailable) }
{
    match continue_text(alloc, ocid, kept.text.as_str(), body) {
        Ok(text) => Ok(JsonText::from_string(text)),
        Err(_) => Err(Refusal::Unavailable),
    }
}

// The text of the compiled release with this date, made of the text of its merge. `Unavailable` as in `carried_on`.
fn compiled_in(alloc: Global, ocid: &str, date: &str, merge: &str) -> Result<String, Refusal>
    ensures text { IfOk result (λ text. (vs : List Data) → KeepsMerge merge.now vs → All IsStorable vs
        → string_bytes text ≡ compact_text (with_head ocid.now date.now (merge_or_null vs))) }
    ensures written { OnOk result (IsWrittenMerge ocid.now merge.now) }
    ensures none { IfErr result (λ why. why ≡ Unavailable) }
{
    match compiled_text(alloc, ocid, date, merge) {
        Ok(text) => Ok(text),
        Err(_) => Err(Refusal::Unavailable),
    }
}

// The text of the merge of stored releases without their heads. `Unavailable` as in `merge_of`.
fn merge_text_of(alloc: Global, ocid: &str, rows: &[ReleaseRow]) -> Result<String, Refusal>
    ensures keeps { IfOk result (λ text. All IsStorable (map body_in rows.now) → KeepsMerge (string_bytes text) (map body_in rows.now)) }
    ensures written { OnOk result (AreWritten ocid.now rows.now) }
    ensures none { IfErr result (λ why. why ≡ Unavailable) }
{
    let merge = merge_of(alloc, ocid, rows)?;
    match merge_to_text(alloc, &merge) {
        Ok(text) => Ok(text),
        Err(_) => Err(Refusal::Unavailable),
    }
}

// The text of the compiled release with this date, made of all stored releases. `Unavailable` as in `merge_of`.
fn compiled_anew(
    alloc: Global,
    ocid: &str,
    date: &str,
    rows: &[ReleaseRow],
) -> Result<String, Refusal>
    ensures text { IfOk result (λ text. All IsStorable (map body_in rows.now)
        → string_bytes text ≡ compact_text (with_head ocid.now date.now (merge_or_null (map body_in rows.now)))) }
    ensures written { OnOk result (AreWritten ocid.now rows.now) }
    ensures none { IfErr result (λ why. why ≡ Unavailable) }
{
    let merge = merge_text_of(alloc, ocid, rows)?;
    compiled_in(alloc, ocid, date, merge.as_str())
}

/// The text of a notice's compiled release with this date. `Unavailable` if memory is too small, or if the stored merge isn't of the process with this `ocid`, as
/// the office writes it. If no merge is stored, `Unavailable` also if a release isn't. No office that its commands made stores such a merge or release.
pub fn compiled_of(alloc: Global, ocid: &str, date: &str, kept: &Kept) -> Result<String, Refusal>
    ensures text { IfOk result (λ text. (notice : List ℕ) (t : Tables) → IsKeptOf notice t kept.now → IsMergedOf notice t → All IsStorable (bodies notice t)
        → string_bytes text ≡ compact_text (with_head ocid.now date.now (merge_or_null (bodies notice t)))) }
    ensures goes_on { OnOk result (CanGoOn ocid.now kept.now) }
    ensures none { IfErr result (λ why. why ≡ Unavailable) }
{
    match kept {
        Kept::Merge(row) => compiled_in(alloc, ocid, date, row.text.as_str()),
        Kept::Releases(rows) => compiled_anew(alloc, ocid, date, rows.as_slice()),
    }
}

/// The row of the merge of a notice's releases and one more, which is given without its head. `Unavailable` as in `compiled_of`. So nothing is published on top
/// of a text that can't be continued.
pub fn merge_with(
    alloc: Global,
    ocid: &str,
    kept: &Kept,
    notice: Id,
    body: &Value,
) -> Result<CompiledRow, Refusal>
    ensures merges { IfOk result (λ row. (t : Tables) → IsKeptOf notice t kept.now → IsMergedOf notice t → All IsStorable (bodies notice t ++ (view body.now ∷ []))
        → IsMerge notice (bodies notice t ++ (view body.now ∷ [])) row) }
    ensures goes_on { OnOk result (CanGoOn ocid.now kept.now) }
    ensures none { IfErr result (λ why. why ≡ Unavailable) }
{
    let text = match kept {
        Kept::Merge(row) => carried_on(alloc, ocid, row, body)?,
        Kept::Releases(rows) => merged_anew(alloc, ocid, rows.as_slice(), body)?,
    };
    Ok(CompiledRow { notice, text })
}
