//! Stored texts that are objects as the office writes them.
ghost use Rattle.std.specs.Prelude.{◌≡◌, List, [], ◌∷◌, ◌++◌, true, Some, codes, is_some, option_and_then, string_bytes, IsTrue, ◌↔◌, IfOk, OnOk, IfErr, All};
ghost use Rattle.serde_json.specs.Data.{Data};
ghost use Rattle.serde_json.specs.Read.{read};
ghost use Rattle.serde_json.specs.View.{view};
ghost use Rattle.ocds_merge.specs.Identified.{text_member};
ghost use Rattle.ocds_merge.specs.Merge.{merge_or_null};
ghost use Rattle.ocds_merge.specs.Stored.{KeepsMerge, IsStorable, IsWrittenObject, IsWrittenMerge, IsWrittenRelease};

use crate::identified::text_member;
use crate::kept_value::is_kept;
use crate::list_text::text_in;
use crate::merging::{NoMemory, carried_on};
use crate::readable::is_plain_object;
use crate::scan::after_byte;
use crate::stored::{StoredFault, merge_from_text, merge_to_text, spliced};
use crate::unspliced::Unspliced;
use serde_json::Value;
use std::alloc::Global;

/// Whether a text is a release of the process with this `ocid`, as the office writes it, and nests at most 127 levels. If its names have no escapes, its other
/// texts have no escapes by number, and its numbers are digits alone, no tree of it is made.
pub fn is_written_release(alloc: Global, ocid: &str, text: &str) -> Result<bool, NoMemory>
    ensures { IfOk result (λ is. IsTrue is ↔ IsWrittenRelease ocid.now text.now) }
{
    if is_plain_release(ocid, text) {
        return Ok(true);
    }
    match written_release(alloc, ocid, text) {
        Ok(_) => Ok(true),
        Err(StoredFault::Unreadable) => Ok(false),
        Err(StoredFault::NoMemory) => Err(NoMemory),
    }
}

/// Whether a text is surely such a release. Other texts may be such releases too.
fn is_plain_release(ocid: &str, text: &str) -> bool
    ensures { IsTrue result → IsWrittenRelease ocid.now text.now }
{
    if !is_plain_object(text.as_bytes()) {
        return false;
    }
    has_plain_text(text, "date") && has_plain_ocid(text, ocid)
}

/// Whether an object, written as this text, has a text without escapes under this name.
fn has_plain_text(text: &str, name: &str) -> bool
    ensures { IsTrue result → IsWrittenObject text.now → IsTrue (is_some (option_and_then (text_member name.now) (read text.now))) }
{
    match text_in(text.as_bytes(), name) {
        Ok(_found) => true,
        Err(_) => false,
    }
}

/// Whether an object, written as this text, has this `ocid`, without escapes.
fn has_plain_ocid(text: &str, ocid: &str) -> bool
    ensures { IsTrue result → IsWrittenObject text.now → option_and_then (text_member (codes "ocid")) (read text.now) ≡ Some ocid.now }
{
    match text_in(text.as_bytes(), "ocid") {
        Ok(found) => found == ocid.as_bytes(),
        Err(_) => false,
    }
}

/// The release in a stored text. `Unreadable` if the text isn't a release of the process with this `ocid`, as the office writes it.
pub fn written_release(alloc: Global, ocid: &str, stored: &str) -> Result<Value, StoredFault>
    ensures reads { IfOk result (λ release. read stored.now ≡ Some (view release)) }
    ensures written { OnOk result (IsWrittenRelease ocid.now stored.now) }
    ensures cause { IfErr result (λ fault. IsWrittenRelease ocid.now stored.now → fault ≡ StoredFault.NoMemory) }
{
    let release = written_merge(alloc, ocid, stored)?;
    if has_date(&release) {
        Ok(release)
    } else {
        Err(StoredFault::Unreadable)
    }
}

/// The merge in a stored text. `Unreadable` if the text isn't a merge of the process with this `ocid`, as the office writes it.
pub fn written_merge(alloc: Global, ocid: &str, stored: &str) -> Result<Value, StoredFault>
    ensures reads { IfOk result (λ merge. read stored.now ≡ Some (view merge)) }
    ensures written { OnOk result (IsWrittenMerge ocid.now stored.now) }
    ensures cause { IfErr result (λ fault. IsWrittenMerge ocid.now stored.now → fault ≡ StoredFault.NoMemory) }
{
    let merge = object_from_text(alloc, stored)?;
    if has_ocid(&merge, ocid) {
        Ok(merge)
    } else {
        Err(StoredFault::Unreadable)
    }
}

fn has_date(release: &Value) -> bool
    ensures { result ≡ is_some (text_member (codes "date") (view release.now)) }
{
    text_member(release, "date").is_some()
}

fn has_ocid(merge: &Value, ocid: &str) -> bool
    ensures { IsTrue result ↔ (text_member (codes "ocid") (view merge.now) ≡ Some ocid.now) }
{
    match text_member(merge, "ocid") {
        Some(text) => text == ocid,
        None => false,
    }
}

/// The object in a stored text. `Unreadable` if the text isn't an object as the office writes it.
fn object_from_text(alloc: Global, stored: &str) -> Result<Value, StoredFault>
    ensures reads { IfOk result (λ object. read stored.now ≡ Some (view object)) }
    ensures written { OnOk result (IsWrittenObject stored.now) }
    ensures cause { IfErr result (λ fault. IsWrittenObject stored.now → fault ≡ StoredFault.NoMemory) }
{
    let object = merge_from_text(alloc, stored)?;
    if is_plain_object(stored.as_bytes()) || is_text_of(alloc, &object, stored)? {
        Ok(object)
    } else {
        Err(StoredFault::Unreadable)
    }
}

/// Whether the value that is read from a text is an object without floats, and is written as this text.
fn is_text_of(alloc: Global, value: &Value, text: &str) -> Result<bool, NoMemory>
    requires { read text.now ≡ Some (view value.now) }
    ensures { IfOk result (λ is. IsTrue is ↔ IsWrittenObject text.now) }
{
    let Value::Object(_) = value else {
        return Ok(false);
    };
    if !is_kept(value) {
        return Ok(false);
    }
    let written = value.to_string(alloc)?;
    Ok(written.as_str() == text)
}

/// The text of the merge after one more value. `Unreadable` if the stored text isn't a merge of the process with this `ocid`, as the office writes it.
/// So nothing is merged with a text that another program wrote.
pub fn continue_text(
    alloc: Global,
    ocid: &str,
    stored: &str,
    value: &Value,
) -> Result<String, StoredFault>
    ensures keeps { IfOk result (λ text. (vs : List Data) → read stored.now ≡ Some (merge_or_null vs)
        → All IsStorable (vs ++ view value.now ∷ [])
        → KeepsMerge (string_bytes text) (vs ++ view value.now ∷ [])) }
    ensures written { OnOk result (IsWrittenMerge ocid.now stored.now) }
    ensures cause { IfErr result (λ fault. IsWrittenMerge ocid.now stored.now → fault ≡ StoredFault.NoMemory) }
{
    match spliced_merge(alloc, ocid, stored, value) {
        Ok(text) => Ok(text),
        Err(Unspliced::NoMemory) => Err(StoredFault::NoMemory),
        Err(Unspliced::Unfit) => continued_anew(alloc, ocid, stored, value),
    }
}

/// The text after one more value, from the stored text itself, if this has its `ocid` without escapes.
fn spliced_merge(
    alloc: Global,
    ocid: &str,
    stored: &str,
    value: &Value,
) -> Result<String, Unspliced>
    ensures keeps { IfOk result (λ text. (vs : List Data) → read stored.now ≡ Some (merge_or_null vs)
        → All IsStorable (vs ++ view value.now ∷ [])
        → KeepsMerge (string_bytes text) (vs ++ view value.now ∷ [])) }
    ensures written { OnOk result (IsWrittenMerge ocid.now stored.now) }
{
    if !has_plain_ocid(stored, ocid) {
        return Err(Unspliced::Unfit);
    }
    Ok(spliced_object(alloc, stored, value)?)
}

/// The text after one more value, from the stored text itself, if that begins an object.
fn spliced_object(alloc: Global, stored: &str, value: &Value) -> Result<String, Unspliced>
    ensures keeps { IfOk result (λ text. (vs : List Data) → read stored.now ≡ Some (merge_or_null vs)
        → All IsStorable (vs ++ view value.now ∷ [])
        → KeepsMerge (string_bytes text) (vs ++ view value.now ∷ [])) }
    ensures written { OnOk result (IsWrittenObject stored.now) }
{
    let Some(_members) = after_byte(stored.as_bytes(), b'{') else {
        return Err(Unspliced::Unfit);
    };
    Ok(spliced(alloc, stored, value)?)
}

/// The text after one more value, by a tree of the stored merge.
fn continued_anew(
    alloc: Global,
    ocid: &str,
    stored: &str,
    value: &Value,
) -> Result<String, StoredFault>
    ensures keeps { IfOk result (λ text. (vs : List Data) → read stored.now ≡ Some (merge_or_null vs)
        → All IsStorable (vs ++ view value.now ∷ [])
        → KeepsMerge (string_bytes text) (vs ++ view value.now ∷ [])) }
    ensures written { OnOk result (IsWrittenMerge ocid.now stored.now) }
    ensures cause { IfErr result (λ fault. IsWrittenMerge ocid.now stored.now → fault ≡ StoredFault.NoMemory) }
{
    let before = written_merge(alloc, ocid, stored)?;
    let after = carried_on(alloc, before, value)?;
    Ok(merge_to_text(alloc, &after)?)
}
