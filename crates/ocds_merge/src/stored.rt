ghost use Rattle.std.specs.Prelude.{◌≡◌, List, [], ◌∷◌, ◌++◌, Some, None, Err, string_bytes, IfOk, OnOk, IfErr, IsErr, All, unwrap_or};
ghost use Rattle.serde_json.specs.Data.{Data, null};
ghost use Rattle.serde_json.specs.Read.{read};
ghost use Rattle.serde_json.specs.View.{view};
ghost use Rattle.serde_json.specs.Written.{compact_text};
ghost use Rattle.ocds_merge.specs.Merge.{merge_or_null};
ghost use Rattle.ocds_merge.specs.Stored.{KeepsMerge, IsStorable};
ghost use Rattle.ocds_merge.specs.Inside.Step.{step};
ghost use Rattle.ocds_merge.specs.Inside.Splice.{TextIsKept};
ghost use Rattle.ocds_merge.specs.Inside.Readable.{Reads};
ghost use Rattle.ocds_merge.specs.declared.stored.StoredFault.TheVariants.{NoMemory as no_memory};

use crate::kept_value::is_kept;
use crate::merging::{NoMemory, carried_on};
use crate::readable::{MAX_DEPTH, is_end};
use crate::splice::splice_value;
use crate::unspliced::Unspliced;
use serde_json::Value;
use std::alloc::Global;

/// Why a merge that is stored as text can't be continued.
#[derive(Clone, Copy, Debug, PartialEq, Eq, thiserror::Error)]
pub enum StoredFault {
    #[error("no memory")]
    NoMemory,
    /// The text is no JSON, so it holds no merge.
    #[error("the stored text is no JSON")]
    Unreadable,
}

impl From<NoMemory> for StoredFault {
    ghost from_gives = { λ _ fault. fault ≡ no_memory };

    fn from(_error: NoMemory) -> StoredFault {
        StoredFault::NoMemory
    }
}

/// The compact text of a merge; `merge_from_text` reads it as the same merge. `Null`, the merge of no values, is the text `null`.
pub fn merge_to_text(alloc: Global, merge: &Value) -> Result<String, NoMemory>
    ensures keeps { IfOk result (λ text. (vs : List Data) → view merge.now ≡ merge_or_null vs
        → All IsStorable vs → KeepsMerge (string_bytes text) vs) }
{
    Ok(merge.to_string(alloc)?)
}

/// The merge in a stored text. `Unreadable` comes only if the text is no JSON, or nests deeper than 127 levels.
pub fn merge_from_text(alloc: Global, stored: &str) -> Result<Value, StoredFault>
    ensures reads { IfOk result (λ merge. read stored.now ≡ Some (view merge)) }
    ensures memory { IfErr result (λ fault. (merge : Data) → read stored.now ≡ Some merge
        → fault ≡ StoredFault.NoMemory) }
    ensures unreadable { read stored.now ≡ None → IsErr result }
    ensures empty { stored.now ≡ [] → result ≡ Err StoredFault.Unreadable }
{
    match Value::from_str(alloc, stored) {
        Ok(merge) => Ok(merge),
        Err(error) => Err(if error.is_memory() {
            StoredFault::NoMemory
        } else {
            StoredFault::Unreadable
        }),
    }
}

/// The text of the merge after one more value. The stored text may have any form that reads as the merge of the values before. A text that is no JSON holds
/// no merge; the merge of no values is `null`. If the text reads as no merge of any values, for example with a null member or an id twice in one list, no
/// clause says the result.
///
/// If the stored text is compact, with names in order and without escapes, the parts that the value doesn't touch are copied, and no tree of them is made.
pub fn merge_into_text(alloc: Global, stored: &str, value: &Value) -> Result<String, StoredFault>
    ensures keeps { IfOk result (λ text. (vs : List Data) → read stored.now ≡ Some (merge_or_null vs)
        → All IsStorable (vs ++ view value.now ∷ [])
        → KeepsMerge (string_bytes text) (vs ++ view value.now ∷ [])) }
    ensures memory { IfErr result (λ fault. (merge : Data) → read stored.now ≡ Some merge
        → fault ≡ StoredFault.NoMemory) }
    ensures unreadable { read stored.now ≡ None → IsErr result }
    ensures empty { stored.now ≡ [] → result ≡ Err StoredFault.Unreadable }
{
    match spliced(alloc, stored, value) {
        Ok(text) => Ok(text),
        Err(Unspliced::NoMemory) => Err(StoredFault::NoMemory),
        Err(Unspliced::Unfit) => merged_anew(alloc, stored, value),
    }
}

/// The text after one more value, by a tree of the stored merge, whatever the form of its text.
fn merged_anew(alloc: Global, stored: &str, value: &Value) -> Result<String, StoredFault>
    ensures keeps { IfOk result (λ text. (vs : List Data) → read stored.now ≡ Some (merge_or_null vs)
        → All IsStorable (vs ++ view value.now ∷ [])
        → KeepsMerge (string_bytes text) (vs ++ view value.now ∷ [])) }
    ensures memory { IfErr result (λ fault. (merge : Data) → read stored.now ≡ Some merge
        → fault ≡ StoredFault.NoMemory) }
    ensures unreadable { read stored.now ≡ None → IsErr result }
    ensures empty { stored.now ≡ [] → result ≡ Err StoredFault.Unreadable }
{
    let before = merge_from_text(alloc, stored)?;
    let after = carried_on(alloc, before, value)?;
    Ok(merge_to_text(alloc, &after)?)
}

/// The text after one more value, from the stored text itself.
pub(crate) fn spliced(alloc: Global, stored: &str, value: &Value) -> Result<String, Unspliced>
    ensures keeps { IfOk result (λ text. (vs : List Data) → read stored.now ≡ Some (merge_or_null vs)
        → All IsStorable (vs ++ view value.now ∷ [])
        → KeepsMerge (string_bytes text) (vs ++ view value.now ∷ [])) }
    ensures readable { OnOk result (Reads stored.now) }
    ensures empty { stored.now ≡ [] → result ≡ Err Unspliced.Unfit }
{
    if !is_kept(value) {
        return Err(Unspliced::Unfit);
    }
    let bytes = stored.as_bytes();
    // Before any memory is asked for.
    if bytes.is_empty() {
        return Err(Unspliced::Unfit);
    }
    let text = spliced_bytes(alloc, bytes, value)?;
    match String::from_utf8(text) {
        Ok(text) => Ok(text),
        Err(_) => Err(Unspliced::Unfit),
    }
}

/// The bytes of the text after one more value.
fn spliced_bytes(alloc: Global, stored: &[u8], value: &Value) -> Result<Vec<u8>, Unspliced>
    ensures readable { OnOk result (Reads stored.now) }
    ensures splices { IfOk result (λ bytes. TextIsKept (view value.now) → (merge : Data) → TextIsKept merge → stored.now ≡ compact_text merge
        → bytes.items ≡ compact_text (unwrap_or (step (Some merge) (view value.now)) null)) }
{
    let mut out: Vec<u8> = Vec::with_capacity(alloc, stored.len())?;
    let rest = splice_value(alloc, value, stored, MAX_DEPTH, &mut out)?;
    if !is_end(rest) {
        return Err(Unspliced::Unfit);
    }
    Ok(out)
}
