ghost use Rattle.std.specs.Prelude.{◌≡◌, Some, string_bytes, IfOk, OnOk, IfErr, All, List};
ghost use Rattle.serde_json.specs.Data.{Data, object, no_members};
ghost use Rattle.serde_json.specs.Read.{read};
ghost use Rattle.serde_json.specs.View.{view};
ghost use Rattle.serde_json.specs.Written.{compact_text};
ghost use Rattle.ocds_merge.specs.Compile.{with_head};
ghost use Rattle.ocds_merge.specs.Merge.{merge_or_null};
ghost use Rattle.ocds_merge.specs.Stored.{IsStorable, IsWrittenMerge};

use crate::head::with_compiled_head;
use crate::merging::NoMemory;
use crate::stored::StoredFault;
use crate::written::continue_text;
use serde_json::{Map, Value};
use std::alloc::Global;

/// The text of a compiled release, made of the stored text of its merge: the head is merged into the text, as one more value. `Unreadable` if the stored text
/// isn't a merge of the process with this `ocid`, as the office writes it.
pub fn compiled_text(
    alloc: Global,
    ocid: &str,
    date: &str,
    stored: &str,
) -> Result<String, StoredFault>
    ensures is { IfOk result (λ text. (vs : List Data) → read stored.now ≡ Some (merge_or_null vs) → All IsStorable vs
        → string_bytes text ≡ compact_text (with_head ocid.now date.now (merge_or_null vs))) }
    ensures written { OnOk result (IsWrittenMerge ocid.now stored.now) }
    ensures cause { IfErr result (λ fault. IsWrittenMerge ocid.now stored.now → fault ≡ StoredFault.NoMemory) }
{
    let head = head_alone(alloc, ocid, date)?;
    continue_text(alloc, ocid, stored, &head)
}

// The head of a compiled release.
fn head_alone(alloc: Global, ocid: &str, date: &str) -> Result<Value, NoMemory>
    ensures { IfOk result (λ head. view head ≡ with_head ocid.now date.now (object no_members)) }
{
    with_compiled_head(alloc, ocid, date, Value::Object(Map::new(alloc)))
}
