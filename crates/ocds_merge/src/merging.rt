ghost use Rattle.std.specs.Prelude.{◌≡◌, List, [], ◌∷◌, ◌++◌, map, option_map, IfOk, OnOk, OnErr};
ghost use Rattle.serde_json.specs.Data.{Data};
ghost use Rattle.serde_json.specs.View.{view};
ghost use Rattle.ocds_merge.specs.Merge.{merge_of, merge_or_null};
ghost use Rattle.ocds_merge.specs.Inside.Step.{not_null};
ghost use Rattle.ocds_merge.specs.Laws.{IsProper};

use crate::step::merge_value;
use serde_json::Value;
use std::alloc::{AllocError, Global};

/// Too little memory; nothing was changed.
#[derive(Clone, Copy, Debug, PartialEq, Eq, thiserror::Error)]
#[error("no memory")]
pub struct NoMemory;

impl From<AllocError> for NoMemory {
    fn from(_error: AllocError) -> NoMemory {
        NoMemory
    }
}

/// The merge of the values that the releases, oldest first, give for one place. `Null` means that the place is absent.
pub fn merge_all(alloc: Global, values: &[Value]) -> Result<Value, NoMemory>
    ensures { IfOk result (λ merge. view merge ≡ merge_or_null (map view values.now)) }
{
    let mut merge = None;
    for value in values {
        merge = merge_value(alloc, value, merge)?;
    }
    Ok(merge.unwrap_or(Value::Null))
}

/// The merge of some values becomes the merge of these and one more.
///
/// A `Null` target is the merge of no values. If the target is no merge of any values, the call also returns, and no clause says with which result. It works
/// on a copy of the target. So its time and memory grow with the target and the value, and not with the number of values that were merged before.
pub fn merge_into(alloc: Global, target: &mut Value, value: &Value) -> Result<(), NoMemory>
    ensures merges { OnOk result ((vs : List Data) → view target.old ≡ merge_or_null vs
        → view target.new ≡ merge_or_null (vs ++ view value.now ∷ [])) }
    ensures err { OnErr result (target.new ≡ target.old) }
    // Each `Value` is proper; the law `merge_carries_on` requires it.
    ensures proper { OnOk result (IsProper (view value.now)) }
{
    // All memory is taken for a copy, so that a failure leaves the target as it was.
    let copy = target.clone()?;
    *target = carried_on(alloc, copy, value)?;
    Ok(())
}

/// The merge of some values and one more, from the merge of the former, which is consumed.
pub(crate) fn carried_on(alloc: Global, merge: Value, value: &Value) -> Result<Value, NoMemory>
    ensures merges { IfOk result (λ after. (vs : List Data) → view merge ≡ merge_or_null vs
        → view after ≡ merge_or_null (vs ++ view value.now ∷ [])) }
    ensures proper { OnOk result (IsProper (view value.now)) }
{
    let after = merge_value(alloc, value, present(merge))?;
    Ok(after.unwrap_or(Value::Null))
}

// `Null` means absent.
fn present(value: Value) -> Option<Value>
    ensures { option_map view result ≡ not_null (view value) }
{
    match value {
        Value::Null => None,
        other => Some(other),
    }
}
