ghost use Rattle.std.specs.Prelude.{◌≡◌, map, IfOk};
ghost use Rattle.serde_json.specs.View.{view};
ghost use Rattle.ocds_merge.specs.Merge.{merge_or_null};
ghost use Rattle.ocds_merge.specs.Compile.{compiled_release};

use crate::head::with_compiled_head;
use crate::merging::NoMemory;
use crate::release_order::{in_date_order, last_date};
use crate::step::merge_value;
use serde_json::Value;
use std::alloc::Global;

/// The compiled release of a contracting process from its releases, in any order.
///
/// It is meant for a list that isn't empty, of objects that each have a text `date`. Its contract covers other lists too: a release without such a date has
/// an empty date, and a merge that is no object gets no head.
pub fn compile(alloc: Global, ocid: &str, releases: &[Value]) -> Result<Value, NoMemory>
    ensures { IfOk result (λ release. view release
        ≡ compiled_release ocid.now (map view releases.now)) }
{
    let order = in_date_order(alloc, releases)?;
    // The releases keep their heads here: the head of the compiled release replaces them.
    let merge = merge_in_order(alloc, &order)?;
    with_compiled_head(alloc, ocid, last_date(&order), merge)
}

// The merge of releases that are in order.
fn merge_in_order(alloc: Global, order: &[&Value]) -> Result<Value, NoMemory>
    ensures { IfOk result (λ merge. view merge
        ≡ merge_or_null (map (λ r. view r.now) order.now)) }
{
    let mut merge = None;
    for release in order {
        merge = merge_value(alloc, release, merge)?;
    }
    Ok(merge.unwrap_or(Value::Null))
}
