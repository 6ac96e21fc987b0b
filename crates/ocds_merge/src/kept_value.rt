//! Values that are read back from their texts.
ghost use Rattle.std.specs.Prelude.{◌≡◌, IsTrue, not};
ghost use Rattle.serde_json.specs.Data.{object, array, number};
ghost use Rattle.serde_json.specs.Find.{is_float};
ghost use Rattle.serde_json.specs.View.{view, items_view, members_view, number_view};
ghost use Rattle.serde_json.specs.Written.{has_float, items_have_float, members_have_float};
ghost use Rattle.ocds_merge.specs.Inside.Splice.{TextIsKept, IsInRange};

use serde_json::{Map, Number, Value};

/// Whether a number is no float.
fn is_integer(number: &Number) -> bool
    ensures kept { IsTrue result → IsInRange (number_view number.now) }
    ensures is { result ≡ not (is_float (number_view number.now)) }
{
    if let Some(_small) = number.as_u64() {
        return true;
    }
    match number.as_i64() {
        Some(below_zero) => below_zero < 0,
        None => false,
    }
}

/// Whether no number of a value is a float.
#[cycle(walking)]
pub(crate) fn is_kept(value: &Value) -> bool
    ensures kept { IsTrue result → TextIsKept (view value.now) }
    ensures is { result ≡ not (has_float (view value.now)) }
{
    match value {
        Value::Number(number) => is_integer(number),
        Value::Array(items) => are_items_kept(items),
        Value::Object(members) => are_members_kept(members),
        Value::Null | Value::Bool(_) | Value::String(_) => true,
    }
}

#[cycle(walking)]
fn are_items_kept(items: &Vec<Value>) -> bool
    ensures kept { IsTrue result → TextIsKept (array (items_view items.now.items)) }
    ensures is { result ≡ not (items_have_float (items_view items.now.items)) }
{
    for item in items {
        if !is_kept(item) {
            return false;
        }
    }
    true
}

#[cycle(walking)]
fn are_members_kept(members: &Map<String, Value>) -> bool
    ensures kept { IsTrue result → TextIsKept (object (members_view members.now.entries)) }
    ensures is { result ≡ not (members_have_float (members_view members.now.entries)) }
{
    for (_name, member) in members.iter() {
        if !is_kept(member) {
            return false;
        }
    }
    true
}
