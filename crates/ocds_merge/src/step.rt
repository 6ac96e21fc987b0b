ghost use Rattle.std.specs.Prelude.{◌≡◌, true, map, option_map, IfOk, OnOk};
ghost use Rattle.serde_json.specs.Data.{object};
ghost use Rattle.serde_json.specs.View.{view, items_view, members_view};
ghost use Rattle.ocds_merge.specs.Identified.{all_have_id};
ghost use Rattle.ocds_merge.specs.Inside.Step.{step as step_of, step_items, step_members, object_of as members_in, id_list_of as items_in};
ghost use Rattle.ocds_merge.specs.Laws.{IsProper, AreItemsProper};

use crate::identified::{id_of, is_id_list};
use crate::members::{put_present, take_member};
use crate::places::Places;
use serde_json::{Map, Value};
use std::alloc::{AllocError, Global};
use std::mem;

// The members into which an object is merged: none if the old value is absent or no object.
fn object_of(alloc: Global, value: Option<Value>) -> Map<String, Value>
    ensures { members_view result.entries ≡ members_in (option_map view value) }
{
    let Some(value) = value else {
        return Map::new(alloc);
    };
    match value {
        Value::Object(members) => members,
        _ => Map::new(alloc),
    }
}

// The items into which an id list is merged: none if the old value is absent or no id list.
fn id_list_of(alloc: Global, value: Option<Value>) -> Vec<Value>
    ensures { map view result.items ≡ items_in (option_map view value) }
{
    let Some(value) = value else {
        return Vec::new(alloc);
    };
    match value {
        Value::Array(items) => {
            if is_id_list(&items) {
                items
            } else {
                Vec::new(alloc)
            }
        }
        _ => Vec::new(alloc),
    }
}

/// The merge of some values and one more; `target` is the merge of the former, or `None` if it is absent.
#[cycle(merging)]
pub(crate) fn merge_value(
    alloc: Global,
    value: &Value,
    target: Option<Value>,
) -> Result<Option<Value>, AllocError>
    ensures step { IfOk result (λ o. option_map view o
        ≡ step_of (option_map view target) (view value.now)) }
    ensures proper { OnOk result (IsProper (view value.now)) }
{
    match value {
        Value::Null => Ok(None),
        Value::Array(items) => {
            if is_id_list(items) {
                let start = id_list_of(alloc, target);
                Ok(Some(Value::Array(merge_items(alloc, items, start)?)))
            } else {
                Ok(Some(value.clone()?))
            }
        }
        Value::Object(members) => {
            let start = object_of(alloc, target);
            Ok(Some(Value::Object(merge_members(alloc, members, start)?)))
        }
        _ => Ok(Some(value.clone()?)),
    }
}

#[cycle(merging)]
fn merge_items(
    alloc: Global,
    items: &Vec<Value>,
    mut target: Vec<Value>,
) -> Result<Vec<Value>, AllocError>
    requires { all_have_id (items_view items.now.items) ≡ true }
    ensures step { IfOk result (λ v. map view v.items
        ≡ step_items (map view target.items) (items_view items.now.items)) }
    ensures proper { OnOk result (AreItemsProper (items_view items.now.items)) }
{
    let mut places = Places::new(alloc, &target, items.len())?;
    for item in items {
        let id = id_of(item);
        match places.find(&target, id) {
            Some(place) => {
                let old = mem::replace(&mut target[place], Value::Null);
                let new = merge_value(alloc, item, Some(old))?;
                drop(mem::replace(&mut target[place], new.unwrap_or(Value::Null)));
            }
            None => {
                let new = merge_value(alloc, item, None)?;
                places.add(alloc, id, target.len())?;
                target.push(new.unwrap_or(Value::Null))?;
            }
        }
    }
    Ok(target)
}

#[cycle(merging)]
fn merge_members(
    alloc: Global,
    members: &Map<String, Value>,
    mut target: Map<String, Value>,
) -> Result<Map<String, Value>, AllocError>
    ensures step { IfOk result (λ m. members_view m.entries
        ≡ step_members (members_view target.entries) (members_view members.now.entries)) }
    ensures proper { OnOk result (IsProper (object (members_view members.now.entries))) }
{
    for (key, member) in members.iter() {
        let old = take_member(&mut target, key.as_str());
        let new = merge_value(alloc, member, old)?;
        put_present(alloc, &mut target, key.as_str(), new)?;
    }
    Ok(target)
}
