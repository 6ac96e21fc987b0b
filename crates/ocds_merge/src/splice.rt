//! Merges a text and a value: the parts that the value doesn't touch are copied as they are.
ghost use Rattle.std.specs.Prelude.{◌≡◌, ◌<◌, ◌+◌, ℕ, List, [], ◌∷◌, ◌++◌, Bool, true, false, length, map, is_some, MatchBool, IfOk, OnOk, unwrap_or, Some};
ghost use Rattle.serde_json.specs.Data.{Data, null, Members, member, Items, array, object};
ghost use Rattle.serde_json.specs.View.{view, items_of, items_view, members_view};
ghost use Rattle.serde_json.specs.Written.{compact_text, members_text, items_text};
ghost use Rattle.ocds_merge.specs.Identified.{all_have_id, text_id};
ghost use Rattle.ocds_merge.specs.Inside.Step.{step, step_members, step_items, id_list_of, items_list};
ghost use Rattle.ocds_merge.specs.Inside.Places.{IndexServes};
ghost use Rattle.ocds_merge.specs.Inside.Readable.{Passed, PassedItems, PassedMembers, ItemsRead, MembersRead};
ghost use Rattle.ocds_merge.specs.Inside.Splice.{TextIsKept, AreItemsKept, EndsBefore, no_comma, StandAt, AllAbove, StartsFrom, SameText, SameItems};
ghost use Rattle.ocds_merge.specs.Inside.Pending.{HaveDistinctIds, step_list, pending};

use crate::identified::is_id_list;
use crate::list_text::{
    close_list, distinct_places, id_in, next_item, none_done, note_done, place_in,
};
use crate::object_text::{copy_below, copy_rest, old_member};
use crate::places::Places;
use crate::readable::{Remaining, all_members, skipped};
use crate::scan::after_byte;
use crate::unspliced::Unspliced;
use crate::writes::{copy_span, replace_value, write_byte, write_comma, write_name, write_new};
use serde_json::{Map, Value};
use std::alloc::Global;

fn is_null(value: &Value) -> bool
    ensures { MatchBool result (view value.now ≡ null) (view value.now ≡ null → ⊥) }
{
    match value {
        Value::Null => true,
        _ => false,
    }
}

/// The deepest nesting inside an array or object that may nest `depth` deep.
fn depth_inside(depth: usize) -> Result<usize, Unspliced>
    ensures { IfOk result (λ inside. depth ≡ inside + 1) }
{
    if depth == 0 {
        return Err(Unspliced::Unfit);
    }
    Ok(depth - 1)
}

/// Writes the merge of the value that begins a text and a new one, which isn't null. It returns the text after the old value, which nests at most `depth`
/// deep.
#[cycle(splicing)]
pub(crate) fn splice_value<'a>(
    alloc: Global,
    value: &Value,
    text: &'a [u8],
    depth: usize,
    out: &mut Vec<u8>,
) -> Result<&'a [u8], Unspliced>
    ensures reads { IfOk result (λ left. Passed text.now left.now depth) }
    ensures splices { IfOk result (λ left. TextIsKept (view value.now) → (d : Data) (rest : List ℕ) → TextIsKept d → EndsBefore rest
        → text.now ≡ compact_text d ++ rest
        → (left.now ≡ rest) × (out.new.items ≡ out.old.items ++ compact_text (unwrap_or (step (Some d) (view value.now)) null))) }
{
    match value {
        Value::Object(members) => match after_byte(text, b'{') {
            Some(inside) => splice_members(alloc, members, inside, depth_inside(depth)?, out),
            None => Ok(replace_value(alloc, value, text, depth, out)?),
        },
        Value::Array(items) => {
            if !is_id_list(items) {
                return Ok(replace_value(alloc, value, text, depth, out)?);
            }
            match after_byte(text, b'[') {
                Some(inside) => splice_items(alloc, items, inside, depth_inside(depth)?, out),
                None => Ok(replace_value(alloc, value, text, depth, out)?),
            }
        }
        _ => Ok(replace_value(alloc, value, text, depth, out)?),
    }
}

/// Writes the merge of an object, whose text begins after its opening bracket, and a new one.
#[cycle(splicing)]
fn splice_members<'a>(
    alloc: Global,
    members: &Map<String, Value>,
    text: &'a [u8],
    depth: usize,
    out: &mut Vec<u8>,
) -> Result<&'a [u8], Unspliced>
    ensures reads { IfOk result (λ left. PassedMembers text.now left.now depth) }
    ensures splices { IfOk result (λ left. TextIsKept (object (members_view members.now.entries)) → (ts : Members) (rest : List ℕ)
        → TextIsKept (object ts) → EndsBefore rest → text.now ≡ members_text false ts ++ rest
        → (left.now ≡ rest) × (out.new.items ≡ out.old.items ++ 123 ∷ members_text false (step_members ts (members_view members.now.entries)))) }
{
    write_byte(b'{', out)?;
    let mut left = all_members(text);
    // Whether a member is written: the merge may have removed old members.
    let mut later = false;
    for (name, value) in members.iter() {
        let name = name.as_str();
        (left, later) = copy_below(name, left, later, depth, out)?;
        (left, later) = splice_member(alloc, name, value, left, later, depth, out)?;
    }
    copy_rest(left, later, depth, out)
}

/// Merges this member into the rest of an object, whose names are this one or come after it.
#[cycle(splicing)]
fn splice_member<'a>(
    alloc: Global,
    name: &str,
    value: &Value,
    left: Remaining<'a>,
    later: bool,
    depth: usize,
    out: &mut Vec<u8>,
) -> Result<(Remaining<'a>, bool), Unspliced>
    ensures reads { IfOk result (λ p. MembersRead left.entry.text.now left.entry.later left.entry.last.now p.0.text.now p.0.later p.0.last.now depth) }
    ensures splices { IfOk result (λ p. TextIsKept (view value.now) → (ms ts : Members) (rest : List ℕ)
        → StandAt left.entry.text.now ts rest → StartsFrom name.now ts → AllAbove name.now ms
        → (others : Members) × StandAt p.0.text.now others rest
        × SameText out.old.items later (step_members ts (member name.now (view value.now) ms)) out.new.items p.1 (step_members others ms)) }
{
    let old = old_member(left, name)?;
    if is_null(value) {
        return match old {
            Some(old) => {
                let rest = skipped(old.value, depth)?;
                Ok((
                    Remaining {
                        text: rest,
                        later: true,
                        last: old.name,
                    },
                    later,
                ))
            }
            None => Ok((left, later)),
        };
    }
    write_name(alloc, name, later, out)?;
    match old {
        Some(old) => {
            let rest = splice_value(alloc, value, old.value, depth, out)?;
            Ok((
                Remaining {
                    text: rest,
                    later: true,
                    last: old.name,
                },
                true,
            ))
        }
        None => {
            write_new(alloc, value, out)?;
            Ok((left, true))
        }
    }
}

/// Writes the merge of an id list, whose text begins after its opening bracket, and a new one.
#[cycle(splicing)]
fn splice_items<'a>(
    alloc: Global,
    items: &Vec<Value>,
    text: &'a [u8],
    depth: usize,
    out: &mut Vec<u8>,
) -> Result<&'a [u8], Unspliced>
    requires { all_have_id (items_view items.now.items) ≡ true }
    ensures reads { IfOk result (λ left. PassedItems text.now left.now depth) }
    ensures splices { IfOk result (λ left. AreItemsKept (items_view items.now.items) → (ds : Items) (rest : List ℕ)
        → AreItemsKept ds → EndsBefore rest → text.now ≡ items_text false ds ++ rest
        → (left.now ≡ rest) × (out.new.items ≡ out.old.items
        ++ 91 ∷ items_text false (items_of (step_items (id_list_of (Some (array ds))) (items_view items.now.items))))) }
{
    let places = distinct_places(alloc, items)?;
    let mut done = none_done(alloc, items.len())?;
    write_byte(b'[', out)?;
    let (left, later) = splice_old_items(alloc, items, &places, &mut done, text, depth, out)?;
    drop(places);
    close_list(alloc, items, &done, left, later, out)
}

/// Goes through the old items, and notes the new ones that are merged into them. It returns the text at the closing bracket, and whether an item is before
/// it.
#[cycle(splicing)]
fn splice_old_items<'a>(
    alloc: Global,
    items: &Vec<Value>,
    places: &Places,
    done: &mut Vec<bool>,
    text: &'a [u8],
    depth: usize,
    out: &mut Vec<u8>,
) -> Result<(&'a [u8], bool), Unspliced>
    requires ids { all_have_id (items_view items.now.items) ≡ true }
    requires serves { IndexServes places.now.by_id (map view items.now.items) }
    requires distinct { HaveDistinctIds (map view items.now.items) }
    requires marks { length done.old.items ≡ length items.now.items }
    ensures marks { OnOk result (length done.new.items ≡ length items.now.items) }
    ensures reads { IfOk result (λ p. ItemsRead text.now false p.0.now p.1 depth) }
    ensures splices { IfOk result (λ p. AreItemsKept (items_view items.now.items) → (ds : Items) (rest : List ℕ)
        → AreItemsKept ds → text.now ≡ items_text false ds ++ rest
        → (no_comma p.0.now ≡ 93 ∷ rest) × (all_have_id ds ≡ true)
        × SameItems out.old.items false (step_list (items_list ds) (pending (map view items.now.items) done.old.items))
        out.new.items p.1 (step_list [] (pending (map view items.now.items) done.new.items))) }
{
    let mut left = text;
    let mut later = false;
    // A list has no more items than bytes.
    for _turn in 0..text.len() {
        let Some(item) = next_item(later, left)? else {
            return Ok((left, later));
        };
        left = splice_item(alloc, items, places, done, item, later, depth, out)?;
        later = true;
    }
    Err(Unspliced::Unfit)
}

/// Merges the old item that begins a text with the new one of its id, or copies it, and returns the text after it.
#[cycle(splicing)]
fn splice_item<'a>(
    alloc: Global,
    items: &Vec<Value>,
    places: &Places,
    done: &mut Vec<bool>,
    text: &'a [u8],
    later: bool,
    depth: usize,
    out: &mut Vec<u8>,
) -> Result<&'a [u8], Unspliced>
    requires ids { all_have_id (items_view items.now.items) ≡ true }
    requires serves { IndexServes places.now.by_id (map view items.now.items) }
    requires distinct { HaveDistinctIds (map view items.now.items) }
    requires marks { length done.old.items ≡ length items.now.items }
    ensures marks { OnOk result (length done.new.items ≡ length items.now.items) }
    ensures reads { IfOk result (λ left. Passed text.now left.now depth) }
    ensures splices { IfOk result (λ left. AreItemsKept (items_view items.now.items) → (t : Data) (rest : List ℕ)
        → TextIsKept t → EndsBefore rest → text.now ≡ compact_text t ++ rest
        → (left.now ≡ rest) × (is_some (text_id t) ≡ true) × ((ts : List Data)
        → SameItems out.old.items later (step_list (t ∷ ts) (pending (map view items.now.items) done.old.items))
        out.new.items true (step_list ts (pending (map view items.now.items) done.new.items)))) }
{
    let id = id_in(text)?;
    let Some(place) = place_in(places, items, id)? else {
        let left = skipped(text, depth)?;
        copy_span(text, left, later, out)?;
        return Ok(left);
    };
    note_done(done, place)?;
    write_comma(later, out)?;
    let left = splice_value(alloc, &items[place], text, depth, out)?;
    Ok(left)
}
