//! Reads and writes the items of an id list in the list's text, one after another.
ghost use Rattle.std.specs.Prelude.{◌≡◌, ◌<◌, ℕ, List, [], ◌∷◌, ◌++◌, codes, true, false, length, map, take, set, get_or, replicate, MatchOption, IfOk, OnOk, IsTrue, Some, ⊤};
ghost use Rattle.serde_json.specs.Data.{Data, Items, Members};
ghost use Rattle.serde_json.specs.Find.{get_member};
ghost use Rattle.serde_json.specs.View.{view, items_of, items_view};
ghost use Rattle.serde_json.specs.Written.{comma_if, compact_text, items_text, members_text};
ghost use Rattle.ocds_merge.specs.Identified.{text_id, text_member};
ghost use Rattle.ocds_merge.specs.Inside.Scan.{scan, between};
ghost use Rattle.ocds_merge.specs.Inside.Step.{Lacks};
ghost use Rattle.ocds_merge.specs.Inside.Places.{IndexServes, IsPlaceOf};
ghost use Rattle.ocds_merge.specs.Inside.Splice.{TextIsKept, AreItemsKept, EndsBefore, no_comma, StandAt, FoundAt};
ghost use Rattle.ocds_merge.specs.Inside.Pending.{HaveDistinctIds, alone, unless, pending};

use crate::identified::id_of;
use crate::object_text::next_member;
use crate::places::Places;
use crate::readable::after_comma_if;
use crate::scan::{after_byte, after_value, plain_string};
use crate::unspliced::Unspliced;
use crate::writes::{write_byte, write_comma, write_new};
use serde_json::Value;
use std::alloc::{AllocError, Global};

/// The next item of an array of objects, or `None` at the array's end. A comma must come first if another item is before it.
pub(crate) fn next_item(later: bool, text: &[u8]) -> Result<Option<&[u8]>, Unspliced>
    ensures finds { IfOk result (λ found. MatchOption found ((rest : List ℕ) × (no_comma text.now ≡ 93 ∷ rest))
        (λ item. (no_comma text.now ≡ item.now) × (rest : List ℕ) × (item.now ≡ 123 ∷ rest))) }
    ensures reads { IfOk result (λ found. MatchOption found ⊤ (λ item. text.now ≡ comma_if later ++ item.now)) }
{
    if let Some(_rest) = after_byte(text, b']') {
        return Ok(None);
    }
    let Some(item) = after_comma_if(later, text) else {
        return Err(Unspliced::Unfit);
    };
    match after_byte(item, b'{') {
        Some(_inside) => Ok(Some(item)),
        None => Err(Unspliced::Unfit),
    }
}

/// The text from the value of this member on, in the members of an object. The members before it aren't checked.
fn member_value<'a>(text: &'a [u8], name: &str) -> Result<&'a [u8], Unspliced>
    ensures { IfOk result (λ value. (ts : Members) (rest : List ℕ) → StandAt text.now ts rest
        → FoundAt name.now ts rest value.now) }
{
    let mut left = text;
    while let Some(member) = next_member(left)? {
        if member.name == name.as_bytes() {
            return Ok(member.value);
        }
        left = after_value(member.value);
    }
    Err(Unspliced::Unfit)
}

/// The text that the object at the front of a text has under this name. The text before it isn't checked, since the caller walks over the object anyway.
pub(crate) fn text_in<'a>(text: &'a [u8], name: &str) -> Result<&'a [u8], Unspliced>
    ensures { IfOk result (λ found. (d : Data) (rest : List ℕ) → TextIsKept d → EndsBefore rest → text.now ≡ compact_text d ++ rest
        → text_member name.now d ≡ Some found.now) }
{
    let Some(inside) = after_byte(text, b'{') else {
        return Err(Unspliced::Unfit);
    };
    let Some(quoted) = after_byte(member_value(inside, name)?, b'"') else {
        return Err(Unspliced::Unfit);
    };
    match plain_string(quoted) {
        Some((found, _after)) => Ok(found),
        None => Err(Unspliced::Unfit),
    }
}

/// The text id of the object that begins a text.
pub(crate) fn id_in(text: &[u8]) -> Result<&[u8], Unspliced>
    ensures { IfOk result (λ id. (d : Data) (rest : List ℕ) → TextIsKept d → EndsBefore rest → text.now ≡ compact_text d ++ rest
        → text_id d ≡ Some id.now) }
{
    Ok(text_in(text, "id")?)
}

/// Whether no item before this place has this id.
fn is_new(places: &Places, items: &[Value], id: &str, place: usize) -> bool
    requires { IndexServes places.now.by_id (map view items.now) }
    ensures { IsTrue result → Lacks id.now (take place (map view items.now)) }
{
    match places.find(items, id) {
        Some(first) => first == place,
        None => true,
    }
}

/// The places of these items by id. Two items with the same id are `Unfit`.
pub(crate) fn distinct_places(alloc: Global, items: &[Value]) -> Result<Places, Unspliced>
    ensures serves { IfOk result (λ places. IndexServes places.by_id (map view items.now)) }
    ensures distinct { OnOk result (HaveDistinctIds (map view items.now)) }
{
    let places = Places::new(alloc, items, items.len())?;
    for (place, item) in items.iter().enumerate() {
        if !is_new(&places, items, id_of(item), place) {
            return Err(Unspliced::Unfit);
        }
    }
    Ok(places)
}

/// The place of the item whose id is these bytes of a text.
pub(crate) fn place_in(
    places: &Places,
    items: &[Value],
    id: &[u8],
) -> Result<Option<usize>, Unspliced>
    requires { IndexServes places.now.by_id (map view items.now) }
    ensures { IfOk result (λ found. IsPlaceOf found id.now (map view items.now)) }
{
    match std::str::from_utf8(id) {
        Ok(id) => Ok(places.find(items, id)),
        Err(_) => Err(Unspliced::Unfit),
    }
}

/// For each new item, whether it is merged into an old one; at first none is.
pub(crate) fn none_done(alloc: Global, count: usize) -> Result<Vec<bool>, AllocError>
    ensures { IfOk result (λ done. done.items ≡ replicate count false) }
{
    vec![in alloc; false; count]
}

/// Notes that a new item is merged into an old one. If it was already merged into another old one, the text is `Unfit`.
pub(crate) fn note_done(done: &mut Vec<bool>, place: usize) -> Result<(), Unspliced>
    requires { place < length done.old.items }
    ensures was { OnOk result (get_or done.old.items place true ≡ false) }
    ensures is { OnOk result (done.new.items ≡ set done.old.items place true) }
{
    if done[place] {
        return Err(Unspliced::Unfit);
    }
    done[place] = true;
    Ok(())
}

/// Writes an item's merge alone, unless it is done. It returns whether the next item needs a comma.
fn write_unless(
    alloc: Global,
    item: &Value,
    is_done: bool,
    later: bool,
    out: &mut Vec<u8>,
) -> Result<bool, AllocError>
    ensures { IfOk result (λ more. TextIsKept (view item.now) → (ds : Items)
        → out.new.items ++ items_text more ds ≡ out.old.items ++ items_text later (unless is_done (alone (view item.now)) ds)) }
{
    if is_done {
        return Ok(later);
    }
    write_comma(later, out)?;
    write_new(alloc, item, out)?;
    Ok(true)
}

/// Writes the items that aren't merged into an old one, and closes the array.
fn write_pending(
    alloc: Global,
    items: &[Value],
    done: &[bool],
    later: bool,
    out: &mut Vec<u8>,
) -> Result<(), AllocError>
    requires { length done.now ≡ length items.now }
    ensures { OnOk result (AreItemsKept (items_view items.now)
        → out.new.items ≡ out.old.items ++ items_text later (items_of (map alone (pending (map view items.now) done.now)))) }
{
    let mut later = later;
    for (place, item) in items.iter().enumerate() {
        later = write_unless(alloc, item, done[place], later, out)?;
    }
    write_byte(b']', out)?;
    Ok(())
}

/// Writes the items that aren't merged into an old one, closes the array, and returns the text after the old array.
pub(crate) fn close_list<'a>(
    alloc: Global,
    items: &[Value],
    done: &[bool],
    text: &'a [u8],
    later: bool,
    out: &mut Vec<u8>,
) -> Result<&'a [u8], Unspliced>
    requires { length done.now ≡ length items.now }
    ensures reads { IfOk result (λ rest. text.now ≡ 93 ∷ rest.now) }
    ensures closes { IfOk result (λ rest. AreItemsKept (items_view items.now)
        → (no_comma text.now ≡ 93 ∷ rest.now)
        × (out.new.items ≡ out.old.items ++ items_text later (items_of (map alone (pending (map view items.now) done.now))))) }
{
    write_pending(alloc, items, done, later, out)?;
    match after_byte(text, b']') {
        Some(rest) => Ok(rest),
        None => Err(Unspliced::Unfit),
    }
}
