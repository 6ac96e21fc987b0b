ghost use Rattle.std.specs.Prelude.{◌≡◌, ◌<◌, map, take, length, get_or, true, option_map, bytes_eq, MatchOption};
ghost use Rattle.serde_json.specs.Data.{null};
ghost use Rattle.serde_json.specs.View.{view, items_view};
ghost use Rattle.ocds_merge.specs.Identified.{text_member, text_id as id_text, id_of as id_named, is_id_list as is_list_of_ids};
ghost use Rattle.ocds_merge.specs.Inside.Step.{Lacks};

use serde_json::Value;

/// The text that an object has under this name; other values have none.
pub(crate) fn text_member<'a>(value: &'a Value, name: &str) -> Option<&'a str>
    ensures { option_map (λ s. s.now) result ≡ text_member name.now (view value.now) }
{
    match value.get(name) {
        Some(member) => member.as_str(),
        None => None,
    }
}

fn text_id(value: &Value) -> Option<&str>
    ensures { option_map (λ s. s.now) result ≡ id_text (view value.now) }
{
    text_member(value, "id")
}

/// The text `id` of an object, and an empty text for any other value.
pub(crate) fn id_of(value: &Value) -> &str
    ensures { result.now ≡ id_named (view value.now) }
{
    match text_id(value) {
        Some(id) => id,
        None => "",
    }
}

/// Whether these are the items of an id list.
pub(crate) fn is_id_list(items: &[Value]) -> bool
    ensures { result ≡ is_list_of_ids (items_view items.now) }
{
    for item in items {
        if text_id(item).is_none() {
            return false;
        }
    }
    !items.is_empty()
}

/// The place of the first item with this id.
pub(crate) fn place_of(items: &[Value], id: &str) -> Option<usize>
    ensures { MatchOption result (Lacks id.now (map view items.now))
        (λ p. (p < length items.now) × Lacks id.now (take p (map view items.now))
        × (bytes_eq (id_named (get_or (map view items.now) p null)) id.now ≡ true)) }
{
    for (place, item) in items.iter().enumerate() {
        if id_of(item) == id {
            return Some(place);
        }
    }
    None
}
