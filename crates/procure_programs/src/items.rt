//! The items of a lot, from a file in JSON. They are read as in the body of a notice's publication.
ghost use Rattle.std.specs.Prelude.{◌≡◌, ◌⊎◌, ◌^◌, codes, option_and_then, option_map, IfOk};
ghost use Rattle.serde_json.specs.Errors.{IsMemory};
ghost use Rattle.serde_json.specs.Find.{get, as_number, as_str, as_u64};
ghost use Rattle.serde_json.specs.View.{view, items_view};
ghost use Rattle.office_values.specs.declared.refusal.BadPart.TheVariants.{Body};
ghost use Rattle.office_values.specs.declared.refusal.Refusal.TheVariants.{BadBody, Unavailable};
ghost use Rattle.office_requests.specs.Bodies.{object_in_body};
ghost use Rattle.office_requests.specs.Fields.{number_at, text_at};
ghost use Rattle.office_requests.specs.Forms.{identifier_of, line_of, number_between};
ghost use Rattle.office_requests.specs.Inside.Answers.{ReadsAs, ReadsList, ReadsObject};
ghost use Rattle.office_requests.specs.Publications.{array_at, each_of, elements_at, in_lots, items_of, new_item_of};
ghost use Rattle.procure_programs.specs.ReadFiles.{items_in};

use office_commands::item::{Item, Items, Quantity};
use office_values::bounded::Bounded;
use office_values::id::Id;
use office_values::refusal::{BadPart, Field, Refusal};
use office_values::text::TextLine;
use serde_json::Value;
use std::alloc::{AllocError, Global};

// The refusal of a text that isn't JSON; `Unavailable` if only memory was too small to read it.
fn json_fault(error: &serde_json::Error) -> Refusal
    ensures { (result ≡ Unavailable) ⊎ ((result ≡ BadBody Body) × (¬ (IsMemory error.now))) }
{
    if error.is_memory() {
        Refusal::Unavailable
    } else {
        Refusal::BadBody(BadPart::Body)
    }
}

// The JSON object that a text writes.
fn object_in(alloc: Global, text: &[u8]) -> Result<Value, Refusal>
    ensures { ReadsObject result (object_in_body text.now) }
{
    let value = match Value::from_slice(alloc, text) {
        Ok(value) => value,
        Err(error) => return Err(json_fault(&error)),
    };
    if value.is_object() {
        Ok(value)
    } else {
        Err(Refusal::BadBody(BadPart::Body))
    }
}

// A part of a lot. If it is missing or wrong, the field `lots` is refused, as in a publication.
#[tactic(auto, unfolding(office_requests::specs::Fields::field_or_refusal))]
fn in_lots<T: Drop>(part: Option<T>) -> Result<T, Refusal>
    ensures { result ≡ in_lots part }
{
    match part {
        Some(part) => Ok(part),
        None => Err(Refusal::BadBody(BadPart::Field(Field::Lots))),
    }
}

// The text of a member; None if the member is missing or isn't a text.
fn text_of<'a>(value: &'a Value, name: &str) -> Option<&'a str>
    ensures { option_map (λ s. s.now) result ≡ option_and_then as_str (get name.now (view value.now)) }
{
    match value.get(name) {
        Some(value) => value.as_str(),
        None => None,
    }
}

// The identifier that a text is, if it is one.
fn id_in(text: &[u8]) -> Option<Id>
    ensures { result ≡ identifier_of text.now }
{
    Id::read(text)
}

// The line that a text is, if it is one.
#[tactic(auto, using(crate::proofs::ItemSteps::line_kept))]
fn line_in(alloc: Global, text: &[u8]) -> Result<Option<TextLine>, AllocError>
    ensures { IfOk result (λ line. line ≡ line_of text.now) }
{
    TextLine::read(alloc, text)
}

// The quantity that a number is, if it is one.
fn quantity_in(number: u64) -> Option<Quantity>
    ensures { result ≡ number_between 1 (10 ^ 6) number }
{
    Bounded::read(number)
}

// The identifier of an item.
#[tactic(auto, unfolding(office_requests::specs::Fields::text_at))]
fn id_of(value: &Value) -> Option<Id>
    ensures { result ≡ text_at identifier_of (codes "id") (view value.now) }
{
    match text_of(value, "id") {
        Some(text) => id_in(text.as_bytes()),
        None => None,
    }
}

// The title of an item.
#[tactic(auto, unfolding(office_requests::specs::Fields::text_at))]
fn title_of(alloc: Global, value: &Value) -> Result<Option<TextLine>, AllocError>
    ensures { IfOk result (λ title. title ≡ text_at line_of (codes "title") (view value.now)) }
{
    match text_of(value, "title") {
        Some(text) => line_in(alloc, text.as_bytes()),
        None => Ok(None),
    }
}

// The number of the member `quantity`, written without sign, point and exponent; None if the member is missing or isn't such a number.
fn number_of(value: &Value) -> Option<u64>
    ensures { result ≡ option_and_then as_u64 (option_and_then as_number (get (codes "quantity") (view value.now))) }
{
    match value.get("quantity") {
        Some(value) => value.as_u64(),
        None => None,
    }
}

// The quantity of an item.
#[tactic(auto, unfolding(office_requests::specs::Fields::number_at))]
fn quantity_of(value: &Value) -> Option<Quantity>
    ensures { result ≡ number_at 1 (10 ^ 6) (codes "quantity") (view value.now) }
{
    match number_of(value) {
        Some(number) => quantity_in(number),
        None => None,
    }
}

// An item of a lot.
#[tactic(auto, unfolding(office_requests::specs::Publications::new_item_of))]
fn item_of(alloc: Global, value: &Value) -> Result<Item, Refusal>
    ensures { ReadsAs result (new_item_of (view value.now)) }
{
    Ok(Item {
        id: in_lots(id_of(value))?,
        title: in_lots(title_of(alloc, value)?)?,
        quantity: in_lots(quantity_of(value))?,
    })
}

// The items that an array's elements are, in their order.
fn each_of(alloc: Global, values: &[Value]) -> Result<Vec<Item>, Refusal>
    ensures { ReadsList result (each_of new_item_of (items_view values.now)) }
{
    let mut items = Vec::new(alloc);
    'values: for value in values {
        match item_of(alloc, value) {
            Ok(item) => items.push(item)?,
            Err(why) => return Err(why),
        }
    }
    Ok(items)
}

// The array of the member `items`; None if the member is missing or isn't an array.
#[tactic(auto, unfolding(office_requests::specs::Publications::array_at))]
fn array_of(lot: &Value) -> Option<&Vec<Value>>
    ensures { option_map (λ v. items_view v.now.items) result ≡ array_at (codes "items") (view lot.now) }
{
    match lot.get("items") {
        Some(value) => value.as_array(),
        None => None,
    }
}

// The elements of that array, as items.
#[tactic(auto, unfolding(office_requests::specs::Publications::elements_at, office_requests::specs::Fields::field_or_refusal))]
fn elements_of(alloc: Global, lot: &Value) -> Result<Vec<Item>, Refusal>
    ensures { ReadsList result (elements_at new_item_of (codes "items") (view lot.now)) }
{
    match array_of(lot) {
        Some(values) => each_of(alloc, values),
        None => Err(Refusal::BadBody(BadPart::Field(Field::Lots))),
    }
}

// The items of a lot.
#[tactic(auto, unfolding(office_requests::specs::Publications::items_of))]
fn items_of(alloc: Global, lot: &Value) -> Result<Items, Refusal>
    ensures { ReadsAs result (items_of (view lot.now)) }
{
    in_lots(Items::read(elements_of(alloc, lot)?))
}

/// The items of a lot, from a JSON object whose member `items` lists them as a notice's publication does. `BadBody` names the body if the text isn't a JSON
/// object, and otherwise `lots`: an item is missing, wrong or there twice. `Unavailable` if memory is too small.
pub fn read_items(alloc: Global, text: &[u8]) -> Result<Items, Refusal>
    ensures { ReadsAs result (items_in text.now) }
{
    let lot = object_in(alloc, text)?;
    items_of(alloc, &lot)
}
