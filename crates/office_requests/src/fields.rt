//! The fields of a JSON body. Each reader takes the object and the field, and returns the value or the refusal that names the field. Members with other names
//! are ignored.
ghost use Rattle.std.specs.Prelude.{◌≡◌, IfOk, is_some, option_map, option_and_then};
ghost use Rattle.serde_json.specs.Find.{get, as_number, as_str, as_u64};
ghost use Rattle.serde_json.specs.View.{view};
ghost use Rattle.office_requests.specs.Fields as spec;
ghost use Rattle.office_requests.specs.Fields.{text_at, flag_at, number_at, text_in, text_line_in, flag_in, number_in, perhaps_number_in, absent_in};
ghost use Rattle.office_requests.specs.Forms as forms;
ghost use Rattle.office_requests.specs.Inside.Answers.{ReadsAs};

use crate::forms::{FromText, line_of, number_between};
use office_values::bounded::Bounded;
use office_values::refusal::{BadPart, Field, Refusal};
use office_values::text::TextLine;
use serde_json::Value;
use std::alloc::{AllocError, Global};

/// Whether the object has a member with this name, right or wrong.
pub fn has(body: &Value, name: &str) -> bool
    ensures { result ≡ is_some (get name.now (view body.now)) }
{
    body.get(name).is_some()
}

// The text of a member; None if the member is missing or isn't a text.
fn find_text<'a>(body: &'a Value, name: &str) -> Option<&'a str>
    ensures { option_map (λ s. s.now) result ≡ option_and_then as_str (get name.now (view body.now)) }
{
    match body.get(name) {
        Some(value) => value.as_str(),
        None => None,
    }
}

// The number of a member, written without sign, point and exponent; None if the member is missing or isn't such a number.
fn find_number(body: &Value, name: &str) -> Option<u64>
    ensures { result ≡ option_and_then as_u64 (option_and_then as_number (get name.now (view body.now))) }
{
    match body.get(name) {
        Some(value) => value.as_u64(),
        None => None,
    }
}

/// The value that the text of a member writes; None if it is missing or wrong.
#[tactic(auto, unfolding(crate::specs::Fields::text_at))]
pub fn text_at<T: FromText>(body: &Value, name: &str) -> Option<T>
    ensures { result ≡ text_at T.of_text name.now (view body.now) }
{
    match find_text(body, name) {
        Some(text) => T::from_text(text.as_bytes()),
        None => None,
    }
}

/// The line of text of a member; None if it is missing or wrong.
#[tactic(auto, unfolding(crate::specs::Fields::text_at))]
pub fn line_at(alloc: Global, body: &Value, name: &str) -> Result<Option<TextLine>, AllocError>
    ensures { IfOk result (λ line. line ≡ text_at forms.line_of name.now (view body.now)) }
{
    match find_text(body, name) {
        Some(text) => line_of(alloc, text.as_bytes()),
        None => Ok(None),
    }
}

// The truth value of a member; None if it is missing or wrong.
#[tactic(auto, unfolding(crate::specs::Fields::flag_at))]
fn flag_at(body: &Value, name: &str) -> Option<bool>
    ensures { result ≡ flag_at name.now (view body.now) }
{
    match body.get(name) {
        Some(value) => value.as_bool(),
        None => None,
    }
}

/// The number of a member, within bounds and written without sign, point and exponent; None if it is missing or wrong.
#[tactic(auto, unfolding(crate::specs::Fields::number_at))]
pub fn number_at<const LOW: u64, const HIGH: u64>(
    body: &Value,
    name: &str,
) -> Option<Bounded<LOW, HIGH>>
    ensures { result ≡ number_at LOW HIGH name.now (view body.now) }
{
    match find_number(body, name) {
        Some(number) => number_between(number),
        None => None,
    }
}

/// The value, or the refusal that names the field.
#[tactic(auto, unfolding(crate::specs::Fields::field_or_refusal))]
pub fn field_or_refusal<T: Drop>(field: Field, value: Option<T>) -> Result<T, Refusal>
    ensures { result ≡ spec.field_or_refusal field value }
{
    match value {
        Some(value) => Ok(value),
        None => Err(Refusal::BadBody(BadPart::Field(field))),
    }
}

/// The value that the text of a field writes.
pub fn text<T: FromText>(body: &Value, field: Field) -> Result<T, Refusal>
    ensures { result ≡ text_in T.of_text field (view body.now) }
{
    field_or_refusal(field, text_at(body, field.name()))
}

/// The line of text of a field. `Unavailable` if memory is too small.
pub fn line(alloc: Global, body: &Value, field: Field) -> Result<TextLine, Refusal>
    ensures { ReadsAs result (text_line_in field (view body.now)) }
{
    field_or_refusal(field, line_at(alloc, body, field.name())?)
}

/// The truth value of a field.
pub fn flag(body: &Value, field: Field) -> Result<bool, Refusal>
    ensures { result ≡ flag_in field (view body.now) }
{
    field_or_refusal(field, flag_at(body, field.name()))
}

/// The number of a field, within bounds.
pub fn number<const LOW: u64, const HIGH: u64>(
    body: &Value,
    field: Field,
) -> Result<Bounded<LOW, HIGH>, Refusal>
    ensures { result ≡ number_in LOW HIGH field (view body.now) }
{
    field_or_refusal(field, number_at(body, field.name()))
}

/// The number of a field, within bounds; None if the field is missing.
#[tactic(auto, unfolding(crate::specs::Fields::perhaps_number_in))]
pub fn perhaps_number<const LOW: u64, const HIGH: u64>(
    body: &Value,
    field: Field,
) -> Result<Option<Bounded<LOW, HIGH>>, Refusal>
    ensures { result ≡ perhaps_number_in LOW HIGH field (view body.now) }
{
    if has(body, field.name()) {
        Ok(Some(number(body, field)?))
    } else {
        Ok(None)
    }
}

/// Refuses the field if the object has it.
#[tactic(auto, unfolding(crate::specs::Fields::absent_in))]
pub fn absent(body: &Value, field: Field) -> Result<(), Refusal>
    ensures { result ≡ absent_in field (view body.now) }
{
    if has(body, field.name()) {
        Err(Refusal::BadBody(BadPart::Field(field)))
    } else {
        Ok(())
    }
}
