//! The body of a publication.
ghost use Rattle.std.specs.Prelude.{◌≡◌, IfOk, option_map};
ghost use Rattle.serde_json.specs.View.{view, items_view};
ghost use Rattle.office_commands.specs.Commands.{kind_of};
ghost use Rattle.office_requests.specs.Inside.Answers.{ReadsAs, ReadsList};
ghost use Rattle.office_requests.specs.Publications as spec;
ghost use Rattle.office_requests.specs.Publications.{in_lots, each_of, array_at, elements_at, new_item_of, items_of, new_lot_of, lots_in, criteria_with, criteria_in, late_in, performance_in, new_notice_in, publication_in};

use crate::fields::{
    absent, field_or_refusal, has, line, line_at, number, number_at, text, text_at,
};
use office_commands::command::CommandKind;
use office_commands::commands::Command;
use office_commands::item::{Item, Items};
use office_commands::lot::{NewLot, NewLots};
use office_commands::notice::{Criteria, LateWithdrawal, NewNotice};
use office_values::bounded::Bounded;
use office_values::id::Id;
use office_values::money::{AMOUNT_LIMIT, Amount};
use office_values::refusal::{BadPart, Field, Refusal};
use serde_json::Value;
use std::alloc::Global;

/// The criteria of a notice, as a word says them.
#[derive(Clone, Copy)]
pub enum Basis {
    /// The price alone.
    Price,
    /// Points for the price and for quality.
    Points,
}

/// A value that is read from an element of an array.
trait Element: Sized + Drop {
    ghost use Rattle.std.specs.Prelude.{Result};
    ghost use Rattle.serde_json.specs.Data.{Data};
    ghost use Rattle.serde_json.specs.View.{view};
    ghost use Rattle.office_values.specs.declared.refusal.Refusal.{Refusal};
    ghost use Rattle.office_requests.specs.Inside.Answers.{ReadsAs};

    ghost element_of: { Data → Result Self Refusal };

    fn read(alloc: Global, value: &Value) -> Result<Self, Refusal>
        ensures { ReadsAs result (element_of (view value.now)) };
}

// A part of a lot. If it is missing or wrong, the field `lots` is refused.
fn in_lots<T: Drop>(part: Option<T>) -> Result<T, Refusal>
    ensures { result ≡ spec.in_lots part }
{
    field_or_refusal(Field::Lots, part)
}

// The values of an array's elements, in their order.
fn each_of<T: Element>(alloc: Global, values: &[Value]) -> Result<Vec<T>, Refusal>
    ensures { ReadsList result (each_of T.element_of (items_view values.now)) }
{
    let mut things = Vec::new(alloc);
    'values: for value in values {
        match T::read(alloc, value) {
            Ok(thing) => things.push(thing)?,
            Err(why) => return Err(why),
        }
    }
    Ok(things)
}

// The array of a member; None if the member is missing or isn't an array.
#[tactic(auto, unfolding(crate::specs::Publications::array_at))]
fn array_at<'a>(body: &'a Value, name: &str) -> Option<&'a Vec<Value>>
    ensures { option_map (λ v. items_view v.now.items) result ≡ array_at name.now (view body.now) }
{
    match body.get(name) {
        Some(value) => value.as_array(),
        None => None,
    }
}

// The values of the elements of a member's array.
#[tactic(auto, unfolding(crate::specs::Publications::elements_at, crate::specs::Fields::field_or_refusal))]
fn elements_at<T: Element>(alloc: Global, body: &Value, name: &str) -> Result<Vec<T>, Refusal>
    ensures { ReadsList result (elements_at T.element_of name.now (view body.now)) }
{
    match array_at(body, name) {
        Some(values) => each_of(alloc, values),
        None => Err(Refusal::BadBody(BadPart::Field(Field::Lots))),
    }
}

impl Element for Item {
    ghost use Rattle.office_requests.specs.Publications.{new_item_of};

    ghost element_of = { new_item_of };

    #[tactic(auto, unfolding(crate::specs::Publications::new_item_of))]
    fn read(alloc: Global, value: &Value) -> Result<Item, Refusal> {
        Ok(Item {
            id: in_lots(text_at::<Id>(value, "id"))?,
            title: in_lots(line_at(alloc, value, "title")?)?,
            quantity: in_lots(number_at(value, "quantity"))?,
        })
    }
}

// The items of a lot.
#[tactic(auto, unfolding(crate::specs::Publications::items_of))]
fn items_of(alloc: Global, lot: &Value) -> Result<Items, Refusal>
    ensures { ReadsAs result (items_of (view lot.now)) }
{
    in_lots(Items::read(elements_at(alloc, lot, "items")?))
}

// An amount of money that may be 0.
fn amount_of(number: Bounded<0, AMOUNT_LIMIT>) -> Amount
    ensures { result ≡ number }
{
    Amount::read(number.get()).unwrap()
}

impl Element for NewLot {
    ghost use Rattle.office_requests.specs.Publications.{new_lot_of};

    ghost element_of = { new_lot_of };

    #[tactic(auto, unfolding(crate::specs::Publications::new_lot_of))]
    fn read(alloc: Global, value: &Value) -> Result<NewLot, Refusal> {
        Ok(NewLot {
            id: in_lots(text_at::<Id>(value, "id"))?,
            title: in_lots(line_at(alloc, value, "title")?)?,
            line: in_lots(text_at::<Id>(value, "line"))?,
            estimate: in_lots(number_at(value, "estimate"))?,
            security: amount_of(in_lots(number_at(value, "security"))?),
            items: items_of(alloc, value)?,
        })
    }
}

// The lots of a notice.
#[tactic(auto, unfolding(crate::specs::Publications::lots_in))]
fn lots(alloc: Global, body: &Value) -> Result<NewLots, Refusal>
    ensures { ReadsAs result (lots_in (view body.now)) }
{
    in_lots(NewLots::read(elements_at(alloc, body, "lots")?))
}

// The criteria: points need a weight of the price, and the price alone may have none.
#[tactic(auto, unfolding(crate::specs::Publications::criteria_with))]
fn criteria_with(basis: Basis, body: &Value) -> Result<Criteria, Refusal>
    ensures { result ≡ criteria_with basis (view body.now) }
{
    match basis {
        Basis::Price => {
            absent(body, Field::PriceWeight)?;
            Ok(Criteria::Price)
        }
        Basis::Points => Ok(Criteria::Points(number(body, Field::PriceWeight)?)),
    }
}

#[tactic(auto, unfolding(crate::specs::Publications::criteria_in))]
fn criteria(body: &Value) -> Result<Criteria, Refusal>
    ensures { result ≡ criteria_in (view body.now) }
{
    criteria_with(text(body, Field::Criteria)?, body)
}

// Whether tenders may be withdrawn after the deadline; refused if the field is missing.
#[tactic(auto, unfolding(crate::specs::Publications::late_in))]
fn late_withdrawal(body: &Value) -> Result<LateWithdrawal, Refusal>
    ensures { result ≡ late_in (view body.now) }
{
    if has(body, Field::LateWithdrawal.name()) {
        text(body, Field::LateWithdrawal)
    } else {
        Ok(LateWithdrawal::Refused)
    }
}

// The amount of the performance security that each contract needs; 0 if the field is missing.
#[tactic(auto, unfolding(crate::specs::Publications::performance_in))]
fn performance(body: &Value) -> Result<Amount, Refusal>
    ensures { result ≡ performance_in (view body.now) }
{
    if has(body, Field::Performance.name()) {
        Ok(amount_of(number(body, Field::Performance)?))
    } else {
        Ok(Amount::read(0).unwrap())
    }
}

// The content of a notice, from the body of its publication.
#[tactic(auto, unfolding(crate::specs::Publications::new_notice_in))]
fn new_notice(alloc: Global, body: &Value) -> Result<NewNotice, Refusal>
    ensures { ReadsAs result (new_notice_in (view body.now)) }
{
    Ok(NewNotice {
        title: line(alloc, body, Field::Title)?,
        deadline: text(body, Field::Deadline)?,
        validity: number(body, Field::ValidityDays)?,
        standstill: number(body, Field::StandstillDays)?,
        criteria: criteria(body)?,
        late_withdrawal: late_withdrawal(body)?,
        performance: performance(body)?,
        lots: lots(alloc, body)?,
    })
}

/// The publication of this notice.
pub fn publication<'a>(alloc: Global, notice: Id, body: &Value) -> Result<Command<'a>, Refusal>
    ensures body { ReadsAs result (publication_in notice (view body.now)) }
    ensures kind { IfOk result (λ command. kind_of command ≡ CommandKind.Publish) }
{
    Ok(Command::Publish {
        notice,
        content: new_notice(alloc, body)?,
    })
}
