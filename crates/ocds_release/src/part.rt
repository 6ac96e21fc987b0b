//! JSON values, described by their parts.
ghost use Rattle.std.specs.Prelude.{◌≡◌, ◌∷◌, [], IfOk};
ghost use Rattle.std.specs.List.{concat};
ghost use Rattle.serde_json.specs.View.{view};
ghost use Rattle.ocds_release.specs.Inside.Words.{joined as joined_words};
ghost use Rattle.ocds_release.specs.Inside.Parts.{data_of};
ghost use Rattle.ocds_release.specs.Objects.{text, money, reference};
ghost use Rattle.ocds_release.specs.Texts.{release_id as id_of_release, moved_text, address as address_text};

use crate::words::{Word, joined};
use office_values::id::Id;
use office_values::moment::Moment;
use office_values::settings::{Currency, Language, Prefix};
use serde_json::{Value, json};
use std::alloc::{AllocError, Global};

/// A JSON value that borrows its parts.
#[derive(Clone, Copy)]
pub(crate) enum Part<'p> {
    Text(&'p str),
    Id(Id),
    Number(u64),
    Decimal(u64),
    FourDigits(u64),
    Moment(Moment),
    Language(Language),
    Money(u64, Currency),
    /// The buyer and a tenderer, by identifier and name, or by identifier alone.
    Buyer(Id, &'p str),
    BuyerId(Id),
    Tenderer(Id, &'p str),
    TendererId(Id),
    Ocid(Prefix, Id),
    ReleaseId(Prefix, Id, u64),
    ItemId(Id, Id),
    /// The description of an amendment: a deadline was moved, or a contract was raised or cut by an amount.
    Moved(Moment, Moment),
    Raised(u64),
    Cut(u64),
    Address(&'p str, Id, &'p str),
    /// Lists of texts.
    Only(&'p str),
    OnlyId(Id),
    Both(&'p str, &'p str),
}

fn money_of(alloc: Global, amount: u64, currency: Currency) -> Result<Value, AllocError>
    ensures { IfOk result (λ v. view v ≡ money amount currency) }
{
    json!(in alloc; {"amount": amount, "currency": currency.as_str()})
}

// A person or body by identifier and name; the letter of its kind comes before the identifier.
fn reference_of(alloc: Global, kind: &str, id: Id, name: &str) -> Result<Value, AllocError>
    ensures { IfOk result (λ v. view v ≡ reference (concat (kind.now ∷ id ∷ [])) name.now) }
{
    let id = Value::String(joined(alloc, &[Word::Text(kind), Word::Id(id)])?);
    json!(in alloc; {"id": id, "name": name})
}

// One text that consists of these words.
fn text(alloc: Global, words: &[Word]) -> Result<Value, AllocError>
    ensures { IfOk result (λ v. view v ≡ text (joined_words words.now)) }
{
    Ok(Value::String(joined(alloc, words)?))
}

fn release_id(alloc: Global, prefix: Prefix, notice: Id, seq: u64) -> Result<Value, AllocError>
    ensures { IfOk result (λ v. view v ≡ text (id_of_release prefix notice seq)) }
{
    text(
        alloc,
        &[
            Word::Prefix(prefix),
            Word::Text("-"),
            Word::Id(notice),
            Word::Text("-"),
            Word::FourDigits(seq),
        ],
    )
}

fn moved(alloc: Global, before: Moment, after: Moment) -> Result<Value, AllocError>
    ensures { IfOk result (λ v. view v ≡ text (moved_text before after)) }
{
    text(
        alloc,
        &[
            Word::Text("Deadline moved from "),
            Word::Moment(before),
            Word::Text(" to "),
            Word::Moment(after),
        ],
    )
}

fn address<'a>(
    alloc: Global,
    base: &'a str,
    notice: Id,
    route: &'a str,
) -> Result<Value, AllocError>
    ensures { IfOk result (λ v. view v ≡ text (address_text base.now notice route.now)) }
{
    text(
        alloc,
        &[
            Word::Text(base),
            Word::Text("/notices/"),
            Word::Id(notice),
            Word::Text(route),
        ],
    )
}

/// The value that a part describes.
pub(crate) fn value_of(alloc: Global, part: &Part) -> Result<Value, AllocError>
    ensures { IfOk result (λ v. view v ≡ data_of part.now) }
{
    match *part {
        Part::Text(text) => Value::try_from_str(alloc, text),
        Part::Id(id) => Value::try_from_str(alloc, id.as_str()),
        Part::Number(number) => Ok(Value::from(number)),
        Part::Decimal(number) => text(alloc, &[Word::Number(number)]),
        Part::FourDigits(number) => text(alloc, &[Word::FourDigits(number)]),
        Part::Moment(moment) => Value::try_from_str(alloc, moment.to_text().as_str()),
        Part::Language(language) => Value::try_from_str(alloc, language.as_str()),
        Part::Money(amount, currency) => money_of(alloc, amount, currency),
        Part::Buyer(id, name) => reference_of(alloc, "B-", id, name),
        Part::BuyerId(id) => text(alloc, &[Word::Text("B-"), Word::Id(id)]),
        Part::Tenderer(id, name) => reference_of(alloc, "T-", id, name),
        Part::TendererId(id) => text(alloc, &[Word::Text("T-"), Word::Id(id)]),
        Part::Ocid(prefix, notice) => text(
            alloc,
            &[Word::Prefix(prefix), Word::Text("-"), Word::Id(notice)],
        ),
        Part::ReleaseId(prefix, notice, seq) => release_id(alloc, prefix, notice, seq),
        Part::ItemId(lot, item) => text(alloc, &[Word::Id(lot), Word::Text("/"), Word::Id(item)]),
        Part::Moved(before, after) => moved(alloc, before, after),
        Part::Raised(amount) => text(alloc, &[Word::Text("Raised by "), Word::Number(amount)]),
        Part::Cut(amount) => text(alloc, &[Word::Text("Cut by "), Word::Number(amount)]),
        Part::Address(base, notice, route) => address(alloc, base, notice, route),
        Part::Only(text) => json!(in alloc; [text]),
        Part::OnlyId(id) => json!(in alloc; [id.as_str()]),
        Part::Both(first, second) => json!(in alloc; [first, second]),
    }
}
