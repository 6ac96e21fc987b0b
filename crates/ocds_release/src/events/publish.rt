//! The release when a notice is published.
ghost use Rattle.std.specs.Prelude.{◌≡◌, ◌≤◌, ◌++◌, IfOk, OnOk, map, length};
ghost use Rattle.serde_json.specs.View.{view};
ghost use Rattle.office_base.specs.Sums.{sum_over};
ghost use Rattle.ocds_release.specs.LotsInOrder.{lots_in_order};
ghost use Rattle.ocds_release.specs.Inside.Built.{Says, members_in};
ghost use Rattle.ocds_release.specs.Events.Publish.{publish_body, published_lot, published_item, items_of_lot, items_of_lots, estimate_of, period, criteria_code, buyer_party, planning, published_tender, tender_terms};

use crate::event::Published;
use crate::lots_in_order::in_order;
use crate::object::{Object, list_of_one, object_with};
use crate::part::Part;
use office_commands::item::Item;
use office_commands::lot::NewLot;
use office_commands::notice::Criteria;
use office_values::id::Id;
use office_values::moment::Moment;
use office_values::settings::{Currency, Publisher};
use serde_json::Value;
use std::alloc::{AllocError, Global};

fn lot_of(alloc: Global, currency: Currency, lot: &NewLot) -> Result<Value, AllocError>
    ensures { IfOk result (λ v. view v ≡ published_lot currency lot.now) }
{
    object_with(
        alloc,
        &[
            ("id", Part::Id(lot.id)),
            ("status", Part::Text("active")),
            ("title", Part::Text(lot.title.as_str())),
            ("value", Part::Money(lot.estimate.get(), currency)),
        ],
    )
}

fn lots_of(alloc: Global, currency: Currency, lots: &[&NewLot]) -> Result<Vec<Value>, AllocError>
    ensures { IfOk result (λ list. map view list.items ≡ map (published_lot currency) (map (λ r. r.now) lots.now)) }
{
    let mut list = Vec::new(alloc);
    for lot in lots {
        list.push(lot_of(alloc, currency, lot)?)?;
    }
    Ok(list)
}

fn item_of(alloc: Global, lot: Id, item: &Item) -> Result<Value, AllocError>
    ensures { IfOk result (λ v. view v ≡ published_item lot item.now) }
{
    object_with(
        alloc,
        &[
            ("description", Part::Text(item.title.as_str())),
            ("id", Part::ItemId(lot, item.id)),
            ("quantity", Part::Number(item.quantity.get())),
            ("relatedLot", Part::Id(lot)),
        ],
    )
}

fn push_items(alloc: Global, list: &mut Vec<Value>, lot: &NewLot) -> Result<(), AllocError>
    ensures { OnOk result (map view list.new.items ≡ map view list.old.items ++ items_of_lot lot.now) }
{
    for item in lot.items.as_slice() {
        list.push(item_of(alloc, lot.id, item)?)?;
    }
    Ok(())
}

fn items_of(alloc: Global, lots: &[&NewLot]) -> Result<Vec<Value>, AllocError>
    ensures { IfOk result (λ list. map view list.items ≡ items_of_lots (map (λ r. r.now) lots.now)) }
{
    let mut list = Vec::new(alloc);
    for lot in lots {
        push_items(alloc, &mut list, lot)?;
    }
    Ok(list)
}

// The sum of the lots' estimates.
fn estimates(lots: &[NewLot]) -> u64
    requires { length lots.now ≤ 20 }
    ensures { result ≡ sum_over estimate_of lots.now }
{
    let mut sum = 0;
    for lot in lots {
        sum += lot.estimate.get();
    }
    sum
}

fn criteria_code(criteria: Criteria) -> &'static str
    ensures { result.now ≡ criteria_code criteria }
{
    match criteria {
        Criteria::Price => "priceOnly",
        Criteria::Points(_) => "ratedCriteria",
    }
}

// The buyer as a party.
fn buyer_party_of(alloc: Global, publisher: &Publisher) -> Result<Value, AllocError>
    ensures { IfOk result (λ v. view v ≡ buyer_party publisher.now) }
{
    object_with(
        alloc,
        &[
            ("id", Part::BuyerId(publisher.buyer.id)),
            ("name", Part::Text(publisher.buyer.name.as_str())),
            ("roles", Part::Both("buyer", "procuringEntity")),
        ],
    )
}

fn planning_of(alloc: Global, currency: Currency, amount: u64) -> Result<Value, AllocError>
    ensures { IfOk result (λ v. view v ≡ planning currency amount) }
{
    let mut planning = Object::new(alloc);
    let budget = object_with(alloc, &[("amount", Part::Money(amount, currency))])?;
    planning.put_value(alloc, "budget", budget)?;
    Ok(planning.into_value())
}

fn period_of(alloc: Global, from: Moment, to: Moment) -> Result<Value, AllocError>
    ensures { IfOk result (λ v. view v ≡ period from to) }
{
    object_with(
        alloc,
        &[
            ("endDate", Part::Moment(to)),
            ("startDate", Part::Moment(from)),
        ],
    )
}

// The members of the tender, except for its value, items, lots and period.
fn terms_of<'a>(
    alloc: Global,
    publisher: &'a Publisher,
    event: &'a Published<'a>,
) -> Result<Object, AllocError>
    ensures { IfOk result (λ tender. members_in tender ≡ tender_terms publisher.now event.now) }
{
    let mut tender = Object::new(alloc);
    tender.put(
        alloc,
        &[
            ("awardCriteria", Part::Text(criteria_code(event.criteria))),
            ("id", Part::Id(event.notice)),
            ("procurementMethod", Part::Text("open")),
            (
                "procuringEntity",
                Part::Buyer(publisher.buyer.id, publisher.buyer.name.as_str()),
            ),
            ("status", Part::Text("active")),
            ("submissionMethod", Part::Only("electronicSubmission")),
        ],
    )?;
    tender.put(alloc, &[("title", Part::Text(event.title.as_str()))])?;
    Ok(tender)
}

// The tender of the published notice.
fn tender_of<'a>(
    alloc: Global,
    publisher: &'a Publisher,
    t: Moment,
    event: &'a Published<'a>,
) -> Result<Value, AllocError>
    ensures { IfOk result (λ v. view v ≡ published_tender publisher.now t event.now) }
{
    let given = event.lots.as_slice();
    let lots = in_order(alloc, given)?;
    let mut tender = terms_of(alloc, publisher, event)?;
    tender.put(
        alloc,
        &[("value", Part::Money(estimates(given), publisher.currency))],
    )?;
    tender.put_value(alloc, "items", Value::Array(items_of(alloc, &lots)?))?;
    tender.put_value(
        alloc,
        "lots",
        Value::Array(lots_of(alloc, publisher.currency, &lots)?),
    )?;
    tender.put_value(alloc, "tenderPeriod", period_of(alloc, t, event.deadline)?)?;
    Ok(tender.into_value())
}

/// The release when a notice is published.
pub(crate) fn publish<'a>(
    alloc: Global,
    release: Object,
    publisher: &'a Publisher,
    t: Moment,
    event: &'a Published<'a>,
) -> Result<Value, AllocError>
    ensures { IfOk result (Says release (publish_body publisher.now t event.now)) }
{
    let amount = estimates(event.lots.as_slice());
    let buyer = buyer_party_of(alloc, publisher)?;
    let planning = planning_of(alloc, publisher.currency, amount)?;
    let tender = tender_of(alloc, publisher, t, event)?;
    let mut release = release;
    let tag = Part::Both("planning", "tender");
    release.put(alloc, &[("tag", tag)])?;
    release.put_value(alloc, "parties", list_of_one(alloc, buyer)?)?;
    release.put_value(alloc, "planning", planning)?;
    release.put_value(alloc, "tender", tender)?;
    Ok(release.into_value())
}
