//! The release when a lot is awarded.
ghost use Rattle.std.specs.Prelude.{◌≡◌, IfOk};
ghost use Rattle.serde_json.specs.View.{view};
ghost use Rattle.ocds_release.specs.Inside.Built.{Says};
ghost use Rattle.ocds_release.specs.Events.Award.{award_body, winner_party as winning_party, award_data};

use crate::event::Awarded;
use crate::object::{Object, list_of_one, object_with};
use crate::part::{Part, value_of};
use office_values::moment::Moment;
use office_values::settings::{Currency, Publisher};
use serde_json::Value;
use std::alloc::{AllocError, Global};

// The tenderer that won, as a party.
fn winner_of(alloc: Global, event: &Awarded) -> Result<Value, AllocError>
    ensures { IfOk result (λ v. view v ≡ winning_party event.now) }
{
    object_with(
        alloc,
        &[
            ("id", Part::TendererId(event.winner.id)),
            ("roles", Part::Both("tenderer", "supplier")),
        ],
    )
}

// The award of the lot to the winner.
fn award_of<'a>(
    alloc: Global,
    currency: Currency,
    t: Moment,
    event: &'a Awarded<'a>,
) -> Result<Value, AllocError>
    ensures { IfOk result (λ v. view v ≡ award_data currency t event.now) }
{
    let supplier = value_of(
        alloc,
        &Part::Tenderer(event.winner.id, event.winner.name.as_str()),
    )?;
    let mut award = Object::new(alloc);
    award.put(
        alloc,
        &[
            ("id", Part::Decimal(event.award.get())),
            ("status", Part::Text("active")),
            ("date", Part::Moment(t)),
            ("value", Part::Money(event.price.units(), currency)),
            ("relatedLots", Part::OnlyId(event.lot)),
        ],
    )?;
    award.put_value(alloc, "suppliers", list_of_one(alloc, supplier)?)?;
    Ok(award.into_value())
}

/// The release when a lot is awarded.
pub(crate) fn award<'a>(
    alloc: Global,
    release: Object,
    publisher: &'a Publisher,
    t: Moment,
    event: &'a Awarded<'a>,
) -> Result<Value, AllocError>
    ensures { IfOk result (Says release (award_body publisher.now t event.now)) }
{
    let winner = winner_of(alloc, event)?;
    let award = award_of(alloc, publisher.currency, t, event)?;
    let mut release = release;
    release.put(alloc, &[("tag", Part::Only("award"))])?;
    release.put_value(alloc, "parties", list_of_one(alloc, winner)?)?;
    release.put_value(alloc, "awards", list_of_one(alloc, award)?)?;
    Ok(release.into_value())
}
