//! The release when a contract is signed.
ghost use Rattle.std.specs.Prelude.{◌≡◌, IfOk};
ghost use Rattle.serde_json.specs.View.{view};
ghost use Rattle.ocds_release.specs.Inside.Built.{Says};
ghost use Rattle.ocds_release.specs.Events.Sign.{sign_body, signed_contract};

use crate::event::Signed;
use crate::object::{Object, list_of_one, object_with};
use crate::part::Part;
use crate::tender::tender_with_lot;
use office_values::moment::Moment;
use office_values::settings::{Currency, Publisher};
use serde_json::Value;
use std::alloc::{AllocError, Global};

// The contract at its signing.
fn contract_of(
    alloc: Global,
    currency: Currency,
    t: Moment,
    event: &Signed,
) -> Result<Value, AllocError>
    ensures { IfOk result (λ v. view v ≡ signed_contract currency t event.now) }
{
    let number = event.contract.get();
    object_with(
        alloc,
        &[
            ("id", Part::Decimal(number)),
            ("awardID", Part::Decimal(number)),
            ("status", Part::Text("active")),
            ("dateSigned", Part::Moment(t)),
            ("value", Part::Money(event.price.units(), currency)),
        ],
    )
}

/// The release when a contract is signed.
pub(crate) fn sign(
    alloc: Global,
    release: Object,
    publisher: &Publisher,
    t: Moment,
    event: &Signed,
) -> Result<Value, AllocError>
    ensures { IfOk result (Says release (sign_body publisher.now t event.now)) }
{
    let contract = contract_of(alloc, publisher.currency, t, event)?;
    let tender = tender_with_lot(alloc, event.notice, event.status, event.lot, "complete")?;
    let mut release = release;
    release.put(alloc, &[("tag", Part::Only("contract"))])?;
    release.put_value(alloc, "contracts", list_of_one(alloc, contract)?)?;
    release.put_value(alloc, "tender", tender)?;
    Ok(release.into_value())
}
