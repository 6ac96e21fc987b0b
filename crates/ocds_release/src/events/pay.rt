//! The release when something is paid under a contract.
ghost use Rattle.std.specs.Prelude.{◌≡◌, IfOk};
ghost use Rattle.serde_json.specs.View.{view};
ghost use Rattle.ocds_release.specs.Inside.Built.{Says};
ghost use Rattle.ocds_release.specs.Events.Pay.{pay_body, paid_contract, transaction};

use crate::event::Paid;
use crate::object::{Object, list_of_one, object_with};
use crate::part::Part;
use office_values::moment::Moment;
use office_values::settings::Publisher;
use serde_json::Value;
use std::alloc::{AllocError, Global};

// The payment as a transaction.
fn transaction_of<'a>(
    alloc: Global,
    publisher: &'a Publisher,
    t: Moment,
    event: &'a Paid<'a>,
) -> Result<Value, AllocError>
    ensures { IfOk result (λ v. view v ≡ transaction publisher.now t event.now) }
{
    object_with(
        alloc,
        &[
            ("id", Part::Id(event.entry)),
            ("date", Part::Moment(t)),
            ("value", Part::Money(event.amount.get(), publisher.currency)),
            (
                "payer",
                Part::Buyer(publisher.buyer.id, publisher.buyer.name.as_str()),
            ),
            (
                "payee",
                Part::Tenderer(event.payee.id, event.payee.name.as_str()),
            ),
        ],
    )
}

// The contract with its transaction.
fn contract_of<'a>(
    alloc: Global,
    publisher: &'a Publisher,
    t: Moment,
    event: &'a Paid<'a>,
) -> Result<Value, AllocError>
    ensures { IfOk result (λ v. view v ≡ paid_contract publisher.now t event.now) }
{
    let transaction = transaction_of(alloc, publisher, t, event)?;
    let mut implementation = Object::new(alloc);
    implementation.put_value(alloc, "transactions", list_of_one(alloc, transaction)?)?;
    let number = event.contract.get();
    let mut contract = Object::new(alloc);
    contract.put(
        alloc,
        &[
            ("id", Part::Decimal(number)),
            ("awardID", Part::Decimal(number)),
        ],
    )?;
    contract.put_value(alloc, "implementation", implementation.into_value())?;
    Ok(contract.into_value())
}

/// The release when something is paid under a contract.
pub(crate) fn pay<'a>(
    alloc: Global,
    release: Object,
    publisher: &'a Publisher,
    t: Moment,
    event: &'a Paid<'a>,
) -> Result<Value, AllocError>
    ensures { IfOk result (Says release (pay_body publisher.now t event.now)) }
{
    let contract = contract_of(alloc, publisher, t, event)?;
    let mut release = release;
    release.put(alloc, &[("tag", Part::Only("implementation"))])?;
    release.put_value(alloc, "contracts", list_of_one(alloc, contract)?)?;
    Ok(release.into_value())
}
