//! The release when a contract is raised or cut.
ghost use Rattle.std.specs.Prelude.{◌≡◌, IfOk};
ghost use Rattle.serde_json.specs.View.{view};
ghost use Rattle.ocds_release.specs.Objects.{text};
ghost use Rattle.ocds_release.specs.Inside.Built.{Says};
ghost use Rattle.ocds_release.specs.Events.AmendContract.{amend_contract_body, amended_contract, change_text};

use crate::amendment::amendment_of;
use crate::event::ContractAmended;
use crate::object::{Object, list_of_one};
use crate::part::{Part, value_of};
use office_commands::contract::ChangeKind;
use office_values::moment::Moment;
use office_values::settings::{Currency, Publisher};
use serde_json::Value;
use std::alloc::{AllocError, Global};

fn description_of<'a>(alloc: Global, event: &'a ContractAmended<'a>) -> Result<Value, AllocError>
    ensures { IfOk result (λ v. view v ≡ text (change_text event.now.kind event.now.amount)) }
{
    match event.kind {
        ChangeKind::Raise => value_of(alloc, &Part::Raised(event.amount.get())),
        ChangeKind::Cut => value_of(alloc, &Part::Cut(event.amount.get())),
    }
}

// The contract at its new value, with the amendment.
fn contract_of<'a>(
    alloc: Global,
    currency: Currency,
    t: Moment,
    event: &'a ContractAmended<'a>,
) -> Result<Value, AllocError>
    ensures { IfOk result (λ v. view v ≡ amended_contract currency t event.now) }
{
    let id = value_of(alloc, &Part::Id(event.entry))?;
    let description = description_of(alloc, event)?;
    let amendment = amendment_of(alloc, id, t, event.rationale.as_str(), description)?;
    let number = event.contract.get();
    let mut contract = Object::new(alloc);
    contract.put(
        alloc,
        &[
            ("id", Part::Decimal(number)),
            ("awardID", Part::Decimal(number)),
            ("value", Part::Money(event.value.units(), currency)),
        ],
    )?;
    contract.put_value(alloc, "amendments", list_of_one(alloc, amendment)?)?;
    Ok(contract.into_value())
}

/// The release when a contract is raised or cut.
pub(crate) fn amend_contract<'a>(
    alloc: Global,
    release: Object,
    publisher: &'a Publisher,
    t: Moment,
    event: &'a ContractAmended<'a>,
) -> Result<Value, AllocError>
    ensures { IfOk result (Says release (amend_contract_body publisher.now t event.now)) }
{
    let contract = contract_of(alloc, publisher.currency, t, event)?;
    let mut release = release;
    release.put(alloc, &[("tag", Part::Only("contractAmendment"))])?;
    release.put_value(alloc, "contracts", list_of_one(alloc, contract)?)?;
    Ok(release.into_value())
}
