//! The release when a contract ends.
ghost use Rattle.std.specs.Prelude.{◌≡◌, IfOk};
ghost use Rattle.serde_json.specs.View.{view};
ghost use Rattle.ocds_release.specs.Inside.Built.{Says};
ghost use Rattle.ocds_release.specs.Events.End.{end_body, ended_contract_data};

use crate::event::ContractEnded;
use crate::object::{Object, list_of_one, object_with};
use crate::part::Part;
use office_values::given::GivenNumber;
use serde_json::Value;
use std::alloc::{AllocError, Global};

fn contract_of(alloc: Global, contract: GivenNumber) -> Result<Value, AllocError>
    ensures { IfOk result (λ v. view v ≡ ended_contract_data contract) }
{
    let number = contract.get();
    object_with(
        alloc,
        &[
            ("id", Part::Decimal(number)),
            ("awardID", Part::Decimal(number)),
            ("status", Part::Text("terminated")),
        ],
    )
}

/// The release when a contract ends.
pub(crate) fn end(
    alloc: Global,
    release: Object,
    event: &ContractEnded,
) -> Result<Value, AllocError>
    ensures { IfOk result (Says release (end_body event.now)) }
{
    let contract = contract_of(alloc, event.contract)?;
    let mut release = release;
    release.put(alloc, &[("tag", Part::Only("contractTermination"))])?;
    release.put_value(alloc, "contracts", list_of_one(alloc, contract)?)?;
    Ok(release.into_value())
}
