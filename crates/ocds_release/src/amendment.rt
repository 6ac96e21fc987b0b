//! Amendments of notices and of contracts.
ghost use Rattle.std.specs.Prelude.{◌≡◌, IfOk};
ghost use Rattle.serde_json.specs.View.{view};
ghost use Rattle.ocds_release.specs.Amendments.{amendment};

use crate::object::Object;
use crate::part::Part;
use office_values::moment::Moment;
use serde_json::Value;
use std::alloc::{AllocError, Global};

/// An amendment with this id and description: its date and its rationale.
pub(crate) fn amendment_of(
    alloc: Global,
    id: Value,
    t: Moment,
    rationale: &str,
    description: Value,
) -> Result<Value, AllocError>
    ensures { IfOk result (λ v. view v ≡ amendment (view id) t rationale.now (view description)) }
{
    let mut amendment = Object::new(alloc);
    amendment.put(
        alloc,
        &[
            ("date", Part::Moment(t)),
            ("rationale", Part::Text(rationale)),
        ],
    )?;
    amendment.put_value(alloc, "id", id)?;
    amendment.put_value(alloc, "description", description)?;
    Ok(amendment.into_value())
}
