//! The release when a winner fails to sign.
ghost use Rattle.std.specs.Prelude.{◌≡◌, IfOk};
ghost use Rattle.serde_json.specs.View.{view};
ghost use Rattle.ocds_release.specs.Inside.Built.{Says};
ghost use Rattle.ocds_release.specs.Events.Fail.{fail_body};
ghost use Rattle.ocds_release.specs.Awards.{ended_award};

use crate::event::AwardFailed;
use crate::object::{Object, list_of_one, object_with};
use crate::part::Part;
use office_values::given::GivenNumber;
use serde_json::Value;
use std::alloc::{AllocError, Global};

/// An award that ended without a contract.
pub(crate) fn ended_award_of(alloc: Global, award: GivenNumber) -> Result<Value, AllocError>
    ensures { IfOk result (λ v. view v ≡ ended_award award) }
{
    object_with(
        alloc,
        &[
            ("id", Part::Decimal(award.get())),
            ("status", Part::Text("cancelled")),
        ],
    )
}

/// The release when a winner fails to sign.
pub(crate) fn fail(alloc: Global, release: Object, event: &AwardFailed) -> Result<Value, AllocError>
    ensures { IfOk result (Says release (fail_body event.now)) }
{
    let award = ended_award_of(alloc, event.award)?;
    let mut release = release;
    release.put(alloc, &[("tag", Part::Only("awardCancellation"))])?;
    release.put_value(alloc, "awards", list_of_one(alloc, award)?)?;
    Ok(release.into_value())
}
