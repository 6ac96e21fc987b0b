//! The release when the deadline of a notice is moved.
ghost use Rattle.std.specs.Prelude.{◌≡◌, IfOk};
ghost use Rattle.serde_json.specs.View.{view};
ghost use Rattle.ocds_release.specs.Inside.Built.{Says};
ghost use Rattle.ocds_release.specs.Events.Amend.{amend_body, amended_tender};

use crate::amendment::amendment_of;
use crate::event::NoticeAmended;
use crate::object::{Object, list_of_one, object_with};
use crate::part::{Part, value_of};
use office_base::counts::Sequence;
use office_values::moment::Moment;
use serde_json::Value;
use std::alloc::{AllocError, Global};

// The tender with its new deadline, and the amendment.
fn tender_of<'a>(
    alloc: Global,
    seq: Sequence,
    t: Moment,
    event: &'a NoticeAmended<'a>,
) -> Result<Value, AllocError>
    ensures { IfOk result (λ v. view v ≡ amended_tender seq t event.now) }
{
    let id = value_of(alloc, &Part::FourDigits(seq.get()))?;
    let description = value_of(alloc, &Part::Moved(event.before, event.after))?;
    let amendment = amendment_of(alloc, id, t, event.rationale.as_str(), description)?;
    let period = object_with(alloc, &[("endDate", Part::Moment(event.after))])?;
    let mut tender = Object::new(alloc);
    tender.put(alloc, &[("id", Part::Id(event.notice))])?;
    tender.put_value(alloc, "tenderPeriod", period)?;
    tender.put_value(alloc, "amendments", list_of_one(alloc, amendment)?)?;
    Ok(tender.into_value())
}

/// The release when the deadline of a notice is moved.
pub(crate) fn amend<'a>(
    alloc: Global,
    release: Object,
    seq: Sequence,
    t: Moment,
    event: &'a NoticeAmended<'a>,
) -> Result<Value, AllocError>
    ensures { IfOk result (Says release (amend_body seq t event.now)) }
{
    let tender = tender_of(alloc, seq, t, event)?;
    let mut release = release;
    release.put(alloc, &[("tag", Part::Only("tenderAmendment"))])?;
    release.put_value(alloc, "tender", tender)?;
    Ok(release.into_value())
}
