//! The release when a lot has no admissible tender.
ghost use Rattle.std.specs.Prelude.{IfOk};
ghost use Rattle.ocds_release.specs.Inside.Built.{Says};
ghost use Rattle.ocds_release.specs.Events.NoAward.{no_award_body};

use crate::event::NotAwarded;
use crate::object::Object;
use crate::part::Part;
use crate::tender::tender_with_lot;
use serde_json::Value;
use std::alloc::{AllocError, Global};

/// The release when a lot has no admissible tender.
pub(crate) fn no_award(
    alloc: Global,
    release: Object,
    event: &NotAwarded,
) -> Result<Value, AllocError>
    ensures { IfOk result (Says release (no_award_body event.now)) }
{
    let tender = tender_with_lot(alloc, event.notice, event.status, event.lot, "unsuccessful")?;
    let mut release = release;
    release.put(alloc, &[("tag", Part::Only("tenderUpdate"))])?;
    release.put_value(alloc, "tender", tender)?;
    Ok(release.into_value())
}
