//! The release of an event.
ghost use Rattle.std.specs.Prelude.{◌≡◌, IfOk};
ghost use Rattle.serde_json.specs.View.{view};
ghost use Rattle.ocds_release.specs.Events.{release_of_event as release_by_event};

use crate::event::Event;
use crate::events::made;
use ocds_merge::NoMemory;
use office_base::counts::Sequence;
use office_values::moment::Moment;
use office_values::settings::{Publisher, Settings};
use serde_json::Value;
use std::alloc::Global;

/// The release of an event of a notice, with its moment and its number in the list of the notice's releases (OCDS 1.1, release schema). Time and memory grow
/// with the size of the event.
pub fn release_of_event<'a>(
    alloc: Global,
    publisher: &'a Publisher,
    seq: Sequence,
    t: Moment,
    event: &'a Event<'a>,
) -> Result<Value, NoMemory>
    ensures { IfOk result (λ release. view release ≡ release_by_event publisher.now seq t event.now) }
{
    Ok(made(alloc, publisher, seq, t, event)?)
}

/// `release_of_event` for callers that have the settings of an office instead of its publisher.
pub fn release_of<'a>(
    alloc: Global,
    settings: &'a Settings,
    seq: Sequence,
    t: Moment,
    event: &'a Event<'a>,
) -> Result<Value, NoMemory>
    ensures { IfOk result (λ release. view release ≡ release_by_event settings.now.publisher seq t event.now) }
{
    release_of_event(alloc, &settings.publisher, seq, t, event)
}
