//! The release of each event.
ghost use Rattle.std.specs.Prelude.{◌≡◌, IfOk};
ghost use Rattle.serde_json.specs.View.{view};
ghost use Rattle.ocds_release.specs.Events.{release_of_event};

mod amend;
mod amend_contract;
mod award;
mod cancel;
mod end;
mod fail;
mod no_award;
mod open;
mod pay;
mod publish;
mod sign;

use crate::event::Event;
use crate::release::{Head, release_head};
use office_base::counts::Sequence;
use office_values::moment::Moment;
use office_values::settings::Publisher;
use serde_json::Value;
use std::alloc::{AllocError, Global};

/// The release of an event of a notice, with its moment and its number in the list of the notice's releases.
pub(crate) fn made<'a>(
    alloc: Global,
    publisher: &'a Publisher,
    seq: Sequence,
    t: Moment,
    event: &'a Event<'a>,
) -> Result<Value, AllocError>
    ensures { IfOk result (λ release. view release ≡ release_of_event publisher.now seq t event.now) }
{
    let head = Head {
        notice: event.notice(),
        seq,
        t,
    };
    let release = release_head(alloc, publisher, head)?;
    match event {
        Event::Publish(e) => publish::publish(alloc, release, publisher, t, e),
        Event::Amend(e) => amend::amend(alloc, release, seq, t, e),
        Event::Open(e) => open::open(alloc, release, e),
        Event::Award(e) => award::award(alloc, release, publisher, t, e),
        Event::NoAward(e) => no_award::no_award(alloc, release, e),
        Event::Fail(e) => fail::fail(alloc, release, e),
        Event::Cancel(e) => cancel::cancel(alloc, release, seq, t, e),
        Event::Sign(e) => sign::sign(alloc, release, publisher, t, e),
        Event::AmendContract(e) => amend_contract::amend_contract(alloc, release, publisher, t, e),
        Event::Pay(e) => pay::pay(alloc, release, publisher, t, e),
        Event::End(e) => end::end(alloc, release, e),
    }
}
