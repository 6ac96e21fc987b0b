//! The members that every release has.
ghost use Rattle.std.specs.Prelude.{◌≡◌, IfOk};
ghost use Rattle.ocds_release.specs.Inside.Built.{members_in};
ghost use Rattle.ocds_release.specs.Releases.{head_members};

use crate::object::Object;
use crate::part::Part;
use office_base::counts::Sequence;
use office_values::id::Id;
use office_values::moment::Moment;
use office_values::settings::Publisher;
use std::alloc::{AllocError, Global};

/// The notice of a release, its number, and its moment.
#[derive(Clone, Copy)]
pub(crate) struct Head {
    pub(crate) notice: Id,
    pub(crate) seq: Sequence,
    pub(crate) t: Moment,
}

/// A release that has only its head.
pub(crate) fn release_head(
    alloc: Global,
    publisher: &Publisher,
    head: Head,
) -> Result<Object, AllocError>
    ensures { IfOk result (λ release. members_in release ≡ head_members publisher.now head.seq head.t head.notice) }
{
    let mut release = Object::new(alloc);
    release.put(
        alloc,
        &[
            (
                "buyer",
                Part::Buyer(publisher.buyer.id, publisher.buyer.name.as_str()),
            ),
            ("date", Part::Moment(head.t)),
            (
                "id",
                Part::ReleaseId(publisher.prefix, head.notice, head.seq.get()),
            ),
            ("initiationType", Part::Text("tender")),
            ("language", Part::Language(publisher.language)),
            ("ocid", Part::Ocid(publisher.prefix, head.notice)),
        ],
    )?;
    Ok(release)
}
