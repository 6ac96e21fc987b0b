//! The plan of a command that publishes: its release joins its changes and the merge of its notice's releases.
ghost use Rattle.std.specs.Prelude.{◌≡◌, ◌+◌, ◌++◌, ◌-◌, ◌∷◌, [], None, Some, true, false, IfOk, IfErr, IfSome, IfNone, OnOk};
ghost use Rattle.serde_json.specs.View.{view};
ghost use Rattle.ocds_merge.specs.Stored.{IsStorable};
ghost use Rattle.ocds_release.specs.Texts.{ocid_text};
ghost use Rattle.office_base.specs.Transitions.{has_all_releases};
ghost use Rattle.office_base.specs.Shelves.{Looks};
ghost use Rattle.office_base.specs.Tables.{notice_at};
ghost use Rattle.office_base.specs.declared.puts.Put.TheVariants.{Compiled, Release};
ghost use Rattle.office_machine.specs.Counted.{releases_in};
ghost use Rattle.office_commands.specs.Commands.{IsCommand};
ghost use Rattle.office_machine.specs.Lacking.{is_lacking};
ghost use Rattle.office_machine.specs.Machine.{Given, effect, refusal_of, time_of};
ghost use Rattle.office_machine.specs.OfficeMeans.{office_readings};
ghost use Rattle.office_machine.specs.Publications.{published_for};
ghost use Rattle.office_plans.specs.Published.{IsPlan, IsPlanned, accepted_reply};
ghost use Rattle.office_plans.specs.Released.{IsKept, IsReleased, as_row};
ghost use Rattle.office_plans.specs.Replies.{reply_text};
ghost use Rattle.office_publications.specs.Events.{event_of};
ghost use Rattle.office_publications.specs.Keeping.{KeepsReleasesOf, has_last_release, has_release};
ghost use Rattle.office_publications.specs.Merges.{AreSoMany, HasMerge};
ghost use Rattle.office_values.specs.declared.refusal.Refusal.TheVariants.{Unavailable};
ghost use Rattle.office_values.specs.declared.settings.Publisher.{Publisher as PublisherOf};

use crate::planned::Planned;
use crate::release_numbers::has_releases_to;
use ocds_release::event::Event;
use ocds_release::laws::releases_can_be_kept;
use ocds_release::ocid::ocid_of;
use ocds_release::release_of::release_of_event;
use office_base::counts::Sequence;
use office_base::laws::looks_follow;
use office_base::puts::Put;
use office_base::records::NoticeRow;
use office_base::shelf::{Lookups, ShelfFault};
use office_publications::laws::keeping;
use office_publications::merges::load_kept;
use office_publications::publication::{Publication, keep_release};
use office_values::id::Id;
use office_values::moment::Moment;
use office_values::refusal::Refusal;
use office_values::settings::Publisher;
use serde_json::Value;
use std::alloc::Global;

/// A release of a notice, with its number and its moment. It isn't stored yet.
#[derive(Drop)]
pub(crate) struct Released {
    pub(crate) notice: Id,
    pub(crate) seq: Sequence,
    pub(crate) moment: Moment,
    pub(crate) release: Value,
}

// The number of the next release of a notice, or 1 if the notice doesn't exist. None exactly if the notice has all its releases.
fn next_release(row: &Option<NoticeRow>) -> Option<Sequence>
    ensures next { IfSome result (λ seq. seq ≡ releases_in row.now + 1) }
    ensures none { IfNone result (has_all_releases row.now ≡ true) }
{
    match row {
        Some(notice) => Sequence::read(notice.releases.get() + 1),
        None => Sequence::read(1),
    }
}

/// The release of a command's event at the command's moment, with the next number of this notice. `Unavailable` also if the notice has all its releases; such a
/// command is refused.
pub(crate) fn make_release<'a>(
    alloc: Global,
    publisher: &'a Publisher,
    notice: Id,
    row: &Option<NoticeRow>,
    t: Moment,
    event: &'a Event<'a>,
) -> Result<Released, Refusal>
    ensures release { IfOk result (λ r. (x : Given) → event_of x.before x.command ≡ Some event.now → published_for x.before x.command ≡ Some notice
        → row.now ≡ notice_at notice x.before → t ≡ time_of x → IsReleased publisher.now x r) }
    ensures none { IfErr result (λ why. why ≡ Unavailable) }
{
    keeping();
    releases_can_be_kept();
    let Some(seq) = next_release(row) else {
        return Err(Refusal::Unavailable);
    };
    match release_of_event(alloc, publisher, seq, t, event) {
        Ok(release) => Ok(Released {
            notice,
            seq,
            moment: t,
            release,
        }),
        Err(_) => Err(Refusal::Unavailable),
    }
}

// The release as it is stored, and the merge that it joins. Reads the numbers of the notice's releases and its merge, or all its releases if no merge is stored.
// `Unavailable` if the releases aren't those before this one, or if the stored merge isn't of this notice, as the office writes it. If no merge is stored,
// `Unavailable` also if a release isn't. So nothing is published over a release or after a gap.
fn keep<H: Lookups>(
    alloc: Global,
    shelf: &mut H,
    publisher: &Publisher,
    released: Released,
) -> Result<Publication, Refusal>
    ensures kept { Looks H.meaning shelf.old shelf.new (λ s. IsStorable (view released.release) → KeepsReleasesOf released.notice s → IfOk result (IsKept s released)) }
    ensures row { IfOk result (λ p. IsStorable (view released.release) → p.release ≡ as_row released) }
    ensures follows { Looks H.meaning shelf.old shelf.new (λ s. OnOk result (has_last_release released.notice (released.seq - 1) s ≡ true)) }
    ensures next { Looks H.meaning shelf.old shelf.new (λ s. OnOk result (has_release released.notice (released.seq - 1 + 1) s ≡ false)) }
    ensures goes_on { Looks H.meaning shelf.old shelf.new (λ s. OnOk result (HasMerge (ocid_text publisher.now.prefix released.notice) released.notice s)) }
    ensures counted { Looks H.meaning shelf.old shelf.new (λ s. OnOk result (AreSoMany released.notice (released.seq - 1) s)) }
    ensures none { IfErr result (λ why. why ≡ Unavailable) }
{
    looks_follow::<H>();
    let whole = has_releases_to(shelf, &released.notice, released.seq.get() - 1)?;
    if !whole {
        return Err(Refusal::Unavailable);
    }
    let kept = load_kept(shelf, &released.notice)?;
    let ocid = ocid_of(alloc, publisher, &released.notice)?;
    keep_release(
        alloc,
        ocid.as_str(),
        released.notice,
        released.seq,
        released.moment,
        released.release,
        &kept,
    )
}

// The plan with these changes, then the release and the merge that it joins, and with the reply's text.
fn with_publication(
    puts: Vec<Put>,
    text: Vec<u8>,
    publication: Publication,
) -> Result<Planned, Refusal>
    ensures puts { IfOk result (λ p. p.puts ≡ puts.items ++ (Release publication.release ∷ Compiled publication.merge ∷ [])) }
    ensures reply { IfOk result (λ p. p.reply ≡ text.items) }
    ensures none { IfErr result (λ why. why ≡ Unavailable) }
{
    let mut puts = puts;
    puts.push(Put::Release(publication.release))?;
    puts.push(Put::Compiled(publication.merge))?;
    Ok(Planned::new(puts, text))
}

/// The plan of an accepted command that publishes: its changes, the release, the merge that this joins, and the reply's text. `Unavailable` also if the
/// notice's releases aren't those that it counts, or if its stored merge isn't of this notice, as the office writes it. If no merge is stored, `Unavailable` also
/// if a release isn't. None of this can happen in a reached office.
pub(crate) fn published<H: Lookups>(
    alloc: Global,
    shelf: &mut H,
    publisher: &Publisher,
    puts: Vec<Put>,
    text: Vec<u8>,
    released: Released,
) -> Result<Planned, Refusal>
    ensures { Looks H.meaning shelf.old shelf.new (λ s. (x : Given) → x.before ≡ s → IsCommand x.command → refusal_of x ≡ None
        → is_lacking x ≡ false → puts.items ≡ effect office_readings x → text.items ≡ reply_text (accepted_reply x) → IsReleased publisher.now x released
        → IsPlanned publisher.now x result) }
{
    let publication = keep(alloc, shelf, publisher, released)?;
    with_publication(puts, text, publication)
}

/// The plan of an accepted command that publishes nothing: its changes and the reply's text. Takes no memory.
pub(crate) fn silent(puts: Vec<Put>, text: Vec<u8>) -> Planned
    ensures { (publisher : PublisherOf) (x : Given) → IsCommand x.command → refusal_of x ≡ None → is_lacking x ≡ false → event_of x.before x.command ≡ None → published_for x.before x.command ≡ None
        → puts.items ≡ effect office_readings x → text.items ≡ reply_text (accepted_reply x) → IsPlan publisher x result }
{
    keeping();
    Planned::new(puts, text)
}
