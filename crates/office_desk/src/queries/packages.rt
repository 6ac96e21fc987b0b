//! The packages of a notice's releases and of its record.
ghost use Rattle.std.specs.Prelude.{◌≡◌, true, OnOk};
ghost use Rattle.office_commands.specs.Rights.{may_look};
ghost use Rattle.office_commands.specs.declared.command.QueryKind.TheVariants as kinds;
ghost use Rattle.office_commands.specs.declared.queries.Query.TheVariants.{Record, Releases};
ghost use Rattle.office_base.specs.Shelves.{Looks};
ghost use Rattle.office_base.specs.Tables.{Tables};
ghost use Rattle.office_desk.specs.Steps.{HasShown, IsSeen, TellsQuery, read_text};

mod texts;

use office_base::laws;
use office_base::shelf::Lookups;
use office_commands::command::Caller;
use office_values::id::Id;
use office_values::refusal::{Refusal, Thing};
use office_values::settings::Publisher;
use std::alloc::Global;

/// Shows the package of a notice's releases.
#[tactic(auto, using(crate::proofs::Rising::has_risen))]
pub(crate) fn look_at_releases<H: Lookups>(
    alloc: Global,
    shelf: &mut H,
    publisher: &Publisher,
    caller: &Caller,
    notice: Id,
) -> Result<Vec<u8>, Refusal>
    requires { may_look caller.now kinds.Releases ≡ true }
    ensures looks { Looks H.meaning shelf.old shelf.new (λ s. IsSeen publisher.now caller.now (Releases notice) s (read_text result)) }
    ensures tells { TellsQuery H.meaning shelf.old shelf.new caller.now (Releases notice) result }
    ensures shown { H.meaning.honest shelf.new → (s : Tables) → H.meaning.holds shelf.old s → OnOk result (HasShown publisher.now (Releases notice) s) }
{
    laws::looks_follow::<H>();
    let Some(row) = shelf.get_notice(&notice)? else {
        return Err(Refusal::NoSuch(Thing::Notice));
    };
    texts::releases_text(alloc, shelf, publisher, &notice, row.releases)
}

/// Shows the package of a notice's record.
#[tactic(auto, using(crate::proofs::Rising::has_risen))]
pub(crate) fn look_at_record<H: Lookups>(
    alloc: Global,
    shelf: &mut H,
    publisher: &Publisher,
    caller: &Caller,
    notice: Id,
) -> Result<Vec<u8>, Refusal>
    requires { may_look caller.now kinds.Record ≡ true }
    ensures looks { Looks H.meaning shelf.old shelf.new (λ s. IsSeen publisher.now caller.now (Record notice) s (read_text result)) }
    ensures tells { TellsQuery H.meaning shelf.old shelf.new caller.now (Record notice) result }
    ensures shown { H.meaning.honest shelf.new → (s : Tables) → H.meaning.holds shelf.old s → OnOk result (HasShown publisher.now (Record notice) s) }
{
    laws::looks_follow::<H>();
    let Some(row) = shelf.get_notice(&notice)? else {
        return Err(Refusal::NoSuch(Thing::Notice));
    };
    texts::record_text(alloc, shelf, publisher, &notice, row.releases)
}
