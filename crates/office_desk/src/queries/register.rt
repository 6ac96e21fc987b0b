//! The register of a notice's tenders.
ghost use Rattle.std.specs.Prelude.{◌≡◌, true, IfOk, map};
ghost use Rattle.office_commands.specs.Rights.{may_look};
ghost use Rattle.office_commands.specs.declared.command.QueryKind.TheVariants as kinds;
ghost use Rattle.office_commands.specs.declared.queries.Query.TheVariants.{Register};
ghost use Rattle.office_base.specs.Shelves.{Looks};
ghost use Rattle.office_machine.specs.Replies.{Registry};
ghost use Rattle.office_machine.specs.Sights.{registered};
ghost use Rattle.office_plans.specs.Replies.{reply_text};
ghost use Rattle.office_desk.specs.Steps.{IsShown, TellsQuery, read_text};

use office_base::laws;
use office_base::records::EnvelopeRow;
use office_base::shelf::Lookups;
use office_commands::command::Caller;
use office_values::id::Id;
use office_values::refusal::{Refusal, Thing};
use std::alloc::{AllocError, Global};
use tender_papers::register::register_text;

// The text of the register. It shows no digest and no tenderer.
#[tactic(auto, using(crate::proofs::Registers::same_register))]
fn registry_text(alloc: Global, notice: Id, rows: &[EnvelopeRow]) -> Result<Vec<u8>, AllocError>
    ensures { IfOk result (λ text. text.items ≡ reply_text (Registry notice (map registered rows.now))) }
{
    Ok(register_text(alloc, notice, rows)?.into_vec())
}

/// Shows the register of a notice's tenders to the clerk.
#[tactic(auto, using(crate::proofs::Rising::has_risen))]
pub(crate) fn look<H: Lookups>(
    alloc: Global,
    shelf: &mut H,
    caller: &Caller,
    notice: Id,
) -> Result<Vec<u8>, Refusal>
    requires { may_look caller.now kinds.Register ≡ true }
    ensures looks { Looks H.meaning shelf.old shelf.new (λ s. IsShown caller.now (Register notice) s (read_text result)) }
    ensures tells { TellsQuery H.meaning shelf.old shelf.new caller.now (Register notice) result }
{
    laws::looks_follow::<H>();
    let Some(row) = shelf.get_notice(&notice)? else {
        return Err(Refusal::NoSuch(Thing::Notice));
    };
    let rows = shelf.list_envelopes_of_notice(&notice)?;
    Ok(registry_text(alloc, row.notice, &rows)?)
}
