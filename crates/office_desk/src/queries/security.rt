//! The query for a tender security.
ghost use Rattle.std.specs.Prelude.{◌≡◌, ◌||◌, true, IfOk};
ghost use Rattle.office_commands.specs.Callers.{is_by};
ghost use Rattle.office_commands.specs.Rights.{is_clerk, may_look};
ghost use Rattle.office_commands.specs.declared.command.QueryKind.TheVariants as kinds;
ghost use Rattle.office_commands.specs.declared.queries.Query.TheVariants.{Security};
ghost use Rattle.office_base.specs.Shelves.{Looks};
ghost use Rattle.office_machine.specs.Replies.{Security as SecuritySeen};
ghost use Rattle.office_plans.specs.Replies.{reply_text};
ghost use Rattle.office_desk.specs.Steps.{IsShown, TellsQuery, read_text};

use office_base::records::SecurityRow;
use office_base::shelf::Lookups;
use office_commands::command::Caller;
use office_plans::objects::{Plain, object_text};
use office_plans::words::security_word;
use office_values::given::AskedNumber;
use office_values::id::Id;
use office_values::refusal::{Refusal, Thing};
use std::alloc::{AllocError, Global};
use tender_core::tenders::is_by;

/// Whether the caller is the clerk or this tenderer.
pub(crate) fn is_by_clerk_or(caller: &Caller, tenderer: &Id) -> bool
    ensures { result ≡ (is_clerk caller.now || is_by caller.now tenderer.now) }
{
    matches!(caller, Caller::Clerk) || is_by(caller, tenderer)
}

// The text of a security, in JSON.
fn security_text(alloc: Global, row: &SecurityRow) -> Result<Vec<u8>, AllocError>
    ensures { IfOk result (λ text. text.items
        ≡ reply_text (SecuritySeen row.now.amount row.now.reference row.now.security row.now.state row.now.tenderer)) }
{
    let amount = row.amount.get();
    let security = row.security.get();
    let word = security_word(row.state);
    object_text(
        alloc,
        &[
            ("amount", Plain::Number(amount)),
            ("reference", Plain::Id(row.reference)),
            ("security", Plain::Number(security)),
            ("state", Plain::Text(word)),
            ("tenderer", Plain::Id(row.tenderer)),
        ],
    )
}

/// Shows a security to the tenderer who named it or to the clerk.
#[tactic(auto, using(crate::proofs::Rising::has_risen))]
pub(crate) fn look<H: Lookups>(
    alloc: Global,
    shelf: &mut H,
    caller: &Caller,
    security: AskedNumber,
) -> Result<Vec<u8>, Refusal>
    requires { may_look caller.now kinds.Security ≡ true }
    ensures looks { Looks H.meaning shelf.old shelf.new (λ s. IsShown caller.now (Security security) s (read_text result)) }
    ensures tells { TellsQuery H.meaning shelf.old shelf.new caller.now (Security security) result }
{
    let Some(row) = shelf.get_security(security)? else {
        return Err(Refusal::NoSuch(Thing::Security));
    };
    if !is_by_clerk_or(caller, &row.tenderer) {
        return Err(Refusal::NotYourTender);
    }
    Ok(security_text(alloc, &row)?)
}
