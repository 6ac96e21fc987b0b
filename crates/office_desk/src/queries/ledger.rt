//! The ledger.
ghost use Rattle.std.specs.Prelude.{◌≡◌, true, OnOk};
ghost use Rattle.office_commands.specs.Rights.{may_look};
ghost use Rattle.office_commands.specs.declared.command.QueryKind.TheVariants as kinds;
ghost use Rattle.office_commands.specs.declared.queries.Query.TheVariants.{Ledger};
ghost use Rattle.office_base.specs.Shelves.{Looks};
ghost use Rattle.office_base.specs.Tables.{Tables};
ghost use Rattle.office_desk.specs.Balances.{LedgerAddsUp};
ghost use Rattle.office_desk.specs.Steps.{IsShown, TellsQuery, read_text};

use crate::balances::rows_add_up;
use office_base::shelf::Lookups;
use office_commands::command::Caller;
use office_values::refusal::Refusal;
use std::alloc::Global;
use tender_papers::ledger::ledger_text;

/// Shows the ledger. A sum out of range counts as a fault of the store. If the balances of one line don't add up, the ledger isn't shown.
#[tactic(auto, using(crate::proofs::Rising::has_risen))]
pub(crate) fn look<H: Lookups>(
    alloc: Global,
    shelf: &mut H,
    caller: &Caller,
) -> Result<Vec<u8>, Refusal>
    requires { may_look caller.now kinds.Ledger ≡ true }
    ensures looks { Looks H.meaning shelf.old shelf.new (λ s. IsShown caller.now Ledger s (read_text result)) }
    ensures tells { TellsQuery H.meaning shelf.old shelf.new caller.now Ledger result }
    ensures shown { H.meaning.honest shelf.new → (s : Tables) → H.meaning.holds shelf.old s → OnOk result (LedgerAddsUp s) }
{
    let rows = shelf.ledger()?;
    if !rows_add_up(&rows) {
        return Err(Refusal::Unavailable);
    }
    Ok(ledger_text(alloc, &rows)?.into_vec())
}
