//! The query for a performance security.
ghost use Rattle.std.specs.Prelude.{◌≡◌, true, IfOk};
ghost use Rattle.office_commands.specs.Rights.{may_look};
ghost use Rattle.office_commands.specs.declared.command.QueryKind.TheVariants as kinds;
ghost use Rattle.office_commands.specs.declared.queries.Query.TheVariants.{Performance};
ghost use Rattle.office_base.specs.Shelves.{Looks};
ghost use Rattle.office_machine.specs.Replies.{PerformanceSeen};
ghost use Rattle.office_plans.specs.Replies.{reply_text};
ghost use Rattle.office_desk.specs.Steps.{IsShown, TellsQuery, read_text};

use crate::queries::security::is_by_clerk_or;
use office_base::records::{ContractRow, PerformanceRow};
use office_base::shelf::Lookups;
use office_commands::command::Caller;
use office_plans::objects::{Plain, object_text};
use office_plans::words::security_word;
use office_values::given::AskedNumber;
use office_values::refusal::{Refusal, Thing};
use std::alloc::{AllocError, Global};

// The text of a contract's performance security, in JSON.
fn performance_text(
    alloc: Global,
    contract: &ContractRow,
    row: &PerformanceRow,
) -> Result<Vec<u8>, AllocError>
    ensures { IfOk result (λ text. text.items
        ≡ reply_text (PerformanceSeen row.now.amount contract.now.contract row.now.reference row.now.state contract.now.tenderer)) }
{
    let amount = row.amount.get();
    let number = contract.contract.get();
    let word = security_word(row.state);
    object_text(
        alloc,
        &[
            ("amount", Plain::Number(amount)),
            ("contract", Plain::Number(number)),
            ("reference", Plain::Id(row.reference)),
            ("state", Plain::Text(word)),
            ("tenderer", Plain::Id(contract.tenderer)),
        ],
    )
}

/// Shows the performance security of a contract to the contract's tenderer or to the clerk. The contract is looked up first.
#[tactic(auto, using(crate::proofs::Rising::has_risen))]
pub(crate) fn look<H: Lookups>(
    alloc: Global,
    shelf: &mut H,
    caller: &Caller,
    contract: AskedNumber,
) -> Result<Vec<u8>, Refusal>
    requires { may_look caller.now kinds.Performance ≡ true }
    ensures looks { Looks H.meaning shelf.old shelf.new (λ s. IsShown caller.now (Performance contract) s (read_text result)) }
    ensures tells { TellsQuery H.meaning shelf.old shelf.new caller.now (Performance contract) result }
{
    let Some(row) = shelf.get_contract(contract)? else {
        return Err(Refusal::NoSuch(Thing::Contract));
    };
    let Some(security) = shelf.get_performance(contract)? else {
        return Err(Refusal::NoSuch(Thing::Security));
    };
    if !is_by_clerk_or(caller, &row.tenderer) {
        return Err(Refusal::NotYourTender);
    }
    Ok(performance_text(alloc, &row, &security)?)
}
