//! Plans for all commands, over any store. Each command has a file of its own.
ghost use Rattle.std.specs.Prelude.{◌≡◌, true};
ghost use Rattle.office_commands.specs.Commands.{kind_of};
ghost use Rattle.office_commands.specs.Rights.{may};
ghost use Rattle.office_base.specs.Shelves.{Looks};
ghost use Rattle.office_plans.specs.Asking.{given_by};
ghost use Rattle.office_plans.specs.Published.{IsPlanned, TellsRefusal};

pub mod amend_contract;
pub mod amend_notice;
pub mod award;
pub mod cancel;
pub mod end;
pub mod examine;
pub mod fail;
pub mod import;
pub mod modify;
pub mod open;
pub mod pay;
pub mod present;
pub mod publish;
pub mod register;
pub mod sign;
pub mod withdraw;

use crate::planned::Planned;
use office_base::shelf::Lookups;
use office_commands::commands::Command;
use office_values::refusal::Refusal;
use office_values::settings::Publisher;
use std::alloc::Global;
use tender_core::asking::Asking;

/// Plans a command that the caller may give. An import or a publication may be `Unavailable` instead of refused although no look-up failed, but not instead of
/// `Exists`.
pub fn plan_command<H: Lookups>(
    alloc: Global,
    shelf: &mut H,
    publisher: &Publisher,
    asking: &Asking,
    command: Command<'_>,
) -> Result<Planned, Refusal>
    requires { may asking.now.caller.now (kind_of command) ≡ true }
    ensures looks { Looks H.meaning shelf.old shelf.new (λ s. IsPlanned publisher.now (given_by asking.now s command.entry) result) }
    ensures tells { TellsRefusal H.meaning shelf.old shelf.new (λ s. given_by asking.now s command.entry) result }
{
    match command {
        Command::Import { batch, rows } => import::plan(alloc, shelf, asking, batch, rows),
        Command::Register {
            tenderer,
            name,
            address,
            key,
        } => register::plan(alloc, shelf, asking, tenderer, name, address, key),
        Command::Publish { notice, content } => publish::plan(
            alloc, shelf, publisher, asking, notice, content,
        ),
        Command::AmendNotice {
            notice,
            deadline,
            rationale,
        } => amend_notice::plan(alloc, shelf, publisher, asking, notice, deadline, rationale),
        Command::Cancel { notice, rationale } => cancel::plan(
            alloc, shelf, publisher, asking, notice, rationale,
        ),
        Command::Open { notice } => open::plan(alloc, shelf, publisher, asking, notice),
        Command::Present {
            notice,
            lot,
            security,
            sealed,
        } => present::plan(alloc, shelf, asking, notice, lot, security, sealed),
        Command::Modify { receipt, sealed } => modify::plan(alloc, shelf, asking, receipt, sealed),
        Command::Withdraw { receipt } => withdraw::plan(alloc, shelf, asking, receipt),
        Command::Examine {
            receipt,
            responsive,
            quality,
        } => examine::plan(alloc, shelf, asking, receipt, responsive, quality),
        Command::Award { notice, lot } => award::plan(alloc, shelf, publisher, asking, notice, lot),
        Command::Fail { award } => fail::plan(alloc, shelf, publisher, asking, award),
        Command::Sign { award, security } => sign::plan(
            alloc, shelf, publisher, asking, award, security,
        ),
        Command::AmendContract {
            contract,
            entry,
            kind,
            amount,
            rationale,
        } => amend_contract::plan(
            alloc, shelf, publisher, asking, contract, entry, kind, amount, rationale,
        ),
        Command::Pay {
            contract,
            entry,
            amount,
        } => pay::plan(alloc, shelf, publisher, asking, contract, entry, amount),
        Command::End { contract, how } => end::plan(alloc, shelf, publisher, asking, contract, how),
    }
}
