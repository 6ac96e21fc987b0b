//! The answers to queries, over any store.
ghost use Rattle.std.specs.Prelude.{◌≡◌, true, OnOk};
ghost use Rattle.office_commands.specs.Queries.{query_kind_of};
ghost use Rattle.office_commands.specs.Rights.{may_look};
ghost use Rattle.office_base.specs.Shelves.{Looks};
ghost use Rattle.office_base.specs.Tables.{Tables};
ghost use Rattle.office_desk.specs.Steps.{HasShown, IsSeen, TellsQuery, read_text};

mod contract;
mod evaluation;
mod ledger;
mod line;
mod minutes;
mod notices;
mod own_tenders;
mod packages;
mod performance;
mod register;
mod securities;
mod security;
mod tender;
mod tenderers;
mod terms;

use office_base::shelf::Lookups;
use office_commands::command::Caller;
use office_commands::queries::Query;
use office_values::refusal::Refusal;
use office_values::settings::Publisher;
use std::alloc::Global;

/// Answers a query that the caller may ask.
pub(crate) fn look_at<H: Lookups>(
    alloc: Global,
    shelf: &mut H,
    publisher: &Publisher,
    caller: &Caller,
    query: Query,
) -> Result<Vec<u8>, Refusal>
    requires { may_look caller.now (query_kind_of query) ≡ true }
    ensures looks { Looks H.meaning shelf.old shelf.new (λ s. IsSeen publisher.now caller.now query s (read_text result)) }
    ensures tells { TellsQuery H.meaning shelf.old shelf.new caller.now query result }
    ensures shown { H.meaning.honest shelf.new → (s : Tables) → H.meaning.holds shelf.old s → OnOk result (HasShown publisher.now query s) }
{
    match query {
        Query::Line { line } => line::look(alloc, shelf, caller, line),
        Query::Ledger => ledger::look(alloc, shelf, caller),
        Query::Minutes { notice } => minutes::look(alloc, shelf, caller, notice),
        Query::Register { notice } => register::look(alloc, shelf, caller, notice),
        Query::Tender { receipt } => tender::look(alloc, shelf, caller, receipt),
        Query::Security { security } => security::look(alloc, shelf, caller, security),
        Query::Performance { contract } => performance::look(alloc, shelf, caller, contract),
        Query::Notices { after } => notices::look(alloc, shelf, caller, after),
        Query::Terms { notice } => terms::look(alloc, shelf, caller, notice),
        Query::OwnTenders { notice } => own_tenders::look(alloc, shelf, caller, notice),
        Query::Evaluation { notice } => evaluation::look(alloc, shelf, caller, notice),
        Query::Securities { notice } => securities::look(alloc, shelf, caller, notice),
        Query::Tenderers { after } => tenderers::look(alloc, shelf, caller, after),
        Query::Contract { contract } => contract::look(alloc, shelf, caller, contract),
        Query::Releases { notice } => packages::look_at_releases(
            alloc, shelf, publisher, caller, notice,
        ),
        Query::Record { notice } => packages::look_at_record(
            alloc, shelf, publisher, caller, notice,
        ),
    }
}
