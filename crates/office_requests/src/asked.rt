//! The command or query that a request asks for.
ghost use Rattle.std.specs.Prelude.{◌≡◌, ◌≤◌, ◌⊎◌, ℕ, true, false, List, length, Err, IfOk};
ghost use Rattle.office_values.specs.declared.refusal.Refusal.TheVariants.{Forbidden, Unavailable};
ghost use Rattle.office_commands.specs.Commands.{kind_of};
ghost use Rattle.office_commands.specs.Queries as queries;
ghost use Rattle.office_requests.specs.declared.route.Endpoint.TheVariants.{Commands, Queries};
ghost use Rattle.office_requests.specs.Inside.Answers.{ReadsAs};
ghost use Rattle.office_requests.specs.Asking.{CanBeAsked, WhatIsAskedCanBeGiven, asked_by_route, asked_by, command_at, endpoint_of, is_read_at_once, may_ask, query_at};

use crate::bodies::{
    cancellation, contract_amendment, ending, examination, import_of, notice_amendment,
    object_in_body, payment, performance_of, registration, sealed,
};
use crate::parameters::{after, security};
use crate::path::behind;
use crate::publication::publication;
use crate::route::{Endpoint, Place, Route};
use office_commands::command::{Caller, CommandKind, QueryKind, may, may_look};
use office_commands::commands::Command;
use office_commands::queries::Query;
use office_values::given::AskedNumber;
use office_values::id::Id;
use office_values::refusal::Refusal;
use office_wire::request::Request;
use std::alloc::Global;

/// A request asks for a command or for a query. Sealed bytes are a slice of the request's body.
#[derive(Drop)]
pub enum Asked<'a> {
    /// The request gives a command.
    Does(Command<'a>),
    /// The request asks a query.
    Looks(Query),
}

// Whether the caller has the right to ask this.
fn may_ask(caller: &Caller, endpoint: Endpoint) -> bool
    ensures { result ≡ may_ask caller.now endpoint }
{
    match endpoint {
        Endpoint::Commands(kind) => may(caller, kind),
        Endpoint::Queries(kind) => may_look(caller, kind),
    }
}

// The command of a route, with this query string and this body.
#[tactic(auto, using(crate::proofs::Begun::not_begun), unfolding(crate::specs::Asking::command_at))]
fn command_at<'a>(
    alloc: Global,
    kind: CommandKind,
    place: Place,
    query: &[u8],
    body: &'a [u8],
) -> Result<Command<'a>, Refusal>
    requires { length body.now ≤ 65536 }
    ensures read { ReadsAs result (command_at kind place query.now body.now) }
    ensures at_once { is_read_at_once (Commands kind) body.now ≡ true → result ≡ command_at kind place query.now body.now }
    ensures kind { IfOk result (λ command. kind_of command ≡ kind) }
{
    match (kind, place) {
        (CommandKind::Import, Place::Named(batch)) => import_of(alloc, batch, body),
        (CommandKind::Register, Place::Named(tenderer)) => registration(
            alloc,
            tenderer,
            &object_in_body(alloc, body)?,
        ),
        (CommandKind::Publish, Place::Named(notice)) => publication(
            alloc,
            notice,
            &object_in_body(alloc, body)?,
        ),
        (CommandKind::AmendNotice, Place::Named(notice)) => notice_amendment(
            alloc,
            notice,
            &object_in_body(alloc, body)?,
        ),
        (CommandKind::Cancel, Place::Named(notice)) => cancellation(
            alloc,
            notice,
            &object_in_body(alloc, body)?,
        ),
        (CommandKind::Open, Place::Named(notice)) => Ok(Command::Open { notice }),
        (CommandKind::Present, Place::Within(notice, lot)) => Ok(Command::Present {
            notice,
            lot,
            security: security(alloc, query)?,
            sealed: sealed(body)?,
        }),
        (CommandKind::Modify, Place::Numbered(receipt)) => Ok(Command::Modify {
            receipt,
            sealed: sealed(body)?,
        }),
        (CommandKind::Withdraw, Place::Numbered(receipt)) => Ok(Command::Withdraw { receipt }),
        (CommandKind::Examine, Place::Numbered(receipt)) => examination(
            receipt,
            &object_in_body(alloc, body)?,
        ),
        (CommandKind::Award, Place::Within(notice, lot)) => Ok(Command::Award { notice, lot }),
        (CommandKind::Fail, Place::Numbered(award)) => Ok(Command::Fail { award }),
        (CommandKind::Sign, Place::Numbered(award)) => Ok(Command::Sign {
            award,
            security: performance_of(alloc, body)?,
        }),
        (CommandKind::AmendContract, Place::Numbered(contract)) => contract_amendment(
            alloc,
            contract,
            &object_in_body(alloc, body)?,
        ),
        (CommandKind::Pay, Place::Numbered(contract)) => payment(
            contract,
            &object_in_body(alloc, body)?,
        ),
        (CommandKind::End, Place::Numbered(contract)) => ending(
            contract,
            &object_in_body(alloc, body)?,
        ),
        _ => Err(Refusal::NoRoute),
    }
}

// The query of a route, with this query string.
#[tactic(auto, unfolding(crate::specs::Asking::query_at))]
fn query_at(alloc: Global, kind: QueryKind, place: Place, query: &[u8]) -> Result<Query, Refusal>
    ensures read { ReadsAs result (query_at kind place query.now) }
    ensures at_once { (body : List ℕ) → is_read_at_once (Queries kind) body ≡ true → result ≡ query_at kind place query.now }
    ensures kind { IfOk result (λ look. queries.query_kind_of look ≡ kind) }
{
    match (kind, place) {
        (QueryKind::Line, Place::Named(line)) => Ok(Query::Line { line }),
        (QueryKind::Ledger, Place::Nowhere) => Ok(Query::Ledger),
        (QueryKind::Minutes, Place::Named(notice)) => Ok(Query::Minutes { notice }),
        (QueryKind::Register, Place::Named(notice)) => Ok(Query::Register { notice }),
        (QueryKind::Releases, Place::Named(notice)) => Ok(Query::Releases { notice }),
        (QueryKind::Record, Place::Named(notice)) => Ok(Query::Record { notice }),
        (QueryKind::Tender, Place::Numbered(receipt)) => Ok(Query::Tender { receipt }),
        (QueryKind::Security, Place::Numbered(security)) => Ok(Query::Security { security }),
        (QueryKind::Performance, Place::Numbered(contract)) => Ok(Query::Performance { contract }),
        (QueryKind::Notices, Place::Nowhere) => Ok(Query::Notices {
            after: after(alloc, query)?,
        }),
        (QueryKind::Terms, Place::Named(notice)) => Ok(Query::Terms { notice }),
        (QueryKind::OwnTenders, Place::Named(notice)) => Ok(Query::OwnTenders { notice }),
        (QueryKind::Evaluation, Place::Named(notice)) => Ok(Query::Evaluation { notice }),
        (QueryKind::Securities, Place::Named(notice)) => Ok(Query::Securities { notice }),
        (QueryKind::Tenderers, Place::Nowhere) => Ok(Query::Tenderers {
            after: after(alloc, query)?,
        }),
        (QueryKind::Contract, Place::Numbered(contract)) => Ok(Query::Contract { contract }),
        _ => Err(Refusal::NoRoute),
    }
}

// The command or query of a route, with this query string and this body.
#[tactic(auto, unfolding(crate::specs::Asking::asked_by))]
fn asked_by<'a>(
    alloc: Global,
    route: &Route,
    query: &[u8],
    body: &'a [u8],
) -> Result<Asked<'a>, Refusal>
    requires { length body.now ≤ 65536 }
    ensures read { ReadsAs result (asked_by route.now.endpoint route.now.place query.now body.now) }
    ensures at_once { is_read_at_once route.now.endpoint body.now ≡ true → result ≡ asked_by route.now.endpoint route.now.place query.now body.now }
    ensures kind { IfOk result (λ asked. endpoint_of asked ≡ route.now.endpoint) }
{
    match route.endpoint {
        Endpoint::Commands(kind) => {
            Ok(Asked::Does(command_at(alloc, kind, route.place, query, body)?))
        }
        Endpoint::Queries(kind) => { Ok(Asked::Looks(query_at(alloc, kind, route.place, query)?)) }
    }
}

/// The command or query that the caller asks for, by a request and its route. `Forbidden` if the caller may not ask for it, without taking memory. `BadBody` if
/// the query string or the body is wrong.
/// `Unavailable` if memory is too small. No memory is taken if the route alone says what is asked, for a modification, and for a body that must be an object and
/// doesn't begin as one (`is_read_at_once`). The route must be that of the request.
#[tactic(auto, using(crate::proofs::FieldSteps::read_or_wanting, crate::proofs::AskedCommands::read_is))]
pub fn command_of<'a>(
    alloc: Global,
    caller: &Caller,
    route: &Route,
    request: &'a Request,
) -> Result<Asked<'a>, Refusal>
    ensures asked { (result ≡ asked_by_route caller.now route.now request.now) ⊎ (result ≡ Err Unavailable) }
    ensures at_once { is_read_at_once route.now.endpoint request.now.body ≡ true → result ≡ asked_by_route caller.now route.now request.now }
    ensures kind { IfOk result (λ asked. endpoint_of asked ≡ route.now.endpoint) }
    ensures given { IfOk result CanBeAsked }
    ensures forbidden { may_ask caller.now route.now.endpoint ≡ false → result ≡ Err Forbidden }
{
    if !may_ask(caller, route.endpoint) {
        return Err(Refusal::Forbidden);
    }
    asked_by(alloc, route, behind(request.target(), b'?'), request.body())
}

/// The law: a command that a request asks for can be given.
#[tactic(auto, using(crate::proofs::AskedCommands::asked_is))]
pub fn can_be_given()
    ensures { WhatIsAskedCanBeGiven }
{}
