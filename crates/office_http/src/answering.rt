//! The answers to requests, in bytes.
ghost use Rattle.std.specs.Prelude.{◌≡◌, ◌⊎◌, None, Ok, Err, OnOk, true};
ghost use Rattle.office_values.specs.declared.refusal.Refusal.{Refusal as RefusalOf};
ghost use Rattle.office_values.specs.declared.refusal.Refusal.TheVariants.{Unavailable};
ghost use Rattle.office_base.specs.Faults.{HasRisen};
ghost use Rattle.office_base.specs.Tables.{Tables};
ghost use Rattle.office_base.specs.Shelves.{Looks};
ghost use Rattle.office_http.specs.AtSight.{TellsAtSight, is_known_at_sight};
ghost use Rattle.office_http.specs.Certain.{TellsCertain};
ghost use Rattle.office_http.specs.Credentials.{credentials_of};
ghost use Rattle.office_http.specs.Meaning.{Gives, Sees, meant, meant_asked, who};
ghost use Rattle.office_http.specs.Answering.{AnswersRequest, ChangesOnlyAccepting, IsAnswered, IsTold, RefusesBytes, ShowsOnlyWhole, fault_text};
ghost use Rattle.office_http.specs.Inside.Meant.{AnswersMeant, IsCertain};
ghost use Rattle.office_http.specs.Joined.{IsKeptAnswering, KeepsAnswering, KeepsRefusing};
ghost use Rattle.office_http.specs.Response.{response_of};
ghost use Rattle.office_http.specs.declared.reply.Reply.TheVariants.{Refused};

use crate::credentials::credentials_of;
use crate::laws;
use crate::refusing::refusal_text;
use crate::response::{accepted_response, bad_head, coding, seen_response, too_long, unavailable};
use office_base::shelf::{Lookups, Shelf};
use office_commands::command::Caller;
use office_commands::commands::Command;
use office_commands::queries::Query;
use office_desk::desk::Desk;
use office_publications::laws::keeping;
use office_requests::asked::{Asked, command_of};
use office_requests::route::Allow;
use office_requests::routes::Routes;
use office_values::moment::Moment;
use office_values::refusal::Refusal;
use office_wire::answer::Answer;
use office_wire::counted::CountedReader;
use office_wire::fault::ReadFault;
use office_wire::request::{Request, read_request};
use std::alloc::Global;

// The response to a refusal. Takes no memory.
fn refuse(refusal: Refusal, method: Option<Allow>) -> Answer
    ensures { result ≡ response_of (Refused refusal method) }
{
    Answer::short(refusal_text(refusal, method))
}

// Answers a command. The response is complete before anything changes.
fn answer_command<H: Shelf + Drop>(
    alloc: Global,
    desk: &mut Desk<H>,
    moment: Moment,
    caller: &Caller,
    command: Command<'_>,
) -> Answer
    ensures before { H.meaning.honest desk.new.shelf → H.meaning.honest desk.old.shelf }
    ensures sound { H.meaning.honest desk.new.shelf → H.meaning.leaves_sound desk.old.shelf → H.meaning.leaves_sound desk.new.shelf }
    ensures settings { desk.new.settings ≡ desk.old.settings }
    ensures answered { AnswersMeant H.meaning desk.old.settings desk.old.shelf desk.new.shelf moment (λ s. Gives caller.now command.entry) result }
    ensures changes { ChangesOnlyAccepting H.meaning desk.old.shelf desk.new.shelf (λ s. Gives caller.now command.entry) result }
    ensures told { IsTold H.meaning desk.old.settings desk.old.shelf desk.new.shelf moment (λ s. Gives caller.now command.entry) result }
    ensures certain { IsCertain H.meaning desk.old.shelf desk.new.shelf moment (λ s. Gives caller.now command.entry) result }
{
    keeping();
    let planned = match desk.plan(moment, caller, command) {
        Ok(planned) => planned,
        Err(refusal) => return refuse(refusal, None),
    };
    let (puts, text) = planned.into_parts();
    let Ok(response) = accepted_response(alloc, text) else {
        return Answer::constant(unavailable());
    };
    match desk.carry_out(puts) {
        Ok(()) => Answer::built(response),
        Err(_) => Answer::constant(unavailable()),
    }
}

// Answers a query.
fn answer_query<H: Shelf + Drop>(
    alloc: Global,
    desk: &mut Desk<H>,
    moment: Moment,
    caller: &Caller,
    query: Query,
) -> Answer
    ensures before { H.meaning.honest desk.new.shelf → H.meaning.honest desk.old.shelf }
    ensures sound { H.meaning.honest desk.new.shelf → H.meaning.leaves_sound desk.old.shelf → H.meaning.leaves_sound desk.new.shelf }
    ensures settings { desk.new.settings ≡ desk.old.settings }
    ensures answered { AnswersMeant H.meaning desk.old.settings desk.old.shelf desk.new.shelf moment (λ s. Sees caller.now query) result }
    ensures changes { ChangesOnlyAccepting H.meaning desk.old.shelf desk.new.shelf (λ s. Sees caller.now query) result }
    ensures told { IsTold H.meaning desk.old.settings desk.old.shelf desk.new.shelf moment (λ s. Sees caller.now query) result }
    ensures certain { IsCertain H.meaning desk.old.shelf desk.new.shelf moment (λ s. Sees caller.now query) result }
    ensures shown { ShowsOnlyWhole H.meaning desk.old.settings desk.old.shelf desk.new.shelf (λ s. Sees caller.now query) result }
{
    let text = match desk.look(caller, query) {
        Ok(text) => text,
        Err(refusal) => return refuse(refusal, None),
    };
    match seen_response(alloc, query.kind(), text) {
        Ok(response) => Answer::built(response),
        Err(_) => Answer::constant(unavailable()),
    }
}

// The caller of a request.
fn caller_of<H: Shelf + Drop>(desk: &mut Desk<H>, request: &Request) -> Result<Caller, Refusal>
    ensures looks { Looks H.meaning desk.old.shelf desk.new.shelf (λ s.
        (result ≡ who desk.old.settings s (credentials_of request.now.head.fields)) ⊎ (result ≡ Err Unavailable)) }
    ensures sight { is_known_at_sight (credentials_of request.now.head.fields) ≡ true → (s : Tables)
        → result ≡ who desk.old.settings s (credentials_of request.now.head.fields) }
    ensures risen { result ≡ Err Unavailable → HasRisen (H.meaning.fault_count desk.old.shelf) (H.meaning.fault_count desk.new.shelf) }
    ensures counted { OnOk result (H.meaning.fault_count desk.new.shelf ≡ H.meaning.fault_count desk.old.shelf) }
    ensures settings { desk.new.settings ≡ desk.old.settings }
{
    let credentials = credentials_of(request)?;
    desk.caller(credentials.name, credentials.key)
}

// Answers a caller's command or query, if it could be read.
fn answer_asked<H: Shelf + Drop>(
    alloc: Global,
    desk: &mut Desk<H>,
    moment: Moment,
    caller: &Caller,
    asked: Result<Asked<'_>, Refusal>,
) -> Answer
    ensures before { H.meaning.honest desk.new.shelf → H.meaning.honest desk.old.shelf }
    ensures sound { H.meaning.honest desk.new.shelf → H.meaning.leaves_sound desk.old.shelf → H.meaning.leaves_sound desk.new.shelf }
    ensures settings { desk.new.settings ≡ desk.old.settings }
    ensures answered { AnswersMeant H.meaning desk.old.settings desk.old.shelf desk.new.shelf moment (λ s. meant_asked caller.now asked.entry) result }
    ensures changes { ChangesOnlyAccepting H.meaning desk.old.shelf desk.new.shelf (λ s. meant_asked caller.now asked.entry) result }
    ensures told { IsTold H.meaning desk.old.settings desk.old.shelf desk.new.shelf moment (λ s. meant_asked caller.now asked.entry) result }
    ensures certain { IsCertain H.meaning desk.old.shelf desk.new.shelf moment (λ s. meant_asked caller.now asked.entry) result }
    ensures refused { (why : RefusalOf) → asked.entry ≡ Err why → result ≡ response_of (Refused why None) }
    ensures shown { ShowsOnlyWhole H.meaning desk.old.settings desk.old.shelf desk.new.shelf (λ s. meant_asked caller.now asked.entry) result }
{
    match asked {
        Ok(Asked::Does(command)) => answer_command(alloc, desk, moment, caller, command),
        Ok(Asked::Looks(query)) => answer_query(alloc, desk, moment, caller, query),
        Err(refusal) => refuse(refusal, None),
    }
}

// Answers a request that was read.
fn answer_read<H: Shelf + Drop>(
    alloc: Global,
    routes: &Routes,
    desk: &mut Desk<H>,
    moment: Moment,
    request: &Request,
) -> Answer
    ensures before { H.meaning.honest desk.new.shelf → H.meaning.honest desk.old.shelf }
    ensures sound { H.meaning.honest desk.new.shelf → H.meaning.leaves_sound desk.old.shelf → H.meaning.leaves_sound desk.new.shelf }
    ensures settings { desk.new.settings ≡ desk.old.settings }
    ensures answered { IsAnswered H.meaning desk.old.settings desk.old.shelf desk.new.shelf moment (meant desk.old.settings request.now) result }
    ensures changes { ChangesOnlyAccepting H.meaning desk.old.shelf desk.new.shelf (meant desk.old.settings request.now) result }
    ensures told { IsTold H.meaning desk.old.settings desk.old.shelf desk.new.shelf moment (meant desk.old.settings request.now) result }
    ensures certain { TellsCertain H.meaning desk.old.settings desk.old.shelf desk.new.shelf moment request.now result }
    ensures sight { TellsAtSight desk.old.settings request.now result }
    ensures shown { ShowsOnlyWhole H.meaning desk.old.settings desk.old.shelf desk.new.shelf (meant desk.old.settings request.now) result }
{
    let route = match routes.route_of(request) {
        Ok(route) => route,
        Err((refusal, method)) => return refuse(refusal, method),
    };
    let caller = match caller_of(desk, request) {
        Ok(caller) => caller,
        Err(refusal) => return refuse(refusal, None),
    };
    let asked = command_of(alloc, &caller, &route, request);
    answer_asked(alloc, desk, moment, &caller, asked)
}

/// Answers a request that was read. The response is complete before anything changes.
///
/// If memory is too small or the store fails, the response is the constant one to `Unavailable`, and the tables stay as they are. A stop at that moment may
/// still leave an accepted command as a whole. A reached office is a reached one afterwards. The tables change only if a command is given and the answer is a
/// 200.
///
/// A package is shown only if each release that its notice's row counts exists, and a budget line only if its balances add up. A refusal at sight doesn't depend
/// on the memory. If the path alone says what is asked and the refusal needs no memory, the response is this refusal, or the store has counted another fault.
pub fn answer_request<H: Shelf + Drop>(
    alloc: Global,
    routes: &Routes,
    desk: &mut Desk<H>,
    moment: Moment,
    request: &Request,
) -> Answer
    ensures before { H.meaning.honest desk.new.shelf → H.meaning.honest desk.old.shelf }
    ensures sound { H.meaning.honest desk.new.shelf → H.meaning.leaves_sound desk.old.shelf → H.meaning.leaves_sound desk.new.shelf }
    ensures settings { desk.new.settings ≡ desk.old.settings }
    ensures answered { IsAnswered H.meaning desk.old.settings desk.old.shelf desk.new.shelf moment (meant desk.old.settings request.now) result }
    ensures changes { ChangesOnlyAccepting H.meaning desk.old.shelf desk.new.shelf (meant desk.old.settings request.now) result }
    ensures told { IsTold H.meaning desk.old.settings desk.old.shelf desk.new.shelf moment (meant desk.old.settings request.now) result }
    ensures certain { TellsCertain H.meaning desk.old.settings desk.old.shelf desk.new.shelf moment request.now result }
    ensures sight { TellsAtSight desk.old.settings request.now result }
    ensures shown { ShowsOnlyWhole H.meaning desk.old.settings desk.old.shelf desk.new.shelf (meant desk.old.settings request.now) result }
    ensures kept { IsKeptAnswering H.meaning desk.old.settings desk.old.shelf desk.new.shelf moment (meant desk.old.settings request.now) result }
{
    laws::accounts_and_fates();
    answer_read(alloc, routes, desk, moment, request)
}

/// The response to bytes that can't be read as a request. A reader that fails gets the same response as too little memory. Takes no memory.
pub fn fault_response(fault: ReadFault) -> &'static [u8]
    ensures { result.now ≡ fault_text fault }
{
    match fault {
        ReadFault::BadHead => bad_head(),
        ReadFault::TooLong => too_long(),
        ReadFault::Coding => coding(),
        ReadFault::Unavailable | ReadFault::Read => unavailable(),
    }
}

/// Answers the request at the beginning of these bytes, and ignores the bytes after it. Bytes that hold no request are refused. If memory is too small or the
/// store fails, the answer is the constant response to `Unavailable`, and the tables stay as they are.
pub fn answer<H: Shelf + Drop>(
    alloc: Global,
    routes: &Routes,
    desk: &mut Desk<H>,
    moment: Moment,
    bytes: &[u8],
) -> Answer
    ensures before { H.meaning.honest desk.new.shelf → H.meaning.honest desk.old.shelf }
    ensures sound { H.meaning.honest desk.new.shelf → H.meaning.leaves_sound desk.old.shelf → H.meaning.leaves_sound desk.new.shelf }
    ensures settings { desk.new.settings ≡ desk.old.settings }
    ensures answered { AnswersRequest H.meaning desk.old.settings desk.old.shelf desk.new.shelf moment bytes.now result
        ⊎ RefusesBytes H.meaning desk.old.shelf desk.new.shelf bytes.now result }
    ensures kept { KeepsAnswering H.meaning desk.old.settings desk.old.shelf desk.new.shelf moment bytes.now result
        ⊎ KeepsRefusing H.meaning desk.old.settings.publisher desk.old.shelf desk.new.shelf bytes.now result }
{
    laws::accounts_and_fates();
    let mut reader = CountedReader::new(bytes);
    match read_request(alloc, &mut reader) {
        Ok(request) => answer_request(alloc, routes, desk, moment, &request),
        Err(fault) => Answer::constant(fault_response(fault)),
    }
}
