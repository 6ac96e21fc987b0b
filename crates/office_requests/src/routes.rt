//! The table of routes.
ghost use Rattle.std.specs.Prelude.{◌≡◌, [], IfOk, map, Some, option_and_then};
ghost use Rattle.matchit.specs.Route.{parse_route};
ghost use Rattle.office_requests.specs.Routing.{route_table, command_route, query_route, inserted, with_pattern, asked_at, id_in, number_in_path, place_at, route_with, route_at, routed};

use crate::forms::{FromText, number_between};
use crate::path::{before, segment};
use crate::route::Endpoint::{Commands, Queries};
use crate::route::{Allow, Endpoint, Place, Route};
use matchit::Router;
use office_commands::command::{CommandKind, QueryKind};
use office_commands::table::Shape::{Number, OneId, Plain, TwoIds};
use office_commands::table::{COMMANDS, QUERIES, RouteRow, Shape, command_row, query_row};
use office_values::given::AskedNumber;
use office_values::id::Id;
use office_values::number::read_number;
use office_values::refusal::Refusal;
use office_wire::request::Request;
use std::alloc::{AllocError, Global};

/// The routes of the office, made once and asked for each request.
#[derive(Drop)]
pub struct Routes {
    router: Router<(Endpoint, Shape)>,
    ghost built: { router ≡ inserted route_table [] },
}

// Adds the kind of command or query at a pattern to a router.
fn with_row(
    router: Router<(Endpoint, Shape)>,
    row: RouteRow,
    endpoint: Endpoint,
) -> Result<Router<(Endpoint, Shape)>, AllocError>
    ensures { IfOk result (λ made. made ≡ with_pattern (parse_route row.pattern.now) (endpoint, row.shape) router) }
{
    let mut router = router;
    if router.insert(row.pattern, (endpoint, row.shape)).is_err() {
        return Err(AllocError);
    }
    Ok(router)
}

// Adds the patterns of these commands to a router.
fn with_commands(
    router: Router<(Endpoint, Shape)>,
    kinds: &[CommandKind],
) -> Result<Router<(Endpoint, Shape)>, AllocError>
    ensures { IfOk result (λ made. made ≡ inserted (map command_route kinds.now) router) }
{
    let mut router = router;
    'kinds: for kind in kinds {
        router = with_row(router, command_row(*kind), Commands(*kind))?;
    }
    Ok(router)
}

// Adds the patterns of these queries to a router.
fn with_queries(
    router: Router<(Endpoint, Shape)>,
    kinds: &[QueryKind],
) -> Result<Router<(Endpoint, Shape)>, AllocError>
    ensures { IfOk result (λ made. made ≡ inserted (map query_route kinds.now) router) }
{
    let mut router = router;
    'kinds: for kind in kinds {
        router = with_row(router, query_row(*kind), Queries(*kind))?;
    }
    Ok(router)
}

// The identifier in a segment of a path.
fn id_in(path: &[u8], number: usize) -> Option<Id>
    ensures { result ≡ id_in number path.now }
{
    Id::from_text(segment(path, number))
}

// The number in a segment of a path. It has no leading zeros.
fn number_in_path(path: &[u8], number: usize) -> Option<AskedNumber>
    ensures { result ≡ number_in_path number path.now }
{
    let text = segment(path, number);
    if text.is_empty() || text[0] == b'0' {
        return None;
    }
    number_between(read_number(text)?)
}

// The parameters of a path, by the shape of its pattern.
fn place_at(path: &[u8], shape: Shape) -> Option<Place>
    ensures { result ≡ place_at shape path.now }
{
    match shape {
        Plain => Some(Place::Nowhere),
        OneId => id_in(path, 2).map(Place::Named),
        TwoIds => {
            let first = id_in(path, 2)?;
            let second = id_in(path, 4)?;
            Some(Place::Within(first, second))
        }
        Number => number_in_path(path, 2).map(Place::Numbered),
    }
}

impl Routes {
    /// Makes the table of routes.
    pub fn new(alloc: Global) -> Result<Routes, AllocError> {
        let router = with_commands(Router::new(alloc), &COMMANDS)?;
        let router = with_queries(router, &QUERIES)?;
        Ok(Routes { router })
    }

    // The kind of command or query at a path, and the parameters that its pattern has.
    fn asked_at(&self, path: &str) -> Option<(Endpoint, Shape)>
        ensures { result ≡ asked_at path.now }
    {
        match self.router.at(path) {
            Ok(found) => Some(*found.value),
            Err(_) => None,
        }
    }

    // The route of a path that is text; None if a parameter has a wrong form.
    fn route_in(&self, path: &str) -> Option<Route>
        ensures { result ≡ option_and_then (route_with path.now) (asked_at path.now) }
    {
        let (endpoint, shape) = self.asked_at(path)?;
        let place = place_at(path.as_bytes(), shape)?;
        Some(Route { endpoint, place })
    }

    // The route of a path; None if the path isn't UTF-8, isn't in the table, or has a parameter in a wrong form.
    fn route_at(&self, path: &[u8]) -> Option<Route>
        ensures { result ≡ route_at path.now }
    {
        match str::from_utf8(path) {
            Ok(text) => self.route_in(text),
            Err(_) => None,
        }
    }

    /// The route of a request, by its method and the path of its target. `NoRoute` if the table doesn't have the path, or if a parameter in it has a wrong
    /// form. `WrongMethod` with the right method, if the path has another one. Takes no memory.
    pub fn route_of(&self, request: &Request) -> Result<Route, (Refusal, Option<Allow>)>
        ensures { result ≡ routed request.now.head.method request.now.head.target }
    {
        let Some(route) = self.route_at(before(request.target(), b'?')) else {
            return Err((Refusal::NoRoute, None));
        };
        let method = route.endpoint.method();
        if request.method() == method.name().as_bytes() {
            Ok(route)
        } else {
            Err((Refusal::WrongMethod, Some(method)))
        }
    }
}
