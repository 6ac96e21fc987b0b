//! Routes: the command or query that a path names.
ghost use Rattle.std.specs.Prelude.{◌≡◌};
ghost use Rattle.office_requests.specs.Routing.{method_of, method_name};

use office_commands::command::{CommandKind, QueryKind};
use office_values::given::AskedNumber;
use office_values::id::Id;

/// The kind of command or query at a path.
#[derive(Clone, Copy, Debug, PartialEq, Eq)]
pub enum Endpoint {
    Commands(CommandKind),
    Queries(QueryKind),
}

/// The one method of a path (RFC 9110, section 10.2.1).
#[derive(Clone, Copy, Debug, PartialEq, Eq)]
pub enum Allow {
    Get,
    Post,
}

/// The parameters of a path.
#[derive(Clone, Copy)]
pub enum Place {
    Nowhere,
    Named(Id),
    Within(Id, Id),
    Numbered(AskedNumber),
}

/// A route: the kind of command or query, with the parameters of its path.
#[derive(Clone, Copy)]
pub struct Route {
    pub endpoint: Endpoint,
    pub place: Place,
}

impl Endpoint {
    /// The one method of its path: `POST` for commands, `GET` for queries.
    pub fn method(self) -> Allow
        ensures { result ≡ method_of self }
    {
        match self {
            Endpoint::Commands(_) => Allow::Post,
            Endpoint::Queries(_) => Allow::Get,
        }
    }
}

impl Allow {
    /// The name of the method in a request.
    pub fn name(self) -> &'static str
        ensures { result.now ≡ method_name self }
    {
        match self {
            Allow::Get => "GET",
            Allow::Post => "POST",
        }
    }
}
