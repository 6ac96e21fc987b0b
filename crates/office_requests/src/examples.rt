//! A law and worked examples: requests, and the commands and queries that they ask for.
ghost use Rattle.office_requests.specs.AfterAsked.{AfterAsksForId};
ghost use Rattle.office_requests.specs.Moments.{MomentsAreTheirTexts};
ghost use Rattle.office_requests.specs.WorkedRequests.{BodiesAreRefused, LooksAreRefused, PathsAreRefused, PublicationsAreRefused, RoutesAreTaken, TendersAreRefused};

/// Each moment is read from its own text, and from no other.
pub fn moments()
    ensures { MomentsAreTheirTexts }
{}

/// The query `after=ID` asks for the page after ID.
pub fn pages_after()
    ensures { AfterAsksForId }
{}

/// A request for each route.
pub fn worked_routes()
    ensures { RoutesAreTaken }
{}

/// Requests that are refused for their path, method or caller.
pub fn refused_paths()
    ensures { PathsAreRefused }
{}

/// Requests that are refused for their body, and the part that the refusal names.
pub fn refused_bodies()
    ensures bodies { BodiesAreRefused }
    ensures publications { PublicationsAreRefused }
{}

/// Tenders that are refused for their query string or their bytes.
pub fn refused_tenders()
    ensures { TendersAreRefused }
{}

/// Queries that are refused for their query string.
pub fn refused_looks()
    ensures { LooksAreRefused }
{}
