//! Turns a request into a command or a query, and the office's reply into the bytes of a response.
#![tactic(auto)]

pub mod answering;
pub mod credentials;
pub mod laws;
pub mod office;
pub mod refusing;
pub mod reply;
pub mod response;

pub use office_requests::asked::{Asked, command_of};
pub use office_requests::route::{Allow, Route};
pub use office_requests::routes::Routes;
pub use office_wire::request::read_request;
