//! The answer to a request, before it is bytes.
use office_requests::route::Allow;
use office_values::refusal::Refusal;
use office_values::text::Bytes;

/// The answer to a request.
#[derive(Drop)]
pub enum Reply {
    /// A JSON text: the answer to an accepted command or to a query.
    Json(Bytes),
    /// A plain text in UTF-8: the ledger, a register, minutes or an evaluation.
    Text(Bytes),
    /// A refusal. It has a method exactly if it is `WrongMethod`: the method of the path.
    Refused(Refusal, Option<Allow>),
}
