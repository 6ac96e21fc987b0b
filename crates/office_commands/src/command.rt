//! The callers of an office, the kinds of commands and queries, and which caller may send which.
ghost use Rattle.std.specs.Prelude.{◌≡◌};
ghost use Rattle.office_commands.specs.Rights.{has_right, may, may_look};

use crate::table::{Right, command_row, query_row};
use office_values::id::Id;

/// The person or program that sends a request: the public, the clerk, or a registered tenderer.
#[derive(Clone, Copy)]
pub enum Caller {
    Public,
    Clerk,
    Tenderer(Id),
}

/// The kinds of commands, one for each route that can change the office.
#[derive(Clone, Copy, Debug, PartialEq, Eq)]
pub enum CommandKind {
    Import,
    Register,
    Publish,
    AmendNotice,
    Cancel,
    Open,
    Present,
    Modify,
    Withdraw,
    Examine,
    Award,
    Fail,
    Sign,
    AmendContract,
    Pay,
    End,
}

/// The kinds of queries, one for each route that only reads.
#[derive(Clone, Copy, Debug, PartialEq, Eq)]
pub enum QueryKind {
    Line,
    Ledger,
    Minutes,
    Register,
    Releases,
    Record,
    Tender,
    Security,
    Performance,
    Notices,
    Terms,
    OwnTenders,
    Evaluation,
    Securities,
    Tenderers,
    Contract,
}

// Whether a right includes this caller.
fn has_right(caller: &Caller, right: Right) -> bool
    ensures { result ≡ has_right right caller.now }
{
    match right {
        Right::Anybody => true,
        Right::Clerk => matches!(caller, Caller::Clerk),
        Right::Tenderers => matches!(caller, Caller::Tenderer(_)),
        Right::ClerkAndTenderers => !matches!(caller, Caller::Public),
    }
}

/// Whether the caller may send a command of this kind. For a tender that the command names, the office tests later whose it is.
pub fn may(caller: &Caller, kind: CommandKind) -> bool
    ensures { result ≡ may caller.now kind }
{
    has_right(caller, command_row(kind).right)
}

/// Whether the caller may ask a query of this kind. For a tender, a security or a contract, the office tests later whose it is.
pub fn may_look(caller: &Caller, kind: QueryKind) -> bool
    ensures { result ≡ may_look caller.now kind }
{
    has_right(caller, query_row(kind).right)
}
