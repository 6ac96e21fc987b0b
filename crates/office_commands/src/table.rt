//! The table of commands and queries. A row has the right, the pattern of the path, and the parameters in the path.
ghost use Rattle.std.specs.Prelude.{◌≡◌};
ghost use Rattle.office_commands.specs.Table.{command_row, query_row};

use crate::command::{CommandKind, QueryKind};

/// The callers that may send a request.
#[derive(Clone, Copy, Debug, PartialEq, Eq)]
pub enum Right {
    Anybody,
    Clerk,
    Tenderers,
    ClerkAndTenderers,
}

/// The parameters that a path has, and the segments in which they are.
#[derive(Clone, Copy)]
pub enum Shape {
    /// No parameters.
    Plain,
    /// An identifier in segment 2.
    OneId,
    /// Identifiers in segments 2 and 4.
    TwoIds,
    /// A number in segment 2.
    Number,
}

/// A row of the table: right, pattern of the path and parameters.
#[derive(Clone, Copy)]
pub struct RouteRow {
    pub right: Right,
    /// The pattern in the syntax of `matchit`: a parameter is a name in braces.
    pub pattern: &'static str,
    pub shape: Shape,
}

fn row(right: Right, pattern: &'static str, shape: Shape) -> RouteRow
    ensures right { result.right ≡ right }
    ensures pattern { result.pattern.now ≡ pattern.now }
    ensures shape { result.shape ≡ shape }
{
    RouteRow {
        right,
        pattern,
        shape,
    }
}

/// All kinds of commands, in the order of their routes.
pub const COMMANDS: [CommandKind; 16] = [
    CommandKind::Import,
    CommandKind::Register,
    CommandKind::Publish,
    CommandKind::AmendNotice,
    CommandKind::Cancel,
    CommandKind::Open,
    CommandKind::Present,
    CommandKind::Modify,
    CommandKind::Withdraw,
    CommandKind::Examine,
    CommandKind::Award,
    CommandKind::Fail,
    CommandKind::Sign,
    CommandKind::AmendContract,
    CommandKind::Pay,
    CommandKind::End,
];

/// All kinds of queries, in the order of their routes.
pub const QUERIES: [QueryKind; 16] = [
    QueryKind::Line,
    QueryKind::Ledger,
    QueryKind::Minutes,
    QueryKind::Register,
    QueryKind::Releases,
    QueryKind::Record,
    QueryKind::Tender,
    QueryKind::Security,
    QueryKind::Performance,
    QueryKind::Notices,
    QueryKind::Terms,
    QueryKind::OwnTenders,
    QueryKind::Evaluation,
    QueryKind::Securities,
    QueryKind::Tenderers,
    QueryKind::Contract,
];

/// The row of a kind of command.
pub fn command_row(kind: CommandKind) -> RouteRow
    ensures right { result.right ≡ (command_row kind).right }
    ensures pattern { result.pattern.now ≡ (command_row kind).pattern }
    ensures shape { result.shape ≡ (command_row kind).shape }
{
    use Right::{Clerk, Tenderers};
    use Shape::{Number, OneId, TwoIds};
    match kind {
        CommandKind::Import => row(Clerk, "/budget/{batch}", OneId),
        CommandKind::Register => row(Clerk, "/tenderers/{id}", OneId),
        CommandKind::Publish => row(Clerk, "/notices/{n}", OneId),
        CommandKind::AmendNotice => row(Clerk, "/notices/{n}/amend", OneId),
        CommandKind::Cancel => row(Clerk, "/notices/{n}/cancel", OneId),
        CommandKind::Open => row(Clerk, "/notices/{n}/open", OneId),
        CommandKind::Present => row(Tenderers, "/notices/{n}/lots/{l}/tenders", TwoIds),
        CommandKind::Modify => row(Tenderers, "/tenders/{r}/modify", Number),
        CommandKind::Withdraw => row(Tenderers, "/tenders/{r}/withdraw", Number),
        CommandKind::Examine => row(Clerk, "/tenders/{r}/examine", Number),
        CommandKind::Award => row(Clerk, "/notices/{n}/lots/{l}/award", TwoIds),
        CommandKind::Fail => row(Clerk, "/awards/{a}/fail", Number),
        CommandKind::Sign => row(Clerk, "/awards/{a}/sign", Number),
        CommandKind::AmendContract => row(Clerk, "/contracts/{c}/amend", Number),
        CommandKind::Pay => row(Clerk, "/contracts/{c}/pay", Number),
        CommandKind::End => row(Clerk, "/contracts/{c}/end", Number),
    }
}

/// The row of a kind of query.
pub fn query_row(kind: QueryKind) -> RouteRow
    ensures right { result.right ≡ (query_row kind).right }
    ensures pattern { result.pattern.now ≡ (query_row kind).pattern }
    ensures shape { result.shape ≡ (query_row kind).shape }
{
    use Right::{Anybody, Clerk, ClerkAndTenderers, Tenderers};
    use Shape::{Number, OneId, Plain};
    match kind {
        QueryKind::Line => row(Anybody, "/lines/{b}", OneId),
        QueryKind::Ledger => row(Anybody, "/ledger", Plain),
        QueryKind::Minutes => row(Anybody, "/notices/{n}/minutes", OneId),
        QueryKind::Register => row(Clerk, "/notices/{n}/register", OneId),
        QueryKind::Releases => row(Anybody, "/notices/{n}/releases", OneId),
        QueryKind::Record => row(Anybody, "/notices/{n}/record", OneId),
        QueryKind::Tender => row(Tenderers, "/tenders/{r}", Number),
        QueryKind::Security => row(ClerkAndTenderers, "/securities/{s}", Number),
        QueryKind::Performance => row(ClerkAndTenderers, "/contracts/{c}/security", Number),
        QueryKind::Notices => row(Anybody, "/notices", Plain),
        QueryKind::Terms => row(Anybody, "/notices/{n}/terms", OneId),
        QueryKind::OwnTenders => row(Tenderers, "/notices/{n}/tenders", OneId),
        QueryKind::Evaluation => row(Anybody, "/notices/{n}/evaluation", OneId),
        QueryKind::Securities => row(Clerk, "/notices/{n}/securities", OneId),
        QueryKind::Tenderers => row(Clerk, "/tenderers", Plain),
        QueryKind::Contract => row(ClerkAndTenderers, "/contracts/{c}", Number),
    }
}
