//! All queries of an office: the requests that only read.
ghost use Rattle.std.specs.Prelude.{◌≡◌};
ghost use Rattle.office_commands.specs.Queries.{query_kind_of};

use crate::command::QueryKind;
use office_values::given::AskedNumber;
use office_values::id::Id;

/// A query with its parameters.
#[derive(Clone, Copy)]
pub enum Query {
    /// The balances of a budget line.
    Line { line: Id },
    /// The balances of all budget lines.
    Ledger,
    /// The minutes of the opening of a notice's tenders.
    Minutes { notice: Id },
    /// The register of the tenders that came for a notice, for the clerk.
    Register { notice: Id },
    /// The releases of a notice, as an OCDS package.
    Releases { notice: Id },
    /// The record of a notice, which has its compiled release, as an OCDS package.
    Record { notice: Id },
    /// A tender, for its tenderer.
    Tender { receipt: AskedNumber },
    /// A tender security, for its tenderer and the clerk.
    Security { security: AskedNumber },
    /// The performance security of a contract, for its tenderer and the clerk.
    Performance { contract: AskedNumber },
    /// A page of the notices, in the order of their identifiers: those after `after`, or the first page.
    Notices { after: Option<Id> },
    /// The terms and the lots of a notice.
    Terms { notice: Id },
    /// The caller's own tenders for a notice.
    OwnTenders { notice: Id },
    /// The evaluation of a notice: its opened tenders with prices, examinations and points, and its awards.
    Evaluation { notice: Id },
    /// The tender securities of a notice, for the clerk.
    Securities { notice: Id },
    /// A page of the tenderers, in the order of their identifiers: those after `after`, or the first page. For the clerk.
    Tenderers { after: Option<Id> },
    /// A contract, for its tenderer and the clerk.
    Contract { contract: AskedNumber },
}

impl Query {
    /// The kind of the query.
    pub fn kind(&self) -> QueryKind
        ensures { result ≡ query_kind_of self.now }
    {
        match self {
            Query::Line { .. } => QueryKind::Line,
            Query::Ledger => QueryKind::Ledger,
            Query::Minutes { .. } => QueryKind::Minutes,
            Query::Register { .. } => QueryKind::Register,
            Query::Releases { .. } => QueryKind::Releases,
            Query::Record { .. } => QueryKind::Record,
            Query::Tender { .. } => QueryKind::Tender,
            Query::Security { .. } => QueryKind::Security,
            Query::Performance { .. } => QueryKind::Performance,
            Query::Notices { .. } => QueryKind::Notices,
            Query::Terms { .. } => QueryKind::Terms,
            Query::OwnTenders { .. } => QueryKind::OwnTenders,
            Query::Evaluation { .. } => QueryKind::Evaluation,
            Query::Securities { .. } => QueryKind::Securities,
            Query::Tenderers { .. } => QueryKind::Tenderers,
            Query::Contract { .. } => QueryKind::Contract,
        }
    }
}
