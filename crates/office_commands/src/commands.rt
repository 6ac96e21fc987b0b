//! All commands of an office: the requests that can change it.
ghost use Rattle.std.specs.Prelude.{◌≡◌};
ghost use Rattle.office_commands.specs.Commands.{kind_of};

use crate::amounts::EntryAmount;
use crate::budget::BudgetRows;
use crate::command::CommandKind;
use crate::contract::{ChangeKind, How};
use crate::notice::NewNotice;
use crate::sealed::Sealed;
use crate::tender::{NamedSecurity, Quality};
use office_values::given::AskedNumber;
use office_values::id::Id;
use office_values::moment::Moment;
use office_values::text::TextLine;

/// A command with its content. A sealed tender in it is a slice of the request.
#[derive(Drop)]
pub enum Command<'a> {
    /// Adds a budget file under the name `batch`: its rows add money to budget lines or cut free money.
    Import {
        batch: Id,
        rows: BudgetRows,
    },
    /// Registers a tenderer, with the SHA-256 of the tenderer's key.
    Register {
        tenderer: Id,
        name: TextLine,
        address: TextLine,
        key: [u8; 32],
    },
    /// Publishes a notice. Each of its lots reserves its estimate on a budget line.
    Publish {
        notice: Id,
        content: NewNotice,
    },
    /// Moves the deadline of a notice to a later moment.
    AmendNotice {
        notice: Id,
        deadline: Moment,
        rationale: TextLine,
    },
    /// Cancels all lots of a notice that have no contract yet.
    Cancel {
        notice: Id,
        rationale: TextLine,
    },
    /// Opens and reads all sealed tenders of a notice.
    Open {
        notice: Id,
    },
    /// Submits a sealed tender for a lot, with a security if the lot requires one.
    Present {
        notice: Id,
        lot: Id,
        security: Option<NamedSecurity>,
        sealed: Sealed<'a>,
    },
    /// Replaces a sealed tender by another one.
    Modify {
        receipt: AskedNumber,
        sealed: Sealed<'a>,
    },
    /// Withdraws a tender.
    Withdraw {
        receipt: AskedNumber,
    },
    /// States whether an opened tender is responsive, and its points for quality if the notice weighs quality.
    Examine {
        receipt: AskedNumber,
        responsive: bool,
        quality: Option<Quality>,
    },
    /// Awards a lot to its best admissible tender. If there is none, the lot ends unsuccessful.
    Award {
        notice: Id,
        lot: Id,
    },
    /// Passes over a winner who doesn't sign.
    Fail {
        award: AskedNumber,
    },
    /// Signs the contract of an award, with a performance security if the notice requires one.
    Sign {
        award: AskedNumber,
        security: Option<NamedSecurity>,
    },
    /// Raises or cuts the value of a contract.
    AmendContract {
        contract: AskedNumber,
        entry: Id,
        kind: ChangeKind,
        amount: EntryAmount,
        rationale: TextLine,
    },
    /// Pays an amount under a contract.
    Pay {
        contract: AskedNumber,
        entry: Id,
        amount: EntryAmount,
    },
    /// Ends a contract. Money that is still outstanding is free again.
    End {
        contract: AskedNumber,
        how: How,
    },
}

impl Command<'_> {
    /// The kind of the command.
    pub fn kind(&self) -> CommandKind
        ensures { result ≡ kind_of self.now }
    {
        match self {
            Command::Import { .. } => CommandKind::Import,
            Command::Register { .. } => CommandKind::Register,
            Command::Publish { .. } => CommandKind::Publish,
            Command::AmendNotice { .. } => CommandKind::AmendNotice,
            Command::Cancel { .. } => CommandKind::Cancel,
            Command::Open { .. } => CommandKind::Open,
            Command::Present { .. } => CommandKind::Present,
            Command::Modify { .. } => CommandKind::Modify,
            Command::Withdraw { .. } => CommandKind::Withdraw,
            Command::Examine { .. } => CommandKind::Examine,
            Command::Award { .. } => CommandKind::Award,
            Command::Fail { .. } => CommandKind::Fail,
            Command::Sign { .. } => CommandKind::Sign,
            Command::AmendContract { .. } => CommandKind::AmendContract,
            Command::Pay { .. } => CommandKind::Pay,
            Command::End { .. } => CommandKind::End,
        }
    }
}
