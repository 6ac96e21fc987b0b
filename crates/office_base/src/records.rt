//! The records of an office: one type for each table.
use crate::counts::{AmendmentCount, ReleaseCount, RowCount, Sequence, TenderLength};
use crate::json_text::JsonText;
use crate::reading::Reading;
use office_commands::amounts::{EntryAmount, Estimate, SecurityAmount};
use office_commands::contract::How;
use office_commands::item::Items;
use office_commands::notice::{Standstill, Validity, Weight};
use office_commands::sealed::SealedBytes;
use office_commands::tender::Quality;
use office_values::given::{GivenNumber, LastNumber};
use office_values::id::Id;
use office_values::moment::Moment;
use office_values::money::{Amount, Total};
use office_values::text::TextLine;

/// A budget line: its appropriation, and the part of it that is free.
#[derive(Clone, Drop)]
pub struct LineRow {
    pub line: Id,
    pub title: TextLine,
    pub appropriation: Total,
    pub free: Total,
}

/// A budget file that was accepted: its moment, and its number of rows.
#[derive(Clone, Drop)]
pub struct BatchRow {
    pub batch: Id,
    pub moment: Moment,
    pub rows: RowCount,
}

/// A registered tenderer, with the SHA-256 of the tenderer's key.
#[derive(Clone, Drop)]
pub struct TendererRow {
    pub tenderer: Id,
    pub name: TextLine,
    pub address: TextLine,
    pub key: [u8; 32],
}

/// The state of a notice.
#[derive(Clone, Copy, Debug, PartialEq, Eq)]
pub enum NoticeState {
    Receiving,
    Opened,
    Cancelled,
}

/// A notice with its terms. `weight` is the points that the price can give, and 0 if the price alone decides. `performance` is the least performance security
/// of each contract, and 0 if none is required.
#[derive(Clone, Drop)]
pub struct NoticeRow {
    pub notice: Id,
    pub title: TextLine,
    pub published: Moment,
    pub deadline: Moment,
    pub validity: Validity,
    pub standstill: Standstill,
    pub weight: Weight,
    pub performance: Amount,
    pub state: NoticeState,
    pub opened: Option<Moment>,
    pub amendments: AmendmentCount,
    pub releases: ReleaseCount,
}

/// The state of a lot.
#[derive(Clone, Copy, Debug, PartialEq, Eq)]
pub enum LotState {
    Undecided,
    Awarded,
    Contracted,
    Unsuccessful,
    Cancelled,
}

/// A lot of a notice: its budget line, the least security of a tender (0: none is required), and the amount that it has reserved on the line.
#[derive(Clone, Drop)]
pub struct LotRow {
    pub notice: Id,
    pub lot: Id,
    pub title: TextLine,
    pub line: Id,
    pub estimate: Estimate,
    pub security: Amount,
    pub items: Items,
    pub state: LotState,
    pub reserved: Amount,
}

/// The state of a tender: sealed, withdrawn by its tenderer, returned unopened, or opened.
#[derive(Clone, Copy, Debug, PartialEq, Eq)]
pub enum EnvelopeState {
    Sealed,
    Withdrawn,
    Returned,
    Opened,
}

/// A tender that was received: the length and the SHA-256 of its bytes, its security, what its opening read, and the result of its examination. `failed` is
/// true if it can't win any more, because its tenderer failed to sign or withdrew it after the deadline.
#[derive(Clone, Drop)]
pub struct EnvelopeRow {
    pub receipt: GivenNumber,
    pub notice: Id,
    pub lot: Id,
    pub tenderer: Id,
    pub moment: Moment,
    pub length: TenderLength,
    pub digest: [u8; 32],
    pub security: Option<GivenNumber>,
    pub state: EnvelopeState,
    pub reading: Option<Reading>,
    pub responsive: Option<bool>,
    pub quality: Option<Quality>,
    pub failed: bool,
}

/// The bytes of a tender that is sealed or was opened.
#[derive(Clone, Drop)]
pub struct SealRow {
    pub receipt: GivenNumber,
    pub bytes: SealedBytes,
}

/// The state of a security.
#[derive(Clone, Copy, Debug, PartialEq, Eq)]
pub enum SecurityState {
    Held,
    Returned,
    Forfeited,
}

/// A tender security. Its number is that of the receipt with which it came.
#[derive(Clone, Drop)]
pub struct SecurityRow {
    pub security: GivenNumber,
    pub tenderer: Id,
    pub notice: Id,
    pub lot: Id,
    pub reference: Id,
    pub amount: SecurityAmount,
    pub state: SecurityState,
}

/// The state of an award.
#[derive(Clone, Copy, Debug, PartialEq, Eq)]
pub enum AwardState {
    Active,
    Failed,
    Cancelled,
    Signed,
}

/// The award of a lot to a tender, at the tender's corrected price.
#[derive(Clone, Drop)]
pub struct AwardRow {
    pub award: GivenNumber,
    pub notice: Id,
    pub lot: Id,
    pub receipt: GivenNumber,
    pub price: Amount,
    pub moment: Moment,
    pub state: AwardState,
}

/// The contract of a lot, which has the number of its award: the signed value and, if it has ended, the moment, the way and the amount that was released.
#[derive(Clone, Drop)]
pub struct ContractRow {
    pub contract: GivenNumber,
    pub notice: Id,
    pub lot: Id,
    pub tenderer: Id,
    pub signed: Total,
    pub moment: Moment,
    pub ended: Option<Moment>,
    pub how: Option<How>,
    pub released: Total,
}

/// The kind of an entry.
#[derive(Clone, Copy, Debug, PartialEq, Eq)]
pub enum EntryKind {
    Raise,
    Cut,
    Payment,
}

/// An entry of a contract: a raise, a cut or a payment.
#[derive(Clone, Drop)]
pub struct EntryRow {
    pub contract: GivenNumber,
    pub entry: Id,
    pub kind: EntryKind,
    pub amount: EntryAmount,
    pub moment: Moment,
    pub rationale: Option<TextLine>,
}

/// A release of a notice: compact JSON without floats, an object with a text `date` (OCDS 1.1, releases).
#[derive(Clone, Drop)]
pub struct ReleaseRow {
    pub notice: Id,
    pub seq: Sequence,
    pub moment: Moment,
    pub text: JsonText,
}

/// The compiled release of a notice without its head: compact JSON without floats, an object.
#[derive(Clone, Drop)]
pub struct CompiledRow {
    pub notice: Id,
    pub text: JsonText,
}

/// A row for each notice whose tenders may be withdrawn after the deadline, with the loss of their securities (Model Law, article 17).
#[derive(Clone, Drop)]
pub struct LateRow {
    pub notice: Id,
}

/// The performance security of a contract (Model Law, article 22). Its key is the contract's number.
#[derive(Clone, Drop)]
pub struct PerformanceRow {
    pub contract: GivenNumber,
    pub reference: Id,
    pub amount: SecurityAmount,
    pub state: SecurityState,
}

/// The moment of the last accepted command, and the last numbers that were given to receipts and awards.
#[derive(Clone, Copy)]
pub struct ClockRow {
    pub moment: Moment,
    pub receipts: LastNumber,
    pub awards: LastNumber,
}
