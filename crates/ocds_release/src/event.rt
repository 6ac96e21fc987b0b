//! Events of a notice, with the data that their releases need. Contracts see an event as plain values, without references.
ghost use Rattle.std.specs.Prelude.{◌≡◌};
ghost use Rattle.ocds_release.specs.Inside.Notices.{notice_of_event};

use crate::borrowed::{BorrowedLine, Listed, PublishedLots, Tenderers};
use crate::tender_status::TenderStatus;
use office_commands::amounts::EntryAmount;
use office_commands::contract::ChangeKind;
use office_commands::notice::Criteria;
use office_values::given::GivenNumber;
use office_values::id::Id;
use office_values::moment::Moment;
use office_values::money::{Amount, Total};

/// A person or body, by identifier and name.
#[derive(Drop)]
pub struct Party<'a> {
    pub id: Id,
    pub name: BorrowedLine<'a>,
}

/// A notice was published, with lots in any order.
#[derive(Drop)]
pub struct Published<'a> {
    pub notice: Id,
    pub title: BorrowedLine<'a>,
    pub deadline: Moment,
    pub criteria: Criteria,
    pub lots: PublishedLots<'a>,
}

/// The deadline of a notice was moved.
#[derive(Drop)]
pub struct NoticeAmended<'a> {
    pub notice: Id,
    pub before: Moment,
    pub after: Moment,
    pub rationale: BorrowedLine<'a>,
}

/// The tenders of a notice were opened. The tenderers come each once, in the order of their identifiers.
#[derive(Drop)]
pub struct Opened<'a> {
    pub notice: Id,
    pub tenderers: Tenderers<'a>,
}

/// A lot was awarded.
#[derive(Drop)]
pub struct Awarded<'a> {
    pub notice: Id,
    pub award: GivenNumber,
    pub lot: Id,
    pub winner: Party<'a>,
    pub price: Amount,
}

/// A lot has no admissible tender. `status` is that of the tender after this.
#[derive(Drop)]
pub struct NotAwarded {
    pub notice: Id,
    pub lot: Id,
    pub status: TenderStatus,
}

/// A winner failed to sign.
#[derive(Drop)]
pub struct AwardFailed {
    pub notice: Id,
    pub award: GivenNumber,
}

/// All open lots of a notice were cancelled: these lots, and these awards, which were active. `status` is that of the tender after this.
#[derive(Drop)]
pub struct NoticeCancelled<'a> {
    pub notice: Id,
    pub lots: Listed<'a, Id>,
    pub awards: Listed<'a, GivenNumber>,
    pub rationale: BorrowedLine<'a>,
    pub status: TenderStatus,
}

/// A contract was signed, which has the number of its award. `status` is that of the tender after this.
#[derive(Drop)]
pub struct Signed {
    pub notice: Id,
    pub contract: GivenNumber,
    pub lot: Id,
    pub price: Amount,
    pub status: TenderStatus,
}

/// A contract was raised or cut by an amount; `value` is its value after this.
#[derive(Drop)]
pub struct ContractAmended<'a> {
    pub notice: Id,
    pub contract: GivenNumber,
    pub entry: Id,
    pub kind: ChangeKind,
    pub amount: EntryAmount,
    pub value: Total,
    pub rationale: BorrowedLine<'a>,
}

/// Something was paid under a contract.
#[derive(Drop)]
pub struct Paid<'a> {
    pub notice: Id,
    pub contract: GivenNumber,
    pub entry: Id,
    pub amount: EntryAmount,
    pub payee: Party<'a>,
}

/// A contract ended.
#[derive(Drop)]
pub struct ContractEnded {
    pub notice: Id,
    pub contract: GivenNumber,
}

/// An event of a notice. Each event has a release of its own.
#[derive(Drop)]
pub enum Event<'a> {
    Publish(Published<'a>),
    Amend(NoticeAmended<'a>),
    Open(Opened<'a>),
    Award(Awarded<'a>),
    NoAward(NotAwarded),
    Fail(AwardFailed),
    Cancel(NoticeCancelled<'a>),
    Sign(Signed),
    AmendContract(ContractAmended<'a>),
    Pay(Paid<'a>),
    End(ContractEnded),
}

impl Event<'_> {
    /// The notice of the event.
    pub fn notice(&self) -> Id
        ensures { result ≡ notice_of_event self.now }
    {
        match self {
            Event::Publish(e) => e.notice,
            Event::Amend(e) => e.notice,
            Event::Open(e) => e.notice,
            Event::Award(e) => e.notice,
            Event::NoAward(e) => e.notice,
            Event::Fail(e) => e.notice,
            Event::Cancel(e) => e.notice,
            Event::Sign(e) => e.notice,
            Event::AmendContract(e) => e.notice,
            Event::Pay(e) => e.notice,
            Event::End(e) => e.notice,
        }
    }
}
