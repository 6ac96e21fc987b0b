//! Queries for rows to which no commands lead: a contract from which more money went out than came in, and a tender that was opened but not read. Here is also
//! the evaluation of 5,000 tenders, which is larger than any request.
use office_base::counts::TenderLength;
use office_base::puts::Put;
use office_base::reading::Reading;
use office_base::records::{
    ContractRow, EntryKind, EntryRow, EnvelopeRow, EnvelopeState, NoticeRow, NoticeState,
};
use office_base::shelf::Shelf;
use office_commands::amounts::EntryAmount;
use office_commands::command::Caller;
use office_commands::queries::Query;
use office_memory::memory::MemoryShelf;
use office_values::given::{AskedNumber, GivenNumber};
use office_values::id::Id;
use office_values::moment::Moment;
use office_values::money::Total;
use office_values::refusal::Refusal;
use std::alloc::Global;
use tests_transcripts::session::{desk_over, played};
use tests_transcripts::setup::{MONEY, NOTICE, TENDERERS};

// The answer to a query. None if memory is too small.
type Told = Option<Result<Vec<u8>, Refusal>>;

// The tenders of a large evaluation.
const TENDERS: u64 = 5000;

// A contract of this amount.
fn contract_over(signed: u64) -> Option<ContractRow> {
    Some(ContractRow {
        contract: GivenNumber::read(1)?,
        notice: Id::read(b"N1")?,
        lot: Id::read(b"L1")?,
        tenderer: Id::read(b"T1")?,
        signed: Total::read(signed)?,
        moment: Moment::EPOCH,
        ended: None,
        how: None,
        released: Total::ZERO,
    })
}

// A payment of 1 under the contract.
fn payment() -> Option<EntryRow> {
    Some(EntryRow {
        contract: GivenNumber::read(1)?,
        entry: Id::read(b"P1")?,
        kind: EntryKind::Payment,
        amount: EntryAmount::read(1)?,
        moment: Moment::EPOCH,
        rationale: None,
    })
}

// A contract of this amount, under which 1 was paid.
fn paid_contract(alloc: Global, signed: u64) -> Option<Vec<Put>> {
    let mut puts = Vec::new(alloc);
    puts.push(Put::Contract(contract_over(signed)?)).ok()?;
    puts.push(Put::Entry(payment()?)).ok()?;
    Some(puts)
}

// The clerk's answer for this contract.
fn told_of_contract<H: Shelf + Drop>(alloc: Global, shelf: H, signed: u64) -> Told {
    let contract = AskedNumber::read(1)?;
    let mut shelf = shelf;
    shelf.apply(paid_contract(alloc, signed)?).ok()?;
    let mut desk = desk_over(alloc, shelf).ok()?;
    Some(desk.look(&Caller::Clerk, Query::Contract { contract }))
}

// An opened tender with this receipt, which doesn't conform, or wasn't read.
fn opened_tender(receipt: u64, is_read: bool) -> Option<EnvelopeRow> {
    let reading = if is_read {
        Some(Reading::Nonconforming)
    } else {
        None
    };
    Some(EnvelopeRow {
        receipt: GivenNumber::read(receipt)?,
        notice: Id::read(b"N1")?,
        lot: Id::read(b"L1")?,
        tenderer: Id::read(b"T1")?,
        moment: Moment::EPOCH,
        length: TenderLength::read(3)?,
        digest: [0; 32],
        security: None,
        state: EnvelopeState::Opened,
        reading,
        responsive: None,
        quality: None,
        failed: false,
    })
}

// The notice after its opening, with this many tenders.
fn opened(alloc: Global, row: NoticeRow, count: u64, is_read: bool) -> Option<Vec<Put>> {
    let mut row = row;
    row.state = NoticeState::Opened;
    row.opened = Some(row.deadline);
    let mut puts = Vec::new(alloc);
    puts.push(Put::Notice(row)).ok()?;
    for number in 0..count {
        let tender = opened_tender(number.saturating_add(1), is_read)?;
        puts.push(Put::Envelope(tender)).ok()?;
    }
    Some(puts)
}

// The clerk's answer for the evaluation of this notice.
fn told_of_tenders<H: Shelf + Drop>(alloc: Global, shelf: H, count: u64, is_read: bool) -> Told {
    let notice = Id::read(b"N1")?;
    let mut shelf = played(alloc, shelf, 0, &[MONEY, TENDERERS, NOTICE]).ok()?;
    let row = shelf.get_notice(&notice).ok()??;
    shelf.apply(opened(alloc, row, count, is_read)?).ok()?;
    let mut desk = desk_over(alloc, shelf).ok()?;
    Some(desk.look(&Caller::Clerk, Query::Evaluation { notice }))
}

fn is_unavailable(told: Told) -> bool {
    matches!(told, Some(Err(Refusal::Unavailable)))
}

fn is_text(told: Told, wanted: &[u8]) -> bool {
    match told {
        Some(Ok(text)) => text.as_slice() == wanted,
        _ => false,
    }
}

static CONTRACT: &[u8] =
    b"{\"contract\":1,\"ended\":null,\"entries\":[{\"amount\":1,\"entry\":\"P1\",\"kind\":\"payment\",\"moment\":\"1970-01-01T00:00:00Z\",\"rationale\":null}],\"how\":null,\"lot\":\"L1\",\"moment\":\"1970-01-01T00:00:00Z\",\"notice\":\"N1\",\"outstanding\":0,\"paid\":1,\"released\":0,\"signed\":1,\"tenderer\":\"T1\"}";

// The expected evaluation of this many tenders that don't conform.
fn evaluation(alloc: Global, count: u64) -> Option<Vec<u8>> {
    let mut text = Vec::new(alloc);
    text.extend_from_slice(b"EVALUATION\tN1\nlot\tL1\tundecided\n")
        .ok()?;
    for number in 0..count {
        let number = number.saturating_add(1);
        let line = format!(in alloc; "tender\t{number}\tT1\tnonconforming\n").ok()?;
        text.extend_from_slice(line.as_bytes()).ok()?;
    }
    text.extend_from_slice(b"END\n").ok()?;
    Some(text)
}

// Whether a contract from which no more money went out than came in is shown, and another one isn't.
fn shows_contracts(alloc: Global) -> bool {
    is_text(
        told_of_contract(alloc, MemoryShelf::new(alloc), 1),
        CONTRACT,
    ) && is_unavailable(told_of_contract(alloc, MemoryShelf::new(alloc), 0))
}

// Whether the evaluation of tenders that were read is shown, and that of another tender isn't.
fn shows_evaluations(alloc: Global) -> bool {
    let Some(wanted) = evaluation(alloc, TENDERS) else {
        return false;
    };
    let read = told_of_tenders(alloc, MemoryShelf::new(alloc), TENDERS, true);
    is_text(read, &wanted)
        && is_unavailable(told_of_tenders(alloc, MemoryShelf::new(alloc), 1, false))
}

#[test]
fn looked_at_rows(rt: HostRuntime) {
    let alloc = rt.alloc();
    // Tries twice, because a test may refuse one allocation.
    assert!(rt; shows_contracts(alloc) || shows_contracts(alloc));
    assert!(rt; shows_evaluations(alloc) || shows_evaluations(alloc));
}
