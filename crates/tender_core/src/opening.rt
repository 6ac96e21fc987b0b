//! The decision on the opening of the tenders of a notice.
ghost use Rattle.std.specs.Prelude.{◌≡◌, ◌++◌, IfSome, IfNone, IfOk, IfErr, OnOk, Some, true, map, filter};
ghost use Rattle.office_values.specs.declared.refusal.Refusal.TheVariants.{Unavailable};
ghost use Rattle.office_base.specs.Deciding.{Decides};
ghost use Rattle.office_base.specs.Rules.{first_of};
ghost use Rattle.office_base.specs.Transitions.{has_all_releases};
ghost use Rattle.tender_core.specs.Rules.Open.{is_sealed_envelope, read_envelope, read_put, opened_notice, open_lacks, open_tests, opened_with};

use office_base::counts::ReleaseCount;
use office_base::puts::Put;
use office_base::reading::Reading;
use office_base::records::{ClockRow, EnvelopeRow, EnvelopeState, NoticeRow, NoticeState};
use office_base::rows::Rows;
use office_base::transitions::{at_moment, has_all_releases};
use office_values::moment::Moment;
use office_values::refusal::{Refusal, Thing};
use std::alloc::Global;

/// A sealed tender, with its reading.
#[derive(Drop)]
pub struct OpenedTender {
    pub envelope: EnvelopeRow,
    pub reading: Reading,
}

/// The rows that an opening reads beside the sealed tenders: the notice and the clock.
#[derive(Drop)]
pub struct OpenRows {
    pub notice: Option<NoticeRow>,
    pub clock: ClockRow,
}

/// Keeps only the sealed tenders of a notice, which are those to be opened. Late, withdrawn and returned ones are left out. It allocates no memory.
pub fn keep_sealed(envelopes: &mut Vec<EnvelopeRow>)
    ensures { envelopes.new.items ≡ filter is_sealed_envelope envelopes.old.items }
{
    envelopes.retain(|row| row.state == EnvelopeState::Sealed);
}

// The row of the tender, opened, with its reading.
fn read_envelope(tender: &OpenedTender) -> EnvelopeRow
    ensures { result ≡ read_envelope tender.now }
{
    let envelope = &tender.envelope;
    EnvelopeRow {
        receipt: envelope.receipt,
        notice: envelope.notice,
        lot: envelope.lot,
        tenderer: envelope.tenderer,
        moment: envelope.moment,
        length: envelope.length,
        digest: envelope.digest,
        security: envelope.security,
        state: EnvelopeState::Opened,
        reading: Some(tender.reading),
        responsive: envelope.responsive,
        quality: envelope.quality,
        failed: envelope.failed,
    }
}

// Appends the changes of all tenders, each opened and with its reading.
fn push_tenders(made: &mut Vec<Put>, tenders: &[OpenedTender]) -> Result<(), Refusal>
    ensures puts { OnOk result (made.new.items ≡ made.old.items ++ map read_put tenders.now) }
    ensures fault { IfErr result (λ e. e ≡ Unavailable) }
{
    for tender in tenders {
        made.push(Put::Envelope(read_envelope(tender)))?;
    }
    Ok(())
}

// The notice, opened at this moment, with one more release. None if it has as many releases as it can have.
fn opened(t: Moment, notice: NoticeRow) -> Option<NoticeRow>
    ensures found { IfSome result (λ row. row ≡ opened_notice t notice) }
    ensures none { IfNone result (has_all_releases (Some notice) ≡ true) }
{
    let releases = ReleaseCount::read(notice.releases.get() + 1)?;
    Some(NoticeRow {
        state: NoticeState::Opened,
        opened: Some(t),
        releases,
        ..notice
    })
}

/// The refusal of the opening, if one of its conditions is true.
pub fn refusal(t: Moment, rows: &OpenRows) -> Option<Refusal>
    ensures { result ≡ first_of (open_tests rows.now t) }
{
    let Some(row) = &rows.notice else {
        return Some(Refusal::NoSuch(Thing::Notice));
    };
    if row.state == NoticeState::Cancelled {
        return Some(Refusal::NotOpenForTenders);
    }
    if t.second() < row.deadline.second() {
        return Some(Refusal::TooEarlyToOpen);
    }
    if row.state == NoticeState::Opened {
        return Some(Refusal::AlreadyOpened);
    }
    if has_all_releases(&rows.notice) {
        return Some(Refusal::LimitReached);
    }
    None
}

/// The changes of the opening. The tenders must be the sealed ones of the notice, each with its reading. `Unavailable` if the notice doesn't exist, or has as
/// many releases as it can have.
pub fn puts(
    alloc: Global,
    t: Moment,
    rows: OpenRows,
    tenders: Rows<OpenedTender>,
) -> Result<Vec<Put>, Refusal>
    ensures puts { IfOk result (λ made. made.items ≡ opened_with rows.clock t rows.notice tenders) }
    ensures fault { IfErr result (λ e. e ≡ Unavailable) }
{
    let notice = rows.notice.ok_or(Refusal::Unavailable)?;
    let notice = opened(t, notice).ok_or(Refusal::Unavailable)?;
    let mut made = Vec::new(alloc);
    made.reserve(tenders.as_slice().len().saturating_add(2))?;
    push_tenders(&mut made, tenders.as_slice())?;
    made.push(Put::Notice(notice))?;
    made.push(Put::Clock(at_moment(rows.clock, t)))?;
    Ok(made)
}

/// Decides the opening of the tenders of a notice: the result is its refusal or its changes. The tenders must be the sealed ones of the notice, each with its
/// reading.
#[tactic(auto, unfolding(office_base::specs::Deciding::Decides))]
pub fn decide_open(
    alloc: Global,
    t: Moment,
    rows: OpenRows,
    tenders: Rows<OpenedTender>,
) -> Result<Vec<Put>, Refusal>
    ensures { Decides result (first_of (open_tests rows t)) (open_lacks rows) (opened_with rows.clock t rows.notice tenders) }
{
    match refusal(t, &rows) {
        Some(why) => Err(why),
        None => puts(alloc, t, rows, tenders),
    }
}
