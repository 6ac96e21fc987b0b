//! The decision on the examination of a tender.
ghost use Rattle.std.specs.Prelude.{◌≡◌, ◌||◌, not, IfOk, IfErr, false};
ghost use Rattle.office_values.specs.declared.refusal.Refusal.TheVariants.{Unavailable};
ghost use Rattle.office_base.specs.Rows.{holds_of};
ghost use Rattle.office_base.specs.States.{is_undecided};
ghost use Rattle.office_base.specs.Deciding.{Decides};
ghost use Rattle.office_base.specs.Rules.{first_of};
ghost use Rattle.award_core.specs.Rules.Examine.{is_bad_quality, cant_be_examined, examined, examine_lacks, examine_tests, examine_puts};

use crate::best::is_priced;
use office_base::puts::Put;
use office_base::records::{ClockRow, EnvelopeRow, EnvelopeState, LotRow, LotState, NoticeRow};
use office_base::transitions::at_moment;
use office_commands::tender::Quality;
use office_values::moment::Moment;
use office_values::refusal::{BadPart, Field, Refusal, Thing};
use std::alloc::Global;

/// The rows that an examination reads: the tender, its notice, its lot, and the clock.
#[derive(Drop)]
pub struct ExamineRows {
    pub envelope: Option<EnvelopeRow>,
    pub notice: Option<NoticeRow>,
    pub lot: Option<LotRow>,
    pub clock: ClockRow,
}

// Whether the points for quality are wrong. They are required exactly if points decide and the tender is responsive. With those for the price they are at most
// a hundred.
fn is_bad_quality(responsive: bool, quality: &Option<Quality>, notice: &NoticeRow) -> bool
    ensures { result ≡ is_bad_quality responsive quality.now notice.now }
{
    if notice.weight.get() == 0 || !responsive {
        return quality.is_some();
    }
    match quality {
        Some(points) => notice.weight.get() + points.get() > 100,
        None => true,
    }
}

// Whether the notice exists, and the points for quality are wrong by its criteria.
fn is_refused(responsive: bool, quality: &Option<Quality>, notice: &Option<NoticeRow>) -> bool
    ensures { result ≡ holds_of (is_bad_quality responsive quality.now) notice.now }
{
    match notice {
        Some(row) => is_bad_quality(responsive, quality, row),
        None => false,
    }
}

// Whether it is too late to examine: the tender has no price, was examined before or can't win any more, or its lot is no longer undecided.
fn is_decided(envelope: &EnvelopeRow, lot: &Option<LotRow>) -> bool
    ensures { result ≡ (cant_be_examined envelope.now || holds_of (λ l. not (is_undecided l.state)) lot.now) }
{
    let is_closed = match lot {
        Some(row) => row.state != LotState::Undecided,
        None => false,
    };
    !is_priced(envelope) || envelope.responsive.is_some() || envelope.failed || is_closed
}

// The tender with the result of its examination: the new points for quality if some are given, and otherwise the present ones.
fn examined(responsive: bool, quality: Option<Quality>, envelope: EnvelopeRow) -> EnvelopeRow
    ensures { result ≡ examined responsive quality envelope }
{
    let quality = match quality {
        Some(points) => Some(points),
        None => envelope.quality,
    };
    EnvelopeRow {
        responsive: Some(responsive),
        quality,
        ..envelope
    }
}

/// The refusal of the examination, if one of its conditions is true.
pub fn refusal(rows: &ExamineRows, responsive: bool, quality: &Option<Quality>) -> Option<Refusal>
    ensures { result ≡ first_of (examine_tests rows.now responsive quality.now) }
{
    let Some(envelope) = &rows.envelope else {
        return Some(Refusal::NoSuch(Thing::Tender));
    };
    if is_refused(responsive, quality, &rows.notice) {
        return Some(Refusal::BadBody(BadPart::Field(Field::Quality)));
    }
    if envelope.state != EnvelopeState::Opened {
        return Some(Refusal::NotOpened);
    }
    if is_decided(envelope, &rows.lot) {
        return Some(Refusal::AlreadyDecided);
    }
    None
}

/// The changes of the examination. `Unavailable` if a row is missing.
pub fn puts(
    alloc: Global,
    t: Moment,
    rows: ExamineRows,
    responsive: bool,
    quality: Option<Quality>,
) -> Result<Vec<Put>, Refusal>
    ensures puts { IfOk result (λ made. made.items ≡ examine_puts rows t responsive quality) }
    ensures whole { IfOk result (λ _. examine_lacks rows ≡ false) }
    ensures fault { IfErr result (λ e. e ≡ Unavailable) }
{
    let envelope = rows.envelope.ok_or(Refusal::Unavailable)?;
    if rows.notice.is_none() || rows.lot.is_none() {
        return Err(Refusal::Unavailable);
    }
    let mut made = Vec::with_capacity(alloc, 2)?;
    made.push(Put::Envelope(examined(responsive, quality, envelope)))?;
    made.push(Put::Clock(at_moment(rows.clock, t)))?;
    Ok(made)
}

/// Decides the examination of a tender: the result is its refusal or its changes.
#[tactic(auto, unfolding(office_base::specs::Deciding::Decides))]
pub fn decide_examine(
    alloc: Global,
    t: Moment,
    rows: ExamineRows,
    responsive: bool,
    quality: Option<Quality>,
) -> Result<Vec<Put>, Refusal>
    ensures { Decides result (first_of (examine_tests rows responsive quality)) (examine_lacks rows) (examine_puts rows t responsive quality) }
{
    match refusal(&rows, responsive, &quality) {
        Some(why) => Err(why),
        None => puts(alloc, t, rows, responsive, quality),
    }
}
