//! The decision to pass over a winner who doesn't sign.
ghost use Rattle.std.specs.Prelude.{◌≡◌, ◌++◌, OnOk, Some, IfOk, IfErr, false};
ghost use Rattle.office_values.specs.declared.refusal.Refusal.TheVariants.{Unavailable};
ghost use Rattle.office_base.specs.Deciding.{Decides};
ghost use Rattle.office_base.specs.Transitions.{put_if, security_settled};
ghost use Rattle.office_base.specs.Rules.{first_of};
ghost use Rattle.office_base.specs.declared.records.SecurityState.TheVariants.{Forfeited};
ghost use Rattle.award_core.specs.Rules.Fail.{stands_still, fail_lacks, fail_tests, fail_puts, standing_tests};

use office_base::puts::Put;
use office_base::records::{
    AwardRow, AwardState, ClockRow, EnvelopeRow, LotRow, LotState, NoticeRow, SecurityRow,
    SecurityState,
};
use office_base::transitions::{
    at_moment, has_all_releases, is_expired, lacks_security, passed_over, settled,
    with_next_release,
};
use office_values::moment::Moment;
use office_values::refusal::{Refusal, Thing};
use std::alloc::{AllocError, Global};

/// The number of seconds in a day.
const DAY: u64 = 86_400;

/// The rows that the failing of an award reads: the award, its notice, its lot, its tender, the security of the tender, and the clock.
#[derive(Drop)]
pub struct FailRows {
    pub award: Option<AwardRow>,
    pub notice: Option<NoticeRow>,
    pub lot: Option<LotRow>,
    pub envelope: Option<EnvelopeRow>,
    pub security: Option<SecurityRow>,
    pub clock: ClockRow,
}

// Whether the standstill after the award hasn't ended yet.
fn stands_still(t: Moment, notice: &NoticeRow, award: &AwardRow) -> bool
    ensures { result ≡ stands_still t notice.now award.now }
{
    t.second() < award.moment.second() + DAY * notice.standstill.get()
}

// The refusal of the failing or the signing of this award, if one of the conditions that both share is true.
pub(crate) fn standing_refusal(
    t: Moment,
    award: &AwardRow,
    notice: &Option<NoticeRow>,
) -> Option<Refusal>
    ensures { result ≡ first_of (standing_tests t (Some award.now) notice.now) }
{
    if award.state != AwardState::Active {
        return Some(Refusal::AlreadyDecided);
    }
    let Some(row) = notice else {
        return None;
    };
    if is_expired(t, row) {
        return Some(Refusal::Expired);
    }
    if stands_still(t, row, award) {
        return Some(Refusal::Standstill);
    }
    if has_all_releases(notice) {
        return Some(Refusal::LimitReached);
    }
    None
}

// Appends the change that forfeits the security of the tender, if it has one.
fn push_forfeited(made: &mut Vec<Put>, security: Option<SecurityRow>) -> Result<(), AllocError>
    ensures { OnOk result (made.new.items ≡ made.old.items ++ put_if (security_settled Forfeited) security) }
{
    if let Some(row) = security {
        made.push(Put::Security(settled(row, SecurityState::Forfeited)))?;
    }
    Ok(())
}

/// The refusal of the failing, if one of its conditions is true.
pub fn refusal(t: Moment, rows: &FailRows) -> Option<Refusal>
    ensures { result ≡ first_of (fail_tests rows.now t) }
{
    match &rows.award {
        Some(row) => standing_refusal(t, row, &rows.notice),
        None => Some(Refusal::NoSuch(Thing::Award)),
    }
}

/// The changes of the failing. `Unavailable` if a row is missing, or the notice has as many releases as it can have.
pub fn puts(alloc: Global, t: Moment, rows: FailRows) -> Result<Vec<Put>, Refusal>
    ensures puts { IfOk result (λ made. made.items ≡ fail_puts rows t) }
    ensures whole { IfOk result (λ _. fail_lacks rows ≡ false) }
    ensures fault { IfErr result (λ e. e ≡ Unavailable) }
{
    let award = rows.award.ok_or(Refusal::Unavailable)?;
    let notice = rows.notice.ok_or(Refusal::Unavailable)?;
    let lot = rows.lot.ok_or(Refusal::Unavailable)?;
    let envelope = rows.envelope.ok_or(Refusal::Unavailable)?;
    if lacks_security(&envelope, &rows.security) {
        return Err(Refusal::Unavailable);
    }
    let notice = with_next_release(notice).ok_or(Refusal::Unavailable)?;
    let mut made = Vec::with_capacity(alloc, 6)?;
    made.push(Put::Award(AwardRow {
        state: AwardState::Failed,
        ..award
    }))?;
    made.push(Put::Lot(LotRow {
        state: LotState::Undecided,
        ..lot
    }))?;
    made.push(Put::Notice(notice))?;
    made.push(Put::Clock(at_moment(rows.clock, t)))?;
    made.push(Put::Envelope(passed_over(envelope)))?;
    push_forfeited(&mut made, rows.security)?;
    Ok(made)
}

/// Decides the failing of an award: the result is its refusal or its changes.
#[tactic(auto, unfolding(office_base::specs::Deciding::Decides))]
pub fn decide_fail(alloc: Global, t: Moment, rows: FailRows) -> Result<Vec<Put>, Refusal>
    ensures { Decides result (first_of (fail_tests rows t)) (fail_lacks rows) (fail_puts rows t) }
{
    match refusal(t, &rows) {
        Some(why) => Err(why),
        None => puts(alloc, t, rows),
    }
}
