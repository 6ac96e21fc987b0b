//! The decision on the amendment of a notice.
ghost use Rattle.std.specs.Prelude.{◌≡◌, ◌||◌, IfOk, IfErr, IfSome, IfNone, Some, true};
ghost use Rattle.office_values.specs.declared.refusal.Refusal.TheVariants.{Unavailable};
ghost use Rattle.office_base.specs.Deciding.{Decides};
ghost use Rattle.office_base.specs.Rules.{first_of};
ghost use Rattle.office_base.specs.Transitions.{has_all_releases};
ghost use Rattle.tender_core.specs.Rules.AmendNotice.{has_all_amendments, amended, amend_notice_lacks, amend_notice_tests, amend_notice_puts};

use office_base::counts::{AmendmentCount, ReleaseCount};
use office_base::puts::Put;
use office_base::records::{ClockRow, NoticeRow, NoticeState};
use office_base::transitions::{at_moment, has_all_releases, is_past_deadline};
use office_values::moment::Moment;
use office_values::refusal::{Refusal, Thing};
use std::alloc::Global;

/// The rows that an amendment reads: the notice and the clock.
#[derive(Drop)]
pub struct AmendNoticeRows {
    pub notice: Option<NoticeRow>,
    pub clock: ClockRow,
}

/// The greatest number of amendments of a notice.
const AMENDMENT_LIMIT: u64 = 50;

// Whether the notice has as many amendments as it can have.
fn has_all_amendments(notice: &NoticeRow) -> bool
    ensures { result ≡ has_all_amendments notice.now }
{
    notice.amendments.get() >= AMENDMENT_LIMIT
}

// The notice with this deadline, one more amendment and one more release. None if it has as many amendments or releases as it can have.
fn amended(deadline: Moment, notice: NoticeRow) -> Option<NoticeRow>
    ensures found { IfSome result (λ row. row ≡ amended deadline notice) }
    ensures none { IfNone result ((has_all_amendments notice || has_all_releases (Some notice)) ≡ true) }
{
    let amendments = AmendmentCount::read(notice.amendments.get() + 1)?;
    let releases = ReleaseCount::read(notice.releases.get() + 1)?;
    Some(NoticeRow {
        deadline,
        amendments,
        releases,
        ..notice
    })
}

/// The refusal of the amendment, if one of its conditions is true.
pub fn refusal(t: Moment, rows: &AmendNoticeRows, deadline: Moment) -> Option<Refusal>
    ensures { result ≡ first_of (amend_notice_tests rows.now t deadline) }
{
    let Some(row) = &rows.notice else {
        return Some(Refusal::NoSuch(Thing::Notice));
    };
    if is_past_deadline(t, row) {
        return Some(Refusal::DeadlinePassed);
    }
    if deadline.second() < row.deadline.second() {
        return Some(Refusal::DeadlineEarlier);
    }
    if row.state == NoticeState::Cancelled {
        return Some(Refusal::NotOpenForTenders);
    }
    if has_all_amendments(row) || has_all_releases(&rows.notice) {
        return Some(Refusal::LimitReached);
    }
    None
}

/// The changes of the amendment. `Unavailable` if the notice doesn't exist, or has as many amendments or releases as it can have.
pub fn puts(
    alloc: Global,
    t: Moment,
    rows: AmendNoticeRows,
    deadline: Moment,
) -> Result<Vec<Put>, Refusal>
    ensures puts { IfOk result (λ made. made.items ≡ amend_notice_puts rows t deadline) }
    ensures fault { IfErr result (λ e. e ≡ Unavailable) }
{
    let notice = rows.notice.ok_or(Refusal::Unavailable)?;
    let notice = amended(deadline, notice).ok_or(Refusal::Unavailable)?;
    let mut made = Vec::with_capacity(alloc, 2)?;
    made.push(Put::Notice(notice))?;
    made.push(Put::Clock(at_moment(rows.clock, t)))?;
    Ok(made)
}

/// Decides the amendment of a notice: the result is its refusal or its changes.
#[tactic(auto, unfolding(office_base::specs::Deciding::Decides))]
pub fn decide_amend_notice(
    alloc: Global,
    t: Moment,
    rows: AmendNoticeRows,
    deadline: Moment,
) -> Result<Vec<Put>, Refusal>
    ensures { Decides result (first_of (amend_notice_tests rows t deadline)) (amend_notice_lacks rows) (amend_notice_puts rows t deadline) }
{
    match refusal(t, &rows, deadline) {
        Some(why) => Err(why),
        None => puts(alloc, t, rows, deadline),
    }
}
