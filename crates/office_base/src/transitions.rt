//! Tests and changes that the decisions on several commands share.
ghost use Rattle.std.specs.Prelude.{◌≡◌, IfSome, IfNone, Some, true};
ghost use Rattle.office_base.specs.Transitions.{has_all_releases, is_expired, is_in_time, is_past_deadline, with_next_release, at_moment, returned, settled, settled_performance, lacks_security, passed_over};

use crate::counts::ReleaseCount;
use crate::records::{
    ClockRow, EnvelopeRow, NoticeRow, NoticeState, PerformanceRow, SecurityRow, SecurityState,
};
use office_values::moment::Moment;

/// The number of seconds in a day.
const DAY: u64 = 86_400;

/// Whether a tender that comes now is in time: not after the deadline, and before the opening (UNCITRAL Model Law 2011, article 40).
pub fn is_in_time(t: Moment, notice: &NoticeRow) -> bool
    ensures { result ≡ is_in_time t notice.now }
{
    t.second() <= notice.deadline.second() && notice.state != NoticeState::Opened
}

/// Whether the deadline has come, so that it is too late to modify a tender, to withdraw it freely, or to amend its notice (articles 14 and 41).
pub fn is_past_deadline(t: Moment, notice: &NoticeRow) -> bool
    ensures { result ≡ is_past_deadline t notice.now }
{
    notice.deadline.second() <= t.second()
}

/// Whether the validity of the notice's tenders has ended (article 41).
pub fn is_expired(t: Moment, notice: &NoticeRow) -> bool
    ensures { result ≡ is_expired t notice.now }
{
    notice.deadline.second() + DAY * notice.validity.get() <= t.second()
}

/// Whether the notice exists and has as many releases as it can have.
pub fn has_all_releases(notice: &Option<NoticeRow>) -> bool
    ensures { result ≡ has_all_releases notice.now }
{
    match notice {
        Some(row) => row.releases.get() >= 9_999,
        None => false,
    }
}

/// The notice with one more release; None if it has as many as it can have.
pub fn with_next_release(notice: NoticeRow) -> Option<NoticeRow>
    ensures found { IfSome result (λ row. row ≡ with_next_release notice) }
    ensures none { IfNone result (has_all_releases (Some notice) ≡ true) }
{
    let releases = ReleaseCount::read(notice.releases.get() + 1)?;
    Some(NoticeRow { releases, ..notice })
}

/// The clock, set to the moment of an accepted command.
pub fn at_moment(clock: ClockRow, t: Moment) -> ClockRow
    ensures { result ≡ at_moment clock t }
{
    ClockRow { moment: t, ..clock }
}

/// The security, returned to its tenderer.
pub fn returned(security: SecurityRow) -> SecurityRow
    ensures { result ≡ returned security }
{
    SecurityRow {
        state: SecurityState::Returned,
        ..security
    }
}

/// The security in this final state if it was held; otherwise it stays as it is.
pub fn settled(security: SecurityRow, state: SecurityState) -> SecurityRow
    ensures { result ≡ settled state security }
{
    if security.state != SecurityState::Held {
        return security;
    }
    SecurityRow { state, ..security }
}

/// The performance security in this final state if it was held; otherwise it stays as it is.
pub fn settled_performance(security: PerformanceRow, state: SecurityState) -> PerformanceRow
    ensures { result ≡ settled_performance state security }
{
    if security.state != SecurityState::Held {
        return security;
    }
    PerformanceRow { state, ..security }
}

/// Whether the row of the security that a tender names is missing.
pub fn lacks_security(envelope: &EnvelopeRow, security: &Option<SecurityRow>) -> bool
    ensures { result ≡ lacks_security envelope.now security.now }
{
    envelope.security.is_some() && security.is_none()
}

/// The tender, marked so that it can't win any more.
pub fn passed_over(envelope: EnvelopeRow) -> EnvelopeRow
    ensures { result ≡ passed_over envelope }
{
    EnvelopeRow {
        failed: true,
        ..envelope
    }
}
