//! Tests of tenders, their tenderers and their notices.
ghost use Rattle.std.specs.Prelude.{◌≡◌};
ghost use Rattle.office_commands.specs.Callers.{is_by};
ghost use Rattle.office_base.specs.Rows.{holds_of};
ghost use Rattle.office_base.specs.Transitions.{is_in_time, is_late, is_past_deadline};
ghost use Rattle.tender_core.specs.Rules.Modify.{withdrawn};

use office_base::records::{EnvelopeRow, EnvelopeState, LateRow, NoticeRow};
use office_base::transitions;
use office_commands::command::Caller;
use office_values::id::Id;
use office_values::moment::Moment;

/// Whether the caller is this tenderer.
pub fn is_by(caller: &Caller, tenderer: &Id) -> bool
    ensures { result ≡ is_by caller.now tenderer.now }
{
    match caller {
        Caller::Public => false,
        Caller::Clerk => false,
        Caller::Tenderer(id) => *id == *tenderer,
    }
}

/// Whether the notice exists, and a tender that comes at this moment is in time.
pub fn is_in_time(t: Moment, notice: &Option<NoticeRow>) -> bool
    ensures { result ≡ holds_of (is_in_time t) notice.now }
{
    match notice {
        Some(row) => transitions::is_in_time(t, row),
        None => false,
    }
}

/// Whether the notice exists, and its deadline has come, so that a tender can't be modified or freely withdrawn.
pub fn is_past_deadline(t: Moment, notice: &Option<NoticeRow>) -> bool
    ensures { result ≡ holds_of (is_past_deadline t) notice.now }
{
    match notice {
        Some(row) => transitions::is_past_deadline(t, row),
        None => false,
    }
}

/// Whether the notice exists, its deadline has come, and it allows withdrawals from then on.
pub fn is_late(late: &Option<LateRow>, t: Moment, notice: &Option<NoticeRow>) -> bool
    ensures { result ≡ is_late late.now t notice.now }
{
    late.is_some() && is_past_deadline(t, notice)
}

/// The tender, withdrawn.
pub fn withdrawn(envelope: EnvelopeRow) -> EnvelopeRow
    ensures { result ≡ withdrawn envelope }
{
    EnvelopeRow {
        state: EnvelopeState::Withdrawn,
        ..envelope
    }
}
