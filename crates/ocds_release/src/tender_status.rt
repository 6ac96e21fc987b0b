//! The status of a tender, from the states of its lots.
ghost use Rattle.std.specs.Prelude.{◌≡◌, IfOk, map};
ghost use Rattle.std.specs.List.{list_any};
ghost use Rattle.office_base.specs.States.{is_open};
ghost use Rattle.ocds_release.specs.TenderStatuses.{status_code, tender_status_of, is_contracted, is_cancelled_lot, state_with, state_cancelled};

use office_base::records::{LotRow, LotState};
use office_values::id::Id;
use std::alloc::{AllocError, Global};

/// The status of a tender (OCDS 1.1, codelist tenderStatus).
#[derive(Clone, Copy, Debug, PartialEq, Eq)]
pub enum TenderStatus {
    Active,
    Complete,
    Cancelled,
    Unsuccessful,
}

impl TenderStatus {
    /// The status as a code of OCDS.
    pub fn as_str(self) -> &'static str
        ensures { result.now ≡ status_code self }
    {
        match self {
            TenderStatus::Active => "active",
            TenderStatus::Complete => "complete",
            TenderStatus::Cancelled => "cancelled",
            TenderStatus::Unsuccessful => "unsuccessful",
        }
    }
}

// Whether a lot is still undecided or awarded.
fn is_open(state: LotState) -> bool
    ensures { result ≡ is_open state }
{
    matches!(state, LotState::Undecided | LotState::Awarded)
}

fn is_contracted(state: LotState) -> bool
    ensures { result ≡ is_contracted state }
{
    matches!(state, LotState::Contracted)
}

fn is_cancelled(state: LotState) -> bool
    ensures { result ≡ is_cancelled_lot state }
{
    matches!(state, LotState::Cancelled)
}

fn some_is_open(states: &[LotState]) -> bool
    ensures { result ≡ list_any is_open states.now }
{
    states.iter().any(|state| is_open(*state))
}

fn some_is_contracted(states: &[LotState]) -> bool
    ensures { result ≡ list_any is_contracted states.now }
{
    states.iter().any(|state| is_contracted(*state))
}

fn some_is_cancelled(states: &[LotState]) -> bool
    ensures { result ≡ list_any is_cancelled_lot states.now }
{
    states.iter().any(|state| is_cancelled(*state))
}

/// The status of a tender whose lots are in these states. Takes no memory.
pub fn status_of(states: &[LotState]) -> TenderStatus
    ensures { result ≡ tender_status_of states.now }
{
    if some_is_open(states) {
        TenderStatus::Active
    } else if some_is_contracted(states) {
        TenderStatus::Complete
    } else if some_is_cancelled(states) {
        TenderStatus::Cancelled
    } else {
        TenderStatus::Unsuccessful
    }
}

// The state of a lot after the lot of this identifier gets this state.
fn state_with(row: &LotRow, lot: Id, state: LotState) -> LotState
    ensures { result ≡ state_with lot state row.now }
{
    if row.lot == lot { state } else { row.state }
}

/// The states of lots after one of them gets this state.
pub fn states_with(
    alloc: Global,
    lots: &[LotRow],
    lot: Id,
    state: LotState,
) -> Result<Vec<LotState>, AllocError>
    ensures { IfOk result (λ states. states.items ≡ map (state_with lot state) lots.now) }
{
    let mut states = Vec::new(alloc);
    for row in lots {
        states.push(state_with(row, lot, state))?;
    }
    Ok(states)
}

fn state_cancelled(row: &LotRow) -> LotState
    ensures { result ≡ state_cancelled row.now }
{
    if is_open(row.state) {
        LotState::Cancelled
    } else {
        row.state
    }
}

/// The states of lots after all open ones are cancelled.
pub fn states_cancelled(alloc: Global, lots: &[LotRow]) -> Result<Vec<LotState>, AllocError>
    ensures { IfOk result (λ states. states.items ≡ map state_cancelled lots.now) }
{
    let mut states = Vec::new(alloc);
    for row in lots {
        states.push(state_cancelled(row))?;
    }
    Ok(states)
}
