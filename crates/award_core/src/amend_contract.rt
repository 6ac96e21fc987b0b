//! The decision on the amendment of a contract.
ghost use Rattle.std.specs.Prelude.{◌≡◌, ◌+◌, ◌≤◌, ◌&&◌, ◌<◌, [], IfSome, IfNone, nat_lt, IfOk, IfErr, false, vec_len, vec_capacity};
ghost use Rattle.office_values.specs.Money.{total_limit};
ghost use Rattle.office_values.specs.declared.refusal.Refusal.TheVariants.{Unavailable};
ghost use Rattle.office_base.specs.Deciding.{Decides};
ghost use Rattle.office_base.specs.Joined.{free_in};
ghost use Rattle.office_base.specs.Rules.{first_of};
ghost use Rattle.award_core.specs.Rules.AmendContract.{CantChange, is_running, is_raising, entry_kind, line_after, amend_contract_lacks, amend_contract_tests, amend_contract_puts};

use crate::entries::{has_all_entries, has_entry, is_beyond, is_overdrawn};
use crate::lines::{free_on, with_free};
use office_base::puts::Put;
use office_base::records::{ClockRow, ContractRow, EntryKind, EntryRow, LineRow, NoticeRow};
use office_base::rows::Rows;
use office_base::transitions::{at_moment, has_all_releases, with_next_release};
use office_commands::amounts::EntryAmount;
use office_commands::contract::ChangeKind;
use office_values::id::Id;
use office_values::moment::Moment;
use office_values::refusal::{Refusal, Thing};
use office_values::text::TextLine;
use std::alloc::{AllocError, Global};

/// The rows that the amendment of a contract reads: the contract, its entries, its notice, its budget line, and the clock.
#[derive(Drop)]
pub struct AmendContractRows {
    pub contract: Option<ContractRow>,
    pub entries: Rows<EntryRow>,
    pub notice: Option<NoticeRow>,
    pub line: Option<LineRow>,
    pub clock: ClockRow,
}

// Whether the contract hasn't ended, and the change is a raise by more than is free on its budget line.
fn is_short(
    line: &Option<LineRow>,
    kind: ChangeKind,
    amount: EntryAmount,
    contract: &ContractRow,
) -> bool
    ensures { result ≡ (is_running contract.now && is_raising kind && nat_lt (free_in line.now) amount) }
{
    contract.ended.is_none() && kind == ChangeKind::Raise && free_on(line).units() < amount.get()
}

// The kind of the entry for a change.
fn entry_kind(kind: ChangeKind) -> EntryKind
    ensures { result ≡ entry_kind kind }
{
    match kind {
        ChangeKind::Raise => EntryKind::Raise,
        ChangeKind::Cut => EntryKind::Cut,
    }
}

// The budget line after the change: a raise takes free money of it, and a cut adds free money to it. None if that is above 10^15.
fn line_after(kind: ChangeKind, amount: EntryAmount, line: LineRow) -> Option<LineRow>
    ensures found { IfSome result (λ row. row ≡ line_after kind amount line) }
    ensures none { IfNone result (total_limit < (line_after kind amount line).free) }
{
    let free = line.free.units() as u128;
    let amount = amount.get() as u128;
    match kind {
        ChangeKind::Raise => with_free(line, free.saturating_sub(amount)),
        ChangeKind::Cut => with_free(line, free + amount),
    }
}

/// The refusal of the amendment, if one of its conditions is true.
pub fn refusal(
    rows: &AmendContractRows,
    entry: &Id,
    kind: ChangeKind,
    amount: EntryAmount,
) -> Option<Refusal>
    ensures { result ≡ first_of (amend_contract_tests rows.now entry.now kind amount) }
{
    let Some(contract) = &rows.contract else {
        return Some(Refusal::NoSuch(Thing::Contract));
    };
    if has_entry(rows.entries.as_slice(), entry) {
        return Some(Refusal::Exists);
    }
    if is_short(&rows.line, kind, amount, contract) {
        return Some(Refusal::InsufficientFunds);
    }
    if kind == ChangeKind::Cut && is_beyond(rows.entries.as_slice(), amount, contract) {
        return Some(Refusal::MoreThanOutstanding);
    }
    if contract.ended.is_some() {
        return Some(Refusal::ContractEnded);
    }
    if has_all_entries(rows.entries.as_slice()) || has_all_releases(&rows.notice) {
        return Some(Refusal::LimitReached);
    }
    None
}

/// An empty list with places for the four changes of an amendment.
pub fn places(alloc: Global) -> Result<Vec<Put>, AllocError>
    ensures empty { IfOk result (λ places. places.items ≡ []) }
    ensures enough { IfOk result (λ places. vec_len places + 4 ≤ vec_capacity places) }
{
    Vec::with_capacity(alloc, 4)
}

/// The changes of the amendment, in these places. It allocates no memory. `Unavailable` if a row is missing, if more was taken from the contract than was added,
/// or if the line would have more than 10^15 free. It is also the answer if the notice has as many releases as it can have.
pub fn puts(
    places: Vec<Put>,
    t: Moment,
    rows: AmendContractRows,
    entry: Id,
    kind: ChangeKind,
    amount: EntryAmount,
    rationale: TextLine,
) -> Result<Vec<Put>, Refusal>
    requires empty { places.items ≡ [] }
    requires enough { vec_len places + 4 ≤ vec_capacity places }
    ensures puts { IfOk result (λ made. made.items ≡ amend_contract_puts rows t entry kind amount rationale) }
    ensures whole { IfOk result (λ _. amend_contract_lacks rows ≡ false) }
    ensures fault { IfErr result (λ e. (e ≡ Unavailable) × CantChange kind amount rows) }
{
    let contract = rows.contract.ok_or(Refusal::Unavailable)?;
    let notice = rows.notice.ok_or(Refusal::Unavailable)?;
    let line = rows.line.ok_or(Refusal::Unavailable)?;
    if is_overdrawn(rows.entries.as_slice(), &contract) {
        return Err(Refusal::Unavailable);
    }
    let notice = with_next_release(notice).ok_or(Refusal::Unavailable)?;
    let line = line_after(kind, amount, line).ok_or(Refusal::Unavailable)?;
    let mut made = places;
    made.push_reserved(Put::Entry(EntryRow {
        contract: contract.contract,
        entry,
        kind: entry_kind(kind),
        amount,
        moment: t,
        rationale: Some(rationale),
    }));
    made.push_reserved(Put::Line(line));
    made.push_reserved(Put::Notice(notice));
    made.push_reserved(Put::Clock(at_moment(rows.clock, t)));
    Ok(made)
}

/// Decides the amendment of a contract: the result is its refusal or its changes.
#[tactic(auto, unfolding(office_base::specs::Deciding::Decides))]
pub fn decide_amend_contract(
    alloc: Global,
    t: Moment,
    rows: AmendContractRows,
    entry: Id,
    kind: ChangeKind,
    amount: EntryAmount,
    rationale: TextLine,
) -> Result<Vec<Put>, Refusal>
    ensures { Decides result (first_of (amend_contract_tests rows entry kind amount)) (amend_contract_lacks rows) (amend_contract_puts rows t entry kind amount rationale) }
{
    match refusal(&rows, &entry, kind, amount) {
        Some(why) => Err(why),
        None => puts(places(alloc)?, t, rows, entry, kind, amount, rationale),
    }
}
