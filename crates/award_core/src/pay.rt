//! The decision on a payment under a contract.
ghost use Rattle.std.specs.Prelude.{◌≡◌, ◌+◌, ◌≤◌, [], IfOk, IfErr, false, vec_len, vec_capacity};
ghost use Rattle.office_values.specs.declared.refusal.Refusal.TheVariants.{Unavailable};
ghost use Rattle.office_base.specs.Deciding.{Decides};
ghost use Rattle.office_base.specs.Rules.{first_of};
ghost use Rattle.award_core.specs.Rules.Pay.{CantPay, pay_lacks, pay_tests, pay_puts};

use crate::entries::{has_all_entries, has_entry, is_beyond};
use office_base::puts::Put;
use office_base::records::{ClockRow, ContractRow, EntryKind, EntryRow, NoticeRow};
use office_base::rows::Rows;
use office_base::transitions::{at_moment, has_all_releases, with_next_release};
use office_commands::amounts::EntryAmount;
use office_values::id::Id;
use office_values::moment::Moment;
use office_values::refusal::{Refusal, Thing};
use std::alloc::{AllocError, Global};

/// The rows that a payment reads: the contract, its entries, its notice, and the clock.
#[derive(Drop)]
pub struct PayRows {
    pub contract: Option<ContractRow>,
    pub entries: Rows<EntryRow>,
    pub notice: Option<NoticeRow>,
    pub clock: ClockRow,
}

/// The refusal of the payment, if one of its conditions is true.
pub fn refusal(rows: &PayRows, entry: &Id, amount: EntryAmount) -> Option<Refusal>
    ensures { result ≡ first_of (pay_tests rows.now entry.now amount) }
{
    let Some(contract) = &rows.contract else {
        return Some(Refusal::NoSuch(Thing::Contract));
    };
    if has_entry(rows.entries.as_slice(), entry) {
        return Some(Refusal::Exists);
    }
    if is_beyond(rows.entries.as_slice(), amount, contract) {
        return Some(Refusal::MoreThanOutstanding);
    }
    if contract.ended.is_some() {
        return Some(Refusal::ContractEnded);
    }
    if has_all_entries(rows.entries.as_slice()) || has_all_releases(&rows.notice) {
        return Some(Refusal::LimitReached);
    }
    None
}

/// An empty list with places for the three changes of a payment.
pub fn places(alloc: Global) -> Result<Vec<Put>, AllocError>
    ensures empty { IfOk result (λ places. places.items ≡ []) }
    ensures enough { IfOk result (λ places. vec_len places + 3 ≤ vec_capacity places) }
{
    Vec::with_capacity(alloc, 3)
}

/// The changes of the payment, in these places. It allocates no memory. `Unavailable` if the contract or its notice is missing, or if the notice has as many
/// releases as it can have.
pub fn puts(
    places: Vec<Put>,
    t: Moment,
    rows: PayRows,
    entry: Id,
    amount: EntryAmount,
) -> Result<Vec<Put>, Refusal>
    requires empty { places.items ≡ [] }
    requires enough { vec_len places + 3 ≤ vec_capacity places }
    ensures puts { IfOk result (λ made. made.items ≡ pay_puts rows t entry amount) }
    ensures whole { IfOk result (λ _. pay_lacks rows ≡ false) }
    ensures fault { IfErr result (λ e. (e ≡ Unavailable) × CantPay rows) }
{
    let contract = rows.contract.ok_or(Refusal::Unavailable)?;
    let notice = rows.notice.ok_or(Refusal::Unavailable)?;
    let notice = with_next_release(notice).ok_or(Refusal::Unavailable)?;
    let mut made = places;
    made.push_reserved(Put::Entry(EntryRow {
        contract: contract.contract,
        entry,
        kind: EntryKind::Payment,
        amount,
        moment: t,
        rationale: None,
    }));
    made.push_reserved(Put::Notice(notice));
    made.push_reserved(Put::Clock(at_moment(rows.clock, t)));
    Ok(made)
}

/// Decides a payment under a contract: the result is its refusal or its changes. `Unavailable` if the notice of the contract is missing, which isn't so in an
/// office that its commands made.
#[tactic(auto, unfolding(office_base::specs::Deciding::Decides))]
pub fn decide_pay(
    alloc: Global,
    t: Moment,
    rows: PayRows,
    entry: Id,
    amount: EntryAmount,
) -> Result<Vec<Put>, Refusal>
    ensures { Decides result (first_of (pay_tests rows entry amount)) (pay_lacks rows) (pay_puts rows t entry amount) }
{
    match refusal(&rows, &entry, amount) {
        Some(why) => Err(why),
        None => puts(places(alloc)?, t, rows, entry, amount),
    }
}
