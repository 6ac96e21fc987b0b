//! The sums over the entries of a contract.
ghost use Rattle.std.specs.Prelude.{◌≡◌, ◌<◌, ◌+◌, ◌-◌, ◌^◌};
ghost use Rattle.std.specs.List.{list_any};
ghost use Rattle.office_base.specs.EntryKinds.{is_raise, is_less};
ghost use Rattle.office_base.specs.Joined.{entry_sum, is_overdrawn, minus, outstanding, paid_under, plus};
ghost use Rattle.office_base.specs.Tables.{same_number};
ghost use Rattle.award_core.specs.Rules.AmendContract.{is_beyond, is_taken, has_all_entries};

use office_base::records::{ContractRow, EntryKind, EntryRow};
use office_commands::amounts::EntryAmount;
use office_values::given::GivenNumber;
use office_values::id::Id;

/// The greatest number of entries of a contract.
const ENTRY_LIMIT: usize = 200;

/// Whether the entry belongs to the contract with this number.
pub fn is_of(entry: &EntryRow, contract: GivenNumber) -> bool
    ensures { result ≡ same_number entry.now.contract contract }
{
    entry.contract.cmp(&contract).is_eq()
}

/// The sum of the contract's raises.
pub fn raised(entries: &[EntryRow], contract: GivenNumber) -> u128
    ensures sum { result ≡ entry_sum is_raise entries.now contract }
    ensures small { result < 2 ^ 110 }
{
    let mut sum = 0;
    for entry in entries {
        if entry.kind == EntryKind::Raise && is_of(entry, contract) {
            sum += entry.amount.get() as u128;
        }
    }
    sum
}

// The sum of the contract's cuts and payments.
fn lessened(entries: &[EntryRow], contract: GivenNumber) -> u128
    ensures sum { result ≡ entry_sum is_less entries.now contract }
    ensures small { result < 2 ^ 110 }
{
    let mut sum = 0;
    for entry in entries {
        if entry.kind != EntryKind::Raise && is_of(entry, contract) {
            sum += entry.amount.get() as u128;
        }
    }
    sum
}

/// The sum of the contract's payments.
pub fn paid(entries: &[EntryRow], contract: &ContractRow) -> u128
    ensures sum { result ≡ paid_under entries.now contract.now }
    ensures small { result < 2 ^ 110 }
{
    let mut sum = 0;
    for entry in entries {
        if entry.kind == EntryKind::Payment && is_of(entry, contract.contract) {
            sum += entry.amount.get() as u128;
        }
    }
    sum
}

/// The outstanding amount of the contract if `more` were added and `less` were taken; 0 if more is taken than added.
pub fn left_with(entries: &[EntryRow], contract: &ContractRow, more: u64, less: u128) -> u128
    requires small { less < 2 ^ 111 }
    ensures rest { result ≡ (plus entries.now contract.now + more) - (minus entries.now contract.now + less) }
    ensures small { result < 2 ^ 111 }
{
    let came = contract.signed.units() as u128 + raised(entries, contract.contract);
    let gone = lessened(entries, contract.contract) + contract.released.units() as u128;
    (came + more as u128).saturating_sub(gone + less)
}

/// The outstanding amount of the contract; 0 if more was taken from it than was added.
pub fn outstanding(entries: &[EntryRow], contract: &ContractRow) -> u128
    ensures rest { result ≡ outstanding entries.now contract.now }
    ensures small { result < 2 ^ 111 }
{
    left_with(entries, contract, 0, 0)
}

/// Whether more was taken from the contract than was added.
pub fn is_overdrawn(entries: &[EntryRow], contract: &ContractRow) -> bool
    ensures { result ≡ is_overdrawn entries.now contract.now }
{
    let came = contract.signed.units() as u128 + raised(entries, contract.contract);
    let gone = lessened(entries, contract.contract) + contract.released.units() as u128;
    came < gone
}

// Whether the contract hasn't ended, and less than this amount is outstanding.
pub(crate) fn is_beyond(entries: &[EntryRow], amount: EntryAmount, contract: &ContractRow) -> bool
    ensures { result ≡ is_beyond entries.now amount contract.now }
{
    contract.ended.is_none() && outstanding(entries, contract) < amount.get() as u128
}

// Whether some entry has this identifier.
pub(crate) fn has_entry(entries: &[EntryRow], entry: &Id) -> bool
    ensures { result ≡ list_any (is_taken entry.now) entries.now }
{
    entries.iter().any(|row| row.entry == *entry)
}

// Whether the contract has as many entries as it can have.
pub(crate) fn has_all_entries(entries: &[EntryRow]) -> bool
    ensures { result ≡ has_all_entries entries.now }
{
    entries.len() >= ENTRY_LIMIT
}
