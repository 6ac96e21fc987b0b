//! The sums of a budget line after a change of one of its lots or contracts, by the sums before it.
ghost use Rattle.std.specs.Prelude.{◌≡◌, ◌+◌, ◌≤◌, List, IfSome};
ghost use Rattle.office_values.specs.Money.{total_limit};
ghost use Rattle.office_base.specs.EntrySums.{bare_sums, sums_with_entries, sums_with_entry};
ghost use Rattle.office_base.specs.LineSums.{outstanding_in};
ghost use Rattle.office_base.specs.Tables.{Tables, entries_of_contract};
ghost use Rattle.office_base.specs.declared.records.EntryRow.{EntryRow as EntryRowOf};
ghost use Rattle.office_sums.specs.Carried.{no_sums, reservation_of, sums_before, AreReserved, AreShifted, KnowsEntries};

use crate::sums::SumsOfLine;
use office_base::ledger::ContractSums;
use office_base::records::{ContractRow, EntryRow, LotRow};
use office_values::given::AskedNumber;
use office_values::id::Id;
use office_values::money::{Amount, Total};

/// The line of a lot, and the amount that the lot reserves there.
#[derive(Clone, Copy)]
pub struct Reservation {
    pub line: Id,
    pub amount: Amount,
}

impl Reservation {
    /// That of this lot.
    pub fn of(lot: &LotRow) -> Reservation
        ensures { result ≡ reservation_of lot.now }
    {
        Reservation {
            line: lot.line,
            amount: lot.reserved,
        }
    }
}

/// A line, and its sums after a change. None if they would have to be added up.
#[derive(Clone, Copy)]
pub struct Carried {
    pub line: Id,
    pub sums: Option<SumsOfLine>,
}

/// The lines that a change touches.
#[derive(Clone, Copy)]
pub enum Touch {
    /// No line.
    Nothing,
    /// No other line than this one.
    Line(Carried),
    /// Any lines.
    Any,
}

// No contract gets near it, since an entry has at most 2^50 units.
const MOST: u128 = 1 << 100;

// The sums of a contract after one more entry; None if they are 2^100 or more.
fn with_one(sums: ContractSums, entry: &EntryRow) -> Option<ContractSums>
    ensures { IfSome result (λ with. with ≡ sums_with_entry entry.now.kind entry.now.amount sums) }
{
    if sums.gained < MOST && sums.lost < MOST && sums.paid < MOST {
        Some(sums.with_entry(entry.kind, entry.amount))
    } else {
        None
    }
}

// These sums after these entries; None if they are 2^100 or more.
fn sums_after(before: ContractSums, entries: &[EntryRow]) -> Option<ContractSums>
    ensures { IfSome result (λ sums. sums ≡ sums_with_entries before entries.now) }
{
    let mut sums = before;
    for entry in entries {
        sums = with_one(sums, entry)?;
    }
    Some(sums)
}

/// The sums of a contract with these entries; None if they are 2^100 or more.
pub fn sums_with(contract: &ContractRow, entries: &[EntryRow]) -> Option<ContractSums>
    ensures { IfSome result (λ sums. sums ≡ sums_with_entries (bare_sums contract.now) entries.now) }
{
    let bare = ContractSums {
        gained: contract.signed.units() as u128,
        lost: contract.released.units() as u128,
        paid: 0,
    };
    sums_after(bare, entries)
}

/// The sums of the entries of one contract, without its row.
#[derive(Clone, Copy)]
pub struct EntrySums {
    pub contract: AskedNumber,
    pub sums: ContractSums,
}

impl EntrySums {
    /// Those of this contract's entries; None if they are 2^100 or more.
    pub fn of(contract: AskedNumber, entries: &[EntryRow]) -> Option<EntrySums>
        ensures { (t : Tables) → entries.now ≡ entries_of_contract contract t → KnowsEntries result t }
    {
        let none = ContractSums {
            gained: 0,
            lost: 0,
            paid: 0,
        };
        let sums = sums_after(none, entries)?;
        Some(EntrySums { contract, sums })
    }

    /// The sums of this contract, which has these entries; None if they are 2^128 or more.
    pub fn with_contract(self, contract: &ContractRow) -> Option<ContractSums>
        ensures { (entries : List EntryRowOf) → self.sums ≡ sums_with_entries no_sums entries → IfSome result (λ sums. sums ≡ sums_with_entries (bare_sums contract.now) entries) }
    {
        Some(ContractSums {
            gained: self
                .sums
                .gained
                .checked_add(contract.signed.units() as u128)?,
            lost: self
                .sums
                .lost
                .checked_add(contract.released.units() as u128)?,
            paid: self.sums.paid,
        })
    }
}

// The sums of a contract with these entries, and 0 if there is no contract; None if they are 2^100 or more.
fn sums_before(contract: &Option<ContractRow>, entries: &[EntryRow]) -> Option<ContractSums>
    ensures { IfSome result (λ sums. sums ≡ sums_before contract.now entries.now) }
{
    match contract {
        Some(row) => sums_with(row, entries),
        None => Some(ContractSums {
            gained: 0,
            lost: 0,
            paid: 0,
        }),
    }
}

// The outstanding amount of a contract with these sums.
fn outstanding(sums: ContractSums) -> u128
    ensures { result ≡ outstanding_in sums }
{
    sums.gained.saturating_sub(sums.lost)
}

// The sum of a line if one of its rows counts with another amount than before; None if it is outside its range.
fn shift_sum(sum: Total, before: u128, after: u128) -> Option<Total>
    ensures sum { IfSome result (λ new. new + before ≡ sum + after) }
    ensures fits { IfSome result (λ new. new ≤ total_limit) }
{
    let more = (sum.units() as u128).checked_add(after)?;
    Total::of_sum(more.checked_sub(before)?)
}

// The sums of a line if one of its contracts has other sums than before. None if the contract lost more than it gained, or if a sum is outside its range.
fn shift(old: SumsOfLine, before: ContractSums, after: ContractSums) -> Option<SumsOfLine>
    ensures { IfSome result (λ new. AreShifted old new before after) }
{
    if after.lost > after.gained {
        return None;
    }
    let contracted = shift_sum(old.contracted, outstanding(before), outstanding(after))?;
    let paid = shift_sum(old.paid, before.paid, after.paid)?;
    Some(SumsOfLine {
        reserved: old.reserved,
        contracted,
        paid,
    })
}

/// The sums of a line if one of its lots reserves another amount than before. None if the sum is outside its range.
pub fn shift_reserved(old: SumsOfLine, before: Amount, after: Amount) -> Option<SumsOfLine>
    ensures { IfSome result (λ new. AreReserved old new before after) }
{
    let reserved = shift_sum(old.reserved, before.units() as u128, after.units() as u128)?;
    Some(SumsOfLine { reserved, ..old })
}

/// The sums of a line if this contract has this row and not that one (None: it is new), and has these entries. None if the contract then lost more than it
/// gained, or if a sum is outside its range.
pub fn shift_contract(
    old: SumsOfLine,
    before: &Option<ContractRow>,
    after: &ContractRow,
    entries: &[EntryRow],
) -> Option<SumsOfLine>
    ensures { IfSome result (λ new. AreShifted old new (sums_before before.now entries.now) (sums_with_entries (bare_sums after.now) entries.now)) }
{
    shift(
        old,
        sums_before(before, entries)?,
        sums_with(after, entries)?,
    )
}

/// The sums of a line after one more entry of a contract that had these sums. None if the contract then lost more than it gained, or if a sum is outside its range.
pub fn shift_entry(old: SumsOfLine, before: ContractSums, entry: &EntryRow) -> Option<SumsOfLine>
    ensures { IfSome result (λ new. AreShifted old new before (sums_with_entry entry.now.kind entry.now.amount before)) }
{
    let after = with_one(before, entry)?;
    shift(old, before, after)
}
