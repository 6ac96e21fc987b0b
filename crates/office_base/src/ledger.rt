//! The sums over the rows of an office: balances, and the sums of contracts.
ghost use Rattle.std.specs.Prelude.{◌≡◌, ◌+◌, ◌^◌, ◌<◌, ◌≤◌};
ghost use Rattle.office_base.specs.EntrySums.{sums_with_entry};

use crate::records::EntryKind;
use crate::rows::Rows;
use office_commands::amounts::EntryAmount;
use office_values::id::Id;
use office_values::money::{Amount, Total};

/// The balances of a budget line.
#[derive(Clone, Copy)]
pub struct Pots {
    pub appropriation: Total,
    pub free: Total,
    pub reserved: Total,
    pub contracted: Total,
    pub paid: Total,
}

/// A row of the ledger: a budget line and its balances.
#[derive(Clone, Copy)]
pub struct LedgerRow {
    pub line: Id,
    pub pots: Pots,
}

/// The sums of a contract in units: the amount signed and raised, the amount cut, paid and released, and the amount paid.
#[derive(Clone, Copy)]
pub struct ContractSums {
    pub gained: u128,
    pub lost: u128,
    pub paid: u128,
}

impl ContractSums {
    /// The sums after one more entry of this kind and amount.
    pub fn with_entry(self, kind: EntryKind, amount: EntryAmount) -> ContractSums
        requires gained { self.gained + 2 ^ 50 < 2 ^ 128 }
        requires lost { self.lost + 2 ^ 50 < 2 ^ 128 }
        requires paid { self.paid + 2 ^ 50 < 2 ^ 128 }
        ensures sums { result ≡ sums_with_entry kind amount self }
        ensures bound { amount ≤ 2 ^ 50 }
    {
        let units = amount.get() as u128;
        match kind {
            EntryKind::Raise => ContractSums {
                gained: self.gained + units,
                ..self
            },
            EntryKind::Cut => ContractSums {
                lost: self.lost + units,
                ..self
            },
            EntryKind::Payment => ContractSums {
                lost: self.lost + units,
                paid: self.paid + units,
                ..self
            },
        }
    }
}

/// The amounts that add up to the balances of a line: one for each lot, and the sums of each contract.
#[derive(Drop)]
pub struct LineAmounts {
    pub reserved: Rows<Amount>,
    pub contracts: Rows<ContractSums>,
}

impl LineAmounts {
    /// The value of these amounts, one for each lot, and of the sums of these contracts. It allocates no memory.
    pub fn from_vecs(reserved: Vec<Amount>, contracts: Vec<ContractSums>) -> LineAmounts
        ensures { result ≡ record { reserved = reserved.items; contracts = contracts.items } }
    {
        LineAmounts {
            reserved: Rows::from_vec(reserved),
            contracts: Rows::from_vec(contracts),
        }
    }
}
