//! The sums of the contracts of a line's lots, from joined rows, one after another.
ghost use Rattle.std.specs.Prelude.{◌≡◌, ◌-◌, ◌^◌, ◌<◌, OnOk, OnErr, IfOk, IfErr, None};
ghost use Rattle.office_base.specs.Faults.{IsFaultOf};
ghost use Rattle.office_base.specs.declared.shelf.ShelfFault.TheVariants.{NoMemory};
ghost use Rattle.office_ledger.specs.Inside.Listing.{nothing_listed, all_listed, is_current, enter_listed, list_lot};

use crate::joined::{JoinedContract, JoinedLot};
use office_base::ledger::ContractSums;
use office_base::shelf::ShelfFault;
use office_values::given::GivenNumber;
use office_values::id::Id;
use std::alloc::Global;
use std::marker::Model;

/// The contract whose rows come now, with its sums so far.
#[derive(Clone, Copy)]
pub struct CurrentContract {
    notice: Id,
    lot: Id,
    contract: GivenNumber,
    sums: ContractSums,
}

/// The sums of contracts, from the joined rows that were taken so far.
#[derive(Drop)]
pub struct ContractList {
    done: Vec<ContractSums>,
    current: Option<CurrentContract>,
    left: u64,
}

impl Model for ContractList {
    ghost use Rattle.office_ledger.specs.Inside.Listing.{ContractListing, EntriesFit};

    ghost Value = { ContractListing };

    ghost view = { λ s. record { listed = record { done = s.done.items; current = s.current }; left = s.left } };

    ghost invariant = { λ s. EntriesFit s.left s.current };
}

impl ContractList {
    /// A list that has taken no row.
    pub fn new(alloc: Global) -> ContractList
        ensures listed { result.listed ≡ nothing_listed }
        ensures left { result.left ≡ 2 ^ 64 - 1 }
    {
        ContractList {
            done: Vec::new(alloc),
            current: None,
            left: u64::MAX,
        }
    }

    fn is_current(&self, lot: &JoinedLot, contract: GivenNumber) -> bool
        ensures { result ≡ is_current lot.now contract self.now.listed.current }
    {
        match &self.current {
            Some(current) => {
                current.notice == lot.notice
                    && current.lot == lot.lot
                    && current.contract == contract
            }
            None => false,
        }
    }

    // Adds the current contract to those that are complete.
    fn end_contract(&mut self) -> Result<(), ShelfFault>
        ensures ended { OnOk result (self.new ≡ record { listed = record { done = all_listed self.old.listed; current = None }; left = self.old.left }) }
        ensures kept { OnErr result (self.new ≡ self.old) }
        ensures fault { IfErr result (λ e. e ≡ NoMemory) }
    {
        let Some(current) = self.current else {
            return Ok(());
        };
        match self.done.push(current.sums) {
            Ok(()) => {
                self.current = None;
                Ok(())
            }
            Err(_) => Err(ShelfFault::NoMemory),
        }
    }

    // The first row of a contract completes the contract before it.
    fn enter(&mut self, lot: &JoinedLot, contract: &JoinedContract) -> Result<(), ShelfFault>
        ensures entered { OnOk result (self.new ≡ record { listed = enter_listed lot.now contract.now self.old.listed; left = self.old.left }) }
        ensures kept { OnErr result (self.new ≡ self.old) }
        ensures fault { IfErr result (λ e. e ≡ NoMemory) }
    {
        if self.is_current(lot, contract.contract) {
            return Ok(());
        }
        self.end_contract()?;
        self.current = Some(CurrentContract {
            notice: lot.notice,
            lot: lot.lot,
            contract: contract.contract,
            sums: ContractSums {
                gained: contract.signed.units() as u128,
                lost: contract.released.units() as u128,
                paid: 0,
            },
        });
        Ok(())
    }

    /// Takes one more row. A contract counts at the first of its rows. A fault leaves the list as it was.
    pub fn take(&mut self, lot: &JoinedLot) -> Result<(), ShelfFault>
        ensures taken { OnOk result (self.new ≡ record { listed = list_lot lot.now self.old.listed; left = self.old.left - 1 }) }
        ensures counted { OnOk result (0 < self.old.left) }
        ensures kept { OnErr result (self.new ≡ self.old) }
        ensures fault { IfErr result (IsFaultOf (self.old.left ≡ 0)) }
    {
        let Some(left) = self.left.checked_sub(1) else {
            return Err(ShelfFault::Store);
        };
        if let Some(contract) = &lot.contract {
            self.enter(lot, contract)?;
            // The row is counted first, because only then the sums are known to have place for the entry.
            self.left = left;
            if let (Some(entry), Some(current)) = (&contract.entry, self.current) {
                self.current = Some(CurrentContract {
                    sums: current.sums.with_entry(entry.kind, entry.amount),
                    ..current
                });
            }
        }
        self.left = left;
        Ok(())
    }

    /// The sums of all contracts whose rows were taken.
    pub fn finish(mut self) -> Result<Vec<ContractSums>, ShelfFault>
        ensures sums { IfOk result (λ sums. sums.items ≡ all_listed self.listed) }
        ensures fault { IfErr result (λ e. e ≡ NoMemory) }
    {
        match self.end_contract() {
            Ok(()) => Ok(self.done),
            Err(fault) => Err(fault),
        }
    }
}
