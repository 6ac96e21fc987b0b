//! The sums over the lots and contracts of one budget line, from joined rows, one after another.
ghost use Rattle.std.specs.Prelude.{◌≡◌, ◌+◌, ◌^◌, ◌<◌, ◌≤◌, ℕ, false, IfSome, IfNone, IsTrue, Some, None};
ghost use Rattle.office_ledger.specs.Inside.Adding.{no_sums, settled, is_contract, is_lot, joined_lot_key, take_entry, enter_contract, take_contract, enter_lot, take_lot, sums_fit, pots_by, opened, HasRoom};

use crate::joined::{JoinedContract, JoinedEntry, JoinedLot};
use office_base::ledger::{ContractSums, Pots};
use office_values::given::GivenNumber;
use office_values::id::Id;
use office_values::money::Total;

/// The contract whose rows come now: its number, and its sums so far.
#[derive(Clone, Copy)]
pub struct OpenContract {
    contract: GivenNumber,
    sums: ContractSums,
}

/// The sums of one line in units: the reserved amounts of its lots; of the complete contracts, the outstanding amounts, the overdrawn amounts, and the
/// payments.
#[derive(Clone, Copy)]
pub struct LineSums {
    reserved: u128,
    outstanding: u128,
    overdrawn: u128,
    paid: u128,
    lot: Option<(Id, Id)>,
    contract: Option<OpenContract>,
}

impl LineSums {
    /// The sums of no rows.
    pub fn new() -> LineSums
        ensures { result ≡ no_sums }
    {
        LineSums {
            reserved: 0,
            outstanding: 0,
            overdrawn: 0,
            paid: 0,
            lot: None,
            contract: None,
        }
    }

    // Adds the current contract to the sums of those that are complete.
    fn settle(&mut self)
        requires { HasRoom 0 self.old }
        ensures sums { self.new ≡ settled self.old }
        ensures room { (n : ℕ) → HasRoom n self.old → HasRoom n self.new }
    {
        let Some(open) = self.contract else {
            return;
        };
        let sums = open.sums;
        self.outstanding += sums.gained.saturating_sub(sums.lost);
        self.overdrawn += sums.lost.saturating_sub(sums.gained);
        self.paid += sums.paid;
        self.contract = None;
    }

    fn is_contract(&self, contract: GivenNumber) -> bool
        ensures { result ≡ is_contract contract self.now.contract }
    {
        match self.contract {
            Some(open) => open.contract == contract,
            None => false,
        }
    }

    fn is_lot(&self, lot: &JoinedLot) -> bool
        ensures { result ≡ is_lot (joined_lot_key lot.now) self.now.lot }
    {
        match &self.lot {
            Some((notice, name)) => *notice == lot.notice && *name == lot.lot,
            None => false,
        }
    }

    // The first row of a contract begins its sums.
    fn enter_contract(&mut self, contract: &JoinedContract)
        requires { HasRoom 0 self.old }
        ensures sums { self.new ≡ enter_contract contract.now self.old }
        ensures room { (n : ℕ) → HasRoom (n + 1) self.old → HasRoom n self.new }
    {
        if self.is_contract(contract.contract) {
            return;
        }
        self.settle();
        self.contract = Some(OpenContract {
            contract: contract.contract,
            sums: ContractSums {
                gained: contract.signed.units() as u128,
                lost: contract.released.units() as u128,
                paid: 0,
            },
        });
    }

    fn take_entry(&mut self, entry: &JoinedEntry)
        requires { HasRoom 1 self.old }
        ensures sums { self.new ≡ take_entry entry.now self.old }
        ensures room { (n : ℕ) → HasRoom (n + 1) self.old → HasRoom n self.new }
    {
        if let Some(open) = self.contract {
            self.contract = Some(OpenContract {
                contract: open.contract,
                sums: open.sums.with_entry(entry.kind, entry.amount),
            });
        }
    }

    fn take_contract(&mut self, contract: &JoinedContract)
        requires { HasRoom 2 self.old }
        ensures sums { self.new ≡ take_contract contract.now self.old }
        ensures room { (n : ℕ) → HasRoom (n + 2) self.old → HasRoom n self.new }
    {
        self.enter_contract(contract);
        if let Some(entry) = &contract.entry {
            self.take_entry(entry);
        }
    }

    // The first row of a lot adds its reserved amount.
    fn enter_lot(&mut self, lot: &JoinedLot)
        requires { HasRoom 1 self.old }
        ensures sums { self.new ≡ enter_lot lot.now self.old }
        ensures room { (n : ℕ) → HasRoom (n + 1) self.old → HasRoom n self.new }
    {
        if self.is_lot(lot) {
            return;
        }
        self.settle();
        self.reserved += lot.reserved.units() as u128;
        self.lot = Some((lot.notice, lot.lot));
    }

    /// Takes a row of a lot.
    pub fn take(&mut self, lot: &JoinedLot)
        requires { HasRoom 3 self.old }
        ensures sums { self.new ≡ take_lot lot.now self.old }
        ensures room { (n : ℕ) → HasRoom (n + 3) self.old → HasRoom n self.new }
    {
        self.enter_lot(lot);
        if let Some(contract) = &lot.contract {
            self.take_contract(contract);
        }
    }

    /// The balances of a line with these columns, after its last row; `None` if a sum is out of its range.
    pub fn pots(mut self, appropriation: Total, free: Total) -> Option<Pots>
        requires { HasRoom 0 self }
        ensures found { IfSome result (λ pots. pots ≡ pots_by appropriation free (settled self)) }
        ensures right { IfSome result (λ _. IsTrue (sums_fit (settled self))) }
        ensures none { IfNone result (sums_fit (settled self) ≡ false) }
    {
        self.settle();
        if self.overdrawn > 0 {
            return None;
        }
        Some(Pots {
            appropriation,
            free,
            reserved: Total::of_sum(self.reserved)?,
            contracted: Total::of_sum(self.outstanding)?,
            paid: Total::of_sum(self.paid)?,
        })
    }
}
