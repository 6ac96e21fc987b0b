//! The reserved amounts of a line's lots and the sums of their contracts, from joined rows, one after another.
ghost use Rattle.std.specs.Prelude.{◌≡◌, ◌≤◌, ◌-◌, ◌^◌, ◌<◌, ◌++◌, ℕ, List, [], ◌∷◌, length, OnOk, OnErr, IfOk, IfErr};
ghost use Rattle.office_base.specs.Faults.{IsFaultOf};
ghost use Rattle.office_base.specs.Joined.{amounts_of_line};
ghost use Rattle.office_base.specs.Tables.{Tables, IsSorted};
ghost use Rattle.office_base.specs.declared.shelf.ShelfFault.TheVariants.{NoMemory};
ghost use Rattle.office_ledger.specs.Joins.{joined_lots};
ghost use Rattle.office_ledger.specs.Listing.{HasListed};
ghost use Rattle.office_ledger.specs.Inside.Adding.{is_lot, joined_lot_key};
ghost use Rattle.office_ledger.specs.Inside.Listing.{list_lot, list_reserved};
ghost use Rattle.office_ledger.specs.declared.joined.JoinedLot.{JoinedLot};

use crate::contract_list::ContractList;
use crate::joined::JoinedLot;
use office_base::ledger::LineAmounts;
use office_base::shelf::ShelfFault;
use office_values::id::Id;
use office_values::money::Amount;
use std::alloc::Global;
use std::marker::Model;

/// The reserved amounts of lots and the sums of their contracts, from the joined rows that were taken so far.
#[derive(Drop)]
pub struct AmountList {
    reserved: Vec<Amount>,
    lot: Option<(Id, Id)>,
    contracts: ContractList,
}

impl Model for AmountList {
    ghost use Rattle.office_ledger.specs.Listing.{Listing};

    ghost Value = { Listing };

    ghost view = { λ s. record { reserved = record { amounts = s.reserved.items; lot = s.lot }; contracts = s.contracts } };
}

impl AmountList {
    /// A list that has taken no row.
    pub fn new(alloc: Global) -> AmountList
        ensures { HasListed [] result }
    {
        AmountList {
            reserved: Vec::new(alloc),
            lot: None,
            contracts: ContractList::new(alloc),
        }
    }

    fn is_lot(&self, lot: &JoinedLot) -> bool
        ensures { result ≡ is_lot (joined_lot_key lot.now) self.now.reserved.lot }
    {
        match &self.lot {
            Some((notice, name)) => *notice == lot.notice && *name == lot.lot,
            None => false,
        }
    }

    fn add(&mut self, lot: &JoinedLot) -> Result<(), ShelfFault>
        ensures added { OnOk result (self.new ≡ record { reserved = list_reserved lot.now self.old.reserved; contracts = record { listed = list_lot lot.now self.old.contracts.listed; left = self.old.contracts.left - 1 } }) }
        ensures counted { OnOk result (0 < self.old.contracts.left) }
        ensures kept { OnErr result (self.new ≡ self.old) }
        ensures fault { IfErr result (IsFaultOf (self.old.contracts.left ≡ 0)) }
    {
        if self.is_lot(lot) {
            self.contracts.take(lot)?;
            return Ok(());
        }
        // First there must be memory, so that a fault leaves both lists as they were.
        let Ok(()) = self.reserved.reserve(1) else {
            return Err(ShelfFault::NoMemory);
        };
        self.contracts.take(lot)?;
        self.lot = Some((lot.notice, lot.lot));
        self.reserved.push(lot.reserved).unwrap();
        Ok(())
    }

    /// Takes one more row. A lot counts at the first of its rows, and so does a contract. A fault leaves the list as it was.
    pub fn take(&mut self, lot: JoinedLot) -> Result<(), ShelfFault>
        ensures taken { (rows : List JoinedLot) → HasListed rows self.old → OnOk result (HasListed (rows ++ lot ∷ []) self.new) }
        ensures kept { OnErr result (self.new ≡ self.old) }
        ensures fault { (rows : List JoinedLot) → HasListed rows self.old → IfErr result (IsFaultOf (2 ^ 64 ≤ length (rows ++ lot ∷ []))) }
    {
        self.add(&lot)
    }

    /// The amounts of a line, after all joined rows of its lots were taken.
    pub fn finish(self) -> Result<LineAmounts, ShelfFault>
        ensures amounts { (t : Tables) (line : List ℕ) → IsSorted t → HasListed (joined_lots line t) self → IfOk result (λ amounts. amounts ≡ amounts_of_line line t) }
        ensures fault { IfErr result (λ e. e ≡ NoMemory) }
    {
        let AmountList {
            reserved,
            lot: _,
            contracts,
        } = self;
        match contracts.finish() {
            Ok(contracts) => Ok(LineAmounts::from_vecs(reserved, contracts)),
            Err(fault) => Err(fault),
        }
    }
}
