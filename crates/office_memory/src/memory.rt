//! An office in memory, as a store.
ghost use Rattle.std.specs.Prelude.{◌≡◌, Ok};
ghost use Rattle.office_base.specs.Faults.{one_fault_more};
ghost use Rattle.office_base.specs.Tables.{no_tables};
ghost use Rattle.office_memory.specs.MemoryMeaning.{memory_meaning};
ghost use Rattle.office_base.specs.declared.shelf.ShelfFault.TheVariants.{NoMemory};

use crate::child::copy_rows_of;
use crate::release_numbers::release_numbers;
use crate::tables::MemoryTables;
use crate::{sums, tables};
use office_base::counts::Sequence;
use office_base::laws::changes_keep_order;
use office_base::ledger::{LedgerRow, LineAmounts};
use office_base::puts::Put;
use office_base::records::{
    AwardRow, BatchRow, ClockRow, CompiledRow, ContractRow, EntryRow, EnvelopeRow, LateRow,
    LineRow, LotRow, NoticeRow, PerformanceRow, ReleaseRow, SealRow, SecurityRow, TendererRow,
};
use office_base::shelf::{Lookups, Shelf, ShelfFault};
use office_values::given::AskedNumber;
use office_values::id::Id;
use std::alloc::Global;
use std::marker::Model;

/// An office in memory: its tables, and the number of faults that it answered. A fault is too little memory, or a sum of the ledger outside its range.
pub struct MemoryShelf {
    alloc: Global,
    tables: MemoryTables,
    faults: u64,
}

// Written by hand, so that a program that drops an office doesn't have to prove the drop of each table.
impl Drop for MemoryShelf {
    fn drop(self) {
        let MemoryShelf {
            alloc: _,
            tables: _,
            faults: _,
        } = self;
    }
}

impl Model for MemoryShelf {
    ghost use Rattle.std.specs.Prelude.{ℕ};
    ghost use Rattle.office_base.specs.Tables.{Tables};
    ghost use Rattle.office_memory.specs.MemoryTables.{tables_of};

    ghost Value = { Tables × ℕ };

    ghost view = { λ s. (tables_of s.tables, s.faults) };
}

impl MemoryShelf {
    /// An empty office. It allocates no memory.
    pub fn new(alloc: Global) -> MemoryShelf
        ensures empty { result ≡ (no_tables, 0) }
        ensures holds { memory_meaning.holds result no_tables }
    {
        MemoryShelf {
            alloc,
            tables: tables::empty(alloc),
            faults: 0,
        }
    }

    /// The clock. It has moment 0 and the numbers 0 if the office has accepted no command. It allocates no memory.
    pub fn clock(&self) -> ClockRow
        ensures clock { result ≡ self.now.0.clock }
    {
        self.tables.clock
    }

    // Counts this fault, and returns it.
    fn counted(&mut self, fault: ShelfFault) -> ShelfFault
        ensures fault { result ≡ fault }
        ensures kept { self.new.0 ≡ self.old.0 }
        ensures counted { self.new.1 ≡ one_fault_more self.old.1 }
    {
        self.faults = self.faults.saturating_add(1);
        fault
    }

    // Counts a fault of too little memory, and returns it.
    fn refused(&mut self) -> ShelfFault
        ensures fault { result ≡ NoMemory }
        ensures kept { self.new.0 ≡ self.old.0 }
        ensures counted { self.new.1 ≡ one_fault_more self.old.1 }
    {
        self.counted(ShelfFault::NoMemory)
    }
}

impl Lookups for MemoryShelf {
    ghost meaning = { memory_meaning };

    ghost held_sorted = { λ shelf t held. held.1 };

    fn get_line(&mut self, line: &Id) -> Result<Option<LineRow>, ShelfFault> {
        match self.tables.lines.copy_at(line) {
            Ok(found) => Ok(found),
            Err(_) => Err(self.refused()),
        }
    }

    fn get_batch(&mut self, batch: &Id) -> Result<Option<BatchRow>, ShelfFault> {
        match self.tables.batches.copy_at(batch) {
            Ok(found) => Ok(found),
            Err(_) => Err(self.refused()),
        }
    }

    fn get_tenderer(&mut self, tenderer: &Id) -> Result<Option<TendererRow>, ShelfFault> {
        match self.tables.tenderers.copy_at(tenderer) {
            Ok(found) => Ok(found),
            Err(_) => Err(self.refused()),
        }
    }

    fn get_notice(&mut self, notice: &Id) -> Result<Option<NoticeRow>, ShelfFault> {
        match self.tables.notices.copy_at(notice) {
            Ok(found) => Ok(found),
            Err(_) => Err(self.refused()),
        }
    }

    fn get_lot(&mut self, notice: &Id, lot: &Id) -> Result<Option<LotRow>, ShelfFault> {
        match self.tables.lots.rows().copy_at(&(*notice, *lot)) {
            Ok(found) => Ok(found),
            Err(_) => Err(self.refused()),
        }
    }

    fn get_envelope(&mut self, receipt: AskedNumber) -> Result<Option<EnvelopeRow>, ShelfFault> {
        match self.tables.envelopes.rows().copy_at(&receipt.get()) {
            Ok(found) => Ok(found),
            Err(_) => Err(self.refused()),
        }
    }

    fn get_seal(&mut self, receipt: AskedNumber) -> Result<Option<SealRow>, ShelfFault> {
        match self.tables.seals.copy_at(&receipt.get()) {
            Ok(found) => Ok(found),
            Err(_) => Err(self.refused()),
        }
    }

    fn get_security(&mut self, security: AskedNumber) -> Result<Option<SecurityRow>, ShelfFault> {
        match self.tables.securities.rows().copy_at(&security.get()) {
            Ok(found) => Ok(found),
            Err(_) => Err(self.refused()),
        }
    }

    fn get_award(&mut self, award: AskedNumber) -> Result<Option<AwardRow>, ShelfFault> {
        match self.tables.awards.rows().copy_at(&award.get()) {
            Ok(found) => Ok(found),
            Err(_) => Err(self.refused()),
        }
    }

    fn get_contract(&mut self, contract: AskedNumber) -> Result<Option<ContractRow>, ShelfFault> {
        match self.tables.contracts.rows().copy_at(&contract.get()) {
            Ok(found) => Ok(found),
            Err(_) => Err(self.refused()),
        }
    }

    fn get_entry(
        &mut self,
        contract: AskedNumber,
        entry: &Id,
    ) -> Result<Option<EntryRow>, ShelfFault> {
        match self.tables.entries.copy_at(&(contract.get(), *entry)) {
            Ok(found) => Ok(found),
            Err(_) => Err(self.refused()),
        }
    }

    fn get_release(
        &mut self,
        notice: &Id,
        seq: Sequence,
    ) -> Result<Option<ReleaseRow>, ShelfFault> {
        match self.tables.releases.copy_at(&(*notice, seq.get())) {
            Ok(found) => Ok(found),
            Err(_) => Err(self.refused()),
        }
    }

    fn get_compiled(&mut self, notice: &Id) -> Result<Option<CompiledRow>, ShelfFault> {
        match self.tables.compiled.copy_at(notice) {
            Ok(found) => Ok(found),
            Err(_) => Err(self.refused()),
        }
    }

    fn get_late(&mut self, notice: &Id) -> Result<Option<LateRow>, ShelfFault> {
        match self.tables.late_rules.copy_at(notice) {
            Ok(found) => Ok(found),
            Err(_) => Err(self.refused()),
        }
    }

    fn get_performance(
        &mut self,
        contract: AskedNumber,
    ) -> Result<Option<PerformanceRow>, ShelfFault> {
        match self.tables.performances.copy_at(&contract.get()) {
            Ok(found) => Ok(found),
            Err(_) => Err(self.refused()),
        }
    }

    // Reading the clock never fails.
    fn get_clock(&mut self) -> Result<ClockRow, ShelfFault>
        ensures clock { result ≡ Ok self.old.0.clock }
        ensures kept { self.new ≡ self.old }
    {
        Ok(self.clock())
    }

    fn list_lines(&mut self) -> Result<Vec<LineRow>, ShelfFault> {
        match self.tables.lines.copy_all(self.alloc) {
            Ok(rows) => Ok(rows),
            Err(_) => Err(self.refused()),
        }
    }

    fn list_notices_after(
        &mut self,
        after: Option<Id>,
        most: u32,
    ) -> Result<Vec<NoticeRow>, ShelfFault> {
        match self.tables.notices.copy_after(self.alloc, after, most) {
            Ok(rows) => Ok(rows),
            Err(_) => Err(self.refused()),
        }
    }

    fn list_tenderers_after(
        &mut self,
        after: Option<Id>,
        most: u32,
    ) -> Result<Vec<TendererRow>, ShelfFault> {
        match self.tables.tenderers.copy_after(self.alloc, after, most) {
            Ok(rows) => Ok(rows),
            Err(_) => Err(self.refused()),
        }
    }

    fn list_lots_of_notice(&mut self, notice: &Id) -> Result<Vec<LotRow>, ShelfFault> {
        match copy_rows_of(self.alloc, self.tables.lots.rows(), notice) {
            Ok(rows) => Ok(rows),
            Err(_) => Err(self.refused()),
        }
    }

    fn list_lots_of_line(&mut self, line: &Id) -> Result<Vec<LotRow>, ShelfFault> {
        let lots = &self.tables.lots;
        match lots.indexes().copy_of_group(self.alloc, lots, line) {
            Ok(rows) => Ok(rows),
            Err(_) => Err(self.refused()),
        }
    }

    fn list_envelopes_of_notice(&mut self, notice: &Id) -> Result<Vec<EnvelopeRow>, ShelfFault> {
        let envelopes = &self.tables.envelopes;
        let by_notice = &envelopes.indexes().by_notice;
        match by_notice.copy_of_group(self.alloc, envelopes, notice) {
            Ok(rows) => Ok(rows),
            Err(_) => Err(self.refused()),
        }
    }

    fn list_envelopes_of_lot(
        &mut self,
        notice: &Id,
        lot: &Id,
    ) -> Result<Vec<EnvelopeRow>, ShelfFault> {
        let envelopes = &self.tables.envelopes;
        let by_lot = &envelopes.indexes().by_lot;
        match by_lot.copy_of_group(self.alloc, envelopes, &(*notice, *lot)) {
            Ok(rows) => Ok(rows),
            Err(_) => Err(self.refused()),
        }
    }

    fn list_envelopes_of_tenderer(
        &mut self,
        notice: &Id,
        lot: &Id,
        tenderer: &Id,
    ) -> Result<Vec<EnvelopeRow>, ShelfFault> {
        let owner = (*notice, *lot, *tenderer);
        let envelopes = &self.tables.envelopes;
        let by_tenderer = &envelopes.indexes().by_tenderer;
        match by_tenderer.copy_of_group(self.alloc, envelopes, &owner) {
            Ok(rows) => Ok(rows),
            Err(_) => Err(self.refused()),
        }
    }

    fn list_securities_of_notice(&mut self, notice: &Id) -> Result<Vec<SecurityRow>, ShelfFault> {
        let securities = &self.tables.securities;
        let by_notice = &securities.indexes().by_notice;
        match by_notice.copy_of_group(self.alloc, securities, notice) {
            Ok(rows) => Ok(rows),
            Err(_) => Err(self.refused()),
        }
    }

    fn list_securities_of_lot(
        &mut self,
        notice: &Id,
        lot: &Id,
    ) -> Result<Vec<SecurityRow>, ShelfFault> {
        let securities = &self.tables.securities;
        let by_lot = &securities.indexes().by_lot;
        match by_lot.copy_of_group(self.alloc, securities, &(*notice, *lot)) {
            Ok(rows) => Ok(rows),
            Err(_) => Err(self.refused()),
        }
    }

    fn list_awards_of_notice(&mut self, notice: &Id) -> Result<Vec<AwardRow>, ShelfFault> {
        let awards = &self.tables.awards;
        match awards.indexes().copy_of_group(self.alloc, awards, notice) {
            Ok(rows) => Ok(rows),
            Err(_) => Err(self.refused()),
        }
    }

    fn list_contracts_of_notice(&mut self, notice: &Id) -> Result<Vec<ContractRow>, ShelfFault> {
        let contracts = &self.tables.contracts;
        match contracts
            .indexes()
            .copy_of_group(self.alloc, contracts, notice)
        {
            Ok(rows) => Ok(rows),
            Err(_) => Err(self.refused()),
        }
    }

    fn list_entries_of_contract(
        &mut self,
        contract: AskedNumber,
    ) -> Result<Vec<EntryRow>, ShelfFault> {
        match copy_rows_of(self.alloc, &self.tables.entries, &contract.get()) {
            Ok(rows) => Ok(rows),
            Err(_) => Err(self.refused()),
        }
    }

    fn list_releases_of_notice(&mut self, notice: &Id) -> Result<Vec<ReleaseRow>, ShelfFault> {
        match copy_rows_of(self.alloc, &self.tables.releases, notice) {
            Ok(rows) => Ok(rows),
            Err(_) => Err(self.refused()),
        }
    }

    fn list_release_numbers(&mut self, notice: &Id) -> Result<Vec<Sequence>, ShelfFault> {
        match release_numbers(self.alloc, &self.tables.releases, notice) {
            Ok(numbers) => Ok(numbers),
            Err(_) => Err(self.refused()),
        }
    }

    fn list_amounts_of_line(&mut self, line: &Id) -> Result<LineAmounts, ShelfFault> {
        match sums::amounts_of_line(self.alloc, &self.tables, line) {
            Ok(amounts) => Ok(amounts),
            Err(_) => Err(self.refused()),
        }
    }

    fn ledger(&mut self) -> Result<Vec<LedgerRow>, ShelfFault> {
        match sums::ledger(self.alloc, &self.tables) {
            Ok(Some(rows)) => Ok(rows),
            Ok(None) => Err(self.counted(ShelfFault::Store)),
            Err(_) => Err(self.refused()),
        }
    }

    fn faults(&mut self) -> u64 {
        self.faults
    }
}

impl Shelf for MemoryShelf {
    fn apply(&mut self, puts: Vec<Put>) -> Result<(), ShelfFault> {
        changes_keep_order();
        match tables::apply_all(self.alloc, &mut self.tables, puts) {
            Ok(()) => Ok(()),
            Err(_) => Err(self.refused()),
        }
    }
}
