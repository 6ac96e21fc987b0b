//! An office in SQL in memory. It is a type of its own without parameters, so that code over any store is proved to work over this one.
ghost use Rattle.sqlite.specs.Steps.{over_memory};
ghost use Rattle.office_store.specs.SqlMeaning.{sql_meaning, inside};

use office_base::counts::Sequence;
use office_base::ledger::{LedgerRow, LineAmounts};
use office_base::puts::Put;
use office_base::records::{
    AwardRow, BatchRow, ClockRow, CompiledRow, ContractRow, EntryRow, EnvelopeRow, LateRow,
    LineRow, LotRow, NoticeRow, PerformanceRow, ReleaseRow, SealRow, SecurityRow, TendererRow,
};
use office_base::shelf::{Lookups, Shelf, ShelfFault};
use office_store::shelf::SqlShelf;
use office_values::given::AskedNumber;
use office_values::id::Id;
use sqlite::MemStore;
use std::alloc::Global;

/// An office in SQL in memory.
pub struct SqlOffice {
    /// The store over its tables.
    pub shelf: SqlShelf<MemStore>,
}

/// An empty office. None if memory is too small.
pub fn in_sql(alloc: Global) -> Option<SqlOffice> {
    match SqlShelf::create(alloc) {
        Ok(shelf) => Some(SqlOffice { shelf }),
        Err(_) => None,
    }
}

impl Drop for SqlOffice {
    fn drop(self) {
        let SqlOffice { shelf: _ } = self;
    }
}

impl Lookups for SqlOffice {
    ghost meaning = { inside (λ s. s.shelf) (sql_meaning over_memory) };

    ghost held_sorted = { λ shelf t held. held.0 };

    fn get_line(&mut self, line: &Id) -> Result<Option<LineRow>, ShelfFault> {
        self.shelf.get_line(line)
    }

    fn get_batch(&mut self, batch: &Id) -> Result<Option<BatchRow>, ShelfFault> {
        self.shelf.get_batch(batch)
    }

    fn get_tenderer(&mut self, tenderer: &Id) -> Result<Option<TendererRow>, ShelfFault> {
        self.shelf.get_tenderer(tenderer)
    }

    fn get_notice(&mut self, notice: &Id) -> Result<Option<NoticeRow>, ShelfFault> {
        self.shelf.get_notice(notice)
    }

    fn get_lot(&mut self, notice: &Id, lot: &Id) -> Result<Option<LotRow>, ShelfFault> {
        self.shelf.get_lot(notice, lot)
    }

    fn get_envelope(&mut self, receipt: AskedNumber) -> Result<Option<EnvelopeRow>, ShelfFault> {
        self.shelf.get_envelope(receipt)
    }

    fn get_seal(&mut self, receipt: AskedNumber) -> Result<Option<SealRow>, ShelfFault> {
        self.shelf.get_seal(receipt)
    }

    fn get_security(&mut self, security: AskedNumber) -> Result<Option<SecurityRow>, ShelfFault> {
        self.shelf.get_security(security)
    }

    fn get_award(&mut self, award: AskedNumber) -> Result<Option<AwardRow>, ShelfFault> {
        self.shelf.get_award(award)
    }

    fn get_contract(&mut self, contract: AskedNumber) -> Result<Option<ContractRow>, ShelfFault> {
        self.shelf.get_contract(contract)
    }

    fn get_entry(
        &mut self,
        contract: AskedNumber,
        entry: &Id,
    ) -> Result<Option<EntryRow>, ShelfFault> {
        self.shelf.get_entry(contract, entry)
    }

    fn get_release(
        &mut self,
        notice: &Id,
        seq: Sequence,
    ) -> Result<Option<ReleaseRow>, ShelfFault> {
        self.shelf.get_release(notice, seq)
    }

    fn get_compiled(&mut self, notice: &Id) -> Result<Option<CompiledRow>, ShelfFault> {
        self.shelf.get_compiled(notice)
    }

    fn get_late(&mut self, notice: &Id) -> Result<Option<LateRow>, ShelfFault> {
        self.shelf.get_late(notice)
    }

    fn get_performance(
        &mut self,
        contract: AskedNumber,
    ) -> Result<Option<PerformanceRow>, ShelfFault> {
        self.shelf.get_performance(contract)
    }

    fn get_clock(&mut self) -> Result<ClockRow, ShelfFault> {
        self.shelf.get_clock()
    }

    fn list_lines(&mut self) -> Result<Vec<LineRow>, ShelfFault> {
        self.shelf.list_lines()
    }

    fn list_notices_after(
        &mut self,
        after: Option<Id>,
        most: u32,
    ) -> Result<Vec<NoticeRow>, ShelfFault> {
        self.shelf.list_notices_after(after, most)
    }

    fn list_tenderers_after(
        &mut self,
        after: Option<Id>,
        most: u32,
    ) -> Result<Vec<TendererRow>, ShelfFault> {
        self.shelf.list_tenderers_after(after, most)
    }

    fn list_lots_of_notice(&mut self, notice: &Id) -> Result<Vec<LotRow>, ShelfFault> {
        self.shelf.list_lots_of_notice(notice)
    }

    fn list_lots_of_line(&mut self, line: &Id) -> Result<Vec<LotRow>, ShelfFault> {
        self.shelf.list_lots_of_line(line)
    }

    fn list_envelopes_of_notice(&mut self, notice: &Id) -> Result<Vec<EnvelopeRow>, ShelfFault> {
        self.shelf.list_envelopes_of_notice(notice)
    }

    fn list_envelopes_of_lot(
        &mut self,
        notice: &Id,
        lot: &Id,
    ) -> Result<Vec<EnvelopeRow>, ShelfFault> {
        self.shelf.list_envelopes_of_lot(notice, lot)
    }

    fn list_envelopes_of_tenderer(
        &mut self,
        notice: &Id,
        lot: &Id,
        tenderer: &Id,
    ) -> Result<Vec<EnvelopeRow>, ShelfFault> {
        self.shelf.list_envelopes_of_tenderer(notice, lot, tenderer)
    }

    fn list_securities_of_notice(&mut self, notice: &Id) -> Result<Vec<SecurityRow>, ShelfFault> {
        self.shelf.list_securities_of_notice(notice)
    }

    fn list_securities_of_lot(
        &mut self,
        notice: &Id,
        lot: &Id,
    ) -> Result<Vec<SecurityRow>, ShelfFault> {
        self.shelf.list_securities_of_lot(notice, lot)
    }

    fn list_awards_of_notice(&mut self, notice: &Id) -> Result<Vec<AwardRow>, ShelfFault> {
        self.shelf.list_awards_of_notice(notice)
    }

    fn list_contracts_of_notice(&mut self, notice: &Id) -> Result<Vec<ContractRow>, ShelfFault> {
        self.shelf.list_contracts_of_notice(notice)
    }

    fn list_entries_of_contract(
        &mut self,
        contract: AskedNumber,
    ) -> Result<Vec<EntryRow>, ShelfFault> {
        self.shelf.list_entries_of_contract(contract)
    }

    fn list_releases_of_notice(&mut self, notice: &Id) -> Result<Vec<ReleaseRow>, ShelfFault> {
        self.shelf.list_releases_of_notice(notice)
    }

    fn list_release_numbers(&mut self, notice: &Id) -> Result<Vec<Sequence>, ShelfFault> {
        self.shelf.list_release_numbers(notice)
    }

    fn list_amounts_of_line(&mut self, line: &Id) -> Result<LineAmounts, ShelfFault> {
        self.shelf.list_amounts_of_line(line)
    }

    fn ledger(&mut self) -> Result<Vec<LedgerRow>, ShelfFault> {
        self.shelf.ledger()
    }

    fn faults(&mut self) -> u64 {
        self.shelf.faults()
    }
}

impl Shelf for SqlOffice {
    fn apply(&mut self, puts: Vec<Put>) -> Result<(), ShelfFault> {
        self.shelf.apply(puts)
    }
}
