//! A store that fails once, for tests.
ghost use Rattle.std.specs.Prelude.{◌≡◌};
ghost use Rattle.office_base.specs.Faults.{one_fault_more};
ghost use Rattle.office_base.specs.Tables.{IsSorted};

use office_base::counts::Sequence;
use office_base::ledger::{LedgerRow, LineAmounts};
use office_base::puts::Put;
use office_base::records::{
    AwardRow, BatchRow, ClockRow, CompiledRow, ContractRow, EntryRow, EnvelopeRow, LateRow,
    LineRow, LotRow, NoticeRow, PerformanceRow, ReleaseRow, SealRow, SecurityRow, TendererRow,
};
use office_base::shelf::{Lookups, Shelf, ShelfFault};
use office_memory::memory::MemoryShelf;
use office_values::given::AskedNumber;
use office_values::id::Id;
use std::alloc::Global;

// Fails, or passes the call on and counts its fault.
macro_rules! passed {
    ($shelf:ident, $call:expr) => {{
        if $shelf.breaks() {
            return Err($shelf.counted(ShelfFault::Store));
        }
        match $call {
            Ok(answer) => Ok(answer),
            Err(fault) => Err($shelf.counted(fault)),
        }
    }};
}

/// An office in memory whose store fails at one call. It passes every other call to the office.
pub struct BrokenShelf {
    shelf: MemoryShelf,
    // The number of calls that it still passes on before that one.
    left: u64,
    faults: u64,
}

impl Drop for BrokenShelf {
    fn drop(self) {
        let BrokenShelf {
            shelf: _,
            left: _,
            faults: _,
        } = self;
    }
}

impl BrokenShelf {
    /// An empty office that fails after this many calls.
    pub fn new(alloc: Global, left: u64) -> BrokenShelf {
        BrokenShelf {
            shelf: MemoryShelf::new(alloc),
            left,
            faults: 0,
        }
    }

    /// The office in memory, whose store never fails.
    pub fn into_memory(self) -> MemoryShelf {
        let BrokenShelf {
            shelf,
            left: _,
            faults: _,
        } = self;
        shelf
    }

    // Whether the store fails at this call.
    fn breaks(&mut self) -> bool
        ensures kept { self.new.shelf ≡ self.old.shelf }
        ensures counted { self.new.faults ≡ self.old.faults }
    {
        let breaks = self.left == 0;
        self.left = self.left.checked_sub(1).unwrap_or(u64::MAX);
        breaks
    }

    // Counts a fault.
    fn counted(&mut self, fault: ShelfFault) -> ShelfFault
        ensures fault { result ≡ fault }
        ensures kept { self.new.shelf ≡ self.old.shelf }
        ensures counted { self.new.faults ≡ one_fault_more self.old.faults }
    {
        self.faults = self.faults.saturating_add(1);
        fault
    }
}

impl Lookups for BrokenShelf {
    ghost meaning = { record {
      holds = λ s t. (s.shelf.0 ≡ t) × IsSorted t;
      honest = λ s. Unit {0};
      may_leave = λ s t. s.shelf.0 ≡ t;
      leaves_sound = λ s. Unit {0};
      fault_count = λ s. s.faults;
      may_break = Unit {0};
      has_failed = λ old new puts. Unit {0};
    } };

    ghost held_sorted = { λ shelf t held. held.1 };

    fn get_line(&mut self, line: &Id) -> Result<Option<LineRow>, ShelfFault> {
        passed!(self, self.shelf.get_line(line))
    }

    fn get_batch(&mut self, batch: &Id) -> Result<Option<BatchRow>, ShelfFault> {
        passed!(self, self.shelf.get_batch(batch))
    }

    fn get_tenderer(&mut self, tenderer: &Id) -> Result<Option<TendererRow>, ShelfFault> {
        passed!(self, self.shelf.get_tenderer(tenderer))
    }

    fn get_notice(&mut self, notice: &Id) -> Result<Option<NoticeRow>, ShelfFault> {
        passed!(self, self.shelf.get_notice(notice))
    }

    fn get_lot(&mut self, notice: &Id, lot: &Id) -> Result<Option<LotRow>, ShelfFault> {
        passed!(self, self.shelf.get_lot(notice, lot))
    }

    fn get_envelope(&mut self, receipt: AskedNumber) -> Result<Option<EnvelopeRow>, ShelfFault> {
        passed!(self, self.shelf.get_envelope(receipt))
    }

    fn get_seal(&mut self, receipt: AskedNumber) -> Result<Option<SealRow>, ShelfFault> {
        passed!(self, self.shelf.get_seal(receipt))
    }

    fn get_security(&mut self, security: AskedNumber) -> Result<Option<SecurityRow>, ShelfFault> {
        passed!(self, self.shelf.get_security(security))
    }

    fn get_award(&mut self, award: AskedNumber) -> Result<Option<AwardRow>, ShelfFault> {
        passed!(self, self.shelf.get_award(award))
    }

    fn get_contract(&mut self, contract: AskedNumber) -> Result<Option<ContractRow>, ShelfFault> {
        passed!(self, self.shelf.get_contract(contract))
    }

    fn get_entry(
        &mut self,
        contract: AskedNumber,
        entry: &Id,
    ) -> Result<Option<EntryRow>, ShelfFault> {
        passed!(self, self.shelf.get_entry(contract, entry))
    }

    fn get_release(
        &mut self,
        notice: &Id,
        seq: Sequence,
    ) -> Result<Option<ReleaseRow>, ShelfFault> {
        passed!(self, self.shelf.get_release(notice, seq))
    }

    fn get_compiled(&mut self, notice: &Id) -> Result<Option<CompiledRow>, ShelfFault> {
        passed!(self, self.shelf.get_compiled(notice))
    }

    fn get_late(&mut self, notice: &Id) -> Result<Option<LateRow>, ShelfFault> {
        passed!(self, self.shelf.get_late(notice))
    }

    fn get_performance(
        &mut self,
        contract: AskedNumber,
    ) -> Result<Option<PerformanceRow>, ShelfFault> {
        passed!(self, self.shelf.get_performance(contract))
    }

    fn get_clock(&mut self) -> Result<ClockRow, ShelfFault> {
        passed!(self, self.shelf.get_clock())
    }

    fn list_lines(&mut self) -> Result<Vec<LineRow>, ShelfFault> {
        passed!(self, self.shelf.list_lines())
    }

    fn list_notices_after(
        &mut self,
        after: Option<Id>,
        most: u32,
    ) -> Result<Vec<NoticeRow>, ShelfFault> {
        passed!(self, self.shelf.list_notices_after(after, most))
    }

    fn list_tenderers_after(
        &mut self,
        after: Option<Id>,
        most: u32,
    ) -> Result<Vec<TendererRow>, ShelfFault> {
        passed!(self, self.shelf.list_tenderers_after(after, most))
    }

    fn list_lots_of_notice(&mut self, notice: &Id) -> Result<Vec<LotRow>, ShelfFault> {
        passed!(self, self.shelf.list_lots_of_notice(notice))
    }

    fn list_lots_of_line(&mut self, line: &Id) -> Result<Vec<LotRow>, ShelfFault> {
        passed!(self, self.shelf.list_lots_of_line(line))
    }

    fn list_envelopes_of_notice(&mut self, notice: &Id) -> Result<Vec<EnvelopeRow>, ShelfFault> {
        passed!(self, self.shelf.list_envelopes_of_notice(notice))
    }

    fn list_envelopes_of_lot(
        &mut self,
        notice: &Id,
        lot: &Id,
    ) -> Result<Vec<EnvelopeRow>, ShelfFault> {
        passed!(self, self.shelf.list_envelopes_of_lot(notice, lot))
    }

    fn list_envelopes_of_tenderer(
        &mut self,
        notice: &Id,
        lot: &Id,
        tenderer: &Id,
    ) -> Result<Vec<EnvelopeRow>, ShelfFault> {
        passed!(
            self,
            self.shelf.list_envelopes_of_tenderer(notice, lot, tenderer)
        )
    }

    fn list_securities_of_notice(&mut self, notice: &Id) -> Result<Vec<SecurityRow>, ShelfFault> {
        passed!(self, self.shelf.list_securities_of_notice(notice))
    }

    fn list_securities_of_lot(
        &mut self,
        notice: &Id,
        lot: &Id,
    ) -> Result<Vec<SecurityRow>, ShelfFault> {
        passed!(self, self.shelf.list_securities_of_lot(notice, lot))
    }

    fn list_awards_of_notice(&mut self, notice: &Id) -> Result<Vec<AwardRow>, ShelfFault> {
        passed!(self, self.shelf.list_awards_of_notice(notice))
    }

    fn list_contracts_of_notice(&mut self, notice: &Id) -> Result<Vec<ContractRow>, ShelfFault> {
        passed!(self, self.shelf.list_contracts_of_notice(notice))
    }

    fn list_entries_of_contract(
        &mut self,
        contract: AskedNumber,
    ) -> Result<Vec<EntryRow>, ShelfFault> {
        passed!(self, self.shelf.list_entries_of_contract(contract))
    }

    fn list_releases_of_notice(&mut self, notice: &Id) -> Result<Vec<ReleaseRow>, ShelfFault> {
        passed!(self, self.shelf.list_releases_of_notice(notice))
    }

    fn list_release_numbers(&mut self, notice: &Id) -> Result<Vec<Sequence>, ShelfFault> {
        passed!(self, self.shelf.list_release_numbers(notice))
    }

    fn list_amounts_of_line(&mut self, line: &Id) -> Result<LineAmounts, ShelfFault> {
        passed!(self, self.shelf.list_amounts_of_line(line))
    }

    // Each fault is named, because the contract of the ledger says of each why it comes.
    fn ledger(&mut self) -> Result<Vec<LedgerRow>, ShelfFault> {
        if self.breaks() {
            return Err(self.counted(ShelfFault::Store));
        }
        match self.shelf.ledger() {
            Ok(rows) => Ok(rows),
            Err(ShelfFault::NoMemory) => Err(self.counted(ShelfFault::NoMemory)),
            Err(ShelfFault::Store) => Err(self.counted(ShelfFault::Store)),
        }
    }

    fn faults(&mut self) -> u64 {
        self.faults
    }
}

impl Shelf for BrokenShelf {
    fn apply(&mut self, puts: Vec<Put>) -> Result<(), ShelfFault> {
        passed!(self, self.shelf.apply(puts))
    }
}
