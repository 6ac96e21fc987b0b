//! The store of an office in SQL: `SqlShelf` is a `Shelf`.
ghost use Rattle.std.specs.Prelude.{◌≡◌, ⊤, IfErr};
ghost use Rattle.sqlite.specs.Held.{state};
ghost use Rattle.sqlite.specs.State.{IsLive};
ghost use Rattle.office_base.specs.Faults.{one_fault_more, count_after, IsFaultOf};
ghost use Rattle.office_store.specs.SqlMeaning.{sql_meaning};

use crate::sums;
use office_base::counts::Sequence;
use office_base::laws::changes_keep_order;
use office_base::ledger::{LedgerRow, LineAmounts};
use office_base::puts::Put;
use office_base::records::{
    AwardRow, BatchRow, ClockRow, CompiledRow, ContractRow, EntryRow, EnvelopeRow, LateRow,
    LineRow, LotRow, NoticeRow, PerformanceRow, ReleaseRow, SealRow, SecurityRow, TendererRow,
};
use office_base::shelf::{Lookups, Shelf, ShelfFault};
use office_changes::apply::apply_all;
use office_tables::faults::fault;
use office_tables::laws::trees_tell_one_office;
use office_tables::tables::{
    awards, batches, compiled, contracts, entries, envelopes, late_rules, lines, lots, notices,
    office, performances, releases, seals, securities, tenderers,
};
use office_values::given::AskedNumber;
use office_values::id::Id;
use sqlite::{Alter, Connection};
use std::alloc::Global;
use std::marker::Model;

/// An office in a database: its connection, and the number of faults that it returned.
pub struct SqlShelf<S: Alter> {
    pub(crate) alloc: Global,
    pub(crate) conn: Connection<S>,
    pub(crate) faults: u64,
}

impl<S: Alter> Model for SqlShelf<S> {
    ghost use Rattle.std.specs.Prelude.{ℕ};
    ghost use Rattle.std.specs.Coded.{coded×, coded_ℕ};
    ghost use Rattle.sqlite.specs.Held.{Held, held_code};

    ghost Value = { Held S × ℕ };

    ghost coded = { coded× (held_code S.code) coded_ℕ };

    ghost view = { λ s. (s.conn, s.faults) };
}

impl<S: Alter + Drop> Drop for SqlShelf<S> {
    fn drop(self) {
        let SqlShelf {
            alloc: _,
            conn: _,
            faults: _,
        } = self;
    }
}

impl<S: Alter> SqlShelf<S> {
    /// The connection alone, for a caller that can't close the store.
    pub fn into_connection(self) -> Connection<S>
        ensures { result ≡ self.0 }
    {
        let SqlShelf {
            alloc: _,
            conn,
            faults: _,
        } = self;
        conn
    }

    // Counts a fault, and returns it.
    pub(crate) fn count(&mut self, fault: ShelfFault) -> ShelfFault
        ensures fault { result ≡ fault }
        ensures kept { self.new.0 ≡ self.old.0 }
        ensures counted { self.new.1 ≡ one_fault_more self.old.1 }
        ensures cause { IsFaultOf ⊤ result }
    {
        self.faults = self.faults.saturating_add(1);
        match fault {
            ShelfFault::NoMemory => ShelfFault::NoMemory,
            ShelfFault::Store => ShelfFault::Store,
        }
    }

    // Returns the answer, and counts a fault.
    fn told<T>(&mut self, answer: Result<T, ShelfFault>) -> Result<T, ShelfFault>
        ensures same { result ≡ answer }
        ensures kept { self.new.0 ≡ self.old.0 }
        ensures counted { self.new.1 ≡ count_after result self.old.1 }
        ensures cause { IfErr result (IsFaultOf ⊤) }
    {
        match answer {
            Ok(found) => Ok(found),
            Err(fault) => Err(self.count(fault)),
        }
    }
}

/// A law: while a store is open, its last commit is sound.
pub(crate) fn is_live<S: Alter>(conn: &Connection<S>)
    ensures { IsLive (state S.Store conn.now) }
{
    let _schema = conn.schema();
}

impl<S: Alter> Lookups for SqlShelf<S> {
    ghost meaning = { sql_meaning S.Store };

    ghost held_sorted = { λ shelf t held. held.0 };

    fn get_line(&mut self, line: &Id) -> Result<Option<LineRow>, ShelfFault> {
        let found = lines::get_line(self.alloc, &mut self.conn, line);
        self.told(found)
    }

    fn get_batch(&mut self, batch: &Id) -> Result<Option<BatchRow>, ShelfFault> {
        let found = batches::get_batch(self.alloc, &mut self.conn, batch);
        self.told(found)
    }

    fn get_tenderer(&mut self, tenderer: &Id) -> Result<Option<TendererRow>, ShelfFault> {
        let found = tenderers::get_tenderer(self.alloc, &mut self.conn, tenderer);
        self.told(found)
    }

    fn get_notice(&mut self, notice: &Id) -> Result<Option<NoticeRow>, ShelfFault> {
        let found = notices::get_notice(self.alloc, &mut self.conn, notice);
        self.told(found)
    }

    fn get_lot(&mut self, notice: &Id, lot: &Id) -> Result<Option<LotRow>, ShelfFault> {
        let found = lots::get_lot(self.alloc, &mut self.conn, notice, lot);
        self.told(found)
    }

    fn get_envelope(&mut self, receipt: AskedNumber) -> Result<Option<EnvelopeRow>, ShelfFault> {
        let found = envelopes::get_envelope(self.alloc, &mut self.conn, receipt);
        self.told(found)
    }

    fn get_seal(&mut self, receipt: AskedNumber) -> Result<Option<SealRow>, ShelfFault> {
        let found = seals::get_seal(self.alloc, &mut self.conn, receipt);
        self.told(found)
    }

    fn get_security(&mut self, security: AskedNumber) -> Result<Option<SecurityRow>, ShelfFault> {
        let found = securities::get_security(self.alloc, &mut self.conn, security);
        self.told(found)
    }

    fn get_award(&mut self, award: AskedNumber) -> Result<Option<AwardRow>, ShelfFault> {
        let found = awards::get_award(self.alloc, &mut self.conn, award);
        self.told(found)
    }

    fn get_contract(&mut self, contract: AskedNumber) -> Result<Option<ContractRow>, ShelfFault> {
        let found = contracts::get_contract(self.alloc, &mut self.conn, contract);
        self.told(found)
    }

    fn get_entry(
        &mut self,
        contract: AskedNumber,
        entry: &Id,
    ) -> Result<Option<EntryRow>, ShelfFault> {
        let found = entries::get_entry(self.alloc, &mut self.conn, contract, entry);
        self.told(found)
    }

    fn get_release(
        &mut self,
        notice: &Id,
        seq: Sequence,
    ) -> Result<Option<ReleaseRow>, ShelfFault> {
        let found = releases::get_release(self.alloc, &mut self.conn, notice, seq);
        self.told(found)
    }

    fn get_compiled(&mut self, notice: &Id) -> Result<Option<CompiledRow>, ShelfFault> {
        let found = compiled::get_compiled(self.alloc, &mut self.conn, notice);
        self.told(found)
    }

    fn get_late(&mut self, notice: &Id) -> Result<Option<LateRow>, ShelfFault> {
        let found = late_rules::get_late(self.alloc, &mut self.conn, notice);
        self.told(found)
    }

    fn get_performance(
        &mut self,
        contract: AskedNumber,
    ) -> Result<Option<PerformanceRow>, ShelfFault> {
        let found = performances::get_performance(self.alloc, &mut self.conn, contract);
        self.told(found)
    }

    fn get_clock(&mut self) -> Result<ClockRow, ShelfFault> {
        let clock = office::get_clock(self.alloc, &mut self.conn);
        self.told(clock)
    }

    fn list_lines(&mut self) -> Result<Vec<LineRow>, ShelfFault> {
        let rows = lines::list_lines(self.alloc, &mut self.conn);
        self.told(rows)
    }

    fn list_notices_after(
        &mut self,
        after: Option<Id>,
        most: u32,
    ) -> Result<Vec<NoticeRow>, ShelfFault> {
        let rows = notices::list_notices_after(self.alloc, &mut self.conn, after, most);
        self.told(rows)
    }

    fn list_tenderers_after(
        &mut self,
        after: Option<Id>,
        most: u32,
    ) -> Result<Vec<TendererRow>, ShelfFault> {
        let rows = tenderers::list_tenderers_after(self.alloc, &mut self.conn, after, most);
        self.told(rows)
    }

    fn list_lots_of_notice(&mut self, notice: &Id) -> Result<Vec<LotRow>, ShelfFault> {
        let rows = lots::list_lots_of_notice(self.alloc, &mut self.conn, notice);
        self.told(rows)
    }

    fn list_lots_of_line(&mut self, line: &Id) -> Result<Vec<LotRow>, ShelfFault> {
        let rows = lots::list_lots_of_line(self.alloc, &mut self.conn, line);
        self.told(rows)
    }

    fn list_envelopes_of_notice(&mut self, notice: &Id) -> Result<Vec<EnvelopeRow>, ShelfFault> {
        let rows = envelopes::list_envelopes_of_notice(self.alloc, &mut self.conn, notice);
        self.told(rows)
    }

    fn list_envelopes_of_lot(
        &mut self,
        notice: &Id,
        lot: &Id,
    ) -> Result<Vec<EnvelopeRow>, ShelfFault> {
        let rows = envelopes::list_envelopes_of_lot(self.alloc, &mut self.conn, notice, lot);
        self.told(rows)
    }

    fn list_envelopes_of_tenderer(
        &mut self,
        notice: &Id,
        lot: &Id,
        tenderer: &Id,
    ) -> Result<Vec<EnvelopeRow>, ShelfFault> {
        let rows = envelopes::list_envelopes_of_tenderer(
            self.alloc,
            &mut self.conn,
            notice,
            lot,
            tenderer,
        );
        self.told(rows)
    }

    fn list_securities_of_notice(&mut self, notice: &Id) -> Result<Vec<SecurityRow>, ShelfFault> {
        let rows = securities::list_securities_of_notice(self.alloc, &mut self.conn, notice);
        self.told(rows)
    }

    fn list_securities_of_lot(
        &mut self,
        notice: &Id,
        lot: &Id,
    ) -> Result<Vec<SecurityRow>, ShelfFault> {
        let rows = securities::list_securities_of_lot(self.alloc, &mut self.conn, notice, lot);
        self.told(rows)
    }

    fn list_awards_of_notice(&mut self, notice: &Id) -> Result<Vec<AwardRow>, ShelfFault> {
        let rows = awards::list_awards_of_notice(self.alloc, &mut self.conn, notice);
        self.told(rows)
    }

    fn list_contracts_of_notice(&mut self, notice: &Id) -> Result<Vec<ContractRow>, ShelfFault> {
        let rows = contracts::list_contracts_of_notice(self.alloc, &mut self.conn, notice);
        self.told(rows)
    }

    fn list_entries_of_contract(
        &mut self,
        contract: AskedNumber,
    ) -> Result<Vec<EntryRow>, ShelfFault> {
        let rows = entries::list_entries_of_contract(self.alloc, &mut self.conn, contract);
        self.told(rows)
    }

    fn list_releases_of_notice(&mut self, notice: &Id) -> Result<Vec<ReleaseRow>, ShelfFault> {
        let rows = releases::list_releases_of_notice(self.alloc, &mut self.conn, notice);
        self.told(rows)
    }

    fn list_release_numbers(&mut self, notice: &Id) -> Result<Vec<Sequence>, ShelfFault> {
        let numbers = releases::list_release_numbers(self.alloc, &mut self.conn, notice);
        self.told(numbers)
    }

    fn list_amounts_of_line(&mut self, line: &Id) -> Result<LineAmounts, ShelfFault> {
        match sums::amounts_of_line(self.alloc, &mut self.conn, line) {
            Ok(amounts) => Ok(amounts),
            Err(fault) => Err(self.count(fault)),
        }
    }

    fn ledger(&mut self) -> Result<Vec<LedgerRow>, ShelfFault> {
        match sums::ledger(self.alloc, &mut self.conn) {
            Ok(rows) => Ok(rows),
            Err(fault) => Err(self.count(fault)),
        }
    }

    fn faults(&mut self) -> u64 {
        self.faults
    }
}

impl<S: Alter> Shelf for SqlShelf<S> {
    fn apply(&mut self, puts: Vec<Put>) -> Result<(), ShelfFault> {
        trees_tell_one_office();
        changes_keep_order();
        is_live(&self.conn);
        match apply_all(self.alloc, &mut self.conn, puts.as_slice()) {
            Ok(()) => Ok(()),
            Err(error) => Err(self.count(fault(error))),
        }
    }
}
