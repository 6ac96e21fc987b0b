//! The look-ups of a store that remembers: those of the store inside, but for balances, the numbers of releases, and rows that were found before.
ghost use Rattle.office_sums.specs.RememberingMeaning.{remembering};

use crate::asking::{self, sum_row};
use crate::carried::EntrySums;
use crate::shelf::RememberingShelf;
use office_base::counts::Sequence;
use office_base::ledger::{LedgerRow, LineAmounts, Pots};
use office_base::records::{
    AwardRow, BatchRow, ClockRow, CompiledRow, ContractRow, EntryRow, EnvelopeRow, LateRow,
    LineRow, LotRow, NoticeRow, PerformanceRow, ReleaseRow, SealRow, SecurityRow, TendererRow,
};
use office_base::shelf::{Lookups, ShelfFault};
use office_values::given::AskedNumber;
use office_values::id::Id;

// Passes the answer of a call on, and counts its fault.
macro_rules! counted {
    ($shelf:ident, $call:expr) => {{
        let answer = $call;
        $shelf.told(answer)
    }};
}

// Passes on the answer that is remembered for a key, or else that of a call, which is then remembered. Counts its fault.
macro_rules! remembered {
    ($shelf:ident, $rows:ident, $key:expr, $remember:ident, $asked:expr, $call:expr) => {{
        if let Some(answer) = $shelf.found.$rows.get($key) {
            return Ok(answer);
        }
        let answer = $call;
        if let Ok(row) = &answer {
            $shelf.found.$remember($asked, row);
        }
        $shelf.told(answer)
    }};
}

impl<H: Lookups> Lookups for RememberingShelf<H> {
    ghost meaning = { remembering H.meaning };

    ghost held_sorted = { λ shelf t held. H.held_sorted shelf.shelf t held.0 };

    fn get_line(&mut self, line: &Id) -> Result<Option<LineRow>, ShelfFault> {
        remembered!(
            self,
            lines,
            line,
            remember_line,
            line,
            self.shelf.get_line(line)
        )
    }

    fn get_batch(&mut self, batch: &Id) -> Result<Option<BatchRow>, ShelfFault> {
        counted!(self, self.shelf.get_batch(batch))
    }

    fn get_tenderer(&mut self, tenderer: &Id) -> Result<Option<TendererRow>, ShelfFault> {
        remembered!(
            self,
            tenderers,
            tenderer,
            remember_tenderer,
            tenderer,
            self.shelf.get_tenderer(tenderer)
        )
    }

    fn get_notice(&mut self, notice: &Id) -> Result<Option<NoticeRow>, ShelfFault> {
        remembered!(
            self,
            notices,
            notice,
            remember_notice,
            notice,
            self.shelf.get_notice(notice)
        )
    }

    fn get_lot(&mut self, notice: &Id, lot: &Id) -> Result<Option<LotRow>, ShelfFault> {
        let key = (*notice, *lot);
        remembered!(
            self,
            lots,
            &key,
            remember_lot,
            key,
            self.shelf.get_lot(notice, lot)
        )
    }

    fn get_envelope(&mut self, receipt: AskedNumber) -> Result<Option<EnvelopeRow>, ShelfFault> {
        counted!(self, self.shelf.get_envelope(receipt))
    }

    fn get_seal(&mut self, receipt: AskedNumber) -> Result<Option<SealRow>, ShelfFault> {
        counted!(self, self.shelf.get_seal(receipt))
    }

    fn get_security(&mut self, security: AskedNumber) -> Result<Option<SecurityRow>, ShelfFault> {
        counted!(self, self.shelf.get_security(security))
    }

    fn get_award(&mut self, award: AskedNumber) -> Result<Option<AwardRow>, ShelfFault> {
        remembered!(
            self,
            awards,
            &award.get(),
            remember_award,
            award,
            self.shelf.get_award(award)
        )
    }

    fn get_contract(&mut self, contract: AskedNumber) -> Result<Option<ContractRow>, ShelfFault> {
        remembered!(
            self,
            contracts,
            &contract.get(),
            remember_contract,
            contract,
            self.shelf.get_contract(contract)
        )
    }

    fn get_entry(
        &mut self,
        contract: AskedNumber,
        entry: &Id,
    ) -> Result<Option<EntryRow>, ShelfFault> {
        counted!(self, self.shelf.get_entry(contract, entry))
    }

    fn get_release(
        &mut self,
        notice: &Id,
        seq: Sequence,
    ) -> Result<Option<ReleaseRow>, ShelfFault> {
        counted!(self, self.shelf.get_release(notice, seq))
    }

    fn get_compiled(&mut self, notice: &Id) -> Result<Option<CompiledRow>, ShelfFault> {
        counted!(self, self.shelf.get_compiled(notice))
    }

    fn get_late(&mut self, notice: &Id) -> Result<Option<LateRow>, ShelfFault> {
        counted!(self, self.shelf.get_late(notice))
    }

    fn get_performance(
        &mut self,
        contract: AskedNumber,
    ) -> Result<Option<PerformanceRow>, ShelfFault> {
        counted!(self, self.shelf.get_performance(contract))
    }

    fn get_clock(&mut self) -> Result<ClockRow, ShelfFault> {
        counted!(self, self.shelf.get_clock())
    }

    fn list_lines(&mut self) -> Result<Vec<LineRow>, ShelfFault> {
        counted!(self, self.shelf.list_lines())
    }

    fn list_notices_after(
        &mut self,
        after: Option<Id>,
        most: u32,
    ) -> Result<Vec<NoticeRow>, ShelfFault> {
        counted!(self, self.shelf.list_notices_after(after, most))
    }

    fn list_tenderers_after(
        &mut self,
        after: Option<Id>,
        most: u32,
    ) -> Result<Vec<TendererRow>, ShelfFault> {
        counted!(self, self.shelf.list_tenderers_after(after, most))
    }

    fn list_lots_of_notice(&mut self, notice: &Id) -> Result<Vec<LotRow>, ShelfFault> {
        counted!(self, self.shelf.list_lots_of_notice(notice))
    }

    fn list_lots_of_line(&mut self, line: &Id) -> Result<Vec<LotRow>, ShelfFault> {
        counted!(self, self.shelf.list_lots_of_line(line))
    }

    fn list_envelopes_of_notice(&mut self, notice: &Id) -> Result<Vec<EnvelopeRow>, ShelfFault> {
        counted!(self, self.shelf.list_envelopes_of_notice(notice))
    }

    fn list_envelopes_of_lot(
        &mut self,
        notice: &Id,
        lot: &Id,
    ) -> Result<Vec<EnvelopeRow>, ShelfFault> {
        counted!(self, self.shelf.list_envelopes_of_lot(notice, lot))
    }

    fn list_envelopes_of_tenderer(
        &mut self,
        notice: &Id,
        lot: &Id,
        tenderer: &Id,
    ) -> Result<Vec<EnvelopeRow>, ShelfFault> {
        counted!(
            self,
            self.shelf.list_envelopes_of_tenderer(notice, lot, tenderer)
        )
    }

    fn list_securities_of_notice(&mut self, notice: &Id) -> Result<Vec<SecurityRow>, ShelfFault> {
        counted!(self, self.shelf.list_securities_of_notice(notice))
    }

    fn list_securities_of_lot(
        &mut self,
        notice: &Id,
        lot: &Id,
    ) -> Result<Vec<SecurityRow>, ShelfFault> {
        counted!(self, self.shelf.list_securities_of_lot(notice, lot))
    }

    fn list_awards_of_notice(&mut self, notice: &Id) -> Result<Vec<AwardRow>, ShelfFault> {
        counted!(self, self.shelf.list_awards_of_notice(notice))
    }

    fn list_contracts_of_notice(&mut self, notice: &Id) -> Result<Vec<ContractRow>, ShelfFault> {
        counted!(self, self.shelf.list_contracts_of_notice(notice))
    }

    fn list_entries_of_contract(
        &mut self,
        contract: AskedNumber,
    ) -> Result<Vec<EntryRow>, ShelfFault> {
        let answer = self.shelf.list_entries_of_contract(contract);
        if let Ok(entries) = &answer {
            self.listed = EntrySums::of(contract, entries);
        }
        self.told(answer)
    }

    fn list_releases_of_notice(&mut self, notice: &Id) -> Result<Vec<ReleaseRow>, ShelfFault> {
        counted!(self, self.shelf.list_releases_of_notice(notice))
    }

    fn list_release_numbers(&mut self, notice: &Id) -> Result<Vec<Sequence>, ShelfFault> {
        if let Some(numbers) = self.counts.numbers(self.alloc, notice) {
            return Ok(numbers);
        }
        let answer = self.shelf.list_release_numbers(notice);
        if let Ok(numbers) = &answer {
            self.counts.remember(notice, numbers);
        }
        self.told(answer)
    }

    fn list_amounts_of_line(&mut self, line: &Id) -> Result<LineAmounts, ShelfFault> {
        counted!(self, self.shelf.list_amounts_of_line(line))
    }

    fn sum_line(&mut self, row: &LineRow) -> Result<Pots, ShelfFault> {
        match counted!(self, sum_row(&mut self.shelf, &mut self.known, row)) {
            Ok(Some(pots)) => Ok(pots),
            Ok(None) => Err(ShelfFault::Store),
            Err(fault) => Err(fault),
        }
    }

    fn ledger(&mut self) -> Result<Vec<LedgerRow>, ShelfFault> {
        counted!(
            self,
            asking::ledger(self.alloc, &mut self.shelf, &mut self.known)
        )
    }

    fn faults(&mut self) -> u64 {
        self.faults
    }
}
