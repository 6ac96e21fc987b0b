//! The traits of a store: it looks up the rows of an office, and makes changes.
ghost use Rattle.std.specs.Prelude.{◌≡◌};
ghost use Rattle.office_values.specs.declared.refusal.Refusal.TheVariants.{Unavailable};
ghost use Rattle.office_base.specs.Tables.{Tables, IsSorted};
ghost use Rattle.office_base.specs.Tables.{line_at, batch_at, tenderer_at, notice_at, lot_at, envelope_at, seal_at, security_at, award_at, contract_at, entry_at, release_at, compiled_at, late_at, performance_at, lots_of_notice, lots_of_line, envelopes_of_notice, envelopes_of_lot, envelopes_of_tenderer, securities_of_notice, securities_of_lot, awards_of_notice, contracts_of_notice, entries_of_contract, releases_of_notice, release_numbers};
ghost use Rattle.office_base.specs.Pages.{notices_after, tenderers_after};
ghost use Rattle.office_base.specs.Joined.{amounts_of_line, ledger_of, LinesFit};
ghost use Rattle.office_base.specs.PotsAnswers.{IsRowPotsAnswer};
ghost use Rattle.office_base.specs.Shelves.{Meaning, Keeps, Looks, LooksUp, AddsUp, Changes};

use crate::counts::Sequence;
use crate::ledger::{LedgerRow, LineAmounts, Pots};
use crate::pots::pots_over;
use crate::puts::Put;
use crate::records::{
    AwardRow, BatchRow, ClockRow, CompiledRow, ContractRow, EntryRow, EnvelopeRow, LateRow,
    LineRow, LotRow, NoticeRow, PerformanceRow, ReleaseRow, SealRow, SecurityRow, TendererRow,
};
use office_values::given::AskedNumber;
use office_values::id::Id;
use office_values::refusal::Refusal;

/// The reason for which a store didn't answer. Its content is as before.
#[derive(Clone, Copy, Debug, PartialEq, Eq)]
pub enum ShelfFault {
    /// There was too little memory.
    NoMemory,
    /// The store failed, or it contains something that no office writes.
    Store,
}

impl From<ShelfFault> for Refusal {
    ghost from_gives = { λ _ e. e ≡ Unavailable };

    fn from(_fault: ShelfFault) -> Refusal {
        Refusal::Unavailable
    }
}

/// The look-ups in the tables of an office. They change nothing; only `Shelf::apply` does.
pub trait Lookups {
    ghost meaning: { Meaning Self };

    /// The budget line with this identifier.
    fn get_line(&mut self, line: &Id) -> Result<Option<LineRow>, ShelfFault>
        ensures { LooksUp meaning self.old self.new result (λ t row. row ≡ line_at line.now t) };

    /// The budget file with this identifier.
    fn get_batch(&mut self, batch: &Id) -> Result<Option<BatchRow>, ShelfFault>
        ensures { LooksUp meaning self.old self.new result (λ t row. row ≡ batch_at batch.now t) };

    /// The tenderer with this identifier.
    fn get_tenderer(&mut self, tenderer: &Id) -> Result<Option<TendererRow>, ShelfFault>
        ensures { LooksUp meaning self.old self.new result (λ t row. row ≡ tenderer_at tenderer.now t) };

    /// The notice with this identifier.
    fn get_notice(&mut self, notice: &Id) -> Result<Option<NoticeRow>, ShelfFault>
        ensures { LooksUp meaning self.old self.new result (λ t row. row ≡ notice_at notice.now t) };

    /// The lot of this notice with this identifier.
    fn get_lot(&mut self, notice: &Id, lot: &Id) -> Result<Option<LotRow>, ShelfFault>
        ensures { LooksUp meaning self.old self.new result (λ t row. row ≡ lot_at (notice.now, lot.now) t) };

    /// The tender with this receipt.
    fn get_envelope(&mut self, receipt: AskedNumber) -> Result<Option<EnvelopeRow>, ShelfFault>
        ensures { LooksUp meaning self.old self.new result (λ t row. row ≡ envelope_at receipt t) };

    /// The bytes of the tender with this receipt.
    fn get_seal(&mut self, receipt: AskedNumber) -> Result<Option<SealRow>, ShelfFault>
        ensures { LooksUp meaning self.old self.new result (λ t row. row ≡ seal_at receipt t) };

    /// The tender security with this number.
    fn get_security(&mut self, security: AskedNumber) -> Result<Option<SecurityRow>, ShelfFault>
        ensures { LooksUp meaning self.old self.new result (λ t row. row ≡ security_at security t) };

    /// The award with this number.
    fn get_award(&mut self, award: AskedNumber) -> Result<Option<AwardRow>, ShelfFault>
        ensures { LooksUp meaning self.old self.new result (λ t row. row ≡ award_at award t) };

    /// The contract with this number.
    fn get_contract(&mut self, contract: AskedNumber) -> Result<Option<ContractRow>, ShelfFault>
        ensures { LooksUp meaning self.old self.new result (λ t row. row ≡ contract_at contract t) };

    /// The entry of this contract with this identifier.
    fn get_entry(
        &mut self,
        contract: AskedNumber,
        entry: &Id,
    ) -> Result<Option<EntryRow>, ShelfFault>
        ensures { LooksUp meaning self.old self.new result (λ t row. row ≡ entry_at (contract, entry.now) t) };

    /// The release of this notice with this number.
    fn get_release(&mut self, notice: &Id, seq: Sequence) -> Result<Option<ReleaseRow>, ShelfFault>
        ensures { LooksUp meaning self.old self.new result (λ t row. row ≡ release_at (notice.now, seq) t) };

    /// The compiled release of this notice, if it is stored.
    fn get_compiled(&mut self, notice: &Id) -> Result<Option<CompiledRow>, ShelfFault>
        ensures { LooksUp meaning self.old self.new result (λ t row. row ≡ compiled_at notice.now t) };

    /// The row that allows late withdrawals, if this notice allows them.
    fn get_late(&mut self, notice: &Id) -> Result<Option<LateRow>, ShelfFault>
        ensures { LooksUp meaning self.old self.new result (λ t row. row ≡ late_at notice.now t) };

    /// The performance security of this contract.
    fn get_performance(
        &mut self,
        contract: AskedNumber,
    ) -> Result<Option<PerformanceRow>, ShelfFault>
        ensures { LooksUp meaning self.old self.new result (λ t row. row ≡ performance_at contract t) };

    /// The clock. It has moment 0 and the numbers 0 if the office has accepted no command.
    fn get_clock(&mut self) -> Result<ClockRow, ShelfFault>
        ensures { LooksUp meaning self.old self.new result (λ t row. row ≡ t.clock) };

    /// All budget lines, in the order of their identifiers.
    fn list_lines(&mut self) -> Result<Vec<LineRow>, ShelfFault>
        ensures { LooksUp meaning self.old self.new result (λ t rows. rows.items ≡ t.lines) };

    /// The first `most` notices after the given one, or of all, in the order of their identifiers.
    fn list_notices_after(
        &mut self,
        after: Option<Id>,
        most: u32,
    ) -> Result<Vec<NoticeRow>, ShelfFault>
        ensures { LooksUp meaning self.old self.new result (λ t rows. rows.items ≡ notices_after after most t) };

    /// The first `most` tenderers after the given one, or of all, in the order of their identifiers.
    fn list_tenderers_after(
        &mut self,
        after: Option<Id>,
        most: u32,
    ) -> Result<Vec<TendererRow>, ShelfFault>
        ensures { LooksUp meaning self.old self.new result (λ t rows. rows.items ≡ tenderers_after after most t) };

    /// The lots of a notice, in the order of their identifiers.
    fn list_lots_of_notice(&mut self, notice: &Id) -> Result<Vec<LotRow>, ShelfFault>
        ensures { LooksUp meaning self.old self.new result (λ t rows. rows.items ≡ lots_of_notice notice.now t) };

    /// The lots of a budget line, in the order of their notices and identifiers.
    fn list_lots_of_line(&mut self, line: &Id) -> Result<Vec<LotRow>, ShelfFault>
        ensures { LooksUp meaning self.old self.new result (λ t rows. rows.items ≡ lots_of_line line.now t) };

    /// The tenders of a notice, in the order of their receipts.
    fn list_envelopes_of_notice(&mut self, notice: &Id) -> Result<Vec<EnvelopeRow>, ShelfFault>
        ensures { LooksUp meaning self.old self.new result (λ t rows. rows.items ≡ envelopes_of_notice notice.now t) };

    /// The tenders of a lot, in the order of their receipts.
    fn list_envelopes_of_lot(
        &mut self,
        notice: &Id,
        lot: &Id,
    ) -> Result<Vec<EnvelopeRow>, ShelfFault>
        ensures { LooksUp meaning self.old self.new result (λ t rows. rows.items ≡ envelopes_of_lot notice.now lot.now t) };

    /// The tenders of a lot from this tenderer, in the order of their receipts.
    fn list_envelopes_of_tenderer(
        &mut self,
        notice: &Id,
        lot: &Id,
        tenderer: &Id,
    ) -> Result<Vec<EnvelopeRow>, ShelfFault>
        ensures { LooksUp meaning self.old self.new result (λ t rows. rows.items ≡ envelopes_of_tenderer notice.now lot.now tenderer.now t) };

    /// The tender securities of a notice, in the order of their numbers.
    fn list_securities_of_notice(&mut self, notice: &Id) -> Result<Vec<SecurityRow>, ShelfFault>
        ensures { LooksUp meaning self.old self.new result (λ t rows. rows.items ≡ securities_of_notice notice.now t) };

    /// The tender securities of a lot, in the order of their numbers.
    fn list_securities_of_lot(
        &mut self,
        notice: &Id,
        lot: &Id,
    ) -> Result<Vec<SecurityRow>, ShelfFault>
        ensures { LooksUp meaning self.old self.new result (λ t rows. rows.items ≡ securities_of_lot notice.now lot.now t) };

    /// The awards of a notice, in the order of their numbers.
    fn list_awards_of_notice(&mut self, notice: &Id) -> Result<Vec<AwardRow>, ShelfFault>
        ensures { LooksUp meaning self.old self.new result (λ t rows. rows.items ≡ awards_of_notice notice.now t) };

    /// The contracts of a notice, in the order of their numbers.
    fn list_contracts_of_notice(&mut self, notice: &Id) -> Result<Vec<ContractRow>, ShelfFault>
        ensures { LooksUp meaning self.old self.new result (λ t rows. rows.items ≡ contracts_of_notice notice.now t) };

    /// The entries of a contract, in the order of their identifiers.
    fn list_entries_of_contract(
        &mut self,
        contract: AskedNumber,
    ) -> Result<Vec<EntryRow>, ShelfFault>
        ensures { LooksUp meaning self.old self.new result (λ t rows. rows.items ≡ entries_of_contract contract t) };

    /// The releases of a notice, in the order of their numbers.
    fn list_releases_of_notice(&mut self, notice: &Id) -> Result<Vec<ReleaseRow>, ShelfFault>
        ensures { LooksUp meaning self.old self.new result (λ t rows. rows.items ≡ releases_of_notice notice.now t) };

    /// The numbers of a notice's releases, in their order. No text is read, so it costs far less than the releases.
    fn list_release_numbers(&mut self, notice: &Id) -> Result<Vec<Sequence>, ShelfFault>
        ensures { LooksUp meaning self.old self.new result (λ t numbers. numbers.items ≡ release_numbers notice.now t) };

    /// The amount that each lot of a line has reserved, in the order of notices and identifiers. The sums of each contract of these lots, lot by lot, in the
    /// order of their numbers.
    fn list_amounts_of_line(&mut self, line: &Id) -> Result<LineAmounts, ShelfFault>
        ensures { LooksUp meaning self.old self.new result (λ t amounts. amounts ≡ amounts_of_line line.now t) };

    /// The balances of the budget line with this row. If a sum is outside its range, the error is `Store`, and no fault of the store is counted. A store that
    /// remembers sums has a body of its own.
    fn sum_line(&mut self, row: &LineRow) -> Result<Pots, ShelfFault>
        ensures { Looks meaning self.old self.new (IsRowPotsAnswer meaning.may_break row.now (meaning.fault_count self.old) (meaning.fault_count self.new) result) }
    {
        let amounts = self.list_amounts_of_line(&row.line)?;
        match pots_over(
            row,
            amounts.reserved.as_slice(),
            amounts.contracts.as_slice(),
        ) {
            Some(pots) => Ok(pots),
            None => Err(ShelfFault::Store),
        }
    }

    /// The balances of each budget line, in the order of their identifiers. A sum outside its range is a fault of the store, and is counted.
    fn ledger(&mut self) -> Result<Vec<LedgerRow>, ShelfFault>
        ensures { AddsUp meaning self.old self.new result (λ t rows. rows.items ≡ ledger_of t) LinesFit };

    /// The number of calls that were answered with a fault, from 0 up to 2^64 - 1.
    fn faults(&mut self) -> u64
        ensures number { result ≡ meaning.fault_count self.old }
        ensures counted { meaning.fault_count self.new ≡ meaning.fault_count self.old }
        ensures keeps { Keeps meaning self.old self.new };

    // A law of the type: the tables that a store holds are in the order of their keys.
    ghost held_sorted: { (shelf : Self) (t : Tables) → meaning.holds shelf t → IsSorted t };
}

/// A store of an office: its look-ups, and the one call that changes it.
pub trait Shelf: Lookups {
    /// Makes all changes, in order, or none.
    fn apply(&mut self, puts: Vec<Put>) -> Result<(), ShelfFault>
        ensures { Changes Self.meaning self.old self.new result puts.items };
}
