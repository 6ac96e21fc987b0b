//! The ledger, added up from joined rows, one after another.
ghost use Rattle.std.specs.Prelude.{◌≡◌, ◌-◌, ◌<◌, ◌⊎◌, ◌++◌, List, [], ◌∷◌, OnOk, OnErr, IfErr, Some, None};
ghost use Rattle.office_base.specs.Faults.{IsFaultOf};
ghost use Rattle.office_base.specs.Joined.{ledger_of, LinesFit};
ghost use Rattle.office_base.specs.Shelves.{SumsAnswer};
ghost use Rattle.office_base.specs.Tables.{Tables, IsSorted};
ghost use Rattle.office_ledger.specs.Joins.{joined};
ghost use Rattle.office_ledger.specs.Taking.{AreTooMuch, HasTaken};
ghost use Rattle.office_ledger.specs.Inside.Adding.{closed, done, is_line, enter_line, take_row};
ghost use Rattle.office_ledger.specs.declared.joined.JoinedRow.{JoinedRow};

use crate::joined::JoinedRow;
use crate::line_sums::LineSums;
use office_base::ledger::LedgerRow;
use office_base::pots::joined_sums;
use office_base::shelf::ShelfFault;
use office_values::id::Id;
use office_values::money::Total;
use std::alloc::Global;
use std::marker::Model;

/// The budget line whose rows come now.
#[derive(Clone, Copy)]
pub struct OpenLine {
    line: Id,
    appropriation: Total,
    free: Total,
}

/// A ledger that is being added up. It keeps one row for each line, and none of the joined rows that it takes.
#[derive(Drop)]
pub struct LedgerSums {
    rows: Vec<LedgerRow>,
    line: Option<OpenLine>,
    sums: LineSums,
    left: u64,
}

impl Model for LedgerSums {
    ghost use Rattle.std.specs.Prelude.{◌*◌, Some};
    ghost use Rattle.office_ledger.specs.Taking.{Summing};
    ghost use Rattle.office_ledger.specs.Inside.Adding.{HasRoom};

    ghost Value = { Summing };

    ghost view = { λ s. record { added = record { rows = Some s.rows.items; line = s.line; sums = s.sums }; left = s.left } };

    ghost invariant = { λ s. HasRoom (s.left * 3) s.sums };
}

impl LedgerSums {
    /// A ledger that has taken no row.
    pub fn new(alloc: Global) -> LedgerSums
        ensures { HasTaken [] result }
    {
        LedgerSums {
            rows: Vec::new(alloc),
            line: None,
            sums: LineSums::new(),
            left: u64::MAX,
        }
    }

    // Adds the current line to the ledger.
    fn end_line(&mut self) -> Result<(), ShelfFault>
        ensures ended { OnOk result (self.new ≡ record { added = done self.old.added; left = self.old.left }) }
        ensures kept { OnErr result (self.new ≡ self.old) }
        ensures fault { IfErr result (IsFaultOf (closed self.old.added ≡ None)) }
    {
        let Some(open) = self.line else {
            return Ok(());
        };
        let Some(pots) = self.sums.pots(open.appropriation, open.free) else {
            return Err(ShelfFault::Store);
        };
        let row = LedgerRow {
            line: open.line,
            pots,
        };
        match self.rows.push(row) {
            Ok(()) => {
                self.line = None;
                Ok(())
            }
            Err(_) => Err(ShelfFault::NoMemory),
        }
    }

    fn is_line(&self, line: &Id) -> bool
        ensures { result ≡ is_line line.now self.now.added.line }
    {
        match &self.line {
            Some(open) => open.line == *line,
            None => false,
        }
    }

    // The first row of a line completes the line before it.
    fn enter_line(&mut self, row: &JoinedRow) -> Result<(), ShelfFault>
        ensures entered { OnOk result (self.new ≡ record { added = enter_line row.now self.old.added; left = self.old.left }) }
        ensures kept { OnErr result (self.new ≡ self.old) }
        ensures fault { IfErr result (IsFaultOf ((enter_line row.now self.old.added).rows ≡ None)) }
    {
        if self.is_line(&row.line) {
            return Ok(());
        }
        self.end_line()?;
        self.line = Some(OpenLine {
            line: row.line,
            appropriation: row.appropriation,
            free: row.free,
        });
        self.sums = LineSums::new();
        Ok(())
    }

    fn add(&mut self, row: &JoinedRow) -> Result<(), ShelfFault>
        ensures added { OnOk result (self.new ≡ record { added = take_row row.now self.old.added; left = self.old.left - 1 }) }
        ensures counted { OnOk result (0 < self.old.left) }
        ensures kept { OnErr result (self.new ≡ self.old) }
        ensures fault { IfErr result (IsFaultOf (((enter_line row.now self.old.added).rows ≡ None) ⊎ (self.old.left ≡ 0))) }
    {
        let Some(left) = self.left.checked_sub(1) else {
            return Err(ShelfFault::Store);
        };
        self.enter_line(row)?;
        if let Some(lot) = &row.lot {
            self.sums.take(lot);
        }
        self.left = left;
        Ok(())
    }

    /// Takes one more row. A line, a lot or a contract counts at the first of its rows. A fault leaves the ledger as it was.
    pub fn take(&mut self, row: JoinedRow) -> Result<(), ShelfFault>
        ensures taken { (rows : List JoinedRow) → HasTaken rows self.old → OnOk result (HasTaken (rows ++ row ∷ []) self.new) }
        ensures kept { OnErr result (self.new ≡ self.old) }
        ensures fault { (rows : List JoinedRow) → HasTaken rows self.old → IfErr result (IsFaultOf (AreTooMuch (rows ++ row ∷ []))) }
    {
        joined_sums();
        self.add(&row)
    }

    /// The ledger of an office, after its whole join was taken. A sum out of its range is a fault of the store.
    pub fn finish(mut self) -> Result<Vec<LedgerRow>, ShelfFault>
        ensures { (t : Tables) → IsSorted t → HasTaken (joined t) self → SumsAnswer ⊥ (λ t rows. rows.items ≡ ledger_of t) LinesFit result t }
    {
        joined_sums();
        match self.end_line() {
            Ok(()) => Ok(self.rows),
            Err(fault) => Err(fault),
        }
    }
}
