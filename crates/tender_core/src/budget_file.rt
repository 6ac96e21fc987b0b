//! Budget files together with the budget lines that they name.
ghost use Rattle.std.specs.Prelude.{◌≡◌};
ghost use Rattle.office_values.specs.Money.{total_limit};
ghost use Rattle.tender_core.specs.Walks.{AreNamed, AreAtMost};

use keyed_table::table::Table;
use office_base::standing::Standing;
use office_commands::budget::BudgetRows;
use std::marker::Model;

/// The rows of a budget file, and the budget lines that they name, with their columns before the file. A line that doesn't exist has no columns. No column is
/// above 10^15.
#[derive(Drop)]
pub struct BudgetFile {
    lines: Table<Standing>,
    rows: BudgetRows,
}

impl Model for BudgetFile {
    ghost use Rattle.office_values.specs.Money.{total_limit};
    ghost use Rattle.tender_core.specs.Walks.{FileOnLines, AreNamed, AreAtMost};

    ghost Value = { FileOnLines };

    ghost view = { λ f. record { lines = f.lines; rows = f.rows } };

    ghost invariant = { λ f. AreNamed f.lines f.rows × AreAtMost total_limit f.lines };
}

impl BudgetFile {
    /// The value of these rows and the lines that they name. It allocates no memory.
    pub fn of(lines: Table<Standing>, rows: BudgetRows) -> BudgetFile
        requires named { AreNamed lines rows }
        requires fit { AreAtMost total_limit lines }
        ensures lines { result.lines ≡ lines }
        ensures rows { result.rows ≡ rows }
    {
        BudgetFile { lines, rows }
    }

    /// The lines and the rows, moved out.
    pub fn into_parts(self) -> (Table<Standing>, BudgetRows)
        ensures lines { result.0 ≡ self.lines }
        ensures rows { result.1 ≡ self.rows }
        ensures named { AreNamed self.lines self.rows }
        ensures fit { AreAtMost total_limit self.lines }
    {
        let BudgetFile { lines, rows } = self;
        (lines, rows)
    }
}
