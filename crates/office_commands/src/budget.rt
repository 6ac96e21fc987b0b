//! The rows of a budget file.
ghost use Rattle.std.specs.Prelude.{◌≡◌, ◌≤◌};

use office_values::id::Id;
use office_values::money::Total;
use office_values::text::TextLine;
use std::marker::Model;

/// Whether a row adds money to its budget line or cuts free money from it.
#[derive(Clone, Copy, Debug, PartialEq, Eq)]
pub enum BudgetKind {
    Add,
    Cut,
}

/// A row of a budget file: its budget line, the amount of at least 1 that is added or cut, and the line's title.
#[derive(Drop)]
pub struct BudgetRow {
    pub line: Id,
    pub kind: BudgetKind,
    pub amount: Total,
    pub title: TextLine,
    ghost some: { 1 ≤ amount },
}

/// The rows of a budget file, in the order of the file.
#[derive(Drop)]
pub struct BudgetRows {
    rows: Vec<BudgetRow>,
}

impl Model for BudgetRows {
    ghost use Rattle.std.specs.Prelude.{List};
    ghost use Rattle.office_commands.specs.declared.budget.BudgetRow.{BudgetRow};

    ghost Value = { List BudgetRow };

    ghost view = { λ r. r.rows.items };
}

impl BudgetRows {
    /// The value of these rows. It allocates no memory.
    pub fn from_vec(rows: Vec<BudgetRow>) -> BudgetRows
        ensures { result ≡ rows.items }
    {
        BudgetRows { rows }
    }

    /// The rows, borrowed, in the order of the file.
    pub fn as_slice(&self) -> &[BudgetRow]
        ensures { result.now ≡ self.now }
    {
        self.rows.as_slice()
    }
}
