//! The ledger of an office, as a text.
ghost use Rattle.std.specs.Prelude.{◌≡◌, ◌++◌, IfOk};
ghost use Rattle.tender_papers.specs.Ledger.{ledger_columns, ledger_line, ledger_text};
ghost use Rattle.tender_papers.specs.Lines.{line};

use crate::lines::Lines;
use office_base::ledger::LedgerRow;
use office_values::text::Bytes;
use std::alloc::{AllocError, Global};

// The first two lines together are shorter than this.
const HEAD_ROOM: usize = 64;

// The line of a budget line is shorter than this.
const ROW_ROOM: usize = 128;

// Appends the names of the columns.
fn put_columns(lines: &mut Lines) -> Result<(), AllocError>
    ensures { IfOk result (λ _. lines.new ≡ lines.old ++ line ledger_columns) }
{
    lines.field(b"line")?;
    lines.field(b"appropriation")?;
    lines.field(b"free")?;
    lines.field(b"reserved")?;
    lines.field(b"contracted")?;
    lines.last(b"paid")
}

// Appends the line of a budget line.
fn put_line(lines: &mut Lines, row: &LedgerRow) -> Result<(), AllocError>
    ensures { IfOk result (λ _. lines.new ≡ lines.old ++ ledger_line row.now) }
{
    lines.field(row.line.as_bytes())?;
    lines.number(row.pots.appropriation.units())?;
    lines.number(row.pots.free.units())?;
    lines.number(row.pots.reserved.units())?;
    lines.number(row.pots.contracted.units())?;
    lines.last_number(row.pots.paid.units())
}

/// The text of a ledger: a line `LEDGER`, a line with the names of the columns, and a line for each of these budget lines, in their order. A tab separates two
/// fields, and a line feed ends each line.
pub fn ledger_text(alloc: Global, rows: &[LedgerRow]) -> Result<Bytes, AllocError>
    ensures { IfOk result (λ text. text ≡ ledger_text rows.now) }
{
    let mut lines = Lines::with_room(alloc, HEAD_ROOM, rows.len(), ROW_ROOM)?;
    lines.last(b"LEDGER")?;
    put_columns(&mut lines)?;
    for row in rows {
        put_line(&mut lines, row)?;
    }
    Ok(lines.into_bytes())
}
