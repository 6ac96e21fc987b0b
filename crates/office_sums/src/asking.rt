//! The balances of budget lines, from the sums that are remembered or else from the store.
ghost use Rattle.std.specs.Prelude.{◌≡◌, IfErr, IfOk};
ghost use Rattle.office_base.specs.Faults.{IsFaultOf};
ghost use Rattle.office_base.specs.Joined.{ledger_of, pots_of, LineFits, LinesFit};
ghost use Rattle.office_base.specs.Shelves.{Keeps, LooksUp, SumsAnswer};
ghost use Rattle.office_base.specs.Tables.{Tables};
ghost use Rattle.office_sums.specs.Remembered.{AreBalances, IsSummed, Remembers};

use crate::laws::nothing_remembered;
use crate::remembered::RememberedSums;
use crate::sums::pots_by;
use office_base::ledger::{LedgerRow, Pots};
use office_base::pots::{joined_sums, pots_over};
use office_base::records::LineRow;
use office_base::shelf::{Lookups, ShelfFault};
use std::alloc::Global;

// The balances of the line with this row, which the store adds up; None if a sum is outside its range.
fn added_up<H: Lookups>(shelf: &mut H, row: &LineRow) -> Result<Option<Pots>, ShelfFault>
    ensures { LooksUp H.meaning shelf.old shelf.new result (λ t summed. IsSummed row.now t summed) }
{
    joined_sums();
    let amounts = shelf.list_amounts_of_line(&row.line)?;
    Ok(pots_over(
        row,
        amounts.reserved.as_slice(),
        amounts.contracts.as_slice(),
    ))
}

/// The balances of the line with this row; None if a sum is outside its range. They come from the sums that are remembered. Otherwise the store adds up, and the
/// sums are remembered if there is memory for them.
pub fn sum_row<H: Lookups>(
    shelf: &mut H,
    known: &mut RememberedSums,
    row: &LineRow,
) -> Result<Option<Pots>, ShelfFault>
    ensures keeps { Keeps H.meaning shelf.old shelf.new }
    ensures right { H.meaning.honest shelf.new → (t : Tables) → H.meaning.holds shelf.old t → Remembers known.old t → IfOk result (λ summed. IsSummed row.now t summed) }
    ensures cause { IfErr result (IsFaultOf H.meaning.may_break) }
    ensures kept { H.meaning.honest shelf.new → (t : Tables) → H.meaning.holds shelf.old t → Remembers known.old t → Remembers known.new t }
{
    if let Some(sums) = known.get(&row.line) {
        return Ok(Some(pots_by(row, sums)));
    }
    let summed = added_up(shelf, row)?;
    known.remember_summed(row, &summed);
    Ok(summed)
}

// The balances of the line with this row; a sum outside its range is a fault of the store.
fn pots_of_row<H: Lookups>(
    shelf: &mut H,
    known: &mut RememberedSums,
    row: &LineRow,
) -> Result<Pots, ShelfFault>
    ensures keeps { Keeps H.meaning shelf.old shelf.new }
    ensures right { H.meaning.honest shelf.new → (t : Tables) → H.meaning.holds shelf.old t → Remembers known.old t
        → SumsAnswer H.meaning.may_break (λ t pots. pots ≡ pots_of row.now t) (LineFits row.now.line) result t }
    ensures kept { H.meaning.honest shelf.new → (t : Tables) → H.meaning.holds shelf.old t → Remembers known.old t → Remembers known.new t }
{
    match sum_row(shelf, known, row) {
        Ok(Some(pots)) => Ok(pots),
        Ok(None) => Err(ShelfFault::Store),
        Err(fault) => Err(fault),
    }
}

// Forgets all lines, and remembers the sums of these, if there is memory for them.
fn remember_all(known: &mut RememberedSums, rows: &[LedgerRow])
    ensures kept { (t : Tables) → AreBalances rows.now t → Remembers known.new t }
{
    nothing_remembered();
    known.forget_all();
    for row in rows {
        known.remember(&row.line, &row.pots);
    }
}

// The balances of each budget line, which the store adds up; then their sums are remembered.
fn ledger_at_once<H: Lookups>(
    shelf: &mut H,
    known: &mut RememberedSums,
) -> Result<Vec<LedgerRow>, ShelfFault>
    ensures keeps { Keeps H.meaning shelf.old shelf.new }
    ensures right { H.meaning.honest shelf.new → (t : Tables) → H.meaning.holds shelf.old t → SumsAnswer H.meaning.may_break (λ t rows. rows.items ≡ ledger_of t) LinesFit result t }
    ensures kept { H.meaning.honest shelf.new → (t : Tables) → H.meaning.holds shelf.old t → Remembers known.old t → Remembers known.new t }
{
    match shelf.ledger() {
        Ok(rows) => {
            remember_all(known, &rows);
            Ok(rows)
        }
        Err(fault) => Err(fault),
    }
}

// The balances of each of these lines, which are all lines of the office.
fn ledger_by_lines<H: Lookups>(
    alloc: Global,
    shelf: &mut H,
    known: &mut RememberedSums,
    lines: &[LineRow],
) -> Result<Vec<LedgerRow>, ShelfFault>
    ensures keeps { Keeps H.meaning shelf.old shelf.new }
    ensures right { H.meaning.honest shelf.new → (t : Tables) → H.meaning.holds shelf.old t → lines.now ≡ t.lines → Remembers known.old t
        → SumsAnswer H.meaning.may_break (λ t rows. rows.items ≡ ledger_of t) LinesFit result t }
    ensures kept { H.meaning.honest shelf.new → (t : Tables) → H.meaning.holds shelf.old t → Remembers known.old t → Remembers known.new t }
{
    let Ok(mut rows) = Vec::with_capacity(alloc, lines.len()) else {
        return Err(ShelfFault::NoMemory);
    };
    for line in lines {
        let pots = pots_of_row(shelf, known, line)?;
        let row = LedgerRow {
            line: line.line,
            pots,
        };
        if rows.push(row).is_err() {
            return Err(ShelfFault::NoMemory);
        }
    }
    Ok(rows)
}

/// The balances of each budget line, in the order of their identifiers. If more than a tenth of the lines isn't remembered, the store adds all of them up at
/// once.
pub fn ledger<H: Lookups>(
    alloc: Global,
    shelf: &mut H,
    known: &mut RememberedSums,
) -> Result<Vec<LedgerRow>, ShelfFault>
    ensures keeps { Keeps H.meaning shelf.old shelf.new }
    ensures right { H.meaning.honest shelf.new → (t : Tables) → H.meaning.holds shelf.old t → Remembers known.old t
        → SumsAnswer H.meaning.may_break (λ t rows. rows.items ≡ ledger_of t) LinesFit result t }
    ensures kept { H.meaning.honest shelf.new → (t : Tables) → H.meaning.holds shelf.old t → Remembers known.old t → Remembers known.new t }
{
    if known.is_empty() {
        return ledger_at_once(shelf, known);
    }
    let lines = shelf.list_lines()?;
    let missing = lines.len().saturating_sub(known.len());
    if missing > lines.len() / 10 {
        ledger_at_once(shelf, known)
    } else {
        ledger_by_lines(alloc, shelf, known, &lines)
    }
}
