//! The register of a notice's tenders, as a text.
ghost use Rattle.std.specs.Prelude.{◌≡◌, ◌++◌, IfOk};
ghost use Rattle.tender_papers.specs.Register.{register_line, register_text, state_word};

use crate::lines::Lines;
use office_base::records::{EnvelopeRow, EnvelopeState};
use office_values::id::Id;
use office_values::text::Bytes;
use std::alloc::{AllocError, Global};

// The first line is shorter than this.
const HEAD_ROOM: usize = 48;

// The line of a tender is shorter than this.
const ROW_ROOM: usize = 128;

// The word for the state of a tender.
fn word_of(state: EnvelopeState) -> &'static [u8]
    ensures { result.now ≡ state_word state }
{
    match state {
        EnvelopeState::Sealed => b"sealed",
        EnvelopeState::Withdrawn => b"withdrawn",
        EnvelopeState::Returned => b"returned",
        EnvelopeState::Opened => b"opened",
    }
}

// Appends the line of a tender.
fn put_envelope(lines: &mut Lines, row: &EnvelopeRow) -> Result<(), AllocError>
    ensures { IfOk result (λ _. lines.new ≡ lines.old ++ register_line row.now) }
{
    lines.number(row.receipt.get())?;
    lines.field(row.lot.as_bytes())?;
    lines.field(&row.moment.text())?;
    lines.number(row.length.get())?;
    lines.last(word_of(row.state))
}

/// The text of the register of a notice: a line that names it, and a line for each of these tenders, in their order. The fields are the receipt, the lot, the
/// moment, the length and the state, but neither a digest nor a tenderer. A tab separates two fields, and a line feed ends each line.
pub fn register_text(alloc: Global, notice: Id, rows: &[EnvelopeRow]) -> Result<Bytes, AllocError>
    ensures { IfOk result (λ text. text ≡ register_text notice rows.now) }
{
    let mut lines = Lines::with_room(alloc, HEAD_ROOM, rows.len(), ROW_ROOM)?;
    lines.field(b"REGISTER")?;
    lines.last(notice.as_bytes())?;
    for row in rows {
        put_envelope(&mut lines, row)?;
    }
    Ok(lines.into_bytes())
}
