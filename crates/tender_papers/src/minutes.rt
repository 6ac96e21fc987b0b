//! The minutes of an opening, as a text (UNCITRAL Model Law 2011, article 42).
ghost use Rattle.std.specs.Prelude.{◌≡◌, ◌++◌, ◌∷◌, [], IfOk, filter};
ghost use Rattle.std.specs.List.{flat_map};
ghost use Rattle.office_values.specs.Moments.{moment_text};
ghost use Rattle.tender_papers.specs.Lines.{line};
ghost use Rattle.tender_papers.specs.Minutes.{is_of, lot_lines, minutes_head, minutes_text, reading_fields, tender_line};

use crate::lines::Lines;
use office_base::reading::Reading;
use office_base::records::{LotRow, NoticeRow, TendererRow};
use office_values::given::GivenNumber;
use office_values::id::Id;
use office_values::moment::Moment;
use office_values::text::Bytes;
use std::alloc::{AllocError, Global};

/// An opened tender: its lot, its receipt, its tenderer and its reading.
#[derive(Drop)]
pub struct OpenedTender {
    pub lot: Id,
    pub receipt: GivenNumber,
    pub tenderer: TendererRow,
    pub reading: Reading,
}

// The first three lines and the last one together are shorter than this.
const HEAD_ROOM: usize = 320;

// The line of a lot or a tender is shorter than this.
const ROW_ROOM: usize = 544;

// Appends the reading of a tender, up to the end of its line.
fn put_reading(lines: &mut Lines, reading: Reading) -> Result<(), AllocError>
    ensures { IfOk result (λ _. lines.new ≡ lines.old ++ line (reading_fields reading)) }
{
    match reading {
        Reading::Unreadable => lines.last(b"unreadable"),
        Reading::Nonconforming => lines.last(b"nonconforming"),
        Reading::Priced {
            stated,
            corrected,
            corrections,
        } => {
            lines.field(b"priced")?;
            lines.number(stated.units())?;
            lines.number(corrected.units())?;
            lines.last_number(corrections.get())
        }
    }
}

// Appends the line of a tender.
fn put_tender(lines: &mut Lines, tender: &OpenedTender) -> Result<(), AllocError>
    ensures { IfOk result (λ _. lines.new ≡ lines.old ++ tender_line tender.now) }
{
    lines.field(b"tender")?;
    lines.number(tender.receipt.get())?;
    lines.field(tender.tenderer.tenderer.as_bytes())?;
    lines.field(tender.tenderer.name.as_str().as_bytes())?;
    lines.field(tender.tenderer.address.as_str().as_bytes())?;
    put_reading(lines, tender.reading)
}

// Appends the lines of the tenders for a lot.
fn put_tenders(lines: &mut Lines, lot: Id, tenders: &[OpenedTender]) -> Result<(), AllocError>
    ensures { IfOk result (λ _. lines.new ≡ lines.old ++ flat_map tender_line (filter (is_of lot) tenders.now)) }
{
    for tender in tenders {
        if tender.lot == lot {
            put_tender(lines, tender)?;
        }
    }
    Ok(())
}

// Appends the lines of a lot.
fn put_lot(lines: &mut Lines, lot: &LotRow, tenders: &[OpenedTender]) -> Result<(), AllocError>
    ensures { IfOk result (λ _. lines.new ≡ lines.old ++ lot_lines tenders.now lot.now) }
{
    lines.field(b"lot")?;
    lines.field(lot.lot.as_bytes())?;
    lines.last(lot.title.as_str().as_bytes())?;
    put_tenders(lines, lot.lot, tenders)
}

// Appends the line of a moment.
fn put_moment(lines: &mut Lines, word: &[u8], moment: Moment) -> Result<(), AllocError>
    ensures { IfOk result (λ _. lines.new ≡ lines.old ++ line (word.now ∷ moment_text moment ∷ [])) }
{
    lines.field(word)?;
    lines.last(&moment.text())
}

// Appends the first three lines.
fn put_head(lines: &mut Lines, notice: &NoticeRow, opened: Moment) -> Result<(), AllocError>
    ensures { IfOk result (λ _. lines.new ≡ lines.old ++ minutes_head notice.now opened) }
{
    lines.field(b"MINUTES")?;
    lines.field(notice.notice.as_bytes())?;
    lines.last(notice.title.as_str().as_bytes())?;
    put_moment(lines, b"deadline", notice.deadline)?;
    put_moment(lines, b"opened", opened)
}

/// The text of the minutes of an opening. It begins with three lines: the notice, its deadline and the moment of the opening. For each of these lots, in order,
/// it has a line for the lot and one for each of these tenders that is for the lot. Its last line is `END`. A tab separates two fields, and a line feed ends
/// each line.
pub fn minutes_text(
    alloc: Global,
    notice: &NoticeRow,
    opened: Moment,
    lots: &[LotRow],
    tenders: &[OpenedTender],
) -> Result<Bytes, AllocError>
    ensures { IfOk result (λ text. text ≡ minutes_text notice.now opened lots.now tenders.now) }
{
    let rows = lots.len().saturating_add(tenders.len());
    let mut lines = Lines::with_room(alloc, HEAD_ROOM, rows, ROW_ROOM)?;
    put_head(&mut lines, notice, opened)?;
    for lot in lots {
        put_lot(&mut lines, lot, tenders)?;
    }
    lines.last(b"END")?;
    Ok(lines.into_bytes())
}
