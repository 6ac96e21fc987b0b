//! The list of an office's notices, as a text.
ghost use Rattle.std.specs.Prelude.{◌≡◌, ◌++◌, ◌∷◌, [], IfOk, decimal};
ghost use Rattle.office_values.specs.Moments.{moment_text};
ghost use Rattle.tender_papers.specs.Lines.{line, tabbed};
ghost use Rattle.tender_papers.specs.Listing.{listing_line, listing_text, moment_or_dash, notice_word};

use crate::lines::Lines;
use office_base::records::{NoticeRow, NoticeState};
use office_values::moment::Moment;
use office_values::text::Bytes;
use std::alloc::{AllocError, Global};

// The line of a notice with a title of some words is about this long.
const ROW_ROOM: usize = 192;

/// The word for the state of a notice.
pub fn notice_word(state: NoticeState) -> &'static str
    ensures { result.now ≡ notice_word state }
{
    match state {
        NoticeState::Receiving => "receiving",
        NoticeState::Opened => "opened",
        NoticeState::Cancelled => "cancelled",
    }
}

// Appends a moment or a dash, as a field that isn't the last of its line.
fn put_moment(lines: &mut Lines, moment: Option<Moment>) -> Result<(), AllocError>
    ensures { IfOk result (λ _. lines.new ≡ lines.old ++ tabbed (moment_or_dash moment)) }
{
    match moment {
        Some(moment) => lines.field(&moment.text()),
        None => lines.field(b"-"),
    }
}

// Appends the moments of a notice: its publication, its deadline and its opening.
fn put_moments(lines: &mut Lines, row: &NoticeRow) -> Result<(), AllocError>
    ensures { IfOk result (λ _. lines.new ≡ lines.old
        ++ tabbed (moment_text row.now.published) ++ tabbed (moment_text row.now.deadline) ++ tabbed (moment_or_dash row.now.opened)) }
{
    lines.field(&row.published.text())?;
    lines.field(&row.deadline.text())?;
    put_moment(lines, row.opened)
}

// Appends the numbers of amendments and releases of a notice, and its title, up to the end of the line.
fn put_counts(lines: &mut Lines, row: &NoticeRow) -> Result<(), AllocError>
    ensures { IfOk result (λ _. lines.new ≡ lines.old ++ line (decimal row.now.amendments ∷ decimal row.now.releases ∷ row.now.title ∷ [])) }
{
    lines.number(row.amendments.get())?;
    lines.number(row.releases.get())?;
    lines.last(row.title.as_str().as_bytes())
}

// Appends the line of a notice.
fn put_notice(lines: &mut Lines, row: &NoticeRow) -> Result<(), AllocError>
    ensures { IfOk result (λ _. lines.new ≡ lines.old ++ listing_line row.now) }
{
    lines.field(row.notice.as_bytes())?;
    lines.field(notice_word(row.state).as_bytes())?;
    put_moments(lines, row)?;
    put_counts(lines, row)
}

/// The lines of these notices, in their order. The fields are the identifier, the state, the moments of publication, deadline and opening (`-` if there was
/// none), the numbers of amendments and releases, and the title. A tab separates two fields, and a line feed ends each line.
pub fn listing_text(alloc: Global, rows: &[NoticeRow]) -> Result<Bytes, AllocError>
    ensures { IfOk result (λ text. text ≡ listing_text rows.now) }
{
    let mut lines = Lines::with_room(alloc, 0, rows.len(), ROW_ROOM)?;
    for row in rows {
        put_notice(&mut lines, row)?;
    }
    Ok(lines.into_bytes())
}
