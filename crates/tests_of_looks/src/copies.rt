//! Another office with the rows of a publication, except for one row that is left out.
use office_base::counts::Sequence;
use office_base::puts::Put;
use office_base::records::ReleaseRow;
use office_base::shelf::Shelf;
use office_values::id::Id;
use office_values::refusal::Refusal;
use std::alloc::{AllocError, Global};

/// The row that isn't copied.
#[derive(Clone, Copy)]
pub(crate) enum LeftOut {
    Merge,
    Release(Sequence),
}

fn is_left_out(row: &ReleaseRow, left_out: &LeftOut) -> bool {
    match left_out {
        LeftOut::Merge => false,
        LeftOut::Release(seq) => row.seq == *seq,
    }
}

fn is_merge(left_out: &LeftOut) -> bool {
    match left_out {
        LeftOut::Merge => true,
        LeftOut::Release(_) => false,
    }
}

fn push_release(
    puts: &mut Vec<Put>,
    row: ReleaseRow,
    left_out: &LeftOut,
) -> Result<(), AllocError> {
    if is_left_out(&row, left_out) {
        return Ok(());
    }
    puts.push(Put::Release(row))?;
    Ok(())
}

// The releases of the notice, and their merge.
fn push_releases<H: Shelf>(
    puts: &mut Vec<Put>,
    shelf: &mut H,
    notice: &Id,
    left_out: &LeftOut,
) -> Result<(), Refusal> {
    for row in shelf.list_releases_of_notice(notice)? {
        push_release(puts, row, left_out)?;
    }
    if is_merge(left_out) {
        return Ok(());
    }
    if let Some(row) = shelf.get_compiled(notice)? {
        puts.push(Put::Compiled(row))?;
    }
    Ok(())
}

// The budget line, the notice, its lots and releases, and the clock.
fn rows_but<H: Shelf>(
    alloc: Global,
    shelf: &mut H,
    line: &Id,
    notice: &Id,
    left_out: LeftOut,
) -> Result<Vec<Put>, Refusal> {
    let mut puts = Vec::new(alloc);
    if let Some(row) = shelf.get_line(line)? {
        puts.push(Put::Line(row))?;
    }
    if let Some(row) = shelf.get_notice(notice)? {
        puts.push(Put::Notice(row))?;
    }
    for row in shelf.list_lots_of_notice(notice)? {
        puts.push(Put::Lot(row))?;
    }
    push_releases(&mut puts, shelf, notice, &left_out)?;
    puts.push(Put::Clock(shelf.get_clock()?))?;
    Ok(puts)
}

/// Puts these rows into another office.
pub(crate) fn copy_but<H: Shelf>(
    alloc: Global,
    from: &mut H,
    to: &mut H,
    line: &Id,
    notice: &Id,
    left_out: LeftOut,
) -> Result<(), Refusal> {
    let puts = rows_but(alloc, from, line, notice, left_out)?;
    to.apply(puts)?;
    Ok(())
}
