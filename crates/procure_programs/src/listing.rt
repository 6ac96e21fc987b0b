//! The list of an office's notices, page by page.
ghost use Rattle.std.specs.Prelude.{IfErr, IfOk};
ghost use Rattle.std.specs.Io.KnownBytes.{Appends};
ghost use Rattle.office_base.specs.Shelves.{Looks};
ghost use Rattle.tender_papers.specs.Listing.{listing_text};
ghost use Rattle.procure_programs.specs.Listing.{WritesPage};
ghost use Rattle.procure_programs.specs.Showing.{IsOfPrinting};

use office_base::laws;
use office_base::pages::{ASKED_ROWS, next_after, page_of};
use office_base::shelf::Lookups;
use office_values::id::Id;
use office_values::refusal::Refusal;
use office_wire::sending::send;
use office_wire::watched::WatchedWriter;
use procure_config::fault::ProgramFault;
use std::alloc::Global;
use std::io::Write;
use tender_papers::listing::listing_text;

// Writes a page of the notices after this one, or the first page. Returns the last notice of the page if more follow.
fn write_page<H: Lookups, W: Write>(
    alloc: Global,
    shelf: &mut H,
    writer: &mut WatchedWriter<W>,
    after: Option<Id>,
) -> Result<Option<Id>, ProgramFault>
    ensures page { Looks H.meaning shelf.old shelf.new (λ s. IfOk result (WritesPage after s writer.old.contents writer.new.contents)) }
    ensures cause { IfErr result (IsOfPrinting writer.new.has_failed) }
{
    let rows = match shelf.list_notices_after(after, ASKED_ROWS) {
        Ok(rows) => rows,
        Err(fault) => return Err(ProgramFault::Refused(Refusal::from(fault))),
    };
    let text = listing_text(alloc, page_of(rows.as_slice()))?;
    match send(writer, text.as_slice()) {
        Ok(()) => Ok(next_after(rows.as_slice())),
        Err(_) => Err(ProgramFault::Output),
    }
}

/// Writes a line for each notice, in the order of their identifiers, as `procure notices` prints them. It goes page by page, so it never holds more than one
/// page. `Output` if the writer fails; any other fault is a refusal as in `show`. After a fault some lines may be written. Nothing changes, and nothing is
/// flushed.
pub fn list_notices<H: Lookups, W: Write>(
    alloc: Global,
    shelf: &mut H,
    writer: &mut WatchedWriter<W>,
) -> Result<(), ProgramFault>
    ensures listed { Looks H.meaning shelf.old shelf.new (λ s. IfOk result (λ _. Appends writer.old.contents writer.new.contents (listing_text s.notices))) }
    ensures cause { IfErr result (IsOfPrinting writer.new.has_failed) }
{
    laws::pages();
    laws::looks_follow::<H>();
    let mut after = None;
    'turns: for _ in 0..u64::MAX {
        let next = write_page(alloc, shelf, writer, after)?;
        match next {
            Some(last) => after = Some(last),
            None => return Ok(()),
        }
    }
    Err(ProgramFault::Refused(Refusal::Unavailable))
}
