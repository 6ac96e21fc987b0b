//! The texts that a program prints.
ghost use Rattle.std.specs.Prelude.{◌≡◌, true, IfErr, IfOk, OnErr, OnOk};
ghost use Rattle.std.specs.Io.KnownBytes.{Appends};
ghost use Rattle.office_base.specs.Shelves.{Looks};
ghost use Rattle.tender_papers.specs.Listing.{listing_text};
ghost use Rattle.office_wire.specs.Sending.{AppendsPart};
ghost use Rattle.procure_programs.specs.Showing.{IsOfPrinting, IsPrinted};

use crate::listing::list_notices;
use crate::showing::show;
use office_base::shelf::{Lookups, Shelf};
use office_commands::queries::Query;
use office_desk::desk::Desk;
use office_wire::sending::send_flushed;
use office_wire::watched::WatchedWriter;
use procure_config::fault::ProgramFault;
use std::alloc::Global;
use std::io::Write;

/// Writes a whole text and flushes it. `Output` if the writer fails or accepts no more; then a beginning of the text was written, or all of it.
pub fn print_text<W: Write>(output: &mut WatchedWriter<W>, text: &[u8]) -> Result<(), ProgramFault>
    ensures whole { OnOk result (Appends output.old.contents output.new.contents text.now) }
    ensures flushed { OnOk result (output.new.is_flushed ≡ true) }
    ensures part { OnErr result (AppendsPart output.old.contents output.new.contents text.now) }
    ensures fault { IfErr result (λ fault. fault ≡ ProgramFault.Output) }
    ensures cause { OnErr result (output.new.has_failed ≡ true) }
{
    match send_flushed(output, text) {
        Ok(()) => Ok(()),
        Err(_) => Err(ProgramFault::Output),
    }
}

/// Prints the text that the public sees at a desk by a query, as the programs `ledger`, `minutes`, `record` and `evaluation` do. After a refusal (`Refused`),
/// nothing is printed. `Output` means that the writer failed, as in `print_text`. Nothing changes.
pub fn print<H: Shelf + Drop, W: Write>(
    desk: &mut Desk<H>,
    query: Query,
    output: &mut WatchedWriter<W>,
) -> Result<(), ProgramFault>
    ensures looks { Looks H.meaning desk.old.shelf desk.new.shelf (λ s. IsPrinted desk.old.settings query s output.old.contents output.new.contents result) }
    ensures settings { desk.new.settings ≡ desk.old.settings }
    ensures cause { IfErr result (IsOfPrinting output.new.has_failed) }
    ensures flushed { OnOk result (output.new.is_flushed ≡ true) }
{
    match show(desk, query) {
        Ok(text) => print_text(output, &text),
        Err(fault) => Err(fault),
    }
}

/// Prints a line for each notice of an office and flushes them, as the program `notices` does. `Output` if the writer fails; any other fault is a refusal as in
/// `show`. After a fault some lines may be written. Nothing changes.
pub fn print_notices<H: Lookups, W: Write>(
    alloc: Global,
    shelf: &mut H,
    output: &mut WatchedWriter<W>,
) -> Result<(), ProgramFault>
    ensures listed { Looks H.meaning shelf.old shelf.new (λ s. IfOk result (λ _. Appends output.old.contents output.new.contents (listing_text s.notices))) }
    ensures cause { IfErr result (IsOfPrinting output.new.has_failed) }
    ensures flushed { OnOk result (output.new.is_flushed ≡ true) }
{
    list_notices(alloc, shelf, output)?;
    match output.flush() {
        Ok(()) => Ok(()),
        Err(_) => Err(ProgramFault::Output),
    }
}
