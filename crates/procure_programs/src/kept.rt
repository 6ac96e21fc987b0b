//! The work of the programs with an office that is stored, in any kind of store.
ghost use Rattle.std.specs.Prelude.{◌≡◌, true, IfErr, IfOk, OnErr, OnOk};
ghost use Rattle.office_base.specs.Shelves.{Looks};
ghost use Rattle.procure_programs.specs.FaultsTold.{IsOfStore};
ghost use Rattle.procure_programs.specs.Hosts.{hosting};
ghost use Rattle.procure_programs.specs.Serving.{WasServed, WasServedAt};
ghost use Rattle.procure_programs.specs.Showing.{IsPrintout};

use crate::faults::no_memory;
use crate::host::{Host, Network};
use crate::printing::{print, print_notices};
use crate::serving::serve_at;
use crate::showing::Printout;
use office_base::shelf::{Lookups, Shelf};
use office_base::stored::StoredShelf;
use office_desk::desk::Desk;
use office_http::office::Office;
use office_values::settings::Settings;
use office_wire::watched::WatchedWriter;
use procure_config::fault::ProgramFault;
use std::alloc::Global;
use std::io::{Read, Write};

/// Serves this many connections to 127.0.0.1 and this port, from an office in this store. Returns the store and the result of serving. Too little memory is the
/// only reason not to begin; then the store is dropped without being closed, which loses nothing, and no host
/// was opened.
#[tactic(auto, using(crate::proofs::FaultSteps::memory_is))]
pub(crate) fn serve_office<N: Network, H: StoredShelf + Drop>(
    alloc: Global,
    network: &mut N,
    settings: Settings,
    shelf: H,
    port: u16,
    count: u32,
) -> Result<(H, Result<(), ProgramFault>), ProgramFault>
    ensures serves { IfOk result (λ left. WasServed H.meaning count settings shelf left.0) }
    ensures turns { IfOk result (λ left. WasServedAt N.binds (hosting N.Opened.events N.Opened.Reader.remaining N.Opened.Writer.contents)
        H.meaning H.store network.old network.new port count settings shelf left.0 left.1) }
    ensures fault { IfErr result IsOfStore }
    ensures unserved { OnErr result (network.new ≡ network.old) }
{
    let Ok(mut office) = Office::new(alloc, Desk::new(alloc, settings, shelf)) else {
        return Err(no_memory());
    };
    let served = serve_at(alloc, network, &mut office, port, count);
    Ok((office.into_desk().into_shelf(), served))
}

/// Prints the text that the public sees of an office in this store. Returns the store, in which nothing changed, and the result of printing.
pub(crate) fn print_office<H: Shelf + Drop, W: Write>(
    alloc: Global,
    settings: Settings,
    shelf: H,
    printout: Printout,
    output: &mut WatchedWriter<W>,
) -> (H, Result<(), ProgramFault>)
    ensures looks { Looks H.meaning shelf result.0 (λ s. IsPrintout settings printout s output.old.contents output.new.contents result.1) }
    ensures flushed { OnOk result.1 (output.new.is_flushed ≡ true) }
{
    match printout {
        Printout::Seen(query) => {
            let mut desk = Desk::new(alloc, settings, shelf);
            let printed = print(&mut desk, query, output);
            (desk.into_shelf(), printed)
        }
        Printout::Notices => {
            let mut listed = shelf;
            let printed = print_notices(alloc, &mut listed, output);
            (listed, printed)
        }
    }
}
