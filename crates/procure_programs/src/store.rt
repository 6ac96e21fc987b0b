//! The programs over an office in a file. Each of them closes the file in the end, so that the file alone is the office.
ghost use Rattle.std.specs.Prelude.{◌≡◌, true, None, IfErr, IfOk, IfSome, OnErr, OnOk};
ghost use Rattle.sqlite_wal.specs.Files.{image_at};
ghost use Rattle.sqlite_wal.specs.Reads.{AreClean};
ghost use Rattle.sqlite.specs.Closing.{IsCopied};
ghost use Rattle.sqlite.specs.Files.{file_state};
ghost use Rattle.sqlite.specs.State.{HasCleanDisk};
ghost use Rattle.office_base.specs.Shelves.{Keeps, Looks};
ghost use Rattle.office_store.specs.Reopening.{IsHalfClosed, OpensHeld};
ghost use Rattle.office_store.specs.SqlMeaning.{LeavesNoOther, LeavesShown, sql_meaning};
ghost use Rattle.procure_programs.specs.FaultsTold.{IsOfStore};
ghost use Rattle.procure_programs.specs.Hosts.{hosting};
ghost use Rattle.procure_programs.specs.Placed.{HadOfficeIfUsed, OpensEmpty, TellsRefusal};
ghost use Rattle.procure_programs.specs.Serving.{HalfClosesFiles, HalfPrintsFiles, HalfServesFilesAt, PrintsFiles, RunsFiles, RunsPrinting, ServesFiles, ServesFilesAt, ServesOpened, StopsFiles, StopsFilesAt, TellsFirst, WasServed, WasServedRemembering, sql_standing};
ghost use Rattle.procure_programs.specs.Showing.{IsPrintout};

use crate::faults::{of_opening, of_shelf};
use crate::files::HostFiles;
use crate::host::{Host, Network};
use crate::kept::{print_office, serve_office};
use crate::placing::place_empty;
use crate::room::room_for;
use crate::showing::Printout;
use office_base::shelf::Lookups;
use office_http::laws::accounts_and_fates;
use office_machine::laws::order;
use office_store::opened::Opened;
use office_store::shelf::SqlShelf;
use office_sums::shelf::RememberingShelf;
use office_values::settings::Settings;
use office_wire::watched::WatchedWriter;
use procure_config::fault::ProgramFault;
use sqlite::{Alter, FileFrom, FileStore, Files, Leftover, Start};
use sqlite_disk::Disk;
use std::alloc::Global;
use std::io::{Read, Write};

// Opens the office in a file, or makes a new one if the file holds nothing and its log was never used. It reports an office that it made or migrated. If there is
// no file, the new file has small pages. A refusal after the files were opened returns what is left of them.
#[tactic(auto, using(crate::proofs::FaultSteps::opening_is))]
fn open_office<S: Start>(
    files: &mut HostFiles<'_>,
    path: &str,
    start: S,
) -> Result<Opened<FileFrom<S>>, (ProgramFault, Option<Leftover<FileFrom<S>>>)>
    ensures held { IfOk result (λ opened. OpensHeld (image_at S.Start) opened.shelf.0) }
    ensures empty { IfOk result (λ opened. OpensEmpty (image_at S.Start) opened.shelf.0) }
    ensures sound { IfOk result (λ opened. HasCleanDisk (file_state opened.shelf.0) → LeavesShown (file_state opened.shelf.0)) }
    ensures alone { IfOk result (λ opened. HasCleanDisk (file_state opened.shelf.0) → LeavesNoOther (file_state opened.shelf.0)) }
    ensures used { IfOk result (λ opened. HasCleanDisk (file_state opened.shelf.0) → HadOfficeIfUsed ⟦<FileFrom<S> as Disk>⟧ (image_at S.Start)) }
    ensures fault { IfErr result (λ refusal. IsOfStore refusal.0) }
    ensures refused { IfErr result (λ refusal. IfSome refusal.1 (TellsRefusal (image_at S.Start) refusal.0)) }
{
    let alloc = files.alloc();
    match place_empty(alloc, files, path) {
        Ok(()) => {}
        Err(fault) => return Err((fault, None)),
    }
    let room = room_for(files.page_size_at(path));
    match files.open(path, start, room) {
        Ok(opened) => {
            files.tell_origin(path, opened.origin);
            Ok(opened)
        }
        Err((fault, left)) => Err((of_opening(fault), left)),
    }
}

// Closes the store, and returns its files with the result of the work. If it can't be closed, it returns the store, and a fault of the work is reported first.
#[tactic(auto, using(crate::proofs::FaultSteps::shelf_is))]
fn close_office<D: Disk + Drop>(
    shelf: SqlShelf<FileStore<D>>,
    worked: Result<(), ProgramFault>,
) -> Result<(Files<D>, Result<(), ProgramFault>), (ProgramFault, FileStore<D>)>
    ensures closed { IfOk result (λ left. AreClean D.Disk left.0.log left.0.db → IsCopied shelf.0 left.0) }
    ensures worked { IfOk result (λ left. left.1 ≡ worked) }
    ensures half { IfErr result (λ left. IsHalfClosed shelf.0 left.1) }
    ensures told { IfErr result (λ left. TellsFirst worked left.0) }
{
    match shelf.close_files() {
        Ok(files) => Ok((files, worked)),
        Err((fault, store)) => match worked {
            Ok(()) => Err((of_shelf(fault), store)),
            Err(earlier) => Err((earlier, store)),
        },
    }
}

// Drops the store of an office that couldn't be closed.
fn let_go<D: Disk + Drop>(store: Option<FileStore<D>>) {
    if let Some(store) = store {
        drop(store.close());
    }
}

// Asks for the ledger, so that a store that remembers sums has them before anyone waits for them. If that fails, the next request for it asks again.
fn add_up<H: Lookups>(shelf: &mut H)
    ensures { Keeps H.meaning shelf.old shelf.new }
{
    drop(shelf.ledger());
}

// Remembers the sums of budget lines while it serves. Generic in the store, not in the disk below it. So the prover doesn't compare the facts about any store
// again for a store over files.
fn serve_shelf<N: Network, A: Alter + Drop>(
    alloc: Global,
    network: &mut N,
    settings: Settings,
    shelf: SqlShelf<A>,
    port: u16,
    count: u32,
) -> Result<(SqlShelf<A>, Result<(), ProgramFault>), ProgramFault>
    ensures serves { IfOk result (λ left. WasServed (sql_meaning A.Store) count settings shelf left.0) }
    ensures turns { IfOk result (λ left. WasServedRemembering N.binds (hosting N.Opened.events N.Opened.Reader.remaining N.Opened.Writer.contents)
        (sql_meaning A.Store) (sql_standing A.Store) network.old network.new port count settings shelf left.0 left.1) }
    ensures fault { IfErr result IsOfStore }
    ensures unserved { OnErr result (network.new ≡ network.old) }
{
    let mut first = RememberingShelf::new(alloc, shelf);
    add_up(&mut first);
    let (last, served) = serve_office(alloc, network, settings, first, port, count)?;
    Ok((last.into_shelf(), served))
}

// Generic in the store, not in the disk below it, as `serve_shelf` is.
fn print_shelf<A: Alter + Drop, W: Write>(
    alloc: Global,
    settings: Settings,
    shelf: SqlShelf<A>,
    printout: Printout,
    output: &mut WatchedWriter<W>,
) -> (SqlShelf<A>, Result<(), ProgramFault>)
    ensures looks { Looks (sql_meaning A.Store) shelf result.0 (λ s. IsPrintout settings printout s output.old.contents output.new.contents result.1) }
    ensures flushed { OnOk result.1 (output.new.is_flushed ≡ true) }
{
    print_office(alloc, settings, shelf, printout, output)
}

// Opens the office in a file and serves this many connections from it.
fn serve_open<N: Network, S: Start>(
    files: &mut HostFiles<'_>,
    network: &mut N,
    settings: Settings,
    path: &str,
    start: S,
    port: u16,
    count: u32,
) -> Result<(SqlShelf<FileStore<FileFrom<S>>>, Result<(), ProgramFault>), ProgramFault>
    ensures serves { IfOk result (λ left. ServesOpened N.binds (hosting N.Opened.events N.Opened.Reader.remaining N.Opened.Writer.contents) network.old network.new port (image_at S.Start) settings count left.0 left.1) }
    ensures fault { IfErr result IsOfStore }
    ensures unserved { OnErr result (network.new ≡ network.old) }
{
    let opened = match open_office(files, path, start) {
        Ok(opened) => opened,
        Err((fault, _)) => return Err(fault),
    };
    serve_shelf(files.alloc(), network, settings, opened.shelf, port, count)
}

/// The state that a stop of `serve_from` leaves. The stop comes between two connections, or at any write of a command if the disk accepts nothing from some
/// call on. This function goes as far as that and doesn't close the files. The next day continues from any content that they then have.
pub fn stop_from<N: Network, S: Start>(
    files: &mut HostFiles<'_>,
    network: &mut N,
    settings: Settings,
    path: &str,
    start: S,
    port: u16,
    count: u32,
) -> Result<(FileStore<FileFrom<S>>, Result<(), ProgramFault>), ProgramFault>
    ensures stops { IfOk result (λ left. StopsFiles (image_at S.Start) settings count left.0) }
    ensures turns { IfOk result (λ left. StopsFilesAt N.binds (hosting N.Opened.events N.Opened.Reader.remaining N.Opened.Writer.contents)
        network.old network.new port (image_at S.Start) settings count left.0 left.1) }
    ensures unserved { OnErr result (network.new ≡ network.old) }
{
    order();
    let (shelf, served) = serve_open(files, network, settings, path, start, port, count)?;
    Ok((shelf.put_down(), served))
}

/// Serves this many connections to 127.0.0.1 and this port, from the office in a file. The type `S` says what its two files held, which may be anything. Reports
/// on the standard error if the office was made or migrated there. Returns the files, which are closed, and the result of serving. If the office couldn't be
/// closed, as when the program is stopped there, the fault comes with its store. If serving didn't begin, the fault comes alone, and no host was opened.
/// `stop_from` says what a stop leaves before the closing.
pub fn serve_from<N: Network, S: Start>(
    files: &mut HostFiles<'_>,
    network: &mut N,
    settings: Settings,
    path: &str,
    start: S,
    port: u16,
    count: u32,
) -> Result<
    (Files<FileFrom<S>>, Result<(), ProgramFault>),
    (ProgramFault, Option<FileStore<FileFrom<S>>>),
>
    ensures serves { IfOk result (λ left. ServesFiles ⟦<FileFrom<S> as Disk>⟧ (image_at S.Start) settings count left.0) }
    ensures turns { IfOk result (λ left. ServesFilesAt ⟦<FileFrom<S> as Disk>⟧ N.binds (hosting N.Opened.events N.Opened.Reader.remaining N.Opened.Writer.contents)
        network.old network.new port (image_at S.Start) settings count left.0 left.1) }
    ensures used { IfOk result (λ left. AreClean ⟦<FileFrom<S> as Disk>⟧ left.0.log left.0.db → HadOfficeIfUsed ⟦<FileFrom<S> as Disk>⟧ (image_at S.Start)) }
    ensures half { IfErr result (λ left. IfSome left.1 (HalfClosesFiles (image_at S.Start) settings count)) }
    ensures half_at { IfErr result (λ left. IfSome left.1 (HalfServesFilesAt N.binds (hosting N.Opened.events N.Opened.Reader.remaining N.Opened.Writer.contents)
        network.old network.new port (image_at S.Start) settings count left.0)) }
    ensures unserved { IfErr result (λ left. left.1 ≡ None → (network.new ≡ network.old) × IsOfStore left.0) }
{
    order();
    let (shelf, served) = match serve_open(files, network, settings, path, start, port, count) {
        Ok(left) => left,
        Err(fault) => return Err((fault, None)),
    };
    match close_office(shelf, served) {
        Ok(left) => Ok(left),
        Err((fault, store)) => Err((fault, Some(store))),
    }
}

/// Prints the text that the public sees of the office in a file, whatever its two files held. Reports on the standard error if the office was made or migrated
/// there. Nothing else changes. Returns the files and the result, as `serve_from` does.
pub fn print_from<S: Start, W: Write>(
    files: &mut HostFiles<'_>,
    settings: Settings,
    path: &str,
    start: S,
    printout: Printout,
    output: &mut WatchedWriter<W>,
) -> Result<
    (Files<FileFrom<S>>, Result<(), ProgramFault>),
    (ProgramFault, Option<FileStore<FileFrom<S>>>),
>
    ensures keeps { IfOk result (λ left. ServesFiles ⟦<FileFrom<S> as Disk>⟧ (image_at S.Start) settings 0 left.0) }
    ensures printed { IfOk result (λ left. PrintsFiles ⟦<FileFrom<S> as Disk>⟧ (image_at S.Start) settings printout left.0
        output.old.contents output.new.contents left.1) }
    ensures flushed { IfOk result (λ left. OnOk left.1 (output.new.is_flushed ≡ true)) }
    ensures used { IfOk result (λ left. AreClean ⟦<FileFrom<S> as Disk>⟧ left.0.log left.0.db → HadOfficeIfUsed ⟦<FileFrom<S> as Disk>⟧ (image_at S.Start)) }
    ensures half { IfErr result (λ left. IfSome left.1 (HalfClosesFiles (image_at S.Start) settings 0)) }
    ensures half_text { IfErr result (λ left. IfSome left.1 (HalfPrintsFiles (image_at S.Start) settings printout output.old.contents output.new.contents left.0)) }
    ensures unprinted { IfErr result (λ left. left.1 ≡ None → (output.new.contents ≡ output.old.contents) × IsOfStore left.0) }
{
    order();
    accounts_and_fates();
    let opened = match open_office(files, path, start) {
        Ok(opened) => opened,
        Err((fault, _)) => return Err((fault, None)),
    };
    let (shelf, printed) = print_shelf(files.alloc(), settings, opened.shelf, printout, output);
    match close_office(shelf, printed) {
        Ok(left) => Ok(left),
        Err((fault, store)) => Err((fault, Some(store))),
    }
}

/// `serve_from`, whose files are let go: whatever is left of them is closed. The clause says of some files what `serve_from` says of its files. So it says at which
/// port the office was served, under which settings, for how many connections, and which result is reported.
pub fn serve_path<N: Network, S: Start>(
    files: &mut HostFiles<'_>,
    network: &mut N,
    settings: Settings,
    path: &str,
    start: S,
    port: u16,
    count: u32,
) -> Result<(), ProgramFault>
    ensures { RunsFiles ⟦<FileFrom<S> as Disk>⟧ N.binds (hosting N.Opened.events N.Opened.Reader.remaining N.Opened.Writer.contents)
        network.old network.new port (image_at S.Start) settings count result }
{
    match serve_from(files, network, settings, path, start, port, count) {
        Ok(served) => served.1,
        Err(left) => {
            let_go(left.1);
            Err(left.0)
        }
    }
}

/// `print_from`, whose files are let go, as `serve_path` lets go those of `serve_from`.
pub fn print_path<S: Start, W: Write>(
    files: &mut HostFiles<'_>,
    settings: Settings,
    path: &str,
    start: S,
    printout: Printout,
    output: &mut WatchedWriter<W>,
) -> Result<(), ProgramFault>
    ensures runs { RunsPrinting ⟦<FileFrom<S> as Disk>⟧ (image_at S.Start) settings printout output.old.contents output.new.contents result }
    ensures flushed { OnOk result (output.new.is_flushed ≡ true) }
{
    match print_from(files, settings, path, start, printout, output) {
        Ok(printed) => printed.1,
        Err(left) => {
            let_go(left.1);
            Err(left.0)
        }
    }
}
