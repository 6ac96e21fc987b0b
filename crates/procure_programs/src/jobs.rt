//! The work for which the words ask.
ghost use Rattle.sqlite_wal.specs.Files.{image_at};
ghost use Rattle.procure_config.specs.Jobs.{asked_by_job};
ghost use Rattle.procure_programs.specs.Hosts.{hosting};
ghost use Rattle.procure_programs.specs.Showing.{AsksPrintout};
ghost use Rattle.procure_programs.specs.Working.{DoesWork, PrintsUnder, ServesUnder};

use crate::config::{settings_of_text, text_at};
use crate::desk::run_desk;
use crate::files::HostFiles;
use crate::host::{Computer, Host, Network};
use crate::reading::{print_budget_at, print_tender_at};
use crate::showing::Printout;
use crate::store::{print_path, serve_path};
use office_commands::queries::Query;
use office_wire::watched::WatchedWriter;
use procure_config::fault::ProgramFault;
use procure_config::job::Job;
use procure_config::notice::notice_named;
use sqlite::{FileFrom, Start, Unknown};
use sqlite_disk::Disk;
use std::io::{Read, Write};

/// The printout that a job asks for, or none if it prints nothing of an office. `Refused(NoRoute)` if it names a notice by a text that isn't an identifier.
pub fn printout_of(job: &Job<'_>) -> Result<Option<Printout>, ProgramFault>
    ensures { AsksPrintout (asked_by_job job.now) result }
{
    match *job {
        Job::Desk { .. } | Job::Serve { .. } | Job::ReadTender { .. } | Job::ReadBudget { .. } =>
            Ok(None),
        Job::Ledger { .. } => Ok(Some(Printout::Seen(Query::Ledger))),
        Job::Notices { .. } => Ok(Some(Printout::Notices)),
        Job::Minutes { notice, .. } => match notice_named(notice) {
            Ok(notice) => Ok(Some(Printout::Seen(Query::Minutes { notice }))),
            Err(fault) => Err(fault),
        },
        Job::Record { notice, .. } => match notice_named(notice) {
            Ok(notice) => Ok(Some(Printout::Seen(Query::Record { notice }))),
            Err(fault) => Err(fault),
        },
        Job::Evaluation { notice, .. } => match notice_named(notice) {
            Ok(notice) => Ok(Some(Printout::Seen(Query::Evaluation { notice }))),
            Err(fault) => Err(fault),
        },
    }
}

// Prints the text that a job asks for, of the office in a file, under the settings of this text.
fn print_under<S: Start, W: Write>(
    files: &mut HostFiles<'_>,
    text: &[u8],
    job: &Job<'_>,
    path: &str,
    start: S,
    output: &mut WatchedWriter<W>,
) -> Result<(), ProgramFault>
    ensures { PrintsUnder ⟦<FileFrom<S> as Disk>⟧ (image_at S.Start) text.now (asked_by_job job.now) output.old.contents output.new.contents result }
{
    let settings = match settings_of_text(files.alloc(), text) {
        Ok(settings) => settings,
        Err(fault) => return Err(fault),
    };
    match printout_of(job) {
        Ok(Some(printout)) => print_path(files, settings, path, start, printout, output),
        Ok(None) => Ok(()),
        Err(fault) => Err(fault),
    }
}

// Serves the office in a file under the settings of this text.
fn serve_under<N: Network, S: Start>(
    files: &mut HostFiles<'_>,
    network: &mut N,
    text: &[u8],
    path: &str,
    start: S,
    port: u16,
    count: u32,
) -> Result<(), ProgramFault>
    ensures { ServesUnder ⟦<FileFrom<S> as Disk>⟧ N.binds (hosting N.Opened.events N.Opened.Reader.remaining N.Opened.Writer.contents)
        network.old network.new port (image_at S.Start) text.now count result }
{
    match settings_of_text(files.alloc(), text) {
        Ok(settings) => serve_path(files, network, settings, path, start, port, count),
        Err(fault) => Err(fault),
    }
}

/// Does the work of a job with an office in a file, under the settings of this text. The type `S` says what the two files of the office held. A job of another
/// kind does nothing here.
pub fn work_on<N: Network, S: Start, W: Write>(
    files: &mut HostFiles<'_>,
    network: &mut N,
    text: &[u8],
    job: &Job<'_>,
    start: S,
    output: &mut WatchedWriter<W>,
) -> Result<(), ProgramFault>
    ensures { DoesWork ⟦<FileFrom<S> as Disk>⟧ N.binds (hosting N.Opened.events N.Opened.Reader.remaining N.Opened.Writer.contents)
        network.old network.new (image_at S.Start) text.now output.old.contents output.new.contents result (asked_by_job job.now) }
{
    match *job {
        Job::Desk { .. } | Job::ReadTender { .. } | Job::ReadBudget { .. } => Ok(()),
        Job::Serve {
            store,
            port,
            count,
            ..
        } => serve_under(files, network, text, store, start, port, count),
        Job::Ledger { store, .. }
        | Job::Notices { store, .. }
        | Job::Minutes { store, .. }
        | Job::Record { store, .. }
        | Job::Evaluation { store, .. } => print_under(files, text, job, store, start, output),
    }
}

// `work_on` over the computer's sockets and clock, its files and the standard output, of which no contract says anything. The proof is that of `work_on`, whose
// code is the same for all of them.
fn work_at(rt: &HostRuntime, job: &Job<'_>, config: &str) -> Result<(), ProgramFault> {
    let text = text_at(rt, config)?;
    let mut files = HostFiles::new(rt);
    let mut computer = Computer { network: rt };
    let mut output = WatchedWriter::new(rt.stdout());
    work_on(&mut files, &mut computer, &text, job, Unknown, &mut output)
}

/// Does the work for which the words ask. The first fault counts: of the settings, then of a notice whose name isn't an identifier, then of the office's file,
/// then of the work.
pub fn run_job(rt: &HostRuntime, job: &Job<'_>) -> Result<(), ProgramFault> {
    match *job {
        Job::Desk { config } => run_desk(rt, config),
        Job::Serve { config, .. }
        | Job::Ledger { config, .. }
        | Job::Notices { config, .. }
        | Job::Minutes { config, .. }
        | Job::Record { config, .. }
        | Job::Evaluation { config, .. } => work_at(rt, job, config),
        Job::ReadTender { items, file } => print_tender_at(rt, items, file),
        Job::ReadBudget { file } => print_budget_at(rt, file),
    }
}
