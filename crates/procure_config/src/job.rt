//! The job of the program, read from its arguments.
ghost use Rattle.std.specs.Prelude.{◌≡◌, true, codes, [], ◌∷◌, map, None, Some, IfOk, IfErr, IsSome, option_map};
ghost use Rattle.clap.specs.Words.{fault_of, first_of, found_of, one_of, rows_of, subcommand_rows_of, takes};
ghost use Rattle.procure_config.specs.Faults.{no_memory};
ghost use Rattle.procure_config.specs.Jobs as spec;
ghost use Rattle.procure_config.specs.Jobs.{AsksFor, IsFaultOf, asked, asked_by_job, faults_of, number_in};

use crate::command_line::{COUNT_BOUND, procure};
use crate::fault::ProgramFault;
use clap::error::ErrorKind;
use clap::{ArgMatches, Command};
use office_values::refusal::Refusal;
use std::alloc::Global;
use std::convert::AsStr;

/// The job that the arguments ask for.
#[derive(Clone, Copy, Debug)]
pub enum Job<'a> {
    /// Answers the standard input from an empty office in memory.
    Desk {
        /// The path of the settings.
        config: &'a str,
    },
    /// Serves an office in a file over connections to 127.0.0.1.
    Serve {
        /// The path of the settings.
        config: &'a str,
        /// The path of the office's file.
        store: &'a str,
        /// The port, at least 1.
        port: u16,
        /// The number of connections to serve: 1 to 1,000,000.
        count: u32,
    },
    /// Prints the ledger of an office in a file.
    Ledger {
        /// The path of the settings.
        config: &'a str,
        /// The path of the office's file.
        store: &'a str,
    },
    /// Prints the minutes of an opening.
    Minutes {
        /// The path of the settings.
        config: &'a str,
        /// The path of the office's file.
        store: &'a str,
        /// The notice as it was written; it may not be an identifier.
        notice: &'a str,
    },
    /// Prints the record of a notice.
    Record {
        /// The path of the settings.
        config: &'a str,
        /// The path of the office's file.
        store: &'a str,
        /// The notice as it was written; it may not be an identifier.
        notice: &'a str,
    },
    /// Prints the list of the notices.
    Notices {
        /// The path of the settings.
        config: &'a str,
        /// The path of the office's file.
        store: &'a str,
    },
    /// Prints the evaluation of a notice.
    Evaluation {
        /// The path of the settings.
        config: &'a str,
        /// The path of the office's file.
        store: &'a str,
        /// The notice as it was written; it may not be an identifier.
        notice: &'a str,
    },
    /// Prints what the office reads in a tender file.
    ReadTender {
        /// The path of the file with the lot's items.
        items: &'a str,
        /// The path of the tender file.
        file: &'a str,
    },
    /// Prints what the office reads in a budget file.
    ReadBudget {
        /// The path of the budget file.
        file: &'a str,
    },
}

// The value of an argument.
fn text_of<'a>(met: &ArgMatches<'a>, name: &str) -> Option<&'a str>
    ensures { option_map (λ text. text.now) result ≡ first_of name.now (rows_of (found_of met.now)) }
{
    met.get_str(name)
}

// The port, if it is one.
fn port_of(met: &ArgMatches<'_>) -> Option<u16>
    ensures { result ≡ number_in spec.port_bound (one_of (codes "PORT") (rows_of (found_of met.now))) }
{
    match met.get_one::<u16>("PORT") {
        Some(port) if 1 <= port => Some(port),
        _ => None,
    }
}

// The number of connections, if it is one.
fn count_of(met: &ArgMatches<'_>) -> Option<u32>
    ensures { result ≡ number_in spec.count_bound (one_of (codes "COUNT") (rows_of (found_of met.now))) }
{
    match met.get_one::<u32>("COUNT") {
        Some(count) if 1 <= count && count <= COUNT_BOUND => Some(count),
        _ => None,
    }
}

fn desk_in<'a>(met: &ArgMatches<'a>) -> Option<Job<'a>>
    ensures { option_map asked_by_job result ≡ spec.desk_in (rows_of (found_of met.now)) }
{
    let config = text_of(met, "CONFIG")?;
    Some(Job::Desk { config })
}

fn serve_in<'a>(met: &ArgMatches<'a>) -> Option<Job<'a>>
    ensures { option_map asked_by_job result ≡ spec.serve_in (rows_of (found_of met.now)) }
{
    let config = text_of(met, "CONFIG")?;
    let store = text_of(met, "DB")?;
    let port = port_of(met)?;
    let count = count_of(met)?;
    Some(Job::Serve {
        config,
        store,
        port,
        count,
    })
}

fn ledger_in<'a>(met: &ArgMatches<'a>) -> Option<Job<'a>>
    ensures { option_map asked_by_job result ≡ spec.ledger_in (rows_of (found_of met.now)) }
{
    let config = text_of(met, "CONFIG")?;
    let store = text_of(met, "DB")?;
    Some(Job::Ledger { config, store })
}

fn minutes_in<'a>(met: &ArgMatches<'a>) -> Option<Job<'a>>
    ensures { option_map asked_by_job result ≡ spec.minutes_in (rows_of (found_of met.now)) }
{
    let config = text_of(met, "CONFIG")?;
    let store = text_of(met, "DB")?;
    let notice = text_of(met, "NOTICE")?;
    Some(Job::Minutes {
        config,
        store,
        notice,
    })
}

fn record_in<'a>(met: &ArgMatches<'a>) -> Option<Job<'a>>
    ensures { option_map asked_by_job result ≡ spec.record_in (rows_of (found_of met.now)) }
{
    let config = text_of(met, "CONFIG")?;
    let store = text_of(met, "DB")?;
    let notice = text_of(met, "NOTICE")?;
    Some(Job::Record {
        config,
        store,
        notice,
    })
}

fn notices_in<'a>(met: &ArgMatches<'a>) -> Option<Job<'a>>
    ensures { option_map asked_by_job result ≡ spec.notices_in (rows_of (found_of met.now)) }
{
    let config = text_of(met, "CONFIG")?;
    let store = text_of(met, "DB")?;
    Some(Job::Notices { config, store })
}

fn evaluation_in<'a>(met: &ArgMatches<'a>) -> Option<Job<'a>>
    ensures { option_map asked_by_job result ≡ spec.evaluation_in (rows_of (found_of met.now)) }
{
    let config = text_of(met, "CONFIG")?;
    let store = text_of(met, "DB")?;
    let notice = text_of(met, "NOTICE")?;
    Some(Job::Evaluation {
        config,
        store,
        notice,
    })
}

fn read_tender_in<'a>(met: &ArgMatches<'a>) -> Option<Job<'a>>
    ensures { option_map asked_by_job result ≡ spec.read_tender_in (rows_of (found_of met.now)) }
{
    let items = text_of(met, "ITEMS")?;
    let file = text_of(met, "FILE")?;
    Some(Job::ReadTender { items, file })
}

fn read_budget_in<'a>(met: &ArgMatches<'a>) -> Option<Job<'a>>
    ensures { option_map asked_by_job result ≡ spec.read_budget_in (rows_of (found_of met.now)) }
{
    let file = text_of(met, "FILE")?;
    Some(Job::ReadBudget { file })
}

// The job that a subcommand with these values asks for.
fn asked_as<'a>(name: &str, met: &ArgMatches<'a>) -> Option<Job<'a>>
    ensures { option_map asked_by_job result ≡ spec.asked_as name.now (rows_of (found_of met.now)) }
{
    if name == "desk" {
        desk_in(met)
    } else if name == "serve" {
        serve_in(met)
    } else if name == "ledger" {
        ledger_in(met)
    } else if name == "minutes" {
        minutes_in(met)
    } else if name == "record" {
        record_in(met)
    } else if name == "notices" {
        notices_in(met)
    } else if name == "evaluation" {
        evaluation_in(met)
    } else if name == "read-tender" {
        read_tender_in(met)
    } else if name == "read-budget" {
        read_budget_in(met)
    } else {
        None
    }
}

// The job of the subcommand that was found.
fn job_of_subcommand<'a>(matches: &ArgMatches<'a>) -> Option<Job<'a>>
    ensures { option_map asked_by_job result ≡ spec.job_of_subcommand (subcommand_rows_of matches.now) }
{
    let (name, met) = matches.subcommand()?;
    asked_as(name, met)
}

// The fault of arguments that fit the command line but name no job.
fn no_job(command: &mut Command<'_>) -> ProgramFault
    ensures { IsFaultOf (ErrorKind.MissingSubcommand ∷ []) result }
{
    match command.error(ErrorKind::MissingSubcommand, "no job is named") {
        Ok(error) => ProgramFault::from(error),
        Err(_) => ProgramFault::Refused(Refusal::Unavailable),
    }
}

/// The job that the arguments ask for; the first of them is the program's name. `--version` prints this version. `Arguments` has clap's error if they ask for
/// no job, for help or for the version. `Refused(Unavailable)` means that memory was too small.
pub fn job_of<'a, S: AsStr>(
    alloc: Global,
    version: &'a str,
    words: &'a [S],
) -> Result<Job<'a>, ProgramFault>
    ensures asked { IfOk result (AsksFor (map S.text words.entry.now)) }
    ensures right { IfOk result (λ _. fault_of spec.procure (map S.text words.entry.now) ≡ []) }
    ensures fault { IfErr result (IsFaultOf (faults_of (map S.text words.entry.now))) }
    ensures taken { takes spec.procure (map S.text words.entry.now) ≡ true → IsSome (asked (map S.text words.entry.now))
        → IfErr result (λ fault. fault ≡ no_memory) }
{
    let mut command = procure(alloc, version)?;
    let matches = command.try_get_matches_from_mut(words)?;
    match job_of_subcommand(&matches) {
        Some(job) => Ok(job),
        None => Err(no_job(&mut command)),
    }
}
