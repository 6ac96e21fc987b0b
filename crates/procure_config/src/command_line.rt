//! The program's command line, as it is declared to clap.
ghost use Rattle.std.specs.Prelude.{◌≡◌, IfOk, false};
ghost use Rattle.clap.specs.Words.{app_of, rule_of};
ghost use Rattle.clap.specs.declared.builder.command.Command.TheViews.{out-Command as fields_of};
ghost use Rattle.procure_config.specs.Jobs as spec;

use clap::builder::ValueParser;
use clap::{Arg, Command};
use std::alloc::{AllocError, Global};

/// The greatest port (RFC 9293, section 3.1).
pub(crate) const PORT_BOUND: u16 = 65535;

/// The most connections of one run.
pub(crate) const COUNT_BOUND: u32 = 1_000_000;

// The program reports a fault in two words. `procure-check` names the file and the cause.
const CAUSES: &str =
    "After `procure: settings` or `procure: store`, run `procure-check`: it names the file and the cause.";

// An argument that must be given.
fn required_argument<'a>(alloc: Global, name: &'a str, help: &'a str) -> Arg<'a>
    ensures rule { rule_of result ≡ spec.needed_rule name.entry.now }
    ensures local { result.global ≡ false }
{
    Arg::new(alloc, name).required(true).help(help)
}

// An argument that must be a number from 1 to this bound.
fn number<'a>(alloc: Global, name: &'a str, most: u64, help: &'a str) -> Arg<'a>
    ensures rule { rule_of result ≡ spec.number_rule name.entry.now most }
    ensures local { result.global ≡ false }
{
    required_argument(alloc, name, help).value_parser(ValueParser::unsigned(1, most))
}

// A subcommand with the settings of an office. Its help ends with an example.
fn over_settings<'a>(
    alloc: Global,
    name: &'a str,
    about: &'a str,
    example: &'a str,
) -> Result<Command<'a>, AllocError>
    ensures shape { IfOk result (λ command. app_of command ≡ spec.over_settings name.entry.now) }
    ensures local { IfOk result (λ command. (fields_of command).has_globals ≡ false) }
{
    let config = required_argument(alloc, "CONFIG", "The office's settings, a TOML file");
    Command::new(alloc, name)
        .about(about)
        .after_help(example)
        .arg(config)
}

// A subcommand with an office in a file.
fn over_store<'a>(
    alloc: Global,
    name: &'a str,
    about: &'a str,
    example: &'a str,
) -> Result<Command<'a>, AllocError>
    ensures shape { IfOk result (λ command. app_of command ≡ spec.over_store name.entry.now) }
    ensures local { IfOk result (λ command. (fields_of command).has_globals ≡ false) }
{
    let store = required_argument(
        alloc,
        "DB",
        "The office's file; if it doesn't exist, an empty office is made",
    );
    over_settings(alloc, name, about, example)?.arg(store)
}

// A subcommand with a notice of such an office.
fn over_notice<'a>(
    alloc: Global,
    name: &'a str,
    about: &'a str,
    example: &'a str,
) -> Result<Command<'a>, AllocError>
    ensures shape { IfOk result (λ command. app_of command ≡ spec.over_notice name.entry.now) }
    ensures local { IfOk result (λ command. (fields_of command).has_globals ≡ false) }
{
    let notice = required_argument(alloc, "NOTICE", "The notice's identifier");
    over_store(alloc, name, about, example)?.arg(notice)
}

// A subcommand with such an office at a port. Each function adds one argument, because a function with two waiting arguments must drop both at each of its
// ends.
fn over_port<'a>(
    alloc: Global,
    name: &'a str,
    about: &'a str,
    example: &'a str,
) -> Result<Command<'a>, AllocError>
    ensures shape { IfOk result (λ command. app_of command ≡ spec.over_port name.entry.now) }
    ensures local { IfOk result (λ command. (fields_of command).has_globals ≡ false) }
{
    let port = number(
        alloc,
        "PORT",
        PORT_BOUND as u64,
        "The port, from 1 to 65535",
    );
    over_store(alloc, name, about, example)?.arg(port)
}

// The subcommand `serve`.
fn serve<'a>(alloc: Global) -> Result<Command<'a>, AllocError>
    ensures shape { IfOk result (λ command. app_of command ≡ spec.serve) }
    ensures local { IfOk result (λ command. (fields_of command).has_globals ≡ false) }
{
    let about = "Serves HTTP on 127.0.0.1, one connection after another, from an office in a file";
    let example = "Example: procure serve office.toml office.db 8080 1000000";
    let count = number(
        alloc,
        "COUNT",
        COUNT_BOUND as u64,
        "The program ends after this many connections, from 1 to 1000000",
    );
    over_port(alloc, "serve", about, example)?.arg(count)
}

// The subcommand `read-budget`.
fn read_budget<'a>(alloc: Global) -> Result<Command<'a>, AllocError>
    ensures shape { IfOk result (λ command. app_of command ≡ spec.read_budget) }
    ensures local { IfOk result (λ command. (fields_of command).has_globals ≡ false) }
{
    let file = required_argument(alloc, "FILE", "The budget file, CSV");
    Command::new(alloc, "read-budget")
        .about("Prints as JSON what an office reads in a budget file")
        .after_help("Example: procure read-budget budget.csv")
        .arg(file)
}

// The subcommand `read-tender` without its last argument.
fn over_items<'a>(alloc: Global) -> Result<Command<'a>, AllocError>
    ensures shape { IfOk result (λ command. app_of command ≡ spec.over_items) }
    ensures local { IfOk result (λ command. (fields_of command).has_globals ≡ false) }
{
    let items = required_argument(
        alloc,
        "ITEMS",
        "The lot's items: JSON, an object whose `items` are as in the notice",
    );
    Command::new(alloc, "read-tender")
        .about("Prints as JSON what an office reads in a tender's file")
        .after_help("Example: procure read-tender lot.json tender.csv")
        .arg(items)
}

// The subcommand `read-tender`.
fn read_tender<'a>(alloc: Global) -> Result<Command<'a>, AllocError>
    ensures shape { IfOk result (λ command. app_of command ≡ spec.read_tender) }
    ensures local { IfOk result (λ command. (fields_of command).has_globals ≡ false) }
{
    let file = required_argument(alloc, "FILE", "The tender's file, CSV");
    over_items(alloc)?.arg(file)
}

/// The program's command line, with this version.
pub(crate) fn procure<'a>(alloc: Global, version: &'a str) -> Result<Command<'a>, AllocError>
    ensures { IfOk result (λ command. app_of command ≡ spec.procure) }
{
    // Each subcommand is made where it is added. Otherwise each later end of the function would drop it, and each such end is proved.
    let procure = Command::new(alloc, "procure")
        .about("A public procurement office")
        .version(version)
        .after_help(CAUSES)
        .subcommand(over_settings(
            alloc,
            "desk",
            "Answers requests from standard input, over an empty office in memory, to try it out",
            "Example: procure desk office.toml < requests",
        )?)?
        .subcommand(serve(alloc)?)?
        .subcommand(over_store(
            alloc,
            "ledger",
            "Prints the balances of each budget line",
            "Example: procure ledger office.toml office.db",
        )?)?
        .subcommand(over_notice(
            alloc,
            "minutes",
            "Prints the minutes of a notice's opening",
            "Example: procure minutes office.toml office.db 2026-101",
        )?)?
        .subcommand(over_notice(
            alloc,
            "record",
            "Prints the OCDS record of a notice",
            "Example: procure record office.toml office.db 2026-101",
        )?)?
        .subcommand(over_store(
            alloc,
            "notices",
            "Prints a line for each notice",
            "Example: procure notices office.toml office.db",
        )?)?
        .subcommand(over_notice(
            alloc,
            "evaluation",
            "Prints how the awards of a notice were decided",
            "Example: procure evaluation office.toml office.db 2026-101",
        )?)?
        .subcommand(read_tender(alloc)?)?
        .subcommand(read_budget(alloc)?)?;
    Ok(procure.subcommand_required(true))
}
