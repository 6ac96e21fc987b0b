//! `procure desk CONFIG`: an empty office in memory, over the standard streams.
ghost use Rattle.std.specs.Prelude.{◌≡◌, true, OnOk};
ghost use Rattle.procure_programs.specs.Streams.{AnswersBlocks, AnswersFromEmpty, RunsDesk};

use crate::config::{settings_of_text, text_at};
use crate::faults::{no_memory, of_run};
use office_base::shelf::{Lookups, Shelf};
use office_desk::desk::Desk;
use office_http::office::{Office, run};
use office_memory::memory::MemoryShelf;
use office_values::settings::Settings;
use office_wire::counted::CountedReader;
use office_wire::watched::WatchedWriter;
use procure_config::fault::ProgramFault;
use std::alloc::Global;
use std::io::{BufRead, BufReader, BufWriter, Write};

/// Answers the blocks of an input on an output. `Output` if the output failed, and `Input` if the input failed or isn't blocks.
pub fn answer_streams<H: Shelf + Drop, R: BufRead, W: Write>(
    alloc: Global,
    office: &mut Office<H>,
    input: &mut CountedReader<R>,
    output: &mut WatchedWriter<W>,
) -> Result<(), ProgramFault>
    ensures before { H.meaning.honest office.new.shelf → H.meaning.honest office.old.shelf }
    ensures ran { AnswersBlocks H.meaning input.old input.new output.old output.new office.old office.new result }
    ensures flushed { OnOk result (output.new.is_flushed ≡ true) }
{
    match run(alloc, office, input, output) {
        Ok(_) => Ok(()),
        Err(fault) => Err(of_run(fault)),
    }
}

// Answers the blocks of an input on an output, from an empty office in memory.
fn answer_from_empty<R: BufRead, W: Write>(
    alloc: Global,
    settings: Settings,
    input: &mut CountedReader<R>,
    output: &mut WatchedWriter<W>,
) -> Result<(), ProgramFault>
    ensures ran { AnswersFromEmpty settings input.old input.new output.old output.new result }
    ensures flushed { OnOk result (output.new.is_flushed ≡ true) }
{
    let desk = Desk::new(alloc, settings, MemoryShelf::new(alloc));
    match Office::new(alloc, desk) {
        Ok(mut office) => answer_streams(alloc, &mut office, input, output),
        Err(_) => Err(no_memory()),
    }
}

/// Answers the blocks of an input on an output, from an empty office in memory, under the settings of this text.
pub fn desk_on<R: BufRead, W: Write>(
    alloc: Global,
    text: &[u8],
    input: &mut CountedReader<R>,
    output: &mut WatchedWriter<W>,
) -> Result<(), ProgramFault>
    ensures ran { RunsDesk text.now input.old input.new output.old output.new result }
    ensures flushed { OnOk result (output.new.is_flushed ≡ true) }
{
    match settings_of_text(alloc, text) {
        Ok(settings) => answer_from_empty(alloc, settings, input, output),
        Err(fault) => Err(fault),
    }
}

// `desk_on` over the standard streams. The only fault of making a buffer for a stream is too little memory.
fn desk_at(rt: &HostRuntime, text: &[u8]) -> Result<(), ProgramFault> {
    let alloc = rt.alloc();
    let Ok(buffered_input) = BufReader::new(alloc, rt.stdin()) else {
        return Err(no_memory());
    };
    let Ok(buffered_output) = BufWriter::new(alloc, rt.stdout()) else {
        return Err(no_memory());
    };
    let mut input = CountedReader::new(buffered_input);
    let mut output = WatchedWriter::new(buffered_output);
    desk_on(alloc, text, &mut input, &mut output)
}

/// Answers the blocks of the standard input on the standard output, from an empty office in memory, under the settings in a file. No contract can say which bytes
/// the file and the standard input give, and which the standard output takes. The proof is that of `desk_on`, whose code is the same for all of them.
pub fn run_desk(rt: &HostRuntime, config: &str) -> Result<(), ProgramFault> {
    let text = text_at(rt, config)?;
    desk_at(rt, &text)
}
