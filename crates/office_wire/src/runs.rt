//! Runs: blocks are read, and responses are written.
ghost use Rattle.std.specs.Prelude.{◌≡◌, ◌≤◌, List, true, IsErrOf, OnOk};
ghost use Rattle.office_wire.specs.Counting.{HasStopped};
ghost use Rattle.office_wire.specs.Responders.{Meaning, Responds};
ghost use Rattle.office_wire.specs.Runs.{Step, Ran, Served, office_left};

use crate::answer::Answer;
use crate::blocks::read_block_line;
use crate::counted::CountedReader;
use crate::fault::{ReadFault, RunFault};
use crate::request::{Request, read_request};
use crate::sending::send;
use crate::watched::WatchedWriter;
use office_values::moment::Moment;
use std::alloc::Global;
use std::io::{BufRead, Write};

/// A program that answers the blocks of a run.
pub trait Responder {
    ghost meaning: { Meaning Self };

    /// Answers a request at a moment.
    fn answer(&mut self, alloc: Global, moment: Moment, request: &Request) -> Answer
        ensures before { meaning.honest self.new → meaning.honest self.old }
        ensures step { meaning.honest self.new → Responds meaning self.old self.new (record { moment = moment; request = request.now }) result };

    /// The response to bytes that can't be read as a request.
    fn refusal(&self, fault: ReadFault) -> &'static [u8]
        ensures { result.now ≡ meaning.answers.refusal fault };
}

/// Answers each block of the input in turn, and returns their number.
fn answer_blocks<D: Responder, R: BufRead, W: Write>(
    alloc: Global,
    desk: &mut D,
    reader: &mut CountedReader<R>,
    writer: &mut WatchedWriter<W>,
) -> Result<u64, RunFault>
    ensures before { D.meaning.honest desk.new → D.meaning.honest desk.old }
    ensures ran { D.meaning.honest desk.new → (s : D.meaning.Office) → D.meaning.holds desk.old s
        → (steps : List Step) × Ran D.meaning.answers result reader.old reader.new s steps writer.old.contents writer.new.contents
        × D.meaning.holds desk.new (office_left D.meaning.answers s steps) }
    ensures cause { IsErrOf result RunFault.Read → HasStopped reader.new }
    ensures writes { IsErrOf result RunFault.Write → writer.new.has_failed ≡ true }
    ensures all_read { OnOk result (reader.new.has_failed ≡ reader.old.has_failed) }
    ensures all_written { OnOk result (writer.new.has_failed ≡ writer.old.has_failed) }
    ensures spent { reader.new.left ≤ reader.old.left }
{
    let most = reader.left() as u64;
    'rounds: for count in 0..most {
        let Some(moment) = read_block_line(reader)? else {
            return Ok(count);
        };
        match read_request(alloc, reader) {
            Ok(request) => {
                let answer = desk.answer(alloc, moment, &request);
                send(writer, answer.bytes())?;
            }
            Err(fault) => match fault {
                ReadFault::Read => return Err(RunFault::Read),
                _ => {
                    send(writer, desk.refusal(fault))?;
                    return Err(RunFault::LostPlace);
                }
            },
        }
    }
    Err(RunFault::Read)
}

/// Answers each block of the input in turn, and returns their number. The responses are flushed once, at the end. With any reader, a run goes through steps,
/// and the written bytes are their responses. If the bytes of the reader are known, the steps are those of these bytes.
pub fn run<D: Responder, R: BufRead, W: Write>(
    alloc: Global,
    desk: &mut D,
    reader: &mut CountedReader<R>,
    writer: &mut WatchedWriter<W>,
) -> Result<u64, RunFault>
    ensures before { D.meaning.honest desk.new → D.meaning.honest desk.old }
    ensures ran { D.meaning.honest desk.new → (s : D.meaning.Office) → D.meaning.holds desk.old s
        → (steps : List Step) × Ran D.meaning.answers result reader.old reader.new s steps writer.old.contents writer.new.contents
        × D.meaning.holds desk.new (office_left D.meaning.answers s steps) }
    ensures cause { IsErrOf result RunFault.Read → HasStopped reader.new }
    ensures writes { IsErrOf result RunFault.Write → writer.new.has_failed ≡ true }
    ensures all_read { OnOk result (reader.new.has_failed ≡ reader.old.has_failed) }
    ensures all_written { OnOk result (writer.new.has_failed ≡ writer.old.has_failed) }
    ensures spent { reader.new.left ≤ reader.old.left }
    ensures flushed { OnOk result (writer.new.is_flushed ≡ true) }
{
    let outcome = answer_blocks(alloc, desk, reader, writer);
    if writer.flush().is_err() {
        return Err(RunFault::Write);
    }
    outcome
}

/// Reads one request and sends the response to it.
fn answer_one<D: Responder, R: BufRead, W: Write>(
    alloc: Global,
    desk: &mut D,
    moment: Moment,
    reader: &mut CountedReader<R>,
    writer: &mut WatchedWriter<W>,
) -> Result<(), RunFault>
    ensures before { D.meaning.honest desk.new → D.meaning.honest desk.old }
    ensures served { D.meaning.honest desk.new → (s : D.meaning.Office) → D.meaning.holds desk.old s
        → (steps : List Step) × Served D.meaning.answers result reader.old.remaining reader.new.remaining moment s steps writer.old.contents writer.new.contents
        × D.meaning.holds desk.new (office_left D.meaning.answers s steps) }
    ensures cause { IsErrOf result RunFault.Read → HasStopped reader.new }
    ensures writes { IsErrOf result RunFault.Write → writer.new.has_failed ≡ true }
    ensures all_written { OnOk result (writer.new.has_failed ≡ writer.old.has_failed) }
    ensures spent { reader.new.left ≤ reader.old.left }
{
    match read_request(alloc, reader) {
        Ok(request) => {
            let answer = desk.answer(alloc, moment, &request);
            send(writer, answer.bytes())?;
            Ok(())
        }
        Err(fault) => match fault {
            ReadFault::Read => Err(RunFault::Read),
            _ => {
                send(writer, desk.refusal(fault))?;
                Ok(())
            }
        },
    }
}

/// Reads one request, sends the response to it and flushes it. The only faults are `Read` and `Write`.
pub fn serve_one<D: Responder, R: BufRead, W: Write>(
    alloc: Global,
    desk: &mut D,
    moment: Moment,
    reader: &mut CountedReader<R>,
    writer: &mut WatchedWriter<W>,
) -> Result<(), RunFault>
    ensures before { D.meaning.honest desk.new → D.meaning.honest desk.old }
    ensures served { D.meaning.honest desk.new → (s : D.meaning.Office) → D.meaning.holds desk.old s
        → (steps : List Step) × Served D.meaning.answers result reader.old.remaining reader.new.remaining moment s steps writer.old.contents writer.new.contents
        × D.meaning.holds desk.new (office_left D.meaning.answers s steps) }
    ensures cause { IsErrOf result RunFault.Read → HasStopped reader.new }
    ensures writes { IsErrOf result RunFault.Write → writer.new.has_failed ≡ true }
    ensures all_written { OnOk result (writer.new.has_failed ≡ writer.old.has_failed) }
    ensures spent { reader.new.left ≤ reader.old.left }
    ensures flushed { OnOk result (writer.new.is_flushed ≡ true) }
{
    answer_one(alloc, desk, moment, reader, writer)?;
    writer.flush()?;
    Ok(())
}
