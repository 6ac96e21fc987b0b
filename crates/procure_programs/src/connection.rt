//! One connection, over any reader and writer.
ghost use Rattle.std.specs.Prelude.{◌≡◌, true, IfErr, OnErr, OnOk};
ghost use Rattle.std.specs.Io.KnownBytes.{Appends};
ghost use Rattle.office_wire.specs.Sending.{AppendsPart};
ghost use Rattle.office_wire.specs.declared.fault.ReadFault.TheVariants.{Unavailable};
ghost use Rattle.office_http.specs.Answering.{fault_text};
ghost use Rattle.procure_programs.specs.Turns.{AnswersConnection, EndsConnection};

use office_base::shelf::{Lookups, Shelf};
use office_http::answering::fault_response;
use office_http::laws;
use office_http::office::{Office, serve_one};
use office_values::moment::Moment;
use office_wire::counted::CountedReader;
use office_wire::fault::{ReadFault, RunFault};
use office_wire::sending::send_flushed;
use office_wire::watched::WatchedWriter;
use std::alloc::Global;
use std::io::{BufReader, Read, Write};
use std::marker::Model;

/// How serving a connection ended. Only serving one gives this value.
#[derive(Drop)]
pub struct Ended {
    result: Result<(), RunFault>,
}

impl Model for Ended {
    ghost use Rattle.std.specs.Prelude.{⊤, Result};
    ghost use Rattle.office_wire.specs.declared.fault.RunFault.{RunFault};

    ghost Value = { Result ⊤ RunFault };

    ghost view = { λ s. s.result };
}

impl Ended {
    /// The fault by which it ended, if any.
    pub fn result(&self) -> Result<(), RunFault>
        ensures { result ≡ self.now }
    {
        self.result
    }
}

// The capacity of a reader's buffer, in bytes. It is cleared for each connection. Most requests fit; a larger one takes another read.
const READ_ROOM: usize = 4096;

// Sends and flushes the response if there is no memory to read the request.
fn refuse<W: Write>(writer: &mut WatchedWriter<W>) -> Result<(), RunFault>
    ensures told { OnOk result (Appends writer.old.contents writer.new.contents (fault_text Unavailable)) }
    ensures part { OnErr result (AppendsPart writer.old.contents writer.new.contents (fault_text Unavailable)) }
    ensures fault { IfErr result (λ fault. fault ≡ RunFault.Write) }
    ensures cause { OnErr result (writer.new.has_failed ≡ true) }
    ensures flushed { OnOk result (writer.new.is_flushed ≡ true) }
{
    send_flushed(writer, fault_response(ReadFault::Unavailable))?;
    Ok(())
}

/// Serves one connection: reads a request, and sends and flushes the response to it, at this moment. A fault of the reader or the writer ends only this
/// connection. If there is no memory for the reader's buffer, the response is `Unavailable`, nothing is read, and no reader is returned.
pub fn serve_connection<H: Shelf + Drop, R: Read + Drop, W: Write>(
    alloc: Global,
    office: &mut Office<H>,
    moment: Moment,
    reader: R,
    writer: &mut WatchedWriter<W>,
) -> (Option<CountedReader<BufReader<R>>>, Ended)
    ensures before { H.meaning.honest office.new.shelf → H.meaning.honest office.old.shelf }
    ensures served { AnswersConnection H.meaning moment (R.remaining reader) writer.old.contents writer.new.contents office.old office.new result.1 }
    ensures ended { EndsConnection result.1 result.0 writer.new }
{
    laws::accounts_and_fates();
    match BufReader::with_capacity(alloc, READ_ROOM, reader) {
        Ok(buffered) => {
            let mut counted = CountedReader::new(buffered);
            let result = serve_one(alloc, office, moment, &mut counted, writer);
            (Some(counted), Ended { result })
        }
        Err(_) => {
            let result = refuse(writer);
            (None, Ended { result })
        }
    }
}
