//! An office that is asked over HTTP.
ghost use Rattle.std.specs.Prelude.{◌≡◌, ◌≤◌, true, IfOk, IsErrOf, OnOk};
ghost use Rattle.office_base.specs.Shutting.{TellsShut};
ghost use Rattle.office_wire.specs.Counting.{HasStopped};
ghost use Rattle.office_http.specs.Runs.{HasRun, IsServed};

use crate::answering::{answer_request, fault_response};
use crate::laws;
use office_base::shelf::{Lookups, Shelf, ShelfFault};
use office_base::stored::StoredShelf;
use office_desk::desk::Desk;
use office_requests::routes::Routes;
use office_values::moment::Moment;
use office_wire::answer::Answer;
use office_wire::counted::CountedReader;
use office_wire::fault::{ReadFault, RunFault};
use office_wire::request::Request;
use office_wire::runs;
use office_wire::runs::Responder;
use office_wire::watched::WatchedWriter;
use std::alloc::{AllocError, Global};
use std::io::{BufRead, Write};
use std::marker::Model;

/// An office that is asked over HTTP: its desk, and the table of its routes.
pub struct Office<H: Shelf + Drop> {
    desk: Desk<H>,
    routes: Routes,
}

// Written by hand, so that a program that drops an office proves no drop of its parts.
impl<H: Shelf + Drop> Drop for Office<H> {
    fn drop(self) {
        let Office { desk: _, routes: _ } = self;
    }
}

impl<H: Shelf + Drop> Model for Office<H> {
    ghost use Rattle.office_desk.specs.Desks.{DeskOf};

    ghost Value = { DeskOf H };

    ghost view = { λ o. o.desk };
}

impl<H: Shelf + Drop> Office<H> {
    /// An office with this desk. It makes the table of routes once, here.
    pub fn new(alloc: Global, desk: Desk<H>) -> Result<Office<H>, AllocError>
        ensures { IfOk result (λ office. office ≡ desk) }
    {
        let routes = Routes::new(alloc)?;
        Ok(Office { desk, routes })
    }

    /// The desk; the office is used up. Takes no memory.
    pub fn into_desk(self) -> Desk<H>
        ensures { result ≡ self }
    {
        let Office { desk, routes: _ } = self;
        desk
    }
}

impl<H: StoredShelf + Drop> Office<H> {
    /// Whether a fault has closed the store for good. Nothing changes. A fault of this call is counted like any other.
    pub fn is_shut(&mut self) -> Result<bool, ShelfFault>
        ensures told { TellsShut H.meaning H.store self.old.shelf self.new.shelf result }
        ensures settings { self.new.settings ≡ self.old.settings }
    {
        self.desk.is_shut()
    }
}

impl<H: Shelf + Drop> Responder for Office<H> {
    ghost use Rattle.std.specs.Prelude.{◌≡◌};
    ghost use Rattle.office_http.specs.Stops.{StandsWatched, Watched, watched_answers};

    ghost meaning = { record {
      Office = Watched H;
      honest = λ o. H.meaning.honest o.shelf;
      holds = λ o w. StandsWatched H.meaning o w;
      answers = watched_answers;
    } };

    fn answer(&mut self, alloc: Global, moment: Moment, request: &Request) -> Answer {
        answer_request(alloc, &self.routes, &mut self.desk, moment, request)
    }

    fn refusal(&self, fault: ReadFault) -> &'static [u8] {
        fault_response(fault)
    }
}

/// Answers each block of the input in turn: a line `at MOMENT` and a request. Returns the number of blocks if the input ends after a block. The responses are
/// flushed once, at the end. `Read` means that a read failed or that no more reads are allowed, and `Write` that a write or the flush failed. Whatever bytes
/// the reader reports, the office goes through steps: each has a request of the grammar, for which at least one read was made, and its response was sent. The
/// office afterwards, its accounts and the states that a stop may leave are those of the same steps.
pub fn run<H: Shelf + Drop, R: BufRead, W: Write>(
    alloc: Global,
    office: &mut Office<H>,
    reader: &mut CountedReader<R>,
    writer: &mut WatchedWriter<W>,
) -> Result<u64, RunFault>
    ensures before { H.meaning.honest office.new.shelf → H.meaning.honest office.old.shelf }
    ensures ran { HasRun H.meaning result reader.old reader.new office.old office.new writer.old.contents writer.new.contents }
    ensures cause { IsErrOf result RunFault.Read → HasStopped reader.new }
    ensures writes { IsErrOf result RunFault.Write → writer.new.has_failed ≡ true }
    ensures all_read { OnOk result (reader.new.has_failed ≡ reader.old.has_failed) }
    ensures all_written { OnOk result (writer.new.has_failed ≡ writer.old.has_failed) }
    ensures spent { reader.new.left ≤ reader.old.left }
    ensures flushed { OnOk result (writer.new.is_flushed ≡ true) }
{
    laws::accounts_and_fates();
    runs::run(alloc, office, reader, writer)
}

/// Reads one request, and sends and flushes the response to it, at the moment that the caller passes. The only faults are `Read` and `Write`. `Read` means that
/// a read failed or that no more reads are allowed, and `Write` that a write or the flush failed. Whatever bytes the reader reports, at most one request was
/// answered, and the office afterwards is the one after this request.
pub fn serve_one<H: Shelf + Drop, R: BufRead, W: Write>(
    alloc: Global,
    office: &mut Office<H>,
    moment: Moment,
    reader: &mut CountedReader<R>,
    writer: &mut WatchedWriter<W>,
) -> Result<(), RunFault>
    ensures before { H.meaning.honest office.new.shelf → H.meaning.honest office.old.shelf }
    ensures served { IsServed H.meaning result reader.old.remaining reader.new.remaining moment office.old office.new writer.old.contents writer.new.contents }
    ensures cause { IsErrOf result RunFault.Read → HasStopped reader.new }
    ensures writes { IsErrOf result RunFault.Write → writer.new.has_failed ≡ true }
    ensures all_written { OnOk result (writer.new.has_failed ≡ writer.old.has_failed) }
    ensures spent { reader.new.left ≤ reader.old.left }
    ensures flushed { OnOk result (writer.new.is_flushed ≡ true) }
{
    laws::accounts_and_fates();
    runs::serve_one(alloc, office, moment, reader, writer)
}
