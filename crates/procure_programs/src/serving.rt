//! An office that is served over connections, one after another.
ghost use Rattle.std.specs.Prelude.{◌≡◌, ◌⊎◌, IfErr};
ghost use Rattle.procure_programs.specs.Hosts.{hosting};
ghost use Rattle.procure_programs.specs.Serving.{TakesTurns};
ghost use Rattle.procure_programs.specs.Turns.{ServesAt, ServesInTurn, ServesSteps, TakesOne, TakesTurn};

use crate::clock::moment_now;
use crate::connection::serve_connection;
use crate::host::{Host, Network, loopback};
use office_base::shelf::{Lookups, Shelf};
use office_base::stored::StoredShelf;
use office_http::laws;
use office_http::office::Office;
use office_wire::watched::WatchedWriter;
use procure_config::fault::ProgramFault;
use std::alloc::Global;
use std::io::{Read, Write};

/// Serves the next connection, at the moment that the clock shows after it was taken, and closes it. Returns whether a connection was taken; none is if a
/// socket failed. `Input` if the clock can't be read; then nothing is served.
pub fn take_one<T: Host, H: Shelf + Drop>(
    alloc: Global,
    host: &mut T,
    office: &mut Office<H>,
) -> Result<bool, ProgramFault>
    ensures { TakesOne (hosting T.events T.Reader.remaining T.Writer.contents) H.meaning host.old host.new office.old office.new result }
{
    let Some((reader, writer)) = host.accept() else {
        return Ok(false);
    };
    let moment = moment_now(host)?;
    let mut watched = WatchedWriter::new(writer);
    let (_reader, ended) = serve_connection(alloc, office, moment, reader, &mut watched);
    host.close(watched.into_inner(), ended);
    Ok(true)
}

// Serves the next connection, and then asks whether the store is closed for good. If there is no memory to ask, it asks after the next connection.
fn take_turn<T: Host, H: StoredShelf + Drop>(
    alloc: Global,
    host: &mut T,
    office: &mut Office<H>,
) -> Result<(), ProgramFault>
    ensures { TakesTurn (hosting T.events T.Reader.remaining T.Writer.contents) H.meaning H.store host.old host.new office.old office.new result }
{
    let is_taken = take_one(alloc, host, office)?;
    if !is_taken {
        return Ok(());
    }
    if office.is_shut().unwrap_or(false) {
        return Err(ProgramFault::Store);
    }
    Ok(())
}

// Serves this many connections.
fn take_turns<T: Host, H: StoredShelf + Drop>(
    alloc: Global,
    host: &mut T,
    office: &mut Office<H>,
    count: u32,
) -> Result<(), ProgramFault>
    ensures { ServesInTurn (hosting T.events T.Reader.remaining T.Writer.contents) H.meaning H.store count host.old host.new office.old office.new result }
{
    'connections: for taken in 0..count {
        take_turn(alloc, host, office)?;
    }
    Ok(())
}

/// Serves this many connections, each at the moment that the clock shows after it was taken. A connection that can't be taken counts as one that has ended.
/// `Store` after the first connection after which the store is known to be closed for good; then no other connection is taken. `Input` if the clock can't be
/// read.
pub fn serve<T: Host, H: StoredShelf + Drop>(
    alloc: Global,
    host: &mut T,
    office: &mut Office<H>,
    count: u32,
) -> Result<(), ProgramFault>
    ensures before { H.meaning.honest office.new.shelf → H.meaning.honest office.old.shelf }
    ensures served { ServesSteps (hosting T.events T.Reader.remaining T.Writer.contents) H.meaning H.store count host.old host.new office.old office.new result }
    ensures fault { IfErr result (λ fault. (fault ≡ ProgramFault.Store) ⊎ (fault ≡ ProgramFault.Input)) }
{
    laws::accounts_and_fates();
    take_turns(alloc, host, office, count)
}

/// Serves this many connections to 127.0.0.1 and this port, as `serve` does. No other host is opened. `Input` also if the port isn't free; then nothing is served.
pub fn serve_at<N: Network, H: StoredShelf + Drop>(
    alloc: Global,
    network: &mut N,
    office: &mut Office<H>,
    port: u16,
    count: u32,
) -> Result<(), ProgramFault>
    ensures before { H.meaning.honest office.new.shelf → H.meaning.honest office.old.shelf }
    ensures serves { TakesTurns H.meaning count office.old office.new }
    ensures at { ServesAt N.binds (hosting N.Opened.events N.Opened.Reader.remaining N.Opened.Writer.contents) H.meaning H.store network.old network.new port count office.old office.new result }
    ensures fault { IfErr result (λ fault. (fault ≡ ProgramFault.Store) ⊎ (fault ≡ ProgramFault.Input)) }
{
    laws::accounts_and_fates();
    match network.bind(loopback(port)) {
        Some(mut host) => serve(alloc, &mut host, office, count),
        None => Err(ProgramFault::Input),
    }
}
