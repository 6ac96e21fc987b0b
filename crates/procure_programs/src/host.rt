//! The computer that serves an office: connections, one after another, and a clock. Contracts describe its events, so that they can say which connection is
//! served, and when. No contract can say anything of the sockets and of the computer's clock themselves.
ghost use Rattle.std.specs.Prelude.{Option, option_map};
ghost use Rattle.std.specs.Duration.{as_nanos};
ghost use Rattle.std.specs.declared.net.socket_addr.SocketAddrV4.{SocketAddrV4 as Address};
ghost use Rattle.procure_programs.specs.Hosts.{HostEvents, IsLoopbackAt};

use crate::connection::Ended;
use std::io;
use std::io::{Read, Write};
use std::net::{Ipv4Addr, Net, OpenListener, OpenStream, SocketAddr, SocketAddrV4};
use std::time::{Clock, Duration, SystemTime, UNIX_EPOCH};

/// A host takes connections one after another, reads the clock, and closes connections.
pub trait Host {
    /// The source of a connection's bytes.
    type Reader: Read + Drop;

    /// The destination of its response.
    type Writer: Write + Drop;

    ghost events: { HostEvents Self Self.Reader Self.Writer };

    /// Waits for the next connection, and takes it. None if a socket failed.
    fn accept(&mut self) -> Option<(Self::Reader, Self::Writer)>
        ensures { events.takes self.old result self.new };

    /// The time since 1970-01-01T00:00:00Z, or none if the clock can't be read.
    fn time(&mut self) -> Option<Duration>
        ensures { events.tells self.old (option_map as_nanos result) self.new };

    /// Closes a connection that ended in this way.
    fn close(&mut self, writer: Self::Writer, ended: Ended)
        ensures { events.closes self.old writer ended self.new };
}

/// The place that opens hosts. Each opening changes it, so a contract that says what became of it leaves no room for another one.
pub trait Network {
    type Opened: Host + Drop;

    ghost binds: { Self → Address → Option Self.Opened → Self → Type 0 };

    /// The host that takes the connections to this address. None if the address isn't free, for example because another program has it.
    fn bind(&mut self, address: SocketAddrV4) -> Option<Self::Opened>
        ensures { binds self.old address result self.new };
}

/// The address at which an office is served: 127.0.0.1, and this port.
pub fn loopback(port: u16) -> SocketAddrV4
    ensures { IsLoopbackAt port result }
{
    SocketAddrV4::new(Ipv4Addr::new(127, 0, 0, 1), port)
}

/// The most seconds that a read or a write of a socket may wait.
pub const PATIENCE: u64 = 10;

// A read or a write that waits longer fails.
fn set_patience<S: OpenStream>(stream: &S) -> io::Result<()> {
    let patience = Some(Duration::from_secs(PATIENCE));
    stream.set_read_timeout(patience)?;
    stream.set_write_timeout(patience)
}

// Two handles of a connection, one to read from and one to write to.
fn halves<S: OpenStream + Drop>(stream: S) -> io::Result<(S, S)> {
    set_patience(&stream)?;
    let reader = stream.try_clone()?;
    Ok((reader, stream))
}

/// The sockets of a computer, and its clock.
#[derive(Drop)]
pub struct Computer<'a, N: Net + Clock> {
    pub network: &'a N,
}

impl<'a, N: Net + Clock> Network for Computer<'a, N> {
    type Opened = ListeningHost<'a, N>;

    ghost binds = { λ _ _ _ _. Unit {0} };

    fn bind(&mut self, address: SocketAddrV4) -> Option<ListeningHost<'a, N>> {
        match self.network.bind(SocketAddr::V4(address)) {
            Ok(listener) => Some(ListeningHost {
                network: self.network,
                listener,
            }),
            Err(_) => None,
        }
    }
}

/// A listening socket, and the computer's clock.
#[derive(Drop)]
pub struct ListeningHost<'a, N: Net + Clock> {
    network: &'a N,
    listener: N::Listener,
}

impl<'a, N: Net + Clock> Host for ListeningHost<'a, N> {
    type Reader = N::Stream;

    type Writer = N::Stream;

    ghost events = { record { takes = λ _ _ _. Unit {0}; tells = λ _ _ _. Unit {0}; closes = λ _ _ _ _. Unit {0} } };

    fn accept(&mut self) -> Option<(N::Stream, N::Stream)> {
        let Ok((stream, _)) = self.listener.accept() else {
            return None;
        };
        match halves(stream) {
            Ok(connection) => Some(connection),
            Err(_) => None,
        }
    }

    fn time(&mut self) -> Option<Duration> {
        let Ok(now) = SystemTime::now(self.network) else {
            return None;
        };
        match now.duration_since(UNIX_EPOCH) {
            Ok(time) => Some(time),
            Err(_) => None,
        }
    }

    // This drops the connection's second handle.
    fn close(&mut self, _writer: N::Stream, _ended: Ended) {}
}
