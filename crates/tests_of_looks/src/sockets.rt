//! Sockets and a clock that a test defines, below the computer that serves an office. They record which address is asked for, how long a read and a write may
//! wait, at which second a connection is answered, and the output.
use office_base::stored::StoredShelf;
use office_http::office::Office;
use office_store::shelf::SqlShelf;
use procure_config::fault::ProgramFault;
use procure_programs::host::Computer;
use procure_programs::serving::serve_at;
use sqlite::Alter;
use std::alloc::Global;
use std::cell::Cell;
use std::io;
use std::io::{ErrorKind, Read, Write};
use std::net::{Ipv4Addr, Net, OpenListener, OpenStream, SocketAddr, SocketAddrV4};
use std::os::fd::{AsRawFd, RawFd};
use std::rc::Rc;
use std::time::{Clock, Duration};
use tests_transcripts::session::desk_over;

// 2026-01-05T09:00:00Z.
const BEGIN: u64 = 1_767_603_600;

const IMPORT: &[u8] =
    b"POST /budget/B1 HTTP/1.1\r\nOffice-Caller: clerk\r\nOffice-Key: abc\r\nContent-Length: 42\r\n\r\nline,kind,amount,title\n1000,add,700,Roads\n";

const LOOK: &[u8] = b"GET /lines/1000 HTTP/1.1\r\n\r\n";

const CUT: &[u8] = b"GET /li";

// The bytes that come over each connection, or none for one that can't be taken.
static CAME: [Option<&[u8]>; 4] = [Some(IMPORT), None, Some(LOOK), Some(CUT)];

// The output over the three connections that can be taken.
static TOLD: &[u8] =
    b"HTTP/1.1 200 OK\r\nContent-Type: application/json\r\nContent-Length: 55\r\nConnection: close\r\n\r\n{\"batch\":\"B1\",\"moment\":\"2026-01-05T09:00:00Z\",\"rows\":1}HTTP/1.1 200 OK\r\nContent-Type: application/json\r\nContent-Length: 99\r\nConnection: close\r\n\r\n{\"appropriation\":700,\"contracted\":0,\"free\":700,\"line\":\"1000\",\"paid\":0,\"reserved\":0,\"title\":\"Roads\"}HTTP/1.1 400 Bad Request\r\nContent-Type: application/json\r\nContent-Length: 30\r\nConnection: close\r\n\r\n{\"name\":\"BadHead\",\"refusal\":1}";

/// The calls of the sockets, and the output over them.
#[derive(Clone, Copy)]
struct Seen {
    /// The number of connections that were to be taken.
    taken: usize,
    /// How often a read was limited to ten seconds.
    reads: u32,
    /// How often a write was limited to ten seconds.
    writes: u32,
    /// How much of the expected output was written. None after anything else was written.
    told: Option<usize>,
}

// How much of the expected output is written after these bytes too.
fn told_behind(seen: Seen, bytes: &[u8]) -> Option<usize> {
    let told = seen.told?;
    let (_, left) = TOLD.split_at_checked(told)?;
    if left.starts_with(bytes) {
        Some(told.saturating_add(bytes.len()))
    } else {
        None
    }
}

// 1 if the wait is ten seconds.
fn one_if_ten(wait: Option<Duration>) -> u32 {
    match wait {
        Some(wait) if wait == Duration::from_secs(10) => 1,
        _ => 0,
    }
}

// The bytes that come over the connection that is taken after this many. None if taking it fails.
fn came_behind(came: &'static [Option<&'static [u8]>], taken: usize) -> Option<&'static [u8]> {
    *came.get(taken)?
}

// The rest of these bytes after this many are read.
fn rest_of(taken: usize, read: usize) -> Option<&'static [u8]> {
    let (_, rest) = came_behind(&CAME, taken)?.split_at_checked(read)?;
    Some(rest)
}

/// A handle of a connection: how many were taken before it, and how many of its bytes were read. It holds no reference to these bytes, because the prover's
/// borrow checker doesn't cover a bound on a type that holds one.
#[derive(Drop)]
struct Stream {
    number: usize,
    read: usize,
    seen: Rc<Cell<Seen>>,
}

impl Read for Stream {
    fn read(&mut self, buf: &mut [u8]) -> io::Result<usize> {
        let Some(mut rest) = rest_of(self.number, self.read) else {
            return Ok(0);
        };
        let count = rest.read(buf)?;
        self.read = self.read.saturating_add(count);
        Ok(count)
    }
}

impl Write for Stream {
    fn write(&mut self, buf: &[u8]) -> io::Result<usize> {
        let mut seen = self.seen.get();
        seen.told = told_behind(seen, buf);
        self.seen.set(seen);
        Ok(buf.len())
    }

    fn flush(&mut self) -> io::Result<()> {
        Ok(())
    }
}

impl OpenStream for Stream {
    fn set_read_timeout(&self, wait: Option<Duration>) -> io::Result<()> {
        let mut seen = self.seen.get();
        seen.reads = seen.reads.saturating_add(one_if_ten(wait));
        self.seen.set(seen);
        Ok(())
    }

    fn set_write_timeout(&self, wait: Option<Duration>) -> io::Result<()> {
        let mut seen = self.seen.get();
        seen.writes = seen.writes.saturating_add(one_if_ten(wait));
        self.seen.set(seen);
        Ok(())
    }

    fn try_clone(&self) -> io::Result<Stream> {
        let seen = self.seen.clone()?;
        Ok(Stream {
            number: self.number,
            read: self.read,
            seen,
        })
    }
}

impl AsRawFd for Stream {
    fn as_raw_fd(&self) -> RawFd {
        3
    }
}

/// The sockets of a computer, where one port is free, and its clock, which shows the last billionth of a second. They take the connections themselves.
#[derive(Drop)]
struct Sockets {
    seen: Rc<Cell<Seen>>,
}

// Sockets over which nothing came yet. None if memory is too small.
fn new_sockets(alloc: Global) -> Option<Sockets> {
    let nothing = Seen {
        taken: 0,
        reads: 0,
        writes: 0,
        told: Some(0),
    };
    let seen = Rc::new(alloc, Cell::new(nothing)).ok()?;
    Some(Sockets { seen })
}

// Whether each of the three connections was answered after its limits for waiting were set. The one that can't be taken counts among the four.
fn is_all_told(sockets: &Sockets) -> bool {
    let seen = sockets.seen.get();
    seen.taken == 4 && seen.reads == 3 && seen.writes == 3 && seen.told == Some(TOLD.len())
}

impl OpenListener for Sockets {
    type Stream = Stream;

    fn accept(&self) -> io::Result<(Stream, SocketAddr)> {
        let mut seen = self.seen.get();
        let number = seen.taken;
        seen.taken = number.saturating_add(1);
        self.seen.set(seen);
        if came_behind(&CAME, number).is_none() {
            return Err(io::Error::from(ErrorKind::ConnectionAborted));
        }
        let seen = self.seen.clone()?;
        let from = SocketAddr::V4(SocketAddrV4::new(Ipv4Addr::LOCALHOST, 1024));
        let stream = Stream {
            number,
            read: 0,
            seen,
        };
        Ok((stream, from))
    }
}

impl AsRawFd for Sockets {
    fn as_raw_fd(&self) -> RawFd {
        4
    }
}

// Whether this is port 8083 of the computer itself.
fn is_free(address: SocketAddr) -> bool {
    match address {
        SocketAddr::V4(address) => {
            address.ip().octets() == [127, 0, 0, 1] && address.port() == 8083
        }
        SocketAddr::V6(_) => false,
    }
}

impl Net for Sockets {
    type Stream = Stream;

    type Listener = Sockets;

    fn bind(&self, address: SocketAddr) -> io::Result<Sockets> {
        if !is_free(address) {
            return Err(io::Error::from(ErrorKind::AddrInUse));
        }
        let seen = self.seen.clone()?;
        Ok(Sockets { seen })
    }

    fn connect(&self, _address: SocketAddr) -> io::Result<Stream> {
        Err(io::Error::from(ErrorKind::Unsupported))
    }
}

impl Clock for Sockets {
    fn monotonic(&self) -> io::Result<Duration> {
        Ok(Duration::ZERO)
    }

    fn since_1970(&self) -> io::Result<Duration> {
        Ok(Duration::new(BEGIN, 999_999_999))
    }
}

// Whether an office is served at the free port, and not at a port that isn't free.
fn is_served<H: StoredShelf + Drop>(
    alloc: Global,
    sockets: &Sockets,
    office: &mut Office<H>,
) -> bool {
    let mut computer = Computer { network: sockets };
    let is_refused = matches!(
        &serve_at(alloc, &mut computer, office, 8084, 1),
        Err(ProgramFault::Input)
    );
    is_refused && serve_at(alloc, &mut computer, office, 8083, 4).is_ok()
}

// Whether an office is served, and each of its connections is answered.
fn serves_at_sockets<H: StoredShelf + Drop>(alloc: Global, shelf: H) -> bool {
    let Some(sockets) = new_sockets(alloc) else {
        return false;
    };
    let Ok(desk) = desk_over(alloc, shelf) else {
        return false;
    };
    let Ok(mut office) = Office::new(alloc, desk) else {
        return false;
    };
    is_served(alloc, &sockets, &mut office) && is_all_told(&sockets)
}

// Generic in the store, so that the prover doesn't compare the facts about any store again at this one.
fn serves_over<A: Alter + Drop>(alloc: Global, shelf: SqlShelf<A>) -> bool {
    serves_at_sockets(alloc, shelf)
}

fn serves_in_sql(alloc: Global) -> bool {
    match SqlShelf::create(alloc) {
        Ok(shelf) => serves_over(alloc, shelf),
        Err(_) => false,
    }
}

#[test]
fn sockets_are_served(rt: HostRuntime) {
    let alloc = rt.alloc();
    // Tries twice, because a test may refuse one allocation.
    assert!(rt; serves_in_sql(alloc) || serves_in_sql(alloc));
}
