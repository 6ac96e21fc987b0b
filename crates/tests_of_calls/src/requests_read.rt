//! Requests that are read from a stream that is slow, interrupted or fails, and bytes that are sent.
use crate::streams::{Drip, make_narrow};
use office_wire::counted::CountedReader;
use office_wire::fault::ReadFault;
use office_wire::request::{Request, read_request};
use office_wire::sending::send;
use office_wire::watched::WatchedWriter;
use std::alloc::{AllocError, Global};
use std::io::{BufRead, BufReader, ErrorKind};

const POST: &[u8] =
    b"POST /budget/B1?x=y HTTP/1.1\r\nOffice-Caller: clerk\r\nCONTENT-length:  5 \r\nA:\r\n\r\nhello";

fn is_post(request: &Request) -> bool {
    request.method() == b"POST".as_slice()
        && request.target() == b"/budget/B1?x=y".as_slice()
        && request.field_count() == 3
        && request.body() == b"hello".as_slice()
}

/// Reads a request, without a limit on the reads.
fn read<R: BufRead + Drop>(alloc: Global, reader: R) -> Result<Request, ReadFault> {
    let mut counted = CountedReader::new(reader);
    read_request(alloc, &mut counted)
}

/// Whether the request of POST was read.
fn is_post_read(outcome: Result<Request, ReadFault>) -> bool {
    match outcome {
        Ok(request) => is_post(&request),
        Err(_) => false,
    }
}

/// Whether POST is read to its end by reads of at most this many bytes.
fn is_read_by(alloc: Global, most: usize) -> bool {
    let mut reader = Drip::over(POST, most);
    reader.is_interrupted = most % 2 == 0;
    is_post_read(read(alloc, &mut reader)) && reader.rest.len() == 0
}

#[test]
fn reads_whatever_a_read_gives(rt: HostRuntime) {
    for most in 1..9usize {
        assert!(rt; is_read_by(rt.alloc(), most));
    }
}

/// Whether POST is read through a buffer of this many bytes.
fn is_read_through(alloc: Global, size: usize) -> bool {
    match BufReader::with_capacity(alloc, size, Drip::over(POST, 7)) {
        Ok(reader) => is_post_read(read(alloc, reader)),
        Err(_) => false,
    }
}

#[test]
fn reads_through_small_buffers(rt: HostRuntime) {
    for size in 1..40usize {
        assert!(rt; is_read_through(rt.alloc(), size));
    }
}

/// Whether reading fails if the reader fails after this many reads of a byte.
fn fails_after(alloc: Global, reads: u32) -> bool {
    let mut drip = Drip::over(POST, 1);
    drip.reads = reads;
    let mut reader = CountedReader::new(drip);
    let fault = read_request(alloc, &mut reader).err();
    fault == Some(ReadFault::Read)
        && reader.has_failed()
        && reader.left().checked_add(reads) == Some(u32::MAX - 1)
}

#[test]
fn fails_where_the_reader_fails(rt: HostRuntime) {
    for reads in 0..POST.len() as u32 {
        assert!(rt; fails_after(rt.alloc(), reads));
    }
}

/// Whether a reader of this many reads gives POST or runs out. It reads a byte at a time, and each read is interrupted once.
fn counts_to(alloc: Global, reads: u32) -> bool {
    let all = 2 * POST.len() as u32;
    let mut drip = Drip::over(POST, 1);
    drip.is_interrupted = true;
    let mut reader = CountedReader::within(drip, reads);
    let outcome = read_request(alloc, &mut reader);
    let has_failed = reader.has_failed();
    let left = reader.left();
    let rest = reader.into_inner().rest.len();
    let is_right = if reads < all {
        outcome.err() == Some(ReadFault::Read)
            && left == 0
            && rest == POST.len() - reads as usize / 2
    } else {
        is_post_read(outcome) && left == reads - all
    };
    is_right && !has_failed
}

#[test]
fn counts_reads(rt: HostRuntime) {
    for reads in 0..2 * POST.len() as u32 + 2 {
        assert!(rt; counts_to(rt.alloc(), reads));
    }
}

// A request with a body of 65,536 bytes.
fn longest(alloc: Global) -> Result<Vec<u8>, AllocError> {
    let body = vec![in alloc; b'.'; 65_536]?;
    let mut input = b"PUT / HTTP/1.1\r\ncontent-length: 65536\r\n\r\n".to_vec(alloc)?;
    input.extend_from_slice(&body)?;
    Ok(input)
}

fn takes_a_body_in_four_reads(alloc: Global) -> bool {
    let Ok(input) = longest(alloc) else {
        return false;
    };
    let mut reader = CountedReader::within(input.as_slice(), 4);
    match read_request(alloc, &mut reader) {
        Ok(request) => request.body().len() == 65_536 && reader.left() == 0,
        Err(_) => false,
    }
}

#[test]
fn takes_a_line_a_read(rt: HostRuntime) {
    assert!(rt; takes_a_body_in_four_reads(rt.alloc()));
}

/// Whether a writer of this many writes, of two bytes each, accepts this beginning of a greeting, and all calls report the expected results.
fn sends_front(alloc: Global, writes: u32, wanted: &[u8], is_whole: bool) -> bool {
    let mut writer = WatchedWriter::new(make_narrow(alloc, 2, writes, ErrorKind::BrokenPipe));
    let is_sent = send(&mut writer, b"hello").is_ok();
    let has_failed = writer.has_failed();
    let is_flushed = writer.flush().is_ok();
    let has_failed_since = writer.has_failed();
    let narrow = writer.into_inner();
    is_sent == is_whole
        && has_failed != is_whole
        && is_flushed == is_whole
        && has_failed_since != is_whole
        && narrow.bytes.as_slice() == wanted
}

fn sends_into_list(alloc: Global) -> bool {
    let mut list = WatchedWriter::new(Vec::new(alloc));
    let is_sent = send(&mut list, b"hello").is_ok();
    let bytes = list.into_inner();
    is_sent && bytes.as_slice() == b"hello".as_slice()
}

#[test]
fn sends_all_or_a_front(rt: HostRuntime) {
    assert!(rt; sends_front(rt.alloc(), 9, b"hello", true));
    assert!(rt; sends_front(rt.alloc(), 2, b"hell", false));
    assert!(rt; sends_into_list(rt.alloc()));
}

/// Whether a writer that accepts nothing fails at the first byte, and not earlier.
fn fails_at_once(alloc: Global, most: usize, writes: u32, kind: ErrorKind) -> bool {
    let mut writer = WatchedWriter::new(make_narrow(alloc, most, writes, kind));
    let is_empty_sent = send(&mut writer, b"").is_ok();
    let had_failed = writer.has_failed();
    let is_sent = send(&mut writer, b"hello").is_ok();
    is_empty_sent && !had_failed && !is_sent && writer.has_failed()
}

fn remembers_a_failed_flush(alloc: Global) -> bool {
    let mut writer = WatchedWriter::new(make_narrow(alloc, 9, 0, ErrorKind::BrokenPipe));
    let is_flushed = writer.flush().is_ok();
    !is_flushed && writer.has_failed()
}

#[test]
fn remembers_failed_writes(rt: HostRuntime) {
    assert!(rt; fails_at_once(rt.alloc(), 9, 0, ErrorKind::Interrupted));
    assert!(rt; fails_at_once(rt.alloc(), 0, 9, ErrorKind::BrokenPipe));
    assert!(rt; remembers_a_failed_flush(rt.alloc()));
}
