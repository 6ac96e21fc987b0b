//! Runs of blocks, and single requests, answered by an echo.
use crate::streams::{Drip, make_narrow};
use office_values::moment::Moment;
use office_wire::answer::Answer;
use office_wire::counted::CountedReader;
use office_wire::fault::{ReadFault, RunFault};
use office_wire::request::Request;
use office_wire::runs::{Responder, run, serve_one};
use office_wire::watched::WatchedWriter;
use std::alloc::{AllocError, Global};
use std::io::{BufRead, BufReader, ErrorKind};

/// Answers each request with its body, and counts them. A refusal for too little memory gets another answer than the other refusals.
#[derive(Drop)]
struct Echo {
    total: u8,
}

impl Responder for Echo {
    ghost use Rattle.std.specs.Prelude.{ℕ, ◌≡◌, ◌+◌, true, if◌then◌else◌, codes};
    ghost use Rattle.office_wire.specs.Request.{is_shown};

    ghost meaning = { record { Office = ℕ; honest = λ _. Unit {0}; holds = λ d s. d.total ≡ s; answers = record { reply = λ busy s b. if busy then codes "busy" else b.request.body; after = λ busy s b. if busy then s else s + 1; may_be_busy = λ s b. true; refusal = λ why. if is_shown why then codes "refused" else codes "busy" } } };

    fn answer(&mut self, alloc: Global, _moment: Moment, request: &Request) -> Answer {
        let mut text = Vec::new(alloc);
        if self.total == 255 || text.extend_from_slice(request.body()).is_err() {
            return Answer::constant(b"busy");
        }
        self.total += 1;
        Answer::built(text)
    }

    fn refusal(&self, fault: ReadFault) -> &'static [u8] {
        match fault {
            ReadFault::BadHead | ReadFault::TooLong | ReadFault::Coding => b"refused",
            ReadFault::Unavailable | ReadFault::Read => b"busy",
        }
    }
}

const INPUT: &[u8] =
    b"at 2026-01-05T09:00:00Z\nPOST / HTTP/1.1\r\nContent-Length: 5\r\n\r\nhelloat 2026-01-05T09:00:00Z\nPOST / HTTP/1.1\r\nContent-Length: 1\r\n\r\n!";

/// The end of the first block.
const FIRST: usize = 67;

/// The end of a run, its output, and whether the reader and the writer failed.
#[derive(Drop)]
struct Outcome {
    end: Result<u64, RunFault>,
    text: Vec<u8>,
    is_read_failed: bool,
    is_write_failed: bool,
    left: u32,
}

fn run_over<R: BufRead + Drop>(alloc: Global, reader: R, reads: u32) -> Outcome {
    let mut desk = Echo { total: 0 };
    let mut counted = CountedReader::within(reader, reads);
    let mut writer = WatchedWriter::new(Vec::new(alloc));
    let end = run(alloc, &mut desk, &mut counted, &mut writer);
    Outcome {
        end,
        is_read_failed: counted.has_failed(),
        is_write_failed: writer.has_failed(),
        left: counted.left(),
        text: writer.into_inner(),
    }
}

/// Whether a run over everything that a reader gives ends in this way, with this text and without a fault of reader or writer.
fn runs_to<R: BufRead + Drop>(
    alloc: Global,
    reader: R,
    wanted: Result<u64, RunFault>,
    text: &[u8],
) -> bool {
    let outcome = run_over(alloc, reader, u32::MAX);
    outcome.end == wanted
        && outcome.text.as_slice() == text
        && !outcome.is_read_failed
        && !outcome.is_write_failed
}

/// The end and the output of a run over this many bytes of the input.
fn end_at(end: usize) -> (Result<u64, RunFault>, &'static [u8]) {
    if end == 0 {
        (Ok(0), b"".as_slice())
    } else if end < 24 {
        (Err(RunFault::BadBlock), b"".as_slice())
    } else if end < FIRST {
        (Err(RunFault::LostPlace), b"refused".as_slice())
    } else if end == FIRST {
        (Ok(1), b"hello".as_slice())
    } else if end < FIRST + 24 {
        (Err(RunFault::BadBlock), b"hello".as_slice())
    } else if end < INPUT.len() {
        (Err(RunFault::LostPlace), b"hellorefused".as_slice())
    } else {
        (Ok(2), b"hello!".as_slice())
    }
}

#[test]
fn answers_what_comes_before_the_end(rt: HostRuntime) {
    for end in 0..INPUT.len() + 1 {
        let (wanted, text) = end_at(end);
        assert!(rt; runs_to(rt.alloc(), &INPUT[..end], wanted, text));
    }
}

/// Lines with which no block begins.
const WRONG: [&[u8]; 5] = [
    b"At 2026-01-05T09:00:00Z\n",
    b"at 2026-13-05T09:00:00Z\n",
    b"at 2026-01-05T09:00:00Z\r\n",
    b"at 2026-01-05T09:00:00 \n",
    b"at  026-01-05T09:00:00Z\n",
];

fn refuses_each_line(alloc: Global) -> bool {
    for line in WRONG {
        if !runs_to(alloc, line, Err(RunFault::BadBlock), b"") {
            return false;
        }
    }
    true
}

#[test]
fn refuses_wrong_lines(rt: HostRuntime) {
    assert!(rt; refuses_each_line(rt.alloc()));
}

/// Whether a run ends with `Read` if its stream breaks after this many reads of a byte, and has written this many bytes.
fn breaks_after(alloc: Global, reads: u32, written: usize) -> bool {
    let mut reader = Drip::over(INPUT, 1);
    reader.reads = reads;
    let outcome = run_over(alloc, reader, u32::MAX);
    outcome.end == Err(RunFault::Read) && outcome.is_read_failed && outcome.text.len() == written
}

#[test]
fn ends_where_a_stream_breaks(rt: HostRuntime) {
    for reads in 0..INPUT.len() {
        let written = if reads < FIRST { 0 } else { 5 };
        assert!(rt; breaks_after(rt.alloc(), reads as u32, written));
    }
}

/// Whether a run with this many reads of a byte, and one more at the end, reads everything or runs out of reads.
fn counts_to(alloc: Global, reads: u32) -> bool {
    let all = INPUT.len() as u32 + 1;
    let outcome = run_over(alloc, Drip::over(INPUT, 1), reads);
    let written = outcome.text.len();
    let is_right = if reads < FIRST as u32 {
        outcome.end == Err(RunFault::Read) && outcome.left == 0 && written == 0
    } else if reads < INPUT.len() as u32 {
        outcome.end == Err(RunFault::Read) && outcome.left == 0 && written == 5
    } else if reads < all {
        outcome.end == Err(RunFault::Read) && outcome.left == 0 && written == 6
    } else {
        outcome.end == Ok(2) && outcome.left == reads - all
    };
    is_right && !outcome.is_read_failed && !outcome.is_write_failed
}

#[test]
fn counts_the_reads_of_all_blocks(rt: HostRuntime) {
    for reads in 0..INPUT.len() as u32 + 3 {
        assert!(rt; counts_to(rt.alloc(), reads));
    }
}

fn runs_over_interrupted(alloc: Global, most: usize) -> bool {
    let mut reader = Drip::over(INPUT, most);
    reader.is_interrupted = true;
    runs_to(alloc, reader, Ok(2), b"hello!")
}

#[test]
fn runs_over_interrupted_reads(rt: HostRuntime) {
    for most in 1..9usize {
        assert!(rt; runs_over_interrupted(rt.alloc(), most));
    }
}

fn runs_over_buffer(alloc: Global, size: usize) -> bool {
    match BufReader::with_capacity(alloc, size, INPUT) {
        Ok(reader) => runs_to(alloc, reader, Ok(2), b"hello!"),
        Err(_) => false,
    }
}

#[test]
fn runs_over_small_buffers(rt: HostRuntime) {
    for size in 1..40usize {
        assert!(rt; runs_over_buffer(rt.alloc(), size));
    }
}

fn ends_at_a_failed_write(alloc: Global) -> bool {
    let mut desk = Echo { total: 0 };
    let mut reader = CountedReader::new(INPUT);
    let mut writer = WatchedWriter::new(make_narrow(alloc, 2, 2, ErrorKind::BrokenPipe));
    let end = run(alloc, &mut desk, &mut reader, &mut writer);
    let has_failed = writer.has_failed();
    let narrow = writer.into_inner();
    end == Err(RunFault::Write)
        && has_failed
        && narrow.bytes.as_slice() == b"hell".as_slice()
        && desk.total == 1
}

#[test]
fn ends_where_a_writer_fails(rt: HostRuntime) {
    assert!(rt; ends_at_a_failed_write(rt.alloc()));
}

fn flushes_in_the_end(alloc: Global) -> bool {
    let mut desk = Echo { total: 0 };
    let mut reader = CountedReader::new(INPUT);
    let mut writer = WatchedWriter::new(make_narrow(alloc, 9, 9, ErrorKind::BrokenPipe));
    let end = run(alloc, &mut desk, &mut reader, &mut writer);
    let is_flushed = writer.is_flushed();
    let narrow = writer.into_inner();
    end == Ok(2)
        && is_flushed
        && narrow.flushes == 1
        && narrow.bytes.as_slice() == b"hello!".as_slice()
}

#[test]
fn flushes_what_was_written(rt: HostRuntime) {
    assert!(rt; flushes_in_the_end(rt.alloc()));
}

/// Requests that are refused, each with `more` after its head.
const REFUSED: [&[u8]; 3] = [
    b"nonsense\nmore",
    b"POST / HTTP/1.1\r\nContent-Length: 65537\r\n\r\nmore",
    b"POST / HTTP/1.1\r\nTransfer-Encoding: chunked\r\n\r\nmore",
];

/// The first block, and a block with this request.
fn blocks_with(alloc: Global, request: &[u8]) -> Result<Vec<u8>, AllocError> {
    let mut input = INPUT[..FIRST].to_vec(alloc)?;
    input.extend_from_slice(&INPUT[..24])?;
    input.extend_from_slice(request)?;
    Ok(input)
}

fn refuses_in_a_run(alloc: Global, request: &[u8]) -> bool {
    match blocks_with(alloc, request) {
        Ok(input) => runs_to(
            alloc,
            input.as_slice(),
            Err(RunFault::LostPlace),
            b"hellorefused",
        ),
        Err(_) => false,
    }
}

fn refuses_alone(alloc: Global, request: &[u8]) -> bool {
    let mut desk = Echo { total: 0 };
    let mut reader = CountedReader::new(request);
    let mut writer = WatchedWriter::new(Vec::new(alloc));
    let served = serve_one(alloc, &mut desk, Moment::EPOCH, &mut reader, &mut writer);
    let rest = reader.into_inner();
    let text = writer.into_inner();
    served == Ok(()) && text.as_slice() == b"refused".as_slice() && rest == b"more".as_slice()
}

fn tells_each_refusal(alloc: Global) -> bool {
    for request in REFUSED {
        if !refuses_in_a_run(alloc, request) || !refuses_alone(alloc, request) {
            return false;
        }
    }
    true
}

#[test]
fn tells_the_refusal_of_the_fault(rt: HostRuntime) {
    assert!(rt; tells_each_refusal(rt.alloc()));
}

fn serves_a_request_and_refuses_the_next(alloc: Global) -> bool {
    let moment = Moment::EPOCH;
    let mut desk = Echo { total: 0 };
    let mut reader = CountedReader::new(&INPUT[24..]);
    let mut writer = WatchedWriter::new(Vec::new(alloc));
    let first = serve_one(alloc, &mut desk, moment, &mut reader, &mut writer);
    let second = serve_one(alloc, &mut desk, moment, &mut reader, &mut writer);
    let text = writer.into_inner();
    first == Ok(())
        && second == Ok(())
        && text.as_slice() == b"hellorefused".as_slice()
        && desk.total == 1
}

fn serves_no_more_than_one(alloc: Global) -> bool {
    let mut desk = Echo { total: 1 };
    let mut rest = &INPUT[24..];
    let mut reader = CountedReader::new(&mut rest);
    let mut writer = WatchedWriter::new(Vec::new(alloc));
    let served = serve_one(alloc, &mut desk, Moment::EPOCH, &mut reader, &mut writer);
    drop(reader);
    served == Ok(()) && rest.len() == INPUT.len() - FIRST
}

#[test]
fn serves_one_request(rt: HostRuntime) {
    assert!(rt; serves_a_request_and_refuses_the_next(rt.alloc()));
    assert!(rt; serves_no_more_than_one(rt.alloc()));
}

/// Whether no request is answered if the reader fails or has too few reads.
fn serves_no_cut_request(alloc: Global) -> bool {
    let mut desk = Echo { total: 0 };
    let mut broken = Drip::over(INPUT, 1);
    broken.reads = 9;
    let mut failing = CountedReader::new(broken);
    let mut few = CountedReader::within(Drip::over(&INPUT[24..], 1), 9);
    let mut writer = WatchedWriter::new(Vec::new(alloc));
    let cut = serve_one(alloc, &mut desk, Moment::EPOCH, &mut failing, &mut writer);
    let short = serve_one(alloc, &mut desk, Moment::EPOCH, &mut few, &mut writer);
    let text = writer.into_inner();
    cut == Err(RunFault::Read)
        && failing.has_failed()
        && short == Err(RunFault::Read)
        && !few.has_failed()
        && few.left() == 0
        && text.is_empty()
        && desk.total == 0
}

fn tells_a_failed_write(alloc: Global) -> bool {
    let mut desk = Echo { total: 0 };
    let mut reader = CountedReader::new(&INPUT[24..]);
    let mut writer = WatchedWriter::new(make_narrow(alloc, 2, 2, ErrorKind::Interrupted));
    let served = serve_one(alloc, &mut desk, Moment::EPOCH, &mut reader, &mut writer);
    served == Err(RunFault::Write) && writer.has_failed()
}

#[test]
fn serves_nothing_where_a_stream_breaks(rt: HostRuntime) {
    assert!(rt; serves_no_cut_request(rt.alloc()));
    assert!(rt; tells_a_failed_write(rt.alloc()));
}
