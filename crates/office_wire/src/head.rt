//! Reading the head of a request.
ghost use Rattle.std.specs.Prelude.{◌≡◌, ◌≢◌, ◌≤◌, ◌<◌, ℕ, List, length, take, slice_get, IfOk, IfErr, IfSome, IsNone, IsErrOf, OnOk, Some};
ghost use Rattle.httparse.specs.Spans.{IsRequestWithin};
ghost use Rattle.office_wire.specs.AnyReader.{IsWellFormedHead};
ghost use Rattle.office_wire.specs.Counting.{HasStopped};
ghost use Rattle.office_wire.specs.Fields.{values_of, Tells};
ghost use Rattle.office_wire.specs.Head.{IsBadHead, IsLongHead};
ghost use Rattle.office_wire.specs.Inside.HeadBytes.{Parses, spans_view};
ghost use Rattle.office_wire.specs.Reading.{IsHeadRead, IsCutHead, LeavesHead};

use crate::counted::CountedReader;
use crate::fault::ReadFault;
use crate::fields::{FieldValue, find_value};
use crate::lines::{HeadLines, MOST_BYTES, first_line_has_ended};
use httparse::spans::{EMPTY_HEADER_SPAN, HeaderSpan, RequestSpans, Span, parse_request};
use httparse::{Error, Status};
use std::alloc::{AllocError, Global};
use std::io::BufRead;
use std::marker::Model;

/// The most fields that 8,192 bytes can hold, since a field has at least 3 bytes.
const MOST_FIELDS: usize = 2731;

/// The number of fields that memory is taken for at first. It is enough for a usual head.
const FEW_FIELDS: usize = 16;

/// The result of parsing the bytes so far.
pub enum Parsed {
    /// The bytes are a head.
    Whole(RequestSpans),
    /// The bytes aren't a head. More bytes may make them one, or their first line hasn't ended.
    Open,
    /// The bytes aren't a head, whatever bytes follow.
    Bad,
}

/// Parses at most 8,192 bytes; None if `headers` is too short for the fields.
fn parse_within(bytes: &[u8], headers: &mut Vec<HeaderSpan>) -> Option<Parsed>
    requires { length bytes.now ≤ 8192 }
    ensures parsed { IfSome result (Parses bytes.now headers.new.items) }
    ensures crowded { IsNone result → length headers.old.items < 2731 }
    ensures room { length headers.new.items ≡ length headers.old.items }
{
    match parse_request(bytes, headers) {
        Ok(Status::Complete(spans)) => Some(Parsed::Whole(spans)),
        Ok(Status::Partial) => Some(Parsed::Open),
        Err(error) => match error {
            Error::TooManyHeaders => None,
            _ => {
                if first_line_has_ended(bytes) {
                    Some(Parsed::Bad)
                } else {
                    Some(Parsed::Open)
                }
            }
        },
    }
}

/// Parses at most 8,192 bytes, and makes `headers` longer if the fields need it.
fn parse(bytes: &[u8], headers: &mut Vec<HeaderSpan>) -> Result<Parsed, AllocError>
    requires { length bytes.now ≤ 8192 }
    ensures { IfOk result (Parses bytes.now headers.new.items) }
{
    if let Some(parsed) = parse_within(bytes, headers) {
        return Ok(parsed);
    }
    headers.resize(MOST_FIELDS, EMPTY_HEADER_SPAN)?;
    match parse_within(bytes, headers) {
        Some(parsed) => Ok(parsed),
        None => unreachable!(),
    }
}

/// The head of a request: its bytes, and the places of its parts.
#[derive(Drop)]
pub struct Head {
    bytes: Vec<u8>,
    method: Span,
    target: Span,
    fields: Vec<HeaderSpan>,
}

impl Model for Head {
    ghost use Rattle.std.specs.Prelude.{map};
    ghost use Rattle.httparse.specs.Spans.{span_bytes, header_bytes};
    ghost use Rattle.office_wire.specs.Head.{HeadView};
    ghost use Rattle.office_wire.specs.Inside.HeadBytes.{HeadIsKept};

    ghost Value = { HeadView };

    ghost view = { λ s. record { method = span_bytes s.bytes.items s.method; target = span_bytes s.bytes.items s.target; fields = map (header_bytes s.bytes.items) s.fields.items } };

    ghost invariant = { λ s. HeadIsKept s.bytes.items s.method s.target s.fields.items };
}

impl Head {
    /// The head with these parts. Of `headers`, it keeps only the parsed fields.
    fn of_spans(bytes: Vec<u8>, headers: Vec<HeaderSpan>, spans: RequestSpans) -> Head
        requires { IsRequestWithin bytes.items headers.items spans }
        ensures { result ≡ spans_view bytes.items (take spans.headers headers.items) spans }
    {
        let mut fields = headers;
        fields.truncate(spans.headers);
        Head {
            bytes,
            method: spans.method,
            target: spans.path,
            fields,
        }
    }

    /// The method.
    pub fn method(&self) -> &[u8]
        ensures { result.now ≡ self.now.method }
    {
        self.method.of(&self.bytes)
    }

    /// The target.
    pub fn target(&self) -> &[u8]
        ensures { result.now ≡ self.now.target }
    {
        self.target.of(&self.bytes)
    }

    /// The name and the value of a field, by its place.
    pub fn field(&self, index: usize) -> (&[u8], &[u8])
        requires { index < length self.now.fields }
        ensures { slice_get self.now.fields index ≡ Some (result.0.now, result.1.now) }
    {
        let field = &self.fields[index];
        (field.name.of(&self.bytes), field.value.of(&self.bytes))
    }

    /// Looks up the fields with this name. The case of ASCII letters is ignored.
    pub fn value(&self, name: &[u8]) -> FieldValue<'_>
        ensures { Tells result (values_of name.now self.now.fields) }
    {
        find_value(&self.bytes, &self.fields, name)
    }

    /// The number of fields.
    pub fn field_count(&self) -> usize
        ensures { result ≡ length self.now.fields }
    {
        self.fields.len()
    }
}

/// Reads a head, and no byte after it.
pub fn read_head<R: BufRead>(
    alloc: Global,
    reader: &mut CountedReader<R>,
) -> Result<Head, ReadFault>
    ensures whole { IfOk result (λ head. (input : List ℕ) → reader.old.remaining ≡ Some input → IsHeadRead input reader.new.remaining head) }
    ensures formed { IfOk result (λ head. IsWellFormedHead head) }
    ensures bad { IsErrOf result ReadFault.BadHead → (input : List ℕ) → reader.old.remaining ≡ Some input → IsBadHead input }
    ensures long { IsErrOf result ReadFault.TooLong → (input : List ℕ) → reader.old.remaining ≡ Some input → IsLongHead input }
    ensures cut { IsErrOf result ReadFault.Read → (input : List ℕ) → reader.old.remaining ≡ Some input → IsCutHead input reader.new.remaining }
    ensures stands { IfErr result (λ e. (input : List ℕ) → reader.old.remaining ≡ Some input → LeavesHead input reader.new.remaining e) }
    ensures other { IsErrOf result ReadFault.Coding → ⊥ }
    ensures cause { IsErrOf result ReadFault.Read → HasStopped reader.new }
    ensures sound { OnOk result (reader.new.has_failed ≡ reader.old.has_failed) }
    ensures counted { OnOk result (reader.new.left < reader.old.left) }
    ensures spent { reader.new.left ≤ reader.old.left }
{
    let mut lines = HeadLines::new(alloc)?;
    let mut headers = vec![in alloc; EMPTY_HEADER_SPAN; FEW_FIELDS]?;
    'bytes: while lines.bytes().len() < MOST_BYTES {
        let Some(is_worth) = lines.read_on(reader)? else {
            return Err(ReadFault::BadHead);
        };
        if is_worth {
            match parse(lines.bytes(), &mut headers)? {
                Parsed::Whole(spans) => return Ok(Head::of_spans(
                    lines.into_bytes(),
                    headers,
                    spans,
                )),
                Parsed::Open => {}
                Parsed::Bad => return Err(ReadFault::BadHead),
            }
        }
    }
    match parse(lines.bytes(), &mut headers)? {
        Parsed::Whole(_) => unreachable!(),
        Parsed::Open => Err(ReadFault::TooLong),
        Parsed::Bad => Err(ReadFault::BadHead),
    }
}
