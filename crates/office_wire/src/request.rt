//! Requests, and reading one.
ghost use Rattle.std.specs.Prelude.{◌≡◌, ◌≤◌, ◌<◌, ◌⊎◌, ℕ, List, length, option_map, slice_get, IfOk, IfErr, IfSome, IsErr, IsErrOf, OnOk, Some};
ghost use Rattle.office_wire.specs.AnyReader.{IsWellFormed};
ghost use Rattle.office_wire.specs.Counting.{HasStopped};
ghost use Rattle.office_wire.specs.Fields.{values_of, Tells};
ghost use Rattle.office_wire.specs.Reading.{BodyRead, IsCutShort};
ghost use Rattle.office_wire.specs.Request.{IsRequestRead, IsRefused, IsCutRequest, HasOneMeaning, StandsAfter};

use crate::counted::CountedReader;
use crate::fault::ReadFault;
use crate::fields::FieldValue;
use crate::framing::body_length_of;
use crate::head::{Head, read_head};
use crate::reading::fill;
use std::alloc::Global;
use std::io::BufRead;
use std::marker::Model;

/// A request: a head of at most 8,192 bytes, and a body of at most 65,536.
#[derive(Drop)]
pub struct Request {
    head: Head,
    body: Vec<u8>,
}

impl Model for Request {
    ghost use Rattle.std.specs.Prelude.{◌≤◌, length};
    ghost use Rattle.office_wire.specs.Request.{RequestView};

    ghost Value = { RequestView };

    ghost view = { λ s. record { head = s.head; body = s.body.items } };

    ghost invariant = { λ s. (length s.head.fields ≤ 64) × (length s.body.items ≤ 65536) };
}

impl Request {
    /// The method, such as `GET`, as it was sent.
    pub fn method(&self) -> &[u8]
        ensures { result.now ≡ self.now.head.method }
    {
        self.head.method()
    }

    /// The target as it was sent: the path and, after a question mark, the query string.
    pub fn target(&self) -> &[u8]
        ensures { result.now ≡ self.now.head.target }
    {
        self.head.target()
    }

    /// The number of header fields, at most 64.
    pub fn field_count(&self) -> usize
        ensures count { result ≡ length self.now.head.fields }
        ensures most { length self.now.head.fields ≤ 64 }
    {
        self.head.field_count()
    }

    /// The name and the value of a header field, by its place. The value has no white space around it.
    pub fn field(&self, index: usize) -> (&[u8], &[u8])
        requires { index < length self.now.head.fields }
        ensures { slice_get self.now.head.fields index ≡ Some (result.0.now, result.1.now) }
    {
        self.head.field(index)
    }

    /// Looks up the header fields with this name. The case of ASCII letters is ignored.
    pub fn value(&self, name: &[u8]) -> FieldValue<'_>
        ensures { Tells result (values_of name.now self.now.head.fields) }
    {
        self.head.value(name)
    }

    /// The body: at most 65,536 bytes.
    pub fn body(&self) -> &[u8]
        ensures body { result.now ≡ self.now.body }
        ensures most { length self.now.body ≤ 65536 }
    {
        &self.body
    }
}

/// Reads this number of bytes; None if the input ends before.
fn read_body<R: BufRead>(
    alloc: Global,
    reader: &mut CountedReader<R>,
    size: usize,
) -> Result<Option<Vec<u8>>, ReadFault>
    ensures body { IfOk result (λ o. (input : List ℕ) → reader.old.remaining ≡ Some input → BodyRead input reader.new.remaining size (option_map (λ v. v.items) o)) }
    ensures long { IfOk result (λ o. IfSome o (λ v. length v.items ≡ size)) }
    ensures cut { IsErrOf result ReadFault.Read → (input : List ℕ) → reader.old.remaining ≡ Some input → IsCutShort input reader.new.remaining size }
    ensures kept { IsErrOf result ReadFault.Unavailable → reader.new.remaining ≡ reader.old.remaining }
    ensures fault { IfErr result (λ e. (e ≡ ReadFault.Unavailable) ⊎ (e ≡ ReadFault.Read)) }
    ensures cause { IsErrOf result ReadFault.Read → HasStopped reader.new }
    ensures sound { OnOk result (reader.new.has_failed ≡ reader.old.has_failed) }
    ensures spent { reader.new.left ≤ reader.old.left }
{
    let mut body = vec![in alloc; 0u8; size]?;
    if fill(reader, &mut body)? < size {
        return Ok(None);
    }
    Ok(Some(body))
}

/// Reads one request, and no byte after it.
pub fn read_request<R: BufRead>(
    alloc: Global,
    reader: &mut CountedReader<R>,
) -> Result<Request, ReadFault>
    ensures request { IfOk result (λ r. (input : List ℕ) → reader.old.remaining ≡ Some input → IsRequestRead input reader.new.remaining r) }
    ensures formed { IfOk result (λ r. IsWellFormed r) }
    ensures refused { IfErr result (λ e. (input : List ℕ) → reader.old.remaining ≡ Some input → IsRefused input e) }
    ensures stands { IfErr result (λ e. (input : List ℕ) → reader.old.remaining ≡ Some input → StandsAfter input reader.new.remaining e) }
    ensures cut { IsErrOf result ReadFault.Read → (input : List ℕ) → reader.old.remaining ≡ Some input → IsCutRequest input reader.new.remaining }
    ensures cause { IsErrOf result ReadFault.Read → HasStopped reader.new }
    ensures sound { OnOk result (reader.new.has_failed ≡ reader.old.has_failed) }
    ensures counted { OnOk result (reader.new.left < reader.old.left) }
    ensures spent { reader.new.left ≤ reader.old.left }
{
    let head = read_head(alloc, reader)?;
    let length = body_length_of(&head)?;
    match read_body(alloc, reader, length)? {
        Some(body) => Ok(Request { head, body }),
        None => Err(ReadFault::BadHead),
    }
}

/// The law: an input doesn't begin with two different requests, with a request and a refusal, or with two refusals.
pub fn one_meaning()
    ensures { (input : List ℕ) → HasOneMeaning input }
{}
