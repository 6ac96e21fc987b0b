//! The response to a refusal, built in a place of fixed size, so that no refusal needs memory.
ghost use Rattle.std.specs.Prelude.{◌≡◌, ◌≤◌, Some, decimal, length, option_map};
ghost use Rattle.http.specs.StatusCode.{IsStatusCode};
ghost use Rattle.office_values.specs.Refusals.{Named, Record, told};
ghost use Rattle.office_wire.specs.Short.{FitsBehind};
ghost use Rattle.office_http.specs.Response.{IsShortNumber, head_start, json, refusal_body, response_of, what_member};
ghost use Rattle.office_http.specs.declared.reply.Reply.TheVariants.{Refused};

use crate::response::{allow_field, challenge_field, phrase};
use itoa::Buffer;
use office_requests::route::Allow;
use office_values::refusal::{Refusal, What};
use office_wire::short::ShortText;

// Adds the member that names a field or a thing.
fn put_name(out: &mut ShortText, name: &str)
    ensures { FitsBehind out.old (what_member (Some (Named name.now))) out.new }
{
    out.put(b",\"what\":\"");
    out.put(name.as_bytes());
    out.put(b"\"");
}

// Adds the member that names a record.
fn put_row(out: &mut ShortText, number: u32)
    ensures put { FitsBehind out.old (what_member (Some (Record number))) out.new }
    ensures few { length (decimal number) ≤ 10 }
{
    out.put(b",\"what\":\"row ");
    out.put(Buffer::new().format(number).as_bytes());
    out.put(b"\"");
}

// Adds the member that says what a refusal is about.
fn put_what(out: &mut ShortText, what: Option<What>)
    ensures put { FitsBehind out.old (what_member (option_map told what)) out.new }
    ensures number { IsShortNumber what }
{
    match what {
        None => {}
        Some(What::Name(name)) => put_name(out, name),
        Some(What::Row(number)) => put_row(out, number),
    }
}

// A refusal as a JSON object.
fn refusal_object(refusal: Refusal) -> ShortText
    ensures body { result ≡ refusal_body refusal }
    ensures most { length (refusal_body refusal) ≤ 100 }
{
    let mut out = ShortText::new();
    out.put(b"{\"name\":\"");
    out.put(refusal.name().as_bytes());
    out.put(b"\",\"refusal\":");
    out.put(Buffer::new().format(refusal.number()).as_bytes());
    put_what(&mut out, refusal.what());
    out.put(b"}");
    out
}

// Adds the head of a JSON response up to the length of its body.
fn put_start(out: &mut ShortText, status: u16, size: usize)
    requires { IsStatusCode status }
    ensures { FitsBehind out.old (head_start status json size) out.new }
{
    let mut digits = Buffer::new();
    out.put(b"HTTP/1.1 ");
    out.put(digits.format(status).as_bytes());
    out.put(b" ");
    out.put(phrase(status).as_bytes());
    out.put(b"\r\nContent-Type: ");
    out.put(b"application/json");
    out.put(b"\r\nContent-Length: ");
    out.put(digits.format(size).as_bytes());
}

/// The response to a refusal. Takes no memory.
pub fn refusal_text(refusal: Refusal, method: Option<Allow>) -> ShortText
    ensures { result ≡ response_of (Refused refusal method) }
{
    let body = refusal_object(refusal);
    let status = refusal.status();
    let mut out = ShortText::new();
    put_start(&mut out, status, body.bytes().len());
    out.put(allow_field(method).as_bytes());
    out.put(challenge_field(status).as_bytes());
    out.put(b"\r\nConnection: close\r\n\r\n");
    out.put(body.bytes());
    out
}
