//! The bytes of a response.
ghost use Rattle.std.specs.Prelude.{◌≡◌, ◌++◌, [], IfOk, None, codes};
ghost use Rattle.http.specs.StatusCode.{IsStatusCode};
ghost use Rattle.office_values.specs.declared.refusal.Refusal.TheVariants.{BadHead, TooLong, Coding, Unavailable};
ghost use Rattle.office_http.specs.Response.{head_start, response_with, response_of, allow_field, challenge_field, NamesMethod, phrase_of};
ghost use Rattle.office_http.specs.Answering.{seen_as};
ghost use Rattle.office_http.specs.declared.reply.Reply.TheVariants.{Json, Refused};

use crate::refusing::refusal_text;
use crate::reply::Reply;
use http::StatusCode;
use itoa::Buffer;
use office_commands::command::QueryKind;
use office_requests::route::Allow;
use std::alloc::{AllocError, Global};

const JSON: &str = "application/json";

const PLAIN_TEXT: &str = "text/plain; charset=utf-8";

// The capacity for the head of a response, in bytes.
const HEAD_ROOM: usize = 192;

// A body of at most so many bytes is copied to the end of its head. A longer one has its head put before it.
const SHORT_BODY: usize = 4096;

// The phrase of a status.
pub(crate) fn phrase(status: u16) -> &'static str
    requires { IsStatusCode status }
    ensures { result.now ≡ phrase_of status }
{
    match StatusCode::from_u16(status) {
        Ok(code) => code.canonical_reason().unwrap_or(""),
        Err(_) => unreachable!(),
    }
}

// Adds the head of a response up to the length of its body.
fn put_head(out: &mut Vec<u8>, status: u16, media: &str, length: usize) -> Result<(), AllocError>
    requires { IsStatusCode status }
    ensures { IfOk result (λ _. out.new.items ≡ out.old.items ++ head_start status media.now length) }
{
    let mut digits = Buffer::new();
    out.extend_from_slice(b"HTTP/1.1 ")?;
    out.extend_from_slice(digits.format(status).as_bytes())?;
    out.extend_from_slice(b" ")?;
    out.extend_from_slice(phrase(status).as_bytes())?;
    out.extend_from_slice(b"\r\nContent-Type: ")?;
    out.extend_from_slice(media.as_bytes())?;
    out.extend_from_slice(b"\r\nContent-Length: ")?;
    out.extend_from_slice(digits.format(length).as_bytes())?;
    Ok(())
}

// A response with this status, kind of content, further fields and body.
fn response(
    alloc: Global,
    status: u16,
    media: &str,
    allow: &str,
    challenge: &str,
    body: &[u8],
) -> Result<Vec<u8>, AllocError>
    requires { IsStatusCode status }
    ensures { IfOk result (λ out. out.items ≡ response_with status media.now (allow.now ++ challenge.now) body.now) }
{
    let mut out = Vec::with_capacity(alloc, HEAD_ROOM.saturating_add(body.len()))?;
    put_head(&mut out, status, media, body.len())?;
    out.extend_from_slice(allow.as_bytes())?;
    out.extend_from_slice(challenge.as_bytes())?;
    out.extend_from_slice(b"\r\nConnection: close\r\n\r\n")?;
    out.extend_from_slice(body)?;
    Ok(out)
}

// The field that names the method of a path.
pub(crate) fn allow_field(method: Option<Allow>) -> &'static str
    ensures { result.now ≡ allow_field method }
{
    match method {
        None => "",
        Some(Allow::Get) => "\r\nAllow: GET",
        Some(Allow::Post) => "\r\nAllow: POST",
    }
}

// The field that asks for a name and a key.
pub(crate) fn challenge_field(status: u16) -> &'static str
    ensures { result.now ≡ challenge_field status }
{
    if status == 401 {
        "\r\nWWW-Authenticate: Office-Key"
    } else {
        ""
    }
}

// Puts a text before the content. It takes no memory if the capacity is large enough.
fn put_before(out: &mut Vec<u8>, front: &[u8]) -> Result<(), AllocError>
    ensures { IfOk result (λ _. out.new.items ≡ front.now ++ out.old.items) }
{
    out.reserve_exact(front.len())?;
    out.extend_from_slice(front)?;
    out.rotate_right(front.len());
    Ok(())
}

// The head of a response with status 200, before a body of this length, with the capacity for so many bytes more.
fn ok_head(alloc: Global, media: &str, length: usize, more: usize) -> Result<Vec<u8>, AllocError>
    ensures { IfOk result (λ out. out.items ≡ head_start 200 media.now length ++ codes "\r\nConnection: close\r\n\r\n") }
{
    let mut out = Vec::with_capacity(alloc, HEAD_ROOM.saturating_add(more))?;
    put_head(&mut out, 200, media, length)?;
    out.extend_from_slice(b"\r\nConnection: close\r\n\r\n")?;
    Ok(out)
}

// A response with status 200, in the memory of its body.
fn response_around(alloc: Global, media: &str, body: Vec<u8>) -> Result<Vec<u8>, AllocError>
    ensures { IfOk result (λ out. out.items ≡ response_with 200 media.now [] body.items) }
{
    let head = ok_head(alloc, media, body.len(), 0)?;
    let mut out = body;
    put_before(&mut out, &head)?;
    Ok(out)
}

// A response with status 200, in the memory of its head.
fn response_behind(alloc: Global, media: &str, body: &[u8]) -> Result<Vec<u8>, AllocError>
    ensures { IfOk result (λ out. out.items ≡ response_with 200 media.now [] body.now) }
{
    let mut out = ok_head(alloc, media, body.len(), body.len())?;
    out.extend_from_slice(body)?;
    Ok(out)
}

// A response with status 200.
fn ok_response(alloc: Global, media: &str, body: Vec<u8>) -> Result<Vec<u8>, AllocError>
    ensures { IfOk result (λ out. out.items ≡ response_with 200 media.now [] body.items) }
{
    if body.len() <= SHORT_BODY {
        response_behind(alloc, media, &body)
    } else {
        response_around(alloc, media, body)
    }
}

// The response to an accepted command, as a JSON text.
pub(crate) fn accepted_response(alloc: Global, text: Vec<u8>) -> Result<Vec<u8>, AllocError>
    ensures { IfOk result (λ out. out.items ≡ response_of (Json text.items)) }
{
    ok_response(alloc, JSON, text)
}

// The response to a query of this kind, with the text that it shows.
pub(crate) fn seen_response(
    alloc: Global,
    kind: QueryKind,
    text: Vec<u8>,
) -> Result<Vec<u8>, AllocError>
    ensures { IfOk result (λ out. out.items ≡ response_of (seen_as kind text.items)) }
{
    match kind {
        QueryKind::Ledger | QueryKind::Minutes | QueryKind::Register | QueryKind::Evaluation => {
            ok_response(alloc, PLAIN_TEXT, text)
        }
        QueryKind::Line
        | QueryKind::Releases
        | QueryKind::Record
        | QueryKind::Tender
        | QueryKind::Security
        | QueryKind::Performance
        | QueryKind::Notices
        | QueryKind::Terms
        | QueryKind::OwnTenders
        | QueryKind::Securities
        | QueryKind::Tenderers
        | QueryKind::Contract => ok_response(alloc, JSON, text),
    }
}

/// The bytes of a response in HTTP/1.1, which closes the connection (RFC 9112, section 9.6). The body of a refusal is a JSON object whose members are in the
/// byte order of their names.
pub fn respond(alloc: Global, reply: &Reply) -> Result<Vec<u8>, AllocError>
    requires { NamesMethod reply.now }
    ensures { IfOk result (λ response. response.items ≡ response_of reply.now) }
{
    match reply {
        Reply::Json(body) => response(alloc, 200, JSON, "", "", body.as_slice()),
        Reply::Text(body) => response(alloc, 200, PLAIN_TEXT, "", "", body.as_slice()),
        Reply::Refused(refusal, method) => {
            let text = refusal_text(*refusal, *method);
            let mut out = Vec::with_capacity(alloc, text.bytes().len())?;
            out.extend_from_slice(text.bytes())?;
            Ok(out)
        }
    }
}

/// The response if memory is too small. Takes no memory.
pub fn unavailable() -> &'static [u8]
    ensures { result.now ≡ response_of (Refused Unavailable None) }
{
    b"HTTP/1.1 503 Service Unavailable\r\nContent-Type: application/json\r\nContent-Length: 35\r\nConnection: close\r\n\r\n{\"name\":\"Unavailable\",\"refusal\":32}"
}

// The response to bytes that aren't a request. Takes no memory.
pub(crate) fn bad_head() -> &'static [u8]
    ensures { result.now ≡ response_of (Refused BadHead None) }
{
    b"HTTP/1.1 400 Bad Request\r\nContent-Type: application/json\r\nContent-Length: 30\r\nConnection: close\r\n\r\n{\"name\":\"BadHead\",\"refusal\":1}"
}

// The response to a request that exceeds a limit. Takes no memory.
pub(crate) fn too_long() -> &'static [u8]
    ensures { result.now ≡ response_of (Refused TooLong None) }
{
    b"HTTP/1.1 413 Payload Too Large\r\nContent-Type: application/json\r\nContent-Length: 30\r\nConnection: close\r\n\r\n{\"name\":\"TooLong\",\"refusal\":2}"
}

// The response to a request with a transfer coding. Takes no memory.
pub(crate) fn coding() -> &'static [u8]
    ensures { result.now ≡ response_of (Refused Coding None) }
{
    b"HTTP/1.1 501 Not Implemented\r\nContent-Type: application/json\r\nContent-Length: 29\r\nConnection: close\r\n\r\n{\"name\":\"Coding\",\"refusal\":3}"
}
