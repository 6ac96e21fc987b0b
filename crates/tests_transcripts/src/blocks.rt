//! Blocks of a transcript, which are read into the bytes of a request and of its response.
//!
//! The first line of a block has the moment, the caller, and the method and the path of the request. Lines of its body may follow. Then
//! comes the status of the response, and its body on that line and on the lines after it.
//!
//!     at 2026-01-05T09:00:00Z clerk POST /budget/B1
//!     | line,kind,amount,title
//!     | 1000,add,1000,Roads
//!     = 200 {"batch":"B1","moment":"2026-01-05T09:00:00Z","rows":1}
//!
//! - The caller is `public`, `clerk`, or a tenderer. The clerk's key is `abc`, and a tenderer's is `hello`. `T1:abc` gives another key,
//!   `T1:` no key, and `:abc` a key without a name. `bytes` in place of caller, method and path means that only the lines after it are sent.
//! - A line of a body is `> TEXT`, which is the text alone, or `| TEXT`, which is the text with a line feed. After `|`, `\t`, `\r` and
//!   `\u{feff}` are a tab, a carriage return and a byte order mark. `500 | TEXT` is that line 500 times, and `32768 > a` that text.
//! - After a status, `text` means that the response is a plain text and not JSON, and `POST` or `GET` is the method that it allows.
//!   `= any` in place of the status means that any response is right.
use office_values::moment::Moment;
use std::alloc::{AllocError, Global};

/// The reason why a block gives no request.
#[derive(Clone, Copy, Debug, PartialEq, Eq, Drop)]
pub enum Fault {
    /// It isn't written as a block.
    Unread,
    /// Memory is too small.
    NoMemory,
}

impl From<AllocError> for Fault {
    fn from(_: AllocError) -> Fault {
        Fault::NoMemory
    }
}

/// A request at a moment, and the expected response, which is empty if any response is right.
#[derive(Drop)]
pub struct Block {
    /// The moment at which it is sent.
    pub moment: Moment,
    /// The bytes of the request.
    pub request: Vec<u8>,
    /// The bytes of the expected response, or none if any response is right.
    pub response: Vec<u8>,
}

// Appends the character that this mark means, and the rest of the text. The mark is the letter after a backslash.
fn append_marked(bytes: &mut Vec<u8>, text: &str) -> Result<(), AllocError> {
    if let Some(rest) = text.strip_prefix("t") {
        bytes.extend_from_slice(b"\t")?;
        return bytes.extend_from_slice(rest.as_bytes());
    }
    if let Some(rest) = text.strip_prefix("r") {
        bytes.extend_from_slice(b"\r")?;
        return bytes.extend_from_slice(rest.as_bytes());
    }
    if let Some(rest) = text.strip_prefix("u{feff}") {
        bytes.extend_from_slice("\u{feff}".as_bytes())?;
        return bytes.extend_from_slice(rest.as_bytes());
    }
    bytes.extend_from_slice(b"\\")?;
    bytes.extend_from_slice(text.as_bytes())
}

// Appends a line and its line feed.
fn append_line(bytes: &mut Vec<u8>, line: &str) -> Result<(), AllocError> {
    match line.split_once("\\") {
        None => bytes.extend_from_slice(line.as_bytes())?,
        Some((front, rest)) => {
            bytes.extend_from_slice(front.as_bytes())?;
            for marked in rest.split("\\") {
                append_marked(bytes, marked)?;
            }
        }
    }
    bytes.extend_from_slice(b"\n")
}

// Appends the bytes of a line of a body that has no count.
fn append_piece(bytes: &mut Vec<u8>, piece: &str) -> Result<(), Fault> {
    if let Some(text) = piece.strip_prefix("> ") {
        return Ok(bytes.extend_from_slice(text.as_bytes())?);
    }
    if let Some(line) = piece.strip_prefix("| ") {
        return Ok(append_line(bytes, line)?);
    }
    if piece == "|" {
        return Ok(append_line(bytes, "")?);
    }
    Err(Fault::Unread)
}

// The number of times that the piece is appended, and the piece.
fn counted(line: &str) -> Option<(u32, &str)> {
    let (count, piece) = line.split_once(" ")?;
    match count.parse::<u32>() {
        Ok(count) => Some((count, piece)),
        Err(_) => Some((1, line)),
    }
}

// The bytes of these lines, after the bytes before them.
fn body(alloc: Global, front: &str, lines: &str) -> Result<Vec<u8>, Fault> {
    let mut bytes = front.as_bytes().to_vec(alloc)?;
    for line in lines.lines() {
        let (count, piece) = counted(line).unwrap_or((1, line));
        for _ in 0..count {
            append_piece(&mut bytes, piece)?;
        }
    }
    Ok(bytes)
}

// A caller's name and key, each of which may be empty.
fn credentials(who: &str) -> (&str, &str) {
    if let Some(both) = who.split_once(":") {
        return both;
    }
    match who {
        "public" => ("", ""),
        "clerk" => ("clerk", "abc"),
        name => (name, "hello"),
    }
}

// Appends a field, unless its value is empty.
fn append_field(bytes: &mut Vec<u8>, name: &str, value: &str) -> Result<(), AllocError> {
    if value.is_empty() {
        return Ok(());
    }
    bytes.extend_from_slice(name.as_bytes())?;
    bytes.extend_from_slice(b": ")?;
    bytes.extend_from_slice(value.as_bytes())?;
    bytes.extend_from_slice(b"\r\n")
}

// The request of this caller, for a method and a path, with this body. It has the body's length if there is a body.
fn request(alloc: Global, who: &str, line: &str, body: &[u8]) -> Result<Vec<u8>, AllocError> {
    let (name, key) = credentials(who);
    let mut bytes = line.as_bytes().to_vec(alloc)?;
    bytes.extend_from_slice(b" HTTP/1.1\r\n")?;
    append_field(&mut bytes, "Office-Caller", name)?;
    append_field(&mut bytes, "Office-Key", key)?;
    if !body.is_empty() {
        let length = format!(in alloc; "{}", body.len())?;
        append_field(&mut bytes, "Content-Length", length.as_str())?;
    }
    bytes.extend_from_slice(b"\r\n")?;
    bytes.extend_from_slice(body)?;
    Ok(bytes)
}

// The bytes that are sent: these bytes, or the request that has them as its body.
fn sent(alloc: Global, asked: &str, bytes: Vec<u8>) -> Result<Vec<u8>, Fault> {
    if asked == "bytes" {
        return Ok(bytes);
    }
    let (who, line) = asked.split_once(" ").ok_or(Fault::Unread)?;
    Ok(request(alloc, who, line, &bytes)?)
}

// The phrase of a status, or None if the office never answers with it.
fn phrase(status: &str) -> Option<&'static str> {
    match status {
        "200" => Some("OK"),
        "400" => Some("Bad Request"),
        "401" => Some("Unauthorized"),
        "403" => Some("Forbidden"),
        "404" => Some("Not Found"),
        "405" => Some("Method Not Allowed"),
        "409" => Some("Conflict"),
        "413" => Some("Payload Too Large"),
        "501" => Some("Not Implemented"),
        "503" => Some("Service Unavailable"),
        _ => None,
    }
}

// The rest of a response's head after its status: the kind of its body, and perhaps a field.
#[derive(Clone, Copy)]
struct Kind {
    media: &'static str,
    field: &'static str,
}

const JSON: &str = "application/json";

// The kind that a word after the status names, if one does, and the text after it.
fn kind_of<'a>(status: &str, told: &'a str) -> (Kind, &'a str) {
    if told == "text" {
        let media = "text/plain; charset=utf-8";
        return (Kind { media, field: "" }, "");
    }
    if let Some(body) = told.strip_prefix("POST ") {
        let field = "Allow: POST\r\n";
        return (Kind { media: JSON, field }, body);
    }
    if let Some(body) = told.strip_prefix("GET ") {
        let field = "Allow: GET\r\n";
        return (Kind { media: JSON, field }, body);
    }
    let field = match status {
        "401" => "WWW-Authenticate: Office-Key\r\n",
        _ => "",
    };
    (Kind { media: JSON, field }, told)
}

// The response with this status, kind and body.
fn response(alloc: Global, status: &str, kind: Kind, body: &[u8]) -> Result<Vec<u8>, Fault> {
    let phrase = phrase(status).ok_or(Fault::Unread)?;
    let head = format!(in alloc;
        "HTTP/1.1 {status} {phrase}\r\nContent-Type: {}\r\nContent-Length: {}\r\n{}Connection: close\r\n\r\n",
        kind.media,
        body.len(),
        kind.field
    )?;
    let mut bytes = head.as_bytes().to_vec(alloc)?;
    bytes.extend_from_slice(body)?;
    Ok(bytes)
}

// The response that these lines describe, or nothing if any response is right.
fn wanted(alloc: Global, told: &str) -> Result<Vec<u8>, Fault> {
    if told == "any" {
        return Ok(Vec::new(alloc));
    }
    let (first, lines) = told.split_once("\n").unwrap_or((told, ""));
    let (status, rest) = first.split_once(" ").ok_or(Fault::Unread)?;
    let (kind, front) = kind_of(status, rest);
    let body = body(alloc, front, lines)?;
    response(alloc, status, kind, &body)
}

/// The request and the response of this block. `Unread` if it has no line that begins with `= `, or if a part of it isn't written as the head of this file
/// says.
pub fn read(alloc: Global, block: &str) -> Result<Block, Fault> {
    let (asked, told) = block.split_once("\n= ").ok_or(Fault::Unread)?;
    let (first, lines) = asked.split_once("\n").unwrap_or((asked, ""));
    let line = first.strip_prefix("at ").ok_or(Fault::Unread)?;
    let (moment, rest) = line.split_once(" ").ok_or(Fault::Unread)?;
    Ok(Block {
        moment: Moment::read(moment.as_bytes()).ok_or(Fault::Unread)?,
        request: sent(alloc, rest, body(alloc, "", lines)?)?,
        response: wanted(alloc, told)?,
    })
}
