//! The length of a request's body (RFC 9112, section 6).
ghost use Rattle.std.specs.Prelude.{◌≡◌, ◌≤◌, min, length, option_map, codes, IfOk, OnOk};
ghost use Rattle.office_wire.specs.Fields.{written_number, length_of, values_of, framing_of};

use crate::fault::ReadFault;
use crate::fields::FieldValue;
use crate::head::Head;

/// The most fields that a head may have.
const MOST_FIELDS: usize = 64;

/// The most bytes that a body may have.
const MOST_BODY: u32 = 65_536;

/// The number that one or more ASCII digits write, or 65,537 if it is greater; None if the text isn't one or more digits.
fn capped_number(text: &[u8]) -> Option<u32>
    ensures { result ≡ option_map (min 65537) (written_number text.now) }
{
    if text.is_empty() {
        return None;
    }
    let mut number = 0u32;
    'digits: for digit in text {
        if !digit.is_ascii_digit() {
            return None;
        }
        number = number * 10 + (*digit - b'0') as u32;
        if number > MOST_BODY {
            number = MOST_BODY + 1;
        }
    }
    Some(number)
}

/// The length in `Content-Length`, or 65,537 if it is greater; 0 without such a field, and None if the field is repeated or isn't a number.
fn capped_length(head: &Head) -> Option<u32>
    ensures { result ≡ option_map (min 65537) (length_of (values_of (codes "content-length") head.now.fields)) }
{
    match head.value(b"content-length") {
        FieldValue::Absent => Some(0),
        FieldValue::Once(text) => capped_number(text),
        FieldValue::Repeated => None,
    }
}

/// The number of bytes of the body, or the reason why the request is refused.
pub fn body_length_of(head: &Head) -> Result<usize, ReadFault>
    ensures framed { result ≡ framing_of head.now }
    ensures body { IfOk result (λ n. n ≤ 65536) }
    ensures fields { OnOk result (length head.now.fields ≤ 64) }
{
    let Some(length) = capped_length(head) else {
        return Err(ReadFault::BadHead);
    };
    if head.field_count() > MOST_FIELDS || length > MOST_BODY {
        return Err(ReadFault::TooLong);
    }
    match head.value(b"transfer-encoding") {
        FieldValue::Absent => Ok(length as usize),
        _ => Err(ReadFault::Coding),
    }
}
