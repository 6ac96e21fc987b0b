//! The look-up of a head's fields by their name.
ghost use Rattle.std.specs.Prelude.{◌≡◌, length, map, All};
ghost use Rattle.std.specs.Str.{str_eq_ignore_ascii_case};
ghost use Rattle.httparse.specs.Spans.{IsHeaderWithin, header_bytes};
ghost use Rattle.office_wire.specs.Fields.{values_of, Tells};

use httparse::spans::{HeaderSpan, Span};

/// The value of the fields with one name.
#[derive(Clone, Copy, Debug, PartialEq, Eq)]
pub enum FieldValue<'a> {
    /// No field has the name.
    Absent,
    /// The value of the only field with the name, without the white space around it.
    Once(&'a [u8]),
    /// Several fields have the name.
    Repeated,
}

/// Whether two field names are equal, if the case of ASCII letters is ignored.
fn is_same_name(one: &[u8], other: &[u8]) -> bool
    ensures { result ≡ str_eq_ignore_ascii_case one.now other.now }
{
    one.eq_ignore_ascii_case(other)
}

/// Looks up the fields with this name. The fields are parts of the bytes.
pub fn find_value<'a>(bytes: &'a [u8], fields: &[HeaderSpan], name: &[u8]) -> FieldValue<'a>
    requires { All (IsHeaderWithin (length bytes.now)) fields.now }
    ensures { Tells result (values_of name.now (map (header_bytes bytes.now) fields.now)) }
{
    let mut found: Option<Span> = None;
    'fields: for field in fields {
        if is_same_name(field.name.of(bytes), name) {
            if found.is_some() {
                return FieldValue::Repeated;
            }
            found = Some(field.value);
        }
    }
    match found {
        Some(value) => FieldValue::Once(value.of(bytes)),
        None => FieldValue::Absent,
    }
}
