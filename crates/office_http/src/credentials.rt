//! The caller's name and key, as a request gives them.
ghost use Rattle.std.specs.Prelude.{◌≡◌, IfOk, IfErr, Ok, Err, option_map};
ghost use Rattle.office_values.specs.declared.refusal.Refusal.TheVariants.{BadKey};
ghost use Rattle.office_wire.specs.Fields.{values_of};
ghost use Rattle.office_http.specs.Credentials.{credentials_of, one_value};

use office_values::refusal::Refusal;
use office_wire::fields::FieldValue;
use office_wire::request::Request;

/// A caller's name and key, each of which may be absent.
#[derive(Clone, Copy, Debug, PartialEq, Eq)]
pub struct Credentials<'a> {
    pub name: Option<&'a [u8]>,
    pub key: Option<&'a [u8]>,
}

// The value of a field, or none if there is no such field. A field that comes twice is `BadKey`.
fn one_value<'a>(request: &'a Request, name: &[u8]) -> Result<Option<&'a [u8]>, Refusal>
    ensures ok { IfOk result (λ value. one_value (values_of name.now request.now.head.fields) ≡ Ok (option_map (λ v. v.now) value)) }
    ensures err { IfErr result (λ why. one_value (values_of name.now request.now.head.fields) ≡ Err why) }
    ensures refused { IfErr result (λ why. why ≡ BadKey) }
{
    match request.value(name) {
        FieldValue::Absent => Ok(None),
        FieldValue::Once(value) => Ok(Some(value)),
        FieldValue::Repeated => Err(Refusal::BadKey),
    }
}

/// The values of the fields `Office-Caller` and `Office-Key`. The names of the fields may be in any case. The only refusal is `BadKey`, if one of them comes
/// twice. The desk decides whether name and key fit each other.
pub fn credentials_of(request: &Request) -> Result<Credentials<'_>, Refusal>
    ensures ok { IfOk result (λ c. credentials_of request.now.head.fields ≡ Ok (option_map (λ v. v.now) c.name, option_map (λ v. v.now) c.key)) }
    ensures err { IfErr result (λ why. credentials_of request.now.head.fields ≡ Err why) }
    ensures refused { IfErr result (λ why. why ≡ BadKey) }
{
    let name = one_value(request, b"office-caller")?;
    let key = one_value(request, b"office-key")?;
    Ok(Credentials { name, key })
}
