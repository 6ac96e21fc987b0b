//! The query string of a target.
ghost use Rattle.std.specs.Prelude.{◌≡◌, IfOk};
ghost use Rattle.office_requests.specs.Inside.Answers.{ReadsAs};
ghost use Rattle.office_requests.specs.Parameters.{with_value, with_pair, given_in, is_absent, right, security_in, after_in};

use crate::fields::field_or_refusal;
use crate::forms::FromText;
use office_commands::amounts::SecurityAmount;
use office_commands::tender::NamedSecurity;
use office_values::id::Id;
use office_values::refusal::{Field, Refusal};
use std::alloc::{AllocError, Global};

/// The value that a query string gives for a parameter.
#[derive(Clone, Copy)]
pub enum Given<T> {
    Absent,
    /// The value has a wrong form, or is given more than once.
    Wrong,
    Right(T),
}

impl<T: Copy> Given<T> {
    // The parameter after one more value: a second one makes it wrong.
    fn with_value(self, value: Option<T>) -> Given<T>
        ensures { result ≡ with_value self value }
    {
        match (self, value) {
            (Given::Absent, Some(value)) => Given::Right(value),
            _ => Given::Wrong,
        }
    }

    fn is_absent(self) -> bool
        ensures { result ≡ is_absent self }
    {
        matches!(self, Given::Absent)
    }

    fn right(self) -> Option<T>
        ensures { result ≡ right self }
    {
        match self {
            Given::Right(value) => Some(value),
            _ => None,
        }
    }
}

// The parameter after one more pair, which counts if it has the name.
fn with_pair<T: FromText>(given: Given<T>, name: &str, key: &str, value: &str) -> Given<T>
    ensures { result ≡ with_pair T.of_text name.now given (key.now, value.now) }
{
    if key == name {
        given.with_value(T::from_text(value.as_bytes()))
    } else {
        given
    }
}

// The value of a parameter in a query string.
fn given_in<T: FromText>(alloc: Global, query: &[u8], name: &str) -> Result<Given<T>, AllocError>
    ensures { IfOk result (λ given. given ≡ given_in T.of_text name.now query.now) }
{
    let mut given = Given::Absent;
    'pairs: for pair in form_urlencoded::parse(alloc, query) {
        let (key, value) = pair?;
        given = with_pair(given, name, key.as_str(), value.as_str());
    }
    Ok(given)
}

/// The security that a query string names, with its amount; None if it names neither. If one of the two is missing, or if one is given twice, it is refused.
/// Other parameters are ignored.
#[tactic(auto, unfolding(crate::specs::Parameters::security_in))]
pub fn security(alloc: Global, query: &[u8]) -> Result<Option<NamedSecurity>, Refusal>
    ensures { ReadsAs result (security_in query.now) }
{
    let reference = given_in::<Id>(alloc, query, "security")?;
    let amount = given_in::<SecurityAmount>(alloc, query, "amount")?;
    if reference.is_absent() && amount.is_absent() {
        return Ok(None);
    }
    Ok(Some(NamedSecurity {
        reference: field_or_refusal(Field::Security, reference.right())?,
        amount: field_or_refusal(Field::Amount, amount.right())?,
    }))
}

/// The identifier after which a page of a list begins; None if the query string names none. An identifier that is given twice is refused. Other parameters are
/// ignored.
#[tactic(auto, unfolding(crate::specs::Parameters::after_in))]
pub fn after(alloc: Global, query: &[u8]) -> Result<Option<Id>, Refusal>
    ensures { ReadsAs result (after_in query.now) }
{
    let after = given_in::<Id>(alloc, query, "after")?;
    if after.is_absent() {
        return Ok(None);
    }
    Ok(Some(field_or_refusal(Field::After, after.right())?))
}
