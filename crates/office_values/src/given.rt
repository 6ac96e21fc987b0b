//! The numbers that the office gives to receipts, securities, awards and contracts.
ghost use Rattle.std.specs.Prelude.{◌≡◌};

use crate::bounded::Bounded;

/// A number that the office has given to a receipt, a security, an award or a contract: 1 to 10^9.
pub type GivenNumber = Bounded<1, 1_000_000_000>;

/// The last number that the office has given, 0 to 10^9. It is 0 if the office has given none.
pub type LastNumber = Bounded<0, 1_000_000_000>;

/// A number that a path asks for: 1 to 10 digits, of which the first isn't 0. The office gives no number above 10^9.
pub type AskedNumber = Bounded<1, 9_999_999_999>;

/// A given number, as a number that a path may ask for.
pub fn asked(number: GivenNumber) -> AskedNumber
    ensures { result ≡ number }
{
    AskedNumber::read(number.get()).unwrap()
}
