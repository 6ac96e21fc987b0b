//! Amounts of money that can't be 0.
ghost use Rattle.std.specs.Prelude.{◌≡◌};

use office_values::bounded::Bounded;
use office_values::money::Amount;

/// The estimated cost of a lot: 1 to 10^12 units.
pub type Estimate = Bounded<1, 1_000_000_000_000>;

/// The amount of a tender security or a performance security: 1 to 10^12 units.
pub type SecurityAmount = Bounded<1, 1_000_000_000_000>;

/// The amount of an entry of a contract, which is a raise, a cut or a payment: 1 to 10^12 units.
pub type EntryAmount = Bounded<1, 1_000_000_000_000>;

/// The estimate, as an amount of money.
pub fn amount_of(estimate: Estimate) -> Amount
    ensures { result ≡ estimate }
{
    Amount::read(estimate.get()).unwrap()
}
