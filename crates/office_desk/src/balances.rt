//! Tests of the balances of budget lines.
ghost use Rattle.std.specs.Prelude.{◌≡◌};
ghost use Rattle.std.specs.List.{list_all};
ghost use Rattle.office_desk.specs.Balances.{pots_add_up, row_adds_up};

use office_base::ledger::{LedgerRow, Pots};

/// Returns whether the four balances add up to the appropriation.
pub(crate) fn pots_add_up(pots: &Pots) -> bool
    ensures { result ≡ pots_add_up pots.now }
{
    let sum = pots.free.units()
        + pots.reserved.units()
        + pots.contracted.units()
        + pots.paid.units();
    pots.appropriation.units() == sum
}

/// Returns whether the balances in each row add up.
pub(crate) fn rows_add_up(rows: &[LedgerRow]) -> bool
    ensures { result ≡ list_all row_adds_up rows.now }
{
    rows.iter().all(|row| pots_add_up(&row.pots))
}
