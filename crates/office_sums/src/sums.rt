//! The sums over the rows that are joined with a budget line.
ghost use Rattle.std.specs.Prelude.{◌≡◌};
ghost use Rattle.office_sums.specs.Remembered.{pots_by, sums_in};

use office_base::ledger::Pots;
use office_base::records::LineRow;
use office_values::money::Total;

/// The amount that the lots of a budget line reserved, the outstanding amount of their contracts, and the amount paid under these.
#[derive(Clone, Copy)]
pub struct SumsOfLine {
    pub reserved: Total,
    pub contracted: Total,
    pub paid: Total,
}

impl SumsOfLine {
    /// The sums in these balances.
    pub fn of(pots: &Pots) -> SumsOfLine
        ensures { result ≡ sums_in pots.now }
    {
        SumsOfLine {
            reserved: pots.reserved,
            contracted: pots.contracted,
            paid: pots.paid,
        }
    }
}

/// The balances of the line with this row and these sums.
pub(crate) fn pots_by(row: &LineRow, sums: SumsOfLine) -> Pots
    ensures { result ≡ pots_by row.now sums }
{
    Pots {
        appropriation: row.appropriation,
        free: row.free,
        reserved: sums.reserved,
        contracted: sums.contracted,
        paid: sums.paid,
    }
}
