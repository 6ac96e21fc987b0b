//! The free money of a budget line.
ghost use Rattle.std.specs.Prelude.{◌≡◌, ◌<◌, IfSome, IfNone};
ghost use Rattle.office_values.specs.Money.{total_limit};
ghost use Rattle.office_base.specs.Joined.{free_in};

use office_base::records::LineRow;
use office_values::money::Total;

// The free money of the line; 0 if the line doesn't exist.
pub(crate) fn free_on(line: &Option<LineRow>) -> Total
    ensures { result ≡ free_in line.now }
{
    match line {
        Some(row) => row.free,
        None => Total::ZERO,
    }
}

// The line with so much free; None above 10^15.
pub(crate) fn with_free(line: LineRow, free: u128) -> Option<LineRow>
    ensures found { IfSome result (λ row. row ≡ record line { free = free }) }
    ensures none { IfNone result (total_limit < free) }
{
    let free = Total::of_sum(free)?;
    Some(LineRow { free, ..line })
}
