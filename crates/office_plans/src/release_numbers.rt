//! Whether the releases of a notice are those that it counts.
ghost use Rattle.std.specs.Prelude.{◌≡◌, ◌+◌, true, false, IfOk};
ghost use Rattle.office_base.specs.Shelves.{Looks};
ghost use Rattle.office_machine.specs.Fates.{numbers};
ghost use Rattle.office_publications.specs.Keeping.{has_last_release, has_release};
ghost use Rattle.office_publications.specs.Merges.{AreSoMany};

use office_base::counts::Sequence;
use office_base::shelf::{Lookups, ShelfFault};
use office_publications::laws::numbering;
use office_values::id::Id;

// Whether these are the numbers from 1 to this one.
fn are_numbers_to(found: &[Sequence], count: u64) -> bool
    ensures all { result ≡ true → found.now ≡ numbers 1 count }
    ensures other { result ≡ false → ¬ (found.now ≡ numbers 1 count) }
{
    if found.len() as u64 != count {
        return false;
    }
    let mut next: u64 = 1;
    for number in found {
        if number.get() != next {
            return false;
        }
        next += 1;
    }
    true
}

/// Whether the notice has a release of each number from 1 to this one, and no other. Then the last one exists, and none has the next number. No text is read.
pub fn has_releases_to<H: Lookups>(
    shelf: &mut H,
    notice: &Id,
    count: u64,
) -> Result<bool, ShelfFault>
    ensures all { Looks H.meaning shelf.old shelf.new (λ s. IfOk result (λ has. has ≡ true → AreSoMany notice.now count s)) }
    ensures other { Looks H.meaning shelf.old shelf.new (λ s. IfOk result (λ has. has ≡ false → ¬ (AreSoMany notice.now count s))) }
    ensures last { Looks H.meaning shelf.old shelf.new (λ s. IfOk result (λ has. has ≡ true → has_last_release notice.now count s ≡ true)) }
    ensures next { Looks H.meaning shelf.old shelf.new (λ s. IfOk result (λ has. has ≡ true → has_release notice.now (count + 1) s ≡ false)) }
{
    numbering();
    let found = shelf.list_release_numbers(notice)?;
    Ok(are_numbers_to(found.as_slice(), count))
}
