//! Lots in the order of their identifiers.
ghost use Rattle.std.specs.Prelude.{◌≡◌, ◌<◌, ◌≤◌, map, take, length, get_or, false, [], IfOk};
ghost use Rattle.std.specs.Ordering.{is_lt};
ghost use Rattle.office_values.specs.Ids.{id_cmp};
ghost use Rattle.ocds_release.specs.LotsInOrder.{lots_in_order};
ghost use Rattle.ocds_release.specs.Inside.Earlier.{AreEarlier};

use office_commands::lot::NewLot;
use office_values::id::Id;
use std::alloc::{AllocError, Global};
use std::cmp::Ordering;

// Whether the lot's identifier comes before this one.
fn is_before(lot: &NewLot, id: Id) -> bool
    ensures { result ≡ is_lt (id_cmp lot.now.id id) }
{
    lot.id.cmp(&id) == Ordering::Less
}

// The place before the first lot whose identifier isn't less.
fn place_for(order: &[&NewLot], id: Id) -> usize
    ensures within { result ≤ length order.now }
    ensures before { AreEarlier id (take result (map (λ r. r.now.id) order.now)) }
    ensures after { result < length order.now → is_lt (id_cmp (get_or (map (λ r. r.now.id) order.now) result []) id) ≡ false }
{
    for (place, lot) in order.iter().enumerate() {
        if !is_before(lot, id) {
            return place;
        }
    }
    order.len()
}

/// The lots, sorted by their identifiers. They are inserted from the last to the first, so that lots that are already in order take one comparison each.
pub(crate) fn in_order<'a>(alloc: Global, lots: &'a [NewLot]) -> Result<Vec<&'a NewLot>, AllocError>
    ensures { IfOk result (λ order. map (λ r. r.now) order.items ≡ lots_in_order lots.now) }
{
    let mut order = Vec::new(alloc);
    let mut left = lots.len();
    while left > 0 {
        left -= 1;
        let lot = &lots[left];
        let place = place_for(&order, lot.id);
        order.insert(place, lot)?;
    }
    Ok(order)
}
