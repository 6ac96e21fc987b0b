//! The items of a lot: the things to be bought.
ghost use Rattle.std.specs.Prelude.{◌≡◌, ◌≤◌, ◌⊎◌, false, true, IfSome, IfNone, length};
ghost use Rattle.office_commands.specs.Identified.{repeats_id};
ghost use Rattle.office_commands.specs.Items.{item_id};

use crate::identified::{Identified, repeats_id};
use office_values::bounded::Bounded;
use office_values::id::Id;
use office_values::text::TextLine;
use std::alloc::AllocError;
use std::marker::Model;

/// The quantity of an item: 1 to 10^6.
pub type Quantity = Bounded<1, 1_000_000>;

/// A thing to be bought in a lot, with its title and its quantity.
#[derive(Clone, Drop)]
pub struct Item {
    pub id: Id,
    pub title: TextLine,
    pub quantity: Quantity,
}

impl Identified for Item {
    ghost id_of = { item_id };

    fn id(&self) -> Id {
        self.id
    }
}

/// The items of a lot, in the order of the request: at least one, with different identifiers.
#[derive(Drop)]
pub struct Items {
    items: Vec<Item>,
}

impl Model for Items {
    ghost use Rattle.std.specs.Prelude.{◌≡◌, ◌≤◌, List, false, length};
    ghost use Rattle.office_commands.specs.declared.item.Item.{Item};
    ghost use Rattle.office_commands.specs.Identified.{repeats_id};
    ghost use Rattle.office_commands.specs.Items.{item_id};

    ghost Value = { List Item };

    ghost view = { λ i. i.items.items };

    ghost invariant = { λ i. (1 ≤ length i.items.items) × (repeats_id item_id i.items.items ≡ false) };
}

impl Items {
    /// The value of these items; None if there are none, or if two have the same identifier. It allocates no memory.
    pub fn read(items: Vec<Item>) -> Option<Items>
        ensures found { IfSome result (λ all. all ≡ items.items) }
        ensures some { IfSome result (λ _. 1 ≤ length items.items) }
        ensures differ { IfSome result (λ _. repeats_id item_id items.items ≡ false) }
        ensures none { IfNone result ((length items.items ≡ 0) ⊎ (repeats_id item_id items.items ≡ true)) }
    {
        if items.is_empty() || repeats_id(items.as_slice()) {
            return None;
        }
        Some(Items { items })
    }

    /// The items, borrowed, in the order of the request.
    pub fn as_slice(&self) -> &[Item]
        ensures value { result.now ≡ self.now }
        ensures some { 1 ≤ length self.now }
        ensures differ { repeats_id item_id self.now ≡ false }
    {
        self.items.as_slice()
    }
}

impl Clone for Items {
    ghost is_clone = { λ a b. b ≡ a };

    fn clone(&self) -> Result<Items, AllocError> {
        Ok(Items {
            items: self.items.clone()?,
        })
    }
}
