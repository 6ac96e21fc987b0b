//! The lots of a notice that is to be published.
ghost use Rattle.std.specs.Prelude.{◌≡◌, ◌≤◌, ◌⊎◌, false, true, IfSome, IfNone, length};
ghost use Rattle.office_commands.specs.Identified.{repeats_id};
ghost use Rattle.office_commands.specs.Lots.{lot_id};

use crate::amounts::Estimate;
use crate::identified::{Identified, repeats_id};
use crate::item::Items;
use office_values::id::Id;
use office_values::money::Amount;
use office_values::text::TextLine;
use std::marker::Model;

/// A lot of a notice to be published: its budget line, its estimate, its items, and the least security that each tender must have (0: none is required).
#[derive(Drop)]
pub struct NewLot {
    pub id: Id,
    pub title: TextLine,
    pub line: Id,
    pub estimate: Estimate,
    pub security: Amount,
    pub items: Items,
}

impl Identified for NewLot {
    ghost id_of = { lot_id };

    fn id(&self) -> Id {
        self.id
    }
}

/// The lots of a notice to be published: at least one, with different identifiers.
#[derive(Drop)]
pub struct NewLots {
    lots: Vec<NewLot>,
}

impl Model for NewLots {
    ghost use Rattle.std.specs.Prelude.{◌≡◌, ◌≤◌, List, false, length};
    ghost use Rattle.office_commands.specs.declared.lot.NewLot.{NewLot};
    ghost use Rattle.office_commands.specs.Identified.{repeats_id};
    ghost use Rattle.office_commands.specs.Lots.{lot_id};

    ghost Value = { List NewLot };

    ghost view = { λ l. l.lots.items };

    ghost invariant = { λ l. (1 ≤ length l.lots.items) × (repeats_id lot_id l.lots.items ≡ false) };
}

impl NewLots {
    /// The value of these lots; None if there are none, or if two have the same identifier. It allocates no memory.
    pub fn read(lots: Vec<NewLot>) -> Option<NewLots>
        ensures found { IfSome result (λ all. all ≡ lots.items) }
        ensures some { IfSome result (λ _. 1 ≤ length lots.items) }
        ensures differ { IfSome result (λ _. repeats_id lot_id lots.items ≡ false) }
        ensures none { IfNone result ((length lots.items ≡ 0) ⊎ (repeats_id lot_id lots.items ≡ true)) }
    {
        if lots.is_empty() || repeats_id(lots.as_slice()) {
            return None;
        }
        Some(NewLots { lots })
    }

    /// The lots, borrowed, in the order of the request.
    pub fn as_slice(&self) -> &[NewLot]
        ensures value { result.now ≡ self.now }
        ensures some { 1 ≤ length self.now }
        ensures differ { repeats_id lot_id self.now ≡ false }
    {
        self.lots.as_slice()
    }

    /// The lots, moved out. It allocates no memory.
    pub fn into_vec(self) -> Vec<NewLot>
        ensures { result.items ≡ self }
    {
        let NewLots { lots } = self;
        lots
    }
}
