//! The places of the items of one list, by id.
ghost use Rattle.std.specs.Prelude.{◌≡◌, ◌++◌, ◌∷◌, ℕ, List, [], map, length, Some, cond, bytes_eq, IfOk, OnOk};
ghost use Rattle.std.specs.BTreeMap.{get_by_text};
ghost use Rattle.serde_json.specs.Data.{Data};
ghost use Rattle.serde_json.specs.View.{view};
ghost use Rattle.ocds_merge.specs.Identified.{id_of as id_named};
ghost use Rattle.ocds_merge.specs.Inside.Step.{Lacks};
ghost use Rattle.ocds_merge.specs.Inside.Places.{IsPlaceOf, IsIndexOf, IndexServes};

use crate::identified::{id_of, place_of};
use serde_json::Value;
use std::alloc::{AllocError, Global};
use std::collections::BTreeMap;

/// Up to this number of items, each is searched for in turn: an index would cost more than it saves.
const FEW: usize = 16;

/// Finds the items of one list, to which items are added at the end.
#[derive(Drop)]
pub(crate) struct Places {
    // The place of the first item with each id, if many items are searched for.
    by_id: Option<BTreeMap<String, usize>>,
}

impl Places {
    /// Places in this list, for a search of `count` items.
    pub(crate) fn new(alloc: Global, items: &[Value], count: usize) -> Result<Places, AllocError>
        ensures { IfOk result (λ places. IndexServes places.by_id (map view items.now)) }
    {
        let by_id = if count > FEW {
            Some(index_of(alloc, items)?)
        } else {
            None
        };
        Ok(Places { by_id })
    }

    /// The place of the first item with this id.
    pub(crate) fn find(&self, items: &[Value], id: &str) -> Option<usize>
        requires { IndexServes self.now.by_id (map view items.now) }
        ensures { IsPlaceOf result id.now (map view items.now) }
    {
        match &self.by_id {
            Some(by_id) => by_id.get(id).copied(),
            None => place_of(items, id),
        }
    }

    /// Notes a new item at the list's end. No item had its id.
    pub(crate) fn add(&mut self, alloc: Global, id: &str, place: usize) -> Result<(), AllocError>
        ensures { OnOk result ((items : List Data) (item : Data)
            → IndexServes self.old.by_id items → length items ≡ place → Lacks id.now items → id_named item ≡ id.now
            → IndexServes self.new.by_id (items ++ item ∷ [])) }
    {
        if let Some(by_id) = &mut self.by_id {
            put_place(alloc, by_id, id, place)?;
        }
        Ok(())
    }
}

fn index_of(alloc: Global, items: &[Value]) -> Result<BTreeMap<String, usize>, AllocError>
    ensures { IfOk result (λ by_id. IsIndexOf by_id (map view items.now)) }
{
    let mut by_id = BTreeMap::new(alloc);
    for (place, item) in items.iter().enumerate() {
        let id = id_of(item);
        if !by_id.contains_key(id) {
            put_place(alloc, &mut by_id, id, place)?;
        }
    }
    Ok(by_id)
}

fn put_place(
    alloc: Global,
    by_id: &mut BTreeMap<String, usize>,
    id: &str,
    place: usize,
) -> Result<(), AllocError>
    ensures { OnOk result ((i : List ℕ) → get_by_text by_id.new i
        ≡ cond (bytes_eq id.now i) (Some place) (get_by_text by_id.old i)) }
{
    by_id.insert(String::from_str(alloc, id)?, place)?;
    Ok(())
}
