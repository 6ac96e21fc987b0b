//! A store that remembers the sums of budget lines, the numbers of releases, and rows that were found.
ghost use Rattle.std.specs.Prelude.{◌≡◌, [], None};
ghost use Rattle.office_base.specs.Faults.{count_after, one_fault_more};
ghost use Rattle.office_base.specs.Shelves.{Keeps};
ghost use Rattle.office_base.specs.Tables.{Tables};
ghost use Rattle.office_sums.specs.Carried.{Follows, KnowsEntries};
ghost use Rattle.office_sums.specs.RememberingMeaning.{remembering, remembering_standing};

use crate::carried::EntrySums;
use crate::carrying::follow;
use crate::found::Found;
use crate::laws::{nothing_counted, nothing_listed, nothing_remembered};
use crate::numbered::RememberedCounts;
use crate::remembered::RememberedSums;
use office_base::puts::Put;
use office_base::shelf::{Lookups, Shelf, ShelfFault};
use office_base::stored::StoredShelf;
use std::alloc::Global;

/// A store, and the sums of those of its budget lines that were asked for. A change that moves a line's money changes its sums too. The answers are those of the
/// store inside. It counts its own faults: if a look-up fails that only serves to carry sums over a change, all sums are forgotten, and no call fails.
pub struct RememberingShelf<H> {
    pub(crate) alloc: Global,
    /// The store inside.
    pub shelf: H,
    /// The sums that are remembered.
    pub known: RememberedSums,
    /// The numbers of releases that are remembered.
    pub counts: RememberedCounts,
    /// The sums of the entries that were listed last, since the last change.
    pub listed: Option<EntrySums>,
    /// The rows that were found since the last change of their table.
    pub found: Found,
    /// The number of calls that were answered with a fault.
    pub faults: u64,
}

impl<H: Drop> Drop for RememberingShelf<H> {
    fn drop(self) {
        let RememberingShelf {
            alloc: _,
            shelf: _,
            known: _,
            counts: _,
            listed: _,
            found: _,
            faults: _,
        } = self;
    }
}

impl<H: Lookups> RememberingShelf<H> {
    /// A store around this one. It remembers no line yet, and holds what this one holds. It allocates no memory.
    pub fn new(alloc: Global, shelf: H) -> RememberingShelf<H>
        ensures shelf { result.shelf ≡ shelf }
        ensures empty { result.known ≡ [] }
        ensures uncounted { result.counts ≡ [] }
        ensures unlisted { result.listed ≡ None }
        ensures holds { (t : Tables) → H.meaning.holds shelf t → (remembering H.meaning).holds result t }
    {
        nothing_remembered();
        nothing_counted();
        nothing_listed();
        RememberingShelf {
            alloc,
            shelf,
            known: RememberedSums::new(alloc),
            counts: RememberedCounts::new(alloc),
            listed: None,
            found: Found::new(alloc),
            faults: 0,
        }
    }

    /// The store inside.
    pub fn into_shelf(self) -> H
        ensures { result ≡ self.shelf }
    {
        let RememberingShelf {
            alloc: _,
            shelf,
            known: _,
            counts: _,
            listed: _,
            found: _,
            faults: _,
        } = self;
        shelf
    }

    // Carries the sums over these changes, before they are made. If a look-up for this fails, it forgets all lines.
    fn follow(&mut self, puts: &[Put])
        ensures keeps { Keeps H.meaning self.old.shelf self.new.shelf }
        ensures right { H.meaning.honest self.new.shelf → (t : Tables) → H.meaning.holds self.old.shelf t → KnowsEntries self.old.listed t → Follows self.old.known self.new.known puts.now t }
        ensures counts { self.new.counts ≡ self.old.counts }
        ensures found { self.new.found ≡ self.old.found }
        ensures counted { self.new.faults ≡ self.old.faults }
    {
        nothing_remembered();
        if follow(&mut self.shelf, &mut self.known, &self.listed, puts).is_err() {
            self.known.forget_all();
        }
    }

    // Counts a fault, and returns it.
    fn count(&mut self, fault: ShelfFault) -> ShelfFault
        ensures fault { result ≡ fault }
        ensures shelf { self.new.shelf ≡ self.old.shelf }
        ensures known { self.new.known ≡ self.old.known }
        ensures counts { self.new.counts ≡ self.old.counts }
        ensures listed { self.new.listed ≡ self.old.listed }
        ensures found { self.new.found ≡ self.old.found }
        ensures counted { self.new.faults ≡ one_fault_more self.old.faults }
    {
        self.faults = self.faults.saturating_add(1);
        fault
    }

    // Returns the answer, and counts a fault.
    pub(crate) fn told<T>(&mut self, answer: Result<T, ShelfFault>) -> Result<T, ShelfFault>
        ensures same { result ≡ answer }
        ensures shelf { self.new.shelf ≡ self.old.shelf }
        ensures known { self.new.known ≡ self.old.known }
        ensures counts { self.new.counts ≡ self.old.counts }
        ensures listed { self.new.listed ≡ self.old.listed }
        ensures found { self.new.found ≡ self.old.found }
        ensures counted { self.new.faults ≡ count_after result self.old.faults }
    {
        match answer {
            Ok(found) => Ok(found),
            Err(fault) => Err(self.count(fault)),
        }
    }
}

impl<H: Shelf> Shelf for RememberingShelf<H> {
    fn apply(&mut self, puts: Vec<Put>) -> Result<(), ShelfFault> {
        self.follow(&puts);
        self.counts.follow(&puts);
        self.listed = None;
        self.found.follow(&puts);
        match self.shelf.apply(puts) {
            Ok(()) => Ok(()),
            Err(fault) => {
                self.known.forget_all();
                self.counts.forget_all();
                self.found.forget_all();
                self.faults = self.faults.saturating_add(1);
                Err(fault)
            }
        }
    }
}

impl<H: StoredShelf> StoredShelf for RememberingShelf<H> {
    ghost store = { remembering_standing H.store };

    fn is_shut(&mut self) -> Result<bool, ShelfFault> {
        let answer = self.shelf.is_shut();
        self.told(answer)
    }
}
