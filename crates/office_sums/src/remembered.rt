//! The sums of budget lines that are remembered.
ghost use Rattle.std.specs.Prelude.{◌≡◌, ◌↔◌, [], IsTrue, length};
ghost use Rattle.office_base.specs.Tables.{Tables, IsSorted, after_put};
ghost use Rattle.office_base.specs.declared.puts.Put.{Put};
ghost use Rattle.office_sums.specs.Carried.{IsCarried, IsTouch};
ghost use Rattle.office_sums.specs.Remembered.{sums_at, sums_in, AreSums, Forgets, IsSummed, Remembers};

use crate::carried::{Carried, Touch};
use crate::laws::nothing_remembered;
use crate::sums::SumsOfLine;
use office_base::ledger::Pots;
use office_base::records::LineRow;
use office_values::id::Id;
use std::alloc::Global;
use std::collections::BTreeMap;
use std::marker::Model;

/// The number of lines that are remembered at most. A line takes up to 150 bytes, so all of them take up to 150 MB.
pub const MOST_LINES: usize = 1_000_000;

/// The sums of some budget lines, by the lines. It remembers at most `MOST_LINES` lines. Before it would exceed this, it forgets all of them.
#[derive(Drop)]
pub struct RememberedSums {
    sums: BTreeMap<Id, SumsOfLine>,
}

impl Model for RememberedSums {
    ghost use Rattle.std.specs.Prelude.{ℕ, List};
    ghost use Rattle.office_sums.specs.declared.sums.SumsOfLine.{SumsOfLine};

    ghost Value = { List (List ℕ × SumsOfLine) };

    ghost view = { λ r. r.sums.entries };
}

impl RememberedSums {
    /// No line is remembered. It allocates no memory.
    pub fn new(alloc: Global) -> RememberedSums
        ensures { result ≡ [] }
    {
        RememberedSums {
            sums: BTreeMap::new(alloc),
        }
    }

    /// The number of lines that are remembered.
    pub fn len(&self) -> usize
        ensures { result ≡ length self.now }
    {
        self.sums.len()
    }

    /// Whether no line is remembered.
    pub fn is_empty(&self) -> bool
        ensures { IsTrue result ↔ (self.now ≡ []) }
    {
        self.sums.is_empty()
    }

    /// The sums of this line, if they are remembered.
    pub fn get(&self, line: &Id) -> Option<SumsOfLine>
        ensures { result ≡ sums_at self.now line.now }
    {
        self.sums.get(line).copied()
    }

    // Forgets this line.
    fn forget(&mut self, line: &Id)
        ensures { Forgets line.now self.old self.new }
    {
        self.sums.remove(line);
    }

    /// Forgets all lines. It allocates no memory.
    pub fn forget_all(&mut self)
        ensures { self.new ≡ [] }
    {
        self.sums.clear();
    }

    // Forgets all lines if no further line may be remembered.
    fn make_room(&mut self)
        ensures kept { (t : Tables) → Remembers self.old t → Remembers self.new t }
    {
        nothing_remembered();
        if self.len() >= MOST_LINES {
            self.forget_all();
        }
    }

    // Remembers these sums of a line, if there is memory for them.
    fn insert(&mut self, line: Id, sums: SumsOfLine)
        ensures kept { (t : Tables) → AreSums line sums t → Remembers self.old t → Remembers self.new t }
    {
        let _ = self.sums.insert(line, sums);
    }

    /// Remembers the sums in the balances of this line. If there is no memory for them, they aren't remembered.
    pub fn remember(&mut self, line: &Id, pots: &Pots)
        ensures kept { (t : Tables) → AreSums line.now (sums_in pots.now) t → Remembers self.old t → Remembers self.new t }
    {
        self.make_room();
        self.insert(*line, SumsOfLine::of(pots));
    }

    /// Remembers the sums in the balances of the line with this row, if they were added up and there is memory for them.
    pub fn remember_summed(&mut self, row: &LineRow, summed: &Option<Pots>)
        ensures kept { (t : Tables) → IsSummed row.now t summed.now → Remembers self.old t → Remembers self.new t }
    {
        match summed {
            Some(pots) => self.remember(&row.line, pots),
            None => {}
        }
    }

    // Remembers the sums that a line has after a change, if they are known and there is memory for them; otherwise forgets the line.
    fn replace(&mut self, carried: &Carried)
        ensures { (p : Put) (t : Tables) → IsCarried self.old p t carried.now → IsSorted t → Remembers self.old t → Remembers self.new (after_put p t) }
    {
        self.forget(&carried.line);
        if let Some(sums) = carried.sums {
            self.insert(carried.line, sums);
        }
    }

    /// Takes over the sums of a change: they agree with the tables after it if the remembered ones agreed with those before it. There are no more lines than before.
    pub fn take_over(&mut self, touch: &Touch)
        ensures { (p : Put) (t : Tables) → IsTouch self.old p t touch.now → IsSorted t → Remembers self.old t → Remembers self.new (after_put p t) }
    {
        nothing_remembered();
        match touch {
            Touch::Nothing => {}
            Touch::Line(carried) => self.replace(carried),
            Touch::Any => self.forget_all(),
        }
    }
}
