//! The number of releases of some notices, so that a publication needn't read the numbers of all releases of its notice.
ghost use Rattle.std.specs.Prelude.{◌≡◌, [], IsTrue, IfSome, length};
ghost use Rattle.office_base.specs.Tables.{Tables, release_numbers};
ghost use Rattle.office_base.specs.declared.puts.Put.{Put as PutOf};
ghost use Rattle.office_base.specs.declared.puts.Put.TheVariants.{Release};
ghost use Rattle.office_sums.specs.Numbered.{numbers_to, count_at, CountsReleases, CountsOn, CountsOneOn, ForgetsNotice};

use office_base::counts::Sequence;
use office_base::puts::Put;
use office_base::records::ReleaseRow;
use office_values::id::Id;
use std::alloc::Global;
use std::collections::BTreeMap;
use std::marker::Model;

/// The number of notices that are remembered at most. A notice takes up to 150 bytes, so all of them take up to 15 MB.
pub const MOST_NOTICES: usize = 100_000;

// Whether these are the numbers from 1 on.
fn are_numbered(numbers: &[Sequence]) -> bool
    ensures { IsTrue result → numbers.now ≡ numbers_to (length numbers.now) }
{
    for (at, number) in numbers.iter().enumerate() {
        if number.get() != at as u64 + 1 {
            return false;
        }
    }
    true
}

// The numbers from 1 to this one. None if there is no memory for them, or if a notice can't have so many releases.
fn numbers_to(alloc: Global, count: u64) -> Option<Vec<Sequence>>
    ensures { IfSome result (λ numbers. numbers.items ≡ numbers_to count) }
{
    let mut numbers = Vec::new(alloc);
    for at in 0..count {
        let number = Sequence::read(at + 1)?;
        if numbers.push(number).is_err() {
            return None;
        }
    }
    Some(numbers)
}

/// The number of releases of some notices, by the notices. They have the numbers from 1 to this one. It remembers at most `MOST_NOTICES` notices. Before it would
/// exceed this, it forgets all of them.
#[derive(Drop)]
pub struct RememberedCounts {
    counts: BTreeMap<Id, u64>,
}

impl Model for RememberedCounts {
    ghost use Rattle.std.specs.Prelude.{ℕ, List};

    ghost Value = { List (List ℕ × ℕ) };

    ghost view = { λ r. r.counts.entries };
}

impl RememberedCounts {
    /// No notice is remembered. It allocates no memory.
    pub fn new(alloc: Global) -> RememberedCounts
        ensures { result ≡ [] }
    {
        RememberedCounts {
            counts: BTreeMap::new(alloc),
        }
    }

    // The number of releases of this notice, if it is remembered.
    fn get(&self, notice: &Id) -> Option<u64>
        ensures { result ≡ count_at self.now notice.now }
    {
        self.counts.get(notice).copied()
    }

    // Forgets this notice.
    fn forget(&mut self, notice: &Id)
        ensures { ForgetsNotice notice.now self.old self.new }
    {
        self.counts.remove(notice);
    }

    /// Forgets all notices. It allocates no memory.
    pub fn forget_all(&mut self)
        ensures { self.new ≡ [] }
    {
        self.counts.clear();
    }

    // Remembers the number of releases of a notice, if there is memory for it.
    fn insert(&mut self, notice: Id, count: u64)
        ensures { (t : Tables) → release_numbers notice t ≡ numbers_to count → CountsReleases self.old t → CountsReleases self.new t }
    {
        let _ = self.counts.insert(notice, count);
    }

    /// The numbers of a notice's releases, if it is remembered and there is memory for them.
    pub fn numbers(&self, alloc: Global, notice: &Id) -> Option<Vec<Sequence>>
        ensures { IfSome result (λ numbers. (t : Tables) → CountsReleases self.now t → numbers.items ≡ release_numbers notice.now t) }
    {
        numbers_to(alloc, self.get(notice)?)
    }

    /// Remembers the number of a notice's releases, if they have the numbers from 1 on and there is memory for it.
    pub fn remember(&mut self, notice: &Id, numbers: &[Sequence])
        ensures { (t : Tables) → numbers.now ≡ release_numbers notice.now t → CountsReleases self.old t → CountsReleases self.new t }
    {
        if !are_numbered(numbers) {
            return;
        }
        if self.counts.len() >= MOST_NOTICES {
            self.forget_all();
        }
        self.insert(*notice, numbers.len() as u64);
    }

    // Counts one more release of its notice. If it doesn't have the next number, the notice is forgotten.
    fn follow_release(&mut self, row: &ReleaseRow)
        ensures { (t : Tables) → CountsOneOn self.old self.new (Release row.now) t }
    {
        let count = self.get(&row.notice);
        self.forget(&row.notice);
        let seq = row.seq.get();
        if let Some(before) = count {
            if before == seq - 1 {
                self.insert(row.notice, seq);
            }
        }
    }

    // Counts the release that a change puts, if it puts one.
    fn follow_one(&mut self, put: &Put)
        ensures { (t : Tables) → CountsOneOn self.old self.new put.now t }
    {
        if let Put::Release(row) = put {
            self.follow_release(row);
        }
    }

    /// Counts the releases that these changes put.
    pub fn follow(&mut self, puts: &[Put])
        ensures { (t : Tables) → CountsOn self.old self.new puts.now t }
    {
        for put in puts {
            self.follow_one(put);
        }
    }
}
