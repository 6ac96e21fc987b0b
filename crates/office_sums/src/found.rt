//! The answers of look-ups, until a change of their table, so that a command which asks for a row twice reads it once.
ghost use Rattle.std.specs.Prelude.{◌≡◌, List, [], IfOk, IfSome};
ghost use Rattle.std.specs.FinMap.{IsAntisymmetric};
ghost use Rattle.office_base.specs.Rows.{row_at};
ghost use Rattle.office_base.specs.Tables.{Tables, after_put, after_puts, award_at, contract_at, line_at, lot_at, notice_at, tenderer_at};
ghost use Rattle.office_sums.specs.Found.{answer_at, KnowsRows, AreAnswers};

use office_base::puts::Put;
use office_base::records::{AwardRow, ContractRow, LineRow, LotRow, NoticeRow, TendererRow};
use office_base::row::{Row, copy_of};
use office_values::given::AskedNumber;
use office_values::id::Id;
use std::alloc::{AllocError, Global};
use std::collections::BTreeMap;
use std::marker::Model;

/// The most answers that are remembered of the lines or of the tenderers. A budget file has up to 500 lines. Such a row takes up to two kilobytes.
pub const MANY: usize = 1_000;

/// The most that are remembered of any other table. Such a row takes up to 64 kilobytes, which a body may have. So all six tables take up to 7 MB.
pub const FEW: usize = 10;

/// The answers for some keys of one table: the row, or none. Before it would remember more than `most`, it forgets all.
#[derive(Drop)]
pub struct FoundRows<R: Row + Drop> {
    answers: BTreeMap<R::Key, Option<R>>,
    most: usize,
}

impl<R: Row + Drop> Model for FoundRows<R> {
    ghost use Rattle.std.specs.Prelude.{List, Option};

    ghost Value = { List (R.Key × Option R) };

    ghost view = { λ f. f.answers.entries };
}

// A copy of the answer. AllocError if there is too little memory.
fn copied<R: Row + Drop>(answer: &Option<R>) -> Result<Option<R>, AllocError>
    ensures { IfOk result (λ copy. copy ≡ answer.now) }
{
    match answer {
        Some(row) => Ok(Some(copy_of(row)?)),
        None => Ok(None),
    }
}

impl<R: Row + Drop> FoundRows<R> {
    /// Nothing is remembered, and later at most so many answers. It allocates no memory.
    pub fn new(alloc: Global, most: usize) -> FoundRows<R>
        ensures { result ≡ [] }
    {
        FoundRows {
            answers: BTreeMap::new(alloc),
            most,
        }
    }

    /// The answer for this key, if it is remembered and there is memory for a copy.
    pub fn get(&self, key: &R::Key) -> Option<Option<R>>
        ensures { IfSome result (λ answer. answer_at R.Key.cmp self.now key.now ≡ Some answer) }
    {
        copied(self.answers.get(key)?).ok()
    }

    /// Forgets all answers. It allocates no memory.
    pub fn forget_all(&mut self)
        ensures { self.new ≡ [] }
    {
        self.answers.clear();
    }

    // Remembers this answer, if there is memory for it.
    fn insert(&mut self, key: R::Key, answer: Option<R>)
        ensures { IsAntisymmetric R.Key.cmp → (rows : List R) → row_at R.Key.cmp R.key_of rows key ≡ answer → AreAnswers R.Key.cmp R.key_of rows self.old → AreAnswers R.Key.cmp R.key_of rows self.new }
    {
        let _ = self.answers.insert(key, answer);
    }

    /// Remembers the answer for a key, if there is memory for it.
    pub fn remember(&mut self, key: R::Key, answer: &Option<R>)
        ensures { IsAntisymmetric R.Key.cmp → (rows : List R) → row_at R.Key.cmp R.key_of rows key ≡ answer.now → AreAnswers R.Key.cmp R.key_of rows self.old → AreAnswers R.Key.cmp R.key_of rows self.new }
    {
        if self.answers.len() >= self.most {
            self.forget_all();
        }
        if let Ok(copy) = copied(answer) {
            self.insert(key, copy);
        }
    }
}

/// The answers that are remembered, by the table that was asked.
#[derive(Drop)]
pub struct Found {
    pub lines: FoundRows<LineRow>,
    pub tenderers: FoundRows<TendererRow>,
    pub notices: FoundRows<NoticeRow>,
    pub lots: FoundRows<LotRow>,
    pub awards: FoundRows<AwardRow>,
    pub contracts: FoundRows<ContractRow>,
}

impl Found {
    /// Nothing is remembered. It allocates no memory.
    pub fn new(alloc: Global) -> Found
        ensures { (t : Tables) → KnowsRows result t }
    {
        Found {
            lines: FoundRows::new(alloc, MANY),
            tenderers: FoundRows::new(alloc, MANY),
            notices: FoundRows::new(alloc, FEW),
            lots: FoundRows::new(alloc, FEW),
            awards: FoundRows::new(alloc, FEW),
            contracts: FoundRows::new(alloc, FEW),
        }
    }

    /// Forgets all answers. It allocates no memory.
    pub fn forget_all(&mut self)
        ensures { (t : Tables) → KnowsRows self.new t }
    {
        self.lines.forget_all();
        self.tenderers.forget_all();
        self.notices.forget_all();
        self.lots.forget_all();
        self.awards.forget_all();
        self.contracts.forget_all();
    }

    // Forgets the answers about the table that a change puts a row into.
    fn follow_one(&mut self, put: &Put)
        ensures { (t : Tables) → KnowsRows self.old t → KnowsRows self.new (after_put put.now t) }
    {
        match put {
            Put::Line(_) => self.lines.forget_all(),
            Put::Tenderer(_) => self.tenderers.forget_all(),
            Put::Notice(_) => self.notices.forget_all(),
            Put::Lot(_) => self.lots.forget_all(),
            Put::Award(_) => self.awards.forget_all(),
            Put::Contract(_) => self.contracts.forget_all(),
            _ => {}
        }
    }

    /// Forgets the answers about the tables that these changes put rows into. It allocates no memory.
    pub fn follow(&mut self, puts: &[Put])
        ensures { (t : Tables) → KnowsRows self.old t → KnowsRows self.new (after_puts puts.now t) }
    {
        for put in puts {
            self.follow_one(put);
        }
    }

    /// Remembers the answer for a line.
    #[tactic(auto, using(office_base::proofs::ExactKeys::ids_exact))]
    pub fn remember_line(&mut self, line: &Id, answer: &Option<LineRow>)
        ensures { (t : Tables) → answer.now ≡ line_at line.now t → KnowsRows self.old t → KnowsRows self.new t }
    {
        self.lines.remember(*line, answer);
    }

    /// Remembers the answer for a tenderer.
    #[tactic(auto, using(office_base::proofs::ExactKeys::ids_exact))]
    pub fn remember_tenderer(&mut self, tenderer: &Id, answer: &Option<TendererRow>)
        ensures { (t : Tables) → answer.now ≡ tenderer_at tenderer.now t → KnowsRows self.old t → KnowsRows self.new t }
    {
        self.tenderers.remember(*tenderer, answer);
    }

    /// Remembers the answer for a notice.
    #[tactic(auto, using(office_base::proofs::ExactKeys::ids_exact))]
    pub fn remember_notice(&mut self, notice: &Id, answer: &Option<NoticeRow>)
        ensures { (t : Tables) → answer.now ≡ notice_at notice.now t → KnowsRows self.old t → KnowsRows self.new t }
    {
        self.notices.remember(*notice, answer);
    }

    /// Remembers the answer for a lot.
    pub fn remember_lot(&mut self, lot: (Id, Id), answer: &Option<LotRow>)
        ensures { (t : Tables) → answer.now ≡ lot_at lot t → KnowsRows self.old t → KnowsRows self.new t }
    {
        self.lots.remember(lot, answer);
    }

    /// Remembers the answer for an award.
    pub fn remember_award(&mut self, award: AskedNumber, answer: &Option<AwardRow>)
        ensures { (t : Tables) → answer.now ≡ award_at award t → KnowsRows self.old t → KnowsRows self.new t }
    {
        self.awards.remember(award.get(), answer);
    }

    /// Remembers the answer for a contract.
    pub fn remember_contract(&mut self, contract: AskedNumber, answer: &Option<ContractRow>)
        ensures { (t : Tables) → answer.now ≡ contract_at contract t → KnowsRows self.old t → KnowsRows self.new t }
    {
        self.contracts.remember(contract.get(), answer);
    }
}
