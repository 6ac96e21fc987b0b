//! Laws of the rules, for the proofs of other crates.
ghost use Rattle.award_core.specs.Best.{BestIsFound};

/// A law: the search over the tenders of a lot finds a best one if one is admissible. Of rows in the order of their receipts at most one is a best tender.
pub fn best_is_found()
    ensures { BestIsFound }
{}
