//! Laws of the rules, for the proofs of other crates.
ghost use Rattle.tender_core.specs.Agreeing.{ImportsAgree, PublishesAgree, CancelsAgree};
ghost use Rattle.tender_core.specs.Rules.Open.{ReadingsArePut};

/// A law: reading the tenders first and then making the changes of an opening gives the changes of its rule.
#[tactic(auto, using(crate::proofs::ReadingsPut::readings_put))]
pub fn readings_are_put()
    ensures { ReadingsArePut }
{}

/// A law: an import depends only on the budget lines that its rows name.
#[tactic(auto, using(crate::proofs::ImportsAgree::imports_agree))]
pub fn imports_agree()
    ensures { ImportsAgree }
{}

/// A law: a publication depends only on the budget lines that its lots name.
#[tactic(auto, using(crate::proofs::LinesAgree::publishes_agree))]
pub fn publishes_agree()
    ensures { PublishesAgree }
{}

/// A law: a cancellation depends only on the budget lines of lots that are still undecided or awarded.
#[tactic(auto, using(crate::proofs::LinesAgree::cancels_agree))]
pub fn cancels_agree()
    ensures { CancelsAgree }
{}
