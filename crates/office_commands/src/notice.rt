//! Notices that are to be published, and their terms.
ghost use Rattle.std.specs.Prelude.{◌≡◌};
ghost use Rattle.office_commands.specs.Notices.{weight_of};

use crate::lot::NewLots;
use office_values::bounded::Bounded;
use office_values::moment::Moment;
use office_values::money::Amount;
use office_values::text::TextLine;

/// The days after the deadline in which tenders bind their tenderers: 1 to 365.
pub type Validity = Bounded<1, 365>;

/// The days after an award in which its contract can't be signed: 0 to 90.
pub type Standstill = Bounded<0, 90>;

/// The points out of a hundred that the price can give: 0 to 100. It is 0 if the price alone decides.
pub type Weight = Bounded<0, 100>;

/// The points out of a hundred that the price can give if points decide: 1 to 100.
pub type PriceWeight = Bounded<1, 100>;

/// The rule by which tenders are compared: the price alone, or points for price and quality.
#[derive(Clone, Copy)]
pub enum Criteria {
    Price,
    Points(PriceWeight),
}

impl Criteria {
    /// The points that the price can give; 0 if the price alone decides.
    pub fn weight(self) -> Weight
        ensures { result ≡ weight_of self }
    {
        match self {
            Criteria::Price => Weight::read(0).unwrap(),
            Criteria::Points(weight) => Weight::read(weight.get()).unwrap(),
        }
    }
}

/// The rule for a withdrawal after the deadline. The office refuses it, or the tender can't win any more and its security is forfeited.
#[derive(Clone, Copy, Debug, PartialEq, Eq)]
pub enum LateWithdrawal {
    Refused,
    Forfeits,
}

/// A notice that is to be published: title, terms and lots.
#[derive(Drop)]
pub struct NewNotice {
    pub title: TextLine,
    pub deadline: Moment,
    pub validity: Validity,
    pub standstill: Standstill,
    pub criteria: Criteria,
    pub late_withdrawal: LateWithdrawal,
    /// The least performance security that each contract must have; 0: none is required.
    pub performance: Amount,
    pub lots: NewLots,
}
