//! Values of the office, as texts and numbers of a request write them. A text or number in another form is None.
ghost use Rattle.std.specs.Prelude.{◌≡◌, IfOk};
ghost use Rattle.office_requests.specs.Forms.{line_of, number_between};

use crate::publication::Basis;
use hex::FromHex;
use office_commands::amounts::SecurityAmount;
use office_commands::contract::{ChangeKind, How};
use office_commands::notice::LateWithdrawal;
use office_values::bounded::Bounded;
use office_values::id::Id;
use office_values::moment::Moment;
use office_values::number::read_number;
use office_values::text::TextLine;
use std::alloc::{AllocError, Global};

/// A value that a text writes and that takes no memory.
pub trait FromText: Copy {
    ghost use Rattle.std.specs.Prelude.{ℕ, List, Option};

    ghost of_text: { List ℕ → Option Self };

    /// The value that the text writes, if it is in the right form.
    fn from_text(text: &[u8]) -> Option<Self>
        ensures { result ≡ of_text text.now };
}

impl FromText for Id {
    ghost use Rattle.office_requests.specs.Forms.{identifier_of};

    ghost of_text = { identifier_of };

    fn from_text(text: &[u8]) -> Option<Id> {
        Id::read(text)
    }
}

impl FromText for Moment {
    ghost use Rattle.office_requests.specs.Moments.{moment_of};

    ghost of_text = { moment_of };

    fn from_text(text: &[u8]) -> Option<Moment> {
        Moment::read(text)
    }
}

impl FromText for SecurityAmount {
    ghost use Rattle.office_requests.specs.Forms.{amount_of};

    ghost of_text = { amount_of };

    #[tactic(auto, unfolding(crate::specs::Forms::amount_of))]
    fn from_text(text: &[u8]) -> Option<SecurityAmount> {
        number_between(read_number(text)?)
    }
}

impl FromText for [u8; 32] {
    ghost use Rattle.office_requests.specs.Forms.{digest_of};

    ghost of_text = { digest_of };

    #[tactic(auto, unfolding(crate::specs::Forms::digest_of))]
    fn from_text(text: &[u8]) -> Option<[u8; 32]> {
        <[u8; 32] as FromHex>::from_hex(text).ok()
    }
}

impl FromText for ChangeKind {
    ghost use Rattle.office_requests.specs.Forms.{change_of};

    ghost of_text = { change_of };

    #[tactic(auto, unfolding(crate::specs::Forms::change_of))]
    fn from_text(text: &[u8]) -> Option<ChangeKind> {
        if text == b"raise".as_slice() {
            Some(ChangeKind::Raise)
        } else if text == b"cut".as_slice() {
            Some(ChangeKind::Cut)
        } else {
            None
        }
    }
}

impl FromText for How {
    ghost use Rattle.office_requests.specs.Forms.{ending_of};

    ghost of_text = { ending_of };

    #[tactic(auto, unfolding(crate::specs::Forms::ending_of))]
    fn from_text(text: &[u8]) -> Option<How> {
        if text == b"regular".as_slice() {
            Some(How::Regular)
        } else if text == b"default".as_slice() {
            Some(How::ForDefault)
        } else {
            None
        }
    }
}

impl FromText for Basis {
    ghost use Rattle.office_requests.specs.Forms.{basis_of};

    ghost of_text = { basis_of };

    #[tactic(auto, unfolding(crate::specs::Forms::basis_of))]
    fn from_text(text: &[u8]) -> Option<Basis> {
        if text == b"price".as_slice() {
            Some(Basis::Price)
        } else if text == b"points".as_slice() {
            Some(Basis::Points)
        } else {
            None
        }
    }
}

impl FromText for LateWithdrawal {
    ghost use Rattle.office_requests.specs.Forms.{lateness_of};

    ghost of_text = { lateness_of };

    #[tactic(auto, unfolding(crate::specs::Forms::lateness_of))]
    fn from_text(text: &[u8]) -> Option<LateWithdrawal> {
        if text == b"refused".as_slice() {
            Some(LateWithdrawal::Refused)
        } else if text == b"forfeits".as_slice() {
            Some(LateWithdrawal::Forfeits)
        } else {
            None
        }
    }
}

/// The text as a line, if it is one.
#[tactic(auto, using(crate::proofs::FormSteps::line_kept))]
pub fn line_of(alloc: Global, text: &[u8]) -> Result<Option<TextLine>, AllocError>
    ensures { IfOk result (λ line. line ≡ line_of text.now) }
{
    TextLine::read(alloc, text)
}

/// The number, if it is within the bounds.
pub fn number_between<const LOW: u64, const HIGH: u64>(number: u64) -> Option<Bounded<LOW, HIGH>>
    ensures { result ≡ number_between LOW HIGH number }
{
    Bounded::read(number)
}
