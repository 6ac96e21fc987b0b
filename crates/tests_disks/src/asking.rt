//! Questions to an office on disks, each about one row.
use crate::office::OfficeOnDisks;
use office_base::counts::Sequence;
use office_base::shelf::{Lookups, ShelfFault};
use office_values::given::AskedNumber;
use office_values::id::Id;

/// A question to an office.
#[derive(Clone, Copy)]
pub enum Question {
    /// The line `1000`.
    Line,
    /// The tenderer `T1`.
    Tenderer,
    /// The notice `N1`.
    Notice,
    /// The lot `L1` of the notice.
    Lot,
    /// The tender with receipt 1.
    Envelope,
    /// Security 1.
    Security,
    /// Award 1.
    Award,
    /// Contract 1.
    Contract,
    /// The performance security of the contract.
    Performance,
    /// The first release of the notice `N1`.
    Release,
}

// Whether the row exists.
fn is_there<R: Drop>(answer: Result<Option<R>, ShelfFault>) -> Result<bool, ShelfFault> {
    Ok(answer?.is_some())
}

fn ask_by_number<H: Lookups>(
    shelf: &mut H,
    question: Question,
) -> Option<Result<bool, ShelfFault>> {
    let one = AskedNumber::read(1)?;
    match question {
        Question::Envelope => Some(is_there(shelf.get_envelope(one))),
        Question::Security => Some(is_there(shelf.get_security(one))),
        Question::Award => Some(is_there(shelf.get_award(one))),
        Question::Contract => Some(is_there(shelf.get_contract(one))),
        Question::Performance => Some(is_there(shelf.get_performance(one))),
        _ => None,
    }
}

// Over any store, so that it is proved once, and not for a store over a file over a disk.
fn ask<H: Lookups>(shelf: &mut H, question: Question) -> Option<Result<bool, ShelfFault>> {
    let notice = Id::read(b"N1")?;
    match question {
        Question::Line => Some(is_there(shelf.get_line(&Id::read(b"1000")?))),
        Question::Tenderer => Some(is_there(shelf.get_tenderer(&Id::read(b"T1")?))),
        Question::Notice => Some(is_there(shelf.get_notice(&notice))),
        Question::Lot => Some(is_there(shelf.get_lot(&notice, &Id::read(b"L1")?))),
        Question::Release => Some(is_there(shelf.get_release(&notice, Sequence::read(1)?))),
        _ => ask_by_number(shelf, question),
    }
}

impl OfficeOnDisks {
    /// Whether the row of the question exists.
    pub fn asks(&mut self, question: Question) -> Option<Result<bool, ShelfFault>> {
        ask(&mut self.shelf, question)
    }
}
