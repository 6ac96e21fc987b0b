//! The numbers and the lengths of tenders that are received.
ghost use Rattle.std.specs.Prelude.{◌≡◌, ◌+◌, IfSome, IfNone, true, false, length};
ghost use Rattle.office_base.specs.Transitions.{has_all_receipts, receipt_clock};

use office_base::counts::TenderLength;
use office_base::puts::Put;
use office_base::records::ClockRow;
use office_commands::sealed::Sealed;
use office_values::given::{GivenNumber, LastNumber};
use office_values::moment::Moment;

/// The number of the next receipt; None if all numbers are given.
pub fn next_receipt(clock: &ClockRow) -> Option<GivenNumber>
    ensures found { IfSome result (λ receipt. receipt ≡ clock.now.receipts + 1) }
    ensures few { IfSome result (λ _. has_all_receipts clock.now ≡ false) }
    ensures none { IfNone result (has_all_receipts clock.now ≡ true) }
{
    GivenNumber::read(clock.receipts.get() + 1)
}

/// The change of the clock, which moves to this moment and counts this receipt.
pub fn receipt_clock(clock: ClockRow, t: Moment, receipt: GivenNumber) -> Put
    requires { receipt ≡ clock.receipts + 1 }
    ensures { result ≡ receipt_clock clock t }
{
    Put::Clock(ClockRow {
        moment: t,
        receipts: LastNumber::read(receipt.get()).unwrap(),
        awards: clock.awards,
    })
}

/// The length of the tender in bytes.
pub fn length_of(sealed: &Sealed<'_>) -> TenderLength
    ensures { result ≡ length sealed.now }
{
    TenderLength::read(sealed.as_slice().len() as u64).unwrap()
}
