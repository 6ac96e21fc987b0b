//! The JSON texts of replies that several commands have.
ghost use Rattle.std.specs.Prelude.{◌≡◌, IfOk, IfErr, Some, max, slice_get};
ghost use Rattle.office_base.specs.Tables.{Tables};
ghost use Rattle.office_base.specs.declared.puts.Put.TheVariants.{Envelope};
ghost use Rattle.office_base.specs.declared.records.EnvelopeRow.{EnvelopeRow as EnvelopeOf};
ghost use Rattle.office_machine.specs.Replies.{OfContract, OfNotice, received_reply, release_of};
ghost use Rattle.office_plans.specs.Replies.{reply_text};
ghost use Rattle.office_values.specs.declared.refusal.Refusal.TheVariants.{Unavailable};

use crate::objects::{Plain, number_of, object_text};
use crate::words::state_word;
use office_base::counts::Sequence;
use office_base::puts::Put;
use office_base::records::{ClockRow, EnvelopeRow};
use office_values::given::AskedNumber;
use office_values::id::Id;
use office_values::moment::Moment;
use office_values::refusal::Refusal;
use std::alloc::{AllocError, Global};
use tender_core::asking::Asking;

// The text that says that the notice got the release of this number.
fn notice_text(
    alloc: Global,
    notice: Id,
    release: Sequence,
    moment: Moment,
) -> Result<Vec<u8>, AllocError>
    ensures { IfOk result (λ text. text.items ≡ reply_text (OfNotice notice release moment)) }
{
    object_text(
        alloc,
        &[
            ("moment", Plain::Moment(moment)),
            ("notice", Plain::Id(notice)),
            ("release", Plain::Number(release.get())),
        ],
    )
}

/// The text of the reply to an accepted command that publishes this release of this notice, by the clock.
pub(crate) fn notice_reply(
    alloc: Global,
    asking: &Asking,
    notice: Id,
    release: Sequence,
    clock: &ClockRow,
) -> Result<Vec<u8>, AllocError>
    ensures { IfOk result (λ text. (s : Tables) → release ≡ release_of s.notices notice → clock.now ≡ s.clock
        → text.items ≡ reply_text (OfNotice notice (release_of s.notices notice) (max asking.now.moment s.clock.moment))) }
{
    let t = asking.time(clock);
    notice_text(alloc, notice, release, t)
}

/// The text that says how much of a contract is outstanding now.
pub(crate) fn contract_text(
    alloc: Global,
    contract: AskedNumber,
    left: u64,
    release: Sequence,
    moment: Moment,
) -> Result<Vec<u8>, AllocError>
    ensures { IfOk result (λ text. text.items ≡ reply_text (OfContract contract left release moment)) }
{
    object_text(
        alloc,
        &[
            ("contract", Plain::Number(contract.get())),
            ("moment", Plain::Moment(moment)),
            ("outstanding", Plain::Number(left)),
            ("release", Plain::Number(release.get())),
        ],
    )
}

// The text that says that this tender was received.
fn received_text(alloc: Global, tender: &EnvelopeRow) -> Result<Vec<u8>, AllocError>
    ensures { IfOk result (λ text. text.items ≡ reply_text (received_reply tender.now)) }
{
    let receipt = tender.receipt.get();
    let security = number_of(tender.security);
    let word = state_word(tender.state);
    object_text(
        alloc,
        &[
            ("digest", Plain::Digest(tender.digest)),
            ("moment", Plain::Moment(tender.moment)),
            ("receipt", Plain::Number(receipt)),
            ("security", Plain::Count(security)),
            ("state", Plain::Text(word)),
        ],
    )
}

/// The text of the reply to an accepted tender, by its row: the change at this place. `Unavailable` also if no tender is put there.
pub(crate) fn tender_reply(alloc: Global, puts: &[Put], place: usize) -> Result<Vec<u8>, Refusal>
    ensures told { IfOk result (λ text. (tender : EnvelopeOf) → slice_get puts.now place ≡ Some (Envelope tender)
        → text.items ≡ reply_text (received_reply tender)) }
    ensures none { IfErr result (λ why. why ≡ Unavailable) }
{
    match puts.get(place) {
        Some(Put::Envelope(tender)) => Ok(received_text(alloc, tender)?),
        _ => Err(Refusal::Unavailable),
    }
}
