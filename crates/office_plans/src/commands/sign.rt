//! The plan for the signing of a contract: its reply, its release and its changes.
ghost use Rattle.std.specs.Prelude.{◌≡◌, ℕ, Option, true, IfErr, IfOk, Some};
ghost use Rattle.award_core.specs.Rules.Sign.{sign_rows};
ghost use Rattle.office_commands.specs.Rights.{may};
ghost use Rattle.office_commands.specs.declared.command.CommandKind.TheVariants as kinds;
ghost use Rattle.office_commands.specs.declared.commands.Command.TheVariants.{Sign};
ghost use Rattle.office_commands.specs.declared.tender.NamedSecurity.{NamedSecurity};
ghost use Rattle.office_base.specs.Shelves.{Looks, LooksUp};
ghost use Rattle.office_base.specs.Tables.{Tables, award_at};
ghost use Rattle.office_machine.specs.Replies as replies;
ghost use Rattle.office_machine.specs.Replies.{release_of_award};
ghost use Rattle.office_plans.specs.Asking.{given_by};
ghost use Rattle.office_plans.specs.Published.{IsPlanned, TellsRefusal, accepted_reply};
ghost use Rattle.office_plans.specs.Released.{IsReleased};
ghost use Rattle.office_plans.specs.Replies.{reply_text};
ghost use Rattle.office_values.specs.declared.refusal.Refusal.TheVariants.{Unavailable};

use crate::events::status_with;
use crate::objects::{Plain, object_text};
use crate::of_lot::securities_of_award;
use crate::orphans::cant_be_signed;
use crate::parents::{envelope_of_award, lot_of_award, notice_of_award};
use crate::planned::Planned;
use crate::published::{Released, make_release, published};
use award_core::sign::{SignRows, places, puts, refusal};
use ocds_release::event::{Event, Signed};
use office_base::counts::Sequence;
use office_base::laws::looks_follow;
use office_base::records::{AwardRow, LotState};
use office_base::shelf::{Lookups, ShelfFault};
use office_commands::tender::NamedSecurity;
use office_values::given::AskedNumber;
use office_values::moment::Moment;
use office_values::refusal::Refusal;
use office_values::settings::Publisher;
use std::alloc::{AllocError, Global};
use tender_core::asking::Asking;

// Loads the rows by which the command is decided.
fn load<H: Lookups>(
    alloc: Global,
    shelf: &mut H,
    award: AskedNumber,
) -> Result<SignRows, ShelfFault>
    ensures { LooksUp H.meaning shelf.old shelf.new result (λ s rows. rows ≡ sign_rows s award) }
{
    let clock = shelf.get_clock()?;
    let award = shelf.get_award(award)?;
    let notice = notice_of_award(shelf, &award)?;
    let lot = lot_of_award(shelf, &award)?;
    let envelope = envelope_of_award(shelf, &award)?;
    let securities = securities_of_award(alloc, shelf, &award)?;
    Ok(SignRows {
        award,
        notice,
        lot,
        envelope,
        securities,
        clock,
    })
}

// The text that says that this contract is signed.
fn signed_text(
    alloc: Global,
    contract: AskedNumber,
    release: Sequence,
    moment: Moment,
) -> Result<Vec<u8>, AllocError>
    ensures { IfOk result (λ text. text.items ≡ reply_text (replies.Signed contract release moment)) }
{
    object_text(
        alloc,
        &[
            ("contract", Plain::Number(contract.get())),
            ("moment", Plain::Moment(moment)),
            ("release", Plain::Number(release.get())),
        ],
    )
}

// The text of the reply to an accepted signing.
fn reply(
    alloc: Global,
    asking: &Asking,
    rows: &SignRows,
    award: AskedNumber,
    release: Sequence,
) -> Result<Vec<u8>, AllocError>
    ensures { IfOk result (λ text. (s : Tables) (named : Option NamedSecurity) → rows.now ≡ sign_rows s award
        → release ≡ release_of_award (award_at award s) s.notices → text.items ≡ reply_text (accepted_reply (given_by asking.now s (Sign award named)))) }
{
    let t = asking.time(&rows.clock);
    signed_text(alloc, award, release, t)
}

// The release of an accepted signing of this award. It doesn't depend on the performance security that is named.
fn release<H: Lookups>(
    alloc: Global,
    shelf: &mut H,
    publisher: &Publisher,
    asking: &Asking,
    rows: &SignRows,
    award: &AwardRow,
) -> Result<Released, Refusal>
    ensures looks { Looks H.meaning shelf.old shelf.new (λ s. IfOk result (λ release. (number : ℕ) (named : Option NamedSecurity) → rows.now ≡ sign_rows s number
        → rows.now.award ≡ Some award.now → IsReleased publisher.now (given_by asking.now s (Sign number named)) release)) }
    ensures none { IfErr result (λ why. why ≡ Unavailable) }
{
    let lots = shelf.list_lots_of_notice(&award.notice)?;
    let status = status_with(alloc, lots.as_slice(), award.lot, LotState::Contracted)?;
    let event = Event::Sign(Signed {
        notice: award.notice,
        contract: award.award,
        lot: award.lot,
        price: award.price,
        status,
    });
    let t = asking.time(&rows.clock);
    make_release(alloc, publisher, award.notice, &rows.notice, t, &event)
}

/// Plans the signing of a contract, with a performance security if one is named. A refusal needs no memory except for the rows.
/// `Unavailable` also if a contract, an entry or a performance security already has the award's number. So it is if the security of its tender is missing, or
/// if its lot reserves another amount than its price.
pub fn plan<H: Lookups>(
    alloc: Global,
    shelf: &mut H,
    publisher: &Publisher,
    asking: &Asking,
    award: AskedNumber,
    security: Option<NamedSecurity>,
) -> Result<Planned, Refusal>
    requires { may asking.now.caller.now kinds.Sign ≡ true }
    ensures looks { Looks H.meaning shelf.old shelf.new (λ s. IsPlanned publisher.now (given_by asking.now s (Sign award security)) result) }
    ensures tells { TellsRefusal H.meaning shelf.old shelf.new (λ s. given_by asking.now s (Sign award security)) result }
{
    looks_follow::<H>();
    let rows = load(alloc, shelf, award)?;
    let t = asking.time(&rows.clock);
    if let Some(why) = refusal(t, &rows, &security) {
        return Err(why);
    }
    let taken = cant_be_signed(shelf, award, &rows)?;
    if taken {
        return Err(Refusal::Unavailable);
    }
    let row = rows.award.as_ref().unwrap();
    let release = release(alloc, shelf, publisher, asking, &rows, row)?;
    let text = reply(alloc, asking, &rows, award, release.seq)?;
    let places = places(alloc, &rows)?;
    let puts = puts(places, t, rows, security)?;
    published(alloc, shelf, publisher, puts, text, release)
}
