//! The plan for an examination of a tender: its reply and its changes.
ghost use Rattle.std.specs.Prelude.{◌≡◌, IfOk, true};
ghost use Rattle.award_core.specs.Rules.Examine.{examine_rows};
ghost use Rattle.office_commands.specs.Rights.{may};
ghost use Rattle.office_commands.specs.declared.command.CommandKind.TheVariants as kinds;
ghost use Rattle.office_commands.specs.declared.commands.Command.TheVariants.{Examine};
ghost use Rattle.office_base.specs.Shelves.{Looks, LooksUp};
ghost use Rattle.office_machine.specs.Replies.{Examined};
ghost use Rattle.office_plans.specs.Asking.{given_by};
ghost use Rattle.office_plans.specs.Published.{IsPlanned, TellsRefusal};
ghost use Rattle.office_plans.specs.Replies.{reply_text};
ghost use Rattle.office_values.specs.declared.settings.Publisher.{Publisher};

use crate::objects::{Plain, object_text};
use crate::parents::{lot_of_envelope, notice_of_envelope};
use crate::planned::Planned;
use crate::published::silent;
use award_core::examine::{ExamineRows, puts, refusal};
use office_base::shelf::{Lookups, ShelfFault};
use office_commands::tender::Quality;
use office_values::given::AskedNumber;
use office_values::moment::Moment;
use office_values::refusal::Refusal;
use std::alloc::{AllocError, Global};
use tender_core::asking::Asking;

// Loads the rows by which the command is decided.
fn load<H: Lookups>(shelf: &mut H, receipt: AskedNumber) -> Result<ExamineRows, ShelfFault>
    ensures { LooksUp H.meaning shelf.old shelf.new result (λ s rows. rows ≡ examine_rows s receipt) }
{
    let clock = shelf.get_clock()?;
    let envelope = shelf.get_envelope(receipt)?;
    let notice = notice_of_envelope(shelf, &envelope)?;
    let lot = lot_of_envelope(shelf, &envelope)?;
    Ok(ExamineRows {
        envelope,
        notice,
        lot,
        clock,
    })
}

// The text of the reply to an accepted examination.
fn reply(
    alloc: Global,
    receipt: AskedNumber,
    responsive: bool,
    moment: Moment,
) -> Result<Vec<u8>, AllocError>
    ensures { IfOk result (λ text. text.items ≡ reply_text (Examined receipt responsive moment)) }
{
    object_text(
        alloc,
        &[
            ("moment", Plain::Moment(moment)),
            ("responsive", Plain::Truth(responsive)),
            ("tender", Plain::Number(receipt.get())),
        ],
    )
}

/// Plans an examination of a tender. A refusal needs no memory except for the rows.
pub fn plan<H: Lookups>(
    alloc: Global,
    shelf: &mut H,
    asking: &Asking,
    receipt: AskedNumber,
    responsive: bool,
    quality: Option<Quality>,
) -> Result<Planned, Refusal>
    requires { may asking.now.caller.now kinds.Examine ≡ true }
    ensures looks { (publisher : Publisher) → Looks H.meaning shelf.old shelf.new (λ s.
        IsPlanned publisher (given_by asking.now s (Examine receipt responsive quality)) result) }
    ensures tells { TellsRefusal H.meaning shelf.old shelf.new (λ s. given_by asking.now s (Examine receipt responsive quality)) result }
{
    let rows = load(shelf, receipt)?;
    let t = asking.time(&rows.clock);
    if let Some(why) = refusal(&rows, responsive, &quality) {
        return Err(why);
    }
    let text = reply(alloc, receipt, responsive, t)?;
    let puts = puts(alloc, t, rows, responsive, quality)?;
    Ok(silent(puts, text))
}
