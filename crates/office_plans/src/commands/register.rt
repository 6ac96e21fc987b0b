//! The plan for the registration of a tenderer: its reply and its changes.
ghost use Rattle.std.specs.Prelude.{◌≡◌, IfOk, true};
ghost use Rattle.office_commands.specs.Rights.{may};
ghost use Rattle.office_commands.specs.declared.command.CommandKind.TheVariants as kinds;
ghost use Rattle.office_commands.specs.declared.commands.Command.TheVariants.{Register};
ghost use Rattle.office_base.specs.Shelves.{Looks, LooksUp};
ghost use Rattle.office_machine.specs.Replies.{Enrolled};
ghost use Rattle.office_plans.specs.Asking.{given_by};
ghost use Rattle.office_plans.specs.Published.{IsPlanned, TellsRefusal};
ghost use Rattle.office_plans.specs.Replies.{reply_text};
ghost use Rattle.office_values.specs.declared.settings.Publisher.{Publisher};
ghost use Rattle.tender_core.specs.Rules.Register.{register_rows};

use crate::objects::{Plain, object_text};
use crate::planned::Planned;
use crate::published::silent;
use office_base::shelf::{Lookups, ShelfFault};
use office_values::id::Id;
use office_values::moment::Moment;
use office_values::refusal::Refusal;
use office_values::text::TextLine;
use std::alloc::{AllocError, Global};
use tender_core::asking::Asking;
use tender_core::register::{RegisterRows, puts, refusal};

// Loads the rows by which the command is decided.
fn load<H: Lookups>(shelf: &mut H, tenderer: &Id) -> Result<RegisterRows, ShelfFault>
    ensures { LooksUp H.meaning shelf.old shelf.new result (λ s rows. rows ≡ register_rows s tenderer.now) }
{
    Ok(RegisterRows {
        tenderer: shelf.get_tenderer(tenderer)?,
        clock: shelf.get_clock()?,
    })
}

// The text of the reply to an accepted registration.
fn reply(alloc: Global, tenderer: Id, moment: Moment) -> Result<Vec<u8>, AllocError>
    ensures { IfOk result (λ text. text.items ≡ reply_text (Enrolled tenderer moment)) }
{
    object_text(
        alloc,
        &[
            ("moment", Plain::Moment(moment)),
            ("tenderer", Plain::Id(tenderer)),
        ],
    )
}

/// Plans the registration of a tenderer, with the SHA-256 of the tenderer's key. A refusal needs no memory except for the rows.
pub fn plan<H: Lookups>(
    alloc: Global,
    shelf: &mut H,
    asking: &Asking,
    tenderer: Id,
    name: TextLine,
    address: TextLine,
    key: [u8; 32],
) -> Result<Planned, Refusal>
    requires { may asking.now.caller.now kinds.Register ≡ true }
    ensures looks { (publisher : Publisher) → Looks H.meaning shelf.old shelf.new (λ s.
        IsPlanned publisher (given_by asking.now s (Register tenderer name address key)) result) }
    ensures tells { TellsRefusal H.meaning shelf.old shelf.new (λ s. given_by asking.now s (Register tenderer name address key)) result }
{
    let rows = load(shelf, &tenderer)?;
    let t = asking.time(&rows.clock);
    if let Some(why) = refusal(&rows, &tenderer) {
        return Err(why);
    }
    let text = reply(alloc, tenderer, t)?;
    let puts = puts(alloc, t, rows, tenderer, name, address, key)?;
    Ok(silent(puts, text))
}
