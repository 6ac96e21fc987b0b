//! The plan for a submission: its reply and its changes.
ghost use Rattle.std.specs.Prelude.{◌≡◌, true};
ghost use Rattle.office_commands.specs.Rights.{may};
ghost use Rattle.office_commands.specs.declared.command.CommandKind.TheVariants as kinds;
ghost use Rattle.office_commands.specs.declared.commands.Command.TheVariants.{Present};
ghost use Rattle.office_base.specs.Shelves.{Looks, LooksUp};
ghost use Rattle.office_plans.specs.Asking.{given_by};
ghost use Rattle.office_plans.specs.OwnTenders.{own_rows};
ghost use Rattle.office_plans.specs.Published.{IsPlanned, TellsRefusal};
ghost use Rattle.office_values.specs.declared.settings.Publisher.{Publisher};

use crate::of_lot::own_envelopes;
use crate::orphans::receipt_is_taken;
use crate::planned::Planned;
use crate::published::silent;
use crate::replies::tender_reply;
use office_base::laws::looks_follow;
use office_base::shelf::{Lookups, ShelfFault};
use office_commands::command::Caller;
use office_commands::sealed::Sealed;
use office_commands::tender::NamedSecurity;
use office_values::id::Id;
use office_values::refusal::Refusal;
use std::alloc::Global;
use tender_core::asking::Asking;
use tender_core::present::{PresentRows, puts, refusal};

// Loads the rows by which the command is decided. Of the lot's tenders these are only the caller's own, which may be few among many.
fn load<H: Lookups>(
    alloc: Global,
    shelf: &mut H,
    caller: &Caller,
    notice: &Id,
    lot: &Id,
) -> Result<PresentRows, ShelfFault>
    ensures { LooksUp H.meaning shelf.old shelf.new result (λ s rows. rows ≡ own_rows caller.now s notice.now lot.now) }
{
    let clock = shelf.get_clock()?;
    Ok(PresentRows {
        notice: shelf.get_notice(notice)?,
        lot: shelf.get_lot(notice, lot)?,
        envelopes: own_envelopes(alloc, shelf, caller, notice, lot)?,
        clock,
    })
}

/// Plans a submission. A tender gets a receipt whether it comes in time or late. A refusal needs no memory except for the rows.
/// `Unavailable` also if another tender has the next receipt.
pub fn plan<H: Lookups>(
    alloc: Global,
    shelf: &mut H,
    asking: &Asking,
    notice: Id,
    lot: Id,
    security: Option<NamedSecurity>,
    sealed: Sealed<'_>,
) -> Result<Planned, Refusal>
    requires { may asking.now.caller.now kinds.Present ≡ true }
    ensures looks { (publisher : Publisher) → Looks H.meaning shelf.old shelf.new (λ s.
        IsPlanned publisher (given_by asking.now s (Present notice lot security sealed.entry)) result) }
    ensures tells { TellsRefusal H.meaning shelf.old shelf.new (λ s. given_by asking.now s (Present notice lot security sealed.entry)) result }
{
    looks_follow::<H>();
    let rows = load(alloc, shelf, asking.caller, &notice, &lot)?;
    let t = asking.time(&rows.clock);
    if let Some(why) = refusal(t, asking.caller, &rows, &security) {
        return Err(why);
    }
    let taken = receipt_is_taken(shelf, &rows.clock)?;
    if taken {
        return Err(Refusal::Unavailable);
    }
    let puts = puts(
        alloc,
        t,
        asking.caller,
        rows,
        notice,
        lot,
        security,
        &sealed,
    )?;
    let text = tender_reply(alloc, puts.as_slice(), 0)?;
    Ok(silent(puts, text))
}
