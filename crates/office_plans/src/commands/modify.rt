//! The plan for a modification of a tender: its reply and its changes.
ghost use Rattle.std.specs.Prelude.{◌≡◌, true};
ghost use Rattle.office_commands.specs.Rights.{may};
ghost use Rattle.office_commands.specs.declared.command.CommandKind.TheVariants as kinds;
ghost use Rattle.office_commands.specs.declared.commands.Command.TheVariants.{Modify};
ghost use Rattle.office_base.specs.Shelves.{Looks, LooksUp};
ghost use Rattle.office_plans.specs.Asking.{given_by};
ghost use Rattle.office_plans.specs.Published.{IsPlanned, TellsRefusal};
ghost use Rattle.office_values.specs.declared.settings.Publisher.{Publisher};
ghost use Rattle.tender_core.specs.Rules.Modify.{modify_rows};

use crate::orphans::cant_be_replaced;
use crate::parents::notice_of_envelope;
use crate::planned::Planned;
use crate::published::silent;
use crate::replies::tender_reply;
use office_base::laws::looks_follow;
use office_base::shelf::{Lookups, ShelfFault};
use office_commands::sealed::Sealed;
use office_values::given::AskedNumber;
use office_values::refusal::Refusal;
use std::alloc::Global;
use tender_core::asking::Asking;
use tender_core::modify::{ModifyRows, puts, refusal};

// Loads the rows by which the command is decided.
fn load<H: Lookups>(shelf: &mut H, receipt: AskedNumber) -> Result<ModifyRows, ShelfFault>
    ensures { LooksUp H.meaning shelf.old shelf.new result (λ s rows. rows ≡ modify_rows s receipt) }
{
    let clock = shelf.get_clock()?;
    let envelope = shelf.get_envelope(receipt)?;
    let notice = notice_of_envelope(shelf, &envelope)?;
    Ok(ModifyRows {
        envelope,
        notice,
        clock,
    })
}

/// Plans a modification of a tender, which replaces it by another one. A refusal needs no memory except for the rows.
/// `Unavailable` also if another tender has the next receipt, or the tender's seal, lot or security is missing.
pub fn plan<H: Lookups>(
    alloc: Global,
    shelf: &mut H,
    asking: &Asking,
    receipt: AskedNumber,
    sealed: Sealed<'_>,
) -> Result<Planned, Refusal>
    requires { may asking.now.caller.now kinds.Modify ≡ true }
    ensures looks { (publisher : Publisher) → Looks H.meaning shelf.old shelf.new (λ s.
        IsPlanned publisher (given_by asking.now s (Modify receipt sealed.entry)) result) }
    ensures tells { TellsRefusal H.meaning shelf.old shelf.new (λ s. given_by asking.now s (Modify receipt sealed.entry)) result }
{
    looks_follow::<H>();
    let rows = load(shelf, receipt)?;
    let t = asking.time(&rows.clock);
    if let Some(why) = refusal(t, asking.caller, &rows) {
        return Err(why);
    }
    let broken = cant_be_replaced(shelf, &rows.clock, &rows.envelope)?;
    if broken {
        return Err(Refusal::Unavailable);
    }
    let puts = puts(alloc, t, rows, &sealed)?;
    let text = tender_reply(alloc, puts.as_slice(), 2)?;
    Ok(silent(puts, text))
}
