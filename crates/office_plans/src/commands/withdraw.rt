//! The plan for a withdrawal of a tender: its reply and its changes.
ghost use Rattle.std.specs.Prelude.{◌≡◌, IfOk, true};
ghost use Rattle.office_commands.specs.Rights.{may};
ghost use Rattle.office_commands.specs.declared.command.CommandKind.TheVariants as kinds;
ghost use Rattle.office_commands.specs.declared.commands.Command.TheVariants.{Withdraw};
ghost use Rattle.office_base.specs.Transitions.{is_late};
ghost use Rattle.office_base.specs.Shelves.{Looks, LooksUp};
ghost use Rattle.office_machine.specs.Replies.{Withdrew, state_after};
ghost use Rattle.office_plans.specs.Asking.{given_by};
ghost use Rattle.office_plans.specs.Published.{IsPlanned, TellsRefusal};
ghost use Rattle.office_plans.specs.Replies.{reply_text};
ghost use Rattle.office_values.specs.declared.settings.Publisher.{Publisher};
ghost use Rattle.tender_core.specs.Rules.Withdraw.{withdraw_rows};

use crate::objects::{Plain, object_text};
use crate::orphans::lacks_seal;
use crate::parents::{late_of_envelope, lot_of_envelope, notice_of_envelope, security_of_envelope};
use crate::planned::Planned;
use crate::published::silent;
use crate::words::state_word;
use office_base::laws::looks_follow;
use office_base::records::{EnvelopeRow, EnvelopeState};
use office_base::shelf::{Lookups, ShelfFault};
use office_values::given::AskedNumber;
use office_values::moment::Moment;
use office_values::refusal::Refusal;
use std::alloc::{AllocError, Global};
use tender_core::asking::Asking;
use tender_core::tenders::is_late;
use tender_core::withdraw::{WithdrawRows, places, puts, refusal};

// Loads the rows by which the command is decided.
fn load<H: Lookups>(shelf: &mut H, receipt: AskedNumber) -> Result<WithdrawRows, ShelfFault>
    ensures { LooksUp H.meaning shelf.old shelf.new result (λ s rows. rows ≡ withdraw_rows s receipt) }
{
    let clock = shelf.get_clock()?;
    let envelope = shelf.get_envelope(receipt)?;
    let notice = notice_of_envelope(shelf, &envelope)?;
    let lot = lot_of_envelope(shelf, &envelope)?;
    let late = late_of_envelope(shelf, &envelope)?;
    let security = security_of_envelope(shelf, &envelope)?;
    Ok(WithdrawRows {
        envelope,
        notice,
        lot,
        late,
        security,
        clock,
    })
}

// The state of a tender after its withdrawal. From the deadline on it keeps its state.
fn state_after(late: bool, envelope: &Option<EnvelopeRow>) -> EnvelopeState
    ensures { result ≡ state_after late envelope.now }
{
    if late {
        match envelope {
            Some(row) => row.state,
            None => EnvelopeState::Withdrawn,
        }
    } else {
        EnvelopeState::Withdrawn
    }
}

// The text that says that a tender was withdrawn, and which state it has now.
fn withdrew_text(
    alloc: Global,
    receipt: AskedNumber,
    state: EnvelopeState,
    moment: Moment,
) -> Result<Vec<u8>, AllocError>
    ensures { IfOk result (λ text. text.items ≡ reply_text (Withdrew receipt state moment)) }
{
    let receipt = receipt.get();
    let word = state_word(state);
    object_text(
        alloc,
        &[
            ("moment", Plain::Moment(moment)),
            ("receipt", Plain::Number(receipt)),
            ("state", Plain::Text(word)),
        ],
    )
}

// The text of the reply to an accepted withdrawal.
fn reply(
    alloc: Global,
    t: Moment,
    rows: &WithdrawRows,
    receipt: AskedNumber,
) -> Result<Vec<u8>, AllocError>
    ensures { IfOk result (λ text. text.items
        ≡ reply_text (Withdrew receipt (state_after (is_late rows.now.late t rows.now.notice) rows.now.envelope) t)) }
{
    let late = is_late(&rows.late, t, &rows.notice);
    let state = state_after(late, &rows.envelope);
    withdrew_text(alloc, receipt, state, t)
}

/// Plans a withdrawal of a tender. Before the deadline its security is returned. From then on, if the notice allows a withdrawal, the tender can't win any more
/// and its security is forfeited. A refusal needs no memory except for the rows.
pub fn plan<H: Lookups>(
    alloc: Global,
    shelf: &mut H,
    asking: &Asking,
    receipt: AskedNumber,
) -> Result<Planned, Refusal>
    requires { may asking.now.caller.now kinds.Withdraw ≡ true }
    ensures looks { (publisher : Publisher) → Looks H.meaning shelf.old shelf.new (λ s. IsPlanned publisher (given_by asking.now s (Withdraw receipt)) result) }
    ensures tells { TellsRefusal H.meaning shelf.old shelf.new (λ s. given_by asking.now s (Withdraw receipt)) result }
{
    looks_follow::<H>();
    let rows = load(shelf, receipt)?;
    let t = asking.time(&rows.clock);
    if let Some(why) = refusal(t, asking.caller, &rows) {
        return Err(why);
    }
    let broken = lacks_seal(shelf, &rows.envelope)?;
    if broken {
        return Err(Refusal::Unavailable);
    }
    let text = reply(alloc, t, &rows, receipt)?;
    let places = places(alloc)?;
    let puts = puts(places, t, rows)?;
    Ok(silent(puts, text))
}
