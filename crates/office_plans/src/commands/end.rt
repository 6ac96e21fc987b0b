//! The plan for the end of a contract: its reply, its release and its changes.
ghost use Rattle.std.specs.Prelude.{◌≡◌, ℕ, true, IfErr, IfOk, None, Some};
ghost use Rattle.award_core.specs.Rules.End.{end_rows};
ghost use Rattle.office_commands.specs.Rights.{may};
ghost use Rattle.office_commands.specs.declared.command.CommandKind.TheVariants as kinds;
ghost use Rattle.office_commands.specs.declared.commands.Command.TheVariants.{End};
ghost use Rattle.office_commands.specs.declared.contract.How.{How};
ghost use Rattle.office_base.specs.Shelves.{Looks, LooksUp};
ghost use Rattle.office_base.specs.Tables.{Tables, contract_at};
ghost use Rattle.office_machine.specs.Replies.{release_of_contract};
ghost use Rattle.office_machine.specs.Machine.{refusal_of};
ghost use Rattle.office_plans.specs.Asking.{given_by};
ghost use Rattle.office_plans.specs.Published.{IsPlanned, TellsRefusal, accepted_reply};
ghost use Rattle.office_plans.specs.Released.{IsReleased};
ghost use Rattle.office_plans.specs.Replies.{reply_text};
ghost use Rattle.office_values.specs.declared.refusal.Refusal.TheVariants.{Unavailable};

use crate::outstanding::left_by_end;
use crate::parents::{line_of_lot, lot_of_contract, notice_of_contract};
use crate::planned::Planned;
use crate::published::{Released, make_release, published};
use crate::replies::contract_text;
use award_core::end::{EndRows, places, puts, refusal};
use ocds_release::event::{ContractEnded, Event};
use office_base::counts::Sequence;
use office_base::laws::looks_follow;
use office_base::records::ContractRow;
use office_base::rows::Rows;
use office_base::shelf::{Lookups, ShelfFault};
use office_commands::contract::How;
use office_machine::laws;
use office_values::given::AskedNumber;
use office_values::refusal::Refusal;
use office_values::settings::Publisher;
use std::alloc::Global;
use tender_core::asking::Asking;

// Loads the rows by which the command is decided.
fn load<H: Lookups>(shelf: &mut H, contract: AskedNumber) -> Result<EndRows, ShelfFault>
    ensures { LooksUp H.meaning shelf.old shelf.new result (λ s rows. rows ≡ end_rows s contract) }
{
    let clock = shelf.get_clock()?;
    let row = shelf.get_contract(contract)?;
    let notice = notice_of_contract(shelf, &row)?;
    let lot = lot_of_contract(shelf, &row)?;
    let line = line_of_lot(shelf, &lot)?;
    let entries = Rows::from_vec(shelf.list_entries_of_contract(contract)?);
    let performance = shelf.get_performance(contract)?;
    Ok(EndRows {
        contract: row,
        entries,
        notice,
        line,
        performance,
        clock,
    })
}

// The text of the reply to an accepted end of a contract.
fn reply(
    alloc: Global,
    asking: &Asking,
    rows: &EndRows,
    contract: AskedNumber,
    release: Sequence,
) -> Result<Vec<u8>, Refusal>
    ensures told { IfOk result (λ text. (s : Tables) (how : How) → rows.now ≡ end_rows s contract
        → release ≡ release_of_contract (contract_at contract s) s.notices → refusal_of (given_by asking.now s (End contract how)) ≡ None
        → text.items ≡ reply_text (accepted_reply (given_by asking.now s (End contract how)))) }
    ensures none { IfErr result (λ why. why ≡ Unavailable) }
{
    laws::outstanding();
    let left = left_by_end(rows)?;
    let t = asking.time(&rows.clock);
    let text = contract_text(alloc, contract, left, release, t)?;
    Ok(text)
}

// The release of an accepted end of this contract.
fn release(
    alloc: Global,
    publisher: &Publisher,
    asking: &Asking,
    rows: &EndRows,
    contract: &ContractRow,
) -> Result<Released, Refusal>
    ensures release { IfOk result (λ release. (s : Tables) (number : ℕ) (how : How) → rows.now ≡ end_rows s number
        → rows.now.contract ≡ Some contract.now → IsReleased publisher.now (given_by asking.now s (End number how)) release) }
    ensures none { IfErr result (λ why. why ≡ Unavailable) }
{
    let event = Event::End(ContractEnded {
        notice: contract.notice,
        contract: contract.contract,
    });
    let t = asking.time(&rows.clock);
    make_release(alloc, publisher, contract.notice, &rows.notice, t, &event)
}

/// Plans the end of a contract. A refusal needs no memory except for the rows.
pub fn plan<H: Lookups>(
    alloc: Global,
    shelf: &mut H,
    publisher: &Publisher,
    asking: &Asking,
    contract: AskedNumber,
    how: How,
) -> Result<Planned, Refusal>
    requires { may asking.now.caller.now kinds.End ≡ true }
    ensures looks { Looks H.meaning shelf.old shelf.new (λ s. IsPlanned publisher.now (given_by asking.now s (End contract how)) result) }
    ensures tells { TellsRefusal H.meaning shelf.old shelf.new (λ s. given_by asking.now s (End contract how)) result }
{
    looks_follow::<H>();
    let rows = load(shelf, contract)?;
    let t = asking.time(&rows.clock);
    if let Some(why) = refusal(&rows) {
        return Err(why);
    }
    let row = rows.contract.as_ref().unwrap();
    let release = release(alloc, publisher, asking, &rows, row)?;
    let text = reply(alloc, asking, &rows, contract, release.seq)?;
    let places = places(alloc)?;
    let puts = puts(places, t, rows, how)?;
    published(alloc, shelf, publisher, puts, text, release)
}
