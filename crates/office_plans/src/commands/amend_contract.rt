//! The plan for a change of a contract: its reply, its release and its changes.
ghost use Rattle.std.specs.Prelude.{◌≡◌, ℕ, List, true, IfErr, IfOk, None, Some};
ghost use Rattle.award_core.specs.Rules.AmendContract.{amend_contract_rows};
ghost use Rattle.office_commands.specs.Rights.{may};
ghost use Rattle.office_commands.specs.declared.command.CommandKind.TheVariants as kinds;
ghost use Rattle.office_commands.specs.declared.commands.Command.TheVariants.{AmendContract};
ghost use Rattle.office_base.specs.Shelves.{Looks, LooksUp};
ghost use Rattle.office_base.specs.Tables.{Tables, contract_at};
ghost use Rattle.office_machine.specs.Replies.{release_of_contract};
ghost use Rattle.office_machine.specs.Machine.{refusal_of};
ghost use Rattle.office_plans.specs.Asking.{given_by};
ghost use Rattle.office_plans.specs.Published.{IsPlanned, TellsRefusal, accepted_reply};
ghost use Rattle.office_plans.specs.Released.{IsReleased};
ghost use Rattle.office_plans.specs.Replies.{reply_text};
ghost use Rattle.office_values.specs.declared.refusal.Refusal.TheVariants.{Unavailable};

use crate::outstanding::left_by_change;
use crate::parents::{line_of_lot, lot_of_contract, notice_of_contract};
use crate::planned::Planned;
use crate::published::{Released, make_release, published};
use crate::replies::contract_text;
use award_core::amend_contract::{AmendContractRows, places, puts, refusal};
use ocds_release::borrowed::BorrowedLine;
use ocds_release::event::{ContractAmended, Event};
use office_base::counts::Sequence;
use office_base::laws::{looks_follow, rows_are_kept};
use office_base::records::ContractRow;
use office_base::rows::Rows;
use office_base::shelf::{Lookups, ShelfFault};
use office_commands::amounts::EntryAmount;
use office_commands::contract::ChangeKind;
use office_machine::laws;
use office_publications::worth::contract_value_after;
use office_values::given::AskedNumber;
use office_values::id::Id;
use office_values::refusal::Refusal;
use office_values::settings::Publisher;
use office_values::text::TextLine;
use std::alloc::Global;
use tender_core::asking::Asking;

// Loads the rows by which the command is decided.
fn load<H: Lookups>(shelf: &mut H, contract: AskedNumber) -> Result<AmendContractRows, ShelfFault>
    ensures { LooksUp H.meaning shelf.old shelf.new result (λ s rows. rows ≡ amend_contract_rows s contract) }
{
    let clock = shelf.get_clock()?;
    let row = shelf.get_contract(contract)?;
    let notice = notice_of_contract(shelf, &row)?;
    let lot = lot_of_contract(shelf, &row)?;
    let line = line_of_lot(shelf, &lot)?;
    let entries = Rows::from_vec(shelf.list_entries_of_contract(contract)?);
    Ok(AmendContractRows {
        contract: row,
        entries,
        notice,
        line,
        clock,
    })
}

// The text of the reply to an accepted change of a contract.
fn reply(
    alloc: Global,
    asking: &Asking,
    rows: &AmendContractRows,
    contract: AskedNumber,
    kind: ChangeKind,
    amount: EntryAmount,
    release: Sequence,
) -> Result<Vec<u8>, Refusal>
    ensures told { IfOk result (λ text. (s : Tables) (entry rationale : List ℕ) → rows.now ≡ amend_contract_rows s contract
        → release ≡ release_of_contract (contract_at contract s) s.notices → refusal_of (given_by asking.now s (AmendContract contract entry kind amount rationale)) ≡ None
        → text.items ≡ reply_text (accepted_reply (given_by asking.now s (AmendContract contract entry kind amount rationale)))) }
    ensures none { IfErr result (λ why. why ≡ Unavailable) }
{
    laws::outstanding();
    let left = left_by_change(rows, kind, amount)?;
    let t = asking.time(&rows.clock);
    let text = contract_text(alloc, contract, left, release, t)?;
    Ok(text)
}

// The release of an accepted change of this contract. `Unavailable` also if the contract would be worth more than 10^15, which a reached office never allows.
fn release(
    alloc: Global,
    publisher: &Publisher,
    asking: &Asking,
    rows: &AmendContractRows,
    contract: &ContractRow,
    entry: Id,
    kind: ChangeKind,
    amount: EntryAmount,
    rationale: &TextLine,
) -> Result<Released, Refusal>
    ensures release { IfOk result (λ release. (s : Tables) (number : ℕ) → rows.now ≡ amend_contract_rows s number → rows.now.contract ≡ Some contract.now
        → IsReleased publisher.now (given_by asking.now s (AmendContract number entry kind amount rationale.now)) release) }
    ensures none { IfErr result (λ why. why ≡ Unavailable) }
{
    rows_are_kept::<ContractRow>();
    let Some(value) = contract_value_after(rows.entries.as_slice(), contract, kind, amount) else {
        return Err(Refusal::Unavailable);
    };
    let rationale = BorrowedLine::of(rationale);
    let event = Event::AmendContract(ContractAmended {
        notice: contract.notice,
        contract: contract.contract,
        entry,
        kind,
        amount,
        value,
        rationale,
    });
    let t = asking.time(&rows.clock);
    make_release(alloc, publisher, contract.notice, &rows.notice, t, &event)
}

/// Plans a change of a contract. A refusal needs no memory except for the rows.
pub fn plan<H: Lookups>(
    alloc: Global,
    shelf: &mut H,
    publisher: &Publisher,
    asking: &Asking,
    contract: AskedNumber,
    entry: Id,
    kind: ChangeKind,
    amount: EntryAmount,
    rationale: TextLine,
) -> Result<Planned, Refusal>
    requires { may asking.now.caller.now kinds.AmendContract ≡ true }
    ensures looks { Looks H.meaning shelf.old shelf.new (λ s.
        IsPlanned publisher.now (given_by asking.now s (AmendContract contract entry kind amount rationale)) result) }
    ensures tells { TellsRefusal H.meaning shelf.old shelf.new (λ s. given_by asking.now s (AmendContract contract entry kind amount rationale)) result }
{
    looks_follow::<H>();
    let rows = load(shelf, contract)?;
    let t = asking.time(&rows.clock);
    if let Some(why) = refusal(&rows, &entry, kind, amount) {
        return Err(why);
    }
    let row = rows.contract.as_ref().unwrap();
    let release = release(
        alloc, publisher, asking, &rows, row, entry, kind, amount, &rationale,
    )?;
    let text = reply(alloc, asking, &rows, contract, kind, amount, release.seq)?;
    let places = places(alloc)?;
    let puts = puts(places, t, rows, entry, kind, amount, rationale)?;
    published(alloc, shelf, publisher, puts, text, release)
}
