//! The plan for a payment: its reply, its release and its changes.
ghost use Rattle.std.specs.Prelude.{◌≡◌, ℕ, List, true, IfErr, IfOk, None, Some};
ghost use Rattle.office_commands.specs.Rights.{may};
ghost use Rattle.office_commands.specs.declared.command.CommandKind.TheVariants as kinds;
ghost use Rattle.office_commands.specs.declared.commands.Command.TheVariants.{Pay};
ghost use Rattle.office_base.specs.Shelves.{Looks, LooksUp};
ghost use Rattle.office_base.specs.Tables.{Tables, contract_at};
ghost use Rattle.office_machine.specs.Replies.{release_of_contract};
ghost use Rattle.office_machine.specs.Machine.{refusal_of};
ghost use Rattle.office_values.specs.declared.refusal.Refusal.TheVariants.{Unavailable};
ghost use Rattle.office_plans.specs.Asking.{given_by};
ghost use Rattle.office_plans.specs.Published.{IsPlanned, TellsRefusal, accepted_reply};
ghost use Rattle.office_plans.specs.Released.{IsReleased};
ghost use Rattle.office_plans.specs.Replies.{reply_text};
ghost use Rattle.award_core.specs.Rules.Pay.{pay_rows};

use crate::events::party_of;
use crate::outstanding::left_by_payment;
use crate::parents::notice_of_contract;
use crate::planned::Planned;
use crate::published::{Released, make_release, published};
use crate::replies::contract_text;
use award_core::pay::{PayRows, places, puts, refusal};
use ocds_release::event::{Event, Paid};
use office_base::counts::Sequence;
use office_base::laws::looks_follow;
use office_base::records::ContractRow;
use office_base::rows::Rows;
use office_base::shelf::{Lookups, ShelfFault};
use office_commands::amounts::EntryAmount;
use office_machine::laws;
use office_values::given::AskedNumber;
use office_values::id::Id;
use office_values::refusal::Refusal;
use office_values::settings::Publisher;
use std::alloc::Global;
use tender_core::asking::Asking;

// Loads the rows by which the command is decided.
fn load<H: Lookups>(shelf: &mut H, contract: AskedNumber) -> Result<PayRows, ShelfFault>
    ensures { LooksUp H.meaning shelf.old shelf.new result (λ s rows. rows ≡ pay_rows s contract) }
{
    let clock = shelf.get_clock()?;
    let row = shelf.get_contract(contract)?;
    let notice = notice_of_contract(shelf, &row)?;
    let entries = Rows::from_vec(shelf.list_entries_of_contract(contract)?);
    Ok(PayRows {
        contract: row,
        entries,
        notice,
        clock,
    })
}

// The text of the reply to an accepted payment.
fn reply(
    alloc: Global,
    asking: &Asking,
    rows: &PayRows,
    contract: AskedNumber,
    amount: EntryAmount,
    release: Sequence,
) -> Result<Vec<u8>, Refusal>
    ensures told { IfOk result (λ text. (s : Tables) (entry : List ℕ) → rows.now ≡ pay_rows s contract
        → release ≡ release_of_contract (contract_at contract s) s.notices → refusal_of (given_by asking.now s (Pay contract entry amount)) ≡ None
        → text.items ≡ reply_text (accepted_reply (given_by asking.now s (Pay contract entry amount)))) }
    ensures none { IfErr result (λ why. why ≡ Unavailable) }
{
    laws::outstanding();
    let left = left_by_payment(rows, amount)?;
    let t = asking.time(&rows.clock);
    let text = contract_text(alloc, contract, left, release, t)?;
    Ok(text)
}

// The release of an accepted payment under this contract. `Unavailable` also if the row of the contract's tenderer is missing, which can't happen in a reached
// office.
fn release<H: Lookups>(
    alloc: Global,
    shelf: &mut H,
    publisher: &Publisher,
    asking: &Asking,
    rows: &PayRows,
    contract: &ContractRow,
    entry: Id,
    amount: EntryAmount,
) -> Result<Released, Refusal>
    ensures looks { Looks H.meaning shelf.old shelf.new (λ s. IfOk result (λ release. (number : ℕ) → rows.now ≡ pay_rows s number
        → rows.now.contract ≡ Some contract.now → IsReleased publisher.now (given_by asking.now s (Pay number entry amount)) release)) }
    ensures none { IfErr result (λ why. why ≡ Unavailable) }
{
    let tenderer = shelf.get_tenderer(&contract.tenderer)?;
    let Some(payee) = party_of(contract.tenderer, &tenderer) else {
        return Err(Refusal::Unavailable);
    };
    let event = Event::Pay(Paid {
        notice: contract.notice,
        contract: contract.contract,
        entry,
        amount,
        payee,
    });
    let t = asking.time(&rows.clock);
    make_release(alloc, publisher, contract.notice, &rows.notice, t, &event)
}

/// Plans a payment under a contract. A refusal needs no memory except for the rows.
pub fn plan<H: Lookups>(
    alloc: Global,
    shelf: &mut H,
    publisher: &Publisher,
    asking: &Asking,
    contract: AskedNumber,
    entry: Id,
    amount: EntryAmount,
) -> Result<Planned, Refusal>
    requires { may asking.now.caller.now kinds.Pay ≡ true }
    ensures looks { Looks H.meaning shelf.old shelf.new (λ s. IsPlanned publisher.now (given_by asking.now s (Pay contract entry amount)) result) }
    ensures tells { TellsRefusal H.meaning shelf.old shelf.new (λ s. given_by asking.now s (Pay contract entry amount)) result }
{
    looks_follow::<H>();
    let rows = load(shelf, contract)?;
    let t = asking.time(&rows.clock);
    if let Some(why) = refusal(&rows, &entry, amount) {
        return Err(why);
    }
    let row = rows.contract.as_ref().unwrap();
    let release = release(alloc, shelf, publisher, asking, &rows, row, entry, amount)?;
    let text = reply(alloc, asking, &rows, contract, amount, release.seq)?;
    let places = places(alloc)?;
    let puts = puts(places, t, rows, entry, amount)?;
    published(alloc, shelf, publisher, puts, text, release)
}
