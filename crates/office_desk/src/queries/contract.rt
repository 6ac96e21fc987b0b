//! A contract with its entries and its sums.
ghost use Rattle.std.specs.Prelude.{◌≡◌, ◌<◌, true, false, IfOk, IfErr, OnOk, option_map};
ghost use Rattle.office_commands.specs.Rights.{may_look};
ghost use Rattle.office_commands.specs.declared.command.QueryKind.TheVariants as kinds;
ghost use Rattle.office_commands.specs.declared.queries.Query.TheVariants.{Contract};
ghost use Rattle.office_values.specs.Money.{total_limit};
ghost use Rattle.office_values.specs.declared.refusal.Refusal.TheVariants.{Unavailable};
ghost use Rattle.office_base.specs.Joined.{is_overdrawn, outstanding, paid_under};
ghost use Rattle.office_base.specs.Rows.{holds_of};
ghost use Rattle.office_base.specs.Shelves.{Looks};
ghost use Rattle.office_base.specs.Tables.{Tables, contract_at, entries_of_contract};
ghost use Rattle.office_machine.specs.Replies.{ContractSeen};
ghost use Rattle.office_plans.specs.Replies.{reply_text};
ghost use Rattle.office_plans.specs.RowMembers.{entry_entries};
ghost use Rattle.office_desk.specs.Steps.{IsShown, TellsQuery, read_text};

use crate::queries::security::is_by_clerk_or;
use award_core::entries::{is_overdrawn, outstanding, paid};
use json::Writer;
use office_base::laws;
use office_base::records::{ContractRow, EntryRow};
use office_base::shelf::Lookups;
use office_commands::command::Caller;
use office_plans::objects::{Plain, RowObject, rows_text, write_object};
use office_plans::words::{entry_word, how_word};
use office_values::given::AskedNumber;
use office_values::money::Total;
use office_values::refusal::{Refusal, Thing};
use office_values::text::TextLine;
use std::alloc::{AllocError, Global};

// A borrowed text that may be absent.
fn remark_of(line: &Option<TextLine>) -> Option<&str>
    ensures { option_map (λ text. text.now) result ≡ line.now }
{
    match line {
        Some(line) => Some(line.as_str()),
        None => None,
    }
}

// Shows an entry of a contract.
struct ListedEntry;

impl RowObject for ListedEntry {
    type Row = EntryRow;

    ghost members_of = { λ _ row. entry_entries row };

    fn write(&self, alloc: Global, out: &mut Writer, row: &EntryRow) -> Result<(), AllocError> {
        let amount = row.amount.get();
        let word = entry_word(row.kind);
        let rationale = remark_of(&row.rationale);
        write_object(
            alloc,
            out,
            &[
                ("amount", Plain::Number(amount)),
                ("entry", Plain::Id(row.entry)),
                ("kind", Plain::Text(word)),
                ("moment", Plain::Moment(row.moment)),
                ("rationale", Plain::Remark(rationale)),
            ],
        )
    }
}

// The outstanding amount of a contract. `Unavailable` if more went out than came in, or if the amount is above every sum of money. Neither can happen in a
// reached office.
fn left_of(entries: &[EntryRow], row: &ContractRow) -> Result<Total, Refusal>
    ensures sum { IfOk result (λ sum. sum ≡ outstanding entries.now row.now) }
    ensures covered { IfOk result (λ _. is_overdrawn entries.now row.now ≡ false) }
    ensures fault { IfErr result (λ e. (e ≡ Unavailable) × (is_overdrawn entries.now row.now ≡ false → total_limit < outstanding entries.now row.now)) }
{
    if is_overdrawn(entries, row) {
        return Err(Refusal::Unavailable);
    }
    Total::of_sum(outstanding(entries, row)).ok_or(Refusal::Unavailable)
}

// The sum of the payments under a contract. `Unavailable` if it is above every sum of money.
fn paid_of(entries: &[EntryRow], row: &ContractRow) -> Result<Total, Refusal>
    ensures sum { IfOk result (λ sum. sum ≡ paid_under entries.now row.now) }
    ensures fault { IfErr result (λ e. (e ≡ Unavailable) × (total_limit < paid_under entries.now row.now)) }
{
    Total::of_sum(paid(entries, row)).ok_or(Refusal::Unavailable)
}

// The text of a contract.
fn contract_text(
    alloc: Global,
    row: &ContractRow,
    left: Total,
    paid: Total,
    entries: &[EntryRow],
) -> Result<Vec<u8>, AllocError>
    ensures { IfOk result (λ text. text.items ≡ reply_text (ContractSeen row.now left paid entries.now)) }
{
    let number = row.contract.get();
    let how = how_word(row.how);
    rows_text(
        alloc,
        &[
            ("contract", Plain::Number(number)),
            ("ended", Plain::Since(row.ended)),
        ],
        "entries",
        &ListedEntry,
        entries,
        &[
            ("how", Plain::Remark(how)),
            ("lot", Plain::Id(row.lot)),
            ("moment", Plain::Moment(row.moment)),
            ("notice", Plain::Id(row.notice)),
            ("outstanding", Plain::Total(left)),
            ("paid", Plain::Total(paid)),
            ("released", Plain::Total(row.released)),
            ("signed", Plain::Total(row.signed)),
            ("tenderer", Plain::Id(row.tenderer)),
        ],
    )
}

/// Shows a contract with its entries to its tenderer or to the clerk.
#[tactic(auto, using(crate::proofs::Rising::has_risen))]
pub(crate) fn look<H: Lookups>(
    alloc: Global,
    shelf: &mut H,
    caller: &Caller,
    contract: AskedNumber,
) -> Result<Vec<u8>, Refusal>
    requires { may_look caller.now kinds.Contract ≡ true }
    ensures looks { Looks H.meaning shelf.old shelf.new (λ s. IsShown caller.now (Contract contract) s (read_text result)) }
    ensures tells { TellsQuery H.meaning shelf.old shelf.new caller.now (Contract contract) result }
    ensures shown { H.meaning.honest shelf.new → (s : Tables) → H.meaning.holds shelf.old s → OnOk result (holds_of (is_overdrawn (entries_of_contract contract s)) (contract_at contract s) ≡ false) }
{
    laws::looks_follow::<H>();
    let Some(row) = shelf.get_contract(contract)? else {
        return Err(Refusal::NoSuch(Thing::Contract));
    };
    if !is_by_clerk_or(caller, &row.tenderer) {
        return Err(Refusal::NotYourTender);
    }
    let entries = shelf.list_entries_of_contract(contract)?;
    let left = left_of(&entries, &row)?;
    let paid = paid_of(&entries, &row)?;
    Ok(contract_text(alloc, &row, left, paid, &entries)?)
}
