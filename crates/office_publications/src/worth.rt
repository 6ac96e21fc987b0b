//! The value of a contract after it is raised or cut.
ghost use Rattle.std.specs.Prelude.{◌≡◌, ◌<◌, ◌^◌, IfSome, IfNone};
ghost use Rattle.office_values.specs.Money.{total_limit};
ghost use Rattle.office_base.specs.Joined.{entry_sum};
ghost use Rattle.office_publications.specs.Worth.{is_contract_cut, contract_value_after};

use award_core::entries::{is_of, raised};
use office_base::records::{ContractRow, EntryKind, EntryRow};
use office_commands::amounts::EntryAmount;
use office_commands::contract::ChangeKind;
use office_values::given::GivenNumber;
use office_values::money::Total;

// The amount by which the entries of the contract cut it.
fn cut(entries: &[EntryRow], contract: GivenNumber) -> u128
    ensures sum { result ≡ entry_sum is_contract_cut entries.now contract }
    ensures small { result < 2 ^ 110 }
{
    let mut sum = 0;
    for entry in entries {
        if entry.kind == EntryKind::Cut && is_of(entry, contract) {
            sum += entry.amount.get() as u128;
        }
    }
    sum
}

/// The value of the contract after it is raised or cut by this amount: the signed amount and the raises, less the cuts. None exactly if it is above 10^15,
/// which no contract has that commands made.
pub fn contract_value_after(
    entries: &[EntryRow],
    contract: &ContractRow,
    kind: ChangeKind,
    amount: EntryAmount,
) -> Option<Total>
    ensures found { IfSome result (λ worth. worth ≡ contract_value_after entries.now contract.now kind amount) }
    ensures none { IfNone result (total_limit < contract_value_after entries.now contract.now kind amount) }
{
    let (more, less) = match kind {
        ChangeKind::Raise => (amount.get() as u128, 0),
        ChangeKind::Cut => (0, amount.get() as u128),
    };
    let came = contract.signed.units() as u128 + raised(entries, contract.contract) + more;
    let gone = cut(entries, contract.contract) + less;
    Total::of_sum(came.saturating_sub(gone))
}
