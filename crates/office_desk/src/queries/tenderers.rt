//! A page of the list of tenderers, without their keys.
ghost use Rattle.std.specs.Prelude.{◌≡◌, true, IfOk};
ghost use Rattle.office_commands.specs.Rights.{may_look};
ghost use Rattle.office_commands.specs.declared.command.QueryKind.TheVariants as kinds;
ghost use Rattle.office_commands.specs.declared.queries.Query.TheVariants.{Tenderers};
ghost use Rattle.office_base.specs.Shelves.{Looks};
ghost use Rattle.office_machine.specs.Sights.{listed_tenderer, tenderers_told};
ghost use Rattle.office_plans.specs.Replies.{reply_text};
ghost use Rattle.office_plans.specs.RowMembers.{listed_tenderer_entries};
ghost use Rattle.office_desk.specs.Steps.{IsShown, TellsQuery, read_text};

use json::Writer;
use office_base::pages::{ASKED_ROWS, next_after, page_of};
use office_base::records::TendererRow;
use office_base::shelf::Lookups;
use office_commands::command::Caller;
use office_plans::objects::{Plain, RowObject, rows_text, write_object};
use office_values::id::Id;
use office_values::refusal::Refusal;
use std::alloc::{AllocError, Global};

// Shows a tenderer in the list, with no key and no digest of one.
struct ListedTenderer;

impl RowObject for ListedTenderer {
    type Row = TendererRow;

    ghost members_of = { λ _ row. listed_tenderer_entries (listed_tenderer row) };

    fn write(&self, alloc: Global, out: &mut Writer, row: &TendererRow) -> Result<(), AllocError> {
        let address = row.address.as_str();
        let name = row.name.as_str();
        write_object(
            alloc,
            out,
            &[
                ("address", Plain::Text(address)),
                ("name", Plain::Text(name)),
                ("tenderer", Plain::Id(row.tenderer)),
            ],
        )
    }
}

// The text of a page of tenderers. These rows are the page, and one more if more rows follow.
fn tenderers_text(alloc: Global, rows: &[TendererRow]) -> Result<Vec<u8>, AllocError>
    ensures { IfOk result (λ text. text.items ≡ reply_text (tenderers_told rows.now)) }
{
    let next = next_after(rows);
    let page = page_of(rows);
    rows_text(
        alloc,
        &[("next", Plain::Named(next))],
        "tenderers",
        &ListedTenderer,
        page,
        &[],
    )
}

/// Shows a page of the tenderers to the clerk: the first hundred after this one, or the first hundred of all.
#[tactic(auto, using(crate::proofs::Rising::has_risen))]
pub(crate) fn look<H: Lookups>(
    alloc: Global,
    shelf: &mut H,
    caller: &Caller,
    after: Option<Id>,
) -> Result<Vec<u8>, Refusal>
    requires { may_look caller.now kinds.Tenderers ≡ true }
    ensures looks { Looks H.meaning shelf.old shelf.new (λ s. IsShown caller.now (Tenderers after) s (read_text result)) }
    ensures tells { TellsQuery H.meaning shelf.old shelf.new caller.now (Tenderers after) result }
{
    let rows = shelf.list_tenderers_after(after, ASKED_ROWS)?;
    Ok(tenderers_text(alloc, &rows)?)
}
