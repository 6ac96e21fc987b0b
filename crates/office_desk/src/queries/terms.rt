//! The terms of a notice, and its lots.
ghost use Rattle.std.specs.Prelude.{◌≡◌, true, IfOk};
ghost use Rattle.office_commands.specs.Rights.{may_look};
ghost use Rattle.office_commands.specs.declared.command.QueryKind.TheVariants as kinds;
ghost use Rattle.office_commands.specs.declared.queries.Query.TheVariants.{Terms};
ghost use Rattle.office_base.specs.Shelves.{Looks};
ghost use Rattle.office_machine.specs.Replies.{TermsSeen};
ghost use Rattle.office_plans.specs.Replies.{reply_text};
ghost use Rattle.office_plans.specs.RowMembers.{criteria_word, item_entries, late_word, lot_entries, weight_told};
ghost use Rattle.office_desk.specs.Steps.{IsShown, TellsQuery, read_text};

use json::Writer;
use office_base::records::{LotRow, NoticeRow};
use office_base::shelf::Lookups;
use office_commands::command::Caller;
use office_commands::item::Item;
use office_commands::notice::Weight;
use office_plans::objects::{Plain, RowObject, rows_text, write_object, write_with_rows};
use office_values::id::Id;
use office_values::refusal::{Refusal, Thing};
use std::alloc::{AllocError, Global};
use tender_papers::evaluation::lot_word;
use tender_papers::listing::notice_word;

// Shows an item of a lot.
struct ListedItem;

impl RowObject for ListedItem {
    type Row = Item;

    ghost members_of = { λ _ row. item_entries row };

    fn write(&self, alloc: Global, out: &mut Writer, row: &Item) -> Result<(), AllocError> {
        let quantity = row.quantity.get();
        let title = row.title.as_str();
        write_object(
            alloc,
            out,
            &[
                ("id", Plain::Id(row.id)),
                ("quantity", Plain::Number(quantity)),
                ("title", Plain::Text(title)),
            ],
        )
    }
}

// Shows a lot with its items.
struct ListedLot;

impl RowObject for ListedLot {
    type Row = LotRow;

    ghost members_of = { λ _ row. lot_entries row };

    fn write(&self, alloc: Global, out: &mut Writer, row: &LotRow) -> Result<(), AllocError> {
        let estimate = row.estimate.get();
        let security = row.security.units();
        let word = lot_word(row.state);
        let title = row.title.as_str();
        let items = row.items.as_slice();
        write_with_rows(
            alloc,
            out,
            &[
                ("estimate", Plain::Number(estimate)),
                ("id", Plain::Id(row.lot)),
            ],
            "items",
            &ListedItem,
            items,
            &[
                ("line", Plain::Id(row.line)),
                ("security", Plain::Number(security)),
                ("state", Plain::Text(word)),
                ("title", Plain::Text(title)),
            ],
        )
    }
}

// The word for the criteria: `price` if the weight is 0, so that the price alone decides, and otherwise `points`.
fn criteria_word(weight: Weight) -> &'static str
    ensures { result.now ≡ criteria_word weight }
{
    if weight.get() == 0 { "price" } else { "points" }
}

// The weight of the price, or none if the price alone decides.
fn weight_told(weight: Weight) -> Option<u64>
    ensures { result ≡ weight_told weight }
{
    if weight.get() == 0 {
        None
    } else {
        Some(weight.get())
    }
}

// The word for a tender that is withdrawn after the deadline: `forfeits` or `refused`.
fn late_word(late: bool) -> &'static str
    ensures { result.now ≡ late_word late }
{
    if late { "forfeits" } else { "refused" }
}

// The text of the terms.
fn terms_text(
    alloc: Global,
    row: &NoticeRow,
    late: bool,
    lots: &[LotRow],
) -> Result<Vec<u8>, AllocError>
    ensures { IfOk result (λ text. text.items ≡ reply_text (TermsSeen row.now late lots.now)) }
{
    let criteria = criteria_word(row.weight);
    let withdrawal = late_word(late);
    let performance = row.performance.units();
    let weight = weight_told(row.weight);
    let standstill = row.standstill.get();
    let word = notice_word(row.state);
    let title = row.title.as_str();
    let validity = row.validity.get();
    rows_text(
        alloc,
        &[
            ("criteria", Plain::Text(criteria)),
            ("deadline", Plain::Moment(row.deadline)),
            ("late_withdrawal", Plain::Text(withdrawal)),
        ],
        "lots",
        &ListedLot,
        lots,
        &[
            ("notice", Plain::Id(row.notice)),
            ("opened", Plain::Since(row.opened)),
            ("performance", Plain::Number(performance)),
            ("price_weight", Plain::Count(weight)),
            ("published", Plain::Moment(row.published)),
            ("standstill_days", Plain::Number(standstill)),
            ("state", Plain::Text(word)),
            ("title", Plain::Text(title)),
            ("validity_days", Plain::Number(validity)),
        ],
    )
}

/// Shows the terms of a notice, which bind anyone who submits a tender, with its lots (UNCITRAL Model Law 2011, article 39).
#[tactic(auto, using(crate::proofs::Rising::has_risen))]
pub(crate) fn look<H: Lookups>(
    alloc: Global,
    shelf: &mut H,
    caller: &Caller,
    notice: Id,
) -> Result<Vec<u8>, Refusal>
    requires { may_look caller.now kinds.Terms ≡ true }
    ensures looks { Looks H.meaning shelf.old shelf.new (λ s. IsShown caller.now (Terms notice) s (read_text result)) }
    ensures tells { TellsQuery H.meaning shelf.old shelf.new caller.now (Terms notice) result }
{
    let Some(row) = shelf.get_notice(&notice)? else {
        return Err(Refusal::NoSuch(Thing::Notice));
    };
    let late = shelf.get_late(&notice)?.is_some();
    let lots = shelf.list_lots_of_notice(&notice)?;
    Ok(terms_text(alloc, &row, late, &lots)?)
}
