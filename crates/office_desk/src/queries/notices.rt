//! A page of the list of notices.
ghost use Rattle.std.specs.Prelude.{◌≡◌, true, IfOk};
ghost use Rattle.office_commands.specs.Rights.{may_look};
ghost use Rattle.office_commands.specs.declared.command.QueryKind.TheVariants as kinds;
ghost use Rattle.office_commands.specs.declared.queries.Query.TheVariants.{Notices};
ghost use Rattle.office_base.specs.Shelves.{Looks};
ghost use Rattle.office_machine.specs.Sights.{notices_told};
ghost use Rattle.office_plans.specs.Replies.{reply_text};
ghost use Rattle.office_plans.specs.RowMembers.{notice_entries};
ghost use Rattle.office_desk.specs.Steps.{IsShown, TellsQuery, read_text};

use json::Writer;
use office_base::pages::{ASKED_ROWS, next_after, page_of};
use office_base::records::NoticeRow;
use office_base::shelf::Lookups;
use office_commands::command::Caller;
use office_plans::objects::{Plain, RowObject, rows_text, write_object};
use office_values::id::Id;
use office_values::refusal::Refusal;
use std::alloc::{AllocError, Global};
use tender_papers::listing::notice_word;

// Shows a notice in the list.
struct ListedNotice;

impl RowObject for ListedNotice {
    type Row = NoticeRow;

    ghost members_of = { λ _ row. notice_entries row };

    fn write(&self, alloc: Global, out: &mut Writer, row: &NoticeRow) -> Result<(), AllocError> {
        let amendments = row.amendments.get();
        let releases = row.releases.get();
        let word = notice_word(row.state);
        let title = row.title.as_str();
        write_object(
            alloc,
            out,
            &[
                ("amendments", Plain::Number(amendments)),
                ("deadline", Plain::Moment(row.deadline)),
                ("notice", Plain::Id(row.notice)),
                ("opened", Plain::Since(row.opened)),
                ("published", Plain::Moment(row.published)),
                ("releases", Plain::Number(releases)),
                ("state", Plain::Text(word)),
                ("title", Plain::Text(title)),
            ],
        )
    }
}

// The text of a page of notices. These rows are the page, and one more if more rows follow.
fn notices_text(alloc: Global, rows: &[NoticeRow]) -> Result<Vec<u8>, AllocError>
    ensures { IfOk result (λ text. text.items ≡ reply_text (notices_told rows.now)) }
{
    let next = next_after(rows);
    let page = page_of(rows);
    rows_text(
        alloc,
        &[("next", Plain::Named(next))],
        "notices",
        &ListedNotice,
        page,
        &[],
    )
}

/// Shows a page of the notices: the first hundred after this one, or the first hundred of all.
#[tactic(auto, using(crate::proofs::Rising::has_risen))]
pub(crate) fn look<H: Lookups>(
    alloc: Global,
    shelf: &mut H,
    caller: &Caller,
    after: Option<Id>,
) -> Result<Vec<u8>, Refusal>
    requires { may_look caller.now kinds.Notices ≡ true }
    ensures looks { Looks H.meaning shelf.old shelf.new (λ s. IsShown caller.now (Notices after) s (read_text result)) }
    ensures tells { TellsQuery H.meaning shelf.old shelf.new caller.now (Notices after) result }
{
    let rows = shelf.list_notices_after(after, ASKED_ROWS)?;
    Ok(notices_text(alloc, &rows)?)
}
