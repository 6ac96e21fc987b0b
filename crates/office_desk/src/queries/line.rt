//! The query for a budget line.
ghost use Rattle.std.specs.Prelude.{◌≡◌, true, IfOk, OnOk};
ghost use Rattle.office_commands.specs.Rights.{may_look};
ghost use Rattle.office_commands.specs.declared.command.QueryKind.TheVariants as kinds;
ghost use Rattle.office_commands.specs.declared.queries.Query.TheVariants.{Line};
ghost use Rattle.office_base.specs.Shelves.{Looks};
ghost use Rattle.office_base.specs.Tables.{Tables};
ghost use Rattle.office_machine.specs.Replies.{LineSeen};
ghost use Rattle.office_plans.specs.Replies.{reply_text};
ghost use Rattle.office_desk.specs.Balances.{LineAddsUp};
ghost use Rattle.office_desk.specs.Steps.{IsShown, TellsQuery, read_text};

use crate::balances::pots_add_up;
use office_base::laws;
use office_base::ledger::Pots;
use office_base::pots::pots_of_line;
use office_base::records::LineRow;
use office_base::shelf::Lookups;
use office_commands::command::Caller;
use office_plans::objects::{Plain, object_text};
use office_values::id::Id;
use office_values::refusal::{Refusal, Thing};
use std::alloc::{AllocError, Global};

// The text of a budget line, in JSON.
fn line_text(alloc: Global, row: &LineRow, pots: &Pots) -> Result<Vec<u8>, AllocError>
    ensures { IfOk result (λ text. text.items ≡ reply_text (LineSeen row.now.line row.now.title pots.now)) }
{
    let title = row.title.as_str();
    object_text(
        alloc,
        &[
            ("appropriation", Plain::Total(pots.appropriation)),
            ("contracted", Plain::Total(pots.contracted)),
            ("free", Plain::Total(pots.free)),
            ("line", Plain::Id(row.line)),
            ("paid", Plain::Total(pots.paid)),
            ("reserved", Plain::Total(pots.reserved)),
            ("title", Plain::Text(title)),
        ],
    )
}

/// Shows a budget line with its balances. A sum out of range is answered like a fault of the store, and so is a line whose balances don't add up.
#[tactic(auto, using(crate::proofs::Rising::has_risen))]
pub(crate) fn look<H: Lookups>(
    alloc: Global,
    shelf: &mut H,
    caller: &Caller,
    line: Id,
) -> Result<Vec<u8>, Refusal>
    requires { may_look caller.now kinds.Line ≡ true }
    ensures looks { Looks H.meaning shelf.old shelf.new (λ s. IsShown caller.now (Line line) s (read_text result)) }
    ensures tells { TellsQuery H.meaning shelf.old shelf.new caller.now (Line line) result }
    ensures shown { H.meaning.honest shelf.new → (s : Tables) → H.meaning.holds shelf.old s → OnOk result (LineAddsUp line s) }
{
    laws::looks_follow::<H>();
    let Some(row) = shelf.get_line(&line)? else {
        return Err(Refusal::NoSuch(Thing::Line));
    };
    let pots = pots_of_line(shelf, &row)?;
    if !pots_add_up(&pots) {
        return Err(Refusal::Unavailable);
    }
    Ok(line_text(alloc, &row, &pots)?)
}
