//! The evaluation of a notice: the office's findings about each tender, and its decisions.
ghost use Rattle.std.specs.Prelude.{◌≡◌, ◌||◌, ◌++◌, true, None, IfOk, IfErr, map};
ghost use Rattle.std.specs.List.{flat_map, list_any};
ghost use Rattle.office_commands.specs.Rights.{is_clerk, may_look};
ghost use Rattle.office_commands.specs.declared.command.QueryKind.TheVariants as kinds;
ghost use Rattle.office_commands.specs.declared.queries.Query.TheVariants.{Evaluation};
ghost use Rattle.office_values.specs.declared.refusal.Refusal.TheVariants.{Unavailable};
ghost use Rattle.office_base.specs.Shelves.{Looks};
ghost use Rattle.office_machine.specs.Evaluation.{awards_of_lot, evaluated_lot, evaluated_tender, evaluated_tenders, has_outcome, is_award_of, points_told};
ghost use Rattle.office_plans.specs.Replies.{evaluated_lines, finding_of};
ghost use Rattle.office_desk.specs.Steps.{IsShown, TellsQuery, read_text};
ghost use Rattle.tender_papers.specs.Evaluation.{award_line, finding_line};

use award_core::best::{is_admissible, lowest, points};
use office_base::laws;
use office_base::records::{AwardRow, EnvelopeRow, EnvelopeState, LotRow, LotState, NoticeState};
use office_base::shelf::Lookups;
use office_commands::command::Caller;
use office_commands::notice::Weight;
use office_values::id::Id;
use office_values::money::Amount;
use office_values::refusal::{Refusal, Thing};
use std::alloc::{AllocError, Global};
use tender_papers::evaluation::{EvaluationText, Finding};

// The thousandths of points of an admissible tender, measured against this lowest price. None if the price alone decides.
fn points_told(weight: Weight, lowest: Amount, row: &EnvelopeRow) -> Option<u64>
    ensures { result ≡ points_told weight lowest row.now }
{
    if weight.get() != 0 && is_admissible(row) {
        Some(points(weight, lowest, row))
    } else {
        None
    }
}

// The findings about an opened tender. `Unavailable` if it wasn't read, which can't happen in a reached office.
fn finding_of(weight: Weight, lowest: Amount, row: &EnvelopeRow) -> Result<Finding, Refusal>
    ensures found { IfOk result (λ finding. finding ≡ finding_of (evaluated_tender weight lowest row.now)) }
    ensures fault { IfErr result (λ e. (e ≡ Unavailable) × (row.now.reading ≡ None)) }
{
    let Some(reading) = row.reading else {
        return Err(Refusal::Unavailable);
    };
    Ok(Finding {
        receipt: row.receipt,
        tenderer: row.tenderer,
        reading,
        responsive: row.responsive,
        quality: row.quality,
        points: points_told(weight, lowest, row),
        admissible: is_admissible(row),
        failed: row.failed,
    })
}

// Adds a line for each opened tender of a lot.
fn put_tenders(
    text: &mut EvaluationText,
    weight: Weight,
    rows: &[EnvelopeRow],
) -> Result<(), Refusal>
    ensures text { IfOk result (λ _. text.new ≡ text.old ++ flat_map finding_line (map finding_of (evaluated_tenders weight rows.now))) }
    ensures fault { IfErr result (λ e. e ≡ Unavailable) }
{
    let lowest = lowest(rows);
    for row in rows {
        if row.state == EnvelopeState::Opened {
            text.put_tender(&finding_of(weight, lowest, row)?)?;
        }
    }
    Ok(())
}

// Adds a line for each of these awards that is of this lot.
fn put_awards(text: &mut EvaluationText, lot: Id, awards: &[AwardRow]) -> Result<(), AllocError>
    ensures { IfOk result (λ _. text.new ≡ text.old ++ flat_map award_line (awards_of_lot lot awards.now)) }
{
    for award in awards {
        if award.lot == lot {
            text.put_award(award)?;
        }
    }
    Ok(())
}

// Whether one of these awards is of the lot.
fn has_award(awards: &[AwardRow], lot: &Id) -> bool
    ensures { result ≡ list_any (is_award_of lot.now) awards.now }
{
    awards.iter().any(|award| award.lot == *lot)
}

// Whether the lot has an outcome.
fn has_outcome(awards: &[AwardRow], lot: &LotRow) -> bool
    ensures { result ≡ has_outcome awards.now lot.now }
{
    lot.state != LotState::Undecided || has_award(awards, &lot.lot)
}

// Whether the caller sees the lot's tenders and awards.
fn is_shown(caller: &Caller, awards: &[AwardRow], lot: &LotRow) -> bool
    ensures { result ≡ (is_clerk caller.now || has_outcome awards.now lot.now) }
{
    matches!(caller, Caller::Clerk) || has_outcome(awards, lot)
}

// Adds the lines of a lot: its own line, and if the caller sees them, those of its tenders and of its awards.
fn put_lot<H: Lookups>(
    shelf: &mut H,
    text: &mut EvaluationText,
    caller: &Caller,
    weight: Weight,
    awards: &[AwardRow],
    lot: &LotRow,
) -> Result<(), Refusal>
    ensures looks { Looks H.meaning shelf.old shelf.new (λ s. IfOk result (λ _.
        text.new ≡ text.old ++ evaluated_lines (evaluated_lot caller.now weight awards.now s lot.now))) }
    ensures fault { IfErr result (λ e. e ≡ Unavailable) }
{
    laws::looks_follow::<H>();
    text.put_lot(lot.lot, lot.state)?;
    if !is_shown(caller, awards, lot) {
        return Ok(());
    }
    let rows = shelf.list_envelopes_of_lot(&lot.notice, &lot.lot)?;
    put_tenders(text, weight, &rows)?;
    put_awards(text, lot.lot, awards)?;
    Ok(())
}

// The text of the evaluation of a notice, lot by lot.
fn lots_text<H: Lookups>(
    shelf: &mut H,
    begun: EvaluationText,
    caller: &Caller,
    weight: Weight,
    awards: &[AwardRow],
    lots: &[LotRow],
) -> Result<EvaluationText, Refusal>
    ensures looks { Looks H.meaning shelf.old shelf.new (λ s. IfOk result (λ text.
        text ≡ begun ++ flat_map evaluated_lines (map (evaluated_lot caller.now weight awards.now s) lots.now))) }
    ensures fault { IfErr result (λ e. e ≡ Unavailable) }
{
    laws::looks_follow::<H>();
    let mut text = begun;
    for lot in lots {
        put_lot(shelf, &mut text, caller, weight, awards, lot)?;
    }
    Ok(text)
}

/// Shows the evaluation of a notice that was opened. The clerk sees all of it. Anyone else sees the tenders and awards of a lot only after it has an outcome.
#[tactic(auto, using(crate::proofs::Rising::has_risen))]
pub(crate) fn look<H: Lookups>(
    alloc: Global,
    shelf: &mut H,
    caller: &Caller,
    notice: Id,
) -> Result<Vec<u8>, Refusal>
    requires { may_look caller.now kinds.Evaluation ≡ true }
    ensures looks { Looks H.meaning shelf.old shelf.new (λ s. IsShown caller.now (Evaluation notice) s (read_text result)) }
    ensures tells { TellsQuery H.meaning shelf.old shelf.new caller.now (Evaluation notice) result }
{
    laws::looks_follow::<H>();
    let Some(row) = shelf.get_notice(&notice)? else {
        return Err(Refusal::NoSuch(Thing::Notice));
    };
    if row.state != NoticeState::Opened {
        return Err(Refusal::NotOpened);
    }
    let lots = shelf.list_lots_of_notice(&notice)?;
    let awards = shelf.list_awards_of_notice(&notice)?;
    let begun = EvaluationText::begin(alloc, row.notice, lots.len())?;
    let text = lots_text(shelf, begun, caller, row.weight, &awards, &lots)?;
    Ok(text.end()?.into_vec())
}
