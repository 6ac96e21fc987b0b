//! The evaluation of a notice, as a text (UNCITRAL Model Law 2011, articles 11, 25 and 43). It is written lot by lot.
ghost use Rattle.std.specs.Prelude.{◌≡◌, ◌++◌, IfOk};
ghost use Rattle.tender_papers.specs.Evaluation.{answer_word, award_line, award_word, evaluation_end, evaluation_head, finding_fields, finding_line, lot_state_line, lot_word, number_or_dash, standing_word};
ghost use Rattle.tender_papers.specs.Lines.{line, tabbed};

use crate::lines::Lines;
use office_base::reading::Reading;
use office_base::records::{AwardRow, AwardState, LotState};
use office_commands::tender::Quality;
use office_values::given::GivenNumber;
use office_values::id::Id;
use office_values::text::Bytes;
use std::alloc::{AllocError, Global};
use std::marker::Model;

/// An opened tender as its evaluation shows it: its reading, the result of its examination, and its points in thousandths. `admissible` is true if it can win.
/// `failed` is true if it can't win any more, because its tenderer failed to sign or withdrew it late.
#[derive(Clone, Copy)]
pub struct Finding {
    pub receipt: GivenNumber,
    pub tenderer: Id,
    pub reading: Reading,
    pub responsive: Option<bool>,
    pub quality: Option<Quality>,
    pub points: Option<u64>,
    pub admissible: bool,
    pub failed: bool,
}

// The first and the last line together are shorter than this.
const HEAD_ROOM: usize = 64;

// The lines of a lot with some tenders are about this long.
const LOT_ROOM: usize = 1024;

/// The word for the state of a lot.
pub fn lot_word(state: LotState) -> &'static str
    ensures { result.now ≡ lot_word state }
{
    match state {
        LotState::Undecided => "undecided",
        LotState::Awarded => "awarded",
        LotState::Contracted => "contracted",
        LotState::Unsuccessful => "unsuccessful",
        LotState::Cancelled => "cancelled",
    }
}

// The word for the state of an award.
fn award_word(state: AwardState) -> &'static [u8]
    ensures { result.now ≡ award_word state }
{
    match state {
        AwardState::Active => b"active",
        AwardState::Failed => b"failed",
        AwardState::Cancelled => b"cancelled",
        AwardState::Signed => b"signed",
    }
}

// The word for the result of an examination; a dash if there was none.
fn answer_word(responsive: Option<bool>) -> &'static [u8]
    ensures { result.now ≡ answer_word responsive }
{
    match responsive {
        Some(true) => b"responsive",
        Some(false) => b"unresponsive",
        None => b"-",
    }
}

// The word for a tender that can't win any more, or for one that is admissible; a dash if neither is true.
fn standing_word(failed: bool, admissible: bool) -> &'static [u8]
    ensures { result.now ≡ standing_word failed admissible }
{
    if failed {
        b"failed"
    } else if admissible {
        b"admissible"
    } else {
        b"-"
    }
}

// The points for quality as a number, if there are any.
fn number_of(quality: Option<Quality>) -> Option<u64>
    ensures { result ≡ quality }
{
    match quality {
        Some(quality) => Some(quality.get()),
        None => None,
    }
}

// Appends a number or a dash, as a field that isn't the last of its line.
fn put_number(lines: &mut Lines, number: Option<u64>) -> Result<(), AllocError>
    ensures { IfOk result (λ _. lines.new ≡ lines.old ++ tabbed (number_or_dash number)) }
{
    match number {
        Some(number) => lines.number(number),
        None => lines.field(b"-"),
    }
}

// Appends the reading and the examination of a tender, up to the end of its line.
fn put_finding(lines: &mut Lines, finding: &Finding) -> Result<(), AllocError>
    ensures { IfOk result (λ _. lines.new ≡ lines.old ++ line (finding_fields finding.now finding.now.reading)) }
{
    match finding.reading {
        Reading::Unreadable => lines.last(b"unreadable"),
        Reading::Nonconforming => lines.last(b"nonconforming"),
        Reading::Priced { corrected, .. } => {
            lines.field(b"priced")?;
            lines.number(corrected.units())?;
            lines.field(answer_word(finding.responsive))?;
            put_number(lines, number_of(finding.quality))?;
            put_number(lines, finding.points)?;
            lines.last(standing_word(finding.failed, finding.admissible))
        }
    }
}

/// The text of an evaluation, written lot by lot. It has a line that names the notice. For each lot it has a line with the lot's state, a line for each tender
/// and a line for each award. Its last line is `END`. A tab separates two fields, and a line feed ends each line.
#[derive(Drop)]
pub struct EvaluationText {
    lines: Lines,
}

impl Model for EvaluationText {
    ghost use Rattle.std.specs.Prelude.{List, ℕ};

    ghost Value = { List ℕ };

    ghost view = { λ t. t.lines };
}

impl EvaluationText {
    /// Begins the text with the line of the notice, and allocates memory for so many lots.
    pub fn begin(alloc: Global, notice: Id, lots: usize) -> Result<EvaluationText, AllocError>
        ensures { IfOk result (λ text. text ≡ evaluation_head notice) }
    {
        let mut lines = Lines::with_room(alloc, HEAD_ROOM, lots, LOT_ROOM)?;
        lines.field(b"EVALUATION")?;
        lines.last(notice.as_bytes())?;
        Ok(EvaluationText { lines })
    }

    /// Appends the line of a lot.
    pub fn put_lot(&mut self, lot: Id, state: LotState) -> Result<(), AllocError>
        ensures { IfOk result (λ _. self.new ≡ self.old ++ lot_state_line lot state) }
    {
        self.lines.field(b"lot")?;
        self.lines.field(lot.as_bytes())?;
        self.lines.last(lot_word(state).as_bytes())
    }

    /// Appends the line of a tender for the lot.
    pub fn put_tender(&mut self, finding: &Finding) -> Result<(), AllocError>
        ensures { IfOk result (λ _. self.new ≡ self.old ++ finding_line finding.now) }
    {
        self.lines.field(b"tender")?;
        self.lines.number(finding.receipt.get())?;
        self.lines.field(finding.tenderer.as_bytes())?;
        put_finding(&mut self.lines, finding)
    }

    /// Appends the line of an award of the lot.
    pub fn put_award(&mut self, award: &AwardRow) -> Result<(), AllocError>
        ensures { IfOk result (λ _. self.new ≡ self.old ++ award_line award.now) }
    {
        self.lines.field(b"award")?;
        self.lines.number(award.award.get())?;
        self.lines.number(award.receipt.get())?;
        self.lines.number(award.price.units())?;
        self.lines.last(award_word(award.state))
    }

    /// Appends the last line, and returns the text.
    pub fn end(self) -> Result<Bytes, AllocError>
        ensures { IfOk result (λ text. text ≡ self ++ evaluation_end) }
    {
        let mut lines = self.lines;
        lines.last(b"END")?;
        Ok(lines.into_bytes())
    }
}
