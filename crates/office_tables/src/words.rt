//! States and kinds as the words that rows store.
ghost use Rattle.std.specs.Prelude.{◌≡◌, IfOk, IfErr, option_map};
ghost use Rattle.sqlite_value.specs.declared.value.Value.TheVariants.{Text};
ghost use Rattle.sqlite_value.specs.Order.{column};
ghost use Rattle.office_tables.specs.Values.{text_or_null};
ghost use Rattle.office_tables.specs.Ranges.{Anything};
ghost use Rattle.office_tables.specs.Unwritten.{IsUnwritten};
ghost use Rattle.office_tables.specs.Words.{notice_state_text, lot_state_text, envelope_state_text, security_state_text, award_state_text, how_text, entry_kind_text};
ghost use Rattle.office_base.specs.Faults.{IsFaultOf};

use crate::columns::{is_same, perhaps_text_at, text_at};
use office_base::records::{
    AwardState, EntryKind, EnvelopeState, LotState, NoticeState, SecurityState,
};
use office_base::shelf::ShelfFault;
use office_commands::contract::How;
use sqlite::Row;

pub(crate) fn notice_state_text(state: NoticeState) -> &'static [u8]
    ensures { result.now ≡ notice_state_text state }
{
    match state {
        NoticeState::Receiving => b"receiving",
        NoticeState::Opened => b"opened",
        NoticeState::Cancelled => b"cancelled",
    }
}

pub(crate) fn notice_state_at(row: &Row, at: usize) -> Result<NoticeState, ShelfFault>
    ensures exact { IfOk result (λ state. Text (notice_state_text state) ≡ column row.now at) }
    ensures cause { IfErr result (IsFaultOf (IsUnwritten (λ state. Text (notice_state_text state)) Anything (column row.now at))) }
{
    let word = text_at(row, at)?;
    if is_same(word, b"receiving") {
        Ok(NoticeState::Receiving)
    } else if is_same(word, b"opened") {
        Ok(NoticeState::Opened)
    } else if is_same(word, b"cancelled") {
        Ok(NoticeState::Cancelled)
    } else {
        Err(ShelfFault::Store)
    }
}

pub(crate) fn lot_state_text(state: LotState) -> &'static [u8]
    ensures { result.now ≡ lot_state_text state }
{
    match state {
        LotState::Undecided => b"undecided",
        LotState::Awarded => b"awarded",
        LotState::Contracted => b"contracted",
        LotState::Unsuccessful => b"unsuccessful",
        LotState::Cancelled => b"cancelled",
    }
}

pub(crate) fn lot_state_at(row: &Row, at: usize) -> Result<LotState, ShelfFault>
    ensures exact { IfOk result (λ state. Text (lot_state_text state) ≡ column row.now at) }
    ensures cause { IfErr result (IsFaultOf (IsUnwritten (λ state. Text (lot_state_text state)) Anything (column row.now at))) }
{
    let word = text_at(row, at)?;
    if is_same(word, b"undecided") {
        Ok(LotState::Undecided)
    } else if is_same(word, b"awarded") {
        Ok(LotState::Awarded)
    } else if is_same(word, b"contracted") {
        Ok(LotState::Contracted)
    } else if is_same(word, b"unsuccessful") {
        Ok(LotState::Unsuccessful)
    } else if is_same(word, b"cancelled") {
        Ok(LotState::Cancelled)
    } else {
        Err(ShelfFault::Store)
    }
}

pub(crate) fn envelope_state_text(state: EnvelopeState) -> &'static [u8]
    ensures { result.now ≡ envelope_state_text state }
{
    match state {
        EnvelopeState::Sealed => b"sealed",
        EnvelopeState::Withdrawn => b"withdrawn",
        EnvelopeState::Returned => b"returned",
        EnvelopeState::Opened => b"opened",
    }
}

pub(crate) fn envelope_state_at(row: &Row, at: usize) -> Result<EnvelopeState, ShelfFault>
    ensures exact { IfOk result (λ state. Text (envelope_state_text state) ≡ column row.now at) }
    ensures cause { IfErr result (IsFaultOf (IsUnwritten (λ state. Text (envelope_state_text state)) Anything (column row.now at))) }
{
    let word = text_at(row, at)?;
    if is_same(word, b"sealed") {
        Ok(EnvelopeState::Sealed)
    } else if is_same(word, b"withdrawn") {
        Ok(EnvelopeState::Withdrawn)
    } else if is_same(word, b"returned") {
        Ok(EnvelopeState::Returned)
    } else if is_same(word, b"opened") {
        Ok(EnvelopeState::Opened)
    } else {
        Err(ShelfFault::Store)
    }
}

pub(crate) fn security_state_text(state: SecurityState) -> &'static [u8]
    ensures { result.now ≡ security_state_text state }
{
    match state {
        SecurityState::Held => b"held",
        SecurityState::Returned => b"returned",
        SecurityState::Forfeited => b"forfeited",
    }
}

pub(crate) fn security_state_at(row: &Row, at: usize) -> Result<SecurityState, ShelfFault>
    ensures exact { IfOk result (λ state. Text (security_state_text state) ≡ column row.now at) }
    ensures cause { IfErr result (IsFaultOf (IsUnwritten (λ state. Text (security_state_text state)) Anything (column row.now at))) }
{
    let word = text_at(row, at)?;
    if is_same(word, b"held") {
        Ok(SecurityState::Held)
    } else if is_same(word, b"returned") {
        Ok(SecurityState::Returned)
    } else if is_same(word, b"forfeited") {
        Ok(SecurityState::Forfeited)
    } else {
        Err(ShelfFault::Store)
    }
}

pub(crate) fn award_state_text(state: AwardState) -> &'static [u8]
    ensures { result.now ≡ award_state_text state }
{
    match state {
        AwardState::Active => b"active",
        AwardState::Failed => b"failed",
        AwardState::Cancelled => b"cancelled",
        AwardState::Signed => b"signed",
    }
}

pub(crate) fn award_state_at(row: &Row, at: usize) -> Result<AwardState, ShelfFault>
    ensures exact { IfOk result (λ state. Text (award_state_text state) ≡ column row.now at) }
    ensures cause { IfErr result (IsFaultOf (IsUnwritten (λ state. Text (award_state_text state)) Anything (column row.now at))) }
{
    let word = text_at(row, at)?;
    if is_same(word, b"active") {
        Ok(AwardState::Active)
    } else if is_same(word, b"failed") {
        Ok(AwardState::Failed)
    } else if is_same(word, b"cancelled") {
        Ok(AwardState::Cancelled)
    } else if is_same(word, b"signed") {
        Ok(AwardState::Signed)
    } else {
        Err(ShelfFault::Store)
    }
}

pub(crate) fn entry_kind_text(kind: EntryKind) -> &'static [u8]
    ensures { result.now ≡ entry_kind_text kind }
{
    match kind {
        EntryKind::Raise => b"raise",
        EntryKind::Cut => b"cut",
        EntryKind::Payment => b"payment",
    }
}

/// The kind of an entry in a column.
pub fn entry_kind_at(row: &Row, at: usize) -> Result<EntryKind, ShelfFault>
    ensures exact { IfOk result (λ kind. Text (entry_kind_text kind) ≡ column row.now at) }
    ensures cause { IfErr result (IsFaultOf (IsUnwritten (λ kind. Text (entry_kind_text kind)) Anything (column row.now at))) }
{
    let word = text_at(row, at)?;
    if is_same(word, b"raise") {
        Ok(EntryKind::Raise)
    } else if is_same(word, b"cut") {
        Ok(EntryKind::Cut)
    } else if is_same(word, b"payment") {
        Ok(EntryKind::Payment)
    } else {
        Err(ShelfFault::Store)
    }
}

pub(crate) fn how_text(how: How) -> &'static [u8]
    ensures { result.now ≡ how_text how }
{
    match how {
        How::Regular => b"regular",
        How::ForDefault => b"default",
    }
}

pub(crate) fn perhaps_how_at(row: &Row, at: usize) -> Result<Option<How>, ShelfFault>
    ensures exact { IfOk result (λ how. text_or_null (option_map how_text how) ≡ column row.now at) }
    ensures cause { IfErr result (IsFaultOf (IsUnwritten (λ how. text_or_null (option_map how_text how)) Anything (column row.now at))) }
{
    let Some(word) = perhaps_text_at(row, at)? else {
        return Ok(None);
    };
    if is_same(word, b"regular") {
        Ok(Some(How::Regular))
    } else if is_same(word, b"default") {
        Ok(Some(How::ForDefault))
    } else {
        Err(ShelfFault::Store)
    }
}
