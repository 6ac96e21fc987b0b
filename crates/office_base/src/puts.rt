//! Changes of an office, each of one record.
ghost use Rattle.std.specs.Prelude.{◌≡◌};

use crate::records::{
    AwardRow, BatchRow, ClockRow, CompiledRow, ContractRow, EntryRow, EnvelopeRow, LateRow,
    LineRow, LotRow, NoticeRow, PerformanceRow, ReleaseRow, SealRow, SecurityRow, TendererRow,
};
use crate::row::copy_of;
use office_values::given::GivenNumber;
use std::alloc::AllocError;

/// A change of one record: a row is added, or replaces the row with its key. The bytes of a tender can also be dropped, by its receipt.
#[derive(Drop)]
pub enum Put {
    Line(LineRow),
    Batch(BatchRow),
    Tenderer(TendererRow),
    Notice(NoticeRow),
    Lot(LotRow),
    Envelope(EnvelopeRow),
    Seal(SealRow),
    DropSeal(GivenNumber),
    Security(SecurityRow),
    Award(AwardRow),
    Contract(ContractRow),
    Entry(EntryRow),
    Release(ReleaseRow),
    Compiled(CompiledRow),
    Late(LateRow),
    Performance(PerformanceRow),
    Clock(ClockRow),
}

impl Clone for Put {
    ghost is_clone = { λ a b. b ≡ a };

    fn clone(&self) -> Result<Put, AllocError> {
        match self {
            Put::Line(row) => Ok(Put::Line(copy_of(row)?)),
            Put::Batch(row) => Ok(Put::Batch(copy_of(row)?)),
            Put::Tenderer(row) => Ok(Put::Tenderer(copy_of(row)?)),
            Put::Notice(row) => Ok(Put::Notice(copy_of(row)?)),
            Put::Lot(row) => Ok(Put::Lot(copy_of(row)?)),
            Put::Envelope(row) => Ok(Put::Envelope(copy_of(row)?)),
            Put::Seal(row) => Ok(Put::Seal(copy_of(row)?)),
            Put::DropSeal(receipt) => Ok(Put::DropSeal(*receipt)),
            Put::Security(row) => Ok(Put::Security(copy_of(row)?)),
            Put::Award(row) => Ok(Put::Award(copy_of(row)?)),
            Put::Contract(row) => Ok(Put::Contract(copy_of(row)?)),
            Put::Entry(row) => Ok(Put::Entry(copy_of(row)?)),
            Put::Release(row) => Ok(Put::Release(copy_of(row)?)),
            Put::Compiled(row) => Ok(Put::Compiled(copy_of(row)?)),
            Put::Late(row) => Ok(Put::Late(copy_of(row)?)),
            Put::Performance(row) => Ok(Put::Performance(copy_of(row)?)),
            Put::Clock(row) => Ok(Put::Clock(*row)),
        }
    }
}
