//! The rows to which a row refers, such as the notice of a contract. Each function returns none if that row doesn't exist.
ghost use Rattle.std.specs.Prelude.{◌≡◌};
ghost use Rattle.office_base.specs.Parents.{line_of_lot, notice_of_contract, lot_of_contract};
ghost use Rattle.office_base.specs.Parents.{notice_of_envelope, lot_of_envelope, late_of_envelope, security_of_envelope};
ghost use Rattle.office_base.specs.Parents.{notice_of_award, lot_of_award, envelope_of_award};
ghost use Rattle.office_base.specs.Shelves.{LooksUp};

use office_base::records::{
    AwardRow, ContractRow, EnvelopeRow, LateRow, LineRow, LotRow, NoticeRow, SecurityRow,
};
use office_base::shelf::{Lookups, ShelfFault};
use office_values::given::asked;

/// The budget line of a lot.
pub fn line_of_lot<H: Lookups>(
    shelf: &mut H,
    lot: &Option<LotRow>,
) -> Result<Option<LineRow>, ShelfFault>
    ensures { LooksUp H.meaning shelf.old shelf.new result (λ s row. row ≡ line_of_lot lot.now s) }
{
    match lot {
        Some(row) => shelf.get_line(&row.line),
        None => Ok(None),
    }
}

/// The notice of a contract.
pub fn notice_of_contract<H: Lookups>(
    shelf: &mut H,
    contract: &Option<ContractRow>,
) -> Result<Option<NoticeRow>, ShelfFault>
    ensures { LooksUp H.meaning shelf.old shelf.new result (λ s row. row ≡ notice_of_contract contract.now s) }
{
    match contract {
        Some(row) => shelf.get_notice(&row.notice),
        None => Ok(None),
    }
}

/// The lot of a contract.
pub fn lot_of_contract<H: Lookups>(
    shelf: &mut H,
    contract: &Option<ContractRow>,
) -> Result<Option<LotRow>, ShelfFault>
    ensures { LooksUp H.meaning shelf.old shelf.new result (λ s row. row ≡ lot_of_contract contract.now s) }
{
    match contract {
        Some(row) => shelf.get_lot(&row.notice, &row.lot),
        None => Ok(None),
    }
}

/// The notice of a tender.
pub fn notice_of_envelope<H: Lookups>(
    shelf: &mut H,
    envelope: &Option<EnvelopeRow>,
) -> Result<Option<NoticeRow>, ShelfFault>
    ensures { LooksUp H.meaning shelf.old shelf.new result (λ s row. row ≡ notice_of_envelope envelope.now s) }
{
    match envelope {
        Some(row) => shelf.get_notice(&row.notice),
        None => Ok(None),
    }
}

/// The lot of a tender.
pub fn lot_of_envelope<H: Lookups>(
    shelf: &mut H,
    envelope: &Option<EnvelopeRow>,
) -> Result<Option<LotRow>, ShelfFault>
    ensures { LooksUp H.meaning shelf.old shelf.new result (λ s row. row ≡ lot_of_envelope envelope.now s) }
{
    match envelope {
        Some(row) => shelf.get_lot(&row.notice, &row.lot),
        None => Ok(None),
    }
}

/// The row that says whether the notice of a tender allows late withdrawals.
pub fn late_of_envelope<H: Lookups>(
    shelf: &mut H,
    envelope: &Option<EnvelopeRow>,
) -> Result<Option<LateRow>, ShelfFault>
    ensures { LooksUp H.meaning shelf.old shelf.new result (λ s row. row ≡ late_of_envelope envelope.now s) }
{
    match envelope {
        Some(row) => shelf.get_late(&row.notice),
        None => Ok(None),
    }
}

/// The security of a tender, if it names one.
pub fn security_of_envelope<H: Lookups>(
    shelf: &mut H,
    envelope: &Option<EnvelopeRow>,
) -> Result<Option<SecurityRow>, ShelfFault>
    ensures { LooksUp H.meaning shelf.old shelf.new result (λ s row. row ≡ security_of_envelope envelope.now s) }
{
    let Some(row) = envelope else {
        return Ok(None);
    };
    match row.security {
        Some(number) => shelf.get_security(asked(number)),
        None => Ok(None),
    }
}

/// The notice of an award.
pub fn notice_of_award<H: Lookups>(
    shelf: &mut H,
    award: &Option<AwardRow>,
) -> Result<Option<NoticeRow>, ShelfFault>
    ensures { LooksUp H.meaning shelf.old shelf.new result (λ s row. row ≡ notice_of_award award.now s) }
{
    match award {
        Some(row) => shelf.get_notice(&row.notice),
        None => Ok(None),
    }
}

/// The lot of an award.
pub fn lot_of_award<H: Lookups>(
    shelf: &mut H,
    award: &Option<AwardRow>,
) -> Result<Option<LotRow>, ShelfFault>
    ensures { LooksUp H.meaning shelf.old shelf.new result (λ s row. row ≡ lot_of_award award.now s) }
{
    match award {
        Some(row) => shelf.get_lot(&row.notice, &row.lot),
        None => Ok(None),
    }
}

/// The tender that won an award.
pub fn envelope_of_award<H: Lookups>(
    shelf: &mut H,
    award: &Option<AwardRow>,
) -> Result<Option<EnvelopeRow>, ShelfFault>
    ensures { LooksUp H.meaning shelf.old shelf.new result (λ s row. row ≡ envelope_of_award award.now s) }
{
    match award {
        Some(row) => shelf.get_envelope(asked(row.receipt)),
        None => Ok(None),
    }
}
