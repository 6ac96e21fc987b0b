//! A tender with lots that changed their status.
ghost use Rattle.std.specs.Prelude.{◌≡◌, ◌∷◌, [], IfOk, map};
ghost use Rattle.serde_json.specs.View.{view};
ghost use Rattle.ocds_release.specs.Inside.Built.{members_in};
ghost use Rattle.ocds_release.specs.Tenders.{lot_in_status, tender_members, tender_with_lot as tender_of_lot};

use crate::object::{Object, list_of_one, object_with};
use crate::part::Part;
use crate::tender_status::TenderStatus;
use office_values::id::Id;
use serde_json::Value;
use std::alloc::{AllocError, Global};

/// A lot with its status.
pub(crate) fn lot_in_status(alloc: Global, lot: Id, status: &str) -> Result<Value, AllocError>
    ensures { IfOk result (λ v. view v ≡ lot_in_status status.now lot) }
{
    object_with(
        alloc,
        &[("id", Part::Id(lot)), ("status", Part::Text(status))],
    )
}

/// A tender with its status, and these lots.
pub(crate) fn tender_with_lots(
    alloc: Global,
    notice: Id,
    status: TenderStatus,
    lots: Value,
) -> Result<Object, AllocError>
    ensures { IfOk result (λ tender. members_in tender ≡ tender_members notice status (view lots)) }
{
    let mut tender = Object::new(alloc);
    tender.put(
        alloc,
        &[
            ("id", Part::Id(notice)),
            ("status", Part::Text(status.as_str())),
        ],
    )?;
    tender.put_value(alloc, "lots", lots)?;
    Ok(tender)
}

/// A tender with its status, and the one lot that changed its status.
pub(crate) fn tender_with_lot(
    alloc: Global,
    notice: Id,
    status: TenderStatus,
    lot: Id,
    lot_status: &str,
) -> Result<Value, AllocError>
    ensures { IfOk result (λ v. view v ≡ tender_of_lot notice status lot lot_status.now) }
{
    let lot = lot_in_status(alloc, lot, lot_status)?;
    let lots = list_of_one(alloc, lot)?;
    Ok(tender_with_lots(alloc, notice, status, lots)?.into_value())
}
