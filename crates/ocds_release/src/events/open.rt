//! The release when the tenders of a notice are opened.
ghost use Rattle.std.specs.Prelude.{◌≡◌, IfOk, map};
ghost use Rattle.serde_json.specs.View.{view};
ghost use Rattle.ocds_release.specs.Objects.{array_of};
ghost use Rattle.ocds_release.specs.Tenderers.{tenderer_shown};
ghost use Rattle.ocds_release.specs.Inside.Built.{Says};
ghost use Rattle.ocds_release.specs.Events.Open.{open_body, opened_party, tenderer_reference_of, opened_tender};

use crate::event::Opened;
use crate::object::{Object, object_with};
use crate::part::{Part, value_of};
use office_base::records::TendererRow;
use office_values::id::Id;
use serde_json::Value;
use std::alloc::{AllocError, Global};

// The tenderer as a party.
fn party_of(alloc: Global, row: &TendererRow) -> Result<Value, AllocError>
    ensures { IfOk result (λ v. view v ≡ opened_party (tenderer_shown row.now)) }
{
    let address = object_with(
        alloc,
        &[("streetAddress", Part::Text(row.address.as_str()))],
    )?;
    let mut party = Object::new(alloc);
    party.put(
        alloc,
        &[
            ("id", Part::TendererId(row.tenderer)),
            ("name", Part::Text(row.name.as_str())),
            ("roles", Part::Only("tenderer")),
        ],
    )?;
    party.put_value(alloc, "address", address)?;
    Ok(party.into_value())
}

fn parties_of(alloc: Global, rows: &[TendererRow]) -> Result<Vec<Value>, AllocError>
    ensures { IfOk result (λ list. map view list.items ≡ map opened_party (map tenderer_shown rows.now)) }
{
    let mut list = Vec::new(alloc);
    for row in rows {
        list.push(party_of(alloc, row)?)?;
    }
    Ok(list)
}

fn references_of(alloc: Global, rows: &[TendererRow]) -> Result<Vec<Value>, AllocError>
    ensures { IfOk result (λ list. map view list.items ≡ map tenderer_reference_of (map tenderer_shown rows.now)) }
{
    let mut list = Vec::new(alloc);
    for row in rows {
        let reference = Part::Tenderer(row.tenderer, row.name.as_str());
        list.push(value_of(alloc, &reference)?)?;
    }
    Ok(list)
}

// The tender with the tenderers whose tenders were opened.
fn tender_of(alloc: Global, event: &Opened) -> Result<Value, AllocError>
    ensures { IfOk result (λ v. view v ≡ opened_tender event.now) }
{
    let tenderers = Value::Array(references_of(alloc, event.tenderers.as_slice())?);
    let mut tender = Object::new(alloc);
    tender.put(
        alloc,
        &[
            ("id", Part::Id(event.notice)),
            ("numberOfTenderers", Part::Number(event.tenderers.count())),
        ],
    )?;
    tender.put_value(alloc, "tenderers", tenderers)?;
    Ok(tender.into_value())
}

// The tenderers as parties.
fn party_list<'a>(alloc: Global, event: &'a Opened<'a>) -> Result<Value, AllocError>
    ensures { IfOk result (λ v. view v ≡ array_of (map opened_party event.now.tenderers)) }
{
    let parties = parties_of(alloc, event.tenderers.as_slice())?;
    Ok(Value::Array(parties))
}

/// The release when the tenders of a notice are opened.
pub(crate) fn open<'a>(
    alloc: Global,
    release: Object,
    event: &'a Opened<'a>,
) -> Result<Value, AllocError>
    ensures { IfOk result (Says release (open_body event.now)) }
{
    let parties = party_list(alloc, event)?;
    let tender = tender_of(alloc, event)?;
    let mut release = release;
    release.put(alloc, &[("tag", Part::Only("tenderUpdate"))])?;
    release.put_value(alloc, "parties", parties)?;
    release.put_value(alloc, "tender", tender)?;
    Ok(release.into_value())
}
