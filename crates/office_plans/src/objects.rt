//! JSON objects of plain values and of lists of objects. They are written member by member, without a tree.
ghost use Rattle.std.specs.Prelude.{◌≡◌, true, List, ◌++◌, IfOk, OnOk, map, option_map};
ghost use Rattle.std.specs.List.{flat_map};
ghost use Rattle.serde_json.specs.Data.{array, string};
ghost use Rattle.serde_json.specs.View.{items_of};
ghost use Rattle.office_plans.specs.Json.{AddsValue, Member, data_of, entry_of, json_object, member_tokens, names_rise, object_text, value_or_null, with_objects};

use json::Writer;
use office_values::given::GivenNumber;
use office_values::id::Id;
use office_values::moment::Moment;
use office_values::money::Total;
use std::alloc::{AllocError, Global};

/// A plain value.
#[derive(Clone, Copy)]
pub enum Plain<'a> {
    Number(u64),
    /// A number, or null.
    Count(Option<u64>),
    Truth(bool),
    Total(Total),
    Id(Id),
    /// An identifier, or null.
    Named(Option<Id>),
    Moment(Moment),
    /// A moment, or null.
    Since(Option<Moment>),
    /// A digest, written in lower-case hexadecimal digits.
    Digest([u8; 32]),
    Text(&'a str),
    /// A text, or null.
    Remark(Option<&'a str>),
}

/// A number that may be absent, in the form that a `Count` takes.
pub fn number_of(number: Option<GivenNumber>) -> Option<u64>
    ensures { result ≡ number }
{
    match number {
        Some(number) => Some(number.get()),
        None => None,
    }
}

// Writes a text, or null.
fn write_text(out: &mut Writer, text: Option<&str>) -> Result<(), AllocError>
    ensures { OnOk result (AddsValue out.old out.new (value_or_null string (option_map (λ t. t.now) text.entry))) }
{
    match text {
        Some(text) => out.string(text),
        None => out.null(),
    }
}

// Writes a moment, or null.
fn write_moment(out: &mut Writer, moment: Option<Moment>) -> Result<(), AllocError>
    ensures { OnOk result (AddsValue out.old out.new (data_of (Plain.Since moment))) }
{
    match moment {
        Some(moment) => out.string(moment.to_text().as_str()),
        None => out.null(),
    }
}

// Writes an identifier, or null.
fn write_id(out: &mut Writer, id: Option<Id>) -> Result<(), AllocError>
    ensures { OnOk result (AddsValue out.old out.new (value_or_null string id)) }
{
    match id {
        Some(id) => out.string(id.as_str()),
        None => out.null(),
    }
}

fn write_value(alloc: Global, out: &mut Writer, value: &Plain) -> Result<(), AllocError>
    ensures { OnOk result (AddsValue out.old out.new (data_of value.now)) }
{
    match value {
        Plain::Number(number) => out.u64(*number),
        Plain::Count(Some(number)) => out.u64(*number),
        Plain::Count(None) => out.null(),
        Plain::Truth(truth) => out.boolean(*truth),
        Plain::Total(total) => out.u64(total.units()),
        Plain::Id(id) => out.string(id.as_str()),
        Plain::Named(id) => write_id(out, *id),
        Plain::Moment(moment) => out.string(moment.to_text().as_str()),
        Plain::Since(moment) => write_moment(out, *moment),
        Plain::Digest(digest) => out.string(hex::encode(alloc, digest.as_slice())?.as_str()),
        Plain::Text(text) => out.string(text),
        Plain::Remark(text) => write_text(out, *text),
    }
}

// Writes members, one after another.
fn write_members(
    alloc: Global,
    out: &mut Writer,
    members: &[(&str, Plain)],
) -> Result<(), AllocError>
    ensures { OnOk result ((out.new.before ≡ out.old.before) × (out.new.tokens ≡ out.old.tokens ++ flat_map member_tokens (map entry_of members.now))) }
{
    for (name, value) in members {
        out.key(name)?;
        write_value(alloc, out, value)?;
    }
    Ok(())
}

/// Writes the object with these members. Their names must rise in the order of their bytes.
pub fn write_object(
    alloc: Global,
    out: &mut Writer,
    members: &[(&str, Plain)],
) -> Result<(), AllocError>
    requires rising { names_rise (map entry_of members.now) ≡ true }
    ensures { OnOk result (AddsValue out.old out.new (json_object (map entry_of members.now))) }
{
    out.begin_object()?;
    write_members(alloc, out, members)?;
    out.end_object()?;
    Ok(())
}

/// The text of the object with these members. Their names must rise in the order of their bytes.
pub fn object_text(alloc: Global, members: &[(&str, Plain)]) -> Result<Vec<u8>, AllocError>
    requires rising { names_rise (map entry_of members.now) ≡ true }
    ensures { IfOk result (λ text. text.items ≡ object_text (map entry_of members.now)) }
{
    let mut out = Writer::new(Vec::with_capacity(alloc, 192)?);
    write_object(alloc, &mut out, members)?;
    Ok(out.into_inner())
}

/// How a list shows its rows: each as an object.
pub trait RowObject {
    type Row;

    ghost members_of: { Self → Self.Row → List Member };

    /// Writes the object of a row.
    fn write(&self, alloc: Global, out: &mut Writer, row: &Self::Row) -> Result<(), AllocError>
        ensures { OnOk result (AddsValue out.old out.new (json_object (members_of self.now row.now))) };
}

// Writes rows as a list.
fn write_rows<O: RowObject>(
    alloc: Global,
    out: &mut Writer,
    shown: &O,
    rows: &[O::Row],
) -> Result<(), AllocError>
    ensures { OnOk result (AddsValue out.old out.new (array (items_of (map json_object (map (O.members_of shown.now) rows.now))))) }
{
    out.begin_array()?;
    for row in rows {
        shown.write(alloc, out, row)?;
    }
    out.end_array()?;
    Ok(())
}

/// Writes the object with these members, then a list of rows under this name, then the other members. All names must rise in the order of their bytes.
pub fn write_with_rows<O: RowObject>(
    alloc: Global,
    out: &mut Writer,
    front: &[(&str, Plain)],
    name: &str,
    shown: &O,
    rows: &[O::Row],
    rest: &[(&str, Plain)],
) -> Result<(), AllocError>
    requires rising { names_rise (with_objects (map entry_of front.now) name.now (map (O.members_of shown.now) rows.now) (map entry_of rest.now)) ≡ true }
    ensures { OnOk result (AddsValue out.old out.new
        (json_object (with_objects (map entry_of front.now) name.now (map (O.members_of shown.now) rows.now) (map entry_of rest.now)))) }
{
    out.begin_object()?;
    write_members(alloc, out, front)?;
    out.key(name)?;
    write_rows(alloc, out, shown, rows)?;
    write_members(alloc, out, rest)?;
    out.end_object()?;
    Ok(())
}

/// The text of the object with these members, then a list of rows under this name, then the other members. All names must rise in the order of their bytes.
/// Every answer that has a list uses this function.
pub fn rows_text<O: RowObject>(
    alloc: Global,
    front: &[(&str, Plain)],
    name: &str,
    shown: &O,
    rows: &[O::Row],
    rest: &[(&str, Plain)],
) -> Result<Vec<u8>, AllocError>
    requires rising { names_rise (with_objects (map entry_of front.now) name.now (map (O.members_of shown.now) rows.now) (map entry_of rest.now)) ≡ true }
    ensures { IfOk result (λ text. text.items
        ≡ object_text (with_objects (map entry_of front.now) name.now (map (O.members_of shown.now) rows.now) (map entry_of rest.now))) }
{
    let room = rows.len().saturating_mul(192).saturating_add(192);
    let mut out = Writer::new(Vec::with_capacity(alloc, room)?);
    write_with_rows(alloc, &mut out, front, name, shown, rows, rest)?;
    Ok(out.into_inner())
}
