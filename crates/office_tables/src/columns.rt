//! One column of a row. A value that no office writes is a fault of the store.
ghost use Rattle.std.specs.Prelude.{◌≡◌, ◌≢◌, ℕ, ◌<◌, ◌≤◌, ◌↔◌, List, [], ◌∷◌, length, IsTrue, IsUtf8, IfOk, IfErr, IfSome, option_map};
ghost use Rattle.sqlite_value.specs.Value.{owned};
ghost use Rattle.sqlite_value.specs.declared.value.Value.TheVariants.{Null, Text, Blob};
ghost use Rattle.sqlite_value.specs.Order.{column};
ghost use Rattle.office_values.specs.Ids.{IsId};
ghost use Rattle.office_values.specs.Moments.{last_moment};
ghost use Rattle.office_values.specs.Money.{amount_limit, total_limit};
ghost use Rattle.office_values.specs.Texts.{IsTextLine};
ghost use Rattle.office_commands.specs.SealedBytes.{IsSealed};
ghost use Rattle.office_tables.specs.Values.{whole, or_null, text_or_null, as_number, three_from};
ghost use Rattle.office_tables.specs.Ranges.{IsWithin, Anything};
ghost use Rattle.office_tables.specs.Unwritten.{IsUnwritten};
ghost use Rattle.office_base.specs.Faults.{IsFaultOf};

use office_base::json_text::JsonText;
use office_base::shelf::ShelfFault;
use office_commands::sealed::SealedBytes;
use office_values::bounded::Bounded;
use office_values::id::Id;
use office_values::moment::Moment;
use office_values::money::{Amount, Total};
use office_values::text::TextLine;
use sqlite::Row;
use sqlite_value::value::ValueRef;
use std::alloc::Global;

// Whether two texts are equal.
pub(crate) fn is_same(text: &[u8], other: &[u8]) -> bool
    ensures { IsTrue result ↔ (text.now ≡ other.now) }
{
    text == other
}

/// Checks that a row has this number of columns.
pub fn has_columns(row: &Row, count: usize) -> Result<(), ShelfFault>
    ensures exact { IfOk result (λ _. length row.now ≡ count) }
    ensures cause { IfErr result (IsFaultOf (length row.now ≢ count)) }
{
    if row.column_count() == count {
        Ok(())
    } else {
        Err(ShelfFault::Store)
    }
}

// The value of a column; NULL past the last column.
fn value_at(row: &Row, at: usize) -> ValueRef<'_>
    ensures { owned result ≡ column row.now at }
{
    match row.get_ref(at) {
        Ok(value) => value,
        Err(_) => ValueRef::Null,
    }
}

// Whether a column is NULL.
fn is_null(row: &Row, at: usize) -> bool
    ensures { IsTrue result ↔ (Null ≡ column row.now at) }
{
    matches!(value_at(row, at), ValueRef::Null)
}

/// Whether these three columns are NULL.
pub fn are_null(row: &Row, at: usize) -> bool
    requires { at ≤ 1000 }
    ensures { IsTrue result ↔ (Null ∷ Null ∷ Null ∷ [] ≡ three_from row.now at) }
{
    is_null(row, at) && is_null(row, at + 1) && is_null(row, at + 2)
}

// The bytes of a column that has a text.
pub(crate) fn text_at(row: &Row, at: usize) -> Result<&[u8], ShelfFault>
    ensures exact { IfOk result (λ text. Text text.now ≡ column row.now at) }
    ensures cause { IfErr result (IsFaultOf (IsUnwritten Text Anything (column row.now at))) }
{
    match value_at(row, at) {
        ValueRef::Text(text) => Ok(text),
        _ => Err(ShelfFault::Store),
    }
}

// The bytes of a column that has a text or NULL.
pub(crate) fn perhaps_text_at(row: &Row, at: usize) -> Result<Option<&[u8]>, ShelfFault>
    ensures exact { IfOk result (λ text. text_or_null (option_map (λ t. t.now) text) ≡ column row.now at) }
    ensures cause { IfErr result (IsFaultOf (IsUnwritten text_or_null Anything (column row.now at))) }
{
    match value_at(row, at) {
        ValueRef::Null => Ok(None),
        ValueRef::Text(text) => Ok(Some(text)),
        _ => Err(ShelfFault::Store),
    }
}

fn blob_at(row: &Row, at: usize) -> Result<&[u8], ShelfFault>
    ensures exact { IfOk result (λ blob. Blob blob.now ≡ column row.now at) }
    ensures cause { IfErr result (IsFaultOf (IsUnwritten Blob Anything (column row.now at))) }
{
    match value_at(row, at) {
        ValueRef::Blob(blob) => Ok(blob),
        _ => Err(ShelfFault::Store),
    }
}

fn number_at(row: &Row, at: usize) -> Result<u64, ShelfFault>
    ensures exact { IfOk result (λ number. whole number ≡ column row.now at) }
    ensures cause { IfErr result (IsFaultOf (IsUnwritten whole Anything (column row.now at))) }
{
    match value_at(row, at) {
        ValueRef::Int(number) if number >= 0 => Ok(number as u64),
        _ => Err(ShelfFault::Store),
    }
}

fn perhaps_number_at(row: &Row, at: usize) -> Result<Option<u64>, ShelfFault>
    ensures exact { IfOk result (λ number. or_null number ≡ column row.now at) }
    ensures cause { IfErr result (IsFaultOf (IsUnwritten or_null Anything (column row.now at))) }
{
    match value_at(row, at) {
        ValueRef::Null => Ok(None),
        ValueRef::Int(number) if number >= 0 => Ok(Some(number as u64)),
        _ => Err(ShelfFault::Store),
    }
}

/// The identifier in a column.
pub fn id_at(row: &Row, at: usize) -> Result<Id, ShelfFault>
    ensures exact { IfOk result (λ id. Text id ≡ column row.now at) }
    ensures cause { IfErr result (IsFaultOf (IsUnwritten Text IsId (column row.now at))) }
{
    Id::read(text_at(row, at)?).ok_or(ShelfFault::Store)
}

// The line of text that has these bytes.
pub(crate) fn line_of(alloc: Global, text: &[u8]) -> Result<TextLine, ShelfFault>
    ensures exact { IfOk result (λ line. line ≡ text.now) }
    ensures cause { IfErr result (IsFaultOf (IsUnwritten (λ (t : List ℕ). t) IsTextLine text.now)) }
{
    match TextLine::read(alloc, text) {
        Ok(Some(line)) => Ok(line),
        Ok(None) => Err(ShelfFault::Store),
        Err(_) => Err(ShelfFault::NoMemory),
    }
}

// The line of text in a column.
pub(crate) fn line_at(alloc: Global, row: &Row, at: usize) -> Result<TextLine, ShelfFault>
    ensures exact { IfOk result (λ line. Text line ≡ column row.now at) }
    ensures cause { IfErr result (IsFaultOf (IsUnwritten Text IsTextLine (column row.now at))) }
{
    line_of(alloc, text_at(row, at)?)
}

// The line of text in a column, or `None` for NULL.
pub(crate) fn perhaps_line_at(
    alloc: Global,
    row: &Row,
    at: usize,
) -> Result<Option<TextLine>, ShelfFault>
    ensures exact { IfOk result (λ line. text_or_null line ≡ column row.now at) }
    ensures cause { IfErr result (IsFaultOf (IsUnwritten text_or_null (λ line. IfSome line IsTextLine) (column row.now at))) }
{
    match perhaps_text_at(row, at)? {
        Some(text) => Ok(Some(line_of(alloc, text)?)),
        None => Ok(None),
    }
}

// The text of JSON in a column.
pub(crate) fn json_at(alloc: Global, row: &Row, at: usize) -> Result<JsonText, ShelfFault>
    ensures exact { IfOk result (λ text. Text text ≡ column row.now at) }
    ensures fits { IfOk result IsUtf8 }
    ensures cause { IfErr result (IsFaultOf (IsUnwritten Text IsUtf8 (column row.now at))) }
{
    let Ok(text) = str::from_utf8(text_at(row, at)?) else {
        return Err(ShelfFault::Store);
    };
    match String::from_str(alloc, text) {
        Ok(text) => Ok(JsonText::from_string(text)),
        Err(_) => Err(ShelfFault::NoMemory),
    }
}

// The 32 bytes of a digest or of a key's digest in a column.
pub(crate) fn digest_at(row: &Row, at: usize) -> Result<[u8; 32], ShelfFault>
    ensures exact { IfOk result (λ digest. Blob digest ≡ column row.now at) }
    ensures cause { IfErr result (IsFaultOf (IsUnwritten Blob (λ digest. length digest ≡ 32) (column row.now at))) }
{
    <[u8; 32]>::try_from(blob_at(row, at)?).map_err(|_| ShelfFault::Store)
}

// The sealed bytes of a tender in a column.
pub(crate) fn sealed_at(alloc: Global, row: &Row, at: usize) -> Result<SealedBytes, ShelfFault>
    ensures exact { IfOk result (λ sealed. Blob sealed ≡ column row.now at) }
    ensures cause { IfErr result (IsFaultOf (IsUnwritten Blob IsSealed (column row.now at))) }
{
    match Vec::from_slice(alloc, blob_at(row, at)?) {
        Ok(bytes) => SealedBytes::from_vec(bytes).ok_or(ShelfFault::Store),
        Err(_) => Err(ShelfFault::NoMemory),
    }
}

/// The sum of money in a column, up to the limit of a budget line.
pub fn total_at(row: &Row, at: usize) -> Result<Total, ShelfFault>
    ensures exact { IfOk result (λ total. whole total ≡ column row.now at) }
    ensures cause { IfErr result (IsFaultOf (IsUnwritten whole (λ total. total ≤ total_limit) (column row.now at))) }
{
    Total::read(number_at(row, at)?).ok_or(ShelfFault::Store)
}

/// The amount of money in a column.
pub fn amount_at(row: &Row, at: usize) -> Result<Amount, ShelfFault>
    ensures exact { IfOk result (λ amount. whole amount ≡ column row.now at) }
    ensures cause { IfErr result (IsFaultOf (IsUnwritten whole (λ amount. amount ≤ amount_limit) (column row.now at))) }
{
    Amount::read(number_at(row, at)?).ok_or(ShelfFault::Store)
}

// The moment in a column.
pub(crate) fn moment_at(row: &Row, at: usize) -> Result<Moment, ShelfFault>
    ensures exact { IfOk result (λ moment. whole moment ≡ column row.now at) }
    ensures cause { IfErr result (IsFaultOf (IsUnwritten whole (λ moment. moment ≤ last_moment) (column row.now at))) }
{
    Moment::from_second(number_at(row, at)?).ok_or(ShelfFault::Store)
}

// The moment in a column, or `None` for NULL.
pub(crate) fn perhaps_moment_at(row: &Row, at: usize) -> Result<Option<Moment>, ShelfFault>
    ensures exact { IfOk result (λ moment. or_null moment ≡ column row.now at) }
    ensures cause { IfErr result (IsFaultOf (IsUnwritten or_null (λ moment. IfSome moment (λ second. second ≤ last_moment)) (column row.now at))) }
{
    match perhaps_number_at(row, at)? {
        Some(second) => match Moment::from_second(second) {
            Some(moment) => Ok(Some(moment)),
            None => Err(ShelfFault::Store),
        },
        None => Ok(None),
    }
}

/// The number in a column, if it is within the bounds of its type.
pub fn bounded_at<const LOW: u64, const HIGH: u64>(
    row: &Row,
    at: usize,
) -> Result<Bounded<LOW, HIGH>, ShelfFault>
    ensures exact { IfOk result (λ number. whole number ≡ column row.now at) }
    ensures cause { IfErr result (IsFaultOf (IsUnwritten whole (IsWithin LOW HIGH) (column row.now at))) }
{
    Bounded::read(number_at(row, at)?).ok_or(ShelfFault::Store)
}

// The number in a column, if it is within the bounds of its type, or `None` for NULL.
pub(crate) fn perhaps_bounded_at<const LOW: u64, const HIGH: u64>(
    row: &Row,
    at: usize,
) -> Result<Option<Bounded<LOW, HIGH>>, ShelfFault>
    ensures exact { IfOk result (λ number. or_null number ≡ column row.now at) }
    ensures cause { IfErr result (IsFaultOf (IsUnwritten or_null (λ number. IfSome number (IsWithin LOW HIGH)) (column row.now at))) }
{
    match perhaps_number_at(row, at)? {
        Some(number) => match Bounded::read(number) {
            Some(bounded) => Ok(Some(bounded)),
            None => Err(ShelfFault::Store),
        },
        None => Ok(None),
    }
}

// Checks that a column has this version of the office's tables.
pub(crate) fn version_at(row: &Row, at: usize, version: u64) -> Result<(), ShelfFault>
    ensures exact { IfOk result (λ _. whole version ≡ column row.now at) }
    ensures cause { IfErr result (IsFaultOf (IsUnwritten whole (λ n. n ≡ version) (column row.now at))) }
{
    if number_at(row, at)? == version {
        Ok(())
    } else {
        Err(ShelfFault::Store)
    }
}

// The version in a column, which must be below this one.
pub(crate) fn earlier_at(row: &Row, at: usize, version: u64) -> Result<u64, ShelfFault>
    ensures exact { IfOk result (λ earlier. whole earlier ≡ column row.now at) }
    ensures below { IfOk result (λ earlier. earlier < version) }
    ensures cause { IfErr result (IsFaultOf (IsUnwritten whole (λ n. n < version) (column row.now at))) }
{
    let earlier = number_at(row, at)?;
    if earlier < version {
        Ok(earlier)
    } else {
        Err(ShelfFault::Store)
    }
}

// Yes or no: 1 or 0 in a column.
pub(crate) fn truth_at(row: &Row, at: usize) -> Result<bool, ShelfFault>
    ensures exact { IfOk result (λ yes. whole (as_number yes) ≡ column row.now at) }
    ensures cause { IfErr result (IsFaultOf (IsUnwritten (λ yes. whole (as_number yes)) Anything (column row.now at))) }
{
    match number_at(row, at)? {
        0 => Ok(false),
        1 => Ok(true),
        _ => Err(ShelfFault::Store),
    }
}

// Yes or no in a column, or `None` for NULL.
pub(crate) fn perhaps_yes_at(row: &Row, at: usize) -> Result<Option<bool>, ShelfFault>
    ensures exact { IfOk result (λ yes. or_null (option_map as_number yes) ≡ column row.now at) }
    ensures cause { IfErr result (IsFaultOf (IsUnwritten (λ yes. or_null (option_map as_number yes)) Anything (column row.now at))) }
{
    match perhaps_number_at(row, at)? {
        Some(0) => Ok(Some(false)),
        Some(1) => Ok(Some(true)),
        Some(_) => Err(ShelfFault::Store),
        None => Ok(None),
    }
}
