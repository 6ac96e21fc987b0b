//! The reading of a tender as four columns: a word, then the stated price, the corrected price and the count of corrections.
ghost use Rattle.std.specs.Prelude.{◌≡◌, ◌≤◌, ◌∷◌, IfOk, IfErr, IfSome, Some, codes, option_map};
ghost use Rattle.sqlite.specs.Values.{bound_value};
ghost use Rattle.sqlite_value.specs.Value.{owned};
ghost use Rattle.sqlite_value.specs.declared.value.Value.TheVariants.{Text};
ghost use Rattle.office_values.specs.Money.{amount_limit, total_limit};
ghost use Rattle.office_tables.specs.Values.{or_null, text_or_null};
ghost use Rattle.office_tables.specs.Readings.{reading_word, stated_price, corrected_price, count_of_corrections, reading_cells, price_in, reading_part};
ghost use Rattle.office_tables.specs.Ranges.{ReadingFits};
ghost use Rattle.office_tables.specs.Unwritten.{IsUnwritten};
ghost use Rattle.office_base.specs.Faults.{IsFaultOf};

use crate::columns::{amount_at, are_null, bounded_at, is_same, perhaps_text_at, total_at};
use crate::values::signed;
use office_base::reading::Reading;
use office_base::shelf::ShelfFault;
use sqlite::Row;
use sqlite_value::value::ValueRef;

// The column of the reading's word in a tender's row.
const WORD: usize = 9;

pub(crate) fn word_value(reading: &Option<Reading>) -> ValueRef<'static>
    ensures { bound_value (owned result) ≡ text_or_null (option_map reading_word reading.now) }
{
    match reading {
        None => ValueRef::Null,
        Some(Reading::Unreadable) => ValueRef::Text(b"unreadable"),
        Some(Reading::Nonconforming) => ValueRef::Text(b"nonconforming"),
        Some(Reading::Priced { .. }) => ValueRef::Text(b"priced"),
    }
}

pub(crate) fn stated_value(reading: &Option<Reading>) -> ValueRef<'static>
    ensures value { bound_value (owned result) ≡ or_null (stated_price reading.now) }
    ensures range { IfSome (stated_price reading.now) (λ stated. stated ≤ total_limit) }
{
    match reading {
        Some(Reading::Priced { stated, .. }) => ValueRef::Int(signed(stated.units())),
        _ => ValueRef::Null,
    }
}

pub(crate) fn corrected_value(reading: &Option<Reading>) -> ValueRef<'static>
    ensures value { bound_value (owned result) ≡ or_null (corrected_price reading.now) }
    ensures range { IfSome (corrected_price reading.now) (λ corrected. corrected ≤ amount_limit) }
{
    match reading {
        Some(Reading::Priced { corrected, .. }) => ValueRef::Int(signed(corrected.units())),
        _ => ValueRef::Null,
    }
}

pub(crate) fn corrections_value(reading: &Option<Reading>) -> ValueRef<'static>
    ensures value { bound_value (owned result) ≡ or_null (count_of_corrections reading.now) }
    ensures range { IfSome (count_of_corrections reading.now) (λ corrections. corrections ≤ 9223372036854775807) }
{
    match reading {
        Some(Reading::Priced { corrections, .. }) => ValueRef::Int(signed(corrections.get())),
        _ => ValueRef::Null,
    }
}

// The prices and the count of corrections in the three columns after the word.
fn price_in(row: &Row) -> Result<Reading, ShelfFault>
    ensures exact { IfOk result (λ reading. reading_cells (Some reading) ≡ Text (codes "priced") ∷ price_in row.now) }
    ensures cause { IfErr result (IsFaultOf (IsUnwritten (λ reading. reading_cells (Some reading)) (λ reading. ReadingFits (Some reading)) (Text (codes "priced") ∷ price_in row.now))) }
{
    Ok(Reading::Priced {
        stated: total_at(row, WORD + 1)?,
        corrected: amount_at(row, WORD + 2)?,
        corrections: bounded_at(row, WORD + 3)?,
    })
}

// The reading that this word and the three columns after it mean.
fn reading_in_columns(word: &[u8], row: &Row) -> Result<Reading, ShelfFault>
    ensures exact { IfOk result (λ reading. reading_cells (Some reading) ≡ Text word.now ∷ price_in row.now) }
    ensures cause { IfErr result (IsFaultOf (IsUnwritten (λ reading. reading_cells (Some reading)) (λ reading. ReadingFits (Some reading)) (Text word.now ∷ price_in row.now))) }
{
    if is_same(word, b"priced") {
        price_in(row)
    } else if !are_null(row, WORD + 1) {
        Err(ShelfFault::Store)
    } else if is_same(word, b"unreadable") {
        Ok(Reading::Unreadable)
    } else if is_same(word, b"nonconforming") {
        Ok(Reading::Nonconforming)
    } else {
        Err(ShelfFault::Store)
    }
}

/// The reading in a tender's row. A price after another word than `priced`, or no price after it, is a fault of the store.
pub(crate) fn reading_at(row: &Row) -> Result<Option<Reading>, ShelfFault>
    ensures exact { IfOk result (λ reading. reading_cells reading ≡ reading_part row.now) }
    ensures cause { IfErr result (IsFaultOf (IsUnwritten reading_cells ReadingFits (reading_part row.now))) }
{
    match perhaps_text_at(row, WORD)? {
        Some(word) => Ok(Some(reading_in_columns(word, row)?)),
        None if are_null(row, WORD + 1) => Ok(None),
        None => Err(ShelfFault::Store),
    }
}
