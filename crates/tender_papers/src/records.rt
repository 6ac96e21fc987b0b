//! Reads a CSV file record by record.
ghost use Rattle.std.specs.Prelude.{◌≡◌, ◌∷◌, [], IfOk, IsTrue, option_map};
ghost use Rattle.std.specs.Bool.{MatchBool};
ghost use Rattle.csv.specs.Reading.{error_kind};
ghost use Rattle.csv.specs.Records.{fields_of};
ghost use Rattle.office_values.specs.Numbers.{number_of};
ghost use Rattle.tender_papers.specs.Files.{csv_records, four_of, says};
ghost use Rattle.tender_papers.specs.Inside.Reading.{IsOfSource, IsReading, records_left};

use csv::{ByteRecord, Error, ErrorKind, Reader, ReaderBuilder, Trim};
use office_values::money::Total;
use office_values::number::read_number;
use std::alloc::{AllocError, Global};

/// A reader before the first record of a text. It accepts records with any number of fields.
pub(crate) fn records_of(alloc: Global, text: &[u8]) -> Reader<&[u8]>
    ensures reading { IsReading result }
    ensures records { records_left result ≡ csv_records text.now }
{
    ReaderBuilder::new()
        .has_headers(false)
        .flexible(true)
        .trim(Trim::None)
        .from_reader(alloc, text)
}

// The error of such a reader is always too little memory. `csv` also allows a failure of the source, but bytes in memory never fail. A record with another
// number of fields is no error.
fn want_of_memory(error: Error) -> AllocError
    requires { IsOfSource (error_kind error) }
{
    match error.into_kind() {
        ErrorKind::Io(_) | ErrorKind::OutOfMemory => AllocError,
        _ => unreachable!(),
    }
}

/// Reads the next record into `row`. The answer says whether there was one.
pub(crate) fn next_record(
    reader: &mut Reader<&[u8]>,
    row: &mut ByteRecord,
) -> Result<bool, AllocError>
    requires { IsReading reader.old }
    ensures reading { IfOk result (λ found. IsTrue found → IsReading reader.new) }
    ensures read { IfOk result (λ found. MatchBool found
        (records_left reader.old ≡ fields_of row.new ∷ records_left reader.new)
        (records_left reader.old ≡ [])) }
{
    match reader.read_byte_record(row) {
        Ok(found) => Ok(found),
        Err(error) => Err(want_of_memory(error)),
    }
}

/// The fields of a record, if there are exactly four.
pub(crate) fn four_fields(row: &ByteRecord) -> Option<(&[u8], &[u8], &[u8], &[u8])>
    ensures { option_map (λ f. (f.0.now, f.1.now, f.2.now, f.3.now)) result
        ≡ four_of (fields_of row.now) }
{
    if row.len() != 4 {
        return None;
    }
    Some((row.get(0)?, row.get(1)?, row.get(2)?, row.get(3)?))
}

/// Whether a record has exactly four fields, and they are these four words.
pub(crate) fn says(
    row: &ByteRecord,
    first: &[u8],
    second: &[u8],
    third: &[u8],
    fourth: &[u8],
) -> bool
    ensures { result ≡ says (first.now, second.now, third.now, fourth.now) (fields_of row.now) }
{
    match four_fields(row) {
        Some((a, b, c, d)) => a == first && b == second && c == third && d == fourth,
        None => false,
    }
}

/// The sum that a field writes; None if it isn't a number up to 10^15.
pub(crate) fn total_in(field: &[u8]) -> Option<Total>
    ensures { result ≡ number_of field.now }
{
    Total::read(read_number(field)?)
}
