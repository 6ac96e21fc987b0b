//! The table of tenders, without their bytes: its SQL texts, its rows as values, and its look-ups.
ghost use Rattle.std.specs.Prelude.{◌≡◌};
ghost use Rattle.sqlite.specs.Values.{bound};
ghost use Rattle.office_base.specs.Tables.{envelope_at, envelopes_of_lot, envelopes_of_notice, envelopes_of_tenderer};
ghost use Rattle.office_tables.specs.Steps.{TellsOnly};
ghost use Rattle.office_tables.specs.Tables.Envelopes.{envelope_values, envelope_read, EnvelopeFits};

use crate::ask::{ask_all, ask_first};
use crate::columns::{
    bounded_at, digest_at, has_columns, id_at, moment_at, perhaps_bounded_at, perhaps_yes_at,
    truth_at,
};
use crate::readings::{corrected_value, corrections_value, reading_at, stated_value, word_value};
use crate::stored::Stored;
use crate::values::{
    given_or_null, id_value, number_value, quality_or_null, signed, yes_or_null, yes_value,
};
use crate::words::{envelope_state_at, envelope_state_text};
use office_base::records::EnvelopeRow;
use office_base::shelf::ShelfFault;
use office_values::given::AskedNumber;
use office_values::id::Id;
use sqlite::{Alter, Connection, Row};
use sqlite_value::value::ValueRef;
use std::alloc::Global;

/// Creates the table.
pub(crate) const CREATE: &str =
    "CREATE TABLE envelopes (receipt INTEGER NOT NULL PRIMARY KEY CHECK (receipt BETWEEN 1 AND 1000000000), notice TEXT NOT NULL CHECK (length(notice) BETWEEN 1 AND 32), lot TEXT NOT NULL CHECK (length(lot) BETWEEN 1 AND 32), tenderer TEXT NOT NULL CHECK (length(tenderer) BETWEEN 1 AND 32), moment INTEGER NOT NULL CHECK (moment BETWEEN 0 AND 4102444799), length INTEGER NOT NULL CHECK (length BETWEEN 1 AND 32768), digest BLOB NOT NULL CHECK (length(digest) = 32), security INTEGER CHECK (security BETWEEN 1 AND 1000000000), state TEXT NOT NULL CHECK (state IN ('sealed', 'withdrawn', 'returned', 'opened')), reading TEXT CHECK (reading IN ('unreadable', 'nonconforming', 'priced')), stated INTEGER CHECK (stated BETWEEN 0 AND 1000000000000000), corrected INTEGER CHECK (corrected BETWEEN 0 AND 1000000000000), corrections INTEGER CHECK (corrections BETWEEN 0 AND 9223372036854775807), responsive INTEGER CHECK (responsive BETWEEN 0 AND 1), quality INTEGER CHECK (quality BETWEEN 0 AND 100), failed INTEGER NOT NULL CHECK (failed BETWEEN 0 AND 1)) STRICT";

/// Creates the index for look-ups by notice, by lot, and by the tenderer in a lot.
pub(crate) const CREATE_INDEX: &str =
    "CREATE INDEX envelopes_of_notice ON envelopes (notice, lot, tenderer)";

/// Inserts a tender, or replaces the row that has its key.
pub(crate) const PUT: &str =
    "INSERT INTO envelopes (receipt, notice, lot, tenderer, moment, length, digest, security, state, reading, stated, corrected, corrections, responsive, quality, failed) VALUES (?1, ?2, ?3, ?4, ?5, ?6, ?7, ?8, ?9, ?10, ?11, ?12, ?13, ?14, ?15, ?16) ON CONFLICT (receipt) DO UPDATE SET notice = ?2, lot = ?3, tenderer = ?4, moment = ?5, length = ?6, digest = ?7, security = ?8, state = ?9, reading = ?10, stated = ?11, corrected = ?12, corrections = ?13, responsive = ?14, quality = ?15, failed = ?16";

/// The values of a tender.
pub fn envelope_values(row: &EnvelopeRow) -> [ValueRef<'_>; 16]
    ensures row { bound result ≡ envelope_values row.now }
    ensures fits { EnvelopeFits row.now }
{
    [
        ValueRef::Int(signed(row.receipt.get())),
        ValueRef::Text(row.notice.as_bytes()),
        ValueRef::Text(row.lot.as_bytes()),
        ValueRef::Text(row.tenderer.as_bytes()),
        ValueRef::Int(signed(row.moment.second())),
        ValueRef::Int(signed(row.length.get())),
        ValueRef::Blob(&row.digest),
        given_or_null(row.security),
        ValueRef::Text(envelope_state_text(row.state)),
        word_value(&row.reading),
        stated_value(&row.reading),
        corrected_value(&row.reading),
        corrections_value(&row.reading),
        yes_or_null(row.responsive),
        quality_or_null(row.quality),
        yes_value(row.failed),
    ]
}

impl Stored for EnvelopeRow {
    ghost read = { envelope_read };

    ghost row_of = { envelope_values };

    ghost fits = { EnvelopeFits };

    fn from_row(_alloc: Global, row: &Row) -> Result<EnvelopeRow, ShelfFault> {
        has_columns(row, 16)?;
        Ok(EnvelopeRow {
            receipt: bounded_at(row, 0)?,
            notice: id_at(row, 1)?,
            lot: id_at(row, 2)?,
            tenderer: id_at(row, 3)?,
            moment: moment_at(row, 4)?,
            length: bounded_at(row, 5)?,
            digest: digest_at(row, 6)?,
            security: perhaps_bounded_at(row, 7)?,
            state: envelope_state_at(row, 8)?,
            reading: reading_at(row)?,
            responsive: perhaps_yes_at(row, 13)?,
            quality: perhaps_bounded_at(row, 14)?,
            failed: truth_at(row, 15)?,
        })
    }
}

/// The tender that has this receipt.
pub fn get_envelope<S: Alter>(
    alloc: Global,
    conn: &mut Connection<S>,
    receipt: AskedNumber,
) -> Result<Option<EnvelopeRow>, ShelfFault>
    ensures { TellsOnly S.Store conn.old conn.new result (λ t row. row ≡ envelope_at receipt t) }
{
    ask_first(
        alloc,
        conn,
        "SELECT receipt, notice, lot, tenderer, moment, length, digest, security, state, reading, stated, corrected, corrections, responsive, quality, failed FROM envelopes WHERE receipt = ?1",
        &[number_value(receipt)],
    )
}

/// The tenders of a notice, in the order of their receipts.
pub fn list_envelopes_of_notice<S: Alter>(
    alloc: Global,
    conn: &mut Connection<S>,
    notice: &Id,
) -> Result<Vec<EnvelopeRow>, ShelfFault>
    ensures { TellsOnly S.Store conn.old conn.new result (λ t rows. rows.items ≡ envelopes_of_notice notice.now t) }
{
    ask_all(
        alloc,
        conn,
        "SELECT receipt, notice, lot, tenderer, moment, length, digest, security, state, reading, stated, corrected, corrections, responsive, quality, failed FROM envelopes WHERE notice = ?1 ORDER BY receipt",
        &[id_value(notice)],
    )
}

/// The tenders of a lot, in the order of their receipts.
pub fn list_envelopes_of_lot<S: Alter>(
    alloc: Global,
    conn: &mut Connection<S>,
    notice: &Id,
    lot: &Id,
) -> Result<Vec<EnvelopeRow>, ShelfFault>
    ensures { TellsOnly S.Store conn.old conn.new result (λ t rows. rows.items ≡ envelopes_of_lot notice.now lot.now t) }
{
    ask_all(
        alloc,
        conn,
        "SELECT receipt, notice, lot, tenderer, moment, length, digest, security, state, reading, stated, corrected, corrections, responsive, quality, failed FROM envelopes WHERE notice = ?1 AND lot = ?2 ORDER BY receipt",
        &[id_value(notice), id_value(lot)],
    )
}

/// The tenders of a lot that a tenderer presented, in the order of their receipts.
pub fn list_envelopes_of_tenderer<S: Alter>(
    alloc: Global,
    conn: &mut Connection<S>,
    notice: &Id,
    lot: &Id,
    tenderer: &Id,
) -> Result<Vec<EnvelopeRow>, ShelfFault>
    ensures { TellsOnly S.Store conn.old conn.new result (λ t rows. rows.items ≡ envelopes_of_tenderer notice.now lot.now tenderer.now t) }
{
    ask_all(
        alloc,
        conn,
        "SELECT receipt, notice, lot, tenderer, moment, length, digest, security, state, reading, stated, corrected, corrections, responsive, quality, failed FROM envelopes WHERE notice = ?1 AND lot = ?2 AND tenderer = ?3 ORDER BY receipt",
        &[id_value(notice), id_value(lot), id_value(tenderer)],
    )
}
