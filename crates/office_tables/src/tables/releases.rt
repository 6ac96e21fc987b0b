//! The table of releases: its SQL texts, its rows as values, and its look-ups.
ghost use Rattle.std.specs.Prelude.{◌≡◌};
ghost use Rattle.sqlite.specs.Values.{bound};
ghost use Rattle.office_base.specs.Tables.{release_at, release_numbers, releases_of_notice};
ghost use Rattle.office_tables.specs.Ranges.{IsWithin};
ghost use Rattle.office_tables.specs.Steps.{TellsOnly};
ghost use Rattle.office_tables.specs.Tables.Releases.{release_values, release_read, number_read, number_row, ReleaseFits};

use crate::ask::{ask_all, ask_first};
use crate::columns::{bounded_at, has_columns, id_at, json_at, moment_at};
use crate::stored::Stored;
use crate::values::{id_value, sequence_value, signed};
use office_base::counts::Sequence;
use office_base::records::ReleaseRow;
use office_base::shelf::ShelfFault;
use office_values::id::Id;
use sqlite::{Alter, Connection, Row};
use sqlite_value::value::ValueRef;
use std::alloc::Global;

/// Creates the table.
pub(crate) const CREATE: &str =
    "CREATE TABLE releases (notice TEXT NOT NULL CHECK (length(notice) BETWEEN 1 AND 32), seq INTEGER NOT NULL CHECK (seq BETWEEN 1 AND 9999), moment INTEGER NOT NULL CHECK (moment BETWEEN 0 AND 4102444799), text TEXT NOT NULL, PRIMARY KEY (notice, seq)) STRICT";

/// Inserts a release, or replaces the row that has its key.
pub(crate) const PUT: &str =
    "INSERT INTO releases (notice, seq, moment, text) VALUES (?1, ?2, ?3, ?4) ON CONFLICT (notice, seq) DO UPDATE SET moment = ?3, text = ?4";

/// The values of a release.
pub fn release_values(row: &ReleaseRow) -> [ValueRef<'_>; 4]
    ensures row { bound result ≡ release_values row.now }
    ensures fits { ReleaseFits row.now }
{
    [
        ValueRef::Text(row.notice.as_bytes()),
        ValueRef::Int(signed(row.seq.get())),
        ValueRef::Int(signed(row.moment.second())),
        ValueRef::Text(row.text.as_str().as_bytes()),
    ]
}

impl Stored for ReleaseRow {
    ghost read = { release_read };

    ghost row_of = { release_values };

    ghost fits = { ReleaseFits };

    fn from_row(alloc: Global, row: &Row) -> Result<ReleaseRow, ShelfFault> {
        has_columns(row, 4)?;
        Ok(ReleaseRow {
            notice: id_at(row, 0)?,
            seq: bounded_at(row, 1)?,
            moment: moment_at(row, 2)?,
            text: json_at(alloc, row, 3)?,
        })
    }
}

// The number of a release, if a query shows that column alone.
impl Stored for Sequence {
    ghost read = { number_read };

    ghost row_of = { number_row };

    ghost fits = { IsWithin 1 9999 };

    fn from_row(_alloc: Global, row: &Row) -> Result<Sequence, ShelfFault> {
        has_columns(row, 1)?;
        bounded_at(row, 0)
    }
}

/// The release of this notice with this number.
pub fn get_release<S: Alter>(
    alloc: Global,
    conn: &mut Connection<S>,
    notice: &Id,
    seq: Sequence,
) -> Result<Option<ReleaseRow>, ShelfFault>
    ensures { TellsOnly S.Store conn.old conn.new result (λ t row. row ≡ release_at (notice.now, seq) t) }
{
    ask_first(
        alloc,
        conn,
        "SELECT notice, seq, moment, text FROM releases WHERE notice = ?1 AND seq = ?2",
        &[id_value(notice), sequence_value(seq)],
    )
}

/// The releases of a notice, in the order of their numbers.
pub fn list_releases_of_notice<S: Alter>(
    alloc: Global,
    conn: &mut Connection<S>,
    notice: &Id,
) -> Result<Vec<ReleaseRow>, ShelfFault>
    ensures { TellsOnly S.Store conn.old conn.new result (λ t rows. rows.items ≡ releases_of_notice notice.now t) }
{
    ask_all(
        alloc,
        conn,
        "SELECT notice, seq, moment, text FROM releases WHERE notice = ?1 ORDER BY notice, seq",
        &[id_value(notice)],
    )
}

/// The numbers of a notice's releases, in their order. SQLite finds them in the key's index, so it reads no text.
pub fn list_release_numbers<S: Alter>(
    alloc: Global,
    conn: &mut Connection<S>,
    notice: &Id,
) -> Result<Vec<Sequence>, ShelfFault>
    ensures { TellsOnly S.Store conn.old conn.new result (λ t numbers. numbers.items ≡ release_numbers notice.now t) }
{
    ask_all(
        alloc,
        conn,
        "SELECT seq FROM releases WHERE notice = ?1 ORDER BY notice, seq",
        &[id_value(notice)],
    )
}
