//! The table of notices and that of version 1: their SQL texts, their rows as values, the look-ups, and the put.
ghost use Rattle.std.specs.Prelude.{◌≡◌, [], ◌∷◌, IsTrue, OnOk, OnErr, IfErr};
ghost use Rattle.sqlite.specs.Held.{state};
ghost use Rattle.sqlite.specs.State.{HasCleanDisk, Survives};
ghost use Rattle.sqlite.specs.Values.{bound};
ghost use Rattle.office_base.specs.Tables.{notice_at};
ghost use Rattle.office_base.specs.Pages.{notices_after};
ghost use Rattle.office_tables.specs.Steps.{TellsOnly, Puts, Refused};
ghost use Rattle.office_tables.specs.Failing.{ErrorHasCause};
ghost use Rattle.office_tables.specs.Statements.{OneFails, RunAll, notice_put};
ghost use Rattle.office_tables.specs.Tables.Notices.{notice_values, notice_read, NoticeFits, former_values, former_read};

use crate::ask::{ask_all, ask_first};
use crate::columns::{
    amount_at, bounded_at, has_columns, id_at, line_at, moment_at, perhaps_moment_at,
};
use crate::statement::put_row;
use crate::stored::Stored;
use crate::values::{count_value, id_value, moment_or_null, signed};
use crate::words::{notice_state_at, notice_state_text};
use office_base::puts::Put;
use office_base::records::NoticeRow;
use office_base::shelf::ShelfFault;
use office_values::id::Id;
use office_values::money::Amount;
use sqlite::{Alter, Connection, Error, Row, Transaction};
use sqlite_value::value::ValueRef;
use std::alloc::Global;

/// Creates the table.
pub(crate) const CREATE: &str =
    "CREATE TABLE notices_2 (notice TEXT NOT NULL PRIMARY KEY CHECK (length(notice) BETWEEN 1 AND 32), title TEXT NOT NULL CHECK (length(title) BETWEEN 1 AND 200), published INTEGER NOT NULL CHECK (published BETWEEN 0 AND 4102444799), deadline INTEGER NOT NULL CHECK (deadline BETWEEN 0 AND 4102444799), validity INTEGER NOT NULL CHECK (validity BETWEEN 1 AND 365), standstill INTEGER NOT NULL CHECK (standstill BETWEEN 0 AND 90), weight INTEGER NOT NULL CHECK (weight BETWEEN 0 AND 100), state TEXT NOT NULL CHECK (state IN ('receiving', 'opened', 'cancelled')), opened INTEGER CHECK (opened BETWEEN 0 AND 4102444799), amendments INTEGER NOT NULL CHECK (amendments BETWEEN 0 AND 50), releases INTEGER NOT NULL CHECK (releases BETWEEN 0 AND 9999), performance INTEGER NOT NULL CHECK (performance BETWEEN 0 AND 1000000000000)) STRICT";

/// Creates the table of version 1.
pub(crate) const CREATE_FORMER: &str =
    "CREATE TABLE notices (notice TEXT NOT NULL PRIMARY KEY CHECK (length(notice) BETWEEN 1 AND 32), title TEXT NOT NULL CHECK (length(title) BETWEEN 1 AND 200), published INTEGER NOT NULL CHECK (published BETWEEN 0 AND 4102444799), deadline INTEGER NOT NULL CHECK (deadline BETWEEN 0 AND 4102444799), validity INTEGER NOT NULL CHECK (validity BETWEEN 1 AND 365), standstill INTEGER NOT NULL CHECK (standstill BETWEEN 0 AND 90), weight INTEGER NOT NULL CHECK (weight BETWEEN 0 AND 100), state TEXT NOT NULL CHECK (state IN ('receiving', 'opened', 'cancelled')), opened INTEGER CHECK (opened BETWEEN 0 AND 4102444799), amendments INTEGER NOT NULL CHECK (amendments BETWEEN 0 AND 50), releases INTEGER NOT NULL CHECK (releases BETWEEN 0 AND 9999)) STRICT";

/// Inserts a notice, or replaces the row that has its key.
pub(crate) const PUT: &str =
    "INSERT INTO notices_2 (notice, title, published, deadline, validity, standstill, weight, state, opened, amendments, releases, performance) VALUES (?1, ?2, ?3, ?4, ?5, ?6, ?7, ?8, ?9, ?10, ?11, ?12) ON CONFLICT (notice) DO UPDATE SET title = ?2, published = ?3, deadline = ?4, validity = ?5, standstill = ?6, weight = ?7, state = ?8, opened = ?9, amendments = ?10, releases = ?11, performance = ?12";

/// The values of a notice.
pub fn notice_values(row: &NoticeRow) -> [ValueRef<'_>; 12]
    ensures row { bound result ≡ notice_values row.now }
    ensures fits { NoticeFits row.now }
{
    [
        ValueRef::Text(row.notice.as_bytes()),
        ValueRef::Text(row.title.as_str().as_bytes()),
        ValueRef::Int(signed(row.published.second())),
        ValueRef::Int(signed(row.deadline.second())),
        ValueRef::Int(signed(row.validity.get())),
        ValueRef::Int(signed(row.standstill.get())),
        ValueRef::Int(signed(row.weight.get())),
        ValueRef::Text(notice_state_text(row.state)),
        moment_or_null(row.opened),
        ValueRef::Int(signed(row.amendments.get())),
        ValueRef::Int(signed(row.releases.get())),
        ValueRef::Int(signed(row.performance.units())),
    ]
}

impl Stored for NoticeRow {
    ghost read = { notice_read };

    ghost row_of = { notice_values };

    ghost fits = { NoticeFits };

    fn from_row(alloc: Global, row: &Row) -> Result<NoticeRow, ShelfFault> {
        has_columns(row, 12)?;
        Ok(NoticeRow {
            notice: id_at(row, 0)?,
            title: line_at(alloc, row, 1)?,
            published: moment_at(row, 2)?,
            deadline: moment_at(row, 3)?,
            validity: bounded_at(row, 4)?,
            standstill: bounded_at(row, 5)?,
            weight: bounded_at(row, 6)?,
            state: notice_state_at(row, 7)?,
            opened: perhaps_moment_at(row, 8)?,
            amendments: bounded_at(row, 9)?,
            releases: bounded_at(row, 10)?,
            performance: amount_at(row, 11)?,
        })
    }
}

/// A notice in the table of version 1, which had no performance securities. It is read as one that asks for none.
#[derive(Drop)]
pub struct FormerNotice {
    pub row: NoticeRow,
}

impl Stored for FormerNotice {
    ghost read = { λ r. record { row = former_read r } };

    ghost row_of = { λ x. former_values x.row };

    ghost fits = { λ x. NoticeFits x.row };

    fn from_row(alloc: Global, row: &Row) -> Result<FormerNotice, ShelfFault> {
        has_columns(row, 11)?;
        Ok(FormerNotice {
            row: NoticeRow {
                notice: id_at(row, 0)?,
                title: line_at(alloc, row, 1)?,
                published: moment_at(row, 2)?,
                deadline: moment_at(row, 3)?,
                validity: bounded_at(row, 4)?,
                standstill: bounded_at(row, 5)?,
                weight: bounded_at(row, 6)?,
                performance: Amount::read(0).unwrap(),
                state: notice_state_at(row, 7)?,
                opened: perhaps_moment_at(row, 8)?,
                amendments: bounded_at(row, 9)?,
                releases: bounded_at(row, 10)?,
            },
        })
    }
}

/// The notice of this identifier.
pub fn get_notice<S: Alter>(
    alloc: Global,
    conn: &mut Connection<S>,
    notice: &Id,
) -> Result<Option<NoticeRow>, ShelfFault>
    ensures { TellsOnly S.Store conn.old conn.new result (λ t row. row ≡ notice_at notice.now t) }
{
    ask_first(
        alloc,
        conn,
        "SELECT notice, title, published, deadline, validity, standstill, weight, state, opened, amendments, releases, performance FROM notices_2 WHERE notice = ?1",
        &[id_value(notice)],
    )
}

/// The first `most` notices after this one, or the first of all, in the order of their identifiers.
pub fn list_notices_after<S: Alter>(
    alloc: Global,
    conn: &mut Connection<S>,
    after: Option<Id>,
    most: u32,
) -> Result<Vec<NoticeRow>, ShelfFault>
    ensures { TellsOnly S.Store conn.old conn.new result (λ t rows. rows.items ≡ notices_after after most t) }
{
    match after {
        Some(notice) => ask_all(
            alloc,
            conn,
            "SELECT notice, title, published, deadline, validity, standstill, weight, state, opened, amendments, releases, performance FROM notices_2 WHERE notice > ?1 ORDER BY notice LIMIT ?2",
            &[id_value(&notice), count_value(most)],
        ),
        None => ask_all(
            alloc,
            conn,
            "SELECT notice, title, published, deadline, validity, standstill, weight, state, opened, amendments, releases, performance FROM notices_2 ORDER BY notice LIMIT ?1",
            &[count_value(most)],
        ),
    }
}

/// Inserts a notice, or replaces the one that has its key.
pub fn put_notice<S: Alter>(tx: &mut Transaction<'_, S>, row: &NoticeRow) -> Result<(), Error>
    ensures same_reference { tx.new.conn.ghost_name ≡ tx.old.conn.ghost_name }
    ensures puts { HasCleanDisk (state S.Store tx.new.conn.now) → IsTrue (state S.Store tx.old.conn.now).in_transaction → OnOk result (Puts (state S.Store tx.old.conn.now) (state S.Store tx.new.conn.now) (Put.Notice row.now ∷ [])) }
    ensures refused { HasCleanDisk (state S.Store tx.new.conn.now) → IsTrue (state S.Store tx.old.conn.now).in_transaction → OnErr result (Refused (state S.Store tx.old.conn.now) (state S.Store tx.new.conn.now)) }
    ensures failed { ErrorHasCause (state S.Store tx.old.conn.now) (state S.Store tx.new.conn.now) (Put.Notice row.now ∷ []) result }
    ensures ran { HasCleanDisk (state S.Store tx.new.conn.now) → IsTrue (state S.Store tx.old.conn.now).in_transaction → OnOk result (RunAll S.Store (notice_put row.now ∷ []) tx.old.conn.now tx.new.conn.now) }
    ensures fails { HasCleanDisk (state S.Store tx.new.conn.now) → IsTrue (state S.Store tx.old.conn.now).in_transaction → IfErr result (OneFails S.Store (notice_put row.now ∷ []) tx.old.conn.now tx.new.conn.now) }
    ensures survives { Survives (state S.Store tx.old.conn.now) (state S.Store tx.new.conn.now) (λ _. ⊥) }
{
    put_row(tx, PUT, &notice_values(row))
}
