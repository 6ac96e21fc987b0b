//! Enters the office in a database, or makes one there.
ghost use Rattle.std.specs.Prelude.{◌≡◌, nat_lt, IsTrue, OnOk, OnErr, IfOk, IfErr};
ghost use Rattle.std.specs.List.{list_any};
ghost use Rattle.sqlite_catalog.specs.Change.{is_used};
ghost use Rattle.sqlite.specs.Held.{state};
ghost use Rattle.sqlite.specs.State.{HasCleanDisk, Survives};
ghost use Rattle.office_base.specs.Tables.{Tables};
ghost use Rattle.office_tables.specs.Earlier.{ShowsOffice};
ghost use Rattle.office_tables.specs.Failing.{DiskFails, fault_of};
ghost use Rattle.office_tables.specs.Steps.{Refused, ShowsTables};
ghost use Rattle.office_tables.specs.Tables.Office.{this_version};
ghost use Rattle.office_store.specs.Founding.{Founded, LeavesNew, LeavesOffice, Enters, EntersOrCanNot, IsNoOffice, IsSoundOpen, opening_of, takes_a_name, version_in, is_other_version, origin_of};
ghost use Rattle.office_store.specs.SqlMeaning.{LeavesShown};

use crate::migrate::ready;
use crate::opened::Origin;
use crate::shut::ask;
use office_base::shelf::ShelfFault;
use office_tables::editions::{edition_of, has_late};
use office_tables::faults::fault;
use office_tables::make::make;
use office_tables::tables::office::VERSION;
use office_tables::tables::table_names;
use office_tables::version::ask_version;
use sqlite::{Alter, Connection, Error, Row};
use sqlite_catalog::layout::is_used;
use sqlite_schema::schema::Schema;
use sqlite_value::value::ValueRef;
use std::alloc::Global;

/// Why no office was opened.
#[derive(Clone, Copy, Debug, PartialEq, Eq)]
pub enum OpenFault {
    /// Too little memory.
    NoMemory,
    /// The store failed, or the file can't be used as it is:
    /// - its log was used, and nothing can be read from it or it has no office;
    /// - a table of the office is missing, has another form, or has a trigger or a unique index of another program;
    /// - something else has the name of an index of the office or, in an office of an earlier edition, of a table that must be made;
    /// - in an office of an earlier edition, something of another program leads to a table that a migration changes.
    Store,
    /// The file holds no office of a version that this program knows:
    /// - the table `office` has another version or not exactly one row;
    /// - or no table can answer the query for the version, and something has the name of a table of the office.
    NotAnOffice,
}

/// A fault of the store, as a fault of an opening.
pub(crate) fn opening(fault: ShelfFault) -> OpenFault
    ensures is { result ≡ opening_of fault }
    ensures office { result ≡ OpenFault.NotAnOffice → ⊥ }
{
    match fault {
        ShelfFault::NoMemory => OpenFault::NoMemory,
        ShelfFault::Store => OpenFault::Store,
    }
}

/// An error of the database, as a fault of an opening.
pub(crate) fn open_fault(error: Error) -> OpenFault
    ensures is { result ≡ opening_of (fault_of error) }
    ensures office { result ≡ OpenFault.NotAnOffice → ⊥ }
{
    opening(fault(error))
}

/// Makes an empty office, in one transaction.
pub(crate) fn found<S: Alter>(conn: &mut Connection<S>) -> Result<(), Error>
    ensures founded { HasCleanDisk (state S.Store conn.new) → IsSoundOpen (state S.Store conn.old) → OnOk result (Founded (state S.Store conn.old) (state S.Store conn.new)) }
    ensures refused { HasCleanDisk (state S.Store conn.new) → OnErr result (Refused (state S.Store conn.old) (state S.Store conn.new)) }
    ensures survives { Survives (state S.Store conn.old) (state S.Store conn.new) (LeavesNew (state S.Store conn.old)) }
{
    if !conn.is_autocommit() {
        return Err(Error::InvalidQuery);
    }
    let mut tx = conn.transaction();
    make(&mut tx)?;
    tx.commit()
}

// Whether the schema uses one of the names.
fn any_is_used(schema: &Schema, names: &[&[u8]]) -> bool
    ensures { result ≡ list_any (λ name. is_used schema.now name.now) names.now }
{
    'names: for name in names {
        if is_used(schema, name) {
            return true;
        }
    }
    false
}

// Whether the schema uses the name of a table. Names of indexes aren't checked: if one is taken, making the office fails as a fault of the store.
fn takes_a_name(schema: &Schema) -> bool
    ensures { result ≡ takes_a_name schema.now }
{
    let names = table_names();
    any_is_used(schema, &names)
}

// The version in the one row, or 0 if there is no such row.
fn version_in(rows: &[Row]) -> u64
    ensures { result ≡ version_in rows.now }
{
    if rows.len() != 1 || rows[0].column_count() != 1 {
        return 0;
    }
    match rows[0].get_ref(0) {
        Ok(ValueRef::Int(number)) if number >= 0 => number as u64,
        _ => 0,
    }
}

fn is_other_version(rows: &[Row]) -> bool
    ensures { result ≡ is_other_version rows.now }
{
    let version = version_in(rows);
    !(0 < version && version <= VERSION)
}

// Fails if the store was shut at the end of the transaction in which it answered.
pub(crate) fn still_open<S: Alter>(conn: &mut Connection<S>) -> Result<(), OpenFault>
    ensures is_open { HasCleanDisk (state S.Store conn.new) → OnOk result (IsTrue (state S.Store conn.new).is_open) }
    ensures cause { IfErr result (λ e. e ≡ OpenFault.NotAnOffice → ⊥) }
    ensures failed { HasCleanDisk (state S.Store conn.new) → IfErr result (λ e. e ≡ OpenFault.Store → IsTrue (state S.Store conn.old).is_open → DiskFails (state S.Store conn.old) (state S.Store conn.new)) }
    ensures kept { HasCleanDisk (state S.Store conn.new) → Refused (state S.Store conn.old) (state S.Store conn.new) }
    ensures survives { Survives (state S.Store conn.old) (state S.Store conn.new) (λ _. ⊥) }
{
    match ask(conn) {
        Ok(false) => Ok(()),
        Ok(true) => Err(OpenFault::Store),
        Err(fault) => Err(opening(fault)),
    }
}

fn origin_of(edition: u64) -> Origin
    ensures is { result ≡ origin_of (nat_lt edition this_version) }
    ensures entered { result ≡ Origin.Made → ⊥ }
{
    if edition < VERSION {
        Origin::Migrated
    } else {
        Origin::Found
    }
}

/// Enters the office in the database, and migrates it if it is of an earlier edition. If there is none, it makes an office, but only if it may, and if no name of
/// its tables is taken. After success the store is open.
pub(crate) fn enter<S: Alter>(
    alloc: Global,
    conn: &mut Connection<S>,
    may_make: bool,
) -> Result<Origin, OpenFault>
    ensures made { IfOk result (λ origin. origin ≡ Origin.Made → IsTrue may_make) }
    ensures enters { HasCleanDisk (state S.Store conn.new) → IfOk result (λ origin. Enters S.Store origin conn.old conn.new) }
    ensures none { HasCleanDisk (state S.Store conn.new) → IfErr result (λ e. e ≡ OpenFault.NotAnOffice → IsNoOffice S.Store conn.old) }
    ensures failed { HasCleanDisk (state S.Store conn.new) → IfErr result (λ e. EntersOrCanNot S.Store e conn.old conn.new) }
    ensures found { HasCleanDisk (state S.Store conn.new) → (t : Tables) → ShowsOffice (state S.Store conn.old) t → OnOk result (ShowsTables (state S.Store conn.new) t) }
    ensures known { HasCleanDisk (state S.Store conn.new) → (t : Tables) → ShowsOffice (state S.Store conn.old) t → IfErr result (λ e. e ≡ OpenFault.NotAnOffice → ⊥) }
    ensures is_open { HasCleanDisk (state S.Store conn.new) → OnOk result (IsTrue (state S.Store conn.new).is_open) }
    ensures sound { HasCleanDisk (state S.Store conn.new) → OnOk result (LeavesShown (state S.Store conn.new)) }
    ensures kept { HasCleanDisk (state S.Store conn.new) → OnErr result (Refused (state S.Store conn.old) (state S.Store conn.new)) }
    ensures survives { Survives (state S.Store conn.old) (state S.Store conn.new) (LeavesOffice S.Store conn.old) }
    ensures spared { IfErr result (λ e. e ≡ OpenFault.NotAnOffice → Survives (state S.Store conn.old) (state S.Store conn.new) (λ _. ⊥)) }
{
    if !conn.is_autocommit() {
        return Err(OpenFault::Store);
    }
    let taken = takes_a_name(conn.schema());
    let knows_late = has_late(conn.schema());
    match ask_version(conn) {
        Ok(rows) => {
            if is_other_version(rows.as_slice()) {
                return Err(OpenFault::NotAnOffice);
            }
            let edition = edition_of(version_in(rows.as_slice()), knows_late);
            match ready(alloc, conn, edition) {
                Ok(()) => Ok(origin_of(edition)),
                Err(fault) => Err(fault),
            }
        }
        Err(Error::SqlInputError(_)) => {
            if taken {
                return Err(OpenFault::NotAnOffice);
            }
            if !may_make {
                return Err(OpenFault::Store);
            }
            match found(conn) {
                Ok(()) => Ok(Origin::Made),
                Err(error) => Err(open_fault(error)),
            }
        }
        Err(error) => Err(open_fault(error)),
    }
}
