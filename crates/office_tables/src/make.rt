//! Makes an office in a database, which may have other tables.
ghost use Rattle.std.specs.Prelude.{◌≡◌, ℕ, List, false, [], ◌∷◌, Ok, Err, IsTrue, OnOk, OnErr, IfErr, map};
ghost use Rattle.sqlite_schema.specs.declared.schema.Index.{Index};
ghost use Rattle.sqlite.specs.Held.{state};
ghost use Rattle.sqlite.specs.State.{HasCleanDisk, Survives, ExecutesInside};
ghost use Rattle.office_base.specs.Tables.{first_clock};
ghost use Rattle.office_tables.specs.Tables.Office.{clock_values, upsert_office};
ghost use Rattle.office_tables.specs.Schema.{OfficeTable, table_of, create_of};
ghost use Rattle.office_tables.specs.Making.{IsCreate, IsIndexing, AreIndexings, Makes, Indexes, Founds, onto};
ghost use Rattle.office_tables.specs.Steps.{Refused};

use crate::statement::execute_one;
use crate::tables::{awards, contracts, envelopes, lots, make_office, office, securities};
use office_base::records::ClockRow;
use office_values::given::LastNumber;
use office_values::moment::Moment;
use sqlite::{Alter, Error, Transaction};

// Runs one CREATE TABLE.
pub(crate) fn make_table<S: Alter>(tx: &mut Transaction<'_, S>, sql: &str) -> Result<(), Error>
    ensures same_reference { tx.new.conn.ghost_name ≡ tx.old.conn.ghost_name }
    ensures made { HasCleanDisk (state S.Store tx.new.conn.now) → IsTrue (state S.Store tx.old.conn.now).in_transaction → (k : OfficeTable) → IsCreate sql.now (table_of k) → OnOk result (Makes (state S.Store tx.old.conn.now) (state S.Store tx.new.conn.now) (k ∷ [])) }
    ensures ran { HasCleanDisk (state S.Store tx.new.conn.now) → IsTrue (state S.Store tx.old.conn.now).in_transaction → OnOk result ((count : ℕ) × ExecutesInside 0 sql.now [] (state S.Store tx.old.conn.now) (state S.Store tx.new.conn.now) (Ok count)) }
    ensures fails { HasCleanDisk (state S.Store tx.new.conn.now) → IsTrue (state S.Store tx.old.conn.now).in_transaction → IfErr result (λ e. ExecutesInside 0 sql.now [] (state S.Store tx.old.conn.now) (state S.Store tx.new.conn.now) (Err e)) }
    ensures refused { HasCleanDisk (state S.Store tx.new.conn.now) → IsTrue (state S.Store tx.old.conn.now).in_transaction → OnErr result (Refused (state S.Store tx.old.conn.now) (state S.Store tx.new.conn.now)) }
    ensures survives { Survives (state S.Store tx.old.conn.now) (state S.Store tx.new.conn.now) (λ _. ⊥) }
{
    execute_one(tx, sql, &[])
}

// Runs one CREATE INDEX.
fn make_index<S: Alter>(tx: &mut Transaction<'_, S>, sql: &str) -> Result<(), Error>
    ensures same_reference { tx.new.conn.ghost_name ≡ tx.old.conn.ghost_name }
    ensures made { HasCleanDisk (state S.Store tx.new.conn.now) → IsTrue (state S.Store tx.old.conn.now).in_transaction → (k : OfficeTable) (index : Index) → IsIndexing sql.now (table_of k) index → index.is_unique ≡ false → OnOk result (Indexes (state S.Store tx.old.conn.now) (state S.Store tx.new.conn.now)) }
    ensures refused { HasCleanDisk (state S.Store tx.new.conn.now) → IsTrue (state S.Store tx.old.conn.now).in_transaction → OnErr result (Refused (state S.Store tx.old.conn.now) (state S.Store tx.new.conn.now)) }
    ensures survives { Survives (state S.Store tx.old.conn.now) (state S.Store tx.new.conn.now) (λ _. ⊥) }
{
    execute_one(tx, sql, &[])
}

// Creates tables of the office by their texts, in this order.
pub(crate) fn make_tables<S: Alter>(
    tx: &mut Transaction<'_, S>,
    first: &str,
    more: &[&str],
) -> Result<(), Error>
    ensures same_reference { tx.new.conn.ghost_name ≡ tx.old.conn.ghost_name }
    ensures made { HasCleanDisk (state S.Store tx.new.conn.now) → IsTrue (state S.Store tx.old.conn.now).in_transaction → (ks : List OfficeTable) → map create_of ks ≡ first.now ∷ map (λ text. text.now) more.now → OnOk result (Makes (state S.Store tx.old.conn.now) (state S.Store tx.new.conn.now) (onto [] ks)) }
    ensures refused { HasCleanDisk (state S.Store tx.new.conn.now) → IsTrue (state S.Store tx.old.conn.now).in_transaction → (ks : List OfficeTable) → map create_of ks ≡ first.now ∷ map (λ text. text.now) more.now → OnErr result (Refused (state S.Store tx.old.conn.now) (state S.Store tx.new.conn.now)) }
    ensures survives { Survives (state S.Store tx.old.conn.now) (state S.Store tx.new.conn.now) (λ _. ⊥) }
{
    make_table(tx, first)?;
    'texts: for text in more {
        make_table(tx, text)?;
    }
    Ok(())
}

// Creates indexes on tables of the office by their texts.
fn make_indexes<S: Alter>(
    tx: &mut Transaction<'_, S>,
    first: &str,
    more: &[&str],
) -> Result<(), Error>
    ensures same_reference { tx.new.conn.ghost_name ≡ tx.old.conn.ghost_name }
    ensures made { HasCleanDisk (state S.Store tx.new.conn.now) → IsTrue (state S.Store tx.old.conn.now).in_transaction → AreIndexings (first.now ∷ map (λ text. text.now) more.now) → OnOk result (Indexes (state S.Store tx.old.conn.now) (state S.Store tx.new.conn.now)) }
    ensures refused { HasCleanDisk (state S.Store tx.new.conn.now) → IsTrue (state S.Store tx.old.conn.now).in_transaction → AreIndexings (first.now ∷ map (λ text. text.now) more.now) → OnErr result (Refused (state S.Store tx.old.conn.now) (state S.Store tx.new.conn.now)) }
    ensures survives { Survives (state S.Store tx.old.conn.now) (state S.Store tx.new.conn.now) (λ _. ⊥) }
{
    make_index(tx, first)?;
    'texts: for text in more {
        make_index(tx, text)?;
    }
    Ok(())
}

// The clock of an office that has accepted no command.
fn first_clock() -> ClockRow
    ensures { result ≡ first_clock }
{
    let none = LastNumber::read(0).unwrap();
    ClockRow {
        moment: Moment::EPOCH,
        receipts: none,
        awards: none,
    }
}

// Inserts the one row of `office`: the version and the first clock.
fn put_first_clock<S: Alter>(tx: &mut Transaction<'_, S>) -> Result<(), Error>
    ensures same_reference { tx.new.conn.ghost_name ≡ tx.old.conn.ghost_name }
    ensures ran { HasCleanDisk (state S.Store tx.new.conn.now) → IsTrue (state S.Store tx.old.conn.now).in_transaction → OnOk result ((count : ℕ) × ExecutesInside 0 upsert_office (clock_values first_clock) (state S.Store tx.old.conn.now) (state S.Store tx.new.conn.now) (Ok count)) }
    ensures refused { HasCleanDisk (state S.Store tx.new.conn.now) → IsTrue (state S.Store tx.old.conn.now).in_transaction → OnErr result (Refused (state S.Store tx.old.conn.now) (state S.Store tx.new.conn.now)) }
    ensures survives { Survives (state S.Store tx.old.conn.now) (state S.Store tx.new.conn.now) (λ _. ⊥) }
{
    let clock = first_clock();
    execute_one(tx, office::PUT, &office::clock_values(&clock))
}

/// Makes the tables of an office without content, beside those that exist. It fails and commits nothing if a table, an index or a view already has one of
/// their names.
pub fn make<S: Alter>(tx: &mut Transaction<'_, S>) -> Result<(), Error>
    ensures same_reference { tx.new.conn.ghost_name ≡ tx.old.conn.ghost_name }
    ensures founds { HasCleanDisk (state S.Store tx.new.conn.now) → IsTrue (state S.Store tx.old.conn.now).in_transaction → OnOk result (Founds (state S.Store tx.old.conn.now) (state S.Store tx.new.conn.now)) }
    ensures refused { HasCleanDisk (state S.Store tx.new.conn.now) → IsTrue (state S.Store tx.old.conn.now).in_transaction → OnErr result (Refused (state S.Store tx.old.conn.now) (state S.Store tx.new.conn.now)) }
    ensures survives { Survives (state S.Store tx.old.conn.now) (state S.Store tx.new.conn.now) (λ _. ⊥) }
{
    make_office(tx)?;
    make_indexes(
        tx,
        lots::CREATE_INDEX,
        &[
            envelopes::CREATE_INDEX,
            securities::CREATE_INDEX,
            awards::CREATE_INDEX,
            contracts::CREATE_INDEX,
        ],
    )?;
    put_first_clock(tx)
}
