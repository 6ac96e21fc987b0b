//! The editions of an office's tables: which tables came later, and how a migration makes those that are missing.
ghost use Rattle.std.specs.Prelude.{◌≡◌, ◌&&◌, nat_lt, true, false, List, [], ◌∷◌, IsTrue, OnOk, OnErr, IfErr, map};
ghost use Rattle.std.specs.List.{list_any};
ghost use Rattle.sqlite_schema.specs.Names.{same_name};
ghost use Rattle.sqlite_rules.specs.Lists.{Has};
ghost use Rattle.sqlite.specs.Held.{state};
ghost use Rattle.sqlite.specs.State.{HasCleanDisk, Survives};
ghost use Rattle.office_tables.specs.Earlier.{MakesMissing, had_former};
ghost use Rattle.office_tables.specs.Editions.{edition_of, lacks_table, has_late, later_line, later_tables, came_later};
ghost use Rattle.office_tables.specs.Making.{IsCreate, Makes};
ghost use Rattle.office_tables.specs.Schema.{OfficeTable, table_of};
ghost use Rattle.office_tables.specs.Statements.{OneFails, RunAll, creates};
ghost use Rattle.office_tables.specs.Steps.{Refused};

use crate::make::make_table;
use crate::tables::{begin, late_rules, notices, performances};
use sqlite::{Alter, Error, Transaction};
use sqlite_schema::names::same_name;
use sqlite_schema::schema::Schema;

// A table that came after edition 0: the edition that it came with, its name, and the text that creates it.
#[derive(Clone, Copy)]
struct Later(u64, &'static str, &'static str);

// The later tables, in the order in which they are made.
const LATER: [Later; 3] = [
    Later(1, "late_rules", late_rules::CREATE),
    Later(2, "notices_2", notices::CREATE),
    Later(2, "performance", performances::CREATE),
];

/// Whether the table of late withdrawals exists.
pub fn has_late(schema: &Schema) -> bool
    ensures { result ≡ has_late schema.now }
{
    schema.table_named(b"late_rules").is_some()
}

/// The edition of an office, by its version and by whether the table of late withdrawals exists.
pub fn edition_of(version: u64, knows_late: bool) -> u64
    ensures { result ≡ edition_of version knows_late }
{
    if !knows_late && version < 2 {
        0
    } else {
        version
    }
}

/// Whether an office of this edition has its notices in `notices`.
pub fn had_former(edition: u64) -> bool
    ensures { result ≡ had_former edition }
{
    edition < 2
}

fn is_named(edition: u64, table: &Later, name: &[u8]) -> bool
    ensures { result ≡ (nat_lt edition table.now.0 && same_name table.now.1.now name.now) }
{
    edition < table.0 && same_name(table.1.as_bytes(), name)
}

fn some_named(edition: u64, tables: &[Later], name: &[u8]) -> bool
    ensures { result ≡ list_any (λ (x : Later). nat_lt edition x.0 && same_name x.1.now name.now) tables.now }
{
    tables.iter().any(|table| is_named(edition, table, name))
}

/// Whether this is the name of a table that came after this edition.
pub fn came_later(edition: u64, name: &[u8]) -> bool
    ensures { result ≡ came_later edition name.now }
{
    some_named(edition, &LATER, name)
}

// Makes the table if it came after this edition.
fn make_missing<S: Alter>(
    tx: &mut Transaction<'_, S>,
    edition: u64,
    table: &Later,
) -> Result<(), Error>
    ensures same_reference { tx.new.conn.ghost_name ≡ tx.old.conn.ghost_name }
    ensures made { HasCleanDisk (state S.Store tx.new.conn.now) → IsTrue (state S.Store tx.old.conn.now).in_transaction → nat_lt edition table.now.0 ≡ true → (k : OfficeTable) → IsCreate table.now.2.now (table_of k) → OnOk result (Makes (state S.Store tx.old.conn.now) (state S.Store tx.new.conn.now) (k ∷ [])) }
    ensures there { nat_lt edition table.now.0 ≡ false → tx.new.conn.now ≡ tx.old.conn.now }
    ensures ran { HasCleanDisk (state S.Store tx.new.conn.now) → IsTrue (state S.Store tx.old.conn.now).in_transaction → OnOk result (RunAll S.Store (creates edition ((table.now.0, table.now.1.now, table.now.2.now) ∷ [])) tx.old.conn.now tx.new.conn.now) }
    ensures fails { HasCleanDisk (state S.Store tx.new.conn.now) → IsTrue (state S.Store tx.old.conn.now).in_transaction → IfErr result (OneFails S.Store (creates edition ((table.now.0, table.now.1.now, table.now.2.now) ∷ [])) tx.old.conn.now tx.new.conn.now) }
    ensures refused { HasCleanDisk (state S.Store tx.new.conn.now) → IsTrue (state S.Store tx.old.conn.now).in_transaction → OnErr result (Refused (state S.Store tx.old.conn.now) (state S.Store tx.new.conn.now)) }
    ensures survives { Survives (state S.Store tx.old.conn.now) (state S.Store tx.new.conn.now) (λ _. ⊥) }
{
    if edition < table.0 {
        make_table(tx, table.2)
    } else {
        Ok(())
    }
}

// Makes those of these tables that came after this edition, in their order.
fn make_among<S: Alter>(
    tx: &mut Transaction<'_, S>,
    edition: u64,
    tables: &[Later],
) -> Result<(), Error>
    ensures same_reference { tx.new.conn.ghost_name ≡ tx.old.conn.ghost_name }
    ensures made { HasCleanDisk (state S.Store tx.new.conn.now) → IsTrue (state S.Store tx.old.conn.now).in_transaction → (ks : List OfficeTable) → map later_line ks ≡ map (λ (x : Later). (x.0, x.1.now, x.2.now)) tables.now → ((k : OfficeTable) → lacks_table edition k ≡ true → Has ks k) → OnOk result (MakesMissing edition (state S.Store tx.old.conn.now) (state S.Store tx.new.conn.now)) }
    ensures ran { HasCleanDisk (state S.Store tx.new.conn.now) → IsTrue (state S.Store tx.old.conn.now).in_transaction → (ks : List OfficeTable) → map later_line ks ≡ map (λ (x : Later). (x.0, x.1.now, x.2.now)) tables.now → ((k : OfficeTable) → lacks_table edition k ≡ true → Has ks k) → OnOk result (RunAll S.Store (creates edition (map (λ (x : Later). (x.0, x.1.now, x.2.now)) tables.now)) tx.old.conn.now tx.new.conn.now) }
    ensures fails { HasCleanDisk (state S.Store tx.new.conn.now) → IsTrue (state S.Store tx.old.conn.now).in_transaction → (ks : List OfficeTable) → map later_line ks ≡ map (λ (x : Later). (x.0, x.1.now, x.2.now)) tables.now → ((k : OfficeTable) → lacks_table edition k ≡ true → Has ks k) → IfErr result (OneFails S.Store (creates edition (map (λ (x : Later). (x.0, x.1.now, x.2.now)) tables.now)) tx.old.conn.now tx.new.conn.now) }
    ensures refused { HasCleanDisk (state S.Store tx.new.conn.now) → IsTrue (state S.Store tx.old.conn.now).in_transaction → (ks : List OfficeTable) → map later_line ks ≡ map (λ (x : Later). (x.0, x.1.now, x.2.now)) tables.now → ((k : OfficeTable) → lacks_table edition k ≡ true → Has ks k) → OnErr result (Refused (state S.Store tx.old.conn.now) (state S.Store tx.new.conn.now)) }
    ensures survives { Survives (state S.Store tx.old.conn.now) (state S.Store tx.new.conn.now) (λ _. ⊥) }
{
    begin(tx)?;
    'tables: for table in tables {
        make_missing(tx, edition, table)?;
    }
    Ok(())
}

// Makes all tables that came after this edition.
pub(crate) fn make_later<S: Alter>(tx: &mut Transaction<'_, S>, edition: u64) -> Result<(), Error>
    ensures same_reference { tx.new.conn.ghost_name ≡ tx.old.conn.ghost_name }
    ensures made { HasCleanDisk (state S.Store tx.new.conn.now) → IsTrue (state S.Store tx.old.conn.now).in_transaction → OnOk result (MakesMissing edition (state S.Store tx.old.conn.now) (state S.Store tx.new.conn.now)) }
    ensures ran { HasCleanDisk (state S.Store tx.new.conn.now) → IsTrue (state S.Store tx.old.conn.now).in_transaction → OnOk result (RunAll S.Store (creates edition (map later_line later_tables)) tx.old.conn.now tx.new.conn.now) }
    ensures fails { HasCleanDisk (state S.Store tx.new.conn.now) → IsTrue (state S.Store tx.old.conn.now).in_transaction → IfErr result (OneFails S.Store (creates edition (map later_line later_tables)) tx.old.conn.now tx.new.conn.now) }
    ensures refused { HasCleanDisk (state S.Store tx.new.conn.now) → IsTrue (state S.Store tx.old.conn.now).in_transaction → OnErr result (Refused (state S.Store tx.old.conn.now) (state S.Store tx.new.conn.now)) }
    ensures survives { Survives (state S.Store tx.old.conn.now) (state S.Store tx.new.conn.now) (λ _. ⊥) }
{
    make_among(tx, edition, &LATER)
}
