//! Checks whether the tables of an office in a database have their form.
ghost use Rattle.std.specs.Prelude.{◌≡◌, ◌&&◌, ◌==◌, ℕ, List, false, IsTrue, IfOk, IfErr, OnOk, length, filter, map};
ghost use Rattle.sqlite_schema.specs.declared.schema.Table.{Table as Form};
ghost use Rattle.sqlite_rules.specs.Lists.{Has};
ghost use Rattle.sqlite.specs.Held.{state};
ghost use Rattle.office_tables.specs.Known.{IsIn};
ghost use Rattle.office_tables.specs.Schema.{OfficeTable, table_of};
ghost use Rattle.office_store.specs.Forms.{HasForms, HasPlainRules, ListsForms, StandsAlike, StandsOrLacks, index_count};

use crate::found::{OpenFault, found};
use crate::same::same_form;
use crate::shelf::is_live;
use office_tables::editions::came_later;
use office_tables::tables::table_names;
use sqlite::{Alter, Connection, MemStore};
use sqlite_schema::schema::{Schema, Table};
use std::alloc::Global;

// An empty office in memory, whose tables show the form of all offices. It fails only if memory is too small.
fn blank(alloc: Global) -> Result<Connection<MemStore>, OpenFault>
    ensures forms { IfOk result (λ conn. ListsForms conn.schema) }
    ensures cause { IfErr result (λ e. e ≡ OpenFault.NoMemory) }
{
    let Ok(mut conn) = Connection::open_in_memory(alloc) else {
        return Err(OpenFault::NoMemory);
    };
    is_live(&conn);
    if let Err(_error) = found(&mut conn) {
        return Err(OpenFault::NoMemory);
    }
    if conn.is_autocommit() {
        Ok(conn)
    } else {
        Err(OpenFault::NoMemory)
    }
}

// The number of tables that have this tree.
fn tables_at(schema: &Schema, tree: u32) -> usize
    ensures { result ≡ length (filter (λ t. t.tree == tree) schema.now.tables) }
{
    let tables = schema.tables.as_slice();
    tables.iter().filter(|table| table.tree == tree).count()
}

// The number of unique indexes on the table of this tree.
fn guards_at(schema: &Schema, tree: u32) -> usize
    ensures { result ≡ length (filter (λ i. i.is_unique && (i.table == tree)) schema.now.indexes) }
{
    let indexes = schema.indexes.as_slice();
    indexes
        .iter()
        .filter(|index| index.is_unique && index.table == tree)
        .count()
}

fn index_count(key: Option<usize>) -> usize
    ensures { result ≡ index_count key }
{
    match key {
        Some(_) => 0,
        None => 1,
    }
}

// Whether the schema has a table of this form, guarded by the index of its key alone.
fn stands(schema: &Schema, form: &Table) -> bool
    ensures alike { IsTrue result → StandsAlike schema.now form.now }
    ensures found { HasPlainRules form.now → StandsAlike schema.now form.now → IsTrue result }
{
    let Some(place) = schema.table_named(form.name.as_slice()) else {
        return false;
    };
    let tables = schema.tables.as_slice();
    if place >= tables.len() {
        return false;
    }
    let table = &tables[place];
    if !same_form(table, form) {
        return false;
    }
    if tables_at(schema, table.tree) != 1 {
        return false;
    }
    guards_at(schema, table.tree) == index_count(form.key)
}

fn stands_or_lacks(schema: &Schema, form: &Table, edition: u64) -> bool
    ensures right { IsTrue result → StandsOrLacks edition schema.now form.now }
    ensures found { HasPlainRules form.now → StandsOrLacks edition schema.now form.now → IsTrue result }
{
    let name = form.name.as_slice();
    stands(schema, form) || (came_later(edition, name) && schema.table_named(name).is_none())
}

// Whether the schema has the table of this name in its form. In an office of an earlier edition, a table that came later may be missing.
fn form_stands(schema: &Schema, forms: &Schema, name: &[u8], edition: u64) -> bool
    ensures right { IsTrue result → (form : Form) (n : ℕ) → name.now ≡ form.name → IsIn forms.now form n → StandsOrLacks edition schema.now form }
    ensures found { (form : Form) (n : ℕ) → name.now ≡ form.name → IsIn forms.now form n → HasPlainRules form → StandsOrLacks edition schema.now form → IsTrue result }
{
    let Some(place) = forms.table_named(name) else {
        return false;
    };
    let tables = forms.tables.as_slice();
    place < tables.len() && stands_or_lacks(schema, &tables[place], edition)
}

// Whether the schema has each table of these names so.
fn named_stand(schema: &Schema, forms: &Schema, names: &[&[u8]], edition: u64) -> bool
    ensures right { IsTrue result → (form : Form) (n : ℕ) → Has (map (λ name. name.now) names.now) form.name → IsIn forms.now form n → StandsOrLacks edition schema.now form }
    ensures found { ((name : List ℕ) → Has (map (λ name. name.now) names.now) name → (form : Form) × (n : ℕ) × (name ≡ form.name) × IsIn forms.now form n × HasPlainRules form × StandsOrLacks edition schema.now form) → IsTrue result }
{
    for name in names {
        if !form_stands(schema, forms, name, edition) {
            return false;
        }
    }
    true
}

fn all_stand(schema: &Schema, forms: &Schema, edition: u64) -> bool
    ensures right { IsTrue result → ListsForms forms.now → (k : OfficeTable) → StandsOrLacks edition schema.now (table_of k) }
    ensures found { ListsForms forms.now → ((k : OfficeTable) → StandsOrLacks edition schema.now (table_of k)) → IsTrue result }
{
    let names = table_names();
    named_stand(schema, forms, &names, edition)
}

/// Checks that each table of the office has its form, and returns `Store` if one hasn't. It reads only the schema.
pub(crate) fn check_forms<S: Alter>(
    alloc: Global,
    conn: &Connection<S>,
    edition: u64,
) -> Result<(), OpenFault>
    ensures forms { OnOk result (IsTrue (state S.Store conn.now).is_open → HasForms edition (state S.Store conn.now).committed.schema) }
    ensures cause { IfErr result (λ e. e ≡ OpenFault.NotAnOffice → ⊥) }
    ensures lacks { IfErr result (λ e. e ≡ OpenFault.Store → IsTrue (state S.Store conn.now).is_open → conn.now.in_transaction ≡ false → HasForms edition (state S.Store conn.now).committed.schema → ⊥) }
{
    if !conn.is_autocommit() {
        return Err(OpenFault::Store);
    }
    let forms = match blank(alloc) {
        Ok(forms) => forms,
        Err(fault) => return Err(fault),
    };
    if all_stand(conn.schema(), forms.schema(), edition) {
        Ok(())
    } else {
        Err(OpenFault::Store)
    }
}
