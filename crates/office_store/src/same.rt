//! Whether two tables of schemas are equal except for their trees.
ghost use Rattle.std.specs.Prelude.{◌≡◌, ◌↔◌, ◌<◌, false, IsTrue, [], length};
ghost use Rattle.sqlite_value.specs.declared.value.Value.TheVariants.{Null};
ghost use Rattle.sqlite_sql.specs.Term.{lit};
ghost use Rattle.sqlite_schema.specs.Code.{term_to, terms_in};
ghost use Rattle.office_store.specs.Forms.{HasPlainRules};

use sqlite_items::Items;
use sqlite_schema::code::{Op, Terms, lend_value};
use sqlite_schema::schema::{Column, Stamps, Table};
use sqlite_sql::ops::{BinaryOp, UnaryOp};
use sqlite_value::keys::Order;
use sqlite_value::order::is_same;
use sqlite_value::value::Value;

fn same_value(a: &Value, b: &Value) -> bool
    ensures { IsTrue result ↔ (a.now ≡ b.now) }
{
    is_same(lend_value(a), lend_value(b))
}

// Whether the term at this place is NULL.
fn is_null(ops: &[Op], depth: usize, at: usize) -> bool
    ensures { IsTrue result ↔ (term_to ops.now depth at ≡ lit Null) }
{
    if depth == 0 || at >= ops.len() {
        return true;
    }
    match &ops[at] {
        Op::Literal(Value::Null) => true,
        _ => false,
    }
}

// Whether there is no term at this place.
fn is_past(ops: &[Op], depth: usize, at: usize) -> bool
    ensures past { IsTrue result → term_to ops.now depth at ≡ lit Null }
    ensures within { result ≡ false → (0 < depth) × (at < length ops.now) }
{
    depth == 0 || at >= ops.len()
}

fn same_unary(a: UnaryOp, b: UnaryOp) -> bool
    ensures { IsTrue result ↔ (a ≡ b) }
{
    a == b
}

fn same_binary(a: BinaryOp, b: BinaryOp) -> bool
    ensures { IsTrue result ↔ (a ≡ b) }
{
    a == b
}

// Whether the terms at two places are the same, each read to a depth.
fn same_term(a: &[Op], deep: usize, at: usize, b: &[Op], depth: usize, place: usize) -> bool
    ensures { IsTrue result ↔ (term_to a.now deep at ≡ term_to b.now depth place) }
{
    if is_past(a, deep, at) {
        return is_null(b, depth, place);
    }
    if is_past(b, depth, place) {
        return is_null(a, deep, at);
    }
    let (low, under) = (deep - 1, depth - 1);
    match (&a[at], &b[place]) {
        (Op::Literal(value), Op::Literal(other)) => same_value(value, other),
        (Op::Column(slot, i), Op::Column(other, j)) => slot == other && i == j,
        (Op::Unary(op, x), Op::Unary(other, y)) => {
            same_unary(*op, *other) && same_term(a, low, *x, b, under, *y)
        }
        (Op::Binary(op, x, y), Op::Binary(other, z, w)) => {
            same_binary(*op, *other)
                && same_term(a, low, *x, b, under, *z)
                && same_term(a, low, *y, b, under, *w)
        }
        (Op::Case(test, x, y), Op::Case(other, z, w)) => {
            same_term(a, low, *test, b, under, *other)
                && same_term(a, low, *x, b, under, *z)
                && same_term(a, low, *y, b, under, *w)
        }
        _ => false,
    }
}

fn same_column(a: &Column, b: &Column) -> bool
    ensures { IsTrue result ↔ (a.now ≡ b.now) }
{
    a.name.as_slice() == b.name.as_slice()
        && a.kind == b.kind
        && a.is_strict == b.is_strict
        && a.not_null == b.not_null
        && same_value(&a.default, &b.default)
        && a.collation == b.collation
}

fn same_roots(a: &[Op], places: &[usize], b: &[Op], others: &[usize]) -> bool
    ensures { IsTrue result ↔ (terms_in a.now places.now ≡ terms_in b.now others.now) }
{
    if places.len() != others.len() {
        return false;
    }
    for at in 0..places.len() {
        if !same_term(a, a.len(), places[at], b, b.len(), others[at]) {
            return false;
        }
    }
    true
}

fn same_terms(a: &Terms, b: &Terms) -> bool
    ensures { IsTrue result ↔ (a.now ≡ b.now) }
{
    same_roots(
        a.nodes.as_slice(),
        a.roots.as_slice(),
        b.nodes.as_slice(),
        b.roots.as_slice(),
    )
}

fn are_bare(stamps: &Stamps) -> bool
    ensures { IsTrue result ↔ (stamps.now ≡ record { places = []; terms = []; formats = [] }) }
{
    stamps.places.is_empty() && stamps.terms.roots.is_empty() && stamps.formats.is_empty()
}

fn same_columns(a: &[Column], b: &[Column]) -> bool
    ensures { IsTrue result ↔ (a.now ≡ b.now) }
{
    if a.len() != b.len() {
        return false;
    }
    for at in 0..a.len() {
        if !same_column(&a[at], &b[at]) {
            return false;
        }
    }
    true
}

fn same_places(a: &[usize], b: &[usize]) -> bool
    ensures { IsTrue result ↔ (a.now ≡ b.now) }
{
    a == b
}

fn same_orders(a: &[Order], b: &[Order]) -> bool
    ensures { IsTrue result ↔ (a.now ≡ b.now) }
{
    if a.len() != b.len() {
        return false;
    }
    for at in 0..a.len() {
        if a[at] != b[at] {
            return false;
        }
    }
    true
}

fn same_keys(a: &[Items<usize>], b: &[Items<usize>]) -> bool
    ensures { IsTrue result ↔ (a.now ≡ b.now) }
{
    if a.len() != b.len() {
        return false;
    }
    for at in 0..a.len() {
        if !same_places(a[at].as_slice(), b[at].as_slice()) {
            return false;
        }
    }
    true
}

// Whether a table has no rules except types, NOT NULL, CHECK and keys.
fn is_plain(table: &Table) -> bool
    ensures { IsTrue result ↔ HasPlainRules table.now }
{
    table.references.is_empty() && table.computed.is_empty() && are_bare(&table.stamps)
}

fn same_keyed(a: &Table, b: &Table) -> bool
    ensures { IsTrue result ↔ ((a.now.key ≡ b.now.key) × (a.now.primary ≡ b.now.primary) × (a.now.uniques ≡ b.now.uniques) × (a.now.orders ≡ b.now.orders)) }
{
    a.key == b.key
        && a.primary.as_slice() == b.primary.as_slice()
        && same_keys(a.uniques.as_slice(), b.uniques.as_slice())
        && same_orders(a.orders.as_slice(), b.orders.as_slice())
}

/// Whether two tables are equal except for their trees: the same columns, keys and conditions, and no rules of other kinds.
pub(crate) fn same_form(a: &Table, b: &Table) -> bool
    ensures same { IsTrue result → a.now ≡ record b.now { tree = a.now.tree } }
    ensures found { HasPlainRules b.now → a.now ≡ record b.now { tree = a.now.tree } → IsTrue result }
{
    a.name.as_slice() == b.name.as_slice()
        && same_columns(a.columns.as_slice(), b.columns.as_slice())
        && same_keyed(a, b)
        && same_terms(&a.checks, &b.checks)
        && is_plain(a)
        && is_plain(b)
        && a.is_counted == b.is_counted
}
