//! Things of other programs in a file that lead to tables which a migration changes.
ghost use Rattle.std.specs.Prelude.{◌≡◌, false};
ghost use Rattle.std.specs.List.{list_any};
ghost use Rattle.office_store.specs.Others.{begins_with, goes_on, is_changed, is_of_word, leads_there, mentions, mentions_from, refers_there, shows_there};

use office_tables::editions::had_former;
use sqlite_schema::names::same_name;
use sqlite_schema::schema::{Schema, Table, View};

// The notices move from one table to another if the edition is before version 2.
fn is_changed(edition: u64, name: &[u8]) -> bool
    ensures { result ≡ is_changed edition name.now }
{
    same_name(b"office", name)
        || (had_former(edition) && (same_name(b"notices", name) || same_name(b"notices_2", name)))
}

fn refers_there(edition: u64, table: &Table) -> bool
    ensures { result ≡ refers_there edition table.now }
{
    let references = table.references.as_slice();
    references.iter().any(|reference| is_changed(edition, reference.parent.as_slice()))
}

fn is_of_word(byte: u8) -> bool
    ensures { result ≡ is_of_word byte }
{
    byte.is_ascii_alphanumeric() || byte == b'_' || byte == b'$' || byte >= 128
}

fn goes_on(text: &[u8]) -> bool
    ensures { result ≡ goes_on text.now }
{
    match text {
        [byte, ..] => is_of_word(*byte),
        [] => false,
    }
}

fn begins_with(word: &[u8], text: &[u8]) -> bool
    ensures { result ≡ begins_with word.now text.now }
{
    match text.split_at_checked(word.len()) {
        Some((front, rest)) => same_name(front, word) && !goes_on(rest),
        None => false,
    }
}

// Whether the word is one of the words of the text, in any case of its letters. `officers` doesn't contain the word `office`.
fn mentions(word: &[u8], text: &[u8]) -> bool
    ensures { result ≡ mentions word.now text.now }
{
    let mut rest = text;
    let mut within = false;
    while let [byte, after @ ..] = rest {
        if !within && begins_with(word, rest) {
            return true;
        }
        within = is_of_word(*byte);
        rest = after;
    }
    false
}

// A text that the database keeps but doesn't read is no view.
fn shows_there(edition: u64, view: &View) -> bool
    ensures { result ≡ shows_there edition view.now }
{
    if view.foreign.is_some() {
        return false;
    }
    let sql = view.sql.as_slice();
    mentions(b"office", sql)
        || (had_former(edition) && (mentions(b"notices", sql) || mentions(b"notices_2", sql)))
}

fn some_refer(edition: u64, tables: &[Table]) -> bool
    ensures { result ≡ list_any (refers_there edition) tables.now }
{
    tables.iter().any(|table| refers_there(edition, table))
}

fn some_show(edition: u64, views: &[View]) -> bool
    ensures { result ≡ list_any (shows_there edition) views.now }
{
    views.iter().any(|view| shows_there(edition, view))
}

/// Whether a foreign key or a view leads to a table that a migration from this edition changes.
pub(crate) fn leads_there(edition: u64, schema: &Schema) -> bool
    ensures { result ≡ leads_there edition schema.now }
{
    some_refer(edition, schema.tables.as_slice()) || some_show(edition, schema.views.as_slice())
}
