//! Lists and texts that an event borrows from the rows of the office. Contracts see only plain lists.
ghost use Rattle.std.specs.Prelude.{◌≡◌, ◌≤◌, ℕ, List, length, map, IfSome, IfNone};
ghost use Rattle.ocds_release.specs.Tenderers.{Tenderer, tenderer_shown};

use office_base::records::TendererRow;
use office_commands::lot::NewLot;
use office_values::text::TextLine;
use std::marker::Model;

/// A line of text, borrowed.
#[derive(Drop)]
pub struct BorrowedLine<'a> {
    line: &'a TextLine,
}

impl<'a> Model for BorrowedLine<'a> {
    ghost use Rattle.std.specs.Prelude.{List, ℕ};

    ghost Value = { List ℕ };

    ghost view = { λ l. l.line.now };
}

impl<'a> BorrowedLine<'a> {
    /// This line. Takes no memory.
    pub fn of(line: &'a TextLine) -> BorrowedLine<'a>
        ensures { result ≡ line.now }
    {
        BorrowedLine { line }
    }

    /// The text, borrowed.
    pub fn as_str(&self) -> &'a str
        ensures { result.now ≡ self.now }
    {
        self.line.as_str()
    }
}

/// A list of things, borrowed.
#[derive(Drop)]
pub struct Listed<'a, T> {
    things: &'a [T],
}

impl<'a, T> Model for Listed<'a, T> {
    ghost use Rattle.std.specs.Prelude.{List};

    ghost Value = { List T };

    ghost view = { λ l. l.things.now };
}

impl<'a, T> Listed<'a, T> {
    /// These things. Takes no memory.
    pub fn of(things: &'a [T]) -> Listed<'a, T>
        ensures { result ≡ things.now }
    {
        Listed { things }
    }

    /// The things, borrowed.
    pub fn as_slice(&self) -> &'a [T]
        ensures { result.now ≡ self.now }
    {
        self.things
    }
}

/// The largest number of lots of a notice.
pub const LOT_LIMIT: usize = 20;

/// The lots of a published notice, at most 20, in the order in which they were given.
#[derive(Drop)]
pub struct PublishedLots<'a> {
    lots: &'a [NewLot],
}

impl<'a> Model for PublishedLots<'a> {
    ghost use Rattle.std.specs.Prelude.{◌≤◌, List, length};
    ghost use Rattle.office_commands.specs.declared.lot.NewLot.{NewLot};

    ghost Value = { List NewLot };

    ghost view = { λ l. l.lots.now };

    ghost invariant = { λ l. length l.lots.now ≤ 20 };
}

impl<'a> PublishedLots<'a> {
    /// These lots, or `None` if there are more than 20. Takes no memory.
    pub fn read(lots: &'a [NewLot]) -> Option<PublishedLots<'a>>
        ensures found { IfSome result (λ all. all ≡ lots.now) }
        ensures few { IfSome result (λ _. length lots.now ≤ 20) }
        ensures none { IfNone result (¬ (length lots.now ≤ 20)) }
    {
        if lots.len() > LOT_LIMIT {
            return None;
        }
        Some(PublishedLots { lots })
    }

    /// The lots, borrowed.
    pub fn as_slice(&self) -> &'a [NewLot]
        ensures value { result.now ≡ self.now }
        ensures few { length self.now ≤ 20 }
    {
        self.lots
    }
}

/// The tenderers of an opening, by their rows. Contracts see only the data that is announced, and so not their keys.
#[derive(Drop)]
pub struct Tenderers<'a> {
    rows: &'a [TendererRow],
}

impl<'a> Model for Tenderers<'a> {
    ghost use Rattle.std.specs.Prelude.{List, map};
    ghost use Rattle.ocds_release.specs.Tenderers.{Tenderer, tenderer_shown};

    ghost Value = { List Tenderer };

    ghost view = { λ t. map tenderer_shown t.rows.now };
}

impl<'a> Tenderers<'a> {
    /// The tenderers of these rows. Takes no memory.
    pub fn of(rows: &'a [TendererRow]) -> Tenderers<'a>
        ensures { result ≡ map tenderer_shown rows.now }
    {
        Tenderers { rows }
    }

    /// The number of tenderers.
    pub fn count(&self) -> u64
        ensures { result ≡ length self.now }
    {
        self.rows.len() as u64
    }

    /// Their rows, borrowed.
    pub(crate) fn as_slice(&self) -> &'a [TendererRow]
        ensures { map tenderer_shown result.now ≡ self.now }
    {
        self.rows
    }
}
