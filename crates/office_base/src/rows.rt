//! Lists of rows that were looked up.
ghost use Rattle.std.specs.Prelude.{◌≡◌};

use std::marker::Model;

/// Rows that were looked up, in order. Contracts see a list, so the loaded rows can equal a table of the office.
#[derive(Drop)]
pub struct Rows<R: Drop> {
    rows: Vec<R>,
}

impl<R: Drop> Model for Rows<R> {
    ghost use Rattle.std.specs.Prelude.{List};

    ghost Value = { List R };

    ghost view = { λ r. r.rows.items };
}

impl<R: Drop> Rows<R> {
    /// The value of these rows. It allocates no memory.
    pub fn from_vec(rows: Vec<R>) -> Rows<R>
        ensures { result ≡ rows.items }
    {
        Rows { rows }
    }

    /// The rows, borrowed.
    pub fn as_slice(&self) -> &[R]
        ensures { result.now ≡ self.now }
    {
        self.rows.as_slice()
    }
}
