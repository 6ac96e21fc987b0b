//! An empty SQLite database in one page of 1,024 bytes.
ghost use Rattle.std.specs.Prelude.{◌≡◌, []};
ghost use Rattle.procure_programs.specs.Blank.{empty_database};
ghost use Rattle.procure_programs.specs.Placed.{HoldNoTable};

/// The bytes of a page of a new file. Pages are small because the rows of an office are short, and each change rewrites and sums whole pages.
pub const NEW_PAGE: usize = 1024;

/// The header of the file. The definition `header` says what each byte means.
const HEADER: [u8; 100] = [
    83, 81, 76, 105, 116, 101, 32, 102, 111, 114, 109, 97, 116, 32, 51, 0, 4, 0, 2, 2, 0, 64, 32,
    32, 0, 0, 0, 0, 0, 0, 0, 1, 0, 0, 0, 0, 0, 0, 0, 0, 0, 0, 0, 1, 0, 0, 0, 4, 0, 0, 0, 0, 0, 0,
    0, 0, 0, 0, 0, 1, 0, 0, 0, 0, 0, 0, 0, 0, 0, 0, 0, 0, 0, 0, 0, 0, 0, 0, 0, 0, 0, 0, 0, 0, 0, 0,
    0, 0, 0, 0, 0, 0, 0, 0, 0, 0, 0, 46, 118, 136,
];

/// The head of a page that is a leaf of a table and holds no row.
const EMPTY_LEAF: [u8; 8] = [13, 0, 0, 0, 0, 4, 0, 0];

/// The bytes of a file that holds a database with no table. Its one page has the header and the empty list of tables, in the format of SQLite 3
/// (https://www.sqlite.org/fileformat2.html).
pub fn empty_database() -> [u8; NEW_PAGE]
    ensures bytes { result ≡ empty_database }
    ensures holds { HoldNoTable (record { log = []; db = result }) }
{
    let mut page = [0; NEW_PAGE];
    page[..100].copy_from_slice(&HEADER);
    page[100..108].copy_from_slice(&EMPTY_LEAF);
    page
}
