//! A file of transcripts, split into sections. First come lines that begin with `#`, then sections, each with a first line that begins with `== `. A section is
//! a piece, which has blocks under a name, or a line that says what is played. The head of `data/setup.txt` describes the whole form. Anything else isn't a
//! section.

/// Blocks under a name, and whether a line of a file has played them yet.
#[derive(Clone, Copy)]
pub(crate) struct Piece<'a> {
    pub(crate) name: &'a str,
    pub(crate) blocks: &'a str,
    pub(crate) is_played: bool,
}

/// The expectation for the pieces that a line names.
#[derive(Clone, Copy)]
pub(crate) enum Kind {
    /// Each answer is as written.
    Play,
    /// One answer isn't as written.
    Wrong,
    /// Two lives, after which both offices give the same answers.
    Alike,
}

/// A section of a file.
#[derive(Clone, Copy)]
pub(crate) enum Section<'a> {
    Piece(Piece<'a>),
    /// The expectation, a title, and the names of pieces.
    Played(Kind, &'a str, &'a str),
}

/// Whether these lines are comments, or empty.
pub(crate) fn are_comments(lines: &str) -> bool {
    for line in lines.lines() {
        if !line.is_empty() && !line.starts_with("#") {
            return false;
        }
    }
    true
}

// Whether a word names a piece: it has only capital letters, digits and `_`.
fn is_name(word: &str) -> bool {
    for byte in word.as_bytes() {
        if !byte.is_ascii_uppercase() && !byte.is_ascii_digit() && *byte != b'_' {
            return false;
        }
    }
    true
}

fn kind_of(word: &str) -> Option<Kind> {
    match word {
        "play" => Some(Kind::Play),
        "wrong" => Some(Kind::Wrong),
        "alike" => Some(Kind::Alike),
        _ => None,
    }
}

/// The section in these lines, without the `== ` at its beginning, or None if they aren't one. A piece has blocks, and a line that says what is played has
/// nothing after it.
pub(crate) fn section_of(lines: &str) -> Option<Section<'_>> {
    let (first, rest) = lines.split_once("\n").unwrap_or((lines, ""));
    let (word, line) = first.split_once(" ")?;
    let blocks = rest.trim_matches("\n");
    if let Some(kind) = kind_of(word) {
        let (title, names) = line.split_once(": ")?;
        return match blocks.is_empty() {
            true => Some(Section::Played(kind, title, names)),
            false => None,
        };
    }
    if blocks.is_empty() || !is_name(word) {
        return None;
    }
    Some(Section::Piece(Piece {
        name: word,
        blocks,
        is_played: false,
    }))
}
