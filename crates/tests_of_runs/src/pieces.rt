//! The pieces of all files that were read so far, found by their names.
use crate::sections::Piece;
use std::alloc::{AllocError, Global};

// The place of the first piece with this name.
fn index_of(pieces: &[Piece], name: &str) -> Option<usize> {
    let mut index = 0usize;
    for piece in pieces {
        if piece.name == name {
            return Some(index);
        }
        index = index.saturating_add(1);
    }
    None
}

/// Whether a piece with this name exists.
pub(crate) fn has(pieces: &[Piece], name: &str) -> bool {
    index_of(pieces, name).is_some()
}

/// The first of these names, which blanks separate, that no piece has.
pub(crate) fn missing<'n>(pieces: &[Piece], names: &'n str) -> Option<&'n str> {
    for name in names.split(" ") {
        if !has(pieces, name) {
            return Some(name);
        }
    }
    None
}

/// The blocks with these names, which now count as played.
pub(crate) fn blocks_of<'a>(
    alloc: Global,
    pieces: &mut [Piece<'a>],
    names: &str,
) -> Result<Vec<&'a str>, AllocError> {
    let mut all = Vec::new(alloc);
    for name in names.split(" ") {
        if let Some(index) = index_of(pieces, name)
            && let Some(piece) = pieces.get_mut(index)
        {
            piece.is_played = true;
            all.push(piece.blocks)?;
        }
    }
    Ok(all)
}
