//! Files of transcripts, each on one topic. They are played over each store, and the findings are printed.
use crate::found::{Topic, find_alike, find_play, find_wrong};
use crate::pieces::{blocks_of, has, missing};
use crate::sections::{Kind, Piece, Section, are_comments, section_of};
use crate::stores::{Life, STORES, told_in};
use std::alloc::AllocError;
use std::io;

/// A file with its content, or without one if it can't be read.
#[derive(Drop)]
pub(crate) struct File {
    pub(crate) name: String,
    pub(crate) text: Option<String>,
}

// The place of a finding: the topic, the title of the played line, and the store.
fn place_of(
    rt: &HostRuntime,
    topic: &Topic,
    title: &str,
    store: &str,
) -> Result<String, AllocError> {
    format!(in rt.alloc(); "{}: {title}, {store}", topic.name)
}

// Plays pieces over each store. Each answer must be as written, or exactly one must not, as `is_wrong` says.
fn play(
    rt: &HostRuntime,
    topic: &mut Topic,
    title: &str,
    pieces: &[&str],
    is_wrong: bool,
) -> io::Result<()> {
    let life = Life {
        before: &[],
        told: pieces,
    };
    for store in STORES {
        let place = place_of(rt, topic, title, store.name())?;
        let outcome = told_in(rt, store, life);
        if is_wrong {
            find_wrong(rt, topic, place.as_str(), outcome)?;
        } else {
            find_play(rt, topic, place.as_str(), outcome)?;
        }
    }
    Ok(())
}

// Plays two lives over each store, which must get the same answers.
fn play_alike(
    rt: &HostRuntime,
    topic: &mut Topic,
    title: &str,
    one: Life<'_>,
    other: Life<'_>,
) -> io::Result<()> {
    for store in STORES {
        let place = place_of(rt, topic, title, store.name())?;
        let one = told_in(rt, store, one);
        let other = told_in(rt, store, other);
        find_alike(rt, topic, place.as_str(), one, other)?;
    }
    Ok(())
}

// Plays two lives and the pieces that follow both. ` | ` separates their names.
fn play_lives(
    rt: &HostRuntime,
    topic: &mut Topic,
    pieces: &mut [Piece],
    title: &str,
    lives: &str,
) -> io::Result<()> {
    let Some((one, rest)) = lives.split_once(" | ") else {
        return topic.tell(rt, title, "no second life");
    };
    let Some((other, told)) = rest.split_once(" | ") else {
        return topic.tell(rt, title, "nothing behind two lives");
    };
    if let Some(name) = missing(pieces, one)
        .or(missing(pieces, other))
        .or(missing(pieces, told))
    {
        return topic.tell_missing(rt, title, name);
    }
    let one = blocks_of(rt.alloc(), pieces, one)?;
    let other = blocks_of(rt.alloc(), pieces, other)?;
    let told = blocks_of(rt.alloc(), pieces, told)?;
    let one = Life {
        before: one.as_slice(),
        told: told.as_slice(),
    };
    let other = Life {
        before: other.as_slice(),
        told: told.as_slice(),
    };
    play_alike(rt, topic, title, one, other)
}

// Plays the pieces with these names.
fn play_names(
    rt: &HostRuntime,
    topic: &mut Topic,
    pieces: &mut [Piece],
    title: &str,
    names: &str,
    is_wrong: bool,
) -> io::Result<()> {
    if let Some(name) = missing(pieces, names) {
        return topic.tell_missing(rt, title, name);
    }
    let blocks = blocks_of(rt.alloc(), pieces, names)?;
    play(rt, topic, title, blocks.as_slice(), is_wrong)
}

// Keeps a piece, or plays what a section says.
fn follow<'a>(
    rt: &HostRuntime,
    topic: &mut Topic,
    pieces: &mut Vec<Piece<'a>>,
    section: Section<'a>,
) -> io::Result<()> {
    let (kind, title, names) = match section {
        Section::Piece(piece) if has(pieces.as_slice(), piece.name) => {
            return topic.tell(rt, piece.name, "a piece of this name is there already");
        }
        Section::Piece(piece) => {
            pieces.push(piece)?;
            return Ok(());
        }
        Section::Played(kind, title, names) => (kind, title, names),
    };
    topic.plays = topic.plays.saturating_add(1);
    match kind {
        Kind::Play => play_names(rt, topic, pieces.as_mut_slice(), title, names, false),
        Kind::Wrong => play_names(rt, topic, pieces.as_mut_slice(), title, names, true),
        Kind::Alike => play_lives(rt, topic, pieces.as_mut_slice(), title, names),
    }
}

// Follows a file from its head to its end.
fn follow_all<'a>(
    rt: &HostRuntime,
    topic: &mut Topic,
    pieces: &mut Vec<Piece<'a>>,
    text: &'a str,
) -> io::Result<()> {
    let (head, sections) = text.split_once("\n== ").unwrap_or((text, ""));
    if sections.is_empty() || !are_comments(head) {
        return topic.tell(rt, "its head", "not written as comments before sections");
    }
    for lines in sections.split("\n== ") {
        match section_of(lines) {
            Some(section) => follow(rt, topic, pieces, section)?,
            None => {
                let (first, _) = lines.split_once("\n").unwrap_or((lines, ""));
                topic.tell(rt, first, "not written as a section")?;
            }
        }
    }
    Ok(())
}

// Prints each piece of the topic that it doesn't play, unless it plays nothing. The first pieces are those of other files.
fn tell_unplayed(
    rt: &HostRuntime,
    topic: &mut Topic,
    pieces: &[Piece],
    first: usize,
) -> io::Result<()> {
    if topic.plays == 0 {
        return Ok(());
    }
    for piece in pieces.iter().skip(first) {
        if !piece.is_played {
            topic.tell(rt, piece.name, "never played")?;
        }
    }
    Ok(())
}

// Plays what a file says, and prints a line for it. Returns whether every answer is as written.
fn play_file<'a>(
    rt: &HostRuntime,
    pieces: &mut Vec<Piece<'a>>,
    file: &'a File,
) -> io::Result<bool> {
    let first = pieces.len();
    let mut topic = Topic::new(file.name.as_str());
    match &file.text {
        Some(text) => follow_all(rt, &mut topic, pieces, text.as_str())?,
        None => topic.tell(rt, "the file", "can't be read")?,
    }
    tell_unplayed(rt, &mut topic, pieces.as_slice(), first)?;
    topic.conclude(rt)
}

/// Plays all files in turn, with a line for each. Returns whether there are files and every answer is as written.
pub(crate) fn play_all(rt: &HostRuntime, files: &[File]) -> io::Result<bool> {
    if files.is_empty() {
        println!(rt; "no files are named")?;
        return Ok(false);
    }
    let mut pieces = Vec::new(rt.alloc());
    let mut is_right = true;
    for file in files {
        if !play_file(rt, &mut pieces, file)? {
            is_right = false;
        }
    }
    Ok(is_right)
}
