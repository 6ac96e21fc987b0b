//! The findings about a topic, counted and printed.
use crate::stores::Told;
use std::io;
use tests_transcripts::session::Wrong;

/// A file of transcripts: how many of its lines were played, how many requests that took over all stores, and whether every answer is as written.
#[derive(Clone, Copy)]
pub(crate) struct Topic<'a> {
    pub(crate) name: &'a str,
    pub(crate) plays: u64,
    requests: u64,
    is_right: bool,
}

impl<'a> Topic<'a> {
    pub(crate) fn new(name: &'a str) -> Topic<'a> {
        Topic {
            name,
            plays: 0,
            requests: 0,
            is_right: true,
        }
    }
}

impl Topic<'_> {
    fn count(&mut self, requests: u64) {
        self.requests = self.requests.saturating_add(requests);
    }

    /// Prints a fault at this place.
    pub(crate) fn tell(&mut self, rt: &HostRuntime, place: &str, wrong: &str) -> io::Result<()> {
        self.is_right = false;
        println!(rt; "{}: {place}: {wrong}", self.name)
    }

    /// Prints the name of a piece that doesn't exist.
    pub(crate) fn tell_missing(
        &mut self,
        rt: &HostRuntime,
        title: &str,
        name: &str,
    ) -> io::Result<()> {
        self.is_right = false;
        println!(rt; "{}: {title}: no piece {name} is there", self.name)
    }

    /// Prints the line of the topic. Returns whether every answer is as written.
    pub(crate) fn conclude(&self, rt: &HostRuntime) -> io::Result<bool> {
        let Topic {
            name,
            plays,
            requests,
            is_right,
        } = *self;
        if !is_right {
            println!(rt; "{name}: NOT as written")?;
        } else if plays == 0 {
            println!(rt; "{name}: pieces alone")?;
        } else {
            println!(rt;
                "{name}: {plays} plays, {requests} requests over memory, SQL and a file: as written"
            )?;
        }
        Ok(is_right)
    }
}

// The answers of a play, or nothing if an answer isn't as written, which is printed.
fn told_of(
    rt: &HostRuntime,
    topic: &mut Topic,
    place: &str,
    outcome: Result<Told, Wrong>,
) -> io::Result<Option<Told>> {
    match outcome {
        Ok(told) => Ok(Some(told)),
        Err(wrong) => {
            topic.is_right = false;
            println!(rt; "{place}: {wrong}")?;
            Ok(None)
        }
    }
}

/// Counts the requests of a play, if each answer is as written.
pub(crate) fn find_play(
    rt: &HostRuntime,
    topic: &mut Topic,
    place: &str,
    outcome: Result<Told, Wrong>,
) -> io::Result<()> {
    if let Some(told) = told_of(rt, topic, place, outcome)? {
        topic.count(told.sent);
    }
    Ok(())
}

/// Counts the requests of a play up to an answer that isn't as written, and prints this answer. If every answer is as written, this is a fault.
pub(crate) fn find_wrong(
    rt: &HostRuntime,
    topic: &mut Topic,
    place: &str,
    outcome: Result<Told, Wrong>,
) -> io::Result<()> {
    match outcome {
        Ok(_) => {
            topic.is_right = false;
            println!(rt; "{place}: no answer is otherwise than written")
        }
        Err(wrong) => {
            match &wrong {
                Wrong::Answer(number, _) => topic.count(*number),
                _ => topic.is_right = false,
            }
            println!(rt; "{place}: {wrong}")
        }
    }
}

/// Counts the requests of two lives, which must get the same answers, and at least one.
pub(crate) fn find_alike(
    rt: &HostRuntime,
    topic: &mut Topic,
    place: &str,
    one: Result<Told, Wrong>,
    other: Result<Told, Wrong>,
) -> io::Result<()> {
    let one = told_of(rt, topic, place, one)?;
    let other = told_of(rt, topic, place, other)?;
    let (Some(one), Some(other)) = (one, other) else {
        return Ok(());
    };
    if one.answers.is_empty() || one.answers.as_slice() != other.answers.as_slice() {
        topic.is_right = false;
        return println!(rt; "{place}: the two are told otherwise");
    }
    topic.count(one.sent);
    topic.count(other.sent);
    Ok(())
}
