//! `tests_of_runs FILE..`: plays the transcripts in these files to an office in memory, to one in SQL and to one in a file, and prints its findings. The head
//! of `data/setup.txt` describes the form of the files. The status is 1 if an answer isn't as written, and 2 if the output fails. If the first word is
//! `refuse`, it tries one request while memory is refused (`refusing.rt`).
#![tactic(auto)]

mod found;
mod pieces;
mod refusing;
mod rows;
mod sections;
mod stores;
mod times;
mod topics;
mod trials;

use refusing::refuse;
use std::process::ExitCode;
use std::{env, fs, io};
use topics::{File, play_all};

// The words after the program's name.
fn words_of(rt: &HostRuntime) -> io::Result<Vec<String>> {
    let mut words = Vec::new(rt.alloc());
    for word in env::args(rt)?.skip(1) {
        words.push(word)?;
    }
    Ok(words)
}

// The files with these names.
fn files_of(rt: &HostRuntime, names: Vec<String>) -> io::Result<Vec<File>> {
    let mut files = Vec::new(rt.alloc());
    for name in names {
        let text = fs::read_to_string(rt, name.as_str()).ok();
        files.push(File { name, text })?;
    }
    Ok(files)
}

fn work(rt: &HostRuntime) -> io::Result<bool> {
    let words = words_of(rt)?;
    let is_refused = match words.as_slice().first() {
        Some(first) => first.as_str() == "refuse",
        None => false,
    };
    if is_refused {
        return refuse(rt, words.as_slice());
    }
    let files = files_of(rt, words)?;
    play_all(rt, files.as_slice())
}

fn main(rt: HostRuntime) -> ExitCode {
    match work(&rt) {
        Ok(true) => ExitCode::SUCCESS,
        Ok(false) => ExitCode::from(1),
        Err(_) => ExitCode::from(2),
    }
}
