//! `tests_of_runs refuse STORE FIRST STEP COUNT FILE`: plays the blocks of a file to an office in this kind of store, `memory` or `sql`. The last block is
//! tried COUNT times, each time with one allocation refused: that of number FIRST, then one STEP later, and so on.
use crate::trials::{Fault, Found, InMemory, InSql, Numbers, try_all};
use std::{fs, io};

// The number in the word at this place.
fn number_in(words: &[String], at: usize) -> Option<u64> {
    words.get(at)?.as_str().parse::<u64>().ok()
}

fn numbers_in(words: &[String]) -> Option<Numbers> {
    Some(Numbers {
        first: number_in(words, 2)?,
        step: number_in(words, 3)?,
        count: number_in(words, 4)?,
    })
}

fn tell_words(rt: &HostRuntime, number: u64, words: &str) -> io::Result<()> {
    println!(rt; "{number}: {words}")
}

// Prints the fault that was found when the allocation of this number was refused.
fn tell_fault(rt: &HostRuntime, number: u64, fault: &Fault) -> io::Result<()> {
    match fault {
        Fault::Played(wrong) => println!(rt; "{number}: {wrong}"),
        Fault::NoOffice => tell_words(rt, number, "no office, or a request that can't be read"),
        Fault::Answer(told) => {
            let told = String::from_utf8_lossy(rt.alloc(), told.as_slice())?;
            println!(rt; "{number}: the request is answered by {told}")
        }
        Fault::Changed => tell_words(rt, number, "Unavailable, and a row was changed"),
        Fault::Rows => tell_words(
            rt,
            number,
            "answered as is written, and the rows are others",
        ),
    }
}

// Prints the findings. Returns whether there was no fault.
fn tell(rt: &HostRuntime, found: Result<Found, (u64, Fault)>) -> io::Result<bool> {
    match found {
        Ok(
            Found {
                answered,
                unavailable,
            },
        ) => {
            println!(rt; "{answered} answered, {unavailable} unavailable")?;
            Ok(true)
        }
        Err((number, fault)) => {
            tell_fault(rt, number, &fault)?;
            Ok(false)
        }
    }
}

fn tell_form(rt: &HostRuntime) -> io::Result<bool> {
    println!(rt; "refuse memory FIRST STEP COUNT FILE, or sql in its place")?;
    Ok(false)
}

/// Does what these words say. Returns whether there was no fault.
pub(crate) fn refuse(rt: &HostRuntime, words: &[String]) -> io::Result<bool> {
    let (Some(store), Some(numbers), Some(file)) = (words.get(1), numbers_in(words), words.get(5))
    else {
        return tell_form(rt);
    };
    let text = fs::read_to_string(rt, file.as_str())?;
    let blocks = text.as_str().trim_matches("\n");
    match store.as_str() {
        "memory" => tell(rt, try_all(rt, &InMemory, blocks, numbers)),
        "sql" => tell(rt, try_all(rt, &InSql, blocks, numbers)),
        _ => tell_form(rt),
    }
}
