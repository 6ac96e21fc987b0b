//! Tests of an office in files that a transcript can't express: its disk stops at each of its calls, or its tables have rows that no office writes.
#![tactic(auto)]

#[cfg(test)]
mod changes;
#[cfg(test)]
mod days;
#[cfg(test)]
mod earlier;
#[cfg(test)]
mod earlier_file;
#[cfg(test)]
mod first_files;
#[cfg(test)]
mod life;
#[cfg(test)]
mod shut;
#[cfg(test)]
mod stops;
#[cfg(test)]
mod stores;
#[cfg(test)]
mod wrong_words;
