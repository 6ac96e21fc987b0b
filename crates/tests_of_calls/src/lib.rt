//! Tests of public calls of low crates: streams that are slow, interrupted or fail, and merges. The tests are in a crate of their own, so that a change of them
//! doesn't void the proofs of those crates. Settings and SQL have other crates of tests.
#![tactic(auto)]

#[cfg(test)]
mod compiled;
#[cfg(test)]
mod merged_texts;
#[cfg(test)]
mod merges;
#[cfg(test)]
mod requests_read;
#[cfg(test)]
mod runs;
#[cfg(test)]
mod stored_merges;
#[cfg(test)]
mod streams;
