//! Tests of crates up to HTTP that a transcript can't express: stores that fail, and remembered sums.
#![tactic(auto)]

#[cfg(test)]
mod broken_stores;
#[cfg(test)]
mod life;
#[cfg(test)]
mod remembered_sums;
