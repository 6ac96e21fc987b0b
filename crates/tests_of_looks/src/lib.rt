//! Tests of queries that a transcript can't express. There are merges that aren't stored or that another program wrote, and releases that are missing or can't be
//! read. There are rows to which no commands lead, the ledger's rows one at a time, and sockets of a test's own.
#![tactic(auto)]

#[cfg(test)]
mod copies;
#[cfg(test)]
mod kept_merges;
#[cfg(test)]
mod ledger_rows;
#[cfg(test)]
mod looked_at_rows;
#[cfg(test)]
mod missing_releases;
#[cfg(test)]
mod sockets;
#[cfg(test)]
mod unreadable_texts;
#[cfg(test)]
mod wrong_merges;
