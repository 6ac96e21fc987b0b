//! Tests of records as rows of SQL values, of the joined rows of the ledger, and of the selects that show them.
#![tactic(auto)]

#[cfg(test)]
mod answers;
#[cfg(test)]
mod joined_ledgers;
#[cfg(test)]
mod joined_rows;
#[cfg(test)]
mod joins;
#[cfg(test)]
mod refused_rows;
#[cfg(test)]
mod rows;
#[cfg(test)]
mod values;
