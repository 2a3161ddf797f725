//! Tests of the index as a ledger, and of the laws over the index's crates, of what no contract says.
#![tactic(auto)]

#[cfg(test)]
mod audit_tests;
#[cfg(test)]
mod back_tests;
#[cfg(test)]
mod laid;
#[cfg(test)]
mod law_tests;
#[cfg(test)]
mod plain_tests;
#[cfg(test)]
mod store_tests;
#[cfg(test)]
mod walk_tests;
