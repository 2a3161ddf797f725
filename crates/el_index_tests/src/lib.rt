//! Tests of the index, of what no contract says.
#![tactic(auto)]

#[cfg(test)]
mod blocks_put;
#[cfg(test)]
mod bucket_tests;
#[cfg(test)]
mod connect_tests;
#[cfg(test)]
mod failing_rows;
#[cfg(test)]
mod fixtures;
#[cfg(test)]
mod full_tests;
#[cfg(test)]
mod history_tests;
#[cfg(test)]
mod laws;
#[cfg(test)]
mod lookup_tests;
#[cfg(test)]
mod position_tests;
#[cfg(test)]
mod script_tests;
#[cfg(test)]
mod spend_tests;
#[cfg(test)]
mod tests;
#[cfg(test)]
mod touching_tests;
#[cfg(test)]
mod undo_tests;
