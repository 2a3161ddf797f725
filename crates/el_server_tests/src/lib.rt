//! Tests of the crates of the server, from lines to the core: lines from outside, what is answered, what is
//! printed, and that each public call succeeds where memory is ample.
#![tactic(auto)]

#[cfg(test)]
mod coins;
#[cfg(test)]
mod failing_rows;
#[cfg(test)]
mod failures;
#[cfg(test)]
mod fees;
#[cfg(test)]
mod lines;
#[cfg(test)]
mod names;
#[cfg(test)]
mod places;
#[cfg(test)]
mod server;
#[cfg(test)]
mod starting;
#[cfg(test)]
mod tellings;
