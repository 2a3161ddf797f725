//! Tests of runs and lives of the program, of what no contract says.
#![tactic(auto)]

#[cfg(test)]
mod audits;
#[cfg(test)]
mod broadcasts;
#[cfg(test)]
mod clients;
#[cfg(test)]
mod indexed;
#[cfg(test)]
mod many_lives;
#[cfg(test)]
mod moves;
#[cfg(test)]
mod pieces;
#[cfg(test)]
mod reopened;
#[cfg(test)]
mod runs;
#[cfg(test)]
mod tellings;
#[cfg(test)]
mod unconfirmed;
