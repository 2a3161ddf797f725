//! Tests of the crates from chains of blocks to the header tree: values from outside, which fault comes,
//! what is printed, and that each public call succeeds where memory is ample.
#![tactic(auto)]

#[cfg(test)]
mod chains;
#[cfg(test)]
mod compared;
#[cfg(test)]
mod files;
#[cfg(test)]
mod headers;
#[cfg(test)]
mod laws;
#[cfg(test)]
mod levels;
#[cfg(test)]
mod moves;
#[cfg(test)]
mod moves_back;
#[cfg(test)]
mod printed;
#[cfg(test)]
mod queries;
#[cfg(test)]
mod records;
