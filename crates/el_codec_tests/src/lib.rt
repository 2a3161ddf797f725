//! Tests of the crates that read, write, generate and prepare Bitcoin's bytes, up to blocks: values from
//! outside, which fault comes, what is printed, and that each public call succeeds where memory is ample.
#![tactic(auto)]

#[cfg(test)]
mod base;
#[cfg(test)]
mod blocks;
#[cfg(test)]
mod digits;
#[cfg(test)]
mod generated;
#[cfg(test)]
mod headers;
#[cfg(test)]
mod json;
#[cfg(test)]
mod made;
#[cfg(test)]
mod many;
#[cfg(test)]
mod merkle;
#[cfg(test)]
mod pieces;
#[cfg(test)]
mod printed;
#[cfg(test)]
mod refused;
#[cfg(test)]
mod transactions;
#[cfg(test)]
mod views;
