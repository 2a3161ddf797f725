//! Tests of the crates that say what clients are told: the unconfirmed set and the methods.
#![tactic(auto)]

#[cfg(test)]
mod methods;
#[cfg(test)]
mod parameters;
#[cfg(test)]
mod pool;
#[cfg(test)]
mod pool_walks;
#[cfg(test)]
mod sessions;
#[cfg(test)]
mod tellings;
#[cfg(test)]
mod unconfirmed;
#[cfg(test)]
mod views;
