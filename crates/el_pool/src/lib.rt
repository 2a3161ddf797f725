//! The unconfirmed set: transactions that a node told of and no block has yet, in the order in which they
//! came, kept as long as the chain and the ones before them leave each of their inputs a coin.
#![tactic(auto)]

mod pool;

pub use pool::Pool;
