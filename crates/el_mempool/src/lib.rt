//! What is kept of the transactions that no block has yet, as definitions over whole chains and lists of
//! arrival (`specs/`), with the types that they speak of and the laws of what is kept.
#![tactic(auto)]

mod entry;
mod fault;
mod fees;
mod held;
mod laws;
mod reading;

pub use entry::{PoolEntry, PoolLimits};
pub use fault::PoolFault;
pub use fees::{FEE_EDGE_COUNT, FEE_EDGES, FeeChange};
pub use held::{Held, KeptTx, Source};
pub use laws::{fees_are_within, one_more_stands, what_is_kept_stands, what_is_kept_stays};
pub use reading::{is_coinbase_form, whole_tx};
