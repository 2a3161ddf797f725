//! What an index wants of a block, computed once from its bytes alone; of several blocks, side by side.
#![tactic(auto)]

mod batch;
mod block;
mod merkle;
mod pieces;
mod prepared;

pub use batch::{prepare_all, prepare_batch};
pub use block::{prepare, prepare_one};
pub use prepared::{Prepared, PreparedTx};
