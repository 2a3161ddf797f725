//! Header proofs from kept roots: the root of each full group of 2,048 block hashes is kept while the chain
//! changes, so that a proof reads and hashes the group of its header and the last group alone. And proofs of
//! transactions, from the tree of the block of the last proof.
#![tactic(auto)]

mod block_tree;
mod groups;
mod kept;
mod laws;
mod levels;
mod reading;
mod sought;
mod tree;
mod trees;
mod txid_tree;

pub use block_tree::{BlockTree, TXID_LIMIT};
pub use groups::{GROUP, LEVELS};
pub use laws::{full_groups_have_roots, root_is_over_groups, whole_trees_have_roots};
pub use levels::Levels;
pub use sought::{Proof, Sought};
pub use tree::Tree;
