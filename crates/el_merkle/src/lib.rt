//! Merkle trees over transaction hashes: the root of a block's tree, the branch that proves a place in
//! it, and the climb by which a wallet checks a branch.
#![tactic(auto)]

mod laws;
mod pairing;
mod tree;
mod wallet;

pub use laws::{
    branch_climbs_to_root, branch_goes_up_by_pairs, branch_has_a_hash_a_level, root_is_paired_down,
};
pub use tree::{branch, root, row};
pub use wallet::climb;
