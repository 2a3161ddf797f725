// Trees that are kept for the next proof.
use crate::tree::Tree;

/// The tree of a group of block hashes.
#[derive(Debug, Drop)]
pub struct GroupTree {
    /// The height of its first hash.
    pub first: u32,
    /// The tree over the hashes from that height on.
    pub tree: Tree,
}

/// The tree above the groups of the block hashes of heights 0 to a checkpoint.
#[derive(Debug, Drop)]
pub struct AboveTree {
    /// The checkpoint.
    pub upto: u32,
    /// The tree over one hash of each group.
    pub tree: Tree,
}
