// Blocks with their places.
use el_block::Block;
use el_outside::Place;

/// A block with the place where it stands in the node's block files. The place is kept as it was given; no
/// answer about a chain depends on it.
#[derive(Debug, Drop)]
pub struct Placed {
    /// The block itself.
    pub block: Block,
    /// The file, the place of its record there, and its size in bytes.
    pub place: Place,
}
