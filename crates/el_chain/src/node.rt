// What is known of blocks and transactions by where they stand.
use el_base::Hash32;
use el_outside::Place;
use el_tx::Header;

/// A block that was found in the block files, by its record's header. The hash is always that of the header's
/// 80 bytes.
#[derive(Clone, Copy, Debug, PartialEq, Eq)]
pub struct Node {
    /// The block's hash, in inner order.
    pub hash: Hash32,
    /// The block's header.
    pub header: Header,
    /// Where its record stands.
    pub place: Place,
}

/// Where a transaction of the chain stands.
#[derive(Clone, Copy, Debug, PartialEq, Eq)]
pub struct Spot {
    /// The height of its block.
    pub height: u32,
    /// Its number in the block, from 0.
    pub pos: u32,
    /// The place of the block's record.
    pub place: Place,
    /// Where its first byte stands in the block, counted from the block's first byte.
    pub start: u32,
    /// How many bytes it has.
    pub len: u32,
}
