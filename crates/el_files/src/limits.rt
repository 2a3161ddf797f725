// Sizes in the block files, each of which stands here alone.
use el_chain::{MIN_BLOCK_SIZE, PREFIX_SIZE};

/// How many bytes the head of a record has: the network's magic, the block's size and its header.
pub const HEAD_SIZE: usize = 88;

/// How many bytes a record has at least.
pub const MIN_RECORD_SIZE: u64 = PREFIX_SIZE as u64 + MIN_BLOCK_SIZE as u64;

/// How many bytes of a file are read in one piece.
pub const PIECE_SIZE: usize = 65_536;
