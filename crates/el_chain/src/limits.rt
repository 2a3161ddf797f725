// Limits. Each constant stands here alone: the code and the definitions cite it.
ghost use Rattle.std.specs.Prelude.{◌≡◌};
ghost use Rattle.el_chain.specs.RowCounts as spec;

/// How many bytes a block has at least, as it stands in a record of a block file: the 80 of its header and
/// one for the number of its transactions.
pub const MIN_BLOCK_SIZE: u32 = 81;

/// How many bytes of a record stand before its block: the network's magic and the block's size.
pub const PREFIX_SIZE: u32 = 8;

/// How many blocks one move may take back.
pub const MAX_BACK: u32 = 100;

/// How many blocks one move may put in.
pub const MAX_FORWARD: usize = 16;

/// How many rows an index's table of blocks may have at most: a height has 32 bits.
pub const MAX_BLOCKS: u64 = 4_294_967_295;

/// How many rows each other table of an index may have at most, 2^40.
pub const MAX_ROWS: u64 = 1_099_511_627_776;

/// How many rows the table of an index with that number, from 1 to 8, may have at most. Table 1 is that of
/// blocks.
pub fn row_limit(table: u8) -> u64
    ensures { result ≡ spec.row_limit table }
{
    if table == 1 { MAX_BLOCKS } else { MAX_ROWS }
}
