// How a run goes.
use el_mempool::PoolLimits;

/// How a run goes.
#[derive(Clone, Copy, Debug, PartialEq, Eq)]
pub struct RunOptions {
    /// The magic of the network, with which each record of a block file begins.
    pub magic: [u8; 4],
    /// How much the unconfirmed set may hold.
    pub limits: PoolLimits,
    /// Whether peer 0 is a node. If it is none, its bytes are as if they hadn't come.
    pub node: bool,
    /// How many calls of `next` may be made.
    pub turns: u64,
}
