// Fees of kept transactions, and how they change.
ghost use Rattle.std.specs.Prelude.{◌≡◌};
ghost use Rattle.el_mempool.specs.Fees.{fee_change};

use crate::held::KeptTx;

/// How many edges of fee rates there are.
pub const FEE_EDGE_COUNT: usize = 14;

/// Edges of fee rates in satoshi a virtual byte, falling (Electrum Protocol 1.4,
/// `mempool.get_fee_histogram`).
pub const FEE_EDGES: [u64; FEE_EDGE_COUNT] = [
    10_000, 5_000, 2_000, 1_000, 500, 200, 100, 50, 20, 10, 5, 2, 1, 0,
];

/// A transaction that came into the set or left it, by its fee and its size. One that stays with another fee
/// leaves and comes.
#[derive(Clone, Copy, Debug, PartialEq, Eq)]
pub struct FeeChange {
    /// Whether it came; else it left.
    pub added: bool,
    /// What its inputs hold less what its outputs hold, in satoshi.
    pub fee: u64,
    /// Its size in virtual bytes (BIP 141).
    pub vsize: u64,
}

impl FeeChange {
    /// That the transaction came, where `added` is, or left.
    pub fn of(entry: &KeptTx, added: bool) -> FeeChange
        ensures { result ≡ fee_change added entry.now }
    {
        FeeChange {
            added,
            fee: entry.fee,
            vsize: entry.vsize,
        }
    }
}
