// Faults of blocks that don't fit a chain.
ghost use Rattle.std.specs.Prelude.{◌≡◌};
ghost use Rattle.el_chain.specs.declared.fault.ConnectFault.TheVariants as connect;

use el_base::OutOfMemory;
use std::alloc::{AllocError, AllocFailed};

/// Why a block can't be added to a chain: the fault of its first transaction that has one, and of that the
/// first in this order. `DiskFailed` and `Memory` may come in place of it, and where there is none.
#[derive(Clone, Copy, Debug, PartialEq, Eq, thiserror::Error)]
pub enum ConnectFault {
    /// The device of the index failed. A plain chain never answers it.
    #[error("index device failed")]
    DiskFailed,
    /// The coin that an input takes is not there, since there was none or it was taken before; both count
    /// from 0. It is the transaction's first such input.
    #[error("transaction {tx}: no coin for input {input}")]
    MissingCoin { tx: usize, input: usize },
    /// With this transaction all coins together hold that number of satoshi, above `el_tx::MAX_MONEY`.
    #[error("all coins hold {supply} satoshi")]
    Money { supply: u128 },
    /// The table with this number would need more rows than the limit, which is `rows`, after this
    /// transaction. It is the one with the lowest number: 1 of blocks, 2 of transactions, 4 of outputs, 5 of
    /// inputs that take a coin, 6 of script hashes, 8 of entries, which are pairs of a transaction and a
    /// script hash that it concerns.
    #[error("table {table} is full at {rows} rows")]
    Full { table: u8, rows: u64 },
    /// No memory was found for the block.
    #[error("out of memory")]
    Memory,
}

impl From<OutOfMemory> for ConnectFault {
    ghost from_gives = { λ _ e. e ≡ connect.Memory };

    fn from(_: OutOfMemory) -> Self {
        ConnectFault::Memory
    }
}

impl From<AllocError> for ConnectFault {
    ghost from_gives = { λ _ e. e ≡ connect.Memory };

    fn from(_: AllocError) -> Self {
        ConnectFault::Memory
    }
}

impl<T: Drop> From<AllocFailed<T>> for ConnectFault {
    ghost from_gives = { λ _ e. e ≡ connect.Memory };

    fn from(_: AllocFailed<T>) -> Self {
        ConnectFault::Memory
    }
}
