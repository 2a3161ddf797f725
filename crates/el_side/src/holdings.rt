// What the server holds beside the ledger.
use el_fees::FeeTable;
use el_headers::HeaderTree;
use el_pool::Pool;

/// What the server holds beside the ledger and the block files, to answer from.
#[derive(Drop)]
pub struct Holdings {
    /// The headers that were found.
    pub tree: HeaderTree,
    /// The four bytes before each record of the network's block files.
    pub magic: [u8; 4],
    /// The unconfirmed transactions that are kept.
    pub pool: Pool,
    /// The sums of their sizes by fee rate, which follow each change of the set.
    pub fees: FeeTable,
}
