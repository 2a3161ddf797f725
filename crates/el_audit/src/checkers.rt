// The checks of a wallet: whether a branch proves a transaction, or a header.
ghost use Rattle.std.specs.Prelude.{◌≤◌, ◌<◌, ◌^◌, ◌↔◌, IsTrue, length};
ghost use Rattle.el_audit.specs.Checkers.{ProvesTx, ProvesHeader};

use el_base::Hash32;
use el_merkle::climb;
use el_tx::{block_hash, decode_header};

// Whether a tree with a level for each hash of the branch has the place.
fn has_place(place: u64, branch: &[Hash32]) -> bool
    requires { length branch.now ≤ 32 }
    ensures { IsTrue result ↔ (place < 2 ^ length branch.now) }
{
    place < 1u64 << branch.len()
}

/// Whether the branch proves that the transaction with that txid stands at the place in the block with that
/// header (Electrum Protocol 1.4, `blockchain.transaction.get_merkle`): the tree has the place, counted from
/// 0, and the branch leads from the txid to the header's Merkle root. Hashes stand in inner order, and the
/// branch deepest pairing first. Takes no memory.
pub fn check_tx(header: &[u8; 80], txid: Hash32, pos: u64, branch: &[Hash32]) -> bool
    requires { length branch.now ≤ 32 }
    ensures { IsTrue result ↔ ProvesTx header.now txid pos branch.now }
{
    has_place(pos, branch) && climb(txid, pos, branch) == decode_header(header).root
}

/// Whether the branch proves that the header is that of the height, in the tree over block hashes from height
/// 0 on that has this root (Electrum Protocol 1.4, `cp_height` of `blockchain.block.header`): the tree has
/// the height, and the branch leads from the header's hash to the root. Hashes stand in inner order, and the
/// branch deepest pairing first. Takes no memory.
pub fn check_header(root: Hash32, header: &[u8; 80], height: u64, branch: &[Hash32]) -> bool
    requires { length branch.now ≤ 32 }
    ensures { IsTrue result ↔ ProvesHeader root header.now height branch.now }
{
    has_place(height, branch) && climb(block_hash(header), height, branch) == root
}
