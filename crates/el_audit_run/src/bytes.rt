// How many bytes a path's blocks have.
ghost use Rattle.std.specs.Prelude.{◌≡◌};
ghost use Rattle.el_audit_run.specs.Findings as spec;

use el_chain::{Node, Placed};

/// The most bytes that the blocks of an audit may have together: an audit keeps all of them in memory.
pub const MAX_AUDIT_BYTES: u128 = 200_000_000;

/// How many bytes the blocks of the path have.
pub fn path_bytes(path: &[Node]) -> u128
    ensures { result ≡ spec.path_bytes path.now }
{
    let mut sum = 0u128;
    for node in path {
        sum += u128::from(node.place.len);
    }
    sum
}

/// How many transactions the blocks have.
pub fn tx_count(chain: &[Placed]) -> u128
    ensures { result ≡ spec.tx_count chain.now }
{
    let mut sum = 0u128;
    for placed in chain {
        sum += placed.block.txs.len() as u128;
    }
    sum
}
