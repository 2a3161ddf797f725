// What a wallet computes.
ghost use Rattle.std.specs.Prelude.{◌≡◌};
ghost use Rattle.el_merkle.specs.Merkle as spec;

use crate::pairing::joined;
use el_base::Hash32;

/// The hash to which a branch leads from the leaf at the place (Electrum protocol 1.4), in inner order.
/// Takes no memory.
pub fn climb(leaf: Hash32, pos: u64, branch: &[Hash32]) -> Hash32
    ensures { result ≡ spec.climb leaf pos branch.now }
{
    let mut hash = leaf;
    let mut place = pos;
    for next in branch {
        hash = if place % 2 == 0 {
            joined(&hash, next)
        } else {
            joined(next, &hash)
        };
        place /= 2;
    }
    hash
}
