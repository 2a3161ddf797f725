// One level of the tree.
ghost use Rattle.std.specs.Prelude.{◌≡◌, ◌<◌, length};
ghost use Rattle.el_merkle.specs.Merkle as spec;

use el_base::{Hash32, sha256d};

// The hash of the 64 bytes of two hashes.
#[tactic(auto, unfolding(crate::specs::Merkle::joined))]
pub fn joined(left: &Hash32, right: &Hash32) -> Hash32
    ensures { result ≡ spec.joined left.now right.now }
{
    let mut bytes = [0; 64];
    let (front, back) = bytes.split_at_mut(32);
    front.copy_from_slice(left.0.as_slice());
    back.copy_from_slice(right.0.as_slice());
    sha256d(bytes.as_slice())
}

// The neighbour of a place, or its own hash where it has none.
#[tactic(auto, unfolding(crate::specs::Merkle::partner))]
pub fn partner(row: &[Hash32], pos: usize) -> Hash32
    requires { pos < length row.now }
    ensures { result ≡ spec.partner row.now pos }
{
    let neighbour = if pos % 2 == 0 { pos + 1 } else { pos - 1 };
    row.get(neighbour).copied().unwrap_or(row[pos])
}

// Puts the next level's row in the place of the row.
pub fn pair_up(row: &mut Vec<Hash32>)
    ensures { row.new.items ≡ spec.pairs row.old.items }
{
    let half = row.len() - row.len() / 2;
    for i in 0..half {
        let left = row[2 * i];
        let right = partner(row, 2 * i);
        row[i] = joined(&left, &right);
    }
    row.truncate(half);
}
