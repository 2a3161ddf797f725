// What holds of the definitions.
ghost use Rattle.std.specs.Prelude.{◌≡◌, ◌≤◌, ◌<◌, ◌+◌, ◌^◌, ◌/◌, ◌↔◌, ℕ, List, [], ◌∷◌, length, slice_get};
ghost use Rattle.el_base.specs.declared.hash.Hash32.{Hash32};
ghost use Rattle.el_merkle.specs.Merkle.{root, pairs, partner, branch_of, climb, levels, half_up};

/// A list of one hash has that hash as its root, and a longer list has the root of its pairs.
pub fn root_is_paired_down()
    ensures one { (hash : Hash32) → root (hash ∷ []) ≡ hash }
    ensures more { (list : List Hash32) → 2 ≤ length list → root list ≡ root (pairs list) }
{}

/// A branch in a list of one hash is empty, and one in a longer list is the partner of its place and then
/// the branch of half its place in the list's pairs.
pub fn branch_goes_up_by_pairs()
    ensures one { (hash : Hash32) (pos : ℕ) → branch_of (hash ∷ []) pos ≡ [] }
    ensures more { (list : List Hash32) (pos : ℕ) → 2 ≤ length list
        → branch_of list pos ≡ partner list pos ∷ branch_of (pairs list) (pos / 2) }
{}

/// From each hash of a list the branch of its place leads to the list's root.
pub fn branch_climbs_to_root()
    ensures { (list : List Hash32) (pos : ℕ) (leaf : Hash32) → slice_get list pos ≡ Some leaf
        → climb leaf pos (branch_of list pos) ≡ root list }
{}

/// A branch has as many hashes as the list's length is halved, rounded up, until it is 1: the least number
/// of doublings from 1 that reach the length.
pub fn branch_has_a_hash_a_level()
    ensures branch { (list : List Hash32) (pos : ℕ) → pos < length list
        → length (branch_of list pos) ≡ levels (length list) }
    ensures one { levels 1 ≡ 0 }
    ensures more { (n : ℕ) → 2 ≤ n → levels n ≡ levels (half_up n) + 1 }
    ensures least { (n k : ℕ) → (levels n ≤ k) ↔ (n ≤ 2 ^ k) }
{}
