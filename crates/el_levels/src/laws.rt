// What holds of groups, over lists alone.
ghost use Rattle.std.specs.Prelude.{◌≡◌, ◌≤◌, ◌<◌, ◌/◌, ◌%◌, ℕ, List, ◌++◌, length, take};
ghost use Rattle.el_base.specs.declared.hash.Hash32.{Hash32};
ghost use Rattle.el_merkle.specs.Merkle.{root, row, levels, branch_of, branch_through};
ghost use Rattle.el_levels.specs.Groups.{group, lifted, lifted_groups, group_roots};
ghost use Rattle.el_levels.specs.declared.groups.TheConstants.{GROUP, LEVELS};

/// The row 11 levels above hashes has one hash of each group. Hashes of a full group or more have the root of
/// that row. A branch in them is the partners of its place in the group through 11 levels, and then the
/// branch of the group's number in that row.
pub fn root_is_over_groups()
    ensures row { (list : List Hash32) → row LEVELS list ≡ lifted_groups LEVELS list }
    ensures root { (list : List Hash32) → GROUP ≤ length list
        → root list ≡ root (lifted_groups LEVELS list) }
    ensures branch { (list : List Hash32) (pos : ℕ) → GROUP ≤ length list
        → branch_of list pos ≡ branch_through LEVELS (group list (pos / GROUP)) (pos % GROUP)
        ++ branch_of (lifted_groups LEVELS list) (pos / GROUP) }
{}

/// 11 levels above a full group stands its root. The roots of the groups that are wholly among the first so
/// many hashes are the same whatever the other hashes are.
pub fn full_groups_have_roots()
    ensures root { (list : List Hash32) → length list ≡ GROUP → lifted LEVELS list ≡ root list }
    ensures stay { (xs ys : List Hash32) (same : ℕ) → take same xs ≡ take same ys
        → take (same / GROUP) (group_roots xs) ≡ take (same / GROUP) (group_roots ys) }
{}

/// A tree over hashes up to their root has it at its top, and gives their branches.
pub fn whole_trees_have_roots()
    ensures root { (list : List Hash32) → lifted (levels (length list)) list ≡ root list }
    ensures branch { (list : List Hash32) (pos : ℕ)
        → branch_through (levels (length list)) list pos ≡ branch_of list pos }
{}
