// What holds of the made file, of the way of a check over it, and of the summary at its end.
ghost use Rattle.std.specs.Prelude.{◌≡◌, ◌≤◌, ◌+◌, ◌*◌, [], ◌++◌, ℕ, List, Option, Some, fold, length, take};
ghost use Rattle.el_base.specs.Left.{AreBytes};
ghost use Rattle.el_base.specs.declared.hash.Hash32 as hash_shape;
ghost use Rattle.el_chain.specs.Chains.{Chain};
ghost use Rattle.el_chain.specs.Faults.{IsGood};
ghost use Rattle.el_chain.specs.Headers.{added};
ghost use Rattle.el_chain.specs.declared.node.Node as shape;
ghost use Rattle.el_check_chain.specs.Checked.{Way};
ghost use Rattle.el_check_chain.specs.Leading.{tip_line};
ghost use Rattle.el_check_laws.specs.Differing.{HashesDiffer, blocks_of};
ghost use Rattle.el_check_laws.specs.MadeNodes.{BeginAsMade, LeadsAlone};
ghost use Rattle.el_check_laws.specs.Numbers.{LedAsMade};
ghost use Rattle.el_files.specs.Scanning.{AllScanned};
ghost use Rattle.el_gen.specs.MadeFile.{first_branch, first_tip, fork, left_out, made_file, regtest_magic, side_branch, side_tip};
ghost use Rattle.el_lines.specs.NodeLines.{NodeLine, tip};
ghost use Rattle.el_side.specs.Side.{IsSaid};

use el_gen::MOST_MADE;
use el_lines::node_line_says_one_thing;
use el_outside::Archive;

/// Chains of the made blocks are good: of the first branch's, and of those up to the fork with the side
/// branch's after them.
pub fn made_chains_are_good()
    ensures first { (count : ℕ) (chain : Chain) → 1 ≤ count → count ≤ MOST_MADE → HashesDiffer count
        → blocks_of chain ≡ first_branch count → IsGood chain }
    ensures side { (count : ℕ) (chain : Chain) → 1 ≤ count → count ≤ MOST_MADE → HashesDiffer count
        → blocks_of chain ≡ first_branch (fork count) ++ side_branch count → IsGood chain }
{}

/// How many bytes a made file has: 160 for the record of the first block, and 239 for each other's.
pub fn made_file_has_so_many_bytes()
    ensures { (count : ℕ) → 1 ≤ count → length (made_file count) ≡ 160 + 239 * (count + left_out count) }
{}

/// A scan of block files without padding, of which file 0 begins with the made one, finds the made blocks
/// first, in the order of the file, whatever stands after them.
pub fn scan_finds_made_blocks<A: Archive>()
    ensures { (count : ℕ) (before after : ℕ → List ℕ) (nodes : List shape.Node) → 1 ≤ count
        → count ≤ MOST_MADE → HashesDiffer count → ((archive : A) → A.padding archive 0 ≡ [])
        → before 0 ≡ made_file count → AllScanned ⟦<A as Archive>⟧ before after regtest_magic nodes
        → BeginAsMade count nodes }
{}

/// Over the nodes that such a scan finds, each added to those before, one path leads to each of the two tips:
/// that of the first branch's blocks, and that of those up to the fork with the side branch's after them.
pub fn one_path_leads_to_each_tip()
    ensures first { (count : ℕ) (nodes : List shape.Node) → 1 ≤ count → HashesDiffer count
        → (begin : BeginAsMade count nodes)
        → LeadsAlone (fold added [] nodes) (first_tip count) begin.first }
    ensures side { (count : ℕ) (nodes : List shape.Node) → 1 ≤ count → HashesDiffer count
        → (begin : BeginAsMade count nodes) → LeadsAlone (fold added [] nodes) (side_tip count)
        (take (fork count) begin.first ++ begin.side) }
{}

/// The line by which a node names its tip says that, and nothing else.
pub fn tip_line_says_its_tip()
    ensures { (h : hash_shape.Hash32) (said : Option NodeLine) → length h.0 ≡ 32 → AreBytes h.0
        → IsSaid (tip_line h) said → said ≡ Some (tip h.0) }
{
    node_line_says_one_thing();
}

/// Where the hashes of a made file differ, each way of a check over it leads along the two branches, and its
/// summary has the numbers that the number of blocks tells.
pub fn check_leads_along_both_branches()
    ensures { (count : ℕ) → 1 ≤ count → count ≤ MOST_MADE → HashesDiffer count → (way : Way count)
        → LedAsMade way }
{
    node_line_says_one_thing();
}
