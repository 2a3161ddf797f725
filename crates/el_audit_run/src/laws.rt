// What holds of an audit's findings.
ghost use Rattle.std.specs.Prelude.{◌≡◌, ℕ, List, Some, map};
ghost use Rattle.std.specs.List.{AllByRecursion};
ghost use Rattle.el_base.specs.declared.hash.Hash32 as hash_shape;
ghost use Rattle.el_chain.specs.Chains.{Chain};
ghost use Rattle.el_chain.specs.Headers.{IsFound, IsPath};
ghost use Rattle.el_chain.specs.Moves.{StoodAt};
ghost use Rattle.el_chain.specs.declared.node.Node as shape;
ghost use Rattle.el_chain.specs.declared.placed.Placed as placed_shape;
ghost use Rattle.el_model.specs.Queries.{tip_of};
ghost use Rattle.el_audit_run.specs.Findings.{IsFinding, IsNoDifference};
ghost use Rattle.el_audit_run.specs.OwnBlocks.{GivesBlock};
ghost use Rattle.el_audit_run.specs.declared.finding.Finding as finding_shape;

use el_model::Ledger;
use el_outside::Archive;

/// Where a ledger stands for a chain, the path of found headers to its last block is that of the chain's
/// blocks at their places, and what stood at each of these is that block, an audit finds no difference. It
/// does nothing when it runs.
pub fn audit_of_its_own_blocks_is_the_same<G: Ledger, A: Archive>()
    ensures { (ledger : G) (chain : Chain) (tree : List shape.Node) (before after : ℕ → List ℕ)
        (node_of : placed_shape.Placed → shape.Node) (found : finding_shape.Finding)
        → G.stands ledger chain → IsFound tree
        → ((h : hash_shape.Hash32) → tip_of chain ≡ Some h → IsPath tree h (map node_of chain))
        → AllByRecursion (λ b. GivesBlock (StoodAt ⟦<A as Archive>⟧ before after) (node_of b) b) chain
        → IsFinding (G.stands ledger) (G.tip ledger) tree (StoodAt ⟦<A as Archive>⟧ before after) found
        → IsNoDifference found }
{}
