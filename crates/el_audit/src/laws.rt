// What holds of the definitions. Each function states a law and does nothing when it runs.
ghost use Rattle.std.specs.Prelude.{◌≡◌, ℕ, List, Some, length, map, slice_get};
ghost use Rattle.el_base.specs.declared.hash.Hash32 as shape;
ghost use Rattle.el_merkle.specs.Merkle.{root, branch_of};
ghost use Rattle.el_chain.specs.Chains.{Chain};
ghost use Rattle.el_audit.specs.declared.claim.Claim as claim_shape;
ghost use Rattle.el_audit.specs.declared.claim.Report as report_shape;
ghost use Rattle.el_audit.specs.declared.claim.Report.TheVariants.{Same};
ghost use Rattle.el_audit.specs.Claims.{claim_of};
ghost use Rattle.el_audit.specs.Reports.{IsReport};
ghost use Rattle.el_audit.specs.Checkers.{IsProof};

/// Claims over a chain have one report.
pub fn one_report()
    ensures { (chain : Chain) (claims : List claim_shape.Claim) (a b : report_shape.Report)
        → IsReport chain claims a → IsReport chain claims b → a ≡ b }
{}

/// Where each claim is what the chain gives of its script hash, as a ledger that stands for the chain
/// answers, the report is that all are the same.
pub fn answers_of_the_chain_are_right()
    ensures { (chain : Chain) (scripts : List shape.Hash32) (report : report_shape.Report)
        → IsReport chain (map (claim_of chain) scripts) report → report ≡ Same (length scripts) }
{}

/// The branch of each hash of a list proves that the hash stands at its place, by the list's root.
pub fn branches_are_proofs()
    ensures { (list : List shape.Hash32) (pos : ℕ) (leaf : shape.Hash32) → slice_get list pos ≡ Some leaf
        → IsProof (root list) leaf pos (branch_of list pos) }
{}
