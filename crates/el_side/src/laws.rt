// What holds of the definitions. Each function states a law and does nothing when it runs.
ghost use Rattle.std.specs.Prelude.{◌≡◌, ◌∷◌, [], ℕ, List, flat_map};
ghost use Rattle.el_base.specs.declared.hash.Hash32 as hash_shape;
ghost use Rattle.el_chain.specs.Chains.{Chain};
ghost use Rattle.el_chain.specs.Headers.{AreLinked};
ghost use Rattle.el_chain.specs.declared.moves.Plan as moving;
ghost use Rattle.el_chain.specs.declared.node.Node as found;
ghost use Rattle.el_side.specs.Plans.{IsMoving, plan, plans_of, plan_of, left_of, rest_of, common};
ghost use Rattle.el_side.specs.Prefixes.{AreChained, HaveNoCollision, prefix};

/// The moves that a tip line makes one after the other, each by what the one before has left, are those of
/// the plan, and together they put in the blocks of the path that the chain lacks, in order.
pub fn moves_are_the_plan()
    ensures first { (back : ℕ) (rest : List found.Node) → IsMoving back rest
        → plans_of back rest ≡ plan_of back rest ∷ plans_of 0 (left_of rest) }
    ensures none { (back : ℕ) (rest : List found.Node) → (IsMoving back rest → ⊥)
        → plans_of back rest ≡ [] }
    ensures whole { (chain : Chain) (path : List found.Node)
        → flat_map (λ (p : moving.Plan). p.forward) (plan chain path) ≡ rest_of chain path }
{}

/// Unless SHA-256d collides, what a chain and a path have in common is their longest common prefix: where
/// each block names the one before it, and no header of the one has the hash of another header of the other,
/// all blocks up to the highest common one are common. It does nothing when it runs.
pub fn common_is_the_prefix()
    ensures { (before : hash_shape.Hash32) (chain : Chain) (path : List found.Node)
        → AreChained before chain → AreLinked before path → HaveNoCollision chain path
        → common chain path ≡ prefix chain path }
{}
