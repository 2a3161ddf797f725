// Laws of the set, as functions whose contracts state them.
ghost use Rattle.std.specs.Prelude.{◌≡◌, ◌≤◌, List, map, None, [], ◌∷◌, ◌++◌};
ghost use Rattle.std.specs.List.{AllByRecursion};
ghost use Rattle.el_chain.specs.Chains.{Chain};
ghost use Rattle.el_chain.specs.Coins.{coins, supply};
ghost use Rattle.el_tx.specs.declared.types.Tx as shape;
ghost use Rattle.el_mempool.specs.declared.entry.PoolLimits as limits_shape;
ghost use Rattle.el_mempool.specs.declared.held.KeptTx as kept_shape;
ghost use Rattle.el_mempool.specs.Refusals.{tx_refusal};
ghost use Rattle.el_mempool.specs.Sift.{sift};
ghost use Rattle.el_mempool.specs.Unconfirmed.{fee};
ghost use Rattle.el_mempool.specs.Standing.{HaveDifferentTxids, KeptStandFor, kept_tx};

/// What is kept over a chain is kept again over the same.
pub fn what_is_kept_stays()
    ensures { (chain : Chain) (list : List shape.Tx) → sift chain (sift chain list) ≡ sift chain list }
{}

/// A transaction that nothing refuses stands with those that were kept.
pub fn one_more_stands()
    ensures { (limits : limits_shape.PoolLimits) (entries : List kept_shape.KeptTx) (chain : Chain)
        (kept : List shape.Tx) (tx : shape.Tx) → KeptStandFor entries chain kept
        → tx_refusal limits chain kept tx ≡ None
        → KeptStandFor (entries ++ kept_tx chain kept tx ∷ []) chain (kept ++ tx ∷ []) }
{}

/// What is kept over a chain, of transactions of which no two have one txid, stands for it.
pub fn what_is_kept_stands()
    ensures { (chain : Chain) (list : List shape.Tx) → HaveDifferentTxids list
        → KeptStandFor (map (kept_tx chain (sift chain list)) (sift chain list)) chain (sift chain list) }
{}

/// No fee of a kept transaction passes what all coins of the chain hold together: what joins gives no more
/// than it takes, and takes what none before it took.
pub fn fees_are_within()
    ensures { (chain : Chain) (kept : List shape.Tx) → sift chain kept ≡ kept → HaveDifferentTxids kept
        → AllByRecursion (λ (t : shape.Tx). fee chain kept t ≤ supply (coins chain)) kept }
{}
