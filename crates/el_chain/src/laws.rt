// What holds of the definitions. Each function states a law and does nothing when it runs.
ghost use Rattle.std.specs.Prelude.{◌≡◌, ◌≤◌, ◌+◌, ◌↔◌, ◌++◌, ◌∷◌, [], ℕ, List, map, filter, IsTrue};
ghost use Rattle.std.specs.List.{AllByRecursion};
ghost use Rattle.el_tx.specs.Encoding.{total_value};
ghost use Rattle.el_tx.specs.declared.types.Tx as tx_shape;
ghost use Rattle.el_chain.specs.declared.coin.Coin as coin_shape;
ghost use Rattle.el_block.specs.Blocks.{block_hash};
ghost use Rattle.el_chain.specs.Chains.{Chain};
ghost use Rattle.el_chain.specs.Coins.{coins, coins_after, coins_after_all, supply};
ghost use Rattle.el_chain.specs.CoinLaws.{GivesNoMore, AllGiveNoMore, IsIn, IsMadeIn, PaysNone};
ghost use Rattle.el_chain.specs.Faults.{IsGood};
ghost use Rattle.el_chain.specs.declared.placed.Placed as shape;
ghost use Rattle.el_chain.specs.History.{Position, funds, spends, concerns, entry, positions, history};
ghost use Rattle.el_chain.specs.Records.{GivesChain};

/// The bytes of a block file give at most one chain.
pub fn file_gives_one_chain()
    ensures { (magic : List ℕ) (file : ℕ) (bytes : List ℕ) (a b : Chain) → GivesChain magic file bytes a
        → GivesChain magic file bytes b → a ≡ b }
{}

/// In a good chain each block's header names the hash of the block before.
pub fn chain_is_linked()
    ensures { (front after : Chain) (a b : shape.Placed) → IsGood (front ++ a ∷ b ∷ after)
        → b.block.header.previous ≡ block_hash a.block.header }
{}

/// A transaction that both funds and spends a script hash has one entry in its history, not two.
pub fn listed_once()
    ensures { (script_hash : List ℕ) (p : Position) → IsTrue (funds script_hash p.tx)
        → IsTrue (spends script_hash p.before p.tx)
        → map entry (filter (concerns script_hash) (p ∷ [])) ≡ entry p ∷ [] }
{}

/// What all coins hold rises by no more than a transaction's outputs, and not at all where these hold no more
/// than the coins that its inputs take. So after a block it rises by no more than its first transaction's
/// outputs, where each later transaction gives no more than it takes. A ledger trusts the node for that
/// premise, since it tests no amounts but their sum.
pub fn supply_rises_by_coinbases()
    ensures outputs { (height : ℕ) (t : tx_shape.Tx) (before : List coin_shape.Coin) →
        supply (coins_after height t before) ≤ supply before + total_value t.outputs }
    ensures others { (height : ℕ) (t : tx_shape.Tx) (before : List coin_shape.Coin) → GivesNoMore t before
        → supply (coins_after height t before) ≤ supply before }
    ensures block { (height : ℕ) (t : tx_shape.Tx) (ts : List tx_shape.Tx) (before : List coin_shape.Coin) →
        AllGiveNoMore height ts (coins_after height t before)
        → supply (coins_after_all height (t ∷ ts) before) ≤ supply before + total_value t.outputs }
{}

/// A coin is there after a chain exactly where a transaction of the chain made it, and none after that one
/// took or replaced it.
pub fn coins_are_made_and_kept()
    ensures { (chain : Chain) (c : coin_shape.Coin) → IsIn c (coins chain) ↔ IsMadeIn c (positions chain) }
{}

/// The history of a script hash that no output in the chain has is empty.
pub fn unknown_has_no_history()
    ensures { (chain : Chain) (script_hash : List ℕ) → AllByRecursion (PaysNone script_hash) chain
        → history chain script_hash ≡ [] }
{}
