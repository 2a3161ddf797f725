// What holds of the definitions. Each function states a law and does nothing when it runs.
ghost use Rattle.std.specs.Prelude.{◌≡◌, ◌∷◌, ◌++◌, [], ℕ, List, map, filter, find, fold, length, None};
ghost use Rattle.std.specs.Str.{bytes_eq};
ghost use Rattle.el_tx.specs.declared.types.Outpoint as outpoint_shape;
ghost use Rattle.el_chain.specs.Chains.{Chain};
ghost use Rattle.el_chain.specs.Coins.{coins, is_coin_of, supply};
ghost use Rattle.el_chain.specs.Faults.{fault, IsGood};
ghost use Rattle.el_chain.specs.History.{history, positions};
ghost use Rattle.el_chain.specs.RowCounts.{output_count, input_count, script_count, entry_count};
ghost use Rattle.el_chain.specs.declared.coin.Coin as coin_shape;
ghost use Rattle.el_chain.specs.declared.placed.Placed as shape;
ghost use Rattle.el_tables.specs.Lists.{is_unspent};
ghost use Rattle.el_tables.specs.ChainLists.{Output, outputs, lists, listed_blocks};
ghost use Rattle.el_prepare.specs.Prepared.{prepared};
ghost use Rattle.el_tables.specs.Connecting.{block_between, connect_txs, ok_unless};
ghost use Rattle.el_tables.specs.Disconnecting.{disconnect_txs, but_last};
ghost use Rattle.el_tables.specs.Example as example;
ghost use Rattle.el_tables.specs.Queries as asked;
ghost use Rattle.el_tables.specs.Tables.{HeadCounts, Tables, Stands, tables_of};

/// Two sets of tables that stand for one chain are equal.
pub fn tables_of_one_chain_are_equal()
    ensures { (counts : HeadCounts) (a b : Tables) (chain : Chain) → Stands counts a chain
        → Stands counts b chain → a ≡ b }
{}

/// A good chain has tables that stand for it: those of its blocks and lists.
pub fn a_good_chain_has_tables()
    ensures { (counts : HeadCounts) (chain : Chain) → IsGood chain
        → Stands counts (tables_of counts (listed_blocks chain) (lists chain)) chain }
{}

/// The coins of a chain are its unspent outputs, in the order of their numbers.
pub fn coins_are_the_unspent_outputs()
    ensures { (chain : Chain) → coins chain
        ≡ map (λ (x : Output). x.coin)
        (filter (λ (x : Output). is_unspent x.state) (outputs (positions chain))) }
{}

/// The history of a script hash is its entries, in the order of their numbers.
pub fn history_is_the_entries()
    ensures { (chain : Chain) (script_hash : List ℕ) →
        history chain script_hash ≡ asked.listed_history script_hash (lists chain) }
{}

/// The steps of a block's transactions, in order, lead from the lists of a good chain to those of the chain
/// with the block; or they end with the fault that the block has after the chain, exactly where it has one.
pub fn a_block_connects()
    ensures { (chain : Chain) (b : shape.Placed) → IsGood chain
        → connect_txs (length chain) 0 (prepared b.block).txs (lists chain)
        ≡ ok_unless (fault chain b.block) (lists (chain ++ b ∷ [])) }
{}

/// How many rows the tables of a chain have is what is counted of its positions. Of the inputs this is said
/// of a good chain, where each names an output.
pub fn rows_are_counted()
    ensures txs { (chain : Chain) → length (lists chain).txs ≡ length (positions chain) }
    ensures outs { (chain : Chain) → length (lists chain).outs ≡ output_count (positions chain) }
    ensures ins { (chain : Chain) → IsGood chain → length (lists chain).ins ≡ input_count (positions chain) }
    ensures scripts { (chain : Chain) → length (lists chain).scripts ≡ script_count (positions chain) }
    ensures entries { (chain : Chain) → length (lists chain).entries ≡ entry_count (positions chain) }
{}

/// The blocks of a chain with one block more have one row more: the number of the block's first transaction
/// is the next one, and its sum is what all unspent outputs hold after it.
pub fn a_block_has_its_row()
    ensures { (chain : Chain) (b : shape.Placed) → listed_blocks (chain ++ b ∷ [])
        ≡ listed_blocks chain
        ++ block_between (prepared b.block) b.place (lists chain) (lists (chain ++ b ∷ [])) ∷ [] }
{}

/// Where the last transactions of a good chain, as many as its last block has, are taken back from the lists
/// alone, these are those of the chain without the block, which is good. The block's row was the last.
pub fn a_block_disconnects()
    ensures lists { (chain : Chain) (b : shape.Placed) → IsGood (chain ++ b ∷ [])
        → disconnect_txs (length b.block.txs) (lists (chain ++ b ∷ [])) ≡ lists chain }
    ensures row { (chain : Chain) (b : shape.Placed) →
        but_last (listed_blocks (chain ++ b ∷ [])) ≡ listed_blocks chain }
    ensures good { (chain : Chain) (b : shape.Placed) → IsGood (chain ++ b ∷ []) → IsGood chain }
{}

/// The lists tell the coin of an outpoint, the coins of a script hash, what these hold, and what became of
/// the newest output with an outpoint.
pub fn lists_answer()
    ensures coin { (chain : Chain) (o : outpoint_shape.Outpoint) →
        find (is_coin_of o) (coins chain) ≡ asked.listed_coin o (lists chain) }
    ensures unspent { (chain : Chain) (script_hash : List ℕ) →
        filter (λ (c : coin_shape.Coin). bytes_eq c.script.0 script_hash) (coins chain)
        ≡ asked.listed_unspent script_hash (lists chain) }
    ensures balance { (chain : Chain) (script_hash : List ℕ) →
        supply (filter (λ (c : coin_shape.Coin). bytes_eq c.script.0 script_hash) (coins chain))
        ≡ asked.listed_balance script_hash (lists chain) }
    ensures state { (chain : Chain) (o : outpoint_shape.Outpoint) →
        asked.newest_state o 0 (positions chain) ≡ asked.listed_state o (lists chain) }
    ensures spender { (chain : Chain) (o : outpoint_shape.Outpoint) → IsGood chain
        → fold (asked.spent_after o) None (positions chain) ≡ asked.listed_spender o (lists chain) }
{}

/// The lists and the tables of the example are those that were written out by hand.
pub fn example_is_as_by_hand()
    ensures lists { lists example.example_chain ≡ example.example_lists }
    ensures tables { tables_of example.two_heads (listed_blocks example.example_chain)
        (lists example.example_chain) ≡ example.example_tables }
{}
