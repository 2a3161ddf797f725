// Laws of what the lists of a chain are asked for, and of what its blocks touch. Each function states a law
// and does nothing when it runs.
ghost use Rattle.std.specs.Prelude.{◌≡◌, ◌≤◌, ◌++◌, ℕ, length, filter, sum_by, true};
ghost use Rattle.std.specs.List.{AllByRecursion, list_any};
ghost use Rattle.std.specs.Str.{bytes_eq};
ghost use Rattle.el_base.specs.declared.hash.Hash32 as shape;
ghost use Rattle.el_chain.specs.Chains.{Chain};
ghost use Rattle.el_chain.specs.Coins.{coins};
ghost use Rattle.el_chain.specs.Faults.{IsGood};
ghost use Rattle.el_chain.specs.History.{history, Position, positions_from};
ghost use Rattle.el_chain.specs.Touches.{touches, touches_any};
ghost use Rattle.el_model.specs.Queries as asked;
ghost use Rattle.el_tables.specs.ChainLists.{lists};
ghost use Rattle.el_tables.specs.Lists.{ListedEntry, is_of_script, script_number};
ghost use Rattle.el_tables.specs.Queries.{outs_at};
ghost use Rattle.el_buckets.specs.Buckets.{bucket_size};

/// Each script hash of a chain's lists is that of an output, so that no bucket has more of them than the
/// chain has script hashes in it.
pub fn scripts_of_lists_are_those_of_outputs()
    ensures outputs { (chain : Chain) → AllByRecursion
        (λ (h : shape.Hash32). list_any (λ other. bytes_eq other h.0) (asked.scripts chain) ≡ true)
        (lists chain).scripts }
    ensures buckets { (chain : Chain) (count : ℕ) (s : shape.Hash32) →
        bucket_size count s (lists chain).scripts ≤ asked.scripts_in_bucket chain count s.0 }
{}

/// The entries of a script hash are as many as its history lists, and their transactions have as many
/// outputs.
pub fn entries_are_counted_by_the_history()
    ensures entries { (chain : Chain) (s : shape.Hash32) →
        length (filter (is_of_script (script_number s (lists chain).scripts)) (lists chain).entries)
        ≡ length (history chain s.0) }
    ensures outputs { (chain : Chain) (s : shape.Hash32) →
        sum_by (λ (e : ListedEntry). outs_at e.tx (lists chain).txs)
        (filter (is_of_script (script_number s (lists chain).scripts)) (lists chain).entries)
        ≡ asked.outputs_of_history chain s.0 }
{}

/// Blocks after a base touch, each transaction by the coins that stand before it, exactly what they touch by
/// the coins of the base: a coin that stands before a transaction is the base's, or an output of theirs.
pub fn each_block_touches_what_the_move_touches()
    ensures { (base bs : Chain) (s : shape.Hash32) → IsGood (base ++ bs)
        → touches_any s.0 (coins base) bs
        ≡ list_any (λ (p : Position). touches s.0 p.before p.tx)
        (positions_from (length base) bs (coins base)) }
{}
