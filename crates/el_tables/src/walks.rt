// What walks along links find, and what the steps do to the sum of all coins. Each function states a law and
// does nothing when it runs.
ghost use Rattle.std.specs.Prelude.{◌≡◌, ◌<◌, ◌≤◌, ◌+◌, ℕ, List, Option, None, Some, option_and_then, length, take, filter, get_or, slice_get, true, if◌then◌else◌};
ghost use Rattle.el_base.specs.declared.hash.Hash32 as hash;
ghost use Rattle.el_tx.specs.Hashing.{txid};
ghost use Rattle.el_tx.specs.declared.types.Outpoint as outpoint_shape;
ghost use Rattle.el_chain.specs.Chains.{Chain};
ghost use Rattle.el_chain.specs.Headers.{same_hash};
ghost use Rattle.el_chain.specs.History.{Position, positions};
ghost use Rattle.el_tables.specs.Lists as spec;
ghost use Rattle.el_tables.specs.ChainLists.{lists};
ghost use Rattle.el_tables.specs.Disconnecting.{last};
ghost use Rattle.el_tables.specs.Edits.{no_out};
ghost use Rattle.el_tables.specs.Tables.{greatest};

/// The newest transaction with a txid is the greatest number that has it: that of the newest row in the
/// txid's bucket that has it. In the lists of a chain it is the last position with that txid.
pub fn newest_transaction_is_found()
    ensures greatest { (id : hash.Hash32) (txs : List spec.ListedTx) →
        spec.newest_tx id txs ≡ greatest (λ (t : spec.ListedTx). same_hash t.txid id) txs }
    ensures position { (chain : Chain) (id : hash.Hash32) →
        option_and_then (λ n. slice_get (positions chain) n) (spec.newest_tx id (lists chain).txs)
        ≡ last (filter (λ (p : Position). same_hash (txid p.tx) id) (positions chain)) }
{}

/// The output that an outpoint names is found along `older`: it is one of the newest transaction with the
/// txid, if that has so many outputs, and else the one that the outpoint names among the transactions before
/// that one.
pub fn outpoint_is_found_along_older()
    ensures none { (o : outpoint_shape.Outpoint) (txs : List spec.ListedTx) →
        spec.newest_tx o.txid txs ≡ None → spec.output_number o txs ≡ None }
    ensures some { (o : outpoint_shape.Outpoint) (txs : List spec.ListedTx) (n : ℕ) (d : spec.ListedTx) →
        spec.newest_tx o.txid txs ≡ Some n
        → (n < length txs) × (spec.output_number o txs
        ≡ (if spec.has_output o (get_or txs n d) then Some ((get_or txs n d).first_out + o.index)
        else spec.output_number o (take n txs))) }
{}

/// What all unspent outputs hold falls by the value of an output that is spent or buried, and rises by the
/// value of one that is added. Each balance is a part of it.
pub fn sum_follows_the_steps()
    ensures spent { (l : spec.Lists) (by k : ℕ) → spec.unspent_at k l.outs ≡ true
        → spec.unspent_sum (spec.spend_output by k l).outs + (get_or l.outs k no_out).value
        ≡ spec.unspent_sum l.outs }
    ensures alone { (l : spec.Lists) (tx index value script : ℕ) → spec.replaced tx index l ≡ None
        → spec.unspent_sum (spec.add_output tx index value script l).outs
        ≡ spec.unspent_sum l.outs + value }
    ensures buries { (l : spec.Lists) (tx index value script k : ℕ) → spec.replaced tx index l ≡ Some k
        → spec.unspent_sum (spec.add_output tx index value script l).outs + (get_or l.outs k no_out).value
        ≡ spec.unspent_sum l.outs + value }
    ensures balances { (script : ℕ) (outs : List spec.ListedOut) →
        spec.balance_of script outs ≤ spec.unspent_sum outs }
{}
