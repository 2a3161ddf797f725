// The tables of a set.
ghost use Rattle.std.specs.Prelude.{◌≡◌, ◌++◌, ◌∷◌, [], None, OnOk, OnErr, option_copied, option_and_then, slice_get};
ghost use Rattle.std.specs.List.{AllByRecursion};
ghost use Rattle.el_mempool.specs.declared.held.Source as source_shape;
ghost use Rattle.el_kept.specs.Tables.{HasEntries, HasFewSlots};
ghost use Rattle.std.specs.Option.{option_flatten, is_some};
ghost use Rattle.indexmap.specs.IndexMap.{get};
ghost use Rattle.el_tx.specs.Hashing.{same_outpoint};
ghost use Rattle.el_chain.specs.Headers.{same_hash};

use el_base::{Hash32, OutOfMemory};
use el_mempool::{Held, KeptTx};
use el_tx::Outpoint;
use indexmap::IndexMap;
use std::alloc::Global;

/// The transactions of a set and what stands beside them.
#[derive(Debug, Drop)]
pub struct Table {
    /// The transactions by their txids, in order of arrival; None stands where one was dropped.
    pub kept: IndexMap<Hash32, Option<KeptTx>>,
    /// The txid of the transaction that takes an outpoint.
    pub spenders: IndexMap<Outpoint, Hash32>,
    /// How many transactions are kept.
    pub count: u64,
    /// How many bytes they have together.
    pub bytes: u64,
}

/// The transaction with that txid; none where it isn't kept. Takes no memory.
pub fn kept_under<'a>(table: &'a Table, txid: &Hash32) -> Option<&'a KeptTx>
    ensures { option_copied result ≡ option_flatten (get same_hash table.now.kept txid.now) }
{
    match table.kept.get(txid) {
        Some(entry) => entry.as_ref(),
        None => None,
    }
}

/// What the output of a kept transaction holds that the outpoint names. Takes no memory.
pub fn output_in(table: &Table, outpoint: &Outpoint) -> Option<Held>
    ensures { result ≡ option_and_then (λ k. slice_get k.outputs outpoint.now.index)
        (option_flatten (get same_hash table.now.kept outpoint.now.txid)) }
{
    let kept = kept_under(table, &outpoint.txid)?;
    kept.outputs
        .as_slice()
        .get(outpoint.index as usize)
        .copied()
}

/// The txid of the kept transaction that takes the outpoint. Takes no memory.
pub fn taker_in(table: &Table, outpoint: &Outpoint) -> Option<Hash32>
    ensures { result ≡ get same_outpoint table.now.spenders outpoint.now }
{
    table.spenders.get(outpoint).copied()
}

/// A table of nothing. Takes no memory.
pub fn empty_table(alloc: Global) -> Table
    ensures table { HasEntries result [] }
    ensures slots { HasFewSlots result }
{
    Table {
        kept: IndexMap::new(alloc),
        spenders: IndexMap::new(alloc),
        count: 0,
        bytes: 0,
    }
}
