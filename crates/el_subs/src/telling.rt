// What a client is told.
ghost use Rattle.std.specs.Prelude.{◌≡◌, ◌≤◌, ◌+◌, List, ◌++◌, IfOk, OnOk};
ghost use Rattle.std.specs.Map.{keys_of};
ghost use Rattle.el_base.specs.declared.hash.Hash32 as hash_shape;
ghost use Rattle.el_outside.specs.Counts.{CountsOnly};
ghost use Rattle.el_tx.specs.declared.types.Tx as shape;
ghost use Rattle.el_chain.specs.Chains.{Chain};
ghost use Rattle.el_model.specs.LedgerCalls.{Asked};
ghost use Rattle.el_mempool.specs.Standing.{KeptStandFor};
ghost use Rattle.el_view.specs.Rows.{history_rows};
ghost use Rattle.el_subs.specs.Told.{status, news, marked, OthersTold, cost_of};
ghost use Rattle.el_subs.specs.within.Partly.{one_to, noted};

use el_base::Hash32;
use el_chain::Touched;
use el_model::{Ledger, QueryFault};
use el_pool::Pool;
use el_sessions::Subs;
use el_view::view_status;
use std::alloc::Global;

// Tells the subscription to that script hash, if there is one and its status isn't the one told last.
fn tell_one<G: Ledger>(
    alloc: Global,
    subs: &mut Subs,
    s: &Hash32,
    ledger: &mut G,
    pool: &Pool,
    found: &mut Vec<(Hash32, Option<Hash32>)>,
) -> Result<(), QueryFault>
    requires live { G.is_live ledger.old }
    ensures told { (chain : Chain) (kept : List shape.Tx) → G.stands ledger.old chain
        → KeptStandFor pool.now.entries chain kept
        → OnOk result ((found.new.items ≡ found.old.items ++ news (status chain kept) (one_to s.now subs.old))
        × (subs.new ≡ noted (status chain kept) s.now subs.old)) }
    ensures rows { (chain : Chain) → G.stands ledger.old chain
        → G.reads ledger.new ≤ G.reads ledger.old + history_rows chain (G.buckets ledger.old) s.now.0 }
    ensures keys { keys_of subs.new ≡ keys_of subs.old }
    ensures quiet { Asked ⟦<G as Ledger>⟧ ledger.old ledger.new }
    ensures cause { CountsOnly (G.faults ledger.old) (G.faults ledger.new) QueryFault.DiskFailed result }
{
    let Some(told) = subs.told(s) else {
        return Ok(());
    };
    let now = view_status(alloc, ledger, pool, s)?;
    if now != told {
        found.push((*s, now))?;
        subs.note(s, now);
    }
    Ok(())
}

/// What a client is told of its subscriptions, in their order: the script hash and the status, both in inner
/// order, of each whose status isn't the one told last. They are then marked as told. These are all, where
/// each subscription to a script hash that isn't touched was told its status: each touched script hash is
/// looked up once, and no other subscription is looked at, however many there are.
///
/// # Errors
///
/// `DiskFailed`, `Memory`; then the subscriptions are not used again.
pub fn tell<G: Ledger>(
    alloc: Global,
    subs: &mut Subs,
    ledger: &mut G,
    pool: &Pool,
    touched: &Touched,
) -> Result<Vec<(Hash32, Option<Hash32>)>, QueryFault>
    requires live { G.is_live ledger.old }
    ensures told { (chain : Chain) (kept : List shape.Tx) → G.stands ledger.old chain
        → KeptStandFor pool.now.entries chain kept → OthersTold (status chain kept) touched.now subs.old
        → IfOk result (λ found. found.items ≡ news (status chain kept) subs.old) }
    ensures marked { (chain : Chain) (kept : List shape.Tx) → G.stands ledger.old chain
        → KeptStandFor pool.now.entries chain kept → OthersTold (status chain kept) touched.now subs.old
        → OnOk result (subs.new ≡ marked (status chain kept) subs.old) }
    ensures rows { (chain : Chain) → G.stands ledger.old chain
        → G.reads ledger.new ≤ G.reads ledger.old
        + cost_of (λ (x : hash_shape.Hash32). history_rows chain (G.buckets ledger.old) x.0) touched.now
        (keys_of subs.old) }
    // The script hashes stay, whatever the ledger stands for.
    ensures keys { keys_of subs.new ≡ keys_of subs.old }
    ensures quiet { Asked ⟦<G as Ledger>⟧ ledger.old ledger.new }
    ensures cause { CountsOnly (G.faults ledger.old) (G.faults ledger.new) QueryFault.DiskFailed result }
{
    let held = subs.held_among(alloc, touched.list())?;
    let mut found = Vec::new(alloc);
    for s in held.iter() {
        tell_one(alloc, subs, s, ledger, pool, &mut found)?;
    }
    Ok(found)
}
