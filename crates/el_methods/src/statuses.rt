// Subscriptions to the statuses of script hashes.
ghost use Rattle.std.specs.Prelude.{◌≡◌, ◌+◌, ◌≤◌, true, List, IfOk, OnErr};
ghost use Rattle.el_outside.specs.Counts.{RoseBy};
ghost use Rattle.el_tx.specs.declared.types.Tx as shape;
ghost use Rattle.el_chain.specs.Chains.{Chain};
ghost use Rattle.el_mempool.specs.Standing.{KeptStandFor};
ghost use Rattle.el_model.specs.LedgerCalls.{Asked};
ghost use Rattle.el_methods.specs.Results as defined;
ghost use Rattle.el_methods.specs.Results.{told, is_one_too_many};
ghost use Rattle.el_methods.specs.Replied.{HasSubscribed};
ghost use Rattle.el_view.specs.Rows.{history_rows};
ghost use Rattle.el_methods.specs.Outcomes.{IsReplyWith, IsDiskCounted, RefusesOnly, IsPrintableAnswer};
ghost use Rattle.el_calls.specs.declared.refusal.Refusal.TheVariants as refusal;
ghost use Rattle.el_sessions.specs.Watching.{Follows};

use crate::stop::Stop;
use crate::texts::hex_of;
use el_base::{Hash32, OutOfMemory};
use el_calls::Refusal;
use el_json::Answer;
use el_model::Ledger;
use el_pool::Pool;
use el_sessions::{SUBSCRIPTION_LIMIT, Subs, Watched};
use el_view::view_status;
use std::alloc::Global;

/// A status as it is told (Electrum Protocol 1.4, "Status"): in hex, or null for a script hash without a
/// history. Fails only where memory runs out.
pub fn told_of(alloc: Global, status: Option<Hash32>) -> Result<Answer, OutOfMemory>
    ensures told { IfOk result (λ a. a ≡ told status) }
    ensures printable { IsPrintableAnswer result }
{
    match status {
        Some(hash) => hex_of(alloc, hash.0.as_slice()),
        None => Ok(Answer::null()),
    }
}

/// The answer to `blockchain.scripthash.subscribe` (Electrum Protocol 1.4): the status of the script hash.
/// The client is then subscribed to it, and was told that status.
#[tactic(auto, using(el_sessions::proofs::Counting::follows_same))]
pub fn script_hash_subscribe<G: Ledger>(
    alloc: Global,
    ledger: &mut G,
    pool: &Pool,
    subs: &mut Subs,
    watched: &mut Watched,
    s: Hash32,
) -> Result<Answer, Stop>
    requires live { G.is_live ledger.old }

    ensures answer { (chain : Chain) (kept : List shape.Tx) → G.stands ledger.old chain
        → KeptStandFor pool.now.entries chain kept
        → IsReplyWith (defined.script_hash_subscribe chain kept subs.old s) subs.old subs.new result }
    ensures printable { IsPrintableAnswer result }

    // Whatever the ledger and the unconfirmed set stand for.
    ensures changes { IfOk result (λ answer. HasSubscribed subs.old s answer subs.new) }
    ensures watched { Follows subs.old subs.new watched.old watched.new }
    ensures unanswered { OnErr result (subs.new ≡ subs.old) }
    ensures quiet { Asked ⟦<G as Ledger>⟧ ledger.old ledger.new }

    ensures refusals { RefusesOnly (λ r. (r ≡ refusal.TooManySubscriptions)
        × (is_one_too_many subs.old s ≡ true)) result }
    ensures rows { (chain : Chain) → G.stands ledger.old chain
        → G.reads ledger.new ≤ G.reads ledger.old + history_rows chain (G.buckets ledger.old) s.0 }
    ensures counted { IsDiskCounted (λ n. RoseBy (G.faults ledger.old) (G.faults ledger.new) n) result }
{
    if subs.held() >= SUBSCRIPTION_LIMIT && !subs.holds(&s) {
        return Err(Stop::Refused(Refusal::TooManySubscriptions));
    }
    let status = match view_status(alloc, ledger, pool, &s) {
        Ok(status) => status,
        Err(fault) => return Err(Stop::from(fault)),
    };
    let answer = match told_of(alloc, status) {
        Ok(answer) => answer,
        Err(_) => return Err(Stop::Memory),
    };
    match watched.subscribe(subs, s, status) {
        Ok(()) => Ok(answer),
        Err(_) => Err(Stop::Memory),
    }
}
