// The answer to a request.
ghost use Rattle.std.specs.Prelude.{◌≡◌, ◌≤◌, ◌+◌, IfOk, MatchResult, Ok};
ghost use Rattle.el_calls.specs.Methods.{IsCalled};
ghost use Rattle.el_outside.specs.Counts.{RoseBy};
ghost use Rattle.el_outside.specs.Files.{AllGrow};
ghost use Rattle.el_model.specs.LedgerCalls.{Asked};
ghost use Rattle.el_side.specs.Beneath.{beneath, ghosts};
ghost use Rattle.el_side.specs.Caching.{CachesStand, CachesStay};
ghost use Rattle.el_side.specs.NodeSteps.{IsSettled};
ghost use Rattle.el_side.specs.Side.{Side};
ghost use Rattle.el_replies.specs.Batches.{CutAnswer};
ghost use Rattle.el_replies.specs.Losses.{AnswersOf};
ghost use Rattle.el_replies.specs.Requested.{IsAnswered, told_of};
ghost use Rattle.el_replies.specs.Spending.{Loses, asked_ghosts, asking};
ghost use Rattle.el_methods.specs.RowBounds.{rows_read_by};
ghost use Rattle.el_methods.specs.Outcomes.{IsPrintableAnswer};
ghost use Rattle.el_sessions.specs.Watching.{Follows};
ghost use Rattle.el_chain.specs.Chains.{Chain};
ghost use Rattle.el_replies.specs.RowBounds.{RequestReads, ReadsWithin};

use crate::broadcast::broadcast;
use el_base::OutOfMemory;
use el_calls::{Call, Refusal, call_of};
use el_json::{Answer, Request};
use el_methods::{Stop, answer};
use el_model::Ledger;
use el_outside::{Archive, Relay};
use el_relay::Desk;
use el_sessions::{Session, Watched};
use el_side::{Caches, Holdings};
use std::alloc::Global;

// What the client is told of a call.
fn told_of(given: Result<Answer, Stop>) -> Option<Result<Answer, Refusal>>
    ensures { result ≡ told_of given }
{
    match given {
        Ok(answer) => Some(Ok(answer)),
        Err(Stop::Refused(refusal)) => Some(Err(refusal)),
        Err(Stop::Disk) => Some(Err(Refusal::DiskFailed)),
        Err(Stop::Archive) => Some(Err(Refusal::ArchiveFailed)),
        Err(Stop::Changed) => Some(Err(Refusal::ArchiveChanged)),
        Err(Stop::Memory) => None,
    }
}

// The answer to a call that is no broadcast: what is defined, or that a device failed.
#[tactic(auto, using(el_sessions::proofs::Counting::follows_same))]
fn answer_call<G: Ledger, A: Archive>(
    alloc: Global,
    ledger: &mut G,
    archive: &mut A,
    holdings: &Holdings,
    caches: &mut Caches,
    session: &mut Session,
    watched: &mut Watched,
    call: &Call,
) -> Result<Result<Answer, Refusal>, OutOfMemory>
    requires live { G.is_live ledger.old }
    ensures answered { (side : Side) → IsSettled (ghosts ⟦<G as Ledger>⟧ ⟦<A as Archive>⟧)
        (beneath ledger.old archive.old) holdings.now caches.old side
        → IsAnswered A.tells side call.now session.old session.new
        (λ n. RoseBy (G.faults ledger.old) (G.faults ledger.new) n)
        (λ n. RoseBy (A.faults archive.old) (A.faults archive.new) n) result }
    ensures watched { Follows session.old.subs session.new.subs watched.old watched.new }
    ensures printable { IfOk result IsPrintableAnswer }
    ensures rows { (chain : Chain) → G.stands ledger.old chain → CachesStand caches.old chain chain
        → G.reads ledger.new ≤ G.reads ledger.old + rows_read_by chain (G.buckets ledger.old) call.now }
    ensures caches { CachesStay ⟦<G as Ledger>⟧ ledger.old caches.old caches.new }
    ensures disk_more { G.faults ledger.old ≤ G.faults ledger.new }
    ensures archive_more { A.faults archive.old ≤ A.faults archive.new }
    ensures quiet { Asked ⟦<G as Ledger>⟧ ledger.old ledger.new }
    ensures grows { A.tells → AllGrow (A.bytes archive.old) (A.bytes archive.new) }
{
    let given = answer(
        alloc, ledger, archive, holdings, caches, session, watched, call,
    );
    match told_of(given) {
        Some(told) => Ok(told),
        None => Err(OutOfMemory),
    }
}

// The answer to a request that asks for the call. A broadcast goes to the desk.
#[tactic(auto, using(el_sessions::proofs::Counting::follows_same))]
fn answer_called<G: Ledger, A: Archive, Y: Relay>(
    alloc: Global,
    ledger: &mut G,
    archive: &mut A,
    holdings: &Holdings,
    caches: &mut Caches,
    session: &mut Session,
    watched: &mut Watched,
    desk: &mut Desk,
    relay: &mut Y,
    request: &Request,
    call: &Call,
) -> Result<Result<Answer, Refusal>, OutOfMemory>
    requires live { G.is_live ledger.old }
    requires called { IsCalled request.now.method request.now.params (Ok call.now) }
    ensures answered { (side : Side) → IsSettled (ghosts ⟦<G as Ledger>⟧ ⟦<A as Archive>⟧)
        (beneath ledger.old archive.old) holdings.now caches.old side → Loses
        (asked_ghosts (ghosts ⟦<G as Ledger>⟧ ⟦<A as Archive>⟧) ⟦<Y as Relay>⟧)
        (asking ledger.old archive.old relay.old desk.old) (asking ledger.new archive.new relay.new desk.new)
        (λ before after. MatchResult result
        (λ told. AnswersOf A.tells side before request.now session.old told after session.new)
        (λ _. CutAnswer (AnswersOf A.tells side) request.now before session.old after)) }
    ensures watched { Follows session.old.subs session.new.subs watched.old watched.new }
    ensures printable { IfOk result IsPrintableAnswer }
    ensures rows { (chain : Chain) → G.stands ledger.old chain → CachesStand caches.old chain chain
        → ReadsWithin (RequestReads chain (G.buckets ledger.old) request.now)
        (G.reads ledger.old) (G.reads ledger.new) }
    ensures caches { CachesStay ⟦<G as Ledger>⟧ ledger.old caches.old caches.new }
    ensures disk_more { G.faults ledger.old ≤ G.faults ledger.new }
    ensures archive_more { A.faults archive.old ≤ A.faults archive.new }
    ensures relay_more { Y.faults relay.old ≤ Y.faults relay.new }
    ensures quiet { Asked ⟦<G as Ledger>⟧ ledger.old ledger.new }
    ensures grows { A.tells → AllGrow (A.bytes archive.old) (A.bytes archive.new) }
{
    match call.raw_tx() {
        Some(bytes) => broadcast(alloc, desk, relay, bytes),
        None => answer_call(
            alloc, ledger, archive, holdings, caches, session, watched, call,
        ),
    }
}

/// The answer to a request: what is defined, or that a device failed. A broadcast goes to the desk.
#[tactic(auto, using(el_sessions::proofs::Counting::follows_same))]
pub fn answer_request<G: Ledger, A: Archive, Y: Relay>(
    alloc: Global,
    ledger: &mut G,
    archive: &mut A,
    holdings: &Holdings,
    caches: &mut Caches,
    session: &mut Session,
    watched: &mut Watched,
    desk: &mut Desk,
    relay: &mut Y,
    request: &Request,
) -> Result<Result<Answer, Refusal>, OutOfMemory>
    requires live { G.is_live ledger.old }
    ensures answered { (side : Side) → IsSettled (ghosts ⟦<G as Ledger>⟧ ⟦<A as Archive>⟧)
        (beneath ledger.old archive.old) holdings.now caches.old side → Loses
        (asked_ghosts (ghosts ⟦<G as Ledger>⟧ ⟦<A as Archive>⟧) ⟦<Y as Relay>⟧)
        (asking ledger.old archive.old relay.old desk.old) (asking ledger.new archive.new relay.new desk.new)
        (λ before after. MatchResult result
        (λ told. AnswersOf A.tells side before request.now session.old told after session.new)
        (λ _. CutAnswer (AnswersOf A.tells side) request.now before session.old after)) }
    ensures watched { Follows session.old.subs session.new.subs watched.old watched.new }
    ensures printable { IfOk result IsPrintableAnswer }
    ensures rows { (chain : Chain) → G.stands ledger.old chain → CachesStand caches.old chain chain
        → ReadsWithin (RequestReads chain (G.buckets ledger.old) request.now)
        (G.reads ledger.old) (G.reads ledger.new) }
    ensures caches { CachesStay ⟦<G as Ledger>⟧ ledger.old caches.old caches.new }
    ensures disk_more { G.faults ledger.old ≤ G.faults ledger.new }
    ensures archive_more { A.faults archive.old ≤ A.faults archive.new }
    ensures relay_more { Y.faults relay.old ≤ Y.faults relay.new }
    ensures quiet { Asked ⟦<G as Ledger>⟧ ledger.old ledger.new }
    ensures grows { A.tells → AllGrow (A.bytes archive.old) (A.bytes archive.new) }
{
    let called = call_of(alloc, request.method.as_str(), &request.params)?;
    match called {
        Ok(call) => answer_called(
            alloc, ledger, archive, holdings, caches, session, watched, desk, relay, request, &call,
        ),
        Err(refusal) => Ok(Err(refusal)),
    }
}
