// What a turn gave is sent, and its client is closed.
ghost use Rattle.std.specs.Prelude.{◌≡◌, ◌≢◌, ◌≤◌, ◌↔◌, ℕ, List, Option, Some, OnOk, IfOk, IfErr, IsTrue};
ghost use Rattle.el_outside.specs.Trace as trace;
ghost use Rattle.el_world.specs.World.{World, Event};
ghost use Rattle.el_core.specs.State.{AreUpTo, work};
ghost use Rattle.el_core.specs.Turn.{messages_of, closing_of, outs_of};
ghost use Rattle.el_loop.specs.within.Sending.{Sent, Unsent, CanSend, SentAll, StoppedSending, closing_left, first_some, Closes, RisesFor, halt_stop};
ghost use Rattle.el_loop.specs.within.Progress.{CanDeliver, Delivered};

use crate::halt::{Halt, loss_of};
use el_base::Bytes;
use el_core::{Outs, Server};
use el_model::Ledger;
use el_outside::{Link, Peer, Why};

// Sends a message. A client to which that fails is closed and forgotten, and is the answer.
fn send<G: Ledger, K: Link>(
    server: &mut Server<G>,
    link: &mut K,
    p: Peer,
    text: &Bytes,
) -> Result<Option<Peer>, Halt>
    ensures sent { IfOk result (λ lost. Sent G.stands K.tells (record { peer = p; text = text.now }) lost
        server.old (K.trace link.old) (K.faults link.old) server.new (K.trace link.new) (K.faults link.new)) }
    ensures unsent { IfErr result (λ halt. Unsent K.tells p (halt_stop halt)
        server.old (K.trace link.old) (K.faults link.old) server.new (K.trace link.new) (K.faults link.new)) }
    ensures counts { RisesFor (K.faults link.old) (K.faults link.new) Halt.Link result }
    ensures no_disk { IfErr result (λ halt. halt ≢ Halt.Disk) }
    ensures same_ledger { server.new.ledger ≡ server.old.ledger }
    ensures no_more { work server.new ≤ work server.old }
    ensures numbers { (last : ℕ) → AreUpTo last server.old.clients → AreUpTo last server.new.clients }
    ensures same_calls { K.calls link.new ≡ K.calls link.old }
    ensures same_last { K.last link.new ≡ K.last link.old }
{
    let Err(fault) = link.send(p, text.as_slice()) else {
        return Ok(None);
    };
    let (why, halt) = loss_of(fault);
    if p == 0 {
        return Err(halt);
    }
    link.close(p, why);
    server.gone(p);
    Ok(Some(p))
}

// Whether it is this client that is lost.
fn is_lost(lost: Option<Peer>, p: Peer) -> bool
    ensures { IsTrue result ↔ (lost ≡ Some p) }
{
    match lost {
        Some(q) => q == p,
        None => false,
    }
}

// The client that is lost now, or else the one that was.
fn now_lost(now: Option<Peer>, lost: Option<Peer>) -> Option<Peer>
    ensures { result ≡ first_some now lost }
{
    match now {
        Some(p) => Some(p),
        None => lost,
    }
}

// Sends messages in order, but none to a client to which one failed, which is the answer.
fn send_all<G: Ledger, K: Link>(
    server: &mut Server<G>,
    link: &mut K,
    sends: &[(Peer, Bytes)],
) -> Result<Option<Peer>, Halt>
    ensures sent { (next : World) (rest : List Event) (closing : Option trace.Closing)
        → CanSend G.stands K.tells server.old next rest (K.trace link.old) closing (messages_of sends.now)
        → IfOk result (λ lost. SentAll G.stands K.tells next rest closing (messages_of sends.now) lost
        server.old (K.trace link.old) (K.faults link.old) server.new (K.trace link.new) (K.faults link.new)) }
    ensures stopped { (next : World) (rest : List Event) (closing : Option trace.Closing)
        → CanSend G.stands K.tells server.old next rest (K.trace link.old) closing (messages_of sends.now)
        → IfErr result (λ halt. StoppedSending K.tells next (messages_of sends.now) (halt_stop halt)
        server.old (K.trace link.old) (K.faults link.old) server.new (K.trace link.new) (K.faults link.new)) }
    ensures counts { RisesFor (K.faults link.old) (K.faults link.new) Halt.Link result }
    ensures no_disk { IfErr result (λ halt. halt ≢ Halt.Disk) }
    ensures same_ledger { server.new.ledger ≡ server.old.ledger }
    ensures no_more { work server.new ≤ work server.old }
    ensures numbers { (last : ℕ) → AreUpTo last server.old.clients → AreUpTo last server.new.clients }
    ensures same_calls { K.calls link.new ≡ K.calls link.old }
    ensures same_last { K.last link.new ≡ K.last link.old }
{
    let mut lost = None;
    for (p, text) in sends {
        if is_lost(lost, *p) {
            continue;
        }
        match send(server, link, *p, text) {
            Ok(now) => lost = now_lost(now, lost),
            Err(halt) => return Err(halt),
        }
    }
    Ok(lost)
}

// Closes a client, but not one that is lost.
fn close<K: Link>(link: &mut K, close: Option<(Peer, Why)>, lost: Option<Peer>)
    ensures closes { K.tells
        → Closes (closing_left lost (closing_of close)) (K.trace link.old) (K.trace link.new) }
    ensures same_faults { K.faults link.new ≡ K.faults link.old }
    ensures same_calls { K.calls link.new ≡ K.calls link.old }
    ensures same_last { K.last link.new ≡ K.last link.old }
{
    if let Some((p, why)) = close {
        if !is_lost(lost, p) {
            link.close(p, why);
        }
    }
}

/// Sends and closes what a turn gave.
pub fn deliver<G: Ledger, K: Link>(
    server: &mut Server<G>,
    link: &mut K,
    outs: &Outs,
) -> Result<(), Halt>
    ensures delivered { (next : World) (rest : List Event)
        → CanDeliver G.stands K.tells server.old next rest (outs_of outs.now) (K.trace link.old)
        → OnOk result (Delivered G.stands K.tells next rest (outs_of outs.now)
        server.old (K.trace link.old) (K.faults link.old) server.new (K.trace link.new) (K.faults link.new)) }
    ensures undelivered { (next : World) (rest : List Event)
        → CanDeliver G.stands K.tells server.old next rest (outs_of outs.now) (K.trace link.old)
        → IfErr result (λ halt. StoppedSending K.tells next (outs_of outs.now).messages (halt_stop halt)
        server.old (K.trace link.old) (K.faults link.old) server.new (K.trace link.new) (K.faults link.new)) }
    ensures counts { RisesFor (K.faults link.old) (K.faults link.new) Halt.Link result }
    ensures no_disk { IfErr result (λ halt. halt ≢ Halt.Disk) }
    ensures same_ledger { server.new.ledger ≡ server.old.ledger }
    ensures no_more { work server.new ≤ work server.old }
    ensures numbers { (last : ℕ) → AreUpTo last server.old.clients → AreUpTo last server.new.clients }
    ensures same_calls { K.calls link.new ≡ K.calls link.old }
    ensures same_last { K.last link.new ≡ K.last link.old }
{
    match send_all(server, link, outs.sends.as_slice()) {
        Ok(lost) => {
            close(link, outs.close, lost);
            Ok(())
        }
        Err(halt) => Err(halt),
    }
}
