// The run over the arrivals.
ghost use Rattle.std.specs.Prelude.{◌≡◌, ◌≤◌, ℕ, List, [], length, OnOk, IfErr};
ghost use Rattle.el_outside.specs.Files.{AllGrow};
ghost use Rattle.el_outside.specs.Trace.{with_bytes};
ghost use Rattle.el_world.specs.World.{World, Event, AllTold, events, after_hearing};
ghost use Rattle.el_model.specs.Keeping.{LeavesEither};
ghost use Rattle.el_model.specs.LedgerCalls.{KeepsBeside};
ghost use Rattle.el_side.specs.Beneath.{ghosts};
ghost use Rattle.el_core.specs.State.{State, Stands, AreUpTo, IsIdle};
ghost use Rattle.el_core.specs.Arrivals.{with_all_bytes, IsAfterArrival, IsAbove, ComesUpTo};
ghost use Rattle.el_loop.specs.Counts.{counts_of, devices, IsCaused, failed_device};
ghost use Rattle.el_loop.specs.Runs.{RunEnds, is_end};
ghost use Rattle.el_loop.specs.Traffic.{Traffic, WentBy, WentTo};
ghost use Rattle.el_loop.specs.within.Sending.{RisesFor, halt_stop};
ghost use Rattle.el_loop.specs.within.Progress.{ClientsAreOpen, IsReady, Finished, Stopped, StoppedIn, all_ghosts, snapshot, taken_one};

use crate::end::End;
use crate::halt::{Halt, halt_of};
use crate::options::RunOptions;
use crate::sending::deliver;
use el_core::Server;
use el_model::Ledger;
use el_outside::{Archive, Arrival, BUFFER_SIZE, Link, Pace, Relay};
use std::thread::Threads;

// Takes turns until no work is left.
fn work_off<W: Threads + Sync, G: Ledger, A: Archive, Y: Relay, K: Link>(
    rt: &W,
    server: &mut Server<G>,
    archive: &mut A,
    relay: &mut Y,
    link: &mut K,
    pace: &(dyn Pace + Sync),
) -> Result<(), Halt>
    requires live { G.is_live server.old.ledger }
    ensures finished { let of = all_ghosts (ghosts ⟦<G as Ledger>⟧ ⟦<A as Archive>⟧) ⟦<Y as Relay>⟧
        ⟦<K as Link>⟧ in
        let was = snapshot server.old archive.old relay.old link.old in (world : World) (all : List Event)
        → Stands G.stands server.old world all → IsReady of world was
        → OnOk result (Finished of world all was (snapshot server.new archive.new relay.new link.new)) }
    ensures stopped { let of = all_ghosts (ghosts ⟦<G as Ledger>⟧ ⟦<A as Archive>⟧) ⟦<Y as Relay>⟧
        ⟦<K as Link>⟧ in
        let was = snapshot server.old archive.old relay.old link.old in (world : World) (all : List Event)
        → Stands G.stands server.old world all → IsReady of world was → IfErr result (λ halt. Stopped of
        (LeavesEither G.tells_crash G.means G.moment G.left_since server.new.ledger) world all
        (halt_stop halt)
        was (snapshot server.new archive.new relay.new link.new)) }
    ensures idle { OnOk result (IsIdle server.new) }
    ensures live { OnOk result (G.is_live server.new.ledger) }
    ensures numbers { (last : ℕ) → AreUpTo last server.old.clients
        → OnOk result (AreUpTo last server.new.clients) }
    ensures keeps { A.tells → AllGrow (A.bytes archive.old) (A.bytes archive.new) }
    ensures same_calls { K.calls link.new ≡ K.calls link.old }
    ensures same_last { K.last link.new ≡ K.last link.old }
    ensures link_counts { RisesFor (K.faults link.old) (K.faults link.new) Halt.Link result }
    ensures archive_more { A.faults archive.old ≤ A.faults archive.new }
    ensures relay_more { Y.faults relay.old ≤ Y.faults relay.new }
    ensures disk_counts { RisesFor (G.faults server.old.ledger) (G.faults server.new.ledger)
        Halt.Disk result }
    ensures beside { KeepsBeside ⟦<G as Ledger>⟧ server.old.ledger server.new.ledger }
{
    loop {
        match server.turn(rt, archive, pace, relay) {
            Ok(Some(outs)) => match deliver(server, link, &outs) {
                Ok(()) => {}
                Err(halt) => return Err(halt),
            },
            Ok(None) => return Ok(()),
            Err(fault) => return Err(halt_of(fault)),
        }
    }
}

// Whether the arrival ends the run.
fn ends(arrival: Arrival) -> bool
    ensures { (buf : List ℕ) → result ≡ is_end (with_bytes arrival buf) }
{
    match arrival {
        Arrival::Ended => true,
        Arrival::Closed(p) => p == 0,
        _ => false,
    }
}

// The bytes that an arrival brings, which stand first in the buffer.
fn brought(arrival: Arrival, buf: &[u8]) -> &[u8]
    requires { length buf.now ≡ BUFFER_SIZE }
    ensures { with_all_bytes arrival result.now ≡ with_bytes arrival buf.now }
{
    match arrival {
        Arrival::Bytes(_, n) if n <= buf.len() => &buf[..n],
        _ => buf,
    }
}

// An arrival as it is taken, with a node or without one.
fn as_taken(arrival: Arrival, node: bool) -> Arrival
    ensures taken { (bytes : List ℕ)
        → with_all_bytes result bytes ≡ taken_one node (with_all_bytes arrival bytes) }
    ensures above { (last : ℕ) → IsAbove last arrival → IsAbove last result }
    ensures up_to { (now : ℕ) → ComesUpTo now arrival → ComesUpTo now result }
{
    match arrival {
        Arrival::Bytes(0, _) if !node => Arrival::Quiet,
        other => other,
    }
}

// Takes an arrival, and all turns that it asks for.
fn serve_arrival<W: Threads + Sync, G: Ledger, A: Archive, Y: Relay, K: Link>(
    rt: &W,
    server: &mut Server<G>,
    archive: &mut A,
    relay: &mut Y,
    link: &mut K,
    arrival: Arrival,
    bytes: &[u8],
    pace: &(dyn Pace + Sync),
) -> Result<(), Halt>
    requires live { G.is_live server.old.ledger }
    requires idle { IsIdle server.old }
    requires new { (last : ℕ) × AreUpTo last server.old.clients × IsAbove last arrival }
    ensures served { (world : World) → Stands G.stands server.old world [] → AllTold world
        → (A.tells → AllGrow world.side.files (A.bytes archive.old))
        → (K.tells → (next : World) (s : State G)
        → IsAfterArrival (with_all_bytes arrival bytes.now) world next s.surplus
        → ClientsAreOpen s next (K.trace link.old))
        → OnOk result (Finished
        (all_ghosts (ghosts ⟦<G as Ledger>⟧ ⟦<A as Archive>⟧) ⟦<Y as Relay>⟧ ⟦<K as Link>⟧)
        (after_hearing (with_all_bytes arrival bytes.now) world)
        (events world (with_all_bytes arrival bytes.now))
        (snapshot server.old archive.old relay.old link.old)
        (snapshot server.new archive.new relay.new link.new)) }
    ensures stopped { (world : World) → Stands G.stands server.old world [] → AllTold world
        → (A.tells → AllGrow world.side.files (A.bytes archive.old))
        → (K.tells → (next : World) (s : State G)
        → IsAfterArrival (with_all_bytes arrival bytes.now) world next s.surplus
        → ClientsAreOpen s next (K.trace link.old))
        → IfErr result (λ halt.
        StoppedIn (all_ghosts (ghosts ⟦<G as Ledger>⟧ ⟦<A as Archive>⟧) ⟦<Y as Relay>⟧ ⟦<K as Link>⟧)
        (LeavesEither G.tells_crash G.means G.moment G.left_since server.new.ledger)
        world (with_all_bytes arrival bytes.now) (halt_stop halt)
        (snapshot server.old archive.old relay.old link.old)
        (snapshot server.new archive.new relay.new link.new)) }
    ensures idle { OnOk result (IsIdle server.new) }
    ensures live { OnOk result (G.is_live server.new.ledger) }
    ensures numbers { (last now : ℕ) → last ≤ now → AreUpTo last server.old.clients → ComesUpTo now arrival
        → OnOk result (AreUpTo now server.new.clients) }
    ensures keeps { A.tells → AllGrow (A.bytes archive.old) (A.bytes archive.new) }
    ensures same_calls { K.calls link.new ≡ K.calls link.old }
    ensures same_last { K.last link.new ≡ K.last link.old }
    ensures link_counts { RisesFor (K.faults link.old) (K.faults link.new) Halt.Link result }
    ensures archive_more { A.faults archive.old ≤ A.faults archive.new }
    ensures relay_more { Y.faults relay.old ≤ Y.faults relay.new }
    ensures disk_counts { RisesFor (G.faults server.old.ledger) (G.faults server.new.ledger)
        Halt.Disk result }
    ensures beside { KeepsBeside ⟦<G as Ledger>⟧ server.old.ledger server.new.ledger }
{
    match server.take(arrival, bytes) {
        Ok(()) => work_off(rt, server, archive, relay, link, pace),
        Err(_) => Err(Halt::Memory),
    }
}

/// Serves the arrivals that calls of `next` bring, as the options say.
pub fn run<W: Threads + Sync, G: Ledger, A: Archive, Y: Relay, K: Link>(
    rt: &W,
    server: &mut Server<G>,
    archive: &mut A,
    relay: &mut Y,
    link: &mut K,
    pace: &(dyn Pace + Sync),
    options: RunOptions,
) -> End
    requires live { G.is_live server.old.ledger }
    requires idle { IsIdle server.old }
    requires nobody { server.old.clients ≡ [] }
    ensures ends { (first : World) → Stands G.stands server.old first [] → first.sessions ≡ []
        → first.side.files ≡ A.bytes archive.old
        → (traffic : Traffic)
        × WentBy ⟦<K as Link>⟧ link.old link.new traffic × WentTo ⟦<Y as Relay>⟧ relay.old relay.new traffic
        × RunEnds ⟦<A as Archive>⟧ first options.node
        (LeavesEither G.tells_crash G.means G.moment G.left_since server.new.ledger)
        (A.bytes archive.new) (counts_of G.faults ⟦<A as Archive>⟧ ⟦<Y as Relay>⟧ ⟦<K as Link>⟧ options.turns
        (devices server.old.ledger archive.old relay.old link.old)
        (devices server.new.ledger archive.new relay.new link.new)) traffic result }
    ensures causes { IsCaused (counts_of G.faults ⟦<A as Archive>⟧ ⟦<Y as Relay>⟧ ⟦<K as Link>⟧ options.turns
        (devices server.old.ledger archive.old relay.old link.old)
        (devices server.new.ledger archive.new relay.new link.new)) (failed_device result)
        (result ≡ End.TurnsSpent) }
    ensures keeps { A.tells → AllGrow (A.bytes archive.old) (A.bytes archive.new) }
    ensures beside { KeepsBeside ⟦<G as Ledger>⟧ server.old.ledger server.new.ledger }
{
    let mut buf = [0u8; BUFFER_SIZE];
    for _turn in 0..options.turns {
        let Ok(arrival) = link.next(&mut buf) else {
            return End::LinkFailed;
        };
        let taken = as_taken(arrival, options.node);
        let bytes = brought(arrival, &buf);
        if let Err(halt) = serve_arrival(rt, server, archive, relay, link, taken, bytes, pace) {
            return halt.end();
        }
        if ends(arrival) {
            return End::Ended;
        }
    }
    End::TurnsSpent
}
