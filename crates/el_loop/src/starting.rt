// A run from a ledger.
ghost use Rattle.std.specs.Prelude.{◌≡◌, Bool, true};
ghost use Rattle.el_outside.specs.Files.{AllGrow};
ghost use Rattle.el_chain.specs.Chains.{Chain};
ghost use Rattle.el_model.specs.Keeping.{LeavesEither};
ghost use Rattle.el_model.specs.LedgerCalls.{KeepsBeside};
ghost use Rattle.el_side.specs.Caching.{CachesStand};
ghost use Rattle.el_world.specs.World.{initial_world};
ghost use Rattle.el_loop.specs.Counts.{counts_of, devices, IsCaused, failed_device};
ghost use Rattle.el_loop.specs.Runs.{RunEnds};
ghost use Rattle.el_loop.specs.Traffic.{Traffic, WentBy, WentTo};
ghost use Rattle.el_relay.specs.Desk.{empty_desk};

use crate::end::End;
use crate::options::RunOptions;
use crate::running::run;
use el_core::Server;
use el_fees::FeeTable;
use el_headers::HeaderTree;
use el_model::Ledger;
use el_outside::{Archive, Link, Pace, Relay};
use el_pool::Pool;
use el_relay::Desk;
use el_side::{Caches, Holdings};
use std::alloc::Global;
use std::thread::Threads;

/// Serves the arrivals that calls of `next` bring, as the options say, from a ledger and the headers that
/// were found, with what was computed once of its chain, and a new desk of broadcasts. Nothing unconfirmed is
/// kept at the start. The ledger comes back as it stands.
pub fn serve_from<W: Threads + Sync, G: Ledger, A: Archive, Y: Relay, K: Link>(
    rt: &W,
    alloc: Global,
    ledger: G,
    tree: HeaderTree,
    caches: Caches,
    desk: Desk,
    archive: &mut A,
    relay: &mut Y,
    link: &mut K,
    pace: &(dyn Pace + Sync),
    options: RunOptions,
) -> (End, G)
    requires live { G.is_live ledger }
    // What was sent and closed is a run from the chain that the ledger stands for, and so it ends. It is a
    // run from a side that is unsure whatever the ledger stands for.
    ensures ends { (sure relays : Bool) (chain : Chain) → (sure ≡ true → G.stands ledger chain)
        → (sure ≡ true → CachesStand caches chain chain) → desk ≡ empty_desk relays → (traffic : Traffic) ×
        WentBy ⟦<K as Link>⟧ link.old link.new traffic × WentTo ⟦<Y as Relay>⟧ relay.old relay.new traffic
        × RunEnds ⟦<A as Archive>⟧ (initial_world sure chain options.magic options.limits tree
        (A.bytes archive.old) relays) options.node
        (LeavesEither G.tells_crash G.means G.moment G.left_since result.1)
        (A.bytes archive.new) (counts_of G.faults ⟦<A as Archive>⟧ ⟦<Y as Relay>⟧ ⟦<K as Link>⟧ options.turns
        (devices ledger archive.old relay.old link.old) (devices result.1 archive.new relay.new link.new))
        traffic result.0 }
    // Whatever the devices tell, a failure that ends the run was counted.
    ensures causes { IsCaused (counts_of G.faults ⟦<A as Archive>⟧ ⟦<Y as Relay>⟧ ⟦<K as Link>⟧ options.turns
        (devices ledger archive.old relay.old link.old) (devices result.1 archive.new relay.new link.new))
        (failed_device result.0) (result.0 ≡ End.TurnsSpent) }
    ensures keeps { A.tells → AllGrow (A.bytes archive.old) (A.bytes archive.new) }
    // However it ends, the files beside the ledger's own stay.
    ensures beside { KeepsBeside ⟦<G as Ledger>⟧ ledger result.1 }
{
    let magic = options.magic;
    let pool = Pool::new(alloc, options.limits);
    let fees = FeeTable::new();
    let holdings = Holdings {
        tree,
        magic,
        pool,
        fees,
    };
    let mut server = Server::new(alloc, ledger, holdings, caches, desk);
    let end = run(rt, &mut server, archive, relay, link, pace, options);
    (end, server.into_ledger())
}
