// A run from an index that is open.
ghost use Rattle.std.specs.Prelude.{◌≡◌, true};
ghost use Rattle.el_outside.specs.Files.{AllGrow};
ghost use Rattle.el_loop.specs.Traffic.{Traffic};
ghost use Rattle.el_model.specs.Keeping.{LeavesEither};
ghost use Rattle.el_model.specs.LedgerCalls.{KeepsBeside};
ghost use Rattle.el_loop.specs.Counts.{counts_of, devices};
ghost use Rattle.el_loop.specs.Traffic.{WentBy, WentTo};
ghost use Rattle.el_program.specs.Ends.{ServeEnds, IsUnserved, IsOpenedEnd};
ghost use Rattle.el_program.specs.Opened.{IndexChain};
ghost use Rattle.el_program.specs.Statuses.{ShowsCause};
ghost use Rattle.el_program.specs.within.Unread.{start_status};

use crate::opening::{StartFault, open_headers};
use crate::status::Status;
use el_loop::{RunOptions, serve_from};
use el_mempool::PoolLimits;
use el_model::Ledger;
use el_outside::{Archive, Link, Pace, Relay};
use el_relay::Desk;
use std::alloc::Global;
use std::thread::Threads;

/// How the program ends where nobody can be served from an index that is open.
pub fn status_of(fault: StartFault) -> Status
    ensures { result ≡ start_status fault }
{
    match fault {
        StartFault::DiskFailed => Status::DiskFailed,
        StartFault::ArchiveFailed => Status::ArchiveFailed,
        StartFault::OtherChain => Status::OtherChain,
        StartFault::Memory => Status::OutOfMemory,
    }
}

/// Serves a node and clients from an index that is open, with these limits of the unconfirmed set, and
/// broadcasts if they are relayed. The ledger comes back as it stands.
pub fn serve_index<W: Threads + Sync, G: Ledger, A: Archive, Y: Relay, K: Link>(
    rt: &W,
    alloc: Global,
    ledger: G,
    magic: [u8; 4],
    limits: PoolLimits,
    relays: bool,
    archive: &mut A,
    relay: &mut Y,
    link: &mut K,
    pace: &(dyn Pace + Sync),
    turns: u64,
) -> (Status, G)
    requires live { G.is_live ledger }
    ensures ends { (index : IndexChain) → (index.sure ≡ true → G.stands ledger index.chain)
        → (traffic : Traffic)
        × (WentBy ⟦<K as Link>⟧ link.old link.new traffic × WentTo ⟦<Y as Relay>⟧ relay.old relay.new traffic)
        × ServeEnds ⟦<A as Archive>⟧ magic limits relays index
        (LeavesEither G.tells_crash G.means G.moment G.left_since result.1)
        (counts_of G.faults ⟦<A as Archive>⟧ ⟦<Y as Relay>⟧ ⟦<K as Link>⟧ turns
        (devices ledger archive.old relay.old link.old) (devices result.1 archive.new relay.new link.new))
        archive.old archive.new traffic result.0 }
    ensures causes { ShowsCause (counts_of G.faults ⟦<A as Archive>⟧ ⟦<Y as Relay>⟧ ⟦<K as Link>⟧ turns
        (devices ledger archive.old relay.old link.old) (devices result.1 archive.new relay.new link.new))
        result.0 }
    ensures opened { IsOpenedEnd result.0 }
    ensures unserved { IsUnserved result.0 → (link.new ≡ link.old) × (relay.new ≡ relay.old) }
    ensures keeps { A.tells → AllGrow (A.bytes archive.old) (A.bytes archive.new) }
    ensures beside { KeepsBeside ⟦<G as Ledger>⟧ ledger result.1 }
{
    let Ok(desk) = Desk::new(alloc, relays) else {
        return (Status::OutOfMemory, ledger);
    };
    let mut ledger = ledger;
    match open_headers(alloc, &mut ledger, archive, magic) {
        Ok((tree, caches)) => {
            let options = RunOptions {
                magic,
                limits,
                node: true,
                turns,
            };
            let (end, ledger) = serve_from(
                rt, alloc, ledger, tree, caches, desk, archive, relay, link, pace, options,
            );
            (Status::of_end(end), ledger)
        }
        Err(fault) => (status_of(fault), ledger),
    }
}
