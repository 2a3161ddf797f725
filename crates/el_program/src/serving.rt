// The whole of the program.
ghost use Rattle.std.specs.Prelude.{◌≡◌, ◌≢◌, ◌<◌, ◌≤◌, ℕ, true, List, [], IfOk, IsErrOf};
ghost use Rattle.el_outside.specs.Counts.{OnlyReads};
ghost use Rattle.el_outside.specs.Files.{AllGrow};
ghost use Rattle.el_loop.specs.Traffic.{Traffic};
ghost use Rattle.el_chain.specs.declared.node.Node as shape;
ghost use Rattle.el_chain.specs.Chains.{Chain};
ghost use Rattle.el_words.specs.Words.{IsCheckOf, network_magic, texts};
ghost use Rattle.el_words.specs.Commands.{IsNoCommand};
ghost use Rattle.el_migrate.specs.ImageChains.{IsNoIndex};
ghost use Rattle.el_row_formats.specs.declared.limits.TheConstants.{MIN_HEAD_BITS, MAX_HEAD_BITS};
ghost use Rattle.el_side.specs.Caching.{CachesStand};
ghost use Rattle.el_program.specs.IndexDisks.{LeavesOneOf, IsAsBefore, IsIndexDisk};
ghost use Rattle.el_program.specs.AnyCall.{IsCall};
ghost use Rattle.el_program.specs.Audits.{AsksIndex};
ghost use Rattle.el_loop.specs.Counts.{counts_of, devices};
ghost use Rattle.el_program.specs.Calls.{call};
ghost use Rattle.el_program.specs.OtherFiles.{OtherFilesStay};
ghost use Rattle.el_program.specs.Opened.{IndexChain, IsRead, all_added};
ghost use Rattle.el_program.specs.Statuses.{ShowsCause};
ghost use Rattle.el_loop.specs.Traffic.{WentBy, WentTo};
ghost use Rattle.el_program.specs.Ends.{OnceEnds, IndexEnds, IsBadFile, IsUnserved, IsUnopened};
ghost use Rattle.el_program.specs.within.Unread.{unread_status};

use crate::audited::serve_audit;
use crate::checked::serve_check;
use crate::file::{FileFault, read_chain};
use crate::index_disk::open_index;
use crate::opening::{caches_of, tree_of};
use crate::proof::serve_proof;
use crate::starting::serve_index;
use crate::status::Status;
use el_audit_run::AuditWatch;
use el_headers::HeaderTree;
use el_loop::{RunOptions, serve_from};
use el_mempool::PoolLimits;
use el_migrate::Watch;
use el_outside::{Archive, Disk, Link, Pace, Relay};
use el_plain::PlainLedger;
use el_redo::{Mainnet, NetworkMagic, Regtest, Testnet3};
use el_relay::Desk;
use el_side::Caches;
use el_words::{Network, audit_of, check_of, greatest_limits, once_of, serve_of};
use std::alloc::Global;
use std::thread::Threads;

// How the program ends where file 0 can't be read.
fn status_of(fault: FileFault) -> Status
    ensures { result ≡ unread_status fault }
{
    match fault {
        FileFault::Failed => Status::ArchiveFailed,
        FileFault::Memory => Status::OutOfMemory,
        FileFault::Bad => Status::BadChain,
    }
}

// The chain of file 0, the tree of its records, and what is computed once of the chain.
fn open_file<A: Archive>(
    alloc: Global,
    archive: &mut A,
    magic: [u8; 4],
) -> Result<(HeaderTree, PlainLedger, Caches), FileFault>
    ensures opened { IfOk result (λ r. (nodes : List shape.Node)
        × IsRead ⟦<A as Archive>⟧ (A.bytes archive.old) (A.bytes archive.new) magic nodes r.1
        × (r.0 ≡ all_added [] nodes)
        × CachesStand r.2 r.1 r.1) }
    ensures bad { IsErrOf result FileFault.Bad
        → IsBadFile ⟦<A as Archive>⟧ magic (A.bytes archive.old) (A.bytes archive.new) }
    ensures only_reads { OnlyReads A.tells (A.bytes archive.old) (A.bytes archive.new)
        (A.faults archive.old) (A.faults archive.new) FileFault.Failed result }
{
    let (nodes, chain) = match read_chain(alloc, archive, magic) {
        Ok(read) => read,
        Err(fault) => return Err(fault),
    };
    let Ok(tree) = tree_of(alloc, &[], nodes.as_slice()) else {
        return Err(FileFault::Memory);
    };
    let mut ledger = PlainLedger::over(chain);
    match caches_of(alloc, &mut ledger) {
        Ok(caches) => Ok((tree, ledger, caches)),
        Err(_) => Err(FileFault::Memory),
    }
}

// `serve`: a node and clients, from the index on the disk and the headers of all block files.
fn serve_disk<W: Threads + Sync, D: Disk, N: NetworkMagic, A: Archive, Y: Relay, K: Link, V: Watch>(
    rt: &W,
    alloc: Global,
    limits: PoolLimits,
    relays: bool,
    disk: D,
    bits: u32,
    archive: &mut A,
    relay: &mut Y,
    link: &mut K,
    pace: &(dyn Pace + Sync),
    watch: &mut V,
    turns: u64,
) -> (Status, D)
    requires least { MIN_HEAD_BITS ≤ bits }
    requires most { bits ≤ MAX_HEAD_BITS }
    ensures ends { (was flight : Chain) (index : IndexChain)
        → (index.sure ≡ true → IsIndexDisk ⟦<D as Disk>⟧ N.magic disk was flight index.chain)
        → (traffic : Traffic)
        × (WentBy ⟦<K as Link>⟧ link.old link.new traffic × WentTo ⟦<Y as Relay>⟧ relay.old relay.new traffic)
        × IndexEnds ⟦<A as Archive>⟧ N.magic limits relays was flight index
        (LeavesOneOf ⟦<D as Disk>⟧ N.magic result.1)
        (counts_of D.faults ⟦<A as Archive>⟧ ⟦<Y as Relay>⟧ ⟦<K as Link>⟧ turns
        (devices disk archive.old relay.old link.old) (devices result.1 archive.new relay.new link.new))
        archive.old archive.new traffic result.0 }
    ensures bad { D.tells → result.0 ≡ Status.BadIndex → IsNoIndex N.magic (D.seen disk) }
    ensures is_bad { D.tells → IsNoIndex N.magic (D.seen disk) → IsUnopened result.0 }
    // Then the index is as it was, whatever is told of it; where that is told, nothing was counted.
    ensures kept { D.tells → IsNoIndex N.magic (D.seen disk) → IsAsBefore ⟦<D as Disk>⟧ disk result.1 }
    ensures kept_counts { result.0 ≡ Status.BadIndex → D.faults result.1 ≡ D.faults disk }
    ensures kept_files { result.0 ≡ Status.BadIndex → archive.new ≡ archive.old }
    ensures others { D.tells → OtherFilesStay ⟦<D as Disk>⟧ disk result.1 }
    ensures causes { ShowsCause (counts_of D.faults ⟦<A as Archive>⟧ ⟦<Y as Relay>⟧ ⟦<K as Link>⟧ turns
        (devices disk archive.old relay.old link.old) (devices result.1 archive.new relay.new link.new))
        result.0 }
    ensures read { result.0 ≢ Status.Usage }
    ensures unserved { IsUnserved result.0 → (link.new ≡ link.old) × (relay.new ≡ relay.old) }
    ensures keeps { A.tells → AllGrow (A.bytes archive.old) (A.bytes archive.new) }
{
    match open_index::<D, N, V>(alloc, disk, bits, watch) {
        Ok(index) => {
            let (status, index) = serve_index(
                rt,
                alloc,
                index,
                N::magic(),
                limits,
                relays,
                archive,
                relay,
                link,
                pace,
                turns,
            );
            (status, index.into_rows().into_disk())
        }
        Err((status, disk)) => (status, disk),
    }
}

// `serve` for a network.
fn serve_network<W: Threads + Sync, D: Disk, A: Archive, Y: Relay, K: Link, V: Watch>(
    rt: &W,
    alloc: Global,
    network: Network,
    limits: PoolLimits,
    relays: bool,
    disk: D,
    bits: u32,
    archive: &mut A,
    relay: &mut Y,
    link: &mut K,
    pace: &(dyn Pace + Sync),
    watch: &mut V,
    turns: u64,
) -> (Status, D)
    requires least { MIN_HEAD_BITS ≤ bits }
    requires most { bits ≤ MAX_HEAD_BITS }
    ensures ends { (was flight : Chain) (index : IndexChain)
        → (index.sure ≡ true → IsIndexDisk ⟦<D as Disk>⟧ (network_magic network) disk was flight index.chain)
        → (traffic : Traffic)
        × (WentBy ⟦<K as Link>⟧ link.old link.new traffic × WentTo ⟦<Y as Relay>⟧ relay.old relay.new traffic)
        × IndexEnds ⟦<A as Archive>⟧ (network_magic network) limits relays was flight index
        (LeavesOneOf ⟦<D as Disk>⟧ (network_magic network) result.1)
        (counts_of D.faults ⟦<A as Archive>⟧ ⟦<Y as Relay>⟧ ⟦<K as Link>⟧ turns
        (devices disk archive.old relay.old link.old) (devices result.1 archive.new relay.new link.new))
        archive.old archive.new traffic result.0 }
    ensures bad { D.tells → result.0 ≡ Status.BadIndex → IsNoIndex (network_magic network) (D.seen disk) }
    ensures is_bad { D.tells → IsNoIndex (network_magic network) (D.seen disk) → IsUnopened result.0 }
    // Then the index is as it was, whatever is told of it; where that is told, nothing was counted.
    ensures kept { D.tells → IsNoIndex (network_magic network) (D.seen disk)
        → IsAsBefore ⟦<D as Disk>⟧ disk result.1 }
    ensures kept_counts { result.0 ≡ Status.BadIndex → D.faults result.1 ≡ D.faults disk }
    ensures kept_files { result.0 ≡ Status.BadIndex → archive.new ≡ archive.old }
    ensures others { D.tells → OtherFilesStay ⟦<D as Disk>⟧ disk result.1 }
    ensures causes { ShowsCause (counts_of D.faults ⟦<A as Archive>⟧ ⟦<Y as Relay>⟧ ⟦<K as Link>⟧ turns
        (devices disk archive.old relay.old link.old) (devices result.1 archive.new relay.new link.new))
        result.0 }
    ensures read { result.0 ≢ Status.Usage }
    ensures unserved { IsUnserved result.0 → (link.new ≡ link.old) × (relay.new ≡ relay.old) }
    ensures keeps { A.tells → AllGrow (A.bytes archive.old) (A.bytes archive.new) }
{
    match network {
        Network::Main => serve_disk::<W, D, Mainnet, A, Y, K, V>(
            rt, alloc, limits, relays, disk, bits, archive, relay, link, pace, watch, turns,
        ),
        Network::Testnet3 => serve_disk::<W, D, Testnet3, A, Y, K, V>(
            rt, alloc, limits, relays, disk, bits, archive, relay, link, pace, watch, turns,
        ),
        Network::Regtest => serve_disk::<W, D, Regtest, A, Y, K, V>(
            rt, alloc, limits, relays, disk, bits, archive, relay, link, pace, watch, turns,
        ),
    }
}

// `once`: clients without a node, from the chain and the headers of file 0.
fn serve_file<W: Threads + Sync, A: Archive, Y: Relay, K: Link>(
    rt: &W,
    alloc: Global,
    magic: [u8; 4],
    archive: &mut A,
    relay: &mut Y,
    link: &mut K,
    pace: &(dyn Pace + Sync),
    turns: u64,
) -> Status
    ensures ends { (disk : ℕ) → (traffic : Traffic)
        × (WentBy ⟦<K as Link>⟧ link.old link.new traffic × WentTo ⟦<Y as Relay>⟧ relay.old relay.new traffic)
        × OnceEnds ⟦<A as Archive>⟧ magic
        (counts_of (λ d. d) ⟦<A as Archive>⟧ ⟦<Y as Relay>⟧ ⟦<K as Link>⟧ turns
        (devices disk archive.old relay.old link.old) (devices disk archive.new relay.new link.new))
        (A.bytes archive.old) (A.bytes archive.new) traffic result }
    ensures causes { (disk : ℕ)
        → ShowsCause (counts_of (λ d. d) ⟦<A as Archive>⟧ ⟦<Y as Relay>⟧ ⟦<K as Link>⟧ turns
        (devices disk archive.old relay.old link.old) (devices disk archive.new relay.new link.new)) result }
    ensures unserved { IsUnserved result → (link.new ≡ link.old) × (relay.new ≡ relay.old) }
    ensures keeps { A.tells → AllGrow (A.bytes archive.old) (A.bytes archive.new) }
{
    let Ok(desk) = Desk::new(alloc, false) else {
        return Status::OutOfMemory;
    };
    match open_file(alloc, archive, magic) {
        Ok((tree, ledger, caches)) => {
            let options = RunOptions {
                magic,
                limits: greatest_limits(),
                node: false,
                turns,
            };
            let (end, _) = serve_from(
                rt, alloc, ledger, tree, caches, desk, archive, relay, link, pace, options,
            );
            Status::of_end(end)
        }
        Err(fault) => status_of(fault),
    }
}

/// Does all that the program does. With the words of `serve` it opens the index on the disk, which becomes
/// one of format 2 where it isn't (who watches is told how far that is), finds the headers of all block
/// files, and answers the node and the clients of the link, from the chain to which the node leads it. With
/// those of `once` it reads file 0, and answers the link's clients from its chain,
/// without the disk. It ends as the link does, or fails, and makes at most `turns` calls of `next`. With
/// those of `check-chain` it leads an index on the disk, whose files are to be empty, over a file that it
/// makes, and sends client 1 one line that sums it up. With those of `audit` it opens the index as `serve`
/// does, compares it with the block files, and sends client 1 one line; with those of `prove-check` it sends
/// client 1 whether they prove their transaction. The blocks of a move are prepared in threads of the
/// runtime, each piece of which enters the pace as it begins. The disk comes back as it stands; where it is
/// no index of the network, it stands for what it stood for before.
pub fn serve<W: Threads + Sync, D: Disk, A: Archive, Y: Relay, K: Link, V: Watch + AuditWatch>(
    rt: &W,
    alloc: Global,
    words: &[String],
    disk: D,
    archive: &mut A,
    relay: &mut Y,
    link: &mut K,
    pace: &(dyn Pace + Sync),
    watch: &mut V,
    turns: u64,
) -> (Status, D)
    // What was sent and closed is a run from what the disk and the block files gave, each status has its
    // cause, and what a crash may leave in the end is the chain that is acknowledged or the one in flight.
    // With the words of `check-chain`, over a disk whose files are empty, of `audit` or of `prove-check`, the
    // line of that command was sent, or nothing.
    ensures ends { IsCall ⟦<D as Disk>⟧ ⟦<A as Archive>⟧ ⟦<Y as Relay>⟧ ⟦<K as Link>⟧
        (call (texts words.now) turns
        (devices disk archive.old relay.old link.old) (devices result.1 archive.new relay.new link.new)
        result.0) }
    // The index is bad exactly where the disk is none of the network, in the format that is live.
    ensures bad { D.tells → result.0 ≡ Status.BadIndex → (magic : List ℕ) → AsksIndex (texts words.now) magic
        → IsNoIndex magic (D.seen disk) }
    ensures is_bad { D.tells → (magic : List ℕ) → AsksIndex (texts words.now) magic
        → IsNoIndex magic (D.seen disk) → IsUnopened result.0 }
    // Then the index is as it was, whatever is told of it; where that is told, nothing was counted.
    ensures kept { D.tells → (magic : List ℕ) → AsksIndex (texts words.now) magic
        → IsNoIndex magic (D.seen disk) → IsAsBefore ⟦<D as Disk>⟧ disk result.1 }
    ensures kept_counts { result.0 ≡ Status.BadIndex → D.faults result.1 ≡ D.faults disk }
    ensures kept_files { result.0 ≡ Status.BadIndex → archive.new ≡ archive.old }
    // However it ends, no file of the disk beyond the index's changed.
    ensures others { D.tells → OtherFilesStay ⟦<D as Disk>⟧ disk result.1 }
    // Whatever the devices tell, a failure that ends the run was counted.
    ensures causes { ShowsCause (counts_of D.faults ⟦<A as Archive>⟧ ⟦<Y as Relay>⟧ ⟦<K as Link>⟧ turns
        (devices disk archive.old relay.old link.old) (devices result.1 archive.new relay.new link.new))
        result.0 }
    // Other words are refused, and then no device is called.
    ensures refused { IsNoCommand (texts words.now) → result.0 ≡ Status.Usage }
    ensures lawful { result.0 ≡ Status.Usage → IsNoCommand (texts words.now) }
    ensures unread { result.0 ≡ Status.Usage → archive.new ≡ archive.old }
    // The disk is called only for an index or a check, the link only to serve or to send a line, and the
    // relay only to serve.
    ensures untouched { ((magic : List ℕ) → AsksIndex (texts words.now) magic → ⊥)
        → ((count : ℕ) → IsCheckOf (texts words.now) count → ⊥) → result.1 ≡ disk }
    ensures unserved { IsUnserved result.0 → (link.new ≡ link.old) × (relay.new ≡ relay.old) }
    ensures keeps { A.tells → AllGrow (A.bytes archive.old) (A.bytes archive.new) }
{
    if let Some(settings) = serve_of(words) {
        return serve_network::<W, D, A, Y, K, V>(
            rt,
            alloc,
            settings.network,
            settings.limits,
            settings.relays,
            disk,
            settings.head_bits,
            archive,
            relay,
            link,
            pace,
            watch,
            turns,
        );
    }
    if let Some(network) = once_of(words) {
        return (
            serve_file::<W, A, Y, K>(
                rt,
                alloc,
                network.magic(),
                archive,
                relay,
                link,
                pace,
                turns,
            ),
            disk,
        );
    }
    if let Some(network) = audit_of(words) {
        return serve_audit::<W, D, A, K, V>(rt, alloc, network, disk, archive, link, pace, watch);
    }
    match check_of(words) {
        Some(count) => serve_check(rt, alloc, count, disk, link, pace),
        None => (serve_proof(alloc, words, link), disk),
    }
}
