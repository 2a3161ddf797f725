// Lives of the program.
ghost use Rattle.std.specs.Prelude.{◌≡◌, ℕ, List, [], length};
ghost use Rattle.std.specs.List.{AllByRecursion};
ghost use Rattle.el_chain.specs.Chains.{Chain};
ghost use Rattle.el_outside.specs.Disk.{Image};
ghost use Rattle.el_migrate.specs.ImageChains.{ImageStands};
ghost use Rattle.el_words.specs.Commands.{IsServe};
ghost use Rattle.el_words.specs.Words.{texts};
ghost use Rattle.el_program.specs.Calls.{Call};
ghost use Rattle.el_program.specs.IndexDisks.{LeavesOneOf};
ghost use Rattle.el_program.specs.AnyCall.{IsCall};
ghost use Rattle.el_program.specs.Lives.{AreLives, AreOver, GoOn, IsFresh, IsLeftBy, LeavesOthers, last_disk};
ghost use Rattle.el_program.specs.within.Lived.{Lived};

use crate::serving::serve;
use crate::status::Status;
use crate::telling::Untold;
use el_outside::{Archive, Disk, Link, Pace, Relay};
use std::alloc::Global;
use std::thread::Threads;

/// Lives that follow each other on one disk, each a call of `serve`, however each ended: each is a run from
/// the chain that its opening found, and that is the one that the life before acknowledged last, or the one
/// that then was in flight. The first life finds empty files, which stand for no blocks.
pub fn lives_go_on<D: Disk, A: Archive, Y: Relay, K: Link>()
    ensures empty { (magic : List ℕ) (image : Image) → ((f : ℕ) → image f ≡ [])
        → ImageStands magic image [] }
    ensures go_on { (magic : List ℕ) (disk : D) (was flight : Chain) (lives : List (Call D A Y K)) → D.tells
        → LeavesOneOf ⟦<D as Disk>⟧ magic disk was flight → AreLives ⟦<D as Disk>⟧ disk lives
        → AllByRecursion (λ l. IsServe l.words magic) lives
        → AllByRecursion (IsCall ⟦<D as Disk>⟧ ⟦<A as Archive>⟧ ⟦<Y as Relay>⟧ ⟦<K as Link>⟧) lives
        → GoOn ⟦<D as Disk>⟧ ⟦<A as Archive>⟧ ⟦<Y as Relay>⟧ ⟦<K as Link>⟧ was flight lives }
{}

/// What comes between two lives: a crash at any moment, or an orderly end.
pub trait Between<D: Disk> {
    /// The disk of the next life: one that reads as an image that this one may leave, and has no others.
    fn next(&mut self, disk: D) -> D
        ensures left { D.tells → IsLeftBy ⟦<D as Disk>⟧ disk result };
}

// Lives one after the other, the first on what this disk leaves, which stands for the one chain or the other.
fn live_on<W: Threads + Sync, D: Disk, A: Archive, Y: Relay, K: Link, B: Between<D>>(
    rt: &W,
    alloc: Global,
    words: &[String],
    disk: D,
    between: &mut B,
    pace: &(dyn Pace + Sync),
    turns: u64,
    archives: &mut [A],
    relays: &mut [Y],
    links: &mut [K],
    ends: &mut [Status],
) -> D
    requires relays { length relays.old ≡ length archives.old }
    requires links { length links.old ≡ length archives.old }
    requires ends { length ends.old ≡ length archives.old }
    ensures lived { (magic : List ℕ) (was flight : Chain) → D.tells → IsServe (texts words.now) magic
        → LeavesOneOf ⟦<D as Disk>⟧ magic disk was flight
        → Lived ⟦<D as Disk>⟧ ⟦<A as Archive>⟧ ⟦<Y as Relay>⟧ ⟦<K as Link>⟧ disk was flight (texts words.now)
        turns
        archives.old archives.new relays.old relays.new links.old links.new ends.new result }
{
    let Some((archive, archives)) = archives.split_first_mut() else {
        return disk;
    };
    let Some((relay, relays)) = relays.split_first_mut() else {
        return disk;
    };
    let Some((link, links)) = links.split_first_mut() else {
        return disk;
    };
    let Some((end, ends)) = ends.split_first_mut() else {
        return disk;
    };
    let disk = between.next(disk);
    let (status, disk) = serve(
        rt,
        alloc,
        words,
        disk,
        archive,
        relay,
        link,
        pace,
        &mut Untold,
        turns,
    );
    *end = status;
    live_on(
        rt, alloc, words, disk, between, pace, turns, archives, relays, links, ends,
    )
}

/// Lives of the program, one after the other, one for each of the links, over the block files and the relay
/// beside it. The first begins on a disk whose files are empty, each next on what the one before may leave.
/// It writes down how each ends, and gives back the disk as the last leaves it.
pub fn live<W: Threads + Sync, D: Disk, A: Archive, Y: Relay, K: Link, B: Between<D>>(
    rt: &W,
    alloc: Global,
    words: &[String],
    disk: D,
    between: &mut B,
    pace: &(dyn Pace + Sync),
    turns: u64,
    archives: &mut [A],
    relays: &mut [Y],
    links: &mut [K],
    ends: &mut [Status],
) -> D
    requires relays { length relays.old ≡ length archives.old }
    requires links { length links.old ≡ length archives.old }
    requires ends { length ends.old ≡ length archives.old }
    // They go on from the empty chain: each is a run from the chain that the one before acknowledged last, or
    // from the one that then was in flight. Each leaves the files beyond the index's as they were.
    ensures whole { (magic : List ℕ) → D.tells → IsServe (texts words.now) magic
        → IsFresh ⟦<D as Disk>⟧ disk → (lives : List (Call D A Y K))
        × AreOver lives (texts words.now) turns archives.old archives.new relays.old relays.new links.old
        links.new ends.new
        × AreLives ⟦<D as Disk>⟧ disk lives × (result ≡ last_disk disk lives)
        × AllByRecursion (LeavesOthers ⟦<D as Disk>⟧) lives
        × GoOn ⟦<D as Disk>⟧ ⟦<A as Archive>⟧ ⟦<Y as Relay>⟧ ⟦<K as Link>⟧ [] [] lives }
{
    live_on(
        rt, alloc, words, disk, between, pace, turns, archives, relays, links, ends,
    )
}
