// Calls of the program over a disk that tells nothing, and a link that tells all.
ghost use Rattle.std.specs.Prelude.{◌≡◌, ℕ, false, List, []};
ghost use Rattle.el_outside.specs.Trace.{GoesOn};
ghost use Rattle.el_loop.specs.Counts.{counts_of, devices};
ghost use Rattle.el_loop.specs.Runs.{LastEnds};
ghost use Rattle.el_loop.specs.Traffic.{Traffic};
ghost use Rattle.el_words.specs.Commands.{IsServe};
ghost use Rattle.el_words.specs.Words.{texts};
ghost use Rattle.el_program.specs.Ends.{IndexEnds};
ghost use Rattle.el_program.specs.IndexDisks.{LeavesOneOf};

use el_fakes::{MemRelay, SteadyArchive, SteadyLink};
use el_mem_disk::SilentDisk;
use el_outside::{Archive, Disk, Link, NoPace, Relay};
use el_program::{Status, Untold, serve};
use el_trials::Step::{Opens, Says};
use el_trials::{
    Files, SERVE, TURNS, expect_ended, fresh_disk, relay_with, steady_archive, steady_link,
    transcript, words_of,
};
use std::alloc::Global;
use std::test::Fail;
use std::thread::Threads;

// A call with the words of `serve`: a run from a chain of which nothing is known, and what was counted.
fn serve_silent<W: Threads + Sync>(
    rt: &W,
    alloc: Global,
    words: &[String],
    disk: SilentDisk,
    archive: &mut SteadyArchive,
    relay: &mut MemRelay,
    link: &mut SteadyLink,
) -> (Status, SilentDisk)
    ensures ends { (magic : List ℕ) (asked : IsServe (texts words.now) magic) → (t : Traffic)
        × GoesOn link.old.trace link.new.trace t.arrivals t.messages t.closings
        × IndexEnds ⟦<SteadyArchive as Archive>⟧ magic asked.said.settings.limits
        asked.said.settings.relays [] []
        (record { sure = false; chain = [] })
        (LeavesOneOf ⟦<SilentDisk as Disk>⟧ magic result.1)
        (counts_of ⟦<SilentDisk as Disk>⟧.faults ⟦<SteadyArchive as Archive>⟧ ⟦<MemRelay as Relay>⟧
        ⟦<SteadyLink as Link>⟧ TURNS (devices disk archive.old relay.old link.old)
        (devices result.1 archive.new relay.new link.new))
        archive.old archive.new t result.0 }
    // It ends as the link does, and not before.
    ensures ended { (magic : List ℕ) → IsServe (texts words.now) magic → result.0 ≡ Status.Ended
        → (t : Traffic)
        × GoesOn link.old.trace link.new.trace t.arrivals t.messages t.closings × LastEnds t.arrivals }
{
    serve(
        rt,
        alloc,
        words,
        disk,
        archive,
        relay,
        link,
        &NoPace,
        &mut Untold,
        TURNS,
    )
}

// How a call over a fresh disk ends that tells nothing, and what is sent and closed.
fn call_silent<W: Threads + Sync>(rt: &W, alloc: Global) -> Result<(Status, String), Fail> {
    let words = words_of(alloc, SERVE)?;
    let disk = SilentDisk::new(fresh_disk(alloc));
    let mut archive = steady_archive(alloc, Files::Branch(17))?;
    let steps = [
        Opens(1),
        Says(0, "tip {a1}\ntip {twos}\n"),
        Says(1, "{asks}{script0}{asked}\n"),
    ];
    let mut link = steady_link(alloc, steps.as_slice())?;
    let mut relay = relay_with(alloc, &[], &[])?;
    let (status, _) = serve_silent(
        rt,
        alloc,
        words.as_slice(),
        disk,
        &mut archive,
        &mut relay,
        &mut link,
    );
    Ok((status, transcript(alloc, link.sent(), link.closed())?))
}

#[test]
fn a_disk_that_tells_nothing(rt: HostRuntime) -> Result<(), Fail> {
    let (status, text) = call_silent(&rt, rt.alloc())?;
    let wanted = "0 at {a1} 1\n0 refused unknown {twos}\n1 {lists}{entry0}{listed}\n";
    expect_ended(rt.alloc(), (status, text.as_str()), (Status::Ended, wanted))
}
