// Lives one after the other, with a crash after each, the second of which stops in a move.
ghost use Rattle.std.specs.Prelude.{◌≡◌};
ghost use Rattle.el_program.specs.Lives.{IsLeftBy};

use el_fakes::{MemRelay, SteadyArchive, SteadyLink};
use el_mem_disk::MemDisk;
use el_outside::{Disk, NoPace};
use el_program::{Between, Status, live};
use el_trials::Step::Says;
use el_trials::{
    Files, NO_FILES, SERVE, TURNS, after_crash, fresh_disk, named, relay_with, steady_archive,
    steady_link, transcript, words_of,
};
use std::alloc::Global;
use std::test::Fail;
use std::thread::Threads;

// A crash after each life, in the image of that number; and from which call on the calls of each next life's
// disk fail, the last life first.
#[derive(Drop)]
struct Crashes {
    alloc: Global,
    image: u64,
    failing: Vec<Option<u64>>,
}

impl Between<MemDisk> for Crashes {
    fn next(&mut self, disk: MemDisk) -> MemDisk {
        let from = self.failing.pop().unwrap_or(None);
        match after_crash(self.alloc, &disk, self.image, from) {
            Ok(next) => next,
            Err(_) => disk,
        }
    }
}

// The crashes, where each call of the second life's disk fails from this one on.
fn crashes_from(alloc: Global, from: u64) -> Result<Crashes, Fail> {
    let failing = Vec::from_slice(alloc, &[None, Some(from), None])?;
    Ok(Crashes {
        alloc,
        image: from,
        failing,
    })
}

// The files of the three lives.
fn archives(alloc: Global) -> Result<[SteadyArchive; 3], Fail> {
    let first = steady_archive(alloc, Files::Branch(4))?;
    let second = steady_archive(alloc, Files::Branch(4))?;
    Ok([first, second, steady_archive(alloc, NO_FILES)?])
}

// Their relays, which are asked nothing.
fn relays(alloc: Global) -> Result<[MemRelay; 3], Fail> {
    let first = relay_with(alloc, &[], &[])?;
    let second = relay_with(alloc, &[], &[])?;
    Ok([first, second, relay_with(alloc, &[], &[])?])
}

// What the node says in each.
fn links(alloc: Global) -> Result<[SteadyLink; 3], Fail> {
    let first = steady_link(alloc, [Says(0, "tip {a0}\n")].as_slice())?;
    let second = steady_link(alloc, [Says(0, "tip {a3}\n")].as_slice())?;
    let third = steady_link(alloc, [Says(0, "tip {a3}\ntip {a0}\n")].as_slice())?;
    Ok([first, second, third])
}

// How three lives end, and what is sent in the last: one block is put in; three more, where each call of the
// disk fails from this one on; and then the node asks what there is.
fn three_lives<W: Threads + Sync>(
    rt: &W,
    alloc: Global,
    from: u64,
) -> Result<([Status; 3], String), Fail> {
    let words = words_of(alloc, SERVE)?;
    let mut between = crashes_from(alloc, from)?;
    let mut archives = archives(alloc)?;
    let mut relays = relays(alloc)?;
    let mut links = links(alloc)?;
    let mut ends = [Status::Usage; 3];
    let _ = live(
        rt,
        alloc,
        words.as_slice(),
        fresh_disk(alloc),
        &mut between,
        &NoPace,
        TURNS,
        archives.as_mut_slice(),
        relays.as_mut_slice(),
        links.as_mut_slice(),
        ends.as_mut_slice(),
    );
    let text = transcript(alloc, links[2].sent(), links[2].closed())?;
    Ok((ends, text))
}

// More calls than the second life's disk gets.
const MOST: u64 = 1_000;

const OLD: &str = "0 refused unknown {a3}\n0 at {a0} 0\n";

const NEW: &str = "0 at {a3} 3\n0 at {a0} 0\n";

// What three lives come to: the last finds the old chain or the new one after the second has failed, or the
// second doesn't fail.
#[derive(Clone, Copy, PartialEq, Eq)]
enum Found {
    Old,
    New,
    Sound,
}

// What they come to; nothing, if the last finds neither or a life ends otherwise than it must.
fn found_from<W: Threads + Sync>(rt: &W, alloc: Global, from: u64) -> Result<Option<Found>, Fail> {
    let (ends, text) = three_lives(rt, alloc, from)?;
    let is_new = text.as_str() == named(alloc, NEW)?.as_str();
    let is_old = text.as_str() == named(alloc, OLD)?.as_str();
    if ends == [Status::Ended; 3] && is_new {
        return Ok(Some(Found::Sound));
    }
    if ends != [Status::Ended, Status::DiskFailed, Status::Ended] || !is_new && !is_old {
        return Ok(None);
    }
    Ok(Some(if is_new { Found::New } else { Found::Old }))
}

#[test]
fn lives_over_crashes(rt: HostRuntime) -> Result<(), Fail> {
    let mut kept = false;
    let mut moved = false;
    for from in 1..MOST {
        let found = found_from(&rt, rt.alloc(), from)?;
        assert!(rt; found.is_some(), "{from}");
        if found == Some(Found::Sound) {
            // A crash in the move left the one chain or the other.
            assert!(rt; kept && moved);
            return Ok(());
        }
        kept = kept || found == Some(Found::Old);
        moved = moved || found == Some(Found::New);
    }
    Err(Fail::new("each second life fails"))
}
