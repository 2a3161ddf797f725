// Block files that grow, and one whose bytes change.
ghost use Rattle.std.specs.Prelude.{◌≡◌, ◌+◌, [], refl};

use el_base::GhostCount;
use el_fakes::{Later, MemArchive, Room, fill};
use el_outside::{Archive, ArchiveFailed};
use el_program::Status;
use el_trials::Step::Says;
use el_trials::{
    Files, NONE_FAILS, SERVE, TURNS, branch, call_failing, expect_ended, files_of, named,
    serve_over, steady_link, transcript,
};
use std::alloc::Global;
use std::test::Fail;
use std::thread::Threads;

// A file that has other bytes after so many calls. It tells nothing, since no archive that tells may do so.
#[derive(Drop)]
struct ChangingFile {
    before: Vec<u8>,
    after: Vec<u8>,
    calls_before: u64,
    calls: u64,
    made: GhostCount,
}

impl ChangingFile {
    // One call more.
    fn call(&mut self)
        ensures { self.new.made ≡ self.old.made + 1 }
    {
        self.made.tick();
        self.calls = self.calls.saturating_add(1);
    }

    // The bytes that this call finds.
    fn bytes(&self) -> &[u8] {
        if self.calls > self.calls_before {
            return self.after.as_slice();
        }
        self.before.as_slice()
    }
}

impl Archive for ChangingFile {
    ghost tells = { ⊥ };

    ghost bytes = { λ files n. [] };

    ghost padding = { λ files n. [] };

    ghost file_count = { λ files. 1 };

    ghost none_after = { λ files file told after. refl };

    ghost gave = { λ file at bytes. Unit {0} };

    ghost calls = { λ files. files.made };

    ghost faults = { λ files. 0 };

    fn files(&mut self) -> Result<u32, ArchiveFailed> {
        self.call();
        Ok(1)
    }

    fn size(&mut self, _file: u32) -> Result<u64, ArchiveFailed> {
        self.call();
        Ok((self.bytes().len() as u64).min(1_000_000))
    }

    fn read(&mut self, _file: u32, at: u64, buf: &mut [u8]) -> Result<usize, ArchiveFailed> {
        self.call();
        Ok(fill(self.bytes(), at, buf))
    }
}

// How often the archive is called before the first arrival, over the two first blocks.
fn calls_of_scan<W: Threads + Sync>(rt: &W, alloc: Global) -> Result<u64, Fail> {
    let files = files_of(alloc, Files::Branch(2))?;
    let found = call_failing(rt, alloc, SERVE, files, Vec::new(alloc), NONE_FAILS)?;
    Ok(found.archive_calls)
}

// The file of the two first blocks.
fn two_blocks(alloc: Global) -> Result<Vec<u8>, Fail> {
    let (file, _) = branch(alloc, 2)?;
    Ok(file.into_vec())
}

// The file of the two first blocks, which has other bytes after the scan.
fn changing<W: Threads + Sync>(
    rt: &W,
    alloc: Global,
    after: Vec<u8>,
) -> Result<ChangingFile, Fail> {
    let before = two_blocks(alloc)?;
    Ok(ChangingFile {
        before,
        after,
        calls_before: calls_of_scan(rt, alloc)?,
        calls: 0,
        made: GhostCount::new(),
    })
}

// What the node says, and what it is answered, over a file whose second block was found.
fn answers_after_change<W: Threads + Sync>(
    rt: &W,
    alloc: Global,
    after: Vec<u8>,
    lines: &str,
) -> Result<String, Fail> {
    let mut archive = changing(rt, alloc, after)?;
    let mut link = steady_link(alloc, [Says(0, lines)].as_slice())?;
    let _status = serve_over(rt, alloc, SERVE, &mut archive, &mut link, TURNS)?;
    transcript(alloc, link.sent(), link.closed())
}

// Which byte changes, how many are left, and the answer. The second block's record begins at place 160.
const CHANGES: &[(usize, usize, &str)] = &[
    // no change
    (400, 400, "0 at {a1} 1\n"),
    // in the version, and in the last byte of the header
    (168, 400, "0 refused changed {a1}\n"),
    (247, 400, "0 refused changed {a1}\n"),
    // after the header
    (248, 400, "0 refused bad {a1} empty\n"),
    // too few bytes
    (400, 318, "0 refused changed {a1}\n"),
    (400, 100, "0 refused changed {a0}\n"),
];

// The two first blocks with that byte changed, and so many bytes.
fn changed(alloc: Global, place: usize, len: usize) -> Result<Vec<u8>, Fail> {
    let mut bytes = two_blocks(alloc)?;
    if let Some(byte) = bytes.get_mut(place) {
        *byte ^= 1;
    }
    bytes.truncate(len);
    Ok(bytes)
}

// Whether the node is answered so over a file that changes so.
fn is_answered<W: Threads + Sync>(
    rt: &W,
    alloc: Global,
    place: usize,
    len: usize,
    want: &str,
) -> Result<bool, Fail> {
    let after = changed(alloc, place, len)?;
    let found = answers_after_change(rt, alloc, after, "tip {a1}\n")?;
    Ok(found.as_str() == named(alloc, want)?.as_str())
}

#[test]
fn a_file_that_changes(rt: HostRuntime) -> Result<(), Fail> {
    for (place, len, want) in CHANGES {
        let is_answered = is_answered(&rt, rt.alloc(), *place, *len, want)?;
        assert!(rt; is_answered, "{place} {len}");
    }
    Ok(())
}

// An archive of two blocks, the second of which comes with the first call after those of the scan, and in
// which this room is made ahead.
fn growing<W: Threads + Sync>(rt: &W, alloc: Global, rooms: &[Room]) -> Result<MemArchive, Fail> {
    let later = [Later {
        call: calls_of_scan(rt, alloc)?.saturating_add(1),
        file: 0,
        from: 160,
    }];
    let later = Vec::from_slice(alloc, later.as_slice())?;
    let rooms = Vec::from_slice(alloc, rooms)?;
    let files = files_of(alloc, Files::Branch(2))?;
    Ok(MemArchive::made_ahead(files, later, rooms, Vec::new(alloc)))
}

// Serves the node over such an archive, which moves to the second block once it is told where that is.
fn expect_second<W: Threads + Sync>(
    rt: &W,
    alloc: Global,
    archive: &mut MemArchive,
) -> Result<(), Fail> {
    let given = "tip {a1}\nblock 0 160\nblock 0 160\ntip {a1}\n";
    let want = "0 refused unknown {a1}\n0 block {a1}\n0 block {a1}\n0 at {a1} 1\n";
    let mut link = steady_link(alloc, [Says(0, given)].as_slice())?;
    let status = serve_over(rt, alloc, SERVE, archive, &mut link, TURNS)?;
    let found = transcript(alloc, link.sent(), link.closed())?;
    let wanted = (Status::Ended, want);
    expect_ended(alloc, (status, found.as_str()), wanted)
}

#[test]
fn a_file_that_grows(rt: HostRuntime) -> Result<(), Fail> {
    let alloc = rt.alloc();
    let mut archive = growing(&rt, alloc, &[])?;
    expect_second(&rt, alloc, &mut archive)?;
    assert!(rt; archive.faults() == 0);
    Ok(())
}

// The node has made its file ahead in zeros, as Bitcoin Core does, and writes over them.
#[test]
fn a_file_that_is_made_ahead(rt: HostRuntime) -> Result<(), Fail> {
    let alloc = rt.alloc();
    let room = Room {
        until: u64::MAX,
        file: 0,
        size: 1_048_576,
    };
    let mut archive = growing(&rt, alloc, &[room])?;
    expect_second(&rt, alloc, &mut archive)?;
    assert!(rt; archive.faults() == 0);
    Ok(())
}
