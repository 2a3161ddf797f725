// That each call succeeds where memory is ample, which no contract says, and one run over each device.
ghost use Rattle.std.specs.Prelude.{◌≡◌, length};

use el_base::{Bytes, OutOfMemory};
use el_fakes::{Closed, Coming, Later, MemArchive, MemLink, Sent, SteadyArchive, SteadyLink};
use el_outside::{Archive, ArchiveFailed, Arrival, BUFFER_SIZE, Link, LinkFailed, SendFault, Why};
use std::alloc::Global;
use std::test::Fail;

// Two files, of which the second is empty.
fn two_files(alloc: Global) -> Result<Vec<Bytes>, OutOfMemory> {
    let mut files = Vec::new(alloc);
    files.push(Bytes::from_slice(alloc, b"abcde")?)?;
    files.push(Bytes::new(alloc))?;
    Ok(files)
}

// Asks for the number of files and for two sizes.
fn has_sizes<A: Archive>(archive: &mut A) -> bool {
    archive.files() == Ok(2) && archive.size(0) == Ok(5) && archive.size(7) == Ok(0)
}

// Reads the last two bytes of a file, and an empty one.
fn reads_to_the_end<A: Archive>(archive: &mut A) -> bool {
    let mut buf = [0u8; 4];
    let has_two = archive.read(0, 3, &mut buf) == Ok(2) && &buf == b"de\0\0";
    has_two && archive.read(1, 0, &mut buf) == Ok(0)
}

#[test]
fn files_are_read(rt: HostRuntime) -> Result<(), Fail> {
    let mut archive = MemArchive::new(two_files(rt.alloc())?, Vec::new(rt.alloc()));
    assert!(rt; has_sizes(&mut archive) && reads_to_the_end(&mut archive));
    assert!(rt; archive.calls() == 5 && archive.faults() == 0);
    Ok(())
}

#[test]
fn files_that_stay_are_read(rt: HostRuntime) -> Result<(), Fail> {
    let Some(mut archive) = SteadyArchive::new(two_files(rt.alloc())?) else {
        return Err(Fail::from(OutOfMemory));
    };
    assert!(rt; has_sizes(&mut archive) && reads_to_the_end(&mut archive));
    Ok(())
}

// File 0 has two bytes, one more from the second call on, and all from the fourth on.
const LATER: &[Later] = &[
    Later {
        call: 2,
        file: 0,
        from: 2,
    },
    Later {
        call: 4,
        file: 0,
        from: 3,
    },
];

// Files that grow so, of which the third call fails.
fn growing(alloc: Global) -> Result<MemArchive, OutOfMemory> {
    let files = two_files(alloc)?;
    let later = Vec::from_slice(alloc, LATER)?;
    let failing = Vec::from_slice(alloc, &[3])?;
    Ok(MemArchive::growing(files, later, failing))
}

#[test]
fn files_grow_under_the_calls(rt: HostRuntime) -> Result<(), Fail> {
    let mut archive = growing(rt.alloc())?;
    for size in [Ok(2), Ok(3), Err(ArchiveFailed), Ok(5), Ok(5)] {
        assert!(rt; archive.size(0) == size);
    }
    assert!(rt; archive.calls() == 5 && archive.faults() == 1);
    Ok(())
}

// Steps of peer 1: more bytes than a buffer has, and none.
fn add_first_peer(alloc: Global, coming: &mut Vec<Coming>) -> Result<(), OutOfMemory> {
    let long = Bytes::from_vec(vec![in alloc; 7u8; 65_540]?);
    coming.push(Coming::Opened(1))?;
    coming.push(Coming::Bytes(1, long))?;
    coming.push(Coming::Bytes(1, Bytes::new(alloc)))?;
    Ok(())
}

// Steps of peers 1 to 3, of whose numbers two aren't greater than all before.
fn add_later_peers(alloc: Global, coming: &mut Vec<Coming>) -> Result<(), OutOfMemory> {
    for p in [1, 3, 2] {
        coming.push(Coming::Opened(p))?;
    }
    coming.push(Coming::Bytes(3, Bytes::from_slice(alloc, b"abc")?))?;
    coming.push(Coming::Closed(1))?;
    Ok(())
}

// All these steps, and between them one in which nothing comes.
fn three_peers(alloc: Global) -> Result<Vec<Coming>, OutOfMemory> {
    let mut coming = Vec::new(alloc);
    add_first_peer(alloc, &mut coming)?;
    coming.push(Coming::Quiet)?;
    add_later_peers(alloc, &mut coming)?;
    Ok(coming)
}

// Whether these arrivals come next.
fn come(link: &mut SteadyLink, buf: &mut [u8], all: &[Arrival]) -> bool
    requires { length buf.old ≡ BUFFER_SIZE }
{
    for wanted in all {
        if link.next(buf) != Ok(*wanted) {
            return false;
        }
    }
    true
}

// What comes before two peers are closed, and after it.
const BEFORE: &[Arrival] = &[
    Arrival::Opened(1),
    Arrival::Bytes(1, 65_536),
    Arrival::Bytes(1, 4),
    Arrival::Quiet,
    Arrival::Opened(3),
];

const AFTER: &[Arrival] = &[Arrival::Closed(1), Arrival::Ended, Arrival::Ended];

// Whether one peer was closed, for that reason, and one message is taken.
fn has_closed_one(link: &mut SteadyLink) -> bool {
    let gone = Closed {
        peer: 3,
        why: Why::Gone,
    };
    let is_closed = link.closed() == [gone].as_slice();
    is_closed && link.send(1, b"x") == Ok(()) && link.sent().len() == 1
}

// Whether all these come, where peer 3 is closed between, and peer 2, which never came.
fn has_all_steps(link: &mut SteadyLink) -> bool {
    let mut buf = [0u8; BUFFER_SIZE];
    let is_before = come(link, &mut buf, BEFORE);
    link.close(2, Why::Long);
    link.close(3, Why::Gone);
    is_before && come(link, &mut buf, AFTER)
}

#[test]
fn steps_come_in_their_order(rt: HostRuntime) -> Result<(), Fail> {
    let mut link = SteadyLink::new(rt.alloc(), three_peers(rt.alloc())?)?;
    assert!(rt; has_all_steps(&mut link));
    assert!(rt; has_closed_one(&mut link));
    Ok(())
}

// Whether the last message is this text to peer 1.
fn is_last(sent: &[Sent], text: &[u8]) -> bool {
    match sent.last() {
        Some(message) => message.peer == 1 && message.text.as_slice() == text,
        None => false,
    }
}

// A link of which the first call of `next` fails, and the second of `send`.
fn failing_link(alloc: Global) -> Result<MemLink, OutOfMemory> {
    let coming = three_peers(alloc)?;
    let next = Vec::from_slice(alloc, &[1])?;
    let send = Vec::from_slice(alloc, &[2])?;
    MemLink::new(alloc, coming, next, send)
}

// Whether the first peer comes after the call that fails.
fn has_a_peer_after_a_failure(link: &mut MemLink) -> bool {
    let mut buf = [0u8; BUFFER_SIZE];
    link.next(&mut buf) == Err(LinkFailed) && link.next(&mut buf) == Ok(Arrival::Opened(1))
}

// Whether two of three messages are sent.
fn sends_two(link: &mut MemLink) -> bool {
    let is_sent = link.send(1, b"x") == Ok(());
    is_sent && link.send(1, b"y") == Err(SendFault::Gone) && link.send(1, b"z") == Ok(())
}

#[test]
fn listed_calls_of_a_link_fail(rt: HostRuntime) -> Result<(), Fail> {
    let mut link = failing_link(rt.alloc())?;
    assert!(rt; has_a_peer_after_a_failure(&mut link));
    assert!(rt; sends_two(&mut link));
    link.close(1, Why::Disk);
    let counts = (link.sent().len(), link.closed().len(), link.faults());
    assert!(rt; counts == (2, 1, 2) && is_last(link.sent(), b"z"));
    Ok(())
}
