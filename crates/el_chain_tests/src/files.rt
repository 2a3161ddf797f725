// Block files: Bitcoin's first two blocks in a file, and calls that fail where the archive does.
ghost use Rattle.std.specs.Prelude.{[], IfOk, IfSome, refl};
ghost use Rattle.el_chain.specs.Records.{IsNode};

use el_base::{Bytes, GhostCount, Hash32, OutOfMemory};
use el_chain::{Node, Spot};
use el_fakes::{Later, MemArchive, Room};
use el_files::{ReadFault, ScanFault, read_block, read_tx, record_at, scan, scan_file};
use el_gen::{BLOCK_1, BLOCK_1_HASH, BLOCK_1_TXID, GENESIS, GENESIS_HASH};
use el_outside::{Archive, ArchiveFailed, Place};
use std::alloc::Global;
use std::test::Fail;

// The network's magic.
const MAGIC: [u8; 4] = [0xf9, 0xbe, 0xb4, 0xd9];

// What stands before Bitcoin's first two blocks in a file: magic and size.
const HEAD_0: &str = "f9beb4d91d010000";

const HEAD_1: &str = "f9beb4d9d7000000";

// The hash of the second header with another last byte.
const HASH_CHANGED: &str = "ffbeb242d0849ba8f296f1031843e64d928c946872a8661b6e793327bb43b036";

// The txid of the second transaction with another last byte.
const TXID_CHANGED: &str = "8dc55ded11219a2beb242165458246991a240a5afb32e820c9ca83491ada71c4";

// A hundred zeros.
const ZEROS: &str = "\
    000000000000000000000000000000000000000000000000000000000000000000000000000000000000000000000000\
    000000000000000000000000000000000000000000000000000000000000000000000000000000000000000000000000\
    00000000\
    ";

// A file whose reads from the place `short_from` on give at most 300 bytes at once, though its size promises
// all. It tells nothing, since no archive that tells may do so.
#[derive(Drop)]
struct ShortFile {
    bytes: Vec<u8>,
    short_from: u64,
    made: GhostCount,
}

impl Archive for ShortFile {
    ghost tells = { ⊥ };

    ghost bytes = { λ files n. [] };

    ghost padding = { λ files n. [] };

    ghost file_count = { λ files. 1 };

    ghost none_after = { λ files file told after. refl };

    ghost gave = { λ file at bytes. Unit {0} };

    ghost calls = { λ files. files.made };

    ghost faults = { λ files. 0 };

    fn files(&mut self) -> Result<u32, ArchiveFailed> {
        self.made.tick();
        Ok(1)
    }

    fn size(&mut self, _file: u32) -> Result<u64, ArchiveFailed> {
        self.made.tick();
        Ok((self.bytes.len() as u64).min(1_000_000))
    }

    fn read(&mut self, _file: u32, at: u64, buf: &mut [u8]) -> Result<usize, ArchiveFailed> {
        self.made.tick();
        if at >= self.bytes.len() as u64 {
            return Ok(0);
        }
        let rest = &self.bytes[at as usize..];
        let most = if at < self.short_from {
            rest.len()
        } else {
            300
        };
        let n = buf.len().min(rest.len()).min(most);
        buf[..n].copy_from_slice(&rest[..n]);
        Ok(n)
    }
}

// Adds the bytes that hex texts give, one after the other.
fn add(alloc: Global, bytes: &mut Vec<u8>, parts: &[&str]) -> Result<(), Fail> {
    for part in parts {
        let more = hex::decode(alloc, *part)?;
        bytes.extend_from_slice(more.as_slice())?;
    }
    Ok(())
}

// So many zeros, and after them the bytes that hex texts give.
fn zeros_and(alloc: Global, zeros: usize, parts: &[&str]) -> Result<Vec<u8>, Fail> {
    let mut bytes = vec![in alloc; 0u8; zeros]?;
    add(alloc, &mut bytes, parts)?;
    Ok(bytes)
}

// Adds 70,000 zeros.
fn add_zeros(alloc: Global, bytes: &mut Vec<u8>) -> Result<(), Fail> {
    let more = vec![in alloc; 0u8; 70_000]?;
    bytes.extend_from_slice(more.as_slice())?;
    Ok(())
}

// The file of 677 bytes, with both records and the first 58 bytes of the second one again.
fn whole(alloc: Global) -> Result<Vec<u8>, Fail> {
    let cut = &BLOCK_1[..100];
    let parts = [
        HEAD_0, GENESIS, "aabbcc", HEAD_1, BLOCK_1, ZEROS, HEAD_1, cut,
    ];
    zeros_and(alloc, 0, parts.as_slice())
}

// The second record.
const SECOND: &[&str] = &[HEAD_1, BLOCK_1];

// Block files, of which file 0 alone has bytes. Those of them that come later, and the calls that fail, are
// listed.
fn files_of(
    alloc: Global,
    bytes: Vec<u8>,
    later: &[Later],
    failing: &[u64],
) -> Result<MemArchive, Fail> {
    let mut files = Vec::new(alloc);
    files.push(Bytes::from_vec(bytes))?;
    let later = Vec::from_slice(alloc, later)?;
    Ok(MemArchive::growing(files, later, Vec::from_slice(alloc, failing)?))
}

// The nodes that a scan of file 0 finds.
fn scanned<A: Archive>(alloc: Global, files: &mut A) -> Result<Vec<Node>, Fail> {
    let mut found = Vec::new(alloc);
    scan_file(alloc, files, MAGIC, 0, &mut found)?;
    Ok(found)
}

// Whether the records of the nodes stand at these places.
fn stand_at(nodes: &[Node], places: &[Place]) -> bool {
    for (node, place) in nodes.iter().zip(places.iter()) {
        if node.place != *place {
            return false;
        }
    }
    nodes.len() == places.len()
}

// Whether a scan of file 0 finds the records at these places.
fn finds_in(alloc: Global, files: &mut MemArchive, places: &[Place]) -> Result<bool, Fail> {
    let found = scanned(alloc, files)?;
    Ok(stand_at(found.as_slice(), places))
}

// Whether a scan of a file with these bytes does.
fn finds(alloc: Global, bytes: Vec<u8>, places: &[Place]) -> Result<bool, Fail> {
    let mut files = files_of(alloc, bytes, &[], &[])?;
    finds_in(alloc, &mut files, places)
}

// The places of the two records of the file.
const PLACES: &[Place] = &[
    Place {
        file: 0,
        offset: 0,
        len: 285,
    },
    Place {
        file: 0,
        offset: 296,
        len: 215,
    },
];

fn place(offset: u64, len: u32) -> Place {
    Place {
        file: 0,
        offset,
        len,
    }
}

// Whether the records are found in the order in which they stand, where they are exchanged.
fn finds_exchanged(alloc: Global) -> Result<bool, Fail> {
    let cut = &BLOCK_1[..100];
    let parts = [
        HEAD_1, BLOCK_1, "aabbcc", HEAD_0, GENESIS, ZEROS, HEAD_1, cut,
    ];
    let bytes = zeros_and(alloc, 0, parts.as_slice())?;
    finds(alloc, bytes, [place(0, 215), place(226, 285)].as_slice())
}

// Whether a scan of this front of the file finds the records that it has whole.
fn finds_front(alloc: Global, front: &[u8]) -> Result<bool, Fail> {
    let count = if front.len() < 293 {
        0
    } else if front.len() < 519 {
        1
    } else {
        2
    };
    let bytes = Vec::from_slice(alloc, front)?;
    finds(alloc, bytes, &PLACES[..count])
}

#[test]
fn scans_exchanged_records(rt: HostRuntime) -> Result<(), Fail> {
    assert!(rt; finds_exchanged(rt.alloc())?);
    Ok(())
}

// The size of the first front in which the records aren't found so.
fn wrong_front(alloc: Global, bytes: &[u8]) -> Result<Option<usize>, Fail> {
    for size in 0..=bytes.len() {
        if !finds_front(alloc, &bytes[..size])? {
            return Ok(Some(size));
        }
    }
    Ok(None)
}

fn scans_fronts(alloc: Global) -> Result<Option<usize>, Fail> {
    let bytes = whole(alloc)?;
    wrong_front(alloc, bytes.as_slice())
}

#[test]
fn scans_a_file(rt: HostRuntime) -> Result<(), Fail> {
    assert_eq!(rt; scans_fronts(rt.alloc())?, None);
    Ok(())
}

// Whether the second record is found after so many zeros.
fn finds_far(alloc: Global, zeros: usize) -> Result<bool, Fail> {
    let bytes = zeros_and(alloc, zeros, SECOND)?;
    finds(alloc, bytes, [place(zeros as u64, 215)].as_slice())
}

// Numbers of zeros after which the record stands at the end of a piece, or over it.
const FAR: &[usize] = &[
    65_312, 65_313, 65_314, 65_447, 65_448, 65_449, 65_535, 65_536,
];

#[test]
fn scans_over_the_end_of_a_piece(rt: HostRuntime) -> Result<(), Fail> {
    for zeros in FAR {
        assert!(rt; finds_far(rt.alloc(), *zeros)?, "after {zeros} zeros");
    }
    Ok(())
}

// A file of zeros, the second record and 70,000 more zeros, whose reads are short from that place on.
fn short_file(alloc: Global, zeros: usize, short_from: u64) -> Result<ShortFile, Fail> {
    let mut bytes = zeros_and(alloc, zeros, SECOND)?;
    add_zeros(alloc, &mut bytes)?;
    Ok(ShortFile {
        bytes,
        short_from,
        made: GhostCount::new(),
    })
}

// How many records a scan finds in such a file.
fn count_in_short(alloc: Global, zeros: usize, short_from: u64) -> Result<usize, Fail> {
    let mut file = short_file(alloc, zeros, short_from)?;
    Ok(scanned(alloc, &mut file)?.len())
}

// A file that gives fewer bytes than its size promised ends there. What the buffer had before isn't scanned
// again.
#[test]
fn scans_what_is_given(rt: HostRuntime) -> Result<(), Fail> {
    for (zeros, short_from, count) in [(0, 0, 1), (1_000, 0, 0), (1_000, 1, 1)].iter() {
        let found = count_in_short(rt.alloc(), *zeros, *short_from)?;
        assert!(rt;
            found == *count,
            "after {zeros} zeros, short from {short_from}"
        );
    }
    Ok(())
}

// Whether a scan of the file, which grows so, finds that many of its records.
fn finds_later(alloc: Global, later: Later, count: usize) -> Result<bool, Fail> {
    let mut files = files_of(alloc, whole(alloc)?, &[later], &[])?;
    finds_in(alloc, &mut files, &PLACES[..count.min(2)])
}

// From which call on the file has the bytes from which place on, and how many records are then found.
const LATER: &[(u64, u64, usize)] = &[
    (1, 293, 2),
    (2, 293, 1),
    (2, 400, 1),
    (3, 293, 1),
    (2, 519, 2),
    (2, 0, 0),
];

// The file is scanned up to the size that it has when it is asked for: by call 1 in a scan of one file.
#[test]
fn scans_a_file_that_grows(rt: HostRuntime) -> Result<(), Fail> {
    for (call, from, count) in LATER {
        let later = Later {
            call: *call,
            file: 0,
            from: *from,
        };
        assert!(rt;
            finds_later(rt.alloc(), later, *count)?,
            "from {from} on by call {call}"
        );
    }
    Ok(())
}

// Both records, side by side, of which the second one comes with this call, in a file that has 200,000 bytes
// with its room, until the call that finds it cut off.
fn made_ahead(alloc: Global, call: u64, until: u64) -> Result<MemArchive, Fail> {
    let bytes = zeros_and(alloc, 0, [HEAD_0, GENESIS, HEAD_1, BLOCK_1].as_slice())?;
    let mut files = Vec::new(alloc);
    files.push(Bytes::from_vec(bytes))?;
    let later = Later {
        call,
        file: 0,
        from: 293,
    };
    let room = Room {
        until,
        file: 0,
        size: 200_000,
    };
    let later = Vec::from_slice(alloc, [later].as_slice())?;
    let rooms = Vec::from_slice(alloc, [room].as_slice())?;
    Ok(MemArchive::made_ahead(files, later, rooms, Vec::new(alloc)))
}

// How many records a scan of such a file finds.
fn count_ahead(alloc: Global, call: u64, until: u64) -> Result<usize, Fail> {
    let mut files = made_ahead(alloc, call, until)?;
    Ok(scanned(alloc, &mut files)?.len())
}

// The call that finds the second record, the one that finds the room cut off, and how many records are found.
const AHEAD: &[(u64, u64, usize)] = &[
    (1, u64::MAX, 2),
    (2, u64::MAX, 2),
    (3, u64::MAX, 1),
    (1, 2, 2),
    (2, 2, 2),
    (3, 2, 1),
];

// Zeros that a node has made ahead are no record. What it writes over them by the time of a read is found.
#[test]
fn scans_a_file_that_is_made_ahead(rt: HostRuntime) -> Result<(), Fail> {
    for (call, until, count) in AHEAD {
        let found = count_ahead(rt.alloc(), *call, *until)?;
        assert!(rt; found == *count, "by call {call}, until {until}");
    }
    Ok(())
}

// A file with both records, 70,000 zeros and the second record again.
fn with_three(alloc: Global) -> Result<Vec<u8>, Fail> {
    let mut bytes = zeros_and(alloc, 0, [HEAD_0, GENESIS, HEAD_1, BLOCK_1].as_slice())?;
    add_zeros(alloc, &mut bytes)?;
    add(alloc, &mut bytes, SECOND)?;
    Ok(bytes)
}

// How a scan of all files ends in which this call fails, and how many records it finds.
fn scan_failing(alloc: Global, fails: u64) -> Result<(Result<(), ScanFault>, usize), Fail> {
    let mut files = files_of(alloc, with_three(alloc)?, &[], &[fails])?;
    let mut found = Vec::new(alloc);
    let end = scan(alloc, &mut files, MAGIC, &mut found);
    Ok((end, found.len()))
}

const FAILED: Result<(), ScanFault> = Err(ScanFault::ArchiveFailed);

// Which call fails, how the scan ends, and how many records it finds. Calls 1 to 4 are those of the number of
// files, the size, and the two pieces.
const SCANS: &[(u64, (Result<(), ScanFault>, usize))] = &[
    (0, (Ok(()), 3)),
    (1, (FAILED, 0)),
    (2, (FAILED, 0)),
    (3, (FAILED, 0)),
    (4, (FAILED, 2)),
];

#[test]
fn scans_all_files(rt: HostRuntime) -> Result<(), Fail> {
    for (fails, wanted) in SCANS {
        assert!(rt; scan_failing(rt.alloc(), *fails)? == *wanted, "at {fails}");
    }
    Ok(())
}

// The files with the file of 677 bytes.
fn first_files(alloc: Global) -> Result<MemArchive, Fail> {
    files_of(alloc, whole(alloc)?, &[], &[])
}

// Whether at that place of file 0 the record of the block with this hash stands, or none.
fn is_record(files: &mut MemArchive, at: u64, shown: Option<&str>) -> bool {
    match (record_at(files, MAGIC, 0, at), shown) {
        (Ok(Some(node)), Some(shown)) => Hash32::from_shown(shown) == Ok(node.hash),
        (Ok(None), None) => true,
        _ => false,
    }
}

// Places of file 0, and the hash of the block whose record stands there, or None.
const RECORDS: &[(u64, Option<&str>)] = &[
    (0, Some(GENESIS_HASH)),
    (1, None),
    (296, Some(BLOCK_1_HASH)),
    (619, None),
    (u64::MAX, None),
];

// The first of these places at which something else is found.
fn wrong_record(alloc: Global) -> Result<Option<u64>, Fail> {
    let mut files = first_files(alloc)?;
    for (at, shown) in RECORDS {
        if !is_record(&mut files, *at, *shown) {
            return Ok(Some(*at));
        }
    }
    Ok(None)
}

#[test]
fn finds_a_record(rt: HostRuntime) -> Result<(), Fail> {
    assert_eq!(rt; wrong_record(rt.alloc())?, None);
    Ok(())
}

// The files where file 0 has these bytes from place 296 on.
fn second_files(alloc: Global, parts: &[&str]) -> Result<MemArchive, Fail> {
    files_of(alloc, zeros_and(alloc, 296, parts)?, &[], &[])
}

// The node of the second record of the file.
fn second_node(alloc: Global) -> Result<Option<Node>, Fail>
    ensures { IfOk result (λ found. IfSome found IsNode) }
{
    let mut files = first_files(alloc)?;
    let node = record_at(&mut files, MAGIC, 0, 296)?;
    Ok(node)
}

// How many bytes were read.
fn len_read(read: Result<Vec<u8>, ReadFault>) -> Result<usize, ReadFault> {
    let bytes = read?;
    Ok(bytes.len())
}

// How many bytes are read of the second block where the file has these bytes from place 296 on.
fn read_in(alloc: Global, parts: &[&str]) -> Result<Result<usize, ReadFault>, Fail> {
    let Some(node) = second_node(alloc)? else {
        return Ok(Ok(0));
    };
    let mut files = second_files(alloc, parts)?;
    Ok(len_read(read_block(alloc, &mut files, &node)))
}

// The fault of a read that found something else than was wanted.
fn changed(wanted: &str, found: Option<&str>) -> Result<ReadFault, Fail> {
    let found = match found {
        Some(shown) => Some(Hash32::from_shown(shown)?),
        None => None,
    };
    let wanted = Hash32::from_shown(wanted)?;
    Ok(ReadFault::Changed { wanted, found })
}

// How many bytes are read where that is the header's last byte and that the number of transactions.
fn read_with(alloc: Global, last: &str, count: &str) -> Result<Result<usize, ReadFault>, Fail> {
    let parts = [HEAD_1, &BLOCK_1[..158], last, count, &BLOCK_1[162..]];
    read_in(alloc, parts.as_slice())
}

// What is read of the block as it is, with another last byte of its header, and where it is cut.
fn blocks_read(alloc: Global) -> Result<[Result<usize, ReadFault>; 3], Fail> {
    let right = read_with(alloc, "99", "01")?;
    let other = read_with(alloc, "98", "01")?;
    Ok([right, other, read_with(alloc, "99", "")?])
}

#[test]
fn reads_a_block(rt: HostRuntime) -> Result<(), Fail> {
    let other = changed(BLOCK_1_HASH, Some(HASH_CHANGED))?;
    let none = changed(BLOCK_1_HASH, None)?;
    let read = blocks_read(rt.alloc())?;
    assert!(rt; read == [Ok(215), Err(other), Err(none)]);
    Ok(())
}

// How many bytes are read of the second block's transaction of that length, where that is its last byte.
fn read_tx_with(alloc: Global, last: &str, len: u32) -> Result<Result<usize, ReadFault>, Fail> {
    let wanted = Hash32::from_shown(BLOCK_1_TXID)?;
    let bytes = zeros_and(alloc, 0, [HEAD_1, &BLOCK_1[..428], last].as_slice())?;
    let mut files = files_of(alloc, bytes, &[], &[])?;
    let spot = Spot {
        height: 1,
        pos: 0,
        place: place(0, 215),
        start: 81,
        len,
    };
    Ok(len_read(read_tx(alloc, &mut files, &spot, wanted)))
}

// What is read of the transaction as it is, with another last byte, and with a byte less or more.
fn txs_read(alloc: Global) -> Result<[Result<usize, ReadFault>; 4], Fail> {
    let right = read_tx_with(alloc, "00", 134)?;
    let other = read_tx_with(alloc, "01", 134)?;
    let less = read_tx_with(alloc, "00", 133)?;
    Ok([right, other, less, read_tx_with(alloc, "00", 135)?])
}

#[test]
fn reads_a_transaction(rt: HostRuntime) -> Result<(), Fail> {
    let other = changed(BLOCK_1_TXID, Some(TXID_CHANGED))?;
    let none = changed(BLOCK_1_TXID, None)?;
    let read = txs_read(rt.alloc())?;
    assert!(rt; read == [Ok(134), Err(other), Err(none), Err(none)]);
    Ok(())
}
