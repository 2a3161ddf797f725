// Indexes that stand for no tables: each check of an opening, with what it wanted and what it found. All
// bytes are written by hand from the format.

use crate::disks::{
    FIRST_FILE, META, NO_ROWS, REDO, SIZES, copy_of, none_fails, part, put_file, put_heads,
};
use el_base::OutOfMemory;
use el_mem_disk::{MemDisk, SilentDisk};
use el_outside::Disk;
use el_recovery::open_pages;
use el_redo::{Mainnet, NetworkMagic, OpenFault, Regtest, Testnet3};
use std::alloc::Global;
use std::test::Fail;

// A file, what was wanted there, and what was found.
type Bad = (u32, u64, u64);

// What an opening for this network answers, and the disk after it.
fn opened<N: NetworkMagic>(alloc: Global, disk: MemDisk) -> (Result<(), OpenFault>, MemDisk) {
    match open_pages::<SilentDisk, N>(alloc, SilentDisk::new(disk)) {
        Ok(store) => (Ok(()), store.into_disk().into_disk()),
        Err((fault, disk)) => (Err(fault), disk.into_disk()),
    }
}

// What an opening answers that finds this.
fn answer(bad: Option<Bad>) -> Result<(), OpenFault> {
    match bad {
        None => Ok(()),
        Some((file, wanted, found)) => Err(OpenFault::BadIndex {
            file,
            wanted,
            found,
        }),
    }
}

// Whether an opening of the disk for this network finds this.
fn finds<N: NetworkMagic>(alloc: Global, disk: MemDisk, bad: Option<Bad>) -> bool {
    let (answered, _) = opened::<N>(alloc, disk);
    answered == answer(bad)
}

// Whether both disks have the same bytes in an index's files.
fn are_same(disk: &MemDisk, other: &MemDisk) -> bool {
    for file in FIRST_FILE..=REDO {
        if disk.bytes(file) != other.bytes(file) {
            return false;
        }
    }
    true
}

// A disk without files, that tells nothing.
fn blank(alloc: Global) -> SilentDisk {
    SilentDisk::new(MemDisk::new(alloc, none_fails(alloc)))
}

// A disk with a meta row, and tables whose rows are zeros.
fn whole(alloc: Global) -> Result<SilentDisk, Fail> {
    let mut disk = blank(alloc);
    put_file(&mut disk, FIRST_FILE, META)?;
    for (file, size) in SIZES.iter().enumerate().skip(1) {
        let zeros = vec![in alloc; 0u8; *size]?;
        put_file(&mut disk, FIRST_FILE + file as u32, zeros.as_slice())?;
    }
    Ok(disk)
}

// The same with other bytes in the meta row, from that place on.
fn patched(alloc: Global, at: u64, bytes: &[u8]) -> Result<MemDisk, Fail> {
    let mut disk = whole(alloc)?;
    disk.write_at(FIRST_FILE, at, bytes)?;
    Ok(disk.into_disk())
}

// The same with a file cut to so many bytes.
fn cut(alloc: Global, file: u32, len: u64) -> Result<MemDisk, Fail> {
    let mut disk = whole(alloc)?;
    disk.cut(file, len)?;
    Ok(disk.into_disk())
}

// Bytes of the meta row that are changed, and what then is found: letters; the format; the network; a number
// of bits that may not be; tables of heads that have too many rows or too few for it; counts above the limit;
// counts of more rows than there are bytes.
const PATCHES: &[(u64, &[u8], Option<Bad>)] = &[
    (0, b"F", Some((20, 1_481_198_661, 1_481_198_662))),
    (3, b"Y", Some((20, 1_481_198_661, 1_497_975_877))),
    (4, b"\x01", Some((20, 2, 1))),
    (7, b"\x01", Some((20, 2, 16_777_218))),
    (4, b"\0", Some((20, 2, 0))),
    (8, b"\xf8", Some((20, 3_652_501_241, 3_652_501_240))),
    (
        8,
        b"\x0b\x11\x09\x07",
        Some((20, 3_652_501_241, 118_034_699)),
    ),
    (12, b"\x0f", Some((20, 16, 15))),
    (12, b"\x19", Some((20, 16, 25))),
    (13, b"\x01", Some((20, 16, 272))),
    (15, b"\x80", Some((20, 16, 2_147_483_664))),
    (12, b"\x11", Some((23, 131_072, 65_536))),
    (12, b"\x18", Some((23, 16_777_216, 65_536))),
    (32, b"\x01", Some((23, 65_536, 65_537))),
    (34, b"\0", Some((23, 65_536, 0))),
    (39, b"\x01", Some((23, 65_536, 72_057_594_037_993_472))),
    (64, b"\xff\xff\0", Some((27, 65_536, 65_535))),
    (66, b"\0", Some((27, 65_536, 0))),
    (16, &[0; 64], Some((23, 65_536, 0))),
    (20, b"\x01", Some((21, 4_294_967_295, 4_294_967_298))),
    (
        29,
        b"\x01",
        Some((22, 1_099_511_627_776, 1_099_511_627_779)),
    ),
    (
        45,
        b"\x01",
        Some((24, 1_099_511_627_776, 1_099_511_627_780)),
    ),
    (
        53,
        b"\x01",
        Some((25, 1_099_511_627_776, 1_099_511_627_778)),
    ),
    (
        61,
        b"\x01",
        Some((26, 1_099_511_627_776, 1_099_511_627_779)),
    ),
    (
        77,
        b"\x01",
        Some((28, 1_099_511_627_776, 1_099_511_627_781)),
    ),
    (
        79,
        b"\x80",
        Some((28, 1_099_511_627_776, 9_223_372_036_854_775_813)),
    ),
    (24, b"\0\0\0\0\0\x01", Some((22, 92_358_976_733_184, 252))),
    (16, b"\x03", Some((21, 348, 232))),
    (24, b"\x04", Some((22, 336, 252))),
    (40, b"\x05", Some((24, 165, 132))),
    (48, b"\x03", Some((25, 24, 16))),
    (56, b"\x04", Some((26, 256, 192))),
    (72, b"\x06", Some((28, 144, 120))),
    (72, b"\xff\xff\xff\xff", Some((28, 103_079_215_080, 120))),
    (16, b"\x01", None),
    (72, b"\0", None),
    (80, b"more", None),
];

#[test]
fn magics_are_bitcoins(rt: HostRuntime) {
    assert!(rt; &Mainnet::magic() == b"\xf9\xbe\xb4\xd9");
    assert!(rt; &Testnet3::magic() == b"\x0b\x11\x09\x07");
    assert!(rt; &Regtest::magic() == b"\xfa\xbf\xb5\xda");
}

// What networks find in the main network's index.
fn is_of_one_network(alloc: Global) -> Result<bool, Fail> {
    let regtest = Some((20, 3_669_344_250, 3_652_501_241));
    let testnet = Some((20, 118_034_699, 3_652_501_241));
    let for_main = finds::<Mainnet>(alloc, whole(alloc)?.into_disk(), None);
    let for_regtest = finds::<Regtest>(alloc, whole(alloc)?.into_disk(), regtest);
    let for_testnet = finds::<Testnet3>(alloc, whole(alloc)?.into_disk(), testnet);
    Ok(for_main && for_regtest && for_testnet)
}

#[test]
fn bad_meta_rows_are_told(rt: HostRuntime) -> Result<(), Fail> {
    let alloc = rt.alloc();
    assert!(rt; is_of_one_network(alloc)?);
    for (at, bytes, bad) in PATCHES {
        let disk = patched(alloc, *at, bytes)?;
        assert!(rt; finds::<Mainnet>(alloc, disk, *bad), "{at}");
    }
    Ok(())
}

// Whether the file is told that is cut to so many bytes, where this size is wanted.
fn is_short(alloc: Global, file: u32, len: u64, size: u64) -> Result<bool, Fail> {
    let disk = cut(alloc, file, len)?;
    Ok(finds::<Mainnet>(alloc, disk, Some((file, size, len))))
}

#[test]
fn short_files_are_told(rt: HostRuntime) -> Result<(), Fail> {
    let alloc = rt.alloc();
    for len in 0..80 {
        assert!(rt; is_short(alloc, FIRST_FILE, len, 80)?, "{len}");
    }
    for (file, size) in SIZES.iter().enumerate() {
        let size = *size as u64;
        assert!(rt;
            is_short(
                alloc,
                FIRST_FILE + file as u32,
                size.saturating_sub(1),
                size
            )?,
            "{file}"
        );
    }
    Ok(())
}

// The meta row of two inputs, and no other rows but the heads.
const TWO_INPUTS: &[u8] = b"ELIX\x02\0\0\0\xf9\xbe\xb4\xd9\x10\0\0\0\
\0\0\0\0\0\0\0\0\0\0\0\0\0\0\0\0\0\0\x01\0\0\0\0\0\0\0\0\0\0\0\0\0\
\x02\0\0\0\0\0\0\0\0\0\0\0\0\0\0\0\0\0\x01\0\0\0\0\0\0\0\0\0\0\0\0\0";

// A redo file with this gate and this length, and a body of the meta row and these changes.
fn redo_file(alloc: Global, gate: u8, len: u64, changes: &[u8]) -> Result<Vec<u8>, OutOfMemory> {
    let mut file = Vec::from_slice(alloc, &[gate])?;
    file.extend_from_slice(&len.to_le_bytes())?;
    file.extend_from_slice(NO_ROWS)?;
    file.extend_from_slice(changes)?;
    Ok(file)
}

// A disk with this redo file, the meta row of two inputs, heads, and files of two inputs and three bytes
// more, and of one script less a byte.
fn with_redo(alloc: Global, redo: &[u8]) -> Result<MemDisk, Fail> {
    let mut disk = blank(alloc);
    put_file(&mut disk, FIRST_FILE, TWO_INPUTS)?;
    put_heads(alloc, &mut disk)?;
    put_file(&mut disk, 25, b"input--0input--1abc")?;
    put_file(&mut disk, 26, &[7; 63])?;
    put_file(&mut disk, REDO, redo)?;
    Ok(disk.into_disk())
}

// Whether an opening of a disk with this redo file finds this, and leaves all files as they were if it is a
// fault.
fn is_told(alloc: Global, redo: &[u8], bad: Option<Bad>) -> Result<bool, Fail> {
    let before = with_redo(alloc, redo)?;
    let (answered, after) = opened::<Mainnet>(alloc, copy_of(&before, none_fails(alloc))?);
    let is_untouched = bad.is_none() || are_same(&before, &after);
    Ok(answered == answer(bad) && is_untouched)
}

// A change of an input, and one of a head.
const TWO: &[u8] = b"\x05\0\0\0\0\0\0\0\0INPUT--0\x03\0\0\0\0\0\0\0\0the head";

// What is found where a redo file with that body is cut to so many bytes; the body has 114.
fn bad_cut(len: u64) -> Option<Bad> {
    match len {
        0..=1 => None,
        2..=8 => Some((29, 9, len)),
        9..=122 => Some((29, 114, len - 9)),
        _ => None,
    }
}

// What is found where the length of that body is told as this one.
fn bad_length(len: u64) -> Option<Bad> {
    match len {
        0..=79 => Some((29, 80, len)),
        80 | 97 | 114 => None,
        81..=96 => Some((29, 17, len - 80)),
        98..=113 => Some((29, 17, len - 97)),
        _ => Some((29, len, 114)),
    }
}

// Whether this is found where the length of that body is told as this one.
fn is_length_told(alloc: Global, len: u64) -> Result<bool, Fail> {
    let file = redo_file(alloc, 1, len, TWO)?;
    is_told(alloc, file.as_slice(), bad_length(len))
}

#[test]
fn short_redo_files_are_told(rt: HostRuntime) -> Result<(), Fail> {
    let alloc = rt.alloc();
    let whole = redo_file(alloc, 1, 114, TWO)?;
    for len in 0..whole.len() {
        let is_told = is_told(alloc, part(whole.as_slice(), 0, len), bad_cut(len as u64))?;
        assert!(rt; is_told, "{len}");
    }
    for len in 0..116 {
        assert!(rt; is_length_told(alloc, len)?, "{len}");
    }
    assert!(rt; is_length_told(alloc, 1 << 62)? && is_length_told(alloc, u64::MAX)?);
    Ok(())
}

// A change: the table's byte, the row's number, and how many bytes the row has.
type Change = (u8, u64, usize);

// Changes, and what is found: numbers of no table, also where nothing stands after them; rows that aren't
// whole, of each table; rows after the end that their file has, also by the changes before them. The first
// change that is bad is told.
const CHANGES: &[(&[Change], Option<Bad>)] = &[
    (&[], None),
    (&[(0, 0, 8)], Some((29, 8, 0))),
    (&[(9, 0, 116)], Some((29, 8, 9))),
    (&[(255, 0, 0)], Some((29, 8, 255))),
    (&[(5, 0, 8), (10, 0, 8)], Some((29, 8, 10))),
    (&[(1, 0, 115)], Some((29, 125, 124))),
    (&[(2, 0, 83)], Some((29, 93, 92))),
    (&[(3, 0, 7)], Some((29, 17, 16))),
    (&[(4, 0, 32)], Some((29, 42, 41))),
    (&[(5, 9, 7)], Some((29, 17, 16))),
    (&[(6, 0, 63)], Some((29, 73, 72))),
    (&[(7, 0, 0)], Some((29, 17, 9))),
    (&[(8, 0, 23)], Some((29, 33, 32))),
    (&[(5, 2, 8)], None),
    (&[(5, 3, 8)], Some((25, 2, 3))),
    (&[(5, 2, 8), (5, 3, 8)], None),
    (&[(5, 2, 8), (5, 4, 8)], Some((25, 3, 4))),
    (&[(5, 0, 8), (5, 3, 8)], Some((25, 2, 3))),
    (&[(6, 0, 64), (6, 1, 64)], None),
    (&[(6, 1, 64), (6, 0, 64)], Some((26, 0, 1))),
    (
        &[(3, 65_536, 8), (3, 65_537, 8), (7, 65_537, 8)],
        Some((27, 65_536, 65_537)),
    ),
    (&[(1, 1, 116)], Some((21, 0, 1))),
    (&[(2, 4_294_967_296, 84)], Some((22, 0, 4_294_967_296))),
    (
        &[(4, 9_223_372_036_854_775_808, 33)],
        Some((24, 0, 9_223_372_036_854_775_808)),
    ),
    (&[(8, u64::MAX, 24)], Some((28, 0, u64::MAX))),
    (&[(8, u64::MAX, 24), (0, 0, 0)], Some((28, 0, u64::MAX))),
];

// The bytes of changes, whose rows are zeros.
fn bytes_of(alloc: Global, changes: &[Change]) -> Result<Vec<u8>, OutOfMemory> {
    let mut bytes = Vec::new(alloc);
    for (table, row, size) in changes {
        bytes.push(*table)?;
        bytes.extend_from_slice(&row.to_le_bytes())?;
        let zeros = vec![in alloc; 0u8; *size]?;
        bytes.extend_from_slice(zeros.as_slice())?;
    }
    Ok(bytes)
}

// Whether a body of these changes is told where the gate is open, and is nothing where it isn't.
fn is_told_if_open(alloc: Global, changes: &[Change], bad: Option<Bad>) -> Result<bool, Fail> {
    let bytes = bytes_of(alloc, changes)?;
    let len = (bytes.len() as u64).saturating_add(80);
    for gate in [0, 2, 255] {
        let closed = redo_file(alloc, gate, len, bytes.as_slice())?;
        if !is_told(alloc, closed.as_slice(), None)? {
            return Ok(false);
        }
    }
    let opened = redo_file(alloc, 1, len, bytes.as_slice())?;
    is_told(alloc, opened.as_slice(), bad)
}

#[test]
fn bad_changes_are_told(rt: HostRuntime) -> Result<(), Fail> {
    for (i, (changes, bad)) in CHANGES.iter().enumerate() {
        assert!(rt; is_told_if_open(rt.alloc(), changes, *bad)?, "{i}");
    }
    Ok(())
}

// A record waits: a meta row, a changed input and one more, and stale bytes after the body.
fn waiting(alloc: Global) -> Result<MemDisk, Fail> {
    let changes = b"\x05\x01\0\0\0\0\0\0\0INPUT--1\x05\x02\0\0\0\0\0\0\0INPUT--2\xff\xff";
    let file = redo_file(alloc, 1, 114, changes)?;
    with_redo(alloc, file.as_slice())
}

// Whether it was made, and only the gate of the redo file has changed.
fn is_made(before: &MemDisk, after: &MemDisk) -> bool {
    let is_written = after.bytes(FIRST_FILE) == NO_ROWS
        && after.bytes(25) == b"input--0INPUT--1INPUT--2".as_slice();
    let is_closed = after.bytes(REDO).first() == Some(&0);
    let is_kept = part(after.bytes(REDO), 1, 125) == part(before.bytes(REDO), 1, 125);
    is_written && is_closed && is_kept && after.bytes(26) == before.bytes(26)
}

#[test]
fn what_waits_is_made(rt: HostRuntime) -> Result<(), Fail> {
    let alloc = rt.alloc();
    let before = waiting(alloc)?;
    let (answered, after) = opened::<Mainnet>(alloc, copy_of(&before, none_fails(alloc))?);
    assert!(rt; answered == Ok(()) && is_made(&before, &after));
    Ok(())
}
