// That each step of a commit succeeds, which no contract says, and what it leaves; and the formats' numbers.

use crate::disks::none_fails;
use el_mem_disk::{MemDisk, SilentDisk};
use el_outside::DiskFailed;
use el_pages::{FORMAT_1, FORMAT_2, LETTERS, Layout};
use el_redone::{Span, begin, set_gate, sync_files, write_behind, write_covered};
use el_row_formats::Table;
use std::alloc::Global;
use std::test::Fail;

// Two files, and the redo file after them.
const SPAN: Span = Span { first: 3, redo: 5 };

// The steps of a commit of 'ab' at the front of file 3 and of 'c' at that of file 4, up to the one of that
// number.
fn commit(disk: &mut SilentDisk, steps: u64) -> Result<(), DiskFailed> {
    begin(disk, SPAN)?;
    if steps > 0 {
        write_behind(disk, SPAN, 1, b"rec")?;
        write_behind(disk, SPAN, 4, b"ord")?;
    }
    if steps > 1 {
        set_gate(disk, SPAN, 1)?;
    }
    if steps > 2 {
        write_covered(disk, SPAN, 3, 0, b"ab")?;
        write_covered(disk, SPAN, 4, 0, b"c")?;
        sync_files(disk, SPAN)?;
    }
    if steps > 3 {
        set_gate(disk, SPAN, 0)?;
    }
    Ok(())
}

// How many steps are made; the three files then; and how many calls of the disk that takes: the opening syncs
// the root and three files, asks for the redo file's size, and writes and syncs it.
const STEPS: &[(u64, &[u8], &[u8], &[u8], u64)] = &[
    (0, b"", b"", b"\0", 7),
    (1, b"", b"", b"\0record", 9),
    (2, b"", b"", b"\x01record", 11),
    (3, b"ab", b"c", b"\x01record", 15),
    (4, b"ab", b"c", b"\0record", 17),
];

// The disk after so many steps.
fn after_steps(alloc: Global, steps: u64) -> Result<MemDisk, Fail> {
    let mut disk = SilentDisk::new(MemDisk::new(alloc, none_fails(alloc)));
    commit(&mut disk, steps)?;
    Ok(disk.into_disk())
}

// Whether the three files have these bytes.
fn has_files(disk: &MemDisk, first: &[u8], second: &[u8], redo: &[u8]) -> bool {
    disk.bytes(3) == first && disk.bytes(4) == second && disk.bytes(5) == redo
}

#[test]
fn steps_are_made(rt: HostRuntime) -> Result<(), Fail> {
    for (steps, first, second, redo, calls) in STEPS {
        let disk = after_steps(rt.alloc(), *steps)?;
        assert!(rt;
            has_files(&disk, first, second, redo) && disk.calls() == *calls,
            "{steps}"
        );
    }
    Ok(())
}

// Whether the tables' rows have these sizes, and each table but that of blocks may have so many.
fn has_rows(layout: &Layout, sizes: [usize; 8], limit: u64) -> bool {
    for t in Table::ALL {
        let most = if t == Table::Blocks {
            4_294_967_295
        } else {
            limit
        };
        if layout.size(t) != sizes[t.index()] || layout.limit(t) != most {
            return false;
        }
    }
    true
}

#[test]
fn formats_have_their_numbers(rt: HostRuntime) {
    assert!(rt; LETTERS == 1_481_198_661 && FORMAT_1.format == 1 && FORMAT_2.format == 2);
    assert!(rt; FORMAT_1.meta == 76 && FORMAT_2.meta == 80);
    assert!(rt; has_rows(&FORMAT_1, [112, 68, 4, 21, 4, 52, 4, 12], 4_294_967_295));
    assert!(rt; has_rows(&FORMAT_2, [116, 84, 8, 33, 8, 64, 8, 24], 1_099_511_627_776));
    assert!(rt; FORMAT_1.span() == Span { first: 0, redo: 9 });
    assert!(rt; FORMAT_1.file(Table::Blocks) == 1 && FORMAT_1.file(Table::Entries) == 8);
    assert!(rt;
        FORMAT_2.span()
            == Span {
                first: 20,
                redo: 29
            }
    );
    assert!(rt; FORMAT_2.file(Table::Blocks) == 21 && FORMAT_2.file(Table::Entries) == 28);
}
