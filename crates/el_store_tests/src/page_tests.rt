// What commits write and what is read after them: the files' sizes and bytes, written by hand from the
// format, and the rows of a store over files beside those of one in memory.
ghost use Rattle.std.specs.Prelude.{◌≡◌, IfOk, OnOk};

use crate::crashes::base;
use crate::disks::{
    FIRST_FILE, META, NO_ROWS, REDO, SIZES, copy_of, fails_at, fresh, fresh_disk, none_fails, part,
    reopened,
};
use crate::edits::{Edit, FIRST, SECOND, commit, has_row_of, has_rows_of, model_of, row_in};
use el_base::Bytes;
use el_mem_disk::{MemDisk, Residue, SilentDisk};
use el_outside::DiskFailed;
use el_pages::Pages;
use el_redo::Mainnet;
use el_rows::{CommitFault, Rows, Table, Txn};
use el_vec_rows::VecRows;
use std::alloc::Global;
use std::test::Fail;

// Whether the meta file and the tables' files have these sizes, and the redo file this one.
fn has_sizes(disk: &MemDisk, sizes: &[usize; 9], redo: usize) -> bool {
    for file in 0..9u32 {
        if disk.bytes(FIRST_FILE + file).len() != sizes[file as usize] {
            return false;
        }
    }
    disk.bytes(REDO).len() == redo
}

#[test]
fn a_fresh_disk_has_heads_alone(rt: HostRuntime) -> Result<(), Fail> {
    let mut store = fresh(rt.alloc())?;
    assert!(rt; has_rows_of(&mut store, &mut VecRows::new(rt.alloc(), 16)?, u64::MAX)?);
    let disk = store.into_disk().into_disk();
    assert!(rt; has_sizes(&disk, &[80, 0, 0, 524_288, 0, 0, 0, 524_288, 0], 1));
    assert!(rt; disk.bytes(FIRST_FILE) == NO_ROWS && disk.bytes(REDO) == b"\0".as_slice());
    Ok(())
}

// The redo file's size after the first commit: the gate, the length, the meta row, and each row with 9 bytes
// before it.
const REDO_SIZE: usize = 9 + 80 + 2_229_339;

// The meta row and the sizes after the second commit. No file is cut, and the redo file ends as before.
const SECOND_META: &[u8] = b"ELIX\x02\0\0\0\xf9\xbe\xb4\xd9\x10\0\0\0\
\x03\0\0\0\0\0\0\0\x05\0\0\0\0\0\0\0\0\0\x01\0\0\0\0\0\x03\0\0\0\0\0\0\0\
\x01\0\0\0\0\0\0\0\x03\0\0\0\0\0\0\0\0\0\x01\0\0\0\0\0\x07\0\0\0\0\0\0\0";

const SECOND_SIZES: [usize; 9] = [80, 348, 420, 524_288, 132, 16, 192, 524_288, 168];

// The rows of a table, one after another.
fn rows_of(alloc: Global, model: &mut VecRows, t: Table) -> Result<Bytes, Fail> {
    let mut rows = Bytes::new(alloc);
    for i in 0..model.count(t) {
        let row = row_in(model, t, i)?;
        rows.extend(&row[..t.size()])?;
    }
    Ok(rows)
}

// Whether each table's file begins with these rows.
fn has_files_of(alloc: Global, disk: &MemDisk, model: &mut VecRows) -> Result<bool, Fail> {
    for t in Table::ALL {
        let rows = rows_of(alloc, model, t)?;
        if !disk
            .bytes(FIRST_FILE + u32::from(t.number()))
            .starts_with(rows.as_slice())
        {
            return Ok(false);
        }
    }
    Ok(true)
}

// The disk after a commit, where it then has this meta row, these sizes, and in each table's file the rows of
// a store in memory; and a store that is opened over it has these rows.
fn after_commit(
    alloc: Global,
    disk: MemDisk,
    edits: &[Edit],
    model: &mut VecRows,
    meta: &[u8],
    sizes: &[usize; 9],
) -> Result<MemDisk, Fail> {
    let mut store = reopened(alloc, disk)?;
    commit(alloc, &mut store, edits)??;
    let disk = store.into_disk().into_disk();
    let has_bytes = disk.bytes(FIRST_FILE) == meta && has_files_of(alloc, &disk, model)?;
    let has_sizes = has_sizes(&disk, sizes, REDO_SIZE);
    let mut again = reopened(alloc, disk)?;
    if has_bytes && has_sizes && has_rows_of(&mut again, model, u64::MAX)? {
        return Ok(again.into_disk().into_disk());
    }
    Err(Fail::new("the disk hasn't what was committed"))
}

#[test]
fn rows_come_back(rt: HostRuntime) -> Result<(), Fail> {
    let alloc = rt.alloc();
    let mut first = model_of(alloc, &[FIRST])?;
    let mut second = model_of(alloc, &[FIRST, SECOND])?;
    let disk = after_commit(alloc, fresh_disk(alloc)?, FIRST, &mut first, META, &SIZES)?;
    let _ = after_commit(alloc, disk, SECOND, &mut second, SECOND_META, &SECOND_SIZES)?;
    Ok(())
}

// Changes a head and an input, lets the last output go, and adds an entry.
fn edit_by_hand<R: Rows>(txn: &mut Txn<'_, R>) -> Result<(), Fail>
    ensures below { txn.new.rows.now ≡ txn.old.rows.now }
    ensures name { txn.new.rows.ghost_name ≡ txn.old.rows.ghost_name }
{
    if txn.count(Table::TxHeads) > 0 && txn.count(Table::Ins) > 1 && txn.count(Table::Outs) > 3 {
        txn.put(Table::Ins, 1, b"input--1")?;
        txn.shrink(Table::Outs, 3);
        txn.put(Table::TxHeads, 0, b"the head")?;
        txn.append(Table::Entries, b"abcdefghijklmnopqrstuvwx")?;
    }
    Ok(())
}

// Commits that.
fn commit_by_hand<R: Rows>(alloc: Global, rows: &mut R) -> Result<Result<(), CommitFault>, Fail>
    requires live { R.is_live rows.old }
    ensures live { IfOk result (λ r. OnOk r (R.is_live rows.new)) }
{
    let mut txn = Txn::new(alloc, rows);
    edit_by_hand(&mut txn)?;
    let sealed = txn.seal()?;
    Ok(rows.commit(&sealed))
}

// The redo file after it, in which nothing was before: the closed gate, the length, 147, the meta row, and
// the changes by rising table.
const RECORD: &[u8] = b"\0\x93\0\0\0\0\0\0\0ELIX\x02\0\0\0\xf9\xbe\xb4\xd9\x10\0\0\0\
\x02\0\0\0\0\0\0\0\x03\0\0\0\0\0\0\0\0\0\x01\0\0\0\0\0\x03\0\0\0\0\0\0\0\
\x02\0\0\0\0\0\0\0\x03\0\0\0\0\0\0\0\0\0\x01\0\0\0\0\0\x06\0\0\0\0\0\0\0\
\x03\0\0\0\0\0\0\0\0the head\x05\x01\0\0\0\0\0\0\0input--1\
\x08\x05\0\0\0\0\0\0\0abcdefghijklmnopqrstuvwx";

// Whether the files have what was changed in its place, and the rest as in the base.
fn has_what_was_changed(disk: &MemDisk, base: &MemDisk) -> bool {
    let has_head = disk.bytes(23).starts_with(b"the head")
        && part(disk.bytes(23), 8, 524_288) == part(base.bytes(23), 8, 524_288);
    let has_input = disk.bytes(25).ends_with(b"input--1")
        && part(disk.bytes(25), 0, 8) == part(base.bytes(25), 0, 8);
    let has_entry = disk.bytes(28).ends_with(b"abcdefghijklmnopqrstuvwx")
        && disk.bytes(28).starts_with(base.bytes(28));
    has_head && has_input && has_entry && disk.bytes(24) == base.bytes(24)
}

#[test]
fn a_redo_record_is_written(rt: HostRuntime) -> Result<(), Fail> {
    let base = base(rt.alloc())?;
    let mut store = reopened(rt.alloc(), copy_of(&base, none_fails(rt.alloc()))?)?;
    commit_by_hand(rt.alloc(), &mut store)??;
    let disk = store.into_disk().into_disk();
    assert!(rt;
        has_sizes(
            &disk,
            &[80, 232, 252, 524_288, 132, 16, 192, 524_288, 144],
            156
        )
    );
    assert!(rt; disk.bytes(REDO) == RECORD && disk.bytes(FIRST_FILE) == part(RECORD, 9, 89));
    assert!(rt; has_what_was_changed(&disk, &base));
    Ok(())
}

// Reads these rows.
fn read_all<R: Rows>(rows: &mut R, places: &[(Table, u64)]) -> Result<(), DiskFailed>
    requires live { R.is_live rows.old }
    ensures live { R.is_live rows.new }
{
    for (t, i) in places {
        let _ = row_in(rows, *t, *i)?;
    }
    Ok(())
}

// How many calls a copy of the base has had after an opening and reads of these rows.
fn calls_after(alloc: Global, base: &MemDisk, places: &[(Table, u64)]) -> Result<u64, Fail> {
    let mut store = reopened(alloc, copy_of(base, none_fails(alloc))?)?;
    read_all(&mut store, places)?;
    Ok(store.into_disk().into_disk().calls())
}

// Rows at the ends of files and in them.
const PLACES: &[(Table, u64)] = &[
    (Table::Blocks, 0),
    (Table::Txs, 2),
    (Table::TxHeads, 1_023),
    (Table::TxHeads, 65_535),
    (Table::Outs, 3),
    (Table::Ins, 1),
    (Table::Scripts, 1),
    (Table::ScriptHeads, 40_000),
    (Table::Entries, 4),
];

// Whether the row is read by calls of the disk once, and then by none; an opening makes so many.
fn is_read_once(
    alloc: Global,
    base: &MemDisk,
    opening: u64,
    place: (Table, u64),
) -> Result<bool, Fail> {
    let once = calls_after(alloc, base, &[place])?;
    let thrice = calls_after(alloc, base, &[place, place, place])?;
    Ok(opening < once && once == thrice)
}

// Whether the row's bytes come where the disk fails at the first call of its reading, after the failure.
fn is_read_after_a_failure(
    alloc: Global,
    base: &MemDisk,
    opening: u64,
    model: &mut VecRows,
    place: (Table, u64),
) -> Result<bool, Fail> {
    let (t, i) = place;
    let failing = fails_at(alloc, opening.saturating_add(1), Residue::Nothing)?;
    let mut store = reopened(alloc, copy_of(base, failing)?)?;
    let is_told = row_in(&mut store, t, i) == Err(DiskFailed);
    Ok(is_told && has_row_of(&mut store, model, t, i)?)
}

#[test]
fn rows_are_read_once(rt: HostRuntime) -> Result<(), Fail> {
    let alloc = rt.alloc();
    let base = base(alloc)?;
    let opening = calls_after(alloc, &base, &[])?;
    let mut model = model_of(alloc, &[FIRST])?;
    for place in PLACES {
        assert!(rt; is_read_once(alloc, &base, opening, *place)?);
        assert!(rt; is_read_after_a_failure(alloc, &base, opening, &mut model, *place)?);
    }
    Ok(())
}

// Edits after the first commit, and how many runs they change: rows that follow one another in their table.
const RUNS: &[(&[Edit], u64)] = &[
    (&[Edit::Put(Table::TxHeads, 7, 1)], 1),
    (
        &[
            Edit::Put(Table::TxHeads, 7, 1),
            Edit::Put(Table::TxHeads, 8, 2),
            Edit::Put(Table::TxHeads, 9, 3),
        ],
        1,
    ),
    (
        &[
            Edit::Put(Table::TxHeads, 7, 1),
            Edit::Put(Table::TxHeads, 9, 3),
        ],
        2,
    ),
    (
        &[
            Edit::Put(Table::TxHeads, 65_535, 1),
            Edit::Put(Table::ScriptHeads, 0, 2),
        ],
        2,
    ),
    (
        &[
            Edit::Put(Table::Blocks, 1, 1),
            Edit::Append(Table::Blocks, 2, 2),
        ],
        1,
    ),
];

// How many calls a copy of the base has had after an opening and a commit of these edits.
fn calls_to_commit(alloc: Global, base: &MemDisk, edits: &[Edit]) -> Result<u64, Fail> {
    let mut store = reopened(alloc, copy_of(base, none_fails(alloc))?)?;
    commit(alloc, &mut store, edits)??;
    Ok(store.into_disk().into_disk().calls())
}

#[test]
fn a_run_is_written_at_once(rt: HostRuntime) -> Result<(), Fail> {
    let base = base(rt.alloc())?;
    let none = calls_to_commit(rt.alloc(), &base, &[])?;
    for (edits, runs) in RUNS {
        let calls = calls_to_commit(rt.alloc(), &base, edits)?;
        assert!(rt; calls == none.saturating_add(*runs));
    }
    Ok(())
}

// The store that is made over files of the first commit's tables.
fn made_over(alloc: Global, disk: MemDisk) -> Result<Pages<SilentDisk, Mainnet>, Fail>
    ensures live { IfOk result (λ store. ⟦<Pages<SilentDisk, Mainnet> as Rows>⟧.is_live store) }
{
    let counts = [2, 3, 65_536, 4, 2, 3, 65_536, 5];
    match Pages::new(alloc, SilentDisk::new(disk), 16, counts) {
        Ok(store) => Ok(store),
        Err(_) => Err(Fail::new("no memory")),
    }
}

#[test]
fn a_store_is_made_over_files(rt: HostRuntime) -> Result<(), Fail> {
    let mut model = model_of(rt.alloc(), &[FIRST])?;
    let mut store = made_over(rt.alloc(), base(rt.alloc())?)?;
    assert!(rt; has_rows_of(&mut store, &mut model, 8)?);
    Ok(())
}
