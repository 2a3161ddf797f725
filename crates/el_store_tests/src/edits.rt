// Edits of stores as tables, and stores in memory beside which others are looked at.
ghost use Rattle.std.specs.Prelude.{◌≡◌, IfOk, OnOk};

use el_outside::DiskFailed;
use el_rows::{CommitFault, Rows, Table, Txn};
use el_vec_rows::VecRows;
use std::alloc::Global;
use std::test::Fail;

/// An edit of a table. One of a row that isn't there does nothing.
#[derive(Clone, Copy)]
pub enum Edit {
    /// Adds so many rows, the first of this seed and each next of the seed after it.
    Append(Table, u64, u32),
    /// Writes rows over the first so many, the first of this seed and each next of the seed after it.
    Over(Table, u64, u32),
    /// Writes a row of this seed over that one.
    Put(Table, u64, u32),
    /// Leaves so many rows.
    Shrink(Table, u64),
}

/// An index's first commit: some rows of each table, and over all heads.
pub const FIRST: &[Edit] = &[
    Edit::Append(Table::Blocks, 2, 10),
    Edit::Append(Table::Txs, 3, 20),
    Edit::Over(Table::TxHeads, 65_536, 100_000),
    Edit::Append(Table::Outs, 4, 40),
    Edit::Append(Table::Ins, 2, 50),
    Edit::Append(Table::Scripts, 3, 60),
    Edit::Over(Table::ScriptHeads, 65_536, 200_000),
    Edit::Append(Table::Entries, 5, 80),
];

/// A commit after it. Rows are changed in place, added and cut off; one is cut off and another added in its
/// place.
pub const SECOND: &[Edit] = &[
    Edit::Put(Table::Blocks, 1, 110),
    Edit::Append(Table::Blocks, 1, 111),
    Edit::Append(Table::Txs, 2, 120),
    Edit::Put(Table::TxHeads, 3, 130),
    Edit::Put(Table::TxHeads, 65_535, 131),
    Edit::Shrink(Table::Outs, 2),
    Edit::Append(Table::Outs, 1, 140),
    Edit::Put(Table::Outs, 0, 141),
    Edit::Shrink(Table::Ins, 1),
    Edit::Put(Table::Scripts, 2, 160),
    Edit::Put(Table::ScriptHeads, 0, 170),
    Edit::Append(Table::Entries, 2, 180),
];

/// A commit that can be made after either.
pub const THIRD: &[Edit] = &[
    Edit::Put(Table::Blocks, 0, 210),
    Edit::Put(Table::TxHeads, 3, 220),
    Edit::Append(Table::Ins, 3, 230),
    Edit::Shrink(Table::Entries, 4),
];

// The bytes of a row, and more. No two seeds have the same first four.
fn row_of(seed: u32) -> [u8; 116] {
    let word = seed.wrapping_mul(2_654_435_761).to_le_bytes();
    let mut row = [0; 116];
    for i in 0..116 {
        row[i] = word[i % 4].wrapping_add((i / 4) as u8);
    }
    row
}

// Adds so many rows.
fn append_rows<R: Rows>(txn: &mut Txn<'_, R>, t: Table, rows: u64, seed: u32) -> Result<(), Fail>
    ensures below { txn.new.rows.now ≡ txn.old.rows.now }
    ensures name { txn.new.rows.ghost_name ≡ txn.old.rows.ghost_name }
{
    let mut seed = seed;
    for _ in 0..rows {
        let row = row_of(seed);
        txn.append(t, &row[..t.size()])?;
        seed = seed.wrapping_add(1);
    }
    Ok(())
}

// Writes rows over the first so many.
fn put_rows<R: Rows>(txn: &mut Txn<'_, R>, t: Table, rows: u64, seed: u32) -> Result<(), Fail>
    ensures below { txn.new.rows.now ≡ txn.old.rows.now }
    ensures name { txn.new.rows.ghost_name ≡ txn.old.rows.ghost_name }
{
    let mut seed = seed;
    for i in 0..rows {
        if i < txn.count(t) {
            let row = row_of(seed);
            txn.put(t, i, &row[..t.size()])?;
        }
        seed = seed.wrapping_add(1);
    }
    Ok(())
}

// Makes an edit.
fn edit_one<R: Rows>(txn: &mut Txn<'_, R>, edit: Edit) -> Result<(), Fail>
    ensures below { txn.new.rows.now ≡ txn.old.rows.now }
    ensures name { txn.new.rows.ghost_name ≡ txn.old.rows.ghost_name }
{
    match edit {
        Edit::Append(t, rows, seed) => append_rows(txn, t, rows, seed)?,
        Edit::Over(t, rows, seed) => put_rows(txn, t, rows, seed)?,
        Edit::Put(t, i, seed) if i < txn.count(t) => {
            let row = row_of(seed);
            txn.put(t, i, &row[..t.size()])?;
        }
        Edit::Shrink(t, n) if n <= txn.count(t) => txn.shrink(t, n),
        _ => {}
    }
    Ok(())
}

// Makes edits.
fn edit_all<R: Rows>(txn: &mut Txn<'_, R>, edits: &[Edit]) -> Result<(), Fail>
    ensures below { txn.new.rows.now ≡ txn.old.rows.now }
    ensures name { txn.new.rows.ghost_name ≡ txn.old.rows.ghost_name }
{
    for edit in edits {
        edit_one(txn, *edit)?;
    }
    Ok(())
}

/// Commits edits.
pub fn commit<R: Rows>(
    alloc: Global,
    rows: &mut R,
    edits: &[Edit],
) -> Result<Result<(), CommitFault>, Fail>
    requires live { R.is_live rows.old }
    ensures live { IfOk result (λ r. OnOk r (R.is_live rows.new)) }
{
    let mut txn = Txn::new(alloc, rows);
    edit_all(&mut txn, edits)?;
    let sealed = txn.seal()?;
    Ok(rows.commit(&sealed))
}

/// A store in memory after these commits.
pub fn model_of(alloc: Global, commits: &[&[Edit]]) -> Result<VecRows, Fail> {
    let mut rows = VecRows::new(alloc, 16)?;
    for edits in commits {
        commit(alloc, &mut rows, edits)??;
    }
    Ok(rows)
}

/// The bytes of a row, and zeros after them; zeros alone where there is none.
pub fn row_in<R: Rows>(rows: &mut R, t: Table, i: u64) -> Result<[u8; 116], DiskFailed>
    requires live { R.is_live rows.old }
    ensures live { R.is_live rows.new }
{
    let mut row = [0; 116];
    if i < rows.count(t) {
        rows.row(t, i, &mut row[..t.size()])?;
    }
    Ok(row)
}

/// Whether both stores have the same row of that number.
pub fn has_row_of<R: Rows>(
    rows: &mut R,
    model: &mut VecRows,
    t: Table,
    i: u64,
) -> Result<bool, DiskFailed>
    requires live { R.is_live rows.old }
    ensures live { R.is_live rows.new }
{
    let wanted = row_in(model, t, i)?;
    Ok(row_in(rows, t, i)? == wanted)
}

// Whether both stores have as many rows of the table, and the same, of which the first ones, at most so many,
// and the last are looked at.
fn has_table_of<R: Rows>(
    rows: &mut R,
    model: &mut VecRows,
    t: Table,
    most: u64,
) -> Result<bool, DiskFailed>
    requires live { R.is_live rows.old }
    ensures live { R.is_live rows.new }
{
    let count = model.count(t);
    for i in 0..count.min(most) {
        if !has_row_of(rows, model, t, i)? {
            return Ok(false);
        }
    }
    let has_last = has_row_of(rows, model, t, count.saturating_sub(1))?;
    Ok(has_last && rows.count(t) == count)
}

/// Whether both stores have the same rows, of each table of which the first ones, at most so many, and the
/// last are looked at.
pub fn has_rows_of<R: Rows>(
    rows: &mut R,
    model: &mut VecRows,
    most: u64,
) -> Result<bool, DiskFailed>
    requires live { R.is_live rows.old }
    ensures live { R.is_live rows.new }
{
    for t in Table::ALL {
        if !has_table_of(rows, model, t, most)? {
            return Ok(false);
        }
    }
    Ok(true)
}
