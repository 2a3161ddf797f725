// That edits and commits succeed where memory is ample: a long run of edits beside plain lists, of a store in
// memory and of one over files.
ghost use Rattle.std.specs.Prelude.{◌≡◌, OnOk};

use crate::disks::fresh;
use el_outside::DiskFailed;
use el_row_formats::{TABLES, Table};
use el_rows::{Rows, Txn};
use el_vec_rows::VecRows;
use std::alloc::Global;
use std::test::Fail;

type Plain = [Vec<Vec<u8>>; TABLES];

// No rows.
fn no_rows(alloc: Global) -> Plain {
    [
        Vec::new(alloc),
        Vec::new(alloc),
        Vec::new(alloc),
        Vec::new(alloc),
        Vec::new(alloc),
        Vec::new(alloc),
        Vec::new(alloc),
        Vec::new(alloc),
    ]
}

// One edit, which the seed tells, of the transaction and of plain lists.
fn edit_one<R: Rows>(
    alloc: Global,
    txn: &mut Txn<'_, R>,
    plain: &mut Plain,
    seed: u64,
) -> Result<(), Fail>
    ensures below { txn.new.rows.now ≡ txn.old.rows.now }
    ensures name { txn.new.rows.ghost_name ≡ txn.old.rows.ghost_name }
{
    let n = (seed % 8) as usize;
    let t = Table::ALL[n];
    let count = txn.count(t);
    let bytes = [(seed % 251) as u8; 116];
    let row = &bytes[..t.size()];
    match seed / 8 % 8 {
        0 => {
            let kept = seed / 64 % (count + 1);
            txn.shrink(t, kept);
            plain[n].truncate(kept as usize);
        }
        1 | 2 if count > 0 => {
            let i = seed / 64 % count;
            txn.put(t, i, row)?;
            if let Some(slot) = plain[n].get_mut(i as usize) {
                *slot = Vec::from_slice(alloc, row)?;
            }
        }
        _ => {
            txn.append(t, row)?;
            plain[n].push(Vec::from_slice(alloc, row)?)?;
        }
    }
    Ok(())
}

// Whether the transaction shows this row.
fn shows<R: Rows>(txn: &mut Txn<'_, R>, t: Table, i: u64, wanted: &[u8]) -> Result<bool, DiskFailed>
    requires live { R.is_live txn.old.rows.now }
    ensures live { R.is_live txn.new.rows.now }
    ensures name { txn.new.rows.ghost_name ≡ txn.old.rows.ghost_name }
{
    let mut row = [0; 116];
    let row = &mut row[..t.size()];
    if i < txn.count(t) {
        txn.get(t, i, row)?;
    }
    Ok(wanted == &*row)
}

// Whether the transaction shows these rows of the table and no others.
fn shows_table<R: Rows>(
    txn: &mut Txn<'_, R>,
    t: Table,
    rows: &[Vec<u8>],
) -> Result<bool, DiskFailed>
    requires live { R.is_live txn.old.rows.now }
    ensures live { R.is_live txn.new.rows.now }
    ensures name { txn.new.rows.ghost_name ≡ txn.old.rows.ghost_name }
{
    let has_count = txn.count(t) == rows.len() as u64;
    for (i, row) in rows.iter().enumerate() {
        if !shows(txn, t, i as u64, row.as_slice())? {
            return Ok(false);
        }
    }
    Ok(has_count)
}

// Whether the transaction shows these rows and no others.
fn shows_all<R: Rows>(txn: &mut Txn<'_, R>, plain: &Plain) -> Result<bool, DiskFailed>
    requires live { R.is_live txn.old.rows.now }
    ensures live { R.is_live txn.new.rows.now }
    ensures name { txn.new.rows.ghost_name ≡ txn.old.rows.ghost_name }
{
    for (t, rows) in Table::ALL.iter().zip(plain.iter()) {
        if !shows_table(txn, *t, rows.as_slice())? {
            return Ok(false);
        }
    }
    Ok(true)
}

// Fifty edits of one transaction, which a seed tells.
fn edit_all<R: Rows>(
    alloc: Global,
    txn: &mut Txn<'_, R>,
    plain: &mut Plain,
    seed: &mut u64,
) -> Result<(), Fail>
    ensures below { txn.new.rows.now ≡ txn.old.rows.now }
    ensures name { txn.new.rows.ghost_name ≡ txn.old.rows.ghost_name }
{
    for _ in 0..50 {
        *seed ^= *seed << 13;
        *seed ^= *seed >> 7;
        *seed ^= *seed << 17;
        edit_one(alloc, txn, plain, *seed)?;
    }
    Ok(())
}

// Whether edits are those of lists, before they are committed and after it.
fn one_round<R: Rows>(
    alloc: Global,
    rows: &mut R,
    plain: &mut Plain,
    seed: &mut u64,
) -> Result<bool, Fail>
    requires live { R.is_live rows.old }
    ensures live { OnOk result (R.is_live rows.new) }
{
    let mut txn = Txn::new(alloc, rows);
    edit_all(alloc, &mut txn, plain, seed)?;
    let is_shown = shows_all(&mut txn, plain)?;
    let sealed = txn.seal()?;
    rows.commit(&sealed)?;
    let mut after = Txn::new(alloc, rows);
    Ok(shows_all(&mut after, plain)? && is_shown)
}

// Leaves no heads.
fn drop_heads<R: Rows>(alloc: Global, rows: &mut R) -> Result<(), Fail>
    requires live { R.is_live rows.old }
    ensures live { OnOk result (R.is_live rows.new) }
{
    let mut txn = Txn::new(alloc, rows);
    txn.shrink(Table::TxHeads, 0);
    txn.shrink(Table::ScriptHeads, 0);
    let sealed = txn.seal()?;
    rows.commit(&sealed)?;
    Ok(())
}

// Whether they are in some rounds, from no rows on.
fn edits_are_those_of_lists<R: Rows>(alloc: Global, rows: &mut R, rounds: u64) -> Result<bool, Fail>
    requires live { R.is_live rows.old }
{
    drop_heads(alloc, rows)?;
    let mut plain = no_rows(alloc);
    let mut seed = 88_172_645_463_325_252;
    for _ in 0..rounds {
        if !one_round(alloc, rows, &mut plain, &mut seed)? {
            return Ok(false);
        }
    }
    Ok(true)
}

#[test]
fn edits_in_memory(rt: HostRuntime) -> Result<(), Fail> {
    let mut rows = VecRows::new(rt.alloc(), 16)?;
    assert!(rt; edits_are_those_of_lists(rt.alloc(), &mut rows, 4)?);
    Ok(())
}

#[test]
fn edits_of_files(rt: HostRuntime) -> Result<(), Fail> {
    let mut rows = fresh(rt.alloc())?;
    assert!(rt; edits_are_those_of_lists(rt.alloc(), &mut rows, 40)?);
    Ok(())
}
