// A caller of any store, and that stores take its commits where memory is ample.
ghost use Rattle.std.specs.Prelude.{◌≡◌, ◌<◌, [], get_or, slice_set, OnOk, IsErrOf};
ghost use Rattle.el_outside.specs.Counts.{CountsOnly};
ghost use Rattle.el_rows.specs.Changes.{OnTable};
ghost use Rattle.el_rows.specs.Transaction.{WasRead};
ghost use Rattle.el_row_formats.specs.declared.table.Table.{Table};

use el_laws::VersionedRows;
use el_row_formats::Table;
use el_rows::{CommitFault, Rows, Txn};
use el_vec_rows::VecRows;
use std::alloc::Global;
use std::test::Fail;

// A caller of any store, proved from the trait alone: it writes one input over another, and commits.
fn copy_in<R: Rows>(alloc: Global, rows: &mut R, from: u64, to: u64) -> Result<(), CommitFault>
    requires live { R.is_live rows.old }
    requires from { from < R.counts rows.old Table.Ins }
    requires to { to < R.counts rows.old Table.Ins }
    ensures ok { R.tells → OnOk result (OnTable (R.lists rows.old) (R.lists rows.new) Table.Ins
        (slice_set (R.lists rows.old Table.Ins) to (get_or (R.lists rows.old Table.Ins) from []))) }
    ensures live { OnOk result (R.is_live rows.new) }
    ensures memory { IsErrOf result CommitFault.Memory
        → WasRead ⟦<R as Rows>⟧ rows.old rows.new }
    ensures cause { CountsOnly (R.faults rows.old) (R.faults rows.new) CommitFault.DiskFailed result }
{
    let mut txn = Txn::new(alloc, rows);
    let mut row = [0; 8];
    txn.get(Table::Ins, from, &mut row)?;
    txn.put(Table::Ins, to, &row)?;
    let sealed = txn.seal()?;
    rows.commit(&sealed)
}

// Appends three inputs.
fn append_ins<R: Rows>(txn: &mut Txn<'_, R>) -> Result<(), Fail>
    ensures below { txn.new.rows.now ≡ txn.old.rows.now }
    ensures name { txn.new.rows.ghost_name ≡ txn.old.rows.ghost_name }
{
    txn.append(Table::Ins, &[7, 0, 0, 0, 0, 0, 0, 0])?;
    txn.append(Table::Ins, &[8, 0, 0, 0, 0, 0, 0, 0])?;
    txn.append(Table::Ins, &[9, 0, 0, 0, 0, 0, 0, 0])?;
    Ok(())
}

// Three inputs, of which the first goes over the last.
fn ins<R: Rows>(alloc: Global, rows: &mut R) -> Result<Result<(), CommitFault>, Fail>
    requires live { R.is_live rows.old }
{
    let mut txn = Txn::new(alloc, rows);
    append_ins(&mut txn)?;
    let sealed = txn.seal()?;
    rows.commit(&sealed)?;
    if rows.count(Table::Ins) > 2 {
        return Ok(copy_in(alloc, rows, 0, 2));
    }
    Ok(Ok(()))
}

// Whether lists take the inputs.
fn lists_take_ins(alloc: Global) -> Result<bool, Fail> {
    let mut row = [0; 8];
    let mut plain = VecRows::new(alloc, 16)?;
    let is_taken = ins(alloc, &mut plain)? == Ok(());
    if plain.count(Table::Ins) == 3 {
        plain.row(Table::Ins, 2, &mut row)?;
    }
    Ok(is_taken && row == [7, 0, 0, 0, 0, 0, 0, 0])
}

// Whether a store that fails after so many commits answers this to the inputs, and has three.
fn has_ins(alloc: Global, good: u64, wanted: Result<(), CommitFault>) -> Result<bool, Fail> {
    let mut rows = VersionedRows::new(alloc, good)?;
    let is_answered = ins(alloc, &mut rows)? == wanted;
    Ok(is_answered && rows.count(Table::Ins) == 3)
}

#[test]
fn stores_take_commits(rt: HostRuntime) -> Result<(), Fail> {
    let alloc = rt.alloc();
    assert!(rt; lists_take_ins(alloc)?);
    assert!(rt; has_ins(alloc, 1, Err(CommitFault::DiskFailed))?);
    assert!(rt; has_ins(alloc, 2, Ok(()))?);
    Ok(())
}
