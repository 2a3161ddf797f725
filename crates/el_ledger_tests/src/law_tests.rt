// What no contract says: that each call succeeds where memory is ample.
ghost use Rattle.std.specs.Prelude.{◌≡◌, IfOk};
ghost use Rattle.el_block.specs.Blocks.{HasBlockEncoding};
ghost use Rattle.el_block.specs.declared.block.Block as shape;
ghost use Rattle.el_prepare.specs.Prepared.{prepared};

use el_base::{Hash32, Listed};
use el_connect::connect;
use el_fakes::MemArchive;
use el_gen::{block, block_bytes, coinbase};
use el_index::Index;
use el_laws::{
    connect_and_disconnect, disconnect_and_connect, moves_over_versions, rows_of_two_indexes,
};
use el_outside::{NoPace, Place};
use el_prepare::{Prepared, prepare_one};
use el_row_formats::Table;
use el_rows::{Rows, Txn};
use el_vec_rows::VecRows;
use std::alloc::Global;
use std::process::Abort;
use std::test::Fail;
use std::thread::Threads;

const PLACE: Place = Place {
    file: 0,
    offset: 0,
    len: 152,
};

// A first block of one transaction, prepared.
fn first_block(alloc: Global) -> Result<Prepared, Fail>
    ensures { IfOk result (λ p. (b : shape.Block) × HasBlockEncoding b × (p ≡ prepared b)) }
{
    let mut txs = Vec::new(alloc);
    txs.push(coinbase(alloc, 0, 0, 101)?)?;
    let block = block(alloc, Hash32([0; 32]), 0, 0, txs)?;
    let bytes = block_bytes(alloc, &block)?;
    match prepare_one(alloc, bytes.as_slice()) {
        Ok(p) => Ok(p),
        Err(_) => Err(Fail::new("the block wasn't prepared")),
    }
}

fn back_and_forth<A: Abort>(rt: &A, alloc: Global) -> Result<(), Fail> {
    let block = first_block(alloc)?;
    let mut rows = VecRows::new(alloc, 16)?;
    let mut txn = Txn::new(alloc, &mut rows);
    assert!(rt; connect_and_disconnect(&mut txn, &block, PLACE) == Ok(()));
    assert!(rt; txn.count(Table::TxHeads) == 65_536);
    assert!(rt; connect(&mut txn, &block, PLACE) == Ok(()));
    assert!(rt; disconnect_and_connect(&mut txn, &block, PLACE) == Ok(()));
    assert!(rt; txn.count(Table::Outs) == 1);
    Ok(())
}

#[test]
fn a_block_back_and_forth(rt: HostRuntime) -> Result<(), Fail> {
    back_and_forth(&rt, rt.alloc())
}

fn two_indexes<A: Abort>(rt: &A, alloc: Global) -> Result<(), Fail> {
    let Ok(one) = Index::over(alloc, VecRows::new(alloc, 16)?) else {
        return Err(Fail::new("no index"));
    };
    let Ok(other) = Index::over(alloc, VecRows::new(alloc, 16)?) else {
        return Err(Fail::new("no index"));
    };
    let (one, other) = rows_of_two_indexes(one, other);
    assert!(rt; one.count(Table::Txs) == other.count(Table::Txs));
    Ok(())
}

#[test]
fn indexes_of_no_blocks(rt: HostRuntime) -> Result<(), Fail> {
    two_indexes(&rt, rt.alloc())
}

fn no_moves<W: Abort + Threads + Sync>(rt: &W, alloc: Global) -> Result<(), Fail> {
    let mut archive = MemArchive::new(Vec::new(alloc), Vec::new(alloc));
    let mut sent = Listed::new(alloc);
    let plans = Vec::new(alloc);
    let (index, end) = moves_over_versions(
        rt,
        alloc,
        1,
        plans.as_slice(),
        &mut archive,
        &mut sent,
        &NoPace,
    )?;
    assert!(rt; end == Ok(()));
    assert!(rt; sent.is_empty());
    assert!(rt; index.into_rows().count(Table::Blocks) == 0);
    Ok(())
}

#[test]
fn moves_from_no_blocks(rt: HostRuntime) -> Result<(), Fail> {
    no_moves(&rt, rt.alloc())
}
