// What the tests of blocks that are put in share: blocks of a coinbase, and of a transaction that spends.
ghost use Rattle.std.specs.Prelude.{◌≡◌, ◌≤◌, ◌∷◌, [], length, IfOk};
ghost use Rattle.std.specs.List.{AllByRecursion};
ghost use Rattle.el_tx.specs.Encoding.{HasEncoding, max_money};
ghost use Rattle.el_gen.specs.Generated.{total_paid};
ghost use Rattle.el_block.specs.Blocks.{HasBlockEncoding};
ghost use Rattle.el_block.specs.declared.block.Block as shape;
ghost use Rattle.el_prepare.specs.Prepared.{prepared};

use el_base::Hash32;
use el_block::Block;
use el_chain::ConnectFault;
use el_connect::connect;
use el_gen::{block, block_bytes, coinbase, spend};
use el_outside::Place;
use el_prepare::{Prepared, prepare_one};
use el_rows::{Rows, Txn};
use el_tx::{Outpoint, Tx, txid};
use std::alloc::Global;
use std::test::Fail;

/// Where each block stands.
pub const PLACE: Place = Place {
    file: 7,
    offset: 8,
    len: 300,
};

// What is prepared of the block.
fn prepared_of(alloc: Global, block: &Block) -> Result<Prepared, Fail>
    requires { AllByRecursion HasEncoding block.now.txs }
    ensures { IfOk result (λ p. (b : shape.Block) × HasBlockEncoding b × (p ≡ prepared b)) }
{
    let bytes = block_bytes(alloc, block)?;
    match prepare_one(alloc, bytes.as_slice()) {
        Ok(p) => Ok(p),
        Err(_) => Err(Fail::new("the block wasn't prepared")),
    }
}

// How a block of these transactions is answered, which is put into the rows.
fn put<R: Rows>(
    alloc: Global,
    txn: &mut Txn<'_, R>,
    height: u32,
    txs: Vec<Tx>,
) -> Result<Result<(), ConnectFault>, Fail>
    requires live { R.is_live txn.old.rows.now }
    requires some { 1 ≤ length txs.items }
    requires encoded { AllByRecursion HasEncoding txs.items }
    requires early { height ≤ 4000000 }
    ensures { txn.new.rows.ghost_name ≡ txn.old.rows.ghost_name }
{
    let block = block(alloc, Hash32([0; 32]), height, 0, txs)?;
    let prepared = prepared_of(alloc, &block)?;
    Ok(connect(txn, &prepared, PLACE))
}

// The coinbase of that height, which pays the script of 101.
fn coinbase_block(alloc: Global, height: u32) -> Result<Vec<Tx>, Fail>
    ensures { IfOk result (λ v. (1 ≤ length v.items) × AllByRecursion HasEncoding v.items) }
{
    let mut txs = Vec::new(alloc);
    txs.push(coinbase(alloc, height, 0, 101)?)?;
    Ok(txs)
}

// A coinbase, and a transaction that spends these outpoints and pays these values to these scripts.
fn spending_block(
    alloc: Global,
    height: u32,
    from: &[Outpoint],
    to: &[(u64, u32)],
) -> Result<Vec<Tx>, Fail>
    requires inputs { 1 ≤ length from.now }
    requires outputs { 1 ≤ length to.now }
    requires money { total_paid to.now ≤ max_money }
    ensures { IfOk result (λ v. (1 ≤ length v.items) × AllByRecursion HasEncoding v.items) }
{
    let mut txs = coinbase_block(alloc, height)?;
    txs.push(spend(alloc, from, to)?)?;
    Ok(txs)
}

/// How a block of a coinbase alone is answered, which is put into the rows. The coinbase is that of another
/// height, where this is given.
pub fn put_coinbase<R: Rows>(
    alloc: Global,
    txn: &mut Txn<'_, R>,
    height: u32,
    made: u32,
) -> Result<Result<(), ConnectFault>, Fail>
    requires live { R.is_live txn.old.rows.now }
    requires early { height ≤ 4000000 }
    ensures { txn.new.rows.ghost_name ≡ txn.old.rows.ghost_name }
{
    let txs = coinbase_block(alloc, made)?;
    put(alloc, txn, height, txs)
}

/// How a block at height 1 is answered, whose second transaction spends these outpoints and pays these values
/// to these scripts.
pub fn put_spending<R: Rows>(
    alloc: Global,
    txn: &mut Txn<'_, R>,
    from: &[Outpoint],
    to: &[(u64, u32)],
) -> Result<Result<(), ConnectFault>, Fail>
    requires live { R.is_live txn.old.rows.now }
    requires inputs { 1 ≤ length from.now }
    requires outputs { 1 ≤ length to.now }
    requires money { total_paid to.now ≤ max_money }
    ensures { txn.new.rows.ghost_name ≡ txn.old.rows.ghost_name }
{
    let txs = spending_block(alloc, 1, from, to)?;
    put(alloc, txn, 1, txs)
}

/// The first output of the coinbase of that height.
pub fn coin_of(alloc: Global, height: u32) -> Result<Outpoint, Fail> {
    let tx = coinbase(alloc, height, 0, 101)?;
    Ok(Outpoint {
        txid: txid(alloc, &tx)?,
        index: 0,
    })
}
