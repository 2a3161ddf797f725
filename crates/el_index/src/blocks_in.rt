// Blocks are put after the last.
ghost use Rattle.std.specs.Prelude.{◌≡◌, ◌≢◌, ◌⊎◌, ◌<◌, ◌+◌, ◌++◌, ◌∷◌, ℕ, List, [], length, drop, None, IfOk, IfErr, OnOk};
ghost use Rattle.std.specs.List.{AllByRecursion};
ghost use Rattle.el_block.specs.Blocks.{EncodesBlock, HasBlockEncoding};
ghost use Rattle.el_block.specs.declared.block.Block as shape;
ghost use Rattle.el_chain.specs.declared.placed.Placed as placed_shape;
ghost use Rattle.el_chain.specs.Chains.{Chain, tip};
ghost use Rattle.el_chain.specs.Faults.{fault};
ghost use Rattle.el_chain.specs.Headers.{AreLinked};
ghost use Rattle.el_chain.specs.Moves.{AreOf, AreNextBlocks, FaultInAt, IsStop};
ghost use Rattle.el_chain.specs.Records.{IsNode, IsBlockOf};
ghost use Rattle.el_prepare.specs.Prepared as spec;
ghost use Rattle.el_prepare.specs.Batches.{IsPrepared, ArePrepared};
ghost use Rattle.el_rows.specs.Transaction.{with_edits, EditsRows};
ghost use Rattle.el_row_formats.specs.declared.table.Table.{Table};
ghost use Rattle.el_schema.specs.Standing.{StandWith, StandFor};
ghost use Rattle.el_index.specs.Means.{AreRowsOf};
ghost use Rattle.el_index.specs.within.Adding.{IsAfter, AreAfter, IsAdding, IsOwn};

use el_base::{Bytes, Hash32, OutOfMemory};
use el_block::BlockFault;
use el_chain::{ConnectFault, MoveFault, Node};
use el_connect::connect;
use el_outside::{Pace, Place};
use el_prepare::{Prepared, prepare_batch};
use el_rows::{Rows, Txn};
use std::alloc::Global;
use std::thread::Threads;

// The fault of a block of that hash that isn't read.
fn bad(hash: Hash32, fault: BlockFault) -> MoveFault
    ensures memory { fault ≡ BlockFault.Memory → result ≡ MoveFault.Memory }
    ensures kept { (fault ≡ BlockFault.Memory) ⊎ (result ≡ MoveFault.BadBlock hash fault) }
    ensures no_device { (result ≢ MoveFault.DiskFailed) × (result ≢ MoveFault.ArchiveFailed) }
{
    match fault {
        BlockFault::Memory => MoveFault::Memory,
        _ => MoveFault::BadBlock { hash, fault },
    }
}

// The fault of a block of that hash that isn't connected.
fn refused(hash: Hash32, fault: ConnectFault) -> MoveFault
    ensures device { fault ≡ ConnectFault.DiskFailed → result ≡ MoveFault.DiskFailed }
    ensures only { result ≡ MoveFault.DiskFailed → fault ≡ ConnectFault.DiskFailed }
    ensures kept { IsOwn result ⊎ (result ≡ MoveFault.Refused hash fault) }
    ensures of { fault ≢ ConnectFault.DiskFailed → fault ≢ ConnectFault.Memory
        → result ≡ MoveFault.Refused hash fault }
    ensures memory { fault ≡ ConnectFault.Memory → result ≡ MoveFault.Memory }
    ensures no_archive { result ≢ MoveFault.ArchiveFailed }
{
    match fault {
        ConnectFault::DiskFailed => MoveFault::DiskFailed,
        ConnectFault::Memory => MoveFault::Memory,
        _ => MoveFault::Refused { hash, fault },
    }
}

// Connects the block of that hash after the last.
fn connect_for<R: Rows>(
    t: &mut Txn<'_, R>,
    hash: Hash32,
    place: Place,
    prepared: &Prepared,
) -> Result<(), MoveFault>
    requires live { R.is_live t.old.rows.now }
    requires prepared { (block : shape.Block) × HasBlockEncoding block
        × (prepared.now ≡ spec.prepared block) }
    ensures connected { (heads : ℕ) (chain : Chain) (block : shape.Block) → R.tells
        → StandWith heads (with_edits t.old) chain → HasBlockEncoding block
        → prepared.now ≡ spec.prepared block → block.header.previous ≡ tip chain
        → OnOk result ((fault chain block ≡ None) × StandWith heads (with_edits t.new)
        (chain ++ record { block = block; place = place } ∷ [])) }
    ensures more { OnOk result (length (with_edits t.new Table.Blocks)
        ≡ length (with_edits t.old Table.Blocks) + 1) }
    ensures first_fault { (chain : Chain) (block : shape.Block) (text : List ℕ) → R.tells
        → StandFor (with_edits t.old) chain → EncodesBlock text block → prepared.now ≡ spec.prepared block
        → block.header.previous ≡ tip chain
        → IfErr result (λ e. IsOwn e ⊎ IsStop chain hash text e) }
    ensures edits { EditsRows MoveFault.DiskFailed t.old t.new result }
    ensures no_archive { IfErr result (λ e. e ≢ MoveFault.ArchiveFailed) }
{
    match connect(t, prepared, place) {
        Ok(()) => Ok(()),
        Err(fault) => Err(refused(hash, fault)),
    }
}

// Puts the block of the node, which is prepared, after the last.
fn put_one<R: Rows>(
    t: &mut Txn<'_, R>,
    node: &Node,
    text: &[u8],
    prepared: &Prepared,
) -> Result<(), MoveFault>
    requires live { R.is_live t.old.rows.now }
    requires node { IsNode node.now }
    requires of { IsBlockOf node.now text.now }
    requires prepared { IsPrepared text.now prepared.now }
    ensures added { (heads : ℕ) (chain : Chain) → R.tells → AreRowsOf heads (with_edits t.old) chain
        → node.now.header.previous ≡ tip chain → OnOk result ((b : placed_shape.Placed)
        × IsAfter heads chain node.now text.now (with_edits t.new) b) }
    ensures more { OnOk result (length (with_edits t.new Table.Blocks)
        ≡ length (with_edits t.old Table.Blocks) + 1) }
    ensures first_fault { (heads : ℕ) (chain : Chain) → R.tells → AreRowsOf heads (with_edits t.old) chain
        → node.now.header.previous ≡ tip chain
        → IfErr result (λ e. IsOwn e ⊎ IsStop chain node.now.hash text.now e) }
    ensures edits { EditsRows MoveFault.DiskFailed t.old t.new result }
    ensures no_archive { IfErr result (λ e. e ≢ MoveFault.ArchiveFailed) }
{
    connect_for(t, node.hash, node.place, prepared)?;
    Ok(())
}

// Puts prepared blocks after the last, one after the other; so many of the move's stand there before them.
fn put_all<R: Rows>(
    t: &mut Txn<'_, R>,
    nodes: &[Node],
    texts: &[Bytes],
    from: usize,
    blocks: &[Prepared],
) -> Result<(), MoveFault>
    requires live { R.is_live t.old.rows.now }
    requires nodes { AllByRecursion IsNode nodes.now }
    requires of { AreOf nodes.now texts.now }
    requires prepared { (passed rest : List (List ℕ)) × (drop from texts.now ≡ passed ++ rest)
        × ArePrepared passed blocks.now None }
    ensures added { (heads : ℕ) (chain blocks_before : Chain) → R.tells
        → IsAdding heads chain nodes.now texts.now from (with_edits t.old) blocks_before
        → OnOk result ((all : Chain)
        × IsAdding heads chain nodes.now texts.now (from + length blocks.now) (with_edits t.new) all) }
    ensures more { OnOk result (length (with_edits t.new Table.Blocks)
        ≡ length (with_edits t.old Table.Blocks) + length blocks.now) }
    ensures first_fault { (heads : ℕ) (chain blocks_before : Chain) → R.tells
        → IsAdding heads chain nodes.now texts.now from (with_edits t.old) blocks_before
        → IfErr result (λ e. IsOwn e ⊎ FaultInAt chain nodes.now texts.now e) }
    ensures edits { EditsRows MoveFault.DiskFailed t.old t.new result }
    ensures no_archive { IfErr result (λ e. e ≢ MoveFault.ArchiveFailed) }
{
    for (index, prepared) in blocks.iter().enumerate() {
        let at = from + index;
        put_one(t, &nodes[at], texts[at].as_slice(), prepared)?;
    }
    Ok(())
}

// What was prepared of a batch, or that no memory was found for it.
type Batch = Result<(Vec<Prepared>, Option<BlockFault>), OutOfMemory>;

// Puts the blocks of a batch after the last, up to the first bad one.
fn put_batch<R: Rows>(
    t: &mut Txn<'_, R>,
    nodes: &[Node],
    texts: &[Bytes],
    from: usize,
    batch: &[Bytes],
    ready: &Batch,
) -> Result<(), MoveFault>
    requires live { R.is_live t.old.rows.now }
    requires nodes { AllByRecursion IsNode nodes.now }
    requires of { AreOf nodes.now texts.now }
    requires batch { (rest : List (List ℕ)) × (drop from texts.now ≡ batch.now ++ rest) }
    requires ready { IfOk ready.now (λ r. ArePrepared batch.now r.0.items r.1) }
    ensures added { (heads : ℕ) (chain blocks_before : Chain) → R.tells
        → IsAdding heads chain nodes.now texts.now from (with_edits t.old) blocks_before
        → OnOk result ((all : Chain)
        × IsAdding heads chain nodes.now texts.now (from + length batch.now) (with_edits t.new) all) }
    ensures more { OnOk result (length (with_edits t.new Table.Blocks)
        ≡ length (with_edits t.old Table.Blocks) + length batch.now) }
    ensures first_fault { (heads : ℕ) (chain blocks_before : Chain) → R.tells
        → IsAdding heads chain nodes.now texts.now from (with_edits t.old) blocks_before
        → IfErr result (λ e. IsOwn e ⊎ FaultInAt chain nodes.now texts.now e) }
    ensures edits { EditsRows MoveFault.DiskFailed t.old t.new result }
    ensures no_archive { IfErr result (λ e. e ≢ MoveFault.ArchiveFailed) }
{
    match ready {
        Ok((blocks, fault)) => {
            put_all(t, nodes, texts, from, blocks.as_slice())?;
            match fault {
                None => Ok(()),
                Some(fault) => Err(bad(nodes[from + blocks.len()].hash, *fault)),
            }
        }
        Err(_) => Err(MoveFault::Memory),
    }
}

// How many blocks are prepared at once.
const BATCH: usize = 4;

// The next batch, and what is left after it.
fn next_batch(texts: &[Bytes]) -> (&[Bytes], &[Bytes])
    ensures cut { texts.now ≡ result.0.now ++ result.1.now }
    ensures some { 0 < length texts.now → length result.1.now < length texts.now }
{
    texts.split_at(texts.len().min(BATCH))
}

// Puts the blocks of the nodes after the last, batch after batch, each of which is prepared before it is put
// in.
pub(crate) fn add_all<W: Threads + Sync, R: Rows, P: Pace + Sync>(
    rt: &W,
    alloc: Global,
    t: &mut Txn<'_, R>,
    nodes: &[Node],
    texts: &[Bytes],
    pace: &P,
) -> Result<(), MoveFault>
    requires live { R.is_live t.old.rows.now }
    requires nodes { AllByRecursion IsNode nodes.now }
    requires of { AreOf nodes.now texts.now }
    ensures added { (heads : ℕ) (chain : Chain) → R.tells → AreRowsOf heads (with_edits t.old) chain
        → AreLinked (tip chain) nodes.now → OnOk result ((blocks : Chain)
        × AreAfter heads chain nodes.now texts.now (with_edits t.new) blocks) }
    ensures more { OnOk result (length (with_edits t.new Table.Blocks)
        ≡ length (with_edits t.old Table.Blocks) + length nodes.now) }
    ensures first_fault { (heads : ℕ) (chain : Chain) → R.tells → AreRowsOf heads (with_edits t.old) chain
        → AreLinked (tip chain) nodes.now
        → IfErr result (λ e. IsOwn e ⊎ FaultInAt chain nodes.now texts.now e) }
    ensures edits { EditsRows MoveFault.DiskFailed t.old t.new result }
    ensures no_archive { IfErr result (λ e. e ≢ MoveFault.ArchiveFailed) }
{
    let mut left = texts;
    while !left.is_empty() {
        let from = texts.len() - left.len();
        let (batch, after) = next_batch(left);
        let ready = prepare_batch(rt, alloc, batch, pace);
        put_batch(t, nodes, texts, from, batch, &ready)?;
        left = after;
    }
    Ok(())
}
