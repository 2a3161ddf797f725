// Records of blocks that are made from a few numbers, each of which stands alone in a file, and moves that
// put them in. Hashes are as users see them; another program computed them from the rules.
ghost use Rattle.std.specs.Prelude.{◌≡◌, ◌≤◌, [], ◌∷◌, length, IfOk, IfSome, IsTrue};
ghost use Rattle.std.specs.List.{AllByRecursion};
ghost use Rattle.el_tx.specs.Encoding.{HasEncoding};
ghost use Rattle.el_tx.specs.Headers.{IsHeader};
ghost use Rattle.el_chain.specs.Chains.{tip, zero_hash};
ghost use Rattle.el_chain.specs.Headers.{AreLinked};
ghost use Rattle.el_chain.specs.Moves.{IsPlan, last_hash};
ghost use Rattle.el_chain.specs.Records.{IsNode};

use el_base::{Bytes, Hash32, Listed, sha256d};
use el_block::Block;
use el_chain::{Entry, MAX_BACK, MAX_FORWARD, Node, Placed, Plan};
use el_gen::{block, block_record, coinbase, spend};
use el_outside::Place;
use el_tx::{Header, Outpoint, Tx, block_hash, decode_header, encode_header};
use std::alloc::Global;
use std::test::Fail;

/// What a first block names as the one before.
pub const NO_HASH: Hash32 = Hash32([0; 32]);

/// The txids of the coinbases of heights 0 and 1.
pub const COINBASE_0: &str = "30ca4fa99682e9b4551e98f01ae96565af60464e9718d68b13f3c36fbb77cd2d";

pub const COINBASE_1: &str = "9022aeaee5870e7413d80a9d082d27872120356bbb4743c9949396bf32ef30a3";

/// The txid of the transaction that gives one half of the first coinbase's coin to the script of 101, and the
/// other to that of 100.
pub const HALVES: &str = "8faf866b892c0a89fdc6b0f69ba1861ad111d4a55c04d95354ae3e7e3163a38b";

/// The hashes of the first block, and of the block after it that has that transaction.
pub const BLOCK_0: &str = "e24fc0cd4b74e58d1bcfa1d15b2c35345824b4e3e6e3959659d662c2ce011688";

pub const BLOCK_1: &str = "21c2cc8ad7d5fd1444162274996ed89c1a8b604b78c096ef06c7b35c9cdff6cb";

/// The script hashes of the locking scripts of 1, 100 and 101.
pub const SCRIPT_1: &str = "e69df43f0af50cd375f43e0c88e5fa0bfaf1ebff5510ef2c45b66a0dca7f4a0e";

pub const SCRIPT_100: &str = "c2491fb4db5d640563334d5695cd0fae355b5f12c04ead37b5c3a9025f75acbb";

pub const SCRIPT_101: &str = "87db42382cbedc1754986e8d2b98ed07381d67e43bebb313f331acc40b7cecbb";

/// The output of that index of the transaction with that txid.
pub fn output_of(txid: &str, index: u32) -> Result<Outpoint, Fail> {
    let txid = Hash32::from_shown(txid)?;
    Ok(Outpoint { txid, index })
}

/// The entry of that height with that txid.
pub fn entry_of(height: u32, txid: &str) -> Result<Entry, Fail> {
    let txid = Hash32::from_shown(txid)?;
    Ok(Entry { height, txid })
}

/// The entries at these heights with these txids.
pub fn entries_of(alloc: Global, places: &[(u32, &str)]) -> Result<Vec<Entry>, Fail> {
    let mut entries = Vec::new(alloc);
    for (height, txid) in places {
        entries.push(entry_of(*height, *txid)?)?;
    }
    Ok(entries)
}

/// That output, spent into one output to the script of 1.
pub fn spent(alloc: Global, txid: &str, index: u32, value: u64) -> Result<Tx, Fail>
    requires { value ≤ 5000000000 }
    ensures { IfOk result HasEncoding }
{
    let from = output_of(txid, index)?;
    let tx = spend(alloc, [from].as_slice(), [(value, 1)].as_slice())?;
    Ok(tx)
}

/// The output of the first coinbase, spent into two halves.
pub fn halves(alloc: Global) -> Result<Tx, Fail>
    ensures { IfOk result HasEncoding }
{
    let from = output_of(COINBASE_0, 0)?;
    let to = [(2_500_000_000, 101), (2_500_000_000, 100)];
    let tx = spend(alloc, [from].as_slice(), to.as_slice())?;
    Ok(tx)
}

/// What a next block names as the one before.
pub fn tip_hash(blocks: &[Placed]) -> Hash32
    ensures { result ≡ tip blocks.now }
{
    match blocks {
        [] => NO_HASH,
        [.., last] => block_hash(&encode_header(&last.block.header)),
    }
}

/// Whether the block names the last of these as the one before.
pub fn names_tip(block: &Block, blocks: &[Placed]) -> bool
    ensures { IsTrue result → block.now.header.previous ≡ tip blocks.now }
{
    block.header.previous == tip_hash(blocks)
}

// The hash of the block of the last record.
fn last_of(records: &[Bytes]) -> Hash32 {
    match records.last() {
        Some(record) if record.len() >= 88 => sha256d(&record.as_slice()[8..88]),
        _ => NO_HASH,
    }
}

// The coinbase of that height, and one more transaction.
fn txs_of(alloc: Global, coinbase_of: u32, more: Option<Tx>) -> Result<Vec<Tx>, Fail>
    requires { IfSome more HasEncoding }
    ensures some { IfOk result (λ txs. 1 ≤ length txs.items) }
    ensures encoded { IfOk result (λ txs. AllByRecursion HasEncoding txs.items) }
{
    let mut txs = Vec::new(alloc);
    txs.push(coinbase(alloc, coinbase_of, 0, 101)?)?;
    if let Some(tx) = more {
        txs.push(tx)?;
    }
    Ok(txs)
}

// The record of a block of these transactions after the last.
fn next_record(alloc: Global, records: &[Bytes], txs: Vec<Tx>) -> Result<Bytes, Fail>
    requires some { 1 ≤ length txs.items }
    requires encoded { AllByRecursion HasEncoding txs.items }
{
    let height = records.len().min(100) as u32;
    let made = block(alloc, last_of(records), height, 0, txs)?;
    let record = block_record(alloc, [0xfa, 0xbf, 0xb5, 0xda], &made)?;
    Ok(record)
}

/// Adds the record of a block after the last: the coinbase of that height, and one more transaction.
pub fn add(
    alloc: Global,
    records: &mut Vec<Bytes>,
    coinbase_of: u32,
    more: Option<Tx>,
) -> Result<(), Fail>
    requires { IfSome more HasEncoding }
{
    let txs = txs_of(alloc, coinbase_of, more)?;
    let record = next_record(alloc, records.as_slice(), txs)?;
    records.push(record)?;
    Ok(())
}

/// How many bytes the block of a record has.
pub fn size_of(record: &[u8]) -> u32 {
    record.len().saturating_sub(8).min(4_000_000) as u32
}

/// The node of the block with this header, whose record stands there.
pub fn node_at(header: Header, place: Place) -> Node
    requires { IsHeader header }
    ensures { IsNode result }
{
    let hash = block_hash(&encode_header(&header));
    Node {
        hash,
        header,
        place,
    }
}

// The node of a record, which stands alone in a file.
fn node_of(record: &[u8], file: u32) -> Result<Node, Fail>
    ensures { IfOk result IsNode }
{
    if record.len() < 88 {
        return Err(Fail::new("a short record"));
    }
    let Some(front) = record[8..].first_chunk::<80>() else {
        return Err(Fail::new("a short record"));
    };
    let place = Place {
        file,
        offset: 0,
        len: size_of(record),
    };
    Ok(node_at(decode_header(front), place))
}

// The nodes of the records, of which the first stands in that file.
fn nodes_of(alloc: Global, records: &[Bytes], first: usize) -> Result<Vec<Node>, Fail>
    ensures { IfOk result (λ nodes. AllByRecursion IsNode nodes.items) }
{
    let mut nodes = Vec::new(alloc);
    let mut file = first.min(100) as u32;
    for record in records {
        nodes.push(node_of(record.as_slice(), file)?)?;
        file = file.saturating_add(1);
    }
    Ok(nodes)
}

// The hash of the last of the nodes, if they stand one after the other, the first after a block with that
// hash.
fn linked_to(before: Hash32, nodes: &[Node]) -> Option<Hash32>
    ensures { IfSome result (λ hash. AreLinked before nodes.now × (hash ≡ last_hash before nodes.now)) }
{
    let Some((node, rest)) = nodes.split_first() else {
        return Some(before);
    };
    if node.header.previous != before {
        return None;
    }
    linked_to(node.hash, rest)
}

/// The move that takes so many blocks back and puts in the blocks of the records from one number to before
/// another, after a block with that hash; and the hash of the last of them.
pub fn plan_of(
    alloc: Global,
    back: u32,
    records: &[Bytes],
    from: usize,
    to: usize,
    before: Hash32,
) -> Result<(Plan, Hash32), Fail>
    ensures plan { IfOk result (λ r. IsPlan r.0) }
    ensures back { IfOk result (λ r. r.0.back ≡ back) }
    ensures linked { IfOk result (λ r. AreLinked before r.0.forward) }
    ensures last { IfOk result (λ r. r.1 ≡ last_hash before r.0.forward) }
{
    let Some(some) = records.get(from..to) else {
        return Err(Fail::new("no such records"));
    };
    let nodes = nodes_of(alloc, some, from)?;
    let last = linked_to(before, nodes.as_slice());
    let forward = Listed::from_vec(nodes);
    match last {
        Some(hash) if back <= MAX_BACK && forward.len() <= MAX_FORWARD => {
            Ok((Plan { back, forward }, hash))
        }
        _ => Err(Fail::new("no plan")),
    }
}
