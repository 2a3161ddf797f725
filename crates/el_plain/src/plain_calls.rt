// The plain ledger as a ledger.
ghost use Rattle.std.specs.Prelude.{◌≡◌, ◌≤◌, ◌<◌, ◌^◌, ℕ, List, [], Option, None, Some, IfOk, MatchOption, length, map, take};
ghost use Rattle.el_base.specs.declared.hash.Hash32 as shape;
ghost use Rattle.el_chain.specs.declared.placed.Placed as placed_shape;
ghost use Rattle.el_block.specs.Blocks as block;
ghost use Rattle.el_chain.specs.Chains.{Chain};
ghost use Rattle.el_chain.specs.Faults.{IsGood};
ghost use Rattle.el_plain.specs.Plain.{IsPlain, plain_height, plain_tip, plain_good};
ghost use Rattle.el_model.specs.Queries as asked;

use crate::finding::find_tx_in;
use crate::own_coins::unspent_of;
use crate::plain_ledger::{PlainLedger, tip_in, top_of};
use crate::spending::spender_of;
use crate::txid::txid_of;
use el_base::{Hash32, OutOfMemory};
use el_chain::{Coin, Entry, MoveFault, Moved, Placed, Plan, Spot};
use el_model::{Ledger, QueryFault};
use el_outside::{Archive, DiskFailed, Pace, Place};
use el_tx::{Outpoint, Tx, block_hash, encode_header};
use std::alloc::Global;
use std::thread::Threads;

// The header of the block at that height.
fn header_in(blocks: &[Placed], h: u32) -> [u8; 80]
    requires { h < length blocks.now }
    ensures { asked.header_at blocks.now h ≡ Some result }
{
    encode_header(&blocks[h as usize].block.header)
}

// Where the block at that height stands.
fn place_in(blocks: &[Placed], h: u32) -> Place
    requires { h < length blocks.now }
    ensures { asked.place_at blocks.now h ≡ Some result }
{
    blocks[h as usize].place
}

// The hashes of the blocks.
fn hashes_of(alloc: Global, blocks: &[Placed]) -> Result<Vec<Hash32>, OutOfMemory>
    ensures hashes { IfOk result (λ found. found.items
        ≡ map (λ (b : placed_shape.Placed). block.block_hash b.block.header) blocks.now) }
    ensures len { IfOk result (λ found. length found.items ≡ length blocks.now) }
{
    let mut found = Vec::new(alloc);
    for placed in blocks {
        found.push(block_hash(&encode_header(&placed.block.header)))?;
    }
    Ok(found)
}

// The txids of the transactions.
fn txids_of(alloc: Global, txs: &[Tx]) -> Result<Vec<Hash32>, OutOfMemory>
    ensures { IfOk result (λ found. found.items ≡ block.txids txs.now) }
{
    let mut found = Vec::new(alloc);
    for tx in txs {
        found.push(txid_of(tx))?;
    }
    Ok(found)
}

impl Ledger for PlainLedger {
    ghost stands = { λ l chain. IsPlain l chain };

    ghost is_live = { λ l. Unit {0} };

    ghost height = { λ l. asked.height_of l };

    ghost tip = { λ l. asked.tip_of l };

    ghost buckets = { λ l. 1 };

    ghost faults = { λ l. 0 };

    ghost reads = { λ l. 0 };

    ghost tells_crash = { ⊥ };

    ghost Left = { Unit {0} };

    ghost means = { λ left chain. ⊥ };

    ghost moment = { λ l. 0 };

    ghost left_since = { λ l since left. ⊥ };

    ghost beside = { λ l f. [] };

    ghost height_is = { plain_height };

    ghost tip_is = { plain_tip };

    ghost good = { plain_good };

    ghost earlier = { λ l t u left le since. since };

    ghost leaves_own = { λ l chain left told live stands since. absurd told };

    fn height(&self) -> Option<u32> {
        top_of(self.blocks())
    }

    fn tip(&self) -> Option<Hash32> {
        tip_in(self.chain())
    }

    fn header(&mut self, h: u32) -> Result<[u8; 80], DiskFailed> {
        Ok(header_in(self.blocks(), h))
    }

    fn place(&mut self, h: u32) -> Result<Place, DiskFailed> {
        Ok(place_in(self.blocks(), h))
    }

    fn hashes(&mut self, alloc: Global, upto: u32) -> Result<Vec<Hash32>, QueryFault> {
        let blocks = self.blocks();
        let found = hashes_of(alloc, &blocks[..upto as usize + 1])?;
        Ok(found)
    }

    fn history(&mut self, _alloc: Global, script_hash: &Hash32) -> Result<Vec<Entry>, QueryFault> {
        let found = self.chain().history(script_hash)?;
        Ok(found)
    }

    fn unspent(&mut self, alloc: Global, script_hash: &Hash32) -> Result<Vec<Coin>, QueryFault> {
        let found = unspent_of(alloc, self.blocks(), script_hash)?;
        Ok(found)
    }

    fn balance(&mut self, script_hash: &Hash32) -> Result<u64, DiskFailed> {
        Ok(self.chain().balance(script_hash))
    }

    fn find_tx(&mut self, txid: &Hash32) -> Result<Option<Spot>, DiskFailed> {
        Ok(find_tx_in(self.blocks(), txid))
    }

    fn block_txids(&mut self, alloc: Global, h: u32) -> Result<Vec<Hash32>, QueryFault> {
        let blocks = self.blocks();
        let found = txids_of(alloc, blocks[h as usize].block.txs.as_slice())?;
        Ok(found)
    }

    fn coin(&mut self, o: &Outpoint) -> Result<Option<Coin>, DiskFailed> {
        Ok(self.chain().coin(o))
    }

    fn spender(&mut self, o: &Outpoint) -> Result<Option<Entry>, DiskFailed> {
        Ok(spender_of(self.blocks(), o))
    }

    fn go<W: Threads + Sync, A: Archive>(
        &mut self,
        _rt: &W,
        alloc: Global,
        plan: &Plan,
        archive: &mut A,
        _pace: &(dyn Pace + Sync),
    ) -> Result<Moved, MoveFault> {
        // What is kept is good, before the move and after it.
        let _kept = self.blocks();
        let result = self.make_move(alloc, plan, archive);
        let _now = self.blocks();
        result
    }
}
