// The plain ledger.
ghost use Rattle.std.specs.Prelude.{◌≡◌, ◌≢◌, ◌⊎◌, List, ℕ, [], ◌∷◌, ◌++◌, None, Some, IfOk, IfErr, OnOk, OnErr, MatchOption, Ok, Err, ◌≤◌, ◌<◌, ◌^◌, ◌-◌, length, drop};
ghost use Rattle.el_block.specs.Blocks.{HasBlockEncoding};
ghost use Rattle.el_chain.specs.Chains.{tip};
ghost use Rattle.std.specs.List.{AllByRecursion};
ghost use Rattle.el_chain.specs.Chains.{Chain};
ghost use Rattle.el_chain.specs.Faults.{fault, IsGood};
ghost use Rattle.el_chain.specs.Headers.{AreLinked};
ghost use Rattle.el_chain.specs.Coins.{coins, is_coin_of, supply};
ghost use Rattle.el_chain.specs.declared.coin.Coin as coin_shape;
ghost use Rattle.std.specs.Prelude.{find, filter};
ghost use Rattle.std.specs.Str.{bytes_eq};
ghost use Rattle.el_chain.specs.Touches.{Touch};
ghost use Rattle.el_chain.specs.Moves.{AreOf, AreNextBlocks, FaultInAt, shorter};
ghost use Rattle.el_chain.specs.Records.{IsNode};
ghost use Rattle.el_chain.specs.History.{history};

use crate::history::history_of;
use crate::moving::move_all;
use el_base::{Bytes, Hash32, OutOfMemory};
use el_block::Block;
use el_chain::{Coin, ConnectFault, Entry, MoveFault, Node, Placed, Touched};
use el_coins::{CoinTable, Tally, add_block, balance_of, coin_of};
use el_outside::Place;
use el_tx::{Outpoint, block_hash, encode_header};
use indexmap::IndexMap;
use std::alloc::Global;
use std::marker::Model;

/// A good chain of blocks, the genesis block first, which contracts see as the list of its blocks with their
/// places. It keeps whole blocks, the coins after them, and how many transactions, outputs and inputs they
/// have. Each history is computed anew over all blocks. So are the numbers of script hashes and of entries,
/// but only where outputs and inputs together are more than the rows that a table of the index may have. It
/// has at most 4,294,967,295 blocks.
#[derive(Debug, Drop)]
pub struct PlainChain {
    blocks: Vec<Placed>,
    coins: CoinTable,
    tally: Tally,
}

impl Model for PlainChain {
    ghost use Rattle.std.specs.Prelude.{List};
    ghost use Rattle.el_chain.specs.declared.placed.Placed.{Placed};
    ghost use Rattle.el_coins.specs.CoinLayers.{IsPlainChain};

    ghost Value = { List Placed };

    ghost view = { λ l. l.blocks.items };

    ghost invariant = { λ l. IsPlainChain l.blocks.items l.coins l.tally };
}

impl PlainChain {
    /// A chain of no blocks. Takes no memory.
    pub fn new(alloc: Global) -> PlainChain
        ensures { result ≡ [] }
    {
        PlainChain {
            blocks: Vec::new(alloc),
            coins: CoinTable {
                map: IndexMap::new(alloc),
                supply: 0,
            },
            tally: Tally {
                txs: 0,
                outputs: 0,
                inputs: 0,
            },
        }
    }

    /// The hash of the last block, in inner order: the SHA-256 of the SHA-256 of the 80 bytes of its header.
    /// None exactly for no blocks. Takes no memory.
    pub fn tip(&self) -> Option<Hash32>
        ensures last { MatchOption result (self.now ≡ []) (λ hash. (hash ≡ tip self.now)) }
        ensures none { self.now ≡ [] → result ≡ None }
    {
        match self.blocks.as_slice() {
            [] => None,
            [.., last] => Some(block_hash(&encode_header(&last.block.header))),
        }
    }

    /// Adds a block after the last, with its place. Its header has to name the tip, or on no blocks the hash
    /// of 32 zero bytes.
    ///
    /// # Errors
    ///
    /// The first fault of the block's first transaction that has one: `ConnectFault::MissingCoin`,
    /// `ConnectFault::Money`, or `ConnectFault::Full`. Else `ConnectFault::Memory` where memory runs out. A
    /// refused block changes nothing.
    pub fn extend(&mut self, block: Block, place: Place) -> Result<(), ConnectFault>
        requires encoded { HasBlockEncoding block }
        requires after { block.header.previous ≡ tip self.old }
        ensures ok { OnOk result (self.new ≡ self.old ++ record { block = block; place = place } ∷ []) }
        ensures err { OnErr result (self.new ≡ self.old) }
        // A block that is added has no fault.
        ensures faultless { OnOk result (fault self.old block ≡ None) }
        // A fault is the first one.
        ensures fault { IfErr result (λ e. (e ≡ ConnectFault.Memory) ⊎ (fault self.old block ≡ Some e)) }
    {
        add_block(
            *self.blocks.allocator(),
            &mut self.blocks,
            &mut self.coins,
            &mut self.tally,
            Placed { block, place },
        )
    }

    /// The history of a script hash (`blockchain.scripthash.get_history` of Electrum Protocol 1.4, of
    /// transactions in blocks): the transactions that fund or spend it, each once, in chain order. A script
    /// hash is the SHA-256 of a whole locking script, here in inner order; clients write the reverse. Fails
    /// only where memory runs out.
    pub fn history(&self, script_hash: &Hash32) -> Result<Vec<Entry>, OutOfMemory>
        ensures { IfOk result (λ found. found.items ≡ history self.now script_hash.now.0) }
    {
        history_of(
            *self.blocks.allocator(),
            self.blocks.as_slice(),
            script_hash,
        )
    }

    /// The coin of an outpoint; None exactly where the chain's coins lack it. Takes no memory.
    pub fn coin(&self, outpoint: &Outpoint) -> Option<Coin>
        ensures { result ≡ find (is_coin_of outpoint.now) (coins self.now) }
    {
        coin_of(&self.coins, outpoint)
    }

    /// What the coins of a script hash hold together, in satoshi. Takes no memory.
    pub fn balance(&self, script_hash: &Hash32) -> u64
        ensures { result ≡ supply (filter (λ (c : coin_shape.Coin). bytes_eq c.script.0 script_hash.now.0)
            (coins self.now)) }
    {
        balance_of(&self.coins, script_hash)
    }

    /// What is kept, the blocks with their places.
    pub fn blocks(&self) -> &[Placed]
        ensures blocks { result.now ≡ self.now }
        ensures good { IsGood self.now }
        ensures few { length self.now < 2 ^ 32 }
    {
        self.blocks.as_slice()
    }

    /// Takes the last `back` blocks back and puts the blocks of the nodes in their place, which these bytes
    /// encode, all of it or nothing. Gives the script hashes that all of these blocks touch.
    ///
    /// # Errors
    ///
    /// `MoveFault::BadBlock` or `MoveFault::Refused` for the first block of the nodes in their order that has
    /// a fault after the blocks that stay, or `MoveFault::Memory` where memory runs out. Then nothing has
    /// changed.
    pub fn move_all(
        &mut self,
        back: u32,
        nodes: &[Node],
        texts: &[Bytes],
    ) -> Result<Touched, MoveFault>
        requires within { back ≤ length self.old }
        requires nodes { AllByRecursion IsNode nodes.now }
        requires of { AreOf nodes.now texts.now }
        requires linked { AreLinked (tip (shorter back self.old)) nodes.now }
        ensures ok { IfOk result (λ touched. (fresh : Chain) × (self.new ≡ shorter back self.old ++ fresh)
            × AreNextBlocks (shorter back self.old) nodes.now texts.now fresh
            × Touch touched (coins (shorter back self.old))
            (drop (length self.old - back) self.old ++ fresh)) }
        ensures err { OnErr result (self.new ≡ self.old) }
        ensures first_fault { IfErr result (λ e. (e ≡ MoveFault.Memory)
            ⊎ FaultInAt (shorter back self.old) nodes.now texts.now e) }
    {
        move_all(
            *self.blocks.allocator(),
            &mut self.blocks,
            &mut self.coins,
            &mut self.tally,
            back,
            nodes,
            texts,
        )
    }
}
