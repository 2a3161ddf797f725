// What a node is answered, as a value.
ghost use Rattle.std.specs.Prelude.{◌≡◌, ◌≤◌, length, option_map};
ghost use Rattle.el_lines.specs.NodeAnswers as answers;

use el_base::Hash32;
use el_block::BlockFault;
use el_chain::{ConnectFault, MoveFault};
use el_mempool::PoolFault;

/// What a node is answered to a line, and to each further move of a `tip` line. Hashes stand in inner order.
#[derive(Clone, Copy, Debug)]
pub enum NodeAnswer {
    /// `block H`: the block with this hash is found, now or before.
    Block(Hash32),
    /// `at H N`: the chain ends in the block with this hash, of this height. Of no blocks nothing is said.
    At {
        tip: Option<Hash32>,
        height: Option<u32>,
    },
    /// `tx T`: the transaction with this txid joined those that are kept.
    Tx(Hash32),
    /// `gone T`: the transaction with this txid is kept no longer.
    Gone(Hash32),
    /// `refused ..`: the line, or the move, is refused.
    Refused(NodeRefusal),
}

/// Why a line of a node, or a move, is refused. Hashes stand in inner order.
#[derive(Clone, Copy, Debug)]
pub enum NodeRefusal {
    /// `line`: it is none of a node.
    Line,
    /// `long 8000100`: it has more bytes than `NODE_LINE_LIMIT`.
    Long,
    /// `place`: no record stands at the place.
    Place,
    /// `genesis H`: the block with this hash names no block before it, and is not the genesis.
    Genesis(Hash32),
    /// `unknown H`: no block with this hash was found.
    Unknown(Hash32),
    /// `unconnected H`: no path leads to the block with this hash.
    Unconnected(Hash32),
    /// `deep N`: so many blocks would be taken back.
    Deep(usize),
    /// `archive`: a call of the block files failed.
    Archive,
    /// `changed B`: the bytes at the place of the block with this hash don't begin with its header.
    Changed(Hash32),
    /// `bad B WORD`: the block with this hash has the flaw.
    Bad { block: Hash32, flaw: Flaw },
    /// `form`: the bytes are not one whole transaction.
    Form,
    /// `coinbase`: the transaction has the form of a coinbase.
    Coinbase,
    /// `confirmed T`: the chain has a transaction with this txid.
    Confirmed(Hash32),
    /// `known T`: a transaction with this txid is kept.
    Known(Hash32),
    /// `missing T I`: an input takes this output, which is nowhere.
    Missing { txid: Hash32, index: u32 },
    /// `conflict T`: an input takes what the transaction with this txid takes.
    Conflict(Hash32),
    /// `overspends A B`: so much the inputs take, and so much more the outputs hold, both in satoshi.
    Overspends { taken: u64, given: u64 },
    /// `full N B`: so many transactions are kept, of so many bytes, and one more is too many.
    Full { count: u64, bytes: u64 },
    /// `absent T`: the transaction with this txid isn't kept.
    Absent(Hash32),
}

/// What is wrong with a block, by the word that the node is told.
#[derive(Clone, Copy, Debug)]
pub enum Flaw {
    /// `header`: the bytes don't have a whole header.
    Header,
    /// `count`: the number of transactions isn't spelled as it should be.
    Count,
    /// `empty`: there are no transactions.
    Empty,
    /// `tx`: the bytes of a transaction are none.
    Tx,
    /// `trailing`: bytes stand behind the last transaction.
    Trailing,
    /// `coinbase`: the first transaction isn't the block's only coinbase.
    Coinbase,
    /// `repeated`: two transactions have one txid.
    Repeated,
    /// `merkle`: the header has another Merkle root.
    Merkle,
    /// `heavy`: the block weighs too much.
    Heavy,
    /// `coin`: an input takes no coin.
    Coin,
    /// `money`: there would be more satoshi than there may be.
    Money,
    /// `full`: a table of the index is full.
    Full,
}

impl Flaw {
    /// The word that the node is told.
    pub fn word(self) -> &'static str
        ensures word { result.now ≡ answers.flaw_word self }
        ensures short { length result.now ≤ 32 }
    {
        match self {
            Flaw::Header => "header",
            Flaw::Count => "count",
            Flaw::Empty => "empty",
            Flaw::Tx => "tx",
            Flaw::Trailing => "trailing",
            Flaw::Coinbase => "coinbase",
            Flaw::Repeated => "repeated",
            Flaw::Merkle => "merkle",
            Flaw::Heavy => "heavy",
            Flaw::Coin => "coin",
            Flaw::Money => "money",
            Flaw::Full => "full",
        }
    }
}

// The flaw that a fault of a block's bytes is; out of memory is none.
fn block_flaw(fault: BlockFault) -> Option<Flaw>
    ensures { result ≡ answers.block_flaw fault }
{
    match fault {
        BlockFault::Short => Some(Flaw::Header),
        BlockFault::Count(_) => Some(Flaw::Count),
        BlockFault::NoTransactions => Some(Flaw::Empty),
        BlockFault::Tx { .. } => Some(Flaw::Tx),
        BlockFault::Trailing { .. } => Some(Flaw::Trailing),
        BlockFault::FirstNotCoinbase => Some(Flaw::Coinbase),
        BlockFault::LaterCoinbase { .. } => Some(Flaw::Coinbase),
        BlockFault::SameTxid { .. } => Some(Flaw::Repeated),
        BlockFault::BadMerkle { .. } => Some(Flaw::Merkle),
        BlockFault::Heavy { .. } => Some(Flaw::Heavy),
        BlockFault::Memory => None,
    }
}

// The flaw that a fault of a block over the chain before it is.
fn connect_flaw(fault: ConnectFault) -> Option<Flaw>
    ensures { result ≡ answers.connect_flaw fault }
{
    match fault {
        ConnectFault::MissingCoin { .. } => Some(Flaw::Coin),
        ConnectFault::Money { .. } => Some(Flaw::Money),
        ConnectFault::Full { .. } => Some(Flaw::Full),
        ConnectFault::DiskFailed | ConnectFault::Memory => None,
    }
}

// That the block has the flaw, where there is one.
fn bad_refused(block: Hash32, flaw: Option<Flaw>) -> Option<NodeAnswer>
    ensures { result ≡ option_map (answers.bad_refused block) flaw }
{
    match flaw {
        None => None,
        Some(flaw) => Some(NodeAnswer::Refused(NodeRefusal::Bad { block, flaw })),
    }
}

/// `refused changed B` or `refused bad B WORD`: a move is refused for one of its blocks. None where a device
/// failed, or memory ran out, in the move: that is no fault of a block.
pub fn move_refused(fault: MoveFault) -> Option<NodeAnswer>
    ensures { result ≡ answers.move_refused fault }
{
    match fault {
        MoveFault::Changed { wanted, .. } => {
            Some(NodeAnswer::Refused(NodeRefusal::Changed(wanted)))
        }
        MoveFault::BadBlock { hash, fault } => bad_refused(hash, block_flaw(fault)),
        MoveFault::Refused { hash, fault } => bad_refused(hash, connect_flaw(fault)),
        MoveFault::DiskFailed | MoveFault::ArchiveFailed | MoveFault::Memory => None,
    }
}

/// What is answered for the first refusal of a transaction with this txid, in inner order. None where a
/// device failed, or memory ran out: that is no refusal of it.
pub fn pool_refused(txid: Hash32, fault: PoolFault) -> Option<NodeAnswer>
    ensures { result ≡ answers.pool_refused txid fault }
{
    let refusal = match fault {
        PoolFault::Bad => NodeRefusal::Form,
        PoolFault::CoinbaseForm => NodeRefusal::Coinbase,
        PoolFault::Confirmed => NodeRefusal::Confirmed(txid),
        PoolFault::Known => NodeRefusal::Known(txid),
        PoolFault::Missing { outpoint } => NodeRefusal::Missing {
            txid: outpoint.txid,
            index: outpoint.index,
        },
        PoolFault::Conflict { txid, .. } => NodeRefusal::Conflict(txid),
        PoolFault::Overspends { taken, given } => NodeRefusal::Overspends { taken, given },
        PoolFault::Full { count, bytes } => NodeRefusal::Full { count, bytes },
        PoolFault::DiskFailed | PoolFault::Memory => return None,
    };
    Some(NodeAnswer::Refused(refusal))
}
