// The plain chain: whole blocks as Bitcoin's nodes serialize them, each with its answer. Another program made
// them.
ghost use Rattle.std.specs.Prelude.{◌≡◌, ℕ, List, IfOk};
ghost use Rattle.el_block.specs.Blocks.{HasBlockEncoding};

use crate::records::{entries_of, names_tip};
use el_base::Hash32;
use el_block::{Block, decode_block};
use el_chain::{ConnectFault, Touched};
use el_outside::Place;
use el_plain::PlainChain;
use el_tx::Outpoint;
use std::alloc::Global;
use std::test::Fail;

// A first block, whose coinbase gives 50 bitcoins to the script OP_1.
const FIRST: &str =
    "0100000000000000000000000000000000000000000000000000000000000000000000000ad5470418db96966388bcf61313\
     9c57e34140ecd21ba173a10a2350f47c33b2dae5494dffff7f20000000000101000000010000000000000000000000000000\
     000000000000000000000000000000000000ffffffff020100ffffffff0100f2052a01000000015100000000";

// The block after it. Its coinbase gives 50 bitcoins to OP_2. The next transaction spends the first block's,
// and gives 30 to OP_3 and 20 back to OP_1. The last one spends the 30 in the same block, and gives them to
// OP_4.
const SECOND: &str =
    "010000005ea5c3c55cecfd3ba49e95ddc14382460ac5b670e50e1683b3eedbd4e90cad9e270f4e6e16a4d727063bfcac1754\
     731460ddaf14530d588e780a2574d3f7888adbe5494dffff7f20000000000301000000010000000000000000000000000000\
     000000000000000000000000000000000000ffffffff020101ffffffff0100f2052a0100000001520000000001000000010a\
     d5470418db96966388bcf613139c57e34140ecd21ba173a10a2350f47c33b20000000000ffffffff02005ed0b20000000001\
     5300943577000000000151000000000100000001837cd7bf65d79b3572e1dc83b2bed37b998dbb3f2690d4b7e1bcd3a22ec0\
     a7600000000000ffffffff01005ed0b200000000015400000000";

// Blocks after that one, which are refused: a coin that the second block took.
const SPENT: &str =
    "01000000fe3dd9918040cd87b20c0b035a7f50613f3500a94fea88131240ed501519a20c7789f4b4a2ecea13c9e98de6e76b\
     9c3cadadb888db623b7f089395e4a5d4c6cfdce5494dffff7f20000000000201000000010000000000000000000000000000\
     000000000000000000000000000000000000ffffffff020102ffffffff0100f2052a0100000001520000000001000000010a\
     d5470418db96966388bcf613139c57e34140ecd21ba173a10a2350f47c33b20000000000ffffffff0100f2052a0100000001\
     5500000000";

// A coin that a transaction before it in the block took, as its second input.
const SPENT_BEFORE: &str =
    "01000000fe3dd9918040cd87b20c0b035a7f50613f3500a94fea88131240ed501519a20ced377f9aa1c5593c88fdec675ff1\
     02d234b9cd0b5d5576143c928f3d43615699dce5494dffff7f20000000000301000000010000000000000000000000000000\
     000000000000000000000000000000000000ffffffff020102ffffffff0100f2052a01000000015200000000010000000283\
     7cd7bf65d79b3572e1dc83b2bed37b998dbb3f2690d4b7e1bcd3a22ec0a7600100000000ffffffff59329cbcdec731f72314\
     cc5c146a1a5f6bb99384cb12cfb6a765882533f30e040000000000ffffffff0100863ba10100000001550000000001000000\
     025c7fb2b48f9af6432c3c7c7ded788c0f254b88f9cedbf0a1d8a1b4e7d1948af00000000000ffffffff59329cbcdec731f7\
     2314cc5c146a1a5f6bb99384cb12cfb6a765882533f30e040000000000ffffffff010100000000000000015500000000";

// One coin in two inputs of a transaction.
const SPENT_TWICE: &str =
    "01000000fe3dd9918040cd87b20c0b035a7f50613f3500a94fea88131240ed501519a20c9c9c4f16e4cf38b2af7262db99eb\
     7eb325bd37b91cc77f2f74433a22cc4d491cdce5494dffff7f20000000000201000000010000000000000000000000000000\
     000000000000000000000000000000000000ffffffff020102ffffffff0100f2052a0100000001520000000001000000025c\
     7fb2b48f9af6432c3c7c7ded788c0f254b88f9cedbf0a1d8a1b4e7d1948af00000000000ffffffff5c7fb2b48f9af6432c3c\
     7c7ded788c0f254b88f9cedbf0a1d8a1b4e7d1948af00000000000ffffffff010100000000000000015500000000";

// A coin that never was.
const UNKNOWN: &str =
    "01000000fe3dd9918040cd87b20c0b035a7f50613f3500a94fea88131240ed501519a20c0489d20349c2de242c66a1f936c7\
     bd1dc358ec4e155f9603a4a80a703448349adce5494dffff7f20000000000201000000010000000000000000000000000000\
     000000000000000000000000000000000000ffffffff020102ffffffff0100f2052a01000000015200000000010000000111\
     111111111111111111111111111111111111111111111111111111111111110000000000ffffffff01010000000000000001\
     5500000000";

// A coin of a transaction after it in the block.
const TOO_EARLY: &str =
    "01000000fe3dd9918040cd87b20c0b035a7f50613f3500a94fea88131240ed501519a20cc719c3601d816a4df8a35ffe0bfe\
     f9e840d5f84c860b8018ae79e56eda3c5f0ddce5494dffff7f20000000000301000000010000000000000000000000000000\
     000000000000000000000000000000000000ffffffff020102ffffffff0100f2052a0100000001520000000001000000012d\
     ad61d12f2be36c2735b05ad94611b278cf511ae3db1099b97c2a7c1933de800000000000ffffffff01005ed0b20000000001\
     570000000001000000015c7fb2b48f9af6432c3c7c7ded788c0f254b88f9cedbf0a1d8a1b4e7d1948af00000000000ffffff\
     ff01005ed0b200000000015600000000";

// A coinbase that gives all the money that there can be.
const RICH: &str =
    "01000000fe3dd9918040cd87b20c0b035a7f50613f3500a94fea88131240ed501519a20c83ada959f496190934ef7db5a574\
     c6e4aa11e83eded8fc3ef027381b673dbf35dce5494dffff7f20000000000101000000010000000000000000000000000000\
     000000000000000000000000000000000000ffffffff020102ffffffff010040075af0750700015200000000";

// A first block, and one after it with the same coinbase, so that both have one txid. It gives 50 bitcoins to
// OP_5.
const TWIN: &str =
    "010000000000000000000000000000000000000000000000000000000000000000000000dc2d17d792dbf0f72b8d7aec242b\
     3f4e06a81ad92207d08ce493eb404b9d37a9dae5494dffff7f20000000000101000000010000000000000000000000000000\
     000000000000000000000000000000000000ffffffff020200ffffffff0100f2052a01000000015500000000";

const OTHER_TWIN: &str =
    "010000006629538a2b8dbc005a2729090361f968da1cf592a668a9288aed7fb2707fb7c9dc2d17d792dbf0f72b8d7aec242b\
     3f4e06a81ad92207d08ce493eb404b9d37a9dbe5494dffff7f20000000000101000000010000000000000000000000000000\
     000000000000000000000000000000000000ffffffff020200ffffffff0100f2052a01000000015500000000";

// The block after them, which spends the one coin that is left, and one that spends it again.
const TWIN_SPENT: &str =
    "01000000d70d6587968cc12d99cf89296bce8c9971437f5a5e58c0a5bfabed4dab305463b054e36d9b45fce7903f6e770fd7\
     b1cfddc11ba1e19fe0e2fd7ab48b70be90f4dce5494dffff7f20000000000201000000010000000000000000000000000000\
     000000000000000000000000000000000000ffffffff020202ffffffff0100f2052a010000000152000000000100000001dc\
     2d17d792dbf0f72b8d7aec242b3f4e06a81ad92207d08ce493eb404b9d37a90000000000ffffffff0100f2052a0100000001\
     5600000000";

const TWIN_AGAIN: &str =
    "01000000e19fb140b1ec4cbe20dfafc81b9ff574061a05e1fff22a11326681108dab2d671d341ebd4944e0871c62ad50c83a\
     8621b634059de5b25fefc0a377a3dd450eaedde5494dffff7f20000000000201000000010000000000000000000000000000\
     000000000000000000000000000000000000ffffffff020203ffffffff0100f2052a010000000152000000000100000001dc\
     2d17d792dbf0f72b8d7aec242b3f4e06a81ad92207d08ce493eb404b9d37a90000000000ffffffff0100f2052a0100000001\
     5700000000";

// Txids of the first chain, as users see them: the first coinbase, the second, the transaction that spends
// the first, and the one that spends that.
const TXID_FIRST: &str = "b2337cf450230aa173a11bd2ec4041e3579c1313f6bc88639696db180447d50a";

const TXID_SECOND: &str = "040ef333258865a7b6cf12cb8493b96b5f1a6a145ccc1423f731c7debc9c3259";

const TXID_SPENDING: &str = "60a7c02ea2d3bce1b7d490263fbb8d997bd3beb283dce172359bd765bfd77c83";

const TXID_LAST: &str = "f08a94d1e7b4a1d8a1f0dbcef9884b250f8c78ed7d7c3c2c43f69a8fb4b27f5c";

// The txid of both twins.
const TXID_TWIN: &str = "a9379d4b40eb93e48cd00722d91aa8064e3f2b24ec7a8d2bf7f0db92d7172ddc";

// The script hashes of OP_1 to OP_5, as clients of the Electrum protocol write them.
const SCRIPT_1: &str = "6032c38c0bc0e91e726f1e55e1832e434509001a7aed5cfd881b6ef07215e84a";

const SCRIPT_2: &str = "ac41cf8c00321ed97e8352cd543e19a5c1467fe0bc56f7fd95f963208974258c";

const SCRIPT_3: &str = "43d64aaf23b237e272489563752a424c263269627a715f74592c117fc4b3e08d";

const SCRIPT_4: &str = "d369d0916f0d4df226bee954e40d2d857bfde939c5a40f262cf30b5b09b732e6";

const SCRIPT_5: &str = "e72740764225bbf7c83185af009ed02e9e1b0818ee37330aa8eaf6e0c71355a2";

// The first two blocks, and the twins.
const TWO: &[&str] = &[FIRST, SECOND];

const TWINS: &[&str] = &[TWIN, OTHER_TWIN];

fn block_of(alloc: Global, text: &str) -> Result<Block, Fail>
    ensures { IfOk result HasBlockEncoding }
{
    let bytes = hex::decode(alloc, text)?;
    let block = decode_block(alloc, bytes.as_slice())?;
    Ok(block)
}

// The fault of a block, or None where it was added.
fn fault_of(
    alloc: Global,
    ledger: &mut PlainChain,
    text: &str,
) -> Result<Option<ConnectFault>, Fail> {
    let block = block_of(alloc, text)?;
    if !names_tip(&block, ledger.blocks()) {
        return Err(Fail::new("the block does not name the tip"));
    }
    let place = Place {
        file: 0,
        offset: 0,
        len: 285,
    };
    Ok(ledger.extend(block, place).err())
}

// A ledger of the blocks.
fn ledger_of(alloc: Global, texts: &[&str]) -> Result<PlainChain, Fail> {
    let mut ledger = PlainChain::new(alloc);
    for text in texts {
        if let Some(fault) = fault_of(alloc, &mut ledger, *text)? {
            return Err(Fail::from(fault));
        }
    }
    Ok(ledger)
}

// The fault of a block, or None where it was added; after a fault the tip is what it was.
fn fault_alone(
    alloc: Global,
    ledger: &mut PlainChain,
    text: &str,
) -> Result<Option<ConnectFault>, Fail> {
    let tip = ledger.tip();
    let fault = fault_of(alloc, ledger, text)?;
    if fault.is_some() && ledger.tip() != tip {
        return Err(Fail::new("a refused block changed the tip"));
    }
    Ok(fault)
}

// What a chain of the blocks and then this one has as the fault of this one.
fn fault_after(alloc: Global, texts: &[&str], text: &str) -> Result<Option<ConnectFault>, Fail> {
    let mut ledger = ledger_of(alloc, texts)?;
    fault_alone(alloc, &mut ledger, text)
}

// Blocks that can't stand after the second, each with its fault.
const REFUSED: &[(&str, ConnectFault)] = &[
    (SPENT, ConnectFault::MissingCoin { tx: 1, input: 0 }),
    (SPENT_BEFORE, ConnectFault::MissingCoin { tx: 2, input: 1 }),
    (SPENT_TWICE, ConnectFault::MissingCoin { tx: 1, input: 1 }),
    (UNKNOWN, ConnectFault::MissingCoin { tx: 1, input: 0 }),
    (TOO_EARLY, ConnectFault::MissingCoin { tx: 1, input: 0 }),
    (
        RICH,
        ConnectFault::Money {
            supply: 2_100_010_000_000_000,
        },
    ),
];

// The first of these blocks, counted from 0, that isn't refused so.
fn not_refused(alloc: Global, ledger: &mut PlainChain) -> Result<Option<usize>, Fail> {
    for (number, (text, fault)) in REFUSED.iter().enumerate() {
        if fault_alone(alloc, ledger, *text)? != Some(*fault) {
            return Ok(Some(number));
        }
    }
    Ok(None)
}

// All blocks after the second are refused by one ledger, one after the other.
fn refuses_all(alloc: Global) -> Result<Option<usize>, Fail> {
    let mut ledger = ledger_of(alloc, TWO)?;
    not_refused(alloc, &mut ledger)
}

#[test]
fn refuses_blocks(rt: HostRuntime) -> Result<(), Fail> {
    assert_eq!(rt; refuses_all(rt.alloc())?, None);
    Ok(())
}

// Whether the chain has these entries of the script hash.
fn has_entries(
    alloc: Global,
    chain: &PlainChain,
    script: &str,
    places: &[(u32, &str)],
) -> Result<bool, Fail> {
    let script = Hash32::from_shown(script)?;
    let found = chain.history(&script)?;
    let expected = entries_of(alloc, places)?;
    Ok(found.as_slice() == expected.as_slice())
}

type History = (
    &'static [&'static str],
    &'static str,
    &'static [(u32, &'static str)],
);

// Blocks, a script hash, and its entries after them.
const HISTORIES: &[History] = &[
    (TWO, SCRIPT_1, &[(0, TXID_FIRST), (1, TXID_SPENDING)]),
    (TWO, SCRIPT_2, &[(1, TXID_SECOND)]),
    (TWO, SCRIPT_3, &[(1, TXID_SPENDING), (1, TXID_LAST)]),
    (TWO, SCRIPT_4, &[(1, TXID_LAST)]),
    (TWO, SCRIPT_5, &[]),
    (TWINS, SCRIPT_5, &[(0, TXID_TWIN), (1, TXID_TWIN)]),
];

// Whether a chain of the blocks has these entries of the script hash.
fn has_history(alloc: Global, row: &History) -> Result<bool, Fail> {
    let (texts, script, places) = *row;
    let chain = ledger_of(alloc, texts)?;
    has_entries(alloc, &chain, script, places)
}

#[test]
fn lists_histories(rt: HostRuntime) -> Result<(), Fail> {
    for row in HISTORIES {
        assert!(rt; has_history(rt.alloc(), row)?, "of {}", row.1);
    }
    Ok(())
}

// The one coin of twins can be spent, and not again.
#[test]
fn keeps_one_coin_of_twins(rt: HostRuntime) -> Result<(), Fail> {
    let twins = [TWIN, OTHER_TWIN, TWIN_SPENT];
    let missing = ConnectFault::MissingCoin { tx: 1, input: 0 };
    assert!(rt; fault_after(rt.alloc(), &twins[..2], TWIN_SPENT)? == None);
    assert!(rt; fault_after(rt.alloc(), &twins, TWIN_AGAIN)? == Some(missing));
    Ok(())
}

// What the chain's coin of an output holds.
fn value_of(chain: &PlainChain, txid: &str, index: u32) -> Option<u64> {
    let txid = Hash32::from_shown(txid).ok()?;
    let coin = chain.coin(&Outpoint { txid, index })?;
    Some(coin.value)
}

// What the coins of a script hash hold.
fn balance_of(chain: &PlainChain, script: &str) -> Option<u64> {
    let script = Hash32::from_shown(script).ok()?;
    Some(chain.balance(&script))
}

// What the outputs hold after the second block.
const VALUES: &[(&str, u32, Option<u64>)] = &[
    (TXID_FIRST, 0, None),
    (TXID_SECOND, 0, Some(5_000_000_000)),
    (TXID_SPENDING, 0, None),
    (TXID_SPENDING, 1, Some(2_000_000_000)),
    (TXID_SPENDING, 2, None),
    (TXID_LAST, 0, Some(3_000_000_000)),
];

// The first of these outputs, counted from 0, that holds something else.
fn wrong_value(chain: &PlainChain) -> Option<usize> {
    for (number, (txid, index, value)) in VALUES.iter().enumerate() {
        if value_of(chain, *txid, *index) != *value {
            return Some(number);
        }
    }
    None
}

// What the script hashes hold after the second block.
const BALANCES: &[(&str, u64)] = &[
    (SCRIPT_1, 2_000_000_000),
    (SCRIPT_2, 5_000_000_000),
    (SCRIPT_3, 0),
    (SCRIPT_4, 3_000_000_000),
    (SCRIPT_5, 0),
];

// The first of these script hashes, counted from 0, that holds something else.
fn wrong_balance(chain: &PlainChain) -> Option<usize> {
    for (number, (script, balance)) in BALANCES.iter().enumerate() {
        if balance_of(chain, *script) != Some(*balance) {
            return Some(number);
        }
    }
    None
}

fn tells(alloc: Global) -> Result<(Option<usize>, Option<usize>), Fail> {
    let chain = ledger_of(alloc, TWO)?;
    Ok((wrong_value(&chain), wrong_balance(&chain)))
}

#[test]
fn tells_coins_and_balances(rt: HostRuntime) -> Result<(), Fail> {
    assert_eq!(rt; tells(rt.alloc())?, (None, None));
    Ok(())
}

// The script hashes that are touched where the last block is taken back, and none is put in its place.
fn take_back(ledger: &mut PlainChain) -> Result<Touched, Fail> {
    if ledger.blocks().is_empty() {
        return Err(Fail::new("there are no blocks"));
    }
    Ok(ledger.move_all(1, &[], &[])?)
}

// Whether a script hash has these entries, what its coins hold, and whether it was touched, after the last of
// these blocks was taken back.
fn is_left(
    alloc: Global,
    texts: &[&str],
    script: &str,
    places: &[(u32, &str)],
    left: (u64, bool),
) -> Result<bool, Fail> {
    let mut chain = ledger_of(alloc, texts)?;
    let touched = take_back(&mut chain)?;
    let script_hash = Hash32::from_shown(script)?;
    let (balance, is_touched) = left;
    Ok(
        chain.balance(&script_hash) == balance
            && touched.has(&script_hash) == is_touched
            && has_entries(alloc, &chain, script, places)?,
    )
}

type Left = (
    &'static [&'static str],
    &'static str,
    &'static [(u32, &'static str)],
    (u64, bool),
);

// Of the twins the coin that the second had replaced is a coin again.
const LEFT: &[Left] = &[
    (TWO, SCRIPT_1, &[(0, TXID_FIRST)], (5_000_000_000, true)),
    (TWO, SCRIPT_2, &[], (0, true)),
    (TWO, SCRIPT_3, &[], (0, true)),
    (TWO, SCRIPT_4, &[], (0, true)),
    (TWO, SCRIPT_5, &[], (0, false)),
    (TWINS, SCRIPT_5, &[(0, TXID_TWIN)], (5_000_000_000, true)),
];

#[test]
fn takes_a_block_back(rt: HostRuntime) -> Result<(), Fail> {
    for (texts, script, places, left) in LEFT {
        assert!(rt;
            is_left(rt.alloc(), *texts, *script, *places, *left)?,
            "of {script}"
        );
    }
    Ok(())
}

// What is kept of script hashes of which one is added twice.
fn three_added(alloc: Global) -> Result<Touched, Fail> {
    let mut touched = Touched::new(alloc);
    for byte in [1, 2, 1].iter() {
        touched.add(Hash32([*byte; 32]))?;
    }
    Ok(touched)
}

// Whether each of them is kept once, and no other.
fn has_two(touched: &Touched) -> bool {
    let [one, two, three] = [Hash32([1; 32]), Hash32([2; 32]), Hash32([3; 32])];
    let listed = touched.list() == [one, two].as_slice();
    listed && touched.has(&one) && touched.has(&two) && !touched.has(&three)
}

#[test]
fn keeps_each_script_once(rt: HostRuntime) -> Result<(), Fail> {
    assert!(rt; has_two(&three_added(rt.alloc())?));
    Ok(())
}
