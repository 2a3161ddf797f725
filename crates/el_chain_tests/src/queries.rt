// Queries of the plain ledger: chains of a few blocks, each with its answers.
ghost use Rattle.std.specs.Prelude.{◌≡◌, ◌<◌, ◌≤◌, List, IfOk, IsTrue, MatchOption};
ghost use Rattle.el_block.specs.Blocks.{HasBlockEncoding};
ghost use Rattle.el_chain.specs.Chains.{tip};
ghost use Rattle.el_model.specs.Queries.{height_of};

use crate::records::{
    BLOCK_0, BLOCK_1, COINBASE_0, COINBASE_1, HALVES, SCRIPT_1, SCRIPT_100, SCRIPT_101, add,
    entries_of, entry_of, halves, names_tip, output_of, size_of, spent,
};
use el_base::{Bytes, Hash32};
use el_block::{Block, decode_block};
use el_chain::{Coin, Entry, Spot};
use el_model::Ledger;
use el_outside::Place;
use el_plain::{PlainChain, PlainLedger};
use el_tx::block_hash;
use std::alloc::Global;
use std::test::Fail;

// The txid of the transaction that gives the first coinbase's coin whole to the script of 1.
const WHOLE: &str = "5527889e9d4fc968a939d23f292743e2ec32def80adedb0e5ce874f6e5f8ee04";

// A chain: the first block, and one that spends its coin in two halves; the first block and the same coinbase
// again; or the first block, one that takes its coin, and that coinbase again.
#[derive(Clone, Copy)]
enum Blocks {
    Halved,
    Twins,
    Anew,
}

// The block after the first, if it has a coinbase of its own.
fn second(alloc: Global, records: &mut Vec<Bytes>, blocks: Blocks) -> Result<(), Fail> {
    match blocks {
        Blocks::Halved => add(alloc, records, 1, Some(halves(alloc)?)),
        Blocks::Twins => Ok(()),
        Blocks::Anew => {
            let taking = spent(alloc, COINBASE_0, 0, 5_000_000_000)?;
            add(alloc, records, 1, Some(taking))
        }
    }
}

// The records of the chain.
fn records_of(alloc: Global, blocks: Blocks) -> Result<Vec<Bytes>, Fail> {
    let mut records = Vec::new(alloc);
    add(alloc, &mut records, 0, None)?;
    second(alloc, &mut records, blocks)?;
    match blocks {
        Blocks::Halved => {}
        Blocks::Twins | Blocks::Anew => add(alloc, &mut records, 0, None)?,
    }
    Ok(records)
}

// The block of a record.
fn block_in(alloc: Global, record: &[u8]) -> Result<Block, Fail>
    ensures { IfOk result HasBlockEncoding }
{
    let Some(bytes) = record.get(8..) else {
        return Err(Fail::new("a short record"));
    };
    let block = decode_block(alloc, bytes)?;
    Ok(block)
}

fn place_of(file: u32, len: u32) -> Place {
    Place {
        file,
        offset: 0,
        len,
    }
}

// A ledger of the blocks of the records.
fn ledger_of(alloc: Global, records: &[Bytes]) -> Result<PlainLedger, Fail> {
    let mut ledger = PlainLedger::new(alloc);
    let mut file = 0;
    for record in records {
        let block = block_in(alloc, record.as_slice())?;
        if !names_tip(&block, ledger.blocks()) {
            return Err(Fail::new("the block does not name the tip"));
        }
        ledger.extend(block, place_of(file, size_of(record.as_slice())))?;
        file = file.saturating_add(1);
    }
    Ok(ledger)
}

// A ledger of the chain.
fn chain_of(alloc: Global, blocks: Blocks) -> Result<PlainLedger, Fail> {
    let records = records_of(alloc, blocks)?;
    ledger_of(alloc, records.as_slice())
}

// What a script hash is to have: entries by height and txid, coins by txid, index, value and height, and what
// the coins hold together.
#[derive(Clone, Copy)]
struct Owned<'a> {
    script: &'a str,
    entries: &'a [(u32, &'a str)],
    coins: &'a [(&'a str, u32, u64, u32)],
    balance: u64,
}

fn coin_of(script: &str, coin: (&str, u32, u64, u32)) -> Result<Coin, Fail> {
    let (txid, index, value, height) = coin;
    Ok(Coin {
        outpoint: output_of(txid, index)?,
        value,
        script: Hash32::from_shown(script)?,
        height,
    })
}

fn coins_of(
    alloc: Global,
    script: &str,
    wanted: &[(&str, u32, u64, u32)],
) -> Result<Vec<Coin>, Fail> {
    let mut coins = Vec::new(alloc);
    for coin in wanted {
        coins.push(coin_of(script, *coin)?)?;
    }
    Ok(coins)
}

// Whether the ledger has these entries of the script hash.
fn has_entries(alloc: Global, ledger: &mut PlainLedger, owned: &Owned<'_>) -> Result<bool, Fail> {
    let script = Hash32::from_shown(owned.script)?;
    let entries = entries_of(alloc, owned.entries)?;
    let found = ledger.history(alloc, &script)?;
    Ok(found.as_slice() == entries.as_slice())
}

// Whether it has these coins and this balance.
fn has_coins(alloc: Global, ledger: &mut PlainLedger, owned: &Owned<'_>) -> Result<bool, Fail> {
    let script = Hash32::from_shown(owned.script)?;
    let coins = coins_of(alloc, owned.script, owned.coins)?;
    let found = ledger.unspent(alloc, &script)?;
    let balance = ledger.balance(&script)?;
    Ok(balance == owned.balance && found.as_slice() == coins.as_slice())
}

const OWNED: &[(Blocks, Owned<'static>)] = &[
    (
        Blocks::Halved,
        Owned {
            script: SCRIPT_101,
            entries: &[(0, COINBASE_0), (1, COINBASE_1), (1, HALVES)],
            coins: &[
                (COINBASE_1, 0, 5_000_000_000, 1),
                (HALVES, 0, 2_500_000_000, 1),
            ],
            balance: 7_500_000_000,
        },
    ),
    (
        Blocks::Halved,
        Owned {
            script: SCRIPT_100,
            entries: &[(1, HALVES)],
            coins: &[(HALVES, 1, 2_500_000_000, 1)],
            balance: 2_500_000_000,
        },
    ),
    (
        Blocks::Halved,
        Owned {
            script: SCRIPT_1,
            entries: &[],
            coins: &[],
            balance: 0,
        },
    ),
    (
        Blocks::Twins,
        Owned {
            script: SCRIPT_101,
            entries: &[(0, COINBASE_0), (1, COINBASE_0)],
            coins: &[(COINBASE_0, 0, 5_000_000_000, 1)],
            balance: 5_000_000_000,
        },
    ),
    (
        Blocks::Anew,
        Owned {
            script: SCRIPT_101,
            entries: &[
                (0, COINBASE_0),
                (1, COINBASE_1),
                (1, WHOLE),
                (2, COINBASE_0),
            ],
            coins: &[
                (COINBASE_1, 0, 5_000_000_000, 1),
                (COINBASE_0, 0, 5_000_000_000, 2),
            ],
            balance: 10_000_000_000,
        },
    ),
    (
        Blocks::Anew,
        Owned {
            script: SCRIPT_1,
            entries: &[(1, WHOLE)],
            coins: &[(WHOLE, 0, 5_000_000_000, 1)],
            balance: 5_000_000_000,
        },
    ),
];

// Whether the script has in the chain what it is to have.
fn owns(alloc: Global, blocks: Blocks, owned: &Owned<'_>) -> Result<bool, Fail> {
    let mut ledger = chain_of(alloc, blocks)?;
    Ok(has_entries(alloc, &mut ledger, owned)? && has_coins(alloc, &mut ledger, owned)?)
}

// The first case, counted from 0, in which a script hasn't what it is to have.
fn wrong_script(alloc: Global) -> Result<Option<usize>, Fail> {
    for (number, (blocks, owned)) in OWNED.iter().enumerate() {
        if !owns(alloc, *blocks, owned)? {
            return Ok(Some(number));
        }
    }
    Ok(None)
}

// What an output is to have: its coin by script, value and height; who took it, by height and txid; and where
// its transaction stands, by height, number in the block, first byte and length.
#[derive(Clone, Copy)]
struct Traced<'a> {
    output: (&'a str, u32),
    coin: Option<(&'a str, u64, u32)>,
    taker: Option<(u32, &'a str)>,
    spot: Option<(u32, u32, u32, u32)>,
}

// The spot of a transaction in one of the records.
fn spot_of(records: &[Bytes], spot: (u32, u32, u32, u32)) -> Spot {
    let (height, pos, start, len) = spot;
    let size = match records.get(height as usize) {
        Some(record) => size_of(record.as_slice()),
        None => 0,
    };
    Spot {
        height,
        pos,
        place: place_of(height, size),
        start,
        len,
    }
}

// The coin that the output is to have.
fn coin_wanted(traced: &Traced<'_>) -> Result<Option<Coin>, Fail> {
    let (txid, index) = traced.output;
    match traced.coin {
        Some((script, value, height)) => Ok(Some(coin_of(script, (txid, index, value, height))?)),
        None => Ok(None),
    }
}

// Who is to have taken it.
fn taker_wanted(traced: &Traced<'_>) -> Result<Option<Entry>, Fail> {
    match traced.taker {
        Some((height, by)) => Ok(Some(entry_of(height, by)?)),
        None => Ok(None),
    }
}

// Whether the ledger has that coin of the output, and that taker.
fn has_output(ledger: &mut PlainLedger, traced: &Traced<'_>) -> Result<bool, Fail> {
    let output = output_of(traced.output.0, traced.output.1)?;
    let coin = ledger.coin(&output)?;
    let taker = ledger.spender(&output)?;
    Ok(coin == coin_wanted(traced)? && taker == taker_wanted(traced)?)
}

// Whether the ledger of the records finds the output's transaction there.
fn finds(ledger: &mut PlainLedger, records: &[Bytes], traced: &Traced<'_>) -> Result<bool, Fail> {
    let txid = Hash32::from_shown(traced.output.0)?;
    let spot = traced.spot.map(|spot| spot_of(records, spot));
    Ok(ledger.find_tx(&txid)? == spot)
}

const TRACED: &[(Blocks, Traced<'static>)] = &[
    (
        Blocks::Halved,
        Traced {
            output: (COINBASE_0, 0),
            coin: None,
            taker: Some((1, HALVES)),
            spot: Some((0, 0, 81, 71)),
        },
    ),
    (
        Blocks::Halved,
        Traced {
            output: (HALVES, 1),
            coin: Some((SCRIPT_100, 2_500_000_000, 1)),
            taker: None,
            spot: Some((1, 1, 152, 79)),
        },
    ),
    (
        Blocks::Halved,
        Traced {
            output: (HALVES, 2),
            coin: None,
            taker: None,
            spot: Some((1, 1, 152, 79)),
        },
    ),
    (
        Blocks::Halved,
        Traced {
            output: (WHOLE, 0),
            coin: None,
            taker: None,
            spot: None,
        },
    ),
    (
        Blocks::Twins,
        Traced {
            output: (COINBASE_0, 0),
            coin: Some((SCRIPT_101, 5_000_000_000, 1)),
            taker: None,
            spot: Some((1, 0, 81, 71)),
        },
    ),
    (
        Blocks::Anew,
        Traced {
            output: (COINBASE_0, 0),
            coin: Some((SCRIPT_101, 5_000_000_000, 2)),
            taker: None,
            spot: Some((2, 0, 81, 71)),
        },
    ),
];

// Whether the output is in the chain as it is to be.
fn traces(alloc: Global, blocks: Blocks, traced: &Traced<'_>) -> Result<bool, Fail> {
    let records = records_of(alloc, blocks)?;
    let mut ledger = ledger_of(alloc, records.as_slice())?;
    Ok(has_output(&mut ledger, traced)? && finds(&mut ledger, records.as_slice(), traced)?)
}

// The first case, counted from 0, in which an output isn't as it is to be.
fn wrong_output(alloc: Global) -> Result<Option<usize>, Fail> {
    for (number, (blocks, traced)) in TRACED.iter().enumerate() {
        if !traces(alloc, *blocks, traced)? {
            return Ok(Some(number));
        }
    }
    Ok(None)
}

type ByHeight = (
    u32,
    (&'static str, u32),
    &'static [&'static str],
    &'static [&'static str],
);

// A height, the hash and the size of its block, the hashes up to it, and its txids.
const BY_HEIGHT: &[ByHeight] = &[
    (0, (BLOCK_0, 152), &[BLOCK_0], &[COINBASE_0]),
    (
        1,
        (BLOCK_1, 231),
        &[BLOCK_0, BLOCK_1],
        &[COINBASE_1, HALVES],
    ),
];

// Whether the ledger has a block of that height.
fn is_within(ledger: &PlainLedger, height: u32) -> bool
    ensures { IsTrue result → MatchOption (height_of ledger.now) ⊥ (λ top. height ≤ top) }
{
    match ledger.height() {
        Some(top) => height <= top,
        None => false,
    }
}

// Whether the ledger has, at that height, a header with that hash and a block of that size.
fn has_header(ledger: &mut PlainLedger, height: u32, block: (&str, u32)) -> Result<bool, Fail> {
    if !is_within(ledger, height) {
        return Ok(false);
    }
    let header = ledger.header(height)?;
    if !is_within(ledger, height) {
        return Ok(false);
    }
    let place = ledger.place(height)?;
    let hash = Hash32::from_shown(block.0)?;
    Ok(block_hash(&header) == hash && place == place_of(height, block.1))
}

// Whether these are the hashes that users see so.
fn are_shown(hashes: &[Hash32], shown: &[&str]) -> bool {
    hashes.len() == shown.len()
        && hashes
            .iter()
            .zip(shown.iter())
            .all(|(hash, digits)| Hash32::from_shown(*digits) == Ok(*hash))
}

// Whether the ledger has these block hashes up to the height, and the block of that height these txids.
fn has_hashes(
    alloc: Global,
    ledger: &mut PlainLedger,
    height: u32,
    shown: (&[&str], &[&str]),
) -> Result<bool, Fail> {
    if !is_within(ledger, height) {
        return Ok(false);
    }
    let hashes = ledger.hashes(alloc, height)?;
    if !is_within(ledger, height) {
        return Ok(false);
    }
    let txids = ledger.block_txids(alloc, height)?;
    Ok(are_shown(hashes.as_slice(), shown.0) && are_shown(txids.as_slice(), shown.1))
}

// Whether the ledger answers so for a height.
fn has_block(alloc: Global, ledger: &mut PlainLedger, wanted: &ByHeight) -> Result<bool, Fail> {
    let (height, block, hashes, txids) = *wanted;
    Ok(has_header(ledger, height, block)? && has_hashes(alloc, ledger, height, (hashes, txids))?)
}

// The first height of a chain of two blocks at which an answer isn't as it is to be; 2 where the last block
// is another one.
fn wrong_height(alloc: Global) -> Result<Option<u32>, Fail> {
    let mut ledger = chain_of(alloc, Blocks::Halved)?;
    for wanted in BY_HEIGHT {
        if !has_block(alloc, &mut ledger, wanted)? {
            return Ok(Some(wanted.0));
        }
    }
    let tip = Hash32::from_shown(BLOCK_1)?;
    if ledger.height() == Some(1) && ledger.tip() == Some(tip) {
        return Ok(None);
    }
    Ok(Some(2))
}

#[test]
fn has_no_tip_at_first(rt: HostRuntime) {
    let none = PlainLedger::over(PlainChain::new(rt.alloc()));
    assert!(rt; none.height() == None);
    assert!(rt; none.tip() == None);
}

type Wrongs = (Option<usize>, Option<usize>, Option<u32>);

fn asks(alloc: Global) -> Result<Wrongs, Fail> {
    let script = wrong_script(alloc)?;
    let output = wrong_output(alloc)?;
    Ok((script, output, wrong_height(alloc)?))
}

#[test]
fn answers_queries(rt: HostRuntime) -> Result<(), Fail> {
    let wrongs = asks(rt.alloc())?;
    assert_eq!(rt; wrongs, (None, None, None));
    Ok(())
}
