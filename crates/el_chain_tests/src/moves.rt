// Moves of the plain ledger that put blocks in: a few blocks each, with what they lead to or the fault that
// stops them.
ghost use Rattle.std.specs.Prelude.{◌≡◌, ◌<◌, ◌≤◌, ◌≢◌, [], IfOk, IfSome, length};
ghost use Rattle.el_chain.specs.Chains.{zero_hash, tip};
ghost use Rattle.el_chain.specs.Headers.{AreLinked};
ghost use Rattle.el_chain.specs.Moves.{IsPlan, shorter, last_hash};
ghost use Rattle.el_laws.specs.Going.{AreMovesOf};
ghost use Rattle.el_plain.specs.Plain.{IsPlain};

use crate::records::{
    BLOCK_0, BLOCK_1, HALVES, NO_HASH, SCRIPT_1, SCRIPT_100, SCRIPT_101, add, halves, plan_of,
    spent, tip_hash,
};
use el_base::{Bytes, Hash32, Listed};
use el_block::BlockFault;
use el_chain::{ConnectFault, MoveFault, Moved, Plan};
use el_fakes::MemArchive;
use el_laws::{Mark, Stop, go_on};
use el_model::Ledger;
use el_outside::{Archive, NoPace};
use el_plain::{PlainChain, PlainLedger};
use std::alloc::Global;
use std::test::Fail;
use std::thread::Threads;

// The hashes of the blocks after the first two: one that spends the first half of the spent coin, and one of
// a coinbase alone.
const BLOCK_2: &str = "48316225fe225555becf9504ae00aaff3665d36ce00a2b857d669c7207002976";

const BLOCK_3: &str = "ed976fcf27f49c7146420aac64ae900295bc9e339c2019d9e35cbe27f4a462a0";

// The hash of the third block where it spends a coin that isn't there, and that of the block after it.
const MISSING_2: &str = "cbeecc51acf4ec146509a2241acab48be14f7f7756fec038ca30a640cff4c5bc";

const AFTER_MISSING: &str = "ff2b0a448d103e2e0624308637e0e5e32b9accb879852987529c05241f676b7f";

// The hash of the third block where its Merkle root has another byte, that root, and the right one.
const BAD_ROOT_2: &str = "02bcba4bb3da60714016b654349ce161d8dabd783bc3721c40b6ef82a0f451f6";

const BAD_ROOT: &str = "21e66aa3df9de0b2d53520ccc40a41b80d51d8e7482cd5921b417f3bcbb273f8";

const GOOD_ROOT: &str = "21e66aa3df9de0b2d53520ccc40a41b80d51d8e7482cd5921b417f3bcbb273f9";

// The hash of the third block's header with another nonce, and that of the block after the one that spends a
// coin that isn't there.
const CHANGED_2: &str = "aa70d88a282b7e96c415fe0a2fa9717adc7b46550c047259c40ec17a585113f9";

const CHANGED_3: &str = "09ca390d11be8d0dc0fc21cbc8369544d9d62b42dcc5544d5b8f0fd932b90069";

// The hashes of the blocks of heights 15 and 16 of a chain of coinbases.
const COINBASES_15: &str = "ec64e2e04433bcc77d518d46c9fe3b92839d51043760ddf71cd149c52fe41bda";

const COINBASES_16: &str = "30a80381768f75991a5cfe1345761eda0014bc5e9af7ca751b273b50e4374da5";

/// What is wrong with blocks: whether the third spends a coin that isn't there; of which block the Merkle
/// root has another byte; of which one the nonce is another in the file, since its header was found; by how
/// many bytes the last file is too short; and which call of the block files fails, from 1 on. 999 is no
/// block.
#[derive(Clone, Copy)]
pub struct Wrong {
    pub missing: bool,
    pub root_of: usize,
    pub nonce_of: usize,
    pub short: usize,
    pub failing: u64,
}

pub const NONE_WRONG: Wrong = Wrong {
    missing: false,
    root_of: 999,
    nonce_of: 999,
    short: 0,
    failing: 0,
};

// The record with another byte at that place.
fn with_other(alloc: Global, record: &Bytes, place: usize) -> Result<Bytes, Fail> {
    let mut bytes = Vec::from_slice(alloc, record.as_slice())?;
    if let Some(byte) = bytes.get_mut(place) {
        *byte ^= 1;
    }
    Ok(Bytes::from_vec(bytes))
}

// Gives the last record's block another Merkle root, which begins with byte 36 of a block.
fn spoil_root(alloc: Global, records: &mut Vec<Bytes>) -> Result<(), Fail> {
    if let Some(record) = records.pop() {
        records.push(with_other(alloc, &record, 44)?)?;
    }
    Ok(())
}

// Adds a coinbase, and a block that has its coin in two halves.
fn add_two(alloc: Global, records: &mut Vec<Bytes>) -> Result<(), Fail> {
    add(alloc, records, 0, None)?;
    add(alloc, records, 1, Some(halves(alloc)?))
}

// Adds a block that spends one of the halves, or a coin that isn't there.
fn add_spending(alloc: Global, records: &mut Vec<Bytes>, missing: bool) -> Result<(), Fail> {
    let index = if missing { 2 } else { 0 };
    let tx = spent(alloc, HALVES, index, 2_500_000_000)?;
    add(alloc, records, 2, Some(tx))
}

// Adds that block and a coinbase.
fn add_rest(alloc: Global, records: &mut Vec<Bytes>, wrong: Wrong) -> Result<(), Fail> {
    add_spending(alloc, records, wrong.missing)?;
    if wrong.root_of == 2 {
        spoil_root(alloc, records)?;
    }
    add(alloc, records, 3, None)?;
    if wrong.root_of == 3 {
        spoil_root(alloc, records)?;
    }
    Ok(())
}

/// Four blocks: a coinbase, its coin in two halves, one of these spent, and a coinbase.
pub fn four(alloc: Global, wrong: Wrong) -> Result<Vec<Bytes>, Fail> {
    let mut records = Vec::new(alloc);
    add_two(alloc, &mut records)?;
    add_rest(alloc, &mut records, wrong)?;
    Ok(records)
}

// The records, of which that one has another nonce.
fn with_nonce(alloc: Global, records: &[Bytes], nonce_of: usize) -> Result<Vec<Bytes>, Fail> {
    let mut files = Vec::new(alloc);
    for (file, record) in records.iter().enumerate() {
        // The nonce begins with byte 76 of a block.
        let place = if file == nonce_of { 84 } else { usize::MAX };
        files.push(with_other(alloc, record, place)?)?;
    }
    Ok(files)
}

// Makes the last file shorter by so many bytes.
fn shorten(alloc: Global, files: &mut Vec<Bytes>, short: usize) -> Result<(), Fail> {
    if let Some(last) = files.pop() {
        let len = last.len().saturating_sub(short);
        files.push(Bytes::from_slice(alloc, &last.as_slice()[..len])?)?;
    }
    Ok(())
}

/// The files of the records: each in a file of its own.
pub fn archive_of(alloc: Global, records: &[Bytes], wrong: Wrong) -> Result<MemArchive, Fail> {
    let mut files = with_nonce(alloc, records, wrong.nonce_of)?;
    shorten(alloc, &mut files, wrong.short)?;
    let failing = Vec::from_slice(alloc, [wrong.failing].as_slice())?;
    Ok(MemArchive::new(files, failing))
}

// What a next block names after so many blocks were taken back; None where there are fewer.
fn before(ledger: &PlainLedger, back: u32) -> Option<Hash32>
    ensures { IfSome result (λ hash. (back ≤ length ledger.now) × (hash ≡ tip (shorter back ledger.now))) }
{
    let blocks = ledger.blocks();
    if blocks.len() < back as usize {
        return None;
    }
    Some(tip_hash(&blocks[..blocks.len() - back as usize]))
}

/// Takes so many blocks back and puts in the blocks of the records from one number to before another.
pub fn move_in<W: Threads + Sync, A: Archive>(
    rt: &W,
    alloc: Global,
    ledger: &mut PlainLedger,
    back: u32,
    records: (&[Bytes], usize, usize),
    archive: &mut A,
) -> Result<Result<Moved, MoveFault>, Fail> {
    let (records, from, to) = records;
    let Some(hash) = before(ledger, back) else {
        return Err(Fail::new("too few blocks"));
    };
    let (plan, _) = plan_of(alloc, back, records, from, to, hash)?;
    Ok(ledger.go(rt, alloc, &plan, archive, &NoPace))
}

/// The same, where nothing is wrong with the blocks.
pub fn moved<W: Threads + Sync>(
    rt: &W,
    alloc: Global,
    ledger: &mut PlainLedger,
    back: u32,
    records: (&[Bytes], usize, usize),
) -> Result<Moved, Fail> {
    let mut archive = archive_of(alloc, records.0, NONE_WRONG)?;
    let moved = move_in(rt, alloc, ledger, back, records, &mut archive)??;
    Ok(moved)
}

/// The fault that stops a move which takes so many blocks back and puts in the last three of the records, of
/// which something is wrong.
pub fn stopped_by<W: Threads + Sync>(
    rt: &W,
    alloc: Global,
    ledger: &mut PlainLedger,
    back: u32,
    records: &[Bytes],
    wrong: Wrong,
) -> Result<Option<MoveFault>, Fail> {
    let mut archive = archive_of(alloc, records, wrong)?;
    Ok(move_in(rt, alloc, ledger, back, (records, 1, 4), &mut archive)?.err())
}

// A ledger of the first block.
fn first_alone<W: Threads + Sync>(
    rt: &W,
    alloc: Global,
    records: &[Bytes],
) -> Result<PlainLedger, Fail> {
    let mut ledger = PlainLedger::over(PlainChain::new(alloc));
    moved(rt, alloc, &mut ledger, 0, (records, 0, 1))?;
    Ok(ledger)
}

// What a script hash has: its number of entries, and what its coins hold together.
fn has_of(alloc: Global, ledger: &mut PlainLedger, script: &str) -> Result<(usize, u64), Fail> {
    let hash = Hash32::from_shown(script)?;
    let found = ledger.history(alloc, &hash)?;
    let balance = ledger.balance(&hash)?;
    Ok((found.len(), balance))
}

/// Whether the ledger stands at that block, and these script hashes have so many entries and so much of
/// satoshi.
pub fn stands_at(
    alloc: Global,
    ledger: &mut PlainLedger,
    tip: (u32, &str),
    scripts: &[(&str, usize, u64)],
) -> Result<bool, Fail> {
    for (script, entries, balance) in scripts {
        if has_of(alloc, ledger, *script)? != (*entries, *balance) {
            return Ok(false);
        }
    }
    Ok(ledger.height() == Some(tip.0) && is_shown(ledger.tip(), Some(tip.1)))
}

// What these scripts have after all four blocks.
const ALL_FOUR: [(&str, usize, u64); 3] = [
    (SCRIPT_1, 1, 2_500_000_000),
    (SCRIPT_100, 1, 2_500_000_000),
    (SCRIPT_101, 6, 15_000_000_000),
];

/// Whether these script hashes are touched, and no other.
pub fn touches(moved: &Moved, scripts: &[&str]) -> bool {
    for script in scripts {
        match Hash32::from_shown(*script) {
            Ok(hash) if moved.touched.has(&hash) => {}
            _ => return false,
        }
    }
    moved.touched.list().len() == scripts.len()
}

// Whether the three blocks after the first lead to the last of the four, and touch the three scripts.
fn leads_to_last<W: Threads + Sync>(
    rt: &W,
    alloc: Global,
    ledger: &mut PlainLedger,
    records: &[Bytes],
) -> Result<bool, Fail> {
    let moved = moved(rt, alloc, ledger, 0, (records, 1, 4))?;
    let led = moved.height == Some(3) && is_shown(moved.tip, Some(BLOCK_3));
    Ok(led && touches(&moved, [SCRIPT_1, SCRIPT_100, SCRIPT_101].as_slice()))
}

fn puts_in_three<W: Threads + Sync>(rt: &W, alloc: Global) -> Result<bool, Fail> {
    let records = four(alloc, NONE_WRONG)?;
    let mut ledger = first_alone(rt, alloc, records.as_slice())?;
    let led = leads_to_last(rt, alloc, &mut ledger, records.as_slice())?;
    Ok(led && stands_at(alloc, &mut ledger, (3, BLOCK_3), &ALL_FOUR)?)
}

// The fault that a move is to be stopped by: the third block misses a coin or has a bad Merkle root, a header
// stands where another was found, or a call of the block files fails.
#[derive(Clone, Copy)]
enum Wanted<'a> {
    Missing,
    Root,
    Other(&'a str, &'a str),
    Short(&'a str),
    Failed,
}

// The third block misses the coin of the first input of its second transaction.
fn missing_coin() -> Result<MoveFault, Fail> {
    Ok(MoveFault::Refused {
        hash: Hash32::from_shown(MISSING_2)?,
        fault: ConnectFault::MissingCoin { tx: 1, input: 0 },
    })
}

fn bad_root() -> Result<MoveFault, Fail> {
    let fault = BlockFault::BadMerkle {
        header: Hash32::from_shown(BAD_ROOT)?,
        found: Hash32::from_shown(GOOD_ROOT)?,
    };
    Ok(MoveFault::BadBlock {
        hash: Hash32::from_shown(BAD_ROOT_2)?,
        fault,
    })
}

fn changed(wanted: &str, found: Option<Hash32>) -> Result<MoveFault, Fail> {
    Ok(MoveFault::Changed {
        wanted: Hash32::from_shown(wanted)?,
        found,
    })
}

fn fault_of(wanted: Wanted<'_>) -> Result<MoveFault, Fail> {
    match wanted {
        Wanted::Missing => missing_coin(),
        Wanted::Root => bad_root(),
        Wanted::Other(wanted, found) => changed(wanted, Some(Hash32::from_shown(found)?)),
        Wanted::Short(wanted) => changed(wanted, None),
        Wanted::Failed => Ok(MoveFault::ArchiveFailed),
    }
}

// Whether the move of three blocks, of which something is wrong, is refused by that fault and changes
// nothing.
fn is_refused<W: Threads + Sync>(
    rt: &W,
    alloc: Global,
    wrong: Wrong,
    wanted: MoveFault,
) -> Result<bool, Fail> {
    let records = four(alloc, wrong)?;
    let mut ledger = first_alone(rt, alloc, records.as_slice())?;
    let found = stopped_by(rt, alloc, &mut ledger, 0, records.as_slice(), wrong)?;
    Ok(found == Some(wanted) && stands_at(alloc, &mut ledger, (0, BLOCK_0), &FIRST_ALONE)?)
}

// What the scripts of 1, 100 and 101 have after the first block.
const FIRST_ALONE: [(&str, usize, u64); 3] = [
    (SCRIPT_1, 0, 0),
    (SCRIPT_100, 0, 0),
    (SCRIPT_101, 1, 5_000_000_000),
];

const MISSING: Wrong = Wrong {
    missing: true,
    ..NONE_WRONG
};

const WRONG: &[(Wrong, Wanted<'static>)] = &[
    (MISSING, Wanted::Missing),
    (
        Wrong {
            root_of: 2,
            ..NONE_WRONG
        },
        Wanted::Root,
    ),
    // The block after it is bad too, but the first fault in chain order counts.
    (
        Wrong {
            root_of: 3,
            ..MISSING
        },
        Wanted::Missing,
    ),
    (
        Wrong {
            nonce_of: 2,
            ..NONE_WRONG
        },
        Wanted::Other(BLOCK_2, CHANGED_2),
    ),
    // All blocks are read before the first is looked at.
    (
        Wrong {
            nonce_of: 3,
            ..MISSING
        },
        Wanted::Other(AFTER_MISSING, CHANGED_3),
    ),
    (
        Wrong {
            short: 1,
            ..NONE_WRONG
        },
        Wanted::Short(BLOCK_3),
    ),
    (
        Wrong {
            failing: 1,
            ..NONE_WRONG
        },
        Wanted::Failed,
    ),
    (
        Wrong {
            failing: 3,
            ..MISSING
        },
        Wanted::Failed,
    ),
    (
        Wrong {
            nonce_of: 2,
            failing: 2,
            ..NONE_WRONG
        },
        Wanted::Failed,
    ),
];

// The first case, counted from 0, that isn't refused so.
fn not_refused<W: Threads + Sync>(rt: &W, alloc: Global) -> Result<Option<usize>, Fail> {
    for (number, (wrong, wanted)) in WRONG.iter().enumerate() {
        if !is_refused(rt, alloc, *wrong, fault_of(*wanted)?)? {
            return Ok(Some(number));
        }
    }
    Ok(None)
}

// Two moves, the first of so many blocks and the other of the rest, from no blocks on.
fn two_moves(alloc: Global, records: &[Bytes], first: usize) -> Result<[Plan; 2], Fail>
    ensures { IfOk result (AreMovesOf (IsPlain [])) }
{
    let (one, next) = plan_of(alloc, 0, records, 0, first, NO_HASH)?;
    let (two, _) = plan_of(alloc, 0, records, first, records.len(), next)?;
    if one.forward.is_empty() || two.forward.is_empty() {
        return Err(Fail::new("a move of no blocks"));
    }
    Ok([one, two])
}

// Two such moves and what is to be told of each; a refusal ends them.
#[derive(Clone, Copy)]
struct Told<'a> {
    // How many blocks of a coinbase alone, or the four blocks of which something may be wrong.
    coinbases: u32,
    wrong: Wrong,
    first: usize,
    one: (u32, &'a str),
    two: Option<(u32, &'a str)>,
}

const TOLD: &[Told<'static>] = &[
    Told {
        coinbases: 0,
        wrong: NONE_WRONG,
        first: 2,
        one: (1, BLOCK_1),
        two: Some((3, BLOCK_3)),
    },
    Told {
        coinbases: 0,
        wrong: MISSING,
        first: 2,
        one: (1, BLOCK_1),
        two: None,
    },
    Told {
        coinbases: 17,
        wrong: NONE_WRONG,
        first: 16,
        one: (15, COINBASES_15),
        two: Some((16, COINBASES_16)),
    },
];

// A mark of a move that was made.
fn at(made: (u32, &str)) -> Result<Mark, Fail> {
    let (height, tip) = made;
    Ok(Mark::At {
        tip: Some(Hash32::from_shown(tip)?),
        height: Some(height),
    })
}

fn marks_of(told: Told<'_>) -> Result<[Mark; 2], Fail> {
    let two = match told.two {
        Some(made) => at(made)?,
        None => Mark::Refused(missing_coin()?),
    };
    Ok([at(told.one)?, two])
}

/// So many blocks of a coinbase alone.
pub fn coinbases(alloc: Global, count: u32) -> Result<Vec<Bytes>, Fail> {
    let mut records = Vec::new(alloc);
    for height in 0..count {
        add(alloc, &mut records, height, None)?;
    }
    Ok(records)
}

fn records_of(alloc: Global, told: Told<'_>) -> Result<Vec<Bytes>, Fail> {
    match told.coinbases {
        0 => four(alloc, told.wrong),
        count => coinbases(alloc, count),
    }
}

// Makes the moves, and tells whether the marks are these.
fn has_marks<W: Threads + Sync>(
    rt: &W,
    alloc: Global,
    plans: &[Plan],
    archive: &mut MemArchive,
    told: Told<'_>,
) -> Result<bool, Fail>
    requires { AreMovesOf (IsPlain []) plans.now }
{
    let marks = marks_of(told)?;
    let mut ledger = PlainLedger::new(alloc);
    let mut sent = Listed::new(alloc);
    let end = go_on(rt, alloc, &mut ledger, plans, archive, &mut sent, &NoPace);
    let wanted = match told.two {
        Some(_) => Ok(()),
        None => Err(Stop::Refused),
    };
    Ok(end == wanted && sent.as_slice() == marks.as_slice())
}

fn is_told<W: Threads + Sync>(rt: &W, alloc: Global, told: Told<'_>) -> Result<bool, Fail> {
    let records = records_of(alloc, told)?;
    let plans = two_moves(alloc, records.as_slice(), told.first)?;
    let mut archive = archive_of(alloc, records.as_slice(), NONE_WRONG)?;
    has_marks(rt, alloc, plans.as_slice(), &mut archive, told)
}

// The first case, counted from 0, that isn't told so.
fn not_told<W: Threads + Sync>(rt: &W, alloc: Global) -> Result<Option<usize>, Fail> {
    for (number, told) in TOLD.iter().enumerate() {
        if !is_told(rt, alloc, *told)? {
            return Ok(Some(number));
        }
    }
    Ok(None)
}

// Whether that is the hash that users see so.
fn is_shown(hash: Option<Hash32>, shown: Option<&str>) -> bool {
    match shown {
        Some(digits) => hash.is_some() && Hash32::from_shown(digits).ok() == hash,
        None => hash.is_none(),
    }
}

// How many coinbases are put in at once, and the height and the hash of the last.
const MOVES: &[(usize, Option<u32>, Option<&str>)] = &[
    (0, None, None),
    (1, Some(0), Some(BLOCK_0)),
    (16, Some(15), Some(COINBASES_15)),
];

// Whether a move of so many of the blocks leads there.
fn leads_to<W: Threads + Sync>(
    rt: &W,
    alloc: Global,
    records: &[Bytes],
    case: (usize, Option<u32>, Option<&str>),
) -> Result<bool, Fail> {
    let (count, height, tip) = case;
    let mut ledger = PlainLedger::new(alloc);
    let moved = moved(rt, alloc, &mut ledger, 0, (records, 0, count))?;
    Ok(
        moved.height == height
            && is_shown(moved.tip, tip)
            && ledger.height() == height
            && is_shown(ledger.tip(), tip),
    )
}

// The first number of coinbases that doesn't lead there.
fn not_led<W: Threads + Sync>(rt: &W, alloc: Global) -> Result<Option<usize>, Fail> {
    let records = coinbases(alloc, 16)?;
    for case in MOVES {
        if !leads_to(rt, alloc, records.as_slice(), *case)? {
            return Ok(Some(case.0));
        }
    }
    Ok(None)
}

// Whether three blocks are put in; then the first case of each table that isn't as it must be.
type Wrongs = (bool, Option<usize>, Option<usize>, Option<usize>);

fn moves_forth<W: Threads + Sync>(rt: &W, alloc: Global) -> Result<Wrongs, Fail> {
    let three = puts_in_three(rt, alloc)?;
    let refused = not_refused(rt, alloc)?;
    let told = not_told(rt, alloc)?;
    Ok((three, refused, told, not_led(rt, alloc)?))
}

#[test]
fn puts_blocks_in(rt: HostRuntime) -> Result<(), Fail> {
    let wrongs = moves_forth(&rt, rt.alloc())?;
    assert_eq!(rt; wrongs, (true, None, None, None));
    Ok(())
}
