// Moves of the plain ledger that take blocks back: what chains of a few blocks, and of more than a hundred,
// have after them. Hashes are as users see them; another program computed them from the rules.
ghost use Rattle.std.specs.Prelude.{◌≡◌, ◌<◌};

use crate::moves::{NONE_WRONG, Wrong, coinbases, four, moved, stands_at, stopped_by, touches};
use crate::records::{BLOCK_0, BLOCK_1, SCRIPT_1, SCRIPT_100, SCRIPT_101, add};
use el_base::{Bytes, Hash32};
use el_chain::MoveFault;
use el_model::Ledger;
use el_plain::PlainLedger;
use std::alloc::Global;
use std::test::Fail;
use std::thread::Threads;

// The hashes of the blocks of heights 2 and 101 of a chain of coinbases, which has the time of height 100
// from there on, and of height 4 of another one.
const COINBASES_2: &str = "af5f13daed645f0ec1b8bbf7146f87005ab365036a80c124d3269c3046fd5b70";

const COINBASES_101: &str = "d5ad342de53338cc69e0dd31b02cae137d407036ba9db3cce4b7df486305fb4e";

const OTHER_4: &str = "552ad6ab34961783bd0bc993d6213f2230ba4bee3f17b163d585a1cdc83cddf7";

// A ledger of the blocks of the records, sixteen in a move.
fn ledger_of<W: Threads + Sync>(
    rt: &W,
    alloc: Global,
    records: &[Bytes],
) -> Result<PlainLedger, Fail> {
    let mut ledger = PlainLedger::new(alloc);
    for start in 0..7usize {
        let from = 16 * start;
        let to = records.len().min(from + 16);
        if from < to {
            moved(rt, alloc, &mut ledger, 0, (records, from, to))?;
        }
    }
    Ok(ledger)
}

// Five blocks of a coinbase, of which the last three aren't those of the other chain.
fn five(alloc: Global) -> Result<Vec<Bytes>, Fail> {
    let mut records = coinbases(alloc, 2)?;
    for number in 1002..1005u32 {
        add(alloc, &mut records, number, None)?;
    }
    Ok(records)
}

// A ledger of so many coinbases.
fn chain_of<W: Threads + Sync>(rt: &W, alloc: Global, count: u32) -> Result<PlainLedger, Fail> {
    let records = coinbases(alloc, count)?;
    ledger_of(rt, alloc, records.as_slice())
}

// Whether both ledgers list the same entries of the script hash.
fn list_alike(
    alloc: Global,
    one: &mut PlainLedger,
    other: &mut PlainLedger,
    script: &Hash32,
) -> Result<bool, Fail> {
    let entries = one.history(alloc, script)?;
    let others = other.history(alloc, script)?;
    Ok(entries.as_slice() == others.as_slice())
}

// Whether both ledgers have the same five coins of the script hash.
fn have_five(
    alloc: Global,
    one: &mut PlainLedger,
    other: &mut PlainLedger,
    script: &Hash32,
) -> Result<bool, Fail> {
    let coins = one.unspent(alloc, script)?;
    let others = other.unspent(alloc, script)?;
    Ok(coins.as_slice() == others.as_slice() && coins.len() == 5)
}

// Whether both ledgers answer alike for the script hash, which has five coins.
fn answer_alike(
    alloc: Global,
    one: &mut PlainLedger,
    other: &mut PlainLedger,
) -> Result<bool, Fail> {
    let script = Hash32::from_shown(SCRIPT_101)?;
    Ok(list_alike(alloc, one, other, &script)? && have_five(alloc, one, other, &script)?)
}

// What the script of 101 has after 102 coinbases, and after five.
const ALL: [(&str, usize, u64); 1] = [(SCRIPT_101, 102, 510_000_000_000)];

const FIVE: [(&str, usize, u64); 1] = [(SCRIPT_101, 5, 25_000_000_000)];

// Takes a hundred blocks of 102 back, and puts the last three of five others in.
fn turn<W: Threads + Sync>(
    rt: &W,
    alloc: Global,
    ledger: &mut PlainLedger,
    others: &[Bytes],
) -> Result<(), Fail> {
    if !stands_at(alloc, ledger, (101, COINBASES_101), &ALL)? {
        return Err(Fail::new("the first chain stands otherwise"));
    }
    moved(rt, alloc, ledger, 100, (others, 2, 5))?;
    Ok(())
}

// A ledger of which a hundred blocks were taken back, and the last three of five others put in.
fn turned<W: Threads + Sync>(rt: &W, alloc: Global, others: &[Bytes]) -> Result<PlainLedger, Fail> {
    let mut ledger = chain_of(rt, alloc, 102)?;
    turn(rt, alloc, &mut ledger, others)?;
    Ok(ledger)
}

// Whether it then stands at the last of the others, and answers as if they had been put in alone.
fn takes_a_hundred<W: Threads + Sync>(rt: &W, alloc: Global) -> Result<bool, Fail> {
    let others = five(alloc)?;
    let mut ledger = turned(rt, alloc, others.as_slice())?;
    let mut anew = ledger_of(rt, alloc, others.as_slice())?;
    let alike = answer_alike(alloc, &mut ledger, &mut anew)?;
    Ok(alike && stands_at(alloc, &mut ledger, (4, OTHER_4), &FIVE)?)
}

// What the script of 101 has after the first block.
const ONE: [(&str, usize, u64); 1] = [(SCRIPT_101, 1, 5_000_000_000)];

// A ledger of two coinbases of one txid.
fn twins<W: Threads + Sync>(rt: &W, alloc: Global) -> Result<PlainLedger, Fail> {
    let mut records = coinbases(alloc, 1)?;
    add(alloc, &mut records, 0, None)?;
    ledger_of(rt, alloc, records.as_slice())
}

// Whether the coin that a second coinbase of one txid had replaced is a coin again.
fn makes_a_coin_again<W: Threads + Sync>(rt: &W, alloc: Global) -> Result<bool, Fail> {
    let mut ledger = twins(rt, alloc)?;
    moved(rt, alloc, &mut ledger, 1, (&[], 0, 0))?;
    let stands = stands_at(alloc, &mut ledger, (0, BLOCK_0), &ONE)?;
    Ok(stands && has_first_coin(alloc, &mut ledger)?)
}

// Whether the script of 101 has one coin, of 50 bitcoins at height 0.
fn has_first_coin(alloc: Global, ledger: &mut PlainLedger) -> Result<bool, Fail> {
    let script = Hash32::from_shown(SCRIPT_101)?;
    let coins = ledger.unspent(alloc, &script)?;
    Ok(coins.len() == 1 && coins[0].height == 0 && coins[0].value == 5_000_000_000)
}

const BAD_THIRD: Wrong = Wrong {
    root_of: 3,
    ..NONE_WRONG
};

// What the scripts of 1 and 101 have after three coinbases.
const THREE: [(&str, usize, u64); 2] = [(SCRIPT_1, 0, 0), (SCRIPT_101, 3, 15_000_000_000)];

// Whether a move back whose third new block is bad changes nothing.
fn changes_nothing<W: Threads + Sync>(rt: &W, alloc: Global) -> Result<bool, Fail> {
    let mut ledger = chain_of(rt, alloc, 3)?;
    let others = four(alloc, BAD_THIRD)?;
    let found = stopped_by(rt, alloc, &mut ledger, 2, others.as_slice(), BAD_THIRD)?;
    let is_bad = matches!(found, Some(MoveFault::BadBlock { .. }));
    Ok(is_bad && stands_at(alloc, &mut ledger, (2, COINBASES_2), &THREE)?)
}

// What the scripts of 1 and 100 have after two of the four blocks.
const TWO: [(&str, usize, u64); 2] = [(SCRIPT_1, 0, 0), (SCRIPT_100, 1, 2_500_000_000)];

// A ledger of the four blocks.
fn first_four<W: Threads + Sync>(rt: &W, alloc: Global) -> Result<PlainLedger, Fail> {
    let records = four(alloc, NONE_WRONG)?;
    ledger_of(rt, alloc, records.as_slice())
}

// Takes two blocks back, and tells whether that touches the scripts of 1 and 101, and no other.
fn touches_two<W: Threads + Sync>(
    rt: &W,
    alloc: Global,
    ledger: &mut PlainLedger,
) -> Result<bool, Fail> {
    let moved = moved(rt, alloc, ledger, 2, (&[], 0, 0))?;
    Ok(touches(&moved, [SCRIPT_1, SCRIPT_101].as_slice()))
}

// Whether a move that only takes blocks back touches the scripts of these, and no other.
fn touches_what_is_removed<W: Threads + Sync>(rt: &W, alloc: Global) -> Result<bool, Fail> {
    let mut ledger = first_four(rt, alloc)?;
    let touched = touches_two(rt, alloc, &mut ledger)?;
    Ok(touched && stands_at(alloc, &mut ledger, (1, BLOCK_1), &TWO)?)
}

fn moves_back<W: Threads + Sync>(rt: &W, alloc: Global) -> Result<[bool; 4], Fail> {
    let hundred = takes_a_hundred(rt, alloc)?;
    let again = makes_a_coin_again(rt, alloc)?;
    let nothing = changes_nothing(rt, alloc)?;
    Ok([hundred, again, nothing, touches_what_is_removed(rt, alloc)?])
}

#[test]
fn takes_blocks_back(rt: HostRuntime) -> Result<(), Fail> {
    let rights = moves_back(&rt, rt.alloc())?;
    assert_eq!(rt; rights, [true; 4]);
    Ok(())
}
