// Random tables: transactions come, are dropped, and blocks come and go, and after each step what the set
// tells is what a plain list tells that is sifted anew and walked from its start for each question; so with
// the fee histogram, whose table follows the set.
ghost use Rattle.std.specs.Prelude.{◌≤◌, length, IfSome};
ghost use Rattle.el_tx.specs.Encoding.{HasEncoding};

use crate::pool::{coinbase_id, encoded, extend};
use el_base::{Bytes, Hash32, OutOfMemory, sha256};
use el_chain::{Coin, Touched};
use el_fees::FeeTable;
use el_gen::spend;
use el_mempool::{Held, PoolEntry, PoolLimits};
use el_model::Ledger;
use el_plain::PlainLedger;
use el_pool::Pool;
use el_sift::Reach;
use el_tx::{Outpoint, Tx, txid};
use std::alloc::Global;
use std::process::Abort;

// Transactions pay to the scripts of 0 to 4, coinbases to that of 101.
const SCRIPTS: &[u32] = &[0, 1, 2, 3, 4, 101];

// The edges of fee rates in satoshi a virtual byte, falling.
const EDGES: &[u64] = &[
    10_000, 5_000, 2_000, 1_000, 500, 200, 100, 50, 20, 10, 5, 2, 1, 0,
];

// How much less than it takes a transaction may give, and a little more: by these a few hundred bytes have
// each edge.
const LESS: &[u64] = &[
    4, 80, 200, 400, 900, 2_000, 4_000, 9_000, 20_000, 40_000, 90_000, 200_000, 400_000, 900_000,
];

// A transaction of one or two inputs and one or two outputs.
#[derive(Clone, Copy)]
struct Made {
    txid: Hash32,
    first: Outpoint,
    second: Option<Outpoint>,
    to: (u64, u32),
    also: Option<(u64, u32)>,
}

// A set, the plain list beside it, and the chain: at each height the transaction that the block has beside
// its coinbase. All transactions that were made stand in `all`, and lists name them by their places there.
#[derive(Drop)]
struct Walk {
    alloc: Global,
    seed: u64,
    pool: Pool,
    fees: FeeTable,
    ledger: PlainLedger,
    blocks: Vec<Option<usize>>,
    all: Vec<Made>,
    kept: Vec<usize>,
}

// What clients see at a script hash.
#[derive(Drop)]
struct Seen {
    entries: Vec<PoolEntry>,
    outs: Vec<Coin>,
}

fn random(seed: &mut u64, below: u64) -> u64 {
    let mut x = *seed;
    x ^= x << 13;
    x ^= x >> 7;
    x ^= x << 17;
    *seed = x;
    x.checked_rem(below).unwrap_or(0)
}

fn random_number(walk: &mut Walk, below: u64) -> u32 {
    match u32::try_from(random(&mut walk.seed, below)) {
        Ok(number) => number,
        Err(_) => 0,
    }
}

fn in_64_bits(sum: u128) -> u64 {
    match u64::try_from(sum) {
        Ok(sum) => sum,
        Err(_) => u64::MAX,
    }
}

fn script_hash(k: u32) -> Hash32 {
    let [a, b, c, d] = k.to_le_bytes();
    sha256([4, a, b, c, d].as_slice())
}

fn held(to: (u64, u32)) -> Held {
    Held {
        value: to.0,
        script: script_hash(to.1),
    }
}

fn takes(made: &Made, outpoint: &Outpoint) -> bool {
    made.first == *outpoint || made.second == Some(*outpoint)
}

fn also_held(made: &Made) -> Option<Held> {
    match made.also {
        Some(to) => Some(held(to)),
        None => None,
    }
}

fn output_at(made: &Made, index: u32) -> Option<Held> {
    match index {
        0 => Some(held(made.to)),
        1 => also_held(made),
        _ => None,
    }
}

fn given(made: &Made) -> u128 {
    let also = match made.also {
        Some(to) => to.0,
        None => 0,
    };
    u128::from(made.to.0).saturating_add(u128::from(also))
}

// What the outpoint names: a coin of the ledger's chain, or an output of one of the list.
fn named(
    ledger: &mut PlainLedger,
    all: &[Made],
    list: &[usize],
    outpoint: &Outpoint,
) -> Option<Held> {
    if let Ok(Some(coin)) = ledger.coin(outpoint) {
        return Some(Held {
            value: coin.value,
            script: coin.script,
        });
    }
    for place in list {
        let made = all.get(*place)?;
        if made.txid == outpoint.txid {
            return output_at(made, outpoint.index);
        }
    }
    None
}

fn is_taken(all: &[Made], list: &[usize], outpoint: &Outpoint) -> bool {
    for place in list {
        if let Some(made) = all.get(*place) {
            if takes(made, outpoint) {
                return true;
            }
        }
    }
    false
}

fn is_listed(all: &[Made], list: &[usize], id: &Hash32) -> bool {
    for place in list {
        if let Some(made) = all.get(*place) {
            if made.txid == *id {
                return true;
            }
        }
    }
    false
}

// What the inputs take together, where each names something.
fn taken(ledger: &mut PlainLedger, all: &[Made], list: &[usize], made: &Made) -> Option<u128> {
    let first = named(ledger, all, list, &made.first)?;
    let second = match made.second {
        Some(outpoint) => named(ledger, all, list, &outpoint)?.value,
        None => 0,
    };
    Some(u128::from(first.value) + u128::from(second))
}

fn may_join(ledger: &mut PlainLedger, all: &[Made], list: &[usize], made: &Made) -> bool {
    if !matches!(ledger.find_tx(&made.txid), Ok(None)) {
        return false;
    }
    let free = match made.second {
        Some(second) => second != made.first && !is_taken(all, list, &second),
        None => true,
    };
    if !free || is_taken(all, list, &made.first) {
        return false;
    }
    match taken(ledger, all, list, made) {
        Some(sum) => given(made) <= sum,
        None => false,
    }
}

// Whether the one at that place may join.
fn joins_at(ledger: &mut PlainLedger, all: &[Made], list: &[usize], place: usize) -> bool {
    match all.get(place) {
        Some(made) => may_join(ledger, all, list, made),
        None => false,
    }
}

// Those of the list that are kept over the ledger's chain.
fn sifted(
    alloc: Global,
    ledger: &mut PlainLedger,
    all: &[Made],
    list: &[usize],
) -> Result<Vec<usize>, OutOfMemory> {
    let mut kept = Vec::new(alloc);
    for place in list {
        if joins_at(ledger, all, kept.as_slice(), *place) {
            kept.push(*place)?;
        }
    }
    Ok(kept)
}

fn spends_script(walk: &mut Walk, outpoint: &Outpoint, script: &Hash32) -> bool {
    match named(
        &mut walk.ledger,
        walk.all.as_slice(),
        walk.kept.as_slice(),
        outpoint,
    ) {
        Some(held) => held.script == *script,
        None => false,
    }
}

fn concerns(walk: &mut Walk, made: &Made, script: &Hash32) -> bool {
    let funds = held(made.to).script == *script
        || match made.also {
            Some(to) => held(to).script == *script,
            None => false,
        };
    let second = match made.second {
        Some(outpoint) => spends_script(walk, &outpoint, script),
        None => false,
    };
    funds || second || spends_script(walk, &made.first, script)
}

// What clients see of the transaction.
fn entry_of(walk: &mut Walk, made: &Made) -> PoolEntry {
    let all = walk.all.as_slice();
    let list = walk.kept.as_slice();
    let after = is_listed(all, list, &made.first.txid)
        || match made.second {
            Some(outpoint) => is_listed(all, list, &outpoint.txid),
            None => false,
        };
    let sum = taken(&mut walk.ledger, all, list, made).unwrap_or(0);
    PoolEntry {
        txid: made.txid,
        flag: if after { -1 } else { 0 },
        fee: in_64_bits(sum.saturating_sub(given(made))),
    }
}

fn made_at(walk: &Walk, number: usize) -> Option<Made> {
    let place = *walk.kept.as_slice().get(number)?;
    walk.all.as_slice().get(place).copied()
}

fn rises(entries: &[PoolEntry]) -> bool {
    let mut before: Option<[u8; 64]> = None;
    for entry in entries {
        let text = entry.txid.shown();
        if let Some(last) = before {
            if last >= text {
                return false;
            }
        }
        before = Some(text);
    }
    true
}

// The entries are those of the kept ones that concern the script hash, by their shown txids.
fn entries_agree(walk: &mut Walk, entries: &[PoolEntry], script: &Hash32) -> bool {
    let mut count = 0usize;
    for number in 0..walk.kept.len() {
        let Some(made) = made_at(walk, number) else {
            return false;
        };
        if concerns(walk, &made, script) {
            let entry = entry_of(walk, &made);
            if !entries.contains(&entry) {
                return false;
            }
            count = count.saturating_add(1);
        }
    }
    count == entries.len() && rises(entries)
}

fn out_agrees(
    walk: &Walk,
    outs: &[Coin],
    outpoint: Outpoint,
    held: Held,
    script: &Hash32,
) -> usize {
    let all = walk.all.as_slice();
    if held.script != *script || is_taken(all, walk.kept.as_slice(), &outpoint) {
        return 0;
    }
    let coin = Coin {
        outpoint,
        value: held.value,
        script: held.script,
        height: 0,
    };
    if outs.contains(&coin) { 1 } else { 1_000_000 }
}

fn outs_rise(outs: &[Coin]) -> bool {
    let mut before: Option<([u8; 64], u32)> = None;
    for out in outs {
        let next = (out.outpoint.txid.shown(), out.outpoint.index);
        if let Some(last) = before {
            if last >= next {
                return false;
            }
        }
        before = Some(next);
    }
    true
}

// The outputs are those of kept ones that have the script hash and that no kept one takes.
fn outs_agree(walk: &Walk, outs: &[Coin], script: &Hash32) -> bool {
    let mut count = 0usize;
    for number in 0..walk.kept.len() {
        let Some(made) = made_at(walk, number) else {
            return false;
        };
        for index in 0..2u32 {
            if let Some(held) = output_at(&made, index) {
                let txid = made.txid;
                let more = out_agrees(walk, outs, Outpoint { txid, index }, held, script);
                count = count.saturating_add(more);
            }
        }
    }
    count == outs.len() && outs_rise(outs)
}

fn seen_at(pool: &Pool, script: &Hash32) -> Result<Seen, OutOfMemory> {
    Ok(Seen {
        entries: pool.entries(script)?,
        outs: pool.outs(script)?,
    })
}

fn all_seen(alloc: Global, pool: &Pool) -> Result<Vec<Seen>, OutOfMemory> {
    let mut seen = Vec::new(alloc);
    for k in SCRIPTS.iter() {
        seen.push(seen_at(pool, &script_hash(*k))?)?;
    }
    Ok(seen)
}

// Whether what is seen is what the plain list tells.
fn is_right(walk: &mut Walk, now: &Seen, script: &Hash32) -> bool {
    entries_agree(walk, now.entries.as_slice(), script)
        && outs_agree(walk, now.outs.as_slice(), script)
}

fn differ(before: &Seen, now: &Seen) -> bool {
    before.entries.as_slice() != now.entries.as_slice()
        || before.outs.as_slice() != now.outs.as_slice()
}

// Whether what is seen is right, and differs from before exactly where the script hash is touched.
fn is_touched_so(
    walk: &mut Walk,
    before: &Seen,
    now: &Seen,
    touched: &Touched,
    script: &Hash32,
) -> bool {
    is_right(walk, now, script) && differ(before, now) == touched.has(script)
}

// The set tells what the plain list tells, and just the script hashes are touched at which that differs from
// before.
fn agrees_at(walk: &mut Walk, before: &Seen, touched: &Touched, k: u32) -> bool {
    let script = script_hash(k);
    match seen_at(&walk.pool, &script) {
        Ok(now) => is_touched_so(walk, before, &now, touched, &script),
        Err(_) => false,
    }
}

// How many of the scripts are touched.
fn count_of(touched: &Touched) -> usize {
    let mut count = 0usize;
    for k in SCRIPTS.iter() {
        if touched.has(&script_hash(*k)) {
            count = count.saturating_add(1);
        }
    }
    count
}

// The first edge that times the size is at most the fee.
fn edge_of(fee: u64, size: u64) -> u64 {
    for edge in EDGES.iter() {
        if edge.saturating_mul(size) <= fee {
            return *edge;
        }
    }
    0
}

// The edge and the size of the kept one of that number. Without witnesses it has as many virtual bytes as
// bytes.
fn rated_at(walk: &mut Walk, number: usize) -> Option<(u64, u64)> {
    let made = made_at(walk, number)?;
    let size = bytes_of(walk.alloc, &made)?.len() as u64;
    Some((edge_of(entry_of(walk, &made).fee, size), size))
}

// The edges and the sizes of all kept ones.
fn all_rated(walk: &mut Walk) -> Option<Vec<(u64, u64)>> {
    let mut rated = Vec::new(walk.alloc);
    for number in 0..walk.kept.len() {
        rated.push(rated_at(walk, number)?).ok()?;
    }
    Some(rated)
}

// The sizes of those that have the edge, together.
fn sum_at(rated: &[(u64, u64)], edge: u64) -> u64 {
    let mut sum = 0u64;
    for (own, size) in rated {
        if *own == edge {
            sum = sum.saturating_add(*size);
        }
    }
    sum
}

// The edges that some have, with their sums.
fn sums_of(alloc: Global, rated: &[(u64, u64)]) -> Option<Vec<(u64, u64)>> {
    let mut sums = Vec::new(alloc);
    for edge in EDGES.iter() {
        let sum = sum_at(rated, *edge);
        if sum > 0 {
            sums.push((*edge, sum)).ok()?;
        }
    }
    Some(sums)
}

// The plain sums over the kept list.
fn plain_sums(walk: &mut Walk) -> Option<Vec<(u64, u64)>> {
    let rated = all_rated(walk)?;
    sums_of(walk.alloc, rated.as_slice())
}

// Whether the histogram is the plain sums over the kept list.
fn fees_agree(walk: &mut Walk) -> bool {
    let Some(sums) = plain_sums(walk) else {
        return false;
    };
    match walk.fees.histogram(walk.alloc) {
        Ok(rows) => rows.as_slice() == sums.as_slice(),
        Err(_) => false,
    }
}

fn agrees(walk: &mut Walk, before: &[Seen], touched: &Touched) -> bool {
    fees_agree(walk) && scripts_agree(walk, before, touched)
}

// Where nothing was asked before, nothing is compared.
fn scripts_agree(walk: &mut Walk, before: &[Seen], touched: &Touched) -> bool {
    if before.is_empty() {
        return true;
    }
    for (was, k) in before.iter().zip(SCRIPTS) {
        if !agrees_at(walk, was, touched, *k) {
            return false;
        }
    }
    before.len() == SCRIPTS.len() && count_of(touched) == touched.list().len()
}

// The transaction that takes these coins and gives to these scripts; none where memory runs out.
fn built(alloc: Global, from: &[Outpoint], made: &Made) -> Option<Tx>
    requires some { 1 ≤ length from.now }
    requires few { made.now.to.0 ≤ 50000000000 }
    ensures { IfSome result HasEncoding }
{
    let built = match made.also {
        Some(also) if also.0 > 50_000_000_000 => return None,
        Some(also) => spend(alloc, from, [made.to, also].as_slice()),
        None => spend(alloc, from, [made.to].as_slice()),
    };
    built.ok()
}

// The transaction's bytes; none where memory runs out or it gives too much.
fn made_tx(alloc: Global, made: &Made) -> Option<Tx>
    ensures { IfSome result HasEncoding }
{
    if made.to.0 > 50_000_000_000 {
        return None;
    }
    match made.second {
        Some(second) => built(alloc, [made.first, second].as_slice(), made),
        None => built(alloc, [made.first].as_slice(), made),
    }
}

// An output of a coinbase.
fn some_coinbase(walk: &mut Walk) -> Outpoint {
    Outpoint {
        txid: coinbase_id(walk.alloc, random_number(walk, 6)),
        index: 0,
    }
}

// One of those that were made, or none.
fn some_made(walk: &mut Walk) -> Option<Made> {
    let count = walk.all.len() as u64 + 4;
    let number = random(&mut walk.seed, count);
    walk.all.as_slice().get(number as usize).copied()
}

// An output of a coinbase or of a transaction that was made.
fn some_output(walk: &mut Walk) -> Outpoint {
    match some_made(walk) {
        Some(made) => Outpoint {
            txid: made.txid,
            index: random_number(walk, 2),
        },
        None => some_coinbase(walk),
    }
}

fn some_script(walk: &mut Walk) -> u32 {
    random_number(walk, 5)
}

// Now and then an output.
fn some_second(walk: &mut Walk) -> Option<Outpoint> {
    if random(&mut walk.seed, 3) == 0 {
        Some(some_output(walk))
    } else {
        None
    }
}

// One that takes so and gives nothing.
fn taking(walk: &mut Walk) -> Made {
    Made {
        txid: Hash32([0; 32]),
        first: some_output(walk),
        second: some_second(walk),
        to: (0, some_script(walk)),
        also: None,
    }
}

// How much less, or a little more.
fn some_less(walk: &mut Walk) -> u64 {
    let place = random(&mut walk.seed, LESS.len() as u64) as usize;
    LESS.get(place).copied().unwrap_or(4)
}

// What it may give: what it takes or less, and now and then too much.
fn some_sum(walk: &mut Walk, made: &Made) -> u64 {
    let less = some_less(walk);
    let all = walk.all.as_slice();
    let sum = taken(&mut walk.ledger, all, walk.kept.as_slice(), made).unwrap_or(9);
    in_64_bits(sum)
        .saturating_add(random(&mut walk.seed, 6))
        .saturating_sub(less)
}

// It gives the sum, now and then in two parts.
fn giving(walk: &mut Walk, made: Made, sum: u64) -> Made {
    let half = random(&mut walk.seed, sum.saturating_add(1));
    let script = made.to.1;
    if random(&mut walk.seed, 2) == 0 {
        Made {
            to: (half, script),
            also: Some((sum.saturating_sub(half), some_script(walk))),
            ..made
        }
    } else {
        Made {
            to: (sum, script),
            ..made
        }
    }
}

// It with its txid.
fn named_so(alloc: Global, made: Made) -> Option<Made> {
    let tx = made_tx(alloc, &made)?;
    let txid = txid(alloc, &tx).ok()?;
    Some(Made { txid, ..made })
}

// A new transaction.
fn make(walk: &mut Walk) -> Option<Made> {
    let nothing = taking(walk);
    let sum = some_sum(walk, &nothing);
    let made = giving(walk, nothing, sum);
    named_so(walk.alloc, made)
}

// Whether it joins the plain list.
fn joins(walk: &mut Walk, made: &Made) -> bool {
    let (all, list) = (walk.all.as_slice(), walk.kept.as_slice());
    may_join(&mut walk.ledger, all, list, made) && !is_listed(all, list, &made.txid)
}

// Adds it to those that were made, and to the plain list.
fn keep_made(walk: &mut Walk, made: &Made) -> bool {
    let place = walk.all.len();
    walk.all.push(*made).is_ok() && walk.kept.push(place).is_ok()
}

// Whether the set keeps it, and the plain list with it is what the set then is.
fn is_kept(walk: &mut Walk, before: &[Seen], made: &Made, bytes: &[u8]) -> bool {
    match walk.pool.add(&mut walk.ledger, bytes) {
        Ok((id, touched)) => {
            walk.fees.follow(walk.pool.last_changes());
            id == made.txid && keep_made(walk, made) && agrees(walk, before, &touched)
        }
        Err(_) => false,
    }
}

// Whether the set refuses it, and nothing changes.
fn is_refused(walk: &mut Walk, before: &[Seen], made: &Made, bytes: &[u8]) -> bool {
    walk.pool.add(&mut walk.ledger, bytes).is_err()
        && walk.all.push(*made).is_ok()
        && agrees(walk, before, &Touched::new(walk.alloc))
}

// The bytes of a transaction, if it can be made.
fn bytes_of(alloc: Global, made: &Made) -> Option<Bytes> {
    let tx = made_tx(alloc, made)?;
    Some(encoded(alloc, &tx))
}

// Whether a new transaction joins both lists or neither.
fn joins_both(walk: &mut Walk, before: &[Seen], made: &Made, bytes: &[u8]) -> bool {
    if joins(walk, made) {
        is_kept(walk, before, made, bytes)
    } else {
        is_refused(walk, before, made, bytes)
    }
}

// A new transaction comes, if one can be made.
fn comes(walk: &mut Walk, before: &[Seen]) -> bool {
    let Some(made) = make(walk) else {
        return true;
    };
    match bytes_of(walk.alloc, &made) {
        Some(bytes) => joins_both(walk, before, &made, bytes.as_slice()),
        None => true,
    }
}

// Both lists are sifted anew, over the ledger as it is.
fn sift_list(walk: &mut Walk) -> bool {
    match sifted(
        walk.alloc,
        &mut walk.ledger,
        walk.all.as_slice(),
        walk.kept.as_slice(),
    ) {
        Ok(kept) => {
            walk.kept = kept;
            true
        }
        Err(_) => false,
    }
}

// The plain list is without that one.
fn leave_out(walk: &mut Walk, number: usize) {
    if number < walk.kept.len() {
        walk.kept.remove(number);
    }
}

// Whether the set drops it, with all that spend it, as the plain list does.
fn drops_from_both(walk: &mut Walk, before: &[Seen], txid: &Hash32) -> bool {
    match walk.pool.drop_tx(txid) {
        Ok(Some(touched)) => {
            walk.fees.follow(walk.pool.last_changes());
            sift_list(walk) && agrees(walk, before, &touched)
        }
        _ => false,
    }
}

// Whether the set lacks a transaction that was never made, and no fee changes.
fn drops_nothing(walk: &mut Walk) -> bool {
    let lacks = matches!(walk.pool.drop_tx(&Hash32([0; 32])), Ok(None));
    walk.fees.follow(walk.pool.last_changes());
    lacks && fees_agree(walk)
}

// One of the kept ones is dropped, with all that spend it.
fn drops(walk: &mut Walk, before: &[Seen]) -> bool {
    let count = walk.kept.len() as u64;
    let number = random(&mut walk.seed, count) as usize;
    match made_at(walk, number) {
        Some(made) => {
            leave_out(walk, number);
            drops_from_both(walk, before, &made.txid)
        }
        None => drops_nothing(walk),
    }
}

// The block's transaction beside its coinbase.
fn beside(alloc: Global, all: &[Made], place: Option<usize>) -> Option<Tx>
    ensures { IfSome result HasEncoding }
{
    match all.get(place?) {
        Some(made) => made_tx(alloc, made),
        None => None,
    }
}

fn ledger_of(alloc: Global, all: &[Made], blocks: &[Option<usize>]) -> PlainLedger {
    let mut ledger = PlainLedger::new(alloc);
    for (height, place) in blocks.iter().enumerate() {
        if height < 100 {
            extend(
                alloc,
                &mut ledger,
                height as u32,
                beside(alloc, all, *place),
            );
        }
    }
    ledger
}

// The place of a transaction that the next block may have, if the one that chance names may stand there.
fn some_block(walk: &mut Walk) -> Option<usize> {
    let count = walk.all.len() as u64;
    let place = random(&mut walk.seed, count) as usize;
    let made = walk.all.as_slice().get(place).copied()?;
    if may_join(&mut walk.ledger, walk.all.as_slice(), [].as_slice(), &made) {
        Some(place)
    } else {
        None
    }
}

// The ledger of the blocks as they are.
fn build_ledger(walk: &mut Walk) {
    walk.ledger = ledger_of(walk.alloc, walk.all.as_slice(), walk.blocks.as_slice());
}

// The script hash of the output that the outpoint names: a transaction's, or a coinbase's.
fn script_at(all: &[Made], outpoint: &Outpoint) -> Hash32 {
    for made in all {
        if made.txid == outpoint.txid {
            if let Some(held) = output_at(made, outpoint.index) {
                return held.script;
            }
        }
    }
    script_hash(101)
}

// Adds the script hashes of what the transaction makes and takes.
fn touch_made(all: &[Made], made: &Made, touched: &mut Touched) -> Result<(), OutOfMemory> {
    touched.add(held(made.to).script)?;
    if let Some(held) = also_held(made) {
        touched.add(held.script)?;
    }
    touched.add(script_at(all, &made.first))?;
    if let Some(second) = made.second {
        touched.add(script_at(all, &second))?;
    }
    Ok(())
}

// The transaction that a block has beside its coinbase, if it has one.
fn made_in(walk: &Walk, place: Option<usize>) -> Option<Made> {
    walk.all.as_slice().get(place?).copied()
}

// Adds those of a block that comes or goes.
fn touch_block(walk: &Walk, place: Option<usize>, touched: &mut Touched) -> bool {
    if touched.add(script_hash(101)).is_err() {
        return false;
    }
    match made_in(walk, place) {
        Some(made) => touch_made(walk.all.as_slice(), &made, touched).is_ok(),
        None => true,
    }
}

// Adds a block.
fn add_block(walk: &mut Walk, touched: &mut Touched) -> bool {
    let place = some_block(walk);
    if walk.blocks.push(place).is_err() {
        return false;
    }
    build_ledger(walk);
    touch_block(walk, place, touched)
}

// Takes a block back where there are some, and chance will have it.
fn takes_back(walk: &mut Walk, touched: &mut Touched) -> bool {
    let back = walk.blocks.len() > 4 && random(&mut walk.seed, 3) == 0;
    if back {
        if let Some(place) = walk.blocks.pop() {
            build_ledger(walk);
            return touch_block(walk, place, touched);
        }
    }
    back
}

// Whether both lists are the same after a move that left so many blocks and touched these script hashes;
// chance says whether the set is told how far it reached.
fn moves_both(walk: &mut Walk, before: &[Seen], same: u64, touched: &Touched) -> bool {
    let reach = match random(&mut walk.seed, 2) {
        0 => None,
        _ => Some(Reach { same, touched }),
    };
    match walk.pool.after_move(&mut walk.ledger, reach) {
        Ok(touched) => {
            walk.fees.follow(walk.pool.last_changes());
            sift_list(walk) && agrees(walk, before, &touched)
        }
        Err(_) => false,
    }
}

// A block comes, or one goes, and now and then another comes in its place.
fn moves(walk: &mut Walk, before: &[Seen]) -> bool {
    let mut touched = Touched::new(walk.alloc);
    let back = takes_back(walk, &mut touched);
    let same = walk.blocks.len().min(100) as u64;
    let comes = !back || random(&mut walk.seed, 2) == 0;
    (!comes || add_block(walk, &mut touched)) && moves_both(walk, before, same, &touched)
}

// A step that chance names, over what was seen before.
fn some_step(walk: &mut Walk, before: &[Seen]) -> bool {
    match random(&mut walk.seed, 8) {
        0 => drops(walk, before),
        1 | 2 => moves(walk, before),
        _ => comes(walk, before),
    }
}

fn steps_once(walk: &mut Walk) -> bool {
    match all_seen(walk.alloc, &walk.pool) {
        Ok(before) => some_step(walk, before.as_slice()),
        Err(_) => false,
    }
}

// How many steps left the fees as they should, of so many.
fn fee_steps(walk: &mut Walk, count: u32) -> u32 {
    let before: Vec<Seen> = Vec::new(walk.alloc);
    for number in 0..count {
        if !some_step(walk, before.as_slice()) {
            return number;
        }
    }
    count
}

// A walk over no blocks.
fn start(alloc: Global, seed: u64) -> Walk {
    let limits = PoolLimits {
        count: 1_000,
        bytes: 1_000_000,
    };
    Walk {
        alloc,
        seed,
        pool: Pool::new(alloc, limits),
        fees: FeeTable::new(),
        ledger: PlainLedger::new(alloc),
        blocks: Vec::new(alloc),
        all: Vec::new(alloc),
        kept: Vec::new(alloc),
    }
}

// Four blocks of a coinbase each come.
fn begins(walk: &mut Walk) -> bool {
    for _ in 0..4u32 {
        if walk.blocks.push(None).is_err() {
            return false;
        }
    }
    build_ledger(walk);
    true
}

// How many steps went as they should, of so many.
fn steps(walk: &mut Walk, count: u32) -> u32 {
    for number in 0..count {
        if !steps_once(walk) {
            return number;
        }
    }
    count
}

fn walks(alloc: Global, seed: u64, count: u32) -> u32 {
    let mut walk = start(alloc, seed);
    if begins(&mut walk) {
        steps(&mut walk, count)
    } else {
        0
    }
}

#[test]
fn fees_are_plain_sums_after_many_calls(rt: HostRuntime) {
    let mut walk = start(rt.alloc(), 9);
    assert!(rt; begins(&mut walk));
    assert!(rt; fee_steps(&mut walk, 300) == 300);
}

#[test]
fn random_tables_are_those_of_a_plain_list(rt: HostRuntime) {
    let alloc = rt.alloc();
    for seed in 1..9u64 {
        assert!(rt; walks(alloc, seed, 60) == 60);
    }
}
