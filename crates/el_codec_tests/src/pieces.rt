// Blocks prepared side by side: several of them, up to the first bad one, and pieces that meet.
use crate::digits::{AFTER_ROOT, BEFORE_ROOT, COIN, ROOT_COIN_A, SIGNED_A, bytes_of, shown_is};
use el_base::{Bytes, CompactFault};
use el_block::BlockFault;
use el_fakes::MeetPace;
use el_gen::{BLOCK_1, BLOCK_1_HASH, GENESIS, GENESIS_HASH};
use el_outside::{NoPace, Pace};
use el_prepare::{Prepared, prepare, prepare_all, prepare_batch};
use std::alloc::Global;
use std::test::Fail;
use std::thread::{self, Threads};

// How often a piece looks for the other one: far more often than is ever needed.
const LOOKS: u64 = 50_000_000;

// A block of a coinbase and a transaction with a witness.
const TWO: [&str; 6] = [BEFORE_ROOT, ROOT_COIN_A, AFTER_ROOT, "02", COIN, SIGNED_A];

// A header alone, which is no block.
const HEADER: [&str; 3] = [BEFORE_ROOT, ROOT_COIN_A, AFTER_ROOT];

// The bytes of blocks that hex texts give.
fn texts_of(alloc: Global, blocks: &[&[&str]]) -> Result<Vec<Bytes>, Fail> {
    let mut texts = Vec::new(alloc);
    for parts in blocks {
        texts.push(Bytes::from_vec(bytes_of(alloc, parts)?))?;
    }
    Ok(texts)
}

// Whether these blocks were prepared, by their hashes as users see them.
fn are(prepared: &[Prepared], hashes: &[&str]) -> bool {
    let mut alike = prepared.len() == hashes.len();
    for (block, hash) in prepared.iter().zip(hashes.iter()) {
        alike = alike && shown_is(block.hash, hash);
    }
    alike
}

// Whether of these blocks those with these hashes are prepared, and then comes this fault; as a batch too.
fn gives<W: Threads + Sync>(
    rt: &W,
    alloc: Global,
    blocks: &[&[&str]],
    hashes: &[&str],
    fault: Option<BlockFault>,
) -> Result<bool, Fail> {
    let texts = texts_of(alloc, blocks)?;
    let (all, first) = prepare_all(rt, alloc, texts.as_slice(), &NoPace)?;
    let (batch, found) = prepare_batch(rt, alloc, texts.as_slice(), &NoPace)?;
    Ok(
        first == fault
            && found == fault
            && are(all.as_slice(), hashes)
            && are(batch.as_slice(), hashes),
    )
}

#[test]
fn prepares_up_to_the_first_bad_block(rt: HostRuntime) -> Result<(), Fail> {
    let zero: &[&str] = &[GENESIS];
    let one: &[&str] = &[BLOCK_1];
    let bad: &[&str] = HEADER.as_slice();
    let number = CompactFault::Short { place: 80 };
    let fault = Some(BlockFault::Count(number));
    assert!(rt; gives(&rt, rt.alloc(), &[], &[], None)?, "none");
    assert!(rt;
        gives(&rt, rt.alloc(), &[one], &[BLOCK_1_HASH], None)?,
        "one"
    );
    assert!(rt;
        gives(
            &rt,
            rt.alloc(),
            &[zero, one],
            &[GENESIS_HASH, BLOCK_1_HASH],
            None
        )?,
        "two"
    );
    assert!(rt; gives(&rt, rt.alloc(), &[bad], &[], fault)?, "a bad one");
    assert!(rt;
        gives(
            &rt,
            rt.alloc(),
            &[zero, bad, one, bad],
            &[GENESIS_HASH],
            fault
        )?,
        "a bad one among others"
    );
    Ok(())
}

#[test]
fn pieces_of_a_block_meet(rt: HostRuntime) -> Result<(), Fail> {
    let pace = MeetPace::new(0, 1, LOOKS);
    let bytes = bytes_of(rt.alloc(), TWO.as_slice())?;
    let prepared = prepare(&rt, rt.alloc(), bytes.as_slice(), &pace)?;
    assert_eq!(rt; prepared.txs.len(), 2);
    assert!(rt; pace.met());
    Ok(())
}

#[test]
fn blocks_of_a_batch_meet(rt: HostRuntime) -> Result<(), Fail> {
    let pace = MeetPace::new(0, 1, LOOKS);
    let texts = texts_of(rt.alloc(), &[&[GENESIS], &[BLOCK_1]])?;
    let (blocks, fault) = prepare_batch(&rt, rt.alloc(), texts.as_slice(), &pace)?;
    assert!(rt; fault.is_none() && blocks.len() == 2);
    assert!(rt; pace.met());
    Ok(())
}

// Two pieces begin, one after the other. Any pace that is lent is one.
fn enter_both(pace: &(dyn Pace + Sync), first: u64, second: u64) {
    pace.enter(first);
    pace.enter(second);
}

#[test]
fn one_thread_never_meets(rt: HostRuntime) {
    for (first, second) in [(0, 1), (1, 0)] {
        let pace = MeetPace::new(0, 1, 1_000);
        enter_both(&pace, first, second);
        enter_both(&pace, second, first);
        assert!(rt; !pace.met(), "{first} first");
    }
}

#[test]
fn eight_threads_meet(rt: HostRuntime) -> Result<(), Fail> {
    let pace = MeetPace::new(0, 1, LOOKS);
    let pieces = thread::map_indices(&rt, rt.alloc(), 8, &|i| pace.enter(i as u64))?;
    assert_eq!(rt; pieces.len(), 8);
    assert!(rt; pace.met());
    Ok(())
}
