// The methods over Bitcoin's first two blocks and two unconfirmed transactions: one takes the coin of the
// second block, and its child gives a part back to the same script. Hashes and statuses were computed by
// another program from the rules.
use crate::methods::{Row, Told, World, decoded, says, told_in, world_over};
use el_base::Bytes;
use el_gen::{BLOCK_1, GENESIS};
use std::alloc::Global;
use std::test::Fail;

const PARENT: &str =
    "0100000001982051fd1e4ba744bbbe680e1fee14677ba1a3c3540bf7b1cdb606e857233e0e0000000000\
         0000000001f0ca052a0100000005040404040400000000";

const CHILD: &str =
    "01000000012ed226d0f7ff8bb7352608fd306801a74131f39328410b2a5f186757537c997a0000000000\
         000000000200ca9a3b00000000050404040404e0d96aee0000000005040505050500000000";

// What is answered with both.
const BOTH: &[Row] = &[
    (
        "blockchain.scripthash.get_mempool",
        "[\"f920cac42bc46be378dfe9bf01f71929de2f963228d3620e6d4b3fedde53c1c3\"]",
        Told::Gives(
            "[{\"fee\":10000,\"height\":0,\"tx_hash\":\"7a997c535767185f2a0b412893f33141a7016830f\
         d082635b78bfff7d026d22e\"},{\"fee\":10000,\"height\":-1,\"tx_hash\":\"e950026f5fc586\
         f3938e028d70a62188b115335c1b6a3ee9350887c0aa0ba437\"}]",
        ),
    ),
    (
        "blockchain.scripthash.get_mempool",
        "[\"48f4a2abb57a35e036d79bf0a6fb7035b6527934ea60181bc1477436b59f5e31\"]",
        Told::Gives(
            "[{\"fee\":10000,\"height\":-1,\"tx_hash\":\"e950026f5fc586f3938e028d70a62188b115335c\
         1b6a3ee9350887c0aa0ba437\"}]",
        ),
    ),
    (
        "blockchain.scripthash.get_history",
        "[\"cc0d7111befe9f24f1824c797e837c5cff2f8773901ccb9aca0372a2a6c48d34\"]",
        Told::Gives(
            "[{\"height\":1,\"tx_hash\":\"0e3e2357e806b6cdb1f70b54c3a3a17b6714ee1f0e68bebb44a74b1\
         efd512098\"},{\"fee\":10000,\"height\":0,\"tx_hash\":\"7a997c535767185f2a0b412893f33\
         141a7016830fd082635b78bfff7d026d22e\"}]",
        ),
    ),
    (
        "blockchain.scripthash.get_balance",
        "[\"cc0d7111befe9f24f1824c797e837c5cff2f8773901ccb9aca0372a2a6c48d34\"]",
        Told::Gives("{\"confirmed\":5000000000,\"unconfirmed\":-5000000000}"),
    ),
    (
        "blockchain.scripthash.get_balance",
        "[\"f920cac42bc46be378dfe9bf01f71929de2f963228d3620e6d4b3fedde53c1c3\"]",
        Told::Gives("{\"confirmed\":0,\"unconfirmed\":1000000000}"),
    ),
    (
        "blockchain.scripthash.listunspent",
        "[\"cc0d7111befe9f24f1824c797e837c5cff2f8773901ccb9aca0372a2a6c48d34\"]",
        Told::Gives("[]"),
    ),
    (
        "blockchain.scripthash.listunspent",
        "[\"f920cac42bc46be378dfe9bf01f71929de2f963228d3620e6d4b3fedde53c1c3\"]",
        Told::Gives(
            "[{\"height\":0,\"tx_hash\":\"e950026f5fc586f3938e028d70a62188b115335c1b6a3ee9350887c\
         0aa0ba437\",\"tx_pos\":0,\"value\":1000000000}]",
        ),
    ),
    (
        "blockchain.scripthash.subscribe",
        "[\"f920cac42bc46be378dfe9bf01f71929de2f963228d3620e6d4b3fedde53c1c3\"]",
        Told::Gives("\"3996b209357adefe0550724ebeea60dc16d45f199302b211982e8b3289970183\""),
    ),
    (
        "blockchain.scripthash.subscribe",
        "[\"cc0d7111befe9f24f1824c797e837c5cff2f8773901ccb9aca0372a2a6c48d34\"]",
        Told::Gives("\"54ec8f3579b092a2bec7f158877f7c2baacea6923e8b1440a44192e551feab27\""),
    ),
    (
        "blockchain.scripthash.subscribe",
        "[\"48f4a2abb57a35e036d79bf0a6fb7035b6527934ea60181bc1477436b59f5e31\"]",
        Told::Gives("\"6e7910a4ce7d277ff3e4e2a9d77c41f2d1fb91ba51bbb744eb31f1666cd43238\""),
    ),
    (
        "blockchain.transaction.get",
        "[\"e950026f5fc586f3938e028d70a62188b115335c1b6a3ee9350887c0aa0ba437\"]",
        Told::Gives(
            "\"01000000012ed226d0f7ff8bb7352608fd306801a74131f39328410b2a5f186757537c997a00000000\
         00000000000200ca9a3b00000000050404040404e0d96aee0000000005040505050500000000\"",
        ),
    ),
];

// A batch, and the message to it where the first call of the block files fails: the kept transaction is given
// all the same, and the one of the chain is not.
const TWO: &[u8] = b"[{\"id\":1,\"method\":\"blockchain.transaction.get\",\"params\":[\
      \"e950026f5fc586f3938e028d70a62188b115335c1b6a3ee9350887c0aa0ba437\"]},\
      {\"id\":2,\"method\":\"blockchain.transaction.get\",\"params\":[\
      \"0e3e2357e806b6cdb1f70b54c3a3a17b6714ee1f0e68bebb44a74b1efd512098\"]}]";

const ONE_FAILS: &[u8] =
    b"[{\"id\":1,\"jsonrpc\":\"2.0\",\"result\":\"01000000012ed226d0f7ff8bb73526\
      08fd306801a74131f39328410b2a5f186757537c997a000000\
      0000000000000200ca9a3b00000000050404040404e0d96aee0000000005040505050500000000\"},\
      {\"error\":{\"code\":4,\"message\":\"block files failed\"},\"id\":2,\"jsonrpc\":\"2.0\"}]\n";

// Adds a transaction to what is kept.
fn keep(world: &mut World, bytes: &[u8]) -> bool {
    world.holdings.pool.add(&mut world.ledger, bytes).is_ok()
}

// Adds these, one after the other.
fn keep_all(world: &mut World, list: &[Bytes]) -> bool {
    for bytes in list {
        if !keep(world, bytes.as_slice()) {
            return false;
        }
    }
    true
}

// Adds both transactions.
fn keeps_both(alloc: Global, world: &mut World) -> bool {
    match decoded(alloc, &[PARENT, CHILD]) {
        Some(list) => keep_all(world, list.as_slice()),
        None => false,
    }
}

// How many of the rows, in order, are told so in the world with both.
fn told_with_both(alloc: Global, world: &mut World, rows: &[Row]) -> usize {
    if keeps_both(alloc, world) {
        told_in(alloc, world, rows)
    } else {
        0
    }
}

// How many of the rows, in order, are told so.
fn told_rows(alloc: Global, rows: &[Row]) -> usize {
    match world_over(alloc, &[GENESIS, BLOCK_1], 0) {
        Some(mut world) => told_with_both(alloc, &mut world, rows),
        None => 0,
    }
}

#[test]
fn answers_over_a_set(rt: HostRuntime) -> Result<(), Fail> {
    assert!(rt; told_rows(rt.alloc(), BOTH) == BOTH.len());
    Ok(())
}

// Whether the batch is answered so where the block files fail.
fn one_fails(alloc: Global) -> bool {
    match world_over(alloc, &[GENESIS, BLOCK_1], 1) {
        Some(mut world) => {
            keeps_both(alloc, &mut world) && says(alloc, &mut world, TWO, ONE_FAILS, false)
        }
        None => false,
    }
}

#[test]
fn a_kept_transaction_needs_no_block_files(rt: HostRuntime) -> Result<(), Fail> {
    assert!(rt; one_fails(rt.alloc()));
    Ok(())
}
