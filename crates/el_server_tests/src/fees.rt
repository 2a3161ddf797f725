// The fee histogram that a client is answered while the unconfirmed set changes. Fees, sizes and txids were
// computed by another program.
use crate::coins::{TELLS, coins_file};
use crate::failing_rows::FailingRows;
use crate::server::Step::{Forget, Opens, Says};
use crate::server::{Step, index_of, play, spelled};
use el_mempool::PoolLimits;
use std::alloc::Global;
use std::test::Fail;
use std::thread::Threads;

// Room for a few unconfirmed transactions.
const ROOM: PoolLimits = PoolLimits {
    count: 4,
    bytes: 1_000,
};

const ASKS: Step<'static> = Says(1, "{asks}mempool.get_fee_histogram{with}]}\n");

// What the node and a client say, and what they are answered.
const CASES: &[(&[Step<'static>], &str)] = &[
    // nothing is kept; two are; the first is dropped, and the one that spends it goes with it
    (
        &[
            ASKS,
            Says(0, "tx P\ntx K\n"),
            ASKS,
            Says(0, "drop Q\n"),
            ASKS,
        ],
        "{result}[]}\ntx Q\ntx {child-txid}\n{result}[[0,130]]}\ngone Q\n{result}[]}\n",
    ),
    // an edge is reached where its product with the size is the fee, and one satoshi less reaches the next
    (
        &[
            Says(0, "tx {pays-650}\n"),
            ASKS,
            Says(0, "tx P\n"),
            ASKS,
            Says(0, "drop {pays-650-txid}\ntx {pays-649}\n"),
            ASKS,
        ],
        "tx {pays-650-txid}\n{result}[[10,65]]}\nrefused conflict {pays-650-txid}\n{result}[[10,65]]}\n\
         gone {pays-650-txid}\ntx {pays-649-txid}\n{result}[[5,65]]}\n",
    ),
    // a block has the first of two; it is taken back, and neither is kept any more
    (
        &[
            Says(0, "tx P\ntx K\n"),
            ASKS,
            Says(0, "tip {v1}\n"),
            ASKS,
            Says(0, "tip {z}\n"),
            ASKS,
        ],
        "tx Q\ntx {child-txid}\n{result}[[0,130]]}\nat {v1} 1\n{result}[[0,65]]}\n\
         at {z} 0\n{result}[]}\n",
    ),
];

// The steps after the first block was told and a client came.
fn begun(alloc: Global, steps: &[Step<'static>]) -> Result<Vec<Step<'static>>, Fail> {
    let mut all = Vec::new(alloc);
    all.extend_from_slice(&[TELLS, Says(0, "tip {z}\n"), Forget, Opens(1)])?;
    all.extend_from_slice(steps)?;
    Ok(all)
}

// Whether these steps show this text.
fn shows<W: Threads + Sync>(
    rt: &W,
    alloc: Global,
    file: &[u8],
    steps: &[Step<'static>],
    wanted: &str,
) -> Result<bool, Fail> {
    let ledger = index_of(alloc, FailingRows::new(alloc)?)?;
    let steps = begun(alloc, steps)?;
    let (shown, _) = play(rt, alloc, ledger, ROOM, file, steps.as_slice())?;
    let wanted = spelled(alloc, wanted)?;
    Ok(shown.as_slice() == wanted.as_bytes())
}

#[test]
fn fee_histograms(rt: HostRuntime) -> Result<(), Fail> {
    let file = coins_file(rt.alloc())?;
    for (steps, wanted) in CASES.iter() {
        assert!(rt;
            shows(&rt, rt.alloc(), file.as_slice(), *steps, *wanted)?,
            "{wanted}"
        );
    }
    Ok(())
}
