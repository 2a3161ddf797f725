// What moves that take blocks back leave, in tables that were filled in by hand.
ghost use Rattle.std.specs.Prelude.{◌≡◌, OnOk};

use crate::laid::{
    Files, Held, Laid, Made, built, coinbases, go, has, laid_out, led_to, numbers, put_in,
    same_rows, touches, txids_of,
};
use el_base::Hash32;
use el_index::Index;
use el_model::Ledger;
use el_plain::PlainLedger;
use el_tx::Outpoint;
use el_vec_rows::VecRows;
use std::alloc::Global;
use std::process::Abort;
use std::test::Fail;
use std::thread::Threads;

// The transactions of the blocks below.
const TXS: [Made; 8] = [
    Made::Coinbase(0, 0, 101),
    Made::Coinbase(1, 0, 101),
    Made::Spend(&[(0, 0)], &[(5_000_000_000, 1)]),
    Made::Spend(&[(0, 0)], &[(2_500_000_000, 1), (2_500_000_000, 100)]),
    Made::Coinbase(2, 0, 101),
    Made::Coinbase(1, 1, 101),
    Made::Coinbase(2, 1, 101),
    Made::Coinbase(3, 1, 101),
];

// A first block; one that has its coinbase again; two of which the last has it again, once its coin is spent;
// two of a branch; three of another; and three of one that has the spend a block earlier.
const BLOCKS: [Laid; 12] = [
    Laid(0, None, &[0]),
    Laid(1, Some(0), &[0]),
    Laid(1, Some(0), &[1, 2]),
    Laid(2, Some(2), &[0]),
    Laid(1, Some(0), &[1, 3]),
    Laid(2, Some(4), &[4]),
    Laid(1, Some(0), &[5]),
    Laid(2, Some(6), &[6, 3]),
    Laid(3, Some(7), &[7]),
    Laid(1, Some(0), &[5, 3]),
    Laid(2, Some(9), &[6]),
    Laid(3, Some(10), &[7]),
];

// A move: from which blocks it starts, how many it takes back, which it puts in, and where it leads;
// what scripts then have; the transactions whose output 0 is then no coin; and the scripts that are touched.
#[derive(Clone, Copy)]
struct Case {
    from: &'static [usize],
    back: u32,
    forward: &'static [usize],
    to: &'static [usize],
    has: &'static [Held],
    no_coins: &'static [usize],
    touched: &'static [u32],
}

const CASES: [Case; 7] = [
    // The first coinbase stands a second time, and its older coin is gone.
    Case {
        from: &[0],
        back: 0,
        forward: &[1],
        to: &[0, 1],
        has: &[Held {
            script: 101,
            entries: &[(0, 0), (1, 0)],
            balance: 5_000_000_000,
            coins: &[(1, 5_000_000_000)],
        }],
        no_coins: &[],
        touched: &[101],
    },
    // The older coin is there again.
    Case {
        from: &[0, 1],
        back: 1,
        forward: &[],
        to: &[0],
        has: &[Held {
            script: 101,
            entries: &[(0, 0)],
            balance: 5_000_000_000,
            coins: &[(0, 5_000_000_000)],
        }],
        no_coins: &[],
        touched: &[101],
    },
    // It stands a second time once its older coin is spent.
    Case {
        from: &[0, 2],
        back: 0,
        forward: &[3],
        to: &[0, 2, 3],
        has: &[
            Held {
                script: 101,
                entries: &[(0, 0), (1, 1), (1, 2), (2, 0)],
                balance: 10_000_000_000,
                coins: &[(1, 5_000_000_000), (2, 5_000_000_000)],
            },
            Held {
                script: 1,
                entries: &[(1, 2)],
                balance: 5_000_000_000,
                coins: &[(1, 5_000_000_000)],
            },
        ],
        no_coins: &[],
        touched: &[101],
    },
    // The older coin stays spent.
    Case {
        from: &[0, 2, 3],
        back: 1,
        forward: &[],
        to: &[0, 2],
        has: &[
            Held {
                script: 101,
                entries: &[(0, 0), (1, 1), (1, 2)],
                balance: 5_000_000_000,
                coins: &[(1, 5_000_000_000)],
            },
            Held {
                script: 1,
                entries: &[(1, 2)],
                balance: 5_000_000_000,
                coins: &[(1, 5_000_000_000)],
            },
        ],
        no_coins: &[0],
        touched: &[101],
    },
    // Another branch takes the place of one, with the same spend a block later.
    Case {
        from: &[0, 4, 5],
        back: 2,
        forward: &[6, 7, 8],
        to: &[0, 6, 7, 8],
        has: &[
            Held {
                script: 101,
                entries: &[(0, 0), (1, 5), (2, 6), (2, 3), (3, 7)],
                balance: 15_000_000_000,
                coins: &[(1, 5_000_000_000), (2, 5_000_000_000), (3, 5_000_000_000)],
            },
            Held {
                script: 1,
                entries: &[(2, 3)],
                balance: 2_500_000_000,
                coins: &[(2, 2_500_000_000)],
            },
            Held {
                script: 100,
                entries: &[(2, 3)],
                balance: 2_500_000_000,
                coins: &[(2, 2_500_000_000)],
            },
        ],
        no_coins: &[0, 1, 4],
        touched: &[101, 1, 100],
    },
    // One that has the spend at the same height.
    Case {
        from: &[0, 4, 5],
        back: 2,
        forward: &[9, 10, 11],
        to: &[0, 9, 10, 11],
        has: &[
            Held {
                script: 101,
                entries: &[(0, 0), (1, 5), (1, 3), (2, 6), (3, 7)],
                balance: 15_000_000_000,
                coins: &[(1, 5_000_000_000), (2, 5_000_000_000), (3, 5_000_000_000)],
            },
            Held {
                script: 1,
                entries: &[(1, 3)],
                balance: 2_500_000_000,
                coins: &[(1, 2_500_000_000)],
            },
            Held {
                script: 100,
                entries: &[(1, 3)],
                balance: 2_500_000_000,
                coins: &[(1, 2_500_000_000)],
            },
        ],
        no_coins: &[0, 1, 4],
        touched: &[101, 1, 100],
    },
    // The branch goes, and none comes: what is removed is touched too.
    Case {
        from: &[0, 4, 5],
        back: 2,
        forward: &[],
        to: &[0],
        has: &[
            Held {
                script: 101,
                entries: &[(0, 0)],
                balance: 5_000_000_000,
                coins: &[(0, 5_000_000_000)],
            },
            Held {
                script: 1,
                entries: &[],
                balance: 0,
                coins: &[],
            },
            Held {
                script: 100,
                entries: &[],
                balance: 0,
                coins: &[],
            },
        ],
        no_coins: &[1, 3, 4],
        touched: &[101, 1, 100],
    },
];

// The outputs 0 of these transactions are no coins.
fn are_no_coins<R: Abort>(
    rt: &R,
    index: &mut Index<VecRows>,
    txs: &[usize],
    ids: &[Hash32],
) -> Result<(), Fail> {
    for tx in txs {
        let Some(txid) = ids.get(*tx) else {
            return Err(Fail::new("no such transaction"));
        };
        let first = Outpoint {
            txid: *txid,
            index: 0,
        };
        assert!(rt; index.coin(&first)?.is_none(), "output of {tx}");
    }
    Ok(())
}

// The scripts have that.
fn have<R: Abort>(
    rt: &R,
    alloc: Global,
    index: &mut Index<VecRows>,
    case: &Case,
) -> Result<(), Fail> {
    let ids = txids_of(alloc, &TXS)?;
    for wanted in case.has {
        has(rt, alloc, index, wanted, ids.as_slice())?;
    }
    are_no_coins(rt, index, case.no_coins, ids.as_slice())
}

// The rows are those of an index in which the blocks of these numbers were put in from nothing.
fn rows_are_of<W: Abort + Threads + Sync>(
    rt: &W,
    alloc: Global,
    index: Index<VecRows>,
    numbers: &[usize],
    files: &mut Files,
) -> Result<(), Fail> {
    let wanted = built(rt, alloc, numbers, files)?;
    let mut rows = index.into_rows();
    let mut wanted = wanted.into_rows();
    same_rows(rt, &mut rows, &mut wanted)
}

// Makes the move, and looks at where it leads.
fn moves<W: Abort + Threads + Sync>(
    rt: &W,
    alloc: Global,
    index: &mut Index<VecRows>,
    case: &Case,
    files: &mut Files,
) -> Result<(), Fail> {
    let moved = go(rt, alloc, index, case.back, case.forward, files)?;
    led_to(rt, &moved, case.to, files)?;
    touches(rt, alloc, &moved, case.touched)
}

// Makes the move, and looks at what it leaves.
fn leads<W: Abort + Threads + Sync>(
    rt: &W,
    alloc: Global,
    case: &Case,
    files: &mut Files,
) -> Result<(), Fail> {
    let mut index = built(rt, alloc, case.from, files)?;
    moves(rt, alloc, &mut index, case, files)?;
    have(rt, alloc, &mut index, case)?;
    rows_are_of(rt, alloc, index, case.to, files)
}

fn all_cases<W: Abort + Threads + Sync>(rt: &W, alloc: Global) -> Result<(), Fail> {
    let mut files = laid_out(alloc, &TXS, &BLOCKS)?;
    for case in &CASES {
        leads(rt, alloc, case, &mut files)?;
    }
    Ok(())
}

#[test]
fn leaves_what_the_blocks_say(rt: HostRuntime) -> Result<(), Fail> {
    all_cases(&rt, rt.alloc())
}

// What the script has after two blocks of a coinbase.
const TWO: Held = Held {
    script: 101,
    entries: &[(0, 0), (1, 1)],
    balance: 10_000_000_000,
    coins: &[(0, 5_000_000_000), (1, 5_000_000_000)],
};

// Puts in 102 blocks of a coinbase.
fn put_all<W: Threads + Sync, G: Ledger>(
    rt: &W,
    alloc: Global,
    ledger: &mut G,
    files: &mut Files,
) -> Result<(), Fail>
    requires live { G.is_live ledger.old }
    ensures live { OnOk result (G.is_live ledger.new) }
{
    let all = numbers(alloc, 0, 102)?;
    put_in(rt, alloc, ledger, all.as_slice(), files)
}

// Takes a hundred back.
fn take_back<W: Abort + Threads + Sync, G: Ledger>(
    rt: &W,
    alloc: Global,
    ledger: &mut G,
    files: &mut Files,
) -> Result<(), Fail>
    requires live { G.is_live ledger.old }
    ensures live { OnOk result (G.is_live ledger.new) }
{
    let moved = go(rt, alloc, ledger, 100, &[], files)?;
    led_to(rt, &moved, &[0, 1], files)?;
    touches(rt, alloc, &moved, &[101])
}

// Puts in 102 blocks of a coinbase, and takes a hundred back.
fn takes_back<W: Abort + Threads + Sync, G: Ledger>(
    rt: &W,
    alloc: Global,
    ledger: &mut G,
    files: &mut Files,
) -> Result<(), Fail>
    requires live { G.is_live ledger.old }
    ensures live { OnOk result (G.is_live ledger.new) }
{
    put_all(rt, alloc, ledger, files)?;
    take_back(rt, alloc, ledger, files)?;
    let ids = txids_of(alloc, &TXS)?;
    has(rt, alloc, ledger, &TWO, ids.as_slice())
}

fn a_hundred<W: Abort + Threads + Sync>(rt: &W, alloc: Global) -> Result<(), Fail> {
    let mut files = coinbases(alloc, 102)?;
    let mut plain = PlainLedger::new(alloc);
    takes_back(rt, alloc, &mut plain, &mut files)?;
    let mut index = built(rt, alloc, &[], &mut files)?;
    takes_back(rt, alloc, &mut index, &mut files)?;
    rows_are_of(rt, alloc, index, &[0, 1], &mut files)
}

#[test]
fn takes_a_hundred_blocks_back(rt: HostRuntime) -> Result<(), Fail> {
    a_hundred(&rt, rt.alloc())
}
