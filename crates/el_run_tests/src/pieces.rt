// Pieces that meet: the blocks of a move, and the transactions of a block, are prepared side by side.
use el_fakes::MeetPace;
use el_program::Status;
use el_trials::Step::Says;
use el_trials::{
    Files, SERVE, Step, TURNS, expect_ended, fresh_disk, life_on, serve_at, steady_archive,
    steady_link, transcript,
};
use std::alloc::Global;
use std::test::Fail;
use std::thread::Threads;

// How often a piece looks for the other one: far more often than is ever needed.
const LOOKS: u64 = 50_000_000;

// The node leads to the first block.
const BEGINS: &[Step<'static>] = &[Says(0, "tip {z-0}\n")];

// From there it leads on over two blocks, or over one of two transactions.
const TWO_BLOCKS: &[Step<'static>] = &[Says(0, "tip {z-a2}\n")];

const TWO_TRANSACTIONS: &[Step<'static>] = &[Says(0, "tip {z-d1}\n")];

// Over an index of the first block, with no pace, the node leads on so. Fails unless this is sent, and
// answers whether the first two pieces met.
fn meets<W: Threads + Sync>(
    rt: &W,
    alloc: Global,
    goes_on: &[Step<'static>],
    wanted: &str,
) -> Result<bool, Fail> {
    let first = life_on(rt, alloc, SERVE, fresh_disk(alloc), Files::Forks, BEGINS)?;
    let mut archive = steady_archive(alloc, Files::Forks)?;
    let mut link = steady_link(alloc, goes_on)?;
    let pace = MeetPace::new(0, 1, LOOKS);
    let (status, _) = serve_at(
        rt,
        alloc,
        SERVE,
        first.disk,
        &mut archive,
        &mut link,
        &pace,
        TURNS,
    )?;
    let sent = transcript(alloc, link.sent(), link.closed())?;
    expect_ended(alloc, (status, sent.as_str()), (Status::Ended, wanted))?;
    Ok(pace.met())
}

#[test]
fn two_blocks_of_a_move_meet(rt: HostRuntime) -> Result<(), Fail> {
    assert!(rt; meets(&rt, rt.alloc(), TWO_BLOCKS, "0 at {z-a2} 2\n")?);
    Ok(())
}

#[test]
fn two_transactions_of_a_block_meet(rt: HostRuntime) -> Result<(), Fail> {
    assert!(rt; meets(&rt, rt.alloc(), TWO_TRANSACTIONS, "0 at {z-d1} 1\n")?);
    Ok(())
}
