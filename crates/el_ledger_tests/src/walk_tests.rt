// An index that is moved at random over three branches has, after each move, the rows of one in which the
// same blocks were put in from nothing.
ghost use Rattle.std.specs.Prelude.{◌≡◌, ◌<◌};

use crate::laid::{Files, Laid, Made, built, go, laid_out, led_to, opened, same_rows};
use el_base::Hash32;
use el_chain::Moved;
use el_index::Index;
use el_model::Ledger;
use el_vec_rows::VecRows;
use std::alloc::Global;
use std::process::Abort;
use std::test::Fail;
use std::thread::Threads;

// The transactions of the branches. The first of them are those of the common blocks, most of which stand in
// several branches.
const TXS: [Made; 23] = [
    Made::Coinbase(0, 0, 101),
    Made::Coinbase(1, 0, 101),
    Made::Coinbase(2, 0, 102),
    Made::Coinbase(3, 0, 101),
    Made::Spend(&[(0, 0)], &[(2_000_000_000, 1), (3_000_000_000, 2)]),
    Made::Spend(&[(4, 0)], &[(2_000_000_000, 3)]),
    Made::Spend(&[(1, 0)], &[(2_500_000_000, 1), (2_500_000_000, 101)]),
    Made::Spend(&[(4, 1), (6, 0)], &[(5_500_000_000, 2)]),
    Made::Spend(&[(7, 0)], &[(5_500_000_000, 1)]),
    Made::Coinbase(4, 0, 101),
    Made::Coinbase(5, 0, 3),
    Made::Coinbase(7, 0, 101),
    Made::Coinbase(4, 1, 101),
    Made::Coinbase(6, 1, 2),
    Made::Coinbase(8, 1, 4),
    Made::Coinbase(2, 2, 101),
    Made::Coinbase(3, 2, 5),
    Made::Coinbase(4, 2, 101),
    Made::Spend(&[(3, 0)], &[(5_000_000_000, 6)]),
    Made::Spend(&[(2, 0)], &[(1_000_000_000, 2), (4_000_000_000, 7)]),
    Made::Spend(&[(0, 0)], &[(5_000_000_000, 8)]),
    Made::Coinbase(6, 2, 1),
    Made::Coinbase(8, 2, 101),
];

// Coinbases stand again where their coin is spent and where it isn't, and so do the spends 4 and 6.
const BLOCKS: [Laid; 20] = [
    Laid(0, None, &[0]),
    Laid(1, Some(0), &[1]),
    Laid(2, Some(1), &[2, 4]),
    Laid(3, Some(2), &[3]),
    Laid(4, Some(3), &[9, 6, 7, 8]),
    Laid(5, Some(4), &[10, 5]),
    Laid(6, Some(5), &[0]),
    Laid(7, Some(6), &[11, 20, 19]),
    Laid(4, Some(3), &[12, 5, 18]),
    Laid(5, Some(8), &[1]),
    Laid(6, Some(9), &[13, 6]),
    Laid(7, Some(10), &[0]),
    Laid(8, Some(11), &[14, 4]),
    Laid(2, Some(1), &[15, 4]),
    Laid(3, Some(13), &[16, 6, 7]),
    Laid(4, Some(14), &[17, 8, 5]),
    Laid(5, Some(15), &[1]),
    Laid(6, Some(16), &[21, 6]),
    Laid(7, Some(17), &[0]),
    Laid(8, Some(18), &[22]),
];

// The blocks of each branch, from the first block on.
const BRANCHES: [&[usize]; 3] = [
    &[0, 1, 2, 3, 4, 5, 6, 7],
    &[0, 1, 2, 3, 8, 9, 10, 11, 12],
    &[0, 1, 13, 14, 15, 16, 17, 18, 19],
];

// A number below that one, and the next seed.
fn chosen(seed: &mut u64, below: u64) -> u64
    requires { 0 < below }
    ensures { result < below }
{
    *seed = seed
        .wrapping_mul(6_364_136_223_846_793_005)
        .wrapping_add(1_442_695_040_888_963_407);
    (*seed >> 33) % below
}

// The first blocks of a branch, up to one that is chosen.
fn target(seed: &mut u64) -> &'static [usize] {
    let branch = BRANCHES[chosen(seed, 3) as usize];
    let most = branch.len() as u64;
    if most == 0 {
        return branch;
    }
    let len = chosen(seed, most) as usize + 1;
    &branch[..len]
}

// How many blocks both have in common, from the first on.
fn common(one: &[usize], other: &[usize]) -> usize {
    for (number, block) in one.iter().enumerate() {
        if other.get(number) != Some(block) {
            return number;
        }
    }
    one.len()
}

// The rows are those of an index in which the blocks of these numbers were put in from nothing. Its rows are
// kept by the number of its last block.
fn rows_are_of<W: Abort + Threads + Sync>(
    rt: &W,
    alloc: Global,
    rows: &mut VecRows,
    numbers: &[usize],
    kept: &mut Vec<Option<VecRows>>,
    files: &mut Files,
) -> Result<(), Fail> {
    let Some(last) = numbers.last() else {
        return Err(Fail::new("no blocks"));
    };
    let Some(slot) = kept.get_mut(*last) else {
        return Err(Fail::new("no such block"));
    };
    if slot.is_none() {
        *slot = Some(built(rt, alloc, numbers, files)?.into_rows());
    }
    match slot {
        Some(wanted) => same_rows(rt, rows, wanted),
        None => Err(Fail::new("no rows")),
    }
}

// Moves the index from the blocks of these numbers to those of others.
fn walk_to<W: Threads + Sync>(
    rt: &W,
    alloc: Global,
    index: &mut Index<VecRows>,
    from: &[usize],
    to: &[usize],
    files: &mut Files,
) -> Result<Moved, Fail> {
    let same = common(from, to).min(to.len());
    let back = from.len().saturating_sub(same).min(100) as u32;
    go(rt, alloc, index, back, &to[same..], files)
}

// Makes the move from the blocks of the one numbers to those of the others. It answers the tip and the
// height.
fn led<W: Abort + Threads + Sync>(
    rt: &W,
    alloc: Global,
    index: &mut Index<VecRows>,
    way: (&[usize], &[usize]),
    files: &mut Files,
) -> Result<(Option<Hash32>, Option<u32>), Fail> {
    let moved = walk_to(rt, alloc, index, way.0, way.1, files)?;
    led_to(rt, &moved, way.1, files)?;
    Ok((moved.tip, moved.height))
}

// Makes the move, looks at the rows, and opens an index over them.
fn step_to<W: Abort + Threads + Sync>(
    rt: &W,
    alloc: Global,
    mut index: Index<VecRows>,
    way: (&[usize], &[usize]),
    kept: &mut Vec<Option<VecRows>>,
    files: &mut Files,
) -> Result<Index<VecRows>, Fail> {
    let (tip, height) = led(rt, alloc, &mut index, way, files)?;
    let mut rows = index.into_rows();
    rows_are_of(rt, alloc, &mut rows, way.1, kept, files)?;
    let index = opened(alloc, rows)?;
    assert!(rt; index.tip() == tip && index.height() == height);
    Ok(index)
}

// No rows yet, for each block.
fn none_kept(alloc: Global) -> Result<Vec<Option<VecRows>>, Fail> {
    let mut kept = Vec::new(alloc);
    for _ in 0..BLOCKS.len() {
        kept.push(None)?;
    }
    Ok(kept)
}

// Sixty moves.
fn walk<W: Abort + Threads + Sync>(rt: &W, alloc: Global) -> Result<(), Fail> {
    let mut files = laid_out(alloc, &TXS, &BLOCKS)?;
    let mut index = built(rt, alloc, &[], &mut files)?;
    let mut kept = none_kept(alloc)?;
    let mut seed = 1;
    let mut at: &[usize] = &[];
    for _ in 0..60 {
        let to = target(&mut seed);
        let way = (at, to);
        index = step_to(rt, alloc, index, way, &mut kept, &mut files)?;
        at = to;
    }
    Ok(())
}

#[test]
fn walks_over_branches(rt: HostRuntime) -> Result<(), Fail> {
    walk(&rt, rt.alloc())
}
