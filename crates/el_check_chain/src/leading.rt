// Tip lines of a node, with all their moves.
ghost use Rattle.std.specs.Prelude.{◌≡◌, ◌≤◌, ◌+◌, [], IfOk, OnOk};
ghost use Rattle.std.specs.List.{AllByRecursion};
ghost use Rattle.el_outside.specs.Counts.{CountsOnly};
ghost use Rattle.el_chain.specs.Headers.{AreLinked};
ghost use Rattle.el_chain.specs.Records.{IsNode};
ghost use Rattle.el_model.specs.LedgerCalls.{KeepsBeside};
ghost use Rattle.el_side.specs.Beneath.{beneath, ghosts};
ghost use Rattle.el_side.specs.Side.{Side};
ghost use Rattle.el_sync.specs.Steps.{previous_hash};
ghost use Rattle.el_check_chain.specs.Leading as leading;
ghost use Rattle.el_check_chain.specs.within.Ways.{StandForSide, AreUnderWay, IsLedToEnd, is_tip};

use el_base::{Bytes, Hash32, OutOfMemory};
use el_lines::{LineEvent, NodeAnswer};
use el_model::{Ledger, QueryFault};
use el_outside::{Archive, Pace};
use el_side::{Caches, Holdings};
use el_sync::{Ahead, move_next, order};
use std::alloc::Global;
use std::thread::Threads;

/// No tip line has as many moves: no memory holds the headers of so many blocks.
pub const MOST_MOVES: u64 = 4_294_967_296;

// The line by which a node names its tip, without its byte 10.
fn tip_line(alloc: Global, tip: Hash32) -> Result<Bytes, OutOfMemory>
    ensures { IfOk result (λ line. line ≡ leading.tip_line tip) }
{
    let mut line = Bytes::from_slice(alloc, b"tip ")?;
    line.extend(tip.shown().as_slice())?;
    Ok(line)
}

// How many moves an answer tells.
fn moves_told(answer: &NodeAnswer) -> u64
    ensures told { result ≡ leading.moves_told answer.now }
    ensures few { result ≤ 1 }
{
    match answer {
        NodeAnswer::At { .. } => 1,
        NodeAnswer::Block(_) | NodeAnswer::Tx(_) | NodeAnswer::Gone(_) | NodeAnswer::Refused(_) =>
            0,
    }
}

// Whether the ledger's last block has this hash.
fn ends_in<G: Ledger>(ledger: &G, tip: Hash32) -> bool
    ensures { result ≡ is_tip (G.tip ledger.now) tip }
{
    let Some(last) = ledger.tip() else {
        return false;
    };
    last == tip
}

// Makes the moves that a tip line has left, one after the other, and answers how many were made.
fn move_on<W: Threads + Sync, G: Ledger, A: Archive>(
    rt: &W,
    alloc: Global,
    ledger: &mut G,
    holdings: &mut Holdings,
    caches: &mut Caches,
    left: Ahead,
    archive: &mut A,
    pace: &(dyn Pace + Sync),
) -> Result<u64, QueryFault>
    requires live { G.is_live ledger.old }
    requires nodes { AllByRecursion IsNode left }
    requires linked { AreLinked (previous_hash (G.tip ledger.old)) left }
    requires never_fails { (a : A) → A.faults a ≡ 0 }
    ensures moved { let of = ghosts ⟦<G as Ledger>⟧ ⟦<A as Archive>⟧ in
        let was = beneath ledger.old archive.old in (side : Side)
        → StandForSide of was holdings.old caches.old left side → IfOk result
        (AreUnderWay of was (beneath ledger.new archive.new) holdings.new caches.new [] side) }
    ensures live { OnOk result (G.is_live ledger.new) }
    ensures few { IfOk result (λ n. n ≤ MOST_MOVES) }
    ensures beside { KeepsBeside ⟦<G as Ledger>⟧ ledger.old ledger.new }
    ensures cause { CountsOnly (G.faults ledger.old) (G.faults ledger.new) QueryFault.DiskFailed result }
{
    let mut left = left;
    let mut moves = 0;
    for round in 0..MOST_MOVES {
        if left.is_empty() {
            return Ok(moves);
        }
        let step = move_next(rt, alloc, ledger, holdings, caches, left, archive, pace)?;
        let told = moves_told(&step.answer);
        moves += told;
        left = step.left;
    }
    Err(QueryFault::Memory)
}

/// Takes the line by which a node names its tip as the server takes it, with all its moves, and answers how
/// many were made. Where the chain ends in that block already, nothing is done.
pub fn lead<W: Threads + Sync, G: Ledger, A: Archive>(
    rt: &W,
    alloc: Global,
    ledger: &mut G,
    holdings: &mut Holdings,
    caches: &mut Caches,
    archive: &mut A,
    tip: Hash32,
    pace: &(dyn Pace + Sync),
) -> Result<u64, QueryFault>
    requires live { G.is_live ledger.old }
    requires never_fails { (a : A) → A.faults a ≡ 0 }
    ensures led { let of = ghosts ⟦<G as Ledger>⟧ ⟦<A as Archive>⟧ in
        let was = beneath ledger.old archive.old in (side : Side)
        → StandForSide of was holdings.old caches.old [] side → IfOk result
        (IsLedToEnd of was (beneath ledger.new archive.new) holdings.new caches.new side tip) }
    ensures live { OnOk result (G.is_live ledger.new) }
    ensures few { IfOk result (λ n. n ≤ 1 + MOST_MOVES) }
    ensures beside { KeepsBeside ⟦<G as Ledger>⟧ ledger.old ledger.new }
    ensures cause { CountsOnly (G.faults ledger.old) (G.faults ledger.new) QueryFault.DiskFailed result }
{
    if ends_in(&*ledger, tip) {
        return Ok(0);
    }
    let text = tip_line(alloc, tip)?;
    let line = LineEvent::Line(text);
    let step = order(rt, alloc, ledger, holdings, caches, archive, line, pace)?;
    let later = move_on(
        rt, alloc, ledger, holdings, caches, step.left, archive, pace,
    )?;
    let told = moves_told(&step.answer);
    Ok(told + later)
}
