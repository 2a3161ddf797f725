// The moves of a tip line, and the sift of the unconfirmed set and what the caches follow that end it.
ghost use Rattle.std.specs.Prelude.{◌≡◌, ◌≢◌, ◌≤◌, ◌<◌, ◌-◌, ◌==◌, ◌&&◌, ◌||◌, not, if◌then◌else◌, [], true, false, IfOk, IfErr, IfSome, OnOk, OnErr, List, length};
ghost use Rattle.std.specs.List.{AllByRecursion};
ghost use Rattle.std.specs.Option.{is_some};
ghost use Rattle.el_base.specs.declared.hash.Hash32 as hash_shape;
ghost use Rattle.el_outside.specs.Counts.{CountsOnly};
ghost use Rattle.el_tx.specs.declared.types.Tx as tx_shape;
ghost use Rattle.el_chain.specs.declared.moves.Plan as moves;
ghost use Rattle.el_chain.specs.Chains.{Chain, tip};
ghost use Rattle.el_chain.specs.Headers.{AreLinked};
ghost use Rattle.el_chain.specs.Moves.{shorter, max_back};
ghost use Rattle.el_chain.specs.Records.{IsNode};
ghost use Rattle.el_mempool.specs.Sift.{sift};
ghost use Rattle.el_mempool.specs.Standing.{AreChanged, KeptStandFor};
ghost use Rattle.el_fees.specs.Tables.{IsTableOf};
ghost use Rattle.el_model.specs.LedgerCalls.{Asked};
ghost use Rattle.el_model.specs.Queries.{blocks_in};
ghost use Rattle.el_model.specs.declared.fault.QueryFault.TheVariants as turn_fault;
ghost use Rattle.el_sift.specs.Untouched.{KeepsUntouched};
ghost use Rattle.el_side.specs.Beneath.{beneath, ghosts};
ghost use Rattle.el_side.specs.Caching.{CachesStand};
ghost use Rattle.el_side.specs.Plans.{plan_of};
ghost use Rattle.el_side.specs.Side.{Side, Moving};
ghost use Rattle.el_side.specs.NodeSteps.{IsAt, Leads};
ghost use Rattle.el_sync.specs.Steps.{NodeStep, StopsAt, TouchesNoFailed, left_by};

use crate::ahead::Ahead;
use crate::fault::StepFault;
use crate::making::{Made, make_move};
use el_chain::Touched;
use el_fees::FeeTable;
use el_lines::NodeAnswer;
use el_model::Ledger;
use el_outside::{Archive, Pace};
use el_pool::Pool;
use el_side::{Caches, Holdings};
use el_sift::Reach;
use std::alloc::Global;
use std::thread::Threads;

/// What a line of the node, or a move that one left, leaves.
#[derive(Debug, Drop)]
pub struct Step {
    /// What the node is answered.
    pub answer: NodeAnswer,
    /// The blocks that are left to later moves.
    pub left: Ahead,
    /// The script hashes that a move of the chain touched, each once.
    pub moved: Touched,
    /// The script hashes of which another thing is seen in the unconfirmed set, each once.
    pub changed: Touched,
}

// Whether a line ends with a move that has left these blocks, so that the set is sifted: it was made, or it
// is a later one. A first move that is refused has changed nothing.
fn ends_line(left: &Ahead, moved: bool, later: bool) -> bool
    ensures { result ≡ ((length left.now == 0) && (moved || later)) }
{
    left.is_empty() && (moved || later)
}

// How many blocks a move took back that was to take so many: none where it wasn't made.
fn taken(moved: bool, back: u32) -> u32
    ensures { result ≡ (if moved then back else 0) }
{
    if moved { back } else { 0 }
}

// How many blocks there are up to that height.
fn blocks_to(top: Option<u32>) -> u64
    ensures { result ≡ blocks_in top }
{
    match top {
        None => 0,
        Some(top) => u64::from(top) + 1,
    }
}

// How far a line's moves reach where this is the first of them and the last: so many of the blocks up to that
// height were taken back, and these script hashes touched. Of a later move the set stands for the chain
// before earlier ones too.
fn reach_of<'a>(top: Option<u32>, back: u32, touched: &'a Touched, later: bool) -> Option<Reach<'a>>
    ensures first { is_some result ≡ not later }
    ensures reach { IfSome result (λ r. (r.same ≡ blocks_in top - back) × (r.touched.now ≡ touched.now)) }
{
    if later {
        return None;
    }
    Some(Reach {
        same: blocks_to(top).saturating_sub(u64::from(back)),
        touched,
    })
}

// Where a line ends, sifts the set over the ledger's chain, as far as its moves reach, and brings the table
// of fees to the set and the caches to the chain. Gives the script hashes that changed.
fn settle<G: Ledger>(
    alloc: Global,
    ledger: &mut G,
    pool: &mut Pool,
    fees: &mut FeeTable,
    caches: &mut Caches,
    reach: Option<Reach<'_>>,
    ends: bool,
) -> Result<Touched, StepFault>
    requires live { G.is_live ledger.old }
    ensures sifted { (before chain : Chain) (kept : List tx_shape.Tx)
        → KeptStandFor pool.old.entries before kept → G.stands ledger.old chain
        → IfSome reach.entry (λ r. KeepsUntouched before chain r.same r.touched.now)
        → IfOk result (λ changed. ends ≡ true → KeptStandFor pool.new.entries chain (sift chain kept)
        × AreChanged before kept chain (sift chain kept) changed) }
    ensures fees { (before chain : Chain) (kept : List tx_shape.Tx)
        → KeptStandFor pool.old.entries before kept → G.stands ledger.old chain
        → IfSome reach.entry (λ r. KeepsUntouched before chain r.same r.touched.now)
        → IsTableOf fees.old pool.old.entries → OnOk result (IsTableOf fees.new pool.new.entries) }
    ensures followed { (start chain : Chain) → CachesStand caches.old start chain → G.stands ledger.old chain
        → OnOk result (ends ≡ true → CachesStand caches.new chain chain) }
    ensures same { OnOk result (ends ≡ false → pool.new ≡ pool.old) }
    ensures kept { OnOk result (ends ≡ false → caches.new ≡ caches.old) }
    ensures none { IfOk result (λ changed. ends ≡ false → changed ≡ []) }
    ensures only { OnErr result (ends ≡ true) }
    ensures limits { pool.new.limits ≡ pool.old.limits }
    ensures asked { Asked ⟦<G as Ledger>⟧ ledger.old ledger.new }
    ensures disk_rose { CountsOnly (G.faults ledger.old) (G.faults ledger.new) turn_fault.DiskFailed result }
{
    if !ends {
        return Ok(Touched::new(alloc));
    }
    let changed = pool.after_move(ledger, reach)?;
    fees.follow(pool.last_changes());
    caches.follow(alloc, ledger)?;
    Ok(changed)
}

/// Makes the next move of a tip line: so many blocks of the chain are taken back, and the first of the rest
/// are put in. Where it is refused, no block is left. With the last move, and with a later one that is
/// refused, the set is sifted and the caches are brought to the chain.
///
/// # Errors
///
/// `StepFault::DiskFailed`, after which the ledger isn't live, and `StepFault::Memory`; what was moved before
/// stays so, and neither the set nor the caches are used again.
pub fn move_once<W: Threads + Sync, G: Ledger, A: Archive>(
    rt: &W,
    alloc: Global,
    ledger: &mut G,
    holdings: &mut Holdings,
    caches: &mut Caches,
    back: u32,
    rest: Ahead,
    archive: &mut A,
    later: bool,
    pace: &(dyn Pace + Sync),
) -> Result<Step, StepFault>
    requires live { G.is_live ledger.old }
    requires back { back ≤ max_back }
    requires nodes { AllByRecursion IsNode rest }
    requires linked { (before : hash_shape.Hash32) × AreLinked before rest }
    requires fits { (chain : Chain) → G.stands ledger.old chain
        → (back ≤ length chain) × AreLinked (tip (shorter back chain)) rest }
    ensures moving { let of = ghosts ⟦<G as Ledger>⟧ ⟦<A as Archive>⟧ in
        let was = beneath ledger.old archive.old in (side : Side) (start : Chain)
        → IsAt of was holdings.old caches.old side start → (later ≡ false → side.ahead ≡ [])
        → IfOk result (λ s.
        Leads of (Moving ⟦<A as Archive>⟧ side back rest) side start
        (left_by was (beneath ledger.new archive.new) s side.found holdings.new caches.new)) }
    ensures stopped { (chain : Chain) → G.stands ledger.old chain → IfErr result (
        StopsAt (ghosts ⟦<G as Ledger>⟧ ⟦<A as Archive>⟧) (beneath ledger.old archive.old)
        (beneath ledger.new archive.new) chain later (λ (p : moves.Plan). p ≡ plan_of back rest)) }
    ensures tree { holdings.new.tree ≡ holdings.old.tree }
    ensures magic { holdings.new.magic ≡ holdings.old.magic }
    ensures limits { holdings.new.pool.limits ≡ holdings.old.pool.limits }
    ensures untouched { IfOk result (λ s. later ≡ false → TouchesNoFailed s) }
    ensures no_more { IfOk result (λ s. length s.left ≤ length rest) }
    ensures fewer { IfOk result (λ s. rest ≢ [] → length s.left < length rest) }
    ensures step { NodeStep (ghosts ⟦<G as Ledger>⟧ ⟦<A as Archive>⟧) (beneath ledger.old archive.old)
        (beneath ledger.new archive.new) later result }
{
    let top = ledger.height();
    let Made {
        answer,
        left,
        moved,
        touched,
    } = make_move(rt, alloc, ledger, back, rest, archive, pace)?;
    caches.take_back(top, taken(moved, back));
    let ends = ends_line(&left, moved, later);
    let reach = reach_of(top, back, &touched, later);
    let changed = settle(
        alloc,
        ledger,
        &mut holdings.pool,
        &mut holdings.fees,
        caches,
        reach,
        ends,
    )?;
    Ok(Step {
        answer,
        left,
        moved: touched,
        changed,
    })
}

/// Makes the next of the later moves of a tip line, which takes no block back: the first of the rest are put
/// in. Where it is refused, no block is left. With the last move, and with one that is refused, the set is
/// sifted and the caches are brought to the chain.
///
/// # Errors
///
/// `StepFault::DiskFailed`, after which the ledger isn't live, and `StepFault::Memory`; what was moved before
/// stays so, and neither the set nor the caches are used again.
pub fn move_next<W: Threads + Sync, G: Ledger, A: Archive>(
    rt: &W,
    alloc: Global,
    ledger: &mut G,
    holdings: &mut Holdings,
    caches: &mut Caches,
    rest: Ahead,
    archive: &mut A,
    pace: &(dyn Pace + Sync),
) -> Result<Step, StepFault>
    requires live { G.is_live ledger.old }
    requires nodes { AllByRecursion IsNode rest }
    requires linked { (before : hash_shape.Hash32) × AreLinked before rest }
    requires fits { (chain : Chain) → G.stands ledger.old chain → AreLinked (tip chain) rest }
    ensures moving { let of = ghosts ⟦<G as Ledger>⟧ ⟦<A as Archive>⟧ in
        let was = beneath ledger.old archive.old in (side : Side) (start : Chain)
        → IsAt of was holdings.old caches.old side start → IfOk result (λ s.
        Leads of (Moving ⟦<A as Archive>⟧ side 0 rest) side start
        (left_by was (beneath ledger.new archive.new) s side.found holdings.new caches.new)) }
    ensures stopped { (chain : Chain) → G.stands ledger.old chain → IfErr result (
        StopsAt (ghosts ⟦<G as Ledger>⟧ ⟦<A as Archive>⟧) (beneath ledger.old archive.old)
        (beneath ledger.new archive.new) chain true (λ (p : moves.Plan). p ≡ plan_of 0 rest)) }
    ensures tree { holdings.new.tree ≡ holdings.old.tree }
    ensures magic { holdings.new.magic ≡ holdings.old.magic }
    ensures limits { holdings.new.pool.limits ≡ holdings.old.pool.limits }
    ensures no_more { IfOk result (λ s. length s.left ≤ length rest) }
    ensures fewer { IfOk result (λ s. rest ≢ [] → length s.left < length rest) }
    ensures step { NodeStep (ghosts ⟦<G as Ledger>⟧ ⟦<A as Archive>⟧) (beneath ledger.old archive.old)
        (beneath ledger.new archive.new) true result }
{
    move_once(
        rt, alloc, ledger, holdings, caches, 0, rest, archive, true, pace,
    )
}
