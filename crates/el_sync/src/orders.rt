// The node's lines.
ghost use Rattle.std.specs.Prelude.{◌≡◌, ◌≤◌, ◌⊎◌, ◌+◌, ℕ, List, [], false, Some, IfOk, IfErr, IsErrOf, OnOk, OnErr, length};
ghost use Rattle.el_outside.specs.Counts.{RoseBy};
ghost use Rattle.el_outside.specs.Files.{AllGrow};
ghost use Rattle.el_chain.specs.declared.node.Node as node_shape;
ghost use Rattle.el_chain.specs.Chains.{Chain};
ghost use Rattle.el_chain.specs.Headers.{IsPath, added};
ghost use Rattle.el_chain.specs.Moves.{max_back};
ghost use Rattle.el_chain.specs.Records.{IsNode};
ghost use Rattle.el_model.specs.declared.fault.QueryFault.TheVariants as turn_fault;
ghost use Rattle.el_headers.specs.Adding.{IsEndOf};
ghost use Rattle.el_side.specs.UnderWay.{IsFirstMove};
ghost use Rattle.el_side.specs.Beneath.{beneath, ghosts};
ghost use Rattle.el_side.specs.Plans.{back_of};
ghost use Rattle.el_lines.specs.Lines.{line};
ghost use Rattle.el_side.specs.Side.{Side, IsSure, GoesAlong, LooksUp, OrdersLine, Tips, found_answer};
ghost use Rattle.el_lines.specs.LineStates.{as_listed};
ghost use Rattle.el_side.specs.NodeSteps.{IsAt, Leads};
ghost use Rattle.el_sync.specs.RowBounds.{AsksNoMove, ReadsLine, ReadsTip};
ghost use Rattle.el_sync.specs.Starving.{MayMove, WantsMemory};
ghost use Rattle.el_sync.specs.Steps.{IsFrom, NodeStep, StopsAt, TouchesNoFailed, left_by};
ghost use Rattle.el_sync.specs.within.Parts.{IsTipMove, IsPathMove, Looked};

use crate::ahead::Ahead;
use crate::comparing::{Way, compare, is_there, rest_from};
use crate::fault::StepFault;
use crate::keeping::{PoolAnswer, order_drop, order_tx};
use crate::moving::{Step, move_once};
use el_base::{Hash32, OutOfMemory};
use el_chain::{MAX_BACK, Node, Touched};
use el_files::record_at;
use el_headers::{Added, HeaderTree, PathEnd, PathFault};
use el_lines::{LineEvent, NodeAnswer, NodeLine, NodeLineFault, NodeRefusal, read_node_line};
use el_model::Ledger;
use el_outside::{Archive, Pace};
use el_side::{Caches, Holdings};
use std::alloc::Global;
use std::thread::Threads;

// Looks at a place of the block files. Fails only where the tree finds no memory for the node there.
fn order_block<A: Archive>(
    holdings: &mut Holdings,
    archive: &mut A,
    file: u32,
    at: u64,
) -> Result<NodeAnswer, StepFault>
    ensures looked { (side : Side) → IsFrom holdings.old side
        → (A.tells → AllGrow side.files (A.bytes archive.old)) → IfOk result (λ answer.
        Looked ⟦<A as Archive>⟧ archive.old archive.new side file at answer holdings.new.tree) }
    ensures same { holdings.new ≡ record holdings.old { tree = holdings.new.tree } }
    ensures more { OnOk result (length holdings.new.tree ≤ length holdings.old.tree + 1) }
    ensures keeps { A.tells → AllGrow (A.bytes archive.old) (A.bytes archive.new) }
    ensures archive_more { A.faults archive.old ≤ A.faults archive.new }
    // Where the block files fail, that is told.
    ensures archive_rose { OnErr result (RoseBy (A.faults archive.old) (A.faults archive.new) 0) }
    ensures memory { IfErr result (λ e. e ≡ turn_fault.Memory) }
    // That the files failed, or have no record there, is told without memory.
    ensures there { (side : Side) → IsFrom holdings.old side
        → (A.tells → AllGrow side.files (A.bytes archive.old)) → OnErr result ((node : node_shape.Node)
        × LooksUp ⟦<A as Archive>⟧ side file at (Some node) (A.bytes archive.new)) }
{
    match record_at(archive, holdings.magic, file, at) {
        Err(_) => Ok(NodeAnswer::Refused(NodeRefusal::Archive)),
        Ok(None) => Ok(NodeAnswer::Refused(NodeRefusal::Place)),
        Ok(Some(node)) => {
            let answer = add_node(&mut holdings.tree, node)?;
            Ok(answer)
        }
    }
}

// Adds the node that stands at a place.
fn add_node(tree: &mut HeaderTree, node: Node) -> Result<NodeAnswer, OutOfMemory>
    requires node { IsNode node }
    ensures joined { OnOk result (tree.new ≡ added tree.old node) }
    ensures answer { IfOk result (λ answer. answer ≡ found_answer tree.old (Some node)) }
{
    let hash = node.hash;
    match tree.add(node)? {
        Added::SecondGenesis => Ok(NodeAnswer::Refused(NodeRefusal::Genesis(hash))),
        _ => Ok(NodeAnswer::Block(hash)),
    }
}

// A line that leaves nothing to put in.
fn only_answer(alloc: Global, answer: NodeAnswer) -> Step
    ensures answer { result.answer ≡ answer }
    ensures left { result.left ≡ [] }
    ensures untouched { (result.moved ≡ []) × (result.changed ≡ []) }
{
    Step {
        answer,
        left: Ahead::none(alloc),
        moved: Touched::new(alloc),
        changed: Touched::new(alloc),
    }
}

// A line that is refused.
fn refusing(alloc: Global, refusal: NodeRefusal) -> Step
    ensures answer { result.answer ≡ NodeAnswer.Refused refusal }
    ensures left { result.left ≡ [] }
    ensures untouched { (result.moved ≡ []) × (result.changed ≡ []) }
{
    only_answer(alloc, NodeAnswer::Refused(refusal))
}

// A line about an unconfirmed transaction, which leaves nothing to put in either.
fn pool_step(alloc: Global, told: PoolAnswer) -> Step
    ensures answer { result.answer ≡ told.answer }
    ensures left { result.left ≡ [] }
    ensures moved { result.moved ≡ [] }
    ensures changed { result.changed ≡ told.changed }
{
    Step {
        answer: told.answer,
        left: Ahead::none(alloc),
        moved: Touched::new(alloc),
        changed: told.changed,
    }
}

// Moves the chain along the path that ends there.
fn move_along<W: Threads + Sync, G: Ledger, A: Archive>(
    rt: &W,
    alloc: Global,
    ledger: &mut G,
    holdings: &mut Holdings,
    caches: &mut Caches,
    archive: &mut A,
    end: &PathEnd,
    pace: &(dyn Pace + Sync),
) -> Result<Step, StepFault>
    requires live { G.is_live ledger.old }
    requires path { (path : List node_shape.Node) × IsPath holdings.old.tree end.now.node.hash path }
    requires end { (path : List node_shape.Node) → IsPath holdings.old.tree end.now.node.hash path
        → IsEndOf path end.now.node end.now.height }
    ensures along { let of = ghosts ⟦<G as Ledger>⟧ ⟦<A as Archive>⟧ in
        let was = beneath ledger.old archive.old in
        (path : List node_shape.Node) (side : Side) (start : Chain)
        → IsPath holdings.old.tree end.now.node.hash path → IsAt of was holdings.old caches.old side start
        → side.ahead ≡ [] → IfOk result (λ s. Leads of (GoesAlong ⟦<A as Archive>⟧ side path) side start
        (left_by was (beneath ledger.new archive.new) s side.found holdings.new caches.new)) }
    ensures stopped { (path : List node_shape.Node) (chain : Chain)
        → IsPath holdings.old.tree end.now.node.hash path → G.stands ledger.old chain → IfErr result (
        StopsAt (ghosts ⟦<G as Ledger>⟧ ⟦<A as Archive>⟧) (beneath ledger.old archive.old)
        (beneath ledger.new archive.new) chain false (IsPathMove chain path)) }
    // That it is too deep is told without memory.
    ensures memory { (path : List node_shape.Node) (chain : Chain)
        → IsPath holdings.old.tree end.now.node.hash path → G.stands ledger.old chain
        → IsErrOf result turn_fault.Memory → back_of chain path ≤ max_back }
    ensures untouched { IfOk result TouchesNoFailed }
    ensures rows { (path : List node_shape.Node) (chain : Chain)
        → IsPath holdings.old.tree end.now.node.hash path → G.stands ledger.old chain → AsksNoMove chain path
        → G.reads ledger.new ≤ G.reads ledger.old + (back_of chain path + 1) }
    ensures tree { holdings.new.tree ≡ holdings.old.tree }
    ensures magic { holdings.new.magic ≡ holdings.old.magic }
    ensures limits { holdings.new.pool.limits ≡ holdings.old.pool.limits }
    ensures fewer { IfOk result (λ s. length s.left ≤ length holdings.old.tree) }
    ensures step { NodeStep (ghosts ⟦<G as Ledger>⟧ ⟦<A as Archive>⟧) (beneath ledger.old archive.old)
        (beneath ledger.new archive.new) false result }
{
    let Way { back, same } = compare(ledger, &holdings.tree, end)?;
    if back > MAX_BACK as usize {
        return Ok(refusing(alloc, NodeRefusal::Deep(back)));
    }
    let rest = rest_from(alloc, &holdings.tree, end.node.hash, same)?;
    if is_there(back, &rest) {
        let answer = NodeAnswer::At {
            tip: ledger.tip(),
            height: ledger.height(),
        };
        return Ok(only_answer(alloc, answer));
    }
    move_once(
        rt,
        alloc,
        ledger,
        holdings,
        caches,
        back as u32,
        rest,
        archive,
        false,
        pace,
    )
}

// Moves the chain towards a block: its first move.
fn order_tip<W: Threads + Sync, G: Ledger, A: Archive>(
    rt: &W,
    alloc: Global,
    ledger: &mut G,
    holdings: &mut Holdings,
    caches: &mut Caches,
    archive: &mut A,
    h: Hash32,
    pace: &(dyn Pace + Sync),
) -> Result<Step, StepFault>
    requires live { G.is_live ledger.old }
    ensures tip { let of = ghosts ⟦<G as Ledger>⟧ ⟦<A as Archive>⟧ in
        let was = beneath ledger.old archive.old in (side : Side) (start : Chain)
        → IsAt of was holdings.old caches.old side start → side.found ≡ holdings.old.tree → side.ahead ≡ []
        → IfOk result (λ s. Leads of (Tips ⟦<A as Archive>⟧ side h) side start
        (left_by was (beneath ledger.new archive.new) s side.found holdings.new caches.new)) }
    ensures stopped { let of = ghosts ⟦<G as Ledger>⟧ ⟦<A as Archive>⟧ in
        let was = beneath ledger.old archive.old in (side : Side) (start : Chain)
        → IsSure side → IsAt of was holdings.old caches.old side start → side.found ≡ holdings.old.tree
        → IfErr result (
        StopsAt of was (beneath ledger.new archive.new) side.chain false (IsTipMove side h)) }
    ensures memory { (side : Side) → G.stands ledger.old side.chain → side.found ≡ holdings.old.tree
        → IsErrOf result turn_fault.Memory → MayMove side h }
    ensures untouched { IfOk result TouchesNoFailed }
    ensures rows { (side : Side) → G.stands ledger.old side.chain → side.found ≡ holdings.old.tree
        → ReadsTip side h (G.reads ledger.old) (G.reads ledger.new) }
    ensures tree { holdings.new.tree ≡ holdings.old.tree }
    ensures magic { holdings.new.magic ≡ holdings.old.magic }
    ensures limits { holdings.new.pool.limits ≡ holdings.old.pool.limits }
    ensures fewer { IfOk result (λ s. length s.left ≤ length holdings.old.tree) }
    ensures step { NodeStep (ghosts ⟦<G as Ledger>⟧ ⟦<A as Archive>⟧) (beneath ledger.old archive.old)
        (beneath ledger.new archive.new) false result }
{
    match holdings.tree.path_end(&h) {
        Ok(end) => move_along(rt, alloc, ledger, holdings, caches, archive, &end, pace),
        Err(PathFault::Unknown) => Ok(refusing(alloc, NodeRefusal::Unknown(h))),
        Err(PathFault::Unconnected) => Ok(refusing(alloc, NodeRefusal::Unconnected(h))),
        Err(PathFault::Memory) => Err(StepFault::Memory),
    }
}

// A whole line of the node.
fn order_line<W: Threads + Sync, G: Ledger, A: Archive>(
    rt: &W,
    alloc: Global,
    ledger: &mut G,
    holdings: &mut Holdings,
    caches: &mut Caches,
    archive: &mut A,
    text: &[u8],
    pace: &(dyn Pace + Sync),
) -> Result<Step, StepFault>
    requires live { G.is_live ledger.old }
    ensures node { let of = ghosts ⟦<G as Ledger>⟧ ⟦<A as Archive>⟧ in
        let was = beneath ledger.old archive.old in (side : Side) (start : Chain)
        → IsAt of was holdings.old caches.old side start → IsFrom holdings.old side → IfOk result (λ s.
        Leads of (OrdersLine ⟦<A as Archive>⟧ side (line text.now)) side start
        (left_by was (beneath ledger.new archive.new) s holdings.new.tree holdings.new caches.new)) }
    ensures stopped { let of = ghosts ⟦<G as Ledger>⟧ ⟦<A as Archive>⟧ in
        let was = beneath ledger.old archive.old in (side : Side) (start : Chain)
        → IsSure side → IsAt of was holdings.old caches.old side start → IsFrom holdings.old side
        → IfErr result (
        StopsAt of was (beneath ledger.new archive.new) side.chain false (IsFirstMove side (line text.now))) }
    ensures memory { (side : Side) (start : Chain)
        → IsSure side → IsAt (ghosts ⟦<G as Ledger>⟧ ⟦<A as Archive>⟧) (beneath ledger.old archive.old)
        holdings.old caches.old side start → IsFrom holdings.old side → IsErrOf result turn_fault.Memory
        → WantsMemory ⟦<A as Archive>⟧ side (A.bytes archive.new) (line text.now) }
    ensures untouched { IfOk result TouchesNoFailed }
    ensures rows { (side : Side) (start : Chain)
        → IsSure side → IsAt (ghosts ⟦<G as Ledger>⟧ ⟦<A as Archive>⟧) (beneath ledger.old archive.old)
        holdings.old caches.old side start → IsFrom holdings.old side → IfOk result (λ s.
        ReadsLine side (line text.now) (G.reads ledger.old) (G.reads ledger.new)) }
    ensures magic { holdings.new.magic ≡ holdings.old.magic }
    ensures limits { holdings.new.pool.limits ≡ holdings.old.pool.limits }
    ensures fewer { IfOk result (λ s. length s.left ≤ length holdings.old.tree) }
    ensures more { OnOk result (length holdings.new.tree ≤ length holdings.old.tree + 1) }
    ensures step { NodeStep (ghosts ⟦<G as Ledger>⟧ ⟦<A as Archive>⟧) (beneath ledger.old archive.old)
        (beneath ledger.new archive.new) false result }
{
    match read_node_line(alloc, text) {
        Ok(NodeLine::Block { file, at }) => {
            let answer = order_block(holdings, archive, file, at)?;
            Ok(only_answer(alloc, answer))
        }
        Ok(NodeLine::Tip(h)) => order_tip(rt, alloc, ledger, holdings, caches, archive, h, pace),
        Ok(NodeLine::Tx(bytes)) => {
            let told = order_tx(
                alloc,
                ledger,
                &mut holdings.pool,
                &mut holdings.fees,
                bytes.as_slice(),
            )?;
            Ok(pool_step(alloc, told))
        }
        Ok(NodeLine::Drop(id)) => {
            let told = order_drop(alloc, &mut holdings.pool, &mut holdings.fees, id)?;
            Ok(pool_step(alloc, told))
        }
        Err(NodeLineFault::Line) => Ok(refusing(alloc, NodeRefusal::Line)),
        Err(NodeLineFault::Memory) => Err(StepFault::Memory),
    }
}

/// Takes what is met in the node's bytes: a line is done up to its first move, if it makes one, and one that
/// is too long is refused. It may be called where no earlier tip line has left blocks to put in.
///
/// # Errors
///
/// `StepFault::DiskFailed` where a call on the ledger's device failed, after which it isn't live, and
/// `StepFault::Memory` where no memory was found, which no line that is refused before a move takes. What was
/// moved before stays so, and the set isn't used again.
pub fn order<W: Threads + Sync, G: Ledger, A: Archive>(
    rt: &W,
    alloc: Global,
    ledger: &mut G,
    holdings: &mut Holdings,
    caches: &mut Caches,
    archive: &mut A,
    met: LineEvent,
    pace: &(dyn Pace + Sync),
) -> Result<Step, StepFault>
    requires live { G.is_live ledger.old }
    ensures node { let of = ghosts ⟦<G as Ledger>⟧ ⟦<A as Archive>⟧ in
        let was = beneath ledger.old archive.old in (side : Side) (start : Chain)
        → IsAt of was holdings.old caches.old side start → IsFrom holdings.old side → IfOk result (λ s.
        Leads of (OrdersLine ⟦<A as Archive>⟧ side (as_listed met)) side start
        (left_by was (beneath ledger.new archive.new) s holdings.new.tree holdings.new caches.new)) }
    ensures stopped { let of = ghosts ⟦<G as Ledger>⟧ ⟦<A as Archive>⟧ in
        let was = beneath ledger.old archive.old in (side : Side) (start : Chain)
        → IsSure side → IsAt of was holdings.old caches.old side start → IsFrom holdings.old side
        → IfErr result (
        StopsAt of was (beneath ledger.new archive.new) side.chain false (IsFirstMove side (as_listed met))) }
    // What needs no memory is answered without it.
    ensures memory { (side : Side) (start : Chain)
        → IsSure side → IsAt (ghosts ⟦<G as Ledger>⟧ ⟦<A as Archive>⟧) (beneath ledger.old archive.old)
        holdings.old caches.old side start → IsFrom holdings.old side → IsErrOf result turn_fault.Memory
        → WantsMemory ⟦<A as Archive>⟧ side (A.bytes archive.new) (as_listed met) }
    ensures untouched { IfOk result TouchesNoFailed }
    // How many rows are read, where no move is made and no transaction told.
    ensures rows { (side : Side) (start : Chain)
        → IsSure side → IsAt (ghosts ⟦<G as Ledger>⟧ ⟦<A as Archive>⟧) (beneath ledger.old archive.old)
        holdings.old caches.old side start → IsFrom holdings.old side → IfOk result (λ s.
        ReadsLine side (as_listed met) (G.reads ledger.old) (G.reads ledger.new)) }
    ensures magic { holdings.new.magic ≡ holdings.old.magic }
    ensures limits { holdings.new.pool.limits ≡ holdings.old.pool.limits }
    ensures fewer { IfOk result (λ s. length s.left ≤ length holdings.old.tree) }
    ensures more { OnOk result (length holdings.new.tree ≤ length holdings.old.tree + 1) }
    ensures step { NodeStep (ghosts ⟦<G as Ledger>⟧ ⟦<A as Archive>⟧) (beneath ledger.old archive.old)
        (beneath ledger.new archive.new) false result }
{
    match met {
        LineEvent::TooLong { limit: _ } => Ok(refusing(alloc, NodeRefusal::Long)),
        LineEvent::Line(text) => {
            order_line(
                rt,
                alloc,
                ledger,
                holdings,
                caches,
                archive,
                text.as_slice(),
                pace,
            )
        }
    }
}
