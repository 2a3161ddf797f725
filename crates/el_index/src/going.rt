// A move, made on the rows.
ghost use Rattle.std.specs.Prelude.{◌≡◌, ◌≢◌, ◌⊎◌, ◌≤◌, ◌+◌, ◌-◌, length, List, ℕ, [], Some, Option, IfOk, IfErr, IsErrOf, OnOk};
ghost use Rattle.el_chain.specs.Chains.{Chain, zero_hash};
ghost use Rattle.el_chain.specs.Moves.{AreOf, FaultInAt, FitsChain, IsPlan, last_hash as hash_of_last, shorter, target};
ghost use Rattle.el_chain.specs.declared.node.Node as node_shape;
ghost use Rattle.el_model.specs.Keeping.{Either};
ghost use Rattle.el_model.specs.Queries.{tip_of};
ghost use Rattle.el_outside.specs.Counts.{CountsOnly};
ghost use Rattle.el_outside.specs.Moments.{LeavesOnly};
ghost use Rattle.el_rows.specs.Transaction.{with_edits, ReadsRows, EditsRows, WasRead};
ghost use Rattle.el_row_formats.specs.declared.table.Table.{Table};
ghost use Rattle.el_index.specs.Means.{AreRowsOf, Means};
ghost use Rattle.el_index.specs.within.Adding.{AreMoved, FliesTo, IsOwn};

use crate::blocks_back::take_back;
use crate::blocks_in::add_all;
use crate::index::Index;
use crate::last_block::last_hash;
use crate::step_faults::touch_all;
use el_base::{Bytes, Hash32};
use el_chain::{MoveFault, Node, Plan, Touched};
use el_outside::{DiskFailed, Pace};
use el_queries::each_block_touches_what_the_move_touches;
use el_row_formats::Table;
use el_rows::{CommitFault, Rows, Txn};
use std::alloc::Global;
use std::thread::Threads;

// The edits of a move, and the script hashes that it touches.
fn edit<W: Threads + Sync, R: Rows, P: Pace + Sync>(
    rt: &W,
    alloc: Global,
    t: &mut Txn<'_, R>,
    plan: &Plan,
    texts: &[Bytes],
    touched: &mut Touched,
    pace: &P,
) -> Result<(), MoveFault>
    requires live { R.is_live t.old.rows.now }
    requires plan { IsPlan plan.now }
    requires of { AreOf plan.now.forward texts.now }
    requires none { touched.old ≡ [] }
    ensures moved { (heads : ℕ) (chain : Chain) → R.tells → AreRowsOf heads (with_edits t.old) chain
        → FitsChain plan.now chain → OnOk result ((blocks : Chain)
        × AreMoved heads plan.now chain texts.now touched.new (with_edits t.new) blocks) }
    // Over any rows the number of blocks goes by the plan.
    ensures top { OnOk result (length (with_edits t.new Table.Blocks)
        ≡ (length (with_edits t.old Table.Blocks) - plan.now.back) + length plan.now.forward) }
    ensures first_fault { (heads : ℕ) (chain : Chain) → R.tells → AreRowsOf heads (with_edits t.old) chain
        → FitsChain plan.now chain → IfErr result (λ e. IsOwn e
        ⊎ FaultInAt (shorter plan.now.back chain) plan.now.forward texts.now e) }
    ensures edits { EditsRows MoveFault.DiskFailed t.old t.new result }
    ensures no_archive { IfErr result (λ e. e ≢ MoveFault.ArchiveFailed) }
{
    take_back(t, plan.back, touched)?;
    let txs = t.count(Table::Txs);
    let entries = t.count(Table::Entries);
    add_all(rt, alloc, t, plan.forward.as_slice(), texts, pace)?;
    touch_all(t, txs, entries, touched)?;
    // What the blocks that were taken back touch one by one is what the move touches.
    each_block_touches_what_the_move_touches();
    Ok(())
}

// The hash of the last block once these were put in, by the last of them or by its row.
fn hash_after<R: Rows>(t: &mut Txn<'_, R>, nodes: &[Node]) -> Result<Option<Hash32>, MoveFault>
    requires live { R.is_live t.old.rows.now }
    ensures last { IfOk result (λ hash. nodes.now ≢ []
        → hash ≡ Some (hash_of_last zero_hash nodes.now)) }
    ensures tip { (heads : ℕ) (chain : Chain) → R.tells → AreRowsOf heads (with_edits t.old) chain
        → nodes.now ≡ [] → IfOk result (λ hash. hash ≡ tip_of chain) }
    ensures read { ReadsRows MoveFault.DiskFailed t.old t.new result }
    ensures device { IfErr result (λ e. e ≡ MoveFault.DiskFailed) }
{
    match nodes {
        [] => match last_hash(t) {
            Ok(hash) => Ok(hash),
            Err(DiskFailed) => Err(MoveFault::DiskFailed),
        },
        [.., node] => Ok(Some(node.hash)),
    }
}

impl<R: Rows> Index<R> {
    // Makes a move on the rows, in one commit, and answers the hash of the last block. The hash that is kept
    // stays.
    pub(crate) fn change<W: Threads + Sync, P: Pace + Sync>(
        &mut self,
        rt: &W,
        alloc: Global,
        plan: &Plan,
        texts: &[Bytes],
        touched: &mut Touched,
        pace: &P,
    ) -> Result<Option<Hash32>, MoveFault>
        requires live { R.is_live self.old.rows }
        requires plan { IsPlan plan.now }
        requires of { AreOf plan.now.forward texts.now }
        requires none { touched.old ≡ [] }
        ensures moved { (chain : Chain) → R.tells
            → AreRowsOf (R.heads self.old.rows) (R.lists self.old.rows) chain
            → FitsChain plan.now chain → IfOk result (λ hash. (blocks : Chain)
            × AreMoved (R.heads self.new.rows) plan.now chain texts.now touched.new
            (R.lists self.new.rows) blocks
            × (hash ≡ tip_of (target plan.now chain blocks))
            × (R.tells_crash → LeavesOnly R.moment R.left_since self.old.rows self.new.rows
            (Either (Means R.shows) chain (target plan.now chain blocks)))) }
        ensures last { IfOk result (λ hash. plan.now.forward ≢ []
            → hash ≡ Some (hash_of_last zero_hash plan.now.forward)) }
        ensures top { IfOk result (λ hash. R.counts self.new.rows Table.Blocks
            ≡ (R.counts self.old.rows Table.Blocks - plan.now.back) + length plan.now.forward) }
        ensures live { OnOk result (R.is_live self.new.rows) }
        ensures kept { self.new.tip ≡ self.old.tip }
        ensures first_fault { (chain : Chain) → R.tells
            → AreRowsOf (R.heads self.old.rows) (R.lists self.old.rows) chain
            → FitsChain plan.now chain → IfErr result (λ e. IsOwn e
            ⊎ FaultInAt (shorter plan.now.back chain) plan.now.forward texts.now e) }
        // After any other fault only rows were read.
        ensures unchanged { IfErr result (λ e. e ≢ MoveFault.DiskFailed
            → WasRead ⟦<R as Rows>⟧
            self.old.rows self.new.rows) }
        ensures crash_failed { (chain : Chain) → R.tells
            → AreRowsOf (R.heads self.old.rows) (R.lists self.old.rows) chain
            → FitsChain plan.now chain → IsErrOf result MoveFault.DiskFailed
            → (next : Chain) × FliesTo plan.now chain texts.now next
            × (R.tells_crash → LeavesOnly R.moment R.left_since self.old.rows self.new.rows
            (Either (Means R.shows) chain next)) }
        ensures beside { R.tells_crash → R.beside self.new.rows ≡ R.beside self.old.rows }
        ensures cause { CountsOnly (R.faults self.old.rows) (R.faults self.new.rows)
            MoveFault.DiskFailed result }
        ensures no_archive { IfErr result (λ e. e ≢ MoveFault.ArchiveFailed) }
    {
        let mut txn = Txn::new(alloc, &mut self.rows);
        edit(rt, alloc, &mut txn, plan, texts, touched, pace)?;
        let hash = hash_after(&mut txn, plan.forward.as_slice())?;
        let sealed = txn.seal()?;
        match self.rows.commit(&sealed) {
            Ok(()) => Ok(hash),
            Err(CommitFault::DiskFailed) => Err(MoveFault::DiskFailed),
            Err(CommitFault::Memory) => Err(MoveFault::Memory),
        }
    }
}
