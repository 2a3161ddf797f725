// The chain that the block files have along a path.
ghost use Rattle.std.specs.Prelude.{◌≡◌, ◌∷◌, ◌++◌, [], IfOk, IfErr, OnOk};
ghost use Rattle.std.specs.List.{AllByRecursion};
ghost use Rattle.el_outside.specs.Counts.{OnlyReads};
ghost use Rattle.el_chain.specs.Chains.{Chain, tip, zero_hash};
ghost use Rattle.el_chain.specs.Headers.{AreLinked};
ghost use Rattle.el_chain.specs.Moves.{IsRefused, Moves, StoodAt};
ghost use Rattle.el_chain.specs.Records.{IsNode};
ghost use Rattle.el_audit_run.specs.Findings.{putting, IsBadBlock};

use crate::watch::{AuditWatch, Step};
use el_base::{Listed, OutOfMemory};
use el_chain::{MoveFault, Node, Plan};
use el_model::Ledger;
use el_outside::{Archive, Pace};
use el_plain::PlainLedger;
use std::alloc::Global;
use std::thread::Threads;

// The move that puts in the block of a node alone.
fn plan_of(alloc: Global, node: &Node) -> Result<Plan, OutOfMemory>
    ensures { IfOk result (λ plan. plan ≡ putting (node.now ∷ [])) }
{
    let mut forward = Listed::new(alloc);
    forward.push(*node)?;
    Ok(Plan { back: 0, forward })
}

// Reads the block of the node, and puts it after the chain.
fn add_block<W: Threads + Sync, A: Archive>(
    rt: &W,
    alloc: Global,
    chain: &mut PlainLedger,
    node: &Node,
    archive: &mut A,
    pace: &(dyn Pace + Sync),
) -> Result<(), MoveFault>
    requires node { IsNode node.now }
    requires names { node.now.header.previous ≡ tip chain.old }
    ensures added { OnOk result ((blocks : Chain)
        × Moves (StoodAt ⟦<A as Archive>⟧ (A.bytes archive.old) (A.bytes archive.new))
        chain.old (putting (node.now ∷ [])) blocks × (chain.new ≡ chain.old ++ blocks)) }
    ensures refused { IfErr result (IsRefused
        (StoodAt ⟦<A as Archive>⟧ (A.bytes archive.old) (A.bytes archive.new))
        chain.old (putting (node.now ∷ []))) }
    ensures only_reads { OnlyReads A.tells (A.bytes archive.old) (A.bytes archive.new)
        (A.faults archive.old) (A.faults archive.new) MoveFault.ArchiveFailed result }
{
    // What is kept is good.
    let _kept = chain.blocks();
    let plan = plan_of(alloc, node)?;
    match chain.go(rt, alloc, &plan, archive, pace) {
        Ok(_) => Ok(()),
        Err(fault) => Err(fault),
    }
}

/// The chain of the path's blocks, each read at its place.
///
/// # Errors
///
/// Why the first block that can't be put after those before it can't be: `MoveFault::Changed`,
/// `MoveFault::BadBlock` or `MoveFault::Refused`. `MoveFault::ArchiveFailed` where a call of the block files
/// failed, and `MoveFault::Memory` where memory runs out.
pub fn read_path<W: Threads + Sync, A: Archive, V: AuditWatch>(
    rt: &W,
    alloc: Global,
    path: &[Node],
    archive: &mut A,
    pace: &(dyn Pace + Sync),
    watch: &mut V,
) -> Result<PlainLedger, MoveFault>
    requires nodes { AllByRecursion IsNode path.now }
    requires linked { AreLinked zero_hash path.now }
    ensures read { IfOk result (λ chain.
        Moves (StoodAt ⟦<A as Archive>⟧ (A.bytes archive.old) (A.bytes archive.new))
        [] (putting path.now) chain) }
    ensures bad { IfErr result (IsBadBlock
        (StoodAt ⟦<A as Archive>⟧ (A.bytes archive.old) (A.bytes archive.new)) path.now) }
    ensures only_reads { OnlyReads A.tells (A.bytes archive.old) (A.bytes archive.new)
        (A.faults archive.old) (A.faults archive.new) MoveFault.ArchiveFailed result }
{
    let mut chain = PlainLedger::new(alloc);
    for (height, node) in path.iter().enumerate() {
        watch.reached(Step::Reading, height as u64, path.len() as u64);
        match add_block(rt, alloc, &mut chain, node, archive, pace) {
            Ok(()) => {}
            Err(fault) => return Err(fault),
        }
    }
    Ok(chain)
}
