// A move, before the unconfirmed set is sifted.
ghost use Rattle.std.specs.Prelude.{◌≡◌, ◌≢◌, ◌≤◌, [], false, true, None, IfOk, IfErr, OnErr, IsErrOf, length};
ghost use Rattle.std.specs.List.{AllByRecursion};
ghost use Rattle.el_base.specs.declared.hash.Hash32 as hash_shape;
ghost use Rattle.el_outside.specs.Files.{AllGrow};
ghost use Rattle.el_chain.specs.declared.moves.Plan as moves;
ghost use Rattle.el_chain.specs.Chains.{Chain, tip};
ghost use Rattle.el_chain.specs.Headers.{AreLinked};
ghost use Rattle.el_chain.specs.Moves.{shorter, max_back};
ghost use Rattle.el_chain.specs.Records.{IsNode};
ghost use Rattle.el_model.specs.declared.fault.QueryFault.TheVariants as turn_fault;
ghost use Rattle.el_lines.specs.NodeAnswers as answers;
ghost use Rattle.el_side.specs.Beneath.{beneath, ghosts};
ghost use Rattle.el_side.specs.Plans.{plan_of};
ghost use Rattle.el_side.specs.Side.{Side};
ghost use Rattle.el_sync.specs.Steps.{StopsAt};
ghost use Rattle.el_sync.specs.within.Parts.{MoveFailed, MoveKeeps, SaysRefusal, Tries};

use crate::ahead::Ahead;
use crate::fault::StepFault;
use el_chain::{MoveFault, Plan, Touched};
use el_lines::{NodeAnswer, NodeRefusal, move_refused};
use el_model::Ledger;
use el_outside::{Archive, Pace};
use std::alloc::Global;
use std::thread::Threads;

/// What a move leaves, which was made or refused.
#[derive(Debug, Drop)]
pub struct Made {
    /// What the node is answered.
    pub answer: NodeAnswer,
    /// The blocks that are left to later moves.
    pub left: Ahead,
    /// Whether it was made.
    pub moved: bool,
    /// The script hashes that it touched, each once.
    pub touched: Touched,
}

// What the node is answered where a move is refused.
fn refusal(fault: MoveFault) -> Result<NodeAnswer, StepFault>
    ensures told { IfOk result (λ answer. SaysRefusal fault answer) }
    ensures failed { IsErrOf result turn_fault.DiskFailed → fault ≡ MoveFault.DiskFailed }
    ensures told_files { OnErr result (fault ≢ MoveFault.ArchiveFailed) }
    // Where there is something to tell, it is told.
    ensures memory { IsErrOf result turn_fault.Memory → (fault ≢ MoveFault.DiskFailed)
        × ((fault ≢ MoveFault.ArchiveFailed) × (answers.move_refused fault ≡ None)) }
{
    match fault {
        MoveFault::DiskFailed => Err(StepFault::DiskFailed),
        MoveFault::ArchiveFailed => Ok(NodeAnswer::Refused(NodeRefusal::Archive)),
        fault => match move_refused(fault) {
            Some(answer) => Ok(answer),
            None => Err(StepFault::Memory),
        },
    }
}

/// Makes the next move of a tip line, without the sift after it: so many blocks of the chain are taken back,
/// and the first of the rest are put in. Where it is refused, no block is left.
///
/// # Errors
///
/// `StepFault::DiskFailed`, after which the ledger isn't live, and `StepFault::Memory`, after which the move
/// isn't made.
pub fn make_move<W: Threads + Sync, G: Ledger, A: Archive>(
    rt: &W,
    alloc: Global,
    ledger: &mut G,
    back: u32,
    rest: Ahead,
    archive: &mut A,
    pace: &(dyn Pace + Sync),
) -> Result<Made, StepFault>
    requires live { G.is_live ledger.old }
    requires back { back ≤ max_back }
    requires nodes { AllByRecursion IsNode rest }
    requires linked { (before : hash_shape.Hash32) × AreLinked before rest }
    requires fits { (chain : Chain) → G.stands ledger.old chain
        → (back ≤ length chain) × AreLinked (tip (shorter back chain)) rest }
    ensures tried { (side : Side) → G.stands ledger.old side.chain
        → (A.tells → AllGrow side.files (A.bytes archive.old)) → IfOk result (
        Tries (ghosts ⟦<G as Ledger>⟧ ⟦<A as Archive>⟧) (beneath ledger.old archive.old)
        (beneath ledger.new archive.new) side back rest) }
    // Where it isn't made, it touched nothing, and only then the block files may have failed.
    ensures untouched { IfOk result (λ m. m.moved ≡ false → m.touched ≡ []) }
    ensures made { IfOk result (λ m. m.moved ≡ true → m.answer ≢ NodeAnswer.Refused NodeRefusal.Archive) }
    ensures stopped { (chain : Chain) → G.stands ledger.old chain → IfErr result (
        StopsAt (ghosts ⟦<G as Ledger>⟧ ⟦<A as Archive>⟧) (beneath ledger.old archive.old)
        (beneath ledger.new archive.new) chain false (λ (p : moves.Plan). p ≡ plan_of back rest)) }
    ensures keeps { IfOk result (MoveKeeps (ghosts ⟦<G as Ledger>⟧ ⟦<A as Archive>⟧)
        (beneath ledger.old archive.old) (beneath ledger.new archive.new) rest) }
    ensures failed { IfErr result (MoveFailed (ghosts ⟦<G as Ledger>⟧ ⟦<A as Archive>⟧)
        (beneath ledger.old archive.old) (beneath ledger.new archive.new)) }
{
    let forward = rest.next_blocks(alloc)?;
    let plan = Plan { back, forward };
    match ledger.go(rt, alloc, &plan, archive, pace) {
        Ok(moved) => Ok(Made {
            answer: NodeAnswer::At {
                tip: moved.tip,
                height: moved.height,
            },
            left: rest.passed(),
            moved: true,
            touched: moved.touched,
        }),
        Err(fault) => {
            let answer = refusal(fault)?;
            let left = Ahead::none(alloc);
            let touched = Touched::new(alloc);
            Ok(Made {
                answer,
                left,
                moved: false,
                touched,
            })
        }
    }
}
