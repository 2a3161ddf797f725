// The node's lines about unconfirmed transactions.
ghost use Rattle.std.specs.Prelude.{◌≡◌, ◌⊎◌, ◌≢◌, [], List, IfOk, IfErr, OnOk, Some, IsErrOf};
ghost use Rattle.el_outside.specs.Counts.{CountsOnly};
ghost use Rattle.el_tx.specs.declared.types.Tx as tx_shape;
ghost use Rattle.el_tx.specs.Encoding.{Encodes};
ghost use Rattle.el_tx.specs.Hashing as hashing;
ghost use Rattle.el_chain.specs.Chains.{Chain};
ghost use Rattle.el_mempool.specs.Standing.{KeptStandFor};
ghost use Rattle.el_fees.specs.Tables.{IsTableOf};
ghost use Rattle.el_model.specs.LedgerCalls.{Asked};
ghost use Rattle.el_model.specs.declared.fault.QueryFault.TheVariants as turn_fault;
ghost use Rattle.el_lines.specs.NodeAnswers as answers;
ghost use Rattle.el_side.specs.Side.{Side, Adds, Drops, MayTellTx};
ghost use Rattle.el_sync.specs.within.Parts.{NamesItself, StandsAfter};

use crate::fault::StepFault;
use el_base::Hash32;
use el_chain::Touched;
use el_fees::FeeTable;
use el_lines::{NodeAnswer, NodeRefusal, pool_refused};
use el_mempool::PoolFault;
use el_model::Ledger;
use el_pool::Pool;
use el_tx::{decode_tx, txid};
use std::alloc::Global;

/// What a line about an unconfirmed transaction leaves.
#[derive(Debug, Drop)]
pub struct PoolAnswer {
    /// What the node is answered.
    pub answer: NodeAnswer,
    /// The script hashes of which another thing is seen in the set, each once.
    pub changed: Touched,
}

// The txid of the transaction that the bytes encode, which was refused for one that has it.
fn own_txid(alloc: Global, bytes: &[u8]) -> Result<Hash32, StepFault>
    ensures is { (t : tx_shape.Tx) → Encodes bytes.now t → IfOk result (λ id. id ≡ hashing.txid t) }
    ensures memory { IfErr result (λ e. e ≡ turn_fault.Memory) }
{
    match decode_tx(alloc, bytes) {
        Ok((tx, _)) => {
            let id = txid(alloc, &tx)?;
            Ok(id)
        }
        Err(_) => Err(StepFault::Memory),
    }
}

// The txid that the refusal of the transaction tells, if it tells its own. Another refusal takes none, and
// the transaction isn't hashed for it.
fn told_txid(alloc: Global, bytes: &[u8], fault: PoolFault) -> Result<Hash32, StepFault>
    ensures is { (t : tx_shape.Tx) → Encodes bytes.now t → NamesItself fault
        → IfOk result (λ id. id ≡ hashing.txid t) }
    ensures memory { IfErr result (λ e. e ≡ turn_fault.Memory) }
{
    match fault {
        PoolFault::Confirmed | PoolFault::Known => own_txid(alloc, bytes),
        _ => Ok(Hash32([0; 32])),
    }
}

// What the node is answered where the transaction that the bytes encode, or the bytes, are refused.
fn refuse_tx(alloc: Global, bytes: &[u8], fault: PoolFault) -> Result<PoolAnswer, StepFault>
    ensures told { (t : tx_shape.Tx) → Encodes bytes.now t
        → IfOk result (λ r. answers.pool_refused (hashing.txid t) fault ≡ Some r.answer) }
    ensures form { fault ≡ PoolFault.Bad → IfOk result (λ r. r.answer ≡ NodeAnswer.Refused NodeRefusal.Form) }
    ensures tells { IfOk result (λ r. MayTellTx r.answer) }
    ensures none { IfOk result (λ r. r.changed ≡ []) }
    ensures no_disk { OnOk result (fault ≢ PoolFault.DiskFailed) }
    ensures no_memory { OnOk result (fault ≢ PoolFault.Memory) }
    ensures failed { IsErrOf result turn_fault.DiskFailed → fault ≡ PoolFault.DiskFailed }
    ensures memory { IsErrOf result turn_fault.Memory → fault ≢ PoolFault.DiskFailed }
{
    if fault == PoolFault::DiskFailed {
        return Err(StepFault::DiskFailed);
    }
    let id = told_txid(alloc, bytes, fault)?;
    match pool_refused(id, fault) {
        Some(answer) => Ok(PoolAnswer {
            answer,
            changed: Touched::new(alloc),
        }),
        None => Err(StepFault::Memory),
    }
}

/// Takes a line that tells an unconfirmed transaction by its bytes: it joins those that are kept, or is
/// refused. The table of fees follows.
///
/// # Errors
///
/// `StepFault::DiskFailed` where a call on the ledger's device failed, and `StepFault::Memory` where no
/// memory was found.
pub fn order_tx<G: Ledger>(
    alloc: Global,
    ledger: &mut G,
    pool: &mut Pool,
    fees: &mut FeeTable,
    bytes: &[u8],
) -> Result<PoolAnswer, StepFault>
    requires live { G.is_live ledger.old }
    ensures adds { (side : Side) → G.stands ledger.old side.chain
        → KeptStandFor pool.old.entries side.chain side.kept → pool.old.limits ≡ side.limits
        → IfOk result (λ r. StandsAfter pool.new side r.changed (Adds side bytes.now r.answer [])) }
    ensures fees { (chain : Chain) (kept : List tx_shape.Tx) → G.stands ledger.old chain
        → KeptStandFor pool.old.entries chain kept → IsTableOf fees.old pool.old.entries
        → OnOk result (IsTableOf fees.new pool.new.entries) }
    // Whatever the ledger and the set stand for.
    ensures tells { IfOk result (λ r. MayTellTx r.answer) }
    ensures untouched { IfOk result (λ r. r.answer ≡ NodeAnswer.Refused NodeRefusal.Archive
        → r.changed ≡ []) }
    ensures limits { pool.new.limits ≡ pool.old.limits }
    ensures asked { Asked ⟦<G as Ledger>⟧ ledger.old ledger.new }
    ensures disk_rose { CountsOnly (G.faults ledger.old) (G.faults ledger.new) turn_fault.DiskFailed result }
{
    match pool.add(ledger, bytes) {
        Ok((id, changed)) => {
            fees.follow(pool.last_changes());
            Ok(PoolAnswer {
                answer: NodeAnswer::Tx(id),
                changed,
            })
        }
        Err(fault) => refuse_tx(alloc, bytes, fault),
    }
}

/// Takes a line that tells that the node no longer has the transaction of this txid: it is dropped from those
/// that are kept, with those that spend it. The table of fees follows. Fails only where memory runs out.
pub fn order_drop(
    alloc: Global,
    pool: &mut Pool,
    fees: &mut FeeTable,
    id: Hash32,
) -> Result<PoolAnswer, StepFault>
    ensures drops { (side : Side) → KeptStandFor pool.old.entries side.chain side.kept
        → IfOk result (λ r. StandsAfter pool.new side r.changed (Drops side id r.answer [])) }
    ensures fees { (chain : Chain) (kept : List tx_shape.Tx) → KeptStandFor pool.old.entries chain kept
        → IsTableOf fees.old pool.old.entries → OnOk result (IsTableOf fees.new pool.new.entries) }
    // Whatever the set stands for.
    ensures tells { IfOk result (λ r. (r.answer ≡ NodeAnswer.Gone id)
        ⊎ (r.answer ≡ NodeAnswer.Refused (NodeRefusal.Absent id))) }
    ensures untouched { IfOk result (λ r. r.answer ≡ NodeAnswer.Refused NodeRefusal.Archive
        → r.changed ≡ []) }
    ensures limits { pool.new.limits ≡ pool.old.limits }
    ensures memory { IfErr result (λ e. e ≡ turn_fault.Memory) }
{
    let Some(changed) = pool.drop_tx(&id)? else {
        return Ok(PoolAnswer {
            answer: NodeAnswer::Refused(NodeRefusal::Absent(id)),
            changed: Touched::new(alloc),
        });
    };
    fees.follow(pool.last_changes());
    Ok(PoolAnswer {
        answer: NodeAnswer::Gone(id),
        changed,
    })
}
