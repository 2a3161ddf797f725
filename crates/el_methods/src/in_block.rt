// Transactions by their places in a block.
ghost use Rattle.std.specs.Prelude.{◌≡◌, ◌⊎◌, ◌≤◌, ◌+◌, MatchOption, IfOk, IsSomeAnd, true, false};
ghost use Rattle.el_outside.specs.Counts.{RoseBy};
ghost use Rattle.el_chain.specs.Chains.{Chain};
ghost use Rattle.el_levels.specs.Blocks.{IsTreeOf, IsProofOf};
ghost use Rattle.el_model.specs.LedgerCalls.{Asked};
ghost use Rattle.el_model.specs.Queries.{txids_at};
ghost use Rattle.el_methods.specs.Results as defined;
ghost use Rattle.el_methods.specs.RowBounds.{ids_rows};
ghost use Rattle.el_calls.specs.declared.refusal.Refusal.TheVariants as refusal;
ghost use Rattle.el_methods.specs.Outcomes.{IsAnswer, IsDiskCounted, RefusesOnly, IsPrintableAnswer};
ghost use Rattle.el_side.specs.Caching.{CachesStand, CachesStay};

use crate::headers::height_within;
use crate::stop::Stop;
use crate::texts::{hashes_of, shown_of};
use el_base::{Hash32, OutOfMemory};
use el_calls::Refusal;
use el_json::{Answer, Members};
use el_levels::Sought;
use el_model::Ledger;
use el_side::Caches;
use std::alloc::Global;

// The answer with a place in the block of that height, and its branch.
fn place_value(
    alloc: Global,
    partners: &[Hash32],
    height: u32,
    pos: usize,
) -> Result<Answer, OutOfMemory>
    ensures value { IfOk result (λ a. a ≡ defined.place_value partners.now height pos) }
    ensures printable { IsPrintableAnswer result }
{
    let mut members = Members::new(alloc);
    members.put(alloc, "block_height", Answer::number(u64::from(height)))?;
    members.put(alloc, "merkle", hashes_of(alloc, partners)?)?;
    members.put(alloc, "pos", Answer::number(pos as u64))?;
    Ok(members.into_answer())
}

/// The answer to `blockchain.transaction.get_merkle` (Electrum Protocol 1.4): the place of the transaction
/// in the block of that height, and the branch that leads from its txid to the block's Merkle root.
pub fn get_merkle<G: Ledger>(
    alloc: Global,
    ledger: &mut G,
    caches: &mut Caches,
    id: &Hash32,
    height: u64,
) -> Result<Answer, Stop>
    requires live { G.is_live ledger.old }

    ensures answer { (chain : Chain) → G.stands ledger.old chain → CachesStand caches.old chain chain
        → IsAnswer (defined.get_merkle chain id.now height) result }
    ensures printable { IsPrintableAnswer result }
    ensures rows { (chain : Chain) → G.stands ledger.old chain
        → G.reads ledger.new ≤ G.reads ledger.old + ids_rows (txids_at chain height) }

    ensures caches { CachesStay ⟦<G as Ledger>⟧ ledger.old caches.old caches.new }
    ensures quiet { Asked ⟦<G as Ledger>⟧ ledger.old ledger.new }

    ensures refusals { RefusesOnly (λ r. (r ≡ refusal.NoSuchHeight) ⊎ (r ≡ refusal.NotInThatBlock)) result }
    ensures counted { IsDiskCounted (λ n. RoseBy (G.faults ledger.old) (G.faults ledger.new) n) result }
{
    let Some(h) = height_within(ledger.height(), height) else {
        return Err(Stop::Refused(Refusal::NoSuchHeight));
    };
    let found = match caches.block.proof(alloc, ledger, h, Sought::Txid(*id)) {
        Ok(found) => found,
        Err(fault) => return Err(Stop::from(fault)),
    };
    let Some(proof) = found else {
        return Err(Stop::Refused(Refusal::NotInThatBlock));
    };
    let answer = place_value(alloc, proof.branch.as_slice(), h, proof.pos)?;
    Ok(answer)
}

// The answer with a txid and its branch.
fn id_with_branch(alloc: Global, partners: &[Hash32], id: &Hash32) -> Result<Answer, OutOfMemory>
    ensures value { IfOk result (λ a. a ≡ defined.id_with_branch partners.now id.now) }
    ensures printable { IsPrintableAnswer result }
{
    let mut members = Members::new(alloc);
    members.put(alloc, "merkle", hashes_of(alloc, partners)?)?;
    members.put(alloc, "tx_hash", shown_of(alloc, id)?)?;
    Ok(members.into_answer())
}

// The txid at a place of the block of that height.
fn id_alone<G: Ledger>(
    alloc: Global,
    ledger: &mut G,
    caches: &Caches,
    height: u32,
    pos: u64,
) -> Result<Answer, Stop>
    requires live { G.is_live ledger.old }
    requires within { MatchOption (G.height ledger.old) ⊥ (λ top. height ≤ top) }
    ensures answer { (chain : Chain) → G.stands ledger.old chain → IsTreeOf chain caches.now.block
        → IsAnswer (defined.id_from_pos chain height pos false) result }
    ensures refusals { RefusesOnly (λ r. r ≡ refusal.NoSuchPosition) result }
    ensures printable { IsPrintableAnswer result }
    ensures rows { (chain : Chain) → G.stands ledger.old chain
        → G.reads ledger.new ≤ G.reads ledger.old + ids_rows (txids_at chain height) }
    ensures quiet { Asked ⟦<G as Ledger>⟧ ledger.old ledger.new }
    ensures counted { IsDiskCounted (λ n. RoseBy (G.faults ledger.old) (G.faults ledger.new) n) result }
{
    match caches.block.txid_at(alloc, ledger, height, pos) {
        Ok(Some(id)) => {
            let answer = shown_of(alloc, &id)?;
            Ok(answer)
        }
        Ok(None) => Err(Stop::Refused(Refusal::NoSuchPosition)),
        Err(fault) => Err(Stop::from(fault)),
    }
}

// The same with its branch.
fn id_proved<G: Ledger>(
    alloc: Global,
    ledger: &mut G,
    caches: &mut Caches,
    height: u32,
    pos: u64,
) -> Result<Answer, Stop>
    requires live { G.is_live ledger.old }
    requires within { MatchOption (G.height ledger.old) ⊥ (λ top. height ≤ top) }
    ensures answer { (chain : Chain) → G.stands ledger.old chain → CachesStand caches.old chain chain
        → IsAnswer (defined.id_from_pos chain height pos true) result }
    ensures refusals { RefusesOnly (λ r. r ≡ refusal.NoSuchPosition) result }
    ensures printable { IsPrintableAnswer result }
    ensures rows { (chain : Chain) → G.stands ledger.old chain
        → G.reads ledger.new ≤ G.reads ledger.old + ids_rows (txids_at chain height) }
    ensures caches { CachesStay ⟦<G as Ledger>⟧ ledger.old caches.old caches.new }
    ensures quiet { Asked ⟦<G as Ledger>⟧ ledger.old ledger.new }
    ensures counted { IsDiskCounted (λ n. RoseBy (G.faults ledger.old) (G.faults ledger.new) n) result }
{
    match caches
        .block
        .proof(alloc, ledger, height, Sought::Place(pos))
    {
        Ok(Some(proof)) => {
            let answer = id_with_branch(alloc, proof.branch.as_slice(), &proof.txid)?;
            Ok(answer)
        }
        Ok(None) => Err(Stop::Refused(Refusal::NoSuchPosition)),
        Err(fault) => Err(Stop::from(fault)),
    }
}

/// The answer to `blockchain.transaction.id_from_pos` (Electrum Protocol 1.4): the txid at a place of the
/// block of that height, and with `merkle` the branch that leads from it to the block's Merkle root.
pub fn id_from_pos<G: Ledger>(
    alloc: Global,
    ledger: &mut G,
    caches: &mut Caches,
    height: u64,
    tx_pos: u64,
    merkle: bool,
) -> Result<Answer, Stop>
    requires live { G.is_live ledger.old }

    ensures answer { (chain : Chain) → G.stands ledger.old chain → CachesStand caches.old chain chain
        → IsAnswer (defined.id_from_pos chain height tx_pos merkle) result }
    ensures printable { IsPrintableAnswer result }
    ensures rows { (chain : Chain) → G.stands ledger.old chain
        → G.reads ledger.new ≤ G.reads ledger.old + ids_rows (txids_at chain height) }

    ensures caches { CachesStay ⟦<G as Ledger>⟧ ledger.old caches.old caches.new }
    ensures quiet { Asked ⟦<G as Ledger>⟧ ledger.old ledger.new }

    ensures refusals { RefusesOnly (λ r. (r ≡ refusal.NoSuchHeight) ⊎ (r ≡ refusal.NoSuchPosition)) result }
    ensures counted { IsDiskCounted (λ n. RoseBy (G.faults ledger.old) (G.faults ledger.new) n) result }
{
    let Some(h) = height_within(ledger.height(), height) else {
        return Err(Stop::Refused(Refusal::NoSuchHeight));
    };
    if !merkle {
        return id_alone(alloc, ledger, caches, h, tx_pos);
    }
    id_proved(alloc, ledger, caches, h, tx_pos)
}
