// Headers, and proofs of their heights.
ghost use Rattle.std.specs.Prelude.{◌≡◌, ◌⊎◌, ◌≤◌, ◌<◌, ◌+◌, ◌*◌, min, ℕ, IfOk, IfSome, IfNone, MatchOption, ok_or, Ok, codes, length};
ghost use Rattle.el_outside.specs.Counts.{RoseBy};
ghost use Rattle.el_chain.specs.Chains.{Chain};
ghost use Rattle.el_model.specs.LedgerCalls.{Asked};
ghost use Rattle.el_model.specs.Queries.{header_at, hashes_to};
ghost use Rattle.el_methods.specs.Results as defined;
ghost use Rattle.el_methods.specs.Results.{hex};
ghost use Rattle.el_methods.specs.RowBounds.{proof_rows};
ghost use Rattle.el_levels.specs.declared.groups.TheConstants.{GROUP};
ghost use Rattle.el_side.specs.Caching.{CachesStand, CachesStay};
ghost use Rattle.el_calls.specs.declared.refusal.Refusal.TheVariants as refusal;
ghost use Rattle.el_methods.specs.Outcomes.{IsAnswer, IsDiskCounted, RefusesOnly, IsPrintableAnswer};

use crate::stop::Stop;
use crate::texts::{hashes_of, hex_of, shown_of};
use el_base::{Hash32, OutOfMemory};
use el_calls::Refusal;
use el_json::{Answer, Members};
use el_model::Ledger;
use el_side::Caches;
use std::alloc::Global;

// The height, where it isn't above the top.
pub(crate) fn height_within(top: Option<u32>, height: u64) -> Option<u32>
    ensures within { IfSome result (λ h. (h ≡ height) × MatchOption top ⊥ (λ t. h ≤ t)) }
    ensures none { IfNone result (MatchOption top (Unit {0}) (λ t. t < height)) }
{
    match top {
        Some(top) => if height <= u64::from(top) {
            Some(height as u32)
        } else {
            None
        },
        None => None,
    }
}

// The header alone.
fn header_alone<G: Ledger>(alloc: Global, ledger: &mut G, height: u32) -> Result<Answer, Stop>
    requires live { G.is_live ledger.old }
    requires within { MatchOption (G.height ledger.old) ⊥ (λ top. height ≤ top) }
    ensures answer { (chain : Chain) → G.stands ledger.old chain
        → IsAnswer (defined.of_header chain height hex) result }
    ensures refusals { RefusesOnly (λ r. ⊥) result }
    ensures printable { IsPrintableAnswer result }
    ensures rows { G.reads ledger.new ≤ G.reads ledger.old + 1 }
    ensures quiet { Asked ⟦<G as Ledger>⟧ ledger.old ledger.new }
    ensures counted { IsDiskCounted (λ n. RoseBy (G.faults ledger.old) (G.faults ledger.new) n) result }
{
    match ledger.header(height) {
        Ok(header) => {
            let answer = hex_of(alloc, header.as_slice())?;
            Ok(answer)
        }
        Err(_) => Err(Stop::Disk),
    }
}

// A header, the partners of its block's hash and the root that they lead to.
fn proof_of(
    alloc: Global,
    header: &[u8],
    partners: &[Hash32],
    root: &Hash32,
) -> Result<Answer, OutOfMemory>
    ensures proof { IfOk result (λ a. a ≡ defined.proof_value partners.now root.now header.now) }
    ensures printable { IsPrintableAnswer result }
{
    let mut members = Members::new(alloc);
    members.put(alloc, "branch", hashes_of(alloc, partners)?)?;
    members.put(alloc, "header", hex_of(alloc, header)?)?;
    members.put(alloc, "root", shown_of(alloc, root)?)?;
    Ok(members.into_answer())
}

// The header, and its proof among the block hashes up to the checkpoint.
fn header_among<G: Ledger>(
    alloc: Global,
    ledger: &mut G,
    caches: &mut Caches,
    header: &[u8],
    height: u32,
    cp_height: u32,
) -> Result<Answer, Stop>
    requires live { G.is_live ledger.old }
    requires within { MatchOption (G.height ledger.old) ⊥ (λ top. cp_height ≤ top) }
    requires below { height ≤ cp_height }
    ensures answer { (chain : Chain) → G.stands ledger.old chain → CachesStand caches.old chain chain
        → IsAnswer (Ok (defined.header_proof chain height cp_height header.now)) result }
    ensures refusals { RefusesOnly (λ r. ⊥) result }
    ensures printable { IsPrintableAnswer result }
    ensures rows { (chain : Chain) → G.stands ledger.old chain → CachesStand caches.old chain chain
        → G.reads ledger.new ≤ G.reads ledger.old + min (2 * GROUP) (cp_height + 1) }
    ensures caches { CachesStay ⟦<G as Ledger>⟧ ledger.old caches.old caches.new }
    ensures quiet { Asked ⟦<G as Ledger>⟧ ledger.old ledger.new }
    ensures counted { IsDiskCounted (λ n. RoseBy (G.faults ledger.old) (G.faults ledger.new) n) result }
{
    match caches.prove(alloc, ledger, height, cp_height) {
        Ok((partners, root)) => {
            let answer = proof_of(alloc, header, partners.as_slice(), &root)?;
            Ok(answer)
        }
        Err(fault) => Err(Stop::from(fault)),
    }
}

// The header and its proof.
fn header_proved<G: Ledger>(
    alloc: Global,
    ledger: &mut G,
    caches: &mut Caches,
    height: u32,
    cp_height: u32,
) -> Result<Answer, Stop>
    requires live { G.is_live ledger.old }
    requires within { MatchOption (G.height ledger.old) ⊥ (λ top. cp_height ≤ top) }
    requires below { height ≤ cp_height }
    ensures answer { (chain : Chain) → G.stands ledger.old chain → CachesStand caches.old chain chain
        → IsAnswer (defined.of_header chain height (defined.header_proof chain height cp_height)) result }
    ensures refusals { RefusesOnly (λ r. ⊥) result }
    ensures printable { IsPrintableAnswer result }
    ensures rows { (chain : Chain) → G.stands ledger.old chain → CachesStand caches.old chain chain
        → G.reads ledger.new ≤ G.reads ledger.old + (1 + min (2 * GROUP) (cp_height + 1)) }
    ensures caches { CachesStay ⟦<G as Ledger>⟧ ledger.old caches.old caches.new }
    ensures quiet { Asked ⟦<G as Ledger>⟧ ledger.old ledger.new }
    ensures counted { IsDiskCounted (λ n. RoseBy (G.faults ledger.old) (G.faults ledger.new) n) result }
{
    match ledger.header(height) {
        Ok(header) => header_among(alloc, ledger, caches, header.as_slice(), height, cp_height),
        Err(_) => Err(Stop::Disk),
    }
}

/// The answer to `blockchain.block.header` (Electrum Protocol 1.4): the header of that height in hex, and
/// where `cp_height` isn't 0 the branch that leads from the block's hash to the root over the block hashes of
/// heights 0 to `cp_height`.
pub fn block_header<G: Ledger>(
    alloc: Global,
    ledger: &mut G,
    caches: &mut Caches,
    height: u64,
    cp_height: u64,
) -> Result<Answer, Stop>
    requires live { G.is_live ledger.old }

    ensures answer { (chain : Chain) → G.stands ledger.old chain → CachesStand caches.old chain chain
        → IsAnswer (defined.block_header chain height cp_height) result }
    ensures printable { IsPrintableAnswer result }
    ensures rows { (chain : Chain) → G.stands ledger.old chain → CachesStand caches.old chain chain
        → G.reads ledger.new ≤ G.reads ledger.old + (1 + proof_rows cp_height) }

    ensures caches { CachesStay ⟦<G as Ledger>⟧ ledger.old caches.old caches.new }
    ensures quiet { Asked ⟦<G as Ledger>⟧ ledger.old ledger.new }

    ensures refusals { RefusesOnly (λ r. (r ≡ refusal.NoSuchHeight) ⊎ (r ≡ refusal.BadCheckpoint)) result }
    ensures counted { IsDiskCounted (λ n. RoseBy (G.faults ledger.old) (G.faults ledger.new) n) result }
{
    let top = ledger.height();
    let Some(h) = height_within(top, height) else {
        return Err(Stop::Refused(Refusal::NoSuchHeight));
    };
    if cp_height == 0 {
        return header_alone(alloc, ledger, h);
    }
    let Some(checkpoint) = height_within(top, cp_height) else {
        return Err(Stop::Refused(Refusal::BadCheckpoint));
    };
    if checkpoint < h {
        return Err(Stop::Refused(Refusal::BadCheckpoint));
    }
    header_proved(alloc, ledger, caches, h, checkpoint)
}
