// The way of a check: a made file is scanned, and three tip lines are taken.
ghost use Rattle.std.specs.Prelude.{◌≡◌, ◌≤◌, [], ◌∷◌, IfOk, OnOk};
ghost use Rattle.sha2.specs.Sha256.{sha256 as sha256_of};
ghost use Rattle.el_outside.specs.Counts.{CountsOnly};
ghost use Rattle.el_chain.specs.Chains.{Chain};
ghost use Rattle.el_gen.specs.Generated as made;
ghost use Rattle.el_model.specs.LedgerCalls.{Asked, KeepsBeside};
ghost use Rattle.el_model.specs.Queries as asked;
ghost use Rattle.el_side.specs.Beneath.{beneath, ghosts};
ghost use Rattle.el_side.specs.Side.{Side};
ghost use Rattle.el_check_chain.specs.within.Ways.{StandForSide, HaveLed, HasWalked};

use crate::headers::scanned_tree;
use crate::leading::lead;
use el_base::{Bytes, Hash32, OutOfMemory, sha256};
use el_fakes::SteadyArchive;
use el_fees::FeeTable;
use el_gen::{MOST_MADE, Made, locking_script, make};
use el_mempool::PoolLimits;
use el_model::{Ledger, QueryFault};
use el_outside::{Archive, Pace};
use el_pool::Pool;
use el_redo::{NetworkMagic, Regtest};
use el_side::{Caches, Holdings};
use std::alloc::Global;
use std::thread::Threads;

// Nothing unconfirmed is kept.
const NO_ROOM: PoolLimits = PoolLimits { count: 0, bytes: 0 };

// The number of the script whose balance is asked.
const ASKED_SCRIPT: u32 = 100;

/// What a ledger has at the end of the way, and what the way was.
#[derive(Clone, Copy, Debug)]
pub struct Walked {
    /// How many moves were made.
    pub moves: u64,
    /// The height of the last block; 0 for no blocks.
    pub height: u32,
    /// What the coins of the asked script hold together, in satoshi.
    pub balance: u64,
    /// How many bytes the made file has.
    pub bytes: u64,
}

/// The last blocks of two branches.
#[derive(Clone, Copy, Debug)]
pub struct Tips {
    /// The hash of the first branch's, in inner order.
    pub first: Hash32,
    /// The hash of the other branch's, in inner order.
    pub other: Hash32,
}

// Block files of which file 0 has these bytes, and there is no other. Fails only where memory runs out; bytes
// that are 2^62 or more, which no memory holds, count as such.
fn archive_of(alloc: Global, file: Bytes) -> Result<SteadyArchive, OutOfMemory>
    ensures { IfOk result (λ archive. archive ≡ record { files = file ∷ []; made = 0 }) }
{
    let mut files = Vec::new(alloc);
    files.push(file)?;
    match SteadyArchive::new(files) {
        Some(archive) => Ok(archive),
        None => Err(OutOfMemory),
    }
}

// Takes three tip lines: of the first tip, of the other one, and of the first again. It answers how many
// moves were made.
fn lead_all<W: Threads + Sync, G: Ledger, A: Archive>(
    rt: &W,
    alloc: Global,
    ledger: &mut G,
    holdings: &mut Holdings,
    caches: &mut Caches,
    archive: &mut A,
    tips: Tips,
    pace: &(dyn Pace + Sync),
) -> Result<u64, QueryFault>
    requires live { G.is_live ledger.old }
    requires never_fails { (a : A) → A.faults a ≡ 0 }
    ensures led { let of = ghosts ⟦<G as Ledger>⟧ ⟦<A as Archive>⟧ in
        let was = beneath ledger.old archive.old in (side : Side)
        → StandForSide of was holdings.old caches.old [] side → IfOk result
        (HaveLed of was (beneath ledger.new archive.new) side tips) }
    ensures live { OnOk result (G.is_live ledger.new) }
    ensures beside { KeepsBeside ⟦<G as Ledger>⟧ ledger.old ledger.new }
    ensures cause { CountsOnly (G.faults ledger.old) (G.faults ledger.new) QueryFault.DiskFailed result }
{
    let to_first = lead(
        rt, alloc, ledger, holdings, caches, archive, tips.first, pace,
    )?;
    let to_other = lead(
        rt, alloc, ledger, holdings, caches, archive, tips.other, pace,
    )?;
    let back = lead(
        rt, alloc, ledger, holdings, caches, archive, tips.first, pace,
    )?;
    Ok(to_first + to_other + back)
}

// What the coins of the script of 100 hold together, in satoshi.
fn asked_balance<G: Ledger>(alloc: Global, ledger: &mut G) -> Result<u64, QueryFault>
    requires live { G.is_live ledger.old }
    ensures balance { (chain : Chain) → G.stands ledger.old chain → IfOk result (λ sum.
        sum ≡ asked.balance chain (sha256_of (made.locking_script 100))) }
    ensures asked { Asked ⟦<G as Ledger>⟧ ledger.old ledger.new }
    ensures cause { CountsOnly (G.faults ledger.old) (G.faults ledger.new) QueryFault.DiskFailed result }
{
    let script = locking_script(alloc, ASKED_SCRIPT)?;
    let script_hash = sha256(script.as_slice());
    let sum = ledger.balance(&script_hash)?;
    Ok(sum)
}

/// Makes the file of so many blocks, scans it, and leads the ledger, which stands for no blocks, to the first
/// branch's tip, to the side branch's, and back, as a node's tip lines lead the server.
///
/// # Errors
///
/// `DiskFailed`, after which the ledger isn't live, and `Memory`. What was moved before stays so.
pub fn walk<W: Threads + Sync, G: Ledger>(
    rt: &W,
    alloc: Global,
    ledger: &mut G,
    count: u32,
    pace: &(dyn Pace + Sync),
) -> Result<Walked, QueryFault>
    requires live { G.is_live ledger.old }
    requires some { 1 ≤ count }
    requires few { count ≤ MOST_MADE }
    ensures walked { G.stands ledger.old [] → IfOk result
        (HasWalked ⟦<G as Ledger>⟧ count ledger.old ledger.new) }
    ensures live { OnOk result (G.is_live ledger.new) }
    ensures beside { KeepsBeside ⟦<G as Ledger>⟧ ledger.old ledger.new }
    ensures cause { CountsOnly (G.faults ledger.old) (G.faults ledger.new) QueryFault.DiskFailed result }
{
    let Made {
        file,
        first_tip,
        side_tip,
    } = make(alloc, count)?;
    let bytes = file.len() as u64;
    let tips = Tips {
        first: first_tip,
        other: side_tip,
    };
    let mut archive = archive_of(alloc, file)?;
    let magic = Regtest::magic();
    let tree = scanned_tree(alloc, &mut archive, magic)?;
    let pool = Pool::new(alloc, NO_ROOM);
    let fees = FeeTable::new();
    let mut holdings = Holdings {
        tree,
        magic,
        pool,
        fees,
    };
    let mut caches = Caches::new(alloc);
    let moves = lead_all(
        rt,
        alloc,
        ledger,
        &mut holdings,
        &mut caches,
        &mut archive,
        tips,
        pace,
    )?;
    let balance = asked_balance(alloc, ledger)?;
    Ok(Walked {
        moves,
        height: ledger.height().unwrap_or(0),
        balance,
        bytes,
    })
}
