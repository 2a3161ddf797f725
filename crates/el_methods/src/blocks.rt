// Headers from a height on, and the header of the tip.
ghost use Rattle.std.specs.Prelude.{◌≡◌, ◌+◌, ◌-◌, ◌*◌, ◌^◌, ◌≤◌, ◌<◌, ◌||◌, ◌&&◌, min, nat_le, nat_lt, ℕ, true, IfOk, IfErr, OnOk, OnErr, MatchOption, Ok, length};
ghost use Rattle.el_outside.specs.Counts.{RoseBy};
ghost use Rattle.el_chain.specs.Chains.{Chain};
ghost use Rattle.el_model.specs.LedgerCalls.{Asked};
ghost use Rattle.el_methods.specs.Results as defined;
ghost use Rattle.el_methods.specs.Results.{header_count, headers_bytes};
ghost use Rattle.el_methods.specs.RowBounds.{proof_rows};
ghost use Rattle.el_methods.specs.Outcomes.{IsAnswer, IsReplyWith, IsDiskCounted, RefusesOnly, IsPrintableAnswer};
ghost use Rattle.el_levels.specs.declared.groups.TheConstants.{GROUP};
ghost use Rattle.el_side.specs.Caching.{CachesStand, CachesStay};
ghost use Rattle.el_model.specs.Queries.{hashes_to};
ghost use Rattle.el_methods.specs.Results.{told_tip};
ghost use Rattle.el_methods.specs.within.Tops.{block_count};
ghost use Rattle.el_calls.specs.declared.refusal.Refusal as shape;
ghost use Rattle.el_calls.specs.declared.refusal.Refusal.TheVariants as refusal;
ghost use Rattle.el_methods.specs.declared.stop.Stop.TheVariants as stop;

use crate::stop::Stop;
use crate::texts::{hashes_of, hex_of, shown_of};
use el_base::{Hash32, OutOfMemory};
use el_calls::Refusal;
use el_json::{Answer, Members};
use el_model::Ledger;
use el_side::Caches;
use std::alloc::Global;

/// How many headers a reply of `blockchain.block.headers` may have.
pub const HEADER_LIMIT: u64 = 2016;

// How many headers are returned.
fn header_count(top: Option<u32>, start: u64, count: u64) -> u32
    ensures { result ≡ min count (min HEADER_LIMIT (block_count top - start)) }
{
    let blocks = match top {
        Some(top) => u64::from(top) + 1,
        None => 0,
    };
    let left = if start < blocks { blocks - start } else { 0 };
    let few = if left < HEADER_LIMIT {
        left
    } else {
        HEADER_LIMIT
    };
    if count < few {
        count as u32
    } else {
        few as u32
    }
}

// Whether the checkpoint is above the tip, or below the last of so many headers.
fn is_bad(top: Option<u32>, start: u64, count: u32, cp_height: u64) -> bool
    ensures { result ≡ (nat_le (block_count top) cp_height
        || (nat_lt 0 count && nat_lt (cp_height + 1) (start + count))) }
{
    let blocks = match top {
        Some(top) => u64::from(top) + 1,
        None => 0,
    };
    blocks <= cp_height
        || (0 < count && u128::from(cp_height) + 1 < u128::from(start) + u128::from(count))
}

// The bytes of so many headers from that height on.
fn headers_from<G: Ledger>(
    alloc: Global,
    ledger: &mut G,
    start: u32,
    count: u32,
) -> Result<Vec<u8>, Stop>
    requires live { G.is_live ledger.old }
    requires within { MatchOption (G.height ledger.old) ⊥ (λ top. start + count ≤ top + 1) }
    requires fits { start + count ≤ 2 ^ 32 }
    ensures bytes { (chain : Chain) → G.stands ledger.old chain
        → IfOk result (λ v. v.items ≡ headers_bytes chain start count) }
    ensures never { IfErr result (λ e. (r : shape.Refusal) → e ≡ stop.Refused r → ⊥) }
    ensures rows { G.reads ledger.new ≤ G.reads ledger.old + count }
    ensures quiet { Asked ⟦<G as Ledger>⟧ ledger.old ledger.new }
    ensures counted { IsDiskCounted (λ n. RoseBy (G.faults ledger.old) (G.faults ledger.new) n) result }
{
    let mut bytes = Vec::new(alloc);
    for i in 0..count {
        match ledger.header(start + i) {
            Ok(header) => bytes.extend_from_slice(header.as_slice())?,
            Err(_) => return Err(Stop::Disk),
        }
    }
    Ok(bytes)
}

// The answer with these headers.
fn headers_value(alloc: Global, count: u32, bytes: &[u8]) -> Result<Answer, OutOfMemory>
    ensures value { IfOk result (λ a. a ≡ defined.headers_value count bytes.now) }
    ensures printable { IsPrintableAnswer result }
{
    let mut members = Members::new(alloc);
    members.put(alloc, "count", Answer::number(u64::from(count)))?;
    members.put(alloc, "hex", hex_of(alloc, bytes)?)?;
    members.put(alloc, "max", Answer::number(HEADER_LIMIT))?;
    Ok(members.into_answer())
}

// The same with the partners of the last one's block hash and the root that they lead to.
fn headers_proof(
    alloc: Global,
    count: u32,
    bytes: &[u8],
    partners: &[Hash32],
    root: &Hash32,
) -> Result<Answer, OutOfMemory>
    ensures value { IfOk result (λ a. a ≡ defined.headers_proof partners.now root.now count bytes.now) }
    ensures printable { IsPrintableAnswer result }
{
    let mut members = Members::new(alloc);
    members.put(alloc, "branch", hashes_of(alloc, partners)?)?;
    members.put(alloc, "count", Answer::number(u64::from(count)))?;
    members.put(alloc, "hex", hex_of(alloc, bytes)?)?;
    members.put(alloc, "max", Answer::number(HEADER_LIMIT))?;
    members.put(alloc, "root", shown_of(alloc, root)?)?;
    Ok(members.into_answer())
}

// Headers alone.
fn headers_plain<G: Ledger>(
    alloc: Global,
    ledger: &mut G,
    start: u32,
    count: u32,
) -> Result<Answer, Stop>
    requires live { G.is_live ledger.old }
    requires within { MatchOption (G.height ledger.old) ⊥ (λ top. start + count ≤ top + 1) }
    requires fits { start + count ≤ 2 ^ 32 }
    ensures answer { (chain : Chain) → G.stands ledger.old chain
        → IsAnswer (Ok (defined.headers_value count (headers_bytes chain start count))) result }
    ensures refusals { RefusesOnly (λ r. ⊥) result }
    ensures printable { IsPrintableAnswer result }
    ensures rows { G.reads ledger.new ≤ G.reads ledger.old + count }
    ensures quiet { Asked ⟦<G as Ledger>⟧ ledger.old ledger.new }
    ensures counted { IsDiskCounted (λ n. RoseBy (G.faults ledger.old) (G.faults ledger.new) n) result }
{
    match headers_from(alloc, ledger, start, count) {
        Ok(bytes) => {
            let answer = headers_value(alloc, count, bytes.as_slice())?;
            Ok(answer)
        }
        Err(Stop::Disk) => Err(Stop::Disk),
        Err(_) => Err(Stop::Memory),
    }
}

// Headers, and the proof of the last one.
fn headers_proved<G: Ledger>(
    alloc: Global,
    ledger: &mut G,
    caches: &mut Caches,
    start: u32,
    count: u32,
    cp_height: u32,
) -> Result<Answer, Stop>
    requires live { G.is_live ledger.old }
    requires within { MatchOption (G.height ledger.old) ⊥ (λ top. cp_height ≤ top) }
    requires some { 0 < count }
    requires below { start + count ≤ cp_height + 1 }
    ensures answer { (chain : Chain) → G.stands ledger.old chain → CachesStand caches.old chain chain
        → IsAnswer (Ok (defined.headers_among (hashes_to chain cp_height) (start + count - 1) count
        (headers_bytes chain start count))) result }
    ensures refusals { RefusesOnly (λ r. ⊥) result }
    ensures printable { IsPrintableAnswer result }
    ensures rows { (chain : Chain) → G.stands ledger.old chain → CachesStand caches.old chain chain
        → G.reads ledger.new ≤ G.reads ledger.old + (count + min (2 * GROUP) (cp_height + 1)) }
    ensures caches { CachesStay ⟦<G as Ledger>⟧ ledger.old caches.old caches.new }
    ensures quiet { Asked ⟦<G as Ledger>⟧ ledger.old ledger.new }
    ensures counted { IsDiskCounted (λ n. RoseBy (G.faults ledger.old) (G.faults ledger.new) n) result }
{
    let bytes = match headers_from(alloc, ledger, start, count) {
        Ok(bytes) => bytes,
        Err(Stop::Disk) => return Err(Stop::Disk),
        Err(_) => return Err(Stop::Memory),
    };
    let (partners, root) = match caches.prove(alloc, ledger, start + (count - 1), cp_height) {
        Ok(proof) => proof,
        Err(fault) => return Err(Stop::from(fault)),
    };
    let answer = headers_proof(alloc, count, bytes.as_slice(), partners.as_slice(), &root)?;
    Ok(answer)
}

/// The answer to `blockchain.block.headers` (Electrum Protocol 1.4): the headers from that height on in
/// hex, as many as there are, but no more than `count` and `HEADER_LIMIT`, and where `cp_height` isn't 0
/// the branch that leads from the last one's block hash to the root over the block hashes of heights 0 to
/// `cp_height`.
pub fn block_headers<G: Ledger>(
    alloc: Global,
    ledger: &mut G,
    caches: &mut Caches,
    start_height: u64,
    count: u64,
    cp_height: u64,
) -> Result<Answer, Stop>
    requires live { G.is_live ledger.old }

    ensures answer { (chain : Chain) → G.stands ledger.old chain → CachesStand caches.old chain chain
        → IsAnswer (defined.block_headers chain start_height count cp_height) result }
    ensures printable { IsPrintableAnswer result }
    ensures rows { (chain : Chain) → G.stands ledger.old chain → CachesStand caches.old chain chain
        → G.reads ledger.new ≤ G.reads ledger.old
        + (header_count chain start_height count + proof_rows cp_height) }

    ensures caches { CachesStay ⟦<G as Ledger>⟧ ledger.old caches.old caches.new }
    ensures quiet { Asked ⟦<G as Ledger>⟧ ledger.old ledger.new }

    ensures refusals { RefusesOnly (λ r. r ≡ refusal.BadCheckpoint) result }
    ensures counted { IsDiskCounted (λ n. RoseBy (G.faults ledger.old) (G.faults ledger.new) n) result }
{
    let top = ledger.height();
    let n = header_count(top, start_height, count);
    if cp_height != 0 && is_bad(top, start_height, n, cp_height) {
        return Err(Stop::Refused(Refusal::BadCheckpoint));
    }
    if n == 0 {
        let answer = headers_value(alloc, 0, &[])?;
        return Ok(answer);
    }
    if cp_height == 0 {
        return headers_plain(alloc, ledger, start_height as u32, n);
    }
    headers_proved(
        alloc,
        ledger,
        caches,
        start_height as u32,
        n,
        cp_height as u32,
    )
}

// The answer with the tip's header.
fn tip_value(alloc: Global, height: u32, header: &[u8]) -> Result<Answer, OutOfMemory>
    ensures value { IfOk result (λ a. a ≡ defined.tip_value height header.now) }
    ensures printable { IsPrintableAnswer result }
{
    let mut members = Members::new(alloc);
    members.put(alloc, "height", Answer::number(u64::from(height)))?;
    members.put(alloc, "hex", hex_of(alloc, header)?)?;
    Ok(members.into_answer())
}

/// The answer to `blockchain.headers.subscribe` (Electrum Protocol 1.4): the height and the header of the
/// tip. The client is then told each new one.
pub fn headers_subscribe<G: Ledger>(
    alloc: Global,
    ledger: &mut G,
    is_told: &mut bool,
) -> Result<Answer, Stop>
    requires live { G.is_live ledger.old }

    ensures answer { (chain : Chain) → G.stands ledger.old chain
        → IsReplyWith (told_tip (defined.headers_subscribe chain)) is_told.old is_told.new result }
    ensures printable { IsPrintableAnswer result }

    // Whatever the ledger stands for.
    ensures told { OnOk result (is_told.new ≡ true) }
    ensures unanswered { OnErr result (is_told.new ≡ is_told.old) }
    ensures quiet { Asked ⟦<G as Ledger>⟧ ledger.old ledger.new }

    ensures refusals { RefusesOnly (λ r. r ≡ refusal.NoBlocks) result }
    ensures rows { G.reads ledger.new ≤ G.reads ledger.old + 1 }
    ensures counted { IsDiskCounted (λ n. RoseBy (G.faults ledger.old) (G.faults ledger.new) n) result }
{
    let Some(height) = ledger.height() else {
        return Err(Stop::Refused(Refusal::NoBlocks));
    };
    let header = match ledger.header(height) {
        Ok(header) => header,
        Err(_) => return Err(Stop::Disk),
    };
    let answer = tip_value(alloc, height, header.as_slice())?;
    *is_told = true;
    Ok(answer)
}
