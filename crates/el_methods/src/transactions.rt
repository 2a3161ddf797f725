// Transactions of the chain and of the unconfirmed set.
ghost use Rattle.std.specs.Prelude.{◌≡◌, ◌≢◌, ◌+◌, ◌≤◌, ℕ, List, [], Some, None, true, false, IfOk, IfErr, IfSome, IfNone, Ok, Err};
ghost use Rattle.el_outside.specs.Counts.{RoseBy};
ghost use Rattle.el_outside.specs.Files.{AllGrow};
ghost use Rattle.el_outside.specs.Seen.{seen};
ghost use Rattle.el_chain.specs.Chains.{Chain};
ghost use Rattle.el_chain.specs.declared.node.Spot as place;
ghost use Rattle.el_files.specs.Reading.{text_at, IsOtherTx};
ghost use Rattle.el_model.specs.LedgerCalls.{Asked};
ghost use Rattle.el_model.specs.Queries.{find_tx, txs_in_bucket};
ghost use Rattle.el_methods.specs.Results as defined;
ghost use Rattle.el_methods.specs.Results.{hex, is_in_files};
ghost use Rattle.el_methods.specs.Replied.{IsTextOf, IsOwnAnswer};
ghost use Rattle.el_mempool.specs.Standing.{KeptStandFor};
ghost use Rattle.el_tx.specs.declared.types.Tx as tx_shape;
ghost use Rattle.el_methods.specs.Archives.{HasTransaction, IsDifferentTx};
ghost use Rattle.el_methods.specs.Outcomes.{IsAnswer, IsCounted, IsDiskCounted, RefusesOnly, TellsNoFiles, IsPrintableAnswer};
ghost use Rattle.el_methods.specs.declared.stop.Stop.TheVariants as stop;
ghost use Rattle.el_calls.specs.declared.refusal.Refusal as shape;
ghost use Rattle.el_calls.specs.declared.refusal.Refusal.TheVariants as refusal;

use crate::stop::Stop;
use crate::texts::hex_of;
use el_base::Hash32;
use el_calls::Refusal;
use el_chain::{ReadFault, Spot};
use el_files::read_tx;
use el_json::Answer;
use el_mempool::KeptTx;
use el_model::Ledger;
use el_outside::Archive;
use el_pool::Pool;
use std::alloc::Global;

// Where the newest transaction with that txid stands.
fn spot_of<G: Ledger>(ledger: &mut G, id: &Hash32) -> Result<Spot, Stop>
    requires live { G.is_live ledger.old }
    ensures found { (chain : Chain) → G.stands ledger.old chain
        → IfOk result (λ spot. find_tx chain id.now ≡ Some spot) }
    ensures none { (chain : Chain) → G.stands ledger.old chain
        → IfErr result (λ e. (r : shape.Refusal) → e ≡ stop.Refused r
        → (r ≡ refusal.NoSuchTransaction) × (find_tx chain id.now ≡ None)) }
    ensures refusals { RefusesOnly (λ r. r ≡ refusal.NoSuchTransaction) result }
    ensures rows { (chain : Chain) → G.stands ledger.old chain
        → G.reads ledger.new ≤ G.reads ledger.old
        + (2 + txs_in_bucket chain (G.buckets ledger.old) id.now.0) }
    ensures quiet { Asked ⟦<G as Ledger>⟧ ledger.old ledger.new }
    ensures counted { IsDiskCounted (λ n. RoseBy (G.faults ledger.old) (G.faults ledger.new) n) result }
{
    match ledger.find_tx(id) {
        Ok(Some(spot)) => Ok(spot),
        Ok(None) => Err(Stop::Refused(Refusal::NoSuchTransaction)),
        Err(_) => Err(Stop::Disk),
    }
}

// The bytes of the transaction at the spot, in hex.
fn text_of<A: Archive>(
    alloc: Global,
    archive: &mut A,
    spot: &Spot,
    id: Hash32,
) -> Result<Answer, Stop>
    ensures text { A.tells → IfOk result
        (λ a. a ≡ hex (text_at spot.now (seen ⟦<A as Archive>⟧ archive.new spot.now.place.file))) }
    // Of that transaction, whatever the block files hold.
    ensures own { IfOk result (λ a. IsTextOf id a) }
    ensures never { IfErr result (λ e. (r : shape.Refusal) → e ≡ stop.Refused r → ⊥) }
    ensures changed { A.tells → IfErr result (λ e. e ≡ stop.Changed
        → IsDifferentTx spot.now id (seen ⟦<A as Archive>⟧ archive.new spot.now.place.file)) }
    ensures refusals { RefusesOnly (λ r. ⊥) result }
    ensures printable { IsPrintableAnswer result }
    ensures grows { A.tells → AllGrow (A.bytes archive.old) (A.bytes archive.new) }
    ensures counted { IsCounted (λ n. n ≡ 0)
        (λ n. RoseBy (A.faults archive.old) (A.faults archive.new) n) result }
{
    match read_tx(alloc, archive, spot, id) {
        Ok(text) => {
            let answer = hex_of(alloc, text.as_slice())?;
            Ok(answer)
        }
        Err(ReadFault::ArchiveFailed) => Err(Stop::Archive),
        Err(ReadFault::Changed { .. }) => Err(Stop::Changed),
        Err(ReadFault::Memory) => Err(Stop::Memory),
    }
}

// The answer from the chain's transactions.
fn confirmed_get<G: Ledger, A: Archive>(
    alloc: Global,
    ledger: &mut G,
    archive: &mut A,
    id: Hash32,
) -> Result<Answer, Stop>
    requires live { G.is_live ledger.old }
    ensures answer { (chain : Chain) → G.stands ledger.old chain → A.tells
        → HasTransaction (A.bytes archive.new) chain id
        → IsAnswer (defined.transaction_get chain [] id false) result }
    ensures own { (chain : Chain) → G.stands ledger.old chain → IsOwnAnswer chain id result }
    ensures unchanged { (chain : Chain) → G.stands ledger.old chain → A.tells
        → HasTransaction (A.bytes archive.new) chain id → result ≢ Err stop.Changed }
    ensures changed { (chain : Chain) → G.stands ledger.old chain → A.tells
        → IfErr result (λ e. e ≡ stop.Changed → (spot : place.Spot) × (find_tx chain id ≡ Some spot)
        × IsDifferentTx spot id (seen ⟦<A as Archive>⟧ archive.new spot.place.file)) }
    ensures refusals { RefusesOnly (λ r. r ≡ refusal.NoSuchTransaction) result }
    ensures printable { IsPrintableAnswer result }
    ensures rows { (chain : Chain) → G.stands ledger.old chain
        → G.reads ledger.new ≤ G.reads ledger.old + (2 + txs_in_bucket chain (G.buckets ledger.old) id.0) }
    ensures quiet { Asked ⟦<G as Ledger>⟧ ledger.old ledger.new }
    ensures grows { A.tells → AllGrow (A.bytes archive.old) (A.bytes archive.new) }
    ensures counted { IsCounted (λ n. RoseBy (G.faults ledger.old) (G.faults ledger.new) n)
        (λ n. RoseBy (A.faults archive.old) (A.faults archive.new) n) result }
{
    let spot = match spot_of(ledger, &id) {
        Ok(spot) => spot,
        Err(stop) => return Err(stop),
    };
    text_of(alloc, archive, &spot, id)
}

// The bytes of a kept transaction, in hex.
fn kept_text(alloc: Global, found: &KeptTx) -> Result<Answer, Stop>
    ensures text { IfOk result (λ a. a ≡ hex found.now.bytes) }
    ensures stops { IfErr result (λ e. e ≡ stop.Memory) }
    ensures refusals { RefusesOnly (λ r. ⊥) result }
    ensures printable { IsPrintableAnswer result }
    ensures counted { IsCounted (λ n. n ≡ 0) (λ n. n ≡ 0) result }
{
    let answer = hex_of(alloc, found.bytes.as_slice())?;
    Ok(answer)
}

/// The answer to `blockchain.transaction.get` (Electrum Protocol 1.4): the bytes of the kept transaction with
/// that txid, or else of the chain's newest one, in hex. Verbose ones are not served.
pub fn transaction_get<G: Ledger, A: Archive>(
    alloc: Global,
    ledger: &mut G,
    pool: &Pool,
    archive: &mut A,
    id: Hash32,
    verbose: bool,
) -> Result<Answer, Stop>
    requires live { G.is_live ledger.old }

    // Where the block files have the chain's transaction at its place.
    ensures answer { (chain : Chain) (kept : List tx_shape.Tx) → G.stands ledger.old chain
        → KeptStandFor pool.now.entries chain kept → A.tells → HasTransaction (A.bytes archive.new) chain id
        → IsAnswer (defined.transaction_get chain kept id verbose) result }
    // Whatever they are, where it isn't read from them.
    ensures of_set { (chain : Chain) (kept : List tx_shape.Tx) → KeptStandFor pool.now.entries chain kept
        → is_in_files kept id verbose ≡ false
        → IsAnswer (defined.transaction_get chain kept id verbose) result }
    ensures untold { (chain : Chain) (kept : List tx_shape.Tx) → KeptStandFor pool.now.entries chain kept
        → is_in_files kept id verbose ≡ false → TellsNoFiles result }
    // Whatever the block files hold, where it is read from them.
    ensures own { (chain : Chain) (kept : List tx_shape.Tx) → G.stands ledger.old chain
        → KeptStandFor pool.now.entries chain kept → is_in_files kept id verbose ≡ true
        → IsOwnAnswer chain id result }
    ensures printable { IsPrintableAnswer result }
    ensures rows { (chain : Chain) → G.stands ledger.old chain
        → G.reads ledger.new ≤ G.reads ledger.old + (2 + txs_in_bucket chain (G.buckets ledger.old) id.0) }

    ensures quiet { Asked ⟦<G as Ledger>⟧ ledger.old ledger.new }
    ensures grows { A.tells → AllGrow (A.bytes archive.old) (A.bytes archive.new) }

    ensures unchanged { (chain : Chain) → G.stands ledger.old chain → A.tells
        → HasTransaction (A.bytes archive.new) chain id → result ≢ Err stop.Changed }
    // Only where the bytes that stand at the transaction's place are not its own.
    ensures changed { (chain : Chain) → G.stands ledger.old chain → A.tells
        → IfErr result (λ e. e ≡ stop.Changed → (spot : place.Spot) × (find_tx chain id ≡ Some spot)
        × IsDifferentTx spot id (seen ⟦<A as Archive>⟧ archive.new spot.place.file)) }
    ensures refusals { verbose ≡ false → RefusesOnly (λ r. r ≡ refusal.NoSuchTransaction) result }
    ensures verbose { verbose ≡ true → result ≡ Err (stop.Refused refusal.VerboseNotServed) }
    ensures counted { IsCounted (λ n. RoseBy (G.faults ledger.old) (G.faults ledger.new) n)
        (λ n. RoseBy (A.faults archive.old) (A.faults archive.new) n) result }
{
    if verbose {
        return Err(Stop::Refused(Refusal::VerboseNotServed));
    }
    if let Some(found) = pool.find(&id) {
        return kept_text(alloc, found);
    }
    confirmed_get(alloc, ledger, archive, id)
}
