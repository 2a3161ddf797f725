// Transactions of the block files, by their places.
ghost use Rattle.std.specs.Prelude.{◌≡◌, ◌≢◌, ◌≤◌, ◌+◌, ℕ, List, Some, length, IfOk, IfErr, IfSome, OnOk};
ghost use Rattle.el_outside.specs.Counts.{OnlyReads};
ghost use Rattle.el_outside.specs.Seen.{seen};
ghost use Rattle.el_chain.specs.Reading.{IfChanged};
ghost use Rattle.el_files.specs.Reading.{IsTxOf, IsOtherTx, text_at};
ghost use Rattle.el_base.specs.declared.hash.Hash32 as shape;
ghost use Rattle.el_chain.specs.declared.read_fault.ReadFault.TheVariants as fault;

use el_base::{Hash32, OutOfMemory};
use el_chain::{PREFIX_SIZE, ReadFault, Spot, read_part};
use el_outside::Archive;
use el_tx::{TxFault, decode_tx, txid};
use std::alloc::Global;

// The txid of the transaction that all these bytes encode, if they encode one.
fn txid_in(alloc: Global, bytes: &[u8]) -> Result<Option<Hash32>, OutOfMemory>
    ensures encoded { IfOk result (λ found. IfSome found (λ id. IsTxOf (length bytes.now) id bytes.now)) }
    ensures only { IfOk result
        (λ found. (id : shape.Hash32) → IsTxOf (length bytes.now) id bytes.now → found ≡ Some id) }
{
    match decode_tx(alloc, bytes) {
        Ok((tx, size)) => {
            if size == bytes.len() {
                let id = txid(alloc, &tx)?;
                Ok(Some(id))
            } else {
                Ok(None)
            }
        }
        Err(fault) => match fault {
            TxFault::Memory => Err(OutOfMemory),
            _ => Ok(None),
        },
    }
}

// Compares the bytes, of which there are to be `len`, with the transaction that is wanted.
fn compare_tx(alloc: Global, wanted: Hash32, len: u32, bytes: &[u8]) -> Result<(), ReadFault>
    ensures same { OnOk result (IsTxOf len wanted bytes.now) }
    ensures other { IfErr result (λ e. e ≢ fault.ArchiveFailed) }
    ensures wanted { IfChanged result (λ id found. id ≡ wanted) }
    ensures changed { IfChanged result (λ id found. IsOtherTx len wanted bytes.now found) }
{
    if bytes.len() != len as usize {
        return Err(ReadFault::Changed {
            wanted,
            found: None,
        });
    }
    let found = txid_in(alloc, bytes)?;
    match found {
        Some(id) => {
            if id == wanted {
                Ok(())
            } else {
                Err(ReadFault::Changed { wanted, found })
            }
        }
        None => Err(ReadFault::Changed { wanted, found }),
    }
}

/// The bytes of the transaction at the spot, as many as the spot says. They encode one transaction
/// (Bitcoin's serialization, in either form of BIP 144) with this txid, in inner order. Any spot can be
/// asked for.
///
/// # Errors
///
/// `ReadFault::Changed` where the file ends before the last of these bytes, or where they don't encode a
/// transaction with this txid and nothing after it: `wanted` is the txid, `found` that of the transaction
/// that they encode, or None where they encode none. `ReadFault::ArchiveFailed` where a call of the block
/// files failed, and `ReadFault::Memory` where memory runs out.
pub fn read_tx<A: Archive>(
    alloc: Global,
    archive: &mut A,
    spot: &Spot,
    wanted: Hash32,
) -> Result<Vec<u8>, ReadFault>
    ensures tx { IfOk result (λ v. IsTxOf spot.now.len wanted v.items) }
    // These are the bytes that stand there.
    ensures stands { A.tells → IfOk result
        (λ v. v.items ≡ text_at spot.now (seen ⟦<A as Archive>⟧ archive.new spot.now.place.file)) }
    ensures wanted { IfChanged result (λ id found. id ≡ wanted) }
    // It has changed where the bytes that stand there are not those of such a transaction.
    ensures changed { A.tells → IfChanged result (λ id found. IsOtherTx spot.now.len wanted
        (text_at spot.now (seen ⟦<A as Archive>⟧ archive.new spot.now.place.file)) found) }
    ensures calls { A.calls archive.new ≤ A.calls archive.old + 1 }
    ensures only_reads { OnlyReads A.tells (A.bytes archive.old) (A.bytes archive.new)
        (A.faults archive.old) (A.faults archive.new) ReadFault.ArchiveFailed result }
{
    let skipped = PREFIX_SIZE as u64 + spot.start as u64;
    let text = read_part(alloc, archive, spot.place, skipped, spot.len)?;
    compare_tx(alloc, wanted, spot.len, text.as_slice())?;
    Ok(text)
}
