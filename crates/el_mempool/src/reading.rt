// What a transaction is, by its bytes alone.
ghost use Rattle.std.specs.Prelude.{◌≡◌, ◌≢◌, ◌⊎◌, ◌↔◌, ◌==◌, length, if◌then◌else◌, Ok, Err, IfOk, IfErr};
ghost use Rattle.el_tx.specs.Encoding.{Encodes};
ghost use Rattle.el_tx.specs.declared.types.Tx as shape;
ghost use Rattle.el_mempool.specs.Refusals.{has_coinbase_form};

use crate::PoolFault;
use el_base::Hash32;
use el_tx::{Outpoint, Tx, TxFault, decode_tx};
use std::alloc::Global;

// The outpoint of a coinbase's input; it names no output.
const NO_OUTPUT: Outpoint = Outpoint {
    txid: Hash32([0; 32]),
    index: u32::MAX,
};

// What it means for the set that no transaction was read.
fn refusal_of(fault: TxFault) -> PoolFault
    ensures is { (result ≡ PoolFault.Memory) ⊎ ((result ≡ PoolFault.Bad) × (fault ≢ TxFault.Memory)) }
    ensures memory { result ≡ PoolFault.Memory ↔ fault ≡ TxFault.Memory }
    ensures other { result ≢ PoolFault.DiskFailed }
{
    match fault {
        TxFault::Memory => PoolFault::Memory,
        _ => PoolFault::Bad,
    }
}

// The transaction that was read of so many of the bytes, where these are all. Takes no memory.
fn whole(tx: Tx, size: usize, bytes: &[u8]) -> Result<Tx, PoolFault>
    ensures { result ≡ (if size == length bytes.now then Ok tx else Err PoolFault.Bad) }
{
    if size == bytes.len() {
        Ok(tx)
    } else {
        Err(PoolFault::Bad)
    }
}

/// The transaction that all the bytes encode.
///
/// # Errors
///
/// `Bad` where they encode none, `Memory` where memory runs out.
pub fn whole_tx(alloc: Global, bytes: &[u8]) -> Result<Tx, PoolFault>
    ensures read { IfOk result (λ t. Encodes bytes.now t) }
    ensures refused { IfErr result (λ e. (e ≡ PoolFault.Memory)
        ⊎ ((e ≡ PoolFault.Bad) × ((t : shape.Tx) → Encodes bytes.now t → ⊥))) }
    ensures other { IfErr result (λ e. e ≢ PoolFault.DiskFailed) }
{
    match decode_tx(alloc, bytes) {
        Ok((tx, size)) => whole(tx, size, bytes),
        Err(fault) => Err(refusal_of(fault)),
    }
}

/// Whether an input names no output, as a coinbase's does. Takes no memory.
pub fn is_coinbase_form(tx: &Tx) -> bool
    ensures { result ≡ has_coinbase_form tx.now }
{
    for input in tx.inputs.as_slice() {
        if input.from == NO_OUTPUT {
            return true;
        }
    }
    false
}
