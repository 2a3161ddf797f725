// The hash and the size of a transaction, and whether it is a coinbase.
ghost use Rattle.std.specs.Prelude.{◌≡◌, ℕ, ◌<◌, ◌^◌, List, length, IfOk};
ghost use Rattle.el_tx.specs.Hashing as spec;
ghost use Rattle.el_tx.specs.Encoding.{Encodes, HasEncoding};

use crate::encode::stripped_form;
use crate::size::sizes_of;
use crate::types::{Outpoint, Tx};
use el_base::{Hash32, OutOfMemory, sha256d};
use std::alloc::Global;

// The outpoint of a coinbase's input; it names no output.
pub(crate) const NO_OUTPUT: Outpoint = Outpoint {
    txid: Hash32([0; 32]),
    index: u32::MAX,
};

/// The txid, in inner order: the SHA-256 of the SHA-256 of the form without marker, flag and witnesses. Fails
/// only where memory runs out.
pub fn txid(alloc: Global, tx: &Tx) -> Result<Hash32, OutOfMemory>
    requires { HasEncoding tx.now }
    ensures { IfOk result (λ h. h ≡ spec.txid tx.now) }
{
    let bytes = stripped_form(alloc, tx)?;
    Ok(sha256d(bytes.as_slice()))
}

/// The weight in weight units (BIP 141): three times the size without marker, flag and witnesses, plus the
/// full size. Takes no memory.
pub fn weight(tx: &Tx) -> u64
    requires { (bytes : List ℕ) × Encodes bytes tx.now × (length bytes < 2 ^ 61) }
    ensures { result ≡ spec.weight tx.now }
{
    let sizes = sizes_of(tx);
    (3 * sizes.stripped + sizes.full) as u64
}

/// The size in virtual bytes (BIP 141): a quarter of the weight, rounded up. Takes no memory.
pub fn vsize(tx: &Tx) -> u64
    requires { (bytes : List ℕ) × Encodes bytes tx.now × (length bytes < 2 ^ 61) }
    ensures { result ≡ spec.vsize tx.now }
{
    weight(tx).div_ceil(4)
}

/// Whether the transaction is a coinbase: its one input names the outpoint of 32 zero bytes and the index
/// 2^32 - 1.
pub fn is_coinbase(tx: &Tx) -> bool
    ensures is { result ≡ spec.is_coinbase tx.now }
{
    match tx.inputs.as_slice() {
        [only] => only.from == NO_OUTPUT,
        _ => false,
    }
}
