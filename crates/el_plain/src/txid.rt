// The txid of a transaction without a copy of its bytes.
ghost use Rattle.std.specs.Prelude.{◌≡◌, ℕ, List, ◌++◌};
ghost use Rattle.std.specs.Int.{w32, to_le_bytes};
ghost use Rattle.el_base.specs.Compact.{compact};
ghost use Rattle.el_tx.specs.Encoding.{sized, counted, input_encoding, output_encoding, outpoint_encoding};
ghost use Rattle.el_tx.specs.Hashing as spec;

use el_base::Hash32;
use el_tx::{Outpoint, Tx, TxIn, TxOut};
use sha2::{Digest, Sha256};

// A number's CompactSize.
#[tactic(auto, unfolding(el_base::specs::Compact::compact))]
fn feed_compact<D: Digest>(hasher: &mut D, n: u64)
    ensures { (m : List ℕ) → D.holds hasher.old m → D.holds hasher.new (m ++ compact n) }
{
    if n < 253 {
        hasher.update([n as u8]);
    } else if n < 0x1_0000 {
        let [a, b] = (n as u16).to_le_bytes();
        hasher.update([253, a, b]);
    } else if n < 0x1_0000_0000 {
        let [a, b, c, d] = (n as u32).to_le_bytes();
        hasher.update([254, a, b, c, d]);
    } else {
        let [a, b, c, d, e, f, g, h] = n.to_le_bytes();
        hasher.update([255, a, b, c, d, e, f, g, h]);
    }
}

// Bytes after their number.
fn feed_sized<D: Digest>(hasher: &mut D, bytes: &[u8])
    ensures { (m : List ℕ) → D.holds hasher.old m → D.holds hasher.new (m ++ sized bytes.now) }
{
    feed_compact(hasher, bytes.len() as u64);
    hasher.update(bytes);
}

fn feed_outpoint<D: Digest>(hasher: &mut D, o: &Outpoint)
    ensures { (m : List ℕ) → D.holds hasher.old m → D.holds hasher.new (m ++ outpoint_encoding o.now) }
{
    hasher.update(o.txid.0);
    hasher.update(o.index.to_le_bytes());
}

fn feed_input<D: Digest>(hasher: &mut D, input: &TxIn)
    ensures { (m : List ℕ) → D.holds hasher.old m → D.holds hasher.new (m ++ input_encoding input.now) }
{
    feed_outpoint(hasher, &input.from);
    feed_sized(hasher, input.script.as_slice());
    hasher.update(input.sequence.to_le_bytes());
}

fn feed_output<D: Digest>(hasher: &mut D, output: &TxOut)
    ensures { (m : List ℕ) → D.holds hasher.old m → D.holds hasher.new (m ++ output_encoding output.now) }
{
    hasher.update(output.value.to_le_bytes());
    feed_sized(hasher, output.script.as_slice());
}

fn feed_inputs<D: Digest>(hasher: &mut D, inputs: &[TxIn])
    ensures { (m : List ℕ) → D.holds hasher.old m
        → D.holds hasher.new (m ++ counted input_encoding inputs.now) }
{
    feed_compact(hasher, inputs.len() as u64);
    for input in inputs {
        feed_input(hasher, input);
    }
}

fn feed_outputs<D: Digest>(hasher: &mut D, outputs: &[TxOut])
    ensures { (m : List ℕ) → D.holds hasher.old m
        → D.holds hasher.new (m ++ counted output_encoding outputs.now) }
{
    feed_compact(hasher, outputs.len() as u64);
    for output in outputs {
        feed_output(hasher, output);
    }
}

/// The txid, in inner order: the SHA-256 of the SHA-256 of the form without marker, flag and witnesses, which
/// is hashed piece by piece. Takes no memory.
pub fn txid_of(tx: &Tx) -> Hash32
    ensures { result ≡ spec.txid tx.now }
{
    let mut hasher = Sha256::new();
    hasher.update(tx.version.to_le_bytes());
    feed_inputs(&mut hasher, tx.inputs.as_slice());
    feed_outputs(&mut hasher, tx.outputs.as_slice());
    hasher.update(tx.lock.to_le_bytes());
    let once = hasher.finalize();
    Hash32(Sha256::digest(once))
}
