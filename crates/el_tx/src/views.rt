// Inputs and outputs whose scripts and witnesses stay where they stand, in the bytes that were read.
ghost use Rattle.std.specs.Prelude.{◌≡◌, []};

use crate::types::Outpoint;
use el_base::Listed;
use std::alloc::Global;
use std::marker::Model;

/// Bytes that stand within others, which contracts see as the list of their values, each from 0 to 255, first
/// to last.
#[derive(Debug, Drop)]
pub struct BytesView<'a> {
    bytes: &'a [u8],
}

impl<'a> Model for BytesView<'a> {
    ghost use Rattle.std.specs.Prelude.{ℕ, List};

    ghost Value = { List ℕ };

    ghost view = { λ v. v.bytes.now };
}

impl<'a> BytesView<'a> {
    /// All of these bytes.
    pub fn new(bytes: &'a [u8]) -> BytesView<'a>
        ensures { result ≡ bytes.now }
    {
        BytesView { bytes }
    }

    /// The bytes, to read.
    pub fn as_slice(&self) -> &[u8]
        ensures { result.now ≡ self.now }
    {
        self.bytes
    }
}

/// An input of a transaction where it stands, which contracts see as the `TxIn` that it is.
#[derive(Debug, Drop)]
pub struct TxInView<'a> {
    from: Outpoint,
    script: BytesView<'a>,
    sequence: u32,
    witness: Listed<BytesView<'a>>,
}

impl<'a> Model for TxInView<'a> {
    ghost use Rattle.el_tx.specs.declared.types.TxIn.{TxIn};

    ghost Value = { TxIn };

    ghost view = { λ i. record {
      from = i.from;
      script = i.script;
      sequence = i.sequence;
      witness = i.witness;
    } };
}

impl<'a> TxInView<'a> {
    // An input, as yet without its witness.
    pub(crate) fn new(
        alloc: Global,
        from: Outpoint,
        script: BytesView<'a>,
        sequence: u32,
    ) -> TxInView<'a>
        ensures { result ≡ record { from = from; script = script.entry; sequence = sequence; witness = [] } }
    {
        TxInView {
            from,
            script,
            sequence,
            witness: Listed::new(alloc),
        }
    }

    // The same input with this witness.
    pub(crate) fn with_witness(self, witness: Listed<BytesView<'a>>) -> TxInView<'a>
        ensures { result ≡ record self.entry { witness = witness.entry } }
    {
        TxInView {
            from: self.from,
            script: self.script,
            sequence: self.sequence,
            witness,
        }
    }

    /// The output that it spends.
    pub fn from(&self) -> Outpoint
        ensures { result ≡ self.now.from }
    {
        self.from
    }

    /// The unlocking script.
    pub fn script(&self) -> &[u8]
        ensures { result.now ≡ self.now.script }
    {
        self.script.as_slice()
    }

    /// The sequence number.
    pub fn sequence(&self) -> u32
        ensures { result ≡ self.now.sequence }
    {
        self.sequence
    }

    /// The items of its witness.
    pub fn witness(&self) -> &[BytesView<'a>]
        ensures { result.now ≡ self.now.witness }
    {
        self.witness.as_slice()
    }
}

/// An output of a transaction where it stands, which contracts see as the `TxOut` that it is.
#[derive(Debug, Drop)]
pub struct TxOutView<'a> {
    value: u64,
    script: BytesView<'a>,
}

impl<'a> Model for TxOutView<'a> {
    ghost use Rattle.el_tx.specs.declared.types.TxOut.{TxOut};

    ghost Value = { TxOut };

    ghost view = { λ o. record { value = o.value; script = o.script } };
}

impl<'a> TxOutView<'a> {
    pub(crate) fn new(value: u64, script: BytesView<'a>) -> TxOutView<'a>
        ensures { result ≡ record { value = value; script = script.entry } }
    {
        TxOutView { value, script }
    }

    /// The value in satoshi.
    pub fn value(&self) -> u64
        ensures { result ≡ self.now.value }
    {
        self.value
    }

    /// The locking script.
    pub fn script(&self) -> &[u8]
        ensures { result.now ≡ self.now.script }
    {
        self.script.as_slice()
    }
}
