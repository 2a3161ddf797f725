// A transaction where it stands, in the bytes that were read.
ghost use Rattle.std.specs.Prelude.{◌≡◌, length};
ghost use Rattle.el_tx.specs.Encoding.{stripped_encoding};
ghost use Rattle.el_tx.specs.Hashing as spec;
ghost use Rattle.el_tx.specs.Hashing.{full_encoding};

use crate::hashing::NO_OUTPUT;
use crate::view_size::stripped_len;
use crate::views::{TxInView, TxOutView};
use el_base::Listed;
use std::marker::Model;

/// What is read of a transaction where it stands, as yet without its sizes.
#[derive(Debug, Drop)]
pub struct TxParts<'a> {
    version: i32,
    inputs: Listed<TxInView<'a>>,
    outputs: Listed<TxOutView<'a>>,
    lock: u32,
}

impl<'a> Model for TxParts<'a> {
    ghost use Rattle.el_tx.specs.declared.types.Tx.{Tx};

    ghost Value = { Tx };

    ghost view = { λ t. record {
      version = t.version;
      inputs = t.inputs;
      outputs = t.outputs;
      lock = t.lock;
    } };
}

impl<'a> TxParts<'a> {
    pub fn new(
        version: i32,
        inputs: Listed<TxInView<'a>>,
        outputs: Listed<TxOutView<'a>>,
        lock: u32,
    ) -> TxParts<'a>
        ensures { result ≡ record {
          version = version;
          inputs = inputs.entry;
          outputs = outputs.entry;
          lock = lock;
        } }
    {
        TxParts {
            version,
            inputs,
            outputs,
            lock,
        }
    }
}

/// A transaction where it stands, which contracts see as the `Tx` that it is: its scripts and the items of
/// its witnesses are those of the bytes that it was read from.
#[derive(Debug, Drop)]
pub struct TxView<'a> {
    parts: TxParts<'a>,
    full: usize,
    stripped: usize,
}

impl<'a> Model for TxView<'a> {
    ghost use Rattle.std.specs.Prelude.{◌≡◌, length};
    ghost use Rattle.el_tx.specs.Encoding.{stripped_encoding};
    ghost use Rattle.el_tx.specs.Hashing.{full_encoding};
    ghost use Rattle.el_tx.specs.declared.types.Tx.{Tx};

    ghost Value = { Tx };

    ghost view = { λ t. t.parts };

    ghost invariant = { λ t. (t.full ≡ length (full_encoding t.parts))
        × (t.stripped ≡ length (stripped_encoding t.parts)) };
}

impl<'a> TxView<'a> {
    // The transaction of these parts, which so many bytes encode.
    pub(crate) fn new(parts: TxParts<'a>, full: usize) -> TxView<'a>
        requires { full ≡ length (full_encoding parts) }
        ensures { result ≡ parts.entry }
    {
        let stripped = stripped_len(parts.inputs.as_slice(), full);
        TxView {
            parts,
            full,
            stripped,
        }
    }

    /// The version, with its sign.
    pub fn version(&self) -> i32
        ensures { result ≡ self.now.version }
    {
        self.parts.version
    }

    /// The inputs, in order.
    pub fn inputs(&self) -> &[TxInView<'a>]
        ensures { result.now ≡ self.now.inputs }
    {
        self.parts.inputs.as_slice()
    }

    /// The outputs, in order.
    pub fn outputs(&self) -> &[TxOutView<'a>]
        ensures { result.now ≡ self.now.outputs }
    {
        self.parts.outputs.as_slice()
    }

    /// The lock time.
    pub fn lock(&self) -> u32
        ensures { result ≡ self.now.lock }
    {
        self.parts.lock
    }

    /// How many bytes encode it, with marker, flag and witnesses where it has these. Nothing is walked.
    pub fn full_len(&self) -> usize
        ensures { result ≡ length (full_encoding self.now) }
    {
        self.full
    }

    /// How many bytes the form without marker, flag and witnesses has. Nothing is walked.
    pub fn stripped_len(&self) -> usize
        ensures { result ≡ length (stripped_encoding self.now) }
    {
        self.stripped
    }

    /// Whether the transaction is a coinbase, as `is_coinbase` tells it.
    pub fn is_coinbase(&self) -> bool
        ensures { result ≡ spec.is_coinbase self.now }
    {
        match self.parts.inputs.as_slice() {
            [only] => only.from() == NO_OUTPUT,
            _ => false,
        }
    }
}
