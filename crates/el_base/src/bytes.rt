// Bytes.
ghost use Rattle.std.specs.Prelude.{◌≡◌, ◌≤◌, ◌+◌, ℕ, List, [], ◌∷◌, ◌++◌, length, vec_capacity, OnOk, OnErr, IfOk, ◌==◌};
ghost use Rattle.std.proofs.Common.{rules};
ghost use Rattle.std.specs.Cmp.Rules.{comparing};
ghost use Rattle.std.specs.Str.{bytes_eq};

use crate::memory::OutOfMemory;
use std::alloc::Global;
use std::marker::Model;

/// Bytes, which contracts see as the list of their values, each from 0 to 255, first to last. It is a `Vec`
/// underneath. Two are equal if their lists are.
#[derive(Debug, Drop)]
pub struct Bytes {
    list: Vec<u8>,
}

impl Model for Bytes {
    ghost Value = { List ℕ };

    ghost view = { λ b. b.list.items };
}

impl Bytes {
    /// No bytes. Takes no memory.
    pub fn new(alloc: Global) -> Bytes
        ensures { result ≡ [] }
    {
        Bytes {
            list: Vec::new(alloc),
        }
    }

    /// The bytes of a `Vec`. Takes no memory.
    pub fn from_vec(list: Vec<u8>) -> Bytes
        ensures { result ≡ list.items }
    {
        Bytes { list }
    }

    /// A copy of the bytes. Fails only where memory runs out.
    pub fn from_slice(alloc: Global, bytes: &[u8]) -> Result<Bytes, OutOfMemory>
        ensures { IfOk result (λ b. b ≡ bytes.now) }
    {
        let list = Vec::from_slice(alloc, bytes)?;
        Ok(Bytes { list })
    }

    /// The `Vec` underneath. Takes no memory.
    pub fn into_vec(self) -> Vec<u8>
        ensures { result.items ≡ self }
    {
        self.list
    }

    /// How many bytes there are.
    pub fn len(&self) -> usize
        ensures { result ≡ length self.now }
    {
        self.list.len()
    }

    /// Whether there are none.
    pub fn is_empty(&self) -> bool
        ensures { result ≡ (length self.now == 0) }
    {
        self.list.is_empty()
    }

    /// The bytes, to read.
    pub fn as_slice(&self) -> &[u8]
        ensures { result.now ≡ self.now }
    {
        self.list.as_slice()
    }

    /// Adds bytes at the end, in their order. Fails only where memory runs out.
    pub fn extend(&mut self, bytes: &[u8]) -> Result<(), OutOfMemory>
        ensures ok { OnOk result (self.new ≡ self.old ++ bytes.now) }
        ensures err { OnErr result (self.new ≡ self.old) }
    {
        self.list.extend_from_slice(bytes)?;
        Ok(())
    }
}

impl PartialEq for Bytes {
    ghost eq = { bytes_eq };

    ghost laws = { Prim.search (comparing, rules) };

    fn eq(&self, other: &Bytes) -> bool {
        self.list == other.list
    }
}

impl Eq for Bytes {
    ghost laws = { Prim.search (comparing, rules) };
}

/// Adds bytes, for which there is room, at the end of a `Vec`. Takes no memory.
pub fn extend_reserved(list: &mut Vec<u8>, bytes: &[u8])
    requires { length list.old.items + length bytes.now ≤ vec_capacity list.old }
    ensures items { list.new.items ≡ list.old.items ++ bytes.now }
    ensures room { vec_capacity list.old ≤ vec_capacity list.new }
{
    match list.extend_from_slice(bytes) {
        Ok(()) => {}
        Err(_) => unreachable!(),
    }
}
