// Script hashes that are touched.
ghost use Rattle.std.specs.Prelude.{◌≡◌, [], ◌∷◌, ◌++◌, OnOk, OnErr, if◌then◌else◌};
ghost use Rattle.std.specs.List.{list_any};
ghost use Rattle.el_block.specs.Blocks.{AllDiffer};
ghost use Rattle.el_chain.specs.Headers.{same_hash};

use el_base::{Hash32, OutOfMemory};
use indexmap::IndexSet;
use std::alloc::Global;
use std::marker::Model;

/// Script hashes, each once, in the order in which they were added. Contracts see them as a list.
#[derive(Debug, Drop)]
pub struct Touched {
    scripts: IndexSet<Hash32>,
}

impl Model for Touched {
    ghost use Rattle.std.specs.Prelude.{List};
    ghost use Rattle.el_base.specs.declared.hash.Hash32 as shape;

    ghost Value = { List shape.Hash32 };

    ghost view = { λ t. t.scripts.keys };
}

impl Touched {
    /// No script hashes. Takes no memory.
    pub fn new(alloc: Global) -> Touched
        ensures { result ≡ [] }
    {
        Touched {
            scripts: IndexSet::new(alloc),
        }
    }

    /// Adds a script hash, in inner order, unless it is there. Fails only where memory runs out.
    pub fn add(&mut self, script_hash: Hash32) -> Result<(), OutOfMemory>
        ensures ok { OnOk result (self.new ≡ (if list_any (same_hash script_hash) self.old then self.old
            else self.old ++ script_hash ∷ [])) }
        ensures err { OnErr result (self.new ≡ self.old) }
    {
        self.scripts.insert(script_hash)?;
        Ok(())
    }

    /// Whether the script hash, in inner order, is there. Takes no memory.
    pub fn has(&self, script_hash: &Hash32) -> bool
        ensures { result ≡ list_any (same_hash script_hash.now) self.now }
    {
        self.scripts.contains(script_hash)
    }

    /// The script hashes, each once. Takes no memory.
    pub fn list(&self) -> &[Hash32]
        ensures same { result.now ≡ self.now }
        ensures once { AllDiffer self.now }
    {
        self.scripts.as_slice()
    }
}
