// The rows of a table that a store takes.
ghost use Rattle.std.specs.Prelude.{◌≡◌, ◌<◌, ◌-◌, ◌++◌, length, slice_get, Some, IfOk};
ghost use Rattle.std.specs.List.{range_with_len};

use el_base::OutOfMemory;
use std::marker::Model;

/// The numbers of the rows of a table that a store takes, rising: those of changed rows below a base, one by
/// one, and then all from the base to the table's count, which aren't kept. Contracts see them as a list.
#[derive(Drop)]
pub(crate) struct ShownRows {
    below: Vec<u64>,
    base: u64,
    added: usize,
    len: usize,
}

impl Model for ShownRows {
    ghost use Rattle.std.specs.Prelude.{◌≡◌, ◌<◌, ◌+◌, ◌^◌, ◌++◌, ℕ, List, length};
    ghost use Rattle.std.specs.List.{range_with_len};

    ghost Value = { List ℕ };

    ghost view = { λ s. s.below.items ++ range_with_len s.base s.added };

    ghost invariant = { λ s. (s.len ≡ length s.below.items + s.added) × (s.base + s.added < 2 ^ 64) };
}

impl ShownRows {
    /// These numbers, and all from the base to the count.
    pub(crate) fn new(below: Vec<u64>, base: u64, count: u64) -> Result<ShownRows, OutOfMemory>
        ensures { IfOk result (λ s. s ≡ below.items ++ range_with_len base (count - base)) }
    {
        let added = count.saturating_sub(base) as usize;
        let Some(len) = below.len().checked_add(added) else {
            return Err(OutOfMemory);
        };
        Ok(ShownRows {
            below,
            base,
            added,
            len,
        })
    }

    /// How many there are.
    pub(crate) fn len(&self) -> usize
        ensures { result ≡ length self.now }
    {
        self.len
    }

    /// One of them.
    pub(crate) fn row(&self, i: usize) -> u64
        requires { i < length self.now }
        ensures { slice_get self.now i ≡ Some result }
    {
        if i < self.below.len() {
            return self.below[i];
        }
        self.base + (i - self.below.len()) as u64
    }
}
