// The node's block files.
ghost use Rattle.std.specs.Prelude.{◌≡◌, ℕ, ◌-◌, ◌+◌, ◌<◌, ◌≤◌, List, [], ◌++◌, length, take, drop, min, IfOk};
ghost use Rattle.el_outside.specs.Counts.{HasCause};
ghost use Rattle.el_outside.specs.Files.{AllGrow};

/// The greatest number of block files.
pub const MOST_FILES: u32 = 100_000;

/// Each file of a device, a block file or one of the index, has fewer bytes than this.
pub const SIZE_LIMIT: u64 = 1 << 62;

/// A call of the block files failed.
#[derive(Clone, Copy, Debug, PartialEq, Eq, thiserror::Error)]
#[error("block files failed")]
pub struct ArchiveFailed;

/// Where a block stands in the block files.
#[derive(Clone, Copy, Debug, PartialEq, Eq)]
pub struct Place {
    /// The file's number, from 0 on.
    pub file: u32,
    /// The place of the record's first magic byte.
    pub offset: u64,
    /// The block's size in bytes.
    pub len: u32,
}

/// The node's block files. Within one life they keep the bytes that the node has written, and may gain more
/// after them. What stands after these is padding, of which nothing is kept: a node may make room ahead, as
/// zeros, write over it later, and cut off what it doesn't need.
pub trait Archive {
    /// Whether the archive tells what its files hold. One in memory does, a real one doesn't.
    ghost tells: { Type 0 };

    /// The bytes that the node has written of each file, by its number; a file that isn't there has none.
    ghost bytes: { Self → ℕ → List ℕ };

    /// The bytes that stand after those in each file: zeros that the node has made ahead, or, where it masks
    /// its files, the bytes of the mask.
    ghost padding: { Self → ℕ → List ℕ };

    /// The number of the highest file plus 1, or 0.
    ghost file_count: { Self → ℕ };

    /// No file after the highest one has bytes or padding.
    ghost none_after: { (archive : Self) (file : ℕ) → tells → file_count archive ≤ file
        → bytes archive file ++ padding archive file ≡ [] };

    /// A read of the file from the place gave these bytes. An archive may take it for anything; code over any
    /// archive knows it from `read` alone.
    ghost gave: { (file at : ℕ) → List ℕ → Type 0 };

    /// How many calls were made, with no bound. It stands in contracts alone.
    ghost calls: { Self → ℕ };

    /// How often a call has failed; it stands still at 2^64 - 1.
    ghost faults: { Self → ℕ };

    /// The number of the highest file plus 1, or 0.
    fn files(&mut self) -> Result<u32, ArchiveFailed>
        ensures few { IfOk result (λ n. n ≤ MOST_FILES) }
        ensures number { tells → IfOk result (λ n. n ≡ file_count self.new) }

        ensures keeps { tells → AllGrow (bytes self.old) (bytes self.new) }

        ensures called { calls self.new ≡ calls self.old + 1 }
        ensures cause { HasCause (faults self.old) (faults self.new) result };

    /// The size of a file in bytes, with its padding.
    fn size(&mut self, file: u32) -> Result<u64, ArchiveFailed>
        ensures small { IfOk result (λ n. n < SIZE_LIMIT) }
        ensures size { tells → IfOk result (λ n. n ≡ length (bytes self.new file ++ padding self.new file)) }

        ensures keeps { tells → AllGrow (bytes self.old) (bytes self.new) }

        ensures called { calls self.new ≡ calls self.old + 1 }
        ensures cause { HasCause (faults self.old) (faults self.new) result };

    /// Fills the front of the buffer with what the file has from the place on, its padding too, and answers
    /// how many bytes those are.
    fn read(&mut self, file: u32, at: u64, buf: &mut [u8]) -> Result<usize, ArchiveFailed>
        ensures within { IfOk result (λ n. n ≤ length buf.old) }
        ensures given { IfOk result (λ n. gave file at (take n buf.new)) }
        ensures count { tells → IfOk result (λ n. n ≡ min (length buf.old)
            (length (bytes self.new file ++ padding self.new file) - at)) }
        ensures filled { tells → IfOk result (λ n. take n buf.new
            ≡ take n (drop at (bytes self.new file ++ padding self.new file))) }

        ensures keeps { tells → AllGrow (bytes self.old) (bytes self.new) }

        ensures called { calls self.new ≡ calls self.old + 1 }
        ensures cause { HasCause (faults self.old) (faults self.new) result };
}
