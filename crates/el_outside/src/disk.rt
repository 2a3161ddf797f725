// The index's device.
ghost use Rattle.std.specs.Prelude.{◌≡◌, ◌≢◌, ◌<◌, ◌≤◌, ◌+◌, ◌-◌, List, ℕ, length, take, drop, min, IfOk, OnOk, IsErr};
ghost use Rattle.el_outside.specs.Counts.{HasCause};
ghost use Rattle.el_outside.specs.Disk.{Image, over, Torn, Cut, OnFile, Follows, NothingNew, OnDisk};
ghost use Rattle.el_outside.specs.Moments.{LeftNow, Passes};

use crate::archive::SIZE_LIMIT;

/// A call on the device that keeps the index failed.
#[derive(Clone, Copy, Debug, PartialEq, Eq, thiserror::Error)]
#[error("index device failed")]
pub struct DiskFailed;

/// Files by number, from 0 on, which may lose at any moment what was not synced. A file that was never
/// written has size 0. A disk need not be fresh: it may read as what a crash left, with writes of an earlier
/// life still unsynced, and then a crash may leave other images too. After a write, a cut or a sync that
/// failed, a read of that file gives one of its images.
pub trait Disk {
    ghost use Rattle.std.specs.Prelude.{◌≡◌, ◌<◌, ◌≤◌, ℕ, length};
    ghost use Rattle.el_outside.specs.Disk.{Image};
    ghost use Rattle.el_outside.specs.Moments.{LeftNow};
    ghost use Rattle.el_outside.specs.declared.archive.TheConstants.{SIZE_LIMIT};

    /// Whether the disk tells what its files hold, and what a crash may leave of them. One in memory does, a
    /// real one doesn't.
    ghost tells: { Type 0 };

    /// The bytes of each file, as a read gives them.
    ghost seen: { Self → Image };

    /// The moment, by a clock that each call moves on.
    ghost moment: { Self → ℕ };

    /// What a crash at some moment from that one on might have left, during a call or between two.
    ghost left_since: { Self → ℕ → Image → Type 0 };

    /// How many calls were made, with no bound. It stands in contracts alone.
    ghost calls: { Self → ℕ };

    /// How often a call has failed; it stands still at 2^64 - 1.
    ghost faults: { Self → ℕ };

    /// The size of a file in bytes.
    fn size(&mut self, file: u32) -> Result<u64, DiskFailed>
        ensures size { tells → IfOk result (λ n. n ≡ length (seen self.old file)) }
        ensures small { IfOk result (λ n. n < SIZE_LIMIT) }

        ensures seen { tells → seen self.new ≡ seen self.old }
        ensures crash { tells → NothingNew
            (LeftNow moment left_since self.old) (LeftNow moment left_since self.new) }
        ensures time { tells → Passes moment left_since self.old self.new }

        ensures called { calls self.new ≡ calls self.old + 1 }
        ensures cause { HasCause (faults self.old) (faults self.new) result };

    /// Fills the front of the buffer with what the file has from the place on, and answers how many bytes
    /// those are.
    fn read(&mut self, file: u32, at: u64, buf: &mut [u8]) -> Result<usize, DiskFailed>
        ensures within { IfOk result (λ n. n ≤ length buf.old) }
        ensures count { tells → IfOk result (λ n.
            n ≡ min (length buf.old) (length (seen self.old file) - at)) }
        ensures filled { tells → IfOk result (λ n. take n buf.new ≡ take n (drop at (seen self.old file))) }

        ensures seen { tells → seen self.new ≡ seen self.old }
        ensures crash { tells → NothingNew
            (LeftNow moment left_since self.old) (LeftNow moment left_since self.new) }
        ensures time { tells → Passes moment left_since self.old self.new }

        ensures called { calls self.new ≡ calls self.old + 1 }
        ensures cause { HasCause (faults self.old) (faults self.new) result };

    /// Writes the bytes over what is there from the place on, and past the end. Until a sync a crash may
    /// leave any bytes in that range, also after a failure. A write whose end would reach 2^62 fails and
    /// changes nothing.
    fn write_at(&mut self, file: u32, at: u64, bytes: &[u8]) -> Result<(), DiskFailed>
        requires { tells → at ≤ length (seen self.old file) }

        ensures written { tells → OnOk result (seen self.new file ≡ over (seen self.old file) at bytes.now) }

        ensures others { tells → (f : ℕ) → f ≢ file → seen self.new f ≡ seen self.old f }
        ensures crash { tells → Follows (OnFile file (Torn at (length bytes.now)))
            (LeftNow moment left_since self.old) (LeftNow moment left_since self.new) }
        ensures time { tells → Passes moment left_since self.old self.new }

        ensures too_long { SIZE_LIMIT ≤ at + length bytes.now → IsErr result }
        ensures too_long_seen { tells → SIZE_LIMIT ≤ at + length bytes.now → seen self.new ≡ seen self.old }
        ensures too_long_crash { tells → SIZE_LIMIT ≤ at + length bytes.now
            → NothingNew (LeftNow moment left_since self.old) (LeftNow moment left_since self.new) }

        ensures called { calls self.new ≡ calls self.old + 1 }
        ensures cause { HasCause (faults self.old) (faults self.new) result };

    /// Cuts the file to a size. Until a sync a crash may leave any size from the new one to the old one, also
    /// after a failure.
    fn cut(&mut self, file: u32, len: u64) -> Result<(), DiskFailed>
        requires { tells → len ≤ length (seen self.old file) }

        ensures cut { tells → OnOk result (seen self.new file ≡ take len (seen self.old file)) }

        ensures others { tells → (f : ℕ) → f ≢ file → seen self.new f ≡ seen self.old f }
        ensures crash { tells → Follows (OnFile file (Cut len))
            (LeftNow moment left_since self.old) (LeftNow moment left_since self.new) }
        ensures time { tells → Passes moment left_since self.old self.new }

        ensures called { calls self.new ≡ calls self.old + 1 }
        ensures cause { HasCause (faults self.old) (faults self.new) result };

    /// After it, a crash leaves of the file what a read gives. A sync that fails may have reached the disk in
    /// part.
    fn sync(&mut self, file: u32) -> Result<(), DiskFailed>
        ensures durable { tells → OnOk result
            (OnDisk file (seen self.new) (LeftNow moment left_since self.new)) }

        ensures seen { tells → OnOk result (seen self.new ≡ seen self.old) }
        ensures others { tells → (f : ℕ) → f ≢ file → seen self.new f ≡ seen self.old f }
        ensures crash { tells → NothingNew
            (LeftNow moment left_since self.old) (LeftNow moment left_since self.new) }
        ensures time { tells → Passes moment left_since self.old self.new }

        ensures called { calls self.new ≡ calls self.old + 1 }
        ensures cause { HasCause (faults self.old) (faults self.new) result };

    /// What a crash from a moment on might have left, one from an earlier moment on might have left too.
    ghost earlier: { (disk : Self) (t u : ℕ) (c : Image)
        → tells → t ≤ u → left_since disk u c → left_since disk t c };

    /// The disk as it reads is one of the images that a crash now may leave.
    ghost reads_an_image: { (disk : Self) → tells → LeftNow moment left_since disk (seen disk) };

    /// Every file has fewer bytes than a file of a device may have.
    ghost small: { (disk : Self) (f : ℕ) → tells → length (seen disk f) < SIZE_LIMIT };
}
