// A store of tables.
ghost use Rattle.std.specs.Prelude.{◌≡◌, ◌<◌, ◌≤◌, ◌+◌, ℕ, List, [], length, OnOk, OnErr, IfOk, IsErrOf, get_or};
ghost use Rattle.el_outside.specs.Counts.{HasCause, CountsOnly};
ghost use Rattle.el_row_formats.specs.Tables.{size_of, limit_of};
ghost use Rattle.el_rows.specs.Reads.{OnlyRead, Same, IsEither};
ghost use Rattle.el_outside.specs.Moments.{KeepsBelow, LeavesOnly};
ghost use Rattle.el_rows.specs.Changes.{IsMadeFrom, under, count_at};

use crate::{CommitFault, Sealed};
use el_outside::DiskFailed;
use el_row_formats::Table;

/// A store of tables of rows.
pub trait Rows {
    ghost use Rattle.std.specs.Prelude.{◌≡◌, ◌≤◌, ℕ, List, length};
    ghost use Rattle.el_outside.specs.Disk.{Image};
    ghost use Rattle.el_row_formats.specs.declared.table.Table.{Table};

    /// Whether the store tells what its rows hold. One in memory does, one over a real disk doesn't.
    ghost tells: { Type 0 };

    /// Whether the store tells what a crash leaves.
    ghost tells_crash: { Type 0 };

    /// The rows of each table.
    ghost lists: { Self → Table → List (List ℕ) };

    /// How many rows each table has. This is told by every store.
    ghost counts: { Self → Table → ℕ };

    /// How many rows each table of heads has, by what the store was made with. Each call keeps it.
    ghost heads: { Self → ℕ };

    /// Calls may be made. After a commit that met a disk fault, they may not.
    ghost is_live: { Self → Type 0 };

    /// The moment, as a number that doesn't fall.
    ghost moment: { Self → ℕ };

    /// What a crash may leave: an image of a disk, for a store over one.
    ghost Left: { Type 0 };

    /// What is left stands for these lists, with so many heads.
    ghost shows: { Left → ℕ → (Table → List (List ℕ)) → Type 0 };

    /// What a crash at some moment from that one on might have left, during a call or between two.
    ghost left_since: { Self → ℕ → Left → Type 0 };

    /// What the disk below holds beside the rows: the bytes of each file that is none of the store's, and
    /// none for the store's own. It is told as what a crash leaves is, and each call keeps it.
    ghost beside: { Self → Image };

    /// How often the disk below has failed.
    ghost faults: { Self → ℕ };

    /// How many rows were read so far.
    ghost reads: { Self → ℕ };

    /// How many rows the table has.
    fn count(&self, t: Table) -> u64
        ensures count { result ≡ counts self.now t }
        ensures limit { result ≤ limit_of t };

    /// Reads a row. It never fails for want of memory, counts as one row read, and leaves the store as it
    /// was. A store may take memory to keep what it read.
    fn row(&mut self, t: Table, i: u64, buf: &mut [u8]) -> Result<(), DiskFailed>
        requires live { is_live self.old }
        requires below { i < counts self.old t }
        requires sized { length buf.old ≡ size_of t }

        ensures row { tells → OnOk result (buf.new ≡ get_or (lists self.old t) i []) }
        ensures reads { OnlyRead lists counts heads is_live
            (KeepsBelow tells_crash moment left_since beside) self.old self.new }

        ensures tick { reads self.new ≡ reads self.old + 1 }
        ensures cause { HasCause (faults self.old) (faults self.new) result };

    /// Makes the lists the sealed ones. Out of memory, nothing has changed, and a crash leaves no more than
    /// before; after a disk fault nothing says that the store is live. It counts as no row read.
    fn commit(&mut self, sealed: &Sealed) -> Result<(), CommitFault>
        requires live { is_live self.old }
        requires made { IsMadeFrom (counts self.old) sealed.now.counts sealed.now.changes }

        ensures lists { tells → OnOk result
            (Same (under (lists self.old) sealed.now.counts sealed.now.changes) (lists self.new)) }
        ensures counts { OnOk result ((t : Table) → counts self.new t ≡ count_at sealed.now.counts t) }

        ensures live { OnOk result (is_live self.new) }
        ensures memory { IsErrOf result CommitFault.Memory
            → OnlyRead lists counts heads is_live
            (KeepsBelow tells_crash moment left_since beside) self.old self.new }
        ensures crash { tells_crash → LeavesOnly moment left_since self.old self.new
            (IsEither (λ left. shows left (heads self.old)) (lists self.old)
            (under (lists self.old) sealed.now.counts sealed.now.changes)) }
        ensures beside { tells_crash → beside self.new ≡ beside self.old }
        ensures heads { heads self.new ≡ heads self.old }
        ensures idle { reads self.new ≡ reads self.old }

        ensures cause { CountsOnly (faults self.old) (faults self.new) CommitFault.DiskFailed result };

    /// The count is the lists' length where they are told.
    ghost counted: { (s : Self) (t : Table) → tells → length (lists s t) ≡ counts s t };

    /// The moments from a later one on are among those from an earlier one on.
    ghost earlier: { (s : Self) (t u : ℕ) (c : Left) → t ≤ u → left_since s u c → left_since s t c };

    /// Between calls all that a crash may leave of a live store stands for its lists.
    ghost leaves_lists: { (s : Self) (c : Left)
        → tells_crash → is_live s → left_since s (moment s) c → shows c (heads s) (lists s) };
}
