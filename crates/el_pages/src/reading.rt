// Rows read from their files.
ghost use Rattle.std.specs.Prelude.{◌≡◌, ◌≤◌, ◌<◌, ◌+◌, ◌*◌, length, OnOk};
ghost use Rattle.el_outside.specs.Counts.{HasCause};
ghost use Rattle.el_outside.specs.Disk.{NothingNew};
ghost use Rattle.el_outside.specs.Moments.{LeftNow, LeavesNoMore};
ghost use Rattle.el_row_formats.specs.Tables.{size_of, limit_of, row_at};
ghost use Rattle.el_pages.specs.declared.layout.TheConstants.{FORMAT_2};
ghost use Rattle.el_pages.specs.Layouts.{file_of};

use crate::FORMAT_2;
use el_outside::{Disk, DiskFailed};
use el_row_formats::Table;

// Zeros in place of bytes that a read didn't give.
fn zero_rest(buf: &mut [u8], from: usize)
    ensures long { length buf.new ≡ length buf.old }
    ensures whole { length buf.old ≤ from → buf.new ≡ buf.old }
{
    let len = buf.len();
    if from < len {
        for i in from..len {
            buf[i] = 0;
        }
    }
}

// Reads a row.
pub(crate) fn read_row<D: Disk>(
    disk: &mut D,
    t: Table,
    i: u64,
    buf: &mut [u8],
) -> Result<(), DiskFailed>
    requires sized { length buf.old ≡ size_of t }
    requires limit { i < limit_of t }
    ensures row { D.tells → i * size_of t + size_of t ≤ length (D.seen disk.old (file_of FORMAT_2 t))
        → OnOk result (buf.new ≡ row_at (size_of t) (D.seen disk.old (file_of FORMAT_2 t)) i) }
    ensures seen { D.tells → D.seen disk.new ≡ D.seen disk.old }
    ensures left { D.tells → NothingNew
        (LeftNow D.moment D.left_since disk.old) (LeftNow D.moment D.left_since disk.new) }
    ensures no_more { D.tells → LeavesNoMore D.moment D.left_since disk.old disk.new }
    ensures called { D.calls disk.new ≡ D.calls disk.old + 1 }
    ensures cause { HasCause (D.faults disk.old) (D.faults disk.new) result }
{
    let at = i * t.size() as u64;
    let given = disk.read(FORMAT_2.file(t), at, buf)?;
    zero_rest(buf, given);
    Ok(())
}
