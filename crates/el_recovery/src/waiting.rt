// What waits in a redo file when an opening looks; for every format.
ghost use Rattle.std.specs.Prelude.{◌≡◌, ◌≢◌, ◌⊎◌, ◌≤◌, ◌<◌, ◌+◌, ℕ, List, None, length, take, min, IfOk, IfErr, IfSome};
ghost use Rattle.el_outside.specs.Counts.{CountsOnly};
ghost use Rattle.el_outside.specs.Disk.{Image};
ghost use Rattle.el_outside.specs.Moments.{LeftNow};
ghost use Rattle.el_outside.specs.declared.archive.TheConstants.{SIZE_LIMIT};
ghost use Rattle.el_redo.specs.declared.faults.OpenFault.TheVariants as fault;
ghost use Rattle.el_redone.specs.Redone.{IsClosed};
ghost use Rattle.el_redone.specs.Steps.{Leaves};
ghost use Rattle.el_pages.specs.Layouts.{redo_of};
ghost use Rattle.el_recovery.specs.Checks.{Found, bad_index, NoRecordWaits, IsBadRecord};
ghost use Rattle.el_recovery.specs.within.Checking.{HasBody};

use crate::redoing::read_front;
use el_outside::Disk;
use el_pages::Layout;
use el_redo::OpenFault;

// What the first bytes of a redo file of this size tell: that nothing waits, or how many bytes the body has.
fn told(layout: &Layout, size: u64, front: &[u8; 9]) -> Result<Option<u64>, OpenFault>
    requires few { layout.now.first + 9 < 4294967296 }
    requires two { 2 ≤ size }
    ensures none { (image : Image) → length (image (redo_of layout.now)) ≡ size
        → take (min 9 size) front.now ≡ take (min 9 size) (image (redo_of layout.now))
        → IfOk result (λ w. w ≡ None → IsClosed (image (redo_of layout.now))) }
    ensures some { (image : Image) → length (image (redo_of layout.now)) ≡ size
        → take (min 9 size) front.now ≡ take (min 9 size) (image (redo_of layout.now))
        → IfOk result (λ w. IfSome w (λ len. (body : List ℕ) × (stale : List ℕ)
        × HasBody layout.now image len body stale)) }
    ensures low { IfOk result (λ w. IfSome w (λ len. 9 + len ≤ size)) }
    ensures meta { IfOk result (λ w. IfSome w (λ len. layout.now.meta ≤ len)) }
    ensures bad { (image : Image) → length (image (redo_of layout.now)) ≡ size
        → take (min 9 size) front.now ≡ take (min 9 size) (image (redo_of layout.now))
        → IfErr result (λ e. (found : Found) × (e ≡ bad_index found)
        × IsBadRecord layout.now image found) }
    ensures only { IfErr result (λ e. (found : Found) × (e ≡ bad_index found)) }
{
    let [gate, a, b, c, d, e, f, g, h] = *front;
    let redo = layout.span().redo;
    if gate != 1 {
        return Ok(None);
    }
    if size < 9 {
        return Err(OpenFault::BadIndex {
            file: redo,
            wanted: 9,
            found: size,
        });
    }
    let len = u64::from_le_bytes([a, b, c, d, e, f, g, h]);
    if len > size - 9 {
        return Err(OpenFault::BadIndex {
            file: redo,
            wanted: len,
            found: size - 9,
        });
    }
    if len < layout.meta as u64 {
        return Err(OpenFault::BadIndex {
            file: redo,
            wanted: layout.meta as u64,
            found: len,
        });
    }
    Ok(Some(len))
}

// What waits in the redo file: nothing, or a body of so many bytes behind the open gate.
pub(crate) fn waiting<D: Disk>(disk: &mut D, layout: &Layout) -> Result<Option<u64>, OpenFault>
    requires few { layout.now.first + 9 < 4294967296 }
    ensures none { D.tells → IfOk result (λ w. w ≡ None
        → NoRecordWaits (D.seen disk.old (redo_of layout.now))) }
    ensures some { D.tells → IfOk result (λ w. IfSome w (λ len. (body : List ℕ) × (stale : List ℕ)
        × HasBody layout.now (D.seen disk.old) len body stale)) }
    ensures low { IfOk result (λ w. IfSome w (λ len. 9 + len < SIZE_LIMIT)) }
    ensures meta { IfOk result (λ w. IfSome w (λ len. layout.now.meta ≤ len)) }
    ensures bad { D.tells → IfErr result (λ e. (e ≡ fault.DiskFailed) ⊎ ((found : Found)
        × (e ≡ bad_index found) × IsBadRecord layout.now (D.seen disk.old) found)) }
    ensures only { IfErr result (λ e. (e ≡ fault.DiskFailed) ⊎ ((found : Found) × (e ≡ bad_index found))) }
    ensures seen { D.tells → D.seen disk.new ≡ D.seen disk.old }
    ensures crash { D.tells → Leaves ⟦<D as Disk>⟧ (LeftNow D.moment D.left_since disk.old)
        disk.old disk.new }
    ensures calls { D.calls disk.new ≤ D.calls disk.old + 2 }
    ensures cause { CountsOnly (D.faults disk.old) (D.faults disk.new) fault.DiskFailed result }
{
    let redo = layout.span().redo;
    let size = disk.size(redo)?;
    if size < 2 {
        return Ok(None);
    }
    let front = read_front(disk, redo, 0, size)?;
    let len = told(layout, size, &front)?;
    Ok(len)
}
