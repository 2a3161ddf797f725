// Rows read with their pages, which are kept, and pages whose rows change.
ghost use Rattle.std.specs.Prelude.{◌≡◌, ◌≤◌, ◌<◌, ◌+◌, ◌*◌, ℕ, [], length, get_or, OnOk, IsSome};
ghost use Rattle.std.specs.Map.{keys_of};
ghost use Rattle.el_outside.specs.Counts.{HasCause};
ghost use Rattle.el_outside.specs.Disk.{NothingNew};
ghost use Rattle.el_outside.specs.Moments.{LeftNow, LeavesNoMore};
ghost use Rattle.el_row_formats.specs.declared.table.Table.{Table};
ghost use Rattle.el_row_formats.specs.Tables.{Tables, size_of, limit_of, row_at};
ghost use Rattle.el_rows.specs.Changes.{IsMadeFrom, count_at, under};
ghost use Rattle.el_page_cache.specs.Pages.{page_of, page_in, Agrees};
ghost use Rattle.el_pages.specs.declared.layout.TheConstants.{FORMAT_2};
ghost use Rattle.el_pages.specs.Layouts.{file_of};
ghost use Rattle.el_pages.specs.within.Caching.{IsWholeIn, HaveRows, IsPage};

use crate::FORMAT_2;
use crate::reading::read_row;
use el_outside::{Disk, DiskFailed};
use el_page_cache::{PageCache, copy_row, first_in_page};
use el_row_formats::Table;
use el_rows::Sealed;
use std::alloc::Global;

// Reads the page of a row, as far as its file goes.
fn read_page<D: Disk>(disk: &mut D, t: Table, i: u64, page: &mut [u8]) -> Result<(), DiskFailed>
    requires whole { length page.old ≡ 4096 }
    requires limit { i < limit_of t }
    ensures page { D.tells → OnOk result
        (IsPage t (D.seen disk.old (file_of FORMAT_2 t)) (page_of t i) page.new) }
    ensures seen { D.tells → D.seen disk.new ≡ D.seen disk.old }
    ensures left { D.tells → NothingNew
        (LeftNow D.moment D.left_since disk.old) (LeftNow D.moment D.left_since disk.new) }
    ensures no_more { D.tells → LeavesNoMore D.moment D.left_since disk.old disk.new }
    ensures called { D.calls disk.new ≡ D.calls disk.old + 1 }
    ensures cause { HasCause (D.faults disk.old) (D.faults disk.new) result }
{
    let at = first_in_page(t, i) * t.size() as u64;
    disk.read(FORMAT_2.file(t), at, page)?;
    Ok(())
}

// Reads a row with its page into these bytes, and keeps the page.
fn keep_row<D: Disk>(
    disk: &mut D,
    cache: &mut PageCache,
    t: Table,
    i: u64,
    page: Vec<u8>,
    buf: &mut [u8],
) -> Result<(), DiskFailed>
    requires whole { length page.items ≡ 4096 }
    requires limit { i < limit_of t }
    requires sized { length buf.old ≡ size_of t }
    ensures row { D.tells → IsWholeIn t (D.seen disk.old (file_of FORMAT_2 t)) i
        → OnOk result (buf.new ≡ row_at (size_of t) (D.seen disk.old (file_of FORMAT_2 t)) i) }
    ensures agrees { D.tells → (lists : Tables) (counts : Table → ℕ)
        → HaveRows (D.seen disk.old) lists counts → Agrees cache.old lists counts
        → Agrees cache.new lists counts }
    ensures seen { D.tells → D.seen disk.new ≡ D.seen disk.old }
    ensures left { D.tells → NothingNew
        (LeftNow D.moment D.left_since disk.old) (LeftNow D.moment D.left_since disk.new) }
    ensures no_more { D.tells → LeavesNoMore D.moment D.left_since disk.old disk.new }
    ensures called { D.calls disk.new ≡ D.calls disk.old + 1 }
    ensures cause { HasCause (D.faults disk.old) (D.faults disk.new) result }
{
    let mut page = page;
    read_page(disk, t, i, &mut page)?;
    copy_row(&page, t, i, buf);
    let _ = cache.keep(t, i, page);
    Ok(())
}

// Reads a row: from its page, where that is kept, and else with its page, which is then kept, in the bytes of
// another where as many are kept as may be. Where there is no memory for the page, the row is read by itself.
pub(crate) fn cached_row<D: Disk>(
    disk: &mut D,
    cache: &mut PageCache,
    alloc: Global,
    t: Table,
    i: u64,
    buf: &mut [u8],
) -> Result<(), DiskFailed>
    requires limit { i < limit_of t }
    requires sized { length buf.old ≡ size_of t }
    ensures row { D.tells → (lists : Tables) (counts : Table → ℕ)
        → HaveRows (D.seen disk.old) lists counts → Agrees cache.old lists counts
        → i < counts t → OnOk result (buf.new ≡ get_or (lists t) i []) }
    ensures agrees { D.tells → (lists : Tables) (counts : Table → ℕ)
        → HaveRows (D.seen disk.old) lists counts → Agrees cache.old lists counts
        → Agrees cache.new lists counts }
    ensures kept { IsSome (page_in cache.old t (page_of t i)) → D.calls disk.new ≡ D.calls disk.old }
    ensures calls { D.calls disk.new ≤ D.calls disk.old + 1 }
    ensures seen { D.tells → D.seen disk.new ≡ D.seen disk.old }
    ensures left { D.tells → NothingNew
        (LeftNow D.moment D.left_since disk.old) (LeftNow D.moment D.left_since disk.new) }
    ensures no_more { D.tells → LeavesNoMore D.moment D.left_since disk.old disk.new }
    ensures cause { HasCause (D.faults disk.old) (D.faults disk.new) result }
{
    if cache.read(t, i, buf) {
        return Ok(());
    }
    match cache.take_page(alloc) {
        Some(page) => keep_row(disk, cache, t, i, page, buf),
        None => read_row(disk, t, i, buf),
    }
}

// Changes the rows of the pages that are kept as the edits change those of the tables.
pub(crate) fn change_pages(cache: &mut PageCache, sealed: &Sealed)
    ensures same { keys_of cache.new ≡ keys_of cache.old }
    ensures agrees { (lists : Tables) (base : Table → ℕ)
        → IsMadeFrom base sealed.now.counts sealed.now.changes → Agrees cache.old lists base
        → Agrees cache.new (under lists sealed.now.counts sealed.now.changes) (count_at sealed.now.counts) }
{
    let mut k = 0;
    while k < sealed.changes() {
        let run = sealed.run(k);
        cache.change(run.table, run.first, run.rows, run.bytes);
        k += run.rows;
    }
}
