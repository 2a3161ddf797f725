// The files of a disk in memory.
ghost use Rattle.std.specs.Prelude.{◌≡◌, ◌≤◌, ◌<◌, ◌+◌, ℕ, length, drop, IfOk, OnOk, OnErr};
ghost use Rattle.el_outside.specs.Images.{at_file};
ghost use Rattle.el_outside.specs.declared.archive.TheConstants.{SIZE_LIMIT};
ghost use Rattle.el_mem_disk.specs.DiskFiles.{file_numbered, IsSound, file_written, file_cut, file_synced, crashed};

use crate::disk_file::DiskFile;
use el_base::OutOfMemory;
use std::alloc::Global;

// The bytes of a file as a read gives them; none for one that was never written.
pub(crate) fn bytes_of(files: &[DiskFile], file: u32) -> &[u8]
    ensures { result.now ≡ (file_numbered files.now file).bytes }
{
    match files.get(file as usize) {
        Some(file) => file.bytes(),
        None => &[],
    }
}

// Makes the list long enough for the file, by files that were never written.
fn reach(alloc: Global, files: &mut Vec<DiskFile>, file: u32) -> Result<(), OutOfMemory>
    ensures same { file_numbered files.new.items ≡ file_numbered files.old.items }
    ensures there { OnOk result (file < length files.new.items) }
{
    while files.len() <= file as usize {
        files.push(DiskFile::new(alloc))?;
    }
    Ok(())
}

// A write of n bytes of which this front is seen.
pub(crate) fn write_file(
    alloc: Global,
    files: &mut Vec<DiskFile>,
    file: u32,
    at: u64,
    n: usize,
    front: &[u8],
) -> Result<(), OutOfMemory>
    requires place { at ≤ length (file_numbered files.old.items file).bytes }
    requires end { at + n < SIZE_LIMIT }
    requires front { length front.now ≤ n }
    ensures ok { OnOk result (file_numbered files.new.items ≡ at_file (file_numbered files.old.items) file
        (file_written at n front.now (file_numbered files.old.items file))) }
    ensures err { OnErr result (file_numbered files.new.items ≡ file_numbered files.old.items) }
{
    reach(alloc, files, file)?;
    files[file as usize].write(alloc, at, n, front)?;
    Ok(())
}

// A cut, which is seen or isn't.
pub(crate) fn cut_file(
    alloc: Global,
    files: &mut Vec<DiskFile>,
    file: u32,
    len: u64,
    is_seen: bool,
) -> Result<(), OutOfMemory>
    requires { len ≤ length (file_numbered files.old.items file).bytes }
    ensures ok { OnOk result (file_numbered files.new.items
        ≡ at_file (file_numbered files.old.items) file
        (file_cut len is_seen (file_numbered files.old.items file))) }
    ensures err { OnErr result (file_numbered files.new.items ≡ file_numbered files.old.items) }
{
    reach(alloc, files, file)?;
    files[file as usize].cut(alloc, len, is_seen)?;
    Ok(())
}

// A sync.
pub(crate) fn sync_file(
    alloc: Global,
    files: &mut Vec<DiskFile>,
    file: u32,
) -> Result<(), OutOfMemory>
    ensures ok { OnOk result (file_numbered files.new.items
        ≡ at_file (file_numbered files.old.items) file (file_synced (file_numbered files.old.items file))) }
    ensures err { OnErr result (file_numbered files.new.items ≡ file_numbered files.old.items) }
{
    reach(alloc, files, file)?;
    files[file as usize].sync(alloc)?;
    Ok(())
}

// The numbers without the first ones.
fn after(numbers: &[u64], n: u64) -> &[u64]
    ensures { result.now ≡ drop n numbers.now }
{
    match numbers.get(n as usize..) {
        Some(rest) => rest,
        None => &[],
    }
}

// The files of the life after a crash, where the numbers choose what it leaves.
pub(crate) fn crash(
    alloc: Global,
    files: &[DiskFile],
    numbers: &[u64],
) -> Result<Vec<DiskFile>, OutOfMemory>
    requires { (f : ℕ) → IsSound (file_numbered files.now f) }
    ensures { IfOk result (λ all. file_numbered all.items ≡ crashed (file_numbered files.now) numbers.now) }
{
    let mut all = Vec::new(alloc);
    let mut rest = numbers;
    for file in files {
        all.push(file.crashed(alloc, rest)?)?;
        rest = after(rest, 1 + file.greatest());
    }
    Ok(all)
}
