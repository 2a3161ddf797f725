// The open files of a folder in memory.
ghost use Rattle.std.specs.Prelude.{◌≡◌, ◌<◌, ℕ, ◌==◌, true, false, length, IfOk, IfErr};
ghost use Rattle.std.specs.List.{list_any};
ghost use Rattle.std.specs.IoError.{error_kind};
ghost use Rattle.el_mem_disk.specs.DiskFiles.{file_numbered, never_written};

use crate::disk::MemDisk;
use crate::failing::FailingCalls;
use el_fakes::is_listed;
use el_open_files::OpenFiles;
use el_outside::{Disk, DiskFailed};
use std::alloc::Global;
use std::io;
use std::io::ErrorKind;

/// A file of a folder in memory that is open, by its number.
#[derive(Drop)]
pub struct NumberedFile {
    number: u32,
}

/// The files of a folder in memory, open by number, over a disk in memory, which tells what they hold and
/// what a crash may leave of them. Of a file whose name isn't on the disk no sync makes anything durable, so
/// a crash may leave none of it. A read or a write moves so many bytes at most, and is interrupted where the
/// call of the disk that it would make is listed.
#[derive(Drop)]
pub struct MemFolder {
    alloc: Global,
    disk: MemDisk,
    // The numbers of the files that are there, and of those whose names are on the disk.
    made: Vec<u64>,
    named: Vec<u64>,
    most: usize,
    interrupted: Vec<u64>,
    ghost absent: { (f : ℕ) → list_any (λ n. f == n) made.items ≡ false
        → file_numbered disk.files.items f ≡ never_written },
    ghost kept: { (f : ℕ) → list_any (λ n. f == n) named.items ≡ true
        → list_any (λ n. f == n) made.items ≡ true },
}

// A failure of the disk.
fn failed() -> io::Error
    ensures { error_kind result ≡ ErrorKind.Other }
{
    io::Error::from(ErrorKind::Other)
}

impl MemFolder {
    ghost use Rattle.el_outside.specs.Disk.{NothingNew};
    ghost use Rattle.el_outside.specs.Moments.{LeftNow};
    ghost use Rattle.el_open_files.specs.Calls.{Idle};
    ghost use Rattle.el_mem_disk.specs.MemFolders.{folder_seen, folder_moment, folder_left, folder_has, folder_names, disk_of_folder};
    ghost use Rattle.el_outside.specs.Counts.{risen};
    ghost use Rattle.el_mem_disk.specs.Disks.{disk_state};

    /// A folder without files. A read or a write moves so many bytes at most, a read one at least; these
    /// calls of its disk fail, and those with these numbers are interrupted. Takes no memory.
    pub fn new(
        alloc: Global,
        most: usize,
        failing: FailingCalls,
        interrupted: Vec<u64>,
    ) -> MemFolder
        ensures none { (f : ℕ) → folder_has result f ≡ false }
        ensures files { (disk_state (disk_of_folder result)).files ≡ (λ f. never_written) }
    {
        MemFolder {
            alloc,
            disk: MemDisk::new(alloc, failing),
            made: Vec::new(alloc),
            named: Vec::new(alloc),
            most,
            interrupted,
        }
    }

    /// The disk below.
    pub fn into_disk(self) -> MemDisk
        ensures { result ≡ disk_of_folder self }
    {
        self.disk
    }

    // Whether the next call of the disk is interrupted.
    fn is_interrupted(&self) -> bool
        ensures { result ≡ list_any (λ n. risen (disk_state (disk_of_folder self.now)).calls 1 == n)
            self.now.interrupted.items }
    {
        is_listed(
            self.interrupted.as_slice(),
            self.disk.calls().saturating_add(1),
        )
    }

    // A call of the disk that changes no file; the file's size.
    fn look(&mut self, file: u32) -> io::Result<u64>
        ensures size { IfOk result (λ n. n ≡ length (folder_seen self.new file)) }
        ensures ticks { folder_moment self.old < folder_moment self.new }
        ensures idle { Idle folder_seen folder_moment folder_left folder_names self.old self.new }
        ensures still { NothingNew (LeftNow folder_moment folder_left self.new)
            (LeftNow folder_moment folder_left self.old) }
        ensures made { self.new.made ≡ self.old.made }
        ensures named { self.new.named ≡ self.old.named }
        ensures failed { IfErr result (λ e. error_kind e ≡ ErrorKind.Other) }
    {
        match self.disk.size(file) {
            Ok(n) => Ok(n),
            Err(DiskFailed) => Err(failed()),
        }
    }

    // A call that is interrupted. It counts as one that changes no file.
    fn interrupt(&mut self, file: u32) -> io::Error
        ensures interrupted { error_kind result ≡ ErrorKind.Interrupted }
        ensures idle { Idle folder_seen folder_moment folder_left folder_names self.old self.new }
        ensures still { NothingNew (LeftNow folder_moment folder_left self.new)
            (LeftNow folder_moment folder_left self.old) }
    {
        let _looked = self.look(file);
        io::Error::from(ErrorKind::Interrupted)
    }
}

impl OpenFiles for MemFolder {
    ghost use Rattle.el_mem_disk.specs.MemFolders.{folder_seen, folder_moment, folder_left, folder_has, folder_names};
    ghost use Rattle.el_mem_disk.specs.within.DiskRules.{left_earlier, reads_as_an_image, is_short};

    type File = NumberedFile;

    ghost tells = { Unit {0} };

    ghost seen = { folder_seen };

    ghost moment = { folder_moment };

    ghost left_since = { folder_left };

    ghost has = { folder_has };

    ghost is_named = { folder_names };

    ghost is_file = { λ it f. it.number ≡ f };

    ghost earlier = { λ folder t u c told le left. left_earlier folder.disk t u c le left };

    ghost reads_an_image = { λ folder told. reads_as_an_image folder.disk folder.disk.sound };

    ghost small = { λ folder f told. is_short folder.disk f folder.disk.sound };

    fn begin(&mut self) {
        let _looked = self.look(0);
    }

    fn open(&mut self, file: u32) -> io::Result<Option<NumberedFile>> {
        self.look(file)?;
        if is_listed(self.made.as_slice(), file as u64) {
            Ok(Some(NumberedFile { number: file }))
        } else {
            Ok(None)
        }
    }

    fn create(&mut self, file: u32) -> io::Result<NumberedFile> {
        self.look(file)?;
        if !is_listed(self.made.as_slice(), file as u64) {
            self.made.push(file as u64)?;
        }
        Ok(NumberedFile { number: file })
    }

    fn sync_folder(&mut self) -> io::Result<()> {
        self.look(0)?;
        self.named = Vec::from_slice(self.alloc, self.made.as_slice())?;
        Ok(())
    }

    fn len(&mut self, file: &NumberedFile) -> io::Result<u64> {
        self.look(file.number)
    }

    fn read_at(&mut self, file: &NumberedFile, at: u64, buf: &mut [u8]) -> io::Result<usize> {
        if self.is_interrupted() {
            return Err(self.interrupt(file.number));
        }
        let most = buf.len().min(self.most.max(1));
        match self.disk.read(file.number, at, &mut buf[..most]) {
            Ok(n) => Ok(n),
            Err(DiskFailed) => Err(failed()),
        }
    }

    fn write_at(&mut self, file: &NumberedFile, at: u64, bytes: &[u8]) -> io::Result<usize> {
        if self.is_interrupted() {
            return Err(self.interrupt(file.number));
        }
        let is_made = is_listed(self.made.as_slice(), file.number as u64);
        if !is_made || at > self.disk.bytes(file.number).len() as u64 {
            return Err(io::Error::from(ErrorKind::InvalidInput));
        }
        let most = bytes.len().min(self.most);
        match self.disk.write_at(file.number, at, &bytes[..most]) {
            Ok(()) => Ok(most),
            Err(DiskFailed) => Err(failed()),
        }
    }

    fn set_len(&mut self, file: &NumberedFile, len: u64) -> io::Result<()> {
        let is_made = is_listed(self.made.as_slice(), file.number as u64);
        if !is_made || len > self.disk.bytes(file.number).len() as u64 {
            return Err(io::Error::from(ErrorKind::InvalidInput));
        }
        match self.disk.cut(file.number, len) {
            Ok(()) => Ok(()),
            Err(DiskFailed) => Err(failed()),
        }
    }

    fn sync(&mut self, file: &NumberedFile) -> io::Result<()> {
        if !is_listed(self.named.as_slice(), file.number as u64) {
            self.look(file.number)?;
            return Ok(());
        }
        match self.disk.sync(file.number) {
            Ok(()) => Ok(()),
            Err(DiskFailed) => Err(failed()),
        }
    }
}
