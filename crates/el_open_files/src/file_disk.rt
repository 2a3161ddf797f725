// The files of an index as a disk.
ghost use Rattle.std.specs.Prelude.{◌≡◌, ℕ, None, IfOk};
ghost use Rattle.el_outside.specs.Counts.{RoseBy};
ghost use Rattle.el_open_files.specs.OpenFiles.{opened};

use crate::calls::{cut_to, make_durable, read_from, size_of, write_to};
use crate::open_files::OpenFiles;
use el_base::{GhostCount, OutOfMemory};
use el_outside::{Disk, DiskFailed, SIZE_LIMIT};
use std::alloc::Global;
use std::io;
use std::io::ErrorKind;
use std::marker::Model;

/// How many files an index has at most: their names have two digits.
const FILES: usize = 100;

/// A call on a file that failed.
#[derive(Clone, Copy)]
pub struct FileFailure {
    /// The file's number.
    pub file: u32,
    /// What the system said.
    pub error: io::Error,
}

/// The files of a folder as a disk, at most 100. A file is opened once and kept open, and made by the first
/// write to it; one that isn't there has no bytes. It tells what the folder tells.
#[derive(Drop)]
pub struct FileDisk<F: OpenFiles> {
    files: F,
    // The files that are open, by number.
    places: Vec<Option<F::File>>,
    made: GhostCount,
    faults: u64,
    // The last call that failed. No clause speaks of it.
    failure: Option<FileFailure>,
}

impl<F: OpenFiles> Model for FileDisk<F> {
    ghost use Rattle.el_open_files.specs.OpenFiles.{FilesOf, Held};

    ghost Value = { FilesOf F };

    ghost view = { λ disk. record { files = disk.files; made = disk.made; faults = disk.faults } };

    ghost invariant = { λ disk. Held F.tells F.is_file F.is_named disk.files disk.places.items };
}

// As many empty places as an index has files.
fn no_files<I: Drop>(alloc: Global) -> Result<Vec<Option<I>>, OutOfMemory>
    ensures { IfOk result (λ places. (f : ℕ) → opened places.items f ≡ None) }
{
    let mut places = Vec::new(alloc);
    for _file in 0..FILES {
        places.push(None)?;
    }
    Ok(places)
}

// Why a size can't be told: the call's failure, or else that the file is too large.
fn why_no_size(found: io::Result<u64>) -> io::Error {
    match found {
        Ok(_) => io::Error::from(ErrorKind::FileTooLarge),
        Err(error) => error,
    }
}

// A failure of a call on a file, which is counted and kept.
fn fault(
    faults: &mut u64,
    failure: &mut Option<FileFailure>,
    file: u32,
    error: io::Error,
) -> DiskFailed
    ensures { RoseBy faults.old faults.new 1 }
{
    *failure = Some(FileFailure { file, error });
    *faults = faults.saturating_add(1);
    DiskFailed
}

impl<F: OpenFiles + Drop> FileDisk<F> {
    /// The files of the folder, none of them open. No call takes memory of its own, where none of the folder
    /// does.
    pub fn over(files: F, alloc: Global) -> Result<FileDisk<F>, OutOfMemory>
        ensures { IfOk result (λ disk. disk ≡ record { files = files; made = 0; faults = 0 }) }
    {
        let places = no_files(alloc)?;
        Ok(FileDisk {
            files,
            places,
            made: GhostCount::new(),
            faults: 0,
            failure: None,
        })
    }

    /// The last call that failed.
    pub fn failure(&self) -> Option<FileFailure> {
        self.failure
    }

    /// The folder.
    pub fn folder(&self) -> &F
        ensures { result.now ≡ self.now.files }
    {
        &self.files
    }

    /// The folder, as it stands; its files are closed. Takes no memory.
    pub fn into_folder(self) -> F
        ensures { result ≡ self.files }
    {
        let FileDisk {
            files,
            places: _,
            made: _,
            faults: _,
            failure: _,
        } = self;
        files
    }
}

impl<F: OpenFiles + Drop> Disk for FileDisk<F> {
    ghost tells = { F.tells };

    ghost seen = { λ disk. F.seen disk.files };

    ghost moment = { λ disk. F.moment disk.files };

    ghost left_since = { λ disk. F.left_since disk.files };

    ghost calls = { λ disk. disk.made };

    ghost faults = { λ disk. disk.faults };

    ghost earlier = { λ disk. F.earlier disk.files };

    ghost reads_an_image = { λ disk. F.reads_an_image disk.files };

    ghost small = { λ disk. F.small disk.files };

    fn size(&mut self, file: u32) -> Result<u64, DiskFailed> {
        self.made.tick();
        self.files.begin();
        let found = size_of(&mut self.files, self.places.as_mut_slice(), file);
        match found {
            Ok(n) if n < SIZE_LIMIT => Ok(n),
            _ => Err(fault(
                &mut self.faults,
                &mut self.failure,
                file,
                why_no_size(found),
            )),
        }
    }

    fn read(&mut self, file: u32, at: u64, buf: &mut [u8]) -> Result<usize, DiskFailed> {
        self.made.tick();
        self.files.begin();
        match read_from(&mut self.files, self.places.as_mut_slice(), file, at, buf) {
            Ok(n) => Ok(n),
            Err(error) => Err(fault(&mut self.faults, &mut self.failure, file, error)),
        }
    }

    fn write_at(&mut self, file: u32, at: u64, bytes: &[u8]) -> Result<(), DiskFailed> {
        self.made.tick();
        self.files.begin();
        if at.saturating_add(bytes.len() as u64) >= SIZE_LIMIT {
            let error = io::Error::from(ErrorKind::FileTooLarge);
            return Err(fault(&mut self.faults, &mut self.failure, file, error));
        }
        match write_to(&mut self.files, self.places.as_mut_slice(), file, at, bytes) {
            Ok(()) => Ok(()),
            Err(error) => Err(fault(&mut self.faults, &mut self.failure, file, error)),
        }
    }

    fn cut(&mut self, file: u32, len: u64) -> Result<(), DiskFailed> {
        self.made.tick();
        self.files.begin();
        match cut_to(&mut self.files, self.places.as_mut_slice(), file, len) {
            Ok(()) => Ok(()),
            Err(error) => Err(fault(&mut self.faults, &mut self.failure, file, error)),
        }
    }

    fn sync(&mut self, file: u32) -> Result<(), DiskFailed> {
        self.made.tick();
        self.files.begin();
        match make_durable(&mut self.files, self.places.as_mut_slice(), file) {
            Ok(()) => Ok(()),
            Err(error) => Err(fault(&mut self.faults, &mut self.failure, file, error)),
        }
    }
}
