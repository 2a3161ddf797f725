// The node's block files as an archive.
ghost use Rattle.std.specs.Prelude.{◌≡◌, ◌≤◌, ◌+◌, ◌-◌, ℕ, [], Some, length, take, drop, min, IfOk, IfSome, IfNone};
ghost use Rattle.el_outside.specs.Counts.{RoseBy};
ghost use Rattle.el_outside.specs.Files.{AllGrow};
ghost use Rattle.el_net.specs.Devices.{BlocksOf, read_with};
ghost use Rattle.el_open_files.specs.Calls.{IsFront};
ghost use Rattle.el_net.specs.Masks.{unmasked};

use crate::block_failure::{BlockFailure, BlockPart};
use crate::block_folder::BlockFolder;
use crate::folder::Folder;
use crate::masks::{Mask, unmask};
use crate::reading::fill_at;
use el_base::{GhostCount, OutOfMemory};
use el_outside::{Archive, ArchiveFailed, MOST_FILES, SIZE_LIMIT};
use std::alloc::{AllocGlobal, Global};
use std::fs::File;
use std::io;
use std::io::ErrorKind;
use std::marker::Model;
use std::rt::Files;

/// The block files of a folder. A file that isn't there has no bytes; where the folder isn't there, or its
/// mask can't be had, each call fails. It tells what the folder tells.
#[derive(Drop)]
pub struct BlockFiles<F: Folder> {
    folder: F,
    mask: Option<Mask>,
    made: GhostCount,
    faults: u64,
    // The last call that failed; where the mask can't be had, why. No clause speaks of it.
    failure: Option<BlockFailure>,
}

impl<F: Folder> Model for BlockFiles<F> {
    ghost use Rattle.el_net.specs.Devices.{BlocksOf};

    ghost Value = { BlocksOf F };

    ghost view = { λ files. record {
      folder = files.folder;
      mask = files.mask;
      made = files.made;
      faults = files.faults;
    } };
}

// What is kept of failures: where the mask can't be had, why, and else the last.
fn kept(
    mask: Option<Mask>,
    before: Option<BlockFailure>,
    last: BlockFailure,
) -> Option<BlockFailure> {
    match mask {
        Some(_) => Some(last),
        None => before,
    }
}

// Why a size can't be told: the call's failure, or else that the file is too large.
fn why_no_size(found: io::Result<u64>) -> io::Error {
    match found {
        Ok(_) => io::Error::from(ErrorKind::FileTooLarge),
        Err(error) => error,
    }
}

// The file, if it is there; a failure where the folder isn't.
fn find<F: Folder>(folder: &mut F, file: u32) -> io::Result<Option<F::File>>
    ensures found { IfOk result (λ found. IfSome found (λ it. F.is_file it file)) }
    ensures absent { F.tells → IfOk result (λ found. IfNone found (F.bytes folder.new file ≡ [])) }
    ensures grows { F.tells → AllGrow (F.bytes folder.old) (F.bytes folder.new) }
{
    folder.look()?;
    folder.open(file)
}

// A file's size; 0 for one that isn't there.
fn size_of<F: Folder>(folder: &mut F, file: u32) -> io::Result<u64>
    ensures size { F.tells → IfOk result (λ n. n ≡ length (F.bytes folder.new file)) }
    ensures grows { F.tells → AllGrow (F.bytes folder.old) (F.bytes folder.new) }
{
    match find(folder, file)? {
        None => Ok(0),
        Some(opened) => folder.len(&opened),
    }
}

// What a file has from the place on.
fn read_from<F: Folder>(folder: &mut F, file: u32, at: u64, buf: &mut [u8]) -> io::Result<usize>
    ensures within { IfOk result (λ n. n ≤ length buf.old) }
    ensures front { F.tells → IfOk result (λ n. IsFront at n buf.new (F.bytes folder.new file)) }
    ensures count { F.tells → IfOk result (λ n.
        n ≡ min (length buf.old) (length (F.bytes folder.new file) - at)) }
    ensures grows { F.tells → AllGrow (F.bytes folder.old) (F.bytes folder.new) }
{
    match find(folder, file)? {
        None => Ok(0),
        Some(opened) => fill_at(folder, &opened, at, buf),
    }
}

// What a file has from the place on, without the mask.
fn read_without<F: Folder>(
    folder: &mut F,
    mask: Mask,
    file: u32,
    at: u64,
    buf: &mut [u8],
) -> io::Result<usize>
    ensures within { IfOk result (λ n. n ≤ length buf.old) }
    ensures filled { F.tells → IfOk result (λ n.
        take n buf.new ≡ take n (drop at (unmasked mask.bytes 0 (F.bytes folder.new file)))) }
    ensures count { F.tells → IfOk result (λ n.
        n ≡ min (length buf.old) (length (F.bytes folder.new file) - at)) }
    ensures grows { F.tells → AllGrow (F.bytes folder.old) (F.bytes folder.new) }
{
    let n = read_from(folder, file, at, buf)?;
    unmask(mask, at, &mut buf[..n]);
    Ok(n)
}

impl<R: Files<File = File> + AllocGlobal + Clone + Drop> BlockFiles<BlockFolder<R>> {
    /// The block files of the folder of that path. Its mask is read here, once.
    pub fn new(
        rt: R,
        alloc: Global,
        folder: &str,
    ) -> Result<BlockFiles<BlockFolder<R>>, OutOfMemory>
        ensures { IfOk result (λ files. (files.folder ≡ folder.now) × (files.faults ≡ 0)) }
    {
        let folder = BlockFolder::new(rt, alloc, folder)?;
        let mask = folder.mask(alloc)?;
        let mut files = BlockFiles::over(folder, mask.ok());
        files.failure = mask.err();
        Ok(files)
    }
}

impl<F: Folder + Drop> BlockFiles<F> {
    /// The block files of the folder, which have that mask; none where it can't be had.
    pub fn over(folder: F, mask: Option<Mask>) -> BlockFiles<F>
        ensures { result ≡ record { folder = folder; mask = mask; made = 0; faults = 0 } }
    {
        BlockFiles {
            folder,
            mask,
            made: GhostCount::new(),
            faults: 0,
            failure: None,
        }
    }

    /// The folder.
    pub fn folder(&self) -> &F
        ensures { result.now ≡ self.now.folder }
    {
        &self.folder
    }

    /// The last call that failed; where the mask can't be had, why.
    pub fn failure(&self) -> Option<BlockFailure> {
        self.failure
    }

    // One call more.
    fn count_call(&mut self)
        ensures { self.new ≡ record self.old { made = self.old.made + 1 } }
    {
        self.made.tick();
    }

    // A failure, which is counted and kept.
    fn fault(&mut self, part: BlockPart, error: io::Error) -> ArchiveFailed
        ensures counted { RoseBy self.old.faults self.new.faults 1 }
        ensures folder { self.new.folder ≡ self.old.folder }
        ensures mask { self.new.mask ≡ self.old.mask }
        ensures made { self.new.made ≡ self.old.made }
    {
        self.failure = kept(self.mask, self.failure, BlockFailure { part, error });
        self.faults = self.faults.saturating_add(1);
        ArchiveFailed
    }

    // The mask; a failure where it can't be had.
    fn mask(&self) -> io::Result<Mask>
        ensures { IfOk result (λ mask. self.now.mask ≡ Some mask) }
    {
        match self.mask {
            Some(mask) => Ok(mask),
            None => Err(io::Error::from(ErrorKind::InvalidData)),
        }
    }

    // The number of the highest file plus 1, or 0.
    fn count(&mut self) -> io::Result<u32>
        ensures few { IfOk result (λ n. n ≤ MOST_FILES) }
        ensures number { F.tells → IfOk result (λ n. n ≡ F.file_count self.new.folder) }
        ensures grows { F.tells → AllGrow (F.bytes self.old.folder) (F.bytes self.new.folder) }
        ensures mask { self.new.mask ≡ self.old.mask }
        ensures made { self.new.made ≡ self.old.made }
        ensures faults { self.new.faults ≡ self.old.faults }
    {
        let _mask = self.mask()?;
        self.folder.count()
    }

    // A file's size.
    fn size_of(&mut self, file: u32) -> io::Result<u64>
        ensures size { F.tells → IfOk result (λ n. n ≡ length (F.bytes self.new.folder file)) }
        ensures grows { F.tells → AllGrow (F.bytes self.old.folder) (F.bytes self.new.folder) }
        ensures mask { self.new.mask ≡ self.old.mask }
        ensures made { self.new.made ≡ self.old.made }
        ensures faults { self.new.faults ≡ self.old.faults }
    {
        let _mask = self.mask()?;
        size_of(&mut self.folder, file)
    }

    // What a file has from the place on, without the mask.
    fn read_from(&mut self, file: u32, at: u64, buf: &mut [u8]) -> io::Result<usize>
        ensures within { IfOk result (λ n. n ≤ length buf.old) }
        ensures filled { F.tells → IfOk result (λ n.
            take n buf.new ≡ take n (drop at (read_with self.new.mask (F.bytes self.new.folder file)))) }
        ensures count { F.tells → IfOk result (λ n.
            n ≡ min (length buf.old) (length (F.bytes self.new.folder file) - at)) }
        ensures grows { F.tells → AllGrow (F.bytes self.old.folder) (F.bytes self.new.folder) }
        ensures mask { self.new.mask ≡ self.old.mask }
        ensures made { self.new.made ≡ self.old.made }
        ensures faults { self.new.faults ≡ self.old.faults }
    {
        let mask = self.mask()?;
        read_without(&mut self.folder, mask, file, at, buf)
    }
}

impl<F: Folder + Drop> Archive for BlockFiles<F> {
    ghost use Rattle.std.proofs.Common.{ap, ◌++◌};
    ghost use Rattle.el_net.specs.Devices.{read_with};

    ghost tells = { F.tells };

    ghost bytes = { λ files n. read_with files.mask (F.bytes files.folder n) };

    ghost padding = { λ files n. [] };

    ghost file_count = { λ files. F.file_count files.folder };

    ghost none_after = { λ files n told after.
        ap (λ bytes. read_with files.mask bytes ++ []) (F.none_after files.folder n told after) };

    ghost gave = { λ file at bytes. Unit {0} };

    ghost calls = { λ files. files.made };

    ghost faults = { λ files. files.faults };

    fn files(&mut self) -> Result<u32, ArchiveFailed> {
        self.count_call();
        match self.count() {
            Ok(n) => Ok(n),
            Err(error) => Err(self.fault(BlockPart::Folder, error)),
        }
    }

    fn size(&mut self, file: u32) -> Result<u64, ArchiveFailed> {
        self.count_call();
        let found = self.size_of(file);
        match found {
            Ok(n) if n < SIZE_LIMIT => Ok(n),
            _ => Err(self.fault(BlockPart::File(file), why_no_size(found))),
        }
    }

    fn read(&mut self, file: u32, at: u64, buf: &mut [u8]) -> Result<usize, ArchiveFailed> {
        self.count_call();
        match self.read_from(file, at, buf) {
            Ok(n) => Ok(n),
            Err(error) => Err(self.fault(BlockPart::File(file), error)),
        }
    }
}
