// A real folder of block files.
ghost use Rattle.std.specs.Prelude.{◌≡◌, ◌+◌, ◌≤◌, ◌++◌, length, IfOk, string_bytes, string_len, string_capacity};
ghost use Rattle.el_net.specs.Paths.{five_digits, file_path};

use crate::block_failure::{BlockFailure, BlockPart};
use crate::file_names::file_number;
use crate::folder::Folder;
use crate::masks::{Mask, NO_MASK, mask_of};
use crate::paths::{put_digit, put_text};
use crate::reading::{found, read_at};
use el_base::OutOfMemory;
use el_outside::MOST_FILES;
use std::alloc::{AllocGlobal, Global};
use std::fs::{DirEntry, File, OpenOptions, metadata, read_dir};
use std::io;
use std::io::ErrorKind;
use std::marker::Model;
use std::os::unix::fs::FileExt;
use std::rt::Files;

/// A folder of block files that Bitcoin Core wrote. What real files hold is beyond any contract: contracts
/// see the folder's path.
#[derive(Drop)]
pub struct BlockFolder<R: Files<File = File>> {
    rt: R,
    folder: String,
    // The path of the file that was asked for last, in room that fits any file's.
    path: String,
}

impl<R: Files<File = File>> Model for BlockFolder<R> {
    ghost use Rattle.std.specs.Prelude.{ℕ, List, ◌+◌, ◌≤◌, string_bytes, string_len, string_capacity};

    ghost Value = { List ℕ };

    ghost view = { λ folder. string_bytes folder.folder };

    ghost invariant = { λ folder. string_len folder.folder + 13 ≤ string_capacity folder.path };
}

// Puts five digits after the path, in room that is there.
fn put_digits(path: &mut String, file: u32)
    requires { string_len path.old + 5 ≤ string_capacity path.old }
    ensures digits { string_bytes path.new ≡ string_bytes path.old ++ five_digits file }
    ensures len { string_len path.new ≡ string_len path.old + 5 }
    ensures room { string_capacity path.old ≤ string_capacity path.new }
{
    put_digit(path, file / 10_000);
    put_digit(path, file / 1_000);
    put_digit(path, file / 100);
    put_digit(path, file / 10);
    put_digit(path, file);
}

// Makes the path that of the file in the folder. It takes no memory, since the room is there.
fn put_path(path: &mut String, folder: &str, file: u32)
    requires { length folder.now + 13 ≤ string_capacity path.old }
    ensures path { string_bytes path.new ≡ file_path folder.now file }
    ensures room { string_capacity path.old ≤ string_capacity path.new }
{
    path.clear();
    put_text(path, folder);
    put_text(path, "/");
    put_text(path, "blk");
    put_digits(path, file);
    put_text(path, ".dat");
}

// The number of a block file plus 1, and 0 for any other entry of the folder, as one whose name is no text.
fn count_to<R: Files + Drop>(entry: io::Result<DirEntry<R>>) -> io::Result<u32>
    ensures { IfOk result (λ n. n ≤ MOST_FILES) }
{
    match entry {
        Ok(entry) => Ok(file_number(entry.file_name()).map_or(0, |number| number + 1)),
        Err(e) if e.kind() == ErrorKind::InvalidFilename => Ok(0),
        Err(e) => Err(e),
    }
}

// Options of a file that is only read.
fn reading() -> OpenOptions {
    let mut options = OpenOptions::new();
    options.read(true);
    options
}

impl<R: Files<File = File> + AllocGlobal + Clone + Drop> BlockFolder<R> {
    /// The folder of that path, and room for the paths of its files. It is looked for at each call.
    pub fn new(rt: R, alloc: Global, folder: &str) -> Result<BlockFolder<R>, OutOfMemory>
        ensures { IfOk result (λ it. it ≡ folder.now) }
    {
        let path = String::with_capacity(alloc, folder.len() + 13)?;
        let folder = String::from_str(alloc, folder)?;
        Ok(BlockFolder { rt, folder, path })
    }

    /// The folder's path.
    pub fn folder(&self) -> &str
        ensures { result.now ≡ self.now }
    {
        self.folder.as_str()
    }

    // A failure where the folder isn't there.
    fn find(&self) -> io::Result<()> {
        if metadata(&self.rt, self.folder.as_str())?.is_dir() {
            Ok(())
        } else {
            Err(io::Error::from(ErrorKind::NotADirectory))
        }
    }

    /// The mask of its files, by `xor.dat`: one that changes no byte where that isn't there. A failure where
    /// it hasn't eight bytes, or can't be read, or the folder isn't there.
    pub fn mask(&self, alloc: Global) -> Result<Result<Mask, BlockFailure>, OutOfMemory> {
        let mut path = String::with_capacity(alloc, self.folder.len() + 8)?;
        put_text(&mut path, self.folder.as_str());
        put_text(&mut path, "/xor.dat");
        Ok(self.find_mask(path.as_str()))
    }

    fn find_mask(&self, path: &str) -> Result<Mask, BlockFailure> {
        if let Err(error) = self.find() {
            return Err(BlockFailure {
                part: BlockPart::Folder,
                error,
            });
        }
        match self.read_mask(path) {
            Ok(mask) => Ok(mask),
            Err(error) => Err(BlockFailure {
                part: BlockPart::Mask,
                error,
            }),
        }
    }

    fn read_mask(&self, path: &str) -> io::Result<Mask> {
        let Some(file) = found(reading().open(&self.rt, path))? else {
            return Ok(NO_MASK);
        };
        let mut bytes = [0u8; 9];
        let n = read_at(&file, 0, &mut bytes)?;
        match mask_of(&bytes[..n]) {
            Some(mask) => Ok(mask),
            None => Err(io::Error::new(ErrorKind::InvalidData, "it hasn't eight bytes")),
        }
    }
}

impl<R: Files<File = File> + AllocGlobal + Clone + Drop> Folder for BlockFolder<R> {
    ghost use Rattle.std.specs.Prelude.{[]};

    type File = File;

    ghost tells = { ⊥ };

    ghost bytes = { λ folder n. [] };

    ghost file_count = { λ folder. 0 };

    ghost none_after = { λ folder n told after. absurd told };

    ghost is_file = { λ it n. Unit {0} };

    fn look(&mut self) -> io::Result<()> {
        self.find()
    }

    fn count(&mut self) -> io::Result<u32> {
        let mut count = 0;
        for entry in read_dir(&self.rt, self.folder.as_str())? {
            count = count.max(count_to(entry)?);
        }
        Ok(count)
    }

    fn open(&mut self, file: u32) -> io::Result<Option<File>> {
        if file >= MOST_FILES {
            return Ok(None);
        }
        put_path(&mut self.path, self.folder.as_str(), file);
        found(reading().open(&self.rt, self.path.as_str()))
    }

    fn len(&mut self, file: &File) -> io::Result<u64> {
        Ok(file.metadata()?.len())
    }

    fn read_at(&mut self, file: &File, at: u64, buf: &mut [u8]) -> io::Result<usize> {
        file.read_at(buf, at)
    }
}
