// The files of an archive as a folder.
ghost use Rattle.std.specs.Prelude.{◌≡◌, ℕ, []};

use crate::folder::Folder;
use el_outside::Archive;
use std::io;
use std::io::ErrorKind;

/// The files of any archive as a folder of block files. It tells where the archive does and has no padding.
/// So one in memory makes a folder in memory, and the clauses of `Folder` can be met with content.
#[derive(Drop)]
pub struct ArchiveFolder<A: Archive> {
    /// The archive.
    pub archive: A,
}

fn failed() -> io::Error {
    io::Error::from(ErrorKind::Other)
}

impl<A: Archive + Drop> Folder for ArchiveFolder<A> {
    ghost use Rattle.el_net.specs.Unpadded.{IsUnpadded, none_written};

    type File = u32;

    ghost tells = { A.tells × IsUnpadded ⟦<A as Archive>⟧ };

    ghost bytes = { λ folder. A.bytes folder.archive };

    ghost file_count = { λ folder. A.file_count folder.archive };

    ghost none_after = { λ folder file told after. none_written (A.bytes folder.archive file)
        (A.padding folder.archive file) (A.none_after folder.archive file told.0 after) };

    ghost is_file = { λ it file. it ≡ file };

    fn look(&mut self) -> io::Result<()> {
        Ok(())
    }

    fn count(&mut self) -> io::Result<u32> {
        match self.archive.files() {
            Ok(n) => Ok(n),
            Err(_) => Err(failed()),
        }
    }

    fn open(&mut self, file: u32) -> io::Result<Option<u32>> {
        Ok(Some(file))
    }

    fn len(&mut self, file: &u32) -> io::Result<u64> {
        match self.archive.size(*file) {
            Ok(n) => Ok(n),
            Err(_) => Err(failed()),
        }
    }

    fn read_at(&mut self, file: &u32, at: u64, buf: &mut [u8]) -> io::Result<usize> {
        match self.archive.read(*file, at, buf) {
            Ok(n) => Ok(n),
            Err(_) => Err(failed()),
        }
    }
}
