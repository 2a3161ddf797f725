// Block files in memory whose calls never fail.
ghost use Rattle.std.specs.Prelude.{◌≡◌, IfSome, is_some, true, [], length};
ghost use Rattle.el_fakes.specs.Archives.{are_fitting, file_bytes};

use crate::fronts::{bytes_of, fill, fits};
use el_base::{Bytes, GhostCount};
use el_outside::{Archive, ArchiveFailed};
use std::marker::Model;

/// Block files in memory, which tell their bytes. No call fails. Contracts see the list of the files' bytes,
/// file 0 first, and how many calls were made.
#[derive(Drop)]
pub struct SteadyArchive {
    files: Vec<Bytes>,
    made: GhostCount,
}

impl Model for SteadyArchive {
    ghost use Rattle.std.specs.Prelude.{◌≡◌, true};
    ghost use Rattle.el_fakes.specs.Archives.{SteadyFiles, are_fitting};

    ghost Value = { SteadyFiles };

    ghost view = { λ a. record { files = a.files.items; made = a.made } };

    ghost invariant = { λ a. are_fitting a.files.items ≡ true };
}

impl SteadyArchive {
    /// An archive of these files, file 0 first. None where there are more than 100,000, or one has 2^62 bytes
    /// or more. Takes no memory.
    pub fn new(files: Vec<Bytes>) -> Option<SteadyArchive>
        ensures same { IfSome result (λ archive. archive ≡ record { files = files.items; made = 0 }) }
        ensures fits { is_some result ≡ are_fitting files.items }
    {
        if !fits(files.as_slice()) {
            return None;
        }
        Some(SteadyArchive {
            files,
            made: GhostCount::new(),
        })
    }
}

impl Archive for SteadyArchive {
    ghost use Rattle.el_fakes.specs.within.Laws.{none_after_none};

    ghost tells = { Unit {0} };

    ghost bytes = { λ archive. file_bytes archive.files };

    ghost padding = { λ archive file. [] };

    ghost file_count = { λ archive. length archive.files };

    ghost none_after = { λ archive file told after. none_after_none archive.files file after };

    ghost gave = { λ file at bytes. Unit {0} };

    ghost calls = { λ archive. archive.made };

    ghost faults = { λ archive. 0 };

    fn files(&mut self) -> Result<u32, ArchiveFailed> {
        self.made.tick();
        Ok(self.files.len() as u32)
    }

    fn size(&mut self, file: u32) -> Result<u64, ArchiveFailed> {
        self.made.tick();
        Ok(bytes_of(self.files.as_slice(), file).len() as u64)
    }

    fn read(&mut self, file: u32, at: u64, buf: &mut [u8]) -> Result<usize, ArchiveFailed> {
        self.made.tick();
        Ok(fill(bytes_of(self.files.as_slice(), file), at, buf))
    }
}
