// A disk in memory that tells nothing.
ghost use Rattle.std.specs.Prelude.{◌≡◌};

use crate::disk::MemDisk;
use crate::failing::FailingCalls;
use el_base::OutOfMemory;
use el_outside::{Disk, DiskFailed};
use std::alloc::Global;

/// A disk in memory that tells nothing but the count of its faults, as a real one. It does what the `MemDisk`
/// in it does; besides, a write or a cut at a place after the file's end fails, and is counted.
#[derive(Drop)]
pub struct SilentDisk {
    disk: MemDisk,
}

impl SilentDisk {
    ghost use Rattle.el_mem_disk.specs.Disks.{disk_state};
    ghost use Rattle.el_mem_disk.specs.SilentDisks.{inner};

    /// A disk that does what this one does. Takes no memory.
    pub fn new(disk: MemDisk) -> SilentDisk
        ensures { inner result ≡ disk }
    {
        SilentDisk { disk }
    }

    /// The disk in it. Takes no memory.
    pub fn into_disk(self) -> MemDisk
        ensures { result ≡ inner self }
    {
        self.disk
    }
}

impl Disk for SilentDisk {
    ghost use Rattle.std.specs.Prelude.{[]};
    ghost use Rattle.el_mem_disk.specs.Disks.{moment_of};

    ghost tells = { ⊥ };

    ghost seen = { λ disk file. [] };

    ghost moment = { λ disk. 0 };

    ghost left_since = { λ disk t c. ⊥ };

    ghost calls = { λ disk. moment_of disk.disk };

    ghost faults = { λ disk. disk.disk.faults };

    ghost earlier = { λ disk t u c told le left. absurd told };

    ghost reads_an_image = { λ disk told. absurd told };

    ghost small = { λ disk f told. absurd told };

    fn size(&mut self, file: u32) -> Result<u64, DiskFailed> {
        self.disk.size(file)
    }

    fn read(&mut self, file: u32, at: u64, buf: &mut [u8]) -> Result<usize, DiskFailed> {
        self.disk.read(file, at, buf)
    }

    fn write_at(&mut self, file: u32, at: u64, bytes: &[u8]) -> Result<(), DiskFailed> {
        if at > self.disk.bytes(file).len() as u64 {
            return Err(self.disk.refuse());
        }
        self.disk.write_at(file, at, bytes)
    }

    fn cut(&mut self, file: u32, len: u64) -> Result<(), DiskFailed> {
        if len > self.disk.bytes(file).len() as u64 {
            return Err(self.disk.refuse());
        }
        self.disk.cut(file, len)
    }

    fn sync(&mut self, file: u32) -> Result<(), DiskFailed> {
        self.disk.sync(file)
    }
}
