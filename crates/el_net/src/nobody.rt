// Devices that have nothing, for words that ask for none.
ghost use Rattle.std.specs.Prelude.{◌≡◌, [], refl};

use el_base::GhostCount;
use el_outside::{
    Archive, ArchiveFailed, Arrival, Disk, DiskFailed, Link, LinkFailed, Peer, Relay, RelayFailed,
    SendFault, Verdict, Why,
};

/// Block files of which there are none.
#[derive(Drop)]
pub struct NoFiles {
    made: GhostCount,
}

impl NoFiles {
    /// No call was made yet.
    pub fn new() -> NoFiles {
        NoFiles {
            made: GhostCount::new(),
        }
    }
}

impl Archive for NoFiles {
    ghost tells = { Unit {0} };

    ghost bytes = { λ files n. [] };

    ghost padding = { λ files n. [] };

    ghost file_count = { λ files. 0 };

    ghost none_after = { λ files n told after. refl };

    ghost gave = { λ file at bytes. Unit {0} };

    ghost calls = { λ files. files.made };

    ghost faults = { λ files. 0 };

    fn files(&mut self) -> Result<u32, ArchiveFailed> {
        self.made.tick();
        Ok(0)
    }

    fn size(&mut self, _file: u32) -> Result<u64, ArchiveFailed> {
        self.made.tick();
        Ok(0)
    }

    fn read(&mut self, _file: u32, _at: u64, _buf: &mut [u8]) -> Result<usize, ArchiveFailed> {
        self.made.tick();
        Ok(0)
    }
}

/// A link that nobody comes over.
#[derive(Clone, Copy, Debug, Default)]
pub struct NoLink {
    /// How often `next` was called.
    pub calls: u64,
}

impl Link for NoLink {
    ghost tells = { ⊥ };

    ghost trace = { λ link. record { arrivals = []; messages = []; closings = [] } };

    ghost last = { λ link. 0 };

    ghost calls = { λ link. link.calls };

    ghost faults = { λ link. 0 };

    ghost greater_is_new = { λ link p told less. absurd told };

    fn next(&mut self, _buf: &mut [u8]) -> Result<Arrival, LinkFailed> {
        self.calls = self.calls.saturating_add(1);
        Ok(Arrival::Ended)
    }

    fn send(&mut self, _p: Peer, _bytes: &[u8]) -> Result<(), SendFault> {
        Err(SendFault::Memory)
    }

    fn close(&mut self, _p: Peer, _why: Why) {}
}

/// A disk without files, to which nothing can be written.
#[derive(Drop)]
pub struct NoDisk {
    /// How often a write failed, up to 2^64 - 1.
    pub faults: u64,
    made: GhostCount,
}

impl NoDisk {
    /// No call was made yet.
    pub fn new() -> NoDisk
        ensures { result.faults ≡ 0 }
    {
        NoDisk {
            faults: 0,
            made: GhostCount::new(),
        }
    }
}

impl Disk for NoDisk {
    ghost tells = { ⊥ };

    ghost seen = { λ disk file. [] };

    ghost moment = { λ disk. 0 };

    ghost left_since = { λ disk t c. ⊥ };

    ghost calls = { λ disk. disk.made };

    ghost faults = { λ disk. disk.faults };

    ghost earlier = { λ disk t u c told le left. absurd told };

    ghost reads_an_image = { λ disk told. absurd told };

    ghost small = { λ disk f told. absurd told };

    fn size(&mut self, _file: u32) -> Result<u64, DiskFailed> {
        self.made.tick();
        Ok(0)
    }

    fn read(&mut self, _file: u32, _at: u64, _buf: &mut [u8]) -> Result<usize, DiskFailed> {
        self.made.tick();
        Ok(0)
    }

    fn write_at(&mut self, _file: u32, _at: u64, _bytes: &[u8]) -> Result<(), DiskFailed> {
        self.made.tick();
        self.faults = self.faults.saturating_add(1);
        Err(DiskFailed)
    }

    fn cut(&mut self, _file: u32, _len: u64) -> Result<(), DiskFailed> {
        self.made.tick();
        Ok(())
    }

    fn sync(&mut self, _file: u32) -> Result<(), DiskFailed> {
        self.made.tick();
        Ok(())
    }
}

/// A relay that passes nothing on: each of its calls fails.
#[derive(Drop)]
pub struct NoRelay {
    /// How often a call failed, up to 2^64 - 1.
    pub faults: u64,
    made: GhostCount,
}

impl NoRelay {
    /// No call was made yet.
    pub fn new() -> NoRelay
        ensures { result.faults ≡ 0 }
    {
        NoRelay {
            faults: 0,
            made: GhostCount::new(),
        }
    }
}

impl Relay for NoRelay {
    ghost tells = { ⊥ };

    ghost offers = { λ relay. [] };

    ghost calls = { λ relay. relay.made };

    ghost faults = { λ relay. relay.faults };

    fn offer(&mut self, _bytes: &[u8]) -> Result<Verdict, RelayFailed> {
        self.made.tick();
        self.faults = self.faults.saturating_add(1);
        Err(RelayFailed)
    }
}
