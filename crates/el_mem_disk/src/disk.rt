// A disk in memory.
ghost use Rattle.std.specs.Prelude.{◌≡◌, ◌≢◌, ◌⊎◌, ◌<◌, ◌≤◌, ◌+◌, ◌-◌, ℕ, [], ◌∷◌, length, take, drop, min, true, false, is_err, IfOk, OnOk, OnErr, IsErr, IsTrue};
ghost use Rattle.el_outside.specs.Counts.{HasCause, risen};
ghost use Rattle.el_outside.specs.Disk.{Image, over, Torn, Cut, OnFile, Follows, NothingNew, OnDisk};
ghost use Rattle.el_outside.specs.Images.{at_file};
ghost use Rattle.el_outside.specs.Moments.{LeftNow, Passes};
ghost use Rattle.el_outside.specs.declared.archive.TheConstants.{SIZE_LIMIT};
ghost use Rattle.el_mem_disk.specs.DiskFiles.{file_numbered, never_written, IsSound, file_written, file_cut, file_synced, crashed};
ghost use Rattle.el_mem_disk.specs.Failing.{is_failing, residue_of};

use crate::disk_file::DiskFile;
use crate::disk_files::{bytes_of, crash, cut_file, sync_file, write_file};
use crate::disk_past::{DiskPast, then};
use crate::failing::{FailingCalls, fails, front};
use el_base::OutOfMemory;
use el_fakes::fill;
use el_outside::{Disk, DiskFailed, SIZE_LIMIT};
use std::alloc::Global;

/// A disk in memory, which tells its files and what a crash may leave of them. For each file it keeps the
/// bytes as a read gives them and, of the time since the file's last sync, the synced bytes, the ranges that
/// were written, and the least and the greatest size; of the moments before, contracts alone know. The chosen
/// calls fail, and so does each that finds no memory or would make a file of 2^62 bytes or more. Calls of all
/// kinds are counted together, from 1 on, up to 2^64 - 1. Of a call that finds no memory nothing is done,
/// also where it is one of the chosen ones; these calls are counted too (`starved`).
#[derive(Drop)]
pub struct MemDisk {
    alloc: Global,
    files: Vec<DiskFile>,
    past: DiskPast,
    failing: FailingCalls,
    calls: u64,
    faults: u64,
    starved: u64,
    ghost sound: { (f : ℕ) → IsSound (file_numbered files.items f) },
}

impl MemDisk {
    ghost use Rattle.el_mem_disk.specs.Disks.{disk_state, ticked, with_file, failed, starving};

    /// A disk whose files were never written, and the calls that fail. Takes no memory.
    pub fn new(alloc: Global, failing: FailingCalls) -> MemDisk
        ensures { disk_state result ≡ record {
          files = λ f. never_written;
          past = [];
          failing = failing;
          calls = 0;
          faults = 0;
          starved = 0;
        } }
    {
        MemDisk {
            alloc,
            files: Vec::new(alloc),
            past: DiskPast::Nothing,
            failing,
            calls: 0,
            faults: 0,
            starved: 0,
        }
    }

    /// The disk of a life that starts after a crash now, and the calls of it that fail. It reads as the image
    /// that the numbers choose among those that the crash may leave, and what was unsynced still is. Each
    /// image is chosen by some numbers: for each file in turn one for its size, and one for each place up to
    /// its greatest size, whose byte it is where the crash may leave any. Fails only where memory runs out.
    pub fn crashed(&self, numbers: &[u64], failing: FailingCalls) -> Result<MemDisk, OutOfMemory>
        ensures { IfOk result (λ disk. disk_state disk ≡ record {
          files = crashed (disk_state self.now).files numbers.now;
          past = [];
          failing = failing;
          calls = 0;
          faults = 0;
          starved = 0;
        }) }
    {
        let files = crash(self.alloc, self.files.as_slice(), numbers)?;
        Ok(MemDisk {
            alloc: self.alloc,
            files,
            past: DiskPast::Nothing,
            failing,
            calls: 0,
            faults: 0,
            starved: 0,
        })
    }

    /// How many calls were made, up to 2^64 - 1.
    pub fn calls(&self) -> u64
        ensures { result ≡ (disk_state self.now).calls }
    {
        self.calls
    }

    /// How many calls failed, up to 2^64 - 1.
    pub fn faults(&self) -> u64
        ensures { result ≡ (disk_state self.now).faults }
    {
        self.faults
    }

    /// How many of the calls that failed found no memory in the disk itself, up to 2^64 - 1. Where this is 0,
    /// each call that was chosen to fail left what was chosen.
    pub fn starved(&self) -> u64
        ensures { result ≡ (disk_state self.now).starved }
    {
        self.starved
    }

    /// The bytes of a file, as a read gives them. It is no call of the disk.
    pub fn bytes(&self, file: u32) -> &[u8]
        ensures { result.now ≡ ((disk_state self.now).files file).bytes }
    {
        bytes_of(self.files.as_slice(), file)
    }

    // Counts a call, and says whether it fails.
    fn tick(&mut self) -> bool
        ensures same { disk_state self.new ≡ ticked (disk_state self.old) }
        ensures fails { result ≡ is_failing (disk_state self.old).failing (disk_state self.new).calls }
    {
        self.past = then(&self.past, &self.files);
        self.calls = self.calls.saturating_add(1);
        fails(&self.failing, self.calls)
    }

    // A call that fails and changes nothing.
    pub(crate) fn refuse(&mut self) -> DiskFailed
        ensures { disk_state self.new ≡ failed (ticked (disk_state self.old)) }
    {
        let _ = self.tick();
        self.fault()
    }

    // A failure, which is counted.
    fn fault(&mut self) -> DiskFailed
        ensures { disk_state self.new ≡ failed (disk_state self.old) }
    {
        self.faults = self.faults.saturating_add(1);
        DiskFailed
    }

    // A failure for want of memory, which is counted.
    fn starve(&mut self) -> DiskFailed
        ensures { disk_state self.new ≡ starving (disk_state self.old) }
    {
        self.starved = self.starved.saturating_add(1);
        self.fault()
    }

    // A write of which this front is seen.
    fn write(&mut self, file: u32, at: u64, n: usize, front: &[u8]) -> Result<(), OutOfMemory>
        requires place { at ≤ length ((disk_state self.old).files file).bytes }
        requires end { at + n < SIZE_LIMIT }
        requires front { length front.now ≤ n }
        ensures ok { OnOk result (disk_state self.new ≡ with_file (disk_state self.old) file
            (file_written at n front.now ((disk_state self.old).files file))) }
        ensures err { OnErr result (disk_state self.new ≡ disk_state self.old) }
    {
        write_file(self.alloc, &mut self.files, file, at, n, front)?;
        Ok(())
    }

    // A cut, which is seen or isn't.
    fn shorten(&mut self, file: u32, len: u64, is_seen: bool) -> Result<(), OutOfMemory>
        requires { len ≤ length ((disk_state self.old).files file).bytes }
        ensures ok { OnOk result (disk_state self.new
            ≡ with_file (disk_state self.old) file
            (file_cut len is_seen ((disk_state self.old).files file))) }
        ensures err { OnErr result (disk_state self.new ≡ disk_state self.old) }
    {
        cut_file(self.alloc, &mut self.files, file, len, is_seen)?;
        Ok(())
    }

    // A sync.
    fn settle(&mut self, file: u32) -> Result<(), OutOfMemory>
        ensures ok { OnOk result (disk_state self.new
            ≡ with_file (disk_state self.old) file (file_synced ((disk_state self.old).files file))) }
        ensures err { OnErr result (disk_state self.new ≡ disk_state self.old) }
    {
        sync_file(self.alloc, &mut self.files, file)?;
        Ok(())
    }
}

impl Disk for MemDisk {
    ghost use Rattle.el_mem_disk.specs.Disks.{disk_state, seen_on, moment_of, left_on};
    ghost use Rattle.el_mem_disk.specs.Disks.{ticked, with_file, failed, starving};
    ghost use Rattle.el_mem_disk.specs.within.DiskRules.{left_earlier, reads_as_an_image, is_short};

    ghost tells = { Unit {0} };

    ghost seen = { seen_on };

    ghost moment = { moment_of };

    ghost left_since = { left_on };

    ghost calls = { moment_of };

    ghost faults = { λ disk. disk.faults };

    ghost earlier = { λ disk t u c told le left. left_earlier disk t u c le left };

    ghost reads_an_image = { λ disk told. reads_as_an_image disk disk.sound };

    ghost small = { λ disk f told. is_short disk f disk.sound };

    fn size(&mut self, file: u32) -> Result<u64, DiskFailed>
        ensures size { IfOk result (λ n. n ≡ length (seen_on self.old file)) }
        ensures small { IfOk result (λ n. n < SIZE_LIMIT) }
        ensures seen { seen_on self.new ≡ seen_on self.old }
        ensures crash { NothingNew (LeftNow moment_of left_on self.old) (LeftNow moment_of left_on self.new) }
        ensures time { Passes moment_of left_on self.old self.new }
        ensures called { moment_of self.new ≡ moment_of self.old + 1 }
        ensures cause { HasCause (disk_state self.old).faults (disk_state self.new).faults result }
        ensures done { OnOk result (disk_state self.new ≡ ticked (disk_state self.old)) }
        ensures not_done { OnErr result (disk_state self.new ≡ failed (ticked (disk_state self.old))) }
        ensures fails { is_err result ≡ is_failing (disk_state self.old).failing (disk_state self.new).calls }
    {
        if self.tick() {
            return Err(self.fault());
        }
        Ok(self.bytes(file).len() as u64)
    }

    fn read(&mut self, file: u32, at: u64, buf: &mut [u8]) -> Result<usize, DiskFailed>
        ensures within { IfOk result (λ n. n ≤ length buf.old) }
        ensures count { IfOk result (λ n. n ≡ min (length buf.old) (length (seen_on self.old file) - at)) }
        ensures filled { IfOk result (λ n. take n buf.new ≡ take n (drop at (seen_on self.old file))) }
        ensures seen { seen_on self.new ≡ seen_on self.old }
        ensures crash { NothingNew (LeftNow moment_of left_on self.old) (LeftNow moment_of left_on self.new) }
        ensures time { Passes moment_of left_on self.old self.new }
        ensures called { moment_of self.new ≡ moment_of self.old + 1 }
        ensures cause { HasCause (disk_state self.old).faults (disk_state self.new).faults result }
        ensures done { OnOk result (disk_state self.new ≡ ticked (disk_state self.old)) }
        ensures not_done { OnErr result (disk_state self.new ≡ failed (ticked (disk_state self.old))) }
        ensures fails { is_err result ≡ is_failing (disk_state self.old).failing (disk_state self.new).calls }
    {
        let is_refused = self.tick();
        if is_refused {
            return Err(self.fault());
        }
        Ok(fill(self.bytes(file), at, buf))
    }

    fn write_at(&mut self, file: u32, at: u64, bytes: &[u8]) -> Result<(), DiskFailed>
        requires { at ≤ length (seen_on self.old file) }
        ensures written { OnOk result (seen_on self.new file ≡ over (seen_on self.old file) at bytes.now) }
        ensures others { (f : ℕ) → f ≢ file → seen_on self.new f ≡ seen_on self.old f }
        ensures crash { Follows (OnFile file (Torn at (length bytes.now)))
            (LeftNow moment_of left_on self.old) (LeftNow moment_of left_on self.new) }
        ensures too_long { SIZE_LIMIT ≤ at + length bytes.now → IsErr result }
        ensures too_long_seen { SIZE_LIMIT ≤ at + length bytes.now → seen_on self.new ≡ seen_on self.old }
        ensures too_long_crash { SIZE_LIMIT ≤ at + length bytes.now
            → NothingNew (LeftNow moment_of left_on self.old) (LeftNow moment_of left_on self.new) }
        ensures time { Passes moment_of left_on self.old self.new }
        ensures called { moment_of self.new ≡ moment_of self.old + 1 }
        ensures cause { HasCause (disk_state self.old).faults (disk_state self.new).faults result }
        ensures done { OnOk result (disk_state self.new ≡ with_file (ticked (disk_state self.old)) file
            (file_written at (length bytes.now) bytes.now ((disk_state self.old).files file))) }
        ensures too_long_done { SIZE_LIMIT ≤ at + length bytes.now
            → disk_state self.new ≡ failed (ticked (disk_state self.old)) }
        // The disk found no memory, and nothing of it was done; or it was to fail, and this is left.
        ensures not_done { at + length bytes.now < SIZE_LIMIT
            → OnErr result ((disk_state self.new ≡ starving (ticked (disk_state self.old)))
            ⊎ ((is_failing (disk_state self.old).failing (disk_state self.new).calls ≡ true)
            × (disk_state self.new ≡ failed (with_file (ticked (disk_state self.old)) file
            (file_written at (length bytes.now)
            (take (residue_of (disk_state self.old).failing.residue (length bytes.now)) bytes.now)
            ((disk_state self.old).files file)))))) }
        ensures fails { is_failing (disk_state self.old).failing (disk_state self.new).calls ≡ true
            → IsErr result }
    {
        let fails = self.tick();
        let room = SIZE_LIMIT.saturating_sub(at);
        if bytes.len() as u64 >= room {
            return Err(self.fault());
        }
        let seen = front(fails, self.failing.residue, bytes);
        match self.write(file, at, bytes.len(), seen) {
            Ok(()) if !fails => Ok(()),
            Ok(()) => Err(self.fault()),
            Err(OutOfMemory) => Err(self.starve()),
        }
    }

    fn cut(&mut self, file: u32, len: u64) -> Result<(), DiskFailed>
        requires { len ≤ length (seen_on self.old file) }
        ensures cut { OnOk result (seen_on self.new file ≡ take len (seen_on self.old file)) }
        ensures others { (f : ℕ) → f ≢ file → seen_on self.new f ≡ seen_on self.old f }
        ensures crash { Follows (OnFile file (Cut len))
            (LeftNow moment_of left_on self.old) (LeftNow moment_of left_on self.new) }
        ensures time { Passes moment_of left_on self.old self.new }
        ensures called { moment_of self.new ≡ moment_of self.old + 1 }
        ensures cause { HasCause (disk_state self.old).faults (disk_state self.new).faults result }
        ensures done { OnOk result (disk_state self.new ≡ with_file (ticked (disk_state self.old)) file
            (file_cut len true ((disk_state self.old).files file))) }
        // The disk found no memory, and nothing of it was done; or it was to fail, and then it is known to
        // the disk and isn't seen.
        ensures not_done { OnErr result ((disk_state self.new ≡ starving (ticked (disk_state self.old)))
            ⊎ ((is_failing (disk_state self.old).failing (disk_state self.new).calls ≡ true)
            × (disk_state self.new ≡ failed (with_file (ticked (disk_state self.old)) file
            (file_cut len false ((disk_state self.old).files file)))))) }
        ensures fails { is_failing (disk_state self.old).failing (disk_state self.new).calls ≡ true
            → IsErr result }
    {
        let fails = self.tick();
        match self.shorten(file, len, !fails) {
            Ok(()) if !fails => Ok(()),
            Ok(()) => Err(self.fault()),
            Err(OutOfMemory) => Err(self.starve()),
        }
    }

    fn sync(&mut self, file: u32) -> Result<(), DiskFailed>
        ensures durable { OnOk result (OnDisk file (seen_on self.new) (LeftNow moment_of left_on self.new)) }
        ensures seen { OnOk result (seen_on self.new ≡ seen_on self.old) }
        ensures others { (f : ℕ) → f ≢ file → seen_on self.new f ≡ seen_on self.old f }
        ensures crash { NothingNew (LeftNow moment_of left_on self.old) (LeftNow moment_of left_on self.new) }
        ensures time { Passes moment_of left_on self.old self.new }
        ensures called { moment_of self.new ≡ moment_of self.old + 1 }
        ensures cause { HasCause (disk_state self.old).faults (disk_state self.new).faults result }
        ensures done { OnOk result (disk_state self.new ≡ with_file (ticked (disk_state self.old)) file
            (file_synced ((disk_state self.old).files file))) }
        // The disk found no memory, or it was to fail; either way nothing of it was done.
        ensures not_done { OnErr result ((disk_state self.new ≡ starving (ticked (disk_state self.old)))
            ⊎ ((is_failing (disk_state self.old).failing (disk_state self.new).calls ≡ true)
            × (disk_state self.new ≡ failed (ticked (disk_state self.old))))) }
        ensures fails { is_failing (disk_state self.old).failing (disk_state self.new).calls ≡ true
            → IsErr result }
    {
        if self.tick() {
            return Err(self.fault());
        }
        match self.settle(file) {
            Ok(()) => Ok(()),
            Err(OutOfMemory) => Err(self.starve()),
        }
    }
}
