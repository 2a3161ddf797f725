// One file of a disk in memory.
ghost use Rattle.std.specs.Prelude.{◌≡◌, ◌≤◌, ◌+◌, ◌<◌, ◌^◌, length, take, IfOk, OnOk, OnErr};
ghost use Rattle.el_outside.specs.Disk.{over};
ghost use Rattle.el_outside.specs.declared.archive.TheConstants.{SIZE_LIMIT};
ghost use Rattle.el_outside.specs.Images.{is_written, synced};
ghost use Rattle.el_mem_disk.specs.DiskFiles.{never_written, file_written, file_cut, file_synced, IsSound, chosen_size, chosen_byte, chosen};

use el_base::{Bytes, OutOfMemory};
use std::alloc::Global;
use std::marker::Model;

// The bytes as a read gives them, and what is known of the disk: the bytes at the last sync, the ranges that
// were written since, each with its end, and the least and the greatest size since.
#[derive(Drop)]
pub(crate) struct DiskFile {
    bytes: Bytes,
    synced: Bytes,
    ranges: Vec<(u64, u64)>,
    least: u64,
    greatest: u64,
}

impl Model for DiskFile {
    ghost use Rattle.el_mem_disk.specs.DiskFiles.{FileState};

    ghost Value = { FileState };

    ghost view = { λ a. record {
      bytes = a.bytes;
      kept = record { bytes = a.synced; ranges = a.ranges.items; least = a.least; greatest = a.greatest };
    } };
}

// The bytes with others written over them.
fn written_over(alloc: Global, old: &[u8], at: usize, bytes: &[u8]) -> Result<Bytes, OutOfMemory>
    requires { at ≤ length old.now }
    ensures { IfOk result (λ all. all ≡ over old.now at bytes.now) }
{
    let mut all = Bytes::from_slice(alloc, &old[..at])?;
    all.extend(bytes)?;
    if bytes.len() < old.len() - at {
        all.extend(&old[at + bytes.len()..])?;
    }
    Ok(all)
}

// Whether one of the ranges has the place.
fn is_in_range(ranges: &[(u64, u64)], i: u64) -> bool
    ensures { result ≡ is_written ranges.now i }
{
    ranges.iter().any(|range| range.0 <= i && i < range.1)
}

impl DiskFile {
    // A file that was never written.
    pub(crate) fn new(alloc: Global) -> DiskFile
        ensures { result ≡ never_written }
    {
        DiskFile {
            bytes: Bytes::new(alloc),
            synced: Bytes::new(alloc),
            ranges: Vec::new(alloc),
            least: 0,
            greatest: 0,
        }
    }

    // The bytes as a read gives them.
    pub(crate) fn bytes(&self) -> &[u8]
        ensures { result.now ≡ self.now.bytes }
    {
        self.bytes.as_slice()
    }

    // A write of n bytes of which this front is seen.
    pub(crate) fn write(
        &mut self,
        alloc: Global,
        at: u64,
        n: usize,
        front: &[u8],
    ) -> Result<(), OutOfMemory>
        requires place { at ≤ length self.old.bytes }
        requires end { at + n < SIZE_LIMIT }
        requires front { length front.now ≤ n }
        ensures ok { OnOk result (self.new ≡ file_written at n front.now self.old) }
        ensures err { OnErr result (self.new ≡ self.old) }
    {
        let bytes = written_over(alloc, self.bytes.as_slice(), at as usize, front)?;
        let end = at + n as u64;
        self.ranges.push((at, end))?;
        self.greatest = self.greatest.max(end);
        self.bytes = bytes;
        Ok(())
    }

    // A cut, which is seen or isn't.
    pub(crate) fn cut(&mut self, alloc: Global, len: u64, is_seen: bool) -> Result<(), OutOfMemory>
        requires { len ≤ length self.old.bytes }
        ensures ok { OnOk result (self.new ≡ file_cut len is_seen self.old) }
        ensures err { OnErr result (self.new ≡ self.old) }
    {
        if is_seen {
            self.bytes = Bytes::from_slice(alloc, &self.bytes.as_slice()[..len as usize])?;
        }
        self.least = self.least.min(len);
        Ok(())
    }

    // A sync.
    pub(crate) fn sync(&mut self, alloc: Global) -> Result<(), OutOfMemory>
        ensures ok { OnOk result (self.new ≡ file_synced self.old) }
        ensures err { OnErr result (self.new ≡ self.old) }
    {
        self.synced = Bytes::from_slice(alloc, self.bytes.as_slice())?;
        self.ranges.clear();
        self.least = self.bytes.len() as u64;
        self.greatest = self.least;
        Ok(())
    }

    // The greatest size that an image has.
    pub(crate) fn greatest(&self) -> u64
        ensures { result ≡ self.now.kept.greatest }
    {
        self.greatest
    }

    // The size that the numbers choose.
    fn chosen_size(&self, numbers: &[u64]) -> u64
        requires { IsSound self.now }
        ensures exact { result ≡ chosen_size self.now.kept numbers.now }
        ensures within { result ≤ self.now.kept.greatest }
    {
        let choice = numbers.first().copied().unwrap_or(0);
        self.least + choice % (self.greatest - self.least + 1)
    }

    // The byte that the numbers choose.
    fn chosen_byte(&self, numbers: &[u64], i: usize) -> u8
        requires { i < SIZE_LIMIT }
        ensures { result ≡ chosen_byte self.now.kept numbers.now i }
    {
        if i < self.synced.len() && !is_in_range(self.ranges.as_slice(), i as u64) {
            return self.synced.as_slice()[i];
        }
        let number = numbers.get(1 + i).copied().unwrap_or(0);
        (number % 256) as u8
    }

    // The image that the numbers choose.
    fn chosen(&self, alloc: Global, numbers: &[u64]) -> Result<Bytes, OutOfMemory>
        requires { IsSound self.now }
        ensures { IfOk result (λ bytes. bytes ≡ chosen self.now.kept numbers.now) }
    {
        let mut bytes = Vec::new(alloc);
        for i in 0..self.chosen_size(numbers) as usize {
            bytes.push(self.chosen_byte(numbers, i))?;
        }
        Ok(Bytes::from_vec(bytes))
    }

    // The file in the life after a crash.
    pub(crate) fn crashed(&self, alloc: Global, numbers: &[u64]) -> Result<DiskFile, OutOfMemory>
        requires { IsSound self.now }
        ensures { IfOk result (λ file. file ≡ record {
          bytes = chosen self.now.kept numbers.now;
          kept = self.now.kept;
        }) }
    {
        let bytes = self.chosen(alloc, numbers)?;
        let synced = Bytes::from_slice(alloc, self.synced.as_slice())?;
        let ranges = Vec::from_slice(alloc, self.ranges.as_slice())?;
        Ok(DiskFile {
            bytes,
            synced,
            ranges,
            least: self.least,
            greatest: self.greatest,
        })
    }
}
