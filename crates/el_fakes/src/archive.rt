// Block files in memory some of whose calls fail.
ghost use Rattle.std.specs.Prelude.{◌≡◌, ℕ, ◌+◌, ◌-◌, ◌==◌, ◌<◌, ◌≤◌, ◌||◌, ◌++◌, nat_lt, nat_le, [], length, take, drop, min, is_err, IfOk};
ghost use Rattle.std.specs.List.{list_any};
ghost use Rattle.el_outside.specs.Counts.{HasCause, risen};
ghost use Rattle.el_outside.specs.Files.{AllGrow};
ghost use Rattle.el_fakes.specs.Archives.{bytes_now, padding_now, padded_size};

use crate::fronts::{bytes_of, fill_padded, is_listed};
use crate::growth::{Later, Room, size_now, size_with};
use el_base::{Bytes, GhostCount};
use el_outside::{Archive, ArchiveFailed, MOST_FILES, SIZE_LIMIT};
use std::marker::Model;

/// Block files in memory, which tell their bytes. The calls whose numbers are listed fail, and so does one
/// that would answer more than 100,000 files or a size of 2^62 or more; no other does. Calls of all three
/// kinds are counted together, from 1 on, up to 2^64 - 1. A file may grow: of the bytes that it ever has,
/// those that come later are hidden until their call. Room may be made ahead in it, as zeros after its bytes,
/// which those that come later are written over.
#[derive(Drop)]
pub struct MemArchive {
    files: Vec<Bytes>,
    later: Vec<Later>,
    rooms: Vec<Room>,
    failing: Vec<u64>,
    calls: u64,
    made: GhostCount,
    faults: u64,
}

impl Model for MemArchive {
    ghost use Rattle.el_fakes.specs.Archives.{ArchiveState};

    ghost Value = { ArchiveState };

    ghost view = { λ a. record {
      files = a.files.items;
      later = a.later.items;
      rooms = a.rooms.items;
      failing = a.failing.items;
      calls = a.calls;
      made = a.made;
      faults = a.faults;
    } };
}

impl MemArchive {
    /// An archive of these files, file 0 first, which don't grow, and the numbers of the calls that fail.
    /// Takes no memory.
    pub fn new(files: Vec<Bytes>, failing: Vec<u64>) -> MemArchive
        ensures { result ≡ record {
          files = files.items;
          later = [];
          rooms = [];
          failing = failing.items;
          calls = 0;
          made = 0;
          faults = 0;
        } }
    {
        let later = Vec::new(*files.allocator());
        MemArchive::growing(files, later, failing)
    }

    /// An archive of these files, file 0 first, with all bytes that they ever have; which of these come
    /// later; and the numbers of the calls that fail. Takes no memory.
    pub fn growing(files: Vec<Bytes>, later: Vec<Later>, failing: Vec<u64>) -> MemArchive
        ensures { result ≡ record {
          files = files.items;
          later = later.items;
          rooms = [];
          failing = failing.items;
          calls = 0;
          made = 0;
          faults = 0;
        } }
    {
        let rooms = Vec::new(*files.allocator());
        MemArchive::made_ahead(files, later, rooms, failing)
    }

    /// An archive of these files, file 0 first, with all bytes that they ever have; which of these come
    /// later; the room that is made ahead; and the numbers of the calls that fail. Takes no memory.
    pub fn made_ahead(
        files: Vec<Bytes>,
        later: Vec<Later>,
        rooms: Vec<Room>,
        failing: Vec<u64>,
    ) -> MemArchive
        ensures { result ≡ record {
          files = files.items;
          later = later.items;
          rooms = rooms.items;
          failing = failing.items;
          calls = 0;
          made = 0;
          faults = 0;
        } }
    {
        MemArchive {
            files,
            later,
            rooms,
            failing,
            calls: 0,
            made: GhostCount::new(),
            faults: 0,
        }
    }

    /// How many calls were made, up to 2^64 - 1.
    pub fn calls(&self) -> u64
        ensures { result ≡ self.now.calls }
    {
        self.calls
    }

    /// How many calls failed, up to 2^64 - 1.
    pub fn faults(&self) -> u64
        ensures { result ≡ self.now.faults }
    {
        self.faults
    }

    // Counts a call, and says whether it fails.
    fn is_failing(&mut self) -> bool
        ensures counted { self.new ≡ record self.old {
          calls = risen self.old.calls 1;
          made = self.old.made + 1;
        } }
        ensures listed { result ≡ list_any (λ n. self.new.calls == n) self.old.failing }
    {
        self.made.tick();
        self.calls = self.calls.saturating_add(1);
        is_listed(self.failing.as_slice(), self.calls)
    }

    // A failure, which is counted.
    fn fault(&mut self) -> ArchiveFailed
        ensures { self.new ≡ record self.old { faults = risen self.old.faults 1 } }
    {
        self.faults = self.faults.saturating_add(1);
        ArchiveFailed
    }

    // The bytes of a file after the calls so far.
    fn written(&self, file: u32) -> &[u8]
        ensures { result.now ≡ bytes_now self.now file }
    {
        let bytes = bytes_of(self.files.as_slice(), file);
        let size = size_now(self.later.as_slice(), self.calls, file, bytes.len());
        &bytes[..size]
    }

    // The size of a file after the calls so far, with its padding.
    fn padded_size(&self, file: u32) -> u64
        ensures exact { result ≡ padded_size self.now file }
        ensures whole { result ≡ length (bytes_now self.now file ++ padding_now self.now file) }
        ensures within { length (bytes_now self.now file) ≤ result }
    {
        let written = self.written(file).len() as u64;
        if file as usize >= self.files.len() {
            return written;
        }
        size_with(self.rooms.as_slice(), self.calls, file, written)
    }

    // Fills the buffer from the place of a file on, after the calls so far.
    fn fill_from(&self, file: u32, at: u64, buf: &mut [u8]) -> usize
        ensures count { result ≡ min (length buf.old)
            (length (bytes_now self.now file ++ padding_now self.now file) - at) }
        ensures filled { take result buf.new
            ≡ take result (drop at (bytes_now self.now file ++ padding_now self.now file)) }
    {
        fill_padded(self.written(file), self.padded_size(file), at, buf)
    }
}

impl Archive for MemArchive {
    ghost use Rattle.el_fakes.specs.within.Laws.{none_now};

    ghost tells = { Unit {0} };

    ghost bytes = { bytes_now };

    ghost padding = { padding_now };

    ghost file_count = { λ archive. length archive.files };

    ghost none_after = { λ archive file told after. none_now archive file after };

    ghost gave = { λ file at bytes. Unit {0} };

    ghost calls = { λ archive. archive.made };

    ghost faults = { λ archive. archive.faults };

    fn files(&mut self) -> Result<u32, ArchiveFailed>
        ensures few { IfOk result (λ n. n ≤ MOST_FILES) }
        ensures number { IfOk result (λ n. n ≡ length self.new.files) }
        ensures keeps { AllGrow (bytes_now self.old) (bytes_now self.new) }
        ensures called { self.new.made ≡ self.old.made + 1 }
        ensures cause { HasCause self.old.faults self.new.faults result }
        ensures same { self.new ≡ record self.old {
          calls = risen self.old.calls 1;
          made = self.old.made + 1;
          faults = self.new.faults;
        } }
        ensures fails { is_err result
            ≡ (list_any (λ n. self.new.calls == n) self.old.failing
            || nat_lt MOST_FILES (length self.old.files)) }
    {
        if self.is_failing() || self.files.len() > MOST_FILES as usize {
            return Err(self.fault());
        }
        Ok(self.files.len() as u32)
    }

    fn size(&mut self, file: u32) -> Result<u64, ArchiveFailed>
        ensures small { IfOk result (λ n. n < SIZE_LIMIT) }
        ensures size { IfOk result (λ n.
            n ≡ length (bytes_now self.new file ++ padding_now self.new file)) }
        ensures keeps { AllGrow (bytes_now self.old) (bytes_now self.new) }
        ensures called { self.new.made ≡ self.old.made + 1 }
        ensures cause { HasCause self.old.faults self.new.faults result }
        ensures same { self.new ≡ record self.old {
          calls = risen self.old.calls 1;
          made = self.old.made + 1;
          faults = self.new.faults;
        } }
        ensures fails { is_err result ≡ (list_any (λ n. self.new.calls == n) self.old.failing
            || nat_le SIZE_LIMIT (length (bytes_now self.new file ++ padding_now self.new file))) }
    {
        let is_failing = self.is_failing();
        let size = self.padded_size(file);
        if is_failing || size >= SIZE_LIMIT {
            return Err(self.fault());
        }
        Ok(size)
    }

    fn read(&mut self, file: u32, at: u64, buf: &mut [u8]) -> Result<usize, ArchiveFailed>
        ensures within { IfOk result (λ n. n ≤ length buf.old) }
        ensures count { IfOk result (λ n. n ≡ min (length buf.old)
            (length (bytes_now self.new file ++ padding_now self.new file) - at)) }
        ensures filled { IfOk result (λ n. take n buf.new
            ≡ take n (drop at (bytes_now self.new file ++ padding_now self.new file))) }
        ensures keeps { AllGrow (bytes_now self.old) (bytes_now self.new) }
        ensures called { self.new.made ≡ self.old.made + 1 }
        ensures cause { HasCause self.old.faults self.new.faults result }
        ensures same { self.new ≡ record self.old {
          calls = risen self.old.calls 1;
          made = self.old.made + 1;
          faults = self.new.faults;
        } }
        ensures fails { is_err result ≡ list_any (λ n. self.new.calls == n) self.old.failing }
    {
        if self.is_failing() {
            return Err(self.fault());
        }
        Ok(self.fill_from(file, at, buf))
    }
}
