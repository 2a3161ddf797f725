// Bytes that come in pieces, cut into lines.
ghost use Rattle.std.specs.Prelude.{◌≡◌, ℕ, List, [], ◌∷◌, ◌++◌, ◌+◌, ◌-◌, ◌*◌, ◌<◌, ◌≤◌, ◌⊎◌, length, slice_get, IsOk, IfOk, IfSome, IfNone, OnOk, OnErr, MatchOption, Ok, Some, None, true, false, take, drop};
ghost use Rattle.el_lines.specs.Lines.{lines, too_long};
ghost use Rattle.el_lines.specs.LineStates.{WasFed, held_bytes, as_listed, HasNoNewline};
ghost use Rattle.el_lines.specs.within.Places.{StandsFirst};

use crate::bytes::{byte_from, bytes_before, bytes_from, give_back, leave_out};
use crate::limits::IDLE_ROOM;
use el_base::{Bytes, GhostCount, OutOfMemory};
use std::alloc::Global;
use std::marker::Model;

/// What is met in a peer's bytes.
#[derive(Debug, PartialEq, Eq, Drop)]
pub enum LineEvent {
    /// A whole line that isn't above the limit, without the byte 10 that ended it. It may be empty.
    Line(Bytes),
    /// A line of more than `limit` bytes without its byte 10, which may still have to come. None of its bytes
    /// is given.
    TooLong { limit: usize },
}

/// Bytes of a peer, fed in pieces of any size and given as lines, each ended by byte 10 (the newline that
/// ends each message of Electrum Protocol 1.4).
///
/// A line above the limit is given as `TooLong` as soon as more bytes of it were fed than the limit says. The
/// rest of it is skipped and never kept. At any time it keeps at most twice as many bytes as it holds, that
/// is, as were fed and belong to no event that was given. So where each piece is followed by calls of
/// `next_line` up to None, a peer that sends no byte 10 takes the memory of no more than `limit` bytes and
/// the piece fed last. Only `feed` takes room, which may be for more bytes than are kept; after that None it
/// is for at most `IDLE_ROOM` bytes where none is held. Each byte is looked at once, however the bytes are
/// cut, and moved twice at most on average.
#[derive(Drop)]
pub struct LineBuffer {
    limit: usize,
    // Bytes that were fed. Those before `start` were given.
    bytes: Vec<u8>,
    start: usize,
    // How many bytes from `start` on are known not to be byte 10.
    seen: usize,
    skips: bool,
    looks: GhostCount,
}

impl Model for LineBuffer {
    ghost use Rattle.std.specs.Prelude.{◌≡◌, ◌≤◌, ◌+◌, ◌-◌, ◌*◌, [], length, drop, vec_capacity, true};
    ghost use Rattle.el_lines.specs.LineStates.{BufferState};
    ghost use Rattle.el_lines.specs.within.Places.{IsSearched};

    ghost Value = { BufferState };

    ghost view = { λ b. record {
      state = record { limit = b.limit; rest = drop b.start b.bytes.items; skips = b.skips };
      kept = length b.bytes.items;
      room = vec_capacity b.bytes;
      unsearched = length b.bytes.items - (b.start + b.seen);
      looks = b.looks;
    } };

    // Of the bytes that were given no more are kept than of those that are held.
    ghost invariant = { λ b. (2 * b.start ≤ length b.bytes.items)
        × IsSearched 10 (drop b.start b.bytes.items) b.seen
        × (b.skips ≡ true → drop b.start b.bytes.items ≡ []) };
}

impl LineBuffer {
    /// A buffer that was fed nothing, for lines of at most `limit` bytes without their byte 10. Takes no
    /// memory.
    pub fn new(alloc: Global, limit: usize) -> LineBuffer
        ensures limit { result.state.limit ≡ limit }
        ensures at { WasFed result.state [] 0 }
        ensures kept { result.kept ≡ 0 }
        ensures room { result.room ≡ 0 }
        ensures looks { result.looks + result.unsearched ≡ 0 }
    {
        LineBuffer {
            limit,
            bytes: Vec::new(alloc),
            start: 0,
            seen: 0,
            skips: false,
            looks: GhostCount::new(),
        }
    }

    /// Takes the next piece of the peer's bytes, also where lines of earlier ones wait. It fails only where
    /// memory runs out.
    pub fn feed(&mut self, bytes: &[u8]) -> Result<(), OutOfMemory>
        ensures at { (fed : List ℕ) (given : ℕ) → WasFed self.old.state fed given
            → OnOk result (WasFed self.new.state (fed ++ bytes.now) given) }
        // Where there is room for the piece, it is taken. No room is given back here.
        ensures fits { self.old.kept + length bytes.now ≤ self.old.room → result ≡ Ok tt }
        ensures room { self.old.room ≤ self.new.room }
        ensures taken { self.old.state.skips ≡ false
            → OnOk result (self.old.kept + length bytes.now ≤ self.new.room) }
        ensures refused { OnErr result (self.new.state ≡ self.old.state) }
        ensures refused_room { OnErr result
            ((self.new.kept ≡ self.old.kept) × (self.new.room ≡ self.old.room)) }
        ensures limit { self.new.state.limit ≡ self.old.state.limit }
        ensures held { held_bytes self.new.state ≤ held_bytes self.old.state + length bytes.now }
        // Bytes that were given are let go.
        ensures kept { self.new.kept ≤ 2 * held_bytes self.old.state + length bytes.now }
        // However bytes are cut, no more are looked at than were fed.
        ensures looks { self.new.looks + self.new.unsearched
            ≤ self.old.looks + self.old.unsearched + length bytes.now }
        // What is skipped takes no memory.
        ensures skipped { self.old.state.skips ≡ true → HasNoNewline bytes.now
            → (result ≡ Ok tt) × (self.new.state ≡ self.old.state) × (self.new.kept ≡ self.old.kept)
            × (self.new.room ≡ self.old.room) }
    {
        if !self.skips {
            self.add(bytes)?;
            return Ok(());
        }
        match byte_from(bytes, b'\n', 0, &mut self.looks) {
            Some(end) => {
                self.add(bytes_from(bytes, end + 1))?;
                Ok(())
            }
            None => Ok(()),
        }
    }

    /// The next line, or None where no line has ended and none is too long. It fails only where the memory
    /// for a line's bytes runs out, and may then be called again.
    pub fn next_line(&mut self) -> Result<Option<LineEvent>, OutOfMemory>
        ensures next { (fed : List ℕ) (given : ℕ) → WasFed self.old.state fed given
            → IfOk result (λ found. MatchOption found
            ((given ≡ length (lines self.old.state.limit fed)) × WasFed self.new.state fed given)
            (λ e. (slice_get (lines self.old.state.limit fed) given ≡ Some (as_listed e))
            × WasFed self.new.state fed (given + 1))) }
        // Where no event is left, or the next is no line, no memory is taken.
        ensures none { (fed : List ℕ) (given : ℕ) → WasFed self.old.state fed given
            → given ≡ length (lines self.old.state.limit fed) → result ≡ Ok None }
        ensures too_long { (fed : List ℕ) (given : ℕ) → WasFed self.old.state fed given
            → slice_get (lines self.old.state.limit fed) given ≡ Some too_long
            → result ≡ Ok (Some (LineEvent.TooLong self.old.state.limit)) }
        ensures refused { OnErr result (self.new.state ≡ self.old.state) }
        ensures limit { self.new.state.limit ≡ self.old.state.limit }
        ensures consumed { IfOk result (λ found.
            IfSome found (λ e. held_bytes self.new.state < held_bytes self.old.state)) }
        // What then waits is the start of one line.
        ensures waits { IfOk result (λ found. IfNone found
            ((self.new.state ≡ self.old.state) × (held_bytes self.new.state ≤ self.old.state.limit))) }
        // Bytes that were given are let go: all of them where no event is left.
        ensures kept { self.new.kept ≤ 2 * held_bytes self.new.state }
        ensures kept_none { IfOk result (λ found. IfNone found (self.new.kept ≡ held_bytes self.new.state)) }
        // Room isn't taken here, and is given back where nothing is held.
        ensures room { self.new.room ≤ self.old.room }
        ensures room_none { IfOk result (λ found. IfNone found
            (held_bytes self.new.state ≡ 0 → self.new.room ≤ IDLE_ROOM)) }
        // All of it stays where bytes are held, or where it is for few.
        ensures room_stays { (0 < held_bytes self.new.state) ⊎ (self.old.room ≤ IDLE_ROOM)
            → self.new.room ≡ self.old.room }
        ensures looks { OnOk result
            (self.new.looks + self.new.unsearched ≤ self.old.looks + self.old.unsearched) }
        // Where no memory is found, the byte 10 that was found is looked at once more.
        ensures looks_refused { OnErr result
            (self.new.looks + self.new.unsearched ≤ self.old.looks + self.old.unsearched + 1) }
    {
        let limit = self.limit;
        match self.find_newline() {
            Some(end) if end > limit => {
                self.pass(end);
                Ok(Some(LineEvent::TooLong { limit }))
            }
            Some(end) => {
                let line = self.copy_line(end)?;
                self.pass(end);
                Ok(Some(LineEvent::Line(line)))
            }
            None if self.len() > limit => {
                self.skip();
                Ok(Some(LineEvent::TooLong { limit }))
            }
            None => {
                self.leave_out_given();
                Ok(None)
            }
        }
    }

    // How many bytes are held.
    fn len(&self) -> usize
        ensures { result ≡ held_bytes self.now.state }
    {
        self.bytes.len() - self.start
    }

    // Looks for the first byte 10 of those that are held.
    fn find_newline(&mut self) -> Option<usize>
        ensures found { MatchOption result
            (HasNoNewline self.old.state.rest)
            (λ end. StandsFirst 10 self.old.state.rest end) }
        ensures same { self.new.state ≡ self.old.state }
        ensures kept { self.new.kept ≡ self.old.kept }
        ensures room { self.new.room ≡ self.old.room }
        ensures looks { MatchOption result
            (self.new.looks + self.new.unsearched ≤ self.old.looks + self.old.unsearched)
            (λ end. self.new.looks + (held_bytes self.old.state - (end + 1))
            ≤ self.old.looks + self.old.unsearched) }
        ensures unsearched { MatchOption result
            (self.new.unsearched ≡ 0) (λ end. self.new.unsearched ≡ held_bytes self.old.state - end) }
    {
        let found = byte_from(
            bytes_from(self.bytes.as_slice(), self.start),
            b'\n',
            self.seen,
            &mut self.looks,
        );
        self.seen = match found {
            Some(end) => end,
            None => self.bytes.len() - self.start,
        };
        found
    }

    // The line that ends there.
    fn copy_line(&self, end: usize) -> Result<Bytes, OutOfMemory>
        requires { end ≤ held_bytes self.now.state }
        ensures { IfOk result (λ line. line ≡ take end self.now.state.rest) }
    {
        let held = bytes_from(self.bytes.as_slice(), self.start);
        Bytes::from_slice(*self.bytes.allocator(), bytes_before(held, end))
    }

    // Goes on after the line that ends there.
    fn pass(&mut self, end: usize)
        requires { end < held_bytes self.old.state }
        ensures passed { self.new.state
            ≡ record self.old.state { rest = drop (end + 1) self.old.state.rest } }
        ensures kept { self.new.kept ≤ 2 * held_bytes self.new.state }
        ensures room { self.new.room ≡ self.old.room }
        ensures unsearched { self.new.unsearched ≡ held_bytes self.old.state - (end + 1) }
        ensures looks { self.new.looks ≡ self.old.looks }
    {
        let start = self.start + end + 1;
        self.seen = 0;
        if start <= self.bytes.len() - start {
            self.start = start;
        } else {
            leave_out(&mut self.bytes, start);
            self.start = 0;
        }
    }

    // Forgets the bytes, and skips the rest of their line.
    fn skip(&mut self)
        ensures skipped { self.new.state
            ≡ record { limit = self.old.state.limit; rest = []; skips = true } }
        ensures kept { self.new.kept ≡ 0 }
        ensures room { self.new.room ≡ self.old.room }
        ensures unsearched { self.new.unsearched ≡ 0 }
        ensures looks { self.new.looks ≡ self.old.looks }
    {
        self.bytes.clear();
        self.start = 0;
        self.seen = 0;
        self.skips = true;
    }

    // Keeps the bytes after those that are held, and skips nothing.
    fn add(&mut self, bytes: &[u8]) -> Result<(), OutOfMemory>
        ensures added { OnOk result (self.new.state ≡ record {
          limit = self.old.state.limit;
          rest = self.old.state.rest ++ bytes.now;
          skips = false;
        }) }
        ensures fits { self.old.kept + length bytes.now ≤ self.old.room → IsOk result }
        ensures room { self.old.room ≤ self.new.room }
        ensures taken { OnOk result (self.old.kept + length bytes.now ≤ self.new.room) }
        ensures refused { OnErr result (self.new ≡ self.old) }
        ensures kept { OnOk result (self.new.kept ≤ 2 * held_bytes self.old.state + length bytes.now) }
        ensures unsearched { OnOk result
            (self.new.unsearched ≡ self.old.unsearched + length bytes.now) }
        ensures looks { self.new.looks ≡ self.old.looks }
    {
        self.bytes.reserve(bytes.len())?;
        self.bytes.extend_from_slice(bytes)?;
        self.skips = false;
        Ok(())
    }

    // Lets the bytes go that were given, and the room for them where no others are held.
    fn leave_out_given(&mut self)
        ensures same { self.new.state ≡ self.old.state }
        ensures kept { self.new.kept ≡ held_bytes self.old.state }
        ensures room { self.new.room ≤ self.old.room }
        ensures empty { held_bytes self.old.state ≡ 0 → self.new.room ≤ IDLE_ROOM }
        ensures stays { (0 < held_bytes self.old.state) ⊎ (self.old.room ≤ IDLE_ROOM)
            → self.new.room ≡ self.old.room }
        ensures unsearched { self.new.unsearched ≡ self.old.unsearched }
        ensures looks { self.new.looks ≡ self.old.looks }
    {
        leave_out(&mut self.bytes, self.start);
        self.start = 0;
        give_back(&mut self.bytes, IDLE_ROOM);
    }
}
