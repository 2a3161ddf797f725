// A cursor over bytes.
ghost use Rattle.std.specs.Prelude.{◌≡◌, ◌<◌, ◌≤◌, length, take, IfOk, IfErr};
ghost use Rattle.el_base.specs.Left.{after};

use std::marker::Model;

/// Fewer bytes are left than were asked for. `place` is that of the next byte, counted from 0 at the first
/// byte that the cursor was made over.
#[derive(Clone, Copy, Debug, PartialEq, Eq, thiserror::Error)]
#[error("bytes end too early at {place}")]
pub struct Short {
    /// In bytes.
    pub place: usize,
}

/// Reads a slice of bytes from left to right. Contracts see the place of the next byte, counted from 0, and
/// the bytes that are left.
#[derive(Debug, Drop)]
pub struct Cursor<'a> {
    rest: &'a [u8],
    place: usize,
}

impl<'a> Model for Cursor<'a> {
    ghost use Rattle.std.specs.Prelude.{◌+◌, ◌<◌, ◌^◌, length};
    ghost use Rattle.el_base.specs.Left.{Left};

    ghost Value = { Left };

    ghost view = { λ c. record { place = c.place; rest = c.rest.now } };

    ghost invariant = { λ c. c.place + length c.rest.now < 2 ^ 64 };
}

impl<'a> Cursor<'a> {
    /// A cursor over the bytes, at the first of them, place 0.
    pub fn new(bytes: &'a [u8]) -> Cursor<'a>
        ensures { result ≡ record { place = 0; rest = bytes.now } }
    {
        Cursor {
            rest: bytes,
            place: 0,
        }
    }

    /// The place of the next byte, counted from 0 at the first byte that the cursor was made over: how many
    /// bytes it has passed.
    pub fn place(&self) -> usize
        ensures { result ≡ self.now.place }
    {
        self.place
    }

    /// How many bytes are left.
    pub fn left(&self) -> usize
        ensures { result ≡ length self.now.rest }
    {
        self.rest.len()
    }

    /// The bytes that are left, the next one first; the cursor stays.
    pub fn rest(&self) -> &'a [u8]
        ensures { result.now ≡ self.now.rest }
    {
        self.rest
    }

    /// Reads the next n bytes and passes them. The error is that fewer are left, and then the cursor stays.
    pub fn take(&mut self, n: usize) -> Result<&'a [u8], Short>
        ensures taken { IfOk result (λ front. (n ≤ length self.old.rest)
            × (front.now ≡ take n self.old.rest) × (self.new ≡ after n self.old)) }
        ensures short { IfErr result (λ e. (length self.old.rest < n)
            × (e ≡ record { place = self.old.place }) × (self.new ≡ self.old)) }
    {
        if self.rest.len() < n {
            return Err(Short { place: self.place });
        }
        Ok(self.pass(n))
    }

    // Passes n bytes that are there.
    pub(crate) fn pass(&mut self, n: usize) -> &'a [u8]
        requires { n ≤ length self.old.rest }
        ensures front { result.now ≡ take n self.old.rest }
        ensures passed { self.new ≡ after n self.old }
    {
        let (front, back) = self.rest.split_at(n);
        self.rest = back;
        self.place += n;
        front
    }
}
