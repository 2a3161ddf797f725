// Where the tables of an index stand, by its format.
ghost use Rattle.std.specs.Prelude.{◌≡◌, ◌≤◌, ◌<◌, ◌+◌};
ghost use Rattle.el_row_formats.specs.Tables.{number_of};
ghost use Rattle.el_pages.specs.Layouts.{file_of, redo_of, size_in, limit_in};

use el_redone::Span;
use el_row_formats::{TABLES, Table};

/// A format of an index: which files it has, and how large its rows are. A table's file is the first one's
/// number and the table's; the redo file comes after the tables' files.
#[derive(Clone, Copy, Debug, PartialEq, Eq)]
pub struct Layout {
    /// The number of the meta file.
    pub first: u32,
    /// The format's number, which the meta row names.
    pub format: u32,
    /// How many bytes the meta row has.
    pub meta: usize,
    /// How many bytes a row has, by the table's place.
    pub sizes: [usize; TABLES],
    /// How many rows a table may have, by its place.
    pub limits: [u64; TABLES],
}

/// The letters `ELIX` with which a meta row begins, as a number in four bytes.
pub const LETTERS: u64 = 1481198661;

/// Format 1.
pub const FORMAT_1: Layout = Layout {
    first: 0,
    format: 1,
    meta: 76,
    sizes: [112, 68, 4, 21, 4, 52, 4, 12],
    limits: [
        4294967295, 4294967295, 4294967295, 4294967295, 4294967295, 4294967295, 4294967295,
        4294967295,
    ],
};

/// Format 2.
pub const FORMAT_2: Layout = Layout {
    first: 20,
    format: 2,
    meta: 80,
    sizes: [116, 84, 8, 33, 8, 64, 8, 24],
    limits: [
        4294967295,
        1099511627776,
        1099511627776,
        1099511627776,
        1099511627776,
        1099511627776,
        1099511627776,
        1099511627776,
    ],
};

impl Layout {
    /// Its files.
    pub fn span(&self) -> Span
        requires { self.now.first + 9 < 4294967296 }
        ensures first { result.first ≡ self.now.first }
        ensures redo { result.redo ≡ redo_of self.now }
    {
        Span {
            first: self.first,
            redo: self.first + 9,
        }
    }

    /// The file of a table.
    pub fn file(&self, t: Table) -> u32
        requires { self.now.first + 9 < 4294967296 }
        ensures { result ≡ file_of self.now t }
    {
        self.first + u32::from(t.number())
    }

    /// How many bytes each row of the table has.
    pub fn size(&self, t: Table) -> usize
        ensures { result ≡ size_in self.now t }
    {
        self.sizes[t.index()]
    }

    /// How many rows the table may have.
    pub fn limit(&self, t: Table) -> u64
        ensures { result ≡ limit_in self.now t }
    {
        self.limits[t.index()]
    }
}
