// One page: bytes, of which whole rows count.
ghost use Rattle.std.specs.Prelude.{◌≡◌, ◌<◌, ◌≤◌, ◌+◌, ◌*◌, ◌^◌, length, IfSome};
ghost use Rattle.el_outside.specs.Disk.{over};
ghost use Rattle.el_row_formats.specs.Tables.{size_of, row_at};
ghost use Rattle.el_page_cache.specs.Pages.{rows_in_page, page_of, place_of, page_key};

use el_row_formats::Table;
use std::alloc::Global;
use std::marker::Model;

/// How many bytes a page has. The rows that stand whole in them are the page's.
pub const PAGE_BYTES: usize = 4096;

/// How many pages are kept at most.
pub const MAX_PAGES: usize = 4096;

// A page, which contracts see as its bytes.
#[derive(Drop)]
pub(crate) struct Page {
    bytes: Vec<u8>,
}

impl Model for Page {
    ghost use Rattle.std.specs.Prelude.{◌≡◌, ℕ, List, length};

    ghost Value = { List ℕ };

    ghost view = { λ p. p.bytes.items };

    ghost invariant = { λ p. length p.bytes.items ≡ 4096 };
}

impl Page {
    // The page of these bytes.
    pub(crate) fn new(bytes: Vec<u8>) -> Page
        requires { length bytes.items ≡ 4096 }
        ensures { result ≡ bytes.items }
    {
        Page { bytes }
    }

    // Its bytes.
    pub(crate) fn into_bytes(self) -> Vec<u8>
        ensures bytes { result.items ≡ self }
        ensures whole { length self ≡ 4096 }
    {
        self.bytes
    }

    // Copies a row that is in it into the buffer.
    pub(crate) fn copy_row(&self, t: Table, i: u64, buf: &mut [u8])
        requires sized { length buf.old ≡ size_of t }
        ensures { buf.new ≡ row_at (size_of t) self.now (place_of t i) }
    {
        copy_row(&self.bytes, t, i, buf);
    }

    // Makes these bytes the rows from that place on.
    pub(crate) fn write_rows(&mut self, t: Table, place: usize, rows: usize, bytes: &[u8])
        requires within { place + rows ≤ rows_in_page t }
        requires long { length bytes.now ≡ rows * size_of t }
        ensures written { self.new ≡ over self.old (place * size_of t) bytes.now }
        ensures whole { length self.old ≡ 4096 }
    {
        let _ = rows;
        write_over(&mut self.bytes, place * t.size(), bytes);
    }
}

// A page of zeros, where there is memory for it.
pub(crate) fn zero_page(alloc: Global) -> Option<Vec<u8>>
    ensures { IfSome result (λ page. length page.items ≡ 4096) }
{
    vec![in alloc; 0u8; PAGE_BYTES].ok()
}

/// Copies a row into the buffer from the bytes of its page.
pub fn copy_row(page: &[u8], t: Table, i: u64, buf: &mut [u8])
    requires whole { length page.now ≡ 4096 }
    requires sized { length buf.old ≡ size_of t }
    ensures { buf.new ≡ row_at (size_of t) page.now (place_of t i) }
{
    let size = t.size();
    let at = place_of(t, i) * size;
    buf.copy_from_slice(&page[at..at + size]);
}

// Writes bytes over those from a place on.
fn write_over(buffer: &mut [u8], at: usize, bytes: &[u8])
    requires { at + length bytes.now ≤ length buffer.old }
    ensures written { buffer.new ≡ over buffer.old at bytes.now }
    ensures long { length buffer.new ≡ length buffer.old }
{
    buffer[at..at + bytes.len()].copy_from_slice(bytes);
}

// How many rows of the table a page has.
pub(crate) fn rows_in_page(t: Table) -> u64
    ensures rows { result ≡ rows_in_page t }
    ensures some { 0 < result }
{
    PAGE_BYTES as u64 / t.size() as u64
}

// Where in its page a row stands, counted in rows.
pub(crate) fn place_of(t: Table, i: u64) -> usize
    ensures place { result ≡ place_of t i }
    ensures within { result < rows_in_page t }
{
    (i % rows_in_page(t)) as usize
}

// The number by which the page of a row is kept.
pub(crate) fn key_of(t: Table, i: u64) -> u64
    requires { i < 2 ^ 60 }
    ensures { result ≡ page_key t (page_of t i) }
{
    i / rows_in_page(t) * 8 + t.index() as u64
}

/// The number of the first row of the page that a row stands in.
pub fn first_in_page(t: Table, i: u64) -> u64
    ensures first { result ≡ page_of t i * rows_in_page t }
    ensures low { result ≤ i }
{
    let rows = rows_in_page(t);
    i / rows * rows
}
