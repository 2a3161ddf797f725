// The pages that are kept.
ghost use Rattle.std.specs.Prelude.{◌≡◌, ◌<◌, ◌≤◌, ◌+◌, ◌*◌, ◌-◌, ℕ, List, [], Some, None, length, take, min, nat_eq, is_some, get_or, IfSome, IsSome, IsTrue, IsFalse};
ghost use Rattle.std.specs.Map.{keys_of, set_value};
ghost use Rattle.lru.specs.LruCache.{lru_cache, promoted, put_entries};
ghost use Rattle.el_outside.specs.Disk.{over};
ghost use Rattle.el_row_formats.specs.declared.table.Table.{Table};
ghost use Rattle.el_row_formats.specs.Tables.{Tables, size_of, limit_of, row_at};
ghost use Rattle.el_page_cache.specs.Pages.{rows_in_page, page_of, place_of, page_key, page_in, HasRows, Agrees, ArePagesWritten};

use crate::page::{MAX_PAGES, Page, key_of, place_of, rows_in_page, zero_page};
use el_row_formats::Table;
use lru::LruCache;
use std::alloc::Global;
use std::marker::Model;
use std::num::NonZeroUsize;

/// Pages of rows of tables, the one that was used last first: at most 4,096, of 4,096 bytes each, so about
/// 17 MB. Contracts see each page's bytes by the number that its table and its place among the table's pages
/// give.
#[derive(Drop)]
pub struct PageCache {
    pages: LruCache<u64, Page>,
}

impl Model for PageCache {
    ghost use Rattle.std.specs.Prelude.{◌≡◌};
    ghost use Rattle.el_page_cache.specs.Pages.{KeptPages};

    ghost Value = { KeptPages };

    ghost view = { λ c. c.pages.entries };

    ghost invariant = { λ c. c.pages.cap ≡ 4096 };
}

impl PageCache {
    /// A cache with no pages. `None` where there is no memory for its tables.
    pub fn new(alloc: Global) -> Option<PageCache>
        ensures { IfSome result (λ c. c ≡ []) }
    {
        let most = NonZeroUsize::new(MAX_PAGES)?;
        let pages = LruCache::new(alloc, most).ok()?;
        Some(PageCache { pages })
    }

    /// How many pages are kept.
    pub fn len(&self) -> usize
        ensures len { result ≡ length self.now }
        ensures few { result ≤ 4096 }
    {
        self.pages.len()
    }

    // Copies a row into the buffer, where its page is kept.
    fn find(&mut self, t: Table, i: u64, buf: &mut [u8]) -> bool
        requires limit { i < limit_of t }
        requires sized { length buf.old ≡ size_of t }
        ensures found { result ≡ is_some (page_in self.old t (page_of t i)) }
        ensures row { (page : List ℕ) → page_in self.old t (page_of t i) ≡ Some page
            → buf.new ≡ row_at (size_of t) page (place_of t i) }
        ensures none { page_in self.old t (page_of t i) ≡ None → buf.new ≡ buf.old }
        ensures recent { self.new ≡ promoted (nat_eq (page_key t (page_of t i))) self.old }
    {
        match self.pages.get(&key_of(t, i)) {
            Some(page) => {
                page.copy_row(t, i, buf);
                true
            }
            None => false,
        }
    }

    /// Copies a row into the buffer, and makes its page the one that was used last. False where its page
    /// isn't kept. It takes no memory.
    pub fn read(&mut self, t: Table, i: u64, buf: &mut [u8]) -> bool
        requires limit { i < limit_of t }
        requires sized { length buf.old ≡ size_of t }
        ensures found { result ≡ is_some (page_in self.old t (page_of t i)) }
        ensures row { (page : List ℕ) → page_in self.old t (page_of t i) ≡ Some page
            → buf.new ≡ row_at (size_of t) page (place_of t i) }
        ensures none { page_in self.old t (page_of t i) ≡ None → buf.new ≡ buf.old }
        ensures recent { self.new ≡ promoted (nat_eq (page_key t (page_of t i))) self.old }
        ensures agrees { (lists : Tables) (counts : Table → ℕ) → Agrees self.old lists counts
            → Agrees self.new lists counts }
        ensures stored { (lists : Tables) (counts : Table → ℕ) → Agrees self.old lists counts
            → i < counts t → IsTrue result → buf.new ≡ get_or (lists t) i [] }
    {
        self.find(t, i, buf)
    }

    /// 4,096 bytes for a page that is to be read, whatever they are: those of the page that wasn't used for
    /// longest, which is then no longer kept, where as many are kept as may be, and else new ones. `None`
    /// where there is no memory for new ones.
    pub fn take_page(&mut self, alloc: Global) -> Option<Vec<u8>>
        ensures long { IfSome result (λ page. length page.items ≡ 4096) }
        ensures full { length self.old ≡ 4096 → self.new ≡ take 4095 self.old }
        ensures taken { length self.old ≡ 4096 → IsSome result }
        ensures room { length self.old < 4096 → self.new ≡ self.old }
        ensures agrees { (lists : Tables) (counts : Table → ℕ) → Agrees self.old lists counts
            → Agrees self.new lists counts }
    {
        if self.pages.len() < MAX_PAGES {
            return zero_page(alloc);
        }
        let (_, page) = self.pages.pop_lru()?;
        Some(page.into_bytes())
    }

    /// Keeps the page of a row, as the one that was used last. Where as many pages are kept as may be, the
    /// one goes that wasn't used for longest. False where there is no memory to keep it.
    pub fn keep(&mut self, t: Table, i: u64, page: Vec<u8>) -> bool
        requires limit { i < limit_of t }
        requires long { length page.items ≡ 4096 }
        ensures kept { IsTrue result → self.new
            ≡ put_entries nat_eq (lru_cache self.old 4096) (page_key t (page_of t i)) page.items }
        ensures not { IsFalse result → self.new ≡ self.old }
        ensures agrees { (lists : Tables) (counts : Table → ℕ) → Agrees self.old lists counts
            → HasRows lists counts t (page_of t i) page.items → Agrees self.new lists counts }
    {
        self.pages.put(key_of(t, i), Page::new(page)).is_ok()
    }

    // Makes these bytes the rows from that number on, where their page is kept.
    fn write_page(&mut self, t: Table, i: u64, rows: usize, bytes: &[u8])
        requires limit { i < limit_of t }
        requires few { place_of t i + rows ≤ rows_in_page t }
        requires long { length bytes.now ≡ rows * size_of t }
        ensures kept { (was : List ℕ) → page_in self.old t (page_of t i) ≡ Some was → self.new ≡ set_value
            (nat_eq (page_key t (page_of t i))) self.old (over was (place_of t i * size_of t) bytes.now) }
        ensures whole { (was : List ℕ) → page_in self.old t (page_of t i) ≡ Some was → length was ≡ 4096 }
        ensures none { page_in self.old t (page_of t i) ≡ None → self.new ≡ self.old }
    {
        if let Some(page) = self.pages.peek_mut(&key_of(t, i)) {
            page.write_rows(t, place_of(t, i), rows, bytes);
        }
    }

    // Makes the first of these bytes the rows from that number on, as far as its page goes. It answers how
    // many they are.
    fn change_page(&mut self, t: Table, i: u64, rows: usize, bytes: &[u8]) -> usize
        requires some { 0 < rows }
        requires limit { i + rows ≤ limit_of t }
        requires long { length bytes.now ≡ rows * size_of t }
        ensures some { 0 < result }
        ensures few { result ≤ rows }
        ensures same { keys_of self.new ≡ keys_of self.old }
        ensures written { ArePagesWritten self.old self.new t i result bytes.now }
    {
        let left = rows_in_page(t) as usize - place_of(t, i);
        let here = rows.min(left);
        self.write_page(t, i, here, &bytes[..here * t.size()]);
        here
    }

    /// Makes these bytes the rows of the table from that number on, in the pages that are kept. No page comes
    /// or goes, and it takes no memory.
    pub fn change(&mut self, t: Table, first: u64, rows: usize, bytes: &[u8])
        requires limit { first + rows ≤ limit_of t }
        requires long { length bytes.now ≡ rows * size_of t }
        ensures same { keys_of self.new ≡ keys_of self.old }
        ensures written { ArePagesWritten self.old self.new t first rows bytes.now }
    {
        let mut done = 0;
        while done < rows {
            done += self.change_page(
                t,
                first + done as u64,
                rows - done,
                &bytes[done * t.size()..],
            );
        }
    }
}
