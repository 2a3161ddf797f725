// Pages of rows that are kept: that the calls succeed, which rows are read from them, and which page goes.

use el_page_cache::{MAX_PAGES, PAGE_BYTES, PageCache, first_in_page};
use el_row_formats::Table;
use std::alloc::Global;
use std::test::Fail;

// Tables, rows, and the first row of each's page. A page of 4,096 bytes has 35 rows, 48, 512, 124, 512, 64,
// 512 or 170, by the table.
const FIRSTS: &[(Table, u64, u64)] = &[
    (Table::Blocks, 34, 0),
    (Table::Blocks, 35, 35),
    (Table::Txs, 95, 48),
    (Table::TxHeads, 65_535, 65_024),
    (Table::Outs, 124, 124),
    (Table::Ins, 511, 0),
    (Table::Scripts, 127, 64),
    (Table::ScriptHeads, 512, 512),
    (Table::Entries, 1_099_511_627_775, 1_099_511_627_690),
];

// A cache with no pages.
fn fresh(alloc: Global) -> Result<PageCache, Fail> {
    match PageCache::new(alloc) {
        Some(cache) => Ok(cache),
        None => Err(Fail::new("no cache")),
    }
}

// Keeps the page of a row, all of whose bytes are this one.
fn keep(alloc: Global, cache: &mut PageCache, t: Table, i: u64, byte: u8) -> Result<bool, Fail> {
    let page = vec![in alloc; byte; PAGE_BYTES]?;
    Ok(i < t.limit() && cache.keep(t, i, page))
}

// The bytes of a row of entries, where its page is kept.
fn entry(cache: &mut PageCache, i: u64) -> Option<[u8; 24]> {
    let mut row = [0; 24];
    if i < 1_000 && cache.read(Table::Entries, i, &mut row) {
        return Some(row);
    }
    None
}

// Whether rows are read from a page that is kept, and a change of four rows, the last two of which stand in
// another page, is read from it.
fn changes_are_read(alloc: Global, cache: &mut PageCache) -> Result<bool, Fail> {
    let is_new = cache.len() == 0 && entry(cache, 169).is_none();
    let is_kept = keep(alloc, cache, Table::Entries, 169, 7)? && cache.len() == 1;
    cache.change(Table::Entries, 168, 4, &[9; 96]);
    let is_read = entry(cache, 167) == Some([7; 24]) && entry(cache, 169) == Some([9; 24]);
    Ok(is_new && is_kept && is_read && entry(cache, 170).is_none())
}

// Whether that page goes once as many others as may be kept came after its last use, and not before.
fn goes_last(alloc: Global, cache: &mut PageCache) -> Result<bool, Fail> {
    for i in 1..MAX_PAGES as u64 {
        keep(alloc, cache, Table::TxHeads, i * 512, 1)?;
    }
    let is_there = entry(cache, 0) == Some([7; 24]) && cache.len() == MAX_PAGES;
    for i in 1..=MAX_PAGES as u64 {
        keep(alloc, cache, Table::ScriptHeads, i * 512, 1)?;
    }
    Ok(is_there && entry(cache, 0).is_none() && cache.len() == MAX_PAGES)
}

#[test]
fn pages_are_kept(rt: HostRuntime) -> Result<(), Fail> {
    for (t, i, first) in FIRSTS {
        assert!(rt; first_in_page(*t, *i) == *first);
    }
    let mut cache = fresh(rt.alloc())?;
    assert!(rt; changes_are_read(rt.alloc(), &mut cache)?);
    assert!(rt; goes_last(rt.alloc(), &mut cache)?);
    Ok(())
}
