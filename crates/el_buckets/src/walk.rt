// The newest row of a hash, and the head of its bucket.
ghost use Rattle.std.specs.Prelude.{◌≡◌, ◌<◌, ◌≤◌, ◌+◌, ℕ, List, [], length, take, get_or, OnOk, IfOk, None};
ghost use Rattle.std.specs.Option.{ForSome};
ghost use Rattle.el_chain.specs.Chains.{zero_hash};
ghost use Rattle.el_row_formats.specs.RowBytes.{number_limit, link_number};
ghost use Rattle.el_row_formats.specs.Tables.{size_of};
ghost use Rattle.el_rows.specs.Transaction.{with_edits, reads_in, disk_failed, ReadsRows};
ghost use Rattle.el_tables.specs.ChainLists.{ListedBlock};
ghost use Rattle.el_tables.specs.Lists as lists;
ghost use Rattle.el_tables.specs.Tables.{HeadCounts};
ghost use Rattle.el_schema.specs.Rows.{Hold};
ghost use Rattle.el_buckets.specs.Buckets.{rows_table, heads_of, hashes_of, count_of, newest_of, bucket_head, bucket_size};

use crate::Buckets;
use crate::bucket::{bucket_of, if_below};
use el_base::Hash32;
use el_outside::DiskFailed;
use el_row_formats::HeadRow;
use el_rows::{Rows, Txn};

/// What a walk along a bucket found.
#[derive(Clone, Copy, Debug, PartialEq, Eq)]
pub struct Found {
    /// The newest row with the hash.
    pub newest: Option<u64>,
    /// The newest row in its bucket.
    pub head: Option<u64>,
}

// The head of the hash's bucket, or none where there are no heads.
fn head<R: Rows>(
    t: &mut Txn<'_, R>,
    buckets: Buckets,
    hash: &Hash32,
) -> Result<Option<u64>, DiskFailed>
    requires live { R.is_live t.old.rows.now }
    ensures head { (counts : HeadCounts) (bs : List ListedBlock) (l : lists.Lists) → R.tells
        → Hold counts bs l (with_edits t.old) → 0 < count_of buckets counts
        → IfOk result (λ h. h ≡ bucket_head (count_of buckets counts) hash.now (hashes_of buckets l)) }
    ensures none { length (with_edits t.old (heads_of buckets)) ≡ 0 → IfOk result (λ h. h ≡ None) }
    ensures idle { length (with_edits t.old (heads_of buckets)) ≡ 0 → reads_in t.new ≡ reads_in t.old }
    ensures below { IfOk result (λ h. ForSome h (λ n. n < length (with_edits t.old (rows_table buckets)))) }
    ensures fits { IfOk result (λ h. link_number h < number_limit) }
    ensures read { ReadsRows disk_failed t.old t.new result }
    ensures rows { reads_in t.new ≤ reads_in t.old + 1 }
{
    let count = t.count(buckets.heads());
    if count == 0 {
        return Ok(None);
    }
    let mut row = [0; 8];
    t.get(buckets.heads(), bucket_of(hash, count), &mut row)?;
    Ok(if_below(HeadRow::read(&row).head, t.count(buckets.rows())))
}

// Reads a row: its hash, and its link to the next in its bucket, which is none where it isn't below the row.
fn at_row<R: Rows>(
    t: &mut Txn<'_, R>,
    buckets: Buckets,
    n: u64,
    row: &mut [u8],
) -> Result<(Hash32, Option<u64>), DiskFailed>
    requires live { R.is_live t.old.rows.now }
    requires below { n < length (with_edits t.old (rows_table buckets)) }
    requires sized { length row.old ≡ size_of (rows_table buckets) }
    ensures row { R.tells → OnOk result (row.new ≡ get_or (with_edits t.old (rows_table buckets)) n []) }
    ensures sized { length row.new ≡ size_of (rows_table buckets) }
    ensures hash { (counts : HeadCounts) (bs : List ListedBlock) (l : lists.Lists) → R.tells
        → Hold counts bs l (with_edits t.old)
        → IfOk result (λ r. r.0 ≡ get_or (hashes_of buckets l) n zero_hash) }
    ensures next { (counts : HeadCounts) (bs : List ListedBlock) (l : lists.Lists) → R.tells
        → Hold counts bs l (with_edits t.old)
        → IfOk result (λ r. r.1 ≡ bucket_head (count_of buckets counts) r.0 (take n (hashes_of buckets l))) }
    ensures below { IfOk result (λ r. ForSome r.1 (λ m. m < n)) }
    ensures read { ReadsRows disk_failed t.old t.new result }
    ensures rows { reads_in t.new ≤ reads_in t.old + 1 }
{
    t.get(buckets.rows(), n, row)?;
    let (hash, next) = buckets.hash_and_next(row);
    Ok((hash, if_below(next, n)))
}

/// The newest row with the hash, whose bytes it hands back, and the head of its bucket. It takes no memory
/// and changes nothing. It reads one head, and rows of the bucket alone, each once.
pub fn find_row<R: Rows>(
    t: &mut Txn<'_, R>,
    buckets: Buckets,
    hash: &Hash32,
    row: &mut [u8],
) -> Result<Found, DiskFailed>
    requires live { R.is_live t.old.rows.now }
    requires sized { length row.old ≡ size_of (rows_table buckets) }
    ensures newest { (counts : HeadCounts) (bs : List ListedBlock) (l : lists.Lists) → R.tells
        → Hold counts bs l (with_edits t.old) → 0 < count_of buckets counts
        → IfOk result (λ f. f.newest ≡ newest_of hash.now (hashes_of buckets l)) }
    ensures head { (counts : HeadCounts) (bs : List ListedBlock) (l : lists.Lists) → R.tells
        → Hold counts bs l (with_edits t.old) → 0 < count_of buckets counts
        → IfOk result (λ f. f.head ≡ bucket_head (count_of buckets counts) hash.now (hashes_of buckets l)) }
    ensures rows { (counts : HeadCounts) (bs : List ListedBlock) (l : lists.Lists) → R.tells
        → Hold counts bs l (with_edits t.old) → 0 < count_of buckets counts
        → reads_in t.new ≤ reads_in t.old + 1
        + bucket_size (count_of buckets counts) hash.now (hashes_of buckets l) }
    // What follows holds over any rows.
    ensures row { R.tells → IfOk result
        (λ f. ForSome f.newest (λ n. row.new ≡ get_or (with_edits t.old (rows_table buckets)) n [])) }
    ensures sized { length row.new ≡ size_of (rows_table buckets) }
    ensures none { length (with_edits t.old (heads_of buckets)) ≡ 0 → IfOk result (λ f. f.newest ≡ None) }
    ensures idle { length (with_edits t.old (heads_of buckets)) ≡ 0 → reads_in t.new ≡ reads_in t.old }
    ensures below { IfOk result
        (λ f. ForSome f.newest (λ n. n < length (with_edits t.old (rows_table buckets)))) }
    ensures head_below { IfOk result
        (λ f. ForSome f.head (λ n. n < length (with_edits t.old (rows_table buckets)))) }
    ensures fits { IfOk result (λ f. link_number f.newest < number_limit) }
    ensures head_fits { IfOk result (λ f. link_number f.head < number_limit) }
    ensures read { ReadsRows disk_failed t.old t.new result }
{
    let head = head(t, buckets, hash)?;
    let mut link = head;
    while let Some(n) = link {
        let (found, next) = at_row(t, buckets, n, row)?;
        if found == *hash {
            break;
        }
        link = next;
    }
    Ok(Found { newest: link, head })
}

/// The number of the newest row with the hash, and the head of its bucket, as `find_row` finds them.
pub fn find<R: Rows>(
    t: &mut Txn<'_, R>,
    buckets: Buckets,
    hash: &Hash32,
) -> Result<Found, DiskFailed>
    requires live { R.is_live t.old.rows.now }
    ensures newest { (counts : HeadCounts) (bs : List ListedBlock) (l : lists.Lists) → R.tells
        → Hold counts bs l (with_edits t.old) → 0 < count_of buckets counts
        → IfOk result (λ f. f.newest ≡ newest_of hash.now (hashes_of buckets l)) }
    ensures head { (counts : HeadCounts) (bs : List ListedBlock) (l : lists.Lists) → R.tells
        → Hold counts bs l (with_edits t.old) → 0 < count_of buckets counts
        → IfOk result (λ f. f.head ≡ bucket_head (count_of buckets counts) hash.now (hashes_of buckets l)) }
    ensures rows { (counts : HeadCounts) (bs : List ListedBlock) (l : lists.Lists) → R.tells
        → Hold counts bs l (with_edits t.old) → 0 < count_of buckets counts
        → reads_in t.new ≤ reads_in t.old + 1
        + bucket_size (count_of buckets counts) hash.now (hashes_of buckets l) }
    // What follows holds over any rows.
    ensures none { length (with_edits t.old (heads_of buckets)) ≡ 0 → IfOk result (λ f. f.newest ≡ None) }
    ensures idle { length (with_edits t.old (heads_of buckets)) ≡ 0 → reads_in t.new ≡ reads_in t.old }
    ensures below { IfOk result
        (λ f. ForSome f.newest (λ n. n < length (with_edits t.old (rows_table buckets)))) }
    ensures head_below { IfOk result
        (λ f. ForSome f.head (λ n. n < length (with_edits t.old (rows_table buckets)))) }
    ensures fits { IfOk result (λ f. link_number f.newest < number_limit) }
    ensures head_fits { IfOk result (λ f. link_number f.head < number_limit) }
    ensures read { ReadsRows disk_failed t.old t.new result }
{
    let mut row = [0; 84];
    find_row(t, buckets, hash, &mut row[..buckets.rows().size()])
}
