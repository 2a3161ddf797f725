// The newest row of each bucket, while rows are moved in rising order.
ghost use Rattle.std.specs.Prelude.{◌≡◌, ◌<◌, ◌≤◌, ◌+◌, ◌^◌, ◌==◌, ℕ, List, [], ◌∷◌, ◌++◌, length, IfOk};
ghost use Rattle.el_base.specs.declared.hash.Hash32 as hash_shape;
ghost use Rattle.el_row_formats.specs.RowBytes.{link_number, number_limit};
ghost use Rattle.el_row_formats.specs.declared.limits.TheConstants.{MAX_HEAD_BITS};
ghost use Rattle.el_tables.specs.Tables.{bucket_in, greatest};
ghost use Rattle.el_migrate.specs.within.Moving.{AreHeads};

use el_base::{Hash32, OutOfMemory};
use el_buckets::bucket_of;
use el_row_formats::bucket_count;
use std::alloc::Global;

// The heads of so many buckets without rows: of each, the number of its newest row and 1, or 0 for none. They
// take eight bytes each.
pub(crate) fn no_heads(alloc: Global, bits: u32) -> Result<Vec<u64>, OutOfMemory>
    requires { bits ≤ MAX_HEAD_BITS }
    ensures long { IfOk result (λ links. length links.items ≡ 2 ^ bits) }
    ensures none { IfOk result (λ links. AreHeads links.items []) }
{
    Ok(vec![in alloc; 0u64; bucket_count(bits) as usize]?)
}

// The link that is written as this number.
pub(crate) fn link_of(number: u64) -> Option<u64>
    ensures { link_number result ≡ number }
{
    match number {
        0 => None,
        n => Some(n - 1),
    }
}

// Puts the row of that number into the bucket of its hash, and answers which stood there before.
pub(crate) fn put_row(links: &mut [u64], hash: &Hash32, n: u64) -> Option<u64>
    requires some { 0 < length links.old }
    requires limit { n < 2 ^ 40 }
    ensures long { length links.new ≡ length links.old }
    ensures link { (hashes : List hash_shape.Hash32) → AreHeads links.old hashes → n ≡ length hashes
        → result ≡ greatest (λ h.
        bucket_in (length links.old) h == bucket_in (length links.old) hash.now) hashes }
    ensures heads { (hashes : List hash_shape.Hash32) → AreHeads links.old hashes → n ≡ length hashes
        → AreHeads links.new (hashes ++ hash.now ∷ []) }
    ensures fits { link_number result < number_limit }
{
    let bucket = bucket_of(hash, links.len() as u64) as usize;
    let before = links[bucket];
    links[bucket] = n + 1;
    link_of(before)
}
