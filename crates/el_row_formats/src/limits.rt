// Limits of rows, each of which stands here alone: the code and the definitions cite it.
ghost use Rattle.std.specs.Prelude.{◌≡◌, ◌≤◌, ◌^◌};

/// How many bits the number of a bucket has at least. An index has 2^bits buckets of txids and as many of
/// script hashes, and each table of heads has a row for each of its own.
pub const MIN_HEAD_BITS: u32 = 16;

/// How many bits the number of a bucket has at most.
pub const MAX_HEAD_BITS: u32 = 24;

/// The greatest number in those fields of a row that name a row, link to one, or count a script's entries.
pub const MAX_NUMBER: u64 = 18_446_744_073_709_551_615;

/// How many buckets there are whose numbers have so many bits, and so how many rows each table of heads has.
pub fn bucket_count(bits: u32) -> u64
    requires { bits ≤ MAX_HEAD_BITS }
    ensures { result ≡ 2 ^ bits }
{
    1 << bits
}
