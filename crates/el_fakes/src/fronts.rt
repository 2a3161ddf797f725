// What the devices in memory do with slices.
ghost use Rattle.std.specs.Prelude.{◌≡◌, ℕ, ◌-◌, ◌==◌, ◌≤◌, ◌++◌, length, take, drop, min, replicate};
ghost use Rattle.std.specs.List.{list_any, list_all};
ghost use Rattle.el_fakes.specs.Archives.{file_bytes, is_below_limit, are_fitting};

use el_base::Bytes;
use el_outside::{MOST_FILES, SIZE_LIMIT};

/// Fills the front of the buffer with what the bytes have from the place on, and answers how many bytes that
/// are.
pub fn fill(bytes: &[u8], at: u64, buf: &mut [u8]) -> usize
    ensures count { result ≡ min (length buf.old) (length bytes.now - at) }
    ensures filled { take result buf.new ≡ take result (drop at bytes.now) }
{
    let at = at as usize;
    if at >= bytes.len() {
        return 0;
    }
    let n = buf.len().min(bytes.len() - at);
    buf[..n].copy_from_slice(&bytes[at..at + n]);
    n
}

// Fills the front of the buffer with what a file of this size has from the place on, which has these bytes
// and then zeros, and answers how many bytes that are.
pub(crate) fn fill_padded(bytes: &[u8], size: u64, at: u64, buf: &mut [u8]) -> usize
    requires { length bytes.now ≤ size }
    ensures count { result ≡ min (length buf.old) (size - at) }
    ensures filled { take result buf.new
        ≡ take result (drop at (bytes.now ++ replicate (size - length bytes.now) 0)) }
{
    let written = fill(bytes, at, buf);
    let count = (buf.len() as u64).min(size.saturating_sub(at)) as usize;
    buf[written..count].fill(0);
    count
}

// The bytes of a file; none for one that isn't there.
pub(crate) fn bytes_of(files: &[Bytes], file: u32) -> &[u8]
    ensures { result.now ≡ file_bytes files.now file }
{
    match files.get(file as usize) {
        Some(bytes) => bytes.as_slice(),
        None => &[],
    }
}

/// Whether the number stands in the list.
pub fn is_listed(numbers: &[u64], n: u64) -> bool
    ensures { result ≡ list_any (λ m. n == m) numbers.now }
{
    numbers.iter().any(|m| n == *m)
}

// Whether each has fewer bytes than a file may have.
fn are_short(files: &[Bytes]) -> bool
    ensures { result ≡ list_all is_below_limit files.now }
{
    files.iter().all(|bytes| (bytes.len() as u64) < SIZE_LIMIT)
}

// Whether an archive may have these files.
pub(crate) fn fits(files: &[Bytes]) -> bool
    ensures { result ≡ are_fitting files.now }
{
    files.len() <= MOST_FILES as usize && are_short(files)
}
