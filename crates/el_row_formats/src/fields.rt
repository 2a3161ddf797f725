// Fields of rows: numbers, links and hashes, read from the front of bytes and put into them.
ghost use Rattle.std.specs.Prelude.{◌≡◌, ◌<◌, ◌≤◌, ◌+◌, ◌++◌, ◌∷◌, length, take};
ghost use Rattle.std.specs.Int.{w32, w64, to_le_bytes};
ghost use Rattle.el_row_formats.specs.RowBytes.{number_limit, link_number, link_bytes};
ghost use Rattle.el_row_formats.specs.OldRowBytes.{old_number_limit, old_link_bytes};

use el_base::Hash32;

// The first N bytes, and the bytes after them.
pub(crate) fn array<const N: usize>(bytes: &[u8]) -> ([u8; N], &[u8])
    requires { N ≤ length bytes.now }
    ensures front { bytes.now ≡ result.0 ++ result.1.now }
    ensures long { length result.0 ≡ N }
    ensures rest { length result.1.now + N ≡ length bytes.now }
{
    match bytes.split_first_chunk::<N>() {
        Some((front, rest)) => (*front, rest),
        None => unreachable!(),
    }
}

// The number in the first four bytes, and the bytes after them.
pub(crate) fn number(bytes: &[u8]) -> (u32, &[u8])
    requires { 4 ≤ length bytes.now }
    ensures front { bytes.now ≡ to_le_bytes w32 result.0 ++ result.1.now }
    ensures rest { length result.1.now + 4 ≡ length bytes.now }
{
    let (front, rest) = array::<4>(bytes);
    (u32::from_le_bytes(front), rest)
}

// The number in the first eight bytes, and the bytes after them.
pub(crate) fn long_number(bytes: &[u8]) -> (u64, &[u8])
    requires { 8 ≤ length bytes.now }
    ensures front { bytes.now ≡ to_le_bytes w64 result.0 ++ result.1.now }
    ensures rest { length result.1.now + 8 ≡ length bytes.now }
{
    let (front, rest) = array::<8>(bytes);
    (u64::from_le_bytes(front), rest)
}

// The link in the first eight bytes, and the bytes after them.
pub(crate) fn link(bytes: &[u8]) -> (Option<u64>, &[u8])
    requires { 8 ≤ length bytes.now }
    ensures front { bytes.now ≡ link_bytes result.0 ++ result.1.now }
    ensures fits { link_number result.0 < number_limit }
    ensures rest { length result.1.now + 8 ≡ length bytes.now }
{
    match long_number(bytes) {
        (0, rest) => (None, rest),
        (n, rest) => (Some(n - 1), rest),
    }
}

// The link in the first four bytes, as format 1 has it, and the bytes after them.
pub(crate) fn old_link(bytes: &[u8]) -> (Option<u64>, &[u8])
    requires { 4 ≤ length bytes.now }
    ensures front { bytes.now ≡ old_link_bytes result.0 ++ result.1.now }
    ensures fits { link_number result.0 < old_number_limit }
    ensures rest { length result.1.now + 4 ≡ length bytes.now }
{
    match number(bytes) {
        (0, rest) => (None, rest),
        (n, rest) => (Some(u64::from(n) - 1), rest),
    }
}

// The hash in the first 32 bytes, and the bytes after them.
pub(crate) fn hash(bytes: &[u8]) -> (Hash32, &[u8])
    requires { 32 ≤ length bytes.now }
    ensures front { bytes.now ≡ result.0.0 ++ result.1.now }
    ensures rest { length result.1.now + 32 ≡ length bytes.now }
{
    let (front, rest) = array::<32>(bytes);
    (Hash32(front), rest)
}

// Puts bytes from the place on.
pub(crate) fn put<const N: usize>(row: &mut [u8], place: usize, bytes: &[u8; N])
    requires { place + N ≤ length row.old }
    ensures put { take (place + N) row.new ≡ take place row.old ++ bytes.now }
    ensures size { length row.new ≡ length row.old }
{
    row[place..place + N].copy_from_slice(bytes.as_slice());
}

// The eight bytes of a link.
pub(crate) fn bytes_of_link(link: Option<u64>) -> [u8; 8]
    requires { link_number link < number_limit }
    ensures { result ≡ link_bytes link }
{
    match link {
        None => [0; 8],
        Some(n) => (n + 1).to_le_bytes(),
    }
}
