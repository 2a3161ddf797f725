// SHA-256, once and twice.
ghost use Rattle.std.specs.Prelude.{◌≡◌};
ghost use Rattle.sha2.specs.Sha256 as fips;
ghost use Rattle.el_base.specs.Hashing as spec;

use sha2::{Digest, Sha256};

/// A hash of 32 bytes in inner order, the order in which SHA-256 (FIPS 180-4) gives them and Bitcoin
/// serializes them. Users see the reverse order, by `shown`. Hashes are ordered by their bytes in inner
/// order.
#[derive(Clone, Copy, Debug, PartialEq, Eq, PartialOrd, Ord, Hash)]
pub struct Hash32(pub [u8; 32]);

/// The SHA-256 of the bytes (FIPS 180-4). Takes no memory.
pub fn sha256(bytes: &[u8]) -> Hash32
    ensures { result.0 ≡ fips.sha256 bytes.now }
{
    Hash32(Sha256::digest(bytes))
}

/// The SHA-256 of the SHA-256 of the bytes, by which Bitcoin names blocks and transactions. Takes no memory.
pub fn sha256d(bytes: &[u8]) -> Hash32
    ensures { result.0 ≡ spec.sha256d bytes.now }
{
    let once = Sha256::digest(bytes);
    Hash32(Sha256::digest(once.as_slice()))
}
