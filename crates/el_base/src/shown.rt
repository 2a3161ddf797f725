// The shown text of a hash.
ghost use Rattle.std.specs.Prelude.{◌≡◌, ◌≢◌, ℕ, List, IfOk, IfErr, IsOk};
ghost use Rattle.el_base.specs.Shown.{shown, Shows, ShowsNothing};
ghost use Rattle.el_base.specs.within.HexFaults.{bad_place_of};

use crate::hash::Hash32;
use hex::FromHexError;

/// Why a text shows no hash. A text of another length is `BadLength` whatever its bytes are.
#[derive(Clone, Copy, Debug, PartialEq, Eq, thiserror::Error)]
pub enum HexFault {
    /// The text has not 64 bytes of UTF-8 but `found`.
    #[error("a shown hash has 64 digits, not {found}")]
    BadLength { found: usize },
    /// The text has 64 bytes, and the first of them that is no hex digit stands at `place`, from 0 to 63.
    #[error("no hex digit at {place}")]
    BadDigit { place: usize },
}

// Where the digit stands that hex text was refused for.
fn bad_place(fault: FromHexError) -> Option<usize>
    ensures { result ≡ bad_place_of fault }
{
    match fault {
        FromHexError::InvalidHexCharacter { index, .. } => Some(index),
        _ => None,
    }
}

impl Hash32 {
    /// The hash as Bitcoin's programs show it: 64 lower-case hex digits in ASCII, two for each byte, the
    /// higher half first, and the bytes from the last of the inner order to the first. Takes no memory.
    pub fn shown(&self) -> [u8; 64]
        ensures { result ≡ shown self.now.0 }
    {
        let mut outer = self.0;
        outer.reverse();
        let mut text = [0u8; 64];
        let _ = hex::encode_to_slice(outer.as_slice(), &mut text);
        text
    }

    /// The hash that a text of 64 hex digits shows, in upper case, lower case or both, with no sign, prefix
    /// or space. Takes no memory.
    pub fn from_shown(text: &str) -> Result<Hash32, HexFault>
        ensures read { IfOk result (λ hash. Shows text.now hash.0) }
        ensures fault { IfErr result (ShowsNothing text.now) }
        // What shows a hash is read.
        ensures only { (hash : List ℕ) → Shows text.now hash
            → IfOk result (λ found. found.0 ≡ hash) × IsOk result }
    {
        Hash32::from_shown_bytes(text.as_bytes())
    }

    /// The same of bytes, which need not be UTF-8. Takes no memory.
    pub fn from_shown_bytes(text: &[u8]) -> Result<Hash32, HexFault>
        ensures read { IfOk result (λ hash. Shows text.now hash.0) }
        ensures fault { IfErr result (ShowsNothing text.now) }
        // What shows a hash is read.
        ensures only { (hash : List ℕ) → Shows text.now hash
            → IfOk result (λ found. found.0 ≡ hash) × IsOk result }
    {
        if text.len() != 64 {
            return Err(HexFault::BadLength { found: text.len() });
        }
        let mut inner = [0u8; 32];
        match hex::decode_to_slice(text, &mut inner) {
            Ok(()) => {
                inner.reverse();
                Ok(Hash32(inner))
            }
            Err(fault) => match bad_place(fault) {
                Some(place) => Err(HexFault::BadDigit { place }),
                None => Err(HexFault::BadLength { found: 64 }),
            },
        }
    }
}
