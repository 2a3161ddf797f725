// CompactSize, Bitcoin's variable-length number.
ghost use Rattle.std.specs.Prelude.{◌≡◌, ℕ, ◌+◌, ◌<◌, ◌≤◌, ◌^◌, List, ◌++◌, length, vec_len, vec_capacity, IfOk, IfErr, IsOk, OnOk, OnErr, MatchResult, Result, Ok, Err};
ghost use Rattle.el_base.specs.Left.{AreBytes};
ghost use Rattle.el_base.specs.Compact.{EncodesCompact, FirstCompactFault, EndsInCompact, BeginsLong, compact};
ghost use Rattle.el_base.specs.CompactReading.{number_at, width_of, compact_at};

use crate::cursor::Cursor;
use crate::memory::OutOfMemory;

/// Why no CompactSize is read. `place` is that of its first byte, counted from 0 at the first byte that the
/// cursor was made over.
#[derive(Clone, Copy, Debug, PartialEq, Eq, thiserror::Error)]
pub enum CompactFault {
    /// The bytes end before it begins or within it.
    #[error("bytes end within the number at {place}")]
    Short { place: usize },
    /// Its bytes are there, but the number has a shorter encoding, which alone is lawful.
    #[error("the number at {place} has a shorter encoding")]
    LongSpelling { place: usize },
}

// The number that stands at the front, with its first byte at the place.
#[tactic(auto, unfolding(crate::specs::CompactReading::number_at))]
fn number_of(bytes: &[u8], place: usize) -> Result<u64, CompactFault>
    ensures number { result ≡ number_at place bytes.now }
    ensures are_bytes { AreBytes bytes.now }
{
    match bytes {
        [] => Err(CompactFault::Short { place }),
        [253, rest @ ..] => {
            let Some((front, _)) = rest.split_first_chunk::<2>() else {
                return Err(CompactFault::Short { place });
            };
            let n = u16::from_le_bytes(*front);
            if n < 253 {
                return Err(CompactFault::LongSpelling { place });
            }
            Ok(u64::from(n))
        }
        [254, rest @ ..] => {
            let Some((front, _)) = rest.split_first_chunk::<4>() else {
                return Err(CompactFault::Short { place });
            };
            let n = u32::from_le_bytes(*front);
            if n < 0x1_0000 {
                return Err(CompactFault::LongSpelling { place });
            }
            Ok(u64::from(n))
        }
        [255, rest @ ..] => {
            let Some((front, _)) = rest.split_first_chunk::<8>() else {
                return Err(CompactFault::Short { place });
            };
            let n = u64::from_le_bytes(*front);
            if n < 0x1_0000_0000 {
                return Err(CompactFault::LongSpelling { place });
            }
            Ok(n)
        }
        [first, ..] => Ok(u64::from(*first)),
    }
}

// How many bytes a CompactSize has by its first byte.
fn width(bytes: &[u8]) -> usize
    ensures { result ≡ width_of bytes.now }
{
    match bytes {
        [] => 0,
        [253, ..] => 3,
        [254, ..] => 5,
        [255, ..] => 9,
        _ => 1,
    }
}

/// Reads the CompactSize of Bitcoin's serialization at the cursor and passes it: a number from 0 to 2^64 - 1,
/// in little endian, by its first byte.
///
/// | First byte | Bytes | The number |
/// |---|---|---|
/// | 0 to 252 | 1 | that byte |
/// | 253 | 3 | the next 2 bytes, from 253 on |
/// | 254 | 5 | the next 4 bytes, from 2^16 on |
/// | 255 | 9 | the next 8 bytes, from 2^32 on |
///
/// # Errors
///
/// `Short` where the bytes end too early, whatever stands in those that are there, and `LongSpelling` where
/// the number is below the least of its row. The cursor then stays.
pub fn read_compact(c: &mut Cursor<'_>) -> Result<u64, CompactFault>
    // What is read is encoded so, by the bytes that the cursor passes.
    ensures read { IfOk result (λ n. EncodesCompact (compact n) n
        × (c.old.rest ≡ compact n ++ c.new.rest) × (c.new.place ≡ c.old.place + length (compact n))) }
    // What is encoded so is read.
    ensures only { (bytes rest : List ℕ) (n : ℕ) → EncodesCompact bytes n → c.old.rest ≡ bytes ++ rest
        → result ≡ Ok n }
    ensures fault { IfErr result (FirstCompactFault c.old.place c.old.rest) }
    ensures short { EndsInCompact c.old.rest → result ≡ Err (CompactFault.Short c.old.place) }
    ensures long { BeginsLong c.old.rest → result ≡ Err (CompactFault.LongSpelling c.old.place) }
    ensures stays { OnErr result (c.new ≡ c.old) }
    // The same as one reading from left to right.
    ensures exact { MatchResult result (λ n. compact_at c.old ≡ Ok (n, c.new))
        (λ e. compact_at c.old ≡ Err e) }
{
    let bytes = c.rest();
    match number_of(bytes, c.place()) {
        Ok(n) => {
            let _ = c.pass(width(bytes));
            Ok(n)
        }
        Err(fault) => Err(fault),
    }
}

/// How many bytes the number's CompactSize has: 1, 3, 5 or 9. Takes no memory.
#[tactic(auto, unfolding(crate::specs::Compact::compact))]
pub fn compact_len(n: u64) -> u64
    ensures length { result ≡ length (compact n) }
    ensures most { result ≤ 9 }
{
    if n < 253 {
        1
    } else if n < 0x1_0000 {
        3
    } else if n < 0x1_0000_0000 {
        5
    } else {
        9
    }
}

/// Appends the number's CompactSize of Bitcoin's serialization, its shortest encoding of 1, 3, 5 or 9 bytes:
/// what `read_compact` reads. Fails only where memory runs out.
#[tactic(auto, unfolding(crate::specs::Compact::compact))]
pub fn write_compact(n: u64, out: &mut Vec<u8>) -> Result<(), OutOfMemory>
    ensures written { OnOk result (out.new.items ≡ out.old.items ++ compact n) }
    ensures encoded { EncodesCompact (compact n) n }
    ensures err { OnErr result (out.new.items ≡ out.old.items) }
    // Where the encoding has room it is written.
    ensures room { vec_len out.old + length (compact n) ≤ vec_capacity out.old → IsOk result }
{
    if n < 253 {
        out.push(n as u8)?;
    } else if n < 0x1_0000 {
        let [a, b] = (n as u16).to_le_bytes();
        out.extend_from_slice(&[253, a, b])?;
    } else if n < 0x1_0000_0000 {
        let [a, b, c, d] = (n as u32).to_le_bytes();
        out.extend_from_slice(&[254, a, b, c, d])?;
    } else {
        let [a, b, c, d, e, f, g, h] = n.to_le_bytes();
        out.extend_from_slice(&[255, a, b, c, d, e, f, g, h])?;
    }
    Ok(())
}
