// Fields, read from left to right.
ghost use Rattle.std.specs.Prelude.{◌≡◌};
ghost use Rattle.std.specs.Int.{w32, w64};
ghost use Rattle.el_tx.specs.declared.fault.TxFault.TheVariants as fault;
ghost use Rattle.el_tx.specs.declared.reading.ReadError.TheVariants.{Memory, Fault};
ghost use Rattle.el_tx.specs.FirstFault.{fault_of};
ghost use Rattle.el_tx.specs.within.Reading.{Gives, bytes_at, number_at, count_at, sized_at, outpoint_at, version_at};

use crate::fault::TxFault;
use crate::types::Outpoint;
use crate::views::BytesView;
use el_base::{CompactFault, Cursor, Hash32, OutOfMemory, Short, read_compact};
use std::alloc::AllocError;

/// Why nothing was read.
#[derive(Clone, Copy, Debug)]
pub enum ReadError {
    /// No memory was found.
    Memory,
    /// The first fault from left to right.
    Fault(TxFault),
}

impl From<OutOfMemory> for ReadError {
    ghost from_gives = { λ _ e. e ≡ Memory };

    fn from(_: OutOfMemory) -> Self {
        ReadError::Memory
    }
}

impl From<AllocError> for ReadError {
    ghost from_gives = { λ _ e. e ≡ Memory };

    fn from(_: AllocError) -> Self {
        ReadError::Memory
    }
}

impl From<Short> for ReadError {
    ghost from_gives = { λ short e. e ≡ Fault (fault.Short short.place) };

    fn from(short: Short) -> Self {
        ReadError::Fault(TxFault::Short { place: short.place })
    }
}

impl From<CompactFault> for ReadError {
    ghost from_gives = { λ f e. e ≡ Fault (fault_of f) };

    fn from(f: CompactFault) -> Self {
        ReadError::Fault(match f {
            CompactFault::Short { place } => TxFault::Short { place },
            CompactFault::LongSpelling { place } => TxFault::LongSpelling { place },
        })
    }
}

/// The next n bytes.
pub fn bytes_of<'a>(c: &mut Cursor<'a>, n: u64) -> Result<&'a [u8], ReadError>
    ensures { Gives (λ x. x.now) result c.new (bytes_at n c.old) }
{
    let front = c.take(n as usize)?;
    Ok(front)
}

// A hash of 32 bytes.
fn hash_of(c: &mut Cursor<'_>) -> Result<Hash32, ReadError>
    ensures { Gives (λ x. x.0) result c.new (bytes_at 32 c.old) }
{
    let front = c.take(32)?;
    let mut hash = [0; 32];
    hash.copy_from_slice(front);
    Ok(Hash32(hash))
}

/// A number of four bytes, the lowest first.
pub fn u32_of(c: &mut Cursor<'_>) -> Result<u32, ReadError>
    ensures { Gives (λ x. x) result c.new (number_at w32 c.old) }
{
    let front = c.take(4)?;
    Ok(u32::from_le_bytes([front[0], front[1], front[2], front[3]]))
}

/// A number of eight bytes, the lowest first.
pub fn u64_of(c: &mut Cursor<'_>) -> Result<u64, ReadError>
    ensures { Gives (λ x. x) result c.new (number_at w64 c.old) }
{
    let front = c.take(8)?;
    Ok(u64::from_le_bytes([
        front[0], front[1], front[2], front[3], front[4], front[5], front[6], front[7],
    ]))
}

/// The version, which has a sign.
#[tactic(auto, unfolding(crate::specs::within::Reading::version_at))]
pub fn version_of(c: &mut Cursor<'_>) -> Result<i32, ReadError>
    ensures { Gives (λ x. x) result c.new (version_at c.old) }
{
    let front = c.take(4)?;
    Ok(i32::from_le_bytes([front[0], front[1], front[2], front[3]]))
}

/// A CompactSize.
#[tactic(auto, unfolding(crate::specs::within::Reading::count_at))]
pub fn count_of(c: &mut Cursor<'_>) -> Result<u64, ReadError>
    ensures { Gives (λ x. x) result c.new (count_at c.old) }
{
    let n = read_compact(c)?;
    Ok(n)
}

/// Bytes after their number.
#[tactic(auto, unfolding(crate::specs::within::Reading::sized_at))]
pub fn sized_of<'a>(c: &mut Cursor<'a>) -> Result<BytesView<'a>, ReadError>
    ensures { Gives (λ x. x) result c.new (sized_at c.old) }
{
    let n = count_of(c)?;
    let front = bytes_of(c, n)?;
    Ok(BytesView::new(front))
}

/// The outpoint that an input spends.
#[tactic(auto, unfolding(crate::specs::within::Reading::outpoint_at))]
pub fn outpoint_of(c: &mut Cursor<'_>) -> Result<Outpoint, ReadError>
    ensures { Gives (λ x. x) result c.new (outpoint_at c.old) }
{
    let txid = hash_of(c)?;
    let index = u32_of(c)?;
    Ok(Outpoint { txid, index })
}
