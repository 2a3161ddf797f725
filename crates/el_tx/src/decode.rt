// Reading a transaction.
ghost use Rattle.std.specs.Prelude.{◌≡◌, ◌≢◌, ◌⊎◌, ℕ, List, ◌++◌, ◌≤◌, length, take, IfOk, IfErr, Ok, Err};
ghost use Rattle.el_tx.specs.Encoding.{Encodes};
ghost use Rattle.el_tx.specs.FirstFault.{FirstFault};
ghost use Rattle.el_tx.specs.within.Reading as spec;
ghost use Rattle.el_tx.specs.within.Reading.{Gives, Answers, bytes_at, flag_at, form_at, stripped_at, witnessed_at, tx_at};
ghost use Rattle.el_tx.specs.declared.types.Tx as shape;
ghost use Rattle.el_tx.specs.declared.fault.TxFault.{TxFault};

use crate::fault::TxFault;
use crate::own::own_tx;
use crate::reading::{ReadError, bytes_of, u32_of, version_of};
use crate::reading_parts::{body_of, witnesses_of};
use crate::tx_view::{TxParts, TxView};
use crate::types::Tx;
use el_base::{Cursor, OutOfMemory};
use std::alloc::Global;

// The flag, which is 1.
#[tactic(auto, unfolding(crate::specs::within::Reading::flag_at))]
fn flag_of(c: &mut Cursor<'_>) -> Result<bool, ReadError>
    ensures { Gives (λ x. x) result c.new (flag_at c.old) }
{
    let place = c.place();
    let flag = bytes_of(c, 1)?;
    if flag != [1].as_slice() {
        return Err(ReadError::Fault(TxFault::BadFlag { place }));
    }
    Ok(true)
}

// Whether the marker stands in front.
fn is_marked(bytes: &[u8]) -> bool
    ensures { result ≡ spec.is_marked bytes.now }
{
    matches!(bytes, [0, ..])
}

// Marker and flag, where they stand: whether the form is that with witnesses.
#[tactic(auto, unfolding(crate::specs::within::Reading::form_at))]
fn form_of(c: &mut Cursor<'_>) -> Result<bool, ReadError>
    ensures { Gives (λ x. x) result c.new (form_at c.old) }
{
    if !is_marked(c.rest()) {
        return Ok(false);
    }
    let _marker = bytes_of(c, 1)?;
    flag_of(c)
}

// The rest of the form without witnesses.
#[tactic(auto, unfolding(crate::specs::within::Reading::stripped_at))]
fn stripped_of<'a>(
    alloc: Global,
    c: &mut Cursor<'a>,
    version: i32,
) -> Result<TxParts<'a>, ReadError>
    ensures { Gives (λ x. x) result c.new (stripped_at version c.old) }
{
    let (inputs, outputs) = body_of(alloc, c)?;
    let lock = u32_of(c)?;
    Ok(TxParts::new(version, inputs, outputs, lock))
}

// The rest of the form with witnesses.
#[tactic(auto, unfolding(crate::specs::within::Reading::witnessed_at))]
fn witnessed_of<'a>(
    alloc: Global,
    c: &mut Cursor<'a>,
    version: i32,
) -> Result<TxParts<'a>, ReadError>
    ensures { Gives (λ x. x) result c.new (witnessed_at version c.old) }
{
    let (inputs, outputs) = body_of(alloc, c)?;
    let inputs = witnesses_of(alloc, c, inputs)?;
    let lock = u32_of(c)?;
    Ok(TxParts::new(version, inputs, outputs, lock))
}

#[tactic(auto, unfolding(crate::specs::within::Reading::tx_at))]
fn parts_of<'a>(alloc: Global, c: &mut Cursor<'a>) -> Result<TxParts<'a>, ReadError>
    ensures { Gives (λ x. x) result c.new (tx_at c.old) }
{
    let version = version_of(c)?;
    if form_of(c)? {
        witnessed_of(alloc, c, version)
    } else {
        stripped_of(alloc, c, version)
    }
}

// The transaction and how many bytes encode it, as reading gives them.
fn read_view(alloc: Global, bytes: &[u8]) -> Result<(TxView<'_>, usize), TxFault>
    ensures { Answers result (tx_at (record { place = 0; rest = bytes.now })) }
{
    let mut c = Cursor::new(bytes);
    match parts_of(alloc, &mut c) {
        Ok(parts) => {
            let size = c.place();
            Ok((TxView::new(parts, size), size))
        }
        Err(ReadError::Memory) => Err(TxFault::Memory),
        Err(ReadError::Fault(fault)) => Err(fault),
    }
}

// The same, with scripts and witnesses of its own.
fn read_tx(alloc: Global, bytes: &[u8]) -> Result<(Tx, usize), TxFault>
    ensures { Answers result (tx_at (record { place = 0; rest = bytes.now })) }
{
    match read_view(alloc, bytes) {
        Ok((view, size)) => match own_tx(alloc, &view) {
            Ok(tx) => Ok((tx, size)),
            Err(OutOfMemory) => Err(TxFault::Memory),
        },
        Err(fault) => Err(fault),
    }
}

/// Reads one transaction from the front of the bytes as `decode_tx` does, but leaves its scripts and the
/// items of its witnesses where they stand.
///
/// # Errors
///
/// Those of `decode_tx`.
pub fn view_tx(alloc: Global, bytes: &[u8]) -> Result<(TxView<'_>, usize), TxFault>
    // What is read is encoded so.
    ensures read { IfOk result (λ r. (r.1 ≤ length bytes.now) × Encodes (take r.1 bytes.now) r.0) }
    // What is encoded so is read, whatever follows it.
    ensures only { result ≢ Err TxFault.Memory → (front rest : List ℕ) (tx : shape.Tx)
        → Encodes front tx → bytes.now ≡ front ++ rest → result ≡ Ok (tx, length front) }
    // A fault is the first one from left to right.
    ensures fault { IfErr result (λ e. (e ≡ TxFault.Memory) ⊎ FirstFault bytes.now e) }
    // The first fault from left to right is found.
    ensures first_fault { result ≢ Err TxFault.Memory → (e : TxFault) → FirstFault bytes.now e
        → result ≡ Err e }
{
    read_view(alloc, bytes)
}

/// Reads one transaction from the front of the bytes, and answers how many bytes encode it. Other bytes may
/// follow it.
///
/// Both forms are read: that without marker, flag and witnesses, and that of BIP 144 with them. Numbers are
/// little endian, values are in satoshi, and hashes stay in the order in which they stand.
///
/// # Errors
///
/// The first fault from left to right. `TxFault::Memory` comes where no memory is found, whatever the bytes
/// are.
pub fn decode_tx(alloc: Global, bytes: &[u8]) -> Result<(Tx, usize), TxFault>
    // What is read is encoded so.
    ensures read { IfOk result (λ r. (r.1 ≤ length bytes.now) × Encodes (take r.1 bytes.now) r.0) }
    // What is encoded so is read, whatever follows it.
    ensures only { result ≢ Err TxFault.Memory → (front rest : List ℕ) (tx : shape.Tx)
        → Encodes front tx → bytes.now ≡ front ++ rest → result ≡ Ok (tx, length front) }
    // A fault is the first one from left to right.
    ensures fault { IfErr result (λ e. (e ≡ TxFault.Memory) ⊎ FirstFault bytes.now e) }
    // The first fault from left to right is found.
    ensures first_fault { result ≢ Err TxFault.Memory → (e : TxFault) → FirstFault bytes.now e
        → result ≡ Err e }
{
    read_tx(alloc, bytes)
}
