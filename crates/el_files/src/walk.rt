// The walk over a piece of a file.
ghost use Rattle.std.specs.Prelude.{◌≡◌, ◌+◌, ◌<◌, ◌≤◌, ℕ, List, take, length, IfOk};
ghost use Rattle.el_outside.specs.declared.archive.TheConstants.{SIZE_LIMIT};
ghost use Rattle.el_files.specs.Appending.{AppendsOnly};
ghost use Rattle.el_files.specs.within.Finding.{IsHeadIn};
ghost use Rattle.el_files.specs.within.Walking.{Walked};

use crate::heads::node_in;
use crate::limits::HEAD_SIZE;
use el_base::OutOfMemory;
use el_chain::{Node, PREFIX_SIZE};

/// Walks over a piece that stands at the place `at` of a file, which has `left` bytes from there on, and
/// appends the blocks whose records' heads stand in it. It answers how many bytes were passed: all but
/// those at the end that are too few for a head, or more where a record ends after the piece.
pub fn walk(
    piece: &[u8],
    magic: [u8; 4],
    file: u32,
    at: u64,
    left: u64,
    found: &mut Vec<Node>,
) -> Result<u64, OutOfMemory>
    requires front { length piece.now ≤ left }
    requires small { at + left < SIZE_LIMIT }
    // What was appended are the records that were passed, whatever stands after the piece.
    ensures walked { (bytes : List ℕ) → length bytes ≡ left → piece.now ≡ take (length piece.now) bytes
        → (passed : ℕ) × Walked magic file at passed bytes found.old.items found.new.items
        × IfOk result (λ n. n ≡ passed) }
    ensures nodes { AppendsOnly (IsHeadIn magic file at piece.now) found.old.items found.new.items }
    ensures far { IfOk result (λ n. (length piece.now < n + HEAD_SIZE) × (n ≤ left)) }
{
    let mut passed = 0usize;
    while passed + HEAD_SIZE <= piece.len() {
        match node_in(
            &piece[passed..],
            magic,
            file,
            at + passed as u64,
            left - passed as u64,
        ) {
            Some(node) => {
                found.push(node)?;
                passed += (PREFIX_SIZE + node.place.len) as usize;
            }
            None => passed += 1,
        }
    }
    Ok(passed as u64)
}
