// The lines of a node.
ghost use Rattle.std.specs.Prelude.{◌≡◌, ◌≤◌, ◌%◌, ◌↔◌, ℕ, List, ◌++◌, length, IsTrue, IfOk, IfErr, MatchOption};
ghost use Rattle.std.specs.List.{AllPass};
ghost use Rattle.hex.specs.Hex.{is_hex_digit};
ghost use Rattle.el_base.specs.Shown.{Shows};
ghost use Rattle.el_lines.specs.NodeLines.{ShowsPlace, ShowsBytes, ReadsNodeLine};
ghost use Rattle.el_lines.specs.ReadLines.{as_said, IsLineRefused};
ghost use Rattle.el_lines.specs.within.Texts.{TextIsRefused};

use crate::bytes::{byte_at, bytes_before, bytes_from};
use crate::number::number_of;
use el_base::{Bytes, Hash32};
use std::alloc::Global;

/// What a line of a node says.
#[derive(Debug, PartialEq, Eq, Drop)]
pub enum NodeLine {
    /// `block F O`: a block stands in the block file of number `file`, at the place `at` of that file, from 0
    /// to 2^63 - 1, counted in bytes from 0.
    Block { file: u32, at: u64 },
    /// `tip H`: the tip of the node's chain is the block of this hash.
    Tip(Hash32),
    /// `tx HEX`: the node has a transaction, of which these are the bytes (one at least). They may be no
    /// transaction's.
    Tx(Bytes),
    /// `drop TXID`: the node no longer has the transaction of this txid.
    Drop(Hash32),
}

/// Why a line of a node was not read.
#[derive(Clone, Copy, Debug, PartialEq, Eq, thiserror::Error)]
pub enum NodeLineFault {
    /// It has none of the four forms.
    #[error("no line of a node")]
    Line,
    /// It gives a transaction, and the memory for the transaction's bytes runs out.
    #[error("out of memory")]
    Memory,
}

// What stands after the word that the line begins with.
fn after_word<'a>(line: &'a [u8], word: &[u8]) -> Option<&'a [u8]>
    ensures { MatchOption result
        ((text : List ℕ) → line.now ≡ word.now ++ text → ⊥)
        (λ text. line.now ≡ word.now ++ text.now) }
{
    if line.len() < word.len() {
        return None;
    }
    if bytes_before(line, word.len()) != word {
        return None;
    }
    Some(bytes_from(line, word.len()))
}

// The file's number and the place in it, with a blank between.
fn place_of(text: &[u8]) -> Option<(u32, u64)>
    ensures { MatchOption result
        ((file place : ℕ) → ShowsPlace text.now file place → ⊥)
        (λ p. ShowsPlace text.now p.0 p.1) }
{
    let Some(blank) = byte_at(text, b' ') else {
        return None;
    };
    let Some(file) = number_of(bytes_before(text, blank), 10, 4_294_967_296) else {
        return None;
    };
    let Some(place) = number_of(bytes_from(text, blank + 1), 20, 9_223_372_036_854_775_808) else {
        return None;
    };
    Some((file as u32, place))
}

// Whether the text is hex for a byte or more.
fn is_hex_text(text: &[u8]) -> bool
    ensures { IsTrue result
        ↔ ((2 ≤ length text.now) × (length text.now % 2 ≡ 0) × AllPass is_hex_digit text.now) }
{
    if text.len() < 2 || text.len() % 2 != 0 {
        return false;
    }
    text.iter().all(|b| b.is_ascii_hexdigit())
}

// The bytes that the hex text shows.
fn bytes_of(alloc: Global, text: &[u8]) -> Result<Bytes, NodeLineFault>
    ensures read { IfOk result (λ bytes. ShowsBytes text.now bytes) }
    ensures refused { IfErr result (TextIsRefused text.now) }
{
    if !is_hex_text(text) {
        return Err(NodeLineFault::Line);
    }
    match hex::decode(alloc, text) {
        Ok(bytes) => Ok(Bytes::from_vec(bytes)),
        Err(_) => Err(NodeLineFault::Memory),
    }
}

// The hash that the text shows.
fn hash_of(text: &[u8]) -> Result<Hash32, NodeLineFault>
    ensures read { IfOk result (λ hash. Shows text.now hash.0) }
    ensures refused { IfErr result (λ e.
        (e ≡ NodeLineFault.Line) × ((hash : List ℕ) → Shows text.now hash → ⊥)) }
{
    match Hash32::from_shown_bytes(text) {
        Ok(hash) => Ok(hash),
        Err(_) => Err(NodeLineFault::Line),
    }
}

/// Reads a line of a node, given without the byte 10 that ended it. Hex digits may be in upper case, lower
/// case or both, and numbers may begin with zeros, where they have no more than 10 digits for a file and 20
/// for a place. No memory is taken but for a transaction's bytes.
pub fn read_node_line(alloc: Global, line: &[u8]) -> Result<NodeLine, NodeLineFault>
    ensures read { IfOk result (λ said. ReadsNodeLine line.now (as_said said)) }
    ensures refused { IfErr result (IsLineRefused line.now) }
{
    if let Some(text) = after_word(line, b"block ") {
        return match place_of(text) {
            Some((file, at)) => Ok(NodeLine::Block { file, at }),
            None => Err(NodeLineFault::Line),
        };
    }
    if let Some(text) = after_word(line, b"tip ") {
        return Ok(NodeLine::Tip(hash_of(text)?));
    }
    if let Some(text) = after_word(line, b"tx ") {
        return Ok(NodeLine::Tx(bytes_of(alloc, text)?));
    }
    if let Some(text) = after_word(line, b"drop ") {
        return Ok(NodeLine::Drop(hash_of(text)?));
    }
    Err(NodeLineFault::Line)
}
