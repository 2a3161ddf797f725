// Room for what a node is answered.
ghost use Rattle.std.specs.Prelude.{◌≡◌, ◌≤◌, ◌+◌, ◌++◌, [], length, vec_capacity};

use el_base::{OutOfMemory, extend_reserved};
use std::alloc::Global;
use std::marker::Model;

/// How many bytes a line to the node has at most, with its byte 10: more than any of `refused missing`, with
/// 64 digits of a hash and 10 of a number, or `refused overspends`, with two numbers of 20 digits.
pub const ANSWER_SIZE: usize = 128;

/// Room for any line to the node, so that it is written without memory.
#[derive(Debug, Drop)]
pub struct AnswerRoom {
    bytes: Vec<u8>,
}

impl Model for AnswerRoom {
    ghost use Rattle.std.specs.Prelude.{◌≡◌, ◌≤◌, ℕ, List, [], vec_capacity};
    ghost use Rattle.el_lines.specs.declared.answer_room.TheConstants.{ANSWER_SIZE};

    ghost Value = { List ℕ };

    ghost view = { λ r. r.bytes.items };

    ghost invariant = { λ r. (r.bytes.items ≡ []) × (ANSWER_SIZE ≤ vec_capacity r.bytes) };
}

impl AnswerRoom {
    /// Takes the room. Fails only where memory runs out.
    pub fn new(alloc: Global) -> Result<AnswerRoom, OutOfMemory> {
        let mut bytes = Vec::new(alloc);
        bytes.try_reserve(ANSWER_SIZE)?;
        Ok(AnswerRoom { bytes })
    }

    // The room as an empty vector.
    pub(crate) fn into_vec(self) -> Vec<u8>
        ensures empty { result.items ≡ [] }
        ensures room { ANSWER_SIZE ≤ vec_capacity result }
    {
        let AnswerRoom { bytes } = self;
        bytes
    }
}

// Bytes more, for which there is room.
pub(crate) fn and_then(line: Vec<u8>, bytes: &[u8]) -> Vec<u8>
    requires { length line.items + length bytes.now ≤ vec_capacity line }
    ensures items { result.items ≡ line.items ++ bytes.now }
    ensures room { vec_capacity line ≤ vec_capacity result }
{
    let mut line = line;
    extend_reserved(&mut line, bytes);
    line
}
