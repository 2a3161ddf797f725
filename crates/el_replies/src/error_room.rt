// Room for the reply with an error to a request, taken before the request is asked.
ghost use Rattle.std.specs.Prelude.{◌≡◌, ◌<◌, ◌≤◌, ◌+◌, ◌++◌, length, vec_capacity, option_map, IfOk};
ghost use Rattle.serde_json.specs.Written.{compact_text};
ghost use Rattle.el_json.specs.Lines.{IsPrintable, IsPrintableId};
ghost use Rattle.el_replies.specs.within.Errors.{error_start, error_text};

use el_base::{OutOfMemory, extend_reserved};
use el_calls::Refusal;
use el_json::Answer;
use itoa::Buffer;
use std::alloc::Global;
use std::marker::Model;

/// How many bytes a reply with an error and one byte more have at most beside its id: more than any of
/// `{"error":{"code":-32601,"message":"version already agreed"},"id":` and `,"jsonrpc":"2.0"}`.
pub(crate) const ERROR_SIZE: usize = 128;

/// Room for a reply with an error to a request, so that it is written without memory. Contracts see the text
/// of the request's id.
#[derive(Drop)]
pub(crate) struct ErrorRoom {
    line: Vec<u8>,
    id: Vec<u8>,
}

impl Model for ErrorRoom {
    ghost use Rattle.std.specs.Prelude.{◌≡◌, ◌≤◌, ◌+◌, ℕ, List, [], length, vec_capacity};
    ghost use Rattle.el_replies.specs.declared.error_room.TheConstants.{ERROR_SIZE};

    ghost Value = { List ℕ };

    ghost view = { λ r. r.id.items };

    ghost invariant = { λ r. (r.line.items ≡ [])
        × (length r.id.items + ERROR_SIZE ≤ vec_capacity r.line) };
}

// Adds the error's text up to the id.
fn put_start(line: &mut Vec<u8>, refusal: Refusal)
    requires { length line.old.items + 96 ≤ vec_capacity line.old }
    ensures items { line.new.items ≡ line.old.items ++ error_start refusal }
    ensures room { vec_capacity line.old ≤ vec_capacity line.new }
    ensures short { length (error_start refusal) ≤ 96 }
{
    let mut digits = Buffer::new();
    extend_reserved(line, b"{\"error\":{\"code\":");
    extend_reserved(line, digits.format(refusal.code()).as_bytes());
    extend_reserved(line, b",\"message\":\"");
    extend_reserved(line, refusal.message().as_bytes());
    extend_reserved(line, b"\"},\"id\":");
}

impl ErrorRoom {
    /// Takes the room for the reply to the request with this id. Fails only where memory runs out.
    pub(crate) fn new(alloc: Global, id: &Answer) -> Result<ErrorRoom, OutOfMemory>
        requires { IsPrintable id.now }
        ensures { IfOk result (λ room. room ≡ compact_text id.now) }
    {
        let id = id.compact(alloc)?;
        let mut line = Vec::new(alloc);
        line.try_reserve(id.len() + ERROR_SIZE)?;
        Ok(ErrorRoom { line, id })
    }

    /// How many bytes the id has.
    pub(crate) fn id_len(&self) -> usize
        ensures { result ≡ length self.now }
    {
        self.id.len()
    }

    /// The reply with this error, and room for one byte more. Takes no memory.
    pub(crate) fn into_error(self, refusal: Refusal) -> Vec<u8>
        ensures text { result.items ≡ error_text self refusal }
        ensures short { length result.items < length self + ERROR_SIZE }
        ensures room { length result.items < vec_capacity result }
    {
        let ErrorRoom { line, id } = self;
        let mut line = line;
        put_start(&mut line, refusal);
        extend_reserved(&mut line, id.as_slice());
        extend_reserved(&mut line, b",\"jsonrpc\":\"2.0\"}");
        line
    }
}

/// The room for the reply to the request with this id; none for a notification, which gets no reply.
pub(crate) fn room_for(alloc: Global, id: &Option<Answer>) -> Result<Option<ErrorRoom>, OutOfMemory>
    requires { IsPrintableId id.now }
    ensures { IfOk result (λ room. room ≡ option_map compact_text id.now) }
{
    match id {
        Some(id) => Ok(Some(ErrorRoom::new(alloc, id)?)),
        None => Ok(None),
    }
}
