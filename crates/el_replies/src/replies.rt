// Replies with a result (JSON-RPC 2.0, section 5).
ghost use Rattle.std.specs.Prelude.{◌≡◌, IfOk, Ok, false};
ghost use Rattle.serde_json.specs.Written.{compact_text};
ghost use Rattle.el_json.specs.Lines.{IsPrintable};
ghost use Rattle.el_replies.specs.Envelopes.{reply_value};

use el_base::OutOfMemory;
use el_json::{Answer, Members};
use std::alloc::Global;

// A reply with a result.
fn result_reply(alloc: Global, id: Answer, found: Answer) -> Result<Answer, OutOfMemory>
    ensures { IfOk result (λ a. a ≡ reply_value id (Ok found)) }
{
    let mut members = Members::new(alloc);
    members.put(alloc, "id", id)?;
    members.put(alloc, "jsonrpc", Answer::from_str(alloc, "2.0")?)?;
    members.put(alloc, "result", found)?;
    Ok(members.into_answer())
}

/// The text of a reply with a result: compact, its members in byte order, with no byte 10.
pub(crate) fn result_text(alloc: Global, id: Answer, found: Answer) -> Result<Vec<u8>, OutOfMemory>
    requires id { IsPrintable id }
    requires found { IsPrintable found }
    ensures { IfOk result (λ text. text.items ≡ compact_text (reply_value id (Ok found))) }
{
    let reply = result_reply(alloc, id, found)?;
    reply.compact(alloc)
}
