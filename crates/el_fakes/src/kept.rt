// What a link in memory keeps of what was sent and closed.
ghost use Rattle.std.specs.Prelude.{◌≡◌, [], ◌∷◌, ◌+◌, ◌<◌, ◌++◌, map, vec_len, vec_capacity, OnOk, OnErr};
ghost use Rattle.el_fakes.specs.Kept.{trace_message};

use el_base::{Bytes, OutOfMemory};
use el_outside::{Peer, Why};
use std::alloc::Global;

/// A message to a peer.
#[derive(Debug, Drop)]
pub struct Sent {
    /// To whom it was sent.
    pub peer: Peer,
    /// Its bytes.
    pub text: Bytes,
}

/// A peer that was closed, and why.
#[derive(Clone, Copy, Debug, PartialEq, Eq)]
pub struct Closed {
    /// The peer.
    pub peer: Peer,
    /// The one cause.
    pub why: Why,
}

// Adds a message after the others.
pub(crate) fn keep(
    alloc: Global,
    sent: &mut Vec<Sent>,
    peer: Peer,
    bytes: &[u8],
) -> Result<(), OutOfMemory>
    ensures ok { OnOk result (map trace_message sent.new.items
        ≡ map trace_message sent.old.items ++ record { peer = peer; text = bytes.now } ∷ []) }
    ensures err { OnErr result (map trace_message sent.new.items ≡ map trace_message sent.old.items) }
{
    let text = Bytes::from_slice(alloc, bytes)?;
    sent.push(Sent { peer, text })?;
    Ok(())
}

// Adds a closing after the others, in room that is there.
pub(crate) fn put_closed(closed: &mut Vec<Closed>, peer: Peer, why: Why)
    requires { vec_len closed.old < vec_capacity closed.old }
    ensures items { closed.new.items ≡ closed.old.items ++ record { peer = peer; why = why } ∷ [] }
    ensures len { vec_len closed.new ≡ vec_len closed.old + 1 }
    ensures room { vec_capacity closed.new ≡ vec_capacity closed.old }
{
    closed.push_reserved(Closed { peer, why });
}
