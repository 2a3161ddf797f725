// The link to clients and to the node.
ghost use Rattle.std.specs.Prelude.{◌≡◌, ℕ, ◌<◌, ◌≤◌, IsTrue, [], ◌∷◌, length, IfOk, OnOk, OnErr, IsErrOf, MatchBool};
ghost use Rattle.el_outside.specs.Counts.{RoseBy, HasCause};
ghost use Rattle.el_outside.specs.Trace.{Trace, GoesOn, with_bytes, IsNextArrival, is_open, is_new, NamesNoClosed};

/// The size of the buffer that `Link::next` fills, in bytes.
pub const BUFFER_SIZE: usize = 65_536;

/// How many clients may be connected at once. A link opens one more, which is then closed.
pub const CLIENT_LIMIT: usize = 256;

/// A peer's number: 0 is the node, clients are 1 and up. No number is used twice.
pub type Peer = u32;

/// What `next` found.
#[derive(Clone, Copy, Debug, PartialEq, Eq)]
pub enum Arrival {
    /// A new peer.
    Opened(Peer),
    /// Bytes of a peer, and how many: from 1 to 65,536.
    Bytes(Peer, usize),
    /// A peer that left.
    Closed(Peer),
    /// Nothing in this pass over all peers.
    Quiet,
    /// Nothing comes any more.
    Ended,
}

/// The one cause of a closing.
#[derive(Clone, Copy, Debug, PartialEq, Eq)]
pub enum Why {
    /// A line above the limit.
    Long,
    /// The protocol version isn't shared.
    Version,
    /// One client too many.
    Clients,
    /// A send answered that the client is gone.
    Gone,
    /// A fault of the index device while the client was told of changes.
    Disk,
    /// Out of memory, for its bytes, its reply, what it was to be told, or the sending of it.
    Memory,
}

/// Why a message was not sent.
#[derive(Clone, Copy, Debug, PartialEq, Eq, thiserror::Error)]
pub enum SendFault {
    /// The link failed for this peer.
    #[error("the peer is gone")]
    Gone,
    /// There was no room for the message.
    #[error("out of memory")]
    Memory,
}

/// The link failed as a whole.
#[derive(Clone, Copy, Debug, PartialEq, Eq, thiserror::Error)]
#[error("link failed")]
pub struct LinkFailed;

/// The link to clients and to the node.
pub trait Link {
    /// Whether the link tells what went over it. One in memory does, a real one doesn't.
    ghost tells: { Type 0 };

    /// All that went over the link.
    ghost trace: { Self → Trace };

    /// No peer with a greater number was opened, left or was closed.
    ghost last: { Self → ℕ };

    /// How often `next` was called; it stands still at 2^64 - 1.
    ghost calls: { Self → ℕ };

    /// How often a call has failed; it stands still at 2^64 - 1.
    ghost faults: { Self → ℕ };

    /// The next arrival, whose bytes stand first in the buffer. It waits for peers as long as it takes.
    fn next(&mut self, buf: &mut [u8]) -> Result<Arrival, LinkFailed>
        requires { length buf.old ≡ BUFFER_SIZE }

        ensures lawful { IfOk result (λ arrival. IsNextArrival (last self.old) arrival (last self.new)) }
        ensures took { tells → IfOk result (λ arrival.
            GoesOn (trace self.old) (trace self.new) (with_bytes arrival buf.new ∷ []) [] []) }
        ensures silent { tells → IfOk result (λ arrival.
            NamesNoClosed (trace self.old) (with_bytes arrival buf.new)) }

        ensures none_taken { tells → OnErr result (trace self.new ≡ trace self.old) }
        ensures same_last { OnErr result (last self.new ≡ last self.old) }

        ensures called { RoseBy (calls self.old) (calls self.new) 1 }
        ensures cause { HasCause (faults self.old) (faults self.new) result };

    /// Sends one message to a peer. A fault sends nothing of it.
    fn send(&mut self, p: Peer, bytes: &[u8]) -> Result<(), SendFault>
        ensures sent { tells → OnOk result
            (GoesOn (trace self.old) (trace self.new) [] (record { peer = p; text = bytes.now } ∷ []) []) }

        ensures not_sent { tells → OnErr result (trace self.new ≡ trace self.old) }
        ensures same_last { last self.new ≡ last self.old }
        ensures same_calls { calls self.new ≡ calls self.old }

        // A peer that is gone is a fault, and nothing else is.
        ensures counted { IsErrOf result SendFault.Gone → RoseBy (faults self.old) (faults self.new) 1 }
        ensures uncounted { OnOk result (faults self.new ≡ faults self.old) }
        ensures memory_uncounted { IsErrOf result SendFault.Memory → faults self.new ≡ faults self.old };

    /// Closes a peer; for one that isn't open nothing changes. It can't fail.
    fn close(&mut self, p: Peer, why: Why)
        ensures closed { tells → MatchBool (is_open (trace self.old) p)
            (GoesOn (trace self.old) (trace self.new) [] [] (record { peer = p; why = why } ∷ []))
            (trace self.new ≡ trace self.old) }

        ensures same_last { last self.new ≡ last self.old }
        ensures same_calls { calls self.new ≡ calls self.old }

        ensures uncounted { faults self.new ≡ faults self.old };

    /// A greater number is new.
    ghost greater_is_new: { (link : Self) (p : ℕ) → tells → last link < p → IsTrue (is_new (trace link) p) };
}
