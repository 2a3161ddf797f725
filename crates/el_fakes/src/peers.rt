// The open peers of a link in memory.
ghost use Rattle.std.specs.Prelude.{◌≡◌, ℕ, ◌+◌, ◌==◌, ◌≤◌, List, [], ◌++◌, length, vec_len, vec_capacity};
ghost use Rattle.std.specs.List.{list_any};
ghost use Rattle.el_fakes.specs.within.Peers.{adds, greatest_after, peers_after, but, closed_in};

use crate::kept::Closed;
use el_outside::{Arrival, Peer};

// Whether the peer is one of these.
pub(crate) fn is_among(peers: &[Peer], p: Peer) -> bool
    ensures { result ≡ list_any (λ q. p == q) peers.now }
{
    peers.iter().any(|q| p == *q)
}

// Whether the peer was closed.
pub(crate) fn is_closed(closed: &[Closed], p: Peer) -> bool
    ensures { result ≡ closed_in closed.now p }
{
    closed.iter().any(|c| p == c.peer)
}

// Takes the peer out.
pub(crate) fn remove(peers: &mut Vec<Peer>, p: Peer)
    ensures without { peers.new.items ≡ but p peers.old.items }
    ensures room { vec_capacity peers.new ≡ vec_capacity peers.old }
{
    peers.retain(|q| p != *q);
}

// The open peers after an arrival, and the greatest number by then.
pub(crate) fn welcome(peers: &mut Vec<Peer>, last: Peer, arrival: Arrival) -> Peer
    requires { vec_len peers.old + adds arrival ≤ vec_capacity peers.old }
    ensures peers { peers.new.items ≡ peers_after peers.old.items arrival }
    ensures last { result ≡ greatest_after last arrival }
    ensures room { vec_capacity peers.new ≡ vec_capacity peers.old }
{
    match arrival {
        Arrival::Opened(p) => {
            peers.push_reserved(p);
            last.max(p)
        }
        Arrival::Closed(p) => {
            remove(peers, p);
            last.max(p)
        }
        _ => last,
    }
}
