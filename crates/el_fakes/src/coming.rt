// What a link in memory brings.
use el_base::Bytes;
use el_outside::Peer;

/// A step of what comes over a link in memory.
#[derive(Debug, Drop)]
pub enum Coming {
    /// A new peer.
    Opened(Peer),
    /// Bytes of a peer. Those above 65,536 come in pieces.
    Bytes(Peer, Bytes),
    /// A peer that leaves.
    Closed(Peer),
    /// Nothing in this pass over all peers.
    Quiet,
}
