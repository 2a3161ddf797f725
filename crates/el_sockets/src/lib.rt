//! The sockets of the node and of the clients: two ports on 127.0.0.1, and what has come over them, in passes
//! over all peers of which none waits for one that is slow. What real sockets bring is beyond any contract.
#![tactic(auto)]

mod calls;
mod connection;
mod listener;
mod sockets;
mod unsent;

pub use sockets::{Ports, Room, SocketFailure, SocketPart, Sockets};
