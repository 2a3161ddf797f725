//! The command `check-chain`, but for its words and its devices: an index is led over a file of blocks that
//! is made for it, as a node's tip lines lead the server, and what it then has is summed up in one line.
#![tactic(auto)]

mod checking;
mod headers;
mod leading;
mod summary;
mod walking;

pub use checking::check_chain;
pub use summary::Summary;
