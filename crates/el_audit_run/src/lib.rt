//! The command `audit`, but for its words and its devices: what an index answers of every script hash of its
//! chain is compared with the blocks that the block files have, and what was found is told in one line.
#![tactic(auto)]

mod asking;
mod bytes;
mod chain;
mod fault;
mod finding;
mod laws;
mod line;
mod running;
mod watch;

pub use bytes::MAX_AUDIT_BYTES;
pub use fault::AuditFault;
pub use finding::Finding;
pub use laws::audit_of_its_own_blocks_is_the_same;
pub use running::audit_index;
pub use watch::{AuditWatch, Step};
