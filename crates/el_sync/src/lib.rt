//! What the server does with the lines of a Bitcoin node, over any ledger and any block files: a place of the
//! files is looked at and its header kept, the ledger is moved along the path to a tip, one move at a time,
//! and unconfirmed transactions are kept, dropped and sifted.
#![tactic(auto)]

mod ahead;
mod comparing;
mod fault;
mod keeping;
mod making;
mod moving;
mod orders;

pub use ahead::Ahead;
pub use fault::StepFault;
pub use moving::{Step, move_next};
pub use orders::order;
