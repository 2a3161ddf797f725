//! What the server stands for, what each event does to it, and what a whole run may send: `specs/` has the
//! definitions that the server is proved against.
#![tactic(auto)]

mod laws;

pub use laws::{acknowledged_is_told_last, replies_keep_told};
