//! The status of a script hash (Electrum Protocol 1.4), hashed piece by piece, and what leaves it as it was.
#![tactic(auto)]

mod hashing;
mod laws;

pub use hashing::StatusHash;
pub use laws::{looks_go_on, touched_is_exact, untouched_by_a_move, untouched_status_stays};
