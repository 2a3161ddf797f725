//! Kept transactions over another chain: which of them stay, what they then take, and which script hashes
//! change.
#![tactic(auto)]

mod confirming;
mod exchanging;
mod moving;
mod reach;
mod renewing;

pub use moving::sift_table;
pub use reach::Reach;
