//! The desk of broadcasts: transactions of wallets go to the relay, each at most once.
#![tactic(auto)]

mod desk;
mod fault;
mod laws;

pub use desk::{Desk, MOST_TXIDS};
pub use fault::OfferFault;
pub use laws::causes_are_answered;
