//! What clients see of a script hash: over a ledger's chain and the unconfirmed set together.
#![tactic(auto)]

mod sums;
mod texts;
mod views;

pub use views::{Balance, view_balance, view_history, view_status, view_unspent};
