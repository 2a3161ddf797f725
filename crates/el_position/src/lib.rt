//! Transactions by number and by txid, in the rows of an index.
#![tactic(auto)]

mod add;
mod lookup;
mod take_back;

pub use add::add_tx;
pub use lookup::{NumberedTx, newest, newest_row};
pub use take_back::take_back_tx;
