//! What the unconfirmed set keeps: its transactions by txid, in order of arrival, who takes an outpoint, and
//! which transactions concern a script hash; and what outpoints name over them and a ledger.
#![tactic(auto)]

mod found;
mod listing;
mod putting;
mod retaking;
mod sums;
mod table;
mod taking;
mod telling;
mod touching;

pub use found::{FoundOutput, Taken, any_with, flag_of, output_or_coin};
pub use listing::{Listing, list_under, unlist};
pub use putting::join;
pub use retaking::{Takes, is_as_was, is_of_kept, retake};
pub use sums::{fee_of, held_in, taken_by};
pub use table::{Table, empty_table, kept_under, output_in, taker_in};
pub use taking::{take_out_all, tidy};
pub use telling::{entries_at, outs_at};
pub use touching::{scripts_of, touch, touch_entry, touch_inputs, touch_outputs, touched_by};
