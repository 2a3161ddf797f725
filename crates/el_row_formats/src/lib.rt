//! The eight tables of an index, and the bytes of their rows.
#![tactic(auto)]

mod block_row;
mod entry_row;
mod fields;
mod head_row;
mod in_row;
mod limits;
mod out_row;
mod script_row;
mod table;
mod tx_row;

pub use block_row::BlockRow;
pub use entry_row::EntryRow;
pub use head_row::HeadRow;
pub use in_row::InRow;
pub use limits::{MAX_HEAD_BITS, MAX_NUMBER, MIN_HEAD_BITS, bucket_count};
pub use out_row::{OutRow, State};
pub use script_row::ScriptRow;
pub use table::{RowKey, TABLES, Table};
pub use tx_row::TxRow;
