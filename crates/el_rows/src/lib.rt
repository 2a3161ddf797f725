//! Tables of rows: a store of them, transactions of edits over a store, and what a commit takes.
#![tactic(auto)]

mod edits;
mod faults;
mod late_edits;
mod open;
mod row_list;
mod rows;
mod sealed;
mod shown_rows;
mod table_edits;

pub use edits::{Edits, Layer};
pub use el_row_formats::{
    BlockRow, EntryRow, HeadRow, InRow, OutRow, RowKey, ScriptRow, State, TABLES, Table, TxRow,
};
pub use faults::{AppendFault, CommitFault};
pub use open::{Open, Txn};
pub use row_list::RowList;
pub use rows::Rows;
pub use sealed::{Run, Sealed};
