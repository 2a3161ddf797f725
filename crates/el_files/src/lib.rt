//! The blocks of the node's block files: where they stand, their bytes and those of their transactions. A
//! read notices that the bytes have changed since the block or the transaction was found there.
#![tactic(auto)]

mod heads;
mod laws;
mod limits;
mod lookup;
mod reading;
mod scanning;
mod walk;

pub use el_chain::{ReadFault, ScanFault, read_block};
pub use laws::{padding_adds_no_records, records_stand, scan_of_one_sight, scan_without_padding};
pub use lookup::record_at;
pub use reading::read_tx;
pub use scanning::{scan, scan_file};
