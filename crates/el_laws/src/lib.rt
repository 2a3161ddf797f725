//! Laws over several crates of the index. Each function makes the calls that its law is of.
#![tactic(auto)]

mod exact;
mod going;
mod life;
mod undoing;
mod versioned_rows;

pub use exact::rows_of_two_indexes;
pub use going::{Mark, Stop, go_on};
pub use life::moves_over_versions;
pub use undoing::{connect_and_disconnect, disconnect_and_connect};
pub use versioned_rows::VersionedRows;
