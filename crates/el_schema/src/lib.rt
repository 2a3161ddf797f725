//! What the rows of an index mean: of which tables they are, and for which chain they stand; and each row by
//! its number.
#![tactic(auto)]

mod laws;
mod reading;

pub use laws::{
    first_rows_stand, heads_are_there, rows_of_one_chain_are_equal, rows_that_stand_hold_the_lists,
    same_rows_stand,
};
pub use reading::{block_row, entry_row, in_row, out_row, script_row, tx_row};
