//! Scripts by number and by script hash, and the entries of their histories, in the rows of an index.
#![tactic(auto)]

mod adding;
mod lookup;
mod row;
mod take_back;
mod touching;

pub use lookup::{FoundScript, find_script, found_script};
pub use take_back::take_back_entry;
pub use touching::{touch, touch_number};
