//! The header tree: every block header that was found, in any order of arrival, and the path that leads
//! from the genesis to one of them.
#![tactic(auto)]

mod answer;
mod attach;
mod laws;
mod path;
mod table;
mod tree;

pub use answer::{Added, PathEnd, PathFault};
pub use laws::{found_stays_found, path_is_one, paths_stay_and_go_on};
pub use tree::HeaderTree;
