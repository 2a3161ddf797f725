//! Tables of rows in memory, and a store over them.
#![tactic(auto)]

mod vec_rows;

pub use vec_rows::{MemRows, VecRows};
