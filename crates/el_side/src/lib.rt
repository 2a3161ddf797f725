//! What the node leads: its side of the world, the steps of its lines, and what the server holds for them.
#![tactic(auto)]

mod caches;
mod holdings;
mod laws;

pub use caches::Caches;
pub use holdings::Holdings;
pub use laws::{common_is_the_prefix, moves_are_the_plan};
