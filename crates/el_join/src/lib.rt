//! A transaction joins those that are kept, or is refused with the first cause there is; and one is dropped,
//! with all that spend it.
#![tactic(auto)]

mod adding;
mod asking;
mod conflicts;
mod examining;
mod removing;
mod room;

pub use adding::add_to;
pub use removing::drop_from;
