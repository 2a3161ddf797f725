//! The loop over the link: each arrival of a node or of clients is taken, and all that it asks for is sent,
//! before the next. It runs over any ledger, block files and link, from a chain and the headers that were
//! found, and knows neither how these were opened nor how the program tells its end.
#![tactic(auto)]

mod end;
mod halt;
mod laws;
mod options;
mod running;
mod sending;
mod starting;

pub use end::End;
pub use laws::no_block_is_invented;
pub use options::RunOptions;
pub use starting::serve_from;
