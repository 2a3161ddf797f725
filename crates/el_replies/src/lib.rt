//! What comes of a client's line: its requests are answered in order, and the replies printed.
#![tactic(auto)]

mod batch;
mod broadcast;
mod error_room;
mod line;
mod replies;
mod requested;

pub use batch::BATCH_LIMIT;
pub use line::{LineReply, reply_line};
pub use requested::answer_request;
