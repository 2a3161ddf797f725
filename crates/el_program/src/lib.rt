//! The program: the words of the command line, the opening, calls of `serve`, statuses.
#![tactic(auto)]

mod audited;
mod checked;
mod complete;
mod failures;
mod file;
mod index_disk;
mod index_headers;
mod laws;
mod lives;
mod opening;
mod other_chain;
mod own_audits;
mod program;
mod proof;
mod serving;
mod starting;
mod status;
mod telling;

pub use complete::calls_without_failures_are_complete;
pub use file::{FileFault, read_chain};
pub use laws::file_without_padding_gives_chain;
pub use lives::{Between, live, lives_go_on};
pub use own_audits::audits_of_own_blocks_are_the_same;
pub use program::{serve_all, tell_end};
pub use serving::serve;
pub use starting::serve_index;
pub use status::Status;
pub use telling::Untold;
