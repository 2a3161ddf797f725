//! Calls of the program over devices in memory, for tests. The blocks are Bitcoin's first two, or are made
//! from a few numbers; their hashes, txids and script hashes were computed by another program.
#![tactic(auto)]

mod block_files;
mod bringing;
mod calls;
mod forks;
mod names;
mod one_life;

pub use block_files::{Files, MAIN, Part, REGTEST, add_record, branch, files_of, one, only};
pub use bringing::{Step, coming, say, transcript};
pub use calls::{
    Counted, Failing, NONE_FAILS, ONCE, ONCE_MAIN, SERVE, SERVE_MAIN, TURNS, call_failing,
    call_steady, expect_ended, expect_sends, expect_sent, failing_from, fresh_disk, relay_with,
    serve_at, serve_by, serve_on, serve_over, steady_archive, steady_link, words_of,
};
pub use names::named;
pub use one_life::{IMAGE_COUNT, Life, NO_FILES, after_crash, is_settled, life_on};
