//! The words of the command line, and the command that they ask for.
#![tactic(auto)]

mod laws;
mod options;
mod proof_words;
mod reading;
mod words;

pub use laws::words_are_of_one_command;
pub use proof_words::proof_of;
pub use words::{
    Command, Network, ProofWords, ServeSettings, ServeWords, audit_of, check_of, greatest_limits,
    once_of, read_words, serve_of,
};
