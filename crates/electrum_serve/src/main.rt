//! An Electrum server over block files.
#![tactic(auto)]

use el_program::{serve_all, tell_end};
use std::process::ExitCode;

fn main(rt: HostRuntime) -> ExitCode {
    tell_end(&rt, serve_all(&rt, &rt))
}
