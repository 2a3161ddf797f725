//! Runs in which no call of a device fails, over block files that have all that a run may ask of them:
//! nothing is told of a failure, and each request is answered as it is defined.
#![tactic(auto)]

mod laws;

pub use laws::{
    found_nodes_stand, found_records_are_whole, lines_are_answered_as_defined, runs_are_undisturbed,
};
