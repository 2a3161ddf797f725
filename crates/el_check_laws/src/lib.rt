//! Laws of the command `check-chain`: which numbers its summary has, and which blocks its index then stands
//! for. Each function states a law and does nothing when it runs.
#![tactic(auto)]

mod laws;

pub use laws::{
    check_leads_along_both_branches, made_chains_are_good, made_file_has_so_many_bytes,
    one_path_leads_to_each_tip, scan_finds_made_blocks, tip_line_says_its_tip,
};
