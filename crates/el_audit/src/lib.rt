//! An audit of a ledger's answers against whole blocks, and the checks by which a wallet takes a proof.
#![tactic(auto)]

mod auditing;
mod checkers;
mod claim;
mod collecting;
mod comparing;
mod concerned;
mod laws;
mod lists;
mod owned;
mod scripts;
mod walking;

pub use auditing::audit;
pub use checkers::{check_header, check_tx};
pub use claim::{Claim, Kind, Report};
pub use collecting::collect;
pub use laws::{answers_of_the_chain_are_right, branches_are_proofs, one_report};
pub use scripts::scripts_of;
