//! A plain ledger: whole blocks in memory, and each answer by a walk over them.
#![tactic(auto)]

mod drafts;
mod finding;
mod history;
mod moving;
mod own_coins;
mod plain_calls;
mod plain_chain;
mod plain_ledger;
mod spending;
mod txid;

pub use plain_chain::PlainChain;
pub use plain_ledger::PlainLedger;
