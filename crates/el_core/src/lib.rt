//! A server over any ledger: a pure core that takes arrivals, and answers by turns what they ask for. Clients
//! send requests (Electrum Protocol 1.4); a node tells where its blocks stand, which is its tip, to which the
//! ledger is moved, and which unconfirmed transactions there are. It calls nothing outside but the block
//! files and what the ledger calls; each turn gives messages to send and at most one client to close.
#![tactic(auto)]

mod client;
mod clients;
mod out;
mod server;
mod telling;
mod touching;

pub use out::Outs;
pub use server::Server;
