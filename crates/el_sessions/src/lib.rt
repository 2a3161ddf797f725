//! What is kept of a client for its requests: the version that was agreed, and what it has subscribed to; and
//! how many clients subscribe to each script hash (Electrum Protocol 1.4.2).
#![tactic(auto)]

mod session;
mod slots;
mod watching;

pub use session::{SUBSCRIPTION_LIMIT, Session, Subs, SubsFault, Version};
pub use watching::Watched;
