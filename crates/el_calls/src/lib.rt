//! Calls of Electrum Protocol 1.4.2: which one a method's name and its parameters ask for, or why none.
#![tactic(auto)]

mod call;
mod method;
mod readers;
mod refusal;
mod versions;

pub use call::{Call, VersionParts};
pub use method::Method;
pub use readers::call_of;
pub use refusal::Refusal;
pub use versions::{PROTOCOL_MAX, PROTOCOL_MIN, greatest_shared, text_of};
