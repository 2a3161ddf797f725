//! The methods of Electrum Protocol 1.4: what answers each call over a chain.
#![tactic(auto)]

mod answering;
mod blocks;
mod features;
mod fees;
mod headers;
mod in_block;
mod laws;
mod limits;
mod lists;
mod statuses;
mod stop;
mod texts;
mod transactions;

pub use answering::answer;
pub use blocks::{HEADER_LIMIT, headers_subscribe};
pub use laws::{
    asked_stays, blocks_have_asked, moves_have_records, records_stay, transactions_are_unchanged,
};
pub use limits::ENTRY_LIMIT;
pub use statuses::told_of;
pub use stop::Stop;
pub use texts::shown_of;
