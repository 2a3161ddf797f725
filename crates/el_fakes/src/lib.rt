//! Block files and a link in memory, which tell all their content. Each comes in two forms: one whose chosen
//! calls fail, and one that never fails. A relay in memory, whose chosen calls fail or refuse. And a pace
//! under which two pieces of work meet.
#![tactic(auto)]

mod archive;
mod coming;
mod fronts;
mod growth;
mod heard;
mod kept;
mod link;
mod meet_pace;
mod peers;
mod relay;
mod steady_archive;
mod steady_link;
mod taking;

pub use archive::MemArchive;
pub use coming::Coming;
pub use fronts::{fill, is_listed};
pub use growth::{Later, Room};
pub use kept::{Closed, Sent};
pub use link::MemLink;
pub use meet_pace::MeetPace;
pub use relay::{MemRelay, Offered};
pub use steady_archive::SteadyArchive;
pub use steady_link::SteadyLink;
