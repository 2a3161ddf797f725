//! What lies outside the program: the node's block files, the disk of the index, the link to clients, and the
//! relay of their transactions; and what is told as pieces of work begin that may run side by side.
#![tactic(auto)]

mod archive;
mod disk;
mod disk_laws;
mod laws;
mod link;
mod pace;
mod relay;

pub use archive::{Archive, ArchiveFailed, MOST_FILES, Place, SIZE_LIMIT};
pub use disk::{Disk, DiskFailed};
pub use disk_laws::{
    files_fail_independently, lives_go_on, model_keeps_the_clauses, moments_add_up,
    other_bytes_stay, past_the_end_are_any_bytes, reads_are_images, sizes_lie_between,
    syncs_settle, written_ranges_hold_any_bytes,
};
pub use laws::{counts_add_up, traces_join};
pub use link::{Arrival, BUFFER_SIZE, CLIENT_LIMIT, Link, LinkFailed, Peer, SendFault, Why};
pub use pace::{NoPace, Pace};
pub use relay::{Relay, RelayFailed, Verdict};
