//! Hashes (SHA-256 of FIPS 180-4) and the text that they are shown by, CompactSize of Bitcoin's
//! serialization, a cursor over bytes, what every layer keeps bytes, text and values in, a count for
//! contracts alone, and the error of an allocation.
#![tactic(auto)]

mod bytes;
mod compact;
mod cursor;
mod ghost_count;
mod hash;
mod laws;
mod listed;
mod memory;
mod shown;
mod text;

pub use bytes::{Bytes, extend_reserved};
pub use compact::{CompactFault, compact_len, read_compact, write_compact};
pub use cursor::{Cursor, Short};
pub use ghost_count::GhostCount;
pub use hash::{Hash32, sha256, sha256d};
pub use laws::{compact_is_prefix_free, compact_is_the_encoding};
pub use listed::Listed;
pub use memory::OutOfMemory;
pub use shown::HexFault;
pub use text::Text;
