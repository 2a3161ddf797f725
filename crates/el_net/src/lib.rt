//! The real devices of the program: the block files of a folder, the files of an index in a folder, the
//! standard streams and sockets as links; and devices that have nothing. What real files, streams and sockets
//! hold is beyond any contract.
#![tactic(auto)]

mod archive_folder;
mod block_failure;
mod block_files;
mod block_folder;
mod file_names;
mod folder;
mod index_folder;
mod masks;
mod nobody;
mod paths;
mod reading;
mod standard_link;
mod tcp_link;

pub use archive_folder::ArchiveFolder;
pub use block_failure::{BlockFailure, BlockPart};
pub use block_files::BlockFiles;
pub use block_folder::BlockFolder;
pub use folder::Folder;
pub use index_folder::{IndexFolder, index_files};
pub use masks::{Mask, NO_MASK, mask_of, unmask};
pub use nobody::{NoDisk, NoFiles, NoLink, NoRelay};
pub use standard_link::StandardLink;
pub use tcp_link::TcpLink;
