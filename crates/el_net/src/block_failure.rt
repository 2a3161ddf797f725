// A call on a folder of block files that failed.
use std::io;

/// What of a folder of block files a call failed on.
#[derive(Clone, Copy, Debug, PartialEq, Eq)]
pub enum BlockPart {
    /// The folder.
    Folder,
    /// Its mask, `xor.dat`.
    Mask,
    /// The block file of that number.
    File(u32),
}

/// A call on a folder of block files that failed.
#[derive(Clone, Copy)]
pub struct BlockFailure {
    /// On what it failed.
    pub part: BlockPart,
    /// What the system said.
    pub error: io::Error,
}
