// What the bytes of a meta row begin with.

/// The format of an index's files.
pub const FORMAT: u32 = 2;
