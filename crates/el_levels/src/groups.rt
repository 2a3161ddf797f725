// Groups of block hashes.

/// How many levels above its hashes the one hash of a group stands.
pub const LEVELS: u32 = 11;

/// How many hashes a full group has: 2 to the power of `LEVELS`.
pub const GROUP: u32 = 2048;
