// How long a line may be: the code and the definitions cite it.

/// How many bytes a client's line may have at most, without the byte 10 that ends it.
pub const LINE_LIMIT: usize = 1_000_000;

/// How many bytes a node's line may have at most, without the byte 10 that ends it: the hex of a transaction
/// of 4,000,000 bytes, and 100 bytes.
pub const NODE_LINE_LIMIT: usize = 8_000_100;

/// How many bytes of room a line buffer may have at most that holds nothing and has no line to give.
pub const IDLE_ROOM: usize = 1_024;
