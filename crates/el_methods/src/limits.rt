// Limits of answers: the code and the definitions cite them.

/// How many entries an answer may list at most.
pub const ENTRY_LIMIT: usize = 100_000;
