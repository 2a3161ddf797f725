// How a run ends.

/// How a run over a link ended.
#[derive(Clone, Copy, Debug, PartialEq, Eq)]
pub enum End {
    /// The link answered that nothing comes any more, or that peer 0 left.
    Ended,
    /// A call of the ledger's device failed.
    DiskFailed,
    /// The link failed: a call of `next`, or a send to the node.
    LinkFailed,
    /// Out of memory.
    OutOfMemory,
    /// All turns were made.
    TurnsSpent,
}
