// Who is told how far an audit is.

/// What an audit does one after the other.
#[derive(Clone, Copy, Debug, PartialEq, Eq)]
pub enum Step {
    /// Blocks are read from the block files.
    Reading,
    /// Script hashes are asked of the index.
    Asking,
    /// Script hashes are compared with the blocks.
    Comparing,
}

/// Who is told how far an audit is. No promise speaks of it.
pub trait AuditWatch {
    /// So many of a step, of so many, are done.
    fn reached(&mut self, step: Step, done: u64, all: u64);
}
