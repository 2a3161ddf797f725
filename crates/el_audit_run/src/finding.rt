// What an audit of an index finds.
use el_audit::Kind;
use el_base::Hash32;
use el_lines::Flaw;

/// What an audit of an index finds. Hashes stand in inner order.
#[derive(Clone, Copy, Debug)]
pub enum Finding {
    /// The index has no blocks.
    Empty,
    /// No path of found headers leads to the index's last block, which has this hash.
    NoPath {
        tip: Hash32,
    },
    /// The blocks of that path have so many bytes, which are more than `MAX_AUDIT_BYTES`.
    TooLarge {
        bytes: u128,
    },
    /// The first block of the path that isn't as it should be, and what is wrong with it; None where the
    /// bytes at its place don't begin with its header.
    BadBlock {
        block: Hash32,
        flaw: Option<Flaw>,
    },
    /// The first script hash of which the index answers something else than the blocks give, the first kind
    /// in which it does, and the first place, counted from 0.
    Differs {
        script: Hash32,
        kind: Kind,
        at: u64,
    },
    /// The index answers what the blocks give: the height of the last one, how many transactions they have,
    /// and how many script hashes were looked at.
    Same {
        height: u32,
        txs: u128,
        scripts: u64,
    },
}
