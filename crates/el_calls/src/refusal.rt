// Why a request is refused.
ghost use Rattle.std.specs.Prelude.{◌≡◌};
ghost use Rattle.el_calls.specs.Refusals.{code_of, message_of};

/// Why a request gets an error (JSON-RPC 2.0, section 5.1; from code 1 on this server's own).
#[derive(Clone, Copy, Debug, PartialEq, Eq)]
pub enum Refusal {
    /// The line is no JSON.
    Parse,
    /// It is no request.
    Invalid,
    /// There is no such method.
    UnknownMethod,
    /// A parameter is missing, one too many, unknown or not of its kind.
    InvalidParams,
    /// The replies of the batch before it have too many bytes.
    BatchTooLarge,
    /// There is no block.
    NoBlocks,
    /// No block has that height.
    NoSuchHeight,
    /// The checkpoint is above the tip or below the header.
    BadCheckpoint,
    /// A list would have too many entries.
    HistoryTooLarge,
    /// The client has as many subscriptions as it may have.
    TooManySubscriptions,
    /// Verbose transactions are not served.
    VerboseNotServed,
    /// No transaction has that txid.
    NoSuchTransaction,
    /// The block has no transaction with that txid.
    NotInThatBlock,
    /// The block has no transaction at that place.
    NoSuchPosition,
    /// A version was agreed before.
    VersionAgreed,
    /// The client doesn't share a version.
    VersionNotShared,
    /// The bytes are not one whole transaction.
    NotTransaction,
    /// A transaction with an input like a coinbase's is not relayed.
    CoinbaseNotRelayed,
    /// The relay refused the transaction.
    RefusedByRelay,
    /// Transactions are not relayed.
    NoRelay,
    /// A call of the index's device failed.
    DiskFailed,
    /// A call of the block files failed.
    ArchiveFailed,
    /// The block files have changed where the transaction stood.
    ArchiveChanged,
    /// A call of the relay failed.
    RelayFailed,
}

impl Refusal {
    /// Its code.
    pub fn code(self) -> i64
        ensures { result ≡ code_of self }
    {
        match self {
            Refusal::Parse => -32700,
            Refusal::Invalid => -32600,
            Refusal::UnknownMethod => -32601,
            Refusal::InvalidParams => -32602,
            Refusal::NoRelay => 2,
            Refusal::DiskFailed => 3,
            Refusal::ArchiveFailed => 4,
            Refusal::ArchiveChanged => 5,
            Refusal::RelayFailed => 6,
            _ => 1,
        }
    }

    /// Its message.
    pub fn message(self) -> &'static str
        ensures { result.now ≡ message_of self }
    {
        match self {
            Refusal::Parse => "parse error",
            Refusal::Invalid => "invalid request",
            Refusal::UnknownMethod => "unknown method",
            Refusal::InvalidParams => "invalid params",
            Refusal::BatchTooLarge => "batch too large",
            Refusal::NoBlocks => "no blocks yet",
            Refusal::NoSuchHeight => "no such height",
            Refusal::BadCheckpoint => "bad checkpoint",
            Refusal::HistoryTooLarge => "history too large",
            Refusal::TooManySubscriptions => "too many subscriptions",
            Refusal::VerboseNotServed => "verbose not served",
            Refusal::NoSuchTransaction => "no such transaction",
            Refusal::NotInThatBlock => "not in that block",
            Refusal::NoSuchPosition => "no such position",
            Refusal::VersionAgreed => "version already agreed",
            Refusal::VersionNotShared => "version not shared",
            Refusal::NotTransaction => "not a transaction",
            Refusal::CoinbaseNotRelayed => "coinbase not relayed",
            Refusal::RefusedByRelay => "refused by relay",
            Refusal::NoRelay => "no relay",
            Refusal::DiskFailed => "index device failed",
            Refusal::ArchiveFailed => "block files failed",
            Refusal::ArchiveChanged => "block files changed",
            Refusal::RelayFailed => "relay failed",
        }
    }
}
