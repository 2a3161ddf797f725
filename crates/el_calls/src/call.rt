// Calls: methods with what is given for their parameters.
ghost use Rattle.std.specs.Prelude.{◌≡◌, option_map};
ghost use Rattle.el_calls.specs.Methods.{raw_tx_of};

use el_base::{Bytes, Hash32};

/// The parts of a version that a client names, each below 10,000.
#[derive(Clone, Copy, Debug, PartialEq, Eq)]
pub struct VersionParts {
    pub major: u16,
    pub minor: u16,
    pub patch: u16,
}

/// A method with what is given for its parameters, or their defaults.
#[derive(Debug, PartialEq, Eq, Drop)]
pub enum Call {
    ServerVersion {
        least: VersionParts,
        most: VersionParts,
    },
    ServerBanner,
    ServerDonationAddress,
    ServerFeatures,
    ServerPing,
    ServerPeersSubscribe,
    ServerAddPeer,
    BlockHeader {
        height: u64,
        cp_height: u64,
    },
    BlockHeaders {
        start_height: u64,
        count: u64,
        cp_height: u64,
    },
    EstimateFee,
    RelayFee,
    HeadersSubscribe,
    GetBalance(Hash32),
    GetHistory(Hash32),
    GetMempool(Hash32),
    ListUnspent(Hash32),
    ScriptHashSubscribe(Hash32),
    ScriptHashUnsubscribe(Hash32),
    /// The bytes of a transaction.
    Broadcast(Bytes),
    TransactionGet {
        tx_hash: Hash32,
        verbose: bool,
    },
    GetMerkle {
        tx_hash: Hash32,
        height: u64,
    },
    IdFromPos {
        height: u64,
        tx_pos: u64,
        merkle: bool,
    },
    FeeHistogram,
}

impl Call {
    /// The bytes that it broadcasts, if it is a broadcast.
    pub fn raw_tx(&self) -> Option<&[u8]>
        ensures { option_map (λ bytes. bytes.now) result ≡ raw_tx_of self.now }
    {
        match self {
            Call::Broadcast(bytes) => Some(bytes.as_slice()),
            _ => None,
        }
    }
}
