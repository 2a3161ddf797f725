// The methods by name.
ghost use Rattle.std.specs.Prelude.{◌≡◌, IfSome, IfNone};
ghost use Rattle.el_calls.specs.Names.{name_of};
ghost use Rattle.el_calls.specs.declared.method.Method as shape;

/// A method (Electrum Protocol 1.4.2, "Protocol Methods").
#[derive(Clone, Copy, Debug, PartialEq, Eq)]
pub enum Method {
    ServerVersion,
    ServerBanner,
    ServerDonationAddress,
    ServerFeatures,
    ServerPing,
    ServerPeersSubscribe,
    ServerAddPeer,
    BlockHeader,
    BlockHeaders,
    EstimateFee,
    RelayFee,
    HeadersSubscribe,
    GetBalance,
    GetHistory,
    GetMempool,
    ListUnspent,
    ScriptHashSubscribe,
    ScriptHashUnsubscribe,
    Broadcast,
    TransactionGet,
    GetMerkle,
    IdFromPos,
    FeeHistogram,
}

impl Method {
    /// The method of that name.
    pub fn named(name: &str) -> Option<Method>
        ensures found { IfSome result (λ m. name.now ≡ name_of m) }
        ensures none { IfNone result ((m : shape.Method) → name.now ≡ name_of m → ⊥) }
    {
        match name {
            "server.version" => Some(Method::ServerVersion),
            "server.banner" => Some(Method::ServerBanner),
            "server.donation_address" => Some(Method::ServerDonationAddress),
            "server.features" => Some(Method::ServerFeatures),
            "server.ping" => Some(Method::ServerPing),
            "server.peers.subscribe" => Some(Method::ServerPeersSubscribe),
            "server.add_peer" => Some(Method::ServerAddPeer),
            "blockchain.block.header" => Some(Method::BlockHeader),
            "blockchain.block.headers" => Some(Method::BlockHeaders),
            "blockchain.estimatefee" => Some(Method::EstimateFee),
            "blockchain.relayfee" => Some(Method::RelayFee),
            "blockchain.headers.subscribe" => Some(Method::HeadersSubscribe),
            "blockchain.scripthash.get_balance" => Some(Method::GetBalance),
            "blockchain.scripthash.get_history" => Some(Method::GetHistory),
            "blockchain.scripthash.get_mempool" => Some(Method::GetMempool),
            "blockchain.scripthash.listunspent" => Some(Method::ListUnspent),
            "blockchain.scripthash.subscribe" => Some(Method::ScriptHashSubscribe),
            "blockchain.scripthash.unsubscribe" => Some(Method::ScriptHashUnsubscribe),
            "blockchain.transaction.broadcast" => Some(Method::Broadcast),
            "blockchain.transaction.get" => Some(Method::TransactionGet),
            "blockchain.transaction.get_merkle" => Some(Method::GetMerkle),
            "blockchain.transaction.id_from_pos" => Some(Method::IdFromPos),
            "mempool.get_fee_histogram" => Some(Method::FeeHistogram),
            _ => None,
        }
    }
}
