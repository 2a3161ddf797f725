// Parameters read as calls.
ghost use Rattle.std.specs.Prelude.{◌≡◌, ◌≢◌, if◌then◌else◌, Ok, Err, IfOk, false, [], codes};
ghost use Rattle.serde_json.specs.Find.{as_bool};
ghost use Rattle.el_json.specs.Parameters.{given, has_only, number_in, hash_from_hex, texts_of};
ghost use Rattle.el_calls.specs.Methods.{needed, otherwise, only, passing_test, hex_in, is_text, is_object, called, script_hash_in, plain_call, IsCalled};
ghost use Rattle.el_calls.specs.Versions.{versions_in, default_version};

use crate::call::{Call, VersionParts};
use crate::method::Method;
use crate::refusal::Refusal;
use crate::versions::{parts_of, versions_in};
use el_base::{Bytes, Hash32, OutOfMemory};
use el_json::Params;
use el_sessions::Version;
use hex::FromHexError;
use std::alloc::Global;

// That nothing but these parameters is given.
fn only(params: &Params, names: &[&str]) -> Result<(), Refusal>
    ensures { result ≡ only (texts_of names.now) params.now }
{
    if params.has_only(names) {
        Ok(())
    } else {
        Err(Refusal::InvalidParams)
    }
}

// A number that must be given.
fn number(params: &Params, place: usize, name: &str) -> Result<u64, Refusal>
    ensures { result ≡ needed number_in (given params.now place name.now) }
{
    match params.given(place, name) {
        Some(param) => param.number().ok_or(Refusal::InvalidParams),
        None => Err(Refusal::InvalidParams),
    }
}

// A number that is 0 where it isn't given.
fn number_or_zero(params: &Params, place: usize, name: &str) -> Result<u64, Refusal>
    ensures { result ≡ otherwise 0 number_in (given params.now place name.now) }
{
    match params.given(place, name) {
        Some(param) => param.number().ok_or(Refusal::InvalidParams),
        None => Ok(0),
    }
}

// A flag that is false where it isn't given.
fn flag_or_false(params: &Params, place: usize, name: &str) -> Result<bool, Refusal>
    ensures { result ≡ otherwise false as_bool (given params.now place name.now) }
{
    match params.given(place, name) {
        Some(param) => param.flag().ok_or(Refusal::InvalidParams),
        None => Ok(false),
    }
}

// A hash that must be given.
fn hash(params: &Params, place: usize, name: &str) -> Result<Hash32, Refusal>
    ensures { result ≡ needed hash_from_hex (given params.now place name.now) }
{
    match params.given(place, name) {
        Some(param) => param.hash().ok_or(Refusal::InvalidParams),
        None => Err(Refusal::InvalidParams),
    }
}

fn block_header(params: &Params) -> Result<Call, Refusal>
    ensures { result ≡ called Method.BlockHeader params.now }
{
    only(params, &["height", "cp_height"])?;
    let height = number(params, 0, "height")?;
    let cp_height = number_or_zero(params, 1, "cp_height")?;
    Ok(Call::BlockHeader { height, cp_height })
}

fn block_headers(params: &Params) -> Result<Call, Refusal>
    ensures { result ≡ called Method.BlockHeaders params.now }
{
    only(params, &["start_height", "count", "cp_height"])?;
    let start_height = number(params, 0, "start_height")?;
    let count = number(params, 1, "count")?;
    let cp_height = number_or_zero(params, 2, "cp_height")?;
    Ok(Call::BlockHeaders {
        start_height,
        count,
        cp_height,
    })
}

fn estimate_fee(params: &Params) -> Result<Call, Refusal>
    ensures { result ≡ called Method.EstimateFee params.now }
{
    only(params, &["number"])?;
    let _ = number(params, 0, "number")?;
    Ok(Call::EstimateFee)
}

fn script_hash(params: &Params) -> Result<Hash32, Refusal>
    ensures { result ≡ script_hash_in params.now }
{
    only(params, &["scripthash"])?;
    hash(params, 0, "scripthash")
}

fn subscribe(params: &Params) -> Result<Call, Refusal>
    ensures { result ≡ called Method.ScriptHashSubscribe params.now }
{
    let s = script_hash(params)?;
    Ok(Call::ScriptHashSubscribe(s))
}

fn unsubscribe(params: &Params) -> Result<Call, Refusal>
    ensures { result ≡ called Method.ScriptHashUnsubscribe params.now }
{
    let s = script_hash(params)?;
    Ok(Call::ScriptHashUnsubscribe(s))
}

fn get_balance(params: &Params) -> Result<Call, Refusal>
    ensures { result ≡ called Method.GetBalance params.now }
{
    let s = script_hash(params)?;
    Ok(Call::GetBalance(s))
}

fn get_mempool(params: &Params) -> Result<Call, Refusal>
    ensures { result ≡ called Method.GetMempool params.now }
{
    let s = script_hash(params)?;
    Ok(Call::GetMempool(s))
}

fn list_unspent(params: &Params) -> Result<Call, Refusal>
    ensures { result ≡ called Method.ListUnspent params.now }
{
    let s = script_hash(params)?;
    Ok(Call::ListUnspent(s))
}

fn get_history(params: &Params) -> Result<Call, Refusal>
    ensures { result ≡ called Method.GetHistory params.now }
{
    let s = script_hash(params)?;
    Ok(Call::GetHistory(s))
}

fn transaction_get(params: &Params) -> Result<Call, Refusal>
    ensures { result ≡ called Method.TransactionGet params.now }
{
    only(params, &["tx_hash", "verbose"])?;
    let tx_hash = hash(params, 0, "tx_hash")?;
    let verbose = flag_or_false(params, 1, "verbose")?;
    Ok(Call::TransactionGet { tx_hash, verbose })
}

fn id_from_pos(params: &Params) -> Result<Call, Refusal>
    ensures { result ≡ called Method.IdFromPos params.now }
{
    only(params, &["height", "tx_pos", "merkle"])?;
    let height = number(params, 0, "height")?;
    let tx_pos = number(params, 1, "tx_pos")?;
    let merkle = flag_or_false(params, 2, "merkle")?;
    Ok(Call::IdFromPos {
        height,
        tx_pos,
        merkle,
    })
}

fn get_merkle(params: &Params) -> Result<Call, Refusal>
    ensures { result ≡ called Method.GetMerkle params.now }
{
    only(params, &["tx_hash", "height"])?;
    let tx_hash = hash(params, 0, "tx_hash")?;
    let height = number(params, 1, "height")?;
    Ok(Call::GetMerkle { tx_hash, height })
}

// That an object is given for the features of a peer.
fn features(params: &Params) -> Result<(), Refusal>
    ensures { result ≡ needed (passing_test is_object) (given params.now 0 (codes "features")) }
{
    match params.given(0, "features") {
        Some(param) => if param.is_object() {
            Ok(())
        } else {
            Err(Refusal::InvalidParams)
        },
        None => Err(Refusal::InvalidParams),
    }
}

fn add_peer(params: &Params) -> Result<Call, Refusal>
    ensures { result ≡ called Method.ServerAddPeer params.now }
{
    only(params, &["features"])?;
    features(params)?;
    Ok(Call::ServerAddPeer)
}

// The bytes of a transaction, for which hex digits must be given.
fn raw_tx(alloc: Global, params: &Params) -> Result<Result<Bytes, Refusal>, OutOfMemory>
    ensures { IfOk result (λ bytes. bytes ≡ needed hex_in (given params.now 0 (codes "raw_tx"))) }
{
    let Some(param) = params.given(0, "raw_tx") else {
        return Ok(Err(Refusal::InvalidParams));
    };
    let Some(text) = param.text() else {
        return Ok(Err(Refusal::InvalidParams));
    };
    match hex::decode(alloc, text) {
        Ok(bytes) => Ok(Ok(Bytes::from_vec(bytes))),
        Err(FromHexError::OutOfMemory) => Err(OutOfMemory),
        Err(_) => Ok(Err(Refusal::InvalidParams)),
    }
}

fn broadcast(alloc: Global, params: &Params) -> Result<Result<Call, Refusal>, OutOfMemory>
    ensures { IfOk result (λ call. call ≡ called Method.Broadcast params.now) }
{
    if let Err(refusal) = only(params, &["raw_tx"]) {
        return Ok(Err(refusal));
    }
    match raw_tx(alloc, params)? {
        Ok(bytes) => Ok(Ok(Call::Broadcast(bytes))),
        Err(refusal) => Ok(Err(refusal)),
    }
}

// That the client's name is a text, where it is given.
fn client_name(params: &Params) -> Result<(), Refusal>
    ensures { result ≡ otherwise tt (passing_test is_text) (given params.now 0 (codes "client_name")) }
{
    match params.given(0, "client_name") {
        Some(param) => if param.text().is_some() {
            Ok(())
        } else {
            Err(Refusal::InvalidParams)
        },
        None => Ok(()),
    }
}

// The least and the most version that the client takes.
fn versions(params: &Params) -> Result<(VersionParts, VersionParts), Refusal>
    ensures { result ≡ otherwise (default_version, default_version) versions_in
        (given params.now 1 (codes "protocol_version")) }
{
    match params.given(1, "protocol_version") {
        Some(param) => versions_in(&param).ok_or(Refusal::InvalidParams),
        None => Ok((parts_of(Version::V14), parts_of(Version::V14))),
    }
}

fn server_version(params: &Params) -> Result<Call, Refusal>
    ensures { result ≡ called Method.ServerVersion params.now }
{
    only(params, &["client_name", "protocol_version"])?;
    client_name(params)?;
    let (least, most) = versions(params)?;
    Ok(Call::ServerVersion { least, most })
}

fn plain(params: &Params, call: Call) -> Result<Call, Refusal>
    ensures { result ≡ plain_call call params.now }
{
    only(params, &[])?;
    Ok(call)
}

// The call of a method whose parameters are read without memory.
fn known_call(method: Method, params: &Params) -> Result<Call, Refusal>
    requires { method ≢ Method.Broadcast }
    ensures { result ≡ called method params.now }
{
    match method {
        Method::ServerVersion => server_version(params),
        Method::ServerBanner => plain(params, Call::ServerBanner),
        Method::ServerDonationAddress => plain(params, Call::ServerDonationAddress),
        Method::ServerFeatures => plain(params, Call::ServerFeatures),
        Method::ServerPing => plain(params, Call::ServerPing),
        Method::ServerPeersSubscribe => plain(params, Call::ServerPeersSubscribe),
        Method::ServerAddPeer => add_peer(params),
        Method::BlockHeader => block_header(params),
        Method::BlockHeaders => block_headers(params),
        Method::EstimateFee => estimate_fee(params),
        Method::RelayFee => plain(params, Call::RelayFee),
        Method::HeadersSubscribe => plain(params, Call::HeadersSubscribe),
        Method::GetBalance => get_balance(params),
        Method::GetHistory => get_history(params),
        Method::GetMempool => get_mempool(params),
        Method::ListUnspent => list_unspent(params),
        Method::ScriptHashSubscribe => subscribe(params),
        Method::ScriptHashUnsubscribe => unsubscribe(params),
        Method::Broadcast => unreachable!(),
        Method::TransactionGet => transaction_get(params),
        Method::GetMerkle => get_merkle(params),
        Method::IdFromPos => id_from_pos(params),
        Method::FeeHistogram => plain(params, Call::FeeHistogram),
    }
}

/// The call that a request asks for, or why it asks for none. Memory is taken for the bytes of a transaction
/// alone.
pub fn call_of(
    alloc: Global,
    method: &str,
    params: &Params,
) -> Result<Result<Call, Refusal>, OutOfMemory>
    ensures { IfOk result (IsCalled method.now params.now) }
{
    match Method::named(method) {
        Some(Method::Broadcast) => broadcast(alloc, params),
        Some(method) => Ok(known_call(method, params)),
        None => Ok(Err(Refusal::UnknownMethod)),
    }
}
