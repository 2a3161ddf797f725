// What a wallet asks at its start over Bitcoin's first two blocks, and what the server answers.
use crate::server::{BOTH_TOLD, Step, first_file, says};
use el_base::sha256;
use el_gen::locking_script;
use std::alloc::Global;
use std::test::Fail;
use std::thread::Threads;

// What it asks before it subscribes to scripts, and what it is answered.
const BEFORE: (&str, &str) = (
    "{\"jsonrpc\":\"2.0\",\"id\":0,\"method\":\"server.version\",\
     \"params\":[\"electrum/4.5\",[\"1.4\",\"1.4.2\"]]}\n\
     {\"id\":1,\"method\":\"server.features\"}\n\
     {\"id\":2,\"method\":\"blockchain.headers.subscribe\"}\n\
     {\"id\":3,\"method\":\"blockchain.block.headers\",\"params\":[0,2016]}\n",
    "{\"id\":0,\"jsonrpc\":\"2.0\",\"result\":[\"el_serve 1.0\",\"1.4.2\"]}\n\
     {\"id\":1,\"jsonrpc\":\"2.0\",\"result\":{\"genesis_hash\":\"G\",\"hash_function\":\"sha256\",\
     \"hosts\":{},\"protocol_max\":\"1.4.2\",\"protocol_min\":\"1.4\",\"pruning\":null,\
     \"server_version\":\"el_serve 1.0\"}}\n\
     {\"id\":2,\"jsonrpc\":\"2.0\",\"result\":{\"height\":1,\"hex\":\"J\"}}\n\
     {\"id\":3,\"jsonrpc\":\"2.0\",\"result\":{\"count\":2,\"hex\":\"HJ\",\"max\":2016}}\n",
);

// What it asks after that, and what it is answered.
const AFTER: (&str, &str) = (
    "{\"id\":44,\"method\":\"blockchain.estimatefee\",\"params\":[2]}\n\
     {\"id\":45,\"method\":\"blockchain.relayfee\"}\n\
     {\"id\":46,\"method\":\"mempool.get_fee_histogram\"}\n\
     {\"id\":47,\"method\":\"server.ping\"}\n\
     {\"id\":48,\"method\":\"server.version\",\"params\":[]}\n",
    "{\"id\":44,\"jsonrpc\":\"2.0\",\"result\":-1}\n\
     {\"id\":45,\"jsonrpc\":\"2.0\",\"result\":0}\n\
     {\"id\":46,\"jsonrpc\":\"2.0\",\"result\":[]}\n\
     {\"id\":47,\"jsonrpc\":\"2.0\",\"result\":null}\n\
     {\"error\":{\"code\":1,\"message\":\"version already agreed\"},\"id\":48,\"jsonrpc\":\"2.0\"}\n",
);

// Adds the texts, one after the other.
fn push_all(text: &mut String, parts: &[&str]) -> Result<(), Fail> {
    for part in parts {
        text.push_str(*part)?;
    }
    Ok(())
}

// The hash of the locking script of that number, as it is shown.
fn script_of(alloc: Global, k: u32) -> Result<[u8; 64], Fail> {
    let script = locking_script(alloc, k)?;
    Ok(sha256(script.as_slice()).shown())
}

// Adds it.
fn push_script(alloc: Global, text: &mut String, k: u32) -> Result<(), Fail> {
    for digit in script_of(alloc, k)? {
        text.push(char::from(digit))?;
    }
    Ok(())
}

// Adds the id of the subscription to the script of that number.
fn push_id(alloc: Global, text: &mut String, k: u32) -> Result<(), Fail> {
    let digits = k.saturating_add(4).to_string(alloc)?;
    push_all(text, &["{\"id\":", digits.as_str()])
}

// Adds the subscription to the script of that number, which nobody used.
fn push_asked(alloc: Global, text: &mut String, k: u32) -> Result<(), Fail> {
    push_id(alloc, text, k)?;
    text.push_str(",\"method\":\"blockchain.scripthash.subscribe\",\"params\":[\"")?;
    push_script(alloc, text, k)?;
    text.push_str("\"]}\n")?;
    Ok(())
}

// Adds what that is answered.
fn push_answered(alloc: Global, text: &mut String, k: u32) -> Result<(), Fail> {
    push_id(alloc, text, k)?;
    text.push_str(",\"jsonrpc\":\"2.0\",\"result\":null}\n")?;
    Ok(())
}

// All that it asks.
fn asked(alloc: Global) -> Result<String, Fail> {
    let mut text = String::from_str(alloc, BEFORE.0)?;
    for k in 0..40 {
        push_asked(alloc, &mut text, k)?;
    }
    text.push_str(AFTER.0)?;
    Ok(text)
}

// All that it is answered.
fn answered(alloc: Global) -> Result<String, Fail> {
    let mut text = String::from_str(alloc, BEFORE.1)?;
    for k in 0..40 {
        push_answered(alloc, &mut text, k)?;
    }
    text.push_str(AFTER.1)?;
    Ok(text)
}

// Whether a wallet is answered so.
fn is_served<W: Threads + Sync>(
    rt: &W,
    alloc: Global,
    asks: &str,
    wanted: &str,
) -> Result<bool, Fail> {
    let file = first_file(alloc)?;
    let run = [BOTH_TOLD, Step::Forget, Step::Opens(1), Step::Says(1, asks)];
    says(rt, alloc, file.as_slice(), run.as_slice(), wanted)
}

#[test]
fn a_wallet_starts(rt: HostRuntime) -> Result<(), Fail> {
    let asks = asked(rt.alloc())?;
    let wanted = answered(rt.alloc())?;
    assert!(rt;
        is_served(&rt, rt.alloc(), asks.as_str(), wanted.as_str())?,
        "{wanted}"
    );
    Ok(())
}
