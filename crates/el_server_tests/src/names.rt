// Names in braces, which stand in the texts of tables.
use std::alloc::Global;
use std::test::Fail;

// What names stand for, each after its name and a blank: requests and replies; what clients are told of the
// entries and coins of a script hash; script hashes, of the scripts of 1 and 101; of the blocks of
// `coins_file` the hashes, and the txids of their transactions; and of transactions that no block has the
// bytes or the txid.
// A text has no name but such as come after it.
const NAMES: &str = "\
    {asks-all} {asks-history}{101}{asked}{next}{asks-balance}{101}{asked}{next}{asks-coins}{101}{asked}\n\
    {asks-history} {\"id\":1,\"method\":\"blockchain.scripthash.get_history\",\"params\":[\"\n\
    {asks-balance} {\"id\":1,\"method\":\"blockchain.scripthash.get_balance\",\"params\":[\"\n\
    {asks-coins} {\"id\":1,\"method\":\"blockchain.scripthash.listunspent\",\"params\":[\"\n\
    {subscribes} {\"id\":1,\"method\":\"blockchain.scripthash.subscribe\",\"params\":[\"\n\
    {asks} {\"id\":1,\"method\":\"\n\
    {with} \",\"params\":[\n\
    {asked} \"]}\n\
    {result} {\"id\":1,\"jsonrpc\":\"2.0\",\"result\":\n\
    {failed} {\"error\":{\"code\":3,\"message\":\"index device failed\"},\"id\":1,\"jsonrpc\":\"2.0\"}\n\
    {agreed} {\"error\":{\"code\":1,\"message\":\"version already agreed\"},\"id\":1,\"jsonrpc\":\"2.0\"}\n\
    {invalid} {\"error\":{\"code\":-32600,\"message\":\"invalid request\"},\"id\":null,\"jsonrpc\":\"2.0\"}\n\
    {too-many} {\"error\":{\"code\":1,\"message\":\"too many subscriptions\"},\"id\":1,\"jsonrpc\":\"2.0\"}\n\
    {tells-tip} {\"jsonrpc\":\"2.0\",\"method\":\"blockchain.headers.subscribe\",\"params\":[{\"height\":\n\
    {tells} {\"jsonrpc\":\"2.0\",\"method\":\"blockchain.scripthash.subscribe\",\"params\":[\"\n\
    {hex} ,\"hex\":\"\n\
    {tip-told} \"}]}\n\
    {now} \",\"\n\
    {now-none} \",null]}\n\
    {told} \"]}\n\
    {balance} {\"confirmed\":\n\
    {of-it} ,\"unconfirmed\":\n\
    {first-at-0} {\"height\":0,\"tx_hash\":\"{first}\"}\n\
    {first-at-1} {\"height\":1,\"tx_hash\":\"{first}\"}\n\
    {first-at-2} {\"height\":2,\"tx_hash\":\"{first}\"}\n\
    {second-at-1} {\"height\":1,\"tx_hash\":\"{second}\"}\n\
    {halves-at-1} {\"height\":1,\"tx_hash\":\"{halves}\"}\n\
    {whole-at-1} {\"height\":1,\"tx_hash\":\"{whole}\"}\n\
    {first-coin} \"tx_hash\":\"{first}\",\"tx_pos\":0,\"value\":5000000000}\n\
    {second-coin} \"tx_hash\":\"{second}\",\"tx_pos\":0,\"value\":5000000000}\n\
    {half-coin} \"tx_hash\":\"{halves}\",\"tx_pos\":0,\"value\":2500000000}\n\
    {1} e69df43f0af50cd375f43e0c88e5fa0bfaf1ebff5510ef2c45b66a0dca7f4a0e\n\
    {101} 87db42382cbedc1754986e8d2b98ed07381d67e43bebb313f331acc40b7cecbb\n\
    {z} e24fc0cd4b74e58d1bcfa1d15b2c35345824b4e3e6e3959659d662c2ce011688\n\
    {d1} 21c2cc8ad7d5fd1444162274996ed89c1a8b604b78c096ef06c7b35c9cdff6cb\n\
    {e1} 11f2ca74b606cb5e54c93212584983ee4d72f30e812ac339f0f2cb64a3dca44e\n\
    {v1} ae3372bcff207bba0f0bdc4fa9aad7a139f447ecb168f77841ad0befd5196e08\n\
    {v2} 012ccce19b3629dd5f02f9ba905ab3714b5e71ff103870f0db387ccb72ad1e5d\n\
    {first} 30ca4fa99682e9b4551e98f01ae96565af60464e9718d68b13f3c36fbb77cd2d\n\
    {second} 9022aeaee5870e7413d80a9d082d27872120356bbb4743c9949396bf32ef30a3\n\
    {halves} 8faf866b892c0a89fdc6b0f69ba1861ad111d4a55c04d95354ae3e7e3163a38b\n\
    {whole} 5527889e9d4fc968a939d23f292743e2ec32def80adedb0e5ce874f6e5f8ee04\n\
    {satoshi} 8381ab3257eb066d810edafa4f0fcbdd94366bf75393f25e4743354d6c686ded\n\
    {z-header} \
    0100000000000000000000000000000000000000000000000000000000000000000000002dcd77bb6fc3f3138b\
    d618974e4660af6565e91af0981e55b4e98296a94fca3029ab5f49ffff7f2000000000\n\
    {d1-header} \
    01000000881601cec262d6599695e3e6e3b4245834352c5bd1a1cf1b8de5744bcdc04fe2aedc3f7f73a281461d\
    23e7d10bec37886a68be1a39521ed6752451795736f4e281ad5f49ffff7f2000000000\n\
    {v1-header} \
    01000000881601cec262d6599695e3e6e3b4245834352c5bd1a1cf1b8de5744bcdc04fe2124330ae30ebd31ac0\
    a32606e1e98faa7a93b03847f40cf4eb4d1bee583d038281ad5f49ffff7f2000000000\n\
    {101-at-z} ef012a32dde7dc6cbd667a1facd22f37bef744fd805799fcde14e04a282141ce\n\
    {101-with-whole} cdc00aa08ab820bb135998685751954cc906ad3a61cea1d4e651eae688f24c6d\n\
    {1-with-whole} 045538906a437f43bb9e89e12787b681dbdee42808245a5ffa43878041c6c62d\n\
    {101-at-v1} 7e59d8356f72569ae546d064dadfe331507587646fbe5c9dbeceea922fcda220\n\
    {1-at-v1} dacbc81a049807c0786f3539738f5382c7cc9627c85c11efe813069c2988e892\n\
    {halves-bytes} \
    01000000012dcd77bb6fc3f3138bd618974e4660af6565e91af0981e55b4e98296a94fca300000000000ffffff\
    ff0200f902950000000005046500000000f902950000000005046400000000000000\n\
    {d1-root} 0fb82ede9c12114015db8e6cb144ea87c879db2180992561e6c1ac72e90ebd66\n\
    {d1-status} 97a7bd82e8ee88d94e6bb4daba9d53e5512c76c8d15423fe66e2b4e3b28d03bc\n\
    {taking-half} \
    01000000018ba363317e3eae5453d9045ca5d411d11a86a19bf6b0c6fd890a2c896b86af8f0000000000ffffff\
    ff0100f902950000000005040200000000000000\n\
    {taking-half-txid} 403d183737eba9d297e5ec11db4e4852effaabc80f700dda8f4f2f5756d0250e\n\
    {child-txid} a566cc4feebbe7019c3d91a8c7633ff48cfbcc41200ea80a3d921e00d6db7b84\n\
    {pays-650-txid} 134d90339cde66af6a8e912e39ed11275d93f97522ca9db4b9b401b43f57b002\n\
    {pays-650} \
    01000000012dcd77bb6fc3f3138bd618974e4660af6565e91af0981e55b4e98296a94fca300000000000ffffff\
    ff0176ef052a0100000005040100000000000000\n\
    {pays-649-txid} b9b8047911ee74790fc26e96ecedba66b4c370f509e6b8008966582040b97eeb\n\
    {pays-649} \
    01000000012dcd77bb6fc3f3138bd618974e4660af6565e91af0981e55b4e98296a94fca300000000000ffffff\
    ff0177ef052a0100000005040100000000000000";

/// The text in which no name is left.
pub(crate) fn named(alloc: Global, text: &str) -> Result<String, Fail> {
    let mut text = String::from_str(alloc, text)?;
    if !text.as_str().contains("{") {
        return Ok(text);
    }
    for line in NAMES.lines() {
        if let Some((name, value)) = line.split_once(' ') {
            text = text.as_str().replace(alloc, name, value)?;
        }
    }
    Ok(text.as_str().replace(alloc, "{next}", "\n")?)
}
