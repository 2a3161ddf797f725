// Names in braces, which stand in the texts of tables.
use el_gen::{
    BLOCK_1_HASH, BLOCK_1_SCRIPT_HASH, BLOCK_1_TXID, EMPTY_SCRIPT_HASH, GENESIS_HASH,
    GENESIS_SCRIPT_HASH, GENESIS_TXID,
};
use std::alloc::{AllocError, Global};

// What names stand for, each after its name and a blank: requests, replies and notifications; blocks of the
// first branch on regtest, of each its coinbase and the script that it pays to, and the status of the second
// one's; another first block, another second one, blocks of a branch after the first branch's second block,
// one whose parent nobody has, and one at height 16 with another Merkle root; a hash that no block has; a
// transaction that spends the coin of Bitcoin's first block, and a script that it pays to; and of the blocks
// that part and spend, the last one of each branch, the coinbases of Z, and of A1 and D1, the transaction of
// A1, B2 and C1, that of D1, and the script of 101; transactions that no block has, in digits: a child of
// that of A1, another spend of Z's coin and a child of it, and refused ones; and what clients are told of
// that child.
// A text has no name but such as come after it.
const NAMES: &str = "\
    {asks} {\"id\":1,\"method\":\"blockchain.scripthash.get_history\",\"params\":[\"\n\
    {asked} \"]}\n\
    {asks-balance} {\"id\":1,\"method\":\"blockchain.scripthash.get_balance\",\"params\":[\"\n\
    {asks-mempool} {\"id\":1,\"method\":\"blockchain.scripthash.get_mempool\",\"params\":[\"\n\
    {subscribes} {\"id\":1,\"method\":\"blockchain.scripthash.subscribe\",\"params\":[\"\n\
    {sends} {\"id\":1,\"method\":\"blockchain.transaction.broadcast\",\"params\":[\"\n\
    {gets} {\"id\":1,\"method\":\"blockchain.transaction.get\",\"params\":[\"\n\
    {none} {lists}{listed}\n\
    {lists} {\"id\":1,\"jsonrpc\":\"2.0\",\"result\":[\n\
    {listed} ]}\n\
    {holds} {\"id\":1,\"jsonrpc\":\"2.0\",\"result\":{\"confirmed\":\n\
    {held} ,\"unconfirmed\":0}}\n\
    {invalid} {\"error\":{\"code\":-32600,\"message\":\"invalid request\"},\"id\":null,\"jsonrpc\":\"2.0\"}\n\
    {parse} {\"error\":{\"code\":-32700,\"message\":\"parse error\"},\"id\":null,\"jsonrpc\":\"2.0\"}\n\
    {changed} {\"error\":{\"code\":5,\"message\":\"block files changed\"},\"id\":1,\"jsonrpc\":\"2.0\"}\n\
    {failed} {\"error\":{\"code\":4,\"message\":\"block files failed\"},\"id\":1,\"jsonrpc\":\"2.0\"}\n\
    {index-failed} \
    {\"error\":{\"code\":3,\"message\":\"index device failed\"},\"id\":1,\"jsonrpc\":\"2.0\"}\n\
    {too-many} {\"error\":{\"code\":1,\"message\":\"too many subscriptions\"},\"id\":1,\"jsonrpc\":\"2.0\"}\n\
    {no-relay} {\"error\":{\"code\":2,\"message\":\"no relay\"},\"id\":1,\"jsonrpc\":\"2.0\"}\n\
    {no-transaction} {\"error\":{\"code\":1,\"message\":\"not a transaction\"},\"id\":1,\"jsonrpc\":\"2.0\"}\n\
    {no-coinbase} {\"error\":{\"code\":1,\"message\":\"coinbase not relayed\"},\"id\":1,\"jsonrpc\":\"2.0\"}\n\
    {relay-refuses} {\"error\":{\"code\":1,\"message\":\"refused by relay\"},\"id\":1,\"jsonrpc\":\"2.0\"}\n\
    {relay-failed} {\"error\":{\"code\":6,\"message\":\"relay failed\"},\"id\":1,\"jsonrpc\":\"2.0\"}\n\
    {gives} {\"id\":1,\"jsonrpc\":\"2.0\",\"result\":\"\n\
    {given} \"}\n\
    {heads} {\"id\":1,\"method\":\"blockchain.headers.subscribe\"}\n\
    {tip-is} {\"id\":1,\"jsonrpc\":\"2.0\",\"result\":{\"height\":\n\
    {tells-tip} {\"jsonrpc\":\"2.0\",\"method\":\"blockchain.headers.subscribe\",\"params\":[{\"height\":\n\
    {hex} ,\"hex\":\"\n\
    {tip-given} \"}}\n\
    {tip-told} \"}]}\n\
    {holds-less} ,\"unconfirmed\":\n\
    {tells} {\"jsonrpc\":\"2.0\",\"method\":\"blockchain.scripthash.subscribe\",\"params\":[\"\n\
    {now} \",\"\n\
    {now-none} \",null]}\n\
    {told} \"]}\n\
    {null} {\"id\":1,\"jsonrpc\":\"2.0\",\"result\":null}\n\
    {holds-none-yet} {\"id\":1,\"jsonrpc\":\"2.0\",\"result\":{\"confirmed\":0,\"unconfirmed\":\n\
    {held-yet} }}\n\
    {child-waits} {\"fee\":0,\"height\":-1,\"tx_hash\":\"{child-txid}\"}\n\
    {child-waits-later} {\"fee\":0,\"height\":0,\"tx_hash\":\"{child-txid}\"}\n\
    {entry0} {\"height\":0,\"tx_hash\":\"{txid0}\"}\n\
    {entry1} {\"height\":1,\"tx_hash\":\"{txid1}\"}\n\
    {entry15} {\"height\":15,\"tx_hash\":\"{txid15}\"}\n\
    {entry16} {\"height\":16,\"tx_hash\":\"{txid16}\"}\n\
    {genesis-entry} {\"height\":0,\"tx_hash\":\"{genesis-txid}\"}\n\
    {block1-entry} {\"height\":1,\"tx_hash\":\"{block1-txid}\"}\n\
    {spending-entry} {\"height\":1,\"tx_hash\":\"{spending-txid}\"}\n\
    {z-entry} {\"height\":0,\"tx_hash\":\"{z-txid}\"}\n\
    {z1-entry} {\"height\":1,\"tx_hash\":\"{z1-txid}\"}\n\
    {shared-entry} {\"height\":1,\"tx_hash\":\"{shared-txid}\"}\n\
    {early-entry} {\"height\":1,\"tx_hash\":\"{halves-txid}\"}\n\
    {late-entry} {\"height\":2,\"tx_hash\":\"{halves-txid}\"}\n\
    {a0} b6cc409e0218c7efba04708624d2ce4a67586323ce58cad94966c8bdbaacc401\n\
    {a1} ed9baeca366e96afe6116b0259364db174ac75fe93b186b369f3cf8a3f63eb96\n\
    {a3} 20f2f000ecc4a9e0b2da8b770ff92bb9e38df2b44e2308e25c82452df3e30240\n\
    {a15} bf8db31a3b06ac8698ed68bb8f701f04c5f55c80b79f71615ec2ff03c8873eb8\n\
    {a16} ac5e4656c439bba5a18104fd34b4aa8cc63d6595452db8305d88e628f62d06b8\n\
    {a31} d023efb7938f6ba59ac148dba55c474610e4c5537cdd123d83232d26a9476385\n\
    {a47} 2e8ddd5ba30ef5352f831b89d93e13171bec6e39e21b3997e60f805f902ef013\n\
    {a63} 490a4c7700e493e68bf4520383114fe73ea275024e4118898aaa5ff56222f0b3\n\
    {a79} 295128421fc5e082d417e48d18ecb85ba1a1d4d6ad794e9ce9b2eb4ce13c2ca1\n\
    {a95} 62419f307ddb2656b743edf6deb3a83cf59b4d833c0ef45d6ae0325dbaa23886\n\
    {a101} 1e2e008c07595d13b7bb7ddc8ca2f38f8b945095572ea858a39e3ccd092dcbc5\n\
    {txid0} f01c5cc1585ada377e551bb6f708a8124b8e451a96a0deb61c001c38c2ba4509\n\
    {txid1} d295aaa428b43e10925b25f51016ce6f43e405b248e1f37c468d050f2ad5c3da\n\
    {txid15} 70a29b0524547c8bab67a2df4ee45be0ba21e1277475c66ab21db7506259f11a\n\
    {txid16} 217006ec78e0e9e561ba8008d8133c4083078f3ab3530ade031932ef62a23e3f\n\
    {script0} 34e29cae5999c5170ddf0555fdc67764cf756c8a4a232746604dd6df66024288\n\
    {script1} e69df43f0af50cd375f43e0c88e5fa0bfaf1ebff5510ef2c45b66a0dca7f4a0e\n\
    {script15} 2417d66aec6780661fbcfb8f0a8f2447455a1c346bfcf628ff0326da974a4928\n\
    {script16} 017609f7e9d6f090e13b353d17ba2b80f2e1585c8a5b4d3b748e0095c59bbcf3\n\
    {b0} 2141d190603d158eb4a76a49f5f8036d33baacb5099f240fc168aaf71b2cfb65\n\
    {b1} 1aba0c300b903c71b29a6ab4a559cb08168df6ccec78c08312cc1f13cfff6151\n\
    {c17} 579dbbc8c70b0c05ad319ff84300ada8d302d8cfbf13684b5c05b1849240ea63\n\
    {c33} 7e9743d230c82ab8e282c63061746dbe2a670fa4a355cb5603c4a87c98520706\n\
    {c34} b4e54a33205e90e2c415f44d230cb9d822e4d0910c4239bb1334a98c6861aa4b\n\
    {status1} abe56b53449fa9b0f4516ae772061b3cadcdfe46dab76c0ceee2e6f01860cf4f\n\
    {lost} d33d23d8278af73522f4de92cb0e2f1e55445e5eda7642fb4fc7862059f43837\n\
    {bad16} 8690d9d6eb9f4b82e9d1ddadf5898728e41695dbaff106c553d0476387f6a37f\n\
    {twos} 2222222222222222222222222222222222222222222222222222222222222222\n\
    {spending-txid} 5cba3cbca1fa086bcc8daa648e17b5fe1cb218fd538434eb2a477bf67a4837ea\n\
    {z-a2} 8c1f0bc779f84fcdeb0596a558621a99915cf8d9dc0ed61e8fd5759480f3fee1\n\
    {z-b3} 5f79b19a3b7a8b6272ebc8ded37a9fdd910bc3f72a9254e2f3329cc6eea7119b\n\
    {z-c1} bac15facb735ed103448b52aba8d1e49bb33bc0f84a91b1ebfb3518fbf191c4f\n\
    {z-d1} 21c2cc8ad7d5fd1444162274996ed89c1a8b604b78c096ef06c7b35c9cdff6cb\n\
    {z-txid} 30ca4fa99682e9b4551e98f01ae96565af60464e9718d68b13f3c36fbb77cd2d\n\
    {z1-txid} 9022aeaee5870e7413d80a9d082d27872120356bbb4743c9949396bf32ef30a3\n\
    {halves-txid} ddddea3fd4937fba3daec6859297a96cdfc726bddec77f464084c1881b1635e3\n\
    {shared-txid} 8faf866b892c0a89fdc6b0f69ba1861ad111d4a55c04d95354ae3e7e3163a38b\n\
    {script101} 87db42382cbedc1754986e8d2b98ed07381d67e43bebb313f331acc40b7cecbb\n\
    {halves} \
    01000000012dcd77bb6fc3f3138bd618974e4660af6565e91af0981e55b4e98296a94fca300000000000ffffff\
    ff0200f902950000000005040100000000f902950000000005046400000000000000\n\
    {child} \
    0100000001e335161b88c18440467fc7debd26c7df6ca9979285c6ae3dba7f93d43feadddd0000000000ffffff\
    ff0100f902950000000005040200000000000000\n\
    {parent} \
    01000000012dcd77bb6fc3f3138bd618974e4660af6565e91af0981e55b4e98296a94fca300000000000ffffff\
    ff0100f2052a0100000005040100000000000000\n\
    {parents-child} \
    010000000104eef8e5f674e85c0edbde0af8de32ece24327293fd239a968c94f9d9e8827550000000000ffffff\
    ff0100f2052a0100000005040200000000000000\n\
    {overspends} \
    01000000012dcd77bb6fc3f3138bd618974e4660af6565e91af0981e55b4e98296a94fca300000000000ffffff\
    ff0101f2052a0100000005040100000000000000\n\
    {conflicts} \
    01000000012dcd77bb6fc3f3138bd618974e4660af6565e91af0981e55b4e98296a94fca300000000000ffffff\
    ff01010000000000000005040300000000000000\n\
    {misses} \
    010000000111111111111111111111111111111111111111111111111111111111111111110000000000ffffff\
    ff01010000000000000005040100000000000000\n\
    {makes-coins} \
    01000000010000000000000000000000000000000000000000000000000000000000000000ffffffff06050500\
    000000ffffffff0100f2052a0100000005040100000000000000\n\
    {child-txid} d7234e55441a1b3406db9c1cb29c84250d039aed42a2b26060ebcc01984248e7\n\
    {parent-txid} 5527889e9d4fc968a939d23f292743e2ec32def80adedb0e5ce874f6e5f8ee04\n\
    {child-status} db8af50bbc16adf2eb06536f6fc1f6ebc614f6fdce970880b50fb7d2f6491fa6\n\
    {child-status-later} eab4c64346ca283427d6f6045a15992c451af32f4337c81f4ea01a54f62e8543\n\
    {ones} 1111111111111111111111111111111111111111111111111111111111111111\n\
    {z-0} e24fc0cd4b74e58d1bcfa1d15b2c35345824b4e3e6e3959659d662c2ce011688\n\
    {script2} 0d4d9b3ea98f8961b4590bc2f7a60c50b17bccd19422a122c86ab79d41c043f6\n\
    {z-header} \
    0100000000000000000000000000000000000000000000000000000000000000000000002dcd77bb6fc3f3138b\
    d618974e4660af6565e91af0981e55b4e98296a94fca3029ab5f49ffff7f2000000000\n\
    {a2-header} \
    01000000a1b77949af0e8bb168ce7d0c52a7b57c50763d4e5eb7be27b409731c0b6cda96063f6cd5710bb3b8c7\
    0641c400b39fa8398405d4443652444de869a49b422ddad9af5f49ffff7f2000000000\n\
    {b3-header} \
    0100000056429a748ea293ae3e2e5494c276d063043a93df01b0e5a445eff1cddb826232c1518bcffee793f9bb\
    1111dda2e0a34af207b8b8113d4e870286cf99f4725ba031b25f49ffff7f2001000000\n\
    {c3-header} \
    01000000699742a73f81eb4139264e0dc7a7df30c311278f6904bfa8f6715fb963a3cdb7c1518bcffee793f9bb\
    1111dda2e0a34af207b8b8113d4e870286cf99f4725ba031b25f49ffff7f2001000000\n\
    {z-c3} 85ad736863c9403faf287ff60961fafa5fbef3c207c3f6ede9d4edb181859345\n\
    {z-e1} ae3372bcff207bba0f0bdc4fa9aad7a139f447ecb168f77841ad0befd5196e08\n\
    {conflicts-txid} 8381ab3257eb066d810edafa4f0fcbdd94366bf75393f25e4743354d6c686ded\n\
    {parents-child-txid} a566cc4feebbe7019c3d91a8c7633ff48cfbcc41200ea80a3d921e00d6db7b84\n\
    {halves-status} 52bcba0578d289f215041d04e38a4a5776e7517405be7419070e3edd02a27854\n\
    {halves-status-1} 419685066c62e49d381eb4ff6ba456cd91cbef0830300b2e083f16bbf1a63ab1\n\
    {halves-status-2} 7f6af4c1e138d4cecca1844a6bc70cbd1c8dc5515e11bb34272f88b805b183d4\n\
    {both-status} d419f305d08d238dd293f816285bdbf4e57d5b0c3615dd2623f201790dd40f38\n\
    {both-status-1} 0def6372a25199f8c7ea1dfc183f2e77e127d052e6114764e9ad6651f03cd652\n\
    {parents-child-status} cd2da1348b0dabd0c464a8bba0485b06a2981c8d8a4eb480257479d35e1cb466\n\
    {parents-child-status-later} f254a2ef13e8416b0ec8afd47a1af60666b72bfd56a630a48c8f134ee9b7b2ea\n\
    {script3} 471f7659325175fa384ece76ab3f3354bb5e5d470df916096465257ec03c9d8c\n\
    {script100} c2491fb4db5d640563334d5695cd0fae355b5f12c04ead37b5c3a9025f75acbb\n\
    {program-script} 42506eaeb3302d6f1eb21baefa3037e6c0edadd1d3525f15720645dbd94140b1";

// What names stand for of Bitcoin's first two blocks.
const FIRST_BLOCKS: [(&str, &str); 7] = [
    ("{genesis}", GENESIS_HASH),
    ("{block1}", BLOCK_1_HASH),
    ("{genesis-txid}", GENESIS_TXID),
    ("{block1-txid}", BLOCK_1_TXID),
    ("{genesis-script}", GENESIS_SCRIPT_HASH),
    ("{block1-script}", BLOCK_1_SCRIPT_HASH),
    ("{empty-script}", EMPTY_SCRIPT_HASH),
];

/// The text in which no name is left.
pub fn named(alloc: Global, text: &str) -> Result<String, AllocError> {
    let mut text = String::from_str(alloc, text)?;
    for line in NAMES.lines() {
        if let Some((name, value)) = line.split_once(' ') {
            text = text.as_str().replace(alloc, name, value)?;
        }
    }
    for (name, value) in FIRST_BLOCKS {
        text = text.as_str().replace(alloc, name, value)?;
    }
    Ok(text)
}
