// Bytes from Bitcoin's own chain, and others that tests share, as hex digits. What is called a hash or a txid
// is as users see it: the bytes from the last to the first.

/// The header of Bitcoin's first block, 80 bytes.
pub const HEADER_0: &str =
    "0100000000000000000000000000000000000000000000000000000000000000000000003ba3edfd7a7b12b27ac72c3e6776\
     8f617fc81bc3888a51323a9fb8aa4b1e5e4a29ab5f49ffff001d1dac2b7c";

/// Bitcoin's first block, 285 bytes.
pub const GENESIS: &str =
    "0100000000000000000000000000000000000000000000000000000000000000000000003ba3edfd7a7b12b27ac72c3e6776\
     8f617fc81bc3888a51323a9fb8aa4b1e5e4a29ab5f49ffff001d1dac2b7c0101000000010000000000000000000000000000\
     000000000000000000000000000000000000ffffffff4d04ffff001d0104455468652054696d65732030332f4a616e2f3230\
     3039204368616e63656c6c6f72206f6e206272696e6b206f66207365636f6e64206261696c6f757420666f722062616e6b73\
     ffffffff0100f2052a01000000434104678afdb0fe5548271967f1a67130b7105cd6a828e03909a67962e0ea1f61deb649f6\
     bc3f4cef38c4f35504e51ec112de5c384df7ba0b8d578a4c702b6bf11d5fac00000000";

/// The hash of Bitcoin's first block.
pub const GENESIS_HASH: &str = "000000000019d6689c085ae165831e934ff763ae46a2a6c172b3f1b60a8ce26f";

/// The txid of the first block's coinbase.
pub const GENESIS_TXID: &str = "4a5e1e4baab89f3a32518a88c31bc87f618f76673e2cc77ab2127b7afdeda33b";

/// The script hash of the output of the first block's coinbase (Electrum Protocol 1.4).
pub const GENESIS_SCRIPT_HASH: &str =
    "740485f380ff6379d11ef6fe7d7cdd68aea7f8bd0d953d9fdf3531fb7d531833";

/// The header of Bitcoin's second block, 80 bytes.
pub const HEADER_1: &str =
    "010000006fe28c0ab6f1b372c1a6a246ae63f74f931e8365e15a089c68d6190000000000982051fd1e4ba744bbbe680e1fee\
     14677ba1a3c3540bf7b1cdb606e857233e0e61bc6649ffff001d01e36299";

/// Bitcoin's second block, 215 bytes.
pub const BLOCK_1: &str =
    "010000006fe28c0ab6f1b372c1a6a246ae63f74f931e8365e15a089c68d6190000000000982051fd1e4ba744bbbe680e1fee\
     14677ba1a3c3540bf7b1cdb606e857233e0e61bc6649ffff001d01e362990101000000010000000000000000000000000000\
     000000000000000000000000000000000000ffffffff0704ffff001d0104ffffffff0100f2052a0100000043410496b538e8\
     53519c726a2c91e61ec11600ae1390813a627c66fb8be7947be63c52da7589379515d4e0a604f8141781e62294721166bf62\
     1e73a82cbf2342c858eeac00000000";

/// The hash of Bitcoin's second block.
pub const BLOCK_1_HASH: &str = "00000000839a8e6886ab5951d76f411475428afc90947ee320161bbf18eb6048";

/// The txid of the second block's coinbase.
pub const BLOCK_1_TXID: &str = "0e3e2357e806b6cdb1f70b54c3a3a17b6714ee1f0e68bebb44a74b1efd512098";

/// The script hash of the output of the second block's coinbase.
pub const BLOCK_1_SCRIPT_HASH: &str =
    "cc0d7111befe9f24f1824c797e837c5cff2f8773901ccb9aca0372a2a6c48d34";

/// A locking script that pays to the hash of a public key, and its script hash.
pub const P2PKH_SCRIPT: &str = "76a91462e907b15cbf27d5425399ebf6f0fb50ebb88f1888ac";

/// The script hash of that script.
pub const P2PKH_SCRIPT_HASH: &str =
    "8b01df4e368ea28f8dc0423bcf7a4923e3a12d307c875e47a0cfbf90b5c39161";

/// The script hash of the locking script OP_1, the one byte 0x51.
pub const OP_1_SCRIPT_HASH: &str =
    "6032c38c0bc0e91e726f1e55e1832e434509001a7aed5cfd881b6ef07215e84a";

/// The script hash of the empty locking script.
pub const EMPTY_SCRIPT_HASH: &str =
    "55b852781b9995a44c939b64e441ae2724b96f99c8f4fb9a141cfc9842c4b0e3";

/// A transaction with a witness (BIP 144), 66 bytes: it takes output 0 of the txid of 32 bytes 0x11, and
/// gives 1,000 satoshi to the script OP_1.
pub const WITNESS_TX: &str =
    "0200000000010111111111111111111111111111111111111111111111111111111111111111110000000000ffffffff01e8\
     03000000000000015101012a00000000";

/// The txid of that transaction.
pub const WITNESS_TXID: &str = "116102982e4852a9fe78c24f4c62e7b584378b956c83303d0d51b7b3b0fe6fb1";
