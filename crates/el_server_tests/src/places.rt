// What clients are answered over a block of three transactions, and of one that has a witness. The block, its
// hash, the txids and the hashes over them were made by a program of another kind from Bitcoin's rules.
use crate::server::{Step, says};
use el_gen::{BLOCK_1, BLOCK_1_HASH, GENESIS, GENESIS_HASH};
use std::alloc::Global;
use std::test::Fail;
use std::thread::Threads;

// A block after Bitcoin's second one: a coinbase, a transaction with a witness that takes the coin of the
// first block, and one that takes that of the second.
const THIRD: &str = "\
    010000004860eb18bf1b1620e37e9490fc8a427514416fd75159ab86688e9a83000000000494966ca09ff95d2a35e5cf06e2\
    0cabb9b4eaa8938bd1820d39d85f6c5f9421d9af5f49ffff7f20000000000301000000010000000000000000000000000000\
    000000000000000000000000000000000000ffffffff06050200000000ffffffff0100f2052a010000000504650000000000\
    0000020000000001013ba3edfd7a7b12b27ac72c3e67768f617fc81bc3888a51323a9fb8aa4b1e5e4a0000000000ffffffff\
    01e803000000000000015101012a000000000100000001982051fd1e4ba744bbbe680e1fee14677ba1a3c3540bf7b1cdb606\
    e857233e0e0000000000ffffffff0100f2052a0100000005040700000000000000";

// The 66 bytes of the second of these transactions: version, marker and flag, an input, an output, the one
// byte of its one witness, and the lock (BIP 144).
const WITH_WITNESS: &str = "\
    020000000001013ba3edfd7a7b12b27ac72c3e67768f617fc81bc3888a51323a9fb8aa4b1e5e4a0000000000ffffffff01e8\
    03000000000000015101012a00000000";

// What a letter stands for in the texts below.
fn meant(letter: char) -> &'static str {
    match letter {
        // the three blocks, and the txids of the transactions of the third in their order
        'G' => GENESIS_HASH,
        'S' => BLOCK_1_HASH,
        'T' => "e06f4fe50ec899aa67123f58e6b802098aeb0e3dccaffc6b0b6ffa7ffcd6bda1",
        'A' => "da2d429ba469e84d44523644d4058439a89fb300c44106c7b8b30b71d56c3f06",
        'B' => "63061b655e6df8723b5a96116ee385c759c281146bcd89175f0cdba015d330e3",
        'C' => "c7e259a335445584d88cacfd45796b7088ad7dea85586cea03f8c7d858946f5b",
        // the hash over the first two txids, and that over the last one twice
        'D' => "6b0111bef83cfd27c977552cdf7fb5cb1aece749982037af467d5c6336cfb0f6",
        'E' => "5cf9ef8839c1fd8c3a3cd7bd7f4f84efee64ea6125a1397f571677a2d05207a2",
        // the transaction with a witness; it without its last byte; what stands after its flag; and what
        // stands before its witness
        'W' => WITH_WITNESS,
        'X' => WITH_WITNESS.get(..130).unwrap_or(""),
        'Y' => WITH_WITNESS.get(12..).unwrap_or(""),
        'Z' => WITH_WITNESS.get(..118).unwrap_or(""),
        _ => "",
    }
}

// The text with what its capital letters stand for.
fn filled(alloc: Global, text: &str) -> Result<String, Fail> {
    let mut whole = String::new(alloc);
    for letter in text.chars() {
        if letter.is_ascii_uppercase() {
            whole.push_str(meant(letter))?;
        } else {
            whole.push(letter)?;
        }
    }
    Ok(whole)
}

// What the node says and what a client then asks, and what both are answered.
type Case = (&'static str, &'static str, &'static str);

const CASES: &[Case] = &[
    // a branch from the lowest level up, where the last hash of an odd number is joined with itself
    (
        "tip T\n",
        "{\"id\":1,\"method\":\"blockchain.transaction.id_from_pos\",\"params\":[2,2,true]}\n",
        "at T 2\n{\"id\":1,\"jsonrpc\":\"2.0\",\"result\":{\"merkle\":[\"C\",\"D\"],\"tx_hash\":\"C\"}}\n",
    ),
    (
        "tip T\n",
        "{\"id\":1,\"method\":\"blockchain.transaction.id_from_pos\",\"params\":[2,3]}\n",
        "at T 2\n\
         {\"error\":{\"code\":1,\"message\":\"no such position\"},\"id\":1,\"jsonrpc\":\"2.0\"}\n",
    ),
    (
        "tip T\n",
        "{\"id\":1,\"method\":\"blockchain.transaction.id_from_pos\",\"params\":[2,1]}\n",
        "at T 2\n{\"id\":1,\"jsonrpc\":\"2.0\",\"result\":\"B\"}\n",
    ),
    (
        "tip T\n",
        "{\"id\":1,\"method\":\"blockchain.transaction.get_merkle\",\"params\":[\"B\",2]}\n",
        "at T 2\n{\"id\":1,\"jsonrpc\":\"2.0\",\"result\":\
         {\"block_height\":2,\"merkle\":[\"A\",\"E\"],\"pos\":1}}\n",
    ),
    // all bytes of a transaction are given, and its txid is the hash of those without the witness
    (
        "tip T\n",
        "{\"id\":1,\"method\":\"blockchain.transaction.get\",\"params\":[\"B\"]}\n",
        "at T 2\n{\"id\":1,\"jsonrpc\":\"2.0\",\"result\":\"W\"}\n",
    ),
    (
        "tip T\n",
        "{\"id\":1,\"method\":\"blockchain.transaction.get\",\"params\":[\"B\",true]}\n",
        "at T 2\n\
         {\"error\":{\"code\":1,\"message\":\"verbose not served\"},\"id\":1,\"jsonrpc\":\"2.0\"}\n",
    ),
    // unconfirmed: its last byte is missing, its flag is another one, its witness is empty, and it is whole
    (
        "tip S\ntx X\ntx 020000000002Y\ntx Z0000000000\ntx W\n",
        "{\"id\":1,\"method\":\"blockchain.transaction.get\",\"params\":[\"B\"]}\n",
        "at S 1\nrefused form\nrefused form\nrefused form\ntx B\n\
         {\"id\":1,\"jsonrpc\":\"2.0\",\"result\":\"W\"}\n",
    ),
];

// Whether this is shown where the node says the one text and a client the other one.
fn shows<'a, W: Threads + Sync>(
    rt: &W,
    alloc: Global,
    file: &[u8],
    said: &'a str,
    asked: &'a str,
    wanted: &str,
) -> Result<bool, Fail> {
    let run = [
        Step::Says(0, "block 0 0\nblock 0 293\nblock 0 516\n"),
        Step::Forget,
        Step::Says(0, said),
        Step::Opens(1),
        Step::Says(1, asked),
    ];
    says(rt, alloc, file, run.as_slice(), wanted)
}

// Whether node and client are answered so.
fn is_answered<W: Threads + Sync>(
    rt: &W,
    alloc: Global,
    file: &[u8],
    case: &Case,
) -> Result<bool, Fail> {
    let said = filled(alloc, case.0)?;
    let asked = filled(alloc, case.1)?;
    let wanted = filled(alloc, case.2)?;
    shows(
        rt,
        alloc,
        file,
        said.as_str(),
        asked.as_str(),
        wanted.as_str(),
    )
}

// The records of Bitcoin's first two blocks and of the third one.
fn three_records(alloc: Global) -> Result<Vec<u8>, Fail> {
    let text = format!(in alloc;
        "f9beb4d91d010000{GENESIS}f9beb4d9d7000000{BLOCK_1}f9beb4d91b010000{THIRD}"
    )?;
    Ok(hex::decode(alloc, text.as_str())?)
}

#[test]
fn requests_over_three_transactions(rt: HostRuntime) -> Result<(), Fail> {
    let file = three_records(rt.alloc())?;
    for case in CASES.iter() {
        assert!(rt;
            is_answered(&rt, rt.alloc(), file.as_slice(), case)?,
            "{}",
            case.1
        );
    }
    Ok(())
}
