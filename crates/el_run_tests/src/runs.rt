// What a node and clients are answered.
ghost use Rattle.std.specs.Prelude.{◌<◌};

use el_fakes::Coming;
use el_gen::{BLOCK_1, GENESIS};
use el_program::Status;
use el_trials::Part::{Between, Block};
use el_trials::Step::{Leaves, Opens, Says, Waits};
use el_trials::{
    Files, ONCE, ONCE_MAIN, Part, SERVE, SERVE_MAIN, Step, call_steady, coming, expect_ended,
    files_of, named, say,
};
use std::alloc::Global;
use std::test::Fail;
use std::thread::Threads;

// A hundred zeros, and the magic, size and first 50 bytes of the second block.
const CUT: &str =
    "0000000000000000000000000000000000000000000000000000000000000000000000000000000000000000000000000000\
     0000000000000000000000000000000000000000000000000000000000000000000000000000000000000000000000000000\
     f9beb4d9d7000000010000006fe28c0ab6f1b372c1a6a246ae63f74f931e8365e15a089c68d6190000000000982051fd1e4b\
     a744bbbe680e1fee";

// A block after the genesis block: a coinbase, and a transaction with a witness that spends the genesis
// block's coin.
const SPENDING: &str =
    "010000006fe28c0ab6f1b372c1a6a246ae63f74f931e8365e15a089c68d61900000000002c836b51f04ec7390f370ad9be5c\
     2bf25ca6abde6585c950bbd1f325fce7bf8c29ab5f49ffff001d000000000201000000010000000000000000000000000000\
     000000000000000000000000000000000000ffffffff050100000000ffffffff0100f2052a01000000015200000000020000\
     000001013ba3edfd7a7b12b27ac72c3e67768f617fc81bc3888a51323a9fb8aa4b1e5e4a0000000000ffffffff0200943577\
     000000000151185ad0b200000000160014000102030405060708090a0b0c0d0e0f1011121302012a0301020300000000";

// A file of 677 bytes.
const EXAMPLE: [Part; 4] = [
    Block(GENESIS),
    Between("aabbcc"),
    Block(BLOCK_1),
    Between(CUT),
];

// The words, the files, what comes, and what is sent and closed.
const RUNS: &[(&str, Files, &[Step<'static>], &str)] = &[
    (
        SERVE_MAIN,
        Files::Parts(&EXAMPLE),
        &[
            Says(
                0,
                "block 0 0\nblock 0 1\ntip {twos}\nTip x\ntip {block1}\nblock 0 619\n",
            ),
            Says(0, "block 0 296\ntx 00\ndrop {twos}\n\ntip"),
        ],
        "0 block {genesis}\n0 refused place\n0 refused unknown {twos}\n0 refused line\n0 at {block1} 1\n\
         0 refused place\n0 block {block1}\n0 refused form\n0 refused absent {twos}\n0 refused line\n",
    ),
    // a move has at most 16 blocks; a tip that is the tip is answered as one that was moved to
    (
        SERVE,
        Files::Branch(17),
        &[Says(0, "tip {a16}\ntip {a16}\n")],
        "0 at {a15} 15\n0 at {a16} 16\n0 at {a16} 16\n",
    ),
    // the last block is taken back, and a refused line leads nowhere
    (
        SERVE,
        Files::Branch(17),
        &[
            Opens(1),
            Says(0, "tip {a0}\ntip {a16}\ntip {a15}\ntip {twos}\n"),
            Says(1, "{asks}{script16}{asked}\n"),
        ],
        "0 at {a0} 0\n0 at {a16} 16\n0 at {a15} 15\n0 refused unknown {twos}\n1 {none}\n",
    ),
    // a second block with no parent is not kept; one whose parent nobody has is
    (
        SERVE,
        Files::Others,
        &[Says(
            0,
            "block 1 0\ntip {b0}\ntip {lost}\ntip {b1}\ntip {a1}\ntip {a0}\nblock 0 0\n",
        )],
        "0 refused genesis {b0}\n0 refused unknown {b0}\n0 refused unconnected {lost}\n0 at {b1} 1\n\
         0 at {a1} 1\n0 at {a0} 0\n0 block {a0}\n",
    ),
    // all files are looked at
    (
        SERVE,
        Files::Apart,
        &[Says(0, "tip {a1}\nblock 2 0\nblock 1 0\nblock 3 0\n")],
        "0 at {a1} 1\n0 block {a0}\n0 refused place\n0 refused place\n",
    ),
    // a later move that is refused leaves what was moved before
    (
        SERVE,
        Files::Late,
        &[Says(0, "tip {bad16}\ntip {a15}\n")],
        "0 at {a15} 15\n0 refused bad {bad16} merkle\n0 at {a15} 15\n",
    ),
    // another network's blocks
    (
        SERVE_MAIN,
        Files::Branch(2),
        &[Says(0, "tip {a0}\nblock 0 0\n")],
        "0 refused unknown {a0}\n0 refused place\n",
    ),
    // two folders of one name, and the greatest and the least port
    (
        "serve --blocks a --index a --network regtest --client-port 0000065535 --node-port 0000000001",
        Files::Branch(1),
        &[Says(0, "tip {a0}\n")],
        "0 at {a0} 0\n",
    ),
    // a client's histories are those of the chain to which the node led
    (
        SERVE,
        Files::Branch(17),
        &[
            Opens(1),
            Says(1, "{asks}{script0}{asked}\n"),
            Says(0, "tip {a1}\n"),
            Says(1, "{asks}{script0}{asked}\n{asks}{script1}{asked}\n{}\n"),
            Says(0, "tip {a16}\n"),
            Says(1, "{asks}{script15}{asked}\n{asks}{script16}{asked}\n"),
        ],
        "1 {none}\n0 at {a1} 1\n1 {lists}{entry0}{listed}\n1 {lists}{entry1}{listed}\n1 {invalid}\n\
         0 at {a16} 16\n1 {lists}{entry15}{listed}\n1 {lists}{entry16}{listed}\n",
    ),
    // header proofs up to checkpoints, the same again, and after blocks were taken back
    (
        SERVE,
        Files::Branch(17),
        &[
            Opens(1),
            Says(0, "tip {a16}\n"),
            Says(
                1,
                "{\"id\":1,\"method\":\"blockchain.block.header\",\"params\":[16,16]}\n{\"id\":1,\"\
                 method\":\"blockchain.block.header\",\"params\":[3,15]}\n{\"id\":1,\"method\":\"bl\
                 ockchain.block.header\",\"params\":[0,4]}\n{\"id\":1,\"method\":\"blockchain.block\
                 .header\",\"params\":[3,15]}\n",
            ),
            Says(0, "tip {a3}\n"),
            Says(
                1,
                "{\"id\":1,\"method\":\"blockchain.block.header\",\"params\":[3,3]}\n{\"id\":1,\"me\
                 thod\":\"blockchain.block.header\",\"params\":[0,4]}\n",
            ),
        ],
        "0 at {a15} 15\n0 at {a16} 16\n1 {\"id\":1,\"jsonrpc\":\"2.0\",\"result\":{\"branch\":[\"ac\
         5e4656c439bba5a18104fd34b4aa8cc63d6595452db8305d88e628f62d06b8\",\"106102225e4dd3ea951f036\
         c731cf994797d07d5ce8df7e0da09f9adffd6b3b2\",\"dee86c99331bf2e903af91f723bed73b1fc3bf6486b6\
         6dcc898780fe1c4fe334\",\"c054b6ea4d1a9f60a5121ed10d397182e770efdf8a8b0e8fd98bf4442738506b\
         \",\"9c89b37c2242836ee0674b838e2f3e1c39ab8753ce7538ad934d5200ea828cc1\"],\"header\":\"0100\
         0000b83e87c803ffc25e61719fb7805cf5c5041f708fbb68ed9886ac063b1ab38dbf3f3ea262ef321903de0a53\
         b33a8f0783403c13d80880ba61e5e9e078ec067021a9d05f49ffff7f2000000000\",\"root\":\"006395eb78\
         d2f09d2250e7af56654838b2eba7cbaeef4981184e29528dfbfae1\"}}\n1 {\"id\":1,\"jsonrpc\":\"2.0\
         \",\"result\":{\"branch\":[\"83dbd15955b4dd4fa735bba4cbf544a08e2ba273db1ac32812faf7d5d7944\
         014\",\"134a84e39026a02c54b3c0ca522fae11a5529bd6ea2775bafdd3a77bd91ea8e4\",\"45240eee9eca4\
         442f6d6b09141810f09e5d60f8e04f2dd9e2077183da3c7cb12\",\"cc589087f12b8aaceb99e2582dc8bd7944\
         ca7866379f47112323fd1813370ef9\"],\"header\":\"01000000144094d7d5f7fa1228c31adb73a22b8ea04\
         4f5cba4bb35a74fddb45559d1db8387b46d69a3e98bb988525c59363e72104edac5f15f47ca7be24dab4110ba7\
         3b331b25f49ffff7f2000000000\",\"root\":\"9c89b37c2242836ee0674b838e2f3e1c39ab8753ce7538ad9\
         34d5200ea828cc1\"}}\n1 {\"id\":1,\"jsonrpc\":\"2.0\",\"result\":{\"branch\":[\"ed9baeca366\
         e96afe6116b0259364db174ac75fe93b186b369f3cf8a3f63eb96\",\"f6a91051b75a1854292a2e55e9bc400e\
         cfb811bbd7b48067b46d85b62be5456c\",\"cc27fc2457c794ff31fcd08539e7a2b0eca04c73a44f29bbcd091\
         b49b4fc5c87\"],\"header\":\"01000000000000000000000000000000000000000000000000000000000000\
         00000000000945bac2381c001cb6dea0961a458e4b12a808f7b61b557e37da5a58c15c1cf029ab5f49ffff7f20\
         00000000\",\"root\":\"b0c5a9b3a1939335d478ec5422909a8d65b5fc0c99d97118ad17692b8ed00f9b\"}}\
         \n1 {\"id\":1,\"jsonrpc\":\"2.0\",\"result\":{\"branch\":[\"83dbd15955b4dd4fa735bba4cbf544\
         a08e2ba273db1ac32812faf7d5d7944014\",\"134a84e39026a02c54b3c0ca522fae11a5529bd6ea2775bafdd\
         3a77bd91ea8e4\",\"45240eee9eca4442f6d6b09141810f09e5d60f8e04f2dd9e2077183da3c7cb12\",\"cc5\
         89087f12b8aaceb99e2582dc8bd7944ca7866379f47112323fd1813370ef9\"],\"header\":\"010000001440\
         94d7d5f7fa1228c31adb73a22b8ea044f5cba4bb35a74fddb45559d1db8387b46d69a3e98bb988525c59363e72\
         104edac5f15f47ca7be24dab4110ba73b331b25f49ffff7f2000000000\",\"root\":\"9c89b37c2242836ee0\
         674b838e2f3e1c39ab8753ce7538ad934d5200ea828cc1\"}}\n0 at {a3} 3\n1 {\"id\":1,\"jsonrpc\":\
         \"2.0\",\"result\":{\"branch\":[\"83dbd15955b4dd4fa735bba4cbf544a08e2ba273db1ac32812faf7d5\
         d7944014\",\"134a84e39026a02c54b3c0ca522fae11a5529bd6ea2775bafdd3a77bd91ea8e4\"],\"header\
         \":\"01000000144094d7d5f7fa1228c31adb73a22b8ea044f5cba4bb35a74fddb45559d1db8387b46d69a3e98\
         bb988525c59363e72104edac5f15f47ca7be24dab4110ba73b331b25f49ffff7f2000000000\",\"root\":\"6\
         c2d3bb77b9eb9a74155c4ec911462d1a076e7404e8ec53cbe666043f9c1038d\"}}\n1 {\"error\":{\"code\
         \":1,\"message\":\"bad checkpoint\"},\"id\":1,\"jsonrpc\":\"2.0\"}\n",
    ),
    // the node's bytes are none of a client's, and a client's are none of the node's
    (
        SERVE,
        Files::Branch(2),
        &[
            Opens(1),
            Says(0, "tip "),
            Says(1, "{a1}\n"),
            Says(0, "{a0}\n"),
            Says(1, "tip {a1}\n{asks}{script0}{asked}\n"),
        ],
        "1 {parse}\n0 at {a0} 0\n1 {parse}\n1 {lists}{entry0}{listed}\n",
    ),
    // the start of a line goes with its client
    (
        SERVE,
        Files::Branch(2),
        &[
            Opens(1),
            Opens(2),
            Says(1, "{asks}"),
            Leaves(1),
            Waits,
            Opens(7),
            Says(0, "tip {a0}\n"),
            Says(7, "{asks}{script0}{asked}\n"),
        ],
        "0 at {a0} 0\n7 {lists}{entry0}{listed}\n",
    ),
    // nothing comes after the node has left
    (
        SERVE,
        Files::Branch(2),
        &[
            Opens(1),
            Says(0, "tip {a0}\ntip"),
            Leaves(0),
            Says(1, "{}\n"),
        ],
        "0 at {a0} 0\n",
    ),
    // `once` has the chain of the first file, and no node
    (
        ONCE_MAIN,
        Files::Parts(&EXAMPLE),
        &[
            Opens(1),
            Says(
                1,
                "{asks}{genesis-script}{asked}\n{}\n{asks}{empty-script}{asked}\n",
            ),
            Says(1, "{asks}{block1-script}{asked}\n"),
        ],
        "1 {lists}{genesis-entry}{listed}\n1 {invalid}\n1 {none}\n1 {lists}{block1-entry}{listed}\n",
    ),
    // an entry for what funds a script and one for what spends it; the start of a line is none
    (
        ONCE_MAIN,
        Files::Parts(&[Block(GENESIS), Block(SPENDING)]),
        &[
            Opens(1),
            Says(
                1,
                "{asks}{genesis-script}{asked}\n{asks}{program-script}{asked}\n{}",
            ),
        ],
        "1 {lists}{genesis-entry},{spending-entry}{listed}\n1 {lists}{spending-entry}{listed}\n",
    ),
    (
        ONCE,
        Files::Parts(&[]),
        &[Opens(1), Says(1, "{asks}{script0}{asked}\n\n")],
        "1 {none}\n1 {parse}\n",
    ),
    (
        ONCE,
        Files::Others,
        &[
            Opens(1),
            Says(0, "tip {a1}\nblock 0 0\n"),
            Says(1, "{asks}{script0}{asked}\n{asks}{script1}{asked}\n"),
        ],
        "1 {lists}{entry0}{listed}\n1 {none}\n",
    ),
    (
        ONCE,
        Files::Branch(17),
        &[
            Opens(1),
            Opens(2),
            Says(1, "{asks}{script16}{asked}\n"),
            Says(2, "{asks}{script15}{asked}\n"),
            Leaves(0),
            Says(1, "{}\n"),
        ],
        "1 {lists}{entry16}{listed}\n2 {lists}{entry15}{listed}\n",
    ),
];

// How the run ends, and what is sent and closed, where all bytes come in pieces of that length.
fn run<W: Threads + Sync>(
    rt: &W,
    alloc: Global,
    words: &str,
    files: Files,
    steps: &[Step<'static>],
    piece: usize,
) -> Result<(Status, String), Fail>
    requires { 0 < piece }
{
    let steps = coming(alloc, steps, piece)?;
    call_steady(rt, alloc, words, files_of(alloc, files)?, steps)
}

#[test]
fn answers_whole(rt: HostRuntime) -> Result<(), Fail> {
    for (words, files, steps, want) in RUNS {
        let (status, text) = run(&rt, rt.alloc(), words, *files, steps, 1_000)?;
        let wanted = (Status::Ended, *want);
        expect_ended(rt.alloc(), (status, text.as_str()), wanted)?;
    }
    Ok(())
}

#[test]
fn answers_byte_by_byte(rt: HostRuntime) -> Result<(), Fail> {
    for (words, files, steps, want) in RUNS {
        let (status, text) = run(&rt, rt.alloc(), words, *files, steps, 1)?;
        let wanted = (Status::Ended, *want);
        expect_ended(rt.alloc(), (status, text.as_str()), wanted)?;
    }
    Ok(())
}

// What is sent where the node's line and the client's come in two pieces each, in this order: n for a piece
// of the node's. `cuts` are the places of the cuts.
fn in_order<W: Threads + Sync>(
    rt: &W,
    alloc: Global,
    order: &str,
    cuts: (usize, usize),
) -> Result<String, Fail> {
    let line = named(alloc, "tip {a1}\n")?;
    let request = named(alloc, "{asks}{script1}{asked}\n")?;
    let (first, last) = line.as_bytes().split_at(cuts.0.min(line.len()));
    let mut of_node = [first, last].into_iter();
    let (first, last) = request.as_bytes().split_at(cuts.1.min(request.len()));
    let mut of_client = [first, last].into_iter();
    let mut steps = Vec::new(alloc);
    steps.push(Coming::Opened(1))?;
    for letter in order.chars() {
        let (peer, piece) = if letter == 'n' {
            (0, of_node.next())
        } else {
            (1, of_client.next())
        };
        say(alloc, &mut steps, peer, piece.unwrap_or(&[]), 1_000)?;
    }
    let files = files_of(alloc, Files::Branch(2))?;
    Ok(call_steady(rt, alloc, SERVE, files, steps)?.1)
}

const TIP_FIRST: &str = "0 at {a1} 1\n1 {lists}{entry1}{listed}\n";

const TIP_LAST: &str = "1 {none}\n0 at {a1} 1\n";

// Orders, and what is sent.
const ORDERS: &[(&str, &str)] = &[
    ("nncc", TIP_FIRST),
    ("ncnc", TIP_FIRST),
    ("cnnc", TIP_FIRST),
    ("nccn", TIP_LAST),
    ("cncn", TIP_LAST),
    ("ccnn", TIP_LAST),
];

// Places of the cuts.
const CUTS: &[(usize, usize)] = &[(1, 131), (4, 66), (35, 1), (68, 131)];

#[test]
fn two_pieces_in_each_order(rt: HostRuntime) -> Result<(), Fail> {
    let alloc = rt.alloc();
    for (order, want) in ORDERS {
        let want = named(alloc, want)?;
        for cuts in CUTS {
            let text = in_order(&rt, alloc, order, *cuts)?;
            assert!(rt; text.as_str() == want.as_str(), "{order} {cuts:?}");
        }
    }
    Ok(())
}
