// Lines that come and go: pieces of lines, lines of a node, requests, replies, and answers to a node.
ghost use Rattle.std.specs.Prelude.{◌≤◌};

use el_base::{Bytes, CompactFault, Hash32};
use el_block::BlockFault;
use el_chain::{ConnectFault, MoveFault};
use el_lines::{
    AnswerRoom, LINE_LIMIT, LineBuffer, LineEvent, NODE_LINE_LIMIT, NodeAnswer, NodeLine,
    NodeLineFault, NodeRefusal, answer_text, cuts_do_not_matter, move_refused,
    node_line_says_one_thing, pieces_do_not_matter, pool_refused, read_node_line,
};
use el_mempool::PoolFault;
use el_side::moves_are_the_plan;
use el_tx::{Outpoint, TxFault};
use std::alloc::Global;
use std::test::Fail;

// The hash of Bitcoin's first block in inner order, and as it is shown, in lower case, upper case and both.
const HASH: [u8; 32] = [
    0x6f, 0xe2, 0x8c, 0x0a, 0xb6, 0xf1, 0xb3, 0x72, 0xc1, 0xa6, 0xa2, 0x46, 0xae, 0x63, 0xf7, 0x4f,
    0x93, 0x1e, 0x83, 0x65, 0xe1, 0x5a, 0x08, 0x9c, 0x68, 0xd6, 0x19, 0x00, 0x00, 0x00, 0x00, 0x00,
];

const SHOWN: [&str; 3] = [
    "000000000019d6689c085ae165831e934ff763ae46a2a6c172b3f1b60a8ce26f",
    "000000000019D6689C085AE165831E934FF763AE46A2A6C172B3F1B60A8CE26F",
    "000000000019d6689c085ae165831e934FF763AE46A2A6C172B3F1B60A8CE26F",
];

// The texts one after the other.
fn joined(alloc: Global, parts: &[&str]) -> Result<Vec<u8>, Fail> {
    let mut text = Vec::new(alloc);
    for part in parts {
        text.extend_from_slice(part.as_bytes())?;
    }
    Ok(text)
}

// Adds the next event, if one is left: the bytes of a line and a bar, or a hash sign for one that is too
// long.
fn take_event(buffer: &mut LineBuffer, limit: usize, events: &mut Vec<u8>) -> Result<(), Fail> {
    match buffer.next_line()? {
        Some(LineEvent::Line(line)) => {
            events.extend_from_slice(line.as_slice())?;
            events.push(b'|')?;
        }
        Some(LineEvent::TooLong { limit: told }) => {
            if told == limit {
                events.push(b'#')?;
            }
        }
        None => {}
    }
    Ok(())
}

// Adds the events that are left, eight at most.
fn take_events(buffer: &mut LineBuffer, limit: usize, events: &mut Vec<u8>) -> Result<(), Fail> {
    for _ in 0..8 {
        take_event(buffer, limit, events)?;
    }
    Ok(())
}

// The events of bytes that are fed in these pieces.
fn events_of(alloc: Global, limit: usize, pieces: &[&[u8]]) -> Result<Vec<u8>, Fail> {
    let mut buffer = LineBuffer::new(alloc, limit);
    let mut events = Vec::new(alloc);
    for piece in pieces {
        buffer.feed(piece)?;
        take_events(&mut buffer, limit, &mut events)?;
    }
    Ok(events)
}

// Whether they are these, where a line has at most five bytes.
fn has_events(alloc: Global, pieces: &[&[u8]], wanted: &[u8]) -> Result<bool, Fail> {
    Ok(events_of(alloc, 5, pieces)?.as_slice() == wanted)
}

// What was fed, in pieces, and the events of it where a line has at most five bytes.
const EVENTS: &[(&[&[u8]], &[u8])] = &[
    (&[b"one\n\nfives\n"], b"one||fives|"),
    (&[b"sixsix\nab\n"], b"#ab|"),
    (&[b"12345"], b""),
    (&[b"12345", b"\n"], b"12345|"),
    (&[b"123456"], b"#"),
    (&[b"123456", b"789", b"0\nab\ncd"], b"#ab|"),
    (&[b"1234567\n7654321\n1"], b"##"),
    (&[b"", b"\n", b"\0\xff\r\n"], b"|\0\xff\r|"),
];

#[test]
fn lines_at_the_limit(rt: HostRuntime) -> Result<(), Fail> {
    for (number, (pieces, events)) in EVENTS.iter().enumerate() {
        assert!(rt; has_events(rt.alloc(), *pieces, *events)?, "row {number}");
    }
    cuts_do_not_matter();
    pieces_do_not_matter();
    moves_are_the_plan();
    Ok(())
}

// Whether bytes have these events that are fed in two pieces, of which the second comes while lines of the
// first wait.
fn both_have(alloc: Global, front: &[u8], back: &[u8], wanted: &[u8]) -> Result<bool, Fail> {
    let mut buffer = LineBuffer::new(alloc, 5);
    let mut events = Vec::new(alloc);
    buffer.feed(front)?;
    buffer.feed(back)?;
    take_events(&mut buffer, 5, &mut events)?;
    Ok(events.as_slice() == wanted)
}

// Three lines, of which the last is too long, and bytes of a fourth.
#[test]
fn pieces_give_the_same_lines(rt: HostRuntime) -> Result<(), Fail> {
    let script: &[u8] = b"one\n\nthe third line\nfour";
    for at in 0..=script.len() {
        let (front, back) = script.split_at(at);
        assert!(rt; has_events(rt.alloc(), &[front, back], b"one||#")?, "{at}");
        assert!(rt; both_have(rt.alloc(), front, back, b"one||#")?, "{at}");
    }
    Ok(())
}

// Feeds these bytes, a line's part.
fn feed(buffer: &mut LineBuffer, bytes: &[u8], events: &mut Vec<u8>) -> Result<(), Fail> {
    buffer.feed(bytes)?;
    take_events(buffer, LINE_LIMIT, events)
}

// Feeds a megabyte without byte 10 in pieces of 62,500 bytes.
fn feed_megabyte(alloc: Global, buffer: &mut LineBuffer, events: &mut Vec<u8>) -> Result<(), Fail> {
    let piece = vec![in alloc; b'a'; 62_500]?;
    for _ in 0..16 {
        feed(buffer, &piece, events)?;
    }
    Ok(())
}

// Whether all events are these after one more megabyte, and those after these bytes behind it.
fn feeds(
    alloc: Global,
    buffer: &mut LineBuffer,
    events: &mut Vec<u8>,
    wanted: &[u8],
    bytes: &[u8],
    after: &[u8],
) -> Result<bool, Fail> {
    feed_megabyte(alloc, buffer, events)?;
    let is_wanted = events.as_slice() == wanted;
    feed(buffer, bytes, events)?;
    Ok(is_wanted && events.as_slice() == after)
}

#[test]
fn a_line_without_end(rt: HostRuntime) -> Result<(), Fail> {
    let alloc = rt.alloc();
    let mut buffer = LineBuffer::new(alloc, LINE_LIMIT);
    let mut events = Vec::new(alloc);
    assert!(rt; feeds(alloc, &mut buffer, &mut events, b"", b"a", b"#")?);
    assert!(rt;
        feeds(
            alloc,
            &mut buffer,
            &mut events,
            b"#",
            b"\nnext\n",
            b"#next|"
        )?
    );
    Ok(())
}

// Lines that name blocks, each with its file and its place there.
const BLOCKS: &[(&str, u32, u64)] = &[
    ("block 0 0", 0, 0),
    ("block 10 293", 10, 293),
    ("block 0000000007 00000000000000000008", 7, 8),
    (
        "block 4294967295 9223372036854775807",
        4_294_967_295,
        9_223_372_036_854_775_807,
    ),
];

#[test]
fn lines_of_blocks(rt: HostRuntime) -> Result<(), Fail> {
    for (line, file, at) in BLOCKS.iter() {
        let wanted = NodeLine::Block {
            file: *file,
            at: *at,
        };
        assert!(rt; reads(rt.alloc(), &[*line], &wanted)?, "of {line}");
    }
    node_line_says_one_thing();
    Ok(())
}

// Whether these words, one after the other, are read as that line of a node.
fn reads(alloc: Global, words: &[&str], wanted: &NodeLine) -> Result<bool, Fail> {
    let line = joined(alloc, words)?;
    Ok(read_node_line(alloc, &line)? == *wanted)
}

#[test]
fn lines_of_hashes(rt: HostRuntime) -> Result<(), Fail> {
    let (tip, drop) = (NodeLine::Tip(Hash32(HASH)), NodeLine::Drop(Hash32(HASH)));
    for shown in SHOWN {
        assert!(rt; reads(rt.alloc(), &["tip ", shown], &tip)?, "of {shown}");
        assert!(rt; reads(rt.alloc(), &["drop ", shown], &drop)?, "of {shown}");
    }
    Ok(())
}

// Lines that say nothing.
const NO_LINES: &[&str] = &[
    "",
    "block",
    "block 0",
    "block 0 ",
    "block 0 0 ",
    " block 0 0",
    "block  0 0",
    "block 0  0",
    "block 0 0 0",
    "Block 0 0",
    "block 4294967296 0",
    "block 00000000000 0",
    "block 0 9223372036854775808",
    "block 0 18446744073709551616",
    "block 0 000000000000000000000",
    "block +1 0",
    "block 0 -1",
    "block 0x1 0",
    "block 0\t0",
    "block 0 0\r",
    "tip",
    "tip 000000000019d6689c085ae165831e934ff763ae46a2a6c172b3f1b60a8ce26",
    "tip 000000000019d6689c085ae165831e934ff763ae46a2a6c172b3f1b60a8ce26f ",
    "tip 000000000019d6689c085ae165831e934ff763ae46a2a6c172b3f1b60a8ce26g",
    "tip  00000000019d6689c085ae165831e934ff763ae46a2a6c172b3f1b60a8ce26f",
    "Tip 000000000019d6689c085ae165831e934ff763ae46a2a6c172b3f1b60a8ce26f",
    "tx",
    "tx ",
    "tx 0",
    "tx 00a",
    "tx 0g",
    "tx 00 00",
    "tx 0x00",
    "drop",
    "drop 00",
    "tip\u{e9}",
    "tx \u{e9}",
];

// Whether these bytes are read as no line of a node.
fn is_no_line(alloc: Global, line: &[u8]) -> bool {
    read_node_line(alloc, line) == Err(NodeLineFault::Line)
}

#[test]
fn no_node_lines(rt: HostRuntime) -> Result<(), Fail> {
    for line in NO_LINES.iter() {
        assert!(rt; is_no_line(rt.alloc(), line.as_bytes()), "of {line}");
    }
    assert!(rt; is_no_line(rt.alloc(), &[b't', b'x', b' ', 255, 254]));
    Ok(())
}

// The line of a transaction of so many bytes 0x77.
fn long_line(alloc: Global, len: usize) -> Result<Vec<u8>, Fail>
    requires { len ≤ 4000000 }
{
    let mut line = Vec::from_slice(alloc, b"tx ")?;
    let digits = vec![in alloc; b'7'; 2 * len]?;
    line.extend_from_slice(&digits)?;
    Ok(line)
}

// Whether a transaction of 4,000,000 bytes is read, whose line is no longer than a line may be.
fn reads_the_longest(alloc: Global) -> Result<bool, Fail> {
    let line = long_line(alloc, 4_000_000)?;
    let found = read_node_line(alloc, &line)?;
    let bytes = vec![in alloc; 0x77; 4_000_000]?;
    Ok(line.len() <= NODE_LINE_LIMIT && found == NodeLine::Tx(Bytes::from_vec(bytes)))
}

// Whether digits of both cases are read.
fn reads_digits(alloc: Global) -> Result<bool, Fail> {
    let bytes = Bytes::from_slice(alloc, &[0, 0xa9, 0xff])?;
    reads(alloc, &["tx 00a9fF"], &NodeLine::Tx(bytes))
}

#[test]
fn lines_of_transactions(rt: HostRuntime) -> Result<(), Fail> {
    assert!(rt; reads_digits(rt.alloc())?);
    assert!(rt; reads_the_longest(rt.alloc())?);
    Ok(())
}

#[test]
fn prints_faults(rt: HostRuntime) -> Result<(), Fail> {
    for (fault, text) in [
        (NodeLineFault::Line, "no line of a node"),
        (NodeLineFault::Memory, "out of memory"),
    ] {
        assert!(rt; format!(in rt.alloc(); "{fault}")?.as_str() == text);
    }
    Ok(())
}

// Whether the text is this one, where the letter H stands for the shown hash.
fn is_text(alloc: Global, text: Bytes, wanted: &str) -> Result<bool, Fail> {
    let mut whole = String::new(alloc);
    for letter in wanted.chars() {
        match letter {
            'H' => whole.push_str(SHOWN[0])?,
            other => whole.push(other)?,
        }
    }
    Ok(text.as_slice() == whole.as_bytes())
}

// Answers and their texts, where the letter H stands for the shown hash.
const ANSWERS: &[(NodeAnswer, &str)] = &[
    (NodeAnswer::Block(Hash32(HASH)), "block H\n"),
    (
        NodeAnswer::At {
            tip: Some(Hash32(HASH)),
            height: Some(0),
        },
        "at H 0\n",
    ),
    (
        NodeAnswer::At {
            tip: Some(Hash32(HASH)),
            height: Some(840_000),
        },
        "at H 840000\n",
    ),
    (
        NodeAnswer::At {
            tip: None,
            height: None,
        },
        "",
    ),
    (NodeAnswer::Tx(Hash32(HASH)), "tx H\n"),
    (NodeAnswer::Gone(Hash32(HASH)), "gone H\n"),
];

// Refusals, but for those that come of a fault, and their texts.
const REFUSALS: &[(NodeRefusal, &str)] = &[
    (NodeRefusal::Line, "refused line\n"),
    (NodeRefusal::Long, "refused long 8000100\n"),
    (NodeRefusal::Place, "refused place\n"),
    (NodeRefusal::Archive, "refused archive\n"),
    (NodeRefusal::Genesis(Hash32(HASH)), "refused genesis H\n"),
    (NodeRefusal::Unknown(Hash32(HASH)), "refused unknown H\n"),
    (
        NodeRefusal::Unconnected(Hash32(HASH)),
        "refused unconnected H\n",
    ),
    (NodeRefusal::Deep(1), "refused deep 1\n"),
    (NodeRefusal::Deep(101), "refused deep 101\n"),
    (NodeRefusal::Absent(Hash32(HASH)), "refused absent H\n"),
];

// Whether the answer has that text.
fn has_text(alloc: Global, answer: NodeAnswer, wanted: &str) -> Result<bool, Fail> {
    let room = AnswerRoom::new(alloc)?;
    is_text(alloc, answer_text(room, &answer), wanted)
}

#[test]
fn answers_to_a_node(rt: HostRuntime) -> Result<(), Fail> {
    for (answer, wanted) in ANSWERS.iter() {
        assert!(rt; has_text(rt.alloc(), *answer, *wanted)?, "{wanted}");
    }
    Ok(())
}

#[test]
fn refusals_to_a_node(rt: HostRuntime) -> Result<(), Fail> {
    for (refusal, wanted) in REFUSALS.iter() {
        let answer = NodeAnswer::Refused(*refusal);
        assert!(rt; has_text(rt.alloc(), answer, *wanted)?, "{wanted}");
    }
    Ok(())
}

// Each refusal of a transaction, and what is answered, where the letter H stands for the shown hash.
const REFUSED: &[(PoolFault, &str)] = &[
    (PoolFault::Bad, "refused form\n"),
    (PoolFault::CoinbaseForm, "refused coinbase\n"),
    (PoolFault::Confirmed, "refused confirmed H\n"),
    (PoolFault::Known, "refused known H\n"),
    (
        PoolFault::Missing {
            outpoint: Outpoint {
                txid: Hash32(HASH),
                index: 4_294_967_295,
            },
        },
        "refused missing H 4294967295\n",
    ),
    (
        PoolFault::Conflict {
            outpoint: Outpoint {
                txid: OTHER,
                index: 7,
            },
            txid: Hash32(HASH),
        },
        "refused conflict H\n",
    ),
    (
        PoolFault::Overspends {
            taken: 0,
            given: 2_100_000_000_000_000,
        },
        "refused overspends 0 2100000000000000\n",
    ),
    (
        PoolFault::Full {
            count: 1,
            bytes: 65,
        },
        "refused full 1 65\n",
    ),
];

// Whether that is answered for the refusal of a transaction.
fn says_refused(alloc: Global, fault: PoolFault, wanted: &str) -> Result<bool, Fail> {
    match pool_refused(Hash32(HASH), fault) {
        Some(answer) => has_text(alloc, answer, wanted),
        None => Ok(false),
    }
}

// Whether nothing is answered for the refusal of a transaction.
fn is_silent(fault: PoolFault) -> bool {
    pool_refused(Hash32(HASH), fault).is_none()
}

#[test]
fn refused_transactions(rt: HostRuntime) -> Result<(), Fail> {
    for (fault, wanted) in REFUSED.iter() {
        assert!(rt; says_refused(rt.alloc(), *fault, *wanted)?, "{wanted}");
    }
    assert!(rt; is_silent(PoolFault::DiskFailed));
    assert!(rt; is_silent(PoolFault::Memory));
    Ok(())
}

const OTHER: Hash32 = Hash32([7; 32]);

// The words for blocks that break a rule of their own, and for those that do not fit the chain.
const BAD_BLOCKS: &[(BlockFault, &str)] = &[
    (BlockFault::Short, "header"),
    (
        BlockFault::Count(CompactFault::LongSpelling { place: 80 }),
        "count",
    ),
    (BlockFault::NoTransactions, "empty"),
    (
        BlockFault::Tx {
            index: 0,
            fault: TxFault::Short { place: 0 },
        },
        "tx",
    ),
    (BlockFault::Trailing { place: 285 }, "trailing"),
    (BlockFault::FirstNotCoinbase, "coinbase"),
    (BlockFault::LaterCoinbase { index: 1 }, "coinbase"),
    (
        BlockFault::SameTxid {
            first: 1,
            second: 2,
        },
        "repeated",
    ),
    (
        BlockFault::BadMerkle {
            header: OTHER,
            found: Hash32(HASH),
        },
        "merkle",
    ),
    (BlockFault::Heavy { weight: 4_000_001 }, "heavy"),
];

const MISFITS: &[(ConnectFault, &str)] = &[
    (ConnectFault::MissingCoin { tx: 1, input: 0 }, "coin"),
    (
        ConnectFault::Money {
            supply: 2_100_000_000_000_001,
        },
        "money",
    ),
    (
        ConnectFault::Full {
            table: 2,
            rows: 4_294_967_295,
        },
        "full",
    ),
];

// Whether that is answered for the refused move.
fn says_move(alloc: Global, fault: MoveFault, wanted: &[u8]) -> Result<bool, Fail> {
    let room = AnswerRoom::new(alloc)?;
    match move_refused(fault) {
        Some(answer) => Ok(answer_text(room, &answer).as_slice() == wanted),
        None => Ok(false),
    }
}

// Whether the node is told of the refused move that the block is bad, by this word.
fn says_bad(alloc: Global, fault: MoveFault, word: &str) -> Result<bool, Fail> {
    let wanted = joined(alloc, &["refused bad ", SHOWN[0], " ", word, "\n"])?;
    says_move(alloc, fault, wanted.as_slice())
}

#[test]
fn words_for_bad_blocks(rt: HostRuntime) -> Result<(), Fail> {
    let hash = Hash32(HASH);
    for (fault, word) in BAD_BLOCKS.iter() {
        let fault = MoveFault::BadBlock {
            hash,
            fault: *fault,
        };
        assert!(rt; says_bad(rt.alloc(), fault, *word)?, "{word}");
    }
    Ok(())
}

#[test]
fn words_for_misfits(rt: HostRuntime) -> Result<(), Fail> {
    let hash = Hash32(HASH);
    for (fault, word) in MISFITS.iter() {
        let fault = MoveFault::Refused {
            hash,
            fault: *fault,
        };
        assert!(rt; says_bad(rt.alloc(), fault, *word)?, "{word}");
    }
    Ok(())
}

// Whether the node is told that the bytes of a block have changed.
fn says_changed(alloc: Global) -> Result<bool, Fail> {
    let fault = MoveFault::Changed {
        wanted: Hash32(HASH),
        found: None,
    };
    let wanted = joined(alloc, &["refused changed ", SHOWN[0], "\n"])?;
    says_move(alloc, fault, wanted.as_slice())
}

// Whether nothing is answered for the refused move.
fn is_not_told(fault: MoveFault) -> bool {
    move_refused(fault).is_none()
}

#[test]
fn other_refused_moves(rt: HostRuntime) -> Result<(), Fail> {
    assert!(rt; says_changed(rt.alloc())?);
    assert!(rt; is_not_told(MoveFault::DiskFailed));
    assert!(rt; is_not_told(MoveFault::ArchiveFailed));
    assert!(rt; is_not_told(MoveFault::Memory));
    Ok(())
}
