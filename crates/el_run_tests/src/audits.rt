// Audits of indexes that earlier lives led, and checks of proofs.
use el_fakes::MeetPace;
use el_gen::{BLOCK_1, GENESIS, GENESIS_TXID, HEADER_0, HEADER_1};
use el_mem_disk::MemDisk;
use el_program::Status;
use el_trials::Part::{Between, Block};
use el_trials::Step::Says;
use el_trials::{
    Files, NO_FILES, Part, SERVE, SERVE_MAIN, TURNS, expect_ended, fresh_disk, life_on, serve_at,
    steady_archive, steady_link, transcript,
};
use std::alloc::Global;
use std::test::Fail;
use std::thread::Threads;

// The words of `audit` for a network of one's own, and those for the network of the money.
const AUDIT: &str = "audit --blocks a --index b --network regtest";

const AUDIT_MAIN: &str = "audit --network main --index b --blocks a";

// How often a piece looks for the other one: far more often than is ever needed.
const LOOKS: u64 = 50_000_000;

// Bitcoin's first two blocks.
const BOTH: [Part; 2] = [Block(GENESIS), Block(BLOCK_1)];

// The same, cut inside the second record.
const CUT: [Part; 2] = [
    Block(GENESIS),
    Between(
        "f9beb4d9d7000000010000006fe28c0ab6f1b372c1a6a246ae63f74f931e8365e15a089c68d6190000000000982051fd\
     1e4ba744bbbe680e1fee14677ba1a3c3540bf7b1cdb606e857233e0e61bc6649ffff001d01e362990101000000010000\
     000000000000000000000000000000000000000000000000000000000000ffffffff0704ffff001d0104ffffffff0100\
     f2052a0100000043410496b538e8",
    ),
];

// The same, but that the second block gives one satoshi more than it gave.
const OTHER: [Part; 2] = [
    Block(GENESIS),
    Between(
        "f9beb4d9d7000000010000006fe28c0ab6f1b372c1a6a246ae63f74f931e8365e15a089c68d6190000000000982051fd\
     1e4ba744bbbe680e1fee14677ba1a3c3540bf7b1cdb606e857233e0e61bc6649ffff001d01e362990101000000010000\
     000000000000000000000000000000000000000000000000000000000000ffffffff0704ffff001d0104ffffffff0101\
     f2052a0100000043410496b538e853519c726a2c91e61ec11600ae1390813a627c66fb8be7947be63c52da7589379515\
     d4e0a604f8141781e62294721166bf621e73a82cbf2342c858eeac00000000",
    ),
];

// The words, the files and what the node says of a first life; the words and the files of an audit, how that
// ends, and what it sends.
struct Audit {
    first: (&'static str, Files, &'static str),
    words: &'static str,
    files: Files,
    status: Status,
    sent: &'static str,
}

const AUDITS: &[Audit] = &[
    // an index that was never written
    Audit {
        first: (SERVE, Files::Branch(1), ""),
        words: AUDIT,
        files: Files::Branch(1),
        status: Status::Ended,
        sent: "1 same empty\n",
    },
    // two blocks, the second of which spends the coin of the first
    Audit {
        first: (SERVE, Files::Forks, "tip {z-d1}\n"),
        words: AUDIT,
        files: Files::Forks,
        status: Status::Ended,
        sent: "1 same height 1 transactions 3 scripts 2\n",
    },
    // a chain after a reorganisation
    Audit {
        first: (SERVE, Files::Forks, "tip {z-a2}\ntip {z-b3}\n"),
        words: AUDIT,
        files: Files::Forks,
        status: Status::Ended,
        sent: "1 same height 3 transactions 5 scripts 3\n",
    },
    Audit {
        first: (SERVE_MAIN, Files::Parts(&BOTH), "tip {block1}\n"),
        words: AUDIT_MAIN,
        files: Files::Parts(&BOTH),
        status: Status::Ended,
        sent: "1 same height 1 transactions 2 scripts 2\n",
    },
    // the block files lost the last block's end, or all
    Audit {
        first: (SERVE_MAIN, Files::Parts(&BOTH), "tip {block1}\n"),
        words: AUDIT_MAIN,
        files: Files::Parts(&CUT),
        status: Status::AuditDiffers,
        sent: "1 differs tip {block1}\n",
    },
    Audit {
        first: (SERVE, Files::Branch(2), "tip {a1}\n"),
        words: AUDIT,
        files: NO_FILES,
        status: Status::AuditDiffers,
        sent: "1 differs tip {a1}\n",
    },
    // other bytes stand in it
    Audit {
        first: (SERVE_MAIN, Files::Parts(&BOTH), "tip {block1}\n"),
        words: AUDIT_MAIN,
        files: Files::Parts(&OTHER),
        status: Status::AuditDiffers,
        sent: "1 differs block {block1} merkle\n",
    },
    // another chain's block files, and another network's index
    Audit {
        first: (SERVE, Files::Branch(1), "tip {a0}\n"),
        words: AUDIT,
        files: Files::Foreign,
        status: Status::OtherChain,
        sent: "",
    },
    Audit {
        first: (SERVE, Files::Branch(1), "tip {a0}\n"),
        words: AUDIT_MAIN,
        files: Files::Branch(1),
        status: Status::BadIndex,
        sent: "",
    },
];

// The disk after a first life.
fn led<W: Threads + Sync>(
    rt: &W,
    alloc: Global,
    first: (&str, Files, &str),
) -> Result<MemDisk, Fail> {
    let steps = [Says(0, first.2)];
    let life = life_on(
        rt,
        alloc,
        first.0,
        fresh_disk(alloc),
        first.1,
        steps.as_slice(),
    )?;
    Ok(life.disk)
}

// Fails unless an audit ends so and sends this, and one more after it.
fn check<W: Threads + Sync>(rt: &W, alloc: Global, audit: &Audit) -> Result<(), Fail> {
    let disk = led(rt, alloc, audit.first)?;
    let wanted = (audit.status, audit.sent);
    let once = life_on(rt, alloc, audit.words, disk, audit.files, &[])?;
    expect_ended(alloc, (once.status, once.text.as_str()), wanted)?;
    // The index is as it was.
    let again = life_on(rt, alloc, audit.words, once.disk, audit.files, &[])?;
    expect_ended(alloc, (again.status, again.text.as_str()), wanted)
}

#[test]
fn audits_of_led_indexes(rt: HostRuntime) -> Result<(), Fail> {
    for audit in AUDITS {
        check(&rt, rt.alloc(), audit)?;
    }
    Ok(())
}

#[test]
fn two_pieces_of_an_audit_meet(rt: HostRuntime) -> Result<(), Fail> {
    let alloc = rt.alloc();
    let disk = led(&rt, alloc, (SERVE, Files::Forks, "tip {z-d1}\n"))?;
    let mut archive = steady_archive(alloc, Files::Forks)?;
    let mut link = steady_link(alloc, &[])?;
    let pace = MeetPace::new(0, 1, LOOKS);
    let (status, _) = serve_at(
        &rt,
        alloc,
        AUDIT,
        disk,
        &mut archive,
        &mut link,
        &pace,
        TURNS,
    )?;
    let sent = transcript(alloc, link.sent(), link.closed())?;
    let wanted = (Status::Ended, "1 same height 1 transactions 3 scripts 2\n");
    expect_ended(alloc, (status, sent.as_str()), wanted)?;
    assert!(rt; pace.met());
    Ok(())
}

// The header, the place and the branch of a check of the first block's coinbase, and what is sent.
const PROOFS: &[(&str, &str, &str, &str)] = &[
    (HEADER_0, "0", "-", "1 yes\n"),
    (HEADER_0, "0000000000", "-", "1 yes\n"),
    // the tree of one leaf has one place
    (HEADER_0, "1", "-", "1 no\n"),
    (HEADER_1, "0", "-", "1 no\n"),
    (HEADER_0, "0", GENESIS_TXID, "1 no\n"),
];

#[test]
fn checks_of_proofs(rt: HostRuntime) -> Result<(), Fail> {
    let alloc = rt.alloc();
    for (header, pos, branch, sent) in PROOFS {
        let words = format!(in alloc; "prove-check {header} {GENESIS_TXID} {pos} {branch}")?;
        let life = life_on(&rt, alloc, words.as_str(), fresh_disk(alloc), NO_FILES, &[])?;
        expect_ended(
            alloc,
            (life.status, life.text.as_str()),
            (Status::Ended, *sent),
        )?;
    }
    Ok(())
}
