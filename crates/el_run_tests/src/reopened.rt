// Lives over what a life before left on the disk.
use el_gen::GENESIS;
use el_mem_disk::MemDisk;
use el_program::Status;
use el_trials::Part::Block;
use el_trials::Step::{Opens, Says};
use el_trials::{
    Files, Life, NO_FILES, SERVE, SERVE_MAIN, Step, expect_ended, expect_sent, fresh_disk, life_on,
};
use std::alloc::Global;
use std::test::Fail;
use std::thread::Threads;

// What comes in a life that nobody is served in.
const UNSERVED: &[Step<'static>] = &[Opens(1), Says(0, "tip {a0}\n"), Says(1, "{}\n")];

// What a client asks, after the node.
const ASKS: &[Step<'static>] = &[
    Opens(1),
    Says(0, "tip {z-d1}\n"),
    Says(
        1,
        "{asks-balance}{script101}{asked}\n{asks}{script101}{asked}\n{gets}{shared-txid}{asked}\n",
    ),
];

// The files of a first life on regtest, and what the node says; the words, the files and what comes in a
// second one, how that ends, and what is sent; and what the index alone then answers to the first one's node.
struct Lives {
    files: Files,
    first: &'static str,
    words: &'static str,
    second: (Files, &'static [Step<'static>]),
    status: Status,
    sent: &'static str,
    kept: &'static str,
}

const LIVES: &[Lives] = &[
    // another network's words
    Lives {
        files: Files::Branch(1),
        first: "tip {a0}\n",
        words: SERVE_MAIN,
        second: (Files::Branch(1), UNSERVED),
        status: Status::BadIndex,
        sent: "",
        kept: "0 at {a0} 0\n",
    },
    // another first block alone
    Lives {
        files: Files::Branch(1),
        first: "tip {a0}\n",
        words: SERVE,
        second: (Files::Foreign, UNSERVED),
        status: Status::OtherChain,
        sent: "",
        kept: "0 at {a0} 0\n",
    },
    // an index of no blocks is of no other chain
    Lives {
        files: Files::Branch(1),
        first: "",
        words: SERVE,
        second: (Files::Foreign, UNSERVED),
        status: Status::Ended,
        sent: "0 refused unknown {a0}\n1 {invalid}\n",
        kept: "",
    },
    // what the coins of a script hold together, and its history, from the index; a transaction's bytes are
    // gone
    Lives {
        files: Files::Forks,
        first: "tip {z-d1}\n",
        words: SERVE,
        second: (NO_FILES, ASKS),
        status: Status::Ended,
        sent: "0 at {z-d1} 1\n1 {holds}7500000000{held}\n\
               1 {lists}{z-entry},{z1-entry},{shared-entry}{listed}\n1 {changed}\n",
        kept: "0 at {z-d1} 1\n",
    },
];

// The disk after the first life, in which the node says this.
fn first_life<W: Threads + Sync>(
    rt: &W,
    alloc: Global,
    files: Files,
    said: &str,
) -> Result<MemDisk, Fail> {
    let steps = [Says(0, said)];
    let life = life_on(rt, alloc, SERVE, fresh_disk(alloc), files, steps.as_slice())?;
    Ok(life.disk)
}

// How the second life ends, and what is sent; and what is sent in the third one.
fn run<W: Threads + Sync>(
    rt: &W,
    alloc: Global,
    lives: &Lives,
) -> Result<(Status, String, String), Fail> {
    let disk = first_life(rt, alloc, lives.files, lives.first)?;
    let (files, steps) = lives.second;
    let Life { status, text, disk } = life_on(rt, alloc, lives.words, disk, files, steps)?;
    let asks = [Says(0, lives.first)];
    let third = life_on(rt, alloc, SERVE, disk, NO_FILES, asks.as_slice())?;
    Ok((status, text, third.text))
}

#[test]
fn an_index_of_an_earlier_life(rt: HostRuntime) -> Result<(), Fail> {
    let alloc = rt.alloc();
    for lives in LIVES {
        let (status, sent, kept) = run(&rt, alloc, lives)?;
        let wanted = (lives.status, lives.sent);
        expect_ended(alloc, (status, sent.as_str()), wanted)?;
        expect_sent(alloc, kept.as_str(), lives.kept)?;
    }
    Ok(())
}

// How many bytes each file of the main network's index of its first block has.
const SIZES: [usize; 9] = [80, 116, 84, 524_288, 33, 0, 64, 524_288, 24];

#[test]
fn files_of_the_first_block(rt: HostRuntime) -> Result<(), Fail> {
    let alloc = rt.alloc();
    let files = Files::Parts(&[Block(GENESIS)]);
    let steps = [Says(0, "tip {genesis}\n")];
    let life = life_on(
        &rt,
        alloc,
        SERVE_MAIN,
        fresh_disk(alloc),
        files,
        steps.as_slice(),
    )?;
    for (file, size) in (20u32..).zip(SIZES) {
        assert!(rt; life.disk.bytes(file).len() == size, "{file}");
    }
    for file in 0..10 {
        assert!(rt; life.disk.bytes(file).is_empty(), "{file}");
    }
    assert!(rt; life.disk.bytes(30) == [2].as_slice());
    Ok(())
}

// How often the disk of an earlier life is called in one where a client says this.
fn calls_for<W: Threads + Sync>(rt: &W, alloc: Global, said: &str) -> Result<u64, Fail> {
    let disk = first_life(rt, alloc, Files::Forks, "tip {z-d1}\n")?;
    let before = disk.calls();
    let steps = [Opens(1), Says(1, said)];
    let life = life_on(rt, alloc, SERVE, disk, NO_FILES, steps.as_slice())?;
    Ok(life.disk.calls().saturating_sub(before))
}

#[test]
fn a_history_asked_again_calls_no_disk(rt: HostRuntime) -> Result<(), Fail> {
    let alloc = rt.alloc();
    let none = calls_for(&rt, alloc, "")?;
    let once = calls_for(&rt, alloc, "{asks}{script101}{asked}\n")?;
    let twice = calls_for(
        &rt,
        alloc,
        "{asks}{script101}{asked}\n{asks}{script101}{asked}\n",
    )?;
    assert!(rt; none < once && once == twice, "{none} {once} {twice}");
    Ok(())
}
