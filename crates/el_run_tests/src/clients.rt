// What clients are told without having asked.
use el_fakes::Coming;
use el_program::Status;
use el_trials::Step::{Leaves, Opens, Says};
use el_trials::{
    Failing, Files, NONE_FAILS, SERVE, Step, call_failing, call_steady, coming, expect_ended,
    files_of, say,
};
use std::alloc::Global;
use std::test::Fail;
use std::thread::Threads;

// Two clients of three subscribe to the script of the second block, which comes; one of them leaves, and the
// block is taken back.
const STEPS: &[Step<'static>] = &[
    Opens(1),
    Opens(2),
    Opens(3),
    Says(3, "{subscribes}{script1}{asked}\n"),
    Says(1, "{subscribes}{script1}{asked}\n"),
    Says(0, "tip {a1}\n"),
    Leaves(1),
    Says(0, "tip {a0}\n"),
];

// How the run ends where this call of `send` fails, and what is sent and closed.
const ENDINGS: &[(u64, Status, &str)] = &[
    (
        0,
        Status::Ended,
        "3 {null}\n1 {null}\n0 at {a1} 1\n1 {tells}{script1}{now}{status1}{told}\n\
         3 {tells}{script1}{now}{status1}{told}\n0 at {a0} 0\n3 {tells}{script1}{now-none}\n",
    ),
    // nobody is told where the node can't be answered
    (3, Status::LinkFailed, "3 {null}\n1 {null}\n"),
    // the others are told where one can't be
    (
        4,
        Status::Ended,
        "3 {null}\n1 {null}\n0 at {a1} 1\n3 {tells}{script1}{now}{status1}{told}\n0 at {a0} 0\n\
         3 {tells}{script1}{now-none}\nclosed 1 Gone\n",
    ),
    (
        5,
        Status::Ended,
        "3 {null}\n1 {null}\n0 at {a1} 1\n1 {tells}{script1}{now}{status1}{told}\n0 at {a0} 0\n\
         closed 3 Gone\n",
    ),
];

// How the run ends where this call of `send` fails, and what is sent and closed.
fn run<W: Threads + Sync>(rt: &W, alloc: Global, send: u64) -> Result<(Status, String), Fail> {
    let steps = coming(alloc, STEPS, 1_000)?;
    let fails = Failing { send, ..NONE_FAILS };
    let files = files_of(alloc, Files::Branch(2))?;
    let found = call_failing(rt, alloc, SERVE, files, steps, fails)?;
    Ok((found.status, found.text))
}

#[test]
fn clients_are_told_in_their_order(rt: HostRuntime) -> Result<(), Fail> {
    for (send, status, want) in ENDINGS {
        let (ended, text) = run(&rt, rt.alloc(), *send)?;
        expect_ended(rt.alloc(), (ended, text.as_str()), (*status, *want))?;
    }
    Ok(())
}

// So many clients come.
fn openings(alloc: Global, count: u32) -> Result<Vec<Coming>, Fail> {
    let mut steps = Vec::new(alloc);
    for p in 1..=count {
        steps.push(Coming::Opened(p))?;
    }
    Ok(steps)
}

#[test]
fn one_client_more_than_may_be(rt: HostRuntime) -> Result<(), Fail> {
    let alloc = rt.alloc();
    let steps = openings(alloc, 257)?;
    let files = files_of(alloc, Files::Branch(1))?;
    let (status, text) = call_steady(&rt, alloc, SERVE, files, steps)?;
    let wanted = (Status::Ended, "closed 257 Clients\n");
    expect_ended(alloc, (status, text.as_str()), wanted)?;
    Ok(())
}

// A subscription that asks for no reply, up to the last five digits of its script hash.
const SUBSCRIBES: &str = "{\"method\":\"blockchain.scripthash.subscribe\",\"params\":[\"\
                          00000000000000000000000000000000000000000000000000000000000";

// Adds the subscription to the script hash of this number of five digits.
fn subscribe(alloc: Global, text: &mut String, n: u32) -> Result<(), Fail> {
    text.push_str(SUBSCRIBES)?;
    text.push_str(format!(in alloc; "{n}\"]}}")?.as_str())?;
    Ok(())
}

// A batch of these, to the script hashes from one number of five digits up to another one.
fn batch(alloc: Global, from: u32, to: u32) -> Result<String, Fail> {
    let mut text = String::from_str(alloc, "[")?;
    for n in from..to {
        if n > from {
            text.push_str(",")?;
        }
        subscribe(alloc, &mut text, n)?;
    }
    text.push_str("]\n")?;
    Ok(text)
}

// What a client with 49,999 subscriptions and the node say, and what is sent: one more is held, and told, and
// another one isn't; one that is held is answered again.
const LAST: &[Step<'static>] = &[
    Says(
        1,
        "{subscribes}{script1}{asked}\n{subscribes}{script0}{asked}\n{subscribes}{script1}{asked}\n",
    ),
    Says(0, "tip {a1}\n"),
    Says(
        1,
        "{subscribes}{script1}{asked}\n{subscribes}{script0}{asked}\n",
    ),
];

const LAST_SENT: &str =
    "1 {null}\n1 {too-many}\n1 {null}\n0 at {a1} 1\n1 {tells}{script1}{now}{status1}{told}\n\
     1 {gives}{status1}{given}\n1 {too-many}\n";

// A client subscribes to 49,999 script hashes.
fn subscribed(alloc: Global) -> Result<Vec<Coming>, Fail> {
    let mut steps = Vec::new(alloc);
    steps.push(Coming::Opened(1))?;
    for group in 0..10u32 {
        let from = 10_000 + 5_000 * group;
        let text = batch(alloc, from, (from + 5_000).min(59_999))?;
        say(alloc, &mut steps, 1, text.as_bytes(), 65_000)?;
    }
    Ok(steps)
}

// These subscriptions, and the steps after them.
fn nearly_full(alloc: Global) -> Result<Vec<Coming>, Fail> {
    let mut steps = subscribed(alloc)?;
    for step in coming(alloc, LAST, 1_000)? {
        steps.push(step)?;
    }
    Ok(steps)
}

#[test]
fn one_subscription_more_than_may_be(rt: HostRuntime) -> Result<(), Fail> {
    let alloc = rt.alloc();
    let steps = nearly_full(alloc)?;
    let files = files_of(alloc, Files::Branch(2))?;
    let (status, text) = call_steady(&rt, alloc, SERVE, files, steps)?;
    let wanted = (Status::Ended, LAST_SENT);
    expect_ended(alloc, (status, text.as_str()), wanted)?;
    Ok(())
}
