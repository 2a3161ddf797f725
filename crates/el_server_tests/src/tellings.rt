// Many clients: how many may be there, and what they are told where the index's device fails at one call.
use crate::coins::{TELLS, coins_file};
use crate::failing_rows::FailingRows;
use crate::failures::{calls_of, live};
use crate::server::Step::{Forget, Gone, Opens, Says, Spells};
use crate::server::{Step, says, spelled};
use std::alloc::Global;
use std::test::Fail;
use std::thread::Threads;

// What happens once 257 clients came.
const LATER: &[Step<'static>] = &[
    Says(257, "{}\n"),
    Says(256, "{}\n"),
    Gone(1),
    Opens(258),
    Opens(259),
    Says(258, "{}\n"),
];

// 257 clients come, and then this happens.
fn many(alloc: Global) -> Result<Vec<Step<'static>>, Fail> {
    let mut steps = Vec::new(alloc);
    for p in 1..=257u32 {
        steps.push(Opens(p))?;
    }
    steps.extend_from_slice(LATER)?;
    Ok(steps)
}

// Clients come and go where 256 may be there.
#[test]
fn clients_round_the_limit(rt: HostRuntime) -> Result<(), Fail> {
    let steps = many(rt.alloc())?;
    let wanted = "257 clients\n256 {invalid}\n259 clients\n258 {invalid}\n";
    assert!(rt; says(&rt, rt.alloc(), b"", steps.as_slice(), wanted)?);
    Ok(())
}

// The digits of a script hash but for the last five.
const FRONT: &str = "{\"method\":\"blockchain.scripthash.subscribe\",\"params\":[\"\
                     00000000000000000000000000000000000000000000000000000000000";

// Adds a subscription to the script hash of that number.
fn push_one(alloc: Global, text: &mut String, n: u32) -> Result<(), Fail> {
    let digits = n.to_string(alloc)?;
    text.push_str(FRONT)?;
    text.push_str(digits.as_str())?;
    text.push_str("\"]}")?;
    Ok(())
}

// A batch of subscriptions that ask for no reply, to the script hashes from one number up to another.
fn batch(alloc: Global, from: u32, to: u32) -> Result<String, Fail> {
    let mut text = String::from_str(alloc, "[")?;
    for n in from..to {
        text.push_str(if n > from { "," } else { "" })?;
        push_one(alloc, &mut text, n)?;
    }
    text.push_str("]\n")?;
    Ok(text)
}

// What a client with 49,999 subscriptions says and the node after it: one more is held, and another one
// isn't, which is told by nothing.
const LAST: &[Step<'static>] = &[
    Says(
        1,
        "{subscribes}0000000000000000000000000000000000000000000000000000000000059999{asked}\n",
    ),
    Says(1, "{subscribes}{101}{asked}\n"),
    Says(
        1,
        "{subscribes}0000000000000000000000000000000000000000000000000000000000010000{asked}\n",
    ),
    Says(0, "block 0 0\ntip {z}\ntx P\n"),
    Says(1, "{subscribes}{101}{asked}\n"),
];

// Ten batches of 49,999 subscriptions together.
fn batches(alloc: Global) -> Result<Vec<String>, Fail> {
    let mut lines = Vec::new(alloc);
    for group in 0..10u32 {
        let from = 10_000 + 5_000 * group;
        lines.push(batch(alloc, from, (from + 5_000).min(59_999))?)?;
    }
    Ok(lines)
}

// A client comes and says these lines, and then the last of it happens.
fn holding<'x>(alloc: Global, lines: &'x [String]) -> Result<Vec<Step<'x>>, Fail> {
    let mut steps = Vec::new(alloc);
    steps.push(Opens(1))?;
    for line in lines.iter() {
        steps.push(Spells(1, line.as_str()))?;
    }
    steps.extend_from_slice(LAST)?;
    Ok(steps)
}

// Whether this is shown where a client says these lines before.
fn shows_after<W: Threads + Sync>(
    rt: &W,
    alloc: Global,
    lines: &[String],
    wanted: &str,
) -> Result<bool, Fail> {
    let file = coins_file(alloc)?;
    let steps = holding(alloc, lines)?;
    says(rt, alloc, file.as_slice(), steps.as_slice(), wanted)
}

#[test]
fn subscriptions_round_the_limit(rt: HostRuntime) -> Result<(), Fail> {
    let lines = batches(rt.alloc())?;
    let wanted =
        "{result}null}\n{too-many}\n{result}null}\nblock {z}\nat {z} 0\ntx Q\n{too-many}\n";
    assert!(rt; shows_after(&rt, rt.alloc(), lines.as_slice(), wanted)?);
    Ok(())
}

// A text for each of two lines of the node.
struct Both {
    first: &'static str,
    second: &'static str,
}

// Two lines of the node over the first block, and what it is answered; and what each of three clients is told
// of both.
struct Telling {
    lines: Both,
    answers: Both,
    told: &'static [Both],
}

// The first client subscribes to two script hashes, the second to the tip and one of them, the third to the
// other one.
const SUBSCRIBED: [Step<'static>; 9] = [
    TELLS,
    Says(0, "tip {z}\n"),
    Opens(1),
    Opens(2),
    Opens(3),
    Says(1, "{subscribes}{101}{asked}\n{subscribes}{1}{asked}\n"),
    Says(
        2,
        "{asks}blockchain.headers.subscribe{with}]}\n{subscribes}{101}{asked}\n",
    ),
    Says(3, "{subscribes}{1}{asked}\n"),
    Forget,
];

const TELLINGS: &[Telling] = &[
    Telling {
        lines: Both {
            first: "tx P\n",
            second: "drop Q\n",
        },
        answers: Both {
            first: "tx Q\n",
            second: "gone Q\n",
        },
        told: &[
            Both {
                first: "{tells}{101}{now}{101-with-whole}{told}\n{tells}{1}{now}{1-with-whole}{told}\n",
                second: "{tells}{101}{now}{101-at-z}{told}\n{tells}{1}{now-none}\n",
            },
            Both {
                first: "2 {tells}{101}{now}{101-with-whole}{told}\n",
                second: "2 {tells}{101}{now}{101-at-z}{told}\n",
            },
            Both {
                first: "3 {tells}{1}{now}{1-with-whole}{told}\n",
                second: "3 {tells}{1}{now-none}\n",
            },
        ],
    },
    Telling {
        lines: Both {
            first: "tip {v1}\n",
            second: "tip {z}\n",
        },
        answers: Both {
            first: "at {v1} 1\n",
            second: "at {z} 0\n",
        },
        told: &[
            Both {
                first: "{tells}{101}{now}{101-at-v1}{told}\n{tells}{1}{now}{1-at-v1}{told}\n",
                second: "{tells}{101}{now}{101-at-z}{told}\n{tells}{1}{now-none}\n",
            },
            Both {
                first: "2 {tells-tip}1{hex}{v1-header}{tip-told}\n2 {tells}{101}{now}{101-at-v1}{told}\n",
                second: "2 {tells-tip}0{hex}{z-header}{tip-told}\n2 {tells}{101}{now}{101-at-z}{told}\n",
            },
            Both {
                first: "3 {tells}{1}{now}{1-at-v1}{told}\n",
                second: "3 {tells}{1}{now-none}\n",
            },
        ],
    },
];

// The steps of a telling: the clients subscribe, and the lines come.
fn steps_of(telling: &Telling) -> [Step<'static>; 11] {
    let [a, b, c, d, e, f, g, h, i] = SUBSCRIBED;
    let first = Says(0, telling.lines.first);
    [
        a,
        b,
        c,
        d,
        e,
        f,
        g,
        h,
        i,
        first,
        Says(0, telling.lines.second),
    ]
}

// Adds what the clients are told of the first line; the one of that number, from 1 on, is closed, and none
// for 0.
fn push_first(telling: &Telling, closed: usize, text: &mut String) -> Result<(), Fail> {
    for (place, told) in telling.told.iter().enumerate() {
        let is_closed = closed.checked_sub(1) == Some(place);
        let closing = ["disk\n", "2 disk\n", "3 disk\n"][place % 3];
        text.push_str(if is_closed { closing } else { told.first })?;
    }
    Ok(())
}

// Adds what the clients but that one are told of the second line.
fn push_second(telling: &Telling, closed: usize, text: &mut String) -> Result<(), Fail> {
    for (place, told) in telling.told.iter().enumerate() {
        let is_closed = closed.checked_sub(1) == Some(place);
        text.push_str(if is_closed { "" } else { told.second })?;
    }
    Ok(())
}

// What is shown where the client of that number, from 1 on, is closed while it is told of the first line; 0
// for none.
fn shown_without(alloc: Global, telling: &Telling, closed: usize) -> Result<String, Fail> {
    let mut text = String::from_str(alloc, telling.answers.first)?;
    push_first(telling, closed, &mut text)?;
    text.push_str(telling.answers.second)?;
    push_second(telling, closed, &mut text)?;
    spelled(alloc, text.as_str())
}

// Whether that is shown.
fn is_without(alloc: Global, telling: &Telling, closed: usize, shown: &[u8]) -> Result<bool, Fail> {
    Ok(shown == shown_without(alloc, telling, closed)?.as_bytes())
}

// What of a run is shown: 0 where the server stopped, the number of the client that was closed, from 1 on,
// and 4 for another text.
fn closed_in(alloc: Global, telling: &Telling, shown: &[u8]) -> Result<usize, Fail> {
    if shown == b"stopped by the disk\n".as_slice() {
        return Ok(0);
    }
    for closed in 1..=3 {
        if is_without(alloc, telling, closed, shown)? {
            return Ok(closed);
        }
    }
    Ok(4)
}

// What the node says first.
const BEGINS: &[Step<'static>] = &[TELLS, Says(0, "tip {z}\n")];

// What is shown in a life of these steps of which these calls fail, over rows that have the first block alone
// before it.
fn over_one_block<W: Threads + Sync>(
    rt: &W,
    alloc: Global,
    rows: &mut FailingRows,
    failing: &[u64],
    file: &[u8],
    steps: &[Step<'_>],
) -> Result<Vec<u8>, Fail> {
    live(rt, alloc, rows, &[], file, BEGINS)?;
    live(rt, alloc, rows, failing, file, steps)
}

// How often the device is called before the last of these steps, over rows that have the first block alone,
// and with it.
fn calls_round<W: Threads + Sync>(
    rt: &W,
    alloc: Global,
    rows: &mut FailingRows,
    file: &[u8],
    before: &[Step<'_>],
    whole: &[Step<'_>],
) -> Result<(u64, u64), Fail> {
    live(rt, alloc, rows, &[], file, BEGINS)?;
    let from = calls_of(rt, alloc, rows, file, before)?;
    Ok((from, calls_of(rt, alloc, rows, file, whole)?))
}

// Whether each of these calls that fails stops the server up to some call, from then on closes the first
// client, then the second, then the third, and nothing else; the others are told of both lines.
fn closes_in_turn<W: Threads + Sync>(
    rt: &W,
    alloc: Global,
    rows: &mut FailingRows,
    file: &[u8],
    telling: &Telling,
    calls: (u64, u64),
) -> Result<bool, Fail> {
    let steps = steps_of(telling);
    let mut last = 0usize;
    for call in calls.0.saturating_add(1)..=calls.1 {
        let shown = over_one_block(rt, alloc, rows, &[call], file, steps.as_slice())?;
        let closed = closed_in(alloc, telling, shown.as_slice())?;
        if rows.counts().1 != 1 || closed < last || closed > last.saturating_add(1) {
            return Ok(false);
        }
        last = closed;
    }
    Ok(last == 3)
}

// Whether all are told of both lines where no call fails, and each call that fails in the first line has its
// effect alone.
fn is_told<W: Threads + Sync>(
    rt: &W,
    alloc: Global,
    rows: &mut FailingRows,
    file: &[u8],
    telling: &Telling,
) -> Result<bool, Fail> {
    let steps = steps_of(telling);
    let calls = calls_round(rt, alloc, rows, file, &steps[..9], &steps[..10])?;
    let shown = over_one_block(rt, alloc, rows, &[], file, steps.as_slice())?;
    Ok(
        is_without(alloc, telling, 0, shown.as_slice())?
            && closes_in_turn(rt, alloc, rows, file, telling, calls)?,
    )
}

#[test]
fn each_call_of_a_telling(rt: HostRuntime) -> Result<(), Fail> {
    let alloc = rt.alloc();
    let file = coins_file(alloc)?;
    for telling in TELLINGS.iter() {
        let mut rows = FailingRows::new(alloc)?;
        assert!(rt;
            is_told(&rt, alloc, &mut rows, file.as_slice(), telling)?,
            "{}",
            telling.lines.first
        );
    }
    Ok(())
}

// What a client says over the first block, and then asks; what the node says then; and what is shown from the
// question on where a call of the question fails, and where none does.
const SESSIONS: &[[&str; 5]] = &[
    // a script hash isn't held
    [
        "{subscribes}{1}{asked}\n",
        "{subscribes}{101}{asked}\n",
        "tx P\n",
        "{failed}\ntx Q\n{tells}{1}{now}{1-with-whole}{told}\n",
        "{result}\"{101-at-z}\"}\ntx Q\n{tells}{1}{now}{1-with-whole}{told}\n\
         {tells}{101}{now}{101-with-whole}{told}\n",
    ],
    // one that is held stays
    [
        "{subscribes}{101}{asked}\n{subscribes}{1}{asked}\n",
        "{subscribes}{101}{asked}\n",
        "tx P\n",
        "{failed}\ntx Q\n{tells}{101}{now}{101-with-whole}{told}\n{tells}{1}{now}{1-with-whole}{told}\n",
        "{result}\"{101-at-z}\"}\ntx Q\n{tells}{101}{now}{101-with-whole}{told}\n\
         {tells}{1}{now}{1-with-whole}{told}\n",
    ],
    // nor is the tip told
    [
        "{}\n",
        "{asks}blockchain.headers.subscribe{with}]}\n",
        "tip {v1}\n",
        "{failed}\nat {v1} 1\n",
        "{result}{\"height\":0,\"hex\":\"{z-header}\"}}\nat {v1} 1\n\
         {tells-tip}1{hex}{v1-header}{tip-told}\n",
    ],
];

// Whether each of these calls that fails has this shown.
fn each_shows<W: Threads + Sync>(
    rt: &W,
    alloc: Global,
    rows: &mut FailingRows,
    file: &[u8],
    steps: &[Step<'_>],
    calls: (u64, u64),
    wanted: &str,
) -> Result<bool, Fail> {
    let wanted = spelled(alloc, wanted)?;
    let mut is_shown = true;
    for call in calls.0.saturating_add(1)..=calls.1 {
        let shown = over_one_block(rt, alloc, rows, &[call], file, steps)?;
        is_shown = is_shown && shown.as_slice() == wanted.as_bytes();
    }
    Ok(is_shown)
}

// Whether this is shown where no call fails.
fn shows_sound<W: Threads + Sync>(
    rt: &W,
    alloc: Global,
    rows: &mut FailingRows,
    file: &[u8],
    steps: &[Step<'_>],
    wanted: &str,
) -> Result<bool, Fail> {
    let wanted = spelled(alloc, wanted)?;
    let shown = live(rt, alloc, rows, &[], file, steps)?;
    Ok(shown.as_slice() == wanted.as_bytes())
}

// Whether a session stays as it was at each call of the question that fails.
fn stays<W: Threads + Sync>(
    rt: &W,
    alloc: Global,
    rows: &mut FailingRows,
    file: &[u8],
    session: &[&str; 5],
) -> Result<bool, Fail> {
    let [before, asks, line, failed, sound] = *session;
    let steps = [
        TELLS,
        Says(0, "tip {z}\n"),
        Opens(1),
        Says(1, before),
        Forget,
        Says(1, asks),
        Says(0, line),
    ];
    let calls = calls_round(rt, alloc, rows, file, &steps[..5], &steps[..6])?;
    let is_sound = shows_sound(rt, alloc, rows, file, steps.as_slice(), sound)?;
    let is_kept = each_shows(rt, alloc, rows, file, steps.as_slice(), calls, failed)?;
    Ok(calls.0 < calls.1 && is_sound && is_kept)
}

#[test]
fn each_read_of_a_subscription(rt: HostRuntime) -> Result<(), Fail> {
    let alloc = rt.alloc();
    let file = coins_file(alloc)?;
    for session in SESSIONS.iter() {
        let mut rows = FailingRows::new(alloc)?;
        assert!(rt;
            stays(&rt, alloc, &mut rows, file.as_slice(), session)?,
            "{}{}",
            session[0],
            session[1]
        );
    }
    Ok(())
}
