// An index whose device fails at one call: what a client is told of it, and where the node's lines stop.
use crate::coins::{TELLS, coins_file};
use crate::failing_rows::FailingRows;
use crate::server::Step::{Forget, Opens, Says};
use crate::server::{Step, index_of, play, spelled};
use el_mempool::PoolLimits;
use std::alloc::Global;
use std::mem::replace;
use std::test::Fail;
use std::thread::Threads;

// All that is said is kept.
const LIMITS: PoolLimits = PoolLimits {
    count: 10,
    bytes: 1_000,
};

// What is shown in a life over these rows of which these calls of the device fail.
pub(crate) fn live<W: Threads + Sync>(
    rt: &W,
    alloc: Global,
    rows: &mut FailingRows,
    failing: &[u64],
    file: &[u8],
    steps: &[Step<'_>],
) -> Result<Vec<u8>, Fail> {
    let failing = Vec::from_slice(alloc, failing)?;
    let mut kept = replace(rows, FailingRows::new(alloc)?);
    kept.fail_at(failing);
    let (shown, ledger) = play(rt, alloc, index_of(alloc, kept)?, LIMITS, file, steps)?;
    *rows = ledger.into_rows();
    Ok(shown)
}

// How often the device is called in a life in which none fails.
pub(crate) fn calls_of<W: Threads + Sync>(
    rt: &W,
    alloc: Global,
    rows: &mut FailingRows,
    file: &[u8],
    steps: &[Step<'_>],
) -> Result<u64, Fail> {
    live(rt, alloc, rows, &[], file, steps)?;
    Ok(rows.counts().0.min(10_000))
}

const VERSION: Step<'static> = Says(1, "{asks}server.version{with}]}\n");

// What a client asks over the first block and D1; what it is answered where the device fails, and where it
// doesn't.
type Request = (&'static str, &'static str, &'static str);

const REQUESTS: &[Request] = &[
    (
        "{asks}blockchain.block.header{with}1]}\n",
        "{failed}\n",
        "{result}\"{d1-header}\"}\n",
    ),
    (
        "{asks}blockchain.block.header{with}0,1]}\n",
        "{failed}\n",
        "{result}{\"branch\":[\"{d1}\"],\"header\":\"{z-header}\",\"root\":\"{d1-root}\"}}\n",
    ),
    (
        "{asks}blockchain.block.headers{with}0,2]}\n",
        "{failed}\n",
        "{result}{\"count\":2,\"hex\":\"{z-header}{d1-header}\",\"max\":2016}}\n",
    ),
    (
        "{asks}blockchain.headers.subscribe{with}]}\n",
        "{failed}\n",
        "{result}{\"height\":1,\"hex\":\"{d1-header}\"}}\n",
    ),
    (
        "{asks-balance}{101}{asked}\n",
        "{failed}\n",
        "{result}{balance}7500000000{of-it}0}}\n",
    ),
    (
        "{asks-history}{101}{asked}\n",
        "{failed}\n",
        "{result}[{first-at-0},{second-at-1},{halves-at-1}]}\n",
    ),
    (
        "{asks-coins}{101}{asked}\n",
        "{failed}\n",
        "{result}[{\"height\":1,{second-coin},{\"height\":1,{half-coin}]}\n",
    ),
    (
        "{subscribes}{101}{asked}\n",
        "{failed}\n",
        "{result}\"{d1-status}\"}\n",
    ),
    (
        "{asks}blockchain.transaction.get{with}\"{halves}{asked}\n",
        "{failed}\n",
        "{result}\"{halves-bytes}\"}\n",
    ),
    (
        "{asks}blockchain.transaction.get_merkle{with}\"{halves}\",1]}\n",
        "{failed}\n",
        "{result}{\"block_height\":1,\"merkle\":[\"{second}\"],\"pos\":1}}\n",
    ),
    (
        "{asks}blockchain.transaction.id_from_pos{with}1,1,true]}\n",
        "{failed}\n",
        "{result}{\"merkle\":[\"{second}\"],\"tx_hash\":\"{halves}\"}}\n",
    ),
    // the rest of a batch is answered
    (
        "[{asks-balance}{101}{asked},{asks}server.ping{with}]}]\n",
        "[{failed},{result}null}]\n",
        "[{result}{balance}7500000000{of-it}0}},{result}null}]\n",
    ),
];

// A client comes and agrees on a version.
const BEGINS: &[Step<'static>] = &[TELLS, Says(0, "tip {d1}\n"), Forget, Opens(1), VERSION];

// The steps in which a client then asks this so many times, and of its version again.
fn asking<'x>(alloc: Global, ask: &'x str, times: u64) -> Result<Vec<Step<'x>>, Fail> {
    let mut steps = Vec::new(alloc);
    steps.extend_from_slice(BEGINS)?;
    for _ in 0..times {
        steps.push(Says(1, ask))?;
    }
    steps.push(VERSION)?;
    Ok(steps)
}

// What is shown where the question fails so many times, and is then answered.
fn answers(alloc: Global, failed: &str, times: u64, reply: &str) -> Result<String, Fail> {
    let mut text = String::from_str(alloc, "{result}[\"el_serve 1.0\",\"1.4\"]}\n")?;
    for _ in 0..times {
        text.push_str(failed)?;
    }
    text.push_str(reply)?;
    text.push_str("{agreed}\n")?;
    spelled(alloc, text.as_str())
}

// The numbers of the calls that fail where a question that makes so many calls is asked over and over: after
// so many calls its first one, then its second one, and so on.
fn each_in_turn(alloc: Global, before: u64, calls: u64) -> Result<Vec<u64>, Fail> {
    let mut failing = Vec::new(alloc);
    let mut last = before;
    for call in 1..=calls {
        last = last.saturating_add(call);
        failing.push(last)?;
    }
    Ok(failing)
}

// What is shown where the question is asked over and over: each of its calls fails once, and then none.
fn asked_in_turn<W: Threads + Sync>(
    rt: &W,
    alloc: Global,
    rows: &mut FailingRows,
    file: &[u8],
    ask: &str,
    before: u64,
    calls: u64,
) -> Result<Vec<u8>, Fail> {
    let failing = each_in_turn(alloc, before, calls)?;
    let steps = asking(alloc, ask, calls.saturating_add(1))?;
    live(rt, alloc, rows, failing.as_slice(), file, steps.as_slice())
}

// How often a client's question calls the device, which was called so often before it.
fn calls_to_answer<W: Threads + Sync>(
    rt: &W,
    alloc: Global,
    rows: &mut FailingRows,
    file: &[u8],
    ask: &str,
    before: u64,
) -> Result<u64, Fail> {
    let steps = asking(alloc, ask, 1)?;
    let after = calls_of(rt, alloc, rows, file, steps.as_slice())?;
    Ok(after.saturating_sub(before))
}

// Whether each call of the question that fails is told, and the question is answered where none does; the
// device was called so often before it.
fn is_told<W: Threads + Sync>(
    rt: &W,
    alloc: Global,
    rows: &mut FailingRows,
    file: &[u8],
    request: &Request,
    before: u64,
) -> Result<bool, Fail> {
    let (ask, failed, reply) = *request;
    let calls = calls_to_answer(rt, alloc, rows, file, ask, before)?;
    let shown = asked_in_turn(rt, alloc, rows, file, ask, before, calls)?;
    let wanted = answers(alloc, failed, calls, reply)?;
    Ok(0 < calls && rows.counts().1 == calls && shown.as_slice() == wanted.as_bytes())
}

#[test]
fn each_read_of_a_request(rt: HostRuntime) -> Result<(), Fail> {
    let alloc = rt.alloc();
    let file = coins_file(alloc)?;
    let mut rows = FailingRows::new(alloc)?;
    live(&rt, alloc, &mut rows, &[], file.as_slice(), BEGINS)?;
    let before = calls_of(&rt, alloc, &mut rows, file.as_slice(), BEGINS)?;
    for request in REQUESTS.iter() {
        assert!(rt;
            is_told(&rt, alloc, &mut rows, file.as_slice(), request, before)?,
            "{}",
            request.0
        );
    }
    Ok(())
}

// What the node says, and then the line in which the device fails; and what a client is answered of the
// scripts of 101 and 1 over what is left of it, before the line and after it.
const STOPS: &[[&str; 5]] = &[
    ["tip {z}\n", "tx P\n", "tx Q\n", AT_Z, AT_Z],
    // one is in the block, and its child is kept
    [
        "tip {z}\ntx P\ntx K\n",
        "tip {v1}\n",
        "at {v1} 1\n",
        AT_Z,
        AT_V1,
    ],
    // the block takes the coin
    [
        "tip {z}\ntx P\ntx K\n",
        "tip {d1}\n",
        "at {d1} 1\n",
        AT_Z,
        AT_D1,
    ],
    // the coin is another one, or is gone
    [
        "tip {e1}\ntx P\ntx K\n",
        "tip {z}\n",
        "at {z} 0\n",
        AT_Z,
        AT_Z,
    ],
    [
        "tip {v2}\ntx W\n",
        "tip {v1}\n",
        "at {v1} 1\n",
        AT_V2,
        AT_V1,
    ],
];

const ASKS: &[Step<'static>] = &[
    Opens(1),
    Says(1, "{asks-balance}{101}{asked}\n{asks-balance}{1}{asked}\n"),
];

const AT_Z: &str = "{result}{balance}5000000000{of-it}0}}\n{result}{balance}0{of-it}0}}\n";

const AT_D1: &str = "{result}{balance}7500000000{of-it}0}}\n{result}{balance}0{of-it}0}}\n";

const AT_V1: &str =
    "{result}{balance}5000000000{of-it}0}}\n{result}{balance}5000000000{of-it}0}}\n";

const AT_V2: &str =
    "{result}{balance}10000000000{of-it}0}}\n{result}{balance}5000000000{of-it}0}}\n";

// What a client is answered over what is left of these rows, none of whose calls fails any more.
fn left<W: Threads + Sync>(rt: &W, alloc: Global, rows: &mut FailingRows) -> Result<Vec<u8>, Fail> {
    live(rt, alloc, rows, &[], b"", ASKS)
}

// What the node says over a file before a line, and that with the line.
#[derive(Clone, Copy)]
struct Line<'x> {
    file: &'x [u8],
    before: [Step<'x>; 3],
    whole: [Step<'x>; 4],
}

fn line_of<'x>(file: &'x [u8], before: &'x str, line: &'x str) -> Line<'x> {
    Line {
        file,
        before: [TELLS, Says(0, before), Forget],
        whole: [TELLS, Says(0, before), Forget, Says(0, line)],
    }
}

// What the line is answered, and what a client is answered before it and after it.
#[derive(Drop)]
struct Texts {
    answer: String,
    old: String,
    new: String,
}

fn texts_of(alloc: Global, answer: &str, old: &str, new: &str) -> Result<Texts, Fail> {
    Ok(Texts {
        answer: spelled(alloc, answer)?,
        old: spelled(alloc, old)?,
        new: spelled(alloc, new)?,
    })
}

// How often the device is called before the line, over rows that have the old chain before and after that.
fn calls_before<W: Threads + Sync>(
    rt: &W,
    alloc: Global,
    rows: &mut FailingRows,
    line: &Line<'_>,
) -> Result<u64, Fail> {
    live(rt, alloc, rows, &[], line.file, line.before.as_slice())?;
    calls_of(rt, alloc, rows, line.file, line.before.as_slice())
}

// How often it is called up to the line's end where no call fails; 0 where the line is answered otherwise, or
// leaves another chain.
fn calls_to_end<W: Threads + Sync>(
    rt: &W,
    alloc: Global,
    rows: &mut FailingRows,
    line: &Line<'_>,
    texts: &Texts,
) -> Result<u64, Fail> {
    let shown = live(rt, alloc, rows, &[], line.file, line.whole.as_slice())?;
    let calls = rows.counts().0.min(10_000);
    let found = left(rt, alloc, rows)?;
    if shown.as_slice() == texts.answer.as_bytes() && found.as_slice() == texts.new.as_bytes() {
        Ok(calls)
    } else {
        Ok(0)
    }
}

// What is left of the old chain where this call of the line fails, by which the server stops; None where it
// doesn't.
fn left_by<W: Threads + Sync>(
    rt: &W,
    alloc: Global,
    rows: &mut FailingRows,
    line: &Line<'_>,
    call: u64,
) -> Result<Option<Vec<u8>>, Fail> {
    // the rows have the old chain before the life
    live(rt, alloc, rows, &[], line.file, line.before.as_slice())?;
    let shown = live(rt, alloc, rows, &[call], line.file, line.whole.as_slice())?;
    if rows.counts().1 != 1 || shown.as_slice() != b"stopped by the disk\n".as_slice() {
        return Ok(None);
    }
    Ok(Some(left(rt, alloc, rows)?))
}

// Whether each of these calls that fails stops the server, and leaves the old chain up to some call and from
// then on the new one.
fn stops_between<W: Threads + Sync>(
    rt: &W,
    alloc: Global,
    rows: &mut FailingRows,
    line: &Line<'_>,
    texts: &Texts,
    calls: (u64, u64),
) -> Result<bool, Fail> {
    let mut is_new = false;
    for call in calls.0.saturating_add(1)..=calls.1 {
        let Some(found) = left_by(rt, alloc, rows, line, call)? else {
            return Ok(false);
        };
        is_new = is_new || found.as_slice() != texts.old.as_bytes();
        if is_new && found.as_slice() != texts.new.as_bytes() {
            return Ok(false);
        }
    }
    Ok(true)
}

// Whether each call of a line that fails stops the server, and leaves the old chain up to some call and from
// then on the new one, which also is what a line leaves in which no call fails.
fn stops_anywhere<W: Threads + Sync>(
    rt: &W,
    alloc: Global,
    rows: &mut FailingRows,
    file: &[u8],
    stop: &[&str; 5],
) -> Result<bool, Fail> {
    let [before, said, answer, old, new] = *stop;
    let line = line_of(file, before, said);
    let texts = texts_of(alloc, answer, old, new)?;
    let from = calls_before(rt, alloc, rows, &line)?;
    let to = calls_to_end(rt, alloc, rows, &line, &texts)?;
    Ok(from < to && stops_between(rt, alloc, rows, &line, &texts, (from, to))?)
}

#[test]
fn each_call_of_a_line(rt: HostRuntime) -> Result<(), Fail> {
    let alloc = rt.alloc();
    let file = coins_file(alloc)?;
    for stop in STOPS.iter() {
        let mut rows = FailingRows::new(alloc)?;
        assert!(rt;
            stops_anywhere(&rt, alloc, &mut rows, file.as_slice(), stop)?,
            "{}{}",
            stop[0],
            stop[1]
        );
    }
    Ok(())
}
