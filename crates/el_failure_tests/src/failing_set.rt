// Runs with unconfirmed transactions of which one call of a device fails, and the life after each.
use el_mem_disk::MemDisk;
use el_program::Status;
use el_trials::Step::{Leaves, Opens, Says};
use el_trials::{
    Counted, Failing, Files, NO_FILES, NONE_FAILS, SERVE, Step, call_failing, coming, files_of,
    life_on, named,
};
use std::alloc::Global;
use std::process::Abort;
use std::test::Fail;
use std::thread::Threads;

// A run: what comes, what is sent where no call fails, and how much of that before the first arrival, before
// the second, and so on.
struct Run {
    steps: &'static [Step<'static>],
    sent: &'static [&'static str],
    before: &'static [usize],
}

// A client asks.
const ASKING: Run = Run {
    steps: &[
        Opens(1),
        Says(0, "tip {z-0}\ntx {halves}\ntx {child}\n"),
        Says(1, "{asks-mempool}{script2}{asked}\n"),
        Says(0, "tip {z-a2}\ntx {halves}\n"),
        Says(
            1,
            "{gets}{halves-txid}{asked}\n{asks-mempool}{script2}{asked}\n",
        ),
        Says(0, "drop {child-txid}\ndrop {child-txid}\n"),
    ],
    sent: &[
        "0 at {z-0} 0\n",
        "0 tx {halves-txid}\n",
        "0 tx {child-txid}\n",
        "1 {lists}{child-waits}{listed}\n",
        "0 at {z-a2} 2\n",
        "0 refused confirmed {halves-txid}\n",
        "1 {gives}{halves}{given}\n",
        "1 {lists}{child-waits-later}{listed}\n",
        "0 gone {child-txid}\n",
        "0 refused absent {child-txid}\n",
    ],
    before: &[0, 0, 3, 4, 6, 8, 10],
};

// Three clients are told: two of the same script hashes in another order, the third of others. The first one
// leaves between two tellings.
const TOLD: Run = Run {
    steps: &[
        Opens(1),
        Opens(2),
        Opens(3),
        Says(0, "tip {z-0}\n"),
        Says(
            1,
            "{subscribes}{script1}{asked}\n{subscribes}{script2}{asked}\n",
        ),
        Says(
            2,
            "{heads}\n{subscribes}{script2}{asked}\n{subscribes}{script1}{asked}\n",
        ),
        Says(
            3,
            "{subscribes}{script100}{asked}\n{subscribes}{script3}{asked}\n",
        ),
        Says(0, "tx {halves}\ntx {child}\n"),
        Leaves(1),
        Says(0, "tip {z-a2}\n"),
        Says(0, "drop {child-txid}\n"),
    ],
    sent: &[
        "0 at {z-0} 0\n",
        "1 {null}\n",
        "1 {null}\n",
        "2 {tip-is}0{hex}{z-header}{tip-given}\n",
        "2 {null}\n",
        "2 {null}\n",
        "3 {null}\n",
        "3 {null}\n",
        "0 tx {halves-txid}\n",
        "1 {tells}{script1}{now}{halves-status}{told}\n",
        "2 {tells}{script1}{now}{halves-status}{told}\n",
        "3 {tells}{script100}{now}{halves-status}{told}\n",
        "0 tx {child-txid}\n",
        "1 {tells}{script1}{now}{both-status}{told}\n",
        "1 {tells}{script2}{now}{child-status}{told}\n",
        "2 {tells}{script2}{now}{child-status}{told}\n",
        "2 {tells}{script1}{now}{both-status}{told}\n",
        "0 at {z-a2} 2\n",
        "2 {tells-tip}2{hex}{a2-header}{tip-told}\n",
        "2 {tells}{script2}{now}{child-status-later}{told}\n",
        "2 {tells}{script1}{now}{both-status-1}{told}\n",
        "3 {tells}{script100}{now}{halves-status-1}{told}\n",
        "0 gone {child-txid}\n",
        "2 {tells}{script2}{now-none}\n",
        "2 {tells}{script1}{now}{halves-status-1}{told}\n",
    ],
    before: &[0, 0, 0, 0, 1, 3, 6, 8, 17, 17, 22, 25],
};

const RUNS: &[&Run] = &[&ASKING, &TOLD];

// What is sent where a call of the block files fails: in the first tip line, in the second, and in the
// request of a transaction; and which chain the run then leaves.
const FIRST_FAILS: &str = "0 refused archive\n0 refused missing {z-txid} 0\n\
                           0 refused missing {halves-txid} 0\n1 {none}\n0 at {z-a2} 2\n\
                           0 refused confirmed {halves-txid}\n1 {gives}{halves}{given}\n1 {none}\n\
                           0 refused absent {child-txid}\n0 refused absent {child-txid}\n";

const SECOND_FAILS: &str = "0 at {z-0} 0\n0 tx {halves-txid}\n0 tx {child-txid}\n\
                            1 {lists}{child-waits}{listed}\n0 refused archive\n\
                            0 refused known {halves-txid}\n1 {gives}{halves}{given}\n\
                            1 {lists}{child-waits}{listed}\n0 gone {child-txid}\n\
                            0 refused absent {child-txid}\n";

const REQUEST_FAILS: &str = "0 at {z-0} 0\n0 tx {halves-txid}\n0 tx {child-txid}\n\
                             1 {lists}{child-waits}{listed}\n0 at {z-a2} 2\n\
                             0 refused confirmed {halves-txid}\n1 {failed}\n\
                             1 {lists}{child-waits-later}{listed}\n0 gone {child-txid}\n\
                             0 refused absent {child-txid}\n";

const ARCHIVE_FAILS: &[(Status, &str, usize)] = &[
    (Status::ArchiveFailed, "", 0),
    (Status::Ended, FIRST_FAILS, 2),
    (Status::Ended, SECOND_FAILS, 1),
    (Status::Ended, REQUEST_FAILS, 2),
];

const ASKS: &str = "tip {z-a2}\ntip {z-0}\n";

// What an index alone answers that has no chain, that of the first tip line and that of the second.
const CHAINS: &[&str] = &[
    "0 refused unknown {z-a2}\n0 refused unknown {z-0}\n",
    "0 refused unknown {z-a2}\n0 at {z-0} 0\n",
    "0 at {z-a2} 2\n0 at {z-0} 0\n",
];

// The run where these calls fail.
fn played<W: Threads + Sync>(
    rt: &W,
    alloc: Global,
    run: &Run,
    fails: Failing,
) -> Result<Counted, Fail> {
    let files = files_of(alloc, Files::Forks)?;
    call_failing(
        rt,
        alloc,
        SERVE,
        files,
        coming(alloc, run.steps, 1_000)?,
        fails,
    )
}

// The first so many messages of those that are sent where no call fails.
fn front(alloc: Global, run: &Run, count: usize) -> Result<String, Fail> {
    let mut all = String::new(alloc);
    for line in run.sent.iter().take(count) {
        all.push_str(named(alloc, *line)?.as_str())?;
    }
    Ok(all)
}

// How many of them tell a chain.
fn chains_in(run: &Run, count: usize) -> usize {
    let mut chains = 0usize;
    for line in run.sent.iter().take(count) {
        if line.starts_with("0 at ") {
            chains = chains.saturating_add(1);
        }
    }
    chains
}

// The chain that the life after finds, by its number.
fn chain_on<W: Threads + Sync>(rt: &W, alloc: Global, disk: MemDisk) -> Result<usize, Fail> {
    let life = life_on(rt, alloc, SERVE, disk, NO_FILES, [Says(0, ASKS)].as_slice())?;
    for (number, chain) in CHAINS.iter().enumerate() {
        if life.text.as_str() == named(alloc, *chain)?.as_str() {
            return Ok(number);
        }
    }
    Err(Fail::new("another chain"))
}

// How many calls of the archive, of the link and of the disk failed.
fn faults_of(found: &Counted) -> (u64, u64, u64) {
    (found.faults.0, found.faults.1, found.disk.faults())
}

// Whether the run ended so, had sent this, and left the chain of that number.
fn is_ended<W: Threads + Sync>(
    rt: &W,
    alloc: Global,
    found: Counted,
    status: Status,
    text: &str,
    chain: usize,
) -> Result<bool, Fail> {
    let is_sent = found.status == status && found.text.as_str() == text;
    Ok(chain_on(rt, alloc, found.disk)? == chain && is_sent)
}

// Whether the run ends before that arrival, which fails, and has sent so many messages.
fn ends_at_arrival<W: Threads + Sync>(
    rt: &W,
    alloc: Global,
    run: &Run,
    next: u64,
    count: usize,
) -> Result<bool, Fail> {
    let text = front(alloc, run, count)?;
    let found = played(rt, alloc, run, Failing { next, ..NONE_FAILS })?;
    let has_failed = faults_of(&found) == (0, 1, 0);
    let chain = chains_in(run, count);
    let is_ended = is_ended(rt, alloc, found, Status::LinkFailed, text.as_str(), chain)?;
    Ok(has_failed && is_ended)
}

// Whether the run sends all where no call fails.
fn ends_well<W: Threads + Sync>(rt: &W, alloc: Global, run: &Run) -> Result<bool, Fail> {
    let text = front(alloc, run, run.sent.len())?;
    let found = played(rt, alloc, run, NONE_FAILS)?;
    is_ended(rt, alloc, found, Status::Ended, text.as_str(), 2)
}

#[test]
fn each_arrival_with_a_set(rt: HostRuntime) -> Result<(), Fail> {
    let alloc = rt.alloc();
    for tried in RUNS {
        let mut next = 0u64;
        for count in tried.before {
            next = next.saturating_add(1);
            assert!(rt; ends_at_arrival(&rt, alloc, tried, next, *count)?, "{next}");
        }
        assert!(rt; ends_well(&rt, alloc, tried)?);
    }
    Ok(())
}

// Whose message it is, in digits.
fn peer_of(line: &str) -> &str {
    match line.split_once(' ') {
        Some((peer, _)) => peer,
        None => line,
    }
}

// Adds the messages of a run from one on that aren't that client's.
fn add_others(
    alloc: Global,
    all: &mut String,
    run: &Run,
    from: usize,
    peer: &str,
) -> Result<(), Fail> {
    for line in run.sent.iter().skip(from) {
        if peer_of(*line) != peer {
            all.push_str(named(alloc, *line)?.as_str())?;
        }
    }
    Ok(())
}

// What is sent where the sends to that client fail from this message on, and the client is closed.
fn without(alloc: Global, run: &Run, from: usize, peer: &str) -> Result<String, Fail> {
    let mut all = front(alloc, run, from)?;
    add_others(alloc, &mut all, run, from, peer)?;
    all.push_str(format!(in alloc; "closed {peer} Gone\n")?.as_str())?;
    Ok(all)
}

// How the run ends where the send of that message to this peer fails, what is sent, and the chain that is
// left. One that couldn't be told is there.
fn wanted_after_send(
    alloc: Global,
    run: &Run,
    sent: usize,
    peer: &str,
) -> Result<(Status, String, usize), Fail> {
    if peer == "0" {
        let text = front(alloc, run, sent)?;
        let chain = chains_in(run, sent.saturating_add(1));
        return Ok((Status::LinkFailed, text, chain));
    }
    Ok((Status::Ended, without(alloc, run, sent, peer)?, 2))
}

// Whether the run ends so where the send of that message to this peer fails.
fn ends_at_send<W: Threads + Sync>(
    rt: &W,
    alloc: Global,
    run: &Run,
    sent: usize,
    peer: &str,
) -> Result<bool, Fail> {
    let (status, text, chain) = wanted_after_send(alloc, run, sent, peer)?;
    let send = (sent as u64).saturating_add(1);
    let found = played(rt, alloc, run, Failing { send, ..NONE_FAILS })?;
    let has_failed = faults_of(&found) == (0, 1, 0);
    let is_ended = is_ended(rt, alloc, found, status, text.as_str(), chain)?;
    Ok(has_failed && is_ended)
}

#[test]
fn each_send_with_a_set(rt: HostRuntime) -> Result<(), Fail> {
    for tried in RUNS {
        for (sent, line) in tried.sent.iter().enumerate() {
            let is_ended = ends_at_send(&rt, rt.alloc(), tried, sent, peer_of(*line))?;
            assert!(rt; is_ended, "{sent}");
        }
    }
    Ok(())
}

// The place of the text among those of runs of which a call of the archive fails: this place, or the next
// one.
fn place_of(alloc: Global, text: &str, place: usize) -> Result<usize, Fail> {
    let wanted = ARCHIVE_FAILS.get(place).ok_or("no such text")?;
    if text == named(alloc, wanted.1)?.as_str() {
        return Ok(place);
    }
    Ok(place.saturating_add(1))
}

// Whether the run ended as the one at that place.
fn is_ended_at<W: Threads + Sync>(
    rt: &W,
    alloc: Global,
    found: Counted,
    place: usize,
) -> Result<bool, Fail> {
    let (status, text, chain) = ARCHIVE_FAILS.get(place).copied().ok_or("no such text")?;
    let text = named(alloc, text)?;
    is_ended(rt, alloc, found, status, text.as_str(), chain)
}

// Whether a run of which that call of the archive fails ends so, and its place. The one before had this place
// or the one before it: calls of the opening come first, then those of each line.
fn ends_at_call<W: Threads + Sync>(
    rt: &W,
    alloc: Global,
    archive: u64,
    place: usize,
) -> Result<(bool, usize), Fail> {
    let fails = Failing {
        archive,
        ..NONE_FAILS
    };
    let found = played(rt, alloc, &ASKING, fails)?;
    let has_failed = faults_of(&found) == (1, 0, 0);
    let place = place_of(alloc, found.text.as_str(), place)?;
    Ok((is_ended_at(rt, alloc, found, place)? && has_failed, place))
}

#[test]
fn each_call_of_the_archive_with_a_set(rt: HostRuntime) -> Result<(), Fail> {
    let alloc = rt.alloc();
    let all = played(&rt, alloc, &ASKING, NONE_FAILS)?
        .archive_calls
        .min(1_000);
    let mut place = 0usize;
    for archive in 1..=all {
        let (is_ended, next) = ends_at_call(&rt, alloc, archive, place)?;
        assert!(rt; is_ended, "{archive}");
        place = next;
    }
    assert!(rt; place == 3);
    Ok(())
}

// How many messages of a run were sent, where these are the first ones; nothing, if others were.
fn count_sent(alloc: Global, run: &Run, text: &str) -> Result<Option<usize>, Fail> {
    for count in 0..run.sent.len().saturating_add(1) {
        if text == front(alloc, run, count)?.as_str() {
            return Ok(Some(count));
        }
    }
    Ok(None)
}

// How many chains were told before the failure that ended the run, and the chain that is left; nothing, if
// other messages were sent than the first ones, or the one that is missing next isn't the node's.
fn left_by<W: Threads + Sync>(
    rt: &W,
    alloc: Global,
    run: &Run,
    found: Counted,
) -> Result<Option<(usize, usize)>, Fail> {
    let Some(count) = count_sent(alloc, run, found.text.as_str())? else {
        return Ok(None);
    };
    let next = run.sent.get(count).copied().unwrap_or("");
    if peer_of(next) != "0" {
        return Ok(None);
    }
    Ok(Some((chains_in(run, count), chain_on(rt, alloc, found.disk)?)))
}

// The lines of a text but those that are that client's, or tell that it is closed.
fn of_others(alloc: Global, text: &str, peer: &str) -> Result<String, Fail> {
    let closed = format!(in alloc; "closed {peer} ")?;
    let mut all = String::new(alloc);
    for line in text.lines() {
        if peer_of(line) != peer && !line.starts_with(closed.as_str()) {
            all.push_str(line)?;
            all.push_str("\n")?;
        }
    }
    Ok(all)
}

// Whether a query of that client failed: it is told so, or is closed for it, and all others are sent what
// they are sent where no call fails.
fn has_failed_for(alloc: Global, run: &Run, text: &str, peer: &str) -> Result<bool, Fail> {
    let told = format!(in alloc; "{peer} {{index-failed}}\n")?;
    let told = named(alloc, told.as_str())?;
    let closed = format!(in alloc; "closed {peer} Disk\n")?;
    if text.contains(told.as_str()) == text.contains(closed.as_str()) {
        return Ok(false);
    }
    let whole = front(alloc, run, run.sent.len())?;
    let others = of_others(alloc, text, peer)?;
    Ok(others.as_str() == of_others(alloc, whole.as_str(), peer)?.as_str())
}

// Whether the run went on to its end, and a query of one client failed.
fn goes_on<W: Threads + Sync>(
    rt: &W,
    alloc: Global,
    run: &Run,
    found: Counted,
) -> Result<bool, Fail> {
    let mut clients = 0usize;
    for peer in ["1", "2", "3"] {
        if has_failed_for(alloc, run, found.text.as_str(), peer)? {
            clients = clients.saturating_add(1);
        }
    }
    Ok(clients == 1 && chain_on(rt, alloc, found.disk)? == 2)
}

// How many calls of the disk leave each chain, by how many chains were told.
#[derive(Clone, Copy)]
struct Counts {
    left: [[u64; 3]; 3],
}

// One more call of those that leave that chain.
fn add_one(counts: &mut Counts, told: usize, chain: usize) {
    if let Some(row) = counts.left.get_mut(told) {
        if let Some(count) = row.get_mut(chain) {
            *count = count.saturating_add(1);
        }
    }
}

// Counts what that call of the disk leaves, and says whether the run ended as it must: where a node's line or
// the opening failed, it ended, and where a client's query did, it went on.
fn count_call<W: Threads + Sync>(
    rt: &W,
    alloc: Global,
    run: &Run,
    disk: u64,
    counts: &mut Counts,
) -> Result<bool, Fail> {
    let found = played(rt, alloc, run, Failing { disk, ..NONE_FAILS })?;
    if faults_of(&found) != (0, 0, 1) {
        return Ok(false);
    }
    if found.status == Status::Ended {
        return goes_on(rt, alloc, run, found);
    }
    if found.status != Status::DiskFailed {
        return Ok(false);
    }
    match left_by(rt, alloc, run, found)? {
        Some((told, chain)) => {
            add_one(counts, told, chain);
            Ok(true)
        }
        None => Ok(false),
    }
}

// Whether each chain is left by some call, also the one that was in flight, and no other.
fn are_all_left(counts: Counts) -> bool {
    let [
        [none, first_flew, late],
        [early, first, second_flew],
        [earlier, early_too, _],
    ] = counts.left;
    let is_some_left = 0 < none && 0 < first_flew && 0 < first && 0 < second_flew;
    let is_other_left = 0 < late || 0 < early || 0 < earlier || 0 < early_too;
    is_some_left && !is_other_left
}

// What each third call of the disk leaves, up to the first at which the run doesn't end as it must: those
// whose number leaves that remainder.
fn count_all<W: Threads + Sync>(
    rt: &W,
    alloc: Global,
    run: &Run,
    remainder: u64,
) -> Result<(Counts, Option<u64>), Fail> {
    let all = played(rt, alloc, run, NONE_FAILS)?.disk.calls().min(1_000);
    let mut counts = Counts { left: [[0; 3]; 3] };
    for disk in 1..=all {
        if disk % 3 == remainder && !count_call(rt, alloc, run, disk, &mut counts)? {
            return Ok((counts, Some(disk)));
        }
    }
    Ok((counts, None))
}

// Asserts that the run ends as it must at each of these calls, and that they leave each chain.
fn assert_left<W: Abort + Threads + Sync>(
    rt: &W,
    alloc: Global,
    run: &Run,
    remainder: u64,
) -> Result<(), Fail> {
    let (counts, wrong) = count_all(rt, alloc, run, remainder)?;
    assert_eq!(rt; wrong, None);
    assert!(rt; are_all_left(counts));
    Ok(())
}

#[test]
fn each_third_call_of_the_disk_with_a_set(rt: HostRuntime) -> Result<(), Fail> {
    assert_left(&rt, rt.alloc(), &ASKING, 0)
}

#[test]
fn each_call_after_a_third_with_a_set(rt: HostRuntime) -> Result<(), Fail> {
    assert_left(&rt, rt.alloc(), &ASKING, 1)
}

#[test]
fn each_call_before_a_third_with_a_set(rt: HostRuntime) -> Result<(), Fail> {
    assert_left(&rt, rt.alloc(), &ASKING, 2)
}

#[test]
fn each_third_call_of_the_disk_with_three_clients(rt: HostRuntime) -> Result<(), Fail> {
    assert_left(&rt, rt.alloc(), &TOLD, 0)
}

#[test]
fn each_call_after_a_third_with_three_clients(rt: HostRuntime) -> Result<(), Fail> {
    assert_left(&rt, rt.alloc(), &TOLD, 1)
}

#[test]
fn each_call_before_a_third_with_three_clients(rt: HostRuntime) -> Result<(), Fail> {
    assert_left(&rt, rt.alloc(), &TOLD, 2)
}
