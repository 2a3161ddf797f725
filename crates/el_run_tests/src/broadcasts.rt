// Broadcasts: what wallets are answered, and what the relay is offered.
use el_fakes::MemRelay;
use el_outside::{NoPace, Verdict};
use el_program::Status;
use el_trials::Step::{Opens, Says};
use el_trials::{
    Files, ONCE, SERVE, TURNS, expect_ended, fresh_disk, named, relay_with, serve_by,
    steady_archive, steady_link, transcript,
};
use std::alloc::Global;
use std::test::Fail;
use std::thread::Threads;

// Words by which transactions are relayed.
const RELAYED: &str =
    "serve --blocks a --index b --network regtest --client-port 50001 --node-port 8331 --relay r";

// A run in which a client says something.
struct Case {
    words: &'static str,
    // The calls of the relay that fail, and those that refuse.
    failing: &'static [u64],
    refusing: &'static [u64],
    says: &'static str,
    // What is sent; and what the relay was offered, and said.
    wanted: &'static str,
    offers: &'static [(&'static str, Verdict)],
    faults: u64,
}

const CASES: &[Case] = &[
    // one that the relay took is answered by itself then
    Case {
        words: RELAYED,
        failing: &[],
        refusing: &[],
        says: "{sends}{halves}{asked}\n{sends}{halves}{asked}\n",
        wanted: "1 {gives}{halves-txid}{given}\n1 {gives}{halves-txid}{given}\n",
        offers: &[("{halves}", Verdict::Taken)],
        faults: 0,
    },
    // one that it refused may be asked for again
    Case {
        words: RELAYED,
        failing: &[],
        refusing: &[1],
        says: "{sends}{halves}{asked}\n{sends}{halves}{asked}\n",
        wanted: "1 {relay-refuses}\n1 {gives}{halves-txid}{given}\n",
        offers: &[("{halves}", Verdict::Refused), ("{halves}", Verdict::Taken)],
        faults: 0,
    },
    // what is no transaction, has more after it, or has a coinbase's form isn't offered
    Case {
        words: RELAYED,
        failing: &[],
        refusing: &[],
        says: "{sends}00{asked}\n{sends}{asked}\n{sends}{halves}00{asked}\n{sends}{makes-coins}{asked}\n",
        wanted: "1 {no-transaction}\n1 {no-transaction}\n1 {no-transaction}\n1 {no-coinbase}\n",
        offers: &[],
        faults: 0,
    },
    // a failed call is told, and another one may be made
    Case {
        words: RELAYED,
        failing: &[1],
        refusing: &[],
        says: "{sends}{halves}{asked}\n{sends}{halves}{asked}\n",
        wanted: "1 {relay-failed}\n1 {gives}{halves-txid}{given}\n",
        offers: &[("{halves}", Verdict::Taken)],
        faults: 1,
    },
    // without a relay each is refused, whatever it is
    Case {
        words: SERVE,
        failing: &[],
        refusing: &[],
        says: "{sends}{halves}{asked}\n{sends}00{asked}\n",
        wanted: "1 {no-relay}\n1 {no-relay}\n",
        offers: &[],
        faults: 0,
    },
    Case {
        words: ONCE,
        failing: &[],
        refusing: &[],
        says: "{sends}{halves}{asked}\n",
        wanted: "1 {no-relay}\n",
        offers: &[],
        faults: 0,
    },
    // a request without an id is offered, and not answered; those of a batch go in order
    Case {
        words: RELAYED,
        failing: &[],
        refusing: &[2],
        says: "{\"method\":\"blockchain.transaction.broadcast\",\"params\":[\"{parent}\"]}\n\
               [{sends}{halves}{asked},{sends}{parent}{asked}]\n",
        wanted: "1 [{relay-refuses},{gives}{parent-txid}{given}]\n",
        offers: &[("{parent}", Verdict::Taken), ("{halves}", Verdict::Refused)],
        faults: 0,
    },
];

// Fails unless the relay was offered this.
fn expect_offers(alloc: Global, relay: &MemRelay, case: &Case) -> Result<(), Fail> {
    let offers = relay.offers();
    if offers.len() != case.offers.len() || relay.faults() != case.faults {
        let (count, faults) = (offers.len(), relay.faults());
        return Err(Fail::new(format_args!("{count} offers, {faults} failed calls")));
    }
    for (offer, wanted) in offers.iter().zip(case.offers) {
        let digits = named(alloc, wanted.0)?;
        let bytes = hex::decode(alloc, digits.as_str())?;
        if offer.bytes.as_slice() != bytes.as_slice() || offer.verdict != wanted.1 {
            return Err(Fail::new("another offer"));
        }
    }
    Ok(())
}

// Fails unless it goes so.
fn expect_case<W: Threads + Sync>(rt: &W, alloc: Global, case: &Case) -> Result<(), Fail> {
    let mut archive = steady_archive(alloc, Files::Branch(1))?;
    let mut relay = relay_with(alloc, case.failing, case.refusing)?;
    let mut link = steady_link(alloc, [Opens(1), Says(1, case.says)].as_slice())?;
    let (status, _) = serve_by(
        rt,
        alloc,
        case.words,
        fresh_disk(alloc),
        &mut archive,
        &mut relay,
        &mut link,
        &NoPace,
        TURNS,
    )?;
    let text = transcript(alloc, link.sent(), link.closed())?;
    expect_ended(alloc, (status, text.as_str()), (Status::Ended, case.wanted))?;
    expect_offers(alloc, &relay, case)
}

#[test]
fn broadcasts_are_answered_and_offered(rt: HostRuntime) -> Result<(), Fail> {
    for case in CASES {
        expect_case(&rt, rt.alloc(), case)?;
    }
    Ok(())
}
