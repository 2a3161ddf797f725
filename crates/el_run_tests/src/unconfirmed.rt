// What the node tells of unconfirmed transactions, and what clients see of them.
use el_program::Status;
use el_trials::Step::{Opens, Says};
use el_trials::{Files, SERVE, Step, expect_sends};
use std::test::Fail;

// Words by which one transaction is kept at most.
const SERVE_ONE: &str =
    "serve --blocks a --index b --network regtest --client-port 50001 --node-port 8331 --pool-count 1";

// What a client asks of the script that the child pays to.
const ASKS: Step<'static> = Says(
    1,
    "{asks-mempool}{script2}{asked}\n{subscribes}{script2}{asked}\n",
);

// The words, what comes, and what is sent.
const RUNS: &[(&str, &[Step<'static>], &str)] = &[
    // a child is seen with its parent, which a block then has, and goes where another spend of the coin
    // comes; the client is told of that
    (
        SERVE,
        &[
            Opens(1),
            Says(0, "tip {z-0}\ntx {halves}\ntx {child}\n"),
            ASKS,
            Says(
                1,
                "{asks}{script2}{asked}\n{asks-balance}{script2}{asked}\n{gets}{child-txid}{asked}\n",
            ),
            Says(0, "tip {z-a2}\n"),
            ASKS,
            Says(0, "tip {z-b3}\n"),
            ASKS,
            Says(0, "tip {z-d1}\n"),
            ASKS,
            Says(0, "drop {child-txid}\n"),
        ],
        "0 at {z-0} 0\n0 tx {halves-txid}\n0 tx {child-txid}\n\
         1 {lists}{child-waits}{listed}\n1 {gives}{child-status}{given}\n\
         1 {lists}{child-waits}{listed}\n1 {holds-none-yet}2500000000{held-yet}\n1 {gives}{child}{given}\n\
         0 at {z-a2} 2\n1 {tells}{script2}{now}{child-status-later}{told}\n\
         1 {lists}{child-waits-later}{listed}\n1 {gives}{child-status-later}{given}\n\
         0 at {z-b3} 3\n1 {lists}{child-waits-later}{listed}\n1 {gives}{child-status-later}{given}\n\
         0 at {z-d1} 1\n1 {tells}{script2}{now-none}\n1 {none}\n1 {null}\n0 refused absent {child-txid}\n",
    ),
    // each refusal, where one transaction is kept at most
    (
        SERVE_ONE,
        &[Says(
            0,
            "tip {z-0}\ntx 00\ntx {makes-coins}\ntx {overspends}\ntx {parent}\ntx {parent}\n\
             tx {conflicts}\ntx {parents-child}\ntx {misses}\ndrop {parent-txid}\ndrop {parent-txid}\n",
        )],
        "0 at {z-0} 0\n0 refused form\n0 refused coinbase\n0 refused overspends 5000000000 5000000001\n\
         0 tx {parent-txid}\n0 refused known {parent-txid}\n0 refused conflict {parent-txid}\n\
         0 refused full 1 65\n0 refused missing {ones} 0\n0 gone {parent-txid}\n\
         0 refused absent {parent-txid}\n",
    ),
    // what a block has is refused; a refused tip leaves the set as it is
    (
        SERVE,
        &[
            Opens(1),
            Says(0, "tip {z-a2}\ntx {halves}\ntx {child}\ntip {twos}\n"),
            ASKS,
        ],
        "0 at {z-a2} 2\n0 refused confirmed {halves-txid}\n0 tx {child-txid}\n0 refused unknown {twos}\n\
         1 {lists}{child-waits-later}{listed}\n1 {gives}{child-status-later}{given}\n",
    ),
];

#[test]
fn unconfirmed_transactions(rt: HostRuntime) -> Result<(), Fail> {
    for (words, steps, sent) in RUNS {
        let wanted = (Status::Ended, *sent);
        expect_sends(&rt, rt.alloc(), words, Files::Forks, steps, wanted)?;
    }
    Ok(())
}
