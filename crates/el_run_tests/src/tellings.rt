// What a client is told without having asked, over blocks that part and spend.
use el_program::Status;
use el_trials::Step::{Opens, Says};
use el_trials::{Files, SERVE, Step, expect_sends};
use std::test::Fail;

const SUBSCRIBES: Step<'static> = Says(1, "{heads}\n{subscribes}{script1}{asked}\n");

// What comes, and what is sent.
const RUNS: &[(&[Step<'static>], &str)] = &[
    // a transaction is at another height on the other branch
    (
        &[
            Opens(1),
            Says(0, "tip {z-a2}\n"),
            SUBSCRIBES,
            Says(0, "tip {z-b3}\n"),
        ],
        "0 at {z-a2} 2\n1 {tip-is}2{hex}{a2-header}{tip-given}\n1 {gives}{halves-status-1}{given}\n\
         0 at {z-b3} 3\n1 {tells-tip}3{hex}{b3-header}{tip-told}\n\
         1 {tells}{script1}{now}{halves-status-2}{told}\n",
    ),
    // it is at the same height on another one
    (
        &[
            Opens(1),
            Says(0, "tip {z-a2}\n"),
            SUBSCRIBES,
            Says(0, "tip {z-c3}\n"),
        ],
        "0 at {z-a2} 2\n1 {tip-is}2{hex}{a2-header}{tip-given}\n1 {gives}{halves-status-1}{given}\n\
         0 at {z-c3} 3\n1 {tells-tip}3{hex}{c3-header}{tip-told}\n",
    ),
    // a parent comes into a block, so that what its unconfirmed child spends is confirmed
    (
        &[
            Opens(1),
            Says(0, "tip {z-0}\ntx {parent}\ntx {parents-child}\n"),
            Says(
                1,
                "{asks-mempool}{script2}{asked}\n{asks-balance}{script101}{asked}\n\
                 {asks-balance}{script1}{asked}\n{asks-balance}{script2}{asked}\n\
                 {subscribes}{script2}{asked}\n",
            ),
            Says(0, "tip {z-e1}\n"),
        ],
        "0 at {z-0} 0\n0 tx {parent-txid}\n0 tx {parents-child-txid}\n\
         1 {lists}{\"fee\":0,\"height\":-1,\"tx_hash\":\"{parents-child-txid}\"}{listed}\n\
         1 {holds}5000000000{holds-less}-5000000000{held-yet}\n1 {holds}0{held}\n\
         1 {holds}0{holds-less}5000000000{held-yet}\n1 {gives}{parents-child-status}{given}\n\
         0 at {z-e1} 1\n1 {tells}{script2}{now}{parents-child-status-later}{told}\n",
    ),
    // nothing is told of a line that changes nothing: a tip that is the tip, a refused one, a transaction of
    // other scripts that goes again; the same script hash once more keeps its place and is told once
    (
        &[
            Opens(1),
            Says(0, "tip {z-0}\n"),
            SUBSCRIBES,
            Says(
                1,
                "{subscribes}{script2}{asked}\n{subscribes}{script1}{asked}\n",
            ),
            Says(0, "tip {z-0}\ntip {twos}\ntx {conflicts}\nx\n"),
            Says(0, "drop {conflicts-txid}\n"),
            Says(0, "tx {halves}\ntx {child}\n"),
        ],
        "0 at {z-0} 0\n1 {tip-is}0{hex}{z-header}{tip-given}\n1 {null}\n1 {null}\n1 {null}\n\
         0 at {z-0} 0\n0 refused unknown {twos}\n\
         0 tx {conflicts-txid}\n0 refused line\n\
         0 gone {conflicts-txid}\n\
         0 tx {halves-txid}\n1 {tells}{script1}{now}{halves-status}{told}\n\
         0 tx {child-txid}\n1 {tells}{script1}{now}{both-status}{told}\n\
         1 {tells}{script2}{now}{child-status}{told}\n",
    ),
];

#[test]
fn what_a_client_is_told(rt: HostRuntime) -> Result<(), Fail> {
    for (steps, sent) in RUNS {
        let wanted = (Status::Ended, *sent);
        expect_sends(&rt, rt.alloc(), SERVE, Files::Forks, steps, wanted)?;
    }
    Ok(())
}
