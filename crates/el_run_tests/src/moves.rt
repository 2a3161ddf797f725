// Moves between branches, over the index on a disk.
use el_program::Status;
use el_trials::Step::{Opens, Says};
use el_trials::{Files, SERVE, Step, expect_sends};
use std::test::Fail;

// The files, what comes, and what is sent.
const MOVES: &[(Files, &[Step<'static>], &str)] = &[
    // a spend is in the first block of one branch, and in the second of the other
    (
        Files::Forks,
        &[
            Opens(1),
            Says(0, "tip {z-a2}\n"),
            Says(
                1,
                "{asks}{script1}{asked}\n{asks-balance}{script101}{asked}\n",
            ),
            Says(0, "tip {z-b3}\n"),
            Says(
                1,
                "{asks}{script1}{asked}\n{asks-balance}{script101}{asked}\n",
            ),
        ],
        "0 at {z-a2} 2\n1 {lists}{early-entry}{listed}\n1 {holds}10000000000{held}\n\
         0 at {z-b3} 3\n1 {lists}{late-entry}{listed}\n1 {holds}15000000000{held}\n",
    ),
    // and in the first of a third one
    (
        Files::Forks,
        &[
            Opens(1),
            Says(0, "tip {z-b3}\ntip {z-c1}\n"),
            Says(
                1,
                "{asks}{script1}{asked}\n{asks-balance}{script101}{asked}\n",
            ),
            Says(0, "tip {z-a2}\ntip {z-c1}\n"),
            Says(1, "{asks}{script1}{asked}\n"),
        ],
        "0 at {z-b3} 3\n0 at {z-c1} 1\n1 {lists}{early-entry}{listed}\n1 {holds}5000000000{held}\n\
         0 at {z-a2} 2\n0 at {z-c1} 1\n1 {lists}{early-entry}{listed}\n",
    ),
    // a hundred blocks are taken back, and one more are not
    (
        Files::Deep,
        &[
            Opens(1),
            Says(0, "tip {a101}\ntip {b1}\ntip {a101}\n"),
            Says(1, "{asks}{script16}{asked}\n"),
            Says(0, "tip {c34}\n"),
            Says(1, "{asks}{script1}{asked}\n{asks}{script101}{asked}\n"),
        ],
        "0 at {a15} 15\n0 at {a31} 31\n0 at {a47} 47\n0 at {a63} 63\n0 at {a79} 79\n0 at {a95} 95\n\
         0 at {a101} 101\n0 refused deep 101\n0 at {a101} 101\n1 {lists}{entry16}{listed}\n\
         0 at {c17} 17\n0 at {c33} 33\n0 at {c34} 34\n1 {lists}{entry1}{listed}\n1 {none}\n",
    ),
];

#[test]
fn moves_between_branches(rt: HostRuntime) -> Result<(), Fail> {
    for (files, steps, sent) in MOVES {
        let wanted = (Status::Ended, *sent);
        expect_sends(&rt, rt.alloc(), SERVE, *files, steps, wanted)?;
    }
    Ok(())
}
