// Made files: their sizes, digests and tips are those that another program computed from the rules.
use el_base::sha256;
use el_gen::{MOST_MADE, make};
use std::alloc::Global;
use std::test::Fail;

// A made file of so many blocks in its first branch: how many bytes it has, their SHA-256 in hex digits, and
// the hashes of the last blocks of its two branches, as users see them.
struct File {
    count: u32,
    size: usize,
    digest: &'static str,
    first_tip: &'static str,
    side_tip: &'static str,
}

// The smallest file; the greatest whose side branch leaves out all blocks but the first, and the next; and
// that of the program's stored run. A program in Python, over its `hashlib` alone, gave the values.
const FILES: [File; 4] = [
    File {
        count: 1,
        size: 399,
        digest: "415f0415c8a35b68a0ff970a207339ff5969c733d177528ce044df0abf86ad57",
        first_tip: "e24fc0cd4b74e58d1bcfa1d15b2c35345824b4e3e6e3959659d662c2ce011688",
        side_tip: "bac15facb735ed103448b52aba8d1e49bb33bc0f84a91b1ebfb3518fbf191c4f",
    },
    File {
        count: 6,
        size: 2_789,
        digest: "14c0fca11fdb76a4d4ec9a787713c6f03bb5a8b124f7a51de1e75005925bf3f2",
        first_tip: "ec6a37590a17902635aae4396d3ae9b7e63f7d55388a7ea55f2aeb08d9b4ccb2",
        side_tip: "ec29b889b6a278739778fd9c28f0d6dd37daec94bc0c1c341ef057d6381da8c3",
    },
    File {
        count: 7,
        size: 3_028,
        digest: "036cb5601383d7b203d1a3875da5658eba194a94c2f475d728b23dc0039ebe4e",
        first_tip: "0b04314333d0c3f9039d2721ad787f0ef99c319221ff8d50d93e5044833fe24e",
        side_tip: "dbcf3f6a6f7b0175fe617361120576909a93332063bc33ddd730948cfceb9502",
    },
    File {
        count: 1_000,
        size: 240_355,
        digest: "3b1376e7a7acc79d83bc48d5caf0c112109343313de584b5a2cdda911753aaf6",
        first_tip: "d67b989fb51e27433163a1e9972d010538adb787b6946648340d253381c473c5",
        side_tip: "ce8096a27a5532adaad55aee475441ad80961d178902fc81cae3faa674714d83",
    },
];

// Whether the file that is made is this one.
fn is_made(alloc: Global, wanted: &File) -> Result<bool, Fail> {
    if wanted.count == 0 || wanted.count > MOST_MADE {
        return Ok(false);
    }
    let made = make(alloc, wanted.count)?;
    let digest = hex::encode(alloc, sha256(made.file.as_slice()).0.as_slice())?;
    Ok(
        made.file.len() == wanted.size
            && digest.as_str() == wanted.digest
            && made.first_tip.shown().as_slice() == wanted.first_tip.as_bytes()
            && made.side_tip.shown().as_slice() == wanted.side_tip.as_bytes(),
    )
}

#[test]
fn makes_these_files(rt: HostRuntime) -> Result<(), Fail> {
    for file in &FILES {
        assert!(rt; is_made(rt.alloc(), file)?);
    }
    Ok(())
}
