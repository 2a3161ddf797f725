// Merkle trees: values from outside, as users see hashes. They were computed by another program.
ghost use Rattle.std.specs.Prelude.{◌≡◌, ◌<◌, length, IfOk};

use el_base::{Hash32, HexFault};
use el_merkle::{branch, climb, root, row};
use std::alloc::{AllocError, Global};
use std::test::Fail;

// The hashes of Bitcoin's blocks 0 to 2, of which 0 and 1 are in inner order
// 6fe28c0ab6f1b372c1a6a246ae63f74f931e8365e15a089c68d6190000000000 and
// 4860eb18bf1b1620e37e9490fc8a427514416fd75159ab86688e9a8300000000.
fn blocks() -> Result<[Hash32; 3], HexFault> {
    Ok([
        Hash32::from_shown(FIRST)?,
        Hash32::from_shown(SECOND)?,
        Hash32::from_shown(THIRD)?,
    ])
}

const FIRST: &str = "000000000019d6689c085ae165831e934ff763ae46a2a6c172b3f1b60a8ce26f";

const SECOND: &str = "00000000839a8e6886ab5951d76f411475428afc90947ee320161bbf18eb6048";

const THIRD: &str = "000000006a625f06636b8bb6ac7b960a8d03705d1ace08b1a19da3fdcc99ddbd";

// The first two joined, the third joined with itself, and these two joined.
const FIRST_TWO: &str = "abdc2227d02d114b77be15085c1257709252a7a103f9ac0ab3c85d67e12bc0b8";

const THIRD_TWICE: &str = "66e512a6e02cea83ac65cbdd907a2731e778b96b71839ff7b19836c433c5c92b";

const ALL_THREE: &str = "6ce668e2ec49dae449c0d55de7b1c973696c7d4a47024dbcb26ee99411244ff6";

const ROOT_40: &str = "80751fa6253b6fba98adce751b6c1538e232b673a2aff5fd45312c77fbcd13ad";

// Hashes of 32 bytes 0, of 32 bytes 1, and so on.
fn leaves(alloc: Global, count: u8) -> Result<Vec<Hash32>, AllocError>
    ensures { IfOk result (λ list. length list.items ≡ count) }
{
    (0..count).map(|byte| Hash32([byte; 32])).collect(alloc)
}

// The transactions of Bitcoin's block 100,000, and the root in its header.
const BLOCK_100000: [&str; 4] = [
    "8c14f0db3df150123e6f3dbbf30f8b955a8249b62ac1d1ff16284aefa3d06d87",
    "fff2525b8931402dd09222c50775608f75787bd2b87e56995a7bdd30f79702c4",
    "6359f0868171b1d194cbee1af2f16ea598ae8fad666d9b012c8ed2b79a236ec4",
    "e9a66845e05d5abc0ad04ec80f774a7e585c6e8db975962d069a522137b80c1d",
];

const ROOT_100000: &str = "f3e94742aca4b5ef85488dc37c06c3282295ffec960994b2c0d5ac2a25a95766";

// Whether these hashes have that root.
fn has_root(alloc: Global, hashes: &[Hash32], shown: &str) -> Result<bool, Fail>
    requires { 0 < length hashes.now }
{
    let wanted = Hash32::from_shown(shown)?;
    Ok(root(alloc, hashes)? == wanted)
}

#[test]
fn roots(rt: HostRuntime) -> Result<(), Fail> {
    let hashes = blocks()?;
    assert!(rt; has_root(rt.alloc(), &hashes[..1], FIRST)?);
    assert!(rt; has_root(rt.alloc(), &hashes[..2], FIRST_TWO)?);
    assert!(rt; has_root(rt.alloc(), &hashes, ALL_THREE)?);
    assert!(rt; has_root(rt.alloc(), &leaves(rt.alloc(), 40)?, ROOT_40)?);
    Ok(())
}

#[test]
fn the_root_of_a_block_of_bitcoin(rt: HostRuntime) -> Result<(), Fail> {
    let mut block = [Hash32([0; 32]); 4];
    for (at, shown) in BLOCK_100000.iter().enumerate() {
        block[at] = Hash32::from_shown(*shown)?;
    }
    assert!(rt; has_root(rt.alloc(), &block, ROOT_100000)?);
    Ok(())
}

#[test]
fn rows_above_three(rt: HostRuntime) -> Result<(), Fail> {
    let hashes = blocks()?;
    let below = row(rt.alloc(), 0, &hashes)?;
    assert!(rt; below.as_slice() == hashes.as_slice());
    let middle = [
        Hash32::from_shown(FIRST_TWO)?,
        Hash32::from_shown(THIRD_TWICE)?,
    ];
    assert!(rt; row(rt.alloc(), 1, &hashes)?.as_slice() == middle.as_slice());
    let top = [Hash32::from_shown(ALL_THREE)?];
    assert!(rt; row(rt.alloc(), 2, &hashes)?.as_slice() == top.as_slice());
    Ok(())
}

// Whether the branch of the hash at that place has these partners and that root, to which they lead.
fn has_branch(alloc: Global, hashes: &[Hash32], place: usize, wanted: &[&str]) -> Result<bool, Fail>
    requires { place < length hashes.now }
{
    let top = Hash32::from_shown(ALL_THREE)?;
    let (partners, found) = branch(alloc, hashes, place)?;
    let mut alike = found == top && partners.len() == wanted.len();
    for (partner, shown) in partners.iter().zip(wanted.iter()) {
        alike = alike && Hash32::from_shown(*shown) == Ok(*partner);
    }
    Ok(alike && climb(hashes[place], place as u64, &partners) == top)
}

#[test]
fn branches_of_three(rt: HostRuntime) -> Result<(), Fail> {
    let hashes = blocks()?;
    assert!(rt; has_branch(rt.alloc(), &hashes, 0, &[SECOND, THIRD_TWICE])?);
    assert!(rt; has_branch(rt.alloc(), &hashes, 1, &[FIRST, THIRD_TWICE])?);
    assert!(rt; has_branch(rt.alloc(), &hashes, 2, &[THIRD, FIRST_TWO])?);
    Ok(())
}

#[test]
fn a_branch_of_one(rt: HostRuntime) -> Result<(), Fail> {
    let [first, _, _] = blocks()?;
    let (partners, top) = branch(rt.alloc(), &[first], 0)?;
    assert!(rt; partners.is_empty() && top == first);
    Ok(())
}
