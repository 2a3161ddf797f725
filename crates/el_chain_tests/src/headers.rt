// The header tree: whole headers as Bitcoin's nodes serialize them, with the answers of each call, which
// another program made.
ghost use Rattle.std.specs.Prelude.{IfOk};
ghost use Rattle.el_chain.specs.Records.{IsNode};

use el_base::Hash32;
use el_chain::Node;
use el_gen::{BLOCK_1_HASH, GENESIS_HASH, HEADER_0, HEADER_1};
use el_headers::{Added, HeaderTree, PathFault};
use el_outside::Place;
use el_tx::{block_hash, decode_header};
use std::alloc::Global;
use std::test::Fail;

// A genesis, a branch of three, and a side branch of two that leaves it after its first node.
const ROOT: &str =
    "0100000000000000000000000000000000000000000000000000000000000000000000000101010101010101010101010101\
     010101010101010101010101010101010101016d7c4dffff7f2001000000";

const LEFT_1: &str =
    "01000000a481b5fa90362ac9c5a2b4953d4e09dcaaeb8d3bb81322dd6a41880b74a563600202020202020202020202020202\
     020202020202020202020202020202020202026d7c4dffff7f2002000000";

const LEFT_2: &str =
    "0100000065aa397e7b7bf9a6b8bfa76f8236725cc76d0ce05c9b41c831ef0173c9bfc8b70303030303030303030303030303\
     030303030303030303030303030303030303036d7c4dffff7f2003000000";

const LEFT_3: &str =
    "010000009a010c329e95b58e7b48fb40a2ec87e58b903717b615fc9b065895fb180463190404040404040404040404040404\
     040404040404040404040404040404040404046d7c4dffff7f2004000000";

const RIGHT_2: &str =
    "0100000065aa397e7b7bf9a6b8bfa76f8236725cc76d0ce05c9b41c831ef0173c9bfc8b70505050505050505050505050505\
     050505050505050505050505050505050505056d7c4dffff7f2005000000";

const RIGHT_3: &str =
    "01000000a89b347cae0ac531d56bcd1a6133c8890f546bbac2bdfc2b6f2371b491ba79340606060606060606060606060606\
     060606060606060606060606060606060606066d7c4dffff7f2006000000";

// Another header that names no block before it.
const SECOND_GENESIS: &str =
    "0100000000000000000000000000000000000000000000000000000000000000000000000707070707070707070707070707\
     070707070707070707070707070707070707076d7c4dffff7f2007000000";

// The genesis, the three of the one branch, then the two of the other.
const HEADERS: &[&str] = &[ROOT, LEFT_1, LEFT_2, LEFT_3, RIGHT_2, RIGHT_3];

// The header with this number.
fn text_of(number: u8) -> &'static str {
    match HEADERS.get(number as usize) {
        Some(text) => *text,
        None => "",
    }
}

// A node with this header, whose record stands at the offset of the first file.
fn node_of(text: &str, offset: u64) -> Result<Node, Fail>
    ensures { IfOk result IsNode }
{
    let mut bytes = [0u8; 80];
    hex::decode_to_slice(text, &mut bytes)?;
    Ok(Node {
        hash: block_hash(&bytes),
        header: decode_header(&bytes),
        place: Place {
            file: 0,
            offset,
            len: 285,
        },
    })
}

// The nodes with the headers of these numbers.
fn nodes_of(alloc: Global, numbers: &[u8]) -> Result<Vec<Node>, Fail> {
    let mut nodes = Vec::new(alloc);
    for number in numbers {
        nodes.push(node_of(text_of(*number), 0)?)?;
    }
    Ok(nodes)
}

// What a header is told where it waits, in place of its height.
const WAITS: u64 = 9;

// What a header is told that stands at the offset.
fn added(tree: &mut HeaderTree, text: &str, offset: u64) -> Result<Added, Fail> {
    Ok(tree.add(node_of(text, offset)?)?)
}

// Whether the headers of the order are told these heights, one after the other.
fn are_told(tree: &mut HeaderTree, order: &[u8], heights: &[u64]) -> Result<bool, Fail> {
    for (number, wanted) in order.iter().zip(heights.iter()) {
        let told = match added(tree, text_of(*number), 0)? {
            Added::Attached { height } => height,
            Added::Waiting => WAITS,
            _ => return Err(Fail::new("the header was not kept")),
        };
        if told != *wanted {
            return Ok(false);
        }
    }
    Ok(true)
}

// The numbers of the headers on the path to each header.
const PATHS: &[&[u8]] = &[
    &[0],
    &[0, 1],
    &[0, 1, 2],
    &[0, 1, 2, 3],
    &[0, 1, 4],
    &[0, 1, 4, 5],
];

// Whether the path to the last of these nodes has them all.
fn has_path(alloc: Global, tree: &HeaderTree, path: &[Node]) -> Result<bool, Fail> {
    match path.last() {
        Some(node) => Ok(tree.path(alloc, node.hash)?.as_slice() == path),
        None => Ok(false),
    }
}

// Whether each header has its path.
fn has_paths(alloc: Global, tree: &HeaderTree) -> Result<bool, Fail> {
    for numbers in PATHS {
        let path = nodes_of(alloc, *numbers)?;
        if !has_path(alloc, tree, path.as_slice())? {
            return Ok(false);
        }
    }
    Ok(true)
}

// Whether a tree tells these heights where the headers are added in that order, and then has all paths.
fn attaches(alloc: Global, order: &[u8], heights: &[u64]) -> Result<bool, Fail> {
    let mut tree = HeaderTree::new(alloc);
    Ok(are_told(&mut tree, order, heights)? && has_paths(alloc, &tree)?)
}

// Orders of the headers, each with the heights that are told.
const ORDERS: &[([u8; 6], [u64; 6])] = &[
    ([0, 1, 2, 3, 4, 5], [0, 1, 2, 3, 2, 3]),
    ([5, 4, 3, 2, 1, 0], [9, 9, 9, 9, 9, 0]),
    ([1, 2, 3, 4, 5, 0], [9, 9, 9, 9, 9, 0]),
    ([3, 2, 1, 5, 4, 0], [9, 9, 9, 9, 9, 0]),
    ([0, 5, 3, 4, 2, 1], [0, 9, 9, 9, 9, 1]),
    ([2, 0, 4, 1, 3, 5], [9, 0, 9, 1, 3, 3]),
    ([4, 5, 0, 3, 2, 1], [9, 9, 0, 9, 9, 1]),
    ([3, 5, 1, 0, 2, 4], [9, 9, 9, 0, 2, 2]),
    ([5, 0, 1, 4, 2, 3], [9, 0, 1, 2, 2, 3]),
    ([2, 4, 1, 3, 5, 0], [9, 9, 9, 9, 9, 0]),
];

#[test]
fn attaches_in_any_order(rt: HostRuntime) -> Result<(), Fail> {
    for (number, (order, heights)) in ORDERS.iter().enumerate() {
        assert!(rt;
            attaches(rt.alloc(), order.as_slice(), heights.as_slice())?,
            "in order {number}"
        );
    }
    Ok(())
}

// What headers at these offsets are told, one after the other.
const ANSWERS: &[(&str, u64, Added)] = &[
    (LEFT_1, 7, Added::Waiting),
    (LEFT_1, 9, Added::Known),
    (ROOT, 8, Added::Attached { height: 0 }),
    (SECOND_GENESIS, 9, Added::SecondGenesis),
    (ROOT, 9, Added::Known),
    (SECOND_GENESIS, 9, Added::SecondGenesis),
];

// The first of the headers, counted from 0, that is told something else.
fn told_otherwise(tree: &mut HeaderTree) -> Result<Option<usize>, Fail> {
    for (number, (text, offset, answer)) in ANSWERS.iter().enumerate() {
        if added(tree, *text, *offset)? != *answer {
            return Ok(Some(number));
        }
    }
    Ok(None)
}

// Whether the genesis and the path are those of the headers that came first.
fn has_the_first(alloc: Global, tree: &HeaderTree) -> Result<bool, Fail> {
    let path = [node_of(ROOT, 8)?, node_of(LEFT_1, 7)?];
    Ok(tree.genesis() == Some(path[0].hash) && has_path(alloc, tree, path.as_slice())?)
}

// Whether a tree has no genesis at first; the first header that is told something else; and whether the tree
// then has those that came first.
fn adds_again(alloc: Global) -> Result<(bool, Option<usize>, bool), Fail> {
    let mut tree = HeaderTree::new(alloc);
    let is_empty = tree.genesis() == None;
    let otherwise = told_otherwise(&mut tree)?;
    Ok((is_empty, otherwise, has_the_first(alloc, &tree)?))
}

#[test]
fn keeps_the_first(rt: HostRuntime) -> Result<(), Fail> {
    assert_eq!(rt; adds_again(rt.alloc())?, (true, None, true));
    Ok(())
}

// How long the path to the header is, or why none leads there.
fn path_of(alloc: Global, tree: &HeaderTree, text: &str) -> Result<Result<usize, PathFault>, Fail> {
    let node = node_of(text, 0)?;
    match tree.path(alloc, node.hash) {
        Ok(path) => Ok(Ok(path.len())),
        Err(fault) => Ok(Err(fault)),
    }
}

// Whether the header has that hash.
fn has_hash(text: &str, shown: &str) -> Result<bool, Fail> {
    let node = node_of(text, 0)?;
    Ok(Hash32::from_shown(shown) == Ok(node.hash))
}

#[test]
fn hashes_headers(rt: HostRuntime) -> Result<(), Fail> {
    assert!(rt; has_hash(HEADER_0, GENESIS_HASH)?);
    assert!(rt; has_hash(HEADER_1, BLOCK_1_HASH)?);
    Ok(())
}

// Whether that is what the paths to the first two headers are.
fn has_lengths(
    alloc: Global,
    tree: &HeaderTree,
    lengths: [Result<usize, PathFault>; 2],
) -> Result<bool, Fail> {
    let [first, second] = lengths;
    Ok(path_of(alloc, tree, HEADER_0)? == first && path_of(alloc, tree, HEADER_1)? == second)
}

// Whether the second header waits, and no path leads to it.
fn waits(alloc: Global, tree: &mut HeaderTree) -> Result<bool, Fail> {
    let lengths = [Err(PathFault::Unknown), Err(PathFault::Unconnected)];
    Ok(added(tree, HEADER_1, 0)? == Added::Waiting && has_lengths(alloc, tree, lengths)?)
}

// Whether the first header is then attached, and both have their paths.
fn is_attached(alloc: Global, tree: &mut HeaderTree) -> Result<bool, Fail> {
    let attached = added(tree, HEADER_0, 0)? == Added::Attached { height: 0 };
    Ok(attached && has_lengths(alloc, tree, [Ok(1), Ok(2)])?)
}

fn tells_why(alloc: Global) -> Result<(bool, bool), Fail> {
    let mut tree = HeaderTree::new(alloc);
    let waits = waits(alloc, &mut tree)?;
    Ok((waits, is_attached(alloc, &mut tree)?))
}

#[test]
fn tells_why_no_path(rt: HostRuntime) -> Result<(), Fail> {
    assert_eq!(rt; tells_why(rt.alloc())?, (true, true));
    Ok(())
}
