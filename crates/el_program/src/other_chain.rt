// Whether the block files are those of another chain than the index's.
ghost use Rattle.std.specs.Prelude.{◌≡◌};
ghost use Rattle.std.specs.List.{list_any};
ghost use Rattle.el_chain.specs.Headers as headers;
ghost use Rattle.el_program.specs.OtherChain as other;

use el_base::Hash32;
use el_chain::Node;

// What a first block names as the block before it.
const NO_BLOCK: Hash32 = Hash32([0; 32]);

// Whether the node names no block before it.
fn names_none(n: &Node) -> bool
    ensures { result ≡ headers.names_none n.now }
{
    n.header.previous == NO_BLOCK
}

// Whether the node names no block before it, and has this hash.
fn is_genesis(h: &Hash32, n: &Node) -> bool
    ensures { result ≡ other.is_genesis h.now n.now }
{
    names_none(n) && n.hash == *h
}

// Whether one of the nodes names no block before it.
fn has_first(found: &[Node]) -> bool
    ensures { result ≡ list_any headers.names_none found.now }
{
    found.iter().any(|n| names_none(n))
}

// Whether one of the nodes names no block before it, and has this hash.
fn has_genesis(h: &Hash32, found: &[Node]) -> bool
    ensures { result ≡ list_any (other.is_genesis h.now) found.now }
{
    found.iter().any(|n| is_genesis(h, n))
}

/// Whether the index, whose headers come first, isn't empty, and the block files have a first block, but not
/// the index's.
pub fn is_other_chain(index: &[Node], found: &[Node]) -> bool
    ensures { result ≡ other.is_other_chain index.now found.now }
{
    match index {
        [] => false,
        [first, ..] => has_first(found) && !has_genesis(&first.hash, found),
    }
}
