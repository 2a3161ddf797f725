// The headers of the index's chain.
ghost use Rattle.std.specs.Prelude.{◌≡◌, ◌≤◌, ◌+◌, ◌*◌, ◌^◌, IfOk, MatchOption, Some, slice_get};
ghost use Rattle.std.specs.List.{AllByRecursion};
ghost use Rattle.el_outside.specs.Counts.{HasCause, CountsOnly};
ghost use Rattle.el_tx.specs.Headers.{IsHeader, header_encoding};
ghost use Rattle.el_tx.specs.declared.types.Header as shape;
ghost use Rattle.el_block.specs.Blocks as blocks;
ghost use Rattle.el_chain.specs.Chains.{Chain};
ghost use Rattle.el_chain.specs.Records.{IsNode};
ghost use Rattle.el_model.specs.LedgerCalls.{Asked};
ghost use Rattle.el_model.specs.Queries.{blocks_in};
ghost use Rattle.el_program.specs.Opened.{nodes_of_chain};

use el_chain::Node;
use el_model::{Ledger, QueryFault};
use el_outside::{DiskFailed, Place};
use el_tx::{block_hash, decode_header};
use std::alloc::Global;

// What is known of a block with this header, whose record stands at the place.
fn node_with(header: &[u8; 80], place: Place) -> Node
    ensures is { (h : shape.Header) → IsHeader h → header.now ≡ header_encoding h
        → result ≡ record { hash = blocks.block_hash h; header = h; place = place } }
    ensures node { IsNode result }
{
    Node {
        hash: block_hash(header),
        header: decode_header(header),
        place,
    }
}

// What is known of the block of that height.
fn node_of<G: Ledger>(ledger: &mut G, h: u32) -> Result<Node, DiskFailed>
    requires live { G.is_live ledger.old }
    requires within { MatchOption (G.height ledger.old) ⊥ (λ top. h ≤ top) }
    ensures of_chain { (chain : Chain) → G.stands ledger.old chain
        → IfOk result (λ n. slice_get (nodes_of_chain chain) h ≡ Some n) }
    ensures node { IfOk result IsNode }
    ensures rows { G.reads ledger.new ≤ G.reads ledger.old + 2 }
    ensures quiet { Asked ⟦<G as Ledger>⟧ ledger.old ledger.new }
    ensures cause { HasCause (G.faults ledger.old) (G.faults ledger.new) result }
{
    let header = ledger.header(h)?;
    let place = ledger.place(h)?;
    Ok(node_with(&header, place))
}

// How many blocks the ledger has.
fn count_of<G: Ledger>(ledger: &G) -> usize
    ensures blocks { result ≡ blocks_in (G.height ledger.now) }
    ensures few { result ≤ 2 ^ 32 }
{
    match ledger.height() {
        None => 0,
        Some(top) => top as usize + 1,
    }
}

/// What is known of the blocks of the ledger's chain, in their order.
pub fn nodes_of<G: Ledger>(alloc: Global, ledger: &mut G) -> Result<Vec<Node>, QueryFault>
    requires live { G.is_live ledger.old }
    ensures of_chain { (chain : Chain) → G.stands ledger.old chain
        → IfOk result (λ found. found.items ≡ nodes_of_chain chain) }
    ensures nodes { IfOk result (λ found. AllByRecursion IsNode found.items) }
    // Two rows are read for a block.
    ensures rows { G.reads ledger.new ≤ G.reads ledger.old + 2 * blocks_in (G.height ledger.old) }
    ensures quiet { Asked ⟦<G as Ledger>⟧ ledger.old ledger.new }
    ensures cause { CountsOnly (G.faults ledger.old) (G.faults ledger.new) QueryFault.DiskFailed result }
{
    let count = count_of(ledger);
    let mut nodes = Vec::new(alloc);
    for h in 0..count {
        let node = node_of(ledger, h as u32)?;
        nodes.push(node)?;
    }
    Ok(nodes)
}
