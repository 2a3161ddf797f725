// Where the newest transaction with a txid stands.
ghost use Rattle.std.specs.Prelude.{◌≡◌, ◌<◌, ◌^◌, List, length, option_map, Some, if◌then◌else◌};
ghost use Rattle.std.specs.Option.{option_or};
ghost use Rattle.el_chain.specs.declared.coin.Coin as coin_shape;
ghost use Rattle.el_chain.specs.Faults.{IsGood};
ghost use Rattle.el_chain.specs.History.{Position, block_positions};
ghost use Rattle.el_model.specs.Queries as asked;
ghost use Rattle.el_plain.specs.within.Light.{IsLight};

use crate::txid::txid_of;
use el_base::{Hash32, compact_len};
use el_chain::{Placed, Spot};
use el_tx::sizes_of;

// The spot, where that is so, and else the one before.
fn spot_where(is: bool, spot: Spot, before: Option<Spot>) -> Option<Spot>
    ensures { result ≡ (if is then Some spot else before) }
{
    if is { Some(spot) } else { before }
}

// Where the last transaction of the block with that txid stands; where there is none, the given spot.
fn spot_in(height: u32, placed: &Placed, id: &Hash32, before: Option<Spot>) -> Option<Spot>
    requires { IsLight placed.now }
    ensures { (coins : List coin_shape.Coin) → result ≡ option_or
        (option_map (λ (p : Position). asked.spot_of p placed.now.place)
        (asked.newest id.now (block_positions height placed.now.block.txs coins))) before }
{
    let txs = placed.block.txs.as_slice();
    let mut found = before;
    let mut start = 80 + compact_len(txs.len() as u64) as u32;
    for (pos, tx) in txs.iter().enumerate() {
        let len = sizes_of(tx).full as u32;
        let spot = Spot {
            height,
            pos: pos as u32,
            place: placed.place,
            start,
            len,
        };
        found = spot_where(txid_of(tx) == *id, spot, found);
        start += len;
    }
    found
}

/// Where the newest transaction of the blocks with that txid, in inner order, stands; None exactly where
/// there is none. Takes no memory.
pub fn find_tx_in(blocks: &[Placed], id: &Hash32) -> Option<Spot>
    requires good { IsGood blocks.now }
    requires few { length blocks.now < 2 ^ 32 }
    ensures { result ≡ asked.find_tx blocks.now id.now }
{
    let mut found = None;
    for (height, placed) in blocks.iter().enumerate() {
        found = spot_in(height as u32, placed, id, found);
    }
    found
}
