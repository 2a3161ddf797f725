// Which transaction took the coin of an output.
ghost use Rattle.std.specs.Prelude.{◌≡◌, ◌<◌, ◌^◌, ℕ, List, length, fold};
ghost use Rattle.std.specs.List.{AllByRecursion};
ghost use Rattle.el_tx.specs.declared.types.TxIn as input_shape;
ghost use Rattle.el_tx.specs.Hashing.{same_outpoint};
ghost use Rattle.std.specs.List.{list_any};
ghost use Rattle.el_chain.specs.Coins.{is_coin_of};
ghost use Rattle.el_chain.specs.CoinLaws.{takes, coins_made};
ghost use Rattle.el_chain.specs.declared.coin.Coin as coin_shape;
ghost use Rattle.el_chain.specs.History.{Position, positions_in};
ghost use Rattle.el_model.specs.Queries as asked;

use crate::txid::txid_of;
use el_base::Hash32;
use el_chain::{Entry, Placed};
use el_tx::{Outpoint, Tx, TxIn, TxOut, is_coinbase};

// Whether the outpoint is one of these outputs, of a transaction with that txid.
fn is_made(txid: Hash32, outputs: &[TxOut], o: &Outpoint) -> bool
    ensures { (height : ℕ) → result
        ≡ list_any (is_coin_of o.now) (coins_made txid height 0 outputs.now) }
{
    txid == o.txid && (o.index as usize) < outputs.len()
}

// Whether one of the inputs names the outpoint.
fn names(inputs: &[TxIn], o: &Outpoint) -> bool
    ensures { result ≡ list_any (λ (i : input_shape.TxIn). same_outpoint o.now i.from) inputs.now }
{
    inputs.iter().any(|input| *o == input.from)
}

// Whether the transaction takes the coin of the outpoint; a coinbase takes none.
fn is_taking(tx: &Tx, o: &Outpoint) -> bool
    ensures { result ≡ takes o.now tx.now }
{
    !is_coinbase(tx) && names(tx.inputs.as_slice(), o)
}

// Who took the newest coin of the outpoint, after one more transaction.
fn spender_after(height: u32, tx: &Tx, o: &Outpoint, before: Option<Entry>) -> Option<Entry>
    ensures { (p : Position) → p.tx ≡ tx.now → p.height ≡ height
        → result ≡ asked.taken_after o.now before p }
{
    let txid = txid_of(tx);
    if is_made(txid, tx.outputs.as_slice(), o) {
        return None;
    }
    if is_taking(tx, o) {
        return Some(Entry { height, txid });
    }
    before
}

// Who did after the transactions of one more block.
fn spender_in(height: u32, txs: &[Tx], o: &Outpoint, before: Option<Entry>) -> Option<Entry>
    ensures { (pos start : ℕ) (coins : List coin_shape.Coin) → result
        ≡ fold (asked.taken_after o.now) before (positions_in height pos start txs.now coins) }
{
    let mut found = before;
    for tx in txs {
        found = spender_after(height, tx, o, found);
    }
    found
}

/// The transaction of the blocks that took the coin of the newest output with that outpoint; None exactly
/// where there is none. Takes no memory.
pub fn spender_of(blocks: &[Placed], o: &Outpoint) -> Option<Entry>
    requires { length blocks.now < 2 ^ 32 }
    ensures { result ≡ asked.spender blocks.now o.now }
{
    let mut found = None;
    for (height, placed) in blocks.iter().enumerate() {
        found = spender_in(height as u32, placed.block.txs.as_slice(), o, found);
    }
    found
}
