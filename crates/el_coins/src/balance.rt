// What the coins of a script hash hold.
ghost use Rattle.std.specs.Prelude.{◌≡◌, ◌+◌, ◌≤◌, ◌<◌, ◌^◌, List, filter};
ghost use Rattle.std.specs.Str.{bytes_eq};
ghost use Rattle.el_tx.specs.Encoding.{max_money};
ghost use Rattle.el_chain.specs.declared.coin.Coin as coin_shape;
ghost use Rattle.el_chain.specs.Coins.{supply};
ghost use Rattle.el_coins.specs.CoinTables.{coin_by, CoinsStandFor};
ghost use Rattle.el_coins.specs.within.Balances.{own_value};

use crate::coins::CoinTable;
use el_base::Hash32;
use el_chain::Coin;

// What the coin holds, where it has the script hash.
fn value_for(coin: &Option<Coin>, script_hash: &Hash32) -> u64
    ensures { result ≡ own_value script_hash.now.0 coin.now }
{
    match coin {
        Some(coin) => {
            if coin.script.0 == script_hash.0 {
                coin.value
            } else {
                0
            }
        }
        None => 0,
    }
}

/// What the coins of the script hash, in inner order, hold together, in satoshi. Takes no memory.
pub fn balance_of(table: &CoinTable, script_hash: &Hash32) -> u64
    requires money { table.now.supply ≤ max_money }
    requires stands { (coins : List coin_shape.Coin) × CoinsStandFor
        (coin_by table.now.map) table.now.supply coins }
    ensures { (coins : List coin_shape.Coin) → CoinsStandFor (coin_by table.now.map) table.now.supply coins
        → result ≡ supply (filter (λ (c : coin_shape.Coin). bytes_eq c.script.0 script_hash.now.0) coins) }
{
    // The length says that no outpoint stands twice.
    let _len = table.map.len();
    let mut total = 0u64;
    for coin in table.map.values() {
        total += value_for(coin, script_hash);
    }
    total
}
