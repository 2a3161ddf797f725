//! What the rows of an index answer: the history, the coins and the balance of a script hash; blocks,
//! transactions and outputs by height, txid and outpoint; and which script hashes the last blocks touch.
//! Each call changes nothing. Over rows that stand for no chain each call returns too: a number that isn't
//! below its table's count names nothing.
#![tactic(auto)]

mod balances;
mod blocks;
mod buried;
mod coins;
mod entries;
mod histories;
mod laws;
mod outputs;
mod script;
mod touching;
mod transactions;

pub use balances::balance;
pub use blocks::{block_txids, hashes, header, place};
pub use coins::unspent;
pub use histories::history;
pub use laws::{
    each_block_touches_what_the_move_touches, entries_are_counted_by_the_history,
    scripts_of_lists_are_those_of_outputs,
};
pub use outputs::{coin, spender};
pub use touching::{touch_blocks, touch_last};
pub use transactions::find_tx;
