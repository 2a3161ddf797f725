//! What a chain of Bitcoin's blocks, its coins and the history of a script hash (Electrum Protocol 1.4) mean:
//! `specs/` has the definitions.
#![tactic(auto)]

mod coin;
mod entry;
mod fault;
mod filling;
mod laws;
mod limits;
mod moves;
mod node;
mod placed;
mod read_fault;
mod reading;
mod touched;

pub use coin::Coin;
pub use entry::Entry;
pub use fault::ConnectFault;
pub use filling::{fill, zeros};
pub use laws::{
    chain_is_linked, coins_are_made_and_kept, file_gives_one_chain, listed_once,
    supply_rises_by_coinbases, unknown_has_no_history,
};
pub use limits::{
    MAX_BACK, MAX_BLOCKS, MAX_FORWARD, MAX_ROWS, MIN_BLOCK_SIZE, PREFIX_SIZE, row_limit,
};
pub use moves::{MoveFault, Moved, Plan};
pub use node::{Node, Spot};
pub use placed::Placed;
pub use read_fault::{ReadFault, ScanFault};
pub use reading::{compare_block, read_block, read_part};
pub use touched::Touched;
