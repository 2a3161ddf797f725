// The coins after blocks, computed anew.
ghost use Rattle.std.specs.Prelude.{◌≡◌, ◌≤◌, ◌++◌, ◌∷◌, [], length, IfOk, OnOk};
ghost use Rattle.el_chain.specs.RowCounts.{row_limit};
ghost use Rattle.el_chain.specs.Faults.{IsNext, IsGood};
ghost use Rattle.el_coins.specs.CoinLayers.{IsPlainChain};
ghost use Rattle.el_coins.specs.Drafts.{IsDrafted};

use crate::coins::{CoinTable, connect};
use crate::tally::Tally;
use el_base::OutOfMemory;
use el_chain::{ConnectFault, Placed};
use indexmap::IndexMap;
use std::alloc::Global;

// Connects a block that has no fault after those whose coins the table has.
fn connect_again(
    alloc: Global,
    none: &CoinTable,
    coins: &mut CoinTable,
    tally: &mut Tally,
    blocks: &[Placed],
    placed: &Placed,
) -> Result<(), OutOfMemory>
    requires drafted { IsDrafted none.now blocks.now coins.old tally.old }
    requires next { IsNext blocks.now placed.now.block }
    ensures { OnOk result (IsDrafted none.now (blocks.now ++ placed.now ∷ []) coins.new tally.new) }
{
    let txs = placed.block.txs.as_slice();
    match connect(alloc, none, coins, tally, blocks, &[], txs) {
        Ok(()) => Ok(()),
        Err(fault) => {
            let is_memory = matches!(fault, ConnectFault::Memory);
            prove!(is_memory);
            Err(OutOfMemory)
        }
    }
}

/// The coins after the blocks of a good chain, and the counts of their transactions, computed anew. Fails
/// only where memory runs out.
pub fn coins_anew(alloc: Global, blocks: &[Placed]) -> Result<(CoinTable, Tally), OutOfMemory>
    requires good { IsGood blocks.now }
    requires few { length blocks.now ≤ row_limit 1 }
    ensures { IfOk result (λ kept. IsPlainChain blocks.now kept.0 kept.1) }
{
    let none = CoinTable {
        map: IndexMap::new(alloc),
        supply: 0,
    };
    let mut coins = CoinTable {
        map: IndexMap::new(alloc),
        supply: 0,
    };
    let mut tally = Tally {
        txs: 0,
        outputs: 0,
        inputs: 0,
    };
    for (index, placed) in blocks.iter().enumerate() {
        connect_again(
            alloc,
            &none,
            &mut coins,
            &mut tally,
            &blocks[..index],
            placed,
        )?;
    }
    Ok((coins, tally))
}
