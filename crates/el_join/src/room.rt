// The room for a transaction.
ghost use Rattle.std.specs.Prelude.{◌≡◌, ◌≢◌, ◌≤◌, None, Some};
ghost use Rattle.el_tx.specs.Encoding.{total_value, max_money};
ghost use Rattle.el_join.specs.within.Tables.{room_by};

use el_kept::{Table, taken_by};
use el_mempool::{PoolFault, PoolLimits, Source};
use el_tx::TxOut;

// What the outputs hold together, in satoshi. Takes no memory.
fn given_by(outputs: &[TxOut]) -> u128
    ensures { result ≡ total_value outputs.now }
{
    let mut sum = 0u128;
    for output in outputs {
        sum += u128::from(output.value);
    }
    sum
}

/// The refusal of a transaction of that size, with these inputs and outputs: it holds more than it takes, or
/// there is no room for it. Takes no memory.
pub fn lack_of(
    table: &Table,
    limits: &PoolLimits,
    sources: &[Source],
    outputs: &[TxOut],
    size: usize,
) -> Option<PoolFault>
    requires { total_value outputs.now ≤ max_money }
    ensures first { result
        ≡ room_by limits.now table.now.count table.now.bytes sources.now outputs.now size }
    ensures other { result ≢ Some PoolFault.DiskFailed }
{
    let taken = taken_by(sources);
    let given = given_by(outputs);
    if taken < given {
        return Some(PoolFault::Overspends {
            taken: taken as u64,
            given: given as u64,
        });
    }
    let many = u128::from(table.count) + 1 > u128::from(limits.count);
    if many || u128::from(table.bytes) + size as u128 > u128::from(limits.bytes) {
        return Some(PoolFault::Full {
            count: table.count,
            bytes: table.bytes,
        });
    }
    None
}
