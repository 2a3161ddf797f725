// Sums of what inputs take and outputs hold.
ghost use Rattle.std.specs.Prelude.{◌≡◌, ◌-◌, IfOk};
ghost use Rattle.el_mempool.specs.Sift.{total_held};
ghost use Rattle.el_kept.specs.Named.{total_sources};

use el_base::OutOfMemory;
use el_mempool::{Held, Source};

/// What the inputs take together, in satoshi. Takes no memory.
pub fn taken_by(sources: &[Source]) -> u128
    ensures { result ≡ total_sources sources.now }
{
    let mut sum = 0u128;
    for source in sources {
        sum += u128::from(source.held.value);
    }
    sum
}

/// What the outputs hold together, in satoshi. Takes no memory.
pub fn held_in(outputs: &[Held]) -> u128
    ensures { result ≡ total_held outputs.now }
{
    let mut sum = 0u128;
    for held in outputs {
        sum += u128::from(held.value);
    }
    sum
}

/// What the inputs take less what the outputs hold, in satoshi. No chain's coins hold more together than 64
/// bits can count; where they did, there is no memory for them.
pub fn fee_of(inputs: &[Source], outputs: &[Held]) -> Result<u64, OutOfMemory>
    ensures { IfOk result (λ fee. fee ≡ total_sources inputs.now - total_held outputs.now) }
{
    match u64::try_from(taken_by(inputs).saturating_sub(held_in(outputs))) {
        Ok(fee) => Ok(fee),
        Err(_) => Err(OutOfMemory),
    }
}
