// What an outpoint names, of the chain and of the kept ones.
ghost use Rattle.std.specs.Prelude.{◌≡◌, IfOk, IfSome, ◌||◌, pos, negsuc, if◌then◌else◌};
ghost use Rattle.std.specs.Option.{is_some};
ghost use Rattle.el_outside.specs.Counts.{HasCause};
ghost use Rattle.el_chain.specs.Chains.{Chain};
ghost use Rattle.el_model.specs.LedgerCalls.{Asked};
ghost use Rattle.el_mempool.specs.Sift as spec;
ghost use Rattle.el_kept.specs.Named.{found_by};

use el_mempool::{Held, Source};
use el_model::Ledger;
use el_outside::DiskFailed;
use el_tx::Outpoint;

/// What an outpoint names.
#[derive(Clone, Copy, Debug, PartialEq, Eq)]
pub struct FoundOutput {
    /// What it holds.
    pub held: Held,
    /// Whether a kept transaction makes it.
    pub is_kept: bool,
}

/// What the inputs of a transaction take.
#[derive(Debug, Drop)]
pub struct Taken {
    /// Each with its outpoint, in order.
    pub sources: Vec<Source>,
    /// -1 where one of them takes an output of a kept transaction, else 0.
    pub flag: i8,
}

/// What an outpoint names: this output of a kept transaction, or else a coin of the ledger's chain. A kept
/// transaction isn't in the chain, so its outputs are no coins there.
pub fn output_or_coin<G: Ledger>(
    output: Option<Held>,
    ledger: &mut G,
    outpoint: &Outpoint,
) -> Result<Option<FoundOutput>, DiskFailed>
    requires live { G.is_live ledger.old }
    ensures found { (chain : Chain) → G.stands ledger.old chain
        → IfOk result (λ found. found ≡ found_by output (spec.coin_named chain outpoint.now)) }
    ensures kept { IfOk result (λ found. IfSome found (λ n. n.is_kept ≡ is_some output)) }
    ensures quiet { Asked ⟦<G as Ledger>⟧ ledger.old ledger.new }
    ensures cause { HasCause (G.faults ledger.old) (G.faults ledger.new) result }
{
    if let Some(held) = output {
        return Ok(Some(FoundOutput {
            held,
            is_kept: true,
        }));
    }
    match ledger.coin(outpoint)? {
        Some(coin) => Ok(Some(FoundOutput {
            held: Held {
                value: coin.value,
                script: coin.script,
            },
            is_kept: false,
        })),
        None => Ok(None),
    }
}

/// Whether it was so, or is so of one more. Takes no memory.
pub fn any_with(any: bool, one: bool) -> bool
    ensures { result ≡ (any || one) }
{
    any || one
}

/// -1 where any input takes an output of a kept transaction, else 0. Takes no memory.
pub fn flag_of(any: bool) -> i8
    ensures { result ≡ (if any then negsuc 0 else pos 0) }
{
    if any { -1 } else { 0 }
}
