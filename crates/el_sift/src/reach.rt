// How far a move of the chain reaches, and which kept transactions it leaves as they were.
ghost use Rattle.std.specs.Prelude.{◌≡◌, true, MatchOption};
ghost use Rattle.std.specs.List.{list_any};
ghost use Rattle.el_sift.specs.within.Renewal as renewal;

use el_chain::Touched;
use el_mempool::{KeptTx, Source};

/// How far a move of the chain reaches, which a set of kept transactions stood for.
#[derive(Clone, Copy, Debug)]
pub struct Reach<'a> {
    /// How many blocks stay: the chains before and after the move begin with them.
    pub same: u64,
    /// The script hashes that it touched.
    pub touched: &'a Touched,
}

// Whether the input may take another thing than it took: what makes it is gone, or its script hash is
// touched. Takes no memory.
fn may_differ(source: &Source, gone: &Touched, touched: &Touched) -> bool
    ensures { result ≡ renewal.may_differ gone.now touched.now source.now }
{
    if gone.has(&source.from.txid) {
        return true;
    }
    touched.has(&source.held.script)
}

// Whether one of the inputs may. Takes no memory.
fn any_may_differ(inputs: &[Source], gone: &Touched, touched: &Touched) -> bool
    ensures { result ≡ list_any (renewal.may_differ gone.now touched.now) inputs.now }
{
    for source in inputs {
        if may_differ(source, gone, touched) {
            return true;
        }
    }
    false
}

// Whether the entry stays and takes what it took. Takes no memory.
fn is_untouched(entry: &KeptTx, gone: &Touched, confirmed: &Touched, touched: &Touched) -> bool
    ensures { result ≡ true → renewal.IsUntouched gone.now confirmed.now touched.now entry.now }
{
    if confirmed.has(&entry.txid) {
        return false;
    }
    !any_may_differ(entry.inputs.as_slice(), gone, touched)
}

/// Whether a move reaches no further than told, and leaves the entry as it was: its txid is none of the
/// confirmed ones, none of its inputs takes from one that is gone, and none a coin at a script hash that the
/// move touched. Takes no memory.
pub fn is_beyond(
    reach: Option<Reach<'_>>,
    entry: &KeptTx,
    gone: &Touched,
    confirmed: &Touched,
) -> bool
    ensures { result ≡ true → MatchOption reach.entry ⊥ (λ r.
        renewal.IsUntouched gone.now confirmed.now r.touched.now entry.now) }
{
    match reach {
        Some(reach) => is_untouched(entry, gone, confirmed, reach.touched),
        None => false,
    }
}
