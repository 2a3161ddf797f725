// The rows of an index are those of its chain, however it came there.
ghost use Rattle.std.specs.Prelude.{◌≡◌};
ghost use Rattle.el_chain.specs.Chains.{Chain};
ghost use Rattle.el_rows.specs.Reads.{Same};

use el_index::Index;
use el_model::Ledger;
use el_rows::Rows;

/// The rows of two indexes that stand for one chain and have as many buckets, as where one made any list of
/// moves, back and forth, and the other had the chain's blocks put in from nothing: they are equal, byte for
/// byte, with all states, links, burials, balances and sums.
pub fn rows_of_two_indexes<R: Rows, S: Rows>(moved: Index<R>, built: Index<S>) -> (R, S)
    ensures exact { (chain : Chain) → ⟦<Index<R> as Ledger>⟧.stands moved chain
        → ⟦<Index<S> as Ledger>⟧.stands built chain
        → ⟦<Index<R> as Ledger>⟧.buckets moved ≡ ⟦<Index<S> as Ledger>⟧.buckets built
        → Same (R.lists result.0) (S.lists result.1) }
{
    (moved.into_rows(), built.into_rows())
}
