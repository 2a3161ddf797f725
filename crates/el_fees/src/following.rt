// Sums of sizes that follow changes.
ghost use Rattle.std.specs.Prelude.{◌≡◌, ◌<◌, ◌*◌, nat_le, ℕ, slice_index, sum_by};
ghost use Rattle.el_mempool.specs.Fees as fees;
ghost use Rattle.el_mempool.specs.declared.fees.TheConstants.{FEE_EDGES, FEE_EDGE_COUNT};
ghost use Rattle.el_fees.specs.within.Sums.{added_at, removed_at, AreSums, IsBalanced};

use el_mempool::{FEE_EDGE_COUNT, FEE_EDGES, FeeChange};

// Whether the edge times the size is at most the fee.
fn is_reached(edge: u64, fee: u64, vsize: u64) -> bool
    ensures { result ≡ nat_le (edge * vsize) fee }
{
    u128::from(edge) * u128::from(vsize) <= u128::from(fee)
}

// The first of the edges that times the size is at most the fee.
fn edge_among(edges: &[u64], fee: u64, vsize: u64) -> u64
    ensures { result ≡ fees.edge_among edges.now fee vsize }
{
    for edge in edges {
        if is_reached(*edge, fee, vsize) {
            return *edge;
        }
    }
    0
}

// The greatest edge that times the size is at most the fee.
#[tactic(auto, unfolding(el_mempool::specs::Fees::edge_of))]
fn edge_of(fee: u64, vsize: u64) -> u64
    ensures { result ≡ fees.edge_of fee vsize }
{
    edge_among(FEE_EDGES.as_slice(), fee, vsize)
}

// The sum of an edge after the change, whose own edge is told. 64 bits count it in a circle, so that the
// order of changes is all one.
fn sum_after(edge: u64, own: u64, sum: u64, change: &FeeChange) -> u64
    requires { own ≡ fees.edge_of change.now.fee change.now.vsize }
    ensures { IsBalanced sum result (added_at edge change.now) (removed_at edge change.now) }
{
    if edge != own {
        sum
    } else if change.added {
        sum.wrapping_add(change.vsize)
    } else {
        sum.wrapping_sub(change.vsize)
    }
}

// The sums after the change.
fn follow_one(sizes: &mut [u64; FEE_EDGE_COUNT], change: &FeeChange)
    ensures small { AreSums sizes.new }
    ensures balanced { (k : ℕ) → k < FEE_EDGE_COUNT
        → IsBalanced (slice_index sizes.old k) (slice_index sizes.new k)
        (added_at (slice_index FEE_EDGES k) change.now) (removed_at (slice_index FEE_EDGES k) change.now) }
{
    let own = edge_of(change.fee, change.vsize);
    for i in 0..FEE_EDGE_COUNT {
        sizes[i] = sum_after(FEE_EDGES[i], own, sizes[i], change);
    }
}

/// The sums, one for each edge, after all changes. Takes no memory.
pub fn follow_all(sizes: &mut [u64; FEE_EDGE_COUNT], changes: &[FeeChange])
    requires { AreSums sizes.old }
    ensures small { AreSums sizes.new }
    ensures balanced { (k : ℕ) → k < FEE_EDGE_COUNT
        → IsBalanced (slice_index sizes.old k) (slice_index sizes.new k)
        (sum_by (added_at (slice_index FEE_EDGES k)) changes.now)
        (sum_by (removed_at (slice_index FEE_EDGES k)) changes.now) }
{
    for change in changes {
        follow_one(sizes, change);
    }
}
