// What comes next over a link in memory.
ghost use Rattle.std.specs.Prelude.{◌≡◌, ◌+◌, ◌-◌, ◌<◌, ◌≤◌, ◌^◌, length, IfSome, is_none};
ghost use Rattle.el_outside.specs.Trace.{with_bytes};
ghost use Rattle.el_fakes.specs.Coming.{is_unlawful, hand_first};
ghost use Rattle.el_fakes.specs.within.Peers.{closed_in};
ghost use Rattle.el_fakes.specs.within.Taking.{MayBeHanded, IsPiece, IsHanded, taken_whole, step_left, steps_from};

use crate::coming::Coming;
use crate::fronts::fill;
use crate::kept::Closed;
use crate::peers::is_closed;
use el_outside::{Arrival, BUFFER_SIZE, Peer};

// Where a link in memory stands: the place of the step that comes next, and how many of its bytes were handed
// over.
#[derive(Clone, Copy, Drop)]
pub(crate) struct Spot {
    pub(crate) place: usize,
    pub(crate) given: usize,
}

// An arrival, and where the link stands after it.
#[derive(Clone, Copy, Drop)]
pub(crate) struct Taken {
    pub(crate) arrival: Arrival,
    pub(crate) spot: Spot,
}

// The arrival, after the whole step at the spot.
fn past(arrival: Arrival, spot: Spot) -> Taken
    requires { spot.place < 2 ^ 64 - 1 }
    ensures { result ≡ taken_whole arrival spot }
{
    let place = spot.place + 1;
    Taken {
        arrival,
        spot: Spot { place, given: 0 },
    }
}

// The next piece of a peer's bytes: as many as the buffer holds.
fn piece(p: Peer, bytes: &[u8], spot: Spot, buf: &mut [u8]) -> Taken
    requires buffer { length buf.old ≡ BUFFER_SIZE }
    requires place { spot.place < 2 ^ 64 - 1 }
    requires some { spot.given < length bytes.now }
    ensures { IsPiece p bytes.now spot result buf.new }
{
    let n = fill(bytes, spot.given as u64, buf);
    let arrival = Arrival::Bytes(p, n);
    if n >= bytes.len() - spot.given {
        return past(arrival, spot);
    }
    Taken {
        arrival,
        spot: Spot {
            place: spot.place,
            given: spot.given + n,
        },
    }
}

// The step at the spot as an arrival, or None where it is passed over.
fn hand(step: &Coming, spot: Spot, last: Peer, closed: &[Closed], buf: &mut [u8]) -> Option<Taken>
    requires buffer { length buf.old ≡ BUFFER_SIZE }
    requires place { spot.place < 2 ^ 64 - 1 }
    ensures taken { IfSome result (λ taken. MayBeHanded taken spot.place last closed.now buf.new) }
    ensures within { IfSome result (λ taken. taken.spot.place ≤ spot.place + 1) }
    ensures handed { IfSome result (λ taken. IsHanded step.now spot taken buf.new) }
    ensures passed { is_none result
        ≡ is_unlawful last (closed_in closed.now) (step_left spot.given step.now) }
{
    match step {
        Coming::Opened(p) if last < *p => Some(past(Arrival::Opened(*p), spot)),
        Coming::Bytes(p, bytes) if spot.given < bytes.len() && !is_closed(closed, *p) => {
            Some(piece(*p, bytes.as_slice(), spot, buf))
        }
        Coming::Closed(p) if !is_closed(closed, *p) => Some(past(Arrival::Closed(*p), spot)),
        Coming::Quiet => Some(past(Arrival::Quiet, spot)),
        _ => None,
    }
}

// The next arrival from the spot on, whose bytes stand first in the buffer. Steps that may not be handed over
// are passed over.
pub(crate) fn take(
    coming: &[Coming],
    spot: Spot,
    last: Peer,
    closed: &[Closed],
    buf: &mut [u8],
) -> Taken
    requires buffer { length buf.old ≡ BUFFER_SIZE }
    requires place { spot.place ≤ length coming.now }
    ensures taken { MayBeHanded result spot.place last closed.now buf.new }
    ensures within { result.spot.place ≤ length coming.now }
    ensures handed { hand_first last (closed_in closed.now) (steps_from spot coming.now)
        ≡ record { arrival = with_bytes result.arrival buf.new; coming = steps_from result.spot coming.now } }
{
    let mut given = spot.given;
    for place in spot.place..coming.len() {
        let here = Spot { place, given };
        if let Some(taken) = hand(&coming[place], here, last, closed, buf) {
            return taken;
        }
        given = 0;
    }
    Taken {
        arrival: Arrival::Ended,
        spot: Spot {
            place: coming.len(),
            given: 0,
        },
    }
}
