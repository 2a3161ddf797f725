// The arrivals that a link in memory has handed over. They stand in contracts alone, and have no bound.
ghost use Rattle.std.specs.Prelude.{◌≡◌, [], ◌∷◌, ◌++◌, length};
ghost use Rattle.el_outside.specs.Trace.{with_bytes};
ghost use Rattle.el_fakes.specs.within.Heard.{arrivals_of};

use el_outside::{Arrival, BUFFER_SIZE};
use std::snapshot::Snapshot;

/// The arrivals so far: none, or those before, and one more with the buffer in whose front its bytes stand.
/// The program keeps the last arrival alone.
#[cycle(heard)]
#[derive(Drop)]
pub(crate) enum Heard {
    Nothing,
    After(Snapshot<Heard>, Arrival, Snapshot<[u8; BUFFER_SIZE]>),
}

// These arrivals, and one more.
pub(crate) fn then(heard: &Heard, arrival: Arrival, buf: &[u8]) -> Heard
    requires { length buf.now ≡ BUFFER_SIZE }
    ensures { arrivals_of result ≡ arrivals_of heard.now ++ with_bytes arrival buf.now ∷ [] }
{
    match buf.as_array::<BUFFER_SIZE>() {
        Some(buffer) => Heard::After(Snapshot::of(heard), arrival, Snapshot::of(buffer)),
        None => unreachable!(),
    }
}
