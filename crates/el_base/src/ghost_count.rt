// A count that stands in contracts alone, and has no bound.
ghost use Rattle.std.specs.Prelude.{◌≡◌, ◌+◌};
ghost use Rattle.el_base.specs.within.Ticks.{ticks_of};

use std::marker::Model;
use std::mem::replace;
use std::snapshot::Snapshot;

// None, or those before, and one more.
#[cycle(ticks)]
#[derive(Drop)]
enum Ticks {
    Nothing,
    After(Snapshot<Ticks>),
}

/// Counts what contracts bound: rows read, bytes looked at, calls of a device. Contracts see the number, from
/// 0 on and with no bound; it takes no bytes when the program runs.
#[derive(Drop)]
pub struct GhostCount {
    ticks: Snapshot<Ticks>,
}

impl Model for GhostCount {
    ghost use Rattle.std.specs.Prelude.{ℕ};
    ghost use Rattle.el_base.specs.within.Ticks.{ticks_of};

    ghost Value = { ℕ };

    ghost view = { λ c. ticks_of c.ticks.value };
}

impl GhostCount {
    /// Nothing is counted.
    pub fn new() -> GhostCount
        ensures { result ≡ 0 }
    {
        GhostCount {
            ticks: Snapshot::of(&Ticks::Nothing),
        }
    }

    /// One more. It does nothing when the program runs.
    pub fn tick(&mut self)
        ensures { self.new ≡ self.old + 1 }
    {
        let before = replace(&mut self.ticks, Snapshot::of(&Ticks::Nothing));
        self.ticks = Snapshot::of(&Ticks::After(before));
    }
}
