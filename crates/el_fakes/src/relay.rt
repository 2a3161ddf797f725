// A relay in memory some of whose calls fail, and some refuse.
ghost use Rattle.std.specs.Prelude.{◌≡◌, ◌+◌, ◌==◌, [], ◌∷◌, ◌++◌, true, map, IfOk, OnOk, OnErr, IsErr};
ghost use Rattle.std.specs.List.{list_any};
ghost use Rattle.el_outside.specs.Counts.{HasCause, risen};
ghost use Rattle.el_outside.specs.Relays.{GoesOnBy};
ghost use Rattle.el_fakes.specs.Relays.{offer_of, verdict_of};

use crate::fronts::is_listed;
use el_base::{Bytes, GhostCount, OutOfMemory};
use el_outside::{Relay, RelayFailed, Verdict};
use std::alloc::Global;
use std::marker::Model;

/// An offer that a relay in memory has answered.
#[derive(Debug, Drop)]
pub struct Offered {
    /// The bytes that it was offered.
    pub bytes: Bytes,
    /// What it said.
    pub verdict: Verdict,
}

/// A relay in memory, which tells what it was offered. The calls whose numbers are listed as failing fail,
/// and so does one for whose offer there is no memory; no other does. Of the others those refuse that are
/// listed as refusing. Calls are counted from 1 on, up to 2^64 - 1. A call that fails isn't kept.
#[derive(Drop)]
pub struct MemRelay {
    offers: Vec<Offered>,
    failing: Vec<u64>,
    refusing: Vec<u64>,
    calls: u64,
    made: GhostCount,
    faults: u64,
}

impl Model for MemRelay {
    ghost use Rattle.std.specs.Prelude.{map};
    ghost use Rattle.el_fakes.specs.Relays.{RelayState, offer_of};

    ghost Value = { RelayState };

    ghost view = { λ a. record {
      offers = map offer_of a.offers.items;
      failing = a.failing.items;
      refusing = a.refusing.items;
      calls = a.calls;
      made = a.made;
      faults = a.faults;
    } };
}

// Adds an offer after the others.
fn keep(offers: &mut Vec<Offered>, bytes: &[u8], verdict: Verdict) -> Result<(), OutOfMemory>
    ensures ok { OnOk result (map offer_of offers.new.items
        ≡ map offer_of offers.old.items ++ record { bytes = bytes.now; answer = Ok verdict } ∷ []) }
    ensures err { OnErr result (map offer_of offers.new.items ≡ map offer_of offers.old.items) }
{
    let bytes = Bytes::from_slice(*offers.allocator(), bytes)?;
    offers.push(Offered { bytes, verdict })?;
    Ok(())
}

impl MemRelay {
    /// A relay that was offered nothing yet, and the numbers of the calls that fail and of those that refuse.
    /// Takes no memory.
    pub fn new(alloc: Global, failing: Vec<u64>, refusing: Vec<u64>) -> MemRelay
        ensures { result ≡ record {
          offers = [];
          failing = failing.items;
          refusing = refusing.items;
          calls = 0;
          made = 0;
          faults = 0;
        } }
    {
        MemRelay {
            offers: Vec::new(alloc),
            failing,
            refusing,
            calls: 0,
            made: GhostCount::new(),
            faults: 0,
        }
    }

    /// The offers that were answered, in order.
    pub fn offers(&self) -> &[Offered]
        ensures { map offer_of result.now ≡ self.now.offers }
    {
        self.offers.as_slice()
    }

    /// How many calls were made, up to 2^64 - 1.
    pub fn calls(&self) -> u64
        ensures { result ≡ self.now.calls }
    {
        self.calls
    }

    /// How many calls failed, up to 2^64 - 1.
    pub fn faults(&self) -> u64
        ensures { result ≡ self.now.faults }
    {
        self.faults
    }

    // Counts a call, and says whether it fails.
    fn is_failing(&mut self) -> bool
        ensures counted { self.new ≡ record self.old {
          calls = risen self.old.calls 1;
          made = self.old.made + 1;
        } }
        ensures listed { result ≡ list_any (λ n. self.new.calls == n) self.old.failing }
    {
        self.made.tick();
        self.calls = self.calls.saturating_add(1);
        is_listed(self.failing.as_slice(), self.calls)
    }

    // A failure, which is counted.
    fn fault(&mut self) -> RelayFailed
        ensures { self.new ≡ record self.old { faults = risen self.old.faults 1 } }
    {
        self.faults = self.faults.saturating_add(1);
        RelayFailed
    }

    // What the last call says, if it doesn't fail.
    fn verdict(&self) -> Verdict
        ensures { result ≡ verdict_of self.now.refusing self.now.calls }
    {
        if is_listed(self.refusing.as_slice(), self.calls) {
            Verdict::Refused
        } else {
            Verdict::Taken
        }
    }
}

impl Relay for MemRelay {
    ghost tells = { Unit {0} };

    ghost offers = { λ relay. relay.offers };

    ghost calls = { λ relay. relay.made };

    ghost faults = { λ relay. relay.faults };

    fn offer(&mut self, bytes: &[u8]) -> Result<Verdict, RelayFailed>
        ensures offered { GoesOnBy self.old.offers self.new.offers bytes.now result }
        ensures called { self.new.made ≡ self.old.made + 1 }
        ensures cause { HasCause self.old.faults self.new.faults result }
        ensures same { self.new ≡ record self.old {
          offers = self.new.offers;
          calls = risen self.old.calls 1;
          made = self.old.made + 1;
          faults = self.new.faults;
        } }
        ensures says { IfOk result (λ verdict. verdict ≡ verdict_of self.old.refusing self.new.calls) }
        ensures fails { list_any (λ n. self.new.calls == n) self.old.failing ≡ true → IsErr result }
        ensures not_kept { OnErr result (self.new.offers ≡ self.old.offers) }
    {
        if self.is_failing() {
            return Err(self.fault());
        }
        let verdict = self.verdict();
        match keep(&mut self.offers, bytes, verdict) {
            Ok(()) => Ok(verdict),
            Err(OutOfMemory) => Err(self.fault()),
        }
    }
}
