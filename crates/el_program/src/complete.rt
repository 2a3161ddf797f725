// What holds of calls in which no call of a device fails.
ghost use Rattle.std.specs.Prelude.{◌≡◌, List, ℕ};
ghost use Rattle.el_loop.specs.Traffic.{Traffic};
ghost use Rattle.el_chain.specs.Chains.{Chain};
ghost use Rattle.el_loop.specs.Counts.{counts_of};
ghost use Rattle.el_loop.specs.Traffic.{WentBy, WentTo};
ghost use Rattle.el_methods.specs.Archives.{HasRecords};
ghost use Rattle.el_undisturbed.specs.WholeRecords.{ShowWholeRecords};
ghost use Rattle.el_words.specs.Commands.{IsServe, IsOnce};
ghost use Rattle.el_program.specs.AnyCall.{IsCall};
ghost use Rattle.el_program.specs.Calls.{Call};
ghost use Rattle.el_program.specs.Complete.{IsComplete, NoneFailed};
ghost use Rattle.el_program.specs.Ends.{IndexEnds, OnceEnds};
ghost use Rattle.el_program.specs.IndexDisks.{IsIndexDisk, LeavesOneOf};
ghost use Rattle.el_program.specs.Opened.{certain};

use el_methods::{moves_have_records, records_stay};
use el_outside::{Archive, Disk, Link, Relay};
use el_undisturbed::runs_are_undisturbed;

/// A call of `serve` in which no call of a device failed ends as its link does, or for no device, and nothing
/// is told or closed for a failure: over an index of a chain, where the block files have its records, and
/// what is found in them during the call is whole. So does a call with the words of `once`, over any such
/// block files.
pub fn calls_without_failures_are_complete<D: Disk, A: Archive, Y: Relay, K: Link>()
    ensures serve { (c : Call D A Y K) (magic : List ℕ) (was flight chain : Chain)
        → IsCall ⟦<D as Disk>⟧ ⟦<A as Archive>⟧ ⟦<Y as Relay>⟧ ⟦<K as Link>⟧ c
        → (asked : IsServe c.words magic)
        → A.tells
        → ShowWholeRecords ⟦<A as Archive>⟧ magic (A.bytes c.before.files) (A.bytes c.after.files)
        → IsIndexDisk ⟦<D as Disk>⟧ magic c.before.disk was flight chain
        → HasRecords (A.bytes c.before.files) chain
        → NoneFailed (counts_of D.faults ⟦<A as Archive>⟧ ⟦<Y as Relay>⟧ ⟦<K as Link>⟧ c.turns c.before
        c.after)
        → (t : Traffic) × (WentBy ⟦<K as Link>⟧ c.before.link c.after.link t
        × WentTo ⟦<Y as Relay>⟧ c.before.relay c.after.relay t)
        × IndexEnds ⟦<A as Archive>⟧ magic asked.said.settings.limits asked.said.settings.relays was flight
        (certain chain)
        (LeavesOneOf ⟦<D as Disk>⟧ magic c.after.disk)
        (counts_of D.faults ⟦<A as Archive>⟧ ⟦<Y as Relay>⟧ ⟦<K as Link>⟧ c.turns c.before c.after)
        c.before.files c.after.files t c.status × IsComplete t c.status }
    ensures once { (c : Call D A Y K) (magic : List ℕ)
        → IsCall ⟦<D as Disk>⟧ ⟦<A as Archive>⟧ ⟦<Y as Relay>⟧ ⟦<K as Link>⟧ c → IsOnce c.words magic
        → A.tells
        → ShowWholeRecords ⟦<A as Archive>⟧ magic (A.bytes c.before.files) (A.bytes c.after.files)
        → NoneFailed (counts_of D.faults ⟦<A as Archive>⟧ ⟦<Y as Relay>⟧ ⟦<K as Link>⟧ c.turns c.before
        c.after)
        → (t : Traffic) × (WentBy ⟦<K as Link>⟧ c.before.link c.after.link t
        × WentTo ⟦<Y as Relay>⟧ c.before.relay c.after.relay t)
        × OnceEnds ⟦<A as Archive>⟧ magic
        (counts_of D.faults ⟦<A as Archive>⟧ ⟦<Y as Relay>⟧ ⟦<K as Link>⟧ c.turns c.before c.after)
        (A.bytes c.before.files) (A.bytes c.after.files) t c.status × IsComplete t c.status }
{
    records_stay();
    moves_have_records::<A>();
    runs_are_undisturbed::<A>();
}
