// By which numbers subscriptions stand in their order.
ghost use Rattle.std.specs.Prelude.{◌≡◌, []};
ghost use Rattle.el_sessions.specs.within.Slots.{slots_of, put_at};

use el_base::Hash32;
use std::mem::replace;
use std::snapshot::Snapshot;

/// What is kept of a subscription: the status that the client was last told, and its number. One that came
/// later has a higher one.
#[derive(Clone, Copy, Debug, PartialEq, Eq)]
pub struct Held {
    pub told: Option<Hash32>,
    pub number: u64,
}

/// The number of a script hash's subscription.
#[derive(Clone, Copy, Debug, PartialEq, Eq)]
pub struct Place {
    pub number: u64,
    pub script_hash: Hash32,
}

/// What stood at each number; it stands in contracts alone, and takes no bytes when the program runs.
#[cycle(slots)]
#[derive(Drop)]
pub enum Slots {
    Nothing,
    Put(Snapshot<Slots>, u64, Option<(Hash32, Option<Hash32>)>),
}

/// At no number stands anything.
pub fn no_slots() -> Snapshot<Slots>
    ensures { slots_of result.value ≡ [] }
{
    Snapshot::of(&Slots::Nothing)
}

/// Puts this at the number. It does nothing when the program runs.
pub fn put(slots: &mut Snapshot<Slots>, number: u64, sub: Option<(Hash32, Option<Hash32>)>)
    ensures { slots_of slots.new.value ≡ put_at (slots_of slots.old.value) number sub }
{
    let before = replace(slots, no_slots());
    *slots = Snapshot::of(&Slots::Put(before, number, sub));
}
