// What is kept of a client for its requests.
ghost use Rattle.std.specs.Prelude.{◌≡◌, ◌↔◌, ◌<◌, ◌≤◌, ◌+◌, ◌++◌, ◌∷◌, ℕ, [], length, map, slice_get, take, OnOk, OnErr, IfOk, IfErr, IfSome, IfNone, Some, None, true, false, is_some, if◌then◌else◌};
ghost use Rattle.std.specs.List.{IsDistinct};
ghost use Rattle.std.specs.Map.{keys_of, lookup};
ghost use Rattle.el_base.specs.declared.hash.Hash32 as shape;
ghost use Rattle.el_sessions.specs.Sessions.{is_subscribed, subscribed, unsubscribed, held_among, same_script};
ghost use Rattle.el_sessions.specs.declared.session.SubsFault.TheVariants as fault;
ghost use Rattle.el_sessions.specs.declared.slots.Place as place;
ghost use Rattle.el_sessions.specs.within.Slots.{places_found, ArePlaces};

use crate::slots::{Held, Place, Slots, no_slots, put};
use el_base::{Hash32, OutOfMemory};
use indexmap::IndexMap;
use std::alloc::Global;
use std::marker::Model;
use std::snapshot::Snapshot;

/// A version of the protocol that client and server share.
#[derive(Clone, Copy, Debug, PartialEq, Eq)]
pub enum Version {
    V14,
    V141,
    V142,
}

/// How many subscriptions a client may have.
pub const SUBSCRIPTION_LIMIT: usize = 50_000;

/// Why a subscription was refused.
#[derive(Clone, Copy, Debug, PartialEq, Eq)]
pub enum SubsFault {
    /// It is new, and as many are held as there may be.
    TooMany { held: usize },
    /// Out of memory, or as many came as can be numbered.
    Memory,
}

/// The script hashes that a client has subscribed to, in order, each with the status that it was last told,
/// which is none for a script hash without a history. Each call but `held_among` takes the time of one
/// look-up, however many there are.
#[derive(Drop)]
pub struct Subs {
    map: IndexMap<Hash32, Held>,
    next: u64,
    slots: Snapshot<Slots>,
}

impl Model for Subs {
    ghost use Rattle.std.specs.Prelude.{List, Option};
    ghost use Rattle.el_base.specs.declared.hash.Hash32 as shape;
    ghost use Rattle.el_sessions.specs.within.Slots.{slots_of, live, AreHeld};

    ghost Value = { List (shape.Hash32 × Option shape.Hash32) };

    ghost view = { λ s. live (slots_of s.slots.value) };

    ghost invariant = { λ s. AreHeld (slots_of s.slots.value) s.map.entries s.next };
}

// What is kept of the script hash.
fn find(map: &IndexMap<Hash32, Held>, s: &Hash32) -> Option<Held>
    ensures { result ≡ lookup (same_script s.now) map.now.entries }
{
    map.get(s).copied()
}

// Keeps this of the script hash. Fails only where memory runs out, and it wasn't there.
fn keep(map: &mut IndexMap<Hash32, Held>, s: Hash32, held: Held) -> Result<(), OutOfMemory>
    ensures ok { OnOk result ((t : shape.Hash32) → lookup (same_script t) map.new.entries
        ≡ (if same_script s t then Some held else lookup (same_script t) map.old.entries)) }
    ensures len { OnOk result (length map.new.entries ≡ length map.old.entries
        + (if is_some (lookup (same_script s) map.old.entries) then 0 else 1)) }
    ensures err { OnErr result (map.new.entries ≡ map.old.entries) }
    ensures absent { OnErr result (lookup (same_script s) map.old.entries ≡ None) }
{
    map.insert(s, held)?;
    Ok(())
}

// Keeps nothing of the script hash. What was kept of it.
fn drop_one(map: &mut IndexMap<Hash32, Held>, s: &Hash32) -> Option<Held>
    ensures was { result ≡ lookup (same_script s.now) map.old.entries }
    ensures gone { (t : shape.Hash32) → lookup (same_script t) map.new.entries
        ≡ (if same_script s.now t then None else lookup (same_script t) map.old.entries) }
    ensures len { length map.new.entries + (if is_some result then 1 else 0) ≡ length map.old.entries }
{
    map.swap_remove(s)
}

// The places of those of the script hashes of which something is kept, in their order.
fn gather(
    alloc: Global,
    map: &IndexMap<Hash32, Held>,
    scripts: &[Hash32],
) -> Result<Vec<Place>, OutOfMemory>
    ensures { IfOk result (λ places. places.items ≡ places_found map.now.entries scripts.now) }
{
    let mut places = Vec::new(alloc);
    for s in scripts {
        if let Some(held) = find(map, s) {
            places.push(Place {
                number: held.number,
                script_hash: *s,
            })?;
        }
    }
    Ok(places)
}

// The same by rising number.
fn sorted_places(
    alloc: Global,
    map: &IndexMap<Hash32, Held>,
    scripts: &[Hash32],
) -> Result<Vec<Place>, OutOfMemory>
    ensures { IfOk result (λ places. ArePlaces (places_found map.now.entries scripts.now) places.items) }
{
    let mut places = gather(alloc, map, scripts)?;
    places.sort_unstable_by_key(
        |place: &Place| -> u64
            ensures { result ≡ place.now.number }
        { place.number },
    );
    Ok(places)
}

// The script hashes of places.
fn scripts_of(alloc: Global, places: &[Place]) -> Result<Vec<Hash32>, OutOfMemory>
    ensures { IfOk result (λ scripts. scripts.items ≡ map (λ (p : place.Place). p.script_hash) places.now) }
{
    let mut scripts = Vec::new(alloc);
    for place in places {
        scripts.push(place.script_hash)?;
    }
    Ok(scripts)
}

impl Subs {
    /// None. Takes no memory.
    pub fn new(alloc: Global) -> Subs
        ensures { result ≡ [] }
    {
        Subs {
            map: IndexMap::new(alloc),
            next: 0,
            slots: no_slots(),
        }
    }

    /// How many there are.
    pub fn held(&self) -> usize
        ensures { result ≡ length self.now }
    {
        self.map.len()
    }

    /// Whether the script hash is among them.
    pub fn holds(&self, s: &Hash32) -> bool
        ensures { result ≡ is_subscribed s.now self.now }
    {
        find(&self.map, s).is_some()
    }

    // Subscribes to a script hash that isn't there, as the last. Fails where memory runs out, or where as
    // many came as can be numbered.
    fn add(&mut self, s: Hash32, told: Option<Hash32>) -> Result<(), OutOfMemory>
        requires { is_subscribed s self.old ≡ false }
        ensures ok { OnOk result (self.new ≡ subscribed s told self.old) }
        ensures err { OnErr result (self.new ≡ self.old) }
    {
        let number = self.next;
        if number == u64::MAX {
            return Err(OutOfMemory);
        }
        keep(&mut self.map, s, Held { told, number })?;
        put(&mut self.slots, number, Some((s, told)));
        self.next = number + 1;
        Ok(())
    }

    /// Subscribes to a script hash that was told this status. One that is there keeps its place.
    ///
    /// # Errors
    ///
    /// `SubsFault::TooMany` exactly where it is new and `SUBSCRIPTION_LIMIT` are held, and `Memory` where it
    /// is new, fewer are held, and memory runs out, or as many came before as can be numbered.
    pub fn subscribe(&mut self, s: Hash32, told: Option<Hash32>) -> Result<(), SubsFault>
        ensures ok { OnOk result (self.new ≡ subscribed s told self.old) }
        ensures err { OnErr result (self.new ≡ self.old) }
        ensures room { OnOk result ((is_subscribed s self.old ≡ false)
            → length self.old < SUBSCRIPTION_LIMIT) }
        ensures new { OnErr result (is_subscribed s self.old ≡ false) }
        ensures full { IfErr result (λ e. (held : ℕ) → e ≡ fault.TooMany held
            → (held ≡ length self.old) × (SUBSCRIPTION_LIMIT ≤ held)) }
        ensures memory { IfErr result (λ e. e ≡ fault.Memory → length self.old < SUBSCRIPTION_LIMIT) }
    {
        if self.holds(&s) {
            self.note(&s, told);
            return Ok(());
        }
        let held = self.held();
        if held >= SUBSCRIPTION_LIMIT {
            return Err(SubsFault::TooMany { held });
        }
        match self.add(s, told) {
            Ok(()) => Ok(()),
            Err(_) => Err(SubsFault::Memory),
        }
    }

    /// Drops the subscription to the script hash; the others stay in their order. Whether there was one.
    /// Takes no memory.
    pub fn unsubscribe(&mut self, s: &Hash32) -> bool
        ensures was { result ≡ is_subscribed s.now self.old }
        ensures gone { self.new ≡ unsubscribed s.now self.old }
    {
        match drop_one(&mut self.map, s) {
            Some(held) => {
                put(&mut self.slots, held.number, None);
                true
            }
            None => false,
        }
    }

    /// Drops one of the subscriptions; None exactly where there is none. Takes no memory.
    pub fn drop_any(&mut self) -> Option<Hash32>
        ensures some { IfSome result (λ s. (is_subscribed s self.old ≡ true)
            × (self.new ≡ unsubscribed s self.old)) }
        ensures none { IfNone result ((self.old ≡ []) × (self.new ≡ [])) }
    {
        let s = match self.map.last() {
            Some((s, _)) => *s,
            None => return None,
        };
        self.unsubscribe(&s);
        Some(s)
    }

    /// The status that was told last of the script hash; None exactly where there is no subscription to it.
    /// Takes no memory.
    pub fn told(&self, s: &Hash32) -> Option<Option<Hash32>>
        ensures { result ≡ lookup (same_script s.now) self.now }
    {
        match find(&self.map, s) {
            Some(Held { told, number: _ }) => Some(told),
            None => None,
        }
    }

    /// Those of the script hashes to which there is a subscription, in the order of the subscriptions. Each
    /// is looked up once, and no other subscription is looked at. Fails only where memory runs out.
    pub fn held_among(&self, alloc: Global, scripts: &[Hash32]) -> Result<Vec<Hash32>, OutOfMemory>
        requires { IsDistinct same_script scripts.now }
        ensures held { IfOk result (λ held. held.items ≡ held_among scripts.now self.now) }
        ensures once { IsDistinct same_script (keys_of self.now) }
    {
        let places = sorted_places(alloc, &self.map, scripts)?;
        scripts_of(alloc, places.as_slice())
    }

    /// Notes what is told of the script hash, if there is a subscription to it. Takes no memory.
    pub fn note(&mut self, s: &Hash32, told: Option<Hash32>)
        ensures noted { is_subscribed s.now self.old ≡ true → self.new ≡ subscribed s.now told self.old }
        ensures same { is_subscribed s.now self.old ≡ false → self.new ≡ self.old }
    {
        if let Some(held) = find(&self.map, s) {
            let number = held.number;
            // It is there, so that this can't fail.
            let _ = keep(&mut self.map, *s, Held { told, number });
            put(&mut self.slots, number, Some((*s, told)));
        }
    }
}

/// What is kept of a client for its requests.
#[derive(Drop)]
pub struct Session {
    /// The version that was agreed.
    pub version: Option<Version>,
    /// Whether it is told new blocks.
    pub headers: bool,
    /// What it has subscribed to.
    pub subs: Subs,
}
