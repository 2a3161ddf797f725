// How many clients subscribe to each script hash.
ghost use Rattle.std.specs.Prelude.{◌≡◌, ◌+◌, ◌-◌, ◌<◌, ◌≤◌, ℕ, length, None, Some, [], ◌∷◌, if◌then◌else◌, nat_lt, OnOk, OnErr, IfErr, false};
ghost use Rattle.std.specs.Map.{keys_of};
ghost use Rattle.indexmap.specs.IndexMap.{get};
ghost use Rattle.el_base.specs.declared.hash.Hash32 as shape;
ghost use Rattle.el_sessions.specs.Sessions.{is_subscribed, subscribed, unsubscribed, same_script};
ghost use Rattle.el_sessions.specs.Watching.{counted, times, Follows};
ghost use Rattle.el_sessions.specs.declared.session.SubsFault.TheVariants as fault;

use crate::session::{SUBSCRIPTION_LIMIT, Subs, SubsFault};
use el_base::{Hash32, OutOfMemory};
use indexmap::IndexMap;
use std::alloc::Global;
use std::marker::Model;

/// Of each script hash how many clients subscribe to it; one to which nobody does takes no place.
#[derive(Drop)]
pub struct Watched {
    map: IndexMap<Hash32, usize>,
}

impl Model for Watched {
    ghost use Rattle.std.specs.Prelude.{List, ℕ};
    ghost use Rattle.el_base.specs.declared.hash.Hash32 as shape;
    ghost use Rattle.el_sessions.specs.Watching.{NoneIdle};

    ghost Value = { List (shape.Hash32 × ℕ) };

    ghost view = { λ w. w.map.entries };

    ghost invariant = { λ w. NoneIdle w.map.entries };
}

// How many subscribe to the script hash.
fn count_of(map: &IndexMap<Hash32, usize>, s: &Hash32) -> usize
    ensures { result ≡ counted map.now.entries s.now }
{
    map.get(s).copied().unwrap_or(0)
}

// So many subscribe to the script hash. Fails only where memory runs out, and nobody did.
fn set_count(map: &mut IndexMap<Hash32, usize>, s: Hash32, count: usize) -> Result<(), OutOfMemory>
    ensures ok { OnOk result ((t : shape.Hash32) → get same_script map.new t
        ≡ (if same_script s t then Some count else get same_script map.old t)) }
    ensures err { OnErr result (map.new.entries ≡ map.old.entries) }
    ensures absent { OnErr result (get same_script map.old s ≡ None) }
{
    map.insert(s, count)?;
    Ok(())
}

// Nobody subscribes to the script hash.
fn drop_count(map: &mut IndexMap<Hash32, usize>, s: &Hash32)
    ensures { (t : shape.Hash32) → get same_script map.new t
        ≡ (if same_script s.now t then None else get same_script map.old t) }
{
    map.swap_remove(s);
}

impl Watched {
    /// Nobody subscribes to anything. Takes no memory.
    pub fn new(alloc: Global) -> Watched
        ensures { result ≡ [] }
    {
        Watched {
            map: IndexMap::new(alloc),
        }
    }

    /// Whether someone subscribes to the script hash.
    pub fn counts(&self, s: &Hash32) -> bool
        ensures { result ≡ nat_lt 0 (counted self.now s.now) }
    {
        count_of(&self.map, s) > 0
    }

    // One more subscribes to the script hash. Fails only where memory runs out, or where as many do as can be
    // counted; nothing has then changed.
    fn count_up(&mut self, s: Hash32) -> Result<(), OutOfMemory>
        ensures ok { OnOk result ((t : shape.Hash32) → counted self.new t
            ≡ counted self.old t + times t (s ∷ [])) }
        ensures err { OnErr result (self.new ≡ self.old) }
    {
        let count = count_of(&self.map, &s);
        if count >= usize::MAX {
            return Err(OutOfMemory);
        }
        set_count(&mut self.map, s, count + 1)?;
        Ok(())
    }

    // One less subscribes to the script hash, which is taken out with the last. Takes no memory.
    fn count_down(&mut self, s: &Hash32)
        ensures { (t : shape.Hash32) → counted self.new t
            ≡ counted self.old t - times t (s.now ∷ []) }
    {
        let count = count_of(&self.map, s);
        if count > 1 {
            // It is there, so that this can't fail.
            let _ = set_count(&mut self.map, *s, count - 1);
        } else {
            drop_count(&mut self.map, s);
        }
    }

    // Subscribes a client to a script hash to which it doesn't subscribe, and counts it.
    fn add(&mut self, subs: &mut Subs, s: Hash32, told: Option<Hash32>) -> Result<(), SubsFault>
        requires { is_subscribed s subs.old ≡ false }
        ensures ok { OnOk result (subs.new ≡ subscribed s told subs.old) }
        ensures err { OnErr result (subs.new ≡ subs.old) }
        ensures counts { Follows subs.old subs.new self.old self.new }
        ensures room { OnOk result (length subs.old < SUBSCRIPTION_LIMIT) }
        ensures full { IfErr result (λ e. (held : ℕ) → e ≡ fault.TooMany held
            → (held ≡ length subs.old) × (SUBSCRIPTION_LIMIT ≤ held)) }
        ensures memory { IfErr result (λ e. e ≡ fault.Memory → length subs.old < SUBSCRIPTION_LIMIT) }
    {
        let held = subs.held();
        if held >= SUBSCRIPTION_LIMIT {
            return Err(SubsFault::TooMany { held });
        }
        if self.count_up(s).is_err() {
            return Err(SubsFault::Memory);
        }
        match subs.subscribe(s, told) {
            Ok(()) => Ok(()),
            Err(fault) => {
                self.count_down(&s);
                Err(fault)
            }
        }
    }

    /// Subscribes a client to a script hash of which it was told this status, and counts it. One that is
    /// there keeps its place, and is counted already.
    ///
    /// # Errors
    ///
    /// `SubsFault::TooMany` exactly where it is new and the client has `SUBSCRIPTION_LIMIT`, and `Memory`
    /// where it is new, the client has fewer, and memory runs out, or as many were counted or came before as
    /// can be numbered. Nothing has then changed, but that memory was taken.
    pub fn subscribe(
        &mut self,
        subs: &mut Subs,
        s: Hash32,
        told: Option<Hash32>,
    ) -> Result<(), SubsFault>
        ensures ok { OnOk result (subs.new ≡ subscribed s told subs.old) }
        ensures err { OnErr result (subs.new ≡ subs.old) }
        ensures counts { Follows subs.old subs.new self.old self.new }
        ensures room { OnOk result ((is_subscribed s subs.old ≡ false)
            → length subs.old < SUBSCRIPTION_LIMIT) }
        ensures new { OnErr result (is_subscribed s subs.old ≡ false) }
        ensures full { IfErr result (λ e. (held : ℕ) → e ≡ fault.TooMany held
            → (held ≡ length subs.old) × (SUBSCRIPTION_LIMIT ≤ held)) }
        ensures memory { IfErr result (λ e. e ≡ fault.Memory → length subs.old < SUBSCRIPTION_LIMIT) }
    {
        if subs.holds(&s) {
            subs.note(&s, told);
            return Ok(());
        }
        self.add(subs, s, told)
    }

    /// Drops a client's subscription to the script hash, and counts it no more. Whether there was one. Takes
    /// no memory.
    pub fn unsubscribe(&mut self, subs: &mut Subs, s: &Hash32) -> bool
        ensures was { result ≡ is_subscribed s.now subs.old }
        ensures gone { subs.new ≡ unsubscribed s.now subs.old }
        ensures counts { Follows subs.old subs.new self.old self.new }
    {
        if !subs.unsubscribe(s) {
            return false;
        }
        self.count_down(s);
        true
    }

    /// Counts the subscriptions of a client that goes no more, and drops them. Takes no memory.
    pub fn uncount(&mut self, subs: &mut Subs)
        ensures less { (t : shape.Hash32)
            → counted self.new t ≡ counted self.old t - times t (keys_of subs.old) }
        ensures dropped { subs.new ≡ [] }
    {
        while let Some(s) = subs.drop_any() {
            self.count_down(&s);
        }
    }
}
