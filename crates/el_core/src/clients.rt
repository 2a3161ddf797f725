// The clients, by rising number.
ghost use Rattle.std.specs.Prelude.{◌≡◌, ◌<◌, ◌≤◌, [], ◌∷◌, ◌++◌, None, Some, OnOk, OnErr, IfSome, IfNone, length, slice_get, true, false};
ghost use Rattle.el_outside.specs.Counts.{RoseBy};
ghost use Rattle.el_outside.specs.Files.{AllGrow};
ghost use Rattle.el_chain.specs.Chains.{Chain};
ghost use Rattle.el_replies.specs.RowBounds.{ReadsWithin};
ghost use Rattle.el_model.specs.LedgerCalls.{Asked};
ghost use Rattle.el_replies.specs.Spending.{asked_ghosts, asking};
ghost use Rattle.el_side.specs.Beneath.{beneath, ghosts};
ghost use Rattle.el_side.specs.Side.{Side};
ghost use Rattle.el_core.specs.Arrivals.{kept_clients};
ghost use Rattle.el_side.specs.Caching.{CachesStand, CachesStay};
ghost use Rattle.el_side.specs.NodeSteps.{IsSettled};
ghost use Rattle.el_core.specs.Turn.{outs_of};
ghost use Rattle.el_core.specs.within.Clients.{IsClientPlace, IsFirstWaiting, HearsAt, ClientTurn, TurnsAt, passing, IsToTell, TellTurn, TellsAt, all_wait, client_replaced};
ghost use Rattle.el_core.specs.State.{ClientState};
ghost use Rattle.el_core.specs.within.RowBounds.{ClientReads};
ghost use Rattle.el_core.specs.within.Touching.{is_held};
ghost use Rattle.el_core.specs.within.Watching.{CountWatchers};

use crate::client::{Client, client_turn};
use crate::out::Outs;
use crate::telling::tell_turn;
use el_base::{Hash32, OutOfMemory};
use el_chain::Touched;
use el_model::Ledger;
use el_outside::{Archive, Peer, Relay};
use el_relay::Desk;
use el_sessions::Watched;
use el_side::{Caches, Holdings};
use std::alloc::Global;
use std::marker::Model;

/// Connected clients, in the order in which they came. Contracts see the list of these. Beside it stands of
/// each script hash how many of them subscribe to it: one look-up tells whether someone does.
#[derive(Drop)]
pub struct Clients {
    list: Vec<Client>,
    watched: Watched,
}

impl Model for Clients {
    ghost use Rattle.std.specs.Prelude.{List};
    ghost use Rattle.el_core.specs.State.{ClientState};
    ghost use Rattle.el_core.specs.within.Watching.{CountWatchers};

    ghost Value = { List ClientState };

    ghost view = { λ c. c.list.items };

    ghost invariant = { λ c. CountWatchers c.watched c.list.items };
}

// All are to be told of a line of the node.
fn await_all(list: &mut Vec<Client>)
    ensures { list.new.items ≡ all_wait list.old.items }
{
    for client in list.iter_mut() {
        client.await_telling();
    }
}

// Takes away the client at that place, and counts its subscriptions no more.
fn take_out(list: &mut Vec<Client>, watched: &mut Watched, i: usize)
    requires inside { i < length list.old.items }
    requires counts { CountWatchers watched.old list.old.items }
    ensures gone { list.new.items ≡ client_replaced i None list.old.items }
    ensures counts { CountWatchers watched.new list.new.items }
{
    let mut subs = list.remove(i).into_subs();
    watched.uncount(&mut subs);
}

impl Clients {
    /// No clients. Takes no memory.
    pub fn new(alloc: Global) -> Clients
        ensures { result ≡ [] }
    {
        Clients {
            list: Vec::new(alloc),
            watched: Watched::new(alloc),
        }
    }

    /// How many there are.
    pub fn len(&self) -> usize
        ensures { result ≡ length self.now }
    {
        self.list.len()
    }

    /// Adds a client at the end, which subscribes to nothing yet. Fails only where memory runs out.
    pub fn push(&mut self, client: Client) -> Result<(), OutOfMemory>
        requires { client.session.subs ≡ [] }
        ensures ok { OnOk result (self.new ≡ self.old ++ client ∷ []) }
        ensures err { OnErr result (self.new ≡ self.old) }
    {
        self.list.push(client)?;
        Ok(())
    }

    /// Where the client with that number stands.
    pub fn place_of(&self, p: Peer) -> Option<usize>
        ensures place { IsClientPlace p self.now result }
        ensures inside { IfSome result (λ i. i < length self.now) }
    {
        for (i, client) in self.list.iter().enumerate() {
            if client.peer() == p {
                return Some(i);
            }
        }
        None
    }

    /// Where the first client stands that is still to be told of the node's last line.
    pub fn first_waiting(&self) -> Option<usize>
        ensures place { IsFirstWaiting self.now result }
        ensures inside { IfSome result (λ i. i < length self.now) }
    {
        for (i, client) in self.list.iter().enumerate() {
            if client.waits() {
                return Some(i);
            }
        }
        None
    }

    /// Whether some client subscribes to the script hash, by one look-up.
    pub fn hold(&self, script_hash: &Hash32) -> bool
        ensures { result ≡ is_held self.now script_hash.now }
    {
        self.watched.counts(script_hash)
    }

    /// All are to be told of a line of the node.
    pub fn await_telling(&mut self)
        ensures { self.new ≡ all_wait self.old }
    {
        await_all(&mut self.list);
    }

    // Takes away the client at that place.
    fn take_away(&mut self, i: usize)
        requires { i < length self.old }
        ensures { self.new ≡ client_replaced i None self.old }
    {
        take_out(&mut self.list, &mut self.watched, i);
    }

    /// Takes away the client with that number, if there is one.
    pub fn forget(&mut self, p: Peer)
        ensures { self.new ≡ kept_clients p self.old }
    {
        while let Some(i) = self.place_of(p) {
            self.take_away(i);
        }
    }

    /// The client at that place keeps its bytes, or that there was no memory for them.
    pub fn hear(&mut self, i: usize, bytes: &[u8])
        requires { i < length self.old }
        ensures { HearsAt i bytes.now self.old self.new }
    {
        self.list[i].hear(bytes);
    }

    /// A turn of the client at that place, which is gone where it was closed.
    pub fn turn<G: Ledger, A: Archive, Y: Relay>(
        &mut self,
        alloc: Global,
        ledger: &mut G,
        archive: &mut A,
        holdings: &Holdings,
        caches: &mut Caches,
        desk: &mut Desk,
        relay: &mut Y,
        i: usize,
    ) -> (Option<Outs>, bool)
        requires inside { i < length self.old }
        requires live { G.is_live ledger.old }

        ensures turn { let of = ghosts ⟦<G as Ledger>⟧ ⟦<A as Archive>⟧ in
            let was = beneath ledger.old archive.old in TurnsAt (λ c left. (side : Side)
            → IsSettled of was holdings.now caches.old side
            → ClientTurn A.tells side (passing (asked_ghosts of ⟦<Y as Relay>⟧)
            (asking ledger.old archive.old relay.old desk.old)
            (asking ledger.new archive.new relay.new desk.new)) c result.0 left)
            i self.old result.0 result.1 self.new }

        ensures quiet { Asked ⟦<G as Ledger>⟧ ledger.old ledger.new }
        ensures caches { CachesStay ⟦<G as Ledger>⟧ ledger.old caches.old caches.new }
        ensures keeps { A.tells → AllGrow (A.bytes archive.old) (A.bytes archive.new) }
        ensures still { IfNone result.0 ((G.faults ledger.new ≡ G.faults ledger.old)
            × (A.faults archive.new ≡ A.faults archive.old) × (relay.new ≡ relay.old)) }
        ensures disk_more { G.faults ledger.old ≤ G.faults ledger.new }
        ensures archive_more { A.faults archive.old ≤ A.faults archive.new }
        ensures relay_more { Y.faults relay.old ≤ Y.faults relay.new }

        ensures rows { (chain : Chain) (c : ClientState) → G.stands ledger.old chain
            → CachesStand caches.old chain chain → slice_get self.old i ≡ Some c
            → ReadsWithin (ClientReads chain (G.buckets ledger.old) c)
            (G.reads ledger.old) (G.reads ledger.new) }
    {
        let (outs, stays) = client_turn(
            alloc,
            ledger,
            archive,
            holdings,
            caches,
            desk,
            relay,
            &mut self.list[i],
            &mut self.watched,
        );
        if !stays {
            take_out(&mut self.list, &mut self.watched, i);
            return (outs, false);
        }
        (outs, true)
    }

    /// The telling of the client at that place, which is gone where it was closed for it.
    pub fn tell<G: Ledger>(
        &mut self,
        alloc: Global,
        ledger: &mut G,
        holdings: &Holdings,
        touched: &Touched,
        before: &Option<Hash32>,
        i: usize,
    ) -> Outs
        requires inside { i < length self.old }
        requires live { G.is_live ledger.old }

        ensures turn { TellsAt (λ c left. (side : Side)
            → IsToTell G.stands ledger.old holdings.now touched.now side c
            → TellTurn side before.now (λ n. RoseBy (G.faults ledger.old) (G.faults ledger.new) n)
            c (outs_of result) left) i self.old self.new }

        ensures quiet { Asked ⟦<G as Ledger>⟧ ledger.old ledger.new }
        ensures disk_more { G.faults ledger.old ≤ G.faults ledger.new }
    {
        let (outs, stays) = tell_turn(alloc, ledger, holdings, touched, before, &mut self.list[i]);
        if stays {
            return outs;
        }
        self.take_away(i);
        outs
    }
}
