// The server: a pure core that takes arrivals and answers by turns.
ghost use Rattle.std.specs.Prelude.{◌≡◌, ◌≢◌, ◌⊎◌, ◌<◌, ◌≤◌, ◌+◌, ℕ, Bool, List, [], ◌∷◌, None, Some, true, false, OnSome, OnOk, OnErr, IfOk, IfErr, IfSome, IfNone, IsErrOf, length};
ghost use Rattle.el_outside.specs.Counts.{RoseBy};
ghost use Rattle.el_outside.specs.Files.{AllGrow};
ghost use Rattle.el_chain.specs.declared.moves.Plan as moves;
ghost use Rattle.el_chain.specs.Chains.{Chain};
ghost use Rattle.el_fees.specs.Tables.{IsTableOf};
ghost use Rattle.el_side.specs.UnderWay.{IsFirstMove};
ghost use Rattle.el_model.specs.LedgerCalls.{Asked, KeepsBeside};
ghost use Rattle.el_model.specs.declared.fault.QueryFault.TheVariants as turn_fault;
ghost use Rattle.el_json.specs.Lines.{line_says};
ghost use Rattle.el_lines.specs.Lines.{line, too_long};
ghost use Rattle.el_replies.specs.RowBounds.{LineReads, ReadsWithin};
ghost use Rattle.el_side.specs.Caching.{CachesStand, CachesStay};
ghost use Rattle.el_relay.specs.Desk.{empty_desk};
ghost use Rattle.el_replies.specs.Spending.{asked_ghosts};
ghost use Rattle.el_side.specs.Beneath.{beneath, ghosts};
ghost use Rattle.el_side.specs.NodeSteps.{IsAt, IsSettled};
ghost use Rattle.el_side.specs.Plans.{plan_of};
ghost use Rattle.el_world.specs.Run.{MayStarve};
ghost use Rattle.el_side.specs.Side.{Side, IsSure, Moving, OrdersLine};
ghost use Rattle.el_world.specs.World.{World, Event, joins, says, is_client, IsStill, AllTold, initial_world, without_client, reply_to};
ghost use Rattle.el_lines.specs.LineStates.{as_listed, held_bytes};
ghost use Rattle.el_sync.specs.Steps.{StepFails, IsFrom, StopsAt};
ghost use Rattle.el_core.specs.State.{AreUpTo, IsIdle, Stands, HasGivenAll, asking_of, beneath_of, lent, serving, waiting, work, work_of_peers};
ghost use Rattle.el_core.specs.Arrivals.{TookArrival, IsAbove, ComesUpTo, with_all_bytes, gone_from};
ghost use Rattle.el_core.specs.Turn.{TookTurn, TurnFailed, IsDone, HasLost, MeetsLine, WaitsToBeTold, ClosesLong, outs_of};
ghost use Rattle.el_core.specs.within.Answering.{Answered, NodeKeeps};
ghost use Rattle.el_core.specs.within.RowBounds.{SpeakerReads};
ghost use Rattle.el_core.specs.within.Clients.{Hears, Opens, GivesEvent, NextIsLine, IsFirstWaiting, SpeakerSteps, PeersTurn, passing, IsToTell, TellTurn, TellsAt, all_wait, begun_at};

use crate::client::{Client, closing, rooms_for_one, sending_in};
use crate::clients::Clients;
use crate::out::Outs;
use crate::touching::touch;
use el_base::{Hash32, OutOfMemory};
use el_chain::Touched;
use el_lines::{LineBuffer, LineEvent, NODE_LINE_LIMIT, answer_text};
use el_model::Ledger;
use el_outside::{Archive, Arrival, CLIENT_LIMIT, Pace, Peer, Relay, Why};
use el_relay::Desk;
use el_side::{Caches, Holdings};
use el_sync::{Ahead, StepFault, move_next, order};
use std::alloc::Global;
use std::marker::Model;
use std::mem;
use std::thread::Threads;

/// The server's state: the ledger that it answers from, the headers that were found and the unconfirmed set,
/// what was computed once of the chain, the desk of broadcasts, the node's bytes and what its last tip line
/// is still to do, its clients, which of them speaks, a client too many that isn't closed yet, and for the
/// telling of clients the tip before the node's last line and what this line touched. Contracts see it as a
/// `State`, which stands for a `World`.
///
/// An arrival is taken by `take`; then `turn` is called until it answers None, and only then the next arrival
/// is taken. What a turn gives is sent and closed before the next turn, and a client to whom a message can't
/// be sent is told by `gone`. After a `StepFault` `into_ledger` alone may be called.
#[derive(Drop)]
pub struct Server<G: Ledger> {
    alloc: Global,
    ledger: G,
    holdings: Holdings,
    caches: Caches,
    desk: Desk,
    node: LineBuffer,
    ahead: Ahead,
    clients: Clients,
    speaker: Option<Peer>,
    surplus: Option<Peer>,
    before: Option<Hash32>,
    touched: Touched,
}

impl<G: Ledger> Model for Server<G> {
    ghost use Rattle.std.specs.Prelude.{◌≡◌};
    ghost use Rattle.std.specs.List.{AllByRecursion};
    ghost use Rattle.el_chain.specs.Headers.{AreLinked};
    ghost use Rattle.el_chain.specs.Records.{IsNode};
    ghost use Rattle.el_lines.specs.NodeAnswers.{node_limit};
    ghost use Rattle.el_core.specs.State.{State};
    ghost use Rattle.el_sync.specs.Steps.{previous_hash};

    ghost Value = { State G };

    ghost view = { λ s. record {
      ledger = s.ledger;
      holdings = s.holdings;
      caches = s.caches;
      desk = s.desk;
      node = s.node.state;
      ahead = s.ahead;
      clients = s.clients;
      speaker = s.speaker;
      surplus = s.surplus;
      before = s.before;
      touched = s.touched;
    } };

    ghost invariant = { λ s. AllByRecursion IsNode s.ahead
        × AreLinked (previous_hash (G.tip s.ledger)) s.ahead
        × (s.node.state.limit ≡ node_limit) };
}

impl<G: Ledger> Server<G> {
    /// A server without clients, whose node has said nothing, so that nothing unconfirmed is kept, with a new
    /// desk of broadcasts. Takes no memory.
    pub fn new(
        alloc: Global,
        ledger: G,
        holdings: Holdings,
        caches: Caches,
        desk: Desk,
    ) -> Server<G>
        requires live { G.is_live ledger }

        ensures ledger { result.ledger ≡ ledger }
        ensures stands { (sure relays : Bool) (chain : Chain) (files : ℕ → List ℕ)
            → (sure ≡ true → G.stands ledger chain) → (sure ≡ true → CachesStand caches chain chain)
            → holdings.pool.entries ≡ [] → IsTableOf holdings.fees [] → desk ≡ empty_desk relays
            → Stands G.stands result
            (initial_world sure chain holdings.magic holdings.pool.limits holdings.tree files relays) [] }
        ensures idle { IsIdle result }
        ensures clients { result.clients ≡ [] }
    {
        Server {
            alloc,
            ledger,
            holdings,
            caches,
            desk,
            node: LineBuffer::new(alloc, NODE_LINE_LIMIT),
            ahead: Ahead::none(alloc),
            clients: Clients::new(alloc),
            speaker: None,
            surplus: None,
            before: None,
            touched: Touched::new(alloc),
        }
    }

    /// The ledger, as it stands, also after a `StepFault`.
    pub fn into_ledger(self) -> G
        ensures { result ≡ self.ledger }
    {
        let Server {
            alloc: _,
            ledger,
            holdings: _,
            caches: _,
            desk: _,
            node: _,
            ahead: _,
            clients: _,
            speaker: _,
            surplus: _,
            before: _,
            touched: _,
        } = self;
        ledger
    }

    /// Takes an arrival, with exactly its bytes; what it asks for is left to turns. Bytes of a peer that is
    /// no client are ignored. Where memory runs out for a client's bytes, the next turn closes it.
    ///
    /// # Errors
    ///
    /// `OutOfMemory` for the node's bytes, which are then lost, or for a new client; the server is as it was.
    pub fn take(&mut self, arrival: Arrival, bytes: &[u8]) -> Result<(), OutOfMemory>
        requires idle { IsIdle self.old }
        // Who comes has a greater number than each client.
        requires new { (last : ℕ) × AreUpTo last self.old.clients × IsAbove last arrival }

        ensures taken { (world : World) → Stands G.stands self.old world []
            → OnOk result (TookArrival G.stands (with_all_bytes arrival bytes.now) world self.new) }

        ensures refused { OnErr result (self.new ≡ self.old) }
        ensures ledger { self.new.ledger ≡ self.old.ledger }
        ensures numbers { (last now : ℕ) → last ≤ now → AreUpTo last self.old.clients → ComesUpTo now arrival
            → OnOk result (AreUpTo now self.new.clients) }

        ensures memory { OnErr result (MayStarve (with_all_bytes arrival bytes.now)) }
    {
        match arrival {
            Arrival::Opened(p) => self.open(p)?,
            Arrival::Bytes(p, _) => {
                if p == 0 {
                    self.node.feed(bytes)?;
                } else {
                    self.hear(p, bytes);
                }
            }
            Arrival::Closed(p) => self.forget(p),
            Arrival::Quiet => {}
            Arrival::Ended => {}
        }
        Ok(())
    }

    // A peer comes: a client, one too many, or the node, which is none.
    fn open(&mut self, p: Peer) -> Result<(), OutOfMemory>
        ensures opens { OnOk result (Opens p self.old self.new) }
        ensures same { OnErr result (self.new ≡ self.old) }
        ensures client { OnErr result (p ≡ 0 → ⊥) }
    {
        if p == 0 {
            return Ok(());
        }
        if self.clients.len() < CLIENT_LIMIT {
            self.clients.push(Client::new(self.alloc, p))?;
        } else {
            self.surplus = Some(p);
        }
        Ok(())
    }

    // Bytes of a client come.
    fn hear(&mut self, p: Peer, bytes: &[u8])
        ensures { Hears p bytes.now self.old self.new }
    {
        if let Some(i) = self.clients.place_of(p) {
            self.clients.hear(i, bytes);
            self.speaker = Some(p);
        }
    }

    /// Forgets a client that is gone, with all that is left of its bytes. For another peer nothing changes.
    pub fn gone(&mut self, p: Peer)
        ensures gone { self.new ≡ gone_from self.old p }
        // What is left of its lines has no effect.
        ensures stands { self.old.surplus ≡ None → (world : World) (rest : List Event)
            → Stands G.stands self.old world rest → Stands G.stands self.new (without_client p world) rest }

        ensures no_more { work self.new ≤ work self.old }
        ensures numbers { (last : ℕ) → AreUpTo last self.old.clients → AreUpTo last self.new.clients }
    {
        self.forget(p);
    }

    // Forgets a client.
    fn forget(&mut self, p: Peer)
        ensures { self.new ≡ gone_from self.old p }
    {
        self.clients.forget(p);
        if self.speaker == Some(p) {
            self.speaker = None;
        }
    }

    // The next move of the node's last tip line.
    fn turn_ahead<W: Threads + Sync, A: Archive>(
        &mut self,
        rt: &W,
        archive: &mut A,
        pace: &(dyn Pace + Sync),
    ) -> Result<Outs, StepFault>
        requires live { G.is_live self.old.ledger }
        requires some { self.old.ahead ≢ [] }
        ensures moving { let of = ghosts ⟦<G as Ledger>⟧ ⟦<A as Archive>⟧ in
            let was = serving self.old archive.old in (side : Side) (start : Chain)
            → IsAt of (beneath_of was) self.old.holdings self.old.caches side start
            → side.found ≡ self.old.holdings.tree
            → IfOk result (Answered of (Moving ⟦<A as Archive>⟧ side 0 self.old.ahead) was
            (serving self.new archive.new) side start) }
        ensures sends { IfOk result (λ o. (text : List ℕ) × (outs_of o ≡ reply_to 0 text)) }
        ensures stopped { let of = ghosts ⟦<G as Ledger>⟧ ⟦<A as Archive>⟧ in
            let was = beneath self.old.ledger archive.old in (side : Side) (start : Chain)
            → IsSure side → IsAt of was self.old.holdings self.old.caches side start → IfErr result (
            StopsAt of was (beneath self.new.ledger archive.new) side.chain true
            (λ (p : moves.Plan). p ≡ plan_of 0 self.old.ahead)) }
        ensures lost { let of = ghosts ⟦<G as Ledger>⟧ ⟦<A as Archive>⟧ in
            let was = beneath self.old.ledger archive.old in (side : Side) (start : Chain)
            → side.sure ≡ false → IsAt of was self.old.holdings self.old.caches side start → IfErr result (
            StepFails of was (beneath self.new.ledger archive.new) side.chain true) }
        ensures some { self.old.ahead ≢ [] }
        ensures fewer { OnOk result (length self.new.ahead < length self.old.ahead) }
        ensures same { self.new ≡ record self.old {
          ledger = self.new.ledger;
          holdings = self.new.holdings;
          caches = self.new.caches;
          ahead = self.new.ahead;
          touched = self.new.touched;
        } }
        ensures tree { self.new.holdings.tree ≡ self.old.holdings.tree }
        ensures magic { self.new.holdings.magic ≡ self.old.holdings.magic }
        ensures step { NodeKeeps (ghosts ⟦<G as Ledger>⟧ ⟦<A as Archive>⟧)
            (beneath self.old.ledger archive.old) (beneath self.new.ledger archive.new) result }
    {
        let Ok((room, message)) = rooms_for_one(self.alloc) else {
            return Err(StepFault::Memory);
        };
        let rest = mem::replace(&mut self.ahead, Ahead::none(self.alloc));
        match move_next(
            rt,
            self.alloc,
            &mut self.ledger,
            &mut self.holdings,
            &mut self.caches,
            rest,
            archive,
            pace,
        ) {
            Ok(step) => {
                let Ok(()) = touch(&self.clients, &mut self.touched, &step.moved, &step.changed)
                else {
                    return Err(StepFault::Memory);
                };
                self.ahead = step.left;
                Ok(sending_in(message, 0, answer_text(room, &step.answer)))
            }
            Err(fault) => Err(fault),
        }
    }

    // A line of the node begins: the tip is kept, nothing is touched yet, and each client is to be told.
    // Takes no memory.
    fn begin(&mut self)
        ensures { self.new ≡ begun_at (G.tip self.old.ledger) self.old }
    {
        self.before = self.ledger.tip();
        self.touched = Touched::new(self.alloc);
        self.clients.await_telling();
    }

    // A line of the node, which was read: it begins, and is worked.
    fn turn_node<W: Threads + Sync, A: Archive>(
        &mut self,
        rt: &W,
        met: LineEvent,
        archive: &mut A,
        pace: &(dyn Pace + Sync),
    ) -> Result<Outs, StepFault>
        requires live { G.is_live self.old.ledger }
        requires still { self.old.ahead ≡ [] }
        requires told { waiting self.old.clients ≡ [] }
        ensures node { let of = ghosts ⟦<G as Ledger>⟧ ⟦<A as Archive>⟧ in
            let begun = begun_at (G.tip self.old.ledger) self.old in (side : Side) (start : Chain)
            → IsAt of (beneath self.old.ledger archive.old) self.old.holdings self.old.caches side start
            → IsFrom self.old.holdings side
            → IfOk result (Answered of (OrdersLine ⟦<A as Archive>⟧ side (as_listed met))
            (serving begun archive.old) (serving self.new archive.new) side start) }
        ensures sends { IfOk result (λ o. (text : List ℕ) × (outs_of o ≡ reply_to 0 text)) }
        ensures stopped { let of = ghosts ⟦<G as Ledger>⟧ ⟦<A as Archive>⟧ in
            let was = beneath self.old.ledger archive.old in (side : Side) (start : Chain)
            → IsSure side → IsAt of was self.old.holdings self.old.caches side start
            → IsFrom self.old.holdings side
            → IfErr result (
            StopsAt of was (beneath self.new.ledger archive.new) side.chain false
            (IsFirstMove side (as_listed met))) }
        ensures lost { let of = ghosts ⟦<G as Ledger>⟧ ⟦<A as Archive>⟧ in
            let was = beneath self.old.ledger archive.old in (side : Side) (start : Chain)
            → side.sure ≡ false → IsAt of was self.old.holdings self.old.caches side start
            → IsFrom self.old.holdings side
            → IfErr result (StepFails of was (beneath self.new.ledger archive.new) side.chain false) }
        ensures still { self.old.ahead ≡ [] }
        ensures told { waiting self.old.clients ≡ [] }
        ensures fewer { OnOk result (length self.new.ahead ≤ length self.old.holdings.tree) }
        ensures more { OnOk result (length self.new.holdings.tree ≤ length self.old.holdings.tree + 1) }
        ensures begun { OnOk result ((self.new.clients ≡ all_wait self.old.clients)
            × (self.new.before ≡ G.tip self.old.ledger)) }
        ensures same { self.new ≡ record self.old {
          ledger = self.new.ledger;
          holdings = self.new.holdings;
          caches = self.new.caches;
          ahead = self.new.ahead;
          clients = self.new.clients;
          before = self.new.before;
          touched = self.new.touched;
        } }
        ensures magic { self.new.holdings.magic ≡ self.old.holdings.magic }
        ensures numbers { (last : ℕ) → AreUpTo last self.old.clients → AreUpTo last self.new.clients }
        ensures step { NodeKeeps (ghosts ⟦<G as Ledger>⟧ ⟦<A as Archive>⟧)
            (beneath self.old.ledger archive.old) (beneath self.new.ledger archive.new) result }
    {
        let Ok((room, message)) = rooms_for_one(self.alloc) else {
            return Err(StepFault::Memory);
        };
        self.begin();
        match order(
            rt,
            self.alloc,
            &mut self.ledger,
            &mut self.holdings,
            &mut self.caches,
            archive,
            met,
            pace,
        ) {
            Ok(step) => {
                let Ok(()) = touch(&self.clients, &mut self.touched, &step.moved, &step.changed)
                else {
                    return Err(StepFault::Memory);
                };
                self.ahead = step.left;
                Ok(sending_in(message, 0, answer_text(room, &step.answer)))
            }
            Err(fault) => Err(fault),
        }
    }

    // The telling of the client at that place, the first that waits. The block files aren't read, and the
    // relay isn't asked.
    fn turn_tell<A: Archive, Y: Relay>(&mut self, i: usize, archive: &A, relay: &Y) -> Outs
        requires live { G.is_live self.old.ledger }
        requires inside { i < length self.old.clients }
        requires still { self.old.ahead ≡ [] }
        requires first { IsFirstWaiting self.old.clients (Some i) }
        // The turn is the telling of the next client, as `Run` allows it.
        ensures step { (world : World) (left : List Event) → Stands G.stands self.old world left
            → (A.tells → AllGrow world.side.files (A.bytes archive.now))
            → TookTurn (asked_ghosts (ghosts ⟦<G as Ledger>⟧ ⟦<A as Archive>⟧) ⟦<Y as Relay>⟧)
            (lent self.old archive.now relay.now) (lent self.new archive.now relay.now) world left
            (outs_of result) }
        ensures tells { TellsAt (λ c left. (side : Side)
            → IsToTell G.stands self.old.ledger self.old.holdings self.old.touched side c
            → TellTurn side self.old.before
            (λ n. RoseBy (G.faults self.old.ledger) (G.faults self.new.ledger) n)
            c (outs_of result) left) i self.old.clients self.new.clients }
        ensures disk_more { G.faults self.old.ledger ≤ G.faults self.new.ledger }
        ensures beside { KeepsBeside ⟦<G as Ledger>⟧ self.old.ledger self.new.ledger }
        ensures same { self.new ≡ record self.old {
          ledger = self.new.ledger;
          clients = self.new.clients;
        } }
        ensures less { work self.new < work self.old }
        ensures numbers { (last : ℕ) → AreUpTo last self.old.clients → AreUpTo last self.new.clients }
        ensures live { G.is_live self.new.ledger }
    {
        let _ = archive;
        let _ = relay;
        self.clients.tell(
            self.alloc,
            &mut self.ledger,
            &self.holdings,
            &self.touched,
            &self.before,
            i,
        )
    }

    // The client too many, which is then forgotten.
    fn take_surplus(&mut self) -> Option<Peer>
        ensures value { result ≡ self.old.surplus }
        ensures after { self.new ≡ record self.old { surplus = None } }
    {
        self.surplus.take()
    }

    // A turn of the client that speaks.
    fn turn_client<A: Archive, Y: Relay>(&mut self, archive: &mut A, relay: &mut Y) -> Option<Outs>
        requires live { G.is_live self.old.ledger }
        ensures speaker_steps { let of = ghosts ⟦<G as Ledger>⟧ ⟦<A as Archive>⟧ in
            let was = beneath self.old.ledger archive.old in (side : Side)
            → IsSettled of was self.old.holdings self.old.caches side → SpeakerSteps A.tells side
            (passing (asked_ghosts of ⟦<Y as Relay>⟧)
            (asking_of (lent self.old archive.old relay.old))
            (asking_of (lent self.new archive.new relay.new))) self.old result self.new }
        ensures quiet { Asked ⟦<G as Ledger>⟧ self.old.ledger self.new.ledger }
        ensures caches { CachesStay ⟦<G as Ledger>⟧ self.old.ledger self.old.caches self.new.caches }
        ensures keeps { A.tells → AllGrow (A.bytes archive.old) (A.bytes archive.new) }
        ensures still { IfNone result ((G.faults self.new.ledger ≡ G.faults self.old.ledger)
            × (A.faults archive.new ≡ A.faults archive.old) × (relay.new ≡ relay.old)) }
        ensures disk_more { G.faults self.old.ledger ≤ G.faults self.new.ledger }
        ensures archive_more { A.faults archive.old ≤ A.faults archive.new }
        ensures relay_more { Y.faults relay.old ≤ Y.faults relay.new }
        ensures rows { (chain : Chain) → G.stands self.old.ledger chain
            → CachesStand self.old.caches chain chain
            → ReadsWithin (SpeakerReads chain (G.buckets self.old.ledger) self.old.speaker self.old.clients)
            (G.reads self.old.ledger) (G.reads self.new.ledger) }
        ensures same { self.new ≡ record self.old {
          ledger = self.new.ledger;
          caches = self.new.caches;
          desk = self.new.desk;
          clients = self.new.clients;
          speaker = self.new.speaker;
        } }
        ensures less { OnSome result (work_of_peers self.new < work_of_peers self.old) }
        ensures waits { length (waiting self.new.clients) ≤ length (waiting self.old.clients) }
        ensures fewer { length self.new.clients ≤ length self.old.clients }
        ensures done { IfNone result (self.new.speaker ≡ None) }
        ensures numbers { (last : ℕ) → AreUpTo last self.old.clients → AreUpTo last self.new.clients }
    {
        let Some(p) = self.speaker else {
            return None;
        };
        let Some(i) = self.clients.place_of(p) else {
            self.speaker = None;
            return None;
        };
        let (outs, stays) = self.clients.turn(
            self.alloc,
            &mut self.ledger,
            archive,
            &self.holdings,
            &mut self.caches,
            &mut self.desk,
            relay,
            i,
        );
        if !stays {
            self.speaker = None;
            return outs;
        }
        match outs {
            Some(outs) => Some(outs),
            None => {
                self.speaker = None;
                None
            }
        }
    }

    // The next line of the node.
    fn next_line(&mut self) -> Result<Option<LineEvent>, OutOfMemory>
        ensures met { IfOk result (λ found. IfSome found (λ e.
            GivesEvent self.old.node (as_listed e) self.new.node)) }
        ensures none { IfOk result (λ found. IfNone found (HasGivenAll self.old.node)) }
        ensures unchanged { IfOk result (λ found. IfNone found (self.new ≡ self.old)) }
        ensures consumed { IfOk result (λ found. IfSome found (λ e.
            held_bytes self.new.node < held_bytes self.old.node)) }
        ensures line { OnErr result (NextIsLine self.old.node) }
        ensures refused { OnErr result (self.new ≡ self.old) }
        ensures limit { self.new.node.limit ≡ self.old.node.limit }
        ensures same { self.new ≡ record self.old { node = self.new.node } }
    {
        self.node.next_line()
    }

    // A turn where the node has nothing left: the client too many is closed, or the one that speaks has its
    // turn.
    fn turn_peers<A: Archive, Y: Relay>(&mut self, archive: &mut A, relay: &mut Y) -> Option<Outs>
        requires live { G.is_live self.old.ledger }
        ensures peers { let of = ghosts ⟦<G as Ledger>⟧ ⟦<A as Archive>⟧ in
            let was = beneath self.old.ledger archive.old in (side : Side)
            → IsSettled of was self.old.holdings self.old.caches side → PeersTurn A.tells side
            (passing (asked_ghosts of ⟦<Y as Relay>⟧)
            (asking_of (lent self.old archive.old relay.old))
            (asking_of (lent self.new archive.new relay.new))) self.old result self.new }
        ensures quiet { Asked ⟦<G as Ledger>⟧ self.old.ledger self.new.ledger }
        ensures caches { CachesStay ⟦<G as Ledger>⟧ self.old.ledger self.old.caches self.new.caches }
        ensures keeps { A.tells → AllGrow (A.bytes archive.old) (A.bytes archive.new) }
        ensures still { IfNone result ((G.faults self.new.ledger ≡ G.faults self.old.ledger)
            × (A.faults archive.new ≡ A.faults archive.old) × (relay.new ≡ relay.old)) }
        ensures disk_more { G.faults self.old.ledger ≤ G.faults self.new.ledger }
        ensures archive_more { A.faults archive.old ≤ A.faults archive.new }
        ensures relay_more { Y.faults relay.old ≤ Y.faults relay.new }
        ensures rows { (chain : Chain) → G.stands self.old.ledger chain
            → CachesStand self.old.caches chain chain
            → ReadsWithin (SpeakerReads chain (G.buckets self.old.ledger) self.old.speaker self.old.clients)
            (G.reads self.old.ledger) (G.reads self.new.ledger) }
        ensures same { self.new ≡ record self.old {
          ledger = self.new.ledger;
          caches = self.new.caches;
          desk = self.new.desk;
          clients = self.new.clients;
          speaker = self.new.speaker;
          surplus = self.new.surplus;
        } }
        ensures less { OnSome result (work_of_peers self.new < work_of_peers self.old) }
        ensures waits { length (waiting self.new.clients) ≤ length (waiting self.old.clients) }
        ensures fewer { length self.new.clients ≤ length self.old.clients }
        ensures unused { self.new.surplus ≡ None }
        ensures done { IfNone result ((self.new.speaker ≡ None) × (self.new.surplus ≡ None)) }
        ensures numbers { (last : ℕ) → AreUpTo last self.old.clients → AreUpTo last self.new.clients }
    {
        match self.take_surplus() {
            Some(p) => Some(closing(self.alloc, p, Why::Clients)),
            None => self.turn_client(archive, relay),
        }
    }

    /// Does the next piece of work: the next move of the node's last tip line, the telling of a client after
    /// it, the node's next line, or what is left of the client that speaks. None exactly where none is left
    /// to do, and everyone was told; the start of a line, which is kept until its end comes, is no work. The
    /// blocks of a move are prepared in threads of the runtime, at the pace that is lent.
    ///
    /// # Errors
    ///
    /// In a line of the node: `StepFault::DiskFailed` where a call on the index's device failed, and
    /// `StepFault::Memory` where memory runs out.
    pub fn turn<W: Threads + Sync, A: Archive, Y: Relay>(
        &mut self,
        rt: &W,
        archive: &mut A,
        pace: &(dyn Pace + Sync),
        relay: &mut Y,
    ) -> Result<Option<Outs>, StepFault>
        requires live { G.is_live self.old.ledger }

        // It takes the next event, or does what an event left, as `Run` allows.
        ensures step { (world : World) (left : List Event) → Stands G.stands self.old world left
            → (A.tells → AllGrow world.side.files (A.bytes archive.old)) → IfOk result (λ found.
            IfSome found (λ o. TookTurn
            (asked_ghosts (ghosts ⟦<G as Ledger>⟧ ⟦<A as Archive>⟧) ⟦<Y as Relay>⟧)
            (lent self.old archive.old relay.old) (lent self.new archive.new relay.new) world left
            (outs_of o))) }
        // Where nothing is done, nothing is left, and everyone was told.
        ensures done { (world : World) (left : List Event) → Stands G.stands self.old world left
            → IfOk result (λ found. IfNone found (IsDone G.stands ⟦<A as Archive>⟧ world left self.new)) }
        // A client's next line that is too long closes it as that, where none of its bytes were lost.
        ensures long { (world : World) (p : ℕ) (rest : List Event)
            → Stands G.stands self.old world (says p too_long ∷ rest) → IsStill world
            → AllTold world → is_client p world ≡ true → (HasLost p self.old.clients → ⊥)
            → ClosesLong p result }
        // Who joins by a turn is one too many.
        ensures waiting { (world : World) (p : ℕ) (rest : List Event)
            → Stands G.stands self.old world (joins p ∷ rest) → self.old.surplus ≡ Some p }
        // No client too many comes by a turn.
        ensures surplus { IfOk result (λ found.
            (self.new.surplus ≡ None) ⊎ (self.new.surplus ≡ self.old.surplus)) }
        ensures less { IfOk result (λ found. IfSome found (λ o. work self.new < work self.old)) }
        ensures idle { IfOk result (λ found. IfNone found (IsIdle self.new)) }

        ensures unchanged { IfOk result (λ found. IfNone found
            ((G.faults self.new.ledger ≡ G.faults self.old.ledger)
            × (A.faults archive.new ≡ A.faults archive.old) × (relay.new ≡ relay.old))) }
        ensures unasked { OnErr result (relay.new ≡ relay.old) }
        ensures numbers { (last : ℕ) → AreUpTo last self.old.clients → AreUpTo last self.new.clients }
        ensures live { OnOk result (G.is_live self.new.ledger) }
        ensures keeps { A.tells → AllGrow (A.bytes archive.old) (A.bytes archive.new) }
        // Also over a ledger that stands for no chain, and also where it fails.
        ensures archive_more { A.faults archive.old ≤ A.faults archive.new }
        ensures relay_more { Y.faults relay.old ≤ Y.faults relay.new }
        ensures disk_more { G.faults self.old.ledger ≤ G.faults self.new.ledger }
        ensures beside { KeepsBeside ⟦<G as Ledger>⟧ self.old.ledger self.new.ledger }

        // Where it fails, the server stops.
        ensures failed { (world : World) (left : List Event) → Stands G.stands self.old world left
            → (A.tells → AllGrow world.side.files (A.bytes archive.old)) → IfErr result (λ e.
            TurnFailed (ghosts ⟦<G as Ledger>⟧ ⟦<A as Archive>⟧) (beneath self.old.ledger archive.old)
            (beneath self.new.ledger archive.new) world left e) }
        // A closing as out of memory stands for lost bytes, or for a whole line, its reply or what the client
        // was to be told that found none.
        ensures memory { (world : World) (left : List Event) (p : ℕ) → Stands G.stands self.old world left
            → IfOk result (λ found. IfSome found (λ o. o.close ≡ Some (p, Why.Memory)
            → HasLost p self.old.clients ⊎ (MeetsLine p left ⊎ WaitsToBeTold p world))) }
        // For a client's next line the turn reads at most the rows of the calls that its requests ask for,
        // each once.
        ensures rows { (world : World) (p : ℕ) (bytes : List ℕ) (rest : List Event)
            → Stands G.stands self.old world (says p (line bytes) ∷ rest) → IsStill world
            → AllTold world → IsSure world.side
            → ReadsWithin (LineReads world.side.chain (G.buckets self.old.ledger) (line_says bytes))
            (G.reads self.old.ledger) (G.reads self.new.ledger) }
        ensures disk_counted { IsErrOf result turn_fault.DiskFailed
            → RoseBy (G.faults self.old.ledger) (G.faults self.new.ledger) 1 }
    {
        if !self.ahead.is_empty() {
            return match self.turn_ahead(rt, archive, pace) {
                Ok(outs) => Ok(Some(outs)),
                Err(fault) => Err(fault),
            };
        }
        if let Some(i) = self.clients.first_waiting() {
            return Ok(Some(self.turn_tell(i, archive, relay)));
        }
        match self.next_line() {
            Err(_) => Err(StepFault::Memory),
            Ok(None) => Ok(self.turn_peers(archive, relay)),
            Ok(Some(met)) => match self.turn_node(rt, met, archive, pace) {
                Ok(outs) => Ok(Some(outs)),
                Err(fault) => Err(fault),
            },
        }
    }
}
