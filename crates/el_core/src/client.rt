// A client and its bytes.
ghost use Rattle.std.specs.Prelude.{◌≡◌, ◌<◌, ◌≤◌, [], ◌∷◌, true, false, not, None, Some, OnOk, OnErr, OnSome, IfOk, IfSome, IfNone, length, vec_capacity};
ghost use Rattle.std.specs.List.{AllByRecursion};
ghost use Rattle.std.specs.Map.{keys_of};
ghost use Rattle.el_outside.specs.Counts.{CountsOnly};
ghost use Rattle.el_outside.specs.Files.{AllGrow};
ghost use Rattle.el_chain.specs.Chains.{Chain};
ghost use Rattle.el_json.specs.Lines.{line_says};
ghost use Rattle.el_model.specs.LedgerCalls.{Asked};
ghost use Rattle.el_subs.specs.Notices.{notices, IsNotice};
ghost use Rattle.el_subs.specs.Told.{status};
ghost use Rattle.el_replies.specs.Spending.{asked_ghosts, asking};
ghost use Rattle.el_side.specs.Beneath.{beneath, ghosts};
ghost use Rattle.el_side.specs.Side.{Side, IsSure};
ghost use Rattle.el_world.specs.World.{StaysSubscribed, line_limit, new_client, outs_of_reply, reply_to};
ghost use Rattle.el_lines.specs.LineStates.{as_listed, held_bytes};
ghost use Rattle.el_sessions.specs.Watching.{Follows};
ghost use Rattle.el_replies.specs.RowBounds.{LineReads, ReadsWithin};
ghost use Rattle.el_core.specs.State.{HasGivenAll, HasNoWork, IsHeardOut, work_of_client};
ghost use Rattle.el_core.specs.Turn.{messages_of, outs_of};
ghost use Rattle.el_side.specs.Caching.{CachesStand, CachesStay};
ghost use Rattle.el_side.specs.NodeSteps.{IsSettled};
ghost use Rattle.el_core.specs.within.Clients.{IsNewClient, KeepsBytes, GivesEvent, NextIsLine, LineAnswered, AnswersClient, ClientTurn, IsToTell, passing, left_if, told_client};
ghost use Rattle.el_core.specs.within.RowBounds.{ClientReads, EventReads};

use crate::out::Outs;
use el_base::{Bytes, Hash32, Listed, OutOfMemory};
use el_chain::Touched;
use el_lines::{AnswerRoom, LINE_LIMIT, LineBuffer, LineEvent};
use el_model::{Ledger, QueryFault};
use el_outside::{Archive, Peer, Relay, Why};
use el_relay::Desk;
use el_replies::{LineReply, reply_line};
use el_sessions::{Session, Subs, Watched};
use el_side::{Caches, Holdings};
use el_subs::notify;
use std::alloc::Global;
use std::marker::Model;

/// A connected client, which contracts see as a `ClientState`.
#[derive(Drop)]
pub struct Client {
    peer: Peer,
    buffer: LineBuffer,
    lost: bool,
    session: Session,
    waits: bool,
}

impl Model for Client {
    ghost use Rattle.el_core.specs.State.{ClientState};

    ghost Value = { ClientState };

    ghost view = { λ c. record {
      peer = c.peer;
      buffer = c.buffer.state;
      lost = c.lost;
      session = c.session;
      waits = c.waits;
    } };
}

// What is kept of a client that has asked for nothing. Takes no memory.
fn fresh_session(alloc: Global) -> Session
    ensures { result ≡ new_client }
{
    Session {
        version: None,
        headers: false,
        subs: Subs::new(alloc),
    }
}

impl Client {
    /// A client that has sent nothing. Takes no memory.
    pub fn new(alloc: Global, peer: Peer) -> Client
        ensures { IsNewClient peer result }
    {
        Client {
            peer,
            buffer: LineBuffer::new(alloc, LINE_LIMIT),
            lost: false,
            session: fresh_session(alloc),
            waits: false,
        }
    }

    /// The client's number.
    pub fn peer(&self) -> Peer
        ensures { result ≡ self.now.peer }
    {
        self.peer
    }

    /// Whether bytes of the client were lost where memory ran out.
    pub fn is_lost(&self) -> bool
        ensures { result ≡ self.now.lost }
    {
        self.lost
    }

    /// Whether the client is still to be told of the node's last line.
    pub fn waits(&self) -> bool
        ensures { result ≡ self.now.waits }
    {
        self.waits
    }

    /// From now on the client is to be told of a line of the node.
    pub fn await_telling(&mut self)
        ensures { self.new ≡ record self.old { waits = true } }
    {
        self.waits = true;
    }

    /// What the client subscribes to, once it is gone.
    pub fn into_subs(self) -> Subs
        ensures { result ≡ self.session.subs }
    {
        self.session.subs
    }

    /// The lines that the client is told of the node's last line. It then waits no more, and what it was told
    /// is marked.
    ///
    /// # Errors
    ///
    /// `DiskFailed`, `Memory`; then the client is not used again.
    pub fn tell<G: Ledger>(
        &mut self,
        alloc: Global,
        ledger: &mut G,
        holdings: &Holdings,
        touched: &Touched,
        before: &Option<Hash32>,
    ) -> Result<Vec<Bytes>, QueryFault>
        requires live { G.is_live ledger.old }

        ensures told { (side : Side) → IsSure side
            → IsToTell G.stands ledger.old holdings.now touched.now side self.old
            → IfOk result (λ lines. lines.items
            ≡ notices (status side.chain side.kept) before.now side.chain self.old.session) }
        ensures marked { (side : Side) → IsSure side
            → IsToTell G.stands ledger.old holdings.now touched.now side self.old
            → OnOk result (self.new ≡ told_client side self.old) }
        // Whatever the ledger and the set stand for.
        ensures notices { IfOk result (λ lines. AllByRecursion IsNotice lines.items) }
        ensures done { OnOk result (self.new.waits ≡ false) }

        ensures stays { StaysSubscribed self.old.session self.new.session }
        ensures only { OnOk result
            (self.new ≡ record self.old { session = self.new.session; waits = false }) }
        ensures bytes { self.new.buffer ≡ self.old.buffer }
        ensures peer { self.new.peer ≡ self.old.peer }
        ensures keys { keys_of self.new.session.subs ≡ keys_of self.old.session.subs }
        ensures quiet { Asked ⟦<G as Ledger>⟧ ledger.old ledger.new }

        ensures cause { CountsOnly (G.faults ledger.old) (G.faults ledger.new) QueryFault.DiskFailed result }
    {
        let lines = notify(
            alloc,
            &mut self.session,
            ledger,
            &holdings.pool,
            touched,
            before,
        )?;
        self.waits = false;
        Ok(lines)
    }

    /// Keeps the bytes of an arrival, or that there was no memory for them.
    pub fn hear(&mut self, bytes: &[u8])
        ensures { KeepsBytes bytes.now self.old self.new }
    {
        match self.buffer.feed(bytes) {
            Ok(()) => self.lost = false,
            Err(_) => self.lost = true,
        }
    }

    // The next event of its bytes.
    fn next_line(&mut self) -> Result<Option<LineEvent>, OutOfMemory>
        ensures met { IfOk result (λ found. IfSome found (λ e.
            GivesEvent self.old.buffer (as_listed e) self.new.buffer)) }
        ensures none { IfOk result (λ found. IfNone found (HasGivenAll self.old.buffer)) }
        ensures unchanged { IfOk result (λ found. IfNone found (self.new ≡ self.old)) }
        ensures line { OnErr result (NextIsLine self.old.buffer) }
        ensures consumed { IfOk result (λ found. IfSome found (λ e.
            held_bytes self.new.buffer < held_bytes self.old.buffer)) }
        ensures limit { self.new.buffer.limit ≡ self.old.buffer.limit }
        ensures same { self.new ≡ record self.old { buffer = self.new.buffer } }
    {
        self.buffer.next_line()
    }
}

// Room for one message.
fn room_for_one(alloc: Global) -> Result<Vec<(Peer, Bytes)>, OutOfMemory>
    ensures empty { IfOk result (λ room. room.items ≡ []) }
    ensures room { IfOk result (λ room. length room.items < vec_capacity room) }
{
    let mut room = Vec::new(alloc);
    room.try_reserve(1)?;
    Ok(room)
}

/// Room for what the node is answered, and for one message.
pub fn rooms_for_one(alloc: Global) -> Result<(AnswerRoom, Vec<(Peer, Bytes)>), OutOfMemory>
    ensures empty { IfOk result (λ rooms. rooms.1.items ≡ []) }
    ensures room { IfOk result (λ rooms. length rooms.1.items < vec_capacity rooms.1) }
{
    let room = AnswerRoom::new(alloc)?;
    let message = room_for_one(alloc)?;
    Ok((room, message))
}

// A message, for which there is room. Takes no memory.
fn one_in(room: Vec<(Peer, Bytes)>, p: Peer, text: Bytes) -> Listed<(Peer, Bytes)>
    requires empty { room.items ≡ [] }
    requires room { length room.items < vec_capacity room }
    ensures { messages_of result ≡ record { peer = p; text = text } ∷ [] }
{
    let mut room = room;
    room.push_reserved((p, text));
    Listed::from_vec(room)
}

/// One message, for which there is room. Takes no memory.
pub fn sending_in(room: Vec<(Peer, Bytes)>, p: Peer, text: Bytes) -> Outs
    requires empty { room.items ≡ [] }
    requires room { length room.items < vec_capacity room }
    ensures { outs_of result ≡ reply_to p text }
{
    Outs {
        sends: one_in(room, p, text),
        close: None,
    }
}

/// One closing. Takes no memory.
pub fn closing(alloc: Global, p: Peer, why: Why) -> Outs
    ensures { outs_of result ≡ record { messages = []; closing = Some (record { peer = p; why = why }) } }
{
    Outs {
        sends: Listed::new(alloc),
        close: Some((p, why)),
    }
}

// What is sent where this comes of a line, and whom is then closed. There is room for a message. Takes no
// memory.
fn replying(alloc: Global, room: Vec<(Peer, Bytes)>, p: Peer, reply: LineReply) -> Outs
    requires empty { room.items ≡ [] }
    requires room { length room.items < vec_capacity room }
    ensures { outs_of result ≡ outs_of_reply p reply }
{
    let LineReply { text, closes } = reply;
    let close = if closes {
        Some((p, Why::Version))
    } else {
        None
    };
    let sends = match text {
        Some(text) => one_in(room, p, text),
        None => Listed::new(alloc),
    };
    Outs { sends, close }
}

// What a client gets for a line, and whether it stays. The room for the message is taken before the line is
// looked at: where there is none, nothing was asked.
#[tactic(auto, using(el_sessions::proofs::Counting::follows_same))]
fn answer_line<G: Ledger, A: Archive, Y: Relay>(
    alloc: Global,
    ledger: &mut G,
    archive: &mut A,
    holdings: &Holdings,
    caches: &mut Caches,
    desk: &mut Desk,
    relay: &mut Y,
    client: &mut Client,
    watched: &mut Watched,
    line: &[u8],
) -> (Outs, bool)
    requires live { G.is_live ledger.old }
    ensures answered { let of = ghosts ⟦<G as Ledger>⟧ ⟦<A as Archive>⟧ in
        let was = beneath ledger.old archive.old in (side : Side)
        → IsSettled of was holdings.now caches.old side
        → LineAnswered A.tells side (passing (asked_ghosts of ⟦<Y as Relay>⟧)
        (asking ledger.old archive.old relay.old desk.old) (asking ledger.new archive.new relay.new desk.new))
        client.old.peer line.now client.old.session client.new.session (outs_of result.0) result.1 }
    ensures quiet { Asked ⟦<G as Ledger>⟧ ledger.old ledger.new }
    ensures caches { CachesStay ⟦<G as Ledger>⟧ ledger.old caches.old caches.new }
    ensures keeps { A.tells → AllGrow (A.bytes archive.old) (A.bytes archive.new) }
    ensures disk_more { G.faults ledger.old ≤ G.faults ledger.new }
    ensures archive_more { A.faults archive.old ≤ A.faults archive.new }
    ensures relay_more { Y.faults relay.old ≤ Y.faults relay.new }
    ensures same { client.new ≡ record client.old { session = client.new.session } }
    ensures watched { Follows client.old.session.subs client.new.session.subs watched.old watched.new }
    ensures rows { (chain : Chain) → G.stands ledger.old chain → CachesStand caches.old chain chain
        → ReadsWithin (LineReads chain (G.buckets ledger.old) (line_says line.now))
        (G.reads ledger.old) (G.reads ledger.new) }
{
    let peer = client.peer();
    let Ok(room) = room_for_one(alloc) else {
        return (closing(alloc, peer, Why::Memory), false);
    };
    match reply_line(
        alloc,
        ledger,
        archive,
        holdings,
        caches,
        &mut client.session,
        watched,
        desk,
        relay,
        line,
    ) {
        Ok(reply) => {
            let stays = !reply.closes;
            (replying(alloc, room, peer, reply), stays)
        }
        Err(_) => (closing(alloc, peer, Why::Memory), false),
    }
}

// What a client gets for what was met in its bytes: the reply to a line, or its closing; and whether it
// stays.
#[tactic(auto, using(el_sessions::proofs::Counting::follows_same))]
fn answer<G: Ledger, A: Archive, Y: Relay>(
    alloc: Global,
    ledger: &mut G,
    archive: &mut A,
    holdings: &Holdings,
    caches: &mut Caches,
    desk: &mut Desk,
    relay: &mut Y,
    client: &mut Client,
    watched: &mut Watched,
    met: LineEvent,
) -> (Outs, bool)
    requires live { G.is_live ledger.old }
    ensures answers { let of = ghosts ⟦<G as Ledger>⟧ ⟦<A as Archive>⟧ in
        let was = beneath ledger.old archive.old in (side : Side)
        → IsSettled of was holdings.now caches.old side
        → AnswersClient A.tells side (passing (asked_ghosts of ⟦<Y as Relay>⟧)
        (asking ledger.old archive.old relay.old desk.old) (asking ledger.new archive.new relay.new desk.new))
        client.old.peer met client.old.session client.new.session (outs_of result.0) result.1 }
    ensures quiet { Asked ⟦<G as Ledger>⟧ ledger.old ledger.new }
    ensures caches { CachesStay ⟦<G as Ledger>⟧ ledger.old caches.old caches.new }
    ensures keeps { A.tells → AllGrow (A.bytes archive.old) (A.bytes archive.new) }
    ensures disk_more { G.faults ledger.old ≤ G.faults ledger.new }
    ensures archive_more { A.faults archive.old ≤ A.faults archive.new }
    ensures relay_more { Y.faults relay.old ≤ Y.faults relay.new }
    ensures same { client.new ≡ record client.old { session = client.new.session } }
    ensures watched { Follows client.old.session.subs client.new.session.subs watched.old watched.new }
    ensures rows { (chain : Chain) → G.stands ledger.old chain → CachesStand caches.old chain chain
        → ReadsWithin (EventReads chain (G.buckets ledger.old) met)
        (G.reads ledger.old) (G.reads ledger.new) }
{
    match met {
        LineEvent::TooLong { limit: _ } => {
            let peer = client.peer();
            (closing(alloc, peer, Why::Long), false)
        }
        LineEvent::Line(line) => {
            answer_line(
                alloc,
                ledger,
                archive,
                holdings,
                caches,
                desk,
                relay,
                client,
                watched,
                line.as_slice(),
            )
        }
    }
}

/// One turn of a client: the reply to its next line, its closing, or nothing where no whole line is left; and
/// whether the client stays.
#[tactic(auto, using(el_sessions::proofs::Counting::follows_same))]
pub fn client_turn<G: Ledger, A: Archive, Y: Relay>(
    alloc: Global,
    ledger: &mut G,
    archive: &mut A,
    holdings: &Holdings,
    caches: &mut Caches,
    desk: &mut Desk,
    relay: &mut Y,
    client: &mut Client,
    watched: &mut Watched,
) -> (Option<Outs>, bool)
    requires live { G.is_live ledger.old }

    ensures turn { let of = ghosts ⟦<G as Ledger>⟧ ⟦<A as Archive>⟧ in
        let was = beneath ledger.old archive.old in (side : Side)
        → IsSettled of was holdings.now caches.old side
        → ClientTurn A.tells side (passing (asked_ghosts of ⟦<Y as Relay>⟧)
        (asking ledger.old archive.old relay.old desk.old) (asking ledger.new archive.new relay.new desk.new))
        client.old result.0 (left_if result.1 client.new) }
    ensures less { OnSome result.0 (work_of_client (left_if result.1 client.new)
        < work_of_client (Some client.old)) }
    ensures done { IfNone result.0 (HasNoWork (left_if result.1 client.new)) }

    ensures quiet { Asked ⟦<G as Ledger>⟧ ledger.old ledger.new }
    ensures caches { CachesStay ⟦<G as Ledger>⟧ ledger.old caches.old caches.new }
    ensures keeps { A.tells → AllGrow (A.bytes archive.old) (A.bytes archive.new) }
    ensures still { IfNone result.0 ((G.faults ledger.new ≡ G.faults ledger.old)
        × (A.faults archive.new ≡ A.faults archive.old) × (relay.new ≡ relay.old)) }
    ensures disk_more { G.faults ledger.old ≤ G.faults ledger.new }
    ensures archive_more { A.faults archive.old ≤ A.faults archive.new }
    ensures relay_more { Y.faults relay.old ≤ Y.faults relay.new }
    ensures same { (client.new.peer ≡ client.old.peer) × (client.new.waits ≡ client.old.waits) }
    ensures idle { IfNone result.0 ((client.new ≡ client.old) × (result.1 ≡ true)) }
    ensures watched { Follows client.old.session.subs client.new.session.subs watched.old watched.new }

    // How many rows are read: at most those of the calls that its next line asks for, each once.
    ensures rows { (chain : Chain) → G.stands ledger.old chain → CachesStand caches.old chain chain
        → ReadsWithin (ClientReads chain (G.buckets ledger.old) client.old)
        (G.reads ledger.old) (G.reads ledger.new) }
{
    let peer = client.peer();
    if client.is_lost() {
        return (Some(closing(alloc, peer, Why::Memory)), false);
    }
    match client.next_line() {
        Err(_) => (Some(closing(alloc, peer, Why::Memory)), false),
        Ok(None) => (None, true),
        Ok(Some(met)) => {
            let (outs, stays) = answer(
                alloc, ledger, archive, holdings, caches, desk, relay, client, watched, met,
            );
            (Some(outs), stays)
        }
    }
}
