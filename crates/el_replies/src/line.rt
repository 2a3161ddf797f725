// The reply to a line.
ghost use Rattle.std.specs.Prelude.{◌≡◌, ◌≤◌, ◌++◌, ◌∷◌, ℕ, List, [], IfOk, IsOk, OnErr, Ok, Err, Some, false, MatchResult, option_map};
ghost use Rattle.serde_json.specs.Written.{compact_text};
ghost use Rattle.el_json.specs.Lines.{IsPrintable, IsPrintableId, line_says};
ghost use Rattle.el_outside.specs.Files.{AllGrow};
ghost use Rattle.el_model.specs.LedgerCalls.{Asked};
ghost use Rattle.el_side.specs.Beneath.{beneath, ghosts};
ghost use Rattle.el_side.specs.Caching.{CachesStand, CachesStay};
ghost use Rattle.el_side.specs.NodeSteps.{IsSettled};
ghost use Rattle.el_side.specs.Side.{Side};
ghost use Rattle.el_replies.specs.Losses.{AnswersOf};
ghost use Rattle.el_replies.specs.Spending.{Loses, asked_ghosts, asking};
ghost use Rattle.el_replies.specs.Batches.{CutAnswer, CutSteps, is_closing};
ghost use Rattle.el_replies.specs.LineReplies.{message, message_to, reply_to, says, batch_message, no_replies, IsReplyTo, IsLineReply};
ghost use Rattle.el_replies.specs.within.Errors.{error_text};
ghost use Rattle.el_replies.specs.within.Gathered.{replies_of, HasEnd};
ghost use Rattle.el_methods.specs.Outcomes.{IsPrintableAnswer};
ghost use Rattle.el_sessions.specs.Watching.{Follows};
ghost use Rattle.el_chain.specs.Chains.{Chain};
ghost use Rattle.el_replies.specs.RowBounds.{RequestReads, ItemsRead, LineReads, ReadsWithin};

use crate::batch::{Gathered, answer_items};
use crate::error_room::{ErrorRoom, room_for};
use crate::replies::result_text;
use crate::requested::answer_request;
use el_base::{Bytes, OutOfMemory, extend_reserved};
use el_calls::Refusal;
use el_json::{Answer, Elements, Envelope, LineFault, Request, read_line};
use el_model::Ledger;
use el_outside::{Archive, Relay};
use el_relay::Desk;
use el_sessions::{Session, Watched};
use el_side::{Caches, Holdings};
use std::alloc::Global;

/// What comes of a client's line.
#[derive(Debug, PartialEq, Eq, Drop)]
pub struct LineReply {
    /// The message that is sent, with byte 10 at its end; None where nothing is sent, since all requests of
    /// the line are notifications.
    pub text: Option<Bytes>,
    /// Whether the client is then closed: it shares no version (`server.version`).
    pub closes: bool,
}

/// Whether a client that is told this is closed after the line.
pub(crate) fn is_closing(answered: &Result<Answer, Refusal>) -> bool
    ensures { result ≡ is_closing answered.now }
{
    match answered {
        Err(Refusal::VersionNotShared) => true,
        _ => false,
    }
}

// The message with an error to a request, in the room for it, unless it is a notification. Takes no memory.
fn error_message(room: Option<ErrorRoom>, refusal: Refusal) -> Option<Bytes>
    ensures { result ≡ option_map (λ id. error_text id refusal ++ 10 ∷ []) room }
{
    match room {
        None => None,
        Some(room) => {
            let mut text = room.into_error(refusal);
            extend_reserved(&mut text, b"\n");
            Some(Bytes::from_vec(text))
        }
    }
}

// The message with a result of a request, unless it is a notification.
fn result_message(
    alloc: Global,
    id: Option<Answer>,
    found: Answer,
) -> Result<Option<Bytes>, OutOfMemory>
    requires id { IsPrintableId id }
    requires found { IsPrintable found }
    ensures { IfOk result (λ text. text ≡ message_to id (Ok found)) }
{
    match id {
        None => Ok(None),
        Some(id) => {
            let mut text = result_text(alloc, id, found)?;
            text.push(b'\n')?;
            Ok(Some(Bytes::from_vec(text)))
        }
    }
}

// The message with the replies of a batch, if there is one. Takes no memory.
fn batch_message_of(replies: Gathered) -> Option<Bytes>
    requires { HasEnd replies }
    ensures { result ≡ batch_message (replies_of replies) }
{
    if !replies.any {
        return None;
    }
    let mut text = replies.text;
    extend_reserved(&mut text, b"]\n");
    Some(Bytes::from_vec(text))
}

// What comes of a request that was answered so. For an error there is room: it takes no memory.
fn reply_to_id(
    alloc: Global,
    room: Option<ErrorRoom>,
    id: Option<Answer>,
    answered: Result<Answer, Refusal>,
) -> Result<LineReply, OutOfMemory>
    requires id { IsPrintableId id }
    requires answered { IsPrintableAnswer answered }
    requires room { room ≡ option_map compact_text id }
    ensures reply { IfOk result (λ reply. reply ≡ reply_to id answered) }
    ensures sure { OnErr result (IsOk answered) }
{
    let closes = is_closing(&answered);
    match answered {
        Ok(found) => {
            let text = result_message(alloc, id, found)?;
            Ok(LineReply { text, closes })
        }
        Err(refusal) => {
            let text = error_message(room, refusal);
            Ok(LineReply { text, closes })
        }
    }
}

// The message to one request. The room for an error is taken before it is asked.
#[tactic(auto, using(el_sessions::proofs::Counting::follows_same))]
fn one_reply<G: Ledger, A: Archive, Y: Relay>(
    alloc: Global,
    ledger: &mut G,
    archive: &mut A,
    holdings: &Holdings,
    caches: &mut Caches,
    session: &mut Session,
    watched: &mut Watched,
    desk: &mut Desk,
    relay: &mut Y,
    request: Request,
) -> Result<LineReply, OutOfMemory>
    requires live { G.is_live ledger.old }
    requires printable { IsPrintableId request.id }
    ensures answered { (side : Side) → IsSettled (ghosts ⟦<G as Ledger>⟧ ⟦<A as Archive>⟧)
        (beneath ledger.old archive.old) holdings.now caches.old side → Loses
        (asked_ghosts (ghosts ⟦<G as Ledger>⟧ ⟦<A as Archive>⟧) ⟦<Y as Relay>⟧)
        (asking ledger.old archive.old relay.old desk.old) (asking ledger.new archive.new relay.new desk.new)
        (λ before after. MatchResult result
        (λ reply. IsReplyTo (AnswersOf A.tells side)
        (Ok (Envelope.One request)) before session.old after session.new reply)
        (λ _. CutAnswer (AnswersOf A.tells side) request before session.old after)) }
    ensures watched { Follows session.old.subs session.new.subs watched.old watched.new }
    ensures rows { (chain : Chain) → G.stands ledger.old chain → CachesStand caches.old chain chain
        → ReadsWithin (RequestReads chain (G.buckets ledger.old) request)
        (G.reads ledger.old) (G.reads ledger.new) }
    ensures caches { CachesStay ⟦<G as Ledger>⟧ ledger.old caches.old caches.new }
    ensures disk_more { G.faults ledger.old ≤ G.faults ledger.new }
    ensures archive_more { A.faults archive.old ≤ A.faults archive.new }
    ensures relay_more { Y.faults relay.old ≤ Y.faults relay.new }
    ensures quiet { Asked ⟦<G as Ledger>⟧ ledger.old ledger.new }
    ensures grows { A.tells → AllGrow (A.bytes archive.old) (A.bytes archive.new) }
{
    let room = room_for(alloc, &request.id)?;
    let told = answer_request(
        alloc, ledger, archive, holdings, caches, session, watched, desk, relay, &request,
    )?;
    reply_to_id(alloc, room, request.id, told)
}

// No replies yet. Takes no memory.
fn no_replies(alloc: Global) -> Gathered
    ensures none { replies_of result ≡ no_replies }
    ensures end { HasEnd result }
{
    Gathered {
        text: Vec::new(alloc),
        size: 0,
        any: false,
        closes: false,
    }
}

// The message to a batch.
fn batch_reply<G: Ledger, A: Archive, Y: Relay>(
    alloc: Global,
    ledger: &mut G,
    archive: &mut A,
    holdings: &Holdings,
    caches: &mut Caches,
    session: &mut Session,
    watched: &mut Watched,
    desk: &mut Desk,
    relay: &mut Y,
    elements: Elements,
) -> Result<LineReply, OutOfMemory>
    requires live { G.is_live ledger.old }
    ensures answered { (side : Side) → IsSettled (ghosts ⟦<G as Ledger>⟧ ⟦<A as Archive>⟧)
        (beneath ledger.old archive.old) holdings.now caches.old side → Loses
        (asked_ghosts (ghosts ⟦<G as Ledger>⟧ ⟦<A as Archive>⟧) ⟦<Y as Relay>⟧)
        (asking ledger.old archive.old relay.old desk.old) (asking ledger.new archive.new relay.new desk.new)
        (λ before after. MatchResult result
        (λ reply. IsReplyTo (AnswersOf A.tells side)
        (Ok (Envelope.Batch elements)) before session.old after session.new reply)
        (λ _. CutSteps (AnswersOf A.tells side)
        elements before session.old no_replies after)) }
    ensures watched { Follows session.old.subs session.new.subs watched.old watched.new }
    ensures rows { (chain : Chain) → G.stands ledger.old chain → CachesStand caches.old chain chain
        → ReadsWithin (ItemsRead chain (G.buckets ledger.old) elements)
        (G.reads ledger.old) (G.reads ledger.new) }
    ensures caches { CachesStay ⟦<G as Ledger>⟧ ledger.old caches.old caches.new }
    ensures disk_more { G.faults ledger.old ≤ G.faults ledger.new }
    ensures archive_more { A.faults archive.old ≤ A.faults archive.new }
    ensures relay_more { Y.faults relay.old ≤ Y.faults relay.new }
    ensures quiet { Asked ⟦<G as Ledger>⟧ ledger.old ledger.new }
    ensures grows { A.tells → AllGrow (A.bytes archive.old) (A.bytes archive.new) }
{
    let mut elements = elements;
    let mut replies = no_replies(alloc);
    answer_items(
        alloc,
        ledger,
        archive,
        holdings,
        caches,
        session,
        watched,
        desk,
        relay,
        &mut replies,
        &mut elements,
    )?;
    let closes = replies.closes;
    let text = batch_message_of(replies);
    Ok(LineReply { text, closes })
}

// What comes of a line that is no request.
fn fault_reply(alloc: Global, id: Answer, refusal: Refusal) -> Result<LineReply, OutOfMemory>
    requires { IsPrintable id }
    ensures { IfOk result (λ reply. reply ≡ says (message id (Err refusal))) }
{
    let room = ErrorRoom::new(alloc, &id)?;
    let text = error_message(Some(room), refusal);
    Ok(LineReply {
        text,
        closes: false,
    })
}

/// What comes of a line of a client, which stands without the byte 10 that ended it. What is lost meanwhile
/// is told to the client in the replies. Where memory runs out, nothing was lost, but at elements of a batch
/// that were answered before; and the request that found none may have been broadcast.
#[tactic(auto, using(el_sessions::proofs::Counting::follows_same))]
pub fn reply_line<G: Ledger, A: Archive, Y: Relay>(
    alloc: Global,
    ledger: &mut G,
    archive: &mut A,
    holdings: &Holdings,
    caches: &mut Caches,
    session: &mut Session,
    watched: &mut Watched,
    desk: &mut Desk,
    relay: &mut Y,
    line: &[u8],
) -> Result<LineReply, OutOfMemory>
    requires live { G.is_live ledger.old }
    // `files` are the bytes of the block files at some moment before, as the server knows them.
    ensures answered { (side : Side) → IsSettled (ghosts ⟦<G as Ledger>⟧ ⟦<A as Archive>⟧)
        (beneath ledger.old archive.old) holdings.now caches.old side → Loses
        (asked_ghosts (ghosts ⟦<G as Ledger>⟧ ⟦<A as Archive>⟧) ⟦<Y as Relay>⟧)
        (asking ledger.old archive.old relay.old desk.old) (asking ledger.new archive.new relay.new desk.new)
        (λ before after. IsLineReply
        (AnswersOf A.tells side)
        line.now before session.old after session.new result) }
    // What is counted of all clients follows its subscriptions, whatever the ledger stands for.
    ensures watched { Follows session.old.subs session.new.subs watched.old watched.new }
    // How many rows are read: at most those of the calls that its requests ask for, each once.
    ensures rows { (chain : Chain) → G.stands ledger.old chain → CachesStand caches.old chain chain
        → ReadsWithin (LineReads chain (G.buckets ledger.old) (line_says line.now))
        (G.reads ledger.old) (G.reads ledger.new) }
    ensures caches { CachesStay ⟦<G as Ledger>⟧ ledger.old caches.old caches.new }
    ensures disk_more { G.faults ledger.old ≤ G.faults ledger.new }
    ensures archive_more { A.faults archive.old ≤ A.faults archive.new }
    ensures relay_more { Y.faults relay.old ≤ Y.faults relay.new }
    ensures quiet { Asked ⟦<G as Ledger>⟧ ledger.old ledger.new }
    ensures grows { A.tells → AllGrow (A.bytes archive.old) (A.bytes archive.new) }
{
    match read_line(alloc, line) {
        Ok(Envelope::One(request)) => one_reply(
            alloc, ledger, archive, holdings, caches, session, watched, desk, relay, request,
        ),
        Ok(Envelope::Batch(elements)) => {
            batch_reply(
                alloc, ledger, archive, holdings, caches, session, watched, desk, relay, elements,
            )
        }
        Err(LineFault::Parse) => fault_reply(alloc, Answer::null(), Refusal::Parse),
        Err(LineFault::Invalid(id)) => fault_reply(alloc, id, Refusal::Invalid),
        Err(LineFault::Memory) => Err(OutOfMemory),
    }
}
