// Batches of requests (JSON-RPC 2.0, section 6).
ghost use Rattle.std.specs.Prelude.{◌≡◌, ◌<◌, ◌≤◌, ◌+◌, ℕ, List, IfOk, IsOk, OnOk, OnErr, Ok, Err, MatchResult, MatchOption, option_map, length, vec_capacity};
ghost use Rattle.serde_json.specs.Written.{compact_text};
ghost use Rattle.el_outside.specs.Files.{AllGrow};
ghost use Rattle.el_model.specs.LedgerCalls.{Asked};
ghost use Rattle.el_side.specs.Beneath.{beneath, ghosts};
ghost use Rattle.el_side.specs.Caching.{CachesStand, CachesStay};
ghost use Rattle.el_side.specs.NodeSteps.{IsSettled};
ghost use Rattle.el_side.specs.Side.{Side};
ghost use Rattle.el_replies.specs.Envelopes.{reply_value};
ghost use Rattle.el_replies.specs.Losses.{AnswersOf};
ghost use Rattle.el_replies.specs.Spending.{Loses, asked_ghosts, asking};
ghost use Rattle.el_replies.specs.Batches.{reply_appended, noted, with_reply, InTime, Step, Steps, CutAnswer, CutStep, CutSteps};
ghost use Rattle.el_replies.specs.within.Errors.{error_text};
ghost use Rattle.el_replies.specs.within.Gathered.{replies_of, HasEnd, HasSpace};
ghost use Rattle.el_json.specs.Lines.{HasPrintableId, IsPrintable, IsPrintableId};
ghost use Rattle.el_methods.specs.Outcomes.{IsPrintableAnswer};
ghost use Rattle.el_sessions.specs.Watching.{Follows};
ghost use Rattle.el_chain.specs.Chains.{Chain};
ghost use Rattle.el_replies.specs.RowBounds.{RequestReads, ItemReads, ItemsRead, ReadsWithin};

use crate::error_room::{ERROR_SIZE, ErrorRoom, room_for};
use crate::line::is_closing;
use crate::replies::result_text;
use crate::requested::answer_request;
use el_base::{OutOfMemory, extend_reserved};
use el_calls::Refusal;
use el_json::{Answer, Elements, Item, Request};
use el_model::Ledger;
use el_outside::{Archive, Relay};
use el_relay::Desk;
use el_sessions::{Session, Watched};
use el_side::{Caches, Holdings};
use std::alloc::Global;

/// How many bytes the replies of a batch may have together before its later requests are refused.
pub const BATCH_LIMIT: u128 = 50_000_000;

/// The replies of a batch so far.
#[derive(Drop)]
pub(crate) struct Gathered {
    /// Their texts after `[`, with commas between. Where there is one, there is room for what ends the batch.
    pub text: Vec<u8>,
    /// How many bytes the texts have together, counted until they pass the limit.
    pub size: u128,
    /// Whether there is one.
    pub any: bool,
    /// Whether the client is closed after the batch.
    pub closes: bool,
}

// Adds the text of a reply, for which there is room. Takes no memory.
fn add(replies: &mut Gathered, text: &[u8])
    requires { length replies.old.text.items + (length text.now + 3) ≤ vec_capacity replies.old.text }
    ensures added { replies_of replies.new ≡ reply_appended text.now (replies_of replies.old) }
    ensures end { HasEnd replies.new }
{
    if replies.any {
        extend_reserved(&mut replies.text, b",");
    } else {
        extend_reserved(&mut replies.text, b"[");
    }
    extend_reserved(&mut replies.text, text);
    if replies.size <= BATCH_LIMIT {
        replies.size += text.len() as u128;
    }
    replies.any = true;
}

// Takes the room for the reply with an error to the request with this id, unless it is a notification.
fn make_room(
    alloc: Global,
    replies: &mut Gathered,
    id: &Option<Answer>,
) -> Result<Option<ErrorRoom>, OutOfMemory>
    requires { IsPrintableId id.now }
    ensures same { replies_of replies.new ≡ replies_of replies.old }
    ensures room { IfOk result (λ room. room ≡ option_map compact_text id.now) }
    ensures space { IfOk result (λ room. HasSpace room replies.new) }
    ensures end { HasEnd replies.old → HasEnd replies.new }
{
    let room = room_for(alloc, id)?;
    if let Some(room) = &room {
        replies.text.try_reserve(room.id_len() + (ERROR_SIZE + 3))?;
    }
    Ok(room)
}

// Adds a reply with an error, in the room for it. Takes no memory.
fn add_error(replies: &mut Gathered, room: Option<ErrorRoom>, refusal: Refusal)
    requires space { HasSpace room replies.old }
    requires end { HasEnd replies.old }
    ensures added { MatchOption room (replies_of replies.new ≡ replies_of replies.old)
        (λ id. replies_of replies.new ≡ reply_appended (error_text id refusal) (replies_of replies.old)) }
    ensures end { HasEnd replies.new }
{
    if let Some(room) = room {
        let text = room.into_error(refusal);
        add(replies, text.as_slice());
    }
}

// Adds a reply with a result, unless the request is a notification.
fn add_result(
    alloc: Global,
    replies: &mut Gathered,
    id: Option<Answer>,
    found: Answer,
) -> Result<(), OutOfMemory>
    requires id { IsPrintableId id }
    requires found { IsPrintable found }
    requires end { HasEnd replies.old }
    ensures added { OnOk result (MatchOption id (replies_of replies.new ≡ replies_of replies.old)
        (λ i. replies_of replies.new
        ≡ reply_appended (compact_text (reply_value i (Ok found))) (replies_of replies.old))) }
    ensures end { OnOk result (HasEnd replies.new) }
{
    let Some(id) = id else {
        return Ok(());
    };
    let text = result_text(alloc, id, found)?;
    replies.text.try_reserve(text.len() + 3)?;
    add(replies, text.as_slice());
    Ok(())
}

// Notes whether the client that is told this is closed.
fn note(replies: &mut Gathered, answered: &Result<Answer, Refusal>)
    ensures noted { replies_of replies.new ≡ noted answered.now (replies_of replies.old) }
    ensures same { replies.new ≡ record replies.old { closes = replies.new.closes } }
{
    replies.closes = replies.closes || is_closing(answered);
}

// Adds a reply, unless the request is a notification. For one with an error there is room: it takes no
// memory.
fn add_reply(
    alloc: Global,
    replies: &mut Gathered,
    room: Option<ErrorRoom>,
    id: Option<Answer>,
    answered: Result<Answer, Refusal>,
) -> Result<(), OutOfMemory>
    requires id { IsPrintableId id }
    requires answered { IsPrintableAnswer answered }
    requires room { room ≡ option_map compact_text id }
    requires space { HasSpace room replies.old }
    requires end { HasEnd replies.old }
    ensures added { OnOk result (replies_of replies.new ≡ with_reply id answered (replies_of replies.old)) }
    ensures end { OnOk result (HasEnd replies.new) }
    ensures sure { OnErr result (IsOk answered) }
{
    note(replies, &answered);
    match answered {
        Ok(found) => add_result(alloc, replies, id, found),
        Err(refusal) => {
            add_error(replies, room, refusal);
            Ok(())
        }
    }
}

// Adds a reply with an error to what isn't asked, unless it is a notification.
fn refuse(
    alloc: Global,
    replies: &mut Gathered,
    id: Option<Answer>,
    refusal: Refusal,
) -> Result<(), OutOfMemory>
    requires id { IsPrintableId id }
    requires end { HasEnd replies.old }
    ensures added { OnOk result (replies_of replies.new
        ≡ with_reply id (Err refusal) (replies_of replies.old)) }
    ensures end { OnOk result (HasEnd replies.new) }
{
    let room = make_room(alloc, replies, &id)?;
    add_reply(alloc, replies, room, id, Err(refusal))
}

// Answers a request before the limit was passed. The room for an error is taken before it is asked.
#[tactic(auto, using(el_sessions::proofs::Counting::follows_same))]
fn answer_in_time<G: Ledger, A: Archive, Y: Relay>(
    alloc: Global,
    ledger: &mut G,
    archive: &mut A,
    holdings: &Holdings,
    caches: &mut Caches,
    session: &mut Session,
    watched: &mut Watched,
    desk: &mut Desk,
    relay: &mut Y,
    replies: &mut Gathered,
    request: Request,
) -> Result<(), OutOfMemory>
    requires live { G.is_live ledger.old }
    requires id { IsPrintableId request.id }
    requires end { HasEnd replies.old }
    ensures answered { (side : Side) → IsSettled (ghosts ⟦<G as Ledger>⟧ ⟦<A as Archive>⟧)
        (beneath ledger.old archive.old) holdings.now caches.old side → Loses
        (asked_ghosts (ghosts ⟦<G as Ledger>⟧ ⟦<A as Archive>⟧) ⟦<Y as Relay>⟧)
        (asking ledger.old archive.old relay.old desk.old) (asking ledger.new archive.new relay.new desk.new)
        (λ before after. MatchResult result
        (λ _. InTime (AnswersOf A.tells side)
        request before session.old (replies_of replies.old) after session.new (replies_of replies.new))
        (λ _. CutAnswer (AnswersOf A.tells side) request before session.old after)) }
    ensures end { OnOk result (HasEnd replies.new) }
    ensures watched { Follows session.old.subs session.new.subs watched.old watched.new }
    ensures rows { (chain : Chain) → G.stands ledger.old chain → CachesStand caches.old chain chain
        → ReadsWithin (RequestReads chain (G.buckets ledger.old) request)
        (G.reads ledger.old) (G.reads ledger.new) }
    ensures caches { CachesStay ⟦<G as Ledger>⟧ ledger.old caches.old caches.new }
    ensures disk_more { G.faults ledger.old ≤ G.faults ledger.new }
    ensures archive_more { A.faults archive.old ≤ A.faults archive.new }
    ensures relay_more { Y.faults relay.old ≤ Y.faults relay.new }
    ensures quiet { Asked ⟦<G as Ledger>⟧ ledger.old ledger.new }
    ensures grows { A.tells → AllGrow (A.bytes archive.old) (A.bytes archive.new) }
{
    let room = make_room(alloc, replies, &request.id)?;
    let told = answer_request(
        alloc, ledger, archive, holdings, caches, session, watched, desk, relay, &request,
    )?;
    add_reply(alloc, replies, room, request.id, told)
}

// Answers an element of a batch.
#[tactic(auto, using(el_sessions::proofs::Counting::follows_same))]
fn answer_item<G: Ledger, A: Archive, Y: Relay>(
    alloc: Global,
    ledger: &mut G,
    archive: &mut A,
    holdings: &Holdings,
    caches: &mut Caches,
    session: &mut Session,
    watched: &mut Watched,
    desk: &mut Desk,
    relay: &mut Y,
    replies: &mut Gathered,
    item: Item,
) -> Result<(), OutOfMemory>
    requires live { G.is_live ledger.old }
    requires printable { HasPrintableId item }
    requires end { HasEnd replies.old }
    ensures answered { (side : Side) → IsSettled (ghosts ⟦<G as Ledger>⟧ ⟦<A as Archive>⟧)
        (beneath ledger.old archive.old) holdings.now caches.old side → Loses
        (asked_ghosts (ghosts ⟦<G as Ledger>⟧ ⟦<A as Archive>⟧) ⟦<Y as Relay>⟧)
        (asking ledger.old archive.old relay.old desk.old) (asking ledger.new archive.new relay.new desk.new)
        (λ before after. MatchResult result
        (λ _. Step (AnswersOf A.tells side)
        item before session.old (replies_of replies.old) after session.new (replies_of replies.new))
        (λ _. CutStep (AnswersOf A.tells side) item before session.old (replies_of replies.old) after)) }
    ensures end { OnOk result (HasEnd replies.new) }
    ensures watched { Follows session.old.subs session.new.subs watched.old watched.new }
    ensures rows { (chain : Chain) → G.stands ledger.old chain → CachesStand caches.old chain chain
        → ReadsWithin (ItemReads chain (G.buckets ledger.old) item)
        (G.reads ledger.old) (G.reads ledger.new) }
    ensures caches { CachesStay ⟦<G as Ledger>⟧ ledger.old caches.old caches.new }
    ensures disk_more { G.faults ledger.old ≤ G.faults ledger.new }
    ensures archive_more { A.faults archive.old ≤ A.faults archive.new }
    ensures relay_more { Y.faults relay.old ≤ Y.faults relay.new }
    ensures quiet { Asked ⟦<G as Ledger>⟧ ledger.old ledger.new }
    ensures grows { A.tells → AllGrow (A.bytes archive.old) (A.bytes archive.new) }
{
    match item {
        Item::Good(request) => {
            if replies.size > BATCH_LIMIT {
                refuse(alloc, replies, request.id, Refusal::BatchTooLarge)
            } else {
                answer_in_time(
                    alloc, ledger, archive, holdings, caches, session, watched, desk, relay,
                    replies, request,
                )
            }
        }
        Item::Invalid(id) => refuse(alloc, replies, Some(id), Refusal::Invalid),
    }
}

/// Answers the elements of a batch in order: once the texts of the replies have more than `BATCH_LIMIT` bytes
/// together, each later request is refused and has no effect. Fails only where memory runs out at an element,
/// which then did nothing, or was answered a result; what those before it did is counted too.
pub(crate) fn answer_items<G: Ledger, A: Archive, Y: Relay>(
    alloc: Global,
    ledger: &mut G,
    archive: &mut A,
    holdings: &Holdings,
    caches: &mut Caches,
    session: &mut Session,
    watched: &mut Watched,
    desk: &mut Desk,
    relay: &mut Y,
    replies: &mut Gathered,
    elements: &mut Elements,
) -> Result<(), OutOfMemory>
    requires live { G.is_live ledger.old }
    requires end { HasEnd replies.old }
    ensures answered { (side : Side) → IsSettled (ghosts ⟦<G as Ledger>⟧ ⟦<A as Archive>⟧)
        (beneath ledger.old archive.old) holdings.now caches.old side → Loses
        (asked_ghosts (ghosts ⟦<G as Ledger>⟧ ⟦<A as Archive>⟧) ⟦<Y as Relay>⟧)
        (asking ledger.old archive.old relay.old desk.old) (asking ledger.new archive.new relay.new desk.new)
        (λ before after. MatchResult result
        (λ _. Steps (AnswersOf A.tells side)
        elements.old before session.old (replies_of replies.old) after session.new (replies_of replies.new))
        (λ _. CutSteps (AnswersOf A.tells side)
        elements.old before session.old (replies_of replies.old) after)) }
    ensures end { OnOk result (HasEnd replies.new) }
    ensures watched { Follows session.old.subs session.new.subs watched.old watched.new }
    ensures rows { (chain : Chain) → G.stands ledger.old chain → CachesStand caches.old chain chain
        → ReadsWithin (ItemsRead chain (G.buckets ledger.old) elements.old)
        (G.reads ledger.old) (G.reads ledger.new) }
    ensures caches { CachesStay ⟦<G as Ledger>⟧ ledger.old caches.old caches.new }
    ensures disk_more { G.faults ledger.old ≤ G.faults ledger.new }
    ensures archive_more { A.faults archive.old ≤ A.faults archive.new }
    ensures relay_more { Y.faults relay.old ≤ Y.faults relay.new }
    ensures quiet { Asked ⟦<G as Ledger>⟧ ledger.old ledger.new }
    ensures grows { A.tells → AllGrow (A.bytes archive.old) (A.bytes archive.new) }
{
    while let Some(item) = elements.next(alloc) {
        answer_item(
            alloc, ledger, archive, holdings, caches, session, watched, desk, relay, replies, item,
        )?;
    }
    Ok(())
}
