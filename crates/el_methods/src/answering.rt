// The answer to a call.
ghost use Rattle.std.specs.Prelude.{◌≡◌, ◌≢◌, ◌≤◌, ◌+◌, List, Err, IfOk, OnErr, true, false, codes};
ghost use Rattle.el_outside.specs.Counts.{RoseBy};
ghost use Rattle.el_outside.specs.Files.{AllGrow};
ghost use Rattle.el_tx.specs.declared.types.Tx as shape;
ghost use Rattle.el_chain.specs.Chains.{Chain};
ghost use Rattle.el_mempool.specs.Standing.{KeptStandFor};
ghost use Rattle.el_fees.specs.Tables.{IsTableOf};
ghost use Rattle.el_model.specs.LedgerCalls.{Asked};
ghost use Rattle.el_side.specs.Caching.{CachesStand, CachesStay};
ghost use Rattle.el_methods.specs.Archives.{HasAsked};
ghost use Rattle.el_methods.specs.RowBounds.{rows_read_by};
ghost use Rattle.el_methods.specs.Outcomes.{IsReplyWith, IsCounted, IsDiskCounted, RefusesOnly, TellsNoFiles, IsPrintableAnswer};
ghost use Rattle.el_methods.specs.Replied.{replied, reads_chain, reads_files, may_read_files, MayRefuse, ChangesSession, GivesOwn, agreed};
ghost use Rattle.el_calls.specs.Versions.{text_of};
ghost use Rattle.el_sessions.specs.Watching.{Follows};
ghost use Rattle.el_methods.specs.declared.stop.Stop.TheVariants as stop;
ghost use Rattle.serde_json.specs.Data.{array, item, no_items, string};

use crate::blocks::{block_headers, headers_subscribe};
use crate::features::features;
use crate::fees::get_fee_histogram;
use crate::headers::block_header;
use crate::in_block::{get_merkle, id_from_pos};
use crate::lists::{get_balance, get_history, get_mempool, list_unspent};
use crate::statuses::script_hash_subscribe;
use crate::stop::Stop;
use crate::transactions::transaction_get;
use el_base::OutOfMemory;
use el_calls::{Call, Refusal, VersionParts, greatest_shared, text_of};
use el_json::{Answer, Answers};
use el_model::Ledger;
use el_outside::Archive;
use el_sessions::{Session, Version, Watched};
use el_side::{Caches, Holdings};
use std::alloc::Global;

const BANNER: &str = "Electrum Protocol 1.4 server over block files";

// The answer to a version that is shared.
fn version_answer(alloc: Global, version: Version) -> Result<Answer, OutOfMemory>
    ensures { IfOk result (λ a. a ≡ array (item (string (codes "el_serve 1.0"))
        (item (string (text_of version)) no_items))) }
{
    let mut parts = Answers::new(alloc);
    parts.push(Answer::from_str(alloc, "el_serve 1.0")?)?;
    parts.push(Answer::from_str(alloc, text_of(version))?)?;
    Ok(parts.into_answer())
}

// Agrees on a version, once.
fn agree(
    alloc: Global,
    session: &mut Session,
    least: VersionParts,
    most: VersionParts,
) -> Result<Answer, Stop>
    ensures answer { IsReplyWith (agreed session.old session.old.version least most) session.old
        session.new result }
    ensures same { session.new.subs ≡ session.old.subs }
    ensures printable { IsPrintableAnswer result }
    ensures counted { IsDiskCounted (λ n. n ≡ 0) result }
{
    if session.version.is_some() {
        return Err(Stop::Refused(Refusal::VersionAgreed));
    }
    let Some(version) = greatest_shared(least, most) else {
        return Err(Stop::Refused(Refusal::VersionNotShared));
    };
    let answer = version_answer(alloc, version)?;
    session.version = Some(version);
    Ok(answer)
}

// A list of nothing.
fn no_list(alloc: Global) -> Answer
    ensures { result ≡ array no_items }
{
    Answers::new(alloc).into_answer()
}

/// The answer to a call (Electrum Protocol 1.4.2), over the ledger's chain and the unconfirmed transactions
/// that are held.
#[tactic(auto, using(el_sessions::proofs::Counting::follows_same))]
pub fn answer<G: Ledger, A: Archive>(
    alloc: Global,
    ledger: &mut G,
    archive: &mut A,
    holdings: &Holdings,
    caches: &mut Caches,
    session: &mut Session,
    watched: &mut Watched,
    call: &Call,
) -> Result<Answer, Stop>
    requires live { G.is_live ledger.old }

    // Where the block files have the chain's transaction that is asked for at its place.
    ensures answer { (chain : Chain) (kept : List shape.Tx) → G.stands ledger.old chain
        → KeptStandFor holdings.now.pool.entries chain kept
        → IsTableOf holdings.now.fees holdings.now.pool.entries → CachesStand caches.old chain chain → A.tells
        → HasAsked (A.bytes archive.new) chain call.now
        → IsReplyWith (replied chain kept holdings.now.tree session.old call.now) session.old session.new
        result }
    // Whatever the block files are, unless the call reads them.
    ensures of_index { (chain : Chain) (kept : List shape.Tx) → G.stands ledger.old chain
        → KeptStandFor holdings.now.pool.entries chain kept
        → IsTableOf holdings.now.fees holdings.now.pool.entries → CachesStand caches.old chain chain
        → reads_files kept call.now ≡ false
        → IsReplyWith (replied chain kept holdings.now.tree session.old call.now) session.old session.new
        result }
    // Never another transaction, nor that the chain has none where it has one, whatever the block files hold.
    ensures own { (chain : Chain) (kept : List shape.Tx) → G.stands ledger.old chain
        → KeptStandFor holdings.now.pool.entries chain kept → reads_files kept call.now ≡ true
        → GivesOwn chain call.now result }
    // That the block files failed or have changed is told only where the call reads them.
    ensures untold { (chain : Chain) (kept : List shape.Tx)
        → KeptStandFor holdings.now.pool.entries chain kept
        → reads_files kept call.now ≡ false → TellsNoFiles result }
    // Whatever the ledger and the unconfirmed set stand for.
    ensures of_server { (chain : Chain) (kept : List shape.Tx) → reads_chain call.now ≡ false
        → IsReplyWith (replied chain kept holdings.now.tree session.old call.now) session.old session.new
        result }
    ensures alone { may_read_files call.now ≡ false → TellsNoFiles result }
    ensures printable { IsPrintableAnswer result }

    ensures still { (kept : List shape.Tx) → reads_files kept call.now ≡ true → session.new ≡ session.old }
    ensures unanswered { OnErr result (session.new ≡ session.old) }
    // The client's subscriptions stay in their order, but for the one that the call names.
    ensures changes { reads_chain call.now ≡ true
        → IfOk result (λ answer. ChangesSession session.old call.now answer session.new) }
    // What is counted of all clients follows its subscriptions, whatever the ledger stands for.
    ensures watched { Follows session.old.subs session.new.subs watched.old watched.new }
    // What was computed once is still of the chain.
    ensures caches { CachesStay ⟦<G as Ledger>⟧ ledger.old caches.old caches.new }
    ensures quiet { Asked ⟦<G as Ledger>⟧ ledger.old ledger.new }
    ensures grows { A.tells → AllGrow (A.bytes archive.old) (A.bytes archive.new) }

    // That they have changed is told only where they don't have what is asked for at its place.
    ensures unchanged { (chain : Chain) → G.stands ledger.old chain → A.tells
        → HasAsked (A.bytes archive.new) chain call.now → result ≢ Err stop.Changed }
    ensures refusals { reads_chain call.now ≡ true → RefusesOnly (MayRefuse session.old call.now) result }
    ensures rows { (chain : Chain) → G.stands ledger.old chain → CachesStand caches.old chain chain
        → G.reads ledger.new ≤ G.reads ledger.old + rows_read_by chain (G.buckets ledger.old) call.now }
    ensures counted { IsCounted (λ n. RoseBy (G.faults ledger.old) (G.faults ledger.new) n)
        (λ n. RoseBy (A.faults archive.old) (A.faults archive.new) n) result }
{
    match call {
        Call::ServerVersion { least, most } => agree(alloc, session, *least, *most),
        Call::ServerBanner => Ok(Answer::from_str(alloc, BANNER)?),
        Call::ServerDonationAddress => Ok(Answer::from_str(alloc, "")?),
        Call::ServerFeatures => features(alloc, &holdings.tree),
        Call::ServerPing => Ok(Answer::null()),
        Call::ServerAddPeer => Ok(Answer::flag(false)),
        Call::BlockHeader { height, cp_height } => {
            block_header(alloc, ledger, caches, *height, *cp_height)
        }
        Call::BlockHeaders {
            start_height,
            count,
            cp_height,
        } => block_headers(alloc, ledger, caches, *start_height, *count, *cp_height),
        Call::EstimateFee => Ok(Answer::signed(-1)),
        Call::RelayFee => Ok(Answer::number(0)),
        Call::HeadersSubscribe => headers_subscribe(alloc, ledger, &mut session.headers),
        Call::GetBalance(s) => get_balance(alloc, ledger, &holdings.pool, s),
        Call::GetHistory(s) => get_history(alloc, ledger, &holdings.pool, s),
        Call::GetMempool(s) => get_mempool(alloc, &holdings.pool, s),
        Call::ListUnspent(s) => list_unspent(alloc, ledger, &holdings.pool, s),
        Call::ScriptHashSubscribe(s) => {
            script_hash_subscribe(
                alloc,
                ledger,
                &holdings.pool,
                &mut session.subs,
                watched,
                *s,
            )
        }
        Call::ScriptHashUnsubscribe(s) => {
            Ok(Answer::flag(watched.unsubscribe(&mut session.subs, s)))
        }
        Call::Broadcast(_) => Err(Stop::Refused(Refusal::NoRelay)),
        Call::TransactionGet { tx_hash, verbose } => {
            transaction_get(alloc, ledger, &holdings.pool, archive, *tx_hash, *verbose)
        }
        Call::GetMerkle { tx_hash, height } => get_merkle(alloc, ledger, caches, tx_hash, *height),
        Call::IdFromPos {
            height,
            tx_pos,
            merkle,
        } => id_from_pos(alloc, ledger, caches, *height, *tx_pos, *merkle),
        Call::ServerPeersSubscribe => Ok(no_list(alloc)),
        Call::FeeHistogram => get_fee_histogram(alloc, &holdings.fees),
    }
}
