// The lines that a client is told.
ghost use Rattle.std.specs.Prelude.{◌≡◌, ◌≤◌, ◌+◌, ◌++◌, List, map, IfOk, OnOk, codes};
ghost use Rattle.std.specs.List.{AllByRecursion};
ghost use Rattle.std.specs.Map.{keys_of};
ghost use Rattle.serde_json.specs.Data.{array, item, no_items};
ghost use Rattle.el_base.specs.declared.hash.Hash32 as hash_shape;
ghost use Rattle.el_outside.specs.Counts.{CountsOnly};
ghost use Rattle.el_tx.specs.declared.types.Tx as shape;
ghost use Rattle.el_chain.specs.Chains.{Chain};
ghost use Rattle.el_json.specs.Lines.{IsPrintable};
ghost use Rattle.el_model.specs.LedgerCalls.{Asked};
ghost use Rattle.el_mempool.specs.Standing.{KeptStandFor};
ghost use Rattle.el_view.specs.Rows.{history_rows};
ghost use Rattle.el_methods.specs.Results as defined;
ghost use Rattle.el_subs.specs.Told.{status, OthersTold, cost_of};
ghost use Rattle.el_subs.specs.Notices as noticed;
ghost use Rattle.el_subs.specs.Notices.{notification, line_of, tip_lines, notices, notified, IsNotice};

use crate::telling::tell;
use el_base::{Bytes, Hash32, OutOfMemory};
use el_chain::Touched;
use el_json::{Answer, Answers, Members, print_answer};
use el_methods::{Stop, headers_subscribe, shown_of, told_of};
use el_model::{Ledger, QueryFault};
use el_pool::Pool;
use el_sessions::Session;
use std::alloc::Global;

// A notification of this method, whose parameters are this list, as it is sent.
#[tactic(auto, unfolding(crate::specs::Notices::line_of))]
fn notification_line(alloc: Global, method: &str, params: Answer) -> Result<Bytes, OutOfMemory>
    requires { IsPrintable params }
    ensures { IfOk result (λ line. line ≡ line_of (notification method.now params)) }
{
    let mut members = Members::new(alloc);
    members.put(alloc, "jsonrpc", Answer::from_str(alloc, "2.0")?)?;
    members.put(alloc, "method", Answer::from_str(alloc, method)?)?;
    members.put(alloc, "params", params)?;
    let text = print_answer(alloc, &members.into_answer())?;
    Ok(Bytes::from_vec(text))
}

// The line that tells this tip.
fn tip_line(alloc: Global, tip: Answer) -> Result<Bytes, OutOfMemory>
    requires { IsPrintable tip }
    ensures { IfOk result (λ line. line ≡ line_of (notification (codes "blockchain.headers.subscribe")
        (array (item tip no_items)))) }
{
    let mut params = Answers::new(alloc);
    params.push(tip)?;
    notification_line(alloc, "blockchain.headers.subscribe", params.into_answer())
}

// The line that tells the status of a script hash.
fn script_line(alloc: Global, s: &Hash32, status: Option<Hash32>) -> Result<Bytes, OutOfMemory>
    ensures { IfOk result (λ line. line ≡ noticed.script_line (s.now, status)) }
{
    let mut params = Answers::new(alloc);
    params.push(shown_of(alloc, s)?)?;
    params.push(told_of(alloc, status)?)?;
    notification_line(
        alloc,
        "blockchain.scripthash.subscribe",
        params.into_answer(),
    )
}

// Adds the lines that tell these statuses.
fn add_script_lines(
    alloc: Global,
    lines: &mut Vec<Bytes>,
    news: &[(Hash32, Option<Hash32>)],
) -> Result<(), OutOfMemory>
    ensures { OnOk result (lines.new.items ≡ lines.old.items ++ map noticed.script_line news.now) }
{
    for (s, status) in news {
        lines.push(script_line(alloc, s, *status)?)?;
    }
    Ok(())
}

// Adds the line that tells the ledger's tip, if it has one.
fn add_tip_line<G: Ledger>(
    alloc: Global,
    lines: &mut Vec<Bytes>,
    ledger: &mut G,
) -> Result<(), QueryFault>
    requires live { G.is_live ledger.old }
    ensures line { (chain : Chain) → G.stands ledger.old chain
        → OnOk result (lines.new.items ≡ lines.old.items ++ tip_lines (defined.headers_subscribe chain)) }
    ensures notices { AllByRecursion IsNotice lines.old.items
        → OnOk result (AllByRecursion IsNotice lines.new.items) }
    ensures rows { G.reads ledger.new ≤ G.reads ledger.old + 1 }
    ensures quiet { Asked ⟦<G as Ledger>⟧ ledger.old ledger.new }
    ensures cause { CountsOnly (G.faults ledger.old) (G.faults ledger.new) QueryFault.DiskFailed result }
{
    let mut is_told = true;
    match headers_subscribe(alloc, ledger, &mut is_told) {
        Ok(tip) => {
            lines.push(tip_line(alloc, tip)?)?;
            Ok(())
        }
        Err(Stop::Refused(_)) => Ok(()),
        Err(Stop::Disk) => Err(QueryFault::DiskFailed),
        Err(_) => Err(QueryFault::Memory),
    }
}

/// All lines that a client is told after a line of the node, in order, each with byte 10 at its end
/// (Electrum Protocol 1.4, `blockchain.headers.subscribe` and `blockchain.scripthash.subscribe`): the tip,
/// where it subscribes to headers and the ledger's tip isn't the one before, in inner order; and then of each
/// of its subscriptions the status, where it isn't the one told last. Those are then marked as told. These
/// are all, where each subscription to a script hash that isn't touched was told its status; no other is
/// looked at.
///
/// # Errors
///
/// `DiskFailed`, `Memory`; then the session is not used again.
pub fn notify<G: Ledger>(
    alloc: Global,
    session: &mut Session,
    ledger: &mut G,
    pool: &Pool,
    touched: &Touched,
    before: &Option<Hash32>,
) -> Result<Vec<Bytes>, QueryFault>
    requires live { G.is_live ledger.old }
    ensures told { (chain : Chain) (kept : List shape.Tx) → G.stands ledger.old chain
        → KeptStandFor pool.now.entries chain kept
        → OthersTold (status chain kept) touched.now session.old.subs → IfOk result
        (λ lines. lines.items ≡ notices (status chain kept) before.now chain session.old) }
    ensures notified { (chain : Chain) (kept : List shape.Tx) → G.stands ledger.old chain
        → KeptStandFor pool.now.entries chain kept
        → OthersTold (status chain kept) touched.now session.old.subs
        → OnOk result (session.new ≡ notified (status chain kept) session.old) }
    ensures rows { (chain : Chain) → G.stands ledger.old chain
        → G.reads ledger.new ≤ G.reads ledger.old
        + (1 + cost_of (λ (x : hash_shape.Hash32). history_rows chain (G.buckets ledger.old) x.0) touched.now
        (keys_of session.old.subs)) }
    // What is told is a tip or a status, and the script hashes stay, whatever the ledger stands for.
    ensures notices { IfOk result (λ lines. AllByRecursion IsNotice lines.items) }
    ensures keys { keys_of session.new.subs ≡ keys_of session.old.subs }
    ensures only_subs { session.new ≡ record session.old { subs = session.new.subs } }
    ensures quiet { Asked ⟦<G as Ledger>⟧ ledger.old ledger.new }
    ensures cause { CountsOnly (G.faults ledger.old) (G.faults ledger.new) QueryFault.DiskFailed result }
{
    let mut lines = Vec::new(alloc);
    if session.headers && *before != ledger.tip() {
        add_tip_line(alloc, &mut lines, ledger)?;
    }
    let news = tell(alloc, &mut session.subs, ledger, pool, touched)?;
    add_script_lines(alloc, &mut lines, news.as_slice())?;
    Ok(lines)
}
