// What a client is told after a line of the node.
ghost use Rattle.std.specs.Prelude.{◌≡◌, ◌≤◌, ◌++◌, List, ℕ, IfOk, OnOk, Some, map, drop, true, false};
ghost use Rattle.std.specs.Map.{keys_of};
ghost use Rattle.el_outside.specs.Counts.{RoseBy, CountsOnly};
ghost use Rattle.el_model.specs.LedgerCalls.{Asked};
ghost use Rattle.el_side.specs.Side.{Side, IsSure};
ghost use Rattle.el_core.specs.Turn.{outs_of, messages_of};
ghost use Rattle.el_core.specs.within.Clients.{IsToTell, TellTurn, TellsSome, left_if, told_client, told_outs};

use crate::client::{Client, closing};
use crate::out::Outs;
use el_base::{Bytes, Hash32, Listed, OutOfMemory};
use el_chain::Touched;
use el_model::{Ledger, QueryFault};
use el_outside::{Peer, Why};
use el_side::Holdings;
use std::alloc::Global;

// The lines as messages to that client.
fn addressed(
    alloc: Global,
    p: Peer,
    lines: Vec<Bytes>,
) -> Result<Listed<(Peer, Bytes)>, OutOfMemory>
    ensures { IfOk result (λ sends. messages_of sends
        ≡ map (λ (t : List ℕ). record { peer = p; text = t }) lines.items) }
{
    let mut sends = Vec::new(alloc);
    for line in lines {
        sends.push((p, line))?;
    }
    Ok(Listed::from_vec(sends))
}

// Tells a client of the node's last line.
fn tell_all<G: Ledger>(
    alloc: Global,
    ledger: &mut G,
    holdings: &Holdings,
    touched: &Touched,
    before: &Option<Hash32>,
    client: &mut Client,
) -> Result<Outs, QueryFault>
    requires live { G.is_live ledger.old }
    ensures told { (side : Side) → IsSure side
        → IsToTell G.stands ledger.old holdings.now touched.now side client.old
        → IfOk result (λ o. outs_of o ≡ told_outs side before.now client.old) }
    ensures marked { (side : Side) → IsSure side
        → IsToTell G.stands ledger.old holdings.now touched.now side client.old
        → OnOk result (client.new ≡ told_client side client.old) }
    ensures some { IfOk result (λ o. TellsSome client.old (outs_of o) (Some client.new)) }
    ensures done { OnOk result (client.new.waits ≡ false) }
    ensures bytes { client.new.buffer ≡ client.old.buffer }
    ensures peer { client.new.peer ≡ client.old.peer }
    ensures keys { keys_of client.new.session.subs ≡ keys_of client.old.session.subs }
    ensures quiet { Asked ⟦<G as Ledger>⟧ ledger.old ledger.new }
    ensures cause { CountsOnly (G.faults ledger.old) (G.faults ledger.new) QueryFault.DiskFailed result }
{
    let peer = client.peer();
    let lines = client.tell(alloc, ledger, holdings, touched, before)?;
    match addressed(alloc, peer, lines) {
        Ok(sends) => Ok(Outs { sends, close: None }),
        Err(_) => Err(QueryFault::Memory),
    }
}

/// The telling of one client, and whether it stays.
pub fn tell_turn<G: Ledger>(
    alloc: Global,
    ledger: &mut G,
    holdings: &Holdings,
    touched: &Touched,
    before: &Option<Hash32>,
    client: &mut Client,
) -> (Outs, bool)
    requires live { G.is_live ledger.old }

    ensures turn { (side : Side)
        → IsToTell G.stands ledger.old holdings.now touched.now side client.old
        → TellTurn side before.now (λ n. RoseBy (G.faults ledger.old) (G.faults ledger.new) n)
        client.old (outs_of result.0) (left_if result.1 client.new) }
    ensures told { result.1 ≡ true → client.new.waits ≡ false }

    ensures quiet { Asked ⟦<G as Ledger>⟧ ledger.old ledger.new }
    ensures disk_more { G.faults ledger.old ≤ G.faults ledger.new }
    ensures same { (client.new.buffer ≡ client.old.buffer) × (client.new.peer ≡ client.old.peer) }
    ensures keys { keys_of client.new.session.subs ≡ keys_of client.old.session.subs }
{
    let peer = client.peer();
    match tell_all(alloc, ledger, holdings, touched, before, client) {
        Ok(outs) => (outs, true),
        Err(QueryFault::DiskFailed) => (closing(alloc, peer, Why::Disk), false),
        Err(QueryFault::Memory) => (closing(alloc, peer, Why::Memory), false),
    }
}
