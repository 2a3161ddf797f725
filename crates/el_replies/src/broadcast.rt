// Broadcasts.
ghost use Rattle.std.specs.Prelude.{◌≡◌, ◌≤◌, IfOk, Result};
ghost use Rattle.el_base.specs.declared.hash.Hash32 as hash_shape;
ghost use Rattle.el_relay.specs.declared.fault.OfferFault as fault_shape;
ghost use Rattle.el_methods.specs.Outcomes.{IsPrintableAnswer};
ghost use Rattle.el_replies.specs.Broadcasts.{IsBroadcast, TellsOf, refusal_by};

use el_base::OutOfMemory;
use el_calls::Refusal;
use el_json::Answer;
use el_methods::shown_of;
use el_outside::Relay;
use el_relay::{Desk, OfferFault};
use std::alloc::Global;

// Why a transaction isn't broadcast, as the client is told it; None where memory ran out.
fn refusal_by(fault: OfferFault) -> Option<Refusal>
    ensures { result ≡ refusal_by fault }
{
    match fault {
        OfferFault::Off => Some(Refusal::NoRelay),
        OfferFault::Form => Some(Refusal::NotTransaction),
        OfferFault::CoinbaseForm => Some(Refusal::CoinbaseNotRelayed),
        OfferFault::Refused => Some(Refusal::RefusedByRelay),
        OfferFault::RelayFailed => Some(Refusal::RelayFailed),
        OfferFault::Memory => None,
    }
}

/// Broadcasts the transaction that the bytes encode, and tells its txid, or why it isn't broadcast. Fails
/// only where memory runs out: for the desk, before the relay is asked; or for the txid's text, after the
/// desk has answered it.
pub(crate) fn broadcast<Y: Relay>(
    alloc: Global,
    desk: &mut Desk,
    relay: &mut Y,
    bytes: &[u8],
) -> Result<Result<Answer, Refusal>, OutOfMemory>
    ensures told { (by : Result hash_shape.Hash32 fault_shape.OfferFault)
        × IsBroadcast ⟦<Y as Relay>⟧ relay.old relay.new desk.old desk.new bytes.now by × TellsOf by result }
    ensures printable { IfOk result IsPrintableAnswer }
    ensures relay_more { Y.faults relay.old ≤ Y.faults relay.new }
{
    match desk.broadcast(relay, bytes) {
        Ok(id) => Ok(Ok(shown_of(alloc, &id)?)),
        Err(fault) => match refusal_by(fault) {
            Some(refusal) => Ok(Err(refusal)),
            None => Err(OutOfMemory),
        },
    }
}
