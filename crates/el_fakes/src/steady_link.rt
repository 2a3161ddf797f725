// A link in memory whose calls never fail.
ghost use Rattle.std.specs.Prelude.{◌≡◌, [], ◌∷◌, IfOk, IsOk, OnOk, OnErr, IsErrOf, MatchBool, length, map};
ghost use Rattle.el_outside.specs.Counts.{risen};
ghost use Rattle.el_outside.specs.Trace.{GoesOn, IsNextArrival, NamesNoClosed, with_bytes, is_open};
ghost use Rattle.el_fakes.specs.Coming.{next_after};
ghost use Rattle.el_fakes.specs.Greatest.{greatest_peer};
ghost use Rattle.el_fakes.specs.Kept.{trace_message, trace_closing};

use crate::coming::Coming;
use crate::heard::{Heard, then};
use crate::kept::{Closed, Sent, keep, put_closed};
use crate::peers::{is_among, remove, welcome};
use crate::taking::{Spot, take};
use el_base::OutOfMemory;
use el_outside::{Arrival, BUFFER_SIZE, Link, LinkFailed, Peer, SendFault, Why};
use std::alloc::Global;
use std::marker::Model;

/// A link in memory, which tells all that went over it. It hands over the steps of a list in order, and then
/// answers `Ended`. A step that no link may hand over is passed over: a peer whose number isn't greater than
/// all before, no bytes, and bytes or a leaving of a peer that was closed. No call of `next` fails, and
/// `send` fails only where memory runs out.
#[derive(Drop)]
pub struct SteadyLink {
    alloc: Global,
    coming: Vec<Coming>,
    spot: Spot,
    last: Peer,
    peers: Vec<Peer>,
    heard: Heard,
    sent: Vec<Sent>,
    closed: Vec<Closed>,
    calls: u64,
}

impl Model for SteadyLink {
    ghost use Rattle.el_fakes.specs.Coming.{SteadyState};

    ghost Value = { SteadyState };

    ghost use Rattle.el_fakes.specs.within.Links.{link_state, FieldsAgree};

    ghost view = { link_state };

    ghost invariant = { FieldsAgree };
}

impl SteadyLink {
    /// A link that brings these steps, with the room for each peer that comes to be closed. It fails only
    /// where memory runs out.
    pub fn new(alloc: Global, coming: Vec<Coming>) -> Result<SteadyLink, OutOfMemory>
        ensures { IfOk result (λ link. link ≡ record {
          trace = record { arrivals = []; messages = []; closings = [] };
          coming = coming.items;
          calls = 0;
        }) }
    {
        let peers = Vec::with_capacity(alloc, coming.len())?;
        let closed = Vec::with_capacity(alloc, coming.len())?;
        Ok(SteadyLink {
            alloc,
            coming,
            spot: Spot { place: 0, given: 0 },
            last: 0,
            peers,
            heard: Heard::Nothing,
            sent: Vec::new(alloc),
            closed,
            calls: 0,
        })
    }

    /// The messages that were sent, in order.
    pub fn sent(&self) -> &[Sent]
        ensures { map trace_message result.now ≡ self.now.trace.messages }
    {
        self.sent.as_slice()
    }

    /// The peers that were closed, in order.
    pub fn closed(&self) -> &[Closed]
        ensures { map trace_closing result.now ≡ self.now.trace.closings }
    {
        self.closed.as_slice()
    }
}

impl Link for SteadyLink {
    ghost use Rattle.el_fakes.specs.within.Laws.{greatest_is_last};

    ghost tells = { Unit {0} };

    ghost trace = { λ link. link.trace };

    ghost last = { λ link. greatest_peer link.trace };

    ghost calls = { λ link. link.calls };

    ghost faults = { λ link. 0 };

    ghost greater_is_new = { λ link p told less. greatest_is_last link.trace p less };

    fn next(&mut self, buf: &mut [u8]) -> Result<Arrival, LinkFailed>
        requires { length buf.old ≡ BUFFER_SIZE }
        ensures succeeds { IsOk result }
        ensures lawful { IfOk result (λ arrival.
            IsNextArrival (greatest_peer self.old.trace) arrival (greatest_peer self.new.trace)) }
        ensures took { IfOk result (λ arrival.
            GoesOn self.old.trace self.new.trace (with_bytes arrival buf.new ∷ []) [] []) }
        ensures silent { IfOk result (λ arrival. NamesNoClosed self.old.trace (with_bytes arrival buf.new)) }
        ensures handed { IfOk result (λ arrival. next_after self.old.trace self.old.coming
            ≡ record { arrival = with_bytes arrival buf.new; coming = self.new.coming }) }
        ensures called { self.new.calls ≡ risen self.old.calls 1 }
    {
        self.calls = self.calls.saturating_add(1);
        let taken = take(
            self.coming.as_slice(),
            self.spot,
            self.last,
            self.closed.as_slice(),
            buf,
        );
        self.last = welcome(&mut self.peers, self.last, taken.arrival);
        self.spot = taken.spot;
        self.heard = then(&self.heard, taken.arrival, buf);
        Ok(taken.arrival)
    }

    fn send(&mut self, p: Peer, bytes: &[u8]) -> Result<(), SendFault>
        ensures sent { OnOk result
            (GoesOn self.old.trace self.new.trace [] (record { peer = p; text = bytes.now } ∷ []) []) }
        ensures not_sent { OnErr result (self.new.trace ≡ self.old.trace) }
        ensures same_last { greatest_peer self.new.trace ≡ greatest_peer self.old.trace }
        ensures never_gone { IsErrOf result SendFault.Gone → ⊥ }
        ensures same { self.new ≡ record self.old { trace = self.new.trace } }
    {
        match keep(self.alloc, &mut self.sent, p, bytes) {
            Ok(()) => Ok(()),
            Err(OutOfMemory) => Err(SendFault::Memory),
        }
    }

    fn close(&mut self, p: Peer, why: Why)
        ensures closed { MatchBool (is_open self.old.trace p)
            (GoesOn self.old.trace self.new.trace [] [] (record { peer = p; why = why } ∷ []))
            (self.new.trace ≡ self.old.trace) }
        ensures same_last { greatest_peer self.new.trace ≡ greatest_peer self.old.trace }
        ensures same { self.new ≡ record self.old { trace = self.new.trace } }
    {
        if is_among(self.peers.as_slice(), p) {
            remove(&mut self.peers, p);
            put_closed(&mut self.closed, p, why);
        }
    }
}
