// A link in memory some of whose calls fail.
ghost use Rattle.std.specs.Prelude.{◌≡◌, ◌==◌, [], ◌∷◌, true, IfOk, OnOk, OnErr, IsErrOf, ◌↔◌, is_err, MatchBool, length, map};
ghost use Rattle.std.specs.List.{list_any};
ghost use Rattle.el_outside.specs.Counts.{RoseBy, HasCause, risen};
ghost use Rattle.el_outside.specs.Trace.{GoesOn, IsNextArrival, NamesNoClosed, with_bytes, is_open};
ghost use Rattle.el_fakes.specs.Coming.{next_after};
ghost use Rattle.el_fakes.specs.Greatest.{greatest_peer};
ghost use Rattle.el_fakes.specs.Kept.{trace_message, trace_closing};

use crate::coming::Coming;
use crate::fronts::is_listed;
use crate::kept::{Closed, Sent};
use crate::steady_link::SteadyLink;
use el_base::OutOfMemory;
use el_outside::{Arrival, BUFFER_SIZE, Link, LinkFailed, Peer, SendFault, Why};
use std::alloc::Global;
use std::marker::Model;

/// A link in memory, which tells all that went over it. It is a `SteadyLink` but that the listed calls of
/// `next` answer `LinkFailed`, and the listed calls of `send` answer `Gone`; such a call takes and sends
/// nothing. Calls of either kind are counted from 1 on, up to 2^64 - 1.
#[derive(Drop)]
pub struct MemLink {
    link: SteadyLink,
    next_failing: Vec<u64>,
    send_failing: Vec<u64>,
    calls: u64,
    sends: u64,
    faults: u64,
}

impl Model for MemLink {
    ghost use Rattle.el_fakes.specs.Coming.{LinkState};

    ghost Value = { LinkState };

    ghost view = { λ a. record {
      trace = a.link.trace;
      coming = a.link.coming;
      next_failing = a.next_failing.items;
      send_failing = a.send_failing.items;
      calls = a.calls;
      sends = a.sends;
      faults = a.faults;
    } };
}

impl MemLink {
    /// A link that brings these steps, and the numbers of the calls of `next` and of `send` that fail. It
    /// fails only where memory runs out.
    pub fn new(
        alloc: Global,
        coming: Vec<Coming>,
        next_failing: Vec<u64>,
        send_failing: Vec<u64>,
    ) -> Result<MemLink, OutOfMemory>
        ensures { IfOk result (λ made. made ≡ record {
          trace = record { arrivals = []; messages = []; closings = [] };
          coming = coming.items;
          next_failing = next_failing.items;
          send_failing = send_failing.items;
          calls = 0;
          sends = 0;
          faults = 0;
        }) }
    {
        let link = SteadyLink::new(alloc, coming)?;
        Ok(MemLink {
            link,
            next_failing,
            send_failing,
            calls: 0,
            sends: 0,
            faults: 0,
        })
    }

    /// The messages that were sent, in order.
    pub fn sent(&self) -> &[Sent]
        ensures { map trace_message result.now ≡ self.now.trace.messages }
    {
        self.link.sent()
    }

    /// The peers that were closed, in order.
    pub fn closed(&self) -> &[Closed]
        ensures { map trace_closing result.now ≡ self.now.trace.closings }
    {
        self.link.closed()
    }

    /// How many calls failed, up to 2^64 - 1.
    pub fn faults(&self) -> u64
        ensures { result ≡ self.now.faults }
    {
        self.faults
    }

    // Counts a call of `next`, and says whether it fails.
    fn is_next_failing(&mut self) -> bool
        ensures counted { self.new ≡ record self.old { calls = risen self.old.calls 1 } }
        ensures listed { result ≡ list_any (λ n. self.new.calls == n) self.old.next_failing }
    {
        self.calls = self.calls.saturating_add(1);
        is_listed(self.next_failing.as_slice(), self.calls)
    }

    // Counts a call of `send`, and says whether it fails.
    fn is_send_failing(&mut self) -> bool
        ensures counted { self.new ≡ record self.old { sends = risen self.old.sends 1 } }
        ensures listed { result ≡ list_any (λ n. self.new.sends == n) self.old.send_failing }
    {
        self.sends = self.sends.saturating_add(1);
        is_listed(self.send_failing.as_slice(), self.sends)
    }

    // Counts a failure.
    fn count_fault(&mut self)
        ensures { self.new ≡ record self.old { faults = risen self.old.faults 1 } }
    {
        self.faults = self.faults.saturating_add(1);
    }
}

impl Link for MemLink {
    ghost use Rattle.el_fakes.specs.within.Laws.{greatest_is_last};

    ghost tells = { Unit {0} };

    ghost trace = { λ made. made.trace };

    ghost last = { λ made. greatest_peer made.trace };

    ghost calls = { λ made. made.calls };

    ghost faults = { λ made. made.faults };

    ghost greater_is_new = { λ made p told less. greatest_is_last made.trace p less };

    fn next(&mut self, buf: &mut [u8]) -> Result<Arrival, LinkFailed>
        requires { length buf.old ≡ BUFFER_SIZE }
        ensures lawful { IfOk result (λ arrival.
            IsNextArrival (greatest_peer self.old.trace) arrival (greatest_peer self.new.trace)) }
        ensures took { IfOk result (λ arrival.
            GoesOn self.old.trace self.new.trace (with_bytes arrival buf.new ∷ []) [] []) }
        ensures silent { IfOk result (λ arrival. NamesNoClosed self.old.trace (with_bytes arrival buf.new)) }
        ensures handed { IfOk result (λ arrival. next_after self.old.trace self.old.coming
            ≡ record { arrival = with_bytes arrival buf.new; coming = self.new.coming }) }
        ensures cause { HasCause self.old.faults self.new.faults result }
        ensures fails { is_err result ≡ list_any (λ n. self.new.calls == n) self.old.next_failing }
        ensures same { self.new ≡ record self.old {
          trace = self.new.trace;
          coming = self.new.coming;
          calls = risen self.old.calls 1;
          faults = self.new.faults;
        } }
        ensures none_taken { OnErr result (self.new ≡ record self.old {
          calls = risen self.old.calls 1;
          faults = risen self.old.faults 1;
        }) }
    {
        if self.is_next_failing() {
            self.count_fault();
            return Err(LinkFailed);
        }
        self.link.next(buf)
    }

    fn send(&mut self, p: Peer, bytes: &[u8]) -> Result<(), SendFault>
        ensures sent { OnOk result
            (GoesOn self.old.trace self.new.trace [] (record { peer = p; text = bytes.now } ∷ []) []) }
        ensures not_sent { OnErr result (self.new.trace ≡ self.old.trace) }
        ensures same_last { greatest_peer self.new.trace ≡ greatest_peer self.old.trace }
        ensures counted { IsErrOf result SendFault.Gone → RoseBy self.old.faults self.new.faults 1 }
        ensures uncounted { OnOk result (self.new.faults ≡ self.old.faults) }
        ensures memory_uncounted { IsErrOf result SendFault.Memory → self.new.faults ≡ self.old.faults }
        ensures fails { IsErrOf result SendFault.Gone
            ↔ (list_any (λ n. self.new.sends == n) self.old.send_failing ≡ true) }
        ensures same { self.new ≡ record self.old {
          trace = self.new.trace;
          sends = risen self.old.sends 1;
          faults = self.new.faults;
        } }
    {
        if self.is_send_failing() {
            self.count_fault();
            return Err(SendFault::Gone);
        }
        self.link.send(p, bytes)
    }

    fn close(&mut self, p: Peer, why: Why)
        ensures closed { MatchBool (is_open self.old.trace p)
            (GoesOn self.old.trace self.new.trace [] [] (record { peer = p; why = why } ∷ []))
            (self.new.trace ≡ self.old.trace) }
        ensures same_last { greatest_peer self.new.trace ≡ greatest_peer self.old.trace }
        ensures same { self.new ≡ record self.old { trace = self.new.trace } }
    {
        self.link.close(p, why);
    }
}
