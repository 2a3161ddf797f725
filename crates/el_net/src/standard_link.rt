// Standard input and output as a link with one client.
ghost use Rattle.std.specs.Prelude.{◌≡◌, ◌≤◌, length, IfOk, []};
ghost use Rattle.el_outside.specs.Counts.{RoseBy, HasCause};
ghost use Rattle.el_outside.specs.Trace.{IsNextArrival};
ghost use Rattle.el_net.specs.Devices.{IsArrivalOf};

use el_outside::{Arrival, BUFFER_SIZE, Link, LinkFailed, Peer, SendFault, Why};
use std::io;
use std::io::{ErrorKind, Input, Print, Read, Write};
use std::marker::Model;

/// The one client's number.
const CLIENT: Peer = 1;

/// Standard input and output as client 1, which comes first. The link ends at the end of input. It tells no
/// content: contracts see the last client's number and the counts.
#[derive(Drop)]
pub struct StandardLink<R: Input + Print + Drop> {
    rt: R,
    last: Peer,
    is_closed: bool,
    calls: u64,
    faults: u64,
    // Why the last read failed, if it did. No clause speaks of it.
    failure: Option<io::Error>,
}

impl<R: Input + Print + Drop> Model for StandardLink<R> {
    ghost use Rattle.el_net.specs.Devices.{LinkCounts};

    ghost Value = { LinkCounts };

    ghost view = { λ link. record { last = link.last; calls = link.calls; faults = link.faults } };
}

// What a read of the client's bytes brings: nothing more once the input has ended, and a failure where the
// read failed. Bytes of a client that was closed are thrown away.
fn arrival_of(read: io::Result<usize>, is_closed: bool) -> Result<Arrival, LinkFailed>
    ensures { IsArrivalOf read is_closed result }
{
    match read {
        Ok(0) => Ok(Arrival::Ended),
        Ok(_) if is_closed => Ok(Arrival::Quiet),
        Ok(n) => Ok(Arrival::Bytes(CLIENT, n)),
        Err(_) => Err(LinkFailed),
    }
}

impl<R: Input + Print + Drop> StandardLink<R> {
    /// A link over the standard streams.
    pub fn new(rt: R) -> StandardLink<R>
        ensures { result ≡ record { last = 0; calls = 0; faults = 0 } }
    {
        StandardLink {
            rt,
            last: 0,
            is_closed: false,
            calls: 0,
            faults: 0,
            failure: None,
        }
    }

    /// What the system said where the last read failed.
    pub fn failure(&self) -> Option<io::Error> {
        self.failure
    }

    // Reads what has come, waiting for it.
    fn read(&self, buf: &mut [u8]) -> io::Result<usize>
        ensures { IfOk result (λ n. n ≤ length buf.old) }
    {
        for _ in 0..u64::MAX {
            match self.rt.reader().read(buf) {
                Err(e) if e.kind() == ErrorKind::Interrupted => {}
                read => return read,
            }
        }
        Ok(0)
    }

    // Writes all of it.
    fn write(&self, bytes: &[u8]) -> io::Result<()> {
        let mut out = io::writer(&self.rt);
        out.write_all(bytes)?;
        out.flush()
    }

    // Counts a call of `next`.
    fn count_call(&mut self)
        ensures calls { RoseBy self.old.calls self.new.calls 1 }
        ensures last { self.new.last ≡ self.old.last }
        ensures faults { self.new.faults ≡ self.old.faults }
    {
        self.calls = self.calls.saturating_add(1);
    }

    // Counts a failure.
    fn count_fault(&mut self)
        ensures faults { RoseBy self.old.faults self.new.faults 1 }
        ensures last { self.new.last ≡ self.old.last }
        ensures calls { self.new.calls ≡ self.old.calls }
    {
        self.faults = self.faults.saturating_add(1);
    }

    // What comes next, once the client has come.
    fn hear(&mut self, buf: &mut [u8]) -> Result<Arrival, LinkFailed>
        requires { length buf.old ≡ BUFFER_SIZE }
        ensures last { self.new.last ≡ self.old.last }
        ensures calls { self.new.calls ≡ self.old.calls }
        ensures lawful { IfOk result (λ arrival. IsNextArrival self.old.last arrival self.new.last) }
        ensures cause { HasCause self.old.faults self.new.faults result }
    {
        let read = self.read(buf);
        self.failure = read.err();
        let arrival = arrival_of(read, self.is_closed);
        if arrival.is_err() {
            self.count_fault();
        }
        arrival
    }
}

impl<R: Input + Print + Drop> Link for StandardLink<R> {
    ghost tells = { ⊥ };

    ghost trace = { λ link. record { arrivals = []; messages = []; closings = [] } };

    ghost last = { λ link. link.last };

    ghost calls = { λ link. link.calls };

    ghost faults = { λ link. link.faults };

    ghost greater_is_new = { λ link p told less. absurd told };

    fn next(&mut self, buf: &mut [u8]) -> Result<Arrival, LinkFailed> {
        self.count_call();
        if self.last == 0 {
            self.last = CLIENT;
            return Ok(Arrival::Opened(CLIENT));
        }
        self.hear(buf)
    }

    fn send(&mut self, p: Peer, bytes: &[u8]) -> Result<(), SendFault> {
        if p == CLIENT && self.write(bytes).is_ok() {
            return Ok(());
        }
        self.count_fault();
        Err(SendFault::Gone)
    }

    fn close(&mut self, p: Peer, _why: Why) {
        if p == CLIENT {
            self.is_closed = true;
        }
    }
}
