// Sockets as a link with the node and clients.
ghost use Rattle.std.specs.Prelude.{◌≡◌, length, IfOk, []};
ghost use Rattle.el_outside.specs.Counts.{RoseBy};
ghost use Rattle.el_sockets.specs.Arrivals.{IsNextAfter};

use el_base::OutOfMemory;
use el_outside::{Arrival, BUFFER_SIZE, Link, LinkFailed, Peer, SendFault, Why};
use el_sockets::{Ports, Room, SocketFailure, SocketPart, Sockets};
use std::alloc::Global;
use std::io;
use std::io::{Eprint, ErrorKind};
use std::marker::Model;
use std::net::Net;

/// The node's number.
const NODE: Peer = 0;

/// Two ports on 127.0.0.1: one for clients, at most 257 at once, and one for the node. The first call of
/// `next` opens them, so that nobody waits at a port before anyone is served there, and tells so on standard
/// error. No call waits for a peer that is slow. Where a port can't be had, each call fails. It tells no
/// content: contracts see the ports that were asked for, the last client's number and the counts.
#[derive(Drop)]
pub struct TcpLink<R: Net + Eprint + Drop> {
    rt: R,
    asked: Ports,
    // What is told once the ports are open.
    opening: String,
    // Room for the peers, until the ports are opened.
    room: Option<Room>,
    sockets: Option<Sockets>,
    last: Peer,
    calls: u64,
    faults: u64,
    // The last failure that ends a run. No clause speaks of it.
    failure: Option<SocketFailure>,
}

impl<R: Net + Eprint + Drop> Model for TcpLink<R> {
    ghost use Rattle.el_net.specs.Devices.{LinkOverPorts};

    ghost Value = { LinkOverPorts };

    ghost view = { λ link. record {
      asked = link.asked;
      last = link.last;
      calls = link.calls;
      faults = link.faults;
    } };
}

impl<R: Net + Eprint + Drop> TcpLink<R> {
    /// The two ports, which aren't open yet, and room for the peers. The text is what is told on standard
    /// error once they are.
    pub fn new(
        rt: R,
        alloc: Global,
        ports: Ports,
        opening: String,
    ) -> Result<TcpLink<R>, OutOfMemory>
        ensures { IfOk result (λ link. link ≡ record { asked = ports; last = 0; calls = 0; faults = 0 }) }
    {
        let room = Room::new(alloc)?;
        Ok(TcpLink {
            rt,
            asked: ports,
            opening,
            room: Some(room),
            sockets: None,
            last: 0,
            calls: 0,
            faults: 0,
            failure: None,
        })
    }

    /// The ports that were asked for.
    pub fn asked(&self) -> Ports
        ensures { result ≡ self.now.asked }
    {
        self.asked
    }

    /// The last failure that ends a run: of the ports, of the watch over all sockets, or of a message to the
    /// node.
    pub fn failure(&self) -> Option<SocketFailure> {
        self.failure
    }

    /// The numbers that the two ports have, where they are open.
    pub fn ports(&self) -> io::Result<Ports> {
        match &self.sockets {
            Some(sockets) => sockets.ports(),
            None => Err(io::Error::from(ErrorKind::NotConnected)),
        }
    }

    // Counts a call of `next`.
    fn count_call(&mut self)
        ensures calls { RoseBy self.old.calls self.new.calls 1 }
        ensures last { self.new.last ≡ self.old.last }
        ensures faults { self.new.faults ≡ self.old.faults }
    {
        self.calls = self.calls.saturating_add(1);
    }

    // Counts a failure.
    fn count_fault(&mut self)
        ensures faults { RoseBy self.old.faults self.new.faults 1 }
        ensures last { self.new.last ≡ self.old.last }
        ensures calls { self.new.calls ≡ self.old.calls }
    {
        self.faults = self.faults.saturating_add(1);
    }

    // Opens the ports where that wasn't tried yet.
    fn open(&mut self)
        ensures { self.new ≡ self.old }
    {
        if let Some(room) = self.room.take() {
            match Sockets::new(&self.rt, room, self.asked) {
                Ok(sockets) => {
                    self.sockets = Some(sockets);
                    let _ = self.rt.eprint(self.opening.as_str());
                }
                Err(failure) => self.failure = Some(failure),
            }
        }
    }

    // What comes over the open ports.
    fn hear(&mut self, buf: &mut [u8]) -> Result<Arrival, LinkFailed>
        requires { length buf.old ≡ BUFFER_SIZE }
        ensures same { self.new ≡ self.old }
        ensures lawful { IfOk result (λ arrival. IsNextAfter self.old.last arrival) }
    {
        let Some(sockets) = &mut self.sockets else {
            return Err(LinkFailed);
        };
        match sockets.hear(self.last, buf) {
            Ok(arrival) => Ok(arrival),
            Err(error) => {
                self.failure = Some(SocketFailure {
                    part: SocketPart::Watch,
                    error: Some(error),
                });
                Err(LinkFailed)
            }
        }
    }

    // Keeps that a message to the node couldn't be sent.
    fn keep_refusal(&mut self)
        ensures { self.new ≡ self.old }
    {
        let error = match &self.sockets {
            Some(sockets) => sockets.node_refusal(),
            None => None,
        };
        self.failure = Some(SocketFailure {
            part: SocketPart::Node,
            error,
        });
    }
}

impl<R: Net + Eprint + Drop> Link for TcpLink<R> {
    ghost tells = { ⊥ };

    ghost trace = { λ link. record { arrivals = []; messages = []; closings = [] } };

    ghost last = { λ link. link.last };

    ghost calls = { λ link. link.calls };

    ghost faults = { λ link. link.faults };

    ghost greater_is_new = { λ link p told less. absurd told };

    fn next(&mut self, buf: &mut [u8]) -> Result<Arrival, LinkFailed> {
        self.count_call();
        self.open();
        match self.hear(buf) {
            Ok(arrival) => {
                if let Arrival::Opened(p) = arrival {
                    self.last = p;
                }
                Ok(arrival)
            }
            Err(failed) => {
                self.count_fault();
                Err(failed)
            }
        }
    }

    fn send(&mut self, p: Peer, bytes: &[u8]) -> Result<(), SendFault> {
        let sent = match &mut self.sockets {
            Some(sockets) => sockets.send(p, bytes),
            None => Err(SendFault::Gone),
        };
        if sent == Err(SendFault::Gone) {
            self.count_fault();
            if p == NODE {
                self.keep_refusal();
            }
        }
        sent
    }

    fn close(&mut self, p: Peer, why: Why) {
        if let Some(sockets) = &mut self.sockets {
            sockets.close(p, why);
        }
    }
}
