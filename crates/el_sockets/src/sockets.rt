// The sockets of the node and of the clients.
ghost use Rattle.std.specs.Prelude.{◌≡◌, ℕ, length, IfOk, IfSome};
ghost use Rattle.el_sockets.specs.Arrivals.{IsNextAfter};

use crate::calls::lacks_room;
use crate::connection::Connection;
use crate::listener::Listener;
use el_base::OutOfMemory;
use el_outside::{Arrival, BUFFER_SIZE, CLIENT_LIMIT, Peer, SendFault, Why};
use mio::net::TcpStream;
use mio::{Events, Interest, Poll, Token};
use std::alloc::Global;
use std::io;
use std::net::Net;
use std::time::Duration;

/// The node's number, and the place of its socket.
const NODE: Peer = 0;

/// The places of peers: the node's, those of all clients that may be connected at once, and one more.
const PEER_PLACES: usize = CLIENT_LIMIT + 2;

/// The places of the two ports.
const NODE_LISTENER: usize = PEER_PLACES;

const CLIENT_LISTENER: usize = PEER_PLACES + 1;

/// All places.
const PLACES: usize = PEER_PLACES + 2;

/// How long a pass waits for a socket to be ready, in milliseconds.
const WAIT: u64 = 1_000;

/// The numbers of the two ports, of which 0 stands for any that is free.
#[derive(Clone, Copy, Debug, PartialEq, Eq)]
pub struct Ports {
    /// That of the clients.
    pub clients: u16,
    /// That of the node.
    pub node: u16,
}

/// What of the sockets a call of the system failed on.
#[derive(Clone, Copy, Debug, PartialEq, Eq)]
pub enum SocketPart {
    /// The port of the clients, in its opening.
    ClientPort,
    /// The port of the node, in its opening.
    NodePort,
    /// The watch over all sockets, or a connection that comes in.
    Watch,
    /// The node's connection, over which a message couldn't be sent.
    Node,
}

/// A call of the system on sockets that failed.
#[derive(Clone, Copy)]
pub struct SocketFailure {
    /// On what it failed.
    pub part: SocketPart,
    /// What the system said. None where the node is given up without it, since too many bytes are unsent.
    pub error: Option<io::Error>,
}

// A failure of which the system said so.
fn failure(part: SocketPart, error: io::Error) -> SocketFailure {
    SocketFailure {
        part,
        error: Some(error),
    }
}

/// Room for the peers and for what the system tells of them, taken before a port is opened.
#[derive(Drop)]
pub struct Room {
    alloc: Global,
    events: Events,
    peers: Vec<Option<Connection>>,
}

impl Room {
    /// Room for the node and 257 clients.
    pub fn new(alloc: Global) -> Result<Room, OutOfMemory> {
        let events = Events::with_capacity(alloc, PLACES)?;
        let mut peers = Vec::new(alloc);
        for _place in 0..PEER_PLACES {
            peers.push(None)?;
        }
        Ok(Room {
            alloc,
            events,
            peers,
        })
    }
}

/// The two ports and the sockets of the peers, none of which is waited for where another is ready. Places
/// are gone through in passes, each place once.
#[derive(Drop)]
pub struct Sockets {
    poll: Poll,
    room: Room,
    node_listener: Listener,
    client_listener: Listener,
    // The place that comes next in this pass.
    place: usize,
}

impl Sockets {
    /// Opens the two ports.
    pub fn new<N: Net>(net: &N, room: Room, ports: Ports) -> Result<Sockets, SocketFailure> {
        let poll = match Poll::new(net) {
            Ok(poll) => poll,
            Err(error) => return Err(failure(SocketPart::Watch, error)),
        };
        let clients = Token(CLIENT_LISTENER);
        let client_listener = match Listener::new(net, poll.registry(), clients, ports.clients) {
            Ok(listener) => listener,
            Err(error) => return Err(failure(SocketPart::ClientPort, error)),
        };
        let node = Token(NODE_LISTENER);
        match Listener::new(net, poll.registry(), node, ports.node) {
            Ok(node_listener) => Ok(Sockets {
                poll,
                room,
                node_listener,
                client_listener,
                place: 0,
            }),
            Err(error) => Err(failure(SocketPart::NodePort, error)),
        }
    }

    /// The numbers that the two ports have.
    pub fn ports(&self) -> io::Result<Ports> {
        Ok(Ports {
            clients: self.client_listener.port()?,
            node: self.node_listener.port()?,
        })
    }

    /// What comes next. It ends the pass that was begun, and then makes a whole one, which waits for a socket
    /// to be ready. `Quiet` comes where this one found nothing.
    pub fn hear(&mut self, last: Peer, buf: &mut [u8]) -> io::Result<Arrival>
        requires { length buf.old ≡ BUFFER_SIZE }
        ensures { IfOk result (λ arrival. IsNextAfter last arrival) }
    {
        if let Some(arrival) = self.end_pass(last, buf)? {
            return Ok(arrival);
        }
        self.wait()?;
        match self.end_pass(last, buf)? {
            Some(arrival) => Ok(arrival),
            None => Ok(Arrival::Quiet),
        }
    }

    /// Sends a message to an open peer.
    pub fn send(&mut self, p: Peer, message: &[u8]) -> Result<(), SendFault> {
        match self
            .room
            .peers
            .iter_mut()
            .flatten()
            .find(|peer| peer.is_open_as(p))
        {
            Some(peer) => peer.send(message),
            None => Err(SendFault::Gone),
        }
    }

    /// What the system said where a message to the node couldn't be written.
    pub fn node_refusal(&self) -> Option<io::Error> {
        match self.room.peers.first() {
            Some(Some(node)) => node.refusal(),
            Some(None) => None,
            None => None,
        }
    }

    /// Closes an open peer.
    pub fn close(&mut self, p: Peer, why: Why) {
        if let Some(peer) = self
            .room
            .peers
            .iter_mut()
            .flatten()
            .find(|peer| peer.is_open_as(p))
        {
            peer.close(why);
        }
    }

    // Goes on with the pass until something came.
    fn end_pass(&mut self, last: Peer, buf: &mut [u8]) -> io::Result<Option<Arrival>>
        requires { length buf.old ≡ BUFFER_SIZE }
        ensures { IfOk result (λ found. IfSome found (λ arrival. IsNextAfter last arrival)) }
    {
        for place in self.place..PLACES {
            self.place = place + 1;
            let found = self.look(place, last, buf)?;
            if found.is_some() {
                return Ok(found);
            }
        }
        Ok(None)
    }

    // What a place brings.
    fn look(&mut self, place: usize, last: Peer, buf: &mut [u8]) -> io::Result<Option<Arrival>>
        requires { length buf.old ≡ BUFFER_SIZE }
        ensures { IfOk result (λ found. IfSome found (λ arrival. IsNextAfter last arrival)) }
    {
        match place {
            NODE_LISTENER => {
                self.admit_node()?;
                Ok(None)
            }
            CLIENT_LISTENER => self.admit_client(last),
            _ => Ok(self.attend(place, buf)),
        }
    }

    // What a peer brings. The socket of one that is done is let go.
    fn attend(&mut self, place: usize, buf: &mut [u8]) -> Option<Arrival>
        requires { length buf.old ≡ BUFFER_SIZE }
        ensures { (last : ℕ) → IfSome result (λ arrival. IsNextAfter last arrival) }
    {
        let slot = self.room.peers.get_mut(place)?;
        let peer = slot.as_mut()?;
        let found = peer.attend(buf);
        if peer.is_done() {
            *slot = None;
        }
        found
    }

    // Lets the node in; a second one is closed.
    fn admit_node(&mut self) -> io::Result<()> {
        let Some(stream) = self.node_listener.accept()? else {
            return Ok(());
        };
        if self.is_free(NODE as usize) {
            self.place_peer(NODE as usize, NODE, stream)?;
        }
        Ok(())
    }

    // Lets a client in where a place is free. Once all numbers are given it is closed.
    fn admit_client(&mut self, last: Peer) -> io::Result<Option<Arrival>>
        ensures { IfOk result (λ found. IfSome found (λ arrival. IsNextAfter last arrival)) }
    {
        let Some(place) = self.free_place() else {
            return Ok(None);
        };
        let Some(stream) = self.client_listener.accept()? else {
            return Ok(None);
        };
        let Some(peer) = last.checked_add(1) else {
            return Ok(None);
        };
        if self.place_peer(place, peer, stream)? {
            Ok(Some(Arrival::Opened(peer)))
        } else {
            Ok(None)
        }
    }

    // A free place for a client.
    fn free_place(&self) -> Option<usize> {
        (1..PEER_PLACES).find(|place| self.is_free(*place))
    }

    fn is_free(&self, place: usize) -> bool {
        matches!(self.room.peers.get(place), Some(None))
    }

    // Gives a peer its place. Where the system has no room to watch its socket, it is closed unnamed.
    fn place_peer(&mut self, place: usize, peer: Peer, mut stream: TcpStream) -> io::Result<bool> {
        stream.set_nodelay(true)?;
        let interests = Interest::READABLE | Interest::WRITABLE;
        match self
            .poll
            .registry()
            .register(&mut stream, Token(place), interests)
        {
            Ok(()) => {}
            Err(e) if lacks_room(&e) => return Ok(false),
            Err(e) => return Err(e),
        }
        if let Some(slot) = self.room.peers.get_mut(place) {
            *slot = Some(Connection::new(self.room.alloc, peer, stream));
        }
        Ok(true)
    }

    // Begins a new pass, and waits for a socket to be ready where none is. Where none came to be in that
    // time, all are looked at.
    fn wait(&mut self) -> io::Result<()> {
        let is_due = self.is_due();
        let time = Duration::from_millis(if is_due { 0 } else { WAIT });
        self.place = 0;
        self.poll.poll(&mut self.room.events, Some(time))?;
        self.node_listener.begin_pass();
        self.client_listener.begin_pass();
        if self.room.events.is_empty() && !is_due {
            self.make_all_ready();
        }
        self.take_events();
        Ok(())
    }

    // Whether a place has something to do that need not wait.
    fn is_due(&self) -> bool {
        self.node_listener.is_ready()
            || self.client_listener.is_ready() && self.free_place().is_some()
            || self.room.peers.iter().flatten().any(|peer| peer.is_due())
    }

    fn make_all_ready(&mut self) {
        self.node_listener.make_ready();
        self.client_listener.make_ready();
        for peer in self.room.peers.iter_mut().flatten() {
            peer.make_ready();
        }
    }

    fn take_events(&mut self) {
        for event in &self.room.events {
            match event.token() {
                Token(NODE_LISTENER) => self.node_listener.make_ready(),
                Token(CLIENT_LISTENER) => self.client_listener.make_ready(),
                Token(place) => {
                    if let Some(Some(peer)) = self.room.peers.get_mut(place) {
                        peer.make_ready();
                    }
                }
            }
        }
    }
}
