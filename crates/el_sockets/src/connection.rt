// A peer's socket, and what is still to be sent over it.
ghost use Rattle.std.specs.Prelude.{◌≡◌, ℕ, ◌≤◌, length, IfOk, IfSome};
ghost use Rattle.el_sockets.specs.Arrivals.{IsNextAfter};

use crate::calls::{done, waits};
use crate::unsent::Unsent;
use el_outside::{Arrival, BUFFER_SIZE, Peer, SendFault, Why};
use mio::net::TcpStream;
use std::alloc::Global;
use std::io;
use std::io::{ErrorKind, Read, Write};
use std::net::Shutdown;

/// A peer with more unsent bytes isn't read until it has taken some.
const STALLED_FROM: usize = 16_000_000;

/// One call writes at most so many bytes, so that a peer with many doesn't hold up the others.
const WRITE_SIZE: usize = 1 << 20;

/// A peer that was closed and still sends so many bytes is cut off.
const THROWN_AWAY_LIMIT: usize = 16_000_000;

/// How far a peer is.
#[derive(Clone, Copy, Debug, PartialEq, Eq)]
enum Stage {
    /// It is read and written.
    Open,
    /// It left or was closed: its unsent bytes are sent still, and what comes is thrown away.
    Leaving,
    /// Nothing is left to do.
    Done,
}

/// A peer's socket, and what is still to be sent over it.
#[derive(Drop)]
pub struct Connection {
    peer: Peer,
    stream: TcpStream,
    unsent: Unsent,
    stage: Stage,
    // A read may find something. It is unset only where one found nothing.
    is_readable: bool,
    // A write may be taken. It is unset only where one was not.
    is_writable: bool,
    // The peer sends no more.
    has_ended: bool,
    // The peer was told that nothing more is sent.
    is_shut: bool,
    // How many bytes came since it was closed.
    thrown_away: usize,
    // What the system said where a message couldn't be written.
    refusal: Option<io::Error>,
}

impl Connection {
    /// A peer that has come over a socket that doesn't block.
    pub fn new(alloc: Global, peer: Peer, stream: TcpStream) -> Connection {
        Connection {
            peer,
            stream,
            unsent: Unsent::new(alloc),
            stage: Stage::Open,
            is_readable: true,
            is_writable: true,
            has_ended: false,
            is_shut: false,
            thrown_away: 0,
            refusal: None,
        }
    }

    /// Whether it is that peer, and open.
    pub fn is_open_as(&self, p: Peer) -> bool {
        self.peer == p && self.stage == Stage::Open
    }

    /// What the system said of a message that couldn't be written. None where it said nothing, as of one for
    /// which too many bytes were unsent.
    pub fn refusal(&self) -> Option<io::Error> {
        self.refusal
    }

    /// Whether its socket may be let go.
    pub fn is_done(&self) -> bool {
        self.stage == Stage::Done
    }

    /// The socket may be ready again.
    pub fn make_ready(&mut self) {
        self.is_readable = true;
        self.is_writable = true;
    }

    /// Whether there is something to do that need not wait.
    pub fn is_due(&self) -> bool {
        self.is_done() || self.is_to_be_read() || self.is_to_be_written()
    }

    fn is_to_be_read(&self) -> bool {
        let is_stalled = self.stage == Stage::Open && self.unsent.len() > STALLED_FROM;
        self.is_readable && !self.has_ended && !is_stalled
    }

    fn is_to_be_written(&self) -> bool {
        self.is_writable && !self.unsent.is_empty()
    }

    /// Sends a message, or keeps it for later.
    pub fn send(&mut self, message: &[u8]) -> Result<(), SendFault> {
        self.unsent.add(message)?;
        match self.write() {
            Ok(()) => Ok(()),
            Err(error) => {
                self.refusal = Some(error);
                Err(SendFault::Gone)
            }
        }
    }

    /// Closes the peer. What it was sent before still goes out, but for a peer that is gone and where memory
    /// ran out.
    pub fn close(&mut self, why: Why) {
        match why {
            Why::Gone | Why::Memory => self.stage = Stage::Done,
            Why::Long | Why::Version | Why::Clients | Why::Disk => {
                self.stage = Stage::Leaving;
                match self.write() {
                    Ok(()) => self.take_leave(),
                    Err(_) => self.stage = Stage::Done,
                }
            }
        }
    }

    /// Does what need not wait: sends what was kept, and reads. It answers the bytes that came, or that an
    /// open peer left.
    pub fn attend(&mut self, buf: &mut [u8]) -> Option<Arrival>
        requires { length buf.old ≡ BUFFER_SIZE }
        ensures { (last : ℕ) → IfSome result (λ arrival. IsNextAfter last arrival) }
    {
        match self.stage {
            Stage::Open => self.attend_open(buf),
            Stage::Leaving => {
                self.attend_leaving(buf);
                None
            }
            Stage::Done => None,
        }
    }

    fn attend_open(&mut self, buf: &mut [u8]) -> Option<Arrival>
        requires { length buf.old ≡ BUFFER_SIZE }
        ensures { (last : ℕ) → IfSome result (λ arrival. IsNextAfter last arrival) }
    {
        match self.exchange(buf) {
            Ok(None) => None,
            Ok(Some(0)) => {
                self.stage = Stage::Leaving;
                self.take_leave();
                Some(Arrival::Closed(self.peer))
            }
            Ok(Some(n)) => Some(Arrival::Bytes(self.peer, n)),
            Err(_) => {
                self.stage = Stage::Done;
                Some(Arrival::Closed(self.peer))
            }
        }
    }

    fn attend_leaving(&mut self, buf: &mut [u8]) {
        let Ok(read) = self.exchange(buf) else {
            self.stage = Stage::Done;
            return;
        };
        self.thrown_away = self.thrown_away.saturating_add(read.unwrap_or(0));
        if self.thrown_away > THROWN_AWAY_LIMIT {
            self.stage = Stage::Done;
        } else {
            self.take_leave();
        }
    }

    // Sends what was kept, and reads. None where nothing came yet, and 0 where nothing comes any more.
    fn exchange(&mut self, buf: &mut [u8]) -> io::Result<Option<usize>>
        ensures { IfOk result (λ read. IfSome read (λ n. n ≤ length buf.old)) }
    {
        self.write()?;
        self.read(buf)
    }

    // Once all was sent, tells the peer so; once it sends no more either, its socket may be let go.
    fn take_leave(&mut self) {
        if !self.unsent.is_empty() {
            return;
        }
        if self.has_ended {
            self.stage = Stage::Done;
        } else if !self.is_shut {
            self.is_shut = true;
            if self.stream.shutdown(Shutdown::Write).is_err() {
                self.stage = Stage::Done;
            }
        }
    }

    // Reads, where something may have come.
    fn read(&mut self, buf: &mut [u8]) -> io::Result<Option<usize>>
        ensures { IfOk result (λ read. IfSome read (λ n. n ≤ length buf.old)) }
    {
        if !self.is_to_be_read() {
            return Ok(None);
        }
        let called = self.stream.read(buf);
        self.is_readable = !waits(&called);
        let read = done(called)?;
        self.has_ended = read == Some(0);
        Ok(read)
    }

    // Writes of what is unsent, where the socket may take it.
    fn write(&mut self) -> io::Result<()> {
        if !self.is_to_be_written() {
            return Ok(());
        }
        let unsent = self.unsent.as_slice();
        let front = &unsent[..unsent.len().min(WRITE_SIZE)];
        let called = self.stream.write(front);
        self.is_writable = !waits(&called);
        match done(called)? {
            None => Ok(()),
            Some(0) => Err(io::Error::from(ErrorKind::WriteZero)),
            Some(n) => {
                self.unsent.forget(n);
                Ok(())
            }
        }
    }
}
