// A port at which peers come in.
use crate::calls::{Nobody, why_nobody};
use mio::net::{TcpListener, TcpStream};
use mio::{Interest, Registry, Token};
use std::io;
use std::net::{Ipv4Addr, Net, SocketAddr};

/// What is known of the connections that wait at a port.
#[derive(Clone, Copy, Debug, PartialEq, Eq)]
enum Backlog {
    /// One may wait.
    MayWait,
    /// None waits, until the system tells of one.
    Empty,
    /// One waits for which the system had no room: it is tried again in a later pass.
    Refused,
}

/// A port at which peers come in.
#[derive(Drop)]
pub struct Listener {
    socket: TcpListener,
    backlog: Backlog,
}

impl Listener {
    /// Opens a port on 127.0.0.1.
    pub fn new<N: Net>(
        net: &N,
        registry: &Registry,
        token: Token,
        port: u16,
    ) -> io::Result<Listener> {
        let address = SocketAddr::from((Ipv4Addr::LOCALHOST, port));
        let mut socket = TcpListener::bind(net, address)?;
        registry.register(&mut socket, token, Interest::READABLE)?;
        Ok(Listener {
            socket,
            backlog: Backlog::MayWait,
        })
    }

    /// Whether a connection may wait that is worth a try now.
    pub fn is_ready(&self) -> bool {
        self.backlog == Backlog::MayWait
    }

    /// A connection may wait again.
    pub fn make_ready(&mut self) {
        self.backlog = Backlog::MayWait;
    }

    /// A new pass begins: a connection that was refused is tried once more.
    pub fn begin_pass(&mut self) {
        if self.backlog == Backlog::Refused {
            self.make_ready();
        }
    }

    /// The next connection, if one waits. One that was aborted is passed over, and so is one for which the
    /// system has no room: it waits on, and is tried again in the next pass.
    pub fn accept(&mut self) -> io::Result<Option<TcpStream>> {
        if !self.is_ready() {
            return Ok(None);
        }
        match self.socket.accept() {
            Ok((stream, _)) => Ok(Some(stream)),
            Err(error) => {
                match why_nobody(error)? {
                    Nobody::NoneWaits => self.backlog = Backlog::Empty,
                    Nobody::PassedOver => {}
                    Nobody::NoRoom => self.backlog = Backlog::Refused,
                }
                Ok(None)
            }
        }
    }

    /// The port's number.
    pub fn port(&self) -> io::Result<u16> {
        Ok(self.socket.local_addr()?.port())
    }
}
