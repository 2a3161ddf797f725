// What no contract says of the link over sockets: what goes over it. Both ends stand in one process.
ghost use Rattle.std.specs.Prelude.{◌≡◌, length};

use el_net::TcpLink;
use el_outside::{Arrival, BUFFER_SIZE, Link, Peer, SendFault, Why};
use el_sockets::Ports;
use std::io;
use std::io::{Read, Write};
use std::net::{Ipv4Addr, Shutdown, SocketAddr, TcpStream};
use std::test::Fail;

fn connect(rt: &HostRuntime, port: u16) -> io::Result<TcpStream> {
    TcpStream::connect(rt, SocketAddr::from((Ipv4Addr::LOCALHOST, port)))
}

// What comes next and isn't `Quiet`.
fn next(link: &mut TcpLink<HostRuntime>, buf: &mut [u8]) -> Option<Arrival>
    requires { length buf.old ≡ BUFFER_SIZE }
{
    for _ in 0..100 {
        match link.next(buf) {
            Ok(Arrival::Quiet) => {}
            Ok(arrival) => return Some(arrival),
            Err(_) => return None,
        }
    }
    None
}

// Whether the peer's bytes come next.
fn is_next(link: &mut TcpLink<HostRuntime>, buf: &mut [u8], p: Peer, wanted: &[u8]) -> bool
    requires { length buf.old ≡ BUFFER_SIZE }
{
    match next(link, buf) {
        Some(Arrival::Bytes(q, n)) => q == p && buf.get(..n) == Some(wanted),
        _ => false,
    }
}

// Whether the stream brings these bytes.
fn brings(mut stream: &TcpStream, wanted: &[u8]) -> bool {
    let mut found = [0u8; 8];
    let n = wanted.len().min(8);
    stream.read_exact(&mut found[..n]).is_ok() && &found[..n] == wanted
}

// Whether the stream is at its end.
fn ends(mut stream: &TcpStream) -> bool {
    let mut found = [0u8; 8];
    matches!(stream.read(&mut found), Ok(0))
}

// A client that sends no more still gets what it is sent before its end is told.
fn serves_a_client_to_its_end(
    mut client: TcpStream,
    link: &mut TcpLink<HostRuntime>,
    buf: &mut [u8],
) -> io::Result<bool>
    requires { length buf.old ≡ BUFFER_SIZE }
{
    client.write_all(b"last\n")?;
    client.shutdown(Shutdown::Write)?;
    let is_heard = next(link, buf) == Some(Arrival::Opened(1)) && is_next(link, buf, 1, b"last\n");
    let is_sent = link.send(1, b"reply\n") == Ok(());
    let has_left = next(link, buf) == Some(Arrival::Closed(1));
    Ok(is_heard && is_sent && has_left && brings(&client, b"reply\n") && ends(&client))
}

// A message stands before a closing, and nothing goes to a closed client.
fn closes_a_client(client: TcpStream, link: &mut TcpLink<HostRuntime>, buf: &mut [u8]) -> bool
    requires { length buf.old ≡ BUFFER_SIZE }
{
    let has_come = next(link, buf) == Some(Arrival::Opened(2));
    let is_sent = link.send(2, b"bye\n") == Ok(());
    link.close(2, Why::Version);
    let is_gone = link.send(2, b"more\n") == Err(SendFault::Gone);
    has_come && is_sent && is_gone && brings(&client, b"bye\n") && ends(&client)
}

// The node comes without a word; a second one is closed.
fn has_one_node(
    mut node: TcpStream,
    second: TcpStream,
    link: &mut TcpLink<HostRuntime>,
    buf: &mut [u8],
) -> io::Result<bool>
    requires { length buf.old ≡ BUFFER_SIZE }
{
    node.write_all(b"tip\n")?;
    let is_heard = is_next(link, buf, 0, b"tip\n") && link.send(0, b"at\n") == Ok(());
    node.shutdown(Shutdown::Write)?;
    let has_left = next(link, buf) == Some(Arrival::Closed(0));
    Ok(is_heard && has_left && brings(&node, b"at\n") && ends(&node) && ends(&second))
}

// Two clients come, one after the other.
fn serves_clients(
    rt: &HostRuntime,
    port: u16,
    link: &mut TcpLink<HostRuntime>,
    buf: &mut [u8],
) -> io::Result<bool>
    requires { length buf.old ≡ BUFFER_SIZE }
{
    let first = connect(rt, port)?;
    let is_served = serves_a_client_to_its_end(first, link, buf)?;
    let second = connect(rt, port)?;
    Ok(is_served && closes_a_client(second, link, buf))
}

// Two nodes come at once.
fn serves_a_node(
    rt: &HostRuntime,
    port: u16,
    link: &mut TcpLink<HostRuntime>,
    buf: &mut [u8],
) -> io::Result<bool>
    requires { length buf.old ≡ BUFFER_SIZE }
{
    let node = connect(rt, port)?;
    let other = connect(rt, port)?;
    has_one_node(node, other, link, buf)
}

// Any ports that are free.
const ANY_PORTS: Ports = Ports {
    clients: 0,
    node: 0,
};

#[test]
fn sockets_bring_what_was_sent(rt: HostRuntime) -> Result<(), Fail> {
    let mut buf = [0u8; BUFFER_SIZE];
    let mut link = TcpLink::new(rt.clone()?, rt.alloc(), ANY_PORTS, String::new(rt.alloc()))?;
    // The first call opens the ports, at which nobody is yet.
    assert!(rt; link.ports().is_err() && link.next(&mut buf) == Ok(Arrival::Quiet));
    let ports = link.ports()?;
    assert!(rt; serves_clients(&rt, ports.clients, &mut link, &mut buf)?);
    assert!(rt; serves_a_node(&rt, ports.node, &mut link, &mut buf)?);
    Ok(())
}
