// What comes over a link, and what went over it, as texts.
ghost use Rattle.std.specs.Prelude.{◌<◌};

use crate::names::named;
use el_base::Bytes;
use el_fakes::{Closed, Coming, Sent};
use el_outside::Peer;
use std::alloc::{AllocError, Global};
use std::str;
use std::test::Fail;

/// A step of what comes over a link. Its text may have names.
#[derive(Clone, Copy)]
pub enum Step<'a> {
    /// A new peer.
    Opens(Peer),
    /// Bytes of a peer.
    Says(Peer, &'a str),
    /// A peer that leaves.
    Leaves(Peer),
    /// Nothing.
    Waits,
}

/// Adds bytes of a peer, in pieces of that length.
pub fn say(
    alloc: Global,
    steps: &mut Vec<Coming>,
    peer: Peer,
    bytes: &[u8],
    piece: usize,
) -> Result<(), AllocError>
    requires { 0 < piece }
{
    for part in bytes.chunks(piece) {
        let part = Bytes::from_vec(Vec::from_slice(alloc, part)?);
        steps.push(Coming::Bytes(peer, part))?;
    }
    Ok(())
}

// Adds a step, with what its names stand for, and bytes in pieces of that length.
fn add(alloc: Global, all: &mut Vec<Coming>, step: Step<'_>, piece: usize) -> Result<(), AllocError>
    requires { 0 < piece }
{
    match step {
        Step::Opens(p) => all.push(Coming::Opened(p))?,
        Step::Says(p, text) => say(alloc, all, p, named(alloc, text)?.as_bytes(), piece)?,
        Step::Leaves(p) => all.push(Coming::Closed(p))?,
        Step::Waits => all.push(Coming::Quiet)?,
    }
    Ok(())
}

/// The steps, with what their names stand for, and all bytes in pieces of that length.
pub fn coming(alloc: Global, steps: &[Step<'_>], piece: usize) -> Result<Vec<Coming>, AllocError>
    requires { 0 < piece }
{
    let mut all = Vec::new(alloc);
    for step in steps {
        add(alloc, &mut all, *step, piece)?;
    }
    Ok(all)
}

/// The messages, one after the other, each after its peer's number and a blank; and who was closed, and why.
pub fn transcript(alloc: Global, sent: &[Sent], closed: &[Closed]) -> Result<String, Fail> {
    let mut all = String::new(alloc);
    for message in sent {
        let text = str::from_utf8(message.text.as_slice())?;
        all.push_str(format!(in alloc; "{} {text}", message.peer)?.as_str())?;
    }
    for closing in closed {
        let Closed { peer, why } = closing;
        all.push_str(format!(in alloc; "closed {peer} {why:?}\n")?.as_str())?;
    }
    Ok(all)
}
