// A folder as a relay.
ghost use Rattle.std.specs.Prelude.{◌≡◌, ◌+◌, [], IfOk, OnOk};
ghost use Rattle.el_outside.specs.Counts.{RoseBy, HasCause};
ghost use Rattle.el_tx.specs.declared.types.Tx as shape;
ghost use Rattle.el_tx.specs.Encoding.{Encodes};
ghost use Rattle.el_tx.specs.Hashing as hashing;
ghost use Rattle.el_relay_folder.specs.Outboxes.{IsWaiting, PutsWhole};

use crate::outbox::Outbox;
use crate::writing::keep_file;
use el_base::{GhostCount, Hash32, OutOfMemory};
use el_outside::{Relay, RelayFailed, Verdict};
use el_tx::{TxFault, decode_tx, txid};
use std::alloc::Global;
use std::io;
use std::io::ErrorKind;
use std::marker::Model;

/// A folder as a relay. It takes each transaction that it can keep there, as one that waits for what sends it
/// to the node, and refuses none: a folder that isn't there, has 10,000 that wait, is full or can't be
/// written is a failure.
#[derive(Drop)]
pub struct DirRelay<F: Outbox> {
    outbox: F,
    alloc: Global,
    made: GhostCount,
    faults: u64,
    // Why the last call that failed did. No clause speaks of it.
    failure: Option<io::Error>,
}

impl<F: Outbox> Model for DirRelay<F> {
    ghost use Rattle.el_relay_folder.specs.Outboxes.{RelayOf};

    ghost Value = { RelayOf F };

    ghost view = { λ relay. record {
      outbox = relay.outbox;
      made = relay.made;
      faults = relay.faults;
    } };
}

// What it means for the folder that no transaction was read.
fn why_unread(fault: TxFault) -> io::Error {
    match fault {
        TxFault::Memory => io::Error::from(ErrorKind::OutOfMemory),
        _ => io::Error::from(ErrorKind::InvalidInput),
    }
}

// The txid of the transaction that all the bytes encode.
fn whole_txid(alloc: Global, bytes: &[u8]) -> io::Result<Hash32>
    ensures { IfOk result (λ id. (t : shape.Tx) × Encodes bytes.now t × (id ≡ hashing.txid t)) }
{
    let (tx, size) = match decode_tx(alloc, bytes) {
        Ok(read) => read,
        Err(fault) => return Err(why_unread(fault)),
    };
    if size != bytes.len() {
        return Err(io::Error::from(ErrorKind::InvalidInput));
    }
    match txid(alloc, &tx) {
        Ok(id) => Ok(id),
        Err(OutOfMemory) => Err(io::Error::from(ErrorKind::OutOfMemory)),
    }
}

// Keeps the transaction that the bytes encode in the folder.
fn keep<F: Outbox>(outbox: &mut F, alloc: Global, bytes: &[u8]) -> io::Result<()>
    ensures waiting { F.tells → OnOk result (IsWaiting bytes.now (F.files outbox.new)) }
    ensures whole { F.tells → PutsWhole bytes.now (F.files outbox.old) (F.files outbox.new) }
{
    let id = whole_txid(alloc, bytes)?;
    let text = hex::encode(alloc, bytes)?;
    keep_file(outbox, &id, text.as_bytes())
}

impl<F: Outbox + Drop> DirRelay<F> {
    /// The folder as a relay, of which no call was made yet. Takes no memory.
    pub fn over(alloc: Global, outbox: F) -> DirRelay<F>
        ensures { result ≡ record { outbox = outbox; made = 0; faults = 0 } }
    {
        DirRelay {
            outbox,
            alloc,
            made: GhostCount::new(),
            faults: 0,
            failure: None,
        }
    }

    /// The folder.
    pub fn outbox(&self) -> &F
        ensures { result.now ≡ self.now.outbox }
    {
        &self.outbox
    }

    /// Why the last call that failed did.
    pub fn failure(&self) -> Option<io::Error> {
        self.failure
    }

    // A failure, which is counted and kept.
    fn fault(&mut self, error: io::Error) -> RelayFailed
        ensures counted { RoseBy self.old.faults self.new.faults 1 }
        ensures outbox { self.new.outbox ≡ self.old.outbox }
        ensures made { self.new.made ≡ self.old.made }
    {
        self.failure = Some(error);
        self.faults = self.faults.saturating_add(1);
        RelayFailed
    }
}

impl<F: Outbox + Drop> Relay for DirRelay<F> {
    ghost tells = { ⊥ };

    ghost offers = { λ relay. [] };

    ghost calls = { λ relay. relay.made };

    ghost faults = { λ relay. relay.faults };

    fn offer(&mut self, bytes: &[u8]) -> Result<Verdict, RelayFailed>
        ensures called { self.new.made ≡ self.old.made + 1 }
        ensures cause { HasCause self.old.faults self.new.faults result }
        // None is refused.
        ensures taken { IfOk result (λ verdict. verdict ≡ Verdict.Taken) }
        // What is taken waits in the folder, and is on the disk.
        ensures waiting { F.tells → OnOk result (IsWaiting bytes.now (F.files self.new.outbox)) }
        // At no moment of the call, and after no crash then, another file is found than before, but the whole
        // one of the transaction.
        ensures whole { F.tells
            → PutsWhole bytes.now (F.files self.old.outbox) (F.files self.new.outbox) }
    {
        self.made.tick();
        match keep(&mut self.outbox, self.alloc, bytes) {
            Ok(()) => Ok(Verdict::Taken),
            Err(error) => Err(self.fault(error)),
        }
    }
}
