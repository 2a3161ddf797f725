// What went wrong, told on standard error before the line with which the program ends.
use crate::status::Status;
use el_net::{BlockFiles, BlockFolder, BlockPart, IndexFolder, NoDisk, StandardLink, TcpLink};
use el_open_files::FileDisk;
use el_relay_folder::{DirRelay, RelayFolder};
use el_sockets::{Ports, SocketPart};
use std::io;
use std::io::ErrorKind;

/// A device that may know why a call of it failed last.
pub trait Failing {
    /// Tells on standard error on which folder, file, port or stream a call failed last, and what the system
    /// said; nothing where none has failed.
    fn tell_failure(&self, rt: &HostRuntime);
}

impl Failing for NoDisk {
    fn tell_failure(&self, _rt: &HostRuntime) {}
}

impl Failing for FileDisk<IndexFolder<HostRuntime>> {
    fn tell_failure(&self, rt: &HostRuntime) {
        let folder = self.folder();
        let index = folder.folder();
        if let Some(error) = folder.refusal() {
            tell_unlocked(rt, index, error);
        } else if let Some(failure) = self.failure() {
            let file = failure.file;
            let error = failure.error;
            let _ = eprint!(rt; "electrum_serve: index file {index}/{file:02}.idx: {error}\n");
        }
    }
}

// Tells why the folder of the index isn't locked.
fn tell_unlocked(rt: &HostRuntime, index: &str, error: io::Error) {
    if error.kind() == ErrorKind::WouldBlock {
        let _ = eprint!(rt; "electrum_serve: index folder {index}: another program holds it\n");
    } else {
        let _ = eprint!(rt; "electrum_serve: index folder {index}: {error}\n");
    }
}

impl Failing for BlockFiles<BlockFolder<HostRuntime>> {
    fn tell_failure(&self, rt: &HostRuntime) {
        if let Some(failure) = self.failure() {
            tell_unread(rt, self.folder().folder(), failure.part, failure.error);
        }
    }
}

// Tells what of the block files couldn't be read.
fn tell_unread(rt: &HostRuntime, blocks: &str, part: BlockPart, error: io::Error) {
    let _ = match part {
        BlockPart::Folder => eprint!(rt; "electrum_serve: block folder {blocks}: {error}\n"),
        BlockPart::Mask => eprint!(rt; "electrum_serve: mask {blocks}/xor.dat: {error}\n"),
        BlockPart::File(file) => {
            eprint!(rt; "electrum_serve: block file {blocks}/blk{file:05}.dat: {error}\n")
        }
    };
}

impl Failing for TcpLink<HostRuntime> {
    fn tell_failure(&self, rt: &HostRuntime) {
        if let Some(failure) = self.failure() {
            match failure.error {
                Some(error) => tell_unlinked(rt, self.asked(), failure.part, error),
                None => tell_unsent(rt, self.asked()),
            }
        }
    }
}

// Tells what the system said of a port, of the node's connection, or of all sockets.
fn tell_unlinked(rt: &HostRuntime, ports: Ports, part: SocketPart, error: io::Error) {
    let clients = ports.clients;
    let node = ports.node;
    let _ = match part {
        SocketPart::ClientPort => eprint!(rt; "electrum_serve: client port {clients}: {error}\n"),
        SocketPart::NodePort => eprint!(rt; "electrum_serve: node port {node}: {error}\n"),
        SocketPart::Node => eprint!(rt; "electrum_serve: node on port {node}: {error}\n"),
        SocketPart::Watch => {
            eprint!(rt; "electrum_serve: sockets of ports {clients} and {node}: {error}\n")
        }
    };
}

// Tells that the node was given up.
fn tell_unsent(rt: &HostRuntime, ports: Ports) {
    let node = ports.node;
    let _ = eprint!(rt; "electrum_serve: node on port {node}: too many bytes are unsent to it\n");
}

impl Failing for DirRelay<RelayFolder<HostRuntime>> {
    fn tell_failure(&self, rt: &HostRuntime) {
        if let Some(error) = self.failure() {
            let relay = self.outbox().folder();
            let _ = eprint!(rt; "electrum_serve: relay folder {relay}: {error}\n");
        }
    }
}

impl Failing for StandardLink<HostRuntime> {
    fn tell_failure(&self, rt: &HostRuntime) {
        if let Some(error) = self.failure() {
            let _ = eprint!(rt; "electrum_serve: standard input: {error}\n");
        }
    }
}

/// Tells on standard error, where a device's failure ended the program, which one that was.
pub fn tell_cause<D: Failing, A: Failing, K: Failing>(
    rt: &HostRuntime,
    status: Status,
    disk: &D,
    archive: &A,
    link: &K,
) {
    match status {
        Status::ArchiveFailed => archive.tell_failure(rt),
        Status::DiskFailed => disk.tell_failure(rt),
        Status::LinkFailed => link.tell_failure(rt),
        Status::Ended
        | Status::Usage
        | Status::BadIndex
        | Status::OutOfMemory
        | Status::TurnsSpent
        | Status::OtherChain
        | Status::BadChain
        | Status::AuditDiffers
        | Status::AuditTooLarge => {}
    }
}

/// Tells on standard error the words of each command.
pub fn tell_commands(rt: &HostRuntime) {
    let _ = eprint!(rt;
        "electrum_serve once --blocks DIR --network NET\n\
         electrum_serve serve --blocks DIR --index DIR --network NET --client-port N --node-port N \
         [--pool-count N] [--pool-bytes N] [--head-bits N] [--relay DIR]\n\
         electrum_serve check-chain N\n\
         electrum_serve audit --blocks DIR --index DIR --network NET\n\
         electrum_serve prove-check HEADER TXID POS BRANCH\n\
         NET: main, testnet3 or regtest\n"
    );
}
