// From the words of the command line to the end of the program.
ghost use Rattle.std.specs.Prelude.{◌≡◌, ◌⊎◌, ◌-◌, ◌^◌, List, drop, IfOk, MatchResult};
ghost use Rattle.std.specs.Process.{exit_status};
ghost use Rattle.el_words.specs.Options.{Word};
ghost use Rattle.el_words.specs.Words.{texts};
ghost use Rattle.el_words.specs.Commands.{IsNoCommand};
ghost use Rattle.el_program.specs.within.Devices.{folder_of, relay_of, folder_of_index, ports_of, IsServeCommand, IsStreamsCommand, IsAuditCommand, IsCheckCommand};
ghost use Rattle.el_program.specs.Calls.{Call};
ghost use Rattle.el_program.specs.AnyCall.{IsCall};
ghost use Rattle.el_program.specs.Lives.{IsFresh};
ghost use Rattle.el_program.specs.Program.{IsServing, IsChecking};
ghost use Rattle.el_program.specs.Statuses.{exit_code};

use crate::failures::{Failing, tell_cause, tell_commands};
use crate::serving::serve;
use crate::status::Status;
use crate::telling::{Progress, Untold};
use el_base::OutOfMemory;
use el_mem_disk::{FailingCalls, MemDisk, Residue};
use el_net::{
    BlockFiles, BlockFolder, IndexFolder, NoDisk, NoFiles, NoLink, NoRelay, StandardLink, TcpLink,
    index_files,
};
use el_open_files::FileDisk;
use el_outside::{Disk, Link, NoPace};
use el_relay_folder::{DirRelay, RelayFolder};
use el_sockets::Ports;
use el_words::{Command, ServeWords, read_words};
use std::alloc::Global;
use std::process::ExitCode;
use std::thread::Threads;
use std::{env, io};

// At most this many calls of `next` are made: more than a program makes in its life.
const TURNS: u64 = u64::MAX;

// The words after the first, which is the program's name.
fn after_name(words: Vec<String>) -> Vec<String>
    ensures { result.items ≡ drop 1 words.items }
{
    let mut words = words;
    if !words.is_empty() {
        let _name = words.remove(0);
    }
    words
}

// The words after the program's name. None where one is no text, since no command has such a word.
fn words_of(rt: &HostRuntime) -> Result<Vec<String>, OutOfMemory> {
    match env::args(rt) {
        Ok(words) => Ok(after_name(words.collect(rt.alloc())?)),
        Err(e) if e.kind() == io::ErrorKind::OutOfMemory => Err(OutOfMemory),
        Err(_) => Ok(Vec::new(rt.alloc())),
    }
}

// The block files that the command asks for: those of its folder. `check-chain` and `prove-check` ask for
// none.
fn files_of(
    rt: HostRuntime,
    alloc: Global,
    command: &Command,
) -> Result<BlockFiles<BlockFolder<HostRuntime>>, OutOfMemory>
    ensures { IfOk result (λ files. (files.folder ≡ folder_of command.now) × (files.faults ≡ 0)) }
{
    let folder = match command {
        Command::Serve(said) => said.blocks.as_str(),
        Command::Once { blocks, .. } | Command::Audit { blocks, .. } => blocks.as_str(),
        Command::CheckChain { .. } | Command::ProveCheck(_) => "",
    };
    BlockFiles::new(rt, alloc, folder)
}

// The relay that the command asks for: its folder. Where it asks for none, no call of it is made.
fn relay_of(
    rt: HostRuntime,
    alloc: Global,
    command: &Command,
) -> Result<DirRelay<RelayFolder<HostRuntime>>, OutOfMemory>
    ensures { IfOk result (λ relay. (relay.outbox ≡ relay_of command.now) × (relay.faults ≡ 0)) }
{
    let folder = match command {
        Command::Serve(
            ServeWords {
                relay: Some(folder),
                ..
            },
        ) => folder.as_str(),
        _ => "",
    };
    Ok(DirRelay::over(alloc, RelayFolder::new(rt, alloc, folder)?))
}

// The index that the command asks for: the files of its folder. Only `serve` and `audit` ask for one.
fn disk_of(
    rt: HostRuntime,
    alloc: Global,
    command: &Command,
) -> Result<FileDisk<IndexFolder<HostRuntime>>, OutOfMemory>
    ensures { IfOk result (λ disk. (disk.files ≡ folder_of_index command.now) × (disk.faults ≡ 0)) }
{
    let folder = match command {
        Command::Serve(said) => said.index.as_str(),
        Command::Audit { index, .. } => index.as_str(),
        Command::Once { .. } | Command::CheckChain { .. } | Command::ProveCheck(_) => "",
    };
    index_files(rt, alloc, folder)
}

// Serves the words over a disk, the block files of their command and a link: a call of `serve` with them ends
// so.
fn serve_over<W: Threads + Sync, D: Disk + Failing + Drop, K: Link + Failing>(
    rt: &HostRuntime,
    threads: &W,
    words: &[String],
    command: &Command,
    disk: D,
    link: &mut K,
) -> Result<Status, OutOfMemory>
    ensures ends { IfOk result (λ status. (c : Call _ _ _ _)
        × IsCall ⟦<D as Disk>⟧ ⟦<BlockFiles<BlockFolder<HostRuntime>> as el_outside::Archive>⟧
        ⟦<DirRelay<RelayFolder<HostRuntime>> as el_outside::Relay>⟧ ⟦<K as Link>⟧ c
        × (c.words ≡ texts words.now) × (c.turns ≡ 2 ^ 64 - 1) × (c.before.disk ≡ disk)
        × (c.before.files.folder ≡ folder_of command.now)
        × (c.before.link ≡ link.old) × (c.after.link ≡ link.new)
        × (c.before.relay.outbox ≡ relay_of command.now) × (c.status ≡ status)) }
    ensures refused { IsNoCommand (texts words.now) → IfOk result (λ status. status ≡ Status.Usage) }
    ensures lawful { IfOk result (λ status. status ≡ Status.Usage → IsNoCommand (texts words.now)) }
{
    let mut archive = files_of(rt.clone()?, rt.alloc(), command)?;
    let mut relay = relay_of(rt.clone()?, rt.alloc(), command)?;
    let mut progress = Progress::new(rt.clone()?);
    let (status, disk) = serve(
        threads,
        rt.alloc(),
        words,
        disk,
        &mut archive,
        &mut relay,
        link,
        &NoPace,
        &mut progress,
        TURNS,
    );
    relay.tell_failure(rt);
    tell_cause(rt, status, &disk, &archive, &*link);
    Ok(status)
}

// What is told once the ports are open: the network, the folders and the ports. Nothing but for `serve`.
fn start_line(alloc: Global, command: &Command) -> Result<String, OutOfMemory> {
    match command {
        Command::Serve(said) => {
            let network = said.settings.network.name();
            let blocks = said.blocks.as_str();
            let index = said.index.as_str();
            let client_port = said.settings.client_port;
            let node_port = said.settings.node_port;
            Ok(format!(in alloc;
                "electrum_serve: serving {network}, blocks {blocks}, index {index}, \
                 clients on port {client_port}, node on port {node_port}\n"
            )?)
        }
        Command::Once { .. }
        | Command::CheckChain { .. }
        | Command::Audit { .. }
        | Command::ProveCheck(_) => Ok(String::new(alloc)),
    }
}

// A disk in memory whose files are empty, no call of which is made to fail.
fn fresh_disk(alloc: Global) -> MemDisk
    ensures { IsFresh ⟦<MemDisk as Disk>⟧ result }
{
    MemDisk::new(
        alloc,
        FailingCalls {
            listed: Vec::new(alloc),
            from: None,
            residue: Residue::Nothing,
        },
    )
}

// Serves the words over a disk in memory whose files are empty, no block files, and the standard streams.
fn serve_fresh<W: Threads + Sync>(
    rt: &HostRuntime,
    threads: &W,
    words: &[String],
) -> Result<Status, OutOfMemory>
    ensures ends { IfOk result (λ status. (c : Call _ _ _ _)
        × IsCall ⟦<MemDisk as Disk>⟧ ⟦<NoFiles as el_outside::Archive>⟧ ⟦<NoRelay as el_outside::Relay>⟧
        ⟦<StandardLink<HostRuntime> as Link>⟧ c
        × (c.words ≡ texts words.now) × (c.turns ≡ 2 ^ 64 - 1) × IsFresh ⟦<MemDisk as Disk>⟧ c.before.disk
        × (c.status ≡ status)) }
    ensures refused { IsNoCommand (texts words.now) → IfOk result (λ status. status ≡ Status.Usage) }
    ensures lawful { IfOk result (λ status. status ≡ Status.Usage → IsNoCommand (texts words.now)) }
{
    let mut link = StandardLink::new(rt.clone()?);
    let (status, _) = serve(
        threads,
        rt.alloc(),
        words,
        fresh_disk(rt.alloc()),
        &mut NoFiles::new(),
        &mut NoRelay::new(),
        &mut link,
        &NoPace,
        &mut Untold,
        TURNS,
    );
    Ok(status)
}

// Serves the command of these words over its devices: for `serve` the files of its index and two ports, for
// `audit` those files and the standard streams, for `once` and `prove-check` the standard streams, for
// `check-chain` a disk in memory and the standard streams.
fn serve_command<W: Threads + Sync>(
    rt: &HostRuntime,
    threads: &W,
    words: &[String],
    command: &Command,
) -> Result<Status, OutOfMemory>
    ensures serve { IsServeCommand command.now → IfOk result (λ status. (c : Call _ _ _ _)
        × IsCall ⟦<FileDisk<IndexFolder<HostRuntime>> as Disk>⟧
        ⟦<BlockFiles<BlockFolder<HostRuntime>> as el_outside::Archive>⟧
        ⟦<DirRelay<RelayFolder<HostRuntime>> as el_outside::Relay>⟧ ⟦<TcpLink<HostRuntime> as Link>⟧ c
        × (c.words ≡ texts words.now) × (c.turns ≡ 2 ^ 64 - 1)
        × (c.before.disk.files ≡ folder_of_index command.now)
        × (c.before.files.folder ≡ folder_of command.now) × (c.before.link.asked ≡ ports_of command.now)
        × (c.before.relay.outbox ≡ relay_of command.now) × (c.status ≡ status)) }
    ensures streams { IsStreamsCommand command.now → IfOk result (λ status. (c : Call _ _ _ _)
        × IsCall ⟦<NoDisk as Disk>⟧ ⟦<BlockFiles<BlockFolder<HostRuntime>> as el_outside::Archive>⟧
        ⟦<DirRelay<RelayFolder<HostRuntime>> as el_outside::Relay>⟧
        ⟦<StandardLink<HostRuntime> as Link>⟧ c
        × (c.words ≡ texts words.now) × (c.turns ≡ 2 ^ 64 - 1)
        × (c.before.files.folder ≡ folder_of command.now) × (c.status ≡ status)) }
    ensures audit { IsAuditCommand command.now → IfOk result (λ status. (c : Call _ _ _ _)
        × IsCall ⟦<FileDisk<IndexFolder<HostRuntime>> as Disk>⟧
        ⟦<BlockFiles<BlockFolder<HostRuntime>> as el_outside::Archive>⟧
        ⟦<DirRelay<RelayFolder<HostRuntime>> as el_outside::Relay>⟧
        ⟦<StandardLink<HostRuntime> as Link>⟧ c
        × (c.words ≡ texts words.now) × (c.turns ≡ 2 ^ 64 - 1)
        × (c.before.disk.files ≡ folder_of_index command.now)
        × (c.before.files.folder ≡ folder_of command.now) × (c.status ≡ status)) }
    ensures check { IsCheckCommand command.now → IfOk result (λ status. (c : Call _ _ _ _)
        × IsCall ⟦<MemDisk as Disk>⟧ ⟦<NoFiles as el_outside::Archive>⟧ ⟦<NoRelay as el_outside::Relay>⟧
        ⟦<StandardLink<HostRuntime> as Link>⟧ c
        × (c.words ≡ texts words.now) × (c.turns ≡ 2 ^ 64 - 1) × IsFresh ⟦<MemDisk as Disk>⟧ c.before.disk
        × (c.status ≡ status)) }
    ensures refused { IsNoCommand (texts words.now) → IfOk result (λ status. status ≡ Status.Usage) }
    ensures lawful { IfOk result (λ status. status ≡ Status.Usage → IsNoCommand (texts words.now)) }
{
    match command {
        Command::Serve(said) => {
            let disk = disk_of(rt.clone()?, rt.alloc(), command)?;
            let ports = Ports {
                clients: said.settings.client_port,
                node: said.settings.node_port,
            };
            let line = start_line(rt.alloc(), command)?;
            let mut link = TcpLink::new(rt.clone()?, rt.alloc(), ports, line)?;
            serve_over(rt, threads, words, command, disk, &mut link)
        }
        Command::Audit { .. } => {
            let disk = disk_of(rt.clone()?, rt.alloc(), command)?;
            let mut link = StandardLink::new(rt.clone()?);
            serve_over(rt, threads, words, command, disk, &mut link)
        }
        Command::Once { .. } | Command::ProveCheck(_) => {
            let mut link = StandardLink::new(rt.clone()?);
            serve_over(rt, threads, words, command, NoDisk::new(), &mut link)
        }
        Command::CheckChain { .. } => serve_fresh(rt, threads, words),
    }
}

// Serves words that are no command over devices that have nothing.
fn serve_nobody<W: Threads + Sync>(rt: &HostRuntime, threads: &W, words: &[String]) -> Status
    requires { IsNoCommand (texts words.now) }
    ensures { result ≡ Status.Usage }
{
    let (status, _) = serve(
        threads,
        rt.alloc(),
        words,
        NoDisk::new(),
        &mut NoFiles::new(),
        &mut NoRelay::new(),
        &mut NoLink { calls: 0 },
        &NoPace,
        &mut Untold,
        TURNS,
    );
    status
}

// Serves the words over the devices that they ask for.
fn serve_words<W: Threads + Sync>(
    rt: &HostRuntime,
    threads: &W,
    words: &[String],
) -> Result<Status, OutOfMemory>
    ensures serving { IfOk result (λ status.
        IsServing ⟦<FileDisk<IndexFolder<HostRuntime>> as Disk>⟧ ⟦<NoDisk as Disk>⟧
        ⟦<BlockFiles<BlockFolder<HostRuntime>> as el_outside::Archive>⟧
        ⟦<DirRelay<RelayFolder<HostRuntime>> as el_outside::Relay>⟧ ⟦<TcpLink<HostRuntime> as Link>⟧
        ⟦<StandardLink<HostRuntime> as Link>⟧ (texts words.now) status
        ⊎ IsChecking ⟦<MemDisk as Disk>⟧ ⟦<NoFiles as el_outside::Archive>⟧ ⟦<NoRelay as el_outside::Relay>⟧
        ⟦<StandardLink<HostRuntime> as Link>⟧ (texts words.now) status) }
    ensures refused { IsNoCommand (texts words.now) → IfOk result (λ status. status ≡ Status.Usage) }
    ensures lawful { IfOk result (λ status. status ≡ Status.Usage → IsNoCommand (texts words.now)) }
{
    match read_words(rt.alloc(), words)? {
        Some(command) => serve_command(rt, threads, words, &command),
        None => {
            tell_commands(rt);
            Ok(serve_nobody(rt, threads, words))
        }
    }
}

// Serves the words that the program was started with, with no end of turns.
fn serve_started<W: Threads + Sync>(rt: &HostRuntime, threads: &W) -> Result<Status, OutOfMemory>
    ensures { IfOk result (λ status. (words : List Word)
        × (IsServing ⟦<FileDisk<IndexFolder<HostRuntime>> as Disk>⟧ ⟦<NoDisk as Disk>⟧
        ⟦<BlockFiles<BlockFolder<HostRuntime>> as el_outside::Archive>⟧
        ⟦<DirRelay<RelayFolder<HostRuntime>> as el_outside::Relay>⟧ ⟦<TcpLink<HostRuntime> as Link>⟧
        ⟦<StandardLink<HostRuntime> as Link>⟧ words status
        ⊎ IsChecking ⟦<MemDisk as Disk>⟧ ⟦<NoFiles as el_outside::Archive>⟧ ⟦<NoRelay as el_outside::Relay>⟧
        ⟦<StandardLink<HostRuntime> as Link>⟧ words status)) }
{
    let words = words_of(rt)?;
    serve_words(rt, threads, words.as_slice())
}

// How the program ends: as its command did, or for want of memory where none was served to its end.
fn end_of(served: Result<Status, OutOfMemory>) -> Status
    ensures { MatchResult served (λ ended. result ≡ ended) (λ _. result ≡ Status.OutOfMemory) }
{
    served.unwrap_or(Status::OutOfMemory)
}

/// Serves the words that the program was started with, with no end of turns, and answers how that ended. What
/// the words are is the system's to say; a word that is no text counts as no command. `threads` is the
/// runtime once more, as what starts threads: only `main` can lend it as that.
pub fn serve_all<W: Threads + Sync>(rt: &HostRuntime, threads: &W) -> Status
    ensures { (result ≡ Status.OutOfMemory) ⊎ ((words : List Word)
        × (IsServing ⟦<FileDisk<IndexFolder<HostRuntime>> as Disk>⟧ ⟦<NoDisk as Disk>⟧
        ⟦<BlockFiles<BlockFolder<HostRuntime>> as el_outside::Archive>⟧
        ⟦<DirRelay<RelayFolder<HostRuntime>> as el_outside::Relay>⟧ ⟦<TcpLink<HostRuntime> as Link>⟧
        ⟦<StandardLink<HostRuntime> as Link>⟧ words result
        ⊎ IsChecking ⟦<MemDisk as Disk>⟧ ⟦<NoFiles as el_outside::Archive>⟧ ⟦<NoRelay as el_outside::Relay>⟧
        ⟦<StandardLink<HostRuntime> as Link>⟧ words result)) }
{
    end_of(serve_started(rt, threads))
}

/// Tells on standard error how the program ended, and gives its exit status.
pub fn tell_end(rt: &HostRuntime, status: Status) -> ExitCode
    ensures { exit_status result ≡ exit_code status }
{
    let _ = eprint!(rt; "{}", status.line());
    ExitCode::from(status.code())
}
