// The words of the command line.
ghost use Rattle.std.specs.Prelude.{◌≡◌, ◌≢◌, ◌<◌, ◌^◌, ℕ, List, [], ◌∷◌, codes, is_some, true, map, Some, IfSome, IfNone, IfOk, IsSomeAnd, MatchOption};
ghost use Rattle.clap.specs.Matches.{first_value, found_of};
ghost use Rattle.el_words.specs.Options.{Word, Given, words_of, value_of};
ghost use Rattle.el_words.specs.Words.{IsOnceOf, IsServeOf, IsCheckOf, IsAuditOf, IsNumberUpTo, IsPort, IsLimit, IsHeadBits, ArePorts, AreLimits, greatest_limits, network_name, network_magic, once_options, serve_options, texts};
ghost use Rattle.el_words.specs.Commands.{IsCommand, IsNoCommand};
ghost use Rattle.el_words.specs.within.Reading.{GiveOptions};
ghost use Rattle.el_words.specs.declared.words.Network as shape;
ghost use Rattle.el_words.specs.declared.words.ServeWords as serve_shape;
ghost use Rattle.el_mempool.specs.declared.entry.PoolLimits as limits_shape;

use crate::options::{are_options, first_of, value_in};
use crate::proof_words::proof_of;
use crate::reading::read_options;
use clap::ArgMatches;
use el_base::{Hash32, Listed, OutOfMemory, Text};
use el_lines::number_of;
use el_mempool::PoolLimits;
use std::alloc::Global;

// The options of `once`, those of `audit`, and those of `serve`.
const ONCE_OPTIONS: [&str; 2] = ["--blocks", "--network"];

const AUDIT_OPTIONS: [&str; 3] = ["--blocks", "--index", "--network"];

const SERVE_OPTIONS: [&str; 9] = [
    "--blocks",
    "--index",
    "--network",
    "--client-port",
    "--node-port",
    "--pool-count",
    "--pool-bytes",
    "--head-bits",
    "--relay",
];

// The greatest limits of the unconfirmed set, which stand where no others are given.
const MAX_POOL_COUNT: u64 = 1_000_000;

const MAX_POOL_BYTES: u64 = 300_000_000;

// How many bits the number of a bucket has at least and at most, in an index that is made.
const LEAST_HEAD_BITS: u64 = 16;

const MOST_HEAD_BITS: u64 = 24;

// How many blocks the first branch of a made file may have at most.
const MOST_MADE: u64 = 20_000;

/// A Bitcoin network.
#[derive(Clone, Copy, Debug, PartialEq, Eq)]
pub enum Network {
    /// The network of the money.
    Main,
    /// The third test network.
    Testnet3,
    /// A network of one's own, for tests.
    Regtest,
}

impl Network {
    /// The network with that name.
    pub fn named(name: &str) -> Option<Network>
        ensures found { IfSome result (λ network. name.now ≡ network_name network) }
        ensures none { IfNone result ((network : shape.Network) → name.now ≡ network_name network → ⊥) }
    {
        if name == "main" {
            Some(Network::Main)
        } else if name == "testnet3" {
            Some(Network::Testnet3)
        } else if name == "regtest" {
            Some(Network::Regtest)
        } else {
            None
        }
    }

    /// The network's name.
    pub fn name(self) -> &'static str
        ensures { result.now ≡ network_name self }
    {
        match self {
            Network::Main => "main",
            Network::Testnet3 => "testnet3",
            Network::Regtest => "regtest",
        }
    }

    /// The four bytes that begin the network's records in block files (Bitcoin's message start).
    pub fn magic(self) -> [u8; 4]
        ensures { result ≡ network_magic self }
    {
        match self {
            Network::Main => [0xf9, 0xbe, 0xb4, 0xd9],
            Network::Testnet3 => [0x0b, 0x11, 0x09, 0x07],
            Network::Regtest => [0xfa, 0xbf, 0xb5, 0xda],
        }
    }
}

/// The greatest limits of the unconfirmed set, which stand where no others are given.
pub fn greatest_limits() -> PoolLimits
    ensures { result ≡ greatest_limits }
{
    PoolLimits {
        count: MAX_POOL_COUNT,
        bytes: MAX_POOL_BYTES,
    }
}

/// What the words of `serve` say, but for the folders that they name.
#[derive(Clone, Copy, Debug)]
pub struct ServeSettings {
    /// The network whose blocks are served.
    pub network: Network,
    /// The port on which clients are served, from 1 to 65,535.
    pub client_port: u16,
    /// The port on which the node is served, from 1 to 65,535; another one.
    pub node_port: u16,
    /// What the unconfirmed set may hold: 1 to 1,000,000 transactions, 1 to 300,000,000 bytes.
    pub limits: PoolLimits,
    /// How many bits the number of a bucket has where the index is made, from 16 to 24.
    pub head_bits: u32,
    /// Whether transactions are relayed.
    pub relays: bool,
}

/// What the words of `serve` say.
#[derive(Debug, Drop)]
pub struct ServeWords {
    /// The folder of the block files.
    pub blocks: Text,
    /// The folder of the index.
    pub index: Text,
    /// The folder where transactions wait for the node, if they are relayed.
    pub relay: Option<Text>,
    /// All but the folders.
    pub settings: ServeSettings,
}

/// What the words of `prove-check` say.
#[derive(Debug, Drop)]
pub struct ProofWords {
    /// The bytes of the header of a block.
    pub header: [u8; 80],
    /// The txid of a transaction, in inner order.
    pub txid: Hash32,
    /// Its place in the block, counted from 0, below 10,000,000,000.
    pub pos: u64,
    /// Its branch, deepest pairing first: at most 32 hashes, in inner order.
    pub branch: Listed<Hash32>,
}

/// What the words ask for.
#[derive(Debug, Drop)]
pub enum Command {
    /// Serves a node and clients from the block files of a folder.
    Serve(ServeWords),
    /// Answers one client on standard input from file 0 of a folder of block files.
    Once {
        /// The folder of the block files.
        blocks: Text,
        /// The network whose blocks they are.
        network: Network,
    },
    /// Leads an index over blocks that are made for it, and sums it up in one line.
    CheckChain {
        /// How many blocks the first of the two made branches has, from 1 to 20,000.
        count: u32,
    },
    /// Audits an index against the block files of a folder.
    Audit {
        /// The folder of the block files.
        blocks: Text,
        /// The folder of the index.
        index: Text,
        /// The network whose blocks they are.
        network: Network,
    },
    /// Checks whether a branch proves a transaction.
    ProveCheck(ProofWords),
}

// The words after the name of this command, where they give options, each of which is one of these.
fn options_after<'a>(words: &'a [String], command: &str, options: &[&str]) -> Option<&'a [String]>
    ensures { MatchOption result
        ((more : List Word) → texts words.now ≡ command.now ∷ more
        → GiveOptions (map (λ option. option.now) options.now) more → ⊥)
        (λ more. (texts words.now ≡ command.now ∷ texts more.now)
        × GiveOptions (map (λ option. option.now) options.now) (texts more.now)) }
{
    let (first, rest) = first_of(words)?;
    if first == command && are_options(rest, options) {
        Some(rest)
    } else {
        None
    }
}

// The network that the option `--network` names.
fn network_in(words: &[String]) -> Option<Network>
    ensures { (given : Given) → texts words.now ≡ words_of given → MatchOption result
        ((network : shape.Network) → value_of (codes "--network") given ≡ Some (network_name network) → ⊥)
        (λ network. value_of (codes "--network") given ≡ Some (network_name network)) }
{
    Network::named(value_in(words, "--network")?)
}

// The number from 1 up to `most` that the text shows.
fn number_up_to(text: &str, most: u64) -> Option<u64>
    requires { most < 2 ^ 32 }
    ensures { MatchOption result
        ((n : ℕ) → IsNumberUpTo most text.now n → ⊥)
        (λ n. IsNumberUpTo most text.now n) }
{
    let number = number_of(text.as_bytes(), 10, most + 1)?;
    if number == 0 {
        return None;
    }
    Some(number)
}

// The port that this option gives.
fn port_in(words: &[String], option: &str) -> Option<u16>
    ensures { (given : Given) → texts words.now ≡ words_of given → MatchOption result
        ((port : ℕ) → IsSomeAnd (value_of option.now given) (λ text. IsPort text port) → ⊥)
        (λ port. IsSomeAnd (value_of option.now given) (λ text. IsPort text port)) }
{
    let port = number_up_to(value_in(words, option)?, 65_535)?;
    Some(port as u16)
}

// The two ports, which differ.
fn ports_in(words: &[String]) -> Option<(u16, u16)>
    ensures { (given : Given) → texts words.now ≡ words_of given → MatchOption result
        ((client_port node_port : ℕ) → ArePorts given client_port node_port → ⊥)
        (λ ports. ArePorts given ports.0 ports.1) }
{
    let client_port = port_in(words, "--client-port")?;
    let node_port = port_in(words, "--node-port")?;
    if client_port == node_port {
        None
    } else {
        Some((client_port, node_port))
    }
}

// The limit that this option gives, or else the greatest.
fn limit_in(words: &[String], option: &str, most: u64) -> Option<u64>
    requires { most < 2 ^ 32 }
    ensures { (given : Given) → texts words.now ≡ words_of given → MatchOption result
        ((limit : ℕ) → IsLimit most (value_of option.now given) limit → ⊥)
        (λ limit. IsLimit most (value_of option.now given) limit) }
{
    match value_in(words, option) {
        Some(text) => number_up_to(text, most),
        None => Some(most),
    }
}

// The limits of the unconfirmed set.
fn limits_in(words: &[String]) -> Option<PoolLimits>
    ensures { (given : Given) → texts words.now ≡ words_of given → MatchOption result
        ((limits : limits_shape.PoolLimits) → AreLimits given limits → ⊥)
        (λ limits. AreLimits given limits) }
{
    let count = limit_in(words, "--pool-count", MAX_POOL_COUNT)?;
    let bytes = limit_in(words, "--pool-bytes", MAX_POOL_BYTES)?;
    Some(PoolLimits { count, bytes })
}

// How many bits the number of a bucket has, by its option, or else as few as may be.
fn head_bits_in(words: &[String]) -> Option<u32>
    ensures { (given : Given) → texts words.now ≡ words_of given → MatchOption result
        ((bits : ℕ) → IsHeadBits (value_of (codes "--head-bits") given) bits → ⊥)
        (λ bits. IsHeadBits (value_of (codes "--head-bits") given) bits) }
{
    let Some(text) = value_in(words, "--head-bits") else {
        return Some(LEAST_HEAD_BITS as u32);
    };
    let bits = number_up_to(text, MOST_HEAD_BITS)?;
    if bits < LEAST_HEAD_BITS {
        None
    } else {
        Some(bits as u32)
    }
}

/// What the words `serve --blocks DIR --index DIR --network NET --client-port N --node-port N` say, with
/// `--pool-count N`, `--pool-bytes N`, `--head-bits N` and `--relay DIR` or without, the options in any
/// order, but for the folders; None exactly for other words. Takes no memory.
pub fn serve_of(words: &[String]) -> Option<ServeSettings>
    ensures found { IfSome result (λ settings. (said : serve_shape.ServeWords)
        × IsServeOf (texts words.now) said × (said.settings ≡ settings)) }
    ensures none { IfNone result ((said : serve_shape.ServeWords) → IsServeOf (texts words.now) said → ⊥) }
{
    let options = options_after(words, "serve", &SERVE_OPTIONS)?;
    let _blocks = value_in(options, "--blocks")?;
    let _index = value_in(options, "--index")?;
    let network = network_in(options)?;
    let (client_port, node_port) = ports_in(options)?;
    let limits = limits_in(options)?;
    let head_bits = head_bits_in(options)?;
    let relays = value_in(options, "--relay").is_some();
    Some(ServeSettings {
        network,
        client_port,
        node_port,
        limits,
        head_bits,
        relays,
    })
}

/// The network of the words `once --blocks DIR --network NET`, the options in any order; None exactly for
/// other words. Takes no memory.
pub fn once_of(words: &[String]) -> Option<Network>
    ensures found { IfSome result (λ network. (blocks : Word) × IsOnceOf (texts words.now) blocks network) }
    ensures none { IfNone result ((blocks : Word) (network : shape.Network)
        → IsOnceOf (texts words.now) blocks network → ⊥) }
{
    let options = options_after(words, "once", &ONCE_OPTIONS)?;
    let _blocks = value_in(options, "--blocks")?;
    network_in(options)
}

/// The number of the words `check-chain N`; None exactly for other words. Takes no memory.
pub fn check_of(words: &[String]) -> Option<u32>
    ensures found { IfSome result (IsCheckOf (texts words.now)) }
    ensures none { IfNone result ((count : ℕ) → IsCheckOf (texts words.now) count → ⊥) }
{
    let [command, number] = words else {
        return None;
    };
    if command.as_str() != "check-chain" {
        return None;
    }
    let count = number_up_to(number.as_str(), MOST_MADE)?;
    Some(count as u32)
}

/// The network of the words `audit --blocks DIR --index DIR --network NET`, the options in any order; None
/// exactly for other words. Takes no memory.
pub fn audit_of(words: &[String]) -> Option<Network>
    ensures found { IfSome result (λ network. (blocks index : Word)
        × IsAuditOf (texts words.now) blocks index network) }
    ensures none { IfNone result ((blocks index : Word) (network : shape.Network)
        → IsAuditOf (texts words.now) blocks index network → ⊥) }
{
    let options = options_after(words, "audit", &AUDIT_OPTIONS)?;
    let _blocks = value_in(options, "--blocks")?;
    let _index = value_in(options, "--index")?;
    network_in(options)
}

// The words after the first.
fn after_first(words: &[String]) -> &[String]
    ensures { (first : Word) (more : List Word) → texts words.now ≡ first ∷ more → texts result.now ≡ more }
{
    match words {
        [] => words,
        [_, rest @ ..] => rest,
    }
}

// The folder that `clap` read for this option.
fn folder_of(alloc: Global, read: &ArgMatches<'_>, id: &str) -> Result<Text, OutOfMemory>
    requires { is_some (first_value (found_of read.now) id.now) ≡ true }
    ensures { IfOk result (λ text. first_value (found_of read.now) id.now ≡ Some text) }
{
    Text::from_str(alloc, read.get_str(id).unwrap())
}

// The folder of the relay that `clap` read, where one is named.
fn relay_of(alloc: Global, read: &ArgMatches<'_>, relays: bool) -> Result<Option<Text>, OutOfMemory>
    requires { is_some (first_value (found_of read.now) (codes "relay")) ≡ relays }
    ensures { IfOk result (λ folder. first_value (found_of read.now) (codes "relay") ≡ folder) }
{
    if relays {
        Ok(Some(folder_of(alloc, read, "relay")?))
    } else {
        Ok(None)
    }
}

// The command of the words of `serve`, with the folders that `clap` reads.
fn serve_command(
    alloc: Global,
    words: &[String],
    settings: ServeSettings,
) -> Result<Command, OutOfMemory>
    requires { (said : serve_shape.ServeWords)
        × IsServeOf (texts words.now) said × (said.settings ≡ settings) }
    ensures { IfOk result (IsCommand (texts words.now)) }
{
    let Ok(read) = read_options(alloc, after_first(words)) else {
        return Err(OutOfMemory);
    };
    Ok(Command::Serve(ServeWords {
        blocks: folder_of(alloc, &read, "blocks")?,
        index: folder_of(alloc, &read, "index")?,
        relay: relay_of(alloc, &read, settings.relays)?,
        settings,
    }))
}

// The command of the words of `once`, with the folder that `clap` reads.
fn once_command(alloc: Global, words: &[String], network: Network) -> Result<Command, OutOfMemory>
    requires { (blocks : Word) × IsOnceOf (texts words.now) blocks network }
    ensures { IfOk result (IsCommand (texts words.now)) }
{
    let Ok(read) = read_options(alloc, after_first(words)) else {
        return Err(OutOfMemory);
    };
    let blocks = folder_of(alloc, &read, "blocks")?;
    Ok(Command::Once { blocks, network })
}

// The command of the words of `audit`, with the folders that `clap` reads.
fn audit_command(alloc: Global, words: &[String], network: Network) -> Result<Command, OutOfMemory>
    requires { (blocks index : Word) × IsAuditOf (texts words.now) blocks index network }
    ensures { IfOk result (IsCommand (texts words.now)) }
{
    let Ok(read) = read_options(alloc, after_first(words)) else {
        return Err(OutOfMemory);
    };
    let blocks = folder_of(alloc, &read, "blocks")?;
    let index = folder_of(alloc, &read, "index")?;
    Ok(Command::Audit {
        blocks,
        index,
        network,
    })
}

// The command of the words that aren't of `serve` or `once`.
fn other_command(alloc: Global, words: &[String]) -> Result<Option<Command>, OutOfMemory>
    requires no_serve { (said : serve_shape.ServeWords) → IsServeOf (texts words.now) said → ⊥ }
    requires no_once { (blocks : Word) (network : shape.Network)
        → IsOnceOf (texts words.now) blocks network → ⊥ }
    ensures found { IfOk result (λ found. IfSome found (IsCommand (texts words.now))) }
    ensures none { IfOk result (λ found. IfNone found (IsNoCommand (texts words.now))) }
{
    if let Some(count) = check_of(words) {
        return Ok(Some(Command::CheckChain { count }));
    }
    if let Some(network) = audit_of(words) {
        let command = audit_command(alloc, words, network)?;
        return Ok(Some(command));
    }
    match proof_of(alloc, words)? {
        Some(said) => Ok(Some(Command::ProveCheck(said))),
        None => Ok(None),
    }
}

/// The command that the words ask for; None exactly for words of no command. The rules that `clap` doesn't
/// know are checked before: that each option is given once, as two words, with a value of its kind.
pub fn read_words(alloc: Global, words: &[String]) -> Result<Option<Command>, OutOfMemory>
    ensures found { IfOk result (λ found. IfSome found (IsCommand (texts words.now))) }
    ensures none { IfOk result (λ found. IfNone found (IsNoCommand (texts words.now))) }
{
    if let Some(settings) = serve_of(words) {
        let command = serve_command(alloc, words, settings)?;
        return Ok(Some(command));
    }
    if let Some(network) = once_of(words) {
        let command = once_command(alloc, words, network)?;
        return Ok(Some(command));
    }
    other_command(alloc, words)
}
