// The options of a command line, as `clap` reads them.
ghost use Rattle.std.specs.Prelude.{◌≡◌, ◌++◌, false, codes, IfOk, IfErr};
ghost use Rattle.clap.specs.Matches.{first_value, found_of};
ghost use Rattle.clap.specs.Simple.{app_of};
ghost use Rattle.clap.specs.Values.{kind_of};
ghost use Rattle.clap.specs.Walk.{rule_of};
ghost use Rattle.el_words.specs.Options.{Word, Given, value_of, words_of};
ghost use Rattle.el_words.specs.Words.{serve_options, texts};
ghost use Rattle.el_words.specs.within.Reading.{GiveOptions, no_options, option_rule, reader, with_two as and_two};

use clap::error::ErrorKind;
use clap::{Arg, ArgAction, ArgMatches, Command, Error};
use std::alloc::{AllocError, Global};

// An option: `--` and its id, and then one value.
fn option_of<'a>(alloc: Global, id: &'a str) -> Arg<'a>
    ensures rule { rule_of result ≡ option_rule id.entry.now }
    ensures global { result.global ≡ false }
{
    Arg::new(alloc, id).long(id).action(ArgAction::Set)
}

// The command with two options more.
fn with_two<'a>(
    alloc: Global,
    command: Command<'a>,
    x: &'a str,
    y: &'a str,
) -> Result<Command<'a>, AllocError>
    ensures { IfOk result (λ c. app_of c ≡ and_two (app_of command.entry) x.entry.now y.entry.now) }
{
    command.arg(option_of(alloc, x))?.arg(option_of(alloc, y))
}

// The options of all commands. None is required here: which a command needs is checked before.
fn options_of<'a>(alloc: Global) -> Result<Command<'a>, AllocError>
    ensures { IfOk result (λ c. app_of c ≡ reader) }
{
    let command = Command::new(alloc, "electrum_serve")
        .no_binary_name(true)
        .disable_help_flag(true);
    let command = with_two(alloc, command, "network", "blocks")?;
    let command = with_two(alloc, command, "index", "client-port")?;
    let command = with_two(alloc, command, "node-port", "pool-count")?;
    let command = with_two(alloc, command, "pool-bytes", "head-bits")?;
    command.arg(option_of(alloc, "relay"))
}

// The options that the words give, with their values. It fails only where memory runs out.
pub(crate) fn read_options<'a>(alloc: Global, words: &'a [String]) -> Result<ArgMatches<'a>, Error>
    requires { GiveOptions serve_options (texts words.now) }
    ensures memory { IfErr result (λ e. kind_of e ≡ ErrorKind.OutOfMemory) }
    ensures values { IfOk result (λ read. (given : Given) → texts words.entry.now ≡ words_of given
        → (id : Word) → first_value (found_of read) id ≡ value_of (codes "--" ++ id) given) }
{
    let command = options_of(alloc)?;
    command.try_get_matches_from(words)
}
