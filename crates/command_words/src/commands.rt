// The commands of the program, as `clap` reads them.
ghost use Rattle.std.specs.Prelude.{◌≡◌, false, IfOk, IfSome, IfNone, option_map, map};
ghost use Rattle.std.specs.List.{All};
ghost use Rattle.std.specs.String.{string_bytes};
ghost use Rattle.clap.specs.Words.{app_of, rule_of, shape_of, subcommand_rows_of};
ghost use Rattle.clap.specs.Simple.{new_shape};
ghost use Rattle.clap.specs.declared.builder.command.Command.TheViews.{out-Command as fields_of};
ghost use Rattle.command_words.specs.Commands.{IsUndashed, argument_rule, asked_words, bare, line_found};
ghost use Rattle.command_words.specs.Commands.{one_word, program};
ghost use Rattle.command_words.specs.Words.{IsNoForm};

use clap::error::ErrorKind;
use clap::{Arg, ArgMatches, Command};
use quota_units::NoMemory;
use std::alloc::{AllocError, Global};

/// A command of the program that was asked for, with the word after it if there is one.
#[derive(Clone, Copy)]
pub(crate) struct Asked<'a> {
    pub(crate) command: &'a str,
    pub(crate) word: Option<&'a str>,
}

/// The one word that a command takes.
fn argument<'a>(alloc: Global, needed: bool) -> Arg<'a>
    ensures rule { rule_of result ≡ argument_rule needed }
    ensures local { result.global ≡ false }
{
    Arg::new(alloc, "word").required(needed)
}

/// A command that takes one word.
fn with_word<'a>(alloc: Global, name: &'a str, needed: bool) -> Result<Command<'a>, AllocError>
    ensures { IfOk result (λ c. (shape_of c ≡ one_word name.entry.now needed)
        × ((fields_of c).has_globals ≡ false)) }
{
    Command::new(alloc, name).arg(argument(alloc, needed))
}

/// A command that takes no word.
fn alone<'a>(alloc: Global, name: &'a str) -> Command<'a>
    ensures shape { shape_of result ≡ new_shape name.entry.now }
    ensures local { (fields_of result).has_globals ≡ false }
{
    Command::new(alloc, name)
}

/// The program before it has commands.
fn without_commands<'a>(alloc: Global) -> Command<'a>
    ensures { app_of result ≡ bare }
{
    Command::new(alloc, "quotactl")
        .no_binary_name(true)
        .disable_help_flag(true)
        .disable_version_flag(true)
        .disable_help_subcommand(true)
        .subcommand_required(true)
}

/// The program with its commands.
fn commands<'a>(alloc: Global) -> Result<Command<'a>, AllocError>
    ensures { IfOk result (λ c. app_of c ≡ program) }
{
    without_commands(alloc)
        .subcommand(with_word(alloc, "session", true)?)?
        .subcommand(with_word(alloc, "imap", false)?)?
        .subcommand(alone(alloc, "policy"))?
        .subcommand(alone(alloc, "check"))?
        .subcommand(with_word(alloc, "workload", true)?)
}

/// The command that was asked for.
fn asked_of<'a>(matches: &ArgMatches<'a>) -> Option<Asked<'a>>
    ensures { option_map asked_words result ≡ line_found (subcommand_rows_of matches.now) }
{
    let (command, inner) = matches.subcommand()?;
    Some(Asked {
        command,
        word: inner.get_str("word"),
    })
}

/// The command that the words name, with the word after it; `None` if `clap` refuses the words.
pub(crate) fn command_in<'a>(
    alloc: Global,
    words: &'a [String],
) -> Result<Option<Asked<'a>>, NoMemory>
    requires undashed { All IsUndashed (map string_bytes words.now) }
    ensures some { IfOk result (λ found.
        IfSome found (λ asked. map string_bytes words.now ≡ asked_words asked)) }
    ensures none { IfOk result (λ found. IfNone found (IsNoForm (map string_bytes words.now))) }
{
    let command: Command<'a> = commands(alloc)?;
    match command.try_get_matches_from(words) {
        Ok(matches) => Ok(asked_of(&matches)),
        Err(fault) => {
            if fault.kind() == ErrorKind::OutOfMemory {
                Err(NoMemory)
            } else {
                Ok(None)
            }
        }
    }
}
