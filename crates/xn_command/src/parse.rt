// The words, read as one command without subcommands.
ghost use Rattle.std.specs.Prelude.{map};
ghost use Rattle.std.specs.String.{string_bytes};
ghost use Rattle.xn_command.specs.Parsed.{ParsesWords};

use clap::{Arg, ArgAction, ArgMatches, Command, Error};
use std::alloc::Global;

/// The positionals and the option of the words, where each word is one of them.
pub fn parse<'a>(alloc: Global, words: &'a [String]) -> Result<ArgMatches<'a>, Error>
    ensures { ParsesWords (map string_bytes words.entry.now) result }
{
    let command = Arg::new(alloc, "command").required(true);
    let first = Arg::new(alloc, "first").required(true);
    let second = Arg::new(alloc, "second").required(false);
    let budget = Arg::new(alloc, "budget")
        .long("budget")
        .action(ArgAction::Set);
    let program = Command::new(alloc, "xnum")
        .disable_help_flag(true)
        .arg(command)?
        .arg(first)?
        .arg(second)?
        .arg(budget)?;
    program.try_get_matches_from(words)
}
