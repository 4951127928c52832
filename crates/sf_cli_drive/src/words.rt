//! The words of a drive.
ghost use Rattle.std.specs.Prelude.{◌≡◌, IfOk, IfErr, map, string_bytes, false};
ghost use Rattle.clap.specs.Words.{app_of, fault_of, kind_of, rule_of, FailsBy};
ghost use Rattle.clap.specs.declared.error.kind.ErrorKind.TheVariants.{OutOfMemory};
ghost use Rattle.sf_cli_drive.specs.Words.{count_rule, switch_rule, with_drive_rules, drive_app, IsAskedLine};

use crate::line::{DriveLine, MOST_GETS, MOST_KEYS, MOST_THREADS};
use clap::{Arg, ArgAction, Command, Error};
use std::alloc::{AllocError, Global};

/// What the program's help says of a drive.
pub const DRIVE_ABOUT: &str = "Gets keys of one fill on several threads, and checks the history";

/// What a drive's help ends with.
pub const DRIVE_HELP: &str =
    "Prints the number of gets, the number of gets that returned their key's value,
whether the totals agree, and whether the history is legal.

Example:
  sfctl drive --threads 4 --keys 8 --gets 100

Exit status: 0 if all of that is well; 1 if it is not; 2 if the arguments are
wrong, memory ran out, or a write failed.";

/// An option of this name that takes no value.
pub fn switch<'a>(alloc: Global, name: &'a str, help: &'a str) -> Arg<'a>
    ensures rule { rule_of result ≡ switch_rule name.entry.now }
    ensures local { result.global ≡ false }
{
    Arg::new(alloc, name)
        .long(name)
        .action(ArgAction::SetTrue)
        .value_parser(clap::value_parser!(bool))
        .help(help)
}

// An option of this name, whose value is a number from 1 to a greatest one.
fn count<'a>(alloc: Global, name: &'a str, help: &'a str, greatest: u32) -> Arg<'a>
    ensures rule { rule_of result ≡ count_rule name.entry.now greatest }
    ensures local { result.global ≡ false }
{
    Arg::new(alloc, name)
        .long(name)
        .action(ArgAction::Set)
        .value_name("N")
        .help(help)
        .value_parser(clap::value_parser!(u32).range(1..=i64::from(greatest)))
}

/// The command with the options of a drive and their ranges.
pub fn with_drive_options<'a>(
    alloc: Global,
    command: Command<'a>,
) -> Result<Command<'a>, AllocError>
    ensures { IfOk result (λ with. app_of with ≡ with_drive_rules (app_of command.entry)) }
{
    let threads = "Number of threads, 1 to 64; 4 if absent";
    let keys = "Number of keys, 1 to 1000; 8 if absent";
    let gets = "Gets per thread, 1 to 100000; 100 if absent";
    let open = "Uses hash slots, 16 per key, instead of a directory";
    let history = "Prints records of what happened instead of the four lines";
    command
        .arg(count(alloc, "threads", threads, MOST_THREADS))?
        .arg(count(alloc, "keys", keys, MOST_KEYS))?
        .arg(count(alloc, "gets", gets, MOST_GETS))?
        .arg(switch(alloc, "open", open))?
        .arg(switch(alloc, "history", history))
}

// The command of a drive.
fn command<'a>(alloc: Global) -> Result<Command<'a>, Error>
    ensures made { IfOk result (λ command. app_of command ≡ drive_app) }
    ensures refused { IfErr result (λ error. kind_of error ≡ OutOfMemory) }
{
    let command = Command::new(alloc, "drive")
        .bin_name("sfctl drive")?
        .about(DRIVE_ABOUT)
        .after_help(DRIVE_HELP);
    Ok(with_drive_options(alloc, command)?)
}

/// Reads the words of a drive, the subcommand's name first: `--threads` (4 where it is absent), `--keys` (8), `--gets`
/// (100), `--open` and `--history`. Refuses what is no parse, with what clap says, and for want of memory.
pub fn drive_line<'a>(alloc: Global, words: &'a [String]) -> Result<DriveLine, Error>
    ensures asked { IfOk result (IsAskedLine (map string_bytes words.entry.now)) }
    ensures quiet { IfOk result (λ line. line.progress ≡ false) }
    // Which words are refused, and why, is for clap's rules of the five options to say.
    ensures refused { FailsBy (fault_of drive_app (map string_bytes words.entry.now)) result }
{
    let command: Command<'a> = command(alloc)?;
    let matches = command.try_get_matches_from(words)?;
    Ok(DriveLine {
        threads: matches.get_one::<u32>("threads").unwrap_or(4),
        keys: matches.get_one::<u32>("keys").unwrap_or(8),
        gets: matches.get_one::<u32>("gets").unwrap_or(100),
        open: matches.get_flag("open"),
        history: matches.get_flag("history"),
        progress: false,
    })
}
