//! What the command line asks for.

ghost use Rattle.std.specs.Prelude.{◌≡◌, ◌≢◌, [], IfSome, IfNone, IfOk, IfErr, map, string_bytes};
ghost use Rattle.std.specs.IoError.{error_kind};
ghost use Rattle.std.specs.declared.io.ErrorKind.TheVariants as io_kind;
ghost use Rattle.clap.specs.Words.{fault_of, kind_of};
ghost use Rattle.sf_cli_engines.specs.Engines.{name_of, shown_by};
ghost use Rattle.sf_cli_engines.specs.declared.engine.Engine as engines;
ghost use Rattle.sf_cli.specs.Work.{options_of};
ghost use Rattle.sf_cli_drive.specs.Words.{IsAskedLine, drive_app};
ghost use Rattle.sf_cli.specs.Usage.{IsAskedBy, IsRefusedBy, IsUsageOf, IsWantOfMemory};

use crate::table::{Work, asked, named, program};
use clap::Error;
use sf_cli_drive::{DriveLine, drive_line};
use sf_cli_engines::Engine;
use std::alloc::{AllocError, Global};
use std::{fmt, io};

/// What `sfctl` is asked to do.
#[derive(Clone, Copy)]
pub enum Subcommand {
    /// Start an engine.
    Engine(Engine),
    /// Get keys of one fill on several threads.
    Drive(DriveLine),
}

/// What is wrong with the words.
#[derive(Drop)]
pub enum Mistake {
    /// What clap says.
    Said(Error),
    /// They ask for the program that measures, which `./sfctl` runs.
    Elsewhere,
    /// clap takes them, and no subcommand does.
    NotTaken,
    /// They are no text.
    NoText,
}

impl Mistake {
    /// Why the words could not be read: there is no memory for them, or they are no text.
    pub fn of_words(error: io::Error) -> Mistake
        ensures memory { error_kind error ≡ io_kind.OutOfMemory
            → IsWantOfMemory (Usage.Mistake result) }
        ensures text { error_kind error ≢ io_kind.OutOfMemory → result ≡ Mistake.NoText }
    {
        if error.kind() == io::ErrorKind::OutOfMemory {
            Mistake::Said(Error::from(AllocError))
        } else {
            Mistake::NoText
        }
    }
}

impl fmt::Display for Mistake {
    fn fmt<W: fmt::Write>(&self, f: &mut fmt::Formatter<W>) -> fmt::Result {
        match self {
            Mistake::Said(error) => error.fmt(f),
            Mistake::Elsewhere => {
                f.write_str("error: `bench` runs another program; use `./sfctl bench`\n")
            }
            Mistake::NotTaken => f.write_str(
                "error: no subcommand takes these arguments in this order; see `sfctl --help`\n",
            ),
            Mistake::NoText => f.write_str("error: the arguments are not valid UTF-8\n"),
        }
    }
}

/// Why the command line starts nothing.
#[derive(Drop)]
pub enum Usage {
    /// It asks for help or the version, which is this text.
    Help(String),
    /// It is wrong.
    Mistake(Mistake),
}

impl Usage {
    // What clap answers in place of matches.
    fn said(alloc: Global, error: Error) -> Usage
        ensures { IsUsageOf (kind_of error) result }
    {
        if error.use_stderr() {
            return Usage::Mistake(Mistake::Said(error));
        }
        match format!(in alloc; "{error}") {
            Ok(text) => Usage::Help(text),
            Err(refused) => Usage::from(refused),
        }
    }
}

impl From<AllocError> for Usage {
    ghost from_gives = { λ _ usage. IsWantOfMemory usage };

    fn from(error: AllocError) -> Usage {
        Usage::Mistake(Mistake::Said(Error::from(error)))
    }
}

// What is said of words that ask for nothing; this, where clap has nothing to say.
fn refused(alloc: Global, words: &[String], otherwise: Mistake) -> Usage {
    match program(alloc) {
        Ok(program) => match program.try_get_matches_from(words) {
            Ok(_) => Usage::Mistake(otherwise),
            Err(error) => Usage::said(alloc, error),
        },
        Err(error) => Usage::from(error),
    }
}

// How much the words, the name of `drive` first, ask for.
fn line(alloc: Global, words: &[String]) -> Result<DriveLine, Usage>
    ensures asked { IfOk result (IsAskedLine (map string_bytes words.now)) }
    ensures faultless { IfOk result (λ _. fault_of drive_app (map string_bytes words.now) ≡ []) }
    ensures refused { IfErr result
        (IsRefusedBy (fault_of drive_app (map string_bytes words.now))) }
{
    match drive_line(alloc, words) {
        Ok(line) => Ok(line),
        Err(error) => Err(Usage::said(alloc, error)),
    }
}

// The engine of the same subcommand that shows what the words after its name ask for.
fn showing(engine: Engine, options: &[String]) -> Option<Engine>
    ensures known { IfSome result (λ e. (name_of e ≡ name_of engine)
        × (map string_bytes options.now ≡ options_of (shown_by e))) }
    ensures unknown { IfNone result ((e : engines.Engine) → name_of e ≡ name_of engine
        → map string_bytes options.now ≢ options_of (shown_by e)) }
{
    match asked(options) {
        Some(asked) => engine.showing(asked),
        None => None,
    }
}

/// The subcommand that the words ask for, the program's name first. The words of a drive are refused where clap refuses
/// them, and for want of memory.
pub fn parse(alloc: Global, words: &[String]) -> Result<Subcommand, Usage>
    ensures { IsAskedBy (map string_bytes words.now) result }
{
    let [_, name, options @ ..] = words else {
        return Err(refused(alloc, words, Mistake::NotTaken));
    };
    match named(name.as_str()) {
        Some(Work::Engine(engine)) => match showing(engine, options) {
            Some(engine) => Ok(Subcommand::Engine(engine)),
            None => Err(refused(alloc, words, Mistake::NotTaken)),
        },
        Some(Work::Drive) => {
            let line = line(alloc, &words[1..])?;
            Ok(Subcommand::Drive(line))
        }
        Some(Work::Bench) => Err(refused(alloc, words, Mistake::Elsewhere)),
        None => Err(refused(alloc, words, Mistake::NotTaken)),
    }
}
