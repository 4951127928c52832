//! `sfctl`: singleflight with Forget at the command line. `sfctl run` obeys a script of commands, `sfctl steps`
//! plays a schedule of the step core, `sfctl check` judges a recorded history, `sfctl merge` puts logs together into one, and
//! `sfctl drive` gets keys of one fill on several threads.
#![tactic(auto)]

mod ends;
mod table;
mod usage;

ghost use Rattle.std.specs.Prelude.{◌≡◌, List, ℕ, Result, Option, map, string_bytes};
ghost use Rattle.sf_cli.specs.Served.{HasEnded, IsStatusOf};
ghost use Rattle.sf_cli.specs.Usage.{IsAskedBy};
ghost use Rattle.sf_cli.specs.declared.usage.Subcommand as asking;
ghost use Rattle.sf_cli.specs.declared.usage.Usage as refusing;
ghost use Rattle.sf_cli_engines.specs.Ending.{exit_status_of, outcome_of};

use crate::ends::{driven, ended, helped, misused};
use crate::usage::{Mistake, Subcommand, Usage, parse};
use sf_cli_drive::drive;
use sf_cli_engines::{Ending, Engine};
use sf_text::{StreamFault, write_all};
use std::io::{IsTerminal, Read, Write};
use std::process::ExitCode;
use std::rt::Env;
use std::sync::Wait;
use std::thread::Threads;
use std::time::Clock;
use std::{env, io};

// The words of the command line; the program's name comes first, and is `sfctl` wherever the file lies.
fn words(rt: &(impl Env + AllocGlobal)) -> io::Result<Vec<String>> {
    let mut words = Vec::new(rt.alloc());
    words.push(String::from_str(rt.alloc(), "sfctl")?)?;
    for word in env::args(rt)?.skip(1) {
        words.push(word)?;
    }
    Ok(words)
}

// Starts an engine on these streams, says on standard error what it leaves to be said below its answer, and answers the exit status.
fn answer<I: Read, O: Write>(
    rt: &(impl AllocGlobal + Eprint),
    engine: Engine,
    reader: &mut I,
    writer: &mut O,
) -> u8
    ensures { (ended : Result Ending StreamFault)
        × HasEnded engine (I.remaining reader.old) (O.contents writer.old)
        (O.contents writer.new) ended
        × (result ≡ exit_status_of (outcome_of ended)) }
{
    let mut below = None;
    let answered = engine.start_with_hint(rt.alloc(), reader, writer, &mut below);
    if let Some(said) = below {
        let _ = eprint!(rt; "{said}");
    }
    ended(rt, answered)
}

// Does what these words ask for on these streams, and answers the exit status. Where standard error is a terminal, a drive
// says there how far it is.
fn obey<R, I: Read, O: Write>(
    rt: &R,
    words: &[String],
    reader: &mut I,
    writer: &mut O,
    on_terminal: bool,
) -> u8
where
    R: AllocGlobal + Eprint + Wait + Threads + Clock + Sync,
    ensures { (asked : Result asking.Subcommand refusing.Usage)
        × IsAskedBy (map string_bytes words.now) asked
        × IsStatusOf asked (I.remaining reader.old) (O.contents writer.old)
        (O.contents writer.new) result }
{
    match parse(rt.alloc(), words) {
        Ok(Subcommand::Engine(engine)) => answer(rt, engine, reader, writer),
        Ok(Subcommand::Drive(mut line)) => {
            line.progress = on_terminal;
            driven(rt, drive(rt, rt.alloc(), writer, line))
        }
        Err(Usage::Help(text)) => helped(rt, write_all(writer, text.as_str())),
        Err(Usage::Mistake(mistake)) => misused(rt, mistake),
    }
}

// Does what the command line asks for on these streams, as `obey` does; words that are no text, or for which there is no memory,
// are usage.
fn serve<R, I: Read, O: Write>(rt: &R, reader: &mut I, writer: &mut O, on_terminal: bool) -> u8
where
    R: Env + AllocGlobal + Eprint + Wait + Threads + Clock + Sync,
    ensures { (asked : Result asking.Subcommand refusing.Usage)
        × IsStatusOf asked (I.remaining reader.old) (O.contents writer.old)
        (O.contents writer.new) result }
{
    match words(rt) {
        Ok(words) => obey(rt, words.as_slice(), reader, writer, on_terminal),
        Err(error) => misused(rt, Mistake::of_words(error)),
    }
}

fn main(rt: HostRuntime) -> ExitCode {
    let on_terminal = rt.stderr().is_terminal();
    ExitCode::from(serve(&rt, &mut rt.reader(), &mut io::writer(&rt), on_terminal))
}
