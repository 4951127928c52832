//! The one table of subcommands: the name, what help says, the options, and what each does.

ghost use Rattle.std.specs.Prelude.{◌≡◌, ◌≢◌, [], ◌∷◌, IfSome, IfNone, Contains, All, map, string_bytes};
ghost use Rattle.sf_cli_engines.specs.declared.engine.Form.{Form};
ghost use Rattle.sf_cli.specs.Work.{work_name_of, works, options_of};

use clap::{Arg, ArgAction, Command};
use sf_cli_drive::{DRIVE_ABOUT, DRIVE_HELP, switch, with_drive_options};
use sf_cli_engines::{Engine, Form, Judged, Shown};
use std::alloc::{AllocError, Global};

/// What a subcommand does.
#[derive(Clone, Copy)]
pub enum Work {
    /// Starts this engine, or the one that shows what an option says.
    Engine(Engine),
    /// Gets keys of one fill on several threads.
    Drive,
    /// Nothing here: `./sfctl` runs a program of its own.
    Bench,
}

// A subcommand.
#[derive(Clone, Copy)]
struct Row {
    /// The word that asks for it.
    name: &'static str,
    /// What the program's help says of it.
    about: &'static str,
    /// What its own help ends with.
    help: &'static str,
    /// What it does.
    work: Work,
    ghost named: { name.now ≡ work_name_of work },
}

// All subcommands, in the order in which help has them.
const TABLE: [Row; 6] = [
    Row {
        name: "run",
        about: "Runs a script of commands, one per line, from standard input",
        help: RUN,
        work: Work::Engine(Engine::Run { history: false }),
    },
    Row {
        name: "steps",
        about: "Plays a schedule of atomic steps, one turn per line, from standard input",
        help: STEPS,
        work: Work::Engine(Engine::Steps(Shown::Lines)),
    },
    Row {
        name: "check",
        about: "Checks whether the history recorded in standard input is legal",
        help: CHECK,
        work: Work::Engine(Engine::Check(Judged::AsItStands)),
    },
    Row {
        name: "merge",
        about: "Merges the logs of several callers into one recording",
        help: MERGE,
        work: Work::Engine(Engine::Merge),
    },
    Row {
        name: "drive",
        about: DRIVE_ABOUT,
        help: DRIVE_HELP,
        work: Work::Drive,
    },
    Row {
        name: "bench",
        about: "Measures the time per call on this machine, and prints a table",
        help: BENCH,
        work: Work::Bench,
    },
];

// An option of engines.
#[derive(Clone, Copy)]
struct Flag {
    name: &'static str,
    help: &'static str,
    asked: Form,
}

// The options of engines: an engine takes those that name what it can show.
const FLAGS: [Flag; 5] = [
    Flag {
        name: "history",
        help: "Prints records of what happened instead of replies",
        asked: Form::History,
    },
    Flag {
        name: "merge",
        help: "Merges the logs in standard input first",
        asked: Form::Merged(Judged::AsItStands),
    },
    Flag {
        name: "timed",
        help: "Looks for a legal order of the events that respects their times",
        asked: Form::Timed,
    },
    Flag {
        name: "svg",
        help: "Draws an SVG picture instead of lines",
        asked: Form::Picture,
    },
    Flag {
        name: "all",
        help: "Says on standard error which keys have a fault",
        asked: Form::All,
    },
];

// What the program is.
const ABOUT: &str = "Runs, replays and checks calls of singleflight with Forget";

// The version of the packages that are released with it (`rust/Cargo.toml`).
const VERSION: &str = "0.2.0";

// What stands at the end of the program's help.
const STATUSES: &str = "Example:
  printf 'ask 1 k\\nsettle 1 ok v\\n' | sfctl run

`sfctl SUBCOMMAND --help` describes the input of a subcommand and its exit
statuses: 0 if the input was answered, 1 if a history is illegal or incomplete,
2 if the input was refused.";

const RUN: &str = "Commands, one per line:
  ask CALLER KEY              leads a call of KEY, or joins its open call
  chan CALLER SECOND KEY      the same, but SECOND takes the result
  settle CALLER ok TEXT       ends the call that CALLER leads, with a value
  settle CALLER err TEXT      ends it with an error
  forget CALLER KEY           ends the current call of KEY
  forgetcall CALLER KEY CALL  ends CALL of KEY, and no newer call
  take CALLER                 takes the result that CALLER waits for
  current KEY CALL            tells whether CALL is the current call of KEY
A CALLER is a number from 1 to 65535. A CALL is CALLER.GENERATION, such as 1.1.
A KEY or a TEXT has 1 to 250 printable ASCII characters and no spaces.

Example:
  printf 'ask 1 k\\nask 2 k\\nsettle 1 ok v\\ntake 2\\n' | sfctl run

Exit status: 0 if all commands were obeyed; 2 if the script was refused, the
arguments are wrong, memory ran out, or a read or write failed.";

const STEPS: &str = "Turns, one per line:
  do CALLER ask PLACE              begins to ask for the key at PLACE
  do CALLER chan SECOND PLACE      the same, but SECOND takes the result
  do CALLER settle ok TEXT         begins to settle the call it leads
  do CALLER settle err TEXT        begins to settle it with an error
  do CALLER forget PLACE           begins to forget the key at PLACE
  do CALLER forgetcall PLACE CALL  begins to forget CALL, and no newer call
  do CALLER poll                   begins to look for its result
  do CALLER current PLACE CALL     begins to ask whether CALL is current
  do CALLER named PLACE            begins to ask which call the key word names
  step CALLER [COUNT]              makes COUNT atomic steps (1 to 1000), or one
  drop CALLER                      gives up after a failed exchange
A PLACE is a hash slot. A CALLER or a PLACE is a number from 1 to 64. A CALL is
CALLER.GENERATION, such as 1.1; the CALLER of a CALL is 1 to 65535. A TEXT has 1
to 250 printable ASCII characters and no spaces.

Example:
  printf 'do 1 ask 1\\nstep 1 3\\n' | sfctl steps

Exit status: 0 if all turns were played; 2 if the schedule was refused, the
arguments are wrong, memory ran out, or a read or write failed.";

const CHECK: &str = "Records, one JSON object per line, after the line {\"format\":3}:
  {\"e\":\"lead\",\"by\":1,\"k\":\"k\",\"c\":[1,1],\"own\":null}
  {\"e\":\"enter\",\"by\":2,\"k\":\"k\",\"c\":[1,1],\"m\":[2,1]}
  {\"e\":\"forget\",\"by\":3,\"k\":\"k\",\"closed\":[1,1]}
  {\"e\":\"forgetcall\",\"by\":3,\"k\":\"k\",\"c\":[1,1],\"hit\":\"missed\"}
  {\"e\":\"settle\",\"by\":1,\"c\":[1,1],\"ok\":\"v\",\"joiners\":1}
  {\"e\":\"handed\",\"by\":1,\"c\":[1,1]}
Calls and members are [CALLER,GENERATION]. `own` and `closed` can be null. A
settle has `ok` or `err`. A `hit` is closed, cleared or missed.

Format 4 begins with {\"format\":4,\"lost\":N}: N events were lost. Its records
can have a time, \"at\":[FROM,TO] in nanoseconds. A log that lost events is
incomplete, and is never called legal. Formats 1 and 2 are read too. They have
no forgetcall, and a settle of format 1 has `shared`, true or false, instead of
`joiners`.

If the history is not legal, the events that explain it follow on standard
error: their key, callers, times and records. With --all, every key that has a
fault follows, with the first fault of each. With --merge, standard input is one
log after another, which are merged first. `./sfctl check [OPTIONS] LOG...`
reads logs from files, and names their lines.

With --timed, the order of the lines does not matter. The program looks for an
order that is legal and respects the times: an event that ended before another
one began comes first. It prints `legal in time: N events`, `no order: ` with
the events that rule it out, or `not decided`.

--svg does the same. If there is no order, it prints a picture instead of that
line: a lane for each caller, a bar for each event, and time to the right.

Options stand in this order: --merge, --timed or --svg, --all.

Example:
  sfctl steps --history < schedule | sfctl check

Exit status: 0 if the history is legal; 1 if it is illegal or incomplete, or no
order in time was found; 2 if the records were refused, the arguments are wrong,
memory ran out, or a read or write failed.";

const MERGE: &str = "Standard input is one log after another. Each log begins with the line of its
format (see `sfctl check --help`). `./sfctl merge LOG...` reads logs from files.

The program orders the events by key and call, not by line or time. It keeps
their times, and adds up the numbers of lost events. It prints a recording in
format 4. `sfctl check` tells whether the events fit together.

Example:
  cat first.log second.log | sfctl merge | sfctl check

Exit status: 0 if the logs were merged; 2 if the records were refused, the
arguments are wrong, memory ran out, or a read or write failed.";

const BENCH: &str = "Measuring all benchmarks takes about twelve seconds. `./sfctl --make bench`
proves and builds the program that measures; an unproved build does not measure.

Example:
  ./sfctl bench lookup fill

Exit status: 0 if everything was measured, 2 if something was not, 3 if there
is no proved program.";

// The first of these rows that has the name.
fn row_of(rows: &[Row], name: &str) -> Option<Row>
    ensures known { IfSome result (λ row. Contains rows.now row × (row.name.now ≡ name.now)) }
    ensures unknown { IfNone result
        (All (λ text. text ≢ name.now) (map (λ row. row.name.now) rows.now)) }
{
    rows.iter().find(|row| row.name == name).copied()
}

/// What the subcommand of this name does, as the table has it.
pub fn named(name: &str) -> Option<Work>
    ensures known { IfSome result (λ work. Contains works work × (name.now ≡ work_name_of work)) }
    ensures unknown { IfNone result ((work : Work) → name.now ≢ work_name_of work) }
{
    match row_of(&TABLE, name) {
        Some(row) => Some(row.work),
        None => None,
    }
}

// What an engine is asked to show by this option.
fn flagged(option: &str) -> Option<Form>
    ensures known { IfSome result (λ asked. option.now ∷ [] ≡ options_of asked) }
    ensures unknown { IfNone result ((asked : Form) → option.now ∷ [] ≢ options_of asked) }
{
    match option {
        "--history" => Some(Form::History),
        "--timed" => Some(Form::Timed),
        "--svg" => Some(Form::Picture),
        "--all" => Some(Form::All),
        "--merge" => Some(Form::Merged(Judged::AsItStands)),
        _ => None,
    }
}

// What an engine is asked to show by these two options.
fn flagged_twice(first: &str, second: &str) -> Option<Form>
    ensures known { IfSome result (λ asked. first.now ∷ second.now ∷ [] ≡ options_of asked) }
    ensures unknown { IfNone result ((asked : Form)
        → first.now ∷ second.now ∷ [] ≢ options_of asked) }
{
    match (first, second) {
        ("--timed", "--all") => Some(Form::TimedAll),
        ("--merge", "--timed") => Some(Form::Merged(Judged::InTime)),
        ("--merge", "--svg") => Some(Form::Merged(Judged::Drawn)),
        ("--merge", "--all") => Some(Form::Merged(Judged::EachKey)),
        _ => None,
    }
}

// What an engine is asked to show by these three options.
fn flagged_thrice(first: &str, second: &str, third: &str) -> Option<Form>
    ensures known { IfSome result (λ asked.
        first.now ∷ second.now ∷ third.now ∷ [] ≡ options_of asked) }
    ensures unknown { IfNone result ((asked : Form)
        → first.now ∷ second.now ∷ third.now ∷ [] ≢ options_of asked) }
{
    match (first, second, third) {
        ("--merge", "--timed", "--all") => Some(Form::Merged(Judged::EachKeyInTime)),
        _ => None,
    }
}

/// What an engine is asked to show by the words after its name: lines, or what the options say.
pub fn asked(options: &[String]) -> Option<Form>
    ensures known { IfSome result (λ asked. map string_bytes options.now ≡ options_of asked) }
    ensures unknown { IfNone result ((asked : Form)
        → map string_bytes options.now ≢ options_of asked) }
{
    match options {
        [] => Some(Form::Lines),
        [option] => flagged(option.as_str()),
        [first, second] => flagged_twice(first.as_str(), second.as_str()),
        [first, second, third] => flagged_thrice(first.as_str(), second.as_str(), third.as_str()),
        _ => None,
    }
}

/// The program as clap knows it.
pub fn program<'a>(alloc: Global) -> Result<Command<'a>, AllocError> {
    let mut program: Command<'a> = Command::new(alloc, "sfctl")
        .version(VERSION)
        .about(ABOUT)
        .after_help(STATUSES)
        .subcommand_required(true);
    for row in TABLE {
        let command: Command<'a> = command(alloc, row)?;
        program = program.subcommand(command)?;
    }
    Ok(program)
}

// The command of a subcommand.
fn command<'a>(alloc: Global, row: Row) -> Result<Command<'a>, AllocError> {
    let (name, about, help): (&'a str, &'a str, &'a str) = (row.name, row.about, row.help);
    let command: Command<'a> = Command::new(alloc, name).about(about).after_help(help);
    with_options(alloc, row.work, command)
}

// The command with the options of its subcommand.
fn with_options<'a>(
    alloc: Global,
    work: Work,
    command: Command<'a>,
) -> Result<Command<'a>, AllocError> {
    match work {
        Work::Engine(engine) => with_flags(alloc, engine, command),
        Work::Drive => with_drive_options(alloc, command),
        Work::Bench => with_names(alloc, command),
    }
}

// The command with the options of what the engine can show.
fn with_flags<'a>(
    alloc: Global,
    engine: Engine,
    mut command: Command<'a>,
) -> Result<Command<'a>, AllocError> {
    for flag in FLAGS {
        if engine.showing(flag.asked).is_some() {
            let option: Arg<'a> = option(alloc, flag)?;
            command = command.arg(option)?;
        }
    }
    Ok(command)
}

// Whether no engine takes both options.
fn excludes(option: &str, other: &str) -> bool {
    match option {
        "svg" => other == "timed" || other == "all" || other == "history",
        "timed" | "all" | "history" => other == "svg",
        _ => false,
    }
}

// The option, with those that do not go with it.
fn option<'a>(alloc: Global, flag: Flag) -> Result<Arg<'a>, AllocError> {
    let (name, help): (&'a str, &'a str) = (flag.name, flag.help);
    let mut option = switch(alloc, name, help);
    for other in FLAGS {
        let other: &'a str = other.name;
        if excludes(name, other) {
            option = option.conflicts_with(other)?;
        }
    }
    Ok(option)
}

// The command with the words of `bench`.
fn with_names<'a>(alloc: Global, command: Command<'a>) -> Result<Command<'a>, AllocError> {
    let list = switch(alloc, "list", "Prints the names of the benchmarks");
    let names = Arg::new(alloc, "names")
        .value_name("NAME")
        .action(ArgAction::Append)
        .help("Benchmarks to measure; all if absent");
    command.arg(list)?.arg(names)
}
