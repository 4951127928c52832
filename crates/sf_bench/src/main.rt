//! `sf_bench` measures what the calls of the directory, the group, the waiting forms and the fill cost on this machine, and
//! prints a table. Its words are names of benchmarks, `--list` for the names, or none for all.
#![tactic(auto)]

mod asking;
mod benchmark;
mod fault;
mod filling;
mod keys;
mod looking;
mod order;
mod request;
mod rounds;
mod table;
mod times;

use crate::benchmark::{Benchmark, write_names};
use crate::fault::Fault;
use crate::request::{Request, parse};
use crate::table::Table;
use std::process::ExitCode;
use std::rt::Env;
use std::sync::Wait;
use std::thread::Threads;
use std::time::Clock;
use std::{env, io};

// The exit status where nothing, or not all, could be measured.
const FAILED: u8 = 2;

// The words of the command line, without the program's name.
fn words(rt: &(impl Env + AllocGlobal)) -> io::Result<Vec<String>> {
    let mut words = Vec::new(rt.alloc());
    for word in env::args(rt)?.skip(1) {
        words.push(word)?;
    }
    Ok(words)
}

// Measures one benchmark, and prints its rows.
fn run<R>(rt: &R, table: &Table, benchmark: Benchmark) -> Result<(), Fault>
where
    R: AllocGlobal + Print + Wait + Threads + Clock + Sync,
{
    match benchmark {
        Benchmark::Lookup => looking::measure_lookup(rt, table),
        Benchmark::Lead => asking::measure_lead(rt, table),
        Benchmark::Join => asking::measure_join(rt, table),
        Benchmark::Forget => asking::measure_forget(rt, table),
        Benchmark::Current => asking::measure_current(rt, table),
        Benchmark::Distinct => asking::measure_distinct(rt, table),
        Benchmark::Hot => asking::measure_hot(rt, table),
        Benchmark::Place => keys::measure_place(rt, table),
        Benchmark::Key => keys::measure_key(rt, table),
        Benchmark::Fill => filling::measure_fill(rt, table),
    }
}

// Measures these benchmarks, one after the other.
fn run_all<R>(rt: &R, benchmarks: &[Benchmark]) -> Result<(), Fault>
where
    R: AllocGlobal + Print + Wait + Threads + Clock + Sync,
{
    let table = Table::open(rt)?;
    for benchmark in benchmarks {
        run(rt, &table, *benchmark)?;
    }
    table.close(rt)
}

// Does what the words ask for.
fn serve<R>(rt: &R, asked: Request) -> Result<(), Fault>
where
    R: AllocGlobal + Print + Wait + Threads + Clock + Sync,
{
    match asked {
        Request::Names => Ok(write_names(&mut io::writer(rt))?),
        Request::Benchmarks(benchmarks) => run_all(rt, benchmarks.as_slice()),
    }
}

// Says on standard error why it ends so, as far as that can be written.
fn failed<D: std::fmt::Display + Drop>(rt: &impl Eprint, why: D) -> ExitCode {
    let _ = eprintln!(rt; "sf_bench: {why}");
    ExitCode::from(FAILED)
}

fn main(rt: HostRuntime) -> ExitCode {
    let words = match words(&rt) {
        Ok(words) => words,
        Err(error) if error.kind() == io::ErrorKind::OutOfMemory => return failed(
            &rt,
            Fault::Memory,
        ),
        Err(_) => return failed(&rt, "the arguments are not valid UTF-8"),
    };
    match parse(rt.alloc(), words.as_slice()) {
        Ok(Ok(asked)) => match serve(&rt, asked) {
            Ok(()) => ExitCode::SUCCESS,
            Err(fault) => failed(&rt, fault),
        },
        Ok(Err(unknown)) => failed(&rt, unknown),
        Err(_) => failed(&rt, Fault::Memory),
    }
}
