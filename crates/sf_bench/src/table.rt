//! The table that is printed.
use crate::benchmark::Benchmark;
use crate::fault::Fault;
use crate::rounds::OPERATIONS;
use crate::times::{ROUNDS, Times};
use std::thread::{Threads, available_parallelism};

/// A table whose head is printed.
#[derive(Drop)]
pub(crate) struct Table;

/// What a row is of.
#[derive(Clone, Copy)]
pub(crate) struct Case {
    pub(crate) benchmark: Benchmark,
    /// Which case of the benchmark.
    pub(crate) detail: &'static str,
    pub(crate) threads: u32,
}

impl Table {
    // Prints the head: the machine's cores, and what stands in each column.
    pub(crate) fn open(rt: &(impl Print + Threads)) -> Result<Table, Fault> {
        let cores = match available_parallelism(rt) {
            Ok(cores) => cores.get(),
            Err(_) => 0,
        };
        if println!(rt; "cores: {cores}").is_err() {
            return Err(Fault::Written);
        }
        let head = println!(rt;
            "{:<9} {:<34} {:>7} {:>6} {:>10} {:>8} {:>9}",
            "benchmark", "case", "threads", "rounds", "operations", "least ns", "median ns"
        );
        match head {
            Ok(()) => Ok(Table),
            Err(_) => Err(Fault::Written),
        }
    }

    // Prints a row.
    pub(crate) fn row(&self, rt: &impl Print, case: Case, times: Times) -> Result<(), Fault> {
        let name = case.benchmark.name();
        let detail = case.detail;
        let threads = case.threads;
        let least = times.least;
        let median = times.median;
        let row = println!(rt;
            "{name:<9} {detail:<34} {threads:>7} {ROUNDS:>6} {OPERATIONS:>10} {least:>8} {median:>9}"
        );
        match row {
            Ok(()) => Ok(()),
            Err(_) => Err(Fault::Written),
        }
    }

    // Prints the last line.
    pub(crate) fn close(self, rt: &impl Print) -> Result<(), Fault> {
        match println!(rt; "These times were measured on this machine, and nothing is promised.") {
            Ok(()) => Ok(()),
            Err(_) => Err(Fault::Written),
        }
    }
}
