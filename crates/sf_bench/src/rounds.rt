//! Rounds: workers, one a thread, repeat an operation, and the clock runs meanwhile.
use crate::fault::Fault;
use crate::times::{ROUNDS, Times};
use std::alloc::Global;
use std::sync::Wait;
use std::thread::{Threads, map_vec};
use std::time::{Clock, Instant};

/// How often each worker does its operation in a round.
pub const OPERATIONS: u32 = 200_000;

/// What a worker repeats.
pub(crate) trait Operation: Drop {
    /// Does it once.
    fn once<R: Wait>(self, rt: &R) -> Result<Self, Fault>;
}

/// A worker that is ready to go on, or why it is not.
pub(crate) type Worker<O> = Result<O, Fault>;

// A worker's part of a round.
fn repeat<R: Wait, O: Operation>(rt: &R, worker: Worker<O>) -> Worker<O> {
    let mut operation = worker?;
    for _ in 0..OPERATIONS {
        operation = operation.once(rt)?;
    }
    Ok(operation)
}

// The nanoseconds an operation of a round that began then, of so many workers.
pub(crate) fn time_since<R: Clock>(rt: &R, began: Instant, workers: usize) -> Result<u64, Fault> {
    let Ok(took) = began.elapsed(rt) else {
        return Err(Fault::Clock);
    };
    let nanos = u64::try_from(took.as_nanos()).unwrap_or(u64::MAX);
    Ok(of_one(nanos, workers))
}

// What an operation took, where so many workers did all theirs in so many nanoseconds.
pub(crate) fn of_one(nanos: u64, workers: usize) -> u64 {
    let operations = (OPERATIONS as u64).saturating_mul(workers as u64);
    nanos.checked_div(operations).unwrap_or(nanos)
}

// Times nine rounds of these operations, each on a thread of its own: the nanoseconds of a round by all operations
// that all threads did in it.
pub(crate) fn measure<R: Wait + Threads + Clock + Sync, O: Operation + Send>(
    rt: &R,
    workers: Vec<Worker<O>>,
) -> Result<Times, Fault> {
    let mut workers = workers;
    let mut times = [0; ROUNDS];
    for round in 0..ROUNDS {
        let Ok(began) = Instant::now(rt) else {
            return Err(Fault::Clock);
        };
        workers = map_vec(rt, workers, &|worker: Worker<O>| repeat(rt, worker))?;
        times[round] = time_since(rt, began, workers.len())?;
    }
    for worker in workers {
        let _ = worker?;
    }
    Ok(Times::of(times))
}

// Times nine rounds of one operation, on one thread.
pub(crate) fn measure_one<R: Wait + Threads + Clock + Sync, O: Operation + Send>(
    rt: &R,
    alloc: Global,
    operation: O,
) -> Result<Times, Fault> {
    let mut workers = Vec::with_capacity(alloc, 1)?;
    workers.push_reserved(Ok(operation));
    measure(rt, workers)
}
