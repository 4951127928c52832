//! One worker: a thread that passes the gate, does one job and answers how it ended.
ghost use Rattle.std.specs.Prelude.{◌≡◌};
ghost use Rattle.sf_wait.specs.Served.{HasServed};

use crate::job::{Job, Work};
use sf_group::{Caller, Finished, Group, Letter, Settled};
use sf_group_rows::Fit;
use std::marker::Model;
use std::snapshot::Snapshot;
use std::sync::atomic::{AtomicU32, Ordering};
use std::thread::{Promise, PromisedHandle, Scope, Threads};

/// What stands between taking a job and doing it.
pub trait Gate {
    /// Comes back when the job of this number, from 1, may be done.
    fn pass(&self, job: u32);
}

/// How a job ended.
pub enum Served<V: Fit, W: Work<V>> {
    /// Its call is settled with what the work answered, and all letters are handed out.
    Done(Caller<V>, Letter<V>),
    /// Its call is settled with what the work answered, and letters of it are owed still.
    Held(Settled<V>),
    /// No thread could be made for it, and its work is not done.
    Left(Job<V, W>),
}

fn do_job<V: Fit, W: Work<V>, G: Gate>(
    group: &Group<V>,
    gate: &G,
    number: u32,
    job: Job<V, W>,
) -> Served<V, W>
    requires { job.flight.group ≡ group.now }
    ensures { HasServed V.fits W.answers job result }
{
    gate.pass(number);
    let Job { flight, work } = job;
    match group.finish(flight, work.run()) {
        Finished::Done(caller, letter) => Served::Done(caller, letter),
        Finished::Held(settled) => Served::Held(settled),
    }
}

// A job of the group that a worker's closure holds. One that is never done is given up.
struct HeldJob<'a, V: Fit, W: Work<V>> {
    group: &'a Group<V>,
    job: Job<V, W>,
}

impl<'a, V: Fit, W: Work<V>> Model for HeldJob<'a, V, W> {
    ghost use Rattle.std.specs.Prelude.{◌≡◌};
    ghost use Rattle.sf_wait.specs.Jobs.{JobValue};

    ghost Value = { JobValue V W };

    ghost view = { λ g. g.job };

    ghost invariant = { λ g. g.job.flight.group ≡ g.group.now };
}

impl<'a, V: Fit, W: Work<V>> Drop for HeldJob<'a, V, W> {
    fn drop(self) {
        let HeldJob { group: _, job } = self;
        job.abandon();
    }
}

impl<'a, V: Fit, W: Work<V>> HeldJob<'a, V, W> {
    fn parts(self) -> (&'a Group<V>, Job<V, W>)
        ensures job { result.1 ≡ self.entry }
        ensures own { result.1.flight.group ≡ result.0.now }
    {
        let Self { group, job } = self;
        (group, job)
    }
}

// How a job ended, for the thread that waits for its worker. One that nobody waits for is given up.
pub(crate) struct WorkerEnd<V: Fit, W: Work<V>>(Served<V, W>);

impl<V: Fit, W: Work<V>> Drop for WorkerEnd<V, W> {
    fn drop(self) {
        let WorkerEnd(served) = self;
        match served {
            Served::Done(caller, letter) => {
                drop(caller);
                drop(letter);
            }
            Served::Held(settled) => settled.abandon(),
            Served::Left(job) => job.abandon(),
        }
    }
}

impl<V: Fit, W: Work<V>> WorkerEnd<V, W> {
    fn served(self) -> Served<V, W>
        ensures { result ≡ self.0 }
    {
        let Self(served) = self;
        served
    }
}

// That a job ended as its contract says.
#[derive(Drop)]
pub(crate) struct EndOf<V: Fit, W: Work<V>>(Snapshot<Job<V, W>>);

impl<V: Fit, W: Work<V>> Promise<WorkerEnd<V, W>> for EndOf<V, W> {
    ghost kept_by = { λ p r. HasServed V.fits W.answers p.0.value r.0 };
}

type Worker<V, W> = PromisedHandle<WorkerEnd<V, W>, EndOf<V, W>>;

// A worker that does its job, or how the job ended whose worker could not be made.
#[derive(Drop)]
pub(crate) enum Hand<V: Fit, W: Work<V>> {
    Works(Worker<V, W>),
    Stays(WorkerEnd<V, W>),
}

// A job that was started. Clauses see the job.
#[derive(Drop)]
pub(crate) struct Started<V: Fit, W: Work<V>> {
    job: Snapshot<Job<V, W>>,
    hand: Hand<V, W>,
}

impl<V: Fit, W: Work<V>> Model for Started<V, W> {
    ghost use Rattle.sf_wait.specs.Jobs.{JobValue};
    ghost use Rattle.sf_wait.specs.Hands.{HasHand};

    ghost Value = { JobValue V W };

    ghost view = { λ s. s.job.value };

    ghost invariant = { λ s. HasHand V.fits W.answers s.job.value s.hand };
}

// The word names the job whose worker could not be made, which then comes back undone.
fn end<'a, V: Fit, W: Work<V>, G: Gate>(
    gate: &G,
    number: u32,
    left: &AtomicU32,
    given: HeldJob<'a, V, W>,
) -> WorkerEnd<V, W>
    ensures { HasServed V.fits W.answers given.entry result.0 }
{
    let (group, job) = given.parts();
    if left.load(Ordering::SeqCst) == number {
        return WorkerEnd(Served::Left(job));
    }
    WorkerEnd(do_job(group, gate, number, job))
}

// Starts a worker for the job, which does it, or finds that none can be made.
pub(crate) fn start<'s, E, V: Fit + Send + 's, W: Work<V> + Send + 's, G: Gate + Sync>(
    scope: &Scope<'s, E>,
    gate: &'s G,
    number: u32,
    left: &'s AtomicU32,
    group: &'s Group<V>,
    job: Job<V, W>,
) -> Started<V, W>
    requires { job.flight.group ≡ group.now }
    ensures { result ≡ job }
{
    let snapshot = Snapshot::of(&job);
    let kept = EndOf(Snapshot::of(&job));
    let given = HeldJob { group, job };
    let worker = scope.spawn_with(
        kept,
        move || -> WorkerEnd<V, W>
            ensures { HasServed V.fits W.answers given.entry result.0 }
        { end(gate, number, left, given) },
    );
    let hand = match worker {
        Ok(worker) => Hand::Works(worker),
        Err(back) => {
            left.store(number, Ordering::SeqCst);
            Hand::Stays((back.value)())
        }
    };
    Started {
        job: snapshot,
        hand,
    }
}

impl<V: Fit, W: Work<V>> Started<V, W> {
    // Waits until its worker is done, and answers how the job ended.
    pub(crate) fn join<R: Threads>(self, rt: &R) -> Served<V, W>
        ensures { HasServed V.fits W.answers self result }
    {
        let Self { job: _, hand } = self;
        match hand {
            Hand::Works(worker) => worker.join(rt).served(),
            Hand::Stays(ended) => ended.served(),
        }
    }
}
