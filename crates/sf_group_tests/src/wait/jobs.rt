//! Jobs: as many as may be, each done once and behind its gate; one that is given up is not done.
ghost use Rattle.std.specs.Prelude.{◌≡◌, ◌≤◌, All, vec_capacity, vec_len};
ghost use Rattle.sf_group_rows.specs.Same.{IsPlaceOf};

use crate::wait::callers::{lead_chan, next_caller};
use crate::wait::seats::{Seat, say_letter};
use crate::wait::stage::Stage;
use crate::wait::value::Value;
use sf_group::{Begun, Caller, Flight, Group, Memory};
use sf_wait::{Gate, Job, Served, Unserved, Work, begin_wait, serve};
use std::alloc::Global;
use std::marker::Model;
use std::process::Abort;
use std::sync::Wait;
use std::sync::atomic::{AtomicU32, Ordering};
use std::test::Fail;
use std::thread::{Threads, join, yield_now};

// Whether the gate was passed, how many jobs ran, how many of them before it was, and how many are done.
#[derive(Drop)]
struct Counts {
    passed: AtomicU32,
    runs: AtomicU32,
    early: AtomicU32,
    done: AtomicU32,
}

impl Counts {
    fn new(passed: u32) -> Counts {
        Counts {
            passed: AtomicU32::new(passed),
            runs: AtomicU32::new(0),
            early: AtomicU32::new(0),
            done: AtomicU32::new(0),
        }
    }

    // How many jobs are done, how many ran, and how many of them early.
    fn numbers(&self) -> (u32, u32, u32) {
        (
            self.done.load(Ordering::SeqCst),
            self.runs.load(Ordering::SeqCst),
            self.early.load(Ordering::SeqCst),
        )
    }
}

// Work that answers its number, and counts its runs, and those before its gate was passed.
#[derive(Drop)]
struct Marked<'a>(&'a Counts, u32);

impl Work<Value> for Marked<'_> {
    ghost may_run = { λ _. Unit {0} };

    ghost answers = { λ _ _. Unit {0} };

    fn run(self) -> Value {
        self.0.runs.fetch_add(1, Ordering::SeqCst);
        if self.0.passed.load(Ordering::SeqCst) == 0 {
            self.0.early.fetch_add(1, Ordering::SeqCst);
        }
        Value::new(self.1, 0)
    }
}

// Jobs of the group, 1 to 64. Those that are never done are given up.
struct Batch<'a> {
    group: &'a Group<Value>,
    counts: &'a Counts,
    jobs: Vec<Job<Value, Marked<'a>>>,
}

impl<'a> Model for Batch<'a> {
    ghost use Rattle.std.specs.Prelude.{◌≡◌, ◌≤◌, All, vec_len};

    ghost Value = { Unit {0} };

    ghost view = { λ _. tt };

    ghost invariant = { λ b. All (λ job. job.flight.group ≡ b.group.now) b.jobs.items
        × (1 ≤ vec_len b.jobs) × (vec_len b.jobs ≤ 64) };
}

fn abandon_all(mut jobs: Vec<Job<Value, Marked>>) {
    while let Some(job) = jobs.pop() {
        job.abandon();
    }
    jobs.destroy_empty();
}

impl<'a> Drop for Batch<'a> {
    fn drop(self) {
        let Batch {
            group: _,
            counts: _,
            jobs,
        } = self;
        abandon_all(jobs);
    }
}

// How the job ended.
fn say_end(served: Served<Value, Marked>, counts: &Counts, said: &mut String) {
    match served {
        Served::Done(caller, letter) => {
            counts.done.fetch_add(1, Ordering::SeqCst);
            say_letter(said, caller.number(), "did", &letter, letter.place());
        }
        Served::Held(settled) => settled.abandon(),
        Served::Left(job) => job.abandon(),
    }
    let _ = said.push_str("\n");
}

// How they ended, the last one first.
fn say_ends(alloc: Global, served: Vec<Served<Value, Marked>>, counts: &Counts) -> String {
    let mut list = served;
    let mut said = String::new(alloc);
    while let Some(one) = list.pop() {
        say_end(one, counts, &mut said);
    }
    list.destroy_empty();
    said
}

impl<'a> Batch<'a> {
    // Serves the jobs. How they ended, the last one first.
    fn serve<R: Abort + Threads + Wait + Sync>(
        self,
        rt: &R,
        alloc: Global,
        gate: &(impl Gate + Sync),
    ) -> String {
        let Self {
            group,
            counts,
            jobs,
        } = self;
        match serve(rt, alloc, group, gate, jobs) {
            Ok(list) => say_ends(alloc, list, counts),
            Err(Unserved { back }) => {
                abandon_all(back);
                panic!(rt; "no memory")
            }
        }
    }
}

// The last caller of the list leads a call of the place, and has this work.
fn next_job<'a>(
    rt: &(impl Abort + Wait),
    group: &Group<Value>,
    list: &mut Vec<Caller<Value>>,
    place: u32,
    work: Marked<'a>,
) -> Job<Value, Marked<'a>>
    requires own { All (λ c. c.group ≡ group.now) list.old.items }
    requires place { IsPlaceOf group.now place }
    ensures job { result.flight.group ≡ group.now }
    ensures rest { All (λ c. c.group ≡ group.now) list.new.items }
{
    let caller = next_caller(rt, group, list);
    match begin_wait(rt, group, caller, place) {
        Ok(Begun::Lead(flight)) => Job::new(flight, work),
        Ok(Begun::Join(ticket)) => {
            ticket.abandon();
            panic!(rt; "it joins")
        }
        Err(_) => panic!(rt; "it is spent"),
    }
}

#[test]
fn abandoned_job_is_not_done(rt: HostRuntime) -> Result<(), Fail> {
    let (group, mut list) = Group::<Value>::new(rt.alloc(), 1, 1, 1)?;
    let counts = Counts::new(1);
    next_job(&rt, &group, &mut list, 1, Marked(&counts, 1)).abandon();
    let runs = counts.runs.load(Ordering::SeqCst);
    assert!(rt; runs == 0, "it ran {runs} times");
    Ok(())
}

#[test]
fn job_gives_its_parts(rt: HostRuntime) -> Result<(), Fail> {
    let (group, mut list) = Group::<Value>::new(rt.alloc(), 1, 1, 1)?;
    let counts = Counts::new(1);
    let job = next_job(&rt, &group, &mut list, 1, Marked(&counts, 7));
    let (flight, Marked(_, value)) = job.into_parts();
    Job::new(flight, Marked(&counts, 8)).abandon();
    assert!(rt; value == 7, "its work is {value}");
    Ok(())
}

// Its first pass takes so long that a job that does not wait for it runs before.
#[derive(Drop)]
struct Slow<'a>(&'a Counts);

impl Gate for Slow<'_> {
    fn pass(&self, _job: u32) {
        for _ in 0..100 {
            yield_now();
        }
        self.0.passed.store(1, Ordering::SeqCst);
    }
}

// A job for each of the group's 64 places.
fn most_jobs<'a>(
    rt: &(impl Abort + Wait),
    alloc: Global,
    group: &'a Group<Value>,
    list: &mut Vec<Caller<Value>>,
    counts: &'a Counts,
) -> Result<Batch<'a>, Memory>
    requires own { All (λ c. c.group ≡ group.now) list.old.items }
    requires places { group.now.sizes.places ≡ 64 }
{
    let mut jobs = Vec::with_capacity(alloc, 64)?;
    for index in 0..64 {
        jobs.push_reserved(next_job(rt, group, list, index + 1, Marked(counts, 1)));
    }
    Ok(Batch {
        group,
        counts,
        jobs,
    })
}

// Of the most jobs, behind a slow gate, so many at least are done. Each ran once that is done, none other ran, and none before the
// gate was passed.
fn serve_most<R: Abort + Threads + Wait + Sync>(
    rt: &R,
    alloc: Global,
    least: u32,
) -> Result<(), Fail> {
    let (group, mut list) = Group::<Value>::new(alloc, 64, 64, 1)?;
    let counts = Counts::new(0);
    let batch = most_jobs(rt, alloc, &group, &mut list, &counts)?;
    batch.serve(rt, alloc, &Slow(&counts));
    let (done, runs, early) = counts.numbers();
    assert!(rt;
        done >= least && done == runs,
        "{done} are done by {runs} runs"
    );
    assert!(rt; early == 0, "{early} ran before the gate");
    Ok(())
}

#[test]
fn most_jobs_are_done_behind_the_gate(rt: HostRuntime) -> Result<(), Fail> {
    serve_most(&rt, rt.alloc(), 64)
}

// A job whose thread cannot be made is left, and does not run. `.ci/refused-memory` runs this where no thread can be made.
#[test]
fn jobs_without_a_thread_are_left(rt: HostRuntime) -> Result<(), Fail> {
    serve_most(&rt, rt.alloc(), 0)
}

// Job 1 passes once job 2 was answered. How often it passes, and the sum of the other numbers that pass, are counted.
#[derive(Drop)]
struct SecondFirst<'a, R> {
    stage: &'a Stage<'a, R>,
    first: AtomicU32,
    second: AtomicU32,
}

impl<R: Abort> Gate for SecondFirst<'_, R> {
    fn pass(&self, job: u32) {
        if job == 1 {
            self.first.fetch_add(1, Ordering::SeqCst);
            self.stage.wait_for("done");
        } else {
            self.second.fetch_add(job, Ordering::SeqCst);
        }
    }
}

// Jobs 1 and 2, in the room that there is for them.
fn two_jobs<'a>(
    group: &'a Group<Value>,
    counts: &'a Counts,
    mut jobs: Vec<Job<Value, Marked<'a>>>,
    first: Flight<Value>,
    second: Flight<Value>,
) -> Batch<'a>
    requires own { (first.group ≡ group.now) × (second.group ≡ group.now) }
    requires room { (vec_len jobs ≡ 0) × (2 ≤ vec_capacity jobs) }
{
    jobs.push_reserved(Job::new(first, Marked(counts, 1)));
    jobs.push_reserved(Job::new(second, Marked(counts, 2)));
    Batch {
        group,
        counts,
        jobs,
    }
}

// Takes the letter of job 2, whose channel caller 4 holds, and tells that.
fn take_second<'a, R: Abort + Wait>(stage: &Stage<R>, seat: Seat<'a>) -> Seat<'a> {
    let seat = seat.obey(stage, "wait: 4 got 3.1 with 2 joiners=0 shared=false");
    seat.obey(stage, "tell done")
}

// The end of job 2, and that of job 1.
const TWO_DONE: &str = "\
3 did 3.1 with 2 joiners=0 shared=false
1 did 1.1 with 1 joiners=0 shared=false
";

// The letter of job 2 comes while both are served.
fn serve_while_waiting<R: Abort + Threads + Wait + Sync>(
    stage: &Stage<R>,
    batch: Batch<'_>,
    second: Seat<'_>,
) {
    let gate = SecondFirst {
        stage,
        first: AtomicU32::new(0),
        second: AtomicU32::new(0),
    };
    let (_, said) = join(
        stage.rt,
        || take_second(stage, second),
        || batch.serve(stage.rt, stage.alloc, &gate),
    );
    assert!(stage.rt; said.as_str() == TWO_DONE, "{said}");
    let first = gate.first.load(Ordering::SeqCst);
    let second = gate.second.load(Ordering::SeqCst);
    assert!(stage.rt; first == 1 && second == 2, "{first} and {second} passed");
}

#[test]
fn gate_two_jobs(rt: HostRuntime) -> Result<(), Fail> {
    let (group, mut list) = Group::<Value>::new(rt.alloc(), 2, 4, 1)?;
    let jobs = Vec::with_capacity(rt.alloc(), 2)?;
    let stage = Stage::new(&rt, rt.alloc());
    let counts = Counts::new(1);
    let (flight, second) = lead_chan(&rt, &group, &mut list, 2);
    let (first_flight, first) = lead_chan(&rt, &group, &mut list, 1);
    let batch = two_jobs(&group, &counts, jobs, first_flight, flight);
    serve_while_waiting(&stage, batch, second);
    first.obey(&stage, "wait: 2 got 1.1 with 1 joiners=0 shared=false");
    Ok(())
}
