//! Workers that do jobs side by side.
ghost use Rattle.std.specs.Prelude.{◌≡◌, ◌≤◌, [], vec_len, vec_capacity, IfOk, IfErr, All};
ghost use Rattle.std.specs.Vec.Iter.{into_iter_items, into_iter_len};
ghost use Rattle.sf_wait.specs.Jobs.{HasRoom};
ghost use Rattle.sf_wait.specs.Served.{HasServed, ArePaired};

use crate::job::{Job, Work};
use crate::workers::{Gate, Served, Started, start};
use sf_group::Group;
use sf_group_rows::Fit;
use std::alloc::Global;
use std::marker::Model;
use std::sync::Wait;
use std::sync::atomic::AtomicU32;
use std::thread;
use std::thread::{Scope, Threads};
use std::vec::IntoIter;

/// The most jobs that are served at once.
pub const MOST_JOBS: usize = 64;

/// Memory for the list of answers is refused, and no job was started.
pub struct Unserved<V: Fit, W: Work<V>> {
    /// All jobs, as they were.
    pub back: Vec<Job<V, W>>,
}

// The jobs that are not started yet, all of the group, with room for their workers. Those that never are are given up.
struct Waiting<'a, V: Fit, W: Work<V>> {
    group: &'a Group<V>,
    jobs: IntoIter<Job<V, W>>,
    started: Vec<Started<V, W>>,
}

impl<'a, V: Fit, W: Work<V>> Model for Waiting<'a, V, W> {
    ghost use Rattle.std.specs.Prelude.{List, vec_len, vec_capacity};
    ghost use Rattle.std.specs.Vec.Iter.{into_iter_items, into_iter_len};
    ghost use Rattle.sf_wait.specs.Jobs.{JobValue, HasRoom};

    ghost Value = { List (JobValue V W) };

    ghost view = { λ w. into_iter_items w.jobs };

    ghost invariant = { λ w.
        HasRoom w.group.now (into_iter_items w.jobs) (into_iter_len w.jobs) (vec_len w.started)
        (vec_capacity w.started) };
}

impl<'a, V: Fit, W: Work<V>> Drop for Waiting<'a, V, W> {
    fn drop(self) {
        let Waiting {
            group: _,
            mut jobs,
            started,
        } = self;
        while let Some(job) = jobs.next() {
            job.abandon();
        }
        jobs.destroy_empty();
        drop(started);
    }
}

impl<'a, V: Fit, W: Work<V>> Waiting<'a, V, W> {
    fn parts(self) -> (&'a Group<V>, IntoIter<Job<V, W>>, Vec<Started<V, W>>)
        ensures jobs { into_iter_items result.1 ≡ self.entry }
        ensures room { HasRoom result.0.now (into_iter_items result.1) (into_iter_len result.1)
            (vec_len result.2) (vec_capacity result.2) }
    {
        let Self {
            group,
            jobs,
            started,
        } = self;
        (group, jobs, started)
    }
}

fn start_all<'s, E, V: Fit + Send + 's, W: Work<V> + Send + 's, G: Gate + Sync>(
    scope: &Scope<'s, E>,
    gate: &'s G,
    left: &'s AtomicU32,
    waiting: Waiting<'s, V, W>,
) -> Vec<Started<V, W>>
    ensures { result.items ≡ waiting.entry }
{
    let (group, mut jobs, mut started) = waiting.parts();
    let mut number = 0;
    while let Some(job) = jobs.next() {
        number += 1;
        started.push_reserved(start(scope, gate, number, left, group, job));
    }
    jobs.destroy_empty();
    started
}

// Starts the workers, and waits until all are done.
fn serve_beside<'a, V: Fit + Send, W: Work<V> + Send, G: Gate + Sync, R: Threads + Wait>(
    rt: &R,
    gate: &G,
    waiting: Waiting<'a, V, W>,
) -> Vec<Started<V, W>>
    ensures { result.items ≡ waiting.entry }
{
    let left = AtomicU32::new(0);
    let refused = &left;
    thread::scope(
        thread::scope_env(),
        rt,
        |scope| -> Vec<Started<V, W>>
            ensures { result.items ≡ waiting.entry }
        { start_all(scope, gate, refused, waiting) },
    )
}

fn join_all<V: Fit, W: Work<V>, R: Threads>(
    rt: &R,
    started: Vec<Started<V, W>>,
    mut list: Vec<Served<V, W>>,
) -> Vec<Served<V, W>>
    requires room { (list.items ≡ []) × (vec_len list ≡ 0) × (vec_len started ≤ vec_capacity list) }
    ensures { ArePaired (HasServed V.fits W.answers) started.items result.items }
{
    for one in started {
        list.push_reserved(one.join(rt));
    }
    list
}

/// Does the jobs, 1 to 64, each by a worker of its own, and answers how each ended, in their order.
pub fn serve<V: Fit + Send, W: Work<V> + Send, G: Gate + Sync, R: Threads + Wait>(
    rt: &R,
    alloc: Global,
    group: &Group<V>,
    gate: &G,
    jobs: Vec<Job<V, W>>,
) -> Result<Vec<Served<V, W>>, Unserved<V, W>>
    requires own { All (λ job. job.flight.group ≡ group.now) jobs.items }
    requires number { (1 ≤ vec_len jobs) × (vec_len jobs ≤ MOST_JOBS) }
    ensures served { IfOk result (λ list.
        ArePaired (HasServed V.fits W.answers) jobs.items list.items) }
    ensures back { IfErr result (λ refused. refused.back ≡ jobs) }
{
    let Ok(started) = Vec::with_capacity(alloc, jobs.len()) else {
        return Err(Unserved { back: jobs });
    };
    let Ok(list) = Vec::with_capacity(alloc, jobs.len()) else {
        return Err(Unserved { back: jobs });
    };
    let waiting = Waiting {
        group,
        jobs: jobs.into_iter(),
        started,
    };
    let started = serve_beside(rt, gate, waiting);
    Ok(join_all(rt, started, list))
}
