//! Callers of a group: what they ask, settle and forget, alone and side by side.
ghost use Rattle.std.specs.Prelude.{◌≡◌, ◌≤◌, All, IfOk};
ghost use Rattle.sf_group_rows.specs.Same.{IsPlaceOf};

use crate::benchmark::Benchmark;
use crate::fault::Fault;
use crate::rounds::{Operation, Worker, measure, measure_one};
use crate::table::{Case, Table};
use sf_group::{
    Begun, Caller, Finished, Fit, Flight, Group, Letter, MOST_TRIES, Memory, NotBegun, Polled,
    Share, Ticket,
};
use sf_wait::{DoFault, do_with};
use std::alloc::Global;
use std::sync::Wait;
use std::thread::Threads;
use std::time::Clock;

// What calls are settled with.
#[derive(Clone, Copy)]
struct Number(u32);

impl Share for Number {
    fn share(&mut self) -> Result<Self, Memory> {
        Ok(*self)
    }
}

impl Fit for Number {
    ghost lasts = { λ _ _ _ _ _ f. f };
}

// A caller, and the place that it asks for.
#[derive(Drop)]
struct Asker<'a> {
    group: &'a Group<Number>,
    caller: Caller<Number>,
    place: u32,
    ghost own: { caller.group ≡ group.now },
    ghost placed: { IsPlaceOf group.now place },
}

// A caller that was refused is let go.
fn refused(refused: NotBegun<Caller<Number>>) -> Fault {
    match refused {
        NotBegun::Spent(caller) | NotBegun::Busy(_, caller) => drop(caller),
    }
    Fault::Refused
}

// Leads a new call.
fn lead_new(
    group: &Group<Number>,
    caller: Caller<Number>,
    place: u32,
) -> Result<Flight<Number>, Fault>
    requires own { caller.group ≡ group.now }
    requires place { IsPlaceOf group.now place }
    ensures { IfOk result (λ flight. flight.group ≡ group.now) }
{
    match group.begin(caller, place, MOST_TRIES) {
        Ok(Begun::Lead(flight)) => Ok(flight),
        Ok(Begun::Join(ticket)) => {
            ticket.abandon();
            Err(Fault::Refused)
        }
        Err(not_begun) => Err(refused(not_begun)),
    }
}

// Settles the call.
fn settle(
    group: &Group<Number>,
    flight: Flight<Number>,
) -> Result<(Caller<Number>, Letter<Number>), Fault>
    requires { flight.group ≡ group.now }
    ensures { IfOk result (λ done. (done.0.group ≡ group.now) × (done.1.group ≡ group.now)) }
{
    match group.finish(flight, Number(1)) {
        Finished::Done(caller, letter) => Ok((caller, letter)),
        Finished::Held(settled) => {
            settled.abandon();
            Err(Fault::Memory)
        }
    }
}

// Joins the open call.
fn join_open(
    group: &Group<Number>,
    caller: Caller<Number>,
    place: u32,
) -> Result<Ticket<Number>, Fault>
    requires own { caller.group ≡ group.now }
    requires place { IsPlaceOf group.now place }
    ensures { IfOk result (λ ticket. ticket.group ≡ group.now) }
{
    match group.begin(caller, place, MOST_TRIES) {
        Ok(Begun::Join(ticket)) => Ok(ticket),
        Ok(Begun::Lead(flight)) => {
            flight.abandon();
            Err(Fault::Refused)
        }
        Err(not_begun) => Err(refused(not_begun)),
    }
}

// Takes the letter of the call, which is settled.
fn collect(group: &Group<Number>, ticket: Ticket<Number>) -> Result<Caller<Number>, Fault>
    requires { ticket.group ≡ group.now }
    ensures { IfOk result (λ caller. caller.group ≡ group.now) }
{
    match group.poll(ticket) {
        Polled::Ready(caller, letter) => {
            drop(letter);
            Ok(caller)
        }
        Polled::Pending(ticket) => {
            ticket.abandon();
            Err(Fault::Refused)
        }
    }
}

// A caller that leads a call and settles it.
#[derive(Drop)]
struct Lead<'a>(Asker<'a>);

impl<'a> Operation for Lead<'a> {
    fn once<R: Wait>(self, _rt: &R) -> Result<Self, Fault> {
        let Lead(
            Asker {
                group,
                caller,
                place,
            },
        ) = self;
        // Taken apart here: `lead_new` and `settle` would move the flight once more, which this row would count.
        let caller = match group.begin(caller, place, MOST_TRIES) {
            Ok(Begun::Lead(flight)) => match group.finish(flight, Number(1)) {
                Finished::Done(caller, _) => caller,
                Finished::Held(settled) => {
                    settled.abandon();
                    return Err(Fault::Memory);
                }
            },
            Ok(Begun::Join(ticket)) => {
                ticket.abandon();
                return Err(Fault::Refused);
            }
            Err(not_begun) => return Err(refused(not_begun)),
        };
        Ok(Lead(Asker {
            group,
            caller,
            place,
        }))
    }
}

// A caller that leads a call, and another that joins it and collects its letter.
#[derive(Drop)]
struct Join<'a> {
    group: &'a Group<Number>,
    leader: Caller<Number>,
    joiner: Caller<Number>,
    place: u32,
    ghost leads: { leader.group ≡ group.now },
    ghost joins: { joiner.group ≡ group.now },
    ghost placed: { IsPlaceOf group.now place },
}

impl<'a> Operation for Join<'a> {
    fn once<R: Wait>(self, _rt: &R) -> Result<Self, Fault> {
        let Join {
            group,
            leader,
            joiner,
            place,
        } = self;
        let flight = lead_new(group, leader, place)?;
        let ticket = match join_open(group, joiner, place) {
            Ok(ticket) => ticket,
            Err(fault) => {
                flight.abandon();
                return Err(fault);
            }
        };
        let leader = match settle(group, flight) {
            Ok((leader, _)) => leader,
            Err(fault) => {
                ticket.abandon();
                return Err(fault);
            }
        };
        let joiner = collect(group, ticket)?;
        Ok(Join {
            group,
            leader,
            joiner,
            place,
        })
    }
}

// A caller that forgets a place which has no open call.
#[derive(Drop)]
struct ForgetIdle<'a>(Asker<'a>);

impl<'a> Operation for ForgetIdle<'a> {
    fn once<R: Wait>(self, _rt: &R) -> Result<Self, Fault> {
        let ForgetIdle(
            Asker {
                group,
                mut caller,
                place,
            },
        ) = self;
        if group.forget(&mut caller, place, MOST_TRIES).is_err() {
            return Err(Fault::Refused);
        }
        Ok(ForgetIdle(Asker {
            group,
            caller,
            place,
        }))
    }
}

// A caller that leads a call and settles it, and another that forgets it meanwhile.
#[derive(Drop)]
struct ForgetOpen<'a> {
    asker: Asker<'a>,
    purger: Caller<Number>,
    ghost own: { purger.group ≡ asker.group.now },
}

impl<'a> Operation for ForgetOpen<'a> {
    fn once<R: Wait>(self, _rt: &R) -> Result<Self, Fault> {
        let ForgetOpen { asker, mut purger } = self;
        let Asker {
            group,
            caller,
            place,
        } = asker;
        let flight = lead_new(group, caller, place)?;
        if group.forget(&mut purger, place, MOST_TRIES).is_err() {
            flight.abandon();
            return Err(Fault::Refused);
        }
        let (caller, letter) = settle(group, flight)?;
        drop(letter);
        let asker = Asker {
            group,
            caller,
            place,
        };
        Ok(ForgetOpen { asker, purger })
    }
}

// A caller that asks whether its letter's call is current, which it is.
#[derive(Drop)]
struct Current<'a> {
    asker: Asker<'a>,
    letter: Letter<Number>,
    ghost own: { letter.group ≡ asker.group.now },
}

impl<'a> Operation for Current<'a> {
    fn once<R: Wait>(self, _rt: &R) -> Result<Self, Fault> {
        let Current { asker, mut letter } = self;
        let Asker {
            group,
            mut caller,
            place,
        } = asker;
        if !group.is_current(&mut caller, &mut letter) {
            return Err(Fault::Refused);
        }
        let asker = Asker {
            group,
            caller,
            place,
        };
        Ok(Current { asker, letter })
    }
}

// A caller that does with a load that answers at once.
#[derive(Drop)]
struct Do<'a>(Asker<'a>);

impl<'a> Operation for Do<'a> {
    fn once<R: Wait>(self, rt: &R) -> Result<Self, Fault> {
        let Do(
            Asker {
                group,
                caller,
                place,
            },
        ) = self;
        match do_with(rt, group, caller, place, || Number(1)) {
            Ok((caller, letter, load)) => {
                drop(letter);
                drop(load);
                Ok(Do(Asker {
                    group,
                    caller,
                    place,
                }))
            }
            Err(DoFault::Spent(caller, load)) => {
                drop(caller);
                drop(load);
                Err(Fault::Refused)
            }
            Err(DoFault::Held(settled)) => {
                settled.abandon();
                Err(Fault::Memory)
            }
        }
    }
}

// The places of each group.
const PLACES: u32 = 1_024;

// The most threads of a group.
const MOST_THREADS: usize = 4;

// From the place of one thread to that of the next, so that no two of their words share a cache line.
const APART: u32 = 256;

// The next caller, which asks for this place.
fn next_asker<'a>(
    group: &'a Group<Number>,
    callers: &mut Vec<Caller<Number>>,
    place: u32,
) -> Result<Asker<'a>, Fault>
    requires own { All (λ c. c.group ≡ group.now) callers.old.items }
    requires place { IsPlaceOf group.now place }
    ensures rest { All (λ c. c.group ≡ group.now) callers.new.items }
    ensures asker { IfOk result (λ asker. asker.group ≡ group.entry) }
{
    match callers.pop() {
        Some(caller) => Ok(Asker {
            group,
            caller,
            place,
        }),
        None => Err(Fault::Refused),
    }
}

// What it costs to lead a call and settle it.
pub(crate) fn measure_lead<R>(rt: &R, table: &Table) -> Result<(), Fault>
where
    R: AllocGlobal + Print + Wait + Threads + Clock + Sync,
{
    let alloc = rt.alloc();
    let (group, mut callers) = Group::<Number>::new(alloc, PLACES, 1, 1)?;
    let asker = next_asker(&group, &mut callers, 1)?;
    let times = measure_one(rt, alloc, Lead(asker))?;
    let case = Case {
        benchmark: Benchmark::Lead,
        detail: "begin, finish",
        threads: 1,
    };
    table.row(rt, case, times)
}

// What it costs to lead a call, join it, settle it and collect the joiner's letter.
pub(crate) fn measure_join<R>(rt: &R, table: &Table) -> Result<(), Fault>
where
    R: AllocGlobal + Print + Wait + Threads + Clock + Sync,
{
    let alloc = rt.alloc();
    let (group, mut callers) = Group::<Number>::new(alloc, PLACES, 2, 1)?;
    let leader = next_asker(&group, &mut callers, 1)?;
    let joiner = next_asker(&group, &mut callers, 1)?;
    let join = Join {
        group: &group,
        leader: leader.caller,
        joiner: joiner.caller,
        place: 1,
    };
    let times = measure_one(rt, alloc, join)?;
    let case = Case {
        benchmark: Benchmark::Join,
        detail: "begin, begin, finish, poll",
        threads: 1,
    };
    table.row(rt, case, times)
}

// What it costs to forget a place: one with no open call, and one whose call is led and settled.
pub(crate) fn measure_forget<R>(rt: &R, table: &Table) -> Result<(), Fault>
where
    R: AllocGlobal + Print + Wait + Threads + Clock + Sync,
{
    let alloc = rt.alloc();
    let (group, mut callers) = Group::<Number>::new(alloc, PLACES, 3, 1)?;
    let idle = next_asker(&group, &mut callers, 1)?;
    let asker = next_asker(&group, &mut callers, 1)?;
    let purger = next_asker(&group, &mut callers, 1)?.caller;
    let times = measure_one(rt, alloc, ForgetIdle(idle))?;
    let case = Case {
        benchmark: Benchmark::Forget,
        detail: "no open call",
        threads: 1,
    };
    table.row(rt, case, times)?;
    let times = measure_one(rt, alloc, ForgetOpen { asker, purger })?;
    let case = Case {
        benchmark: Benchmark::Forget,
        detail: "begin, forget, finish",
        threads: 1,
    };
    table.row(rt, case, times)
}

// What it costs to ask whether a letter's call is current.
pub(crate) fn measure_current<R>(rt: &R, table: &Table) -> Result<(), Fault>
where
    R: AllocGlobal + Print + Wait + Threads + Clock + Sync,
{
    let alloc = rt.alloc();
    let (group, mut callers) = Group::<Number>::new(alloc, PLACES, 1, 1)?;
    let caller = next_asker(&group, &mut callers, 1)?.caller;
    let flight = lead_new(&group, caller, 1)?;
    let (caller, letter) = settle(&group, flight)?;
    let asker = Asker {
        group: &group,
        caller,
        place: 1,
    };
    let times = measure_one(rt, alloc, Current { asker, letter })?;
    let case = Case {
        benchmark: Benchmark::Current,
        detail: "is_current, yes",
        threads: 1,
    };
    table.row(rt, case, times)
}

// A worker for each caller, on a place of its own or all on one.
fn doers<'a>(
    alloc: Global,
    group: &'a Group<Number>,
    callers: Vec<Caller<Number>>,
    is_hot: bool,
) -> Result<Vec<Worker<Do<'a>>>, Fault>
    requires own { All (λ c. c.group ≡ group.now) callers.items }
    requires places { PLACES ≤ group.now.sizes.places }
{
    let mut callers = callers;
    let mut workers = Vec::with_capacity(alloc, callers.len())?;
    'hand: while let Some(caller) = callers.pop() {
        let index = (callers.len() % MOST_THREADS) as u32;
        workers.push_reserved(Ok(Do(Asker {
            group,
            caller,
            place: if is_hot { 1 } else { 1 + APART * index },
        })));
    }
    Ok(workers)
}

// Measures do on so many threads.
fn side_by_side<R>(rt: &R, table: &Table, case: Case) -> Result<(), Fault>
where
    R: AllocGlobal + Print + Wait + Threads + Clock + Sync,
    requires { (1 ≤ case.threads) × (case.threads ≤ MOST_THREADS) }
{
    let alloc = rt.alloc();
    let (group, callers) = Group::<Number>::new(alloc, PLACES, case.threads, 1)?;
    let is_hot = case.benchmark == Benchmark::Hot;
    let times = measure(rt, doers(alloc, &group, callers, is_hot)?)?;
    table.row(rt, case, times)
}

// Measures do on one, two and four threads.
fn at_all_threads<R>(
    rt: &R,
    table: &Table,
    benchmark: Benchmark,
    detail: &'static str,
) -> Result<(), Fault>
where
    R: AllocGlobal + Print + Wait + Threads + Clock + Sync,
{
    let case = Case {
        benchmark,
        detail,
        threads: 1,
    };
    side_by_side(rt, table, case)?;
    side_by_side(rt, table, Case { threads: 2, ..case })?;
    side_by_side(rt, table, Case { threads: 4, ..case })
}

// What a do costs where each thread has a place of its own.
pub(crate) fn measure_distinct<R>(rt: &R, table: &Table) -> Result<(), Fault>
where
    R: AllocGlobal + Print + Wait + Threads + Clock + Sync,
{
    at_all_threads(rt, table, Benchmark::Distinct, "do_with, a key a thread")
}

// What a do costs where all threads have one place.
pub(crate) fn measure_hot<R>(rt: &R, table: &Table) -> Result<(), Fault>
where
    R: AllocGlobal + Print + Wait + Threads + Clock + Sync,
{
    at_all_threads(rt, table, Benchmark::Hot, "do_with, one key")
}
