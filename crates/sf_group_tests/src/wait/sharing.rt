//! One group that several threads ask at once.
ghost use Rattle.std.specs.Prelude.{◌≡◌, All};
ghost use Rattle.sf_group_rows.specs.Same.{IsPlaceOf};

use crate::wait::callers::next_caller;
use crate::wait::scenes::play;
use crate::wait::seats::Seat;
use crate::wait::stage::Stage;
use crate::wait::value::Value;
use sf_dir::{Desk, Directory};
use sf_group::{CallId, Caller, Group, Letter, Memory};
use sf_wait::{DoFault, do_with};
use std::alloc::Global;
use std::marker::Model;
use std::process::Abort;
use std::sync::Wait;
use std::sync::atomic::{AtomicU32, Ordering};
use std::test::Fail;
use std::thread::{Threads, join, yield_now};

const PLACES: u32 = 8;

const DOS: u32 = 1_000;

// One of the callers of the group, with the count of all loads.
#[derive(Drop)]
struct Worker<'a> {
    group: &'a Group<Value>,
    caller: Caller<Value>,
    loads: &'a AtomicU32,
}

impl<'a> Model for Worker<'a> {
    ghost use Rattle.std.specs.Prelude.{◌≡◌};

    ghost Value = { Unit {0} };

    ghost view = { λ _. tt };

    ghost invariant = { λ w. w.caller.group ≡ w.group.now };
}

// Asks for the place. The caller's number is what its load answers. The load comes back where another's served it.
fn do_once(
    rt: &(impl Abort + Wait),
    group: &Group<Value>,
    caller: Caller<Value>,
    place: u32,
    loads: &AtomicU32,
) -> (Caller<Value>, Letter<Value>)
    requires own { caller.group ≡ group.now }
    requires place { IsPlaceOf group.now place }
    ensures { result.0.group ≡ group.now }
{
    let number = caller.number();
    let load = || {
        loads.fetch_add(1, Ordering::SeqCst);
        yield_now();
        Value::new(number, 0)
    };
    match do_with(rt, group, caller, place, load) {
        Ok((caller, letter, load)) => {
            let mine = load.is_none();
            drop(load);
            assert!(rt;
                mine == (letter.call().caller == number),
                "another's load is back"
            );
            (caller, letter)
        }
        Err(DoFault::Held(settled)) => {
            settled.abandon();
            panic!(rt; "caller {number} owes letters")
        }
        Err(DoFault::Spent(_, _)) => panic!(rt; "caller {number} is spent"),
    }
}

// The letter is of this place, and holds what its call's leader loaded; it is of the caller's own call of this
// generation, or of another's that is then shared.
fn is_due(letter: &Letter<Value>, place: u32, own: CallId) -> bool {
    let call = letter.call();
    letter.place() == place
        && letter.value().number == call.caller
        && (call == own || call.caller != own.caller && letter.shared())
}

impl<'a> Worker<'a> {
    // Asks 1,000 times, for one place after another. How often it led.
    fn work(self, rt: &(impl Abort + Wait)) -> u32 {
        let Self {
            group,
            caller,
            loads,
        } = self;
        let number = caller.number();
        let mut caller = caller;
        let mut led: u32 = 0;
        for done in 0..DOS {
            let place = done % PLACES + 1;
            if !group.has(place) {
                panic!(rt; "no place {place}");
            }
            let (back, letter) = do_once(rt, group, caller, place, loads);
            let own = CallId {
                caller: number,
                generation: done + 1,
            };
            assert!(rt; is_due(&letter, place, own), "a letter is wrong");
            led = led.wrapping_add((letter.call() == own) as u32);
            caller = back;
        }
        led
    }
}

fn next_worker<'a>(
    rt: &impl Abort,
    group: &'a Group<Value>,
    callers: &mut Vec<Caller<Value>>,
    loads: &'a AtomicU32,
) -> Worker<'a>
    requires { All (λ c. c.group ≡ group.now) callers.old.items }
    ensures { All (λ c. c.group ≡ group.now) callers.new.items }
{
    let caller = next_caller(rt, group, callers);
    Worker {
        group,
        caller,
        loads,
    }
}

// How often the two led.
fn work_at_once(
    rt: &(impl Abort + Threads + Wait + Sync),
    one: Worker<'_>,
    other: Worker<'_>,
) -> u32 {
    let (one, other) = join(rt, || one.work(rt), || other.work(rt));
    one.wrapping_add(other)
}

#[test]
fn four_threads_over_eight_places(rt: HostRuntime) -> Result<(), Fail> {
    let (group, mut callers) = Group::<Value>::new(rt.alloc(), PLACES, 4, 1)?;
    let loads = AtomicU32::new(0);
    let four = next_worker(&rt, &group, &mut callers, &loads);
    let three = next_worker(&rt, &group, &mut callers, &loads);
    let two = next_worker(&rt, &group, &mut callers, &loads);
    let one = next_worker(&rt, &group, &mut callers, &loads);
    let (led, more) = join(
        &rt,
        || work_at_once(&rt, one, two),
        || work_at_once(&rt, three, four),
    );
    let led = led.wrapping_add(more);
    let loads = loads.load(Ordering::SeqCst);
    assert!(rt; loads == led, "{loads} loads of {led} calls");
    Ok(())
}

// The place that the next desk finds for the key.
fn next_place(rt: &impl Abort, directory: &Directory, desks: &mut Vec<Desk>) -> u32
    requires { All (λ d. d.directory ≡ directory.now) desks.old.items }
    ensures { All (λ d. d.directory ≡ directory.now) desks.new.items }
{
    let Some(mut desk) = desks.pop() else {
        panic!(rt; "no more desks")
    };
    let Ok(place) = directory.resolve(&mut desk, b"key") else {
        panic!(rt; "no place")
    };
    place.number().number()
}

// The places that two desks of a directory find for the key.
fn two_places(rt: &impl Abort, alloc: Global) -> Result<(u32, u32), Memory> {
    let (directory, mut desks) = Directory::new(alloc, 4, 8, 2, 0, 0)?;
    let second = next_place(rt, &directory, &mut desks);
    let first = next_place(rt, &directory, &mut desks);
    Ok((first, second))
}

// The next caller sits at the place.
fn next_seat<'a>(
    rt: &impl Abort,
    group: &'a Group<Value>,
    list: &mut Vec<Caller<Value>>,
    place: u32,
) -> Seat<'a>
    requires { All (λ c. c.group ≡ group.now) list.old.items }
    ensures { All (λ c. c.group ≡ group.now) list.new.items }
{
    assert!(rt; group.has(place), "no place {place}");
    Seat::next(group, list, place)
}

#[test]
fn two_threads_one_load(rt: HostRuntime) -> Result<(), Fail> {
    let scene = "\
a do 7 once joined: 1 loaded 1.1 with 7 joiners=1 shared=true
b await led
b ask: joins 1.1
b wait: 2 got 1.1 with 7 joiners=1 shared=true
b loads: 1";
    let (first, second) = two_places(&rt, rt.alloc())?;
    let (group, mut list) = Group::<Value>::new(rt.alloc(), 4, 2, 1)?;
    let second = next_seat(&rt, &group, &mut list, second);
    let first = next_seat(&rt, &group, &mut list, first);
    play(&Stage::new(&rt, rt.alloc()), first, second, scene);
    Ok(())
}
