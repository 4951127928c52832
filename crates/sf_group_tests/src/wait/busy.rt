//! Forms that are busy beside another thread's, and ask again.
ghost use Rattle.std.specs.Prelude.{◌≡◌, All};
ghost use Rattle.sf_group_rows.specs.Same.{IsPlaceOf};

use crate::wait::callers::next_caller;
use sf_group::{Begun, CallId, Caller, ChanBegun, Finished, Flight, Forgotten, Group};
use sf_wait::{begin_wait, do_chan, forget_call_wait, forget_wait, wait};
use std::process::Abort;
use std::sync::Wait;
use std::sync::atomic::{AtomicU32, Ordering};
use std::test::Fail;
use std::thread::join;

// How often each thread asks.
const EACH: u32 = 2000;

// How many calls were led, and how many were closed.
#[derive(Drop)]
struct Counts {
    led: AtomicU32,
    closed: AtomicU32,
}

#[derive(Drop)]
struct Asker<'a> {
    group: &'a Group<()>,
    caller: Caller<()>,
    second: Caller<()>,
    counts: &'a Counts,
    ghost own: { caller.group ≡ group.now },
    ghost second_own: { second.group ≡ group.now },
    ghost placed: { IsPlaceOf group.now 1 },
}

// The leader is free again.
fn settle(rt: &impl Abort, group: &Group<()>, flight: Flight<()>, counts: &Counts) -> Caller<()>
    requires { flight.group ≡ group.now }
    ensures { result.group ≡ group.now }
{
    counts.led.fetch_add(1, Ordering::SeqCst);
    match group.finish(flight, ()) {
        Finished::Done(caller, _) => caller,
        Finished::Held(settled) => {
            settled.abandon();
            panic!(rt; "it owes letters")
        }
    }
}

// One asking, and the caller back.
fn ask(
    rt: &(impl Abort + Wait),
    group: &Group<()>,
    caller: Caller<()>,
    counts: &Counts,
) -> Caller<()>
    requires own { caller.group ≡ group.now }
    requires place { IsPlaceOf group.now 1 }
    ensures { result.group ≡ group.now }
{
    match begin_wait(rt, group, caller, 1) {
        Ok(Begun::Lead(flight)) => settle(rt, group, flight, counts),
        Ok(Begun::Join(ticket)) => wait(rt, group, ticket).0,
        Err(_) => panic!(rt; "one is spent"),
    }
}

// One asking with the second, and both back.
fn ask_both(
    rt: &(impl Abort + Wait),
    group: &Group<()>,
    caller: Caller<()>,
    second: Caller<()>,
    counts: &Counts,
) -> (Caller<()>, Caller<()>)
    requires own { caller.group ≡ group.now }
    requires second { second.group ≡ group.now }
    requires place { IsPlaceOf group.now 1 }
    ensures { (result.0.group ≡ group.now) × (result.1.group ≡ group.now) }
{
    match do_chan(rt, group, caller, second, 1) {
        Ok(ChanBegun::Led(flight, ticket)) => {
            let caller = settle(rt, group, flight, counts);
            (caller, wait(rt, group, ticket).0)
        }
        Ok(ChanBegun::Joined(ticket, caller)) => (caller, wait(rt, group, ticket).0),
        Err(_) => panic!(rt; "one is spent"),
    }
}

// The one forgets the place, and the other its own first call.
fn forget_both(
    rt: &impl Wait,
    group: &Group<()>,
    caller: &mut Caller<()>,
    second: &mut Caller<()>,
    counts: &Counts,
)
    requires own { caller.old.group ≡ group.now }
    requires second { second.old.group ≡ group.now }
    requires place { IsPlaceOf group.now 1 }
    ensures own { caller.new.group ≡ group.now }
    ensures second { second.new.group ≡ group.now }
{
    if matches!(forget_wait(rt, group, caller, 1), Forgotten::Closed(_)) {
        counts.closed.fetch_add(1, Ordering::SeqCst);
    }
    let call = CallId {
        caller: second.number(),
        generation: 1,
    };
    forget_call_wait(rt, group, second, 1, call);
}

impl<'a> Asker<'a> {
    // Each asking comes back.
    fn work(self, rt: &(impl Abort + Wait)) {
        let Self {
            group,
            mut caller,
            mut second,
            counts,
        } = self;
        for _ in 0..EACH {
            caller = ask(rt, group, caller, counts);
            (caller, second) = ask_both(rt, group, caller, second, counts);
            forget_both(rt, group, &mut caller, &mut second, counts);
        }
    }
}

fn next<'a>(
    rt: &impl Abort,
    group: &'a Group<()>,
    list: &mut Vec<Caller<()>>,
    counts: &'a Counts,
) -> Asker<'a>
    requires own { All (λ c. c.group ≡ group.now) list.old.items }
    requires place { IsPlaceOf group.now 1 }
    ensures { All (λ c. c.group ≡ group.now) list.new.items }
{
    let caller = next_caller(rt, group, list);
    let second = next_caller(rt, group, list);
    Asker {
        group,
        caller,
        second,
        counts,
    }
}

fn check_counts(rt: &impl Abort, counts: &Counts) {
    let led = counts.led.load(Ordering::SeqCst);
    let closed = counts.closed.load(Ordering::SeqCst);
    assert!(rt; led >= EACH && led <= 4 * EACH, "{led} led");
    assert!(rt; closed <= led, "{closed} of {led} are closed");
}

#[test]
fn forms_ask_again_where_they_are_busy(rt: HostRuntime) -> Result<(), Fail> {
    let (group, mut callers) = Group::<()>::new(rt.alloc(), 1, 4, 1)?;
    let counts = Counts {
        led: AtomicU32::new(0),
        closed: AtomicU32::new(0),
    };
    let one = next(&rt, &group, &mut callers, &counts);
    let two = next(&rt, &group, &mut callers, &counts);
    join(&rt, || one.work(&rt), || two.work(&rt));
    check_counts(&rt, &counts);
    Ok(())
}
