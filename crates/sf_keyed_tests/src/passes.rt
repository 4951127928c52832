//! Passes of a group that has grown, and callers with no other's help.
ghost use Rattle.std.specs.Prelude.{◌≡◌};

use crate::tests::{ADA, BOB, MEETING, TRIES, claims, lead, takes, tells_two};
use sf_keyed::{Asked, Flight, Forgotten, Front, KeyedGroup, Name, Passed, Refusal, Settled};
use std::test::Fail;

fn is_gone(group: &KeyedGroup, me: &mut Front, name: Name) -> bool
    requires { me.old.group ≡ group.now }
    ensures { me.new.group ≡ group.now }
{
    match group.pass(me, name, TRIES) {
        Passed::Gone => true,
        Passed::Joined(ticket) => {
            group.leave(me, ticket);
            false
        }
        Passed::Busy => false,
        Passed::Crowded => false,
    }
}

fn is_sealed(group: &KeyedGroup, me: &mut Front, name: Name) -> bool
    requires { me.old.group ≡ group.now }
    ensures { me.new.group ≡ group.now }
{
    match group.ask(me, name, TRIES) {
        Asked::Refused(Refusal::Sealed) => true,
        Asked::Refused(_) => false,
        Asked::Joined(ticket) => {
            group.leave(me, ticket);
            false
        }
        Asked::Led(flight) => {
            group.settle(me, flight, 0);
            false
        }
    }
}

// Whether both names are passed, and no call is led at their slot.
fn are_gone(group: &KeyedGroup, me: &mut Front) -> bool
    requires { me.old.group ≡ group.now }
    ensures { me.new.group ≡ group.now }
{
    is_gone(group, me, ADA)
        && is_sealed(group, me, ADA)
        && is_sealed(group, me, BOB)
        && is_gone(group, me, ADA)
        && is_gone(group, me, BOB)
}

#[test]
fn a_slot_that_was_passed_has_no_more_calls(rt: HostRuntime) -> Result<(), Fail> {
    let (group, mut me) = KeyedGroup::new(rt.alloc(), MEETING)?;
    assert!(rt; claims(&group, &mut me, 0));
    assert!(rt; group.forget(&mut me, ADA, TRIES) == Forgotten::Nothing);
    assert!(rt; are_gone(&group, &mut me));
    assert!(rt; group.forget(&mut me, ADA, TRIES) == Forgotten::Gone);
    Ok(())
}

// Whether the other's pass joins the call, and the other has its value once it is settled.
fn is_joined(group: &KeyedGroup, me: &mut Front, other: &mut Front, flight: Flight) -> bool
    requires fronts { (me.old.group ≡ group.now) × (other.old.group ≡ group.now) }
    requires flight { flight.group ≡ group.now }
    ensures { (me.new.group ≡ group.now) × (other.new.group ≡ group.now) }
{
    let Passed::Joined(ticket) = group.pass(other, ADA, TRIES) else {
        return false;
    };
    if !tells_two(group, me, flight, 5) {
        return false;
    }
    takes(group, other, ticket, 5)
}

#[test]
fn a_pass_joins_the_open_call(rt: HostRuntime) -> Result<(), Fail> {
    let (group, mut me) = KeyedGroup::new(rt.alloc(), MEETING)?;
    assert!(rt; claims(&group, &mut me, 0));
    let Some(flight) = lead(&group, &mut me, ADA) else {
        panic!(rt; "nobody leads");
    };
    let mut other = group.enter(7);
    assert!(rt; is_gone(&group, &mut other, BOB));
    assert!(rt; is_joined(&group, &mut me, &mut other, flight));
    assert!(rt; is_gone(&group, &mut other, ADA) && is_sealed(&group, &mut me, ADA));
    Ok(())
}

// Settles the call, which nobody joined. Whether its leader is told that a Forget had closed it.
fn tells_of_a_forget(group: &KeyedGroup, me: &mut Front, flight: Flight) -> bool
    requires { (me.old.group ≡ group.now) × (flight.group ≡ group.now) }
    ensures { me.new.group ≡ group.now }
{
    match group.settle(me, flight, 5) {
        Settled::Told(ticket, on) => {
            group.leave(me, ticket);
            on.forgotten && !on.joined
        }
        Settled::Alone => false,
    }
}

// Whether a Forget of the one name closes this call once the other is passed, and the one is passed then.
fn closes_at_a_seal(group: &KeyedGroup, me: &mut Front, call: u64) -> bool
    requires { me.old.group ≡ group.now }
    ensures { me.new.group ≡ group.now }
{
    is_gone(group, me, BOB)
        && group.forget(me, ADA, TRIES) == Forgotten::Closed(call)
        && is_gone(group, me, ADA)
}

#[test]
fn a_forget_closes_a_call_at_a_sealed_slot(rt: HostRuntime) -> Result<(), Fail> {
    let (group, mut me) = KeyedGroup::new(rt.alloc(), MEETING)?;
    assert!(rt; claims(&group, &mut me, 0));
    let Some(flight) = lead(&group, &mut me, ADA) else {
        panic!(rt; "nobody leads");
    };
    assert!(rt; closes_at_a_seal(&group, &mut me, flight.call()));
    assert!(rt; tells_of_a_forget(&group, &mut me, flight));
    Ok(())
}
