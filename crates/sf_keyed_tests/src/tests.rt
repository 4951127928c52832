ghost use Rattle.std.specs.Prelude.{◌≡◌, IfSome};

use sf_keyed::{
    Asked, Claim, Ended, Flight, Forgotten, Front, KeyedGroup, KeyedSizes, Name, Refusal, Settled,
    Ticket,
};
use std::test::Fail;

pub(crate) const TRIES: u32 = 10;

pub(crate) const ADA: Name = Name { low: 1, high: 3 };

pub(crate) const BOB: Name = Name { low: 2, high: 3 };

// One hash slot, so that all names meet.
pub(crate) const MEETING: KeyedSizes = KeyedSizes {
    tops: 1,
    sides: 16,
    cells: 32,
    low_seed: 0x9E37_79B9_7F4A_7C15,
    high_seed: 0xC2B2_AE3D_27D4_EB4F,
};

pub(crate) fn lead(group: &KeyedGroup, me: &mut Front, name: Name) -> Option<Flight>
    requires { me.old.group ≡ group.now }
    ensures own { me.new.group ≡ group.now }
    ensures flight { IfSome result (λ flight. flight.group ≡ group.now) }
{
    match group.ask(me, name, TRIES) {
        Asked::Led(flight) => Some(flight),
        Asked::Joined(ticket) => {
            group.leave(me, ticket);
            None
        }
        Asked::Refused(_) => None,
    }
}

fn join(group: &KeyedGroup, me: &mut Front, name: Name) -> Option<Ticket>
    requires { me.old.group ≡ group.now }
    ensures own { me.new.group ≡ group.now }
    ensures ticket { IfSome result (λ ticket. ticket.group ≡ group.now) }
{
    match group.ask(me, name, TRIES) {
        Asked::Joined(ticket) => Some(ticket),
        Asked::Led(flight) => {
            group.settle(me, flight, 0);
            None
        }
        Asked::Refused(_) => None,
    }
}

// Leads a call of the name and settles it. Returns whether nobody else had to do with it.
fn leads_alone(group: &KeyedGroup, me: &mut Front, name: Name) -> bool
    requires { me.old.group ≡ group.now }
    ensures { me.new.group ≡ group.now }
{
    match lead(group, me, name) {
        Some(flight) => matches!(group.settle(me, flight, 7), Settled::Alone),
        None => false,
    }
}

// Whether the caller has a spare cell then.
pub(crate) fn claims(group: &KeyedGroup, me: &mut Front, cell: u64) -> bool
    requires { me.old.group ≡ group.now }
    ensures { me.new.group ≡ group.now }
{
    group.claim(me, cell) == Claim::Ready
}

// Leads a call of the name with this number, and leaves it open. Returns whether it led.
fn leaves_open(group: &KeyedGroup, me: &mut Front, n: u64) -> bool
    requires { me.old.group ≡ group.now }
    ensures { me.new.group ≡ group.now }
{
    claims(group, me, n) && lead(group, me, Name { low: n, high: 0 }).is_some()
}

// Leaves four calls open, from the name with this number on.
fn leaves_four_open(group: &KeyedGroup, me: &mut Front, n: u8) -> bool
    requires { me.old.group ≡ group.now }
    ensures { me.new.group ≡ group.now }
{
    let n = n as u64;
    leaves_open(group, me, n)
        && leaves_open(group, me, n + 1)
        && leaves_open(group, me, n + 2)
        && leaves_open(group, me, n + 3)
}

#[test]
fn one_leads_again_and_again(rt: HostRuntime) -> Result<(), Fail> {
    let (group, mut me) = KeyedGroup::new(rt.alloc(), MEETING)?;
    assert!(rt;
        matches!(
            group.ask(&mut me, ADA, TRIES),
            Asked::Refused(Refusal::NoCell)
        )
    );
    assert!(rt; claims(&group, &mut me, 0));
    assert!(rt; leads_alone(&group, &mut me, ADA));
    assert!(rt; claims(&group, &mut me, 5) && leads_alone(&group, &mut me, ADA));
    assert!(rt; leads_alone(&group, &mut me, BOB));
    Ok(())
}

// The ticket, of a call that is not settled yet.
fn waits(group: &KeyedGroup, me: &mut Front, ticket: Ticket) -> Option<Ticket>
    requires { (me.old.group ≡ group.now) × (ticket.group ≡ group.now) }
    ensures own { me.new.group ≡ group.now }
    ensures ticket { IfSome result (λ ticket. ticket.group ≡ group.now) }
{
    match group.take(me, ticket) {
        Ok(_) => None,
        Err(back) => Some(back),
    }
}

// Whether the call was settled with this value.
pub(crate) fn takes(group: &KeyedGroup, me: &mut Front, ticket: Ticket, due: u64) -> bool
    requires { (me.old.group ≡ group.now) × (ticket.group ≡ group.now) }
    ensures { me.new.group ≡ group.now }
{
    match group.take(me, ticket) {
        Ok(value) => value == due,
        Err(_) => false,
    }
}

// Settles the call. Whether its value is told to two, of whom one joined, and no Forget had closed it.
pub(crate) fn tells_two(group: &KeyedGroup, me: &mut Front, flight: Flight, value: u64) -> bool
    requires { (me.old.group ≡ group.now) × (flight.group ≡ group.now) }
    ensures { me.new.group ≡ group.now }
{
    match group.settle(me, flight, value) {
        Settled::Told(mine, on) => {
            group.leave(me, mine);
            on.joined && !on.forgotten && on.holders == 2
        }
        Settled::Alone => false,
    }
}

// Whether the other joins a call, waits while it is open, and has its value then.
fn joins_and_takes(group: &KeyedGroup, me: &mut Front, other: &mut Front) -> bool
    requires { (me.old.group ≡ group.now) × (other.old.group ≡ group.now) }
    ensures { (me.new.group ≡ group.now) × (other.new.group ≡ group.now) }
{
    let Some(flight) = lead(group, me, ADA) else {
        return false;
    };
    let Some(ticket) = join(group, other, ADA) else {
        return false;
    };
    let Some(ticket) = waits(group, other, ticket) else {
        return false;
    };
    if !tells_two(group, me, flight, 7) {
        return false;
    }
    takes(group, other, ticket, 7)
}

#[test]
fn who_joins_gets_the_value_once_it_is_there(rt: HostRuntime) -> Result<(), Fail> {
    let (group, mut me) = KeyedGroup::new(rt.alloc(), MEETING)?;
    let mut other = group.another(&mut me, 1);
    assert!(rt; claims(&group, &mut me, 0));
    assert!(rt; joins_and_takes(&group, &mut me, &mut other));
    // The cell is free again.
    assert!(rt; claims(&group, &mut other, 0));
    Ok(())
}

#[test]
fn a_slot_has_seventeen_open_calls(rt: HostRuntime) -> Result<(), Fail> {
    let (group, mut me) = KeyedGroup::new(rt.alloc(), MEETING)?;
    assert!(rt; leaves_four_open(&group, &mut me, 0) && leaves_four_open(&group, &mut me, 4));
    assert!(rt; leaves_four_open(&group, &mut me, 8) && leaves_four_open(&group, &mut me, 12));
    assert!(rt; leaves_open(&group, &mut me, 16) && claims(&group, &mut me, 17));
    let last = Name { low: 17, high: 0 };
    assert!(rt;
        matches!(
            group.ask(&mut me, last, TRIES),
            Asked::Refused(Refusal::Full)
        )
    );
    Ok(())
}

#[test]
fn a_cell_in_use_is_passed_over(rt: HostRuntime) -> Result<(), Fail> {
    let (group, mut me) = KeyedGroup::new(rt.alloc(), MEETING)?;
    let mut other = group.another(&mut me, 1);
    assert!(rt; group.claim(&mut me, 3) == Claim::Ready);
    assert!(rt; group.claim(&mut other, 3) == Claim::InUse);
    assert!(rt; group.claim(&mut other, 4 + 32) == Claim::Ready);
    Ok(())
}

// What a Forget of this call of the name finds.
fn forgets(group: &KeyedGroup, me: &mut Front, name: Name, call: u64) -> Ended
    requires { me.old.group ≡ group.now }
    ensures { me.new.group ≡ group.now }
{
    group.forget_call(me, name, call, TRIES)
}

// Whether a Forget finds the open call by its name and number, and else nothing.
fn closes(group: &KeyedGroup, me: &mut Front, call: u64) -> bool
    requires { me.old.group ≡ group.now }
    ensures { me.new.group ≡ group.now }
{
    forgets(group, me, BOB, call) == Ended::Gone
        && forgets(group, me, ADA, 0) == Ended::Gone
        && forgets(group, me, ADA, call) == Ended::Closed
}

// Whether another caller joins this call of the name.
fn is_open(group: &KeyedGroup, me: &mut Front, name: Name, call: u64) -> bool
    requires { me.old.group ≡ group.now }
    ensures { me.new.group ≡ group.now }
{
    let mut other = group.another(me, 1);
    let Some(ticket) = join(group, &mut other, name) else {
        return false;
    };
    let joined = ticket.call();
    group.leave(&mut other, ticket);
    joined == call
}

#[test]
fn a_forget_of_one_call_leaves_the_next_open(rt: HostRuntime) -> Result<(), Fail> {
    let (group, mut me) = KeyedGroup::new(rt.alloc(), MEETING)?;
    assert!(rt; claims(&group, &mut me, 0));
    let Some(first) = lead(&group, &mut me, ADA) else {
        panic!(rt; "no call of the name was open")
    };
    let old = first.call();
    assert!(rt; closes(&group, &mut me, old) && claims(&group, &mut me, 1));
    let Some(second) = lead(&group, &mut me, ADA) else {
        panic!(rt; "the name's call was closed")
    };
    assert!(rt; forgets(&group, &mut me, ADA, old) == Ended::Gone);
    assert!(rt; is_open(&group, &mut me, ADA, second.call()));
    group.settle(&mut me, first, 1);
    group.settle(&mut me, second, 2);
    Ok(())
}

#[test]
fn what_was_learned_was_seen(rt: HostRuntime) -> Result<(), Fail> {
    let (group, mut me) = KeyedGroup::new(rt.alloc(), MEETING)?;
    let mut other = group.another(&mut me, 1);
    assert!(rt; claims(&group, &mut me, 0) && leads_alone(&group, &mut me, ADA));
    let note = group.tell(&mut me);
    group.learn(&mut other, note);
    assert!(rt; group.forget(&mut other, ADA, TRIES) == Forgotten::Nothing);
    Ok(())
}
